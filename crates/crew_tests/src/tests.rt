//! Stations in both phases.

use crate::checks::{
    FULL, ONE, REPLY, Reply, TWO, WHOLE, has_entries, has_events, has_lines, has_sent, have_polled,
    have_read, have_served,
};
use crate::fakes::{ANSWERED, ASKED, ASKED_2, ASKED_3, ASKS, WIRE, Wire};
use crate::stations::{CASE, Case, LINK, RADIO, SECOND_LINK, SERVER, left, left_held};
use feed_workers::{PollEnd, PollWork};
use memory_outside::HoldGate;
use responder::{End, Served};
use station_crew::{Budget, LinkWork};

const ONE_EACH: Budget = Budget {
    during: 1,
    after: 1,
};

const LONE: &str = "0 62000000 lone 3976257600\n";

const SAMPLE: &str = "0 1010000 sample 17077897383243199545 40802189 8837 2 7f000001 256 512\n";

// Both of the radio's entries, and the server's after them.
const OF_BOTH: &str = "0 62000000 lone 3976257600\n0 122000000 verdict 3976257660 0\n\
1 1010000 sample 17077897383243199545 40802189 8837 2 7f000001 256 512\n";

// A radio that receives six minutes, and a link that receives two requests.
const SIX_MINUTES: Case<'static> = Case {
    station: &[RADIO, LINK],
    limit: 9,
    budget: ONE_EACH,
    minutes: &[6],
    links: &[ASKED_2],
    ..CASE
};

// A link that answers once in each phase.
const TWICE: LinkWork = LinkWork {
    first: ONE,
    second: Some(ONE),
};

// A reply without time, and one from the page of all entries.
const NO_TIME: Reply<'static> = Reply {
    begin: &[0xe4, 0],
    ..REPLY
};

const TIME: Reply<'static> = Reply {
    begin: &[0x24, 1],
    id: b"DCF\0",
    second: &[0xed, 0x00, 0xe1, 0x6d],
    ..REPLY
};

// The radio's first entry waits until the responder has answered; so the first answer is from no entry, and the second from all. Five samples make
// a source fit, and the last one is of 12:05 at 362 s.
#[test]
fn a_link_is_answered_in_both_phases(rt: HostRuntime) {
    let gate = HoldGate::new(0, 1, 100, 3, 1, 1_000_000_000);
    let ended = left_held(&rt, rt.alloc(), &SIX_MINUTES, &gate);
    has_entries(&rt, &ended, 6);
    have_read(&rt, &ended, &[WHOLE]);
    have_served(&rt, &ended, &[TWICE]);
    has_sent(&rt, &ended, 0, &[NO_TIME, TIME]);
}

const ASKED_ONCE: Case<'static> = Case {
    budget: Budget {
        during: 1,
        after: 0,
    },
    links: &[ASKED],
    ..SIX_MINUTES
};

// The responder waits until all six entries are in the journal.
#[test]
fn the_first_phase_answers_from_the_journal_so_far(rt: HostRuntime) {
    let gate = HoldGate::new(100, 2, 0, 4, 6, 1_000_000_000);
    let ended = left_held(&rt, rt.alloc(), &ASKED_ONCE, &gate);
    has_sent(&rt, &ended, 0, &[TIME]);
}

const NO_FEEDS: Case<'static> = Case {
    station: &[LINK],
    limit: 1,
    budget: Budget {
        during: 2,
        after: 1,
    },
    links: &[Wire {
        receives: &[ASKS; 5],
        ..WIRE
    }],
    ..CASE
};

#[test]
fn a_station_without_feeds_is_served(rt: HostRuntime) {
    let ended = left(&rt, rt.alloc(), &NO_FEEDS);
    has_entries(&rt, &ended, 0);
    have_read(&rt, &ended, &[]);
    have_polled(&rt, &ended, &[]);
    have_served(
        &rt,
        &ended,
        &[LinkWork {
            first: TWO,
            second: Some(ONE),
        }],
    );
}

const ROOM_FOR_ONE: Case<'static> = Case {
    station: &[RADIO],
    limit: 1,
    minutes: &[2],
    ..CASE
};

#[test]
fn a_full_journal_keeps_a_prefix(rt: HostRuntime) {
    let ended = left(&rt, rt.alloc(), &ROOM_FOR_ONE);
    has_lines(&rt, rt.alloc(), &ended, LONE);
    have_read(&rt, &ended, &[FULL]);
}

const TWO_LINKS: Case<'static> = Case {
    station: &[LINK, SECOND_LINK],
    limit: 1,
    budget: Budget {
        during: 2,
        after: 2,
    },
    links: &[ASKED, ASKED_3],
    ..CASE
};

// What ends at the end of its link.
const ENDED: Served = Served {
    end: End::LinkEnd,
    ..ONE
};

#[test]
fn a_link_that_ends_has_no_second_phase(rt: HostRuntime) {
    let ended = left(&rt, rt.alloc(), &TWO_LINKS);
    have_served(
        &rt,
        &ended,
        &[
            LinkWork {
                first: ENDED,
                second: None,
            },
            LinkWork {
                first: TWO,
                second: Some(ENDED),
            },
        ],
    );
    has_events(&rt, &ended, 0, 4);
    has_events(&rt, &ended, 1, 10);
}

const POLLED: Case<'static> = Case {
    station: &[SERVER],
    limit: 9,
    servers: &[ANSWERED],
    ..CASE
};

#[test]
fn a_server_is_polled(rt: HostRuntime) {
    let ended = left(&rt, rt.alloc(), &POLLED);
    has_lines(&rt, rt.alloc(), &ended, SAMPLE);
    let end = PollEnd::Rounds;
    have_polled(&rt, &ended, &[PollWork { end, full: false }]);
}

const BOTH: Case<'static> = Case {
    station: &[SERVER, RADIO],
    minutes: &[2],
    ..POLLED
};

// The poller waits at the gate until both of the radio's entries are in the journal.
#[test]
fn radios_are_numbered_before_servers(rt: HostRuntime) {
    let gate = HoldGate::new(1, 1, 0, 4, 2, 1_000_000_000);
    let ended = left_held(&rt, rt.alloc(), &BOTH, &gate);
    has_lines(&rt, rt.alloc(), &ended, OF_BOTH);
}
