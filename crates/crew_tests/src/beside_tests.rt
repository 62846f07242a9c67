//! Workers that need one another: each station here is served only where its feeds and its links run side by side.

use crate::checks::{WHOLE, has_entries, has_held_once, has_listed, have_polled, have_read, holds};
use crate::fakes::{ANSWERED, ASKED};
use crate::stations::{CASE, Case, Done, LINK, RADIO, SECOND_LINK, SERVER, left_held, left_with};
use feed_workers::{PollEnd, PollWork};
use memory_outside::HoldGate;
use outside_traits::Gate;
use station_crew::Budget;
use std::alloc::Global;
use std::process::Abort;
use std::sync::{Mutex, Wait};
use std::thread::{Threads, sleep};
use std::time::Duration;
use verdict_journal::Journal;

// For how many turns a worker is held at the most: for some seconds.
const TURNS: u64 = 10_000_000;

// For how many milliseconds workers wait for one another at the most.
const WAIT: u32 = 5_000;

const LIST: &str = "3644697600\t36\n3692217600\t37\n";

// Two links receive a request each.
const TWO_LINKS: Case<'static> = Case {
    station: &[LINK, SECOND_LINK],
    limit: 1,
    links: &[ASKED, ASKED],
    ..CASE
};

// Both links have answered once.
fn have_answered(rt: &impl Abort, ended: &Done) {
    for link in &ended.work.links {
        let later = match link.second {
            Some(second) => second.answered,
            None => 0,
        };
        holds(
            rt,
            "one answer",
            link.first.answered.saturating_add(later) == 1,
        );
    }
}

// The requests come in the first phase or in the second. One responder has received, and goes on once the other has answered.
fn answers_after<R: Abort + Threads + Wait + Sync>(
    rt: &R,
    alloc: Global,
    budget: Budget,
    held: u32,
    other: u32,
) {
    let gate = HoldGate::new(held, 2, other, 3, 1, TURNS);
    let ended = left_held(
        rt,
        alloc,
        &Case {
            budget,
            ..TWO_LINKS
        },
        &gate,
    );
    has_held_once(rt, &gate);
    have_answered(rt, &ended);
}

const FIRST_PHASE: Budget = Budget {
    during: 1,
    after: 0,
};

const SECOND_PHASE: Budget = Budget {
    during: 0,
    after: 1,
};

#[test]
fn either_link_answers_while_the_other_waits(rt: HostRuntime) {
    answers_after(&rt, rt.alloc(), FIRST_PHASE, 100, 101);
    answers_after(&rt, rt.alloc(), FIRST_PHASE, 101, 100);
}

#[test]
fn either_link_answers_in_the_second_phase_while_the_other_waits(rt: HostRuntime) {
    answers_after(&rt, rt.alloc(), SECOND_PHASE, 100, 101);
    answers_after(&rt, rt.alloc(), SECOND_PHASE, 101, 100);
}

const LEAP_FILE: &str = "leap_file = \"leap\"\n";

// A radio, a server and a leap second file; and a radio, fourteen servers and a leap second file.
const THREE: Case<'static> = Case {
    station: &[LEAP_FILE, RADIO, SERVER],
    minutes: &[1],
    leap: Some(LIST),
    servers: &[ANSWERED],
    ..CASE
};

const SIXTEEN: Case<'static> = Case {
    station: &[
        LEAP_FILE, RADIO, SERVER, SERVER, SERVER, SERVER, SERVER, SERVER, SERVER, SERVER, SERVER,
        SERVER, SERVER, SERVER, SERVER, SERVER,
    ],
    servers: &[ANSWERED; 14],
    ..THREE
};

// The place of the first entry of a feed in a journal.
fn place_of(rt: &impl Abort, journal: &Journal, feed: u32) -> usize {
    for place in 0..journal.len() {
        if let Some(entry) = journal.get(place) {
            if entry.feed == feed {
                return place;
            }
        }
    }
    panic!(*rt; "no entry of feed {feed}")
}

// Each feed keeps one entry. One feed comes to its entry, and keeps it once another has kept its own.
fn keeps_after<R: Abort + Threads + Wait + Sync>(
    rt: &R,
    alloc: Global,
    case: &Case<'_>,
    entries: usize,
    held: u32,
    other: u32,
) {
    let gate = HoldGate::new(held, 1, other, 4, 1, TURNS);
    let ended = left_held(rt, alloc, case, &gate);
    has_held_once(rt, &gate);
    has_entries(rt, &ended, entries);
    have_read(rt, &ended, &[WHOLE]);
    has_listed(rt, &ended, Some(WHOLE));
    let first = place_of(rt, &ended.journal, other);
    let later = place_of(rt, &ended.journal, held);
    holds(rt, "the order", first < later);
}

// Feed 0 is the radio, feed 15 the leap second file.
#[test]
fn of_sixteen_feeds_the_first_and_the_last_wait_for_one_another(rt: HostRuntime) {
    keeps_after(&rt, rt.alloc(), &SIXTEEN, 16, 0, 15);
    keeps_after(&rt, rt.alloc(), &SIXTEEN, 16, 15, 0);
}

// Feed 0 is the radio, feed 1 the server, feed 2 the leap second file.
#[test]
fn a_radio_and_a_server_wait_for_one_another(rt: HostRuntime) {
    keeps_after(&rt, rt.alloc(), &THREE, 3, 0, 1);
    keeps_after(&rt, rt.alloc(), &THREE, 3, 1, 0);
}

#[test]
fn a_server_and_a_leap_second_file_wait_for_one_another(rt: HostRuntime) {
    keeps_after(&rt, rt.alloc(), &THREE, 3, 1, 2);
    keeps_after(&rt, rt.alloc(), &THREE, 3, 2, 1);
}

// Which workers have come to their place, a bit for each, and whether one has waited for longer than it was to.
#[derive(Drop)]
struct Met {
    come: u32,
    ran_out: bool,
}

// A gate at which each worker waits at a place until this many workers have come to it. It waits by the clock, since turns take as long as
// the host's load has them.
#[derive(Drop)]
struct MeetGate<'a> {
    clock: &'a HostRuntime,
    place: u8,
    workers: u32,
    met: Mutex<Met>,
}

impl<'a> MeetGate<'a> {
    fn new(clock: &'a HostRuntime, place: u8, workers: u32) -> MeetGate<'a> {
        MeetGate {
            clock,
            place,
            workers,
            met: Mutex::new(Met {
                come: 0,
                ran_out: false,
            }),
        }
    }

    // Feeds have the numbers from 0 on, responders those from 100 on.
    fn come<R: Wait>(&self, rt: &R, worker: u32) {
        let mut met = self.met.lock(rt);
        let place = worker % 100;
        if place < 32 {
            met.come |= 1 << place;
        }
    }

    // All have come, or one has given up.
    fn is_open<R: Wait>(&self, rt: &R) -> bool {
        let met = self.met.lock(rt);
        met.ran_out || met.come.count_ones() >= self.workers
    }

    fn hold<R: Wait>(&self, rt: &R) {
        for _ in 0..WAIT {
            if self.is_open(rt) {
                return;
            }
            sleep(self.clock, Duration::from_millis(1));
        }
        let mut met = self.met.lock(rt);
        met.ran_out = true;
    }

    // All have met, and none has given up.
    fn has_met<R: Wait>(&self, rt: &R) -> bool {
        let met = self.met.lock(rt);
        !met.ran_out && met.come.count_ones() >= self.workers
    }
}

impl Gate for MeetGate<'_> {
    fn pass<R: Wait>(&self, rt: &R, worker: u32, place: u8) {
        if place == self.place {
            self.come(rt, worker);
            self.hold(rt);
        }
    }
}

// The workers of a station are at their places at once.
fn meet<R: Abort + Threads + Wait + Sync>(
    rt: &R,
    alloc: Global,
    case: &Case<'_>,
    gate: &MeetGate<'_>,
) -> Done {
    let ended = left_with(rt, alloc, case, gate);
    holds(rt, "all have met", gate.has_met(rt));
    ended
}

#[test]
fn sixteen_feeds_of_all_kinds_meet(rt: HostRuntime) {
    let ended = meet(&rt, rt.alloc(), &SIXTEEN, &MeetGate::new(&rt, 1, 16));
    has_entries(&rt, &ended, 16);
}

const SERVERS: Case<'static> = Case {
    station: &[SERVER; 16],
    servers: &[ANSWERED; 16],
    ..CASE
};

const ROUND: PollWork = PollWork {
    end: PollEnd::Rounds,
    full: false,
};

#[test]
fn sixteen_servers_meet(rt: HostRuntime) {
    let ended = meet(&rt, rt.alloc(), &SERVERS, &MeetGate::new(&rt, 1, 16));
    have_polled(&rt, &ended, &[ROUND; 16]);
}

// Eight links, which receive a request each.
const EIGHT_LINKS: Case<'static> = Case {
    station: &[LINK; 8],
    links: &[ASKED; 8],
    ..TWO_LINKS
};

// Each link has received before any answers.
fn eight_links_meet<R: Abort + Threads + Wait + Sync>(
    rt: &R,
    alloc: Global,
    budget: Budget,
    gate: &MeetGate<'_>,
) {
    let ended = meet(
        rt,
        alloc,
        &Case {
            budget,
            ..EIGHT_LINKS
        },
        gate,
    );
    holds(rt, "eight links", ended.work.links.len() == 8);
    have_answered(rt, &ended);
}

#[test]
fn eight_links_are_served_at_once_in_either_phase(rt: HostRuntime) {
    let alloc = rt.alloc();
    eight_links_meet(&rt, alloc, FIRST_PHASE, &MeetGate::new(&rt, 2, 8));
    eight_links_meet(&rt, alloc, SECOND_PHASE, &MeetGate::new(&rt, 2, 8));
}
