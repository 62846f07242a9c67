//! A station that denies a net and lets each client pass once in a gap, over a link in memory. It has no feed, so an answer has the reference ID
//! `INIT`; a kiss code stands there in its letters (RFC 5905, section 7.4).

use crate::checks::{ONE, REPLY, Reply, TWO, has_sent, have_served};
use crate::fakes::{ASKS, CLIENT, Datagram, WIRE, Wire};
use crate::stations::{CASE, Case, LINK, SECOND_LINK, left};
use outside_traits::Address;
use responder::Served;
use station_crew::{Budget, LinkWork};

const GAP: &str = "gap = 2000000\n";

const DENIED: Address = Address {
    ip: 0x0a01_0203,
    port: 123,
};

const NEIGHBOUR: Address = Address {
    ip: 0x7f00_0002,
    port: 5000,
};

const THIRD: Address = Address {
    ip: 0x7f00_0003,
    port: 5000,
};

// A request of version 4 of the client at 303 s.
const AT_303: Datagram<'static> = Datagram {
    from: CLIENT,
    at: 303_000_000,
    bytes: &[0x23],
    zeros: 47,
};

const PHASES: Case<'static> = Case {
    station: &[GAP, LINK, "[[deny]]\nnet = \"10.0.0.0/8\"\n"],
    limit: 1,
    budget: Budget {
        during: 2,
        after: 3,
    },
    links: &[Wire {
        receives: &[
            AT_303,
            Datagram {
                from: DENIED,
                ..AT_303
            },
            Datagram {
                at: 304_000_000,
                ..AT_303
            },
            Datagram {
                from: NEIGHBOUR,
                at: 304_500_000,
                ..AT_303
            },
            Datagram {
                at: 305_000_000,
                ..AT_303
            },
        ],
        ..WIRE
    }],
    ..CASE
};

// A kiss code to the client.
const RATE: Reply<'static> = Reply {
    id: b"RATE",
    ..REPLY
};

const TO_NEIGHBOUR: Reply<'static> = Reply {
    to: NEIGHBOUR,
    ..REPLY
};

// What is answered and what is kissed in each phase.
const WORK: LinkWork = LinkWork {
    first: Served { kissed: 1, ..ONE },
    second: Some(Served { kissed: 1, ..TWO }),
};

// The client that passed in the first phase asks again in the second, first too soon.
#[test]
fn the_gate_goes_on_from_phase_to_phase(rt: HostRuntime) {
    let ended = left(&rt, rt.alloc(), &PHASES);
    have_served(&rt, &ended, &[WORK]);
    let denied = Reply {
        to: DENIED,
        id: b"DENY",
        ..REPLY
    };
    has_sent(&rt, &ended, 0, &[REPLY, denied, RATE, TO_NEIGHBOUR, REPLY]);
}

const ONCE: Wire<'static> = Wire {
    receives: &[AT_303],
    ..WIRE
};

const TWO_LINKS: Case<'static> = Case {
    station: &[GAP, LINK, SECOND_LINK],
    limit: 1,
    budget: Budget {
        during: 1,
        after: 0,
    },
    links: &[ONCE, ONCE],
    ..CASE
};

// What one link has let pass, the other doesn't know of.
#[test]
fn each_link_has_a_gate_of_its_own(rt: HostRuntime) {
    let ended = left(&rt, rt.alloc(), &TWO_LINKS);
    has_sent(&rt, &ended, 0, &[REPLY]);
    has_sent(&rt, &ended, 1, &[REPLY]);
}

const ROOM_FOR_TWO: Case<'static> = Case {
    station: &[GAP, "clients = 2\n", LINK],
    limit: 1,
    budget: Budget {
        during: 5,
        after: 0,
    },
    links: &[Wire {
        receives: &[
            AT_303,
            Datagram {
                from: NEIGHBOUR,
                at: 303_100_000,
                ..AT_303
            },
            Datagram {
                from: THIRD,
                at: 303_200_000,
                ..AT_303
            },
            Datagram {
                from: NEIGHBOUR,
                at: 303_300_000,
                ..AT_303
            },
            Datagram {
                at: 303_400_000,
                ..AT_303
            },
        ],
        ..WIRE
    }],
    ..CASE
};

// A table of two keeps the two that were let pass last: of three clients the second is known, and the first was forgotten.
#[test]
fn a_table_has_as_many_clients_as_the_station_says(rt: HostRuntime) {
    let ended = left(&rt, rt.alloc(), &ROOM_FOR_TWO);
    let third = Reply { to: THIRD, ..REPLY };
    let known = Reply {
        to: NEIGHBOUR,
        ..RATE
    };
    has_sent(&rt, &ended, 0, &[REPLY, TO_NEIGHBOUR, third, known, REPLY]);
}
