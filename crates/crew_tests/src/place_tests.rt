//! What is done before and after each place of the gate. A feed comes to places 1 and 4 before its entry is kept and after it; a responder comes to
//! place 2 before it reads the page, and to place 3 after it has sent.

use crate::checks::{NONE, ONE, REPLY, Reply, has_entries, has_first, has_sent, holds, same_count};
use crate::fakes::{ASKED, ASKS, WIRE, Wire};
use crate::stations::{CASE, Case, LINK, RADIO, left_held, left_with};
use memory_outside::HoldGate;
use outside_traits::Gate;
use responder::{End, Served};
use station_crew::Budget;
use std::alloc::Global;
use std::process::Abort;
use std::sync::{Mutex, Wait};
use std::thread::{Threads, yield_now};

// For how many turns a worker is held at the most: for some seconds.
const TURNS: u64 = 10_000_000;

const ONE_EACH: Budget = Budget {
    during: 1,
    after: 0,
};

// How often the feed has come to its place, whether the responder has answered, and whether one has waited for longer than it was to.
#[derive(Drop)]
struct Pair {
    come: u32,
    answered: bool,
    ran_out: bool,
}

// A gate at which feed 0 and responder 100 wait for one another. The feed waits where it comes to a place for a stated time until the
// responder has answered, and the responder, which has received, reads its page while the feed stands there.
#[derive(Drop)]
struct PairGate {
    place: u8,
    times: u32,
    pair: Mutex<Pair>,
}

impl PairGate {
    fn new(place: u8, times: u32) -> PairGate {
        PairGate {
            place,
            times,
            pair: Mutex::new(Pair {
                come: 0,
                answered: false,
                ran_out: false,
            }),
        }
    }

    // The feed comes: whether it is to wait.
    fn come<R: Wait>(&self, rt: &R) -> bool {
        let mut pair = self.pair.lock(rt);
        pair.come = pair.come.saturating_add(1);
        pair.come == self.times
    }

    fn is_there<R: Wait>(&self, rt: &R) -> bool {
        self.pair.lock(rt).come >= self.times
    }

    fn has_answered<R: Wait>(&self, rt: &R) -> bool {
        self.pair.lock(rt).answered
    }

    fn answer<R: Wait>(&self, rt: &R) {
        let mut pair = self.pair.lock(rt);
        pair.answered = true;
    }

    fn run_out<R: Wait>(&self, rt: &R) {
        let mut pair = self.pair.lock(rt);
        pair.ran_out = true;
    }

    fn hold_feed<R: Wait>(&self, rt: &R) {
        for _ in 0..TURNS {
            if self.has_answered(rt) {
                return;
            }
            yield_now();
        }
        self.run_out(rt);
    }

    fn hold_responder<R: Wait>(&self, rt: &R) {
        for _ in 0..TURNS {
            if self.is_there(rt) {
                return;
            }
            yield_now();
        }
        self.run_out(rt);
    }

    // The two have met, and none has waited for too long.
    fn has_met<R: Wait>(&self, rt: &R) -> bool {
        let ran_out = self.pair.lock(rt).ran_out;
        self.is_there(rt) && self.has_answered(rt) && !ran_out
    }
}

impl Gate for PairGate {
    fn pass<R: Wait>(&self, rt: &R, worker: u32, place: u8) {
        if worker == 0 && place == self.place && self.come(rt) {
            self.hold_feed(rt);
        }
        if worker == 100 && place == 2 {
            self.hold_responder(rt);
        }
        if worker == 100 && place == 3 {
            self.answer(rt);
        }
    }
}

// A radio that receives five minutes, and a link that receives a request.
const FIVE_MINUTES: Case<'static> = Case {
    station: &[RADIO, LINK],
    limit: 9,
    budget: ONE_EACH,
    minutes: &[5],
    links: &[ASKED],
    ..CASE
};

// The same with a journal that is full after three minutes.
const THREE_KEPT: Case<'static> = Case {
    limit: 3,
    ..FIVE_MINUTES
};

// The link is answered so while feed 0 stands at its coming of this number to a place; the journal has so many entries at the end.
fn is_answered_at<R: Abort + Threads + Wait + Sync>(
    rt: &R,
    alloc: Global,
    case: &Case<'_>,
    place: u8,
    times: u32,
    entries: usize,
    want: Reply<'_>,
) {
    let gate = PairGate::new(place, times);
    let ended = left_with(rt, alloc, case, &gate);
    holds(rt, "they have met", gate.has_met(rt));
    has_entries(rt, &ended, entries);
    has_sent(rt, &ended, 0, &[want]);
}

const NO_TIME: Reply<'static> = Reply {
    begin: &[0xe4, 0],
    ..REPLY
};

const TIME: Reply<'static> = Reply {
    begin: &[0x24, 1],
    id: b"DCF\0",
    ..REPLY
};

// Four entries are no time yet, and five are.
#[test]
fn a_feed_keeps_its_entry_between_its_two_places(rt: HostRuntime) {
    is_answered_at(&rt, rt.alloc(), &FIVE_MINUTES, 1, 5, 5, NO_TIME);
    is_answered_at(&rt, rt.alloc(), &FIVE_MINUTES, 4, 5, 5, TIME);
}

// The fourth entry finds the journal full, and the feed comes to both places for it all the same.
#[test]
fn a_feed_comes_to_both_places_for_an_entry_that_is_lost(rt: HostRuntime) {
    is_answered_at(&rt, rt.alloc(), &THREE_KEPT, 1, 4, 3, NO_TIME);
    is_answered_at(&rt, rt.alloc(), &THREE_KEPT, 4, 4, 3, NO_TIME);
}

// The responder of a link whose call of this number fails comes to place 3 so often, and does this: receiving is its first call, sending its second.
fn comes_to_3<R: Abort + Threads + Wait + Sync>(
    rt: &R,
    alloc: Global,
    fails: u64,
    count: usize,
    first: Served,
) {
    let gate = HoldGate::new(100, 3, 0, 1, 0, 1);
    let case = Case {
        station: &[LINK],
        limit: 1,
        budget: ONE_EACH,
        links: &[Wire {
            receives: &[ASKS],
            fails,
            ..WIRE
        }],
        ..CASE
    };
    let ended = left_held(rt, alloc, &case, &gate);
    same_count(rt, "comings", gate.passed(rt) as usize, count);
    has_first(rt, &ended, first);
}

#[test]
fn a_responder_comes_to_place_3_only_where_it_has_sent(rt: HostRuntime) {
    comes_to_3(&rt, rt.alloc(), 0, 1, ONE);
    let end = End::LinkFault;
    comes_to_3(&rt, rt.alloc(), 2, 0, Served { end, ..NONE });
}
