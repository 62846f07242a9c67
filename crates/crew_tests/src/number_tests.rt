//! The numbers by which responders pass the gate at which a test may hold them: 100 for the station's first link, and one more for
//! each link after it.

use crate::checks::same_count;
use crate::fakes::{ASKED, ASKED_3};
use crate::stations::{CASE, Case, LINK, SECOND_LINK, left_held};
use memory_outside::HoldGate;
use station_crew::Budget;
use std::alloc::Global;
use std::process::Abort;
use std::sync::Wait;
use std::thread::Threads;

// The place that a responder passes after it has received a datagram.
const HEARD: u8 = 2;

// Two links receive one request and three, the first one of each in the first phase.
const TWO_LINKS: Case<'static> = Case {
    station: &[LINK, SECOND_LINK],
    limit: 1,
    budget: Budget {
        during: 1,
        after: 2,
    },
    links: &[ASKED, ASKED_3],
    ..CASE
};

// The worker of this number passes that place so often.
fn passes<R: Abort + Threads + Wait + Sync>(rt: &R, alloc: Global, worker: u32, want: usize) {
    let gate = HoldGate::new(worker, HEARD, worker, HEARD, 0, 0);
    left_held(rt, alloc, &TWO_LINKS, &gate);
    same_count(rt, "passings", gate.passed(rt) as usize, want);
}

#[test]
fn each_responder_has_the_number_of_its_link(rt: HostRuntime) {
    passes(&rt, rt.alloc(), 100, 1);
    passes(&rt, rt.alloc(), 101, 3);
    passes(&rt, rt.alloc(), 102, 0);
}
