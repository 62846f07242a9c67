// A gate that holds one worker until another has passed.
ghost use Rattle.std.specs.Prelude.{◌≡◌};

use outside_traits::Gate;
use std::sync::{Mutex, Wait};
use std::thread::yield_now;

// A worker and a place that it passes.
#[derive(Clone, Copy, PartialEq, Eq)]
struct Pass {
    worker: u32,
    place: u8,
}

// How often the two workers have passed their places so far, and whether the turns ran out.
#[derive(Drop)]
struct Passed {
    held: u32,
    other: u32,
    ran_out: bool,
}

/// Holds one worker at one place until another one has passed a stated place a stated number of times. It waits for a stated
/// number of turns at most. In each turn another thread may run.
#[derive(Drop)]
pub struct HoldGate {
    held: Pass,
    other: Pass,
    times: u32,
    turns: u64,
    passed: Mutex<Passed>,
}

impl HoldGate {
    /// Holds `worker` at `place` until `other` has passed `other_place` `times` times, for at most `turns` turns.
    pub fn new(
        worker: u32,
        place: u8,
        other: u32,
        other_place: u8,
        times: u32,
        turns: u64,
    ) -> HoldGate
        ensures held { result.held ≡ record { worker = worker; place = place } }
        ensures other { result.other ≡ record { worker = other; place = other_place } }
        ensures times { result.times ≡ times }
        ensures turns { result.turns ≡ turns }
    {
        HoldGate {
            held: Pass { worker, place },
            other: Pass {
                worker: other,
                place: other_place,
            },
            times,
            turns,
            passed: Mutex::new(Passed {
                held: 0,
                other: 0,
                ran_out: false,
            }),
        }
    }

    /// How often the held worker has passed its place. No contract can state it, since other threads write it.
    pub fn passed<R: Wait>(&self, rt: &R) -> u32 {
        self.passed.lock(rt).held
    }

    /// Whether the turns ran out at some passing. No contract can state it, as with `passed`.
    pub fn ran_out<R: Wait>(&self, rt: &R) -> bool {
        self.passed.lock(rt).ran_out
    }

    // Whether the other worker has passed often enough.
    fn is_open<R: Wait>(&self, rt: &R) -> bool {
        self.passed.lock(rt).other >= self.times
    }

    // Waits until the other worker has passed often enough, or the turns run out. Returns whether it has passed.
    fn hold<R: Wait>(&self, rt: &R) -> bool {
        for _ in 0..self.turns {
            if self.is_open(rt) {
                return true;
            }
            yield_now();
        }
        self.is_open(rt)
    }

    // The held worker passes.
    fn pass_held<R: Wait>(&self, rt: &R) {
        let opened = self.hold(rt);
        let mut passed = self.passed.lock(rt);
        passed.held = passed.held.saturating_add(1);
        passed.ran_out = passed.ran_out || !opened;
    }

    // The other worker passes.
    fn pass_other<R: Wait>(&self, rt: &R) {
        let mut passed = self.passed.lock(rt);
        passed.other = passed.other.saturating_add(1);
    }
}

impl Gate for HoldGate {
    fn pass<R: Wait>(&self, rt: &R, worker: u32, place: u8) {
        let pass = Pass { worker, place };
        if pass == self.held {
            self.pass_held(rt);
        }
        if pass == self.other {
            self.pass_other(rt);
        }
    }
}
