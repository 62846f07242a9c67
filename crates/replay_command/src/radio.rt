//! A radio of the station, with its receiver.
ghost use Rattle.std.specs.Prelude.{◌≡◌, ◌≤◌, ◌+◌, ◌++◌, IfSome};
ghost use Rattle.std.specs.Option.{option_to_list};
ghost use Rattle.minute_pair.specs.Years.{BelievesYears};
ghost use Rattle.radio_receiver.specs.Histories.{History, answers_of, with_delay, with_reduction};

use crate::BoxedReceiver;
use radio_receiver::Receiver;
use station_gear::fit;
use tick_units::{Heard, Plan, Reduction};

// A radio of the station, with the receiver that it has now.
#[derive(Drop)]
pub struct Radio<B: Drop> {
    receiver: B,
    pub plan: Plan,
    delay_us: u32,
    // The least start that its next pulse may have. A swap leaves it as it is.
    pub least: u64,
    ghost short: { delay_us ≤ 100000 },
}

impl Radio<BoxedReceiver> {
    // A radio with this plan and this delay that has had no pulse, and its first receiver.
    pub fn new(receiver: BoxedReceiver, plan: Plan, delay_us: u32) -> Radio<BoxedReceiver>
        requires blank { least_start receiver ≡ 0 }
        requires delay { delay_us ≤ 100000 }
        ensures plan { result.plan ≡ plan }
        ensures delay { result.delay_us ≡ delay_us }
        ensures least { result.least ≡ 0 }
        ensures fitted { (h : History) → stands_for receiver h → stands_for result.receiver (with_delay h delay_us) }
        ensures ready { least_start result.receiver ≤ result.least }
    {
        Radio {
            receiver: fit(receiver, delay_us),
            plan,
            delay_us,
            least: 0,
        }
    }

    // The next pulse, and the answer that it completes.
    pub fn hear(&mut self, reduction: Reduction) -> Option<Heard>
        requires start { self.old.least ≤ reduction.at }
        requires ready { least_start self.old.receiver ≤ self.old.least }
        ensures plan { self.new.plan ≡ self.old.plan }
        ensures delay { self.new.delay_us ≡ self.old.delay_us }
        ensures least { self.new.least ≡ reduction.at + 1 }
        ensures heard { (h : History) → stands_for self.old.receiver h →
            stands_for self.new.receiver (with_reduction h reduction) }
        ensures answered { (h : History) → stands_for self.old.receiver h →
            answers_of (with_reduction h reduction) ≡ answers_of h ++ option_to_list result }
        ensures ready { least_start self.new.receiver ≤ self.new.least }
        ensures years { IfSome result (λ heard. BelievesYears heard.kind) }
    {
        self.least = reduction.at.get() + 1;
        self.receiver.hear(reduction)
    }

    // Another receiver takes the place of the one that it has, which is dropped.
    pub fn swap(&mut self, receiver: BoxedReceiver)
        requires { least_start receiver ≡ 0 }
        ensures plan { self.new.plan ≡ self.old.plan }
        ensures delay { self.new.delay_us ≡ self.old.delay_us }
        ensures least { self.new.least ≡ self.old.least }
        ensures fitted { (h : History) → stands_for receiver h →
            stands_for self.new.receiver (with_delay h self.old.delay_us) }
        ensures ready { least_start self.new.receiver ≤ self.new.least }
    {
        self.receiver = fit(receiver, self.delay_us);
    }
}
