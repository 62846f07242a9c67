//! What every receiver does.
ghost use Rattle.std.specs.Prelude.{◌≡◌, ℕ, ◌+◌, ◌++◌, ◌≤◌, ◌==◌, IfSome};
ghost use Rattle.std.specs.Option.{option_to_list};
ghost use Rattle.minute_pair.specs.Years.{BelievesYears};
ghost use Rattle.radio_receiver.specs.Histories.{History, answers_of, is_blank, with_delay, with_reduction};

use tick_units::{Heard, Plan, Reduction};

/// A receiver of a time signal. It takes the reductions of the carrier and answers each complete minute.
pub trait Receiver: Drop {
    /// It stands for its plan, its path delay, and the reductions that it has received since it was made. It has answered as the
    /// definitions do for them.
    ghost stands_for: { Self → History → Type 0 };

    /// The least start, in microseconds, that the next reduction may have: above that of the last one, and 0 where it has
    /// received none.
    ghost least_start: { Self → ℕ };

    /// The code plan that it reads.
    fn plan(&self) -> Plan
        ensures { (h : History) → stands_for self.now h → result ≡ h.plan };

    /// Sets the path delay, at most 100000 microseconds: how long the signal is under way. Each moment of a later answer is less
    /// by it, and not below 0. The receiver has to be blank.
    fn fit(&mut self, delay_us: u32)
        requires blank { least_start self.old ≡ 0 }
        requires delay { delay_us ≤ 100000 }
        ensures fitted { (h : History) → stands_for self.old h → stands_for self.new (with_delay h delay_us) }
        ensures least { least_start self.new ≡ 0 };

    /// Takes the next reduction, and returns the answer that it completes, if it completes one. Starts rise.
    fn hear(&mut self, reduction: Reduction) -> Option<Heard>
        requires { least_start self.old ≤ reduction.at }
        ensures heard { (h : History) → stands_for self.old h → stands_for self.new (with_reduction h reduction) }
        ensures answered { (h : History) → stands_for self.old h →
            answers_of (with_reduction h reduction) ≡ answers_of h ++ option_to_list result }
        ensures least { least_start self.new ≡ reduction.at + 1 }

        // A believed second, and its leap second, lie in the supported years, 2000 to 2099 and a day or two around them.
        ensures years { IfSome result (λ heard. BelievesYears heard.kind) };

    /// Whether it has received nothing.
    fn blank(&self) -> bool
        ensures nothing { (h : History) → stands_for self.now h → result ≡ is_blank h.reductions }
        ensures least { result ≡ (least_start self.now == 0) };
}

/// A receiver of any plan, which can be sent to another thread. It is a receiver itself, which stands for what the one inside stands for.
pub type BoxedReceiver = Box<dyn Receiver + Send>;

impl Receiver for BoxedReceiver {
    ghost stands_for = { λ boxed h. (Receiver-box boxed).stands_for boxed.value h };

    ghost least_start = { λ boxed. (Receiver-box boxed).least_start boxed.value };

    fn plan(&self) -> Plan {
        (**self).plan()
    }

    fn fit(&mut self, delay_us: u32) {
        (**self).fit(delay_us);
    }

    fn hear(&mut self, reduction: Reduction) -> Option<Heard> {
        (**self).hear(reduction)
    }

    fn blank(&self) -> bool {
        (**self).blank()
    }
}
