//! A receiver around a receiver, which counts the reductions that it receives.
ghost use Rattle.std.specs.Prelude.{◌≡◌};
ghost use Rattle.radio_receiver.specs.Histories.{History};
ghost use Rattle.radio_receiver.specs.Counting.{count_of};

use crate::receiver::Receiver;
use tick_units::{Heard, Plan, Reduction};

/// A receiver around a receiver. It passes on each call and each answer, and counts the reductions that it receives.
#[derive(Drop)]
pub struct CountingReceiver<T> {
    inner: T,
    count: u64,
}

impl<T: Receiver> CountingReceiver<T> {
    /// A receiver around this blank one, which stands for what that one stands for.
    pub fn new(inner: T) -> CountingReceiver<T>
        requires blank { T.least_start inner ≡ 0 }
        ensures stands { (h : History) → T.stands_for inner h →
            ⟦<CountingReceiver<T> as Receiver>⟧.stands_for result h }
        ensures least { ⟦<CountingReceiver<T> as Receiver>⟧.least_start result ≡ 0 }
    {
        // A blank receiver has received nothing, so there is nothing to count.
        let _blank = inner.blank();
        CountingReceiver { inner, count: 0 }
    }

    /// How many reductions it has received, or `u64::MAX` where there were more.
    pub fn count(&self) -> u64
        ensures { (h : History) → ⟦<CountingReceiver<T> as Receiver>⟧.stands_for self.now h →
            result ≡ count_of h.reductions }
    {
        self.count
    }

    /// The receiver inside, which stands for the same list.
    pub fn into_inner(self) -> T
        ensures stands { (h : History) → ⟦<CountingReceiver<T> as Receiver>⟧.stands_for self h → T.stands_for result h }
        ensures least { T.least_start result ≡ ⟦<CountingReceiver<T> as Receiver>⟧.least_start self }
    {
        self.inner
    }
}

impl<T: Receiver> Receiver for CountingReceiver<T> {
    ghost use Rattle.radio_receiver.specs.Counting.{HasCounted};

    ghost stands_for = { λ counting h. HasCounted T.stands_for counting h };

    ghost least_start = { λ counting. T.least_start counting.inner };

    fn plan(&self) -> Plan {
        self.inner.plan()
    }

    fn fit(&mut self, delay_us: u32) {
        self.inner.fit(delay_us);
    }

    fn hear(&mut self, reduction: Reduction) -> Option<Heard> {
        self.count = self.count.saturating_add(1);
        self.inner.hear(reduction)
    }

    fn blank(&self) -> bool {
        self.inner.blank()
    }
}
