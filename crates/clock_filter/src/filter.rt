//! The clock filter of a source: its last eight samples.
ghost use Rattle.std.specs.Prelude.{◌≡◌, ◌≤◌, ◌^◌, List, [], ◌∷◌, ◌++◌, length, filter, nat_le, option_map, Some, IfSome};
ghost use Rattle.tick_units.specs.Orders.{in_order};
ghost use Rattle.clock_filter.specs.Bounds.{AreValid, IsMeasured, IsTimely};
ghost use Rattle.clock_filter.specs.Figures as figures;
ghost use Rattle.clock_filter.specs.Held.{StandsFor, held, may_precede};
ghost use Rattle.clock_filter.specs.Known.{IsKnown};
ghost use Rattle.clock_filter.specs.declared.taken.Taken.{Taken};

use crate::Taken;
use crate::figures::{Figures, figures_by};
use crate::held::{add_last, held_of, make_room};
use crate::rate::rate_of;
use crate::ready::Ready;
use arrayvec::ArrayVec;
use std::marker::Model;
use tick_units::{Local, Sample};

/// The clock filter of a source: its last eight samples, in place of all that were added. It keeps those from a cut on in the
/// order of their delays, with their figures, which it computes once. Contracts see it as the list of the samples.
#[derive(Drop)]
pub struct Filter {
    last: ArrayVec<Taken, 8>,
    cut: u64,
    held: ArrayVec<Taken, 8>,
    known: Option<Ready>,
}

impl Model for Filter {
    ghost use Rattle.std.specs.Prelude.{◌≡◌, List, filter, nat_le};
    ghost use Rattle.tick_units.specs.Orders.{in_order};
    ghost use Rattle.clock_filter.specs.Held.{may_precede};
    ghost use Rattle.clock_filter.specs.Known.{IsKnown};
    ghost use Rattle.clock_filter.specs.declared.taken.Taken.{Taken};

    ghost Value = { List Taken };

    ghost view = { λ f. f.last.items };

    ghost invariant = { λ f. IsKnown f.cut f.last.items f.known ×
        (f.held.items ≡ in_order may_precede (filter (λ x. nat_le f.cut x.at) f.last.items)) };
}

// The figures of the last samples of a source from a cut on, where those from it on are in order.
#[inline(always)]
fn figures_in_order(cut: u64, last: &[Taken], held: &[Taken]) -> Option<Ready>
    requires few { length held.now ≤ 8 }
    requires held { held.now ≡ in_order may_precede (filter (λ x. nat_le cut x.at) last.now) }
    ensures { IsKnown cut last.now result }
{
    let figures = figures_by(rate_of(last, cut), held)?;
    Some(Ready::of(figures))
}

// Computes them where they stay: a result of this size is copied otherwise.
#[inline(never)]
fn know(known: &mut Option<Ready>, cut: u64, last: &[Taken], held: &[Taken])
    requires few { length held.now ≤ 8 }
    requires held { held.now ≡ in_order may_precede (filter (λ x. nat_le cut x.at) last.now) }
    ensures { IsKnown cut last.now known.new }
{
    *known = figures_in_order(cut, last, held);
}

// The figures of the last samples of a source from a cut on.
#[inline(never)]
fn figures_from(cut: u64, last: &[Taken]) -> Option<Ready>
    requires { length last.now ≤ 8 }
    ensures { IsKnown cut last.now result }
{
    figures_in_order(cut, last, held_of(last, cut).as_slice())
}

impl Filter {
    /// The filter of a source with no samples.
    pub fn new() -> Filter
        ensures { StandsFor result [] }
    {
        Filter {
            last: ArrayVec::new(),
            cut: 0,
            held: ArrayVec::new(),
            known: None,
        }
    }

    /// Adds the source's next sample, and the moment when it was taken.
    pub fn add(&mut self, at: Local, s: Sample)
        ensures { (samples : List Taken) → StandsFor self.old samples →
            StandsFor self.new (samples ++ (record { at = at; sample = s }) ∷ []) }
    {
        let taken = Taken { at, sample: s };
        make_room(&mut self.last, &mut self.held, self.cut);
        add_last(&mut self.last, &mut self.held, &taken, self.cut);
        know(
            &mut self.known,
            self.cut,
            self.last.as_slice(),
            self.held.as_slice(),
        );
    }

    /// Computes the figures from this cut on, in microseconds of the host's counter, so that `figures` has them ready.
    pub fn look_from(&mut self, cut: u64)
        ensures { self.new ≡ self.old }
    {
        if cut != self.cut {
            self.held = held_of(self.last.as_slice(), cut);
            know(
                &mut self.known,
                cut,
                self.last.as_slice(),
                self.held.as_slice(),
            );
            self.cut = cut;
        }
    }

    /// The figures of those of the last eight samples that are not from before `cut`, in microseconds of the host's counter.
    /// `None` where there are no such samples.
    pub fn figures(&self, cut: u64) -> Option<Figures>
        ensures value { (samples : List Taken) → StandsFor self.now samples →
            result ≡ figures.figures_of (held cut samples) }
        ensures timely { IfSome result (IsTimely cut) }
        ensures jitter { IfSome result (λ f. f.jitter2 ≤ 2 ^ 80) }
        ensures measured { (samples : List Taken) → StandsFor self.now samples → AreValid samples →
            IfSome result IsMeasured }
    {
        let ready = self.ready(cut)?;
        Some(*ready.get())
    }

    /// The same figures by reference, with the part of their distance that does not age. `None` also where the last `look_from`
    /// was from another cut.
    pub fn known(&self, cut: u64) -> Option<&Ready>
        ensures value { (samples : List Taken) → StandsFor self.now samples →
            IfSome (option_map (λ r. r.now) result) (λ f. Some f ≡ figures.figures_of (held cut samples)) }
        ensures timely { IfSome (option_map (λ r. r.now) result) (IsTimely cut) }
        ensures jitter { IfSome (option_map (λ r. r.now) result) (λ f. f.jitter2 ≤ 2 ^ 80) }
        ensures measured { (samples : List Taken) → StandsFor self.now samples → AreValid samples →
            IfSome (option_map (λ r. r.now) result) IsMeasured }
    {
        if cut == self.cut {
            self.known.as_ref()
        } else {
            None
        }
    }

    /// The same figures, with the part of their distance that does not age.
    pub fn ready(&self, cut: u64) -> Option<Ready>
        ensures value { (samples : List Taken) → StandsFor self.now samples →
            result ≡ figures.figures_of (held cut samples) }
        ensures timely { IfSome result (IsTimely cut) }
        ensures jitter { IfSome result (λ f. f.jitter2 ≤ 2 ^ 80) }
        ensures measured { (samples : List Taken) → StandsFor self.now samples → AreValid samples →
            IfSome result IsMeasured }
    {
        if cut == self.cut {
            self.known
        } else {
            figures_from(cut, self.last.as_slice())
        }
    }
}
