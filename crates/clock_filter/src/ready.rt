//! The figures of a source, with the part of its distance that does not age.
ghost use Rattle.std.specs.Prelude.{◌≡◌, ℕ, true, ◌≤◌, ◌-◌, ◌*◌, ◌^◌, pos, ◌+ℤ◌, ◌≤ℤ◌, unsigned_abs};
ghost use Rattle.tick_units.specs.Units as units;
ghost use Rattle.tick_units.specs.Units.{root};
ghost use Rattle.clock_filter.specs.Distance.{root_dispersion_of, distance_of, is_fit_at};
ghost use Rattle.clock_filter.specs.Ready as ready;

use crate::Figures;
use crate::distances::{TOO_FAR, half_of_delay};
use crate::roots::root_of;
use std::marker::Model;
use tick_units::{Local, Span, isqrt, phi};

/// The figures of a source, with all of its distance that does not age, computed once. Contracts see it as the figures.
#[derive(Clone, Copy, Debug)]
pub struct Ready {
    figures: Figures,
    dispersion: Span,
    distance: Span,
}

impl Model for Ready {
    ghost use Rattle.std.proofs.Common.{sym};
    ghost use Rattle.clock_filter.specs.Ready.{IsReady, steady_dispersion, steady_distance};
    ghost use Rattle.clock_filter.specs.declared.figures.Figures.{Figures};

    ghost Value = { Figures };

    ghost view = { λ r. r.figures };

    ghost invariant = { λ r. IsReady r.figures r.dispersion r.distance };

    ghost inverse = { λ f. record { figures = f; dispersion = steady_dispersion f; distance = steady_distance f } };

    ghost inverse_ok = { λ a h i. record {
      figures = a.figures;
      dispersion = sym h.dispersion_is i;
      distance = sym h.distance_is i;
    } };
}

// A bound above each delay and dispersion of valid samples.
const LONGEST: u128 = 1 << 68;

// The square root, rounded down. One sample alone has no jitter. A jitter below 1 s is a number of 64 bits, whose root takes a
// few steps.
#[tactic(auto, using(tick_units::proofs::RootLaws::root_from))]
fn jitter_of(jitter2: u128) -> u64
    ensures { result ≡ root jitter2 }
{
    if jitter2 == 0 {
        0
    } else if jitter2 < 1 << 64 {
        root_of(jitter2 as u64)
    } else {
        isqrt(jitter2)
    }
}

// The root dispersion without the drift.
fn steady_dispersion(f: &Figures) -> Span
    requires { unsigned_abs f.now.dispersion ≤ 2 ^ 68 }
    ensures value { result ≡ (pos (f.now.root_disp.0 * 65536) +ℤ f.now.dispersion) +ℤ pos (root f.now.jitter2) }
    ensures small { unsigned_abs result ≤ 2 ^ 69 }
{
    Span::from(f.root_disp) + f.dispersion + Span::from(jitter_of(f.jitter2))
}

// Whether no distance of these figures is longer than a span can be.
fn are_short(f: &Figures) -> bool
    ensures { result ≡ ready.are_short f.now }
{
    f.delay.unsigned_abs() <= LONGEST && f.dispersion.unsigned_abs() <= LONGEST
}

impl Ready {
    // Figures whose distance is no longer than a span can be.
    fn of_short(figures: Figures) -> Ready
        requires { ready.are_short figures ≡ true }
        ensures { result ≡ figures }
    {
        let dispersion = steady_dispersion(&figures);
        let distance = half_of_delay(&figures) + dispersion;
        Ready {
            figures,
            dispersion,
            distance,
        }
    }

    /// These figures.
    pub fn of(figures: Figures) -> Ready
        ensures { result ≡ figures }
    {
        if are_short(&figures) {
            Ready::of_short(figures)
        } else {
            let nothing = Span::from(0);
            Ready {
                figures,
                dispersion: nothing,
                distance: nothing,
            }
        }
    }

    /// The figures.
    pub fn get(&self) -> &Figures
        ensures { result.now ≡ self.now }
    {
        &self.figures
    }

    /// Writes a copy there. Field by field this takes fewer steps than a copy of all of it at once.
    pub fn copy_to(&self, there: &mut Ready)
        ensures { there.new ≡ self.now }
    {
        there.figures = self.figures;
        there.dispersion = self.dispersion;
        there.distance = self.distance;
    }

    // How far the host's counter may have drifted since the best sample.
    fn drift(&self, now: Local) -> Span
        requires { self.now.taken_at ≤ now }
        ensures { result ≡ pos (units.phi (now - self.now.taken_at)) }
    {
        phi(now.get() - self.figures.taken_at.get())
    }

    /// The root dispersion at a moment, as `root_dispersion` gives it of the figures.
    pub fn root_dispersion(&self, now: Local) -> Span
        requires moment { self.now.newest ≤ now }
        requires newest { self.now.taken_at ≤ self.now.newest }
        requires delay { unsigned_abs self.now.delay ≤ 2 ^ 68 }
        requires dispersion { unsigned_abs self.now.dispersion ≤ 2 ^ 68 }
        ensures value { result ≡ root_dispersion_of now self.now }
        ensures least { pos 0 ≤ℤ self.now.dispersion → pos 0 ≤ℤ result }
    {
        self.dispersion + self.drift(now)
    }

    /// The root distance at a moment, as `distance` gives it of the figures.
    pub fn distance(&self, now: Local) -> Span
        requires moment { self.now.newest ≤ now }
        requires newest { self.now.taken_at ≤ self.now.newest }
        requires delay { unsigned_abs self.now.delay ≤ 2 ^ 68 }
        requires dispersion { unsigned_abs self.now.dispersion ≤ 2 ^ 68 }
        ensures value { result ≡ distance_of now self.now }
        ensures least { pos 0 ≤ℤ self.now.dispersion → pos 1 ≤ℤ result }
    {
        self.distance + self.drift(now)
    }

    /// Whether the source may be selected at a moment, as `is_fit` says of the figures.
    pub fn is_fit(&self, now: Local) -> bool
        requires moment { self.now.newest ≤ now }
        requires newest { self.now.taken_at ≤ self.now.newest }
        requires delay { unsigned_abs self.now.delay ≤ 2 ^ 68 }
        requires dispersion { unsigned_abs self.now.dispersion ≤ 2 ^ 68 }
        ensures { result ≡ is_fit_at now self.now }
    {
        self.is_fit_with(self.distance(now))
    }

    /// The same, where this is its root distance at that moment.
    pub fn is_fit_with(&self, distance: Span) -> bool
        ensures { (now : ℕ) → distance ≡ distance_of now self.now → result ≡ is_fit_at now self.now }
    {
        distance <= Span::from_seconds(1) && self.figures.stratum < TOO_FAR
    }
}
