//! How far a source may be from the truth.
ghost use Rattle.std.specs.Prelude.{◌≡◌, ◌≤◌, ◌^◌, pos, ◌≤ℤ◌, unsigned_abs};
ghost use Rattle.std.specs.Int.{int_max};
ghost use Rattle.tick_units.specs.Units.{ceil_div, least_dispersion};
ghost use Rattle.clock_filter.specs.Distance.{root_delay_of, root_dispersion_of, distance_of, is_fit_at};

use crate::Figures;
use tick_units::{LEAST_DISPERSION, Local, Span, isqrt, phi};

// Half of the round-trip delay, which counts as at least 5 ms, rounded up.
pub(crate) fn half_of_delay(f: &Figures) -> Span
    requires { unsigned_abs f.now.delay ≤ 2 ^ 68 }
    ensures value { result ≡ ceil_div (int_max (pos least_dispersion) (root_delay_of f.now)) 2 }
    ensures small { unsigned_abs result ≤ 2 ^ 68 }
    ensures least { pos 1 ≤ℤ result }
{
    Span::from(LEAST_DISPERSION).max(root_delay(f)).halved_up(1)
}

// The first stratum that is too far from a reference clock.
pub(crate) const TOO_FAR: u8 = 15;

/// The round-trip delay from the host to the source's reference clock.
pub fn root_delay(f: &Figures) -> Span
    requires { unsigned_abs f.now.delay ≤ 2 ^ 68 }
    ensures value { result ≡ root_delay_of f.now }
    ensures small { unsigned_abs result ≤ 2 ^ 69 }
{
    Span::from(f.root_delay) + f.delay
}

/// How far the source's reference clock and the host may have drifted apart at a moment: the root dispersion and the jitter,
/// without the round-trip delay.
pub fn root_dispersion(f: &Figures, now: Local) -> Span
    requires moment { f.now.newest ≤ now }
    requires newest { f.now.taken_at ≤ f.now.newest }
    requires dispersion { unsigned_abs f.now.dispersion ≤ 2 ^ 68 }
    ensures value { result ≡ root_dispersion_of now f.now }
    ensures small { unsigned_abs result ≤ 2 ^ 69 }
    ensures least { pos 0 ≤ℤ f.now.dispersion → pos 0 ≤ℤ result }
{
    let drift = phi(now.get() - f.taken_at.get());
    Span::from(f.root_disp) + f.dispersion + drift + Span::from(isqrt(f.jitter2))
}

/// How far the source may be from the truth at a moment: its root distance.
pub fn distance(f: &Figures, now: Local) -> Span
    requires moment { f.now.newest ≤ now }
    requires newest { f.now.taken_at ≤ f.now.newest }
    requires delay { unsigned_abs f.now.delay ≤ 2 ^ 68 }
    requires dispersion { unsigned_abs f.now.dispersion ≤ 2 ^ 68 }
    ensures value { result ≡ distance_of now f.now }
    ensures least { pos 0 ≤ℤ f.now.dispersion → pos 1 ≤ℤ result }
{
    half_of_delay(f) + root_dispersion(f, now)
}

/// Whether the source may be selected at a moment: its distance is at most 1 s and its stratum below 15.
pub fn is_fit(f: &Figures, now: Local) -> bool
    requires moment { f.now.newest ≤ now }
    requires newest { f.now.taken_at ≤ f.now.newest }
    requires delay { unsigned_abs f.now.delay ≤ 2 ^ 68 }
    requires dispersion { unsigned_abs f.now.dispersion ≤ 2 ^ 68 }
    ensures { result ≡ is_fit_at now f.now }
{
    distance(f, now) <= Span::from_seconds(1) && f.stratum < TOO_FAR
}
