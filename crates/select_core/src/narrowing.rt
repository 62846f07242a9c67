//! The interval that enough sources agree on, by the ends of their intervals in order.
ghost use Rattle.std.specs.Prelude.{◌≡◌, ◌≤◌, ◌≤ℤ◌, ◌-ℤ◌, ◌^◌, pos, length, IsTrue, IfSome};
ghost use Rattle.select_core.specs.KeptSweep.{AreEnds};
ghost use Rattle.select_core.specs.Selection.{are_measured, chime_allowing, chime_of, high_of, low_of};

use crate::ends::{Side, edge};
use crate::intersection::serves;
use crate::points::Points;
use crate::{Candidate, Chime};
use tick_units::Span;

// The least lower end that all intervals but this many contain.
fn low_allowing(
    candidates: &[Candidate],
    lowers: &Points,
    uppers: &Points,
    allowed: u32,
) -> Option<Span>
    requires few { length candidates.now ≤ 16 }
    requires measured { IsTrue (are_measured candidates.now) }
    requires ends { AreEnds candidates.now lowers.now uppers.now }
    requires allowed { allowed ≤ length candidates.now }
    ensures { result ≡ low_of candidates.now allowed }
{
    edge(
        Side::Lower,
        lowers,
        uppers,
        candidates.len() - allowed as usize,
    )
}

// The greatest upper end that all intervals but this many contain.
fn high_allowing(
    candidates: &[Candidate],
    lowers: &Points,
    uppers: &Points,
    allowed: u32,
) -> Option<Span>
    requires few { length candidates.now ≤ 16 }
    requires measured { IsTrue (are_measured candidates.now) }
    requires ends { AreEnds candidates.now lowers.now uppers.now }
    requires allowed { allowed ≤ length candidates.now }
    ensures { result ≡ high_of candidates.now allowed }
{
    edge(
        Side::Upper,
        uppers,
        lowers,
        candidates.len() - allowed as usize,
    )
}

// The interval for a number of sources that may stand outside, if there is one.
fn chime_allowing(
    candidates: &[Candidate],
    lowers: &Points,
    uppers: &Points,
    allowed: u32,
) -> Option<Chime>
    requires few { length candidates.now ≤ 16 }
    requires measured { IsTrue (are_measured candidates.now) }
    requires ends { AreEnds candidates.now lowers.now uppers.now }
    requires allowed { allowed ≤ length candidates.now }
    ensures chime { result ≡ chime_allowing candidates.now allowed }
    ensures narrow { IfSome result (λ chime. (chime.high -ℤ chime.low) ≤ℤ pos (2 ^ 33)) }
{
    let low = low_allowing(candidates, lowers, uppers, allowed)?;
    let high = high_allowing(candidates, lowers, uppers, allowed)?;
    if serves(candidates, allowed, low, high) {
        Some(Chime { low, high, allowed })
    } else {
        None
    }
}

/// The interval for the least number of sources that may stand outside for which there is one.
pub fn narrowed(candidates: &[Candidate], lowers: &Points, uppers: &Points) -> Option<Chime>
    requires few { length candidates.now ≤ 16 }
    requires measured { IsTrue (are_measured candidates.now) }
    requires ends { AreEnds candidates.now lowers.now uppers.now }
    ensures chime { result ≡ chime_of candidates.now }
    ensures narrow { IfSome result (λ chime. (chime.high -ℤ chime.low) ≤ℤ pos (2 ^ 33)) }
{
    for allowed in 0..(candidates.len() as u32).div_ceil(2) {
        if let Some(chime) = chime_allowing(candidates, lowers, uppers, allowed) {
            return Some(chime);
        }
    }
    None
}
