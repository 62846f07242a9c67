//! The interval that all sources agree on.
ghost use Rattle.std.specs.Prelude.{◌≡◌, ◌≤◌, ◌≤ℤ◌, ◌-ℤ◌, ◌^◌, pos, length, Some, IsTrue, IfSome};
ghost use Rattle.select_core.specs.KeptSweep.{AreEnds};
ghost use Rattle.select_core.specs.Selection.{are_measured, chime_of};

use crate::intersection::serves;
use crate::points::Points;
use crate::{Candidate, Chime};

/// The interval that all intervals contain, from the greatest lower end to the least upper one, where all offsets lie in it. Most
/// often there is one, and then selection finds the same one. `None` says nothing.
pub fn unanimous(candidates: &[Candidate], lowers: &Points, uppers: &Points) -> Option<Chime>
    requires few { length candidates.now ≤ 16 }
    requires measured { IsTrue (are_measured candidates.now) }
    requires ends { AreEnds candidates.now lowers.now uppers.now }
    ensures chime { IfSome result (λ chime. chime_of candidates.now ≡ Some chime) }
    ensures narrow { IfSome result (λ chime. (chime.high -ℤ chime.low) ≤ℤ pos (2 ^ 33)) }
{
    let low = lowers.greatest()?;
    let high = uppers.least()?;
    if serves(candidates, 0, low, high) {
        Some(Chime {
            low,
            high,
            allowed: 0,
        })
    } else {
        None
    }
}
