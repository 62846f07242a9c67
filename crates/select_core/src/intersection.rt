//! The interval that enough sources agree on, from a list of them.
ghost use Rattle.std.specs.Prelude.{◌≡◌, ◌≤◌, ◌≤ℤ◌, ◌-ℤ◌, ◌^◌, pos, int_lt, length, Option, IsTrue, IfSome};
ghost use Rattle.tick_units.specs.Orders.{better};
ghost use Rattle.select_core.specs.Selection.{are_measured, chime_allowing, chime_of, cover, high_of, is_held, low_of, outside, serves};

use crate::chime::is_within;
use crate::{Candidate, Chime};
use tick_units::Span;

/// The interval that enough sources agree on (RFC 5905, section 11.2.1, by the ends of the intervals alone). f is the least
/// number of sources, fewer than half of all, that has an interval. The interval runs from the least lower end to the greatest
/// upper end that all intervals but f contain. These two are apart, and at most f offsets lie outside. `None` where no f has one.
/// It is at most 2 s long.
pub fn select(candidates: &[Candidate]) -> Option<Chime>
    requires few { length candidates.now ≤ 16 }
    requires measured { IsTrue (are_measured candidates.now) }
    ensures chime { result ≡ chime_of candidates.now }
    ensures narrow { IfSome result (λ chime. (chime.high -ℤ chime.low) ≤ℤ pos (2 ^ 33)) }
{
    for allowed in 0..(candidates.len() as u32).div_ceil(2) {
        if let Some(chime) = chime_allowing(candidates, allowed) {
            return Some(chime);
        }
    }
    None
}

// The interval for a number of sources that may stand outside, if there is one.
fn chime_allowing(candidates: &[Candidate], allowed: u32) -> Option<Chime>
    requires few { length candidates.now ≤ 16 }
    requires measured { IsTrue (are_measured candidates.now) }
    ensures chime { result ≡ chime_allowing candidates.now allowed }
    ensures narrow { IfSome result (λ chime. (chime.high -ℤ chime.low) ≤ℤ pos (2 ^ 33)) }
{
    let low = low_allowing(candidates, allowed)?;
    let high = high_allowing(candidates, allowed)?;
    if serves(candidates, allowed, low, high) {
        Some(Chime { low, high, allowed })
    } else {
        None
    }
}

// The least lower end that all intervals but this many contain.
fn low_allowing(candidates: &[Candidate], allowed: u32) -> Option<Span>
    requires few { length candidates.now ≤ 16 }
    requires measured { IsTrue (are_measured candidates.now) }
    ensures { result ≡ low_of candidates.now allowed }
{
    let mut low = None;
    for c in candidates {
        let end = c.lower();
        if is_held(candidates, allowed, end) {
            low = lesser(low, end);
        }
    }
    low
}

// The greatest upper end that all intervals but this many contain.
fn high_allowing(candidates: &[Candidate], allowed: u32) -> Option<Span>
    requires few { length candidates.now ≤ 16 }
    requires measured { IsTrue (are_measured candidates.now) }
    ensures { result ≡ high_of candidates.now allowed }
{
    let mut high = None;
    for c in candidates {
        let end = c.upper();
        if is_held(candidates, allowed, end) {
            high = greater(high, end);
        }
    }
    high
}

// The lesser of an end and the least before it, and the greater.
pub(crate) fn lesser(least: Option<Span>, end: Span) -> Option<Span>
    ensures { result ≡ better int_lt least end }
{
    match least {
        Some(before) if before <= end => Some(before),
        _ => Some(end),
    }
}

pub(crate) fn greater(greatest: Option<Span>, end: Span) -> Option<Span>
    ensures { result ≡ better (λ x y. int_lt y x) greatest end }
{
    match greatest {
        Some(before) if end <= before => Some(before),
        _ => Some(end),
    }
}

// Whether all intervals but this many contain a point.
fn is_held(candidates: &[Candidate], allowed: u32, point: Span) -> bool
    requires few { length candidates.now ≤ 16 }
    requires measured { IsTrue (are_measured candidates.now) }
    ensures { result ≡ is_held candidates.now allowed point }
{
    candidates.len() <= cover(candidates, point) + allowed as usize
}

// How many intervals contain a point.
fn cover(candidates: &[Candidate], point: Span) -> usize
    requires few { length candidates.now ≤ 16 }
    requires measured { IsTrue (are_measured candidates.now) }
    ensures count { result ≡ cover candidates.now point }
    ensures few { result ≤ 16 }
{
    let mut count = 0;
    for c in candidates {
        if c.contains(point) {
            count += 1;
        }
    }
    count
}

// Whether two ends are those of an interval for this many sources outside.
pub(crate) fn serves(candidates: &[Candidate], allowed: u32, low: Span, high: Span) -> bool
    requires few { length candidates.now ≤ 16 }
    ensures { result ≡ serves candidates.now allowed low high }
{
    let allowed = allowed as usize;
    2 * allowed < candidates.len() && low < high && outside(candidates, low, high) <= allowed
}

// How many offsets lie outside an interval.
fn outside(candidates: &[Candidate], low: Span, high: Span) -> usize
    requires few { length candidates.now ≤ 16 }
    ensures { result ≡ outside candidates.now low high }
{
    let mut count = 0;
    for c in candidates {
        if !is_within(low, high, c.offset) {
            count += 1;
        }
    }
    count
}
