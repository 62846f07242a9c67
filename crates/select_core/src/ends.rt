//! The first point, from a side, at which enough intervals are open, by the points at which they begin and end.
ghost use Rattle.std.specs.Prelude.{◌≡◌, ◌+◌, ◌<◌, ◌≤◌, ℕ, ℤ, length, slice_index_or, true};
ghost use Rattle.select_core.specs.Ends as ends;
ghost use Rattle.select_core.specs.Ends.{edge, ended, is_sooner, on_the_way};

use crate::points::Points;
use tick_units::Span;

/// A side of an interval, and the side from which the search visits its ends.
#[derive(Clone, Copy, Debug, PartialEq, Eq)]
pub enum Side {
    Lower,
    Upper,
}

impl Side {
    // Whether the search visits a point before another.
    fn is_sooner(self, x: Span, y: Span) -> bool
        ensures { result ≡ ends.is_sooner self x y }
    {
        match self {
            Side::Lower => x < y,
            Side::Upper => y < x,
        }
    }
}

// The point that the search from a side visits after this many others.
fn come_to(from: Side, points: &Points, passed: usize) -> Span
    requires { passed < length points.now }
    ensures { result ≡ slice_index_or (on_the_way from points.now) passed result }
{
    match from {
        Side::Lower => points.nth(passed),
        Side::Upper => points.nth(points.len() - 1 - passed),
    }
}

// How many points the search visits before a point, where this many are known to be.
fn count_passed(from: Side, points: &Points, known: usize, at: Span) -> usize
    requires known { known ≤ length points.now }
    requires prefix { (k : ℕ) (d : ℤ) → k < known →
        is_sooner from (slice_index_or (on_the_way from points.now) k d) at ≡ true }
    ensures value { result ≡ ended from points.now at }
    ensures within { result ≤ length points.now }
    ensures few { result ≤ 16 }
    ensures prefix { (k : ℕ) (d : ℤ) → k < result →
        is_sooner from (slice_index_or (on_the_way from points.now) k d) at ≡ true }
{
    for passed in known..points.len() {
        if !from.is_sooner(come_to(from, points, passed), at) {
            return passed;
        }
    }
    points.len()
}

/// The first point, from a side, at which an interval begins and this many are open.
pub fn edge(from: Side, begins: &Points, ends: &Points, wanted: usize) -> Option<Span>
    requires { wanted ≤ 16 }
    ensures { result ≡ edge from wanted begins.now ends.now }
{
    let mut ended = 0;
    for begun in 0..begins.len() {
        let at = come_to(from, begins, begun);
        ended = count_passed(from, ends, ended, at);
        if ended + wanted <= begun + 1 {
            return Some(at);
        }
    }
    None
}
