//! Intervals of a few sources, on small numbers that can be computed by hand.
ghost use Rattle.std.specs.Prelude.{◌≤◌, length, IsTrue};
ghost use Rattle.select_core.specs.Selection.{are_measured};

use crate::shared::{Found, found, same, source};
use select_core::{Candidate, Chime, select};
use std::process::Abort;
use tick_units::Span;

// The interval of these sources, as numbers.
pub fn selected(sources: &[Candidate]) -> Found
    requires few { length sources.now ≤ 16 }
    requires measured { IsTrue (are_measured sources.now) }
{
    found(select(sources))
}

#[test]
fn a_stray_source_is_outside(rt: HostRuntime) {
    let sources = [source(0, 5, 5), source(1, 7, 5), source(2, 105, 5)];
    same(&rt, selected(&sources), Some((2, 10, 1)));
}

// The last two share 9 to 10, where neither has its offset.
#[test]
fn two_that_are_apart_or_touch_do_not_agree(rt: HostRuntime) {
    same(&rt, selected(&[source(0, 5, 5), source(1, 105, 5)]), None);
    same(&rt, selected(&[source(0, 5, 5), source(1, 15, 5)]), None);
    same(&rt, selected(&[source(0, 5, 5), source(1, 14, 5)]), None);
}

#[test]
fn two_that_overlap_agree(rt: HostRuntime) {
    let sources = [source(0, -1, 5), source(1, 2, 5)];
    same(&rt, selected(&sources), Some((-3, 4, 0)));
}

#[test]
fn one_agrees_with_itself(rt: HostRuntime) {
    same(&rt, selected(&[source(0, 5, 5)]), Some((0, 10, 0)));
    same(&rt, selected(&[]), None);
}

// Two sources at 5, and two at 105.
pub fn two_and_two() -> [Candidate; 4]
    ensures { IsTrue (are_measured result) }
{
    [
        source(0, 5, 5),
        source(1, 5, 5),
        source(2, 105, 5),
        source(3, 105, 5),
    ]
}

// Neither pair is more than half.
#[test]
fn an_even_split_has_no_answer(rt: HostRuntime) {
    same(&rt, selected(&two_and_two()), None);
}

#[test]
fn sixteen_alike_agree(rt: HostRuntime) {
    let sources = [source(0, -7, 3); 16];
    same(&rt, selected(&sources), Some((-10, -4, 0)));
}

// A wide source at 0, and three others.
pub fn wide_and_three() -> [Candidate; 4]
    ensures { IsTrue (are_measured result) }
{
    [
        source(0, 0, 100),
        source(1, 10, 5),
        source(2, 12, 5),
        source(3, 14, 5),
    ]
}

// The others agree on 9 to 15, but the wide one has its offset outside.
#[test]
fn one_that_contains_all_may_stand_outside(rt: HostRuntime) {
    same(&rt, selected(&wide_and_three()), Some((7, 17, 1)));
}

#[test]
fn two_of_five_stand_outside(rt: HostRuntime) {
    let sources = [
        source(0, 1000, 10),
        source(1, 0, 10),
        source(2, 1, 10),
        source(3, 2, 10),
        source(4, -1000, 10),
    ];
    same(&rt, selected(&sources), Some((-8, 10, 2)));
}

// All three meet only in one point; each two share more.
#[test]
fn one_point_is_no_interval(rt: HostRuntime) {
    let sources = [source(0, 5, 5), source(1, 15, 5), source(2, 10, 5)];
    same(&rt, selected(&sources), Some((5, 15, 1)));
}

// The interval of the second begins where that of the first ends, and all that the second and the third share lies beyond. The
// end where the first two touch counts.
#[test]
fn where_two_touch_an_interval_may_begin_or_end(rt: HostRuntime) {
    let upward = [source(0, 5, 5), source(1, 15, 5), source(2, 20, 5)];
    same(&rt, selected(&upward), Some((10, 20, 1)));
    let downward = [source(0, -5, 5), source(1, -15, 5), source(2, -20, 5)];
    same(&rt, selected(&downward), Some((-20, -10, 1)));
}

#[test]
fn the_farthest_and_widest(rt: HostRuntime) {
    let farthest = 1 << 68;
    let widest = 1 << 32;
    let ends = Some((farthest - widest, farthest + widest, 0));
    same(&rt, selected(&[source(0, farthest, 1 << 32)]), ends);
}

// Whether the interval from 2 to 10 holds an offset.
fn holds(rt: &impl Abort, offset: u64, is_in: bool) {
    let chime = Chime {
        low: Span::from(2),
        high: Span::from(10),
        allowed: 1,
    };
    let found = chime.holds(Span::from(offset));
    same(rt, (offset, found), (offset, is_in));
}

#[test]
fn survivors_lie_in_the_interval(rt: HostRuntime) {
    holds(&rt, 1, false);
    holds(&rt, 2, true);
    holds(&rt, 7, true);
    holds(&rt, 10, true);
    holds(&rt, 11, false);
    holds(&rt, 105, false);
}
