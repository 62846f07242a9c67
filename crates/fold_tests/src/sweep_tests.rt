//! A sweep whose candidates come in each order.
ghost use Rattle.std.specs.Prelude.{◌≤◌, ◌^◌, length, IsTrue, unsigned_abs};
ghost use Rattle.select_core.specs.Selection.{are_measured, is_measured};

use crate::selection_tests::{selected, two_and_two, wide_and_three};
use crate::shared::{Found, found, same, source};
use select_core::{Candidate, Chime, Sweep};
use std::process::Abort;

// The interval of candidates that are put one by one.
fn swept(candidates: &[Candidate]) -> Option<Chime>
    requires few { length candidates.now ≤ 16 }
    requires measured { IsTrue (are_measured candidates.now) }
{
    let mut sweep = Sweep::new();
    for c in candidates {
        sweep.put(*c);
    }
    sweep.chime()
}

// The same as numbers.
fn found_by_sweep(candidates: &[Candidate]) -> Found
    requires few { length candidates.now ≤ 16 }
    requires measured { IsTrue (are_measured candidates.now) }
{
    found(swept(candidates))
}

// Three candidates have this interval in each order.
fn in_each_order(rt: &impl Abort, a: &Candidate, b: &Candidate, c: &Candidate, found: Found)
    requires first { IsTrue (is_measured a.now) }
    requires second { IsTrue (is_measured b.now) }
    requires third { IsTrue (is_measured c.now) }
{
    same(rt, found_by_sweep(&[*a, *b, *c]), found);
    same(rt, found_by_sweep(&[*a, *c, *b]), found);
    same(rt, found_by_sweep(&[*b, *a, *c]), found);
    same(rt, found_by_sweep(&[*b, *c, *a]), found);
    same(rt, found_by_sweep(&[*c, *a, *b]), found);
    same(rt, found_by_sweep(&[*c, *b, *a]), found);
}

#[test]
fn three_in_each_order(rt: HostRuntime) {
    let a = source(0, 5, 5);
    let (b, stray) = (source(1, 7, 5), source(2, 105, 5));
    in_each_order(&rt, &a, &b, &stray, Some((2, 10, 1)));
    let (touching, bridge) = (source(2, 15, 5), source(1, 10, 5));
    in_each_order(&rt, &a, &touching, &bridge, Some((5, 15, 1)));
}

// The first two touch at 10, and the second and the third share 15 to 20; and the same downward.
#[test]
fn touching_in_each_order(rt: HostRuntime) {
    let (a, b, c) = (source(0, 5, 5), source(1, 15, 5), source(2, 20, 5));
    in_each_order(&rt, &a, &b, &c, Some((10, 20, 1)));
    let (a, b, c) = (source(0, -5, 5), source(1, -15, 5), source(2, -20, 5));
    in_each_order(&rt, &a, &b, &c, Some((-20, -10, 1)));
}

// The candidate at 5 and another one have this interval in both orders.
fn two_in_both_orders(rt: &impl Abort, offset: i128, found: Found)
    requires { unsigned_abs offset ≤ 2 ^ 68 }
{
    let in_order = [source(0, 5, 5), source(1, offset, 5)];
    same(rt, (offset, found_by_sweep(&in_order)), (offset, found));
    let turned = [source(1, offset, 5), source(0, 5, 5)];
    same(rt, (offset, found_by_sweep(&turned)), (offset, found));
}

#[test]
fn two_in_each_order(rt: HostRuntime) {
    two_in_both_orders(&rt, 105, None);
    two_in_both_orders(&rt, 15, None);
    two_in_both_orders(&rt, 14, None);
    two_in_both_orders(&rt, 8, Some((3, 10, 0)));
}

#[test]
fn one_and_none(rt: HostRuntime) {
    same(&rt, found_by_sweep(&[source(0, 5, 5)]), Some((0, 10, 0)));
    same(&rt, found_by_sweep(&[]), None);
}

// The candidates at 5, 7 and 105.
fn of_three() -> Sweep {
    let mut sweep = Sweep::new();
    sweep.put(source(0, 5, 5));
    sweep.put(source(1, 7, 5));
    sweep.put(source(2, 105, 5));
    sweep
}

// The interval after a feed's candidate is removed.
fn without(sweep: &mut Sweep, feed: u32) -> Found {
    sweep.remove(feed);
    found(sweep.chime())
}

#[test]
fn a_candidate_that_is_removed_counts_no_longer(rt: HostRuntime) {
    let mut sweep = of_three();
    same(&rt, without(&mut sweep, 2), Some((2, 10, 0)));
    same(&rt, without(&mut sweep, 2), Some((2, 10, 0)));
    same(&rt, without(&mut sweep, 0), Some((2, 12, 0)));
    same(&rt, without(&mut sweep, 1), None);
}

// Of feed 0 only the second candidate is there.
#[test]
fn a_feed_has_one_candidate(rt: HostRuntime) {
    let mut sweep = Sweep::new();
    sweep.put(source(0, 5, 5));
    sweep.put(source(0, 50, 3));
    same(&rt, found(sweep.chime()), Some((47, 53, 0)));
}

// The sweep and the selection give the same interval.
fn both_give(rt: &impl Abort, candidates: &[Candidate], found: Found)
    requires few { length candidates.now ≤ 16 }
    requires measured { IsTrue (are_measured candidates.now) }
{
    same(rt, found_by_sweep(candidates), found);
    same(rt, selected(candidates), found);
}

// Ties of lower ends, of upper ends and of both, ends that touch, and one interval within another.
#[test]
fn the_sweep_gives_what_select_gives(rt: HostRuntime) {
    let tied_below = [source(0, 5, 5), source(1, 7, 7), source(2, 9, 9)];
    both_give(&rt, &tied_below, Some((0, 10, 0)));
    let tied_above = [source(0, -5, 5), source(1, -7, 7), source(2, -9, 9)];
    both_give(&rt, &tied_above, Some((-10, 0, 0)));
    let touching = [source(0, 0, 2), source(1, 4, 2), source(2, 8, 2)];
    both_give(&rt, &touching, None);
    both_give(&rt, &wide_and_three(), Some((7, 17, 1)));
    both_give(&rt, &two_and_two(), None);
}

// A source at the number of its feed.
fn at_its_number(feed: u8) -> Candidate
    ensures { IsTrue (is_measured result) }
{
    source(u32::from(feed), i128::from(feed), 100)
}

// All contain the points from -85 to 100.
#[test]
fn sixteen_that_rise(rt: HostRuntime) {
    let sources = [
        at_its_number(0),
        at_its_number(1),
        at_its_number(2),
        at_its_number(3),
        at_its_number(4),
        at_its_number(5),
        at_its_number(6),
        at_its_number(7),
        at_its_number(8),
        at_its_number(9),
        at_its_number(10),
        at_its_number(11),
        at_its_number(12),
        at_its_number(13),
        at_its_number(14),
        at_its_number(15),
    ];
    both_give(&rt, &sources, Some((-85, 100, 0)));
}
