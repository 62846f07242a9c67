//! Which survivors are left, and their mean, on small numbers that can be computed by hand.
ghost use Rattle.std.specs.Prelude.{◌≡◌, ◌<◌, ◌≤◌, ◌^◌, All, length, pos, neg_ℤ, ◌≤ℤ◌};
ghost use Rattle.cluster_core.specs.Bounds.{AreNear, IsWeighable};

use crate::shared::same;
use cluster_core::{Survivor, Survivors, cluster, combine};
use std::process::Abort;
use tick_units::Span;

// A survivor without its feed. Its distance is one unit more than the given one.
#[derive(Clone, Copy)]
struct Part {
    stratum: u8,
    nearest: u16,
    offset: i32,
    jitter2: u64,
}

fn survivor_of(feed: u32, part: Part) -> Survivor
    ensures measured { IsWeighable result }
    ensures low { neg_ℤ (pos (2 ^ 31)) ≤ℤ result.offset }
    ensures high { result.offset ≤ℤ pos (2 ^ 31) }
{
    Survivor {
        feed,
        stratum: part.stratum,
        distance: Span::from(u64::from(part.nearest) + 1),
        offset: Span::new(i128::from(part.offset)).unwrap(),
        jitter2: u128::from(part.jitter2),
    }
}

// Survivors, whose feeds count from 0.
fn survivors_of(parts: &[Part]) -> Survivors
    requires { length parts.now ≤ 16 }
    ensures count { length result ≡ length parts.now }
    ensures measured { All IsWeighable result }
    ensures near { AreNear result }
{
    let mut survivors = Survivors::new();
    for (feed, part) in parts.iter().enumerate() {
        survivors.add(survivor_of(feed as u32, *part));
    }
    survivors
}

// The feed of the survivor at a place.
fn feed_at(survivors: &Survivors, place: usize) -> Option<u32> {
    match survivors.get(place) {
        Some(survivor) => Some(survivor.feed),
        None => None,
    }
}

// The survivors are these feeds, in this order.
fn are_left(rt: &impl Abort, survivors: &Survivors, feeds: &[u32]) {
    same(rt, survivors.len(), feeds.len());
    for (place, feed) in feeds.iter().enumerate() {
        let found = feed_at(survivors, place);
        same(rt, (place, found), (place, Some(*feed)));
    }
    same(rt, feed_at(survivors, feeds.len()), None);
}

// The feeds of those that are left, and the mean of their offsets.
fn check(rt: &impl Abort, parts: &[Part], feeds: &[u32], mean: i128)
    requires some { 0 < length parts.now }
    requires few { length parts.now ≤ 16 }
{
    let mut survivors = survivors_of(parts);
    cluster(&mut survivors);
    are_left(rt, &survivors, feeds);
    same(rt, combine(&survivors).get(), mean);
}

// Sources of stratum 0 and a distance of 1000 units.
fn of_a_radio(offset: i32, jitter2: u64) -> Part {
    Part {
        stratum: 0,
        nearest: 999,
        offset,
        jitter2,
    }
}

// A source of stratum 0 that agrees with itself to the unit.
fn at(distance_less_one: u16, offset: i32) -> Part {
    Part {
        stratum: 0,
        nearest: distance_less_one,
        offset,
        jitter2: 0,
    }
}

// Three at 0 and one at 40, each with this jitter.
fn three_and_one(jitter2: u64) -> [Part; 4] {
    let near = of_a_radio(0, jitter2);
    [near, near, near, of_a_radio(40, jitter2)]
}

// Three at 0 and one at 40 have selection jitters of 533, 533, 533 and 1600: the fourth goes, unless each one's own jitter is
// greater than that.
#[test]
fn the_farthest_of_four_is_discarded(rt: HostRuntime) {
    check(&rt, &three_and_one(0), &[0, 1, 2], 0);
    check(&rt, &three_and_one(1600), &[0, 1, 2], 0);
    check(&rt, &three_and_one(1601), &[0, 1, 2, 3], 10);
    check(&rt, &three_and_one(2000), &[0, 1, 2, 3], 10);
}

// Four at 0, 1, 5 and 25, each with this jitter.
fn up_to_25(jitter2: u64) -> [Part; 4] {
    [
        of_a_radio(0, jitter2),
        of_a_radio(1, jitter2),
        of_a_radio(5, jitter2),
        of_a_radio(25, jitter2),
    ]
}

// The greatest selection jitter is that of the one at 25: its squared differences from the others sum up to 1601, a third of
// which is 533 2/3, and that counts as 533.
#[test]
fn a_selection_jitter_is_rounded_down(rt: HostRuntime) {
    check(&rt, &up_to_25(533), &[0, 1, 2], 2);
    check(&rt, &up_to_25(534), &[0, 1, 2, 3], 7);
}

// Sources at 7, of these strata and distances less one.
fn of_strata(strata: [u8; 3], nearest: [u16; 3]) -> [Part; 3] {
    let ([a, b, c], [x, y, z]) = (strata, nearest);
    [of_stratum(a, x), of_stratum(b, y), of_stratum(c, z)]
}

fn of_stratum(stratum: u8, nearest: u16) -> Part {
    Part {
        stratum,
        nearest,
        offset: 7,
        jitter2: 0,
    }
}

#[test]
fn survivors_stand_by_stratum_distance_and_feed(rt: HostRuntime) {
    check(&rt, &of_strata([2, 1, 1], [4, 8, 2]), &[2, 1, 0], 7);
    check(&rt, &of_strata([0, 0, 0], [9, 9, 3]), &[2, 0, 1], 7);
}

// Two at 0 and two at 10: all are equally far from the others.
#[test]
fn the_later_of_equally_far_ones_is_discarded(rt: HostRuntime) {
    let low = of_a_radio(0, 0);
    let high = of_a_radio(10, 0);
    check(&rt, &[low, high, low, high], &[0, 1, 2], 3);
}

#[test]
fn three_stay_however_far(rt: HostRuntime) {
    let far = of_a_radio(1_000_000, 0);
    let three = [of_a_radio(0, 0), far, of_a_radio(5, 0)];
    check(&rt, &three, &[0, 1, 2], 333_335);
}

fn from_70_below_to_100() -> [Part; 6] {
    [
        of_a_radio(0, 0),
        of_a_radio(100, 0),
        of_a_radio(1, 0),
        of_a_radio(-70, 0),
        of_a_radio(2, 0),
        of_a_radio(3, 0),
    ]
}

#[test]
fn one_after_another_is_discarded(rt: HostRuntime) {
    check(&rt, &from_70_below_to_100(), &[0, 2, 4], 1);
}

// The one at 100 agrees with itself to the unit. It goes, and has no say then: of the four that are left the selection jitters are
// 533, 533, 533 and 1600, and each one's own is greater.
#[test]
fn a_discarded_one_has_no_say(rt: HostRuntime) {
    let near = of_a_radio(0, 2000);
    let five = [of_a_radio(100, 0), near, near, near, of_a_radio(40, 2000)];
    check(&rt, &five, &[1, 2, 3, 4], 10);
}

// Weights are 2^62 divided by the distance, and the mean is rounded down.
#[test]
fn the_nearer_weighs_more(rt: HostRuntime) {
    check(&rt, &[at(0, 0), at(1, 3)], &[0, 1], 1);
    check(&rt, &[at(1, -1), at(1, 0)], &[0, 1], -1);
    check(&rt, &[at(0, -3), at(2, 5), at(6, 11)], &[0, 1, 2], 0);
    let widest = [at(2, i32::MAX), at(65_535, i32::MIN)];
    check(&rt, &widest, &[0, 1], 2_147_287_047);
    check(&rt, &[at(8, -7)], &[0], -7);
}

// With 2^61 or 2^63 in place of 2^62 the mean would be -9.
#[test]
fn weights_are_rounded_down(rt: HostRuntime) {
    let three = [at(2, -11), at(4, -4), at(8, -12)];
    check(&rt, &three, &[0, 1, 2], -10);
}

#[test]
fn a_list_of_none(rt: HostRuntime) {
    let mut survivors = Survivors::new();
    same(&rt, survivors.is_empty(), true);
    cluster(&mut survivors);
    same(&rt, survivors.len(), 0);
}
