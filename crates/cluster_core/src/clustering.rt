//! Discards survivors until those that are left agree.
ghost use Rattle.std.specs.Prelude.{◌≡◌, ◌/◌, ◌<◌, ◌≤◌, true, false, All, Contains, List, length, nat_lt, IfSome, IfNone};
ghost use Rattle.std.specs.List.{list_all};
ghost use Rattle.tick_units.specs.Orders.{in_order};
ghost use Rattle.cluster_core.specs.Bounds.{IsWeighable, AreNear};
ghost use Rattle.cluster_core.specs.Clusters.{Clusters, IsWorst, Settles, greatest_jitter, is_at_rest, may_precede, selection_jitter, survivors_left};
ghost use Rattle.cluster_core.specs.Sums.{AreSums};
ghost use Rattle.cluster_core.specs.declared.survivor.Survivor.{Survivor};

use crate::ordering::put_all;
use crate::spread::{Sums, spread_of, sums_of};
use crate::{Survivor, Survivors};
use arrayvec::ArrayVec;

// The least number that is left (NMIN).
const LEAST: usize = 3;

// A quotient, rounded down. Most sums fit in 64 bits, so one step divides them.
fn quotient(sum: u128, count: usize) -> u128
    requires { 0 < count }
    ensures { result ≡ sum / count }
{
    if sum < 1 << 64 {
        u128::from(sum as u64 / count as u64)
    } else {
        sum / count as u128
    }
}

// The mean of the squared distances of the others from one.
fn selection_jitter_of(all: &[Survivor], sums: &Option<Sums>, x: &Survivor) -> u128
    requires some { 1 < length all.now }
    requires few { length all.now ≤ 16 }
    requires kept { IfSome sums.now (λ s. AreSums s all.now) }
    requires member { Contains all.now x.now }
    ensures { result ≡ selection_jitter all.now x.now }
{
    quotient(spread_of(all, sums, x), all.len() - 1)
}

// The last of those with the greatest selection jitter: its place, and that jitter.
#[derive(Clone, Copy)]
struct Worst {
    place: usize,
    jitter: u128,
}

// The last of those with the greatest selection jitter.
fn worst_of(all: &[Survivor]) -> Worst
    requires some { 1 < length all.now }
    requires few { length all.now ≤ 16 }
    ensures place { IsWorst all.now result.place }
    ensures jitter { result.jitter ≡ greatest_jitter all.now }
{
    let sums = sums_of(all);
    let mut worst = Worst {
        place: 0,
        jitter: 0,
    };
    for (place, x) in all.iter().enumerate() {
        let jitter = selection_jitter_of(all, &sums, x);
        if worst.jitter <= jitter {
            worst = Worst { place, jitter };
        }
    }
    worst
}

// Whether each has a jitter above a number.
fn are_above(jitter: u128, all: &[Survivor]) -> bool
    ensures { result ≡ list_all (λ x. nat_lt jitter x.jitter2) all.now }
{
    all.iter().all(|x| jitter < x.jitter2)
}

// The place of the one to discard, and `None` where none has to be discarded.
fn to_discard(all: &[Survivor]) -> Option<usize>
    requires { length all.now ≤ 16 }
    ensures none { IfNone result (is_at_rest all.now ≡ true) }
    ensures some { IfSome result (λ place. (is_at_rest all.now ≡ false) × IsWorst all.now place) }
{
    if all.len() <= LEAST {
        return None;
    }
    let worst = worst_of(all);
    if are_above(worst.jitter, all) {
        None
    } else {
        Some(worst.place)
    }
}

// Discards one after another, until none has to be discarded.
fn settle(left: &mut ArrayVec<Survivor, 16>)
    ensures { Settles left.old.items left.new.items }
{
    while let Some(place) = to_discard(left.as_slice()) {
        left.remove(place);
    }
}

// Puts survivors in order where they lie.
fn arrange(all: &mut ArrayVec<Survivor, 16>)
    ensures { all.new.items ≡ in_order may_precede all.old.items }
{
    put_all(all.as_mut_slice());
}

/// Puts survivors in order: the lowest stratum first, of these the nearest, and then the first feed. Then discards those that
/// agree least with the others, until three are left or the others agree as well as each does with itself.
pub fn cluster(s: &mut Survivors)
    ensures clusters { Clusters s.old s.new }
    ensures only { (left : List Survivor) → Clusters s.old left → left ≡ s.new }
    ensures left { s.new ≡ survivors_left s.old }
    ensures members { All (Contains s.old) s.new }
    ensures some { 0 < length s.old → 0 < length s.new }
    ensures measured { All IsWeighable s.old → All IsWeighable s.new }
    ensures near { AreNear s.old → AreNear s.new }
{
    arrange(&mut s.members);
    settle(&mut s.members);
}
