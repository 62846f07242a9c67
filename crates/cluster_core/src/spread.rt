//! How far the others are from a survivor.
ghost use Rattle.std.specs.Prelude.{◌≡◌, ◌+◌, ◌*◌, ◌<◌, ◌≤◌, ◌^◌, ◌≤ℤ◌, All, Contains, List, length, sum_by, ◌++◌, ◌∷◌, [], IfSome};
ghost use Rattle.tick_units.specs.Units.{square};
ghost use Rattle.cluster_core.specs.Sums as specs;
ghost use Rattle.cluster_core.specs.declared.survivor.Survivor.{Survivor};

use crate::Survivor;
use tick_units::Span;

/// Two sums over survivors: of their offsets' distances from the least of them, and of the squares of these.
#[derive(Clone, Copy)]
pub struct Sums {
    pub base: Span,
    pub sum: u128,
    pub squares: u128,
}

// Distances above 256 s count as 256 s.
const FARTHEST: u128 = 1 << 40;

// The least offset.
fn least_of(all: &[Survivor]) -> Span
    requires { 0 < length all.now }
    ensures { All (λ x. result ≤ℤ x.offset) all.now }
{
    let mut least = all[0].offset;
    for x in all {
        least = least.min(x.offset);
    }
    least
}

impl Sums {
    // With one survivor more, this far from the base.
    fn with(self, apart: u128) -> Sums
        requires near { apart ≤ 2 ^ 40 }
        requires sum { self.sum ≤ 15 * 2 ^ 40 }
        requires squares { self.squares ≤ 15 * 2 ^ 80 }
        ensures { result ≡ record { base = self.base; sum = self.sum + apart; squares = self.squares + apart * apart } }
    {
        Sums {
            base: self.base,
            sum: self.sum + apart,
            squares: self.squares + apart * apart,
        }
    }
}

/// The sums of survivors, where no two are so far apart that their distance counts as less than it is.
pub fn sums_of(all: &[Survivor]) -> Option<Sums>
    requires some { 0 < length all.now }
    requires few { length all.now ≤ 16 }
    ensures { IfSome result (λ s. specs.AreSums s all.now) }
{
    let mut sums = Sums {
        base: least_of(all),
        sum: 0,
        squares: 0,
    };
    for x in all {
        let apart = x.offset.abs_diff(sums.base);
        if apart > FARTHEST {
            return None;
        }
        sums = sums.with(apart);
    }
    Some(sums)
}

// The sum of the squared distances from one survivor, by the sums. The square of a - b is that of a, less twice a times b, plus
// that of b.
fn spread_by(all: &[Survivor], sums: &Sums, x: &Survivor) -> u128
    requires few { length all.now ≤ 16 }
    requires kept { specs.AreSums sums.now all.now }
    requires member { Contains all.now x.now }
    ensures { result ≡ sum_by (λ y. square y.offset x.now.offset) all.now }
{
    let apart = x.offset.abs_diff(sums.base);
    all.len() as u128 * (apart * apart) + sums.squares - 2 * apart * sums.sum
}

// The same, one by one.
fn spread_from(all: &[Survivor], x: &Survivor) -> u128
    requires { length all.now ≤ 16 }
    ensures { result ≡ sum_by (λ y. square y.offset x.now.offset) all.now }
{
    let mut sum = 0;
    for y in all {
        sum += y.offset.squared_apart(x.offset);
    }
    sum
}

/// The sum of the squared distances from one survivor, by the sums where there are any.
pub fn spread_of(all: &[Survivor], sums: &Option<Sums>, x: &Survivor) -> u128
    requires few { length all.now ≤ 16 }
    requires kept { IfSome sums.now (λ s. specs.AreSums s all.now) }
    requires member { Contains all.now x.now }
    ensures { result ≡ sum_by (λ y. square y.offset x.now.offset) all.now }
{
    match sums {
        Some(sums) => spread_by(all, sums, x),
        None => spread_from(all, x),
    }
}
