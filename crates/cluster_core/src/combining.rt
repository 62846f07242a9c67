//! The mean of the offsets by weight.
ghost use Rattle.std.specs.Prelude.{◌≡◌, ◌+◌, ◌*◌, ◌<◌, ◌≤◌, ◌^◌, ℤ, pos, ◌+ℤ◌, ◌-ℤ◌, ◌*ℤ◌, ◌≤ℤ◌, unsigned_abs, All, length, sum_by};
ghost use Rattle.tick_units.specs.Units.{floor_div};
ghost use Rattle.cluster_core.specs.Bounds.{IsWeighable, AreNear};
ghost use Rattle.cluster_core.specs.Mean as means;

use crate::{Survivor, Survivors};
use std::marker::Model;
use tick_units::Span;

// A sum of spans times their weights. Contracts see it as its number of units.
#[derive(Clone, Copy)]
struct WeightedSum {
    units: i128,
}

impl Model for WeightedSum {
    ghost use Rattle.std.specs.Prelude.{ℤ, ◌<◌, ◌^◌, unsigned_abs};

    ghost Value = { ℤ };

    ghost view = { λ s. s.units };

    ghost invariant = { λ s. unsigned_abs s.units < 2 ^ 100 };

    ghost inverse = { λ z. record { units = z } };
}

impl WeightedSum {
    // The sum of no spans.
    fn new() -> WeightedSum
        ensures { result ≡ pos 0 }
    {
        WeightedSum { units: 0 }
    }

    // One span more.
    fn with(self, weight: u64, span: Span) -> WeightedSum
        requires weight { weight ≤ 2 ^ 62 }
        requires span { unsigned_abs span ≤ 2 ^ 33 }
        requires room { unsigned_abs self ≤ 15 * 2 ^ 95 }
        ensures { result ≡ self +ℤ pos weight *ℤ span }
    {
        WeightedSum {
            units: self.units + i128::from(weight) * span.get(),
        }
    }

    // The quotient by the sum of the weights, rounded down.
    fn over(self, weights: u128) -> Span
        requires some { 0 < weights }
        requires many { weights ≤ 2 ^ 66 }
        requires small { unsigned_abs self ≤ weights * 2 ^ 33 }
        ensures value { result ≡ floor_div self weights }
        ensures small { unsigned_abs result ≤ 2 ^ 33 }
    {
        Span::new(self.units.div_euclid(weights as i128)).unwrap()
    }
}

// The weight of a survivor: the nearer, the more.
fn weight_of(x: &Survivor) -> u64
    requires { IsWeighable x.now }
    ensures value { result ≡ means.weight x.now }
    ensures some { 0 < result }
    ensures most { result ≤ 2 ^ 62 }
{
    (1 << 62) / x.distance.unsigned_abs() as u64
}

// How far an offset is from a base.
fn apart(x: &Survivor, base: Span) -> Span
    requires { unsigned_abs (x.now.offset -ℤ base) ≤ 2 ^ 33 }
    ensures value { result ≡ x.now.offset -ℤ base }
    ensures offset { unsigned_abs x.now.offset < 2 ^ 70 }
{
    // Read for its bound: every span is below 2^70.
    let _size = x.offset.unsigned_abs();
    x.offset - base
}

// The mean of the distances from a base by weight, rounded down.
fn mean_apart(base: Span, survivors: &[Survivor]) -> Span
    requires some { 0 < length survivors.now }
    requires few { length survivors.now ≤ 16 }
    requires measured { All IsWeighable survivors.now }
    requires near { All (λ x. unsigned_abs (x.offset -ℤ base) ≤ 2 ^ 33) survivors.now }
    ensures value { base +ℤ result ≡ means.mean survivors.now }
    ensures small { unsigned_abs result ≤ 2 ^ 33 }
    ensures weighs { 0 < sum_by means.weight survivors.now }
    ensures offsets { All (λ x. unsigned_abs x.offset < 2 ^ 70) survivors.now }
{
    let mut sum = WeightedSum::new();
    let mut weights = 0;
    for x in survivors {
        let weight = weight_of(x);
        sum = sum.with(weight, apart(x, base));
        weights += u128::from(weight);
    }
    sum.over(weights)
}

/// The mean of the offsets, rounded down. The nearer a survivor is, the more it counts: its weight is 2^62 divided by its
/// distance, rounded down.
pub fn combine(s: &Survivors) -> Span
    requires some { 0 < length s.now }
    requires measured { All IsWeighable s.now }
    requires near { AreNear s.now }
    ensures mean { result ≡ means.mean s.now }
    ensures least { (low : ℤ) → All (λ x. low ≤ℤ x.offset) s.now → low ≤ℤ result }
    ensures most { (high : ℤ) → All (λ x. x.offset ≤ℤ high) s.now → result ≤ℤ high }
{
    let survivors = s.as_slice();
    let base = survivors[0].offset;
    base + mean_apart(base, survivors)
}
