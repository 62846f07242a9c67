//! How fast the host's counter gains or loses, by the samples of a source.
ghost use Rattle.std.specs.Prelude.{◌≡◌, ◌++◌, ◌∷◌, [], ◌<◌, ◌≤◌, ◌^◌, List, filter, option_map, nat_le, nat_lt, unsigned_abs, pos, neg_ℤ, ◌-ℤ◌, ◌*ℤ◌};
ghost use Rattle.std.specs.Int.{int_max, int_min};
ghost use Rattle.tick_units.specs.Orders.{better};
ghost use Rattle.tick_units.specs.Units.{floor_div, most_rate};
ghost use Rattle.clock_filter.specs.Rate as rates;
ghost use Rattle.clock_filter.specs.Rate.{earliest, latest, held_rate, rate_between};
ghost use Rattle.clock_filter.specs.declared.taken.Taken.{Taken};

use crate::Taken;
use tick_units::{MOST_RATE, Span};

// Samples nearer to each other than this many microseconds, 30 s, give no rate.
const LEAST_APART: u64 = 30_000_000;

// The first and the last of some samples, by their moments.
#[derive(Clone, Copy)]
struct Ends<'a> {
    first: Option<&'a Taken>,
    last: Option<&'a Taken>,
}

// The sooner of two samples; of equal moments the first.
fn sooner<'a>(first: Option<&'a Taken>, next: &'a Taken) -> Option<&'a Taken>
    ensures { option_map (λ t. t.now) result ≡ better
        (λ y x. nat_lt y.at x.at) (option_map (λ t. t.now) first.entry) next.now }
{
    match first {
        None => Some(next),
        Some(taken) => {
            if next.at < taken.at {
                Some(next)
            } else {
                Some(taken)
            }
        }
    }
}

// The later of two samples; of equal moments the last.
fn later<'a>(last: Option<&'a Taken>, next: &'a Taken) -> Option<&'a Taken>
    ensures { option_map (λ t. t.now) result ≡ better
        (λ y x. nat_le x.at y.at) (option_map (λ t. t.now) last.entry) next.now }
{
    match last {
        None => Some(next),
        Some(taken) => {
            if taken.at <= next.at {
                Some(next)
            } else {
                Some(taken)
            }
        }
    }
}

// These ends, with one sample more.
fn widened<'a>(ends: Ends<'a>, taken: &'a Taken) -> Ends<'a>
    ensures first { (xs : List Taken) → option_map (λ t. t.now) ends.entry.first ≡ earliest xs →
        option_map (λ t. t.now) result.first ≡ earliest (xs ++ taken.now ∷ []) }
    ensures last { (xs : List Taken) → option_map (λ t. t.now) ends.entry.last ≡ latest xs →
        option_map (λ t. t.now) result.last ≡ latest (xs ++ taken.now ∷ []) }
{
    Ends {
        first: sooner(ends.first, taken),
        last: later(ends.last, taken),
    }
}

// The ends of those of these samples that are not from before a moment.
fn ends_of(eight: &[Taken], cut: u64) -> Ends<'_>
    ensures first { option_map (λ t. t.now) result.first ≡ earliest (filter (λ x. nat_le cut x.at) eight.now) }
    ensures last { option_map (λ t. t.now) result.last ≡ latest (filter (λ x. nat_le cut x.at) eight.now) }
{
    let mut ends = Ends {
        first: None,
        last: None,
    };
    for taken in eight {
        if cut <= taken.at.get() {
            ends = widened(ends, taken);
        }
    }
    ends
}

// How many units the offset has grown from one to another, in millionths.
fn grown(before: Span, after: Span) -> i128
    ensures value { result ≡ (after -ℤ before) *ℤ pos (10 ^ 6) }
    ensures small { unsigned_abs result < 2 ^ 92 }
{
    (after.get() - before.get()) * 1_000_000
}

// A quotient, rounded down.
fn quotient(grown: i128, apart: u64) -> i128
    requires some { 0 < apart }
    requires small { unsigned_abs grown < 2 ^ 92 }
    ensures value { result ≡ floor_div grown apart }
    ensures small { unsigned_abs result < 2 ^ 93 }
{
    grown.div_euclid(i128::from(apart))
}

// A rate within its bound.
fn held(rate: i128) -> i32
    requires { unsigned_abs rate < 2 ^ 93 }
    ensures { result ≡ int_max (neg_ℤ (pos most_rate)) (int_min (pos most_rate) rate) }
{
    let most = i128::from(MOST_RATE);
    rate.clamp(-most, most) as i32
}

// How many units the offset has grown a second, from one to another in this many microseconds.
fn grown_a_second(before: Span, after: Span, apart: u64) -> i32
    requires { 0 < apart }
    ensures { result ≡ held_rate before after apart }
{
    held(quotient(grown(before, after), apart))
}

// The rate from one sample to another.
fn rate_from(first: Option<&Taken>, last: Option<&Taken>) -> i32
    ensures { result ≡ rate_between (option_map (λ t. t.now) first.entry) (option_map (λ t. t.now) last.entry) }
{
    match first {
        None => 0,
        Some(first) => match last {
            None => 0,
            Some(last) => {
                let apart = last.at.get().saturating_sub(first.at.get());
                if apart < LEAST_APART {
                    0
                } else {
                    grown_a_second(first.sample.offset, last.sample.offset, apart)
                }
            }
        },
    }
}

/// The rate of those of these samples that are not from before a moment.
pub fn rate_of(eight: &[Taken], cut: u64) -> i32
    ensures value { result ≡ rates.rate_of (filter (λ x. nat_le cut x.at) eight.now) }
{
    let ends = ends_of(eight, cut);
    rate_from(ends.first, ends.last)
}
