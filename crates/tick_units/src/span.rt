//! Signed lengths of time.
ghost use Rattle.std.specs.Prelude.{◌≡◌, pos, ◌-ℤ◌, ◌*◌, ◌^◌, ◌<◌, ◌≤◌, unsigned_abs, IfSome, IfNone};
ghost use Rattle.std.specs.Int.{int_min, int_max};
ghost use Rattle.tick_units.specs.Units.{floor_div, ceil_div, square};

use crate::Short;
use std::marker::Model;
use std::ops::{Add, Neg, Sub};

/// A signed length of time in units of 2^-32 s (RFC 5905, section 6), less than 2^70 units in size. Contracts see it as
/// its number of units.
#[derive(Clone, Copy, Debug, PartialEq, Eq, PartialOrd, Ord)]
pub struct Span {
    units: i128,
}

impl Model for Span {
    ghost use Rattle.std.specs.Prelude.{ℤ, ◌<◌, ◌^◌, unsigned_abs};

    ghost Value = { ℤ };

    ghost view = { λ s. s.units };

    ghost invariant = { λ s. unsigned_abs s.units < 2 ^ 70 };

    ghost inverse = { λ z. record { units = z } };
}

impl Span {
    /// The span of this number of units, where it is less than 2^70 in size.
    pub fn new(units: i128) -> Option<Span>
        ensures some { IfSome result (λ s. s ≡ units) }
        ensures none { IfNone result (2 ^ 70 ≤ unsigned_abs units) }
    {
        if units.unsigned_abs() < 1 << 70 {
            Some(Span { units })
        } else {
            None
        }
    }

    /// The span of this number of seconds.
    pub fn from_seconds(seconds: u64) -> Span
        requires { seconds < 2 ^ 38 }
        ensures { result ≡ pos (seconds * 2 ^ 32) }
    {
        Span {
            units: i128::from(seconds) << 32,
        }
    }

    /// Its number of units.
    pub fn get(self) -> i128
        ensures value { result ≡ self }
        ensures small { unsigned_abs result < 2 ^ 70 }
    {
        self.units
    }

    /// Its number of units without its sign.
    pub fn unsigned_abs(self) -> u128
        ensures value { result ≡ unsigned_abs self }
        ensures small { result < 2 ^ 70 }
    {
        self.units.unsigned_abs()
    }

    /// The number of units between the two.
    pub fn abs_diff(self, other: Span) -> u128
        ensures { result ≡ unsigned_abs (self -ℤ other) }
    {
        self.units.abs_diff(other.units)
    }

    /// The square of the number of units between the two; that number counts as at most 2^40 (256 s).
    pub fn squared_apart(self, other: Span) -> u128
        ensures value { result ≡ square self other }
        ensures small { result ≤ 2 ^ 80 }
    {
        let apart = self.abs_diff(other).min(1 << 40);
        apart * apart
    }

    /// The lesser of the two.
    pub fn min(self, other: Span) -> Span
        ensures { result ≡ int_min self other }
    {
        if other.units < self.units {
            other
        } else {
            self
        }
    }

    /// The greater of the two.
    pub fn max(self, other: Span) -> Span
        ensures { result ≡ int_max self other }
    {
        if other.units < self.units {
            self
        } else {
            other
        }
    }

    /// Halved this many times, rounded down.
    pub fn halved_down(self, times: u32) -> Span
        requires { times < 64 }
        ensures { result ≡ floor_div self (2 ^ times) }
    {
        Span {
            units: self.units.div_euclid(1 << times),
        }
    }

    /// Halved this many times, rounded up.
    #[tactic(auto, using(crate::proofs::HalfLaws::half_above))]
    pub fn halved_up(self, times: u32) -> Span
        requires { times < 64 }
        ensures { result ≡ ceil_div self (2 ^ times) }
    {
        // Most spans are numbers of 64 bits above 0. A shift halves them, where a quotient of 128 bits takes a call.
        if 0 < self.units && self.units < 1 << 64 {
            Span::from(((self.units as u64 - 1) >> times) + 1)
        } else {
            -(-self).halved_down(times)
        }
    }
}

impl Add for Span {
    ghost use Rattle.std.specs.Prelude.{◌≡◌, ◌+ℤ◌, ◌<◌, ◌^◌, unsigned_abs};

    type Output = Span;

    ghost can_add = { λ x y. unsigned_abs (x +ℤ y) < 2 ^ 70 };

    ghost add_gives = { λ x y sum. sum ≡ x +ℤ y };

    fn add(self, rhs: Span) -> Span {
        Span {
            units: self.units + rhs.units,
        }
    }
}

impl Sub for Span {
    ghost use Rattle.std.specs.Prelude.{◌≡◌, ◌-ℤ◌, ◌<◌, ◌^◌, unsigned_abs};

    type Output = Span;

    ghost can_sub = { λ x y. unsigned_abs (x -ℤ y) < 2 ^ 70 };

    ghost sub_gives = { λ x y rest. rest ≡ x -ℤ y };

    fn sub(self, rhs: Span) -> Span {
        Span {
            units: self.units - rhs.units,
        }
    }
}

impl Neg for Span {
    ghost use Rattle.std.specs.Prelude.{◌≡◌, neg_ℤ};

    type Output = Span;

    ghost neg_gives = { λ x y. y ≡ neg_ℤ x };

    fn neg(self) -> Span {
        Span { units: -self.units }
    }
}

impl From<Short> for Span {
    ghost use Rattle.std.specs.Prelude.{◌≡◌, pos, ◌*◌, ◌^◌, ◌<◌};

    ghost from_gives = { λ short span. (span ≡ pos (short.0 * 65536)) × (short.0 < 2 ^ 32) };

    fn from(short: Short) -> Span {
        Span {
            units: i128::from(short.0) << 16,
        }
    }
}

impl From<u64> for Span {
    ghost use Rattle.std.specs.Prelude.{◌≡◌, pos};

    ghost from_gives = { λ units span. span ≡ pos units };

    fn from(units: u64) -> Span {
        Span {
            units: i128::from(units),
        }
    }
}
