//! Bits of places, and what they add up to. Places count from 0.
ghost use Rattle.std.specs.Prelude.{◌≡◌, ◌+◌, ◌<◌, ◌≤◌, List, length, sum};
ghost use Rattle.tick_units.specs.Marks.{is_long};
ghost use Rattle.frame_rules.specs.Rules.{is_odd};
ghost use Rattle.frame_rules.specs.Fields.{value, is_odd_over, has_pattern};
ghost use Rattle.tick_units.specs.declared.marks.Mark.{Mark};
ghost use Rattle.frame_rules.specs.Bits.{has_bit};

use crate::places::Places;
use tick_units::Symbol;

/// Which bit of a symbol is read.
#[derive(Clone, Copy, Debug, PartialEq, Eq)]
pub enum Bit {
    /// The only bit that DCF77 and WWVB have: 1 in `One`.
    Only,
    /// Bit A of MSF: 1 in `One` and in `Both`.
    A,
    /// Bit B of MSF: 1 in `OnlyB` and in `Both`.
    B,
}

impl Bit {
    /// Whether this bit of a symbol is 1.
    #[inline]
    pub fn is_in(self, symbol: Symbol) -> bool
        ensures { result ≡ has_bit self symbol }
    {
        match self {
            Bit::Only => symbol == Symbol::One,
            Bit::A => symbol == Symbol::One || symbol == Symbol::Both,
            Bit::B => symbol == Symbol::OnlyB || symbol == Symbol::Both,
        }
    }
}

// Whether a symbol is that of a marker.
#[inline]
pub(crate) fn is_long(symbol: Symbol) -> bool
    ensures { result ≡ is_long symbol }
{
    symbol == Symbol::Long
}

// Whether a symbol says that the width is in no class.
#[inline]
pub(crate) fn is_odd(symbol: Symbol) -> bool
    ensures { result ≡ is_odd symbol }
{
    symbol == Symbol::Odd
}

/// The sum of those weights whose bit is 1, the first weight being that of `place` and each next one that of the next
/// place.
pub fn value<P: Places>(bit: Bit, segment: &P, place: usize, weights: &[u8]) -> u16
    requires { place + length weights.now ≤ 61 }
    ensures value { (marks : List Mark) → P.stands_for segment.now marks →
        result ≡ value (has_bit bit) marks place weights.now }
    ensures most { result ≤ sum weights.now }
{
    let mut sum = 0;
    for (i, weight) in weights.iter().enumerate() {
        if segment.is_set(bit, place + i) {
            sum += u16::from(*weight);
        }
    }
    sum
}

/// Whether an odd number of the places from `first` to `last`, both included, have the bit 1.
pub fn is_odd_over<P: Places>(bit: Bit, segment: &P, first: usize, last: usize) -> bool
    requires in_order { first ≤ last }
    requires places { last < 61 }
    ensures { (marks : List Mark) → P.stands_for segment.now marks →
        result ≡ is_odd_over (has_bit bit) marks first last }
{
    let mut ones = 0u32;
    for place in first..last + 1 {
        if segment.is_set(bit, place) {
            ones += 1;
        }
    }
    ones % 2 == 1
}

/// Whether the bits of the places from `first` on are these.
pub fn has_pattern<P: Places>(bit: Bit, segment: &P, first: usize, pattern: &[bool]) -> bool
    requires { first + length pattern.now ≤ 61 }
    ensures { (marks : List Mark) → P.stands_for segment.now marks →
        result ≡ has_pattern (has_bit bit) marks first pattern.now }
{
    for (i, wanted) in pattern.iter().enumerate() {
        if segment.is_set(bit, first + i) != *wanted {
            return false;
        }
    }
    true
}
