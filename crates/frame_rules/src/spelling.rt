//! The symbols of a frame, written one after another.
ghost use Rattle.std.specs.Prelude.{◌≡◌, ◌+◌, ◌<◌, ◌≤◌, List, [], ◌∷◌, ◌++◌, length, take, drop};
ghost use Rattle.frame_rules.specs.Digits.{bit_symbol, high_bits_of, high_digits_of};

use std::marker::Model;
use tick_units::Symbol;

/// The longest frame that there is, and one symbol more.
const ROOM: usize = 61;

/// The symbols of a frame so far, at most 61. Contracts see it as their list.
#[derive(Drop)]
pub struct Spelling {
    symbols: [Symbol; 61],
    count: usize,
}

impl Model for Spelling {
    ghost use Rattle.std.specs.Prelude.{List, take, ◌≤◌};
    ghost use Rattle.tick_units.specs.declared.marks.Symbol.{Symbol};

    ghost Value = { List Symbol };

    ghost view = { λ s. take s.count s.symbols };

    ghost invariant = { λ s. s.count ≤ 61 };
}

impl Spelling {
    /// No symbol yet.
    pub fn new() -> Spelling
        ensures { result ≡ [] }
    {
        Spelling {
            symbols: [Symbol::Zero; ROOM],
            count: 0,
        }
    }

    /// Puts a symbol at the end.
    pub fn push(&mut self, symbol: Symbol)
        requires { length self.old < 61 }
        ensures list { self.new ≡ self.old ++ symbol ∷ [] }
        ensures count { length self.new ≡ length self.old + 1 }
    {
        self.symbols[self.count] = symbol;
        self.count += 1;
    }

    /// Puts the symbols of another spelling at the end.
    pub fn append(&mut self, other: &Spelling)
        requires { length self.old + length other.now ≤ 61 }
        ensures list { self.new ≡ self.old ++ other.now }
        ensures count { length self.new ≡ length self.old + length other.now }
    {
        for symbol in other.as_slice() {
            self.push(*symbol);
        }
    }

    /// Puts `count` low bits of a number at the end, the highest of them first.
    pub fn push_high_bits(&mut self, count: usize, number: u32)
        requires room { length self.old + count ≤ 61 }
        requires few { count ≤ 32 }
        ensures bits { self.new ≡ self.old ++ high_bits_of count number }
        ensures count { length self.new ≡ length self.old + count }
    {
        let mut left = count;
        while left > 0 {
            left -= 1;
            self.push(bit_symbol((number >> left) % 2 == 1));
        }
    }

    /// Puts `count` bits of the tens of a number at the end, and the four bits of its ones, each the highest first.
    pub fn push_high_digits(&mut self, tens: usize, number: u32)
        requires room { length self.old + tens + 4 ≤ 61 }
        requires few { tens ≤ 32 }
        ensures digits { self.new ≡ self.old ++ high_digits_of tens number }
        ensures count { length self.new ≡ length self.old + tens + 4 }
    {
        self.push_high_bits(tens, number / 10);
        self.push_high_bits(4, number % 10);
    }

    /// The symbols in order.
    pub fn as_slice(&self) -> &[Symbol]
        ensures { result.now ≡ self.now }
    {
        &self.symbols[..self.count]
    }

    /// Writes the symbols to the beginning of `out`, and returns their number. The rest of `out` stays.
    pub fn write_to(&self, out: &mut [Symbol; 61]) -> usize
        ensures count { result ≡ length self.now }
        ensures written { out.new ≡ self.now ++ drop (length self.now) out.old }
    {
        out[..self.count].copy_from_slice(&self.symbols[..self.count]);
        self.count
    }
}

/// The symbol of a bit in DCF77 and WWVB, and of a bit A in MSF whose bit B is 0.
pub fn bit_symbol(bit: bool) -> Symbol
    ensures { result ≡ bit_symbol bit }
{
    if bit { Symbol::One } else { Symbol::Zero }
}
