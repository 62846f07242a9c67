//! The fields of a line of a script.
ghost use Rattle.std.specs.Prelude.{◌≡◌, ◌<◌, ◌≤◌, ◌^◌, ◌∷◌, ◌++◌, [], ℕ, nat_eq, length, List, IfSome, Some, decimal};
ghost use Rattle.decimal_text.specs.Numbers.{BeginsWith};
ghost use Rattle.hex.specs.Hex.{encode_lower};
ghost use Rattle.journal_entry.specs.Texts.{spaced};
ghost use Rattle.tick_units.specs.Years.{end_of_supported};
ghost use Rattle.script_line.specs.Datagrams.{IsDatagram};
ghost use Rattle.script_line.specs.Reading.{HasSpaced};

use crate::Datagram;
use decimal_text::{Number, first_number};
use std::marker::Model;
use tick_units::Local;

// The greatest moment.
const LAST: u64 = (1 << 50) - 1;

// The greatest width of a reduction in microseconds.
const WIDEST: u64 = 2_000_000;

// The greatest number of a connection.
const LAST_CONNECTION: u64 = 7;

// The last second of the range, 2100-01-02 23:59:59 UTC.
const LAST_SECOND: u64 = 6_311_606_399;

// The number at the beginning of a text, where it is at most this great and fields follow it, each after a space.
fn number_before(text: &[u8], most: u64) -> Option<Number>
    requires { most < 2 ^ 60 }
    ensures number { IfSome result (λ number. BeginsWith text.now most number) }
    ensures every { (n : ℕ) (fields : List (List ℕ)) → n ≤ most → text.now ≡ decimal n ++ spaced fields →
        result ≡ Some (record { value = n; length = length (decimal n) }) }
{
    first_number(text, most)
}

// The fields of a line that are not read yet, each with a space before it.
#[derive(Drop)]
pub struct Fields<'a> {
    rest: &'a [u8],
}

impl<'a> Model for Fields<'a> {
    ghost use Rattle.std.specs.Prelude.{List, ℕ};

    ghost Value = { List ℕ };

    ghost view = { λ f. f.rest.now };
}

impl<'a> Fields<'a> {
    // All fields of a line, after its keyword.
    pub fn new(rest: &'a [u8]) -> Fields<'a>
        ensures { result ≡ rest.now }
    {
        Fields { rest }
    }

    // The next field as a number that is at most this great.
    fn next_number(&mut self, most: u64) -> Option<u64>
        requires { most < 2 ^ 60 }
        ensures number { IfSome result (λ n. (n ≤ most)
            × ((fields : List (List ℕ)) → HasSpaced self.new fields → HasSpaced self.old (decimal n ∷ fields))) }
        ensures every { (n : ℕ) (fields : List (List ℕ)) → n ≤ most → HasSpaced self.old (decimal n ∷ fields) →
            (result ≡ Some n) × HasSpaced self.new fields }
    {
        let [b' ', digits @ ..] = self.rest else {
            return None;
        };
        let number = number_before(digits, most)?;
        self.rest = &digits[number.length..];
        Some(number.value)
    }

    // The next field as the number of a feed.
    pub fn next_feed(&mut self) -> Option<u32>
        ensures number { IfSome result (λ n. (n < 2 ^ 32)
            × ((fields : List (List ℕ)) → HasSpaced self.new fields → HasSpaced self.old (decimal n ∷ fields))) }
        ensures every { (n : ℕ) (fields : List (List ℕ)) → n < 2 ^ 32 → HasSpaced self.old (decimal n ∷ fields) →
            (result ≡ Some n) × HasSpaced self.new fields }
    {
        let number = self.next_number(u64::from(u32::MAX))?;
        Some(number as u32)
    }

    // The next field as a moment.
    pub fn next_moment(&mut self) -> Option<Local>
        ensures moment { IfSome result (λ n. (n < 2 ^ 50)
            × ((fields : List (List ℕ)) → HasSpaced self.new fields → HasSpaced self.old (decimal n ∷ fields))) }
        ensures every { (n : ℕ) (fields : List (List ℕ)) → n < 2 ^ 50 → HasSpaced self.old (decimal n ∷ fields) →
            (result ≡ Some n) × HasSpaced self.new fields }
    {
        Local::new(self.next_number(LAST)?)
    }

    // The next field as the width of a reduction.
    pub fn next_width(&mut self) -> Option<u32>
        ensures width { IfSome result (λ n. (1 ≤ n) × (n ≤ 2000000)
            × ((fields : List (List ℕ)) → HasSpaced self.new fields → HasSpaced self.old (decimal n ∷ fields))) }
        ensures every { (n : ℕ) (fields : List (List ℕ)) → 1 ≤ n → n ≤ 2000000 →
            HasSpaced self.old (decimal n ∷ fields) →
            (result ≡ Some n) × HasSpaced self.new fields }
    {
        let width = self.next_number(WIDEST)?;
        if width == 0 {
            return None;
        }
        Some(width as u32)
    }

    // The next field as the number of a connection.
    pub fn next_connection(&mut self) -> Option<u8>
        ensures number { IfSome result (λ n. (n < 8)
            × ((fields : List (List ℕ)) → HasSpaced self.new fields → HasSpaced self.old (decimal n ∷ fields))) }
        ensures every { (n : ℕ) (fields : List (List ℕ)) → n < 8 → HasSpaced self.old (decimal n ∷ fields) →
            (result ≡ Some n) × HasSpaced self.new fields }
    {
        let number = self.next_number(LAST_CONNECTION)?;
        Some(number as u8)
    }

    // The next field as a second, counted from 1900-01-01 00:00 UTC.
    pub fn next_second(&mut self) -> Option<u64>
        ensures second { IfSome result (λ n. (n < end_of_supported)
            × ((fields : List (List ℕ)) → HasSpaced self.new fields → HasSpaced self.old (decimal n ∷ fields))) }
        ensures every { (n : ℕ) (fields : List (List ℕ)) → n < end_of_supported → HasSpaced self.old (decimal n ∷ fields) →
            (result ≡ Some n) × HasSpaced self.new fields }
    {
        self.next_number(LAST_SECOND)
    }

    // The one field that is left, as a datagram.
    pub fn datagram(&self) -> Option<Datagram<'a>>
        ensures datagram { IfSome result (λ bytes. IsDatagram bytes × HasSpaced self.now (encode_lower bytes ∷ [])) }
        ensures every { (bytes : List ℕ) → IsDatagram bytes → HasSpaced self.now (encode_lower bytes ∷ []) →
            result ≡ Some bytes }
    {
        let [b' ', digits @ ..] = self.rest else {
            return None;
        };
        Datagram::new(digits)
    }

    // No field is left.
    pub fn is_empty(&self) -> bool
        ensures { result ≡ nat_eq (length self.now) 0 }
    {
        self.rest.is_empty()
    }
}
