//! The fields of a text, read loosely.
ghost use Rattle.std.specs.Prelude.{◌≡◌, ◌<◌, ◌^◌, ◌==◌, ◌∷◌, ℕ, ℤ, List, Some, false, decimal, unsigned_abs, pos};
ghost use Rattle.std.specs.Fmt.{signed_decimal};
ghost use Rattle.std.specs.List.{position};
ghost use Rattle.journal_entry.specs.Texts.{address_text};
ghost use Rattle.journal_entry.specs.Reading.{HasFields, has_space};

use hex::decode_to_slice;
use std::marker::Model;
use tick_units::{Local, Span};

// No number of an entry is as great as this.
const TOO_GREAT: u128 = 1 << 70;

// The fields of a text that are not read yet. They are read loosely: a number may begin with a zero, and what is no number, or
// too great, reads as 0. The reader writes what they say again, and compares.
#[derive(Drop)]
pub struct Fields<'a> {
    rest: &'a [u8],
}

impl<'a> Model for Fields<'a> {
    ghost use Rattle.std.specs.Prelude.{List, ℕ};

    ghost Value = { List ℕ };

    ghost view = { λ f. f.rest.now };
}

impl<'a> Fields<'a> {
    // All fields of a text.
    pub fn new(text: &'a [u8]) -> Fields<'a>
        ensures { result ≡ text.now }
    {
        Fields { rest: text }
    }

    // The next field: the bytes up to a space or to the end.
    pub fn next(&mut self) -> &'a [u8]
        ensures { (field : List ℕ) (fields : List (List ℕ)) → has_space field ≡ false →
            HasFields self.old (field ∷ fields) →
            (result.now ≡ field) × HasFields self.new fields }
    {
        let rest = self.rest;
        match first_space(rest) {
            Some(place) => {
                self.rest = &rest[place + 1..];
                &rest[..place]
            }
            None => {
                self.rest = b"";
                rest
            }
        }
    }

    // The next field as a number below 2^70.
    #[tactic(auto, using(crate::proofs::DigitLaws::no_space))]
    fn next_number(&mut self) -> u128
        ensures { (n : ℕ) (fields : List (List ℕ)) → n < 2 ^ 70 → HasFields self.old (decimal n ∷ fields) →
            (result ≡ n) × HasFields self.new fields }
    {
        value_of(self.next())
    }

    // The next field as a number of 64 bits.
    pub fn next_u64(&mut self) -> u64
        ensures { (n : ℕ) (fields : List (List ℕ)) → n < 2 ^ 64 → HasFields self.old (decimal n ∷ fields) →
            (result ≡ n) × HasFields self.new fields }
    {
        u64::try_from(self.next_number()).unwrap_or(0)
    }

    // The next field as a number of 32 bits.
    pub fn next_u32(&mut self) -> u32
        ensures { (n : ℕ) (fields : List (List ℕ)) → n < 2 ^ 32 → HasFields self.old (decimal n ∷ fields) →
            (result ≡ n) × HasFields self.new fields }
    {
        u32::try_from(self.next_number()).unwrap_or(0)
    }

    // The next field as a number of 8 bits.
    pub fn next_u8(&mut self) -> u8
        ensures { (n : ℕ) (fields : List (List ℕ)) → n < 2 ^ 8 → HasFields self.old (decimal n ∷ fields) →
            (result ≡ n) × HasFields self.new fields }
    {
        u8::try_from(self.next_number()).unwrap_or(0)
    }

    // The next field as a moment.
    pub fn next_moment(&mut self) -> Option<Local>
        ensures { (n : ℕ) (fields : List (List ℕ)) → n < 2 ^ 50 → HasFields self.old (decimal n ∷ fields) →
            (result ≡ Some n) × HasFields self.new fields }
    {
        Local::new(self.next_u64())
    }

    // The next field as a span.
    #[tactic(auto, using(crate::proofs::DigitLaws::no_space_in_span))]
    pub fn next_span(&mut self) -> Span
        ensures { (z : ℤ) (fields : List (List ℕ)) → unsigned_abs z < 2 ^ 70 →
            HasFields self.old (signed_decimal z ∷ fields) →
            (result ≡ z) × HasFields self.new fields }
    {
        span_of(self.next())
    }

    // The next field as a rate.
    pub fn next_rate(&mut self) -> i32
        ensures { (z : ℤ) (fields : List (List ℕ)) → unsigned_abs z < 2 ^ 31 →
            HasFields self.old (signed_decimal z ∷ fields) →
            (result ≡ z) × HasFields self.new fields }
    {
        i32::try_from(self.next_span().get()).unwrap_or(0)
    }

    // The next field as an address.
    #[tactic(auto, using(crate::proofs::AddressLaws::no_space_in_address))]
    pub fn next_address(&mut self) -> u32
        ensures { (n : ℕ) (fields : List (List ℕ)) → n < 2 ^ 32 → HasFields self.old (address_text n ∷ fields) →
            (result ≡ n) × HasFields self.new fields }
    {
        address_of(self.next())
    }
}

// The place of the first space.
fn first_space(text: &[u8]) -> Option<usize>
    ensures { result ≡ position (λ byte. byte == 32) text.now }
{
    text.iter().position(|byte| *byte == b' ')
}

// The number that decimal digits say, where it is below 2^70.
fn value_of(digits: &[u8]) -> u128
    ensures value { (n : ℕ) → n < 2 ^ 70 → digits.now ≡ decimal n → result ≡ n }
    ensures small { result < 2 ^ 70 }
{
    let mut value = 0;
    for byte in digits {
        let Some(digit) = char::from(*byte).to_digit(10) else {
            return 0;
        };
        value = value * 10 + u128::from(digit);
        if value >= TOO_GREAT {
            return 0;
        }
    }
    value
}

// The span that decimal digits say.
fn unsigned_span_of(digits: &[u8]) -> Span
    ensures { (n : ℕ) → n < 2 ^ 70 → digits.now ≡ decimal n → result ≡ pos n }
{
    Span::new(value_of(digits) as i128).unwrap_or(Span::from(0))
}

// The span that decimal digits say after a sign, if there is one.
fn span_of(text: &[u8]) -> Span
    ensures { (z : ℤ) → unsigned_abs z < 2 ^ 70 → text.now ≡ signed_decimal z → result ≡ z }
{
    match text {
        [b'-', digits @ ..] => -unsigned_span_of(digits),
        digits => unsigned_span_of(digits),
    }
}

// The address that eight hexadecimal digits say.
fn address_of(digits: &[u8]) -> u32
    ensures { (n : ℕ) → n < 2 ^ 32 → digits.now ≡ address_text n → result ≡ n }
{
    let mut bytes = [0; 4];
    let _ = decode_to_slice(digits, &mut bytes);
    u32::from_be_bytes(bytes)
}
