//! Reads the number that a text begins with.
ghost use Rattle.std.specs.Prelude.{◌≡◌, ℕ, ◌++◌, ◌≢◌, ◌<◌, ◌≤◌, ◌^◌, List, IfNone, IfSome, Some, decimal, length, take};
ghost use Rattle.decimal_text.specs.Numbers.{BeginsWith, EndsNumber};
ghost use Rattle.decimal_text.specs.Reading.{SaysSoFar};

// No number but 0 begins with it.
const ZERO: u8 = b'0';

/// A number in decimal without leading zeros, and how many digits it has.
#[derive(Clone, Copy, Debug, PartialEq, Eq)]
pub struct Number {
    /// Its value.
    pub value: u64,
    /// How many digits it has.
    pub length: usize,
}

/// The number that a text begins with, up to the first byte that is no digit. `None` where the text begins with no digit, with a
/// zero before other digits, or with a number that is greater than `most`.
pub fn first_number(text: &[u8], most: u64) -> Option<Number>
    requires { most < 2 ^ 60 }
    ensures number { IfSome result (λ number. BeginsWith text.now most number) }
    ensures every { (n : ℕ) (rest : List ℕ) → n ≤ most → EndsNumber rest → text.now ≡ decimal n ++ rest →
        result ≡ Some (record { value = n; length = length (decimal n) }) }
{
    let mut value = 0;
    for (count, byte) in text.iter().enumerate() {
        let Some(digit) = char::from(*byte).to_digit(10) else {
            return number_of(text, count, value);
        };
        value = value * 10 + u64::from(digit);
        if value > most {
            return None;
        }
    }
    number_of(text, text.len(), value)
}

// The number of the digits that were read, unless there are none or the first of several is a zero.
fn number_of(text: &[u8], count: usize, value: u64) -> Option<Number>
    requires within { count ≤ length text.now }
    requires digits { SaysSoFar text.now count value }
    requires small { value < 2 ^ 60 }
    ensures number { IfSome result
        (λ number. (number.value ≡ value) × (number.length ≡ count) × (take count text.now ≡ decimal value)) }
    ensures none { IfNone result (take count text.now ≢ decimal value) }
{
    if count == 0 {
        return None;
    }
    if count > 1 && text[0] == ZERO {
        return None;
    }
    Some(Number {
        value,
        length: count,
    })
}
