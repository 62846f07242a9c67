//! Reads a text that is a number.
ghost use Rattle.std.specs.Prelude.{◌≡◌, ℕ, ◌<◌, ◌≤◌, ◌^◌, IfSome, None, Some, decimal, length, if◌then◌else◌, ◌==◌};
ghost use Rattle.decimal_text.specs.Numbers.{at_most};
ghost use Rattle.tick_units.specs.Log.{number_of};

use crate::{Number, first_number};

// The value of a number that a text begins with, where it is all of the text.
fn all_of(text: &[u8], number: Number) -> Option<u64>
    ensures { result ≡ if number.length == length text.now then Some number.value else None }
{
    if number.length == text.len() {
        Some(number.value)
    } else {
        None
    }
}

/// The number that a whole text writes. `None` where the text writes no number, or one that is greater than `most`.
pub fn whole_number(text: &[u8], most: u64) -> Option<u64>
    requires { most < 2 ^ 60 }
    ensures said { IfSome result (λ n. text.now ≡ decimal n) }
    ensures small { IfSome result (λ n. n ≤ most) }
    ensures every { (n : ℕ) → n ≤ most → text.now ≡ decimal n → result ≡ Some n }
    ensures value { result ≡ at_most most (number_of text.now) }
{
    match first_number(text, most) {
        Some(number) => all_of(text, number),
        None => None,
    }
}
