//! The fast way for a line that lies whole in the bytes that were read.
ghost use Rattle.std.specs.Prelude.{◌≡◌, ◌+◌, ◌<◌, ◌≤◌, ◌^◌, ◌∷◌, ◌++◌, [], length, take, decimal, IfSome};
ghost use Rattle.pulse_log.specs.Writing.{line_of};

use crate::digits::leading_digits;
use crate::taken::Taken;
use tick_units::{Local, Reduction};

// Each number of at most this number of digits is below 2000000.
const WIDTHS: usize = 6;

/// The line at the beginning of these bytes, where it is valid: its number of bytes, with its line feed, and its reduction. None
/// also where it goes on after them or stands at their very end. None too where its start is 0 or has 16 digits, or its width
/// has 7. Such a line is left to the byte-by-byte reader.
#[inline(always)]
pub fn leading_line(bytes: &[u8]) -> Option<Taken<Reduction>>
    ensures within { IfSome result (λ line. line.count ≤ length bytes.now) }
    ensures some { IfSome result (λ line. 0 < line.count) }
    ensures narrowest { IfSome result (λ line. 1 ≤ line.found.width) }
    ensures widest { IfSome result (λ line. line.found.width ≤ 2000000) }
    ensures text { IfSome result (λ line. take line.count bytes.now ≡ line_of line.found ++ 10 ∷ []) }
{
    let start = leading_number(bytes)?;
    let Some(b' ') = bytes.get(start.count) else {
        return None;
    };
    let rest = bytes.split_at(start.count + 1).1;
    let width = leading_number(rest)?;
    if width.count > WIDTHS {
        return None;
    }
    let Some(b'\n') = rest.get(width.count) else {
        return None;
    };
    let at = Local::new(start.found)?;
    Some(Taken {
        count: start.count + width.count + 2,
        found: Reduction {
            at,
            width: width.found as u32,
        },
    })
}

// The number whose digits are the first of these bytes. None where there is no digit, where the first is 0, and where they cannot
// be read at once.
#[inline(always)]
fn leading_number(bytes: &[u8]) -> Option<Taken<u64>>
    ensures within { IfSome result (λ number. number.count ≤ length bytes.now) }
    ensures text { IfSome result (λ number. take number.count bytes.now ≡ decimal number.found) }
    ensures some { IfSome result (λ number. 0 < number.found) }
    ensures short { IfSome result (λ number. number.count ≤ 6 → number.found < 10 ^ 6) }
{
    let number = leading_digits(bytes)?;
    if number.count == 0 || bytes[0] == b'0' {
        return None;
    }
    Some(number)
}
