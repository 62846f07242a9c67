//! The digits at the beginning of eight bytes, which are read as one word.
ghost use Rattle.std.specs.Prelude.{◌≡◌, ◌+◌, ◌*◌, ◌%◌, ◌-◌, ◌^◌, ◌<◌, ◌≤◌, ℕ, List, IfSome};
ghost use Rattle.pulse_log.specs.Words.{IsWordOf, FlagsFromTen, WritesNumber, SpellsPrefix};

use crate::taken::Taken;

// Eight bytes that are the digit 0.
const ZEROS: u64 = 0x3030_3030_3030_3030;

// The eighth bit of each byte, and what brings those of at least ten to it.
const EIGHTH: u64 = 0x8080_8080_8080_8080;

const FROM_TEN: u64 = 0x7676_7676_7676_7676;

// The lowest byte of each half.
const LOWEST: u64 = 0x0000_00ff_0000_00ff;

// Eighth bits of bytes, the lowest in the first byte that is at least ten. A sum that carries into the byte after it has its own
// byte's bit, so only bits after the lowest can be wrong.
#[inline]
fn flags_from_ten(word: u64) -> u64
    ensures { FlagsFromTen word result }
{
    (word.wrapping_add(FROM_TEN) | word) & EIGHTH
}

// The number whose eight digits these bytes are, the first one the lowest: digits are joined to pairs, and pairs by two products.
#[inline]
fn value_of_eight(word: u64) -> u64
    ensures { WritesNumber word result }
{
    let pairs = word.wrapping_mul(10).wrapping_add(word >> 8);
    let odd = (pairs & LOWEST).wrapping_mul(4_294_967_296_000_100);
    let even = ((pairs >> 16) & LOWEST).wrapping_mul(42_949_672_960_001);
    odd.wrapping_add(even) >> 32
}

// The first `count` bytes moved to the end, with zeros before them.
#[inline]
fn keep_first(word: u64, count: u32) -> u64
    requires { count < 8 }
    ensures { result ≡ word * 256 ^ (8 - count) % 2 ^ 64 }
{
    word << (56 - 8 * count) << 8
}

// The digits at the beginning of a word of eight bytes: how many they are, and the number that they write.
#[inline]
fn digits_of(word: u64) -> Taken<u64>
    ensures most { result.count ≤ 8 }
    ensures read { (bytes : List ℕ) → IsWordOf bytes word → SpellsPrefix bytes result.count result.found }
{
    let less_zero = word ^ ZEROS;
    let others = flags_from_ten(less_zero);
    if others == 0 {
        return Taken {
            count: 8,
            found: value_of_eight(less_zero),
        };
    }
    let count = others.trailing_zeros() / 8;
    Taken {
        count: count as usize,
        found: value_of_eight(keep_first(less_zero, count)),
    }
}

// The digits at the beginning of eight bytes.
#[inline]
fn digits_in_eight(bytes: &[u8; 8]) -> Taken<u64>
    ensures most { result.count ≤ 8 }
    ensures read { SpellsPrefix bytes.now result.count result.found }
{
    digits_of(u64::from_le_bytes(*bytes))
}

// Ten to this power.
#[inline]
fn ten_to(power: usize) -> u64
    requires { power < 8 }
    ensures { result ≡ 10 ^ power }
{
    match power {
        0 => 1,
        1 => 10,
        2 => 100,
        3 => 1_000,
        4 => 10_000,
        5 => 100_000,
        6 => 1_000_000,
        _ => 10_000_000,
    }
}

// Eight digits and fewer than eight after them.
#[inline]
fn joined(prefix: Taken<u64>, back: Taken<u64>) -> Taken<u64>
    requires eight { prefix.found < 10 ^ 8 }
    requires fewer { back.count < 8 }
    requires back { back.found < 10 ^ back.count }
    ensures count { result.count ≡ 8 + back.count }
    ensures value { result.found ≡ prefix.found * 10 ^ back.count + back.found }
{
    Taken {
        count: 8 + back.count,
        found: prefix.found * ten_to(back.count) + back.found,
    }
}

/// The digits at the beginning of some bytes. None where there are more than fifteen, or where fewer than eight bytes follow the
/// last whole group of eight digits.
#[inline(always)]
pub fn leading_digits(bytes: &[u8]) -> Option<Taken<u64>>
    ensures most { IfSome result (λ digits. digits.count ≤ 15) }
    ensures read { IfSome result (λ digits. SpellsPrefix bytes.now digits.count digits.found) }
{
    let Some((eight, rest)) = bytes.split_first_chunk::<8>() else {
        return None;
    };
    let prefix = digits_in_eight(eight);
    if prefix.count < 8 {
        return Some(prefix);
    }
    let Some((next, _)) = rest.split_first_chunk::<8>() else {
        return None;
    };
    let back = digits_in_eight(next);
    if back.count == 8 {
        return None;
    }
    Some(joined(prefix, back))
}
