//! How DCF77 spells a minute.
ghost use Rattle.std.specs.Prelude.{◌≡◌, ℕ, ◌+◌, ◌<◌, ◌≤◌, IsTrue, None, List, [], ◌∷◌, ◌++◌, length, drop};
ghost use Rattle.frame_rules.specs.Fields.{symbols_of};
ghost use Rattle.frame_rules.specs.Rules.{starts_of, are_spaced};
ghost use Rattle.tick_units.specs.declared.marks.Mark.{Mark};
ghost use Rattle.plan_dcf.specs.Fields.{coded};
ghost use Rattle.plan_dcf.specs.Rules.{first};
ghost use Rattle.plan_dcf.specs.Spelling.{IsSpellable, bits_of, digits_of, parity_of, with_parity, head_of, date_of, last_of, frame_of, spelt, Agrees};

use crate::fields::hours_ahead;
use civil_frame::local_second;
use civil_minute::{CivilMinute, civil_at, weekday};
use frame_rules::{Spelling, bit_symbol};
use tick_units::{Coded, Symbol};

// Puts this many low bits of a number at the end, the lowest first.
fn push_bits(frame: &mut Spelling, count: usize, number: u32)
    requires { length frame.old + count ≤ 61 }
    ensures bits { frame.new ≡ frame.old ++ bits_of count number }
    ensures count { length frame.new ≡ length frame.old + count }
{
    let mut rest = number;
    for _i in 0..count {
        frame.push(bit_symbol(rest % 2 == 1));
        rest /= 2;
    }
}

// Puts the four bits of the ones of a number, and this many of its tens.
fn push_digits(frame: &mut Spelling, tens: usize, number: u32)
    requires { length frame.old + 4 + tens ≤ 61 }
    ensures digits { frame.new ≡ frame.old ++ digits_of tens number }
    ensures count { length frame.new ≡ length frame.old + 4 + tens }
{
    push_bits(frame, 4, number % 10);
    push_bits(frame, tens, number / 10);
}

// Puts the bit that makes the ones from a place on even.
fn push_parity(frame: &mut Spelling, place: usize)
    requires place { place ≤ length frame.old }
    requires room { length frame.old < 61 }
    ensures parity { frame.new ≡ frame.old ++ parity_of (drop place frame.old) ∷ [] }
    ensures count { length frame.new ≡ length frame.old + 1 }
{
    let ones = frame.as_slice()[place..]
        .iter()
        .filter(|symbol| **symbol == Symbol::One)
        .count();
    frame.push(bit_symbol(ones % 2 == 1));
}

// Puts the digits of a number and their parity.
fn push_checked(frame: &mut Spelling, tens: usize, number: u32)
    requires { length frame.old + 5 + tens ≤ 61 }
    ensures digits { frame.new ≡ frame.old ++ with_parity (digits_of tens number) }
    ensures count { length frame.new ≡ length frame.old + 5 + tens }
{
    let place = frame.as_slice().len();
    push_digits(frame, tens, number);
    push_parity(frame, place);
}

// Puts day, weekday, month and year and their parity.
fn push_date(frame: &mut Spelling, civil: &CivilMinute, weekday: u32)
    requires { length frame.old + 23 ≤ 61 }
    ensures date { frame.new ≡ frame.old ++ with_parity (date_of civil.now weekday) }
    ensures count { length frame.new ≡ length frame.old + 23 }
{
    let place = frame.as_slice().len();
    push_digits(frame, 2, civil.day);
    push_bits(frame, 3, weekday);
    push_digits(frame, 1, civil.month);
    push_digits(frame, 4, civil.year % 100);
    push_parity(frame, place);
}

// The places up to the time bit.
fn head_of(c: &Coded) -> Spelling
    ensures head { result ≡ head_of c.now }
    ensures count { length result ≡ 21 }
{
    let mut frame = Spelling::new();
    push_bits(&mut frame, 17, 0);
    frame.push(bit_symbol(c.summer));
    frame.push(bit_symbol(!c.summer));
    frame.push(bit_symbol(c.leap_at != 0));
    frame.push(Symbol::One);
    frame
}

// The frame of a minute, of which a German calendar and clock show this.
#[tactic(auto, unfolding(crate::specs::Spelling::frame_of))]
fn frame_of(c: &Coded, civil: &CivilMinute, weekday: u32) -> Spelling
    ensures { result ≡ frame_of c.now civil.now weekday }
{
    let mut frame = head_of(c);
    push_checked(&mut frame, 3, civil.minute);
    push_checked(&mut frame, 2, civil.hour);
    push_date(&mut frame, civil, weekday);
    if c.leap_at == c.minute {
        frame.push(Symbol::Zero);
    }
    frame
}

/// Writes the frame that says this minute to the beginning of `out`. Returns the number of its symbols: 59, and 60 in a minute
/// that ends with a leap second. The rest of `out` stays.
pub fn spell(c: &Coded, out: &mut [Symbol; 61]) -> usize
    requires { IsSpellable c.now }
    ensures count { result ≡ length (spelt c.now) }
    ensures written { out.new ≡ spelt c.now ++ drop (length (spelt c.now)) out.old }

    // Marks of valid spacing with these symbols are a valid frame, which says this minute.
    ensures valid { (marks : List Mark) → symbols_of marks ≡ spelt c.now
        → IsTrue (are_spaced (starts_of marks)) → (first marks ≡ None) × (coded marks ≡ c.now) }

    // So are marks that differ from them only in what places 1 to 16 carry.
    ensures read_back { (marks : List Mark) → Agrees marks (spelt c.now)
        → (first marks ≡ None) × (coded marks ≡ c.now) }
{
    let local = local_second(c, hours_ahead(c.summer));
    let civil = civil_at(local);
    frame_of(c, &civil, u32::from(weekday(local))).write_to(out)
}
