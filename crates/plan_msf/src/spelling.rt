//! How MSF spells a minute.
ghost use Rattle.std.specs.Prelude.{◌≡◌, ℕ, ◌%◌, ◌<◌, IsTrue, None, List, ◌∷◌, ◌++◌, replicate, length, drop};
ghost use Rattle.frame_rules.specs.Digits.{high_bits_of};
ghost use Rattle.frame_rules.specs.Fields.{symbols_of};
ghost use Rattle.frame_rules.specs.Rules.{are_spaced_to};
ghost use Rattle.tick_units.specs.declared.marks.Mark.{Mark};
ghost use Rattle.plan_msf.specs.Fields.{coded};
ghost use Rattle.plan_msf.specs.Rules.{first};
ghost use Rattle.plan_msf.specs.Spelling.{IsSpellable, with_b, parity_of, year_of, date_of, time_of, frame_of, spelt, Agrees};

use crate::fields::hours_ahead;
use civil_frame::local_second;
use civil_minute::{CivilMinute, civil_at, weekday};
use frame_rules::{Bit, Spelling};
use tick_units::{Coded, Symbol};

// The symbol of a place whose bit A is 1, by its bit B.
fn with_b(bit: bool) -> Symbol
    ensures { result ≡ with_b bit }
{
    if bit { Symbol::Both } else { Symbol::One }
}

// The symbol of a place whose bit A is 1, and whose bit B makes the count of ones of some bits A odd.
fn parity_of(field: &Spelling) -> Symbol
    ensures { result ≡ parity_of field.now }
{
    let ones = field
        .as_slice()
        .iter()
        .filter(|symbol| Bit::A.is_in(**symbol))
        .count();
    with_b(ones % 2 == 0)
}

fn year_of(civil: &CivilMinute) -> Spelling
    ensures field { result ≡ year_of civil.now }
    ensures count { length result ≡ 8 }
{
    let mut year = Spelling::new();
    year.push_high_digits(4, civil.year % 100);
    year
}

// Month and day.
fn date_of(civil: &CivilMinute) -> Spelling
    ensures field { result ≡ date_of civil.now }
    ensures count { length result ≡ 11 }
{
    let mut date = Spelling::new();
    date.push_high_digits(1, civil.month);
    date.push_high_digits(2, civil.day);
    date
}

fn weekday_of(weekday: u32) -> Spelling
    ensures field { result ≡ high_bits_of 3 weekday }
    ensures count { length result ≡ 3 }
{
    let mut field = Spelling::new();
    field.push_high_bits(3, weekday);
    field
}

// Hour and minute.
fn time_of(civil: &CivilMinute) -> Spelling
    ensures field { result ≡ time_of civil.now }
    ensures count { length result ≡ 13 }
{
    let mut time = Spelling::new();
    time.push_high_digits(2, civil.hour);
    time.push_high_digits(3, civil.minute);
    time
}

// The minute mark, and what is passed over.
fn head() -> Spelling
    ensures head { result ≡ Symbol.Long ∷ replicate 16 Symbol.Zero }
    ensures count { length result ≡ 17 }
{
    let mut frame = Spelling::new();
    frame.push(Symbol::Long);
    frame.push_high_bits(16, 0);
    frame
}

// The frame of a minute, of which a UK calendar and clock show this.
#[tactic(auto, unfolding(crate::specs::Spelling::frame_of))]
fn frame_of(summer: bool, civil: &CivilMinute, weekday: u32) -> Spelling
    ensures { result ≡ frame_of summer civil.now weekday }
{
    let (year, date) = (year_of(civil), date_of(civil));
    let (weekday, time) = (weekday_of(weekday), time_of(civil));
    let mut frame = head();
    frame.append(&year);
    frame.append(&date);
    frame.append(&weekday);
    frame.append(&time);
    frame.push(Symbol::Zero);
    frame.push(Symbol::One);
    frame.push(parity_of(&year));
    frame.push(parity_of(&date));
    frame.push(parity_of(&weekday));
    frame.push(parity_of(&time));
    frame.push(with_b(summer));
    frame.push(Symbol::Zero);
    frame
}

/// Writes the frame that says this minute to the beginning of `out`, and returns the number of its symbols, which is 60. The rest
/// of `out` stays.
pub fn spell(c: &Coded, out: &mut [Symbol; 61]) -> usize
    requires { IsSpellable c.now }
    ensures count { result ≡ length (spelt c.now) }
    ensures written { out.new ≡ spelt c.now ++ drop (length (spelt c.now)) out.old }

    // Marks of valid spacing with these symbols are a valid frame, which says this minute.
    ensures valid { (marks : List Mark) → (close : ℕ) → symbols_of marks ≡ spelt c.now
        → IsTrue (are_spaced_to marks close)
        → (first marks close ≡ None) × (coded marks ≡ c.now) }

    // So are marks that differ from them only in bits that are passed over.
    ensures read_back { (marks : List Mark) → (close : ℕ) → Agrees marks close (spelt c.now)
        → (first marks close ≡ None) × (coded marks ≡ c.now) }
{
    let local = local_second(c, hours_ahead(c.summer));
    let civil = civil_at(local);
    frame_of(c.summer, &civil, u32::from(weekday(local)) % 7).write_to(out)
}
