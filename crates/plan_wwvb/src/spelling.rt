//! How WWVB spells a minute.
ghost use Rattle.std.specs.Prelude.{◌≡◌, ℕ, IsTrue, None, List, ◌++◌, length, drop};
ghost use Rattle.frame_rules.specs.Fields.{symbols_of};
ghost use Rattle.frame_rules.specs.Rules.{are_spaced_to};
ghost use Rattle.tick_units.specs.declared.marks.Mark.{Mark};
ghost use Rattle.plan_wwvb.specs.Fields.{coded};
ghost use Rattle.plan_wwvb.specs.Rules.{first};
ghost use Rattle.plan_wwvb.specs.Spelling.{IsSpellable, minute_of, pair_of, day_ones_of, year_tens_of, year_ones_of, frame_of, spelt, Agrees};

use civil_minute::{CivilMinute, civil_at, day_of_year};
use frame_rules::{Spelling, bit_symbol};
use tick_units::{Coded, Symbol};

const MINUTE: u64 = 60;

// Places 0 to 9.
fn minute_of(civil: &CivilMinute) -> Spelling
    ensures seconds { result ≡ minute_of civil.now }
    ensures count { length result ≡ 10 }
{
    let mut piece = Spelling::new();
    piece.push(Symbol::Long);
    piece.push_high_bits(3, civil.minute / 10);
    piece.push(Symbol::Zero);
    piece.push_high_bits(4, civil.minute % 10);
    piece.push(Symbol::Long);
    piece
}

// Two bits and four bits, as they stand in places 10 to 19 and 20 to 29.
fn pair_of(two: u32, four: u32) -> Spelling
    ensures seconds { result ≡ pair_of two four }
    ensures count { length result ≡ 10 }
{
    let mut piece = Spelling::new();
    piece.push_high_bits(2, 0);
    piece.push_high_bits(2, two);
    piece.push(Symbol::Zero);
    piece.push_high_bits(4, four);
    piece.push(Symbol::Long);
    piece
}

// Places 30 to 39: the ones of the day, and that DUT1 is plus.
fn day_ones_of(day: u32) -> Spelling
    ensures seconds { result ≡ day_ones_of day }
    ensures count { length result ≡ 10 }
{
    let mut piece = Spelling::new();
    piece.push_high_bits(4, day % 10);
    piece.push_high_bits(5, 0b00101);
    piece.push(Symbol::Long);
    piece
}

// Places 40 to 49.
fn year_tens_of(civil: &CivilMinute) -> Spelling
    ensures seconds { result ≡ year_tens_of civil.now }
    ensures count { length result ≡ 10 }
{
    let mut piece = Spelling::new();
    piece.push_high_bits(5, 0);
    piece.push_high_bits(4, civil.year % 100 / 10);
    piece.push(Symbol::Long);
    piece
}

// Places 50 to 59.
fn year_ones_of(civil: &CivilMinute, leap: bool) -> Spelling
    ensures seconds { result ≡ year_ones_of civil.now leap }
    ensures count { length result ≡ 10 }
{
    let mut piece = Spelling::new();
    piece.push_high_bits(4, civil.year % 100 % 10);
    piece.push_high_bits(2, 0);
    piece.push(bit_symbol(leap));
    piece.push_high_bits(2, 0);
    piece.push(Symbol::Long);
    piece
}

// The frame of a minute, of which UTC's calendar and clock show this.
#[tactic(auto, unfolding(crate::specs::Spelling::frame_of))]
fn frame_of(leap: bool, civil: &CivilMinute, day: u32) -> Spelling
    ensures { result ≡ frame_of leap civil.now day }
{
    let mut frame = minute_of(civil);
    frame.append(&pair_of(civil.hour / 10, civil.hour % 10));
    frame.append(&pair_of(day / 100, day / 10 % 10));
    frame.append(&day_ones_of(day));
    frame.append(&year_tens_of(civil));
    frame.append(&year_ones_of(civil, leap));
    frame
}

/// Writes the frame that says this minute, and is sent before it, to the beginning of `out`. Returns the number of its symbols,
/// which is 60. The rest of `out` stays.
pub fn spell(c: &Coded, out: &mut [Symbol; 61]) -> usize
    requires { IsSpellable c.now }
    ensures count { result ≡ length (spelt c.now) }
    ensures written { out.new ≡ spelt c.now ++ drop (length (spelt c.now)) out.old }

    // Marks of valid spacing with these symbols are a valid frame, which says this minute.
    ensures valid { (marks : List Mark) → (close : ℕ) → symbols_of marks ≡ spelt c.now
        → IsTrue (are_spaced_to marks close)
        → (first marks close ≡ None) × (coded marks ≡ c.now) }

    // So are marks that differ from them only in places that are passed over, without a Long there, or in a DUT1 of minus.
    ensures read_back { (marks : List Mark) → (close : ℕ) → Agrees marks close (spelt c.now)
        → (first marks close ≡ None) × (coded marks ≡ c.now) }
{
    let sent = c.minute - MINUTE;
    let civil = civil_at(sent);
    frame_of(c.leap_at != 0, &civil, day_of_year(sent)).write_to(out)
}
