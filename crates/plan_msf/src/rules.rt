//! The rules of MSF, each a test of a whole segment that is true where the rule is broken.
ghost use Rattle.std.specs.Prelude.{◌≡◌, ◌<◌, ◌≤◌, None, List, IsTrue};
ghost use Rattle.tick_units.specs.declared.marks.Mark.{Mark};
ghost use Rattle.civil_frame.specs.CivilDates.{names_minute};
ghost use Rattle.plan_msf.specs.Fields.{said};
ghost use Rattle.plan_msf.specs.Rules.{breaks_identifier, is_even_with, breaks_year_parity, breaks_date_parity, breaks_weekday_parity, breaks_time_parity, first};

use civil_frame::{CivilTime, breaks_year_range};
use frame_rules::{Bit, Places, Rule, breaks_length, first_broken, has_pattern, is_odd_over};
use tick_units::Local;

// The bits A of places 52 to 59.
const IDENTIFIER: [bool; 8] = [false, true, true, true, true, true, true, false];

// The minute identifier is not there.
fn breaks_identifier<P: Places>(segment: &P) -> bool
    ensures { (marks : List Mark) → P.stands_for segment.now marks → result ≡ breaks_identifier marks }
{
    !has_pattern(Bit::A, segment, 52, &IDENTIFIER)
}

// Of the bits A from the first place to the last and one bit B an even number is 1.
fn is_even_with<P: Places>(segment: &P, first: usize, last: usize, parity: usize) -> bool
    requires in_order { first ≤ last }
    requires places { last < 61 }
    requires parity { parity < 61 }
    ensures { (marks : List Mark) → P.stands_for segment.now marks → result ≡ is_even_with marks first last parity }
{
    is_odd_over(Bit::A, segment, first, last) == segment.is_set(Bit::B, parity)
}

fn breaks_year_parity<P: Places>(segment: &P) -> bool
    ensures { (marks : List Mark) → P.stands_for segment.now marks → result ≡ breaks_year_parity marks }
{
    is_even_with(segment, 17, 24, 54)
}

fn breaks_date_parity<P: Places>(segment: &P) -> bool
    ensures { (marks : List Mark) → P.stands_for segment.now marks → result ≡ breaks_date_parity marks }
{
    is_even_with(segment, 25, 35, 55)
}

fn breaks_weekday_parity<P: Places>(segment: &P) -> bool
    ensures { (marks : List Mark) → P.stands_for segment.now marks → result ≡ breaks_weekday_parity marks }
{
    is_even_with(segment, 36, 38, 56)
}

fn breaks_time_parity<P: Places>(segment: &P) -> bool
    ensures { (marks : List Mark) → P.stands_for segment.now marks → result ≡ breaks_time_parity marks }
{
    is_even_with(segment, 39, 51, 57)
}

// The least number of a rule that the segment breaks.
#[tactic(auto, unfolding(crate::specs::Rules::first))]
pub(crate) fn first_broken_rule<P: Places>(
    segment: &P,
    close: Local,
    civil: &CivilTime,
) -> Option<u8>
    requires { (marks : List Mark) → P.stands_for segment.now marks → civil.now ≡ said marks }
    ensures first { (marks : List Mark) → P.stands_for segment.now marks → result ≡ first marks close }
    ensures named { result ≡ None → IsTrue (names_minute civil.now) }
{
    first_broken(&[
        Rule::new(1, segment.breaks_spacing_to(close)),
        Rule::new(2, segment.breaks_width()),
        Rule::new(3, breaks_length(segment)),
        Rule::new(30, breaks_identifier(segment)),
        Rule::new(31, breaks_year_parity(segment)),
        Rule::new(32, breaks_date_parity(segment)),
        Rule::new(33, breaks_weekday_parity(segment)),
        Rule::new(34, breaks_time_parity(segment)),
        Rule::new(35, civil.time.breaks_minute_range()),
        Rule::new(36, civil.time.breaks_hour_range()),
        Rule::new(37, civil.breaks_day_range()),
        Rule::new(38, civil.breaks_weekday_range()),
        Rule::new(39, civil.breaks_month_range()),
        Rule::new(40, breaks_year_range(civil.year)),
        Rule::new(41, civil.breaks_date()),
        Rule::new(42, civil.breaks_weekday()),
    ])
}
