//! The rules of DCF77, each a test of a whole segment that is true where the rule is broken.
ghost use Rattle.std.specs.Prelude.{◌≡◌, ◌≤◌, None, List, IsTrue};
ghost use Rattle.tick_units.specs.declared.marks.Mark.{Mark};
ghost use Rattle.civil_frame.specs.CivilDates.{names_minute};
ghost use Rattle.plan_dcf.specs.Fields.{said};
ghost use Rattle.plan_dcf.specs.Rules.{breaks_length, breaks_start_bit, breaks_zone_bits, breaks_time_bit, breaks_minute_parity, breaks_hour_parity, breaks_date_parity, first};

use crate::dates::breaks_leap_minute;
use crate::fields::{is_standard, is_summer};
use civil_frame::{CivilTime, breaks_year_range};
use frame_rules::{Bit, Places, Rule, first_broken, is_odd_over};

// There are neither 59 nor 60 marks.
fn breaks_length<P: Places>(segment: &P) -> bool
    ensures { (marks : List Mark) → P.stands_for segment.now marks → result ≡ breaks_length marks }
{
    segment.count() != 59 && segment.count() != 60
}

// The start bit is 1.
fn breaks_start_bit<P: Places>(segment: &P) -> bool
    ensures { (marks : List Mark) → P.stands_for segment.now marks → result ≡ breaks_start_bit marks }
{
    segment.is_set(Bit::Only, 0)
}

// The two bits of the time zone are equal.
fn breaks_zone_bits<P: Places>(segment: &P) -> bool
    ensures { (marks : List Mark) → P.stands_for segment.now marks → result ≡ breaks_zone_bits marks }
{
    is_summer(segment) == is_standard(segment)
}

// The time bit is 0.
fn breaks_time_bit<P: Places>(segment: &P) -> bool
    ensures { (marks : List Mark) → P.stands_for segment.now marks → result ≡ breaks_time_bit marks }
{
    !segment.is_set(Bit::Only, 20)
}

fn breaks_minute_parity<P: Places>(segment: &P) -> bool
    ensures { (marks : List Mark) → P.stands_for segment.now marks → result ≡ breaks_minute_parity marks }
{
    is_odd_over(Bit::Only, segment, 21, 28)
}

fn breaks_hour_parity<P: Places>(segment: &P) -> bool
    ensures { (marks : List Mark) → P.stands_for segment.now marks → result ≡ breaks_hour_parity marks }
{
    is_odd_over(Bit::Only, segment, 29, 35)
}

fn breaks_date_parity<P: Places>(segment: &P) -> bool
    ensures { (marks : List Mark) → P.stands_for segment.now marks → result ≡ breaks_date_parity marks }
{
    is_odd_over(Bit::Only, segment, 36, 58)
}

// The least number of a rule that the segment breaks.
#[tactic(auto, unfolding(crate::specs::Rules::first))]
pub(crate) fn first_broken_rule<P: Places>(segment: &P, civil: &CivilTime) -> Option<u8>
    requires read { (marks : List Mark) → P.stands_for segment.now marks → civil.now ≡ said marks }
    requires ahead { civil.now.hours_ahead ≤ 2 }
    ensures first { (marks : List Mark) → P.stands_for segment.now marks → result ≡ first marks }
    ensures named { result ≡ None → IsTrue (names_minute civil.now) }
{
    first_broken(&[
        Rule::new(1, segment.breaks_spacing()),
        Rule::new(2, segment.breaks_width()),
        Rule::new(3, breaks_length(segment)),
        Rule::new(10, breaks_start_bit(segment)),
        Rule::new(11, breaks_zone_bits(segment)),
        Rule::new(12, breaks_time_bit(segment)),
        Rule::new(13, breaks_minute_parity(segment)),
        Rule::new(14, breaks_hour_parity(segment)),
        Rule::new(15, breaks_date_parity(segment)),
        Rule::new(16, civil.time.breaks_minute_range()),
        Rule::new(17, civil.time.breaks_hour_range()),
        Rule::new(18, civil.breaks_day_range()),
        Rule::new(19, civil.breaks_weekday_range()),
        Rule::new(20, civil.breaks_month_range()),
        Rule::new(21, breaks_year_range(civil.year)),
        Rule::new(22, civil.breaks_date()),
        Rule::new(23, civil.breaks_weekday()),
        Rule::new(24, breaks_leap_minute(segment, civil)),
    ])
}
