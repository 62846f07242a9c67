//! What the places of a DCF77 segment say.
ghost use Rattle.std.specs.Prelude.{◌≡◌, ◌≤◌, List};
ghost use Rattle.tick_units.specs.declared.marks.Mark.{Mark};
ghost use Rattle.plan_dcf.specs.Fields.{is_summer, is_standard, announces_leap, said, hours_ahead};

use civil_frame::{CivilTime, TimeOfDay};
use frame_rules::{Bit, Number, Places, value};

// The weights of a digit of ones.
const ONES: [u8; 4] = [1, 2, 4, 8];

pub(crate) fn is_summer<P: Places>(segment: &P) -> bool
    ensures { (marks : List Mark) → P.stands_for segment.now marks → result ≡ is_summer marks }
{
    segment.is_set(Bit::Only, 17)
}

pub(crate) fn is_standard<P: Places>(segment: &P) -> bool
    ensures { (marks : List Mark) → P.stands_for segment.now marks → result ≡ is_standard marks }
{
    segment.is_set(Bit::Only, 18)
}

pub(crate) fn announces_leap<P: Places>(segment: &P) -> bool
    ensures { (marks : List Mark) → P.stands_for segment.now marks → result ≡ announces_leap marks }
{
    segment.is_set(Bit::Only, 19)
}

// How far a clock of the zone is ahead of UTC, in hours.
pub(crate) fn hours_ahead(summer: bool) -> u16
    ensures value { result ≡ hours_ahead summer }
    ensures few { result ≤ 2 }
{
    if summer { 2 } else { 1 }
}

// The date and the time.
#[tactic(auto, unfolding(crate::specs::Fields::said))]
pub(crate) fn said<P: Places>(segment: &P) -> CivilTime
    ensures value { (marks : List Mark) → P.stands_for segment.now marks → result ≡ said marks }
    ensures ahead { result.hours_ahead ≤ 2 }
{
    CivilTime {
        time: TimeOfDay {
            minute: Number {
                ones: value(Bit::Only, segment, 21, &ONES),
                tens: value(Bit::Only, segment, 25, &[10, 20, 40]),
            },
            hour: Number {
                ones: value(Bit::Only, segment, 29, &ONES),
                tens: value(Bit::Only, segment, 33, &[10, 20]),
            },
        },
        day: Number {
            ones: value(Bit::Only, segment, 36, &ONES),
            tens: value(Bit::Only, segment, 40, &[10, 20]),
        },
        weekday: value(Bit::Only, segment, 42, &[1, 2, 4]),
        no_weekday: 0,
        month: Number {
            ones: value(Bit::Only, segment, 45, &ONES),
            tens: value(Bit::Only, segment, 49, &[10]),
        },
        year: Number {
            ones: value(Bit::Only, segment, 50, &ONES),
            tens: value(Bit::Only, segment, 54, &[10, 20, 40, 80]),
        },
        hours_ahead: hours_ahead(is_summer(segment)),
    }
}
