//! What the places of an MSF segment say.
ghost use Rattle.std.specs.Prelude.{◌≡◌, ◌≤◌, List};
ghost use Rattle.tick_units.specs.declared.marks.Mark.{Mark};
ghost use Rattle.plan_msf.specs.Fields.{is_summer, hours_ahead, said};

use civil_frame::{CivilTime, TimeOfDay};
use frame_rules::{Bit, Number, Places, value};

// The weights of a digit of ones.
const ONES: [u8; 4] = [8, 4, 2, 1];

// Whether summer time is in force.
pub(crate) fn is_summer<P: Places>(segment: &P) -> bool
    ensures { (marks : List Mark) → P.stands_for segment.now marks → result ≡ is_summer marks }
{
    segment.is_set(Bit::B, 58)
}

// How far a clock of the zone is ahead of UTC, in hours.
pub(crate) fn hours_ahead(summer: bool) -> u16
    ensures value { result ≡ hours_ahead summer }
    ensures few { result ≤ 1 }
{
    if summer { 1 } else { 0 }
}

// The date and the time.
#[tactic(auto, unfolding(crate::specs::Fields::said))]
pub(crate) fn said<P: Places>(segment: &P) -> CivilTime
    ensures value { (marks : List Mark) → P.stands_for segment.now marks → result ≡ said marks }
    ensures ahead { result.hours_ahead ≤ 1 }
{
    CivilTime {
        year: Number {
            tens: value(Bit::A, segment, 17, &[80, 40, 20, 10]),
            ones: value(Bit::A, segment, 21, &ONES),
        },
        month: Number {
            tens: value(Bit::A, segment, 25, &[10]),
            ones: value(Bit::A, segment, 26, &ONES),
        },
        day: Number {
            tens: value(Bit::A, segment, 30, &[20, 10]),
            ones: value(Bit::A, segment, 32, &ONES),
        },
        weekday: value(Bit::A, segment, 36, &[4, 2, 1]),
        no_weekday: 7,
        time: TimeOfDay {
            hour: Number {
                tens: value(Bit::A, segment, 39, &[20, 10]),
                ones: value(Bit::A, segment, 41, &ONES),
            },
            minute: Number {
                tens: value(Bit::A, segment, 45, &[40, 20, 10]),
                ones: value(Bit::A, segment, 48, &ONES),
            },
        },
        hours_ahead: hours_ahead(is_summer(segment)),
    }
}
