//! The leap second of a DCF77 segment, and the minute that it says.
ghost use Rattle.std.specs.Prelude.{◌≡◌, ◌<◌, ◌≤◌, not, ◌&&◌, ◌==◌, List, length, IsTrue};
ghost use Rattle.tick_units.specs.declared.marks.Mark.{Mark};
ghost use Rattle.std.specs.Bool.{beq};
ghost use Rattle.tick_units.specs.Years.{first_supported, end_of_supported};
ghost use Rattle.civil_minute.specs.Months.{begins_month};
ghost use Rattle.civil_frame.specs.CivilDates.{names_minute};
ghost use Rattle.civil_frame.specs.Seconds.{IsDated};
ghost use Rattle.plan_dcf.specs.Fields.{announces_leap, said, coded};
ghost use Rattle.plan_dcf.specs.Rules.{breaks_leap_minute};

use crate::fields::{announces_leap, is_summer};
use civil_frame::CivilTime;
use civil_minute::begins_month;
use frame_rules::{Bit, Places};
use tick_units::Coded;

const DAY: u64 = 86_400;

// Whether a leap second is announced and a month begins at this second.
fn ends_with_leap<P: Places>(segment: &P, second: u64) -> bool
    requires from { first_supported ≤ second }
    requires below { second < end_of_supported }
    ensures { (marks : List Mark) → P.stands_for segment.now marks →
        result ≡ (announces_leap marks && begins_month second) }
{
    announces_leap(segment) && begins_month(second)
}

// Whether a 60th mark is there without reason or is missing in a minute that begins at this second.
fn has_wrong_length<P: Places>(segment: &P, second: u64) -> bool
    requires from { first_supported ≤ second }
    requires below { second < end_of_supported }
    ensures { (marks : List Mark) → P.stands_for segment.now marks → result ≡ not (beq (length marks == 60)
        (announces_leap marks && begins_month second)) }
{
    (segment.count() == 60) != ends_with_leap(segment, second)
}

// The 60th mark is there without reason or is missing, or it is 1.
pub(crate) fn breaks_leap_minute<P: Places>(segment: &P, civil: &CivilTime) -> bool
    requires read { (marks : List Mark) → P.stands_for segment.now marks → civil.now ≡ said marks }
    requires ahead { civil.now.hours_ahead ≤ 2 }
    ensures { (marks : List Mark) → P.stands_for segment.now marks → result ≡ breaks_leap_minute marks }
{
    match civil.minute_start() {
        Some(second) => has_wrong_length(segment, second) || segment.is_set(Bit::Only, 59),
        None => false,
    }
}

// The minute of a segment that says one, and the leap second that it announces.
#[tactic(auto, unfolding(crate::specs::Fields::coded))]
pub(crate) fn coded<P: Places>(segment: &P, civil: &CivilTime) -> Coded
    requires read { (marks : List Mark) → P.stands_for segment.now marks → civil.now ≡ said marks }
    requires ahead { civil.now.hours_ahead ≤ 2 }
    requires named { IsTrue (names_minute civil.now) }
    ensures value { (marks : List Mark) → P.stands_for segment.now marks → result ≡ coded marks }
    ensures dated { IsDated 3155666400 6311433600 result }
{
    match civil.minute_start() {
        Some(minute) => {
            let midnight = minute.div_ceil(DAY) * DAY;
            Coded {
                minute,
                leap_at: if ends_with_leap(segment, midnight) {
                    midnight
                } else {
                    0
                },
                summer: is_summer(segment),
            }
        }
        None => unreachable!(),
    }
}
