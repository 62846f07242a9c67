//! The minute that an MSF segment says.
ghost use Rattle.std.specs.Prelude.{◌≡◌, ◌≤◌, List, IsTrue};
ghost use Rattle.tick_units.specs.declared.marks.Mark.{Mark};
ghost use Rattle.civil_frame.specs.CivilDates.{names_minute};
ghost use Rattle.civil_frame.specs.Seconds.{IsDated};
ghost use Rattle.plan_msf.specs.Fields.{said, coded};

use crate::fields::is_summer;
use civil_frame::CivilTime;
use frame_rules::Places;
use tick_units::Coded;

// The minute of a segment that says one.
#[tactic(auto, unfolding(crate::specs::Fields::coded))]
pub(crate) fn coded<P: Places>(segment: &P, civil: &CivilTime) -> Coded
    requires read { (marks : List Mark) → P.stands_for segment.now marks → civil.now ≡ said marks }
    requires ahead { civil.now.hours_ahead ≤ 1 }
    requires named { IsTrue (names_minute civil.now) }
    ensures value { (marks : List Mark) → P.stands_for segment.now marks → result ≡ coded marks }
    ensures dated { IsDated 3155670000 6311433600 result }
    ensures no_leap { result.leap_at ≡ 0 }
{
    match civil.minute_start() {
        Some(minute) => Coded {
            minute,
            leap_at: 0,
            summer: is_summer(segment),
        },
        None => unreachable!(),
    }
}
