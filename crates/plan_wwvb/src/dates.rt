//! The minute of UTC that a WWVB segment says, and the rule on its leap second.
ghost use Rattle.std.specs.Prelude.{◌≡◌, ◌<◌, ◌≤◌, List, IsTrue, IfSome, Some, None, if◌then◌else◌};
ghost use Rattle.tick_units.specs.declared.marks.Mark.{Mark};
ghost use Rattle.civil_frame.specs.Seconds.{IsDated};
ghost use Rattle.frame_rules.specs.Numbers.{both_digits};
ghost use Rattle.plan_wwvb.specs.Fields.{said, sent_start, coded};
ghost use Rattle.plan_wwvb.specs.Rules.{names_minute, breaks_leap_minute};

use crate::fields::{OrdinalTime, announces_leap};
use crate::rules::breaks_day_of_year;
use civil_frame::breaks_year_range;
use civil_minute::{begins_month, from_year_day, next_month_start};
use frame_rules::Places;
use tick_units::Coded;

const MINUTE: u64 = 60;

// Whether a minute of a day of a year is said.
#[tactic(auto, unfolding(crate::specs::Rules::names_minute))]
fn names_minute(ordinal: &OrdinalTime) -> bool
    requires { both_digits ordinal.now.year < 1000 }
    ensures { result ≡ names_minute ordinal.now }
{
    !(ordinal.time.breaks_minute_range()
        || ordinal.time.breaks_hour_range()
        || breaks_year_range(ordinal.year)
        || breaks_day_of_year(ordinal))
}

// The absolute second at which the minute begins in which the segment is sent, where it says one.
#[tactic(auto, unfolding(crate::specs::Rules::names_minute, crate::specs::Fields::sent_start))]
fn sent_start(ordinal: &OrdinalTime) -> Option<u64>
    requires { both_digits ordinal.now.year < 1000 }
    ensures value { result
        ≡ (if names_minute ordinal.now then Some (sent_start ordinal.now) else None) }
    ensures century { IfSome result (λ second. (3155673600 ≤ second) × (second < 6311433600)) }
{
    if names_minute(ordinal) {
        let (year, day) = (ordinal.year.get(), ordinal.day_of_year());
        let (hour, minute) = (ordinal.time.hour.get(), ordinal.time.minute.get());
        from_year_day(year, day, hour, minute)
    } else {
        None
    }
}

// A leap second is announced in the last minute of a month.
pub(crate) fn breaks_leap_minute<P: Places>(segment: &P, ordinal: &OrdinalTime) -> bool
    requires read { (marks : List Mark) → P.stands_for segment.now marks → ordinal.now ≡ said marks }
    requires year { both_digits ordinal.now.year < 1000 }
    ensures { (marks : List Mark) → P.stands_for segment.now marks → result ≡ breaks_leap_minute marks }
{
    match sent_start(ordinal) {
        Some(second) => announces_leap(segment) && begins_month(second + MINUTE),
        None => false,
    }
}

// The minute of a segment that says one, and the leap second that it announces.
#[tactic(auto, unfolding(crate::specs::Fields::coded))]
pub(crate) fn coded<P: Places>(segment: &P, ordinal: &OrdinalTime) -> Coded
    requires read { (marks : List Mark) → P.stands_for segment.now marks → ordinal.now ≡ said marks }
    requires year { both_digits ordinal.now.year < 1000 }
    requires named { IsTrue (names_minute ordinal.now) }
    ensures value { (marks : List Mark) → P.stands_for segment.now marks → result ≡ coded marks }
    ensures dated { IsDated 3155673660 6311433660 result }
{
    match sent_start(ordinal) {
        Some(second) => Coded {
            minute: second + MINUTE,
            leap_at: if announces_leap(segment) {
                next_month_start(second)
            } else {
                0
            },
            summer: false,
        },
        None => unreachable!(),
    }
}
