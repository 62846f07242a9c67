//! The civil date and time that a frame says, and the absolute second of it.
ghost use Rattle.std.specs.Prelude.{◌≡◌, ◌+◌, ◌*◌, ◌%◌, ◌<◌, ◌≤◌, ◌^◌, IfSome, Some, None, if◌then◌else◌};
ghost use Rattle.civil_frame.specs.CivilDates.{is_in_range, names_minute, breaks_date, breaks_weekday};
ghost use Rattle.civil_frame.specs.Seconds.{local_start, minute_start};

use crate::ranges::breaks_year_range;
use civil_minute::{from_date, weekday};
use frame_rules::Number;
use tick_units::Coded;

const HOUR: u64 = 3_600;

/// A time of day, as the places of a frame say it.
#[derive(Clone, Copy, Debug, PartialEq, Eq)]
pub struct TimeOfDay {
    pub hour: Number,
    pub minute: Number,
}

/// A minute as the places of a frame say it, by the calendar and the clock of a zone.
#[derive(Clone, Copy, Debug, PartialEq, Eq)]
pub struct CivilTime {
    /// The year of the century that begins in 2000.
    pub year: Number,
    pub month: Number,
    pub day: Number,
    /// Monday 1 to Saturday 6, and Sunday 7 or 0.
    pub weekday: u16,
    /// The number that is no valid weekday in this code plan.
    pub no_weekday: u16,
    pub time: TimeOfDay,
    /// How far the clock is ahead of UTC, in hours.
    pub hours_ahead: u16,
}

impl CivilTime {
    // Whether each of the numbers of time and date is in its range.
    #[tactic(auto, unfolding(crate::specs::CivilDates::is_in_range))]
    fn is_in_range(&self) -> bool
        ensures { result ≡ is_in_range self.now }
    {
        !(self.time.breaks_minute_range()
            || self.time.breaks_hour_range()
            || self.breaks_day_range()
            || self.breaks_weekday_range()
            || self.breaks_month_range()
            || breaks_year_range(self.year))
    }

    // The second at which a clock of UTC shows what is said, where it is a minute of a civil date.
    #[tactic(auto, unfolding(crate::specs::CivilDates::names_minute, crate::specs::CivilDates::is_in_range, crate::specs::Seconds::local_start))]
    fn local_start(&self) -> Option<u64>
        ensures value { result
            ≡ (if names_minute self.now then Some (local_start self.now) else None) }
        ensures century { IfSome result (λ second. (3155673600 ≤ second) × (second < 6311433600)) }
    {
        if self.is_in_range() {
            let (year, month, day) = (self.year.get(), self.month.get(), self.day.get());
            let (hour, minute) = (self.time.hour.get(), self.time.minute.get());
            from_date(year, month, day, hour, minute, 0)
        } else {
            None
        }
    }

    /// The absolute second at which the said minute begins, where it is a minute of a civil date.
    pub fn minute_start(&self) -> Option<u64>
        ensures value { result
            ≡ (if names_minute self.now then Some (minute_start self.now) else None) }
        ensures whole { IfSome result (λ second. second % 60 ≡ 0) }

        // What the clock shows lies in the years 2000 to 2099.
        ensures century { IfSome result (λ second. (3155673600 ≤ second + 3600 * self.now.hours_ahead)
            × (second + 3600 * self.now.hours_ahead < 6311433600)) }
    {
        match self.local_start() {
            Some(second) => Some(second - HOUR * u64::from(self.hours_ahead)),
            None => None,
        }
    }

    /// Whether the year has no such month and day.
    #[tactic(auto, unfolding(crate::specs::CivilDates::names_minute))]
    pub fn breaks_date(&self) -> bool
        ensures { result ≡ breaks_date self.now }
    {
        self.is_in_range() && self.local_start().is_none()
    }

    /// Whether the weekday is not that of the date.
    pub fn breaks_weekday(&self) -> bool
        ensures { result ≡ breaks_weekday self.now }
    {
        match self.local_start() {
            Some(second) => self.weekday % 7 != u16::from(weekday(second)) % 7,
            None => false,
        }
    }
}

/// The second at which a clock of UTC shows what a clock this many hours ahead of it shows at a minute.
pub fn local_second(c: &Coded, hours_ahead: u16) -> u64
    requires { c.now.minute < 2 ^ 63 }
    ensures { result ≡ c.now.minute + 3600 * hours_ahead }
{
    c.minute + HOUR * u64::from(hours_ahead)
}
