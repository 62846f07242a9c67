//! The ranges of the numbers of a civil date and time.
ghost use Rattle.std.specs.Prelude.{◌≡◌};
ghost use Rattle.civil_frame.specs.Ranges.{breaks_minute_range, breaks_hour_range, breaks_day_range, breaks_weekday_range, breaks_month_range, breaks_year_range};

use crate::civil_time::{CivilTime, TimeOfDay};
use frame_rules::Number;

impl TimeOfDay {
    /// Whether the ones digit is above 9, or the minute is above 59.
    pub fn breaks_minute_range(&self) -> bool
        ensures { result ≡ breaks_minute_range self.now }
    {
        self.minute.is_out_of(0, 59)
    }

    /// Whether the ones digit is above 9, or the hour is above 23.
    pub fn breaks_hour_range(&self) -> bool
        ensures { result ≡ breaks_hour_range self.now }
    {
        self.hour.is_out_of(0, 23)
    }
}

impl CivilTime {
    /// Whether the ones digit is above 9, or the day is not 1 to 31.
    pub fn breaks_day_range(&self) -> bool
        ensures { result ≡ breaks_day_range self.now }
    {
        self.day.is_out_of(1, 31)
    }

    /// Whether the weekday is the invalid number.
    pub fn breaks_weekday_range(&self) -> bool
        ensures { result ≡ breaks_weekday_range self.now }
    {
        self.weekday == self.no_weekday
    }

    /// Whether the ones digit is above 9, or the month is not 1 to 12.
    pub fn breaks_month_range(&self) -> bool
        ensures { result ≡ breaks_month_range self.now }
    {
        self.month.is_out_of(1, 12)
    }
}

/// Whether a digit of a year is above 9.
pub fn breaks_year_range(year: Number) -> bool
    ensures { result ≡ breaks_year_range year }
{
    year.ones > 9 || year.tens > 90
}
