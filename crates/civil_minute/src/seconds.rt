//! What UTC's calendar and clock show at an absolute second.
ghost use Rattle.std.specs.Prelude.{◌≡◌, ◌%◌, ◌<◌, ◌≤◌, pos};
ghost use Rattle.tick_units.specs.Years.{first_supported, end_of_supported};
ghost use Rattle.civil_minute.specs.Dates.{weekday_of};
ghost use Rattle.civil_minute.specs.Months.{begins_month, month_after};
ghost use Rattle.civil_minute.specs.Seconds.{civil_of, day_of_year_of, Shows};
ghost use Rattle.jiff.specs.Words.{days_in_year};

use crate::days::{DAY, date_at};

/// A minute as a civil clock and calendar show it: month and day from 1, hour below 24, minute below 60.
#[derive(Clone, Copy, Debug, PartialEq, Eq)]
pub struct CivilMinute {
    pub year: u32,
    pub month: u32,
    pub day: u32,
    pub hour: u32,
    pub minute: u32,
}

/// The weekday of a second's UTC date, Monday 1 to Sunday 7.
pub fn weekday(second: u64) -> u8
    requires from { first_supported ≤ second }
    requires below { second < end_of_supported }
    ensures { result ≡ weekday_of second }
{
    date_at(second).weekday().to_monday_one_offset() as u8
}

/// Whether a month of UTC begins at the second, which may lie as far back as 1900-01-01.
pub fn begins_month(second: u64) -> bool
    requires below { second < end_of_supported }
    ensures { result ≡ begins_month second }
{
    second % DAY == 0 && date_at(second).day() == 1
}

/// The second at which the next month of UTC begins.
pub fn next_month_start(second: u64) -> u64
    requires from { first_supported ≤ second }
    requires below { second < end_of_supported }
    ensures value { result ≡ month_after second }

    // A later midnight.
    ensures later { second < result }
    ensures midnight { result % 86400 ≡ 0 }

    // In the years 2000 to 2099 it is one of these too, or the first of 2100.
    ensures century { 3155673600 ≤ second → second < 6311433600 → result ≤ 6311433600 }
{
    let date = date_at(second);
    let days_left = date.days_in_month() as u64 - date.day() as u64;
    (second / DAY + days_left + 1) * DAY
}

/// The minute in which a second lies, by UTC.
pub fn civil_at(second: u64) -> CivilMinute
    requires from { first_supported ≤ second }
    requires below { second < end_of_supported }
    ensures value { result ≡ civil_of second }
    ensures shows { Shows result second }

    // The seconds of the years 2000 to 2099.
    ensures century { 3155673600 ≤ second → second < 6311433600
        → (2000 ≤ result.year) × (result.year < 2100) }
{
    let date = date_at(second);
    CivilMinute {
        year: date.year() as u32,
        month: date.month() as u32,
        day: date.day() as u32,
        hour: (second % DAY / 3600) as u32,
        minute: (second % 3600 / 60) as u32,
    }
}

/// The day of the year of a second's UTC date, counted from 1.
pub fn day_of_year(second: u64) -> u32
    requires from { first_supported ≤ second }
    requires below { second < end_of_supported }
    ensures value { result ≡ day_of_year_of second }
    ensures least { 1 ≤ result }
    ensures most { result ≤ days_in_year (pos (civil_of second).year) }
{
    date_at(second).day_of_year() as u32
}
