//! Tests of dates and seconds, against Python's datetime and RFC 5905.
ghost use Rattle.std.specs.Prelude.{◌<◌, ◌≤◌};

use crate::shared::{are_alike, same};
use civil_minute::{
    CivilMinute, begins_month, civil_at, day_of_year, era_of, from_date, from_year_day,
    next_month_start, unwrap_era, weekday, year_length,
};
use std::process::Abort;

// The second of a year, month and day, an hour and minute, and the hours that the clock is ahead.
fn has_second(rt: &impl Abort, date: [u32; 3], time: [u32; 2], ahead: u32, second: u64) {
    let [yy, month, day] = date;
    let [hour, minute] = time;
    assert!(*rt; yy < 100 && hour < 24 && minute < 60 && ahead < 3);
    same(
        rt,
        from_date(yy, month, day, hour, minute, ahead),
        Some(second),
    );
}

// Python's datetime gave the seconds.
#[test]
fn dates_have_seconds(rt: HostRuntime) {
    has_second(&rt, [0, 1, 1], [0, 0], 0, 3155673600);
    has_second(&rt, [0, 1, 1], [0, 0], 2, 3155666400);
    has_second(&rt, [0, 2, 29], [23, 59], 0, 3160857540);
    has_second(&rt, [0, 3, 1], [0, 0], 1, 3160854000);
    has_second(&rt, [0, 12, 31], [12, 30], 0, 3187254600);
    has_second(&rt, [16, 12, 31], [23, 59], 0, 3692217540);
    has_second(&rt, [26, 1, 1], [0, 0], 0, 3976214400);
    has_second(&rt, [26, 1, 1], [13, 0], 1, 3976257600);
    has_second(&rt, [26, 3, 29], [3, 0], 2, 3983734800);
    has_second(&rt, [36, 2, 7], [6, 28], 0, 4294967280);
    has_second(&rt, [36, 2, 29], [0, 0], 1, 4296841200);
    has_second(&rt, [99, 2, 28], [23, 59], 2, 6284987940);
    has_second(&rt, [99, 12, 31], [23, 59], 0, 6311433540);
}

fn is_no_date(rt: &impl Abort, yy: u32, month: u32, day: u32) {
    assert!(*rt; yy < 100);
    same(rt, from_date(yy, month, day, 0, 0, 0), None);
}

#[test]
fn the_calendar_lacks_these_dates(rt: HostRuntime) {
    is_no_date(&rt, 26, 2, 29);
    is_no_date(&rt, 0, 2, 30);
    is_no_date(&rt, 99, 2, 29);
    is_no_date(&rt, 26, 4, 31);
    is_no_date(&rt, 26, 6, 31);
    is_no_date(&rt, 26, 9, 31);
    is_no_date(&rt, 26, 11, 31);
    is_no_date(&rt, 26, 1, 32);
    is_no_date(&rt, 26, 12, 32);
    is_no_date(&rt, 26, 1, 0);
    is_no_date(&rt, 26, 0, 1);
    is_no_date(&rt, 26, 13, 1);
    is_no_date(&rt, 26, 257, 1);
    is_no_date(&rt, 26, 1, 257);
    is_no_date(&rt, 26, 1, 4294967295);
}

// The second of a day of a year, an hour and a minute.
fn has_day(rt: &impl Abort, yy: u32, day: u32, time: [u32; 2], second: Option<u64>) {
    let [hour, minute] = time;
    assert!(*rt; yy < 100 && hour < 24 && minute < 60);
    same(rt, from_year_day(yy, day, hour, minute), second);
}

#[test]
fn days_of_the_year_have_seconds(rt: HostRuntime) {
    has_day(&rt, 0, 1, [0, 0], Some(3155673600));
    has_day(&rt, 0, 60, [0, 0], Some(3160771200));
    has_day(&rt, 0, 366, [23, 59], Some(3187295940));
    has_day(&rt, 1, 60, [0, 0], Some(3192393600));
    has_day(&rt, 24, 366, [0, 0], Some(3944592000));
    has_day(&rt, 26, 365, [12, 30], Some(4007709000));
    has_day(&rt, 99, 365, [23, 59], Some(6311433540));
    has_day(&rt, 26, 0, [0, 0], None);
    has_day(&rt, 26, 366, [0, 0], None);
    has_day(&rt, 24, 367, [0, 0], None);
}

fn has_length(rt: &impl Abort, yy: u32, days: u32)
    requires { yy < 1000 }
{
    same(rt, year_length(yy), days);
}

// Python's calendar gave the lengths.
#[test]
fn years_have_lengths(rt: HostRuntime) {
    has_length(&rt, 0, 366);
    has_length(&rt, 1, 365);
    has_length(&rt, 24, 366);
    has_length(&rt, 26, 365);
    has_length(&rt, 99, 365);
    has_length(&rt, 100, 365);
    has_length(&rt, 165, 365);
    has_length(&rt, 400, 366);
}

// A second, the weekday, whether a month begins, when the next does, the year, month, day, hour and minute, the day of the year.
type Row = (u64, u8, bool, u64, [u32; 5], u32);

// Python's datetime gave them.
const DATES: [Row; 18] = [
    (3155587200, 5, false, 3155673600, [1999, 12, 31, 0, 0], 365),
    (
        3155673599,
        5,
        false,
        3155673600,
        [1999, 12, 31, 23, 59],
        365,
    ),
    (3155673600, 6, true, 3158352000, [2000, 1, 1, 0, 0], 1),
    (3155673601, 6, false, 3158352000, [2000, 1, 1, 0, 0], 1),
    (3160728000, 1, false, 3160857600, [2000, 2, 28, 12, 0], 59),
    (3160771200, 2, false, 3160857600, [2000, 2, 29, 0, 0], 60),
    (3160857600, 3, true, 3163536000, [2000, 3, 1, 0, 0], 61),
    (3192393599, 3, false, 3192393600, [2001, 2, 28, 23, 59], 59),
    (3192393600, 4, true, 3195072000, [2001, 3, 1, 0, 0], 60),
    (
        3692217540,
        6,
        false,
        3692217600,
        [2016, 12, 31, 23, 59],
        366,
    ),
    (3692217600, 7, true, 3694896000, [2017, 1, 1, 0, 0], 1),
    (3976257600, 4, false, 3978892800, [2026, 1, 1, 12, 0], 1),
    (4294967296, 4, false, 4296931200, [2036, 2, 7, 6, 28], 38),
    (6190300800, 3, false, 6190387200, [2096, 2, 29, 0, 0], 60),
    (6308755200, 2, true, 6311433600, [2099, 12, 1, 0, 0], 335),
    (
        6311433599,
        4,
        false,
        6311433600,
        [2099, 12, 31, 23, 59],
        365,
    ),
    (6311433600, 5, true, 6314112000, [2100, 1, 1, 0, 0], 1),
    (6311606399, 6, false, 6314112000, [2100, 1, 2, 23, 59], 2),
];

fn has_date(rt: &impl Abort, row: &Row) {
    let (second, day, begins, next, date, place) = *row;
    assert!(*rt; second >= 3155587200 && second < 6311606400);
    same(rt, weekday(second), day);
    same(rt, begins_month(second), begins);
    same(rt, next_month_start(second), next);
    same(rt, day_of_year(second), place);
    let CivilMinute {
        year,
        month,
        day,
        hour,
        minute,
    } = civil_at(second);
    same(rt, [year, month, day, hour, minute], date);
}

fn have_dates(rt: &impl Abort, rows: &[Row]) {
    for row in rows {
        has_date(rt, row);
    }
}

#[test]
fn seconds_have_dates(rt: HostRuntime) {
    have_dates(&rt, &DATES);
}

// Whether a month begins at a second, which is below the greatest of 32 bits.
fn begins(rt: &impl Abort, second: u32, wanted: bool) {
    are_alike(rt, begins_month(u64::from(second)), wanted);
}

// A month begins at a second after the first, and at neither of its neighbours.
fn begins_alone(rt: &impl Abort, second: u32)
    requires from { 1 ≤ second }
    requires below { second < 4294967295 }
{
    begins(rt, second, true);
    begins(rt, second + 1, false);
    begins(rt, second - 1, false);
}

// Python's datetime gave the seconds.
#[test]
fn months_began_before_2000(rt: HostRuntime) {
    // 1900-01-01, 1900-02-01, 1900-03-01 (1900 had no 29th of February), 1904-03-01, 1970-01-01, 1972-01-01, 1972-07-01,
    // 1999-12-01.
    begins(&rt, 0, true);
    begins(&rt, 1, false);
    begins_alone(&rt, 2678400);
    begins_alone(&rt, 5097600);
    begins_alone(&rt, 131328000);
    begins_alone(&rt, 2208988800);
    begins_alone(&rt, 2272060800);
    begins_alone(&rt, 2287785600);
    begins_alone(&rt, 3152995200);

    // 1900-01-02, 1904-02-29, 1972-06-30, 1999-12-30 and 1999-12-31.
    begins(&rt, 86400, false);
    begins(&rt, 131241600, false);
    begins(&rt, 2287699200, false);
    begins(&rt, 3155500800, false);
    begins(&rt, 3155587200, false);
}

fn is_in_era(rt: &impl Abort, second: u64, wanted: (u32, u32))
    requires { second < 9223372036854775808 }
{
    same(rt, era_of(second), wanted);
}

fn unwraps(rt: &impl Abort, low: u32, wanted: u64) {
    same(rt, unwrap_era(low), wanted);
}

#[test]
fn eras_wrap(rt: HostRuntime) {
    is_in_era(&rt, 4294967296, (1, 0));
    is_in_era(&rt, 4294967295, (0, 4294967295));
    is_in_era(&rt, 9223372036854775807, (2147483647, 4294967295));
    unwraps(&rt, 0, 4294967296);
    unwraps(&rt, 3155673600, 3155673600);
    unwraps(&rt, 3155673599, 7450640895);
}
