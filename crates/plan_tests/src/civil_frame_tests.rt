//! Tests of the ranges of a date and a time, and of the second that they name.
use crate::shared::{are_alike, same};
use civil_frame::{CivilTime, TimeOfDay, breaks_year_range, local_second};
use frame_rules::Number;
use std::process::Abort;
use tick_units::Coded;

fn number(value: u16) -> Number {
    let ones = value % 10;
    Number {
        tens: value - ones,
        ones,
    }
}

// Thursday 2026-01-01, 13:00 by German time.
fn new_year() -> CivilTime {
    CivilTime {
        year: number(26),
        month: number(1),
        day: number(1),
        weekday: 4,
        no_weekday: 0,
        time: TimeOfDay {
            hour: number(13),
            minute: number(0),
        },
        hours_ahead: 1,
    }
}

// The civil time of a year, month and day, a weekday, an hour and minute, and the hours that the clock is ahead.
fn civil(date: [u16; 3], weekday: u16, time: [u16; 2], hours_ahead: u16) -> CivilTime {
    CivilTime {
        year: number(date[0]),
        month: number(date[1]),
        day: number(date[2]),
        weekday,
        no_weekday: 8,
        time: TimeOfDay {
            hour: number(time[0]),
            minute: number(time[1]),
        },
        hours_ahead,
    }
}

// The same with the next weekday.
fn a_day_off(civil: &CivilTime) -> CivilTime {
    let mut other = *civil;
    other.weekday = (civil.weekday % 7 + 1) % 7;
    other
}

// Whether the date is broken, and whether the weekday and the next one are.
fn breaks_of(civil: &CivilTime) -> [bool; 3] {
    [
        civil.breaks_date(),
        civil.breaks_weekday(),
        a_day_off(civil).breaks_weekday(),
    ]
}

// The second; where there is none, the date is broken, and else the next weekday.
fn has_second(rt: &impl Abort, civil: &CivilTime, wanted: Option<u64>) {
    same(rt, civil.minute_start(), wanted);
    same(
        rt,
        breaks_of(civil),
        [wanted.is_none(), false, wanted.is_some()],
    );
}

// Whether the date or the weekday is broken, and the second; by Python's datetime.
#[test]
fn dates_have_seconds(rt: HostRuntime) {
    has_second(&rt, &civil([26, 1, 1], 4, [13, 0], 1), Some(3976257600));
    has_second(&rt, &civil([26, 3, 29], 7, [3, 0], 2), Some(3983734800));
    has_second(&rt, &civil([26, 3, 29], 0, [2, 0], 1), Some(3983734800));
    has_second(&rt, &civil([24, 2, 29], 4, [11, 59], 0), Some(3918196740));
    has_second(&rt, &civil([0, 1, 1], 6, [0, 0], 0), Some(3155673600));
    has_second(&rt, &civil([99, 12, 31], 4, [23, 59], 1), Some(6311429940));
    has_second(&rt, &civil([26, 2, 29], 4, [13, 0], 1), None);
    has_second(&rt, &civil([26, 4, 31], 4, [13, 0], 1), None);
}

// As a day, a month, an hour, a minute and a year, whether the number is out of its range.
fn ranges_of(number: Number) -> [bool; 5] {
    let mut civil = new_year();
    civil.day = number;
    civil.month = number;
    civil.time = TimeOfDay {
        hour: number,
        minute: number,
    };
    [
        civil.breaks_day_range(),
        civil.breaks_month_range(),
        civil.time.breaks_hour_range(),
        civil.time.breaks_minute_range(),
        breaks_year_range(number),
    ]
}

fn breaks(rt: &impl Abort, number: Number, wanted: [bool; 5]) {
    same(rt, ranges_of(number), wanted);
}

// Invalid numbers, and the valid ones next to them.
#[test]
fn numbers_have_their_ranges(rt: HostRuntime) {
    breaks(&rt, number(0), [true, true, false, false, false]);
    breaks(&rt, number(12), [false; 5]);
    breaks(&rt, number(13), [false, true, false, false, false]);
    breaks(&rt, number(23), [false, true, false, false, false]);
    breaks(&rt, number(24), [false, true, true, false, false]);
    breaks(&rt, number(31), [false, true, true, false, false]);
    breaks(&rt, number(32), [true, true, true, false, false]);
    breaks(&rt, number(59), [true, true, true, false, false]);
    breaks(&rt, number(60), [true, true, true, true, false]);
    breaks(&rt, number(99), [true, true, true, true, false]);
    breaks(&rt, number(100), [true; 5]);
    breaks(&rt, Number { tens: 0, ones: 10 }, [true; 5]);
}

// Where a number is invalid, the rules on the date count as unbroken.
#[test]
fn a_number_that_is_none_hides_the_date(rt: HostRuntime) {
    let mut civil = new_year();
    civil.day = number(30);
    civil.month = number(2);
    are_alike(&rt, civil.breaks_date(), true);
    civil.weekday = 0;
    are_alike(&rt, civil.breaks_weekday_range(), true);
    are_alike(&rt, civil.breaks_date(), false);
    are_alike(&rt, civil.breaks_weekday(), false);
    same(&rt, civil.minute_start(), None);
    civil.no_weekday = 7;
    are_alike(&rt, civil.breaks_weekday_range(), false);
    are_alike(&rt, civil.breaks_date(), true);
    let c = Coded {
        minute: 3976257600,
        leap_at: 0,
        summer: true,
    };
    same(&rt, local_second(&c, 2), 3976264800);
}
