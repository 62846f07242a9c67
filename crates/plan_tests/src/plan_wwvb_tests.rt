//! Frames of WWVB that are read, refused and spelt.
ghost use Rattle.std.specs.Prelude.{◌≡◌, false};
ghost use Rattle.plan_wwvb.specs.Spelling.{IsSpellable};

use crate::shared::{Answer, broken, is_answer, moment, same};
use plan_wwvb::{read, spell};
use std::process::Abort;
use tick_units::{Coded, Mark, Symbol};

// The places that are 1, from Python's datetime. Thursday 2026-01-01, 12:00, DUT1 above 0.
const NEW_YEAR: [usize; 8] = [13, 17, 33, 36, 38, 47, 51, 52];

// 2000-01-01 00:00 and 2099-12-31 23:59.
const FIRST: [usize; 3] = [33, 36, 38];

const LAST: [usize; 19] = [
    1, 3, 5, 8, 12, 17, 18, 22, 23, 26, 27, 31, 33, 36, 38, 45, 48, 50, 53,
];

// 2026-12-31 19:38, day 365; 2000-02-29 09:07, day 60; 2024-12-31 00:00, day 366.
const DAY_365: [usize; 17] = [
    2, 3, 5, 13, 15, 18, 22, 23, 26, 27, 31, 33, 36, 38, 47, 51, 52,
];

const LEAP_DAY: [usize; 9] = [6, 7, 8, 15, 18, 26, 27, 36, 38];

const DAY_366: [usize; 10] = [22, 23, 26, 27, 31, 32, 36, 38, 47, 51];

// 2016-12-31, 23:58 with a leap second announced and 23:59 without; 2015-06-30 17:46 with one announced.
const ANNOUNCED: [usize; 18] = [
    1, 3, 5, 12, 17, 18, 22, 23, 26, 27, 31, 32, 36, 38, 48, 51, 52, 56,
];

const LAST_MINUTE: [usize; 18] = [
    1, 3, 5, 8, 12, 17, 18, 22, 23, 26, 27, 31, 32, 36, 38, 48, 51, 52,
];

const JUNE: [usize; 16] = [1, 6, 7, 13, 16, 17, 18, 23, 25, 33, 36, 38, 48, 51, 53, 56];

const MARKERS: [usize; 7] = [0, 9, 19, 29, 39, 49, 59];

// Marks a second apart with the markers, of which these are One, except for the changed ones.
fn frame(ones: &[usize], changed: &[usize]) -> [Mark; 61] {
    let mut marks = [Mark {
        at: moment(0),
        symbol: Symbol::Zero,
    }; 61];
    for (place, mark) in marks.iter_mut().enumerate() {
        mark.at = moment(2_000_000 + 1_000_000 * place as u64);
        if MARKERS.contains(&place) {
            mark.symbol = Symbol::Long;
        } else if ones.contains(&place) != changed.contains(&place) {
            mark.symbol = Symbol::One;
        }
    }
    marks
}

// The first `count` marks give this answer, where the next mark starts at microsecond `close`.
fn comes_to_by(rt: &impl Abort, marks: &[Mark], count: usize, close: u64, wanted: Answer) {
    is_answer(
        rt,
        read(&marks[..count.min(marks.len())], moment(close)),
        wanted,
    );
}

// The first `count` marks give this answer, closed a minute after the first.
fn comes_to(rt: &impl Abort, marks: &[Mark], count: usize, wanted: Answer) {
    comes_to_by(rt, marks, count, 62_000_000, wanted);
}

fn minute(minute: u64, leap_at: u64) -> Answer {
    Ok(Coded {
        minute,
        leap_at,
        summer: false,
    })
}

// The frame of these places, except for the changed ones, comes to this.
fn is_changed(rt: &impl Abort, ones: &[usize], changed: &[usize], wanted: Answer) {
    comes_to(rt, &frame(ones, changed), 60, wanted);
}

fn is_read(rt: &impl Abort, ones: &[usize], wanted: Answer) {
    is_changed(rt, ones, &[], wanted);
}

#[test]
fn frames_are_read(rt: HostRuntime) {
    is_read(&rt, &NEW_YEAR, minute(3976257660, 0));
    is_read(&rt, &FIRST, minute(3155673660, 0));
    is_read(&rt, &LAST, minute(6311433600, 0));
    is_read(&rt, &DAY_365, minute(4007734740, 0));
    is_read(&rt, &LEAP_DAY, minute(3160804080, 0));
    is_read(&rt, &DAY_366, minute(3944592060, 0));
    is_read(&rt, &ANNOUNCED, minute(3692217540, 3692217600));
    is_read(&rt, &LAST_MINUTE, minute(3692217600, 0));
    is_read(&rt, &JUNE, minute(3644675220, 3644697600));
}

// Each row changes these places of the frame of NEW_YEAR, which breaks this rule alone.
const ALONE: [(&[usize], u8); 27] = [
    (&[4], 51),
    (&[10], 51),
    (&[11], 51),
    (&[14], 51),
    (&[20], 51),
    (&[21], 51),
    (&[24], 51),
    (&[34], 51),
    (&[35], 51),
    (&[44], 51),
    (&[54], 51),
    (&[36], 52),
    (&[37], 52),
    (&[38], 52),
    (&[36, 37], 52),
    (&[36, 38], 52),
    (&[5, 7], 53),
    (&[1, 2], 53),
    (&[15], 54),
    (&[12], 54),
    (&[12, 13, 16, 17], 54),
    (&[50], 55),
    (&[45], 55),
    (&[33], 56),
    (&[22, 23, 26, 27, 31, 32, 33], 56),
    (&[25, 27], 56),
    (&[30, 32], 56),
];

fn are_broken(rt: &impl Abort, rows: &[(&[usize], u8)]) {
    for (places, rule) in rows {
        is_changed(rt, &NEW_YEAR, places, broken(*rule));
    }
}

#[test]
fn each_rule_is_broken_alone(rt: HostRuntime) {
    are_broken(&rt, &ALONE);
}

// 2024 has a day 366, and 2025 has not.
#[test]
fn a_common_year_has_365_days(rt: HostRuntime) {
    is_changed(&rt, &DAY_366, &[53], broken(56));
}

// The last minute of 2017, if it had a day 366, with a leap second announced.
#[test]
fn a_date_is_judged_where_there_is_one(rt: HostRuntime) {
    is_changed(&rt, &LAST_MINUTE, &[53, 56], broken(56));
}

// The leap second would lengthen the minute that says it.
#[test]
fn no_leap_second_is_announced_in_the_last_minute(rt: HostRuntime) {
    is_changed(&rt, &LAST_MINUTE, &[56], broken(58));
}

// The frame of NEW_YEAR with this symbol at any one of these places breaks the rule on markers.
fn are_no_markers(rt: &impl Abort, places: &[usize], symbol: Symbol) {
    for place in places {
        let mut marks = frame(&NEW_YEAR, &[]);
        if let Some(mark) = marks.get_mut(*place) {
            mark.symbol = symbol;
        }
        comes_to(rt, &marks, 60, broken(50));
    }
}

#[test]
fn markers_are_long_and_no_other_place(rt: HostRuntime) {
    are_no_markers(&rt, &MARKERS, Symbol::Zero);
    are_no_markers(&rt, &[1, 4, 36, 40, 55, 58], Symbol::Long);
}

// Changes of the frame of NEW_YEAR. Each breaks the rule beside it and no other. The rules 56 and 58 are never broken at once. A
// rule on a date counts as unbroken where no date is said.
const BREAKS: [(&[usize], u8); 6] = [
    (&[4], 51),
    (&[38], 52),
    (&[5, 7], 53),
    (&[12], 54),
    (&[50], 55),
    (&[33], 56),
];

fn turn(marks: &mut [Mark; 61], places: &[usize]) {
    for (place, mark) in marks.iter_mut().enumerate() {
        if places.contains(&place) {
            mark.symbol = match mark.symbol {
                Symbol::One => Symbol::Zero,
                _ => Symbol::One,
            };
        }
    }
}

fn lesser_is_named(rt: &impl Abort, breaks: &[(&[usize], u8)]) {
    for (i, (places, rule)) in breaks.iter().enumerate() {
        let mut marks = frame(&NEW_YEAR, places);
        comes_to(rt, &marks, 60, broken(*rule));
        if let Some((next, _)) = breaks.get(i + 1) {
            turn(&mut marks, next);
            comes_to(rt, &marks, 60, broken(*rule));
        }
    }
}

// Where a segment breaks two neighbouring rules, the lesser is named.
#[test]
fn of_two_rules_the_lesser_is_named(rt: HostRuntime) {
    lesser_is_named(&rt, &BREAKS);
}

// A frame with a reserved place that is 1, a missing marker and a mark too few. Then an odd width too, then a late closing mark
// too.
#[test]
fn spacing_comes_before_width_and_width_before_length(rt: HostRuntime) {
    let mut marks = frame(&NEW_YEAR, &[4]);
    marks[9].symbol = Symbol::One;
    comes_to(&rt, &marks, 60, broken(50));
    comes_to_by(&rt, &marks, 59, 61_000_000, broken(3));
    marks[3].symbol = Symbol::Odd;
    comes_to(&rt, &marks, 60, broken(2));
    comes_to_by(&rt, &marks, 59, 61_000_000, broken(2));
    comes_to(&rt, &marks, 59, broken(1));
}

// The closing mark is spaced as the marks are.
#[test]
fn marks_are_counted_and_spaced(rt: HostRuntime) {
    let mut marks = frame(&NEW_YEAR, &[]);
    comes_to_by(&rt, &marks, 60, 61_900_000, minute(3976257660, 0));
    comes_to_by(&rt, &marks, 60, 62_100_000, minute(3976257660, 0));
    comes_to_by(&rt, &marks, 60, 61_899_999, broken(1));
    comes_to_by(&rt, &marks, 60, 62_100_001, broken(1));
    comes_to_by(&rt, &marks, 61, 63_000_000, broken(3));
    comes_to_by(&rt, &[], 0, 63_000_000, broken(3));
    marks[1].at = moment(3_100_001);
    comes_to(&rt, &marks, 60, broken(1));
}

// DUT1, the bit of a leap year and those of daylight time say nothing of the minute. DUT1 may be below 0.
#[test]
fn what_is_passed_over_changes_nothing(rt: HostRuntime) {
    let marks = frame(&NEW_YEAR, &[36, 37, 38, 40, 41, 42, 43, 55, 57, 58]);
    comes_to(&rt, &marks, 60, minute(3976257660, 0));
}

// In the symbols of a minute these places are One, besides the markers; the rest of the room stays.
fn spells(rt: &impl Abort, c: &Coded, ones: &[usize])
    requires { IsSpellable c.now }
{
    let mut out = [Symbol::Odd; 61];
    same(&rt, spell(c, &mut out), 60);
    for (place, written) in out.iter().enumerate() {
        let wanted = if place == 60 {
            Symbol::Odd
        } else if MARKERS.contains(&place) {
            Symbol::Long
        } else if ones.contains(&place) {
            Symbol::One
        } else {
            Symbol::Zero
        };
        same(&rt, *written, wanted);
    }
}

fn coded(minute: u64, leap_at: u64) -> Coded
    ensures { result ≡ record { minute = minute; leap_at = leap_at; summer = false } }
{
    Coded {
        minute,
        leap_at,
        summer: false,
    }
}

#[test]
fn minutes_are_spelt(rt: HostRuntime) {
    spells(&rt, &coded(3976257660, 0), &NEW_YEAR);
    spells(&rt, &coded(3155673660, 0), &FIRST);
    spells(&rt, &coded(6311433600, 0), &LAST);
    spells(&rt, &coded(4007734740, 0), &DAY_365);
    spells(&rt, &coded(3160804080, 0), &LEAP_DAY);
    spells(&rt, &coded(3944592060, 0), &DAY_366);
    spells(&rt, &coded(3692217600, 0), &LAST_MINUTE);
}

#[test]
fn a_leap_second_is_announced(rt: HostRuntime) {
    assert!(rt; civil_minute::next_month_start(3692217480) == 3692217600);
    spells(&rt, &coded(3692217540, 3692217600), &ANNOUNCED);
}
