//! Frames of DCF77 that are read, refused and spelt.
ghost use Rattle.plan_dcf.specs.Spelling.{IsSpellable};

use crate::shared::{Answer, broken, is_answer, moment, plain, same};
use plan_dcf::{read, spell};
use std::process::Abort;
use tick_units::{Coded, Mark, Symbol};

// The places that are 1, from Python's datetime. Thursday 2026-01-01, 13:00 and 13:01 CET.
const NEW_YEAR: [usize; 12] = [18, 20, 29, 30, 33, 35, 36, 44, 45, 51, 52, 55];

const NEXT: [usize; 14] = [18, 20, 21, 28, 29, 30, 33, 35, 36, 44, 45, 51, 52, 55];

// Sunday 2026-03-29, 01:59 CET and 03:00 CEST, a minute later.
const STANDARD: [usize; 20] = [
    18, 20, 21, 24, 25, 27, 29, 35, 36, 39, 41, 42, 43, 44, 45, 46, 51, 52, 55, 58,
];

const SUMMER: [usize; 16] = [
    17, 20, 29, 30, 36, 39, 41, 42, 43, 44, 45, 46, 51, 52, 55, 58,
];

// Sunday 2017-01-01, 00:59 and 01:00 CET, with a leap second announced; then 01:01.
const BEFORE_LEAP: [usize; 17] = [
    18, 19, 20, 21, 24, 25, 27, 36, 42, 43, 44, 45, 50, 51, 52, 54, 58,
];

const LEAP: [usize; 15] = [18, 19, 20, 29, 35, 36, 42, 43, 44, 45, 50, 51, 52, 54, 58];

const AFTER_LEAP: [usize; 16] = [
    18, 20, 21, 28, 29, 35, 36, 42, 43, 44, 45, 50, 51, 52, 54, 58,
];

// Wednesday 2015-07-01, 01:00 and 02:00 CEST, with a leap second announced.
const SUMMER_ANNOUNCED: [usize; 15] = [17, 19, 20, 29, 35, 36, 42, 43, 45, 46, 47, 50, 52, 54, 58];

const SUMMER_LEAP: [usize; 15] = [17, 19, 20, 30, 35, 36, 42, 43, 45, 46, 47, 50, 52, 54, 58];

// Marks a second apart, of which these are One.
fn frame(ones: &[usize]) -> [Mark; 70] {
    let mut marks = [Mark {
        at: moment(0),
        symbol: Symbol::Zero,
    }; 70];
    for (place, mark) in marks.iter_mut().enumerate() {
        mark.at = moment(2_000_000 + 1_000_000 * place as u64);
        if ones.contains(&place) {
            mark.symbol = Symbol::One;
        }
    }
    marks
}

// What a segment comes to. The moment of the closing mark does not matter.
fn read_closed(segment: &[Mark]) -> Answer {
    read(segment, moment(90_000_000))
}

// The first `count` marks give this answer.
fn comes_to(rt: &impl Abort, marks: &[Mark], count: usize, wanted: Answer) {
    is_answer(rt, read_closed(&marks[..count.min(marks.len())]), wanted);
}

fn minute(minute: u64, leap_at: u64, summer: bool) -> Answer {
    Ok(Coded {
        minute,
        leap_at,
        summer,
    })
}

// The frame of these places is read with 59 marks, and not with 60.
fn is_read(rt: &impl Abort, ones: &[usize], wanted: Answer) {
    let marks = frame(ones);
    comes_to(rt, &marks, 59, wanted);
    comes_to(rt, &marks, 60, broken(24));
}

#[test]
fn frames_are_read(rt: HostRuntime) {
    is_read(&rt, &NEW_YEAR, minute(3976257600, 0, false));
    is_read(&rt, &NEXT, minute(3976257660, 0, false));
    is_read(&rt, &STANDARD, minute(3983734740, 0, false));
    is_read(&rt, &SUMMER, minute(3983734800, 0, true));
    is_read(&rt, &BEFORE_LEAP, minute(3692217540, 3692217600, false));
    is_read(&rt, &AFTER_LEAP, minute(3692217660, 0, false));
    is_read(&rt, &SUMMER_ANNOUNCED, minute(3644694000, 3644697600, true));
}

// The frame of these places is read with 60 marks, of which the last is Zero.
fn has_sixty_marks(rt: &impl Abort, ones: &[usize], wanted: Answer) {
    let mut marks = frame(ones);
    comes_to(rt, &marks, 60, wanted);
    comes_to(rt, &marks, 59, broken(24));
    marks[59].symbol = Symbol::One;
    comes_to(rt, &marks, 60, broken(24));
    marks[59].symbol = Symbol::Odd;
    comes_to(rt, &marks, 60, broken(2));
}

#[test]
fn the_leap_minute_has_sixty_marks(rt: HostRuntime) {
    has_sixty_marks(&rt, &LEAP, minute(3692217600, 3692217600, false));
    has_sixty_marks(&rt, &SUMMER_LEAP, minute(3644697600, 3644697600, true));
}

// The first hours and last minutes of the century, in both zones.
const FIRST: [usize; 6] = [18, 20, 36, 43, 44, 45];

const LAST: [usize; 19] = [
    20, 21, 24, 25, 27, 29, 30, 34, 35, 36, 40, 41, 44, 46, 49, 50, 53, 54, 57,
];

#[test]
fn the_century_has_its_ends(rt: HostRuntime) {
    let mut first = frame(&FIRST);
    comes_to(&rt, &first, 59, minute(3155670000, 0, false));
    first[17].symbol = Symbol::One;
    first[18].symbol = Symbol::Zero;
    comes_to(&rt, &first, 59, minute(3155666400, 0, true));
    let mut last = frame(&LAST);
    comes_to(&rt, &last, 59, broken(11));
    last[18].symbol = Symbol::One;
    comes_to(&rt, &last, 59, minute(6311429940, 0, false));
    last[19].symbol = Symbol::One;
    comes_to(&rt, &last, 59, minute(6311429940, 6311433600, false));
}

// Turns the bits of these places.
fn turn(rt: &impl Abort, marks: &mut [Mark; 70], places: &[usize]) {
    for place in places {
        let place = *place;
        assert!(rt; place < 70);
        marks[place].symbol = match marks[place].symbol {
            Symbol::One => Symbol::Zero,
            _ => Symbol::One,
        };
    }
}

fn with_changes(rt: &impl Abort, places: &[usize]) -> [Mark; 70] {
    let mut marks = frame(&NEW_YEAR);
    turn(rt, &mut marks, places);
    marks
}

// Each row changes these places of the frame of NEW_YEAR, which breaks this rule alone.
const ALONE: [(&[usize], u8); 25] = [
    (&[0], 10),
    (&[17], 11),
    (&[18], 11),
    (&[20], 12),
    (&[21], 13),
    (&[28], 13),
    (&[34], 14),
    (&[58], 15),
    (&[44], 15),
    (&[22, 24], 16),
    (&[26, 27], 16),
    (&[31, 32], 17),
    (&[34, 35], 17),
    (&[37, 39], 18),
    (&[36, 58], 18),
    (&[37, 40, 41, 58], 18),
    (&[44, 58], 19),
    (&[45, 58], 20),
    (&[46, 49], 20),
    (&[46, 48], 20),
    (&[53, 58], 21),
    (&[57, 58], 21),
    (&[40, 41, 45, 46], 22),
    (&[42, 58], 23),
    (&[37, 58], 23),
];

fn are_broken(rt: &impl Abort, rows: &[(&[usize], u8)]) {
    for (places, rule) in rows {
        comes_to(rt, &with_changes(rt, places), 59, broken(*rule));
    }
}

#[test]
fn each_rule_is_broken_alone(rt: HostRuntime) {
    are_broken(&rt, &ALONE);
}

// Changes of the frame of NEW_YEAR. Each breaks the rule beside it and no other. The rules 21 and 22, and 22 and 23, are never
// broken at once. A rule on a date counts as unbroken where no date is said.
const BREAKS: [(&[usize], u8); 12] = [
    (&[0], 10),
    (&[17], 11),
    (&[20], 12),
    (&[21], 13),
    (&[34], 14),
    (&[58], 15),
    (&[22, 24], 16),
    (&[31, 32], 17),
    (&[37, 39], 18),
    (&[44, 58], 19),
    (&[46, 49], 20),
    (&[53, 58], 21),
];

fn lesser_is_named(rt: &impl Abort, breaks: &[(&[usize], u8)]) {
    for (i, (places, rule)) in breaks.iter().enumerate() {
        let mut marks = with_changes(rt, places);
        comes_to(rt, &marks, 59, broken(*rule));
        if let Some((next, _)) = breaks.get(i + 1) {
            turn(rt, &mut marks, next);
            comes_to(rt, &marks, 59, broken(*rule));
        }
    }
}

// Where a segment breaks two neighbouring rules, the lesser is named.
#[test]
fn of_two_rules_the_lesser_is_named(rt: HostRuntime) {
    lesser_is_named(&rt, &BREAKS);
}

// A frame whose start bit is 1, with a mark too many, then an odd width too, then a late mark too.
#[test]
fn spacing_comes_before_width_and_width_before_length(rt: HostRuntime) {
    let mut marks = with_changes(&rt, &[0]);
    comes_to(&rt, &marks, 61, broken(3));
    marks[3].symbol = Symbol::Odd;
    comes_to(&rt, &marks, 59, broken(2));
    comes_to(&rt, &marks, 61, broken(2));
    marks[58].at = moment(60_100_001);
    comes_to(&rt, &marks, 61, broken(1));
}

// Rules that are not neighbours: the zone bits, the parity of the minute and the weekday.
#[test]
fn the_least_broken_rule_is_named(rt: HostRuntime) {
    let mut marks = with_changes(&rt, &[17, 21, 44, 58]);
    comes_to(&rt, &marks, 59, broken(11));
    turn(&rt, &mut marks, &[17]);
    comes_to(&rt, &marks, 59, broken(13));
    turn(&rt, &mut marks, &[21]);
    comes_to(&rt, &marks, 59, broken(19));
    comes_to(&rt, &marks, 60, broken(19));
}

// With a 60th mark and the weekday of the next day, and with the right weekday.
#[test]
fn the_weekday_comes_before_the_60th_mark(rt: HostRuntime) {
    let mut marks = with_changes(&rt, &[42, 58]);
    comes_to(&rt, &marks, 60, broken(23));
    turn(&rt, &mut marks, &[42, 58]);
    comes_to(&rt, &marks, 60, broken(24));
}

#[test]
fn marks_are_counted_and_spaced(rt: HostRuntime) {
    let mut marks = frame(&NEW_YEAR);
    comes_to(&rt, &[], 0, broken(3));
    comes_to(&rt, &marks, 58, broken(3));
    comes_to(&rt, &marks, 61, broken(3));
    marks[58].at = moment(60_100_000);
    comes_to(&rt, &marks, 59, minute(3976257600, 0, false));
    marks[58].at = moment(60_100_001);
    comes_to(&rt, &marks, 59, broken(1));
}

// Places 1 to 16 carry other things. A leap second is announced for the end of a month only.
#[test]
fn what_is_passed_over_changes_nothing(rt: HostRuntime) {
    let marks = with_changes(&rt, &[1, 5, 14, 15, 16, 19]);
    comes_to(&rt, &marks, 59, minute(3976257600, 0, false));
}

// In the symbols of a minute these places are One, up to this number of symbols; the rest of the room stays.
fn spells(rt: &impl Abort, c: &Coded, ones: &[usize], count: usize)
    requires { IsSpellable c.now }
{
    let mut out = [Symbol::Odd; 61];
    same(&rt, spell(c, &mut out), count);
    for (place, symbol) in out.iter().enumerate() {
        let wanted = if place >= count {
            Symbol::Odd
        } else if ones.contains(&place) {
            Symbol::One
        } else {
            Symbol::Zero
        };
        same(&rt, *symbol, wanted);
    }
}

#[test]
fn minutes_are_spelt(rt: HostRuntime) {
    spells(&rt, &plain(3976257600, false), &NEW_YEAR, 59);
    spells(&rt, &plain(3976257660, false), &NEXT, 59);
    spells(&rt, &plain(3983734740, false), &STANDARD, 59);
    spells(&rt, &plain(3983734800, true), &SUMMER, 59);
    spells(&rt, &plain(3692217660, false), &AFTER_LEAP, 59);
    let ones = [
        17, 20, 21, 24, 25, 27, 29, 30, 34, 35, 36, 40, 41, 44, 46, 49, 50, 53, 54, 57,
    ];
    spells(&rt, &plain(6311426340, true), &ones, 59);
    spells(&rt, &plain(3155666400, true), &[17, 20, 36, 43, 44, 45], 59);
}

#[test]
fn leap_minutes_are_spelt(rt: HostRuntime) {
    assert!(rt; civil_minute::begins_month(3692217600));
    let before = Coded {
        minute: 3692217540,
        leap_at: 3692217600,
        summer: false,
    };
    spells(&rt, &before, &BEFORE_LEAP, 59);
    let last = Coded {
        minute: 3692217600,
        leap_at: 3692217600,
        summer: false,
    };
    spells(&rt, &last, &LEAP, 60);
}
