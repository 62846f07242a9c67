//! Frames of MSF that are read, refused and spelt.
ghost use Rattle.plan_msf.specs.Spelling.{IsSpellable};

use crate::shared::{Answer, broken, is_answer, moment, plain, same};
use plan_msf::{read, spell};
use std::process::Abort;
use tick_units::{Coded, Mark, Symbol};

// The places whose bit A is 1, and those whose bit B is.
#[derive(Clone, Copy)]
struct Ones {
    a: &'static [usize],
    b: &'static [usize],
}

// From Python's datetime. Thursday 2026-01-01, 12:00 GMT.
const NEW_YEAR: Ones = Ones {
    a: &[19, 22, 23, 29, 35, 36, 40, 43, 53, 54, 55, 56, 57, 58],
    b: &[55, 57],
};

// Sunday 2000-01-02, 00:00 GMT.
const SUNDAY: Ones = Ones {
    a: &[29, 34, 53, 54, 55, 56, 57, 58],
    b: &[54, 55, 56, 57],
};

// Sunday 2026-03-29, 00:59 GMT and 02:00 BST, a minute later.
const STANDARD: Ones = Ones {
    a: &[
        19, 22, 23, 28, 29, 30, 32, 35, 45, 47, 48, 51, 53, 54, 55, 56, 57, 58,
    ],
    b: &[56, 57],
};

const SUMMER: Ones = Ones {
    a: &[19, 22, 23, 28, 29, 30, 32, 35, 43, 53, 54, 55, 56, 57, 58],
    b: &[56, 58],
};

// Saturday 2026-10-24, 17:38 BST.
const SATURDAY: Ones = Ones {
    a: &[
        19, 22, 23, 25, 30, 33, 36, 37, 40, 42, 43, 44, 46, 47, 48, 53, 54, 55, 56, 57, 58,
    ],
    b: &[56, 58],
};

// Saturday 2000-01-01, 00:00 GMT, and Thursday 2099-12-31, 23:59 GMT.
const FIRST: Ones = Ones {
    a: &[29, 35, 36, 37, 53, 54, 55, 56, 57, 58],
    b: &[54, 55, 56, 57],
};

const LAST: Ones = Ones {
    a: &[
        17, 20, 21, 24, 25, 28, 30, 31, 35, 36, 39, 43, 44, 45, 47, 48, 51, 53, 54, 55, 56, 57, 58,
    ],
    b: &[54],
};

const NONE: Ones = Ones { a: &[], b: &[] };

fn symbol(a: bool, b: bool) -> Symbol {
    match (a, b) {
        (false, false) => Symbol::Zero,
        (true, false) => Symbol::One,
        (false, true) => Symbol::OnlyB,
        (true, true) => Symbol::Both,
    }
}

// Marks a second apart, of which these bits are 1, except for the changed ones. The first is the minute mark.
fn frame(ones: Ones, changed: Ones) -> [Mark; 61] {
    let mut marks = [Mark {
        at: moment(0),
        symbol: Symbol::Long,
    }; 61];
    for (place, mark) in marks.iter_mut().enumerate() {
        mark.at = moment(2_000_000 + 1_000_000 * place as u64);
        if place > 0 {
            let a = ones.a.contains(&place) != changed.a.contains(&place);
            let b = ones.b.contains(&place) != changed.b.contains(&place);
            mark.symbol = symbol(a, b);
        }
    }
    marks
}

// The first `count` marks give this answer, where the next mark starts at microsecond `close`.
fn comes_to_by(rt: &impl Abort, marks: &[Mark], count: usize, close: u64, wanted: Answer) {
    is_answer(
        rt,
        read(&marks[..count.min(marks.len())], moment(close)),
        wanted,
    );
}

// The first `count` marks give this answer, closed a minute after the first.
fn comes_to(rt: &impl Abort, marks: &[Mark], count: usize, wanted: Answer) {
    comes_to_by(rt, marks, count, 62_000_000, wanted);
}

fn minute(minute: u64, summer: bool) -> Answer {
    Ok(Coded {
        minute,
        leap_at: 0,
        summer,
    })
}

// The frame of these bits, except for the changed ones, comes to this.
fn is_changed(rt: &impl Abort, ones: Ones, changed: Ones, wanted: Answer) {
    comes_to(rt, &frame(ones, changed), 60, wanted);
}

fn is_read(rt: &impl Abort, ones: Ones, wanted: Answer) {
    is_changed(rt, ones, NONE, wanted);
}

const TO_SUMMER: Ones = Ones { a: &[], b: &[58] };

// Thursday 2024-02-29.
const TO_LEAP_DAY: Ones = Ones {
    a: &[23, 28, 29, 30, 32],
    b: &[54],
};

#[test]
fn frames_are_read(rt: HostRuntime) {
    is_read(&rt, NEW_YEAR, minute(3976257600, false));
    is_read(&rt, SUNDAY, minute(3155760000, false));
    is_read(&rt, STANDARD, minute(3983734740, false));
    is_read(&rt, SUMMER, minute(3983734800, true));
    is_read(&rt, SATURDAY, minute(4001848680, true));
    is_read(&rt, FIRST, minute(3155673600, false));
    is_read(&rt, LAST, minute(6311433540, false));
    is_changed(&rt, FIRST, TO_SUMMER, minute(3155670000, true));
    is_changed(&rt, NEW_YEAR, TO_LEAP_DAY, minute(3918196800, false));
}

// Each row changes these bits A and B of the frame of NEW_YEAR, which breaks this rule.
type Row<'a> = (&'a [usize], &'a [usize], u8);

const ALONE: [Row<'static>; 35] = [
    (&[52], &[], 30),
    (&[53], &[], 30),
    (&[58], &[], 30),
    (&[59], &[], 30),
    (&[17], &[], 31),
    (&[24], &[], 31),
    (&[], &[54], 31),
    (&[25], &[], 32),
    (&[35], &[], 32),
    (&[], &[55], 32),
    (&[36], &[], 33),
    (&[38], &[], 33),
    (&[], &[56], 33),
    (&[39], &[], 34),
    (&[51], &[], 34),
    (&[], &[57], 34),
    (&[48, 50], &[], 35),
    (&[45, 46], &[], 35),
    (&[41], &[57], 36),
    (&[39], &[57], 36),
    (&[39, 40, 42, 43], &[], 36),
    (&[35], &[55], 37),
    (&[30, 31, 34, 35], &[], 37),
    (&[32, 34], &[], 37),
    (&[37, 38], &[], 38),
    (&[29], &[55], 39),
    (&[25, 28], &[], 39),
    (&[26, 28], &[], 39),
    (&[21], &[54], 40),
    (&[17], &[54], 40),
    (&[28, 29, 30, 31, 35], &[55], 41),
    (&[28, 29, 30, 32], &[], 41),
    (&[38], &[56], 42),
    (&[36], &[56], 42),
    (&[34, 35], &[], 42),
];

fn are_broken(rt: &impl Abort, rows: &[Row<'static>]) {
    for (a, b, rule) in rows {
        is_changed(rt, NEW_YEAR, Ones { a, b }, broken(*rule));
    }
}

#[test]
fn each_rule_is_broken_alone(rt: HostRuntime) {
    are_broken(&rt, &ALONE);
}

// Changes of the frame of NEW_YEAR. Each breaks the rule beside it and no other. The rules 40 and 41, and 41 and 42, are never
// broken at once. A rule on a date counts as unbroken where no date is said.
const BREAKS: [(Ones, u8); 11] = [
    (Ones { a: &[52], b: &[] }, 30),
    (Ones { a: &[17], b: &[] }, 31),
    (Ones { a: &[25], b: &[] }, 32),
    (Ones { a: &[], b: &[56] }, 33),
    (Ones { a: &[39], b: &[] }, 34),
    (
        Ones {
            a: &[48, 50],
            b: &[],
        },
        35,
    ),
    (Ones { a: &[41], b: &[57] }, 36),
    (
        Ones {
            a: &[32, 34],
            b: &[],
        },
        37,
    ),
    (
        Ones {
            a: &[37, 38],
            b: &[],
        },
        38,
    ),
    (Ones { a: &[29], b: &[55] }, 39),
    (Ones { a: &[21], b: &[54] }, 40),
];

// Turns these bits.
fn turn(marks: &mut [Mark; 61], ones: &Ones) {
    for (place, mark) in marks.iter_mut().enumerate() {
        let a = ones.a.contains(&place) != matches!(mark.symbol, Symbol::One | Symbol::Both);
        let b = ones.b.contains(&place) != matches!(mark.symbol, Symbol::OnlyB | Symbol::Both);
        if place > 0 {
            mark.symbol = symbol(a, b);
        }
    }
}

fn lesser_is_named(rt: &impl Abort, breaks: &[(Ones, u8)]) {
    for (i, (changed, rule)) in breaks.iter().enumerate() {
        let mut marks = frame(NEW_YEAR, *changed);
        comes_to(rt, &marks, 60, broken(*rule));
        if let Some((next, _)) = breaks.get(i + 1) {
            turn(&mut marks, next);
            comes_to(rt, &marks, 60, broken(*rule));
        }
    }
}

// Where a segment breaks two neighbouring rules, the lesser is named.
#[test]
fn of_two_rules_the_lesser_is_named(rt: HostRuntime) {
    lesser_is_named(&rt, &BREAKS);
}

// A day that its month does not have, in an invalid year, and on another weekday.
const NO_DATES: [Row<'static>; 2] = [
    (&[17, 28, 29, 30, 31, 35], &[54, 55], 40),
    (&[28, 29, 30, 32, 36], &[56], 41),
];

#[test]
fn a_date_is_judged_where_there_is_one(rt: HostRuntime) {
    are_broken(&rt, &NO_DATES);
}

// A frame without its identifier, with a mark too few, then an odd width too, then a late closing mark too.
#[test]
fn spacing_comes_before_width_and_width_before_length(rt: HostRuntime) {
    let mut marks = frame(NEW_YEAR, Ones { a: &[52], b: &[] });
    comes_to_by(&rt, &marks, 59, 61_000_000, broken(3));
    marks[3].symbol = Symbol::Odd;
    comes_to(&rt, &marks, 60, broken(2));
    comes_to_by(&rt, &marks, 59, 61_000_000, broken(2));
    comes_to(&rt, &marks, 59, broken(1));
}

// The closing mark is spaced as the marks are.
#[test]
fn marks_are_counted_and_spaced(rt: HostRuntime) {
    let mut marks = frame(NEW_YEAR, NONE);
    comes_to_by(&rt, &marks, 60, 61_900_000, minute(3976257600, false));
    comes_to_by(&rt, &marks, 60, 62_100_000, minute(3976257600, false));
    comes_to_by(&rt, &marks, 60, 61_899_999, broken(1));
    comes_to_by(&rt, &marks, 60, 62_100_001, broken(1));
    comes_to_by(&rt, &marks, 61, 63_000_000, broken(3));
    comes_to_by(&rt, &[], 0, 63_000_000, broken(3));
    marks[1].at = moment(3_100_001);
    comes_to(&rt, &marks, 60, broken(1));
}

// A second reduction 251 ms after the first is a mark of its own.
#[test]
fn a_mark_too_many_is_spaced_wrongly(rt: HostRuntime) {
    let mut marks = frame(NEW_YEAR, NONE);
    for place in (2..61).rev() {
        marks[place] = Mark {
            at: moment(1_000_000 + 1_000_000 * place as u64),
            symbol: marks[place - 1].symbol,
        };
    }
    marks[2] = Mark {
        at: moment(3_251_000),
        symbol: Symbol::Zero,
    };
    comes_to(&rt, &marks, 61, broken(1));
}

// Bits A up to place 16 and bits B up to place 53 carry other things, and no rule concerns the minute mark's width.
#[test]
fn what_is_passed_over_changes_nothing(rt: HostRuntime) {
    let passed = Ones {
        a: &[1, 2, 5, 14, 16],
        b: &[1, 2, 16, 17, 24, 29, 36, 45, 52, 53, 59],
    };
    let mut marks = frame(NEW_YEAR, passed);
    comes_to(&rt, &marks, 60, minute(3976257600, false));
    marks[0].symbol = Symbol::Both;
    marks[4].symbol = Symbol::Long;
    comes_to(&rt, &marks, 60, minute(3976257600, false));
}

// The symbols of a minute are the minute mark and these bits; the rest of the room stays.
fn spells(rt: &impl Abort, c: &Coded, ones: Ones)
    requires { IsSpellable c.now }
{
    let mut out = [Symbol::Odd; 61];
    same(&rt, spell(c, &mut out), 60);
    for (place, written) in out.iter().enumerate() {
        let wanted = match place {
            0 => Symbol::Long,
            60 => Symbol::Odd,
            _ => symbol(ones.a.contains(&place), ones.b.contains(&place)),
        };
        same(&rt, *written, wanted);
    }
}

#[test]
fn minutes_are_spelt(rt: HostRuntime) {
    spells(&rt, &plain(3976257600, false), NEW_YEAR);
    spells(&rt, &plain(3155760000, false), SUNDAY);
    spells(&rt, &plain(3983734740, false), STANDARD);
    spells(&rt, &plain(3983734800, true), SUMMER);
    spells(&rt, &plain(4001848680, true), SATURDAY);
    spells(&rt, &plain(3155673600, false), FIRST);
    spells(&rt, &plain(6311433540, false), LAST);
}
