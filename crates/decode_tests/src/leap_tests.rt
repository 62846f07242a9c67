//! A leap second is believed where both of two neighbouring frames announce it. Two that differ are tried in `minute_pair`, at the function that
//! compares them.
use crate::shared::{mark_at, same};
use minute_pair::Pairing;
use std::process::Abort;
use tick_units::{Heard, Kind, Plan, Symbol};

// The ends of 2016 and of June 2015, each with a leap second before it (IERS Bulletins C 52 and C 49).
const END_OF_2016: u64 = 3_692_217_600;

const END_OF_JUNE_2015: u64 = 3_644_697_600;

// The places that are One except for the announcement, by PTB's table: 1 January 2017, 00:58 and 00:59 CET.
const WINTER: [usize; 16] = [
    18, 20, 24, 25, 27, 28, 36, 42, 43, 44, 45, 50, 51, 52, 54, 58,
];

const WINTER_LATER: [usize; 16] = [
    18, 20, 21, 24, 25, 27, 36, 42, 43, 44, 45, 50, 51, 52, 54, 58,
];

// 1 July 2015, 01:00 and 01:01 CEST.
const SUMMER: [usize; 14] = [17, 20, 29, 35, 36, 42, 43, 45, 46, 47, 50, 52, 54, 58];

const SUMMER_LATER: [usize; 16] = [
    17, 20, 21, 28, 29, 35, 36, 42, 43, 45, 46, 47, 50, 52, 54, 58,
];

// By NIST's table, 31 December 2016, 23:57 and 23:58 UTC.
const WWVB_WINTER: [usize; 19] = [
    1, 3, 6, 7, 8, 12, 17, 18, 22, 23, 26, 27, 31, 32, 36, 38, 48, 51, 52,
];

const WWVB_WINTER_LATER: [usize; 17] = [
    1, 3, 5, 12, 17, 18, 22, 23, 26, 27, 31, 32, 36, 38, 48, 51, 52,
];

// A minute of a plan: the places that are One, and whether a leap second is announced.
#[derive(Clone, Copy)]
struct Minute<'a> {
    ones: &'a [usize],
    announces: bool,
}

fn symbol_at(plan: Plan, minute: &Minute<'_>, place: usize) -> Symbol {
    let announced = match plan {
        Plan::Dcf => 19,
        _ => 56,
    };
    let is_marker = place == 0 || place % 10 == 9;
    if plan == Plan::Wwvb && is_marker {
        Symbol::Long
    } else if minute.ones.contains(&place) || minute.announces && place == announced {
        Symbol::One
    } else {
        Symbol::Zero
    }
}

// What the marks of a minute come to that begins at this second; DCF77 leaves out the last of 60.
fn receive_minute(
    pairing: &mut Pairing,
    plan: Plan,
    minute: &Minute<'_>,
    begin: u64,
) -> Option<Heard> {
    let count = if plan == Plan::Dcf { 59 } else { 60 };
    let mut first = None;
    for place in 0..count {
        let start = begin.saturating_add(place as u64).saturating_mul(1_000_000);
        let mark = mark_at(start, symbol_at(plan, minute, place));
        let heard = pairing.hear(mark);
        if place == 0 {
            first = heard;
        }
    }
    first
}

// The answer to the second of two minutes, which a third begins to close.
fn after_two(plan: Plan, first: &Minute<'_>, second: &Minute<'_>) -> Option<Kind> {
    let mut pairing = Pairing::new(plan);
    let _ = receive_minute(&mut pairing, plan, first, 0);
    let _ = receive_minute(&mut pairing, plan, first, 60);
    let _ = receive_minute(&mut pairing, plan, second, 120);
    match receive_minute(&mut pairing, plan, second, 180) {
        Some(heard) => Some(heard.kind),
        None => None,
    }
}

// Two neighbouring minutes of a plan, by the places that are One, and the second and the leap second that they say.
#[derive(Clone, Copy)]
struct Neighbours {
    plan: Plan,
    first: &'static [usize],
    second: &'static [usize],
    minute: u64,
    leap_at: u64,
}

// The frames announce the leap second or do not, and this one is believed.
fn believes(rt: &impl Abort, pair: &Neighbours, was: bool, is: bool, leap_at: u64) {
    let first = Minute {
        ones: pair.first,
        announces: was,
    };
    let second = Minute {
        ones: pair.second,
        announces: is,
    };
    let kind = Kind::Verdict {
        second: pair.minute,
        leap_at,
    };
    let found = after_two(pair.plan, &first, &second);
    same(rt, (was, is, found), (was, is, Some(kind)));
}

// Each way in which two neighbouring frames announce the same leap second, or do not.
fn believes_both(rt: &impl Abort, pair: &Neighbours) {
    believes(rt, pair, false, false, 0);
    believes(rt, pair, false, true, 0);
    believes(rt, pair, true, false, 0);
    believes(rt, pair, true, true, pair.leap_at);
}

const IN_WINTER: Neighbours = Neighbours {
    plan: Plan::Dcf,
    first: &WINTER,
    second: &WINTER_LATER,
    minute: END_OF_2016 - 60,
    leap_at: END_OF_2016,
};

const IN_SUMMER: Neighbours = Neighbours {
    plan: Plan::Dcf,
    first: &SUMMER,
    second: &SUMMER_LATER,
    minute: END_OF_JUNE_2015 - 3540,
    leap_at: END_OF_JUNE_2015,
};

const BY_WWVB: Neighbours = Neighbours {
    plan: Plan::Wwvb,
    first: &WWVB_WINTER,
    second: &WWVB_WINTER_LATER,
    minute: END_OF_2016 - 60,
    leap_at: END_OF_2016,
};

#[test]
fn a_leap_second_of_one_frame_is_not_believed(rt: HostRuntime) {
    believes_both(&rt, &IN_WINTER);
    believes_both(&rt, &IN_SUMMER);
    believes_both(&rt, &BY_WWVB);
}
