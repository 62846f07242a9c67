//! Tests of boundaries, and of segments that are too long or have a gap.
use crate::shared::{mark_at, same};
use minute_pair::Pairing;
use std::process::Abort;
use tick_units::{Heard, Kind, Plan, Symbol};

fn hear(pairing: &mut Pairing, start: u64, symbol: Symbol) -> Option<Heard> {
    pairing.hear(mark_at(start, symbol))
}

// What a pairing answers last, over marks a second apart after a boundary, and a boundary after them.
fn closed_after(marks: usize, odd_at: usize) -> Option<Heard> {
    let mut pairing = Pairing::new(Plan::Dcf);
    let _ = hear(&mut pairing, 0, Symbol::Zero);
    let mut start = 2_000_000u64;
    for place in 0..marks {
        let symbol = if place == odd_at {
            Symbol::Odd
        } else {
            Symbol::Zero
        };
        let _ = hear(&mut pairing, start, symbol);
        start = start.saturating_add(1_000_000);
    }
    hear(&mut pairing, start.saturating_add(1_000_000), Symbol::Zero)
}

fn is_refused(rt: &impl Abort, marks: usize, odd_at: usize, rule: u8) {
    let kind = match closed_after(marks, odd_at) {
        Some(heard) => Some(heard.kind),
        None => None,
    };
    same(rt, kind, Some(Kind::Refused { rule }));
}

// The segment of a stuck receiver has more marks than a minute. It is refused by its length, or by an odd width wherever it
// stands.
#[test]
fn a_segment_of_any_length_is_judged(rt: HostRuntime) {
    is_refused(&rt, 70, 70, 3);
    is_refused(&rt, 70, 65, 2);
    is_refused(&rt, 1, 1, 3);
    is_refused(&rt, 58, 58, 3);
    is_refused(&rt, 61, 61, 3);
    is_refused(&rt, 400, 399, 2);
}

// A mark that starts at this microsecond is answered so.
fn answers(rt: &impl Abort, pairing: &mut Pairing, start: u64, want: Option<Kind>) {
    let heard = match want {
        Some(kind) => Some(Heard {
            at: mark_at(start, Symbol::Zero).at,
            kind,
        }),
        None => None,
    };
    same(rt, hear(pairing, start, Symbol::Zero), heard);
}

#[test]
fn marks_before_the_first_boundary_are_in_no_segment(rt: HostRuntime) {
    let mut pairing = Pairing::new(Plan::Dcf);
    answers(&rt, &mut pairing, 0, None);
    answers(&rt, &mut pairing, 1_000_000, None);
    answers(&rt, &mut pairing, 2_000_000, None);
    answers(&rt, &mut pairing, 4_000_000, None);
    answers(
        &rt,
        &mut pairing,
        6_000_000,
        Some(Kind::Refused { rule: 3 }),
    );
}

// After a long gap the marks on both sides of it are in one segment, whose spacing is broken.
#[test]
fn a_long_gap_breaks_the_spacing(rt: HostRuntime) {
    let mut pairing = Pairing::new(Plan::Dcf);
    answers(&rt, &mut pairing, 0, None);
    answers(&rt, &mut pairing, 2_000_000, None);
    answers(&rt, &mut pairing, 3_000_000, None);
    answers(&rt, &mut pairing, 300_000_000, None);
    answers(
        &rt,
        &mut pairing,
        302_000_000,
        Some(Kind::Refused { rule: 1 }),
    );
}
