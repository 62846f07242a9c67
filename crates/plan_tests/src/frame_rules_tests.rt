//! Tests of bits, values, parities, numbers and the rules on marks.
ghost use Rattle.std.specs.Prelude.{◌≤◌, ◌<◌, ◌+◌, length};

use crate::shared::{are_alike, moment, same};
use frame_rules::{
    Bit, Number, Places, Rule, Segment, breaks_length, first_broken, has_pattern, is_odd_over,
    is_out_of, value,
};
use plan_dcf::Frame;
use std::process::Abort;
use tick_units::{Local, Mark, Symbol};

// A segment of these symbols whose marks start a second apart.
fn marks_of(symbols: [Symbol; 6]) -> [Mark; 6] {
    let mut marks = [Mark {
        at: moment(0),
        symbol: Symbol::Zero,
    }; 6];
    for (place, mark) in marks.iter_mut().enumerate() {
        mark.at = moment(1_000_000 * place as u64);
        mark.symbol = symbols[place];
    }
    marks
}

const ALL_SYMBOLS: [Symbol; 6] = [
    Symbol::Zero,
    Symbol::One,
    Symbol::OnlyB,
    Symbol::Both,
    Symbol::Long,
    Symbol::Odd,
];

// The bit at each of seven places.
fn has_bits(rt: &impl Abort, bit: Bit, wanted: [bool; 7]) {
    let marks = marks_of(ALL_SYMBOLS);
    let segment = Segment { marks: &marks };
    for (place, is_set) in wanted.iter().enumerate() {
        are_alike(rt, segment.is_set(bit, place), *is_set);
    }
}

fn has_value(rt: &impl Abort, bit: Bit, place: usize, weights: &[u8], wanted: u16)
    requires { place + length weights.now ≤ 61 }
{
    let marks = marks_of(ALL_SYMBOLS);
    same(
        rt,
        value(bit, &Segment { marks: &marks }, place, weights),
        wanted,
    );
}

fn has_parity(rt: &impl Abort, first: usize, last: usize, is_odd: bool)
    requires in_order { first ≤ last }
    requires places { last < 61 }
{
    let marks = marks_of(ALL_SYMBOLS);
    are_alike(
        rt,
        is_odd_over(Bit::A, &Segment { marks: &marks }, first, last),
        is_odd,
    );
}

fn fits(rt: &impl Abort, bit: Bit, first: usize, pattern: &[bool], wanted: bool)
    requires { first + length pattern.now ≤ 61 }
{
    let marks = marks_of(ALL_SYMBOLS);
    are_alike(
        rt,
        has_pattern(bit, &Segment { marks: &marks }, first, pattern),
        wanted,
    );
}

#[test]
fn each_plan_has_its_bits(rt: HostRuntime) {
    has_bits(
        &rt,
        Bit::Only,
        [false, true, false, false, false, false, false],
    );
    has_bits(&rt, Bit::A, [false, true, false, true, false, false, false]);
    has_bits(&rt, Bit::B, [false, false, true, true, false, false, false]);
    has_value(&rt, Bit::Only, 1, &[1, 2, 4], 1);
    has_value(&rt, Bit::A, 1, &[1, 2, 4], 5);
    has_value(&rt, Bit::B, 1, &[80, 20, 10, 5], 30);
    has_value(&rt, Bit::B, 3, &[200, 100, 80, 40], 200);
    has_parity(&rt, 0, 2, true);
    has_parity(&rt, 0, 3, false);
    has_parity(&rt, 3, 60, true);
    fits(&rt, Bit::A, 1, &[true, false, true], true);
    fits(&rt, Bit::B, 1, &[true, false, true], false);
    fits(&rt, Bit::A, 2, &[false, true, false], true);
    fits(&rt, Bit::A, 2, &[false, true, true], false);
    fits(&rt, Bit::B, 5, &[false, false], true);
    fits(&rt, Bit::Only, 0, &[], true);
}

// Marks that lie in a slice, and the same marks added one by one.
fn spacing_of(marks: &[Mark], close: Local) -> [bool; 4] {
    let segment = Segment { marks };
    let frame = added(marks);
    [
        segment.breaks_spacing(),
        frame.breaks_spacing(),
        segment.breaks_spacing_to(close),
        frame.breaks_spacing_to(close),
    ]
}

fn added(marks: &[Mark]) -> Frame {
    let mut frame = Frame::new();
    for mark in marks {
        frame.add(*mark);
    }
    frame
}

fn has_spacing(rt: &impl Abort, marks: &[Mark], close: Local, wanted: [bool; 4]) {
    same(rt, spacing_of(marks, close), wanted);
}

// Marks a second apart, except for the last, which starts so much after the one before, and as much before the closing one.
fn are_spaced(rt: &impl Abort, apart: u32, broken: bool) {
    let last = moment(4_000_000 + u64::from(apart));
    let close = moment(5_000_000 + u64::from(apart));
    let mut marks = marks_of([Symbol::One; 6]);
    has_spacing(rt, &marks[..5], last, [false, false, broken, broken]);
    marks[5].at = last;
    has_spacing(rt, &marks, close, [broken; 4]);
}

#[test]
fn marks_are_spaced(rt: HostRuntime) {
    are_spaced(&rt, 900_000, false);
    are_spaced(&rt, 1_100_000, false);
    are_spaced(&rt, 899_999, true);
    are_spaced(&rt, 1_100_001, true);
    are_spaced(&rt, 0, true);
    has_spacing(&rt, &[], moment(0), [false; 4]);
}

// Whether marks break the rule on widths, in a slice and one by one.
fn have_broken_width(rt: &impl Abort, marks: &[Mark], broken: bool) {
    are_alike(rt, added(marks).breaks_width(), broken);
    are_alike(rt, Segment { marks }.breaks_width(), broken);
}

// Whether `count` marks break the rule on lengths, in a slice and one by one.
fn have_broken_length(rt: &impl Abort, count: usize, broken: bool)
    requires { count ≤ 70 }
{
    let many = [Mark {
        at: moment(0),
        symbol: Symbol::Long,
    }; 70];
    let marks = &many[..count];
    are_alike(rt, breaks_length(&Segment { marks }), broken);
    are_alike(rt, breaks_length(&added(marks)), broken);
}

fn have_last(rt: &impl Abort, marks: &[Mark], last: Option<Mark>) {
    same(rt, added(marks).last(), last);
}

#[test]
fn marks_have_widths_and_a_number(rt: HostRuntime) {
    let mut marks = marks_of([Symbol::Long; 6]);
    have_broken_width(&rt, &marks, false);
    marks[3].symbol = Symbol::Odd;
    have_broken_width(&rt, &marks, true);
    have_broken_length(&rt, 0, true);
    have_broken_length(&rt, 59, true);
    have_broken_length(&rt, 60, false);
    have_broken_length(&rt, 61, true);
    have_broken_length(&rt, 70, true);
    have_last(&rt, &marks, Some(marks[5]));
    have_last(&rt, &[], None);
}

fn is_first(rt: &impl Abort, rules: &[Rule], first: Option<u8>) {
    same(rt, first_broken(rules), first);
}

const RULES: [Rule; 4] = [
    Rule {
        number: 3,
        broken: false,
    },
    Rule {
        number: 10,
        broken: true,
    },
    Rule {
        number: 11,
        broken: false,
    },
    Rule {
        number: 12,
        broken: true,
    },
];

#[test]
fn the_first_broken_rule_is_named(rt: HostRuntime) {
    let rules = RULES;
    is_first(&rt, &rules, Some(10));
    is_first(&rt, &rules[2..], Some(12));
    is_first(&rt, &rules[..1], None);
}

// The number of these digits, and whether it is out of 1 to 12.
fn is_number(rt: &impl Abort, tens: u16, ones: u16, wanted: u32, out: bool) {
    let number = Number { tens, ones };
    same(rt, (number.get(), number.is_out_of(1, 12)), (wanted, out));
}

#[test]
fn a_number_has_two_digits(rt: HostRuntime) {
    is_number(&rt, 10, 0, 10, false);
    is_number(&rt, 0, 10, 10, true);
    is_number(&rt, 10, 3, 13, true);
    is_number(&rt, 0, 0, 0, true);
    is_number(&rt, 10, 2, 12, false);
    is_number(&rt, 0, 1, 1, false);
    are_alike(&rt, is_out_of(1, 366, 6, 366), false);
    are_alike(&rt, is_out_of(1, 365, 6, 366), true);
    are_alike(&rt, is_out_of(1, 366, 10, 360), true);
}

// The symbols in turn, each row of seven places beginning with the next one.
fn symbol_at(place: usize) -> Symbol {
    match (place / 7 + place % 7) % 6 {
        0 => Symbol::Zero,
        1 => Symbol::One,
        2 => Symbol::OnlyB,
        3 => Symbol::Both,
        4 => Symbol::Long,
        _ => Symbol::Odd,
    }
}

fn seventy() -> [Mark; 70] {
    let mut marks = [Mark {
        at: moment(0),
        symbol: Symbol::Zero,
    }; 70];
    for (place, mark) in marks.iter_mut().enumerate() {
        mark.symbol = symbol_at(place);
    }
    marks
}

// Whether both forms answer alike on each kept place.
fn have_the_same_places(segment: &Segment<'_>, frame: &Frame) -> bool {
    for place in 0..61 {
        let alike = segment.is_set(Bit::Only, place) == frame.is_set(Bit::Only, place)
            && segment.is_set(Bit::A, place) == frame.is_set(Bit::A, place)
            && segment.is_set(Bit::B, place) == frame.is_set(Bit::B, place)
            && segment.is_long(place) == frame.is_long(place);
        if !alike {
            return false;
        }
    }
    segment.count() == frame.count() && segment.has_long_after() == frame.has_long_after()
}

// Both forms of these marks answer alike.
fn agree(rt: &impl Abort, marks: &[Mark]) {
    assert!(*rt;
        have_the_same_places(&Segment { marks }, &added(marks)),
        "of {}",
        marks.len()
    );
}

fn all_agree(rt: &impl Abort, marks: &[Mark; 70]) {
    for count in 0..71usize {
        agree(rt, &marks[..count]);
    }
}

#[test]
fn a_frame_keeps_the_places_of_a_slice(rt: HostRuntime) {
    all_agree(&rt, &seventy());
}

// Whether a Long mark after the 61st is remembered, where this place alone is Long; it is not among the first 61.
fn is_remembered(rt: &impl Abort, place: usize, wanted: bool)
    requires { place < 70 }
{
    let mut marks = [Mark {
        at: moment(0),
        symbol: Symbol::Zero,
    }; 70];
    marks[place].symbol = Symbol::Long;
    are_alike(rt, added(&marks).has_long_after(), wanted);
    are_alike(rt, Segment { marks: &marks }.has_long_after(), wanted);
    are_alike(rt, added(&marks[..61]).has_long_after(), false);
}

// A Long mark after the 61st is remembered, and one before it is not taken for it.
#[test]
fn a_long_mark_after_is_remembered(rt: HostRuntime) {
    is_remembered(&rt, 60, false);
    is_remembered(&rt, 61, true);
    is_remembered(&rt, 62, true);
    is_remembered(&rt, 69, true);
}
