//! Tests of marks, by the classes and the two parts of an MSF second.
use crate::shared::{reduction, same};
use second_marks::Marker;
use std::process::Abort;
use tick_units::{Plan, Symbol};

// The start and the symbol of the mark that a reduction completes.
fn hear(marker: &mut Marker, at: u64, width: u32) -> Option<(u64, Symbol)> {
    match marker.hear(reduction(at, width)) {
        Some(mark) => Some((mark.at.get(), mark.symbol)),
        None => None,
    }
}

fn completes(rt: &impl Abort, marker: &mut Marker, at: u64, want: Option<(u64, Symbol)>) {
    same(rt, hear(marker, at, 100_000), want);
}

// Four short reductions. The second cannot begin another pair, and the mark of the last never comes.
#[test]
fn two_parts_of_an_msf_second_are_one_mark(rt: HostRuntime) {
    let mut marker = Marker::new(Plan::Msf);
    completes(&rt, &mut marker, 3_000_000, None);
    completes(&rt, &mut marker, 3_200_000, None);
    completes(
        &rt,
        &mut marker,
        3_400_000,
        Some((3_000_000, Symbol::OnlyB)),
    );
    completes(&rt, &mut marker, 4_400_000, Some((3_400_000, Symbol::Zero)));
}

// The symbol of a first reduction of this width.
fn symbol_of(plan: Plan, width: u32) -> Option<Symbol> {
    match hear(&mut Marker::new(plan), 0, width) {
        Some((_, symbol)) => Some(symbol),
        None => None,
    }
}

fn is_of(rt: &impl Abort, plan: Plan, width: u32, want: Symbol) {
    same(rt, (width, symbol_of(plan, width)), (width, Some(want)));
}

#[test]
fn widths_have_their_classes(rt: HostRuntime) {
    is_of(&rt, Plan::Dcf, 39_999, Symbol::Odd);
    is_of(&rt, Plan::Dcf, 40_000, Symbol::Zero);
    is_of(&rt, Plan::Dcf, 149_999, Symbol::Zero);
    is_of(&rt, Plan::Dcf, 150_000, Symbol::One);
    is_of(&rt, Plan::Dcf, 260_000, Symbol::One);
    is_of(&rt, Plan::Dcf, 260_001, Symbol::Odd);
    is_of(&rt, Plan::Wwvb, 99_999, Symbol::Odd);
    is_of(&rt, Plan::Wwvb, 100_000, Symbol::Zero);
    is_of(&rt, Plan::Wwvb, 349_999, Symbol::Zero);
    is_of(&rt, Plan::Wwvb, 350_000, Symbol::One);
    is_of(&rt, Plan::Wwvb, 649_999, Symbol::One);
    is_of(&rt, Plan::Wwvb, 650_000, Symbol::Long);
    is_of(&rt, Plan::Wwvb, 900_000, Symbol::Long);
    is_of(&rt, Plan::Wwvb, 900_001, Symbol::Odd);
}

// What a first reduction of MSF completes, and the symbol of the mark that a second one completes.
fn two_of(apart: u64, first: u32, second: u32) -> (bool, Option<Symbol>) {
    let mut marker = Marker::new(Plan::Msf);
    let was_whole = hear(&mut marker, 0, first).is_some();
    match hear(&mut marker, apart, second) {
        Some((_, symbol)) => (was_whole, Some(symbol)),
        None => (was_whole, None),
    }
}

// A reduction of this width, with a long one after it.
fn is_of_msf(rt: &impl Abort, width: u32, want: Symbol) {
    let found = two_of(1_000_000, width, 500_000);
    same(rt, (width, found), (width, (false, Some(want))));
}

#[test]
fn msf_widths_have_their_classes(rt: HostRuntime) {
    is_of_msf(&rt, 39_999, Symbol::Odd);
    is_of_msf(&rt, 40_000, Symbol::Zero);
    is_of_msf(&rt, 149_999, Symbol::Zero);
    is_of_msf(&rt, 150_000, Symbol::One);
    is_of_msf(&rt, 249_999, Symbol::One);
    is_of_msf(&rt, 250_000, Symbol::Both);
    is_of_msf(&rt, 399_999, Symbol::Both);
    is_of_msf(&rt, 400_000, Symbol::Long);
    is_of_msf(&rt, 600_000, Symbol::Long);
    is_of_msf(&rt, 600_001, Symbol::Odd);
}

// Whether two reductions of this distance and these widths are the parts of one MSF second; else the first is a mark by itself.
fn are_parts(rt: &impl Abort, apart: u64, first: u32, second: u32, joined: bool) {
    let (was_whole, symbol) = two_of(apart, first, second);
    let found = (was_whole, symbol.is_none());
    same(
        rt,
        (apart, first, second, found),
        (apart, first, second, (false, joined)),
    );
}

#[test]
fn parts_are_short_and_150_to_250_ms_apart(rt: HostRuntime) {
    are_parts(&rt, 149_999, 100_000, 100_000, false);
    are_parts(&rt, 150_000, 100_000, 100_000, true);
    are_parts(&rt, 250_000, 100_000, 100_000, true);
    are_parts(&rt, 250_001, 100_000, 100_000, false);
    are_parts(&rt, 200_000, 40_000, 149_999, true);
    are_parts(&rt, 200_000, 149_999, 40_000, true);
    are_parts(&rt, 200_000, 39_999, 100_000, false);
    are_parts(&rt, 200_000, 150_000, 100_000, false);
    are_parts(&rt, 200_000, 100_000, 39_999, false);
    are_parts(&rt, 200_000, 100_000, 150_000, false);
}
