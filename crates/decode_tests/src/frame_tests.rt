//! The frames of the three plans, which read mark by mark, answer as the readers of slices do.
ghost use Rattle.std.specs.Prelude.{◌≤◌, ◌<◌};

use crate::shared::{MSF_A, WWVB_MARKERS, moment, same};
use frame_rules::{CodePlan, Frame, Segment};
use memory_outside::NOON_0;
use std::process::Abort;
use tick_units::{Broken, Coded, Local, Mark, Plan, Symbol};

// Seventy symbols, of a valid minute and more: 1 January 2026, 13:00 CET, by PTB's table.
fn dcf_symbol(place: usize) -> Symbol {
    if NOON_0.contains(&place) {
        Symbol::One
    } else {
        Symbol::Zero
    }
}

// 12:00 GMT of that day, by NPL's table.
fn msf_symbol(place: usize) -> Symbol {
    match place {
        0 => Symbol::Long,
        55 | 57 => Symbol::Both,
        _ if MSF_A.contains(&place) => Symbol::One,
        _ => Symbol::Zero,
    }
}

// 12:00 UTC of that day, by NIST's table.
fn wwvb_symbol(place: usize) -> Symbol {
    match place {
        13 | 17 | 33 | 36 | 38 | 47 | 51 | 52 => Symbol::One,
        _ if WWVB_MARKERS.contains(&place) => Symbol::Long,
        _ => Symbol::Zero,
    }
}

// The start of the mark of a place where `moved` is 100000 microseconds, and as much later as it is more.
fn start_of(place: usize, moved: u64) -> Local {
    moment(1_900_000 + 1_000_000 * (place % 100) as u64 + moved % 1_000_000)
}

fn seventy(symbols: &[Symbol; 70]) -> [Mark; 70] {
    let mut marks = [Mark {
        at: moment(0),
        symbol: Symbol::Zero,
    }; 70];
    for (place, mark) in marks.iter_mut().enumerate() {
        mark.at = start_of(place, 100_000);
        mark.symbol = symbols[place];
    }
    marks
}

// What a frame comes to, where it reads these marks one by one.
fn read_one_by_one<C: CodePlan>(segment: &[Mark], close: Local) -> Result<Coded, Broken> {
    let mut frame: Frame<C> = Frame::new();
    for mark in segment {
        frame.add(*mark);
    }
    frame.close(close)
}

// What a segment comes to; the slice and the frame agree on that.
fn read_both<C: CodePlan>(
    rt: &impl Abort,
    segment: &[Mark],
    close: Local,
) -> Result<Coded, Broken> {
    let wanted = C::judge(&Segment { marks: segment }, close);
    same(rt, read_one_by_one::<C>(segment, close), wanted);
    wanted
}

// Reads the first `count` marks in both ways. The next mark starts `moved` microseconds after 0.1 s before its second.
fn agree_on_prefix<C: CodePlan>(rt: &impl Abort, marks: &[Mark; 70], count: usize, moved: u64)
    requires { count ≤ 70 }
{
    let _ = read_both::<C>(rt, &marks[..count], start_of(count, moved));
}

// Reads prefixes of these marks in both ways, closed a second after them.
fn agree_on_prefixes<C: CodePlan>(rt: &impl Abort, marks: &[Mark; 70]) {
    agree_on_prefix::<C>(rt, marks, 1, 100_000);
    agree_on_prefix::<C>(rt, marks, 58, 100_000);
    agree_on_prefix::<C>(rt, marks, 59, 100_000);
    agree_on_prefix::<C>(rt, marks, 60, 100_000);
    agree_on_prefix::<C>(rt, marks, 61, 100_000);
    agree_on_prefix::<C>(rt, marks, 62, 100_000);
    agree_on_prefix::<C>(rt, marks, 70, 100_000);
}

// A minute in which the mark of one place has this symbol.
fn agree_with_symbol<C: CodePlan>(
    rt: &impl Abort,
    symbols: &[Symbol; 70],
    place: usize,
    symbol: Symbol,
)
    requires { place < 70 }
{
    let mut changed = seventy(symbols);
    changed[place].symbol = symbol;
    agree_on_prefixes::<C>(rt, &changed);
}

// Each symbol at each place, within a minute and after it.
fn agree_on_symbols<C: CodePlan>(rt: &impl Abort, symbols: &[Symbol; 70]) {
    for place in 0..70 {
        agree_with_symbol::<C>(rt, symbols, place, Symbol::Zero);
        agree_with_symbol::<C>(rt, symbols, place, Symbol::One);
        agree_with_symbol::<C>(rt, symbols, place, Symbol::OnlyB);
        agree_with_symbol::<C>(rt, symbols, place, Symbol::Both);
        agree_with_symbol::<C>(rt, symbols, place, Symbol::Long);
        agree_with_symbol::<C>(rt, symbols, place, Symbol::Odd);
    }
}

// A minute in which the mark of one place is moved.
fn agree_with_start<C: CodePlan>(rt: &impl Abort, symbols: &[Symbol; 70], place: usize, moved: u64)
    requires { place < 70 }
{
    let mut changed = seventy(symbols);
    changed[place].at = start_of(place, moved);
    agree_on_prefixes::<C>(rt, &changed);
}

// Each mark too early, too late, and just in time.
fn agree_on_starts<C: CodePlan>(rt: &impl Abort, symbols: &[Symbol; 70]) {
    for place in 0..70 {
        agree_with_start::<C>(rt, symbols, place, 0);
        agree_with_start::<C>(rt, symbols, place, 199_999);
        agree_with_start::<C>(rt, symbols, place, 200_000);
        agree_with_start::<C>(rt, symbols, place, 200_001);
        agree_with_start::<C>(rt, symbols, place, 300_000);
    }
}

// Segments of each length, closed too early, too late, and just in time.
fn agree_on_lengths<C: CodePlan>(rt: &impl Abort, marks: &[Mark; 70]) {
    for count in 0..71 {
        agree_on_prefix::<C>(rt, marks, count, 0);
        agree_on_prefix::<C>(rt, marks, count, 199_999);
        agree_on_prefix::<C>(rt, marks, count, 200_000);
        agree_on_prefix::<C>(rt, marks, count, 200_001);
        agree_on_prefix::<C>(rt, marks, count, 300_000);
    }
}

// Seventy marks, of which one is odd and one is late, where they are among them, break this rule.
fn refuse<C: CodePlan>(rt: &impl Abort, symbols: &[Symbol; 70], odd: usize, late: usize, rule: u8) {
    let mut marks = seventy(symbols);
    if odd < 70 {
        marks[odd].symbol = Symbol::Odd;
    }
    if late < 70 {
        marks[late].at = start_of(late, 200_001);
    }
    let read = read_both::<C>(rt, &marks, start_of(70, 100_000));
    same(rt, (odd, late, read), (odd, late, Err(Broken { rule })));
}

// Seventy marks are refused by their length; by an odd width, or by their spacing, wherever they are.
fn refuse_a_long_segment<C: CodePlan>(rt: &impl Abort, symbols: &[Symbol; 70]) {
    refuse::<C>(rt, symbols, 70, 70, 3);
    refuse::<C>(rt, symbols, 64, 70, 2);
    refuse::<C>(rt, symbols, 3, 70, 2);
    refuse::<C>(rt, symbols, 70, 61, 1);
    refuse::<C>(rt, symbols, 70, 69, 1);
    refuse::<C>(rt, symbols, 64, 65, 1);
    refuse::<C>(rt, symbols, 70, 2, 1);
}

fn agree<C: CodePlan>(rt: &impl Abort, symbols: &[Symbol; 70]) {
    let marks = seventy(symbols);
    agree_on_symbols::<C>(rt, symbols);
    agree_on_starts::<C>(rt, symbols);
    agree_on_lengths::<C>(rt, &marks);
    refuse_a_long_segment::<C>(rt, symbols);
}

fn symbols_by(plan: Plan) -> [Symbol; 70] {
    let mut symbols = [Symbol::Zero; 70];
    for (place, symbol) in symbols.iter_mut().enumerate() {
        *symbol = match plan {
            Plan::Dcf => dcf_symbol(place),
            Plan::Msf => msf_symbol(place),
            Plan::Wwvb => wwvb_symbol(place),
        };
    }
    symbols
}

#[test]
fn frames_agree_with_slices(rt: HostRuntime) {
    agree::<plan_dcf::Dcf>(&rt, &symbols_by(Plan::Dcf));
    agree::<plan_msf::Msf>(&rt, &symbols_by(Plan::Msf));
    agree::<plan_wwvb::Wwvb>(&rt, &symbols_by(Plan::Wwvb));
}
