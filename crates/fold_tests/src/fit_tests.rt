//! Pages after each entry of a journal, while sources become fit and unfit and others stand outside.
use crate::journals::{DCF, journal_of, page_after, settings_of};
use crate::shared::{moment, same};
use journal_entry::{Entry, What};
use std::alloc::Global;
use std::process::Abort;
use system_fold::SourceKind;
use tick_units::Kind;

// The page gives the time after these numbers of entries, and after no other. At each number `page_after` finds that the interval of the
// sweep leads to the same page as a new selection.
fn is_used_after(
    rt: &impl Abort,
    alloc: Global,
    kinds: &[SourceKind],
    journal: &[Entry],
    want: &[usize],
) {
    let settings = settings_of(rt, 1000, kinds);
    let mut reported = Vec::new(alloc);
    for place in 0..journal.len() {
        let entries = place + 1;
        if page_after(rt, &settings, &journal[..entries]).sync {
            reported.push(entries).expect(rt, "no memory");
        }
    }
    same(rt, reported.as_slice(), want);
}

// The leap second ends at 3692217600.
const OVER_A_LEAP: [&str; 8] = [
    "0 122000000 verdict 3692217360 3692217600",
    "0 182000000 verdict 3692217420 3692217600",
    "0 242000000 verdict 3692217480 3692217600",
    "0 302000000 verdict 3692217540 3692217600",
    "0 363000000 verdict 3692217600 3692217600",
    "0 423000000 verdict 3692217660 0",
    "0 483000000 verdict 3692217720 0",
    "0 543000000 verdict 3692217780 0",
];

// Samples from before the leap second no longer count.
#[test]
fn a_source_is_unfit_after_a_leap_and_fit_again(rt: HostRuntime) {
    let alloc = rt.alloc();
    let journal = journal_of(&rt, alloc, &OVER_A_LEAP);
    is_used_after(&rt, alloc, &[DCF], &journal, &[4, 8]);
}

// Adds a minute of a radio that is this many seconds off.
fn add_minute(rt: &impl Abort, journal: &mut Vec<Entry>, feed: u32, number: u16, off: u32) {
    let at = 122_000_000 + 60_000_000 * u64::from(number);
    let second = 3_976_257_660 + 60 * u64::from(number) + u64::from(off);
    let entry = Entry {
        feed,
        at: moment(at),
        what: What::Heard(Kind::Verdict { second, leap_at: 0 }),
    };
    journal.push(entry).expect(rt, "no memory");
}

// Five minutes of three radios. The first is ten seconds off in four of them.
fn of_three(rt: &impl Abort, alloc: Global) -> Vec<Entry> {
    let mut journal = Vec::new(alloc);
    for number in 0..5 {
        let off = if number < 4 { 10 } else { 0 };
        add_minute(rt, &mut journal, 0, number, off);
        add_minute(rt, &mut journal, 1, number, 0);
        add_minute(rt, &mut journal, 2, number, 0);
    }
    journal
}

// The first radio is ten seconds off, so the second is apart from it, and the third decides. A minute later the first is right,
// but its samples differ so much that it is no longer fit.
#[test]
fn a_source_stands_outside_and_becomes_unfit(rt: HostRuntime) {
    let alloc = rt.alloc();
    let journal = of_three(&rt, alloc);
    is_used_after(&rt, alloc, &[DCF; 3], &journal, &[10, 12, 13, 14, 15]);
}

// Four minutes of sixteen radios. The first nine are right, and the others ten seconds off.
fn of_sixteen(rt: &impl Abort, alloc: Global) -> Vec<Entry> {
    let mut journal = Vec::new(alloc);
    for number in 0..4 {
        for feed in 0..16 {
            let off = if feed < 9 { 0 } else { 10 };
            add_minute(rt, &mut journal, feed, number, off);
        }
    }
    journal
}

const FROM_49_TO_64: [usize; 16] = [
    49, 50, 51, 52, 53, 54, 55, 56, 57, 58, 59, 60, 61, 62, 63, 64,
];

// The first nine of sixteen agree, and become fit before the others.
#[test]
fn seven_of_sixteen_stand_outside(rt: HostRuntime) {
    let alloc = rt.alloc();
    let journal = of_sixteen(&rt, alloc);
    is_used_after(&rt, alloc, &[DCF; 16], &journal, &FROM_49_TO_64);
}
