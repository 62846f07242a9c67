//! Journals with and without a leap second.
use crate::shared::same;
use drill_day::names_no_leap;
use journal_entry::read_entry;
use std::alloc::Global;
use std::process::Abort;

// The journal of these lines names a leap second, or does not.
fn is_named(rt: &impl Abort, alloc: Global, lines: &[&str], named: bool) {
    let mut journal = Vec::new(alloc);
    for line in lines {
        let entry = read_entry(line.as_bytes()).expect(rt, "no entry");
        journal.push(entry).expect(rt, "no memory");
    }
    same(rt, (lines, !names_no_leap(&journal)), (lines, named));
}

#[test]
fn an_empty_journal_names_none(rt: HostRuntime) {
    same(&rt, names_no_leap(&[]), true);
}

#[test]
fn a_verdict_names_its_leap_second(rt: HostRuntime) {
    let alloc = rt.alloc();
    is_named(&rt, alloc, &["0 62000000 verdict 3692217540 0"], false);
    let named = "0 62000000 verdict 3692217540 3692217600";
    is_named(&rt, alloc, &[named], true);
}

#[test]
fn a_notice_names_its_leap_second(rt: HostRuntime) {
    let alloc = rt.alloc();
    is_named(&rt, alloc, &["3 62000000 notice 0"], false);
    is_named(&rt, alloc, &["3 62000000 notice 3692217600"], true);
}

const OTHERS: [&str; 5] = [
    "0 62000000 lone 3692217540",
    "0 122000000 differs 3692217540 3692217600 60000000",
    "1 62000000 refused 7",
    "2 62000000 sample 15857952295525235556 1 1 1 7f000001 0 0",
    "2 62000000 declined 4",
];

#[test]
fn no_other_entry_names_one(rt: HostRuntime) {
    is_named(&rt, rt.alloc(), &OTHERS, false);
}

const LONE: &str = "0 62000000 lone 3692217540";

const NOTICE: &str = "3 62000001 notice 3692217600";

#[test]
fn one_that_names_one_is_found_among_others(rt: HostRuntime) {
    let alloc = rt.alloc();
    is_named(&rt, alloc, &[LONE, NOTICE], true);
    is_named(&rt, alloc, &[NOTICE, LONE], true);
    is_named(&rt, alloc, &[LONE, LONE], false);
}
