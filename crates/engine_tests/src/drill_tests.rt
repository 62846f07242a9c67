//! Tests of `drill`. What it prints of a day was worked out by a program apart from the minutes as they are spelt. Each test
//! has one drill, since a day takes long where it is interpreted. The first opening would fail: a drill opens nothing.
use crate::scene::{plays, written_of};
use std::alloc::Global;
use std::process::Abort;
use std::sync::Wait;
use std::thread::Threads;

const NO_OPENING: &str = "fails opening 1";

// What the seed 7 gives.
const SEED_7: &str = r#"
    fails opening 1
    writes
    | feed 0 verdict 1381 lone 30 differs 0 refused 29
    | feed 1 verdict 1381 lone 30 differs 0 refused 29
    | feed 2 verdict 1381 lone 30 differs 0 refused 29
    | page 4320 1 1 4d534600 17099604805104220025 86407001877 152740009690 0 328 ed4f51800047ba4e 0 -2987
    | status 0
    status 0
"#;

#[test]
fn a_day_is_reported_as_it_was_spelt(rt: HostRuntime) {
    plays(&rt, rt.alloc(), &["run drill --seed 7", SEED_7]);
}

#[test]
fn a_day_of_the_least_seed(rt: HostRuntime) {
    let scene = r#"
        run drill --seed 0
        fails opening 1
        writes
        | feed 0 verdict 1383 lone 29 differs 0 refused 28
        | feed 1 verdict 1383 lone 29 differs 0 refused 28
        | feed 2 verdict 1383 lone 29 differs 0 refused 28
        | page 4320 1 1 44434600 17099604805102284484 86407001692 152740009505 0 328 ed4f5180001e11d0 0 3579
        | status 0
        status 0
    "#;
    plays(&rt, rt.alloc(), &[scene]);
}

// The generator of MSF begins with 0 for this seed, and that of WWVB with 1.
#[test]
fn a_day_of_the_greatest_seed(rt: HostRuntime) {
    let scene = r#"
        run drill --seed 4294967295
        fails opening 1
        writes
        | feed 0 verdict 1383 lone 29 differs 0 refused 28
        | feed 1 verdict 1383 lone 29 differs 0 refused 28
        | feed 2 verdict 1383 lone 29 differs 0 refused 28
        | page 4320 1 1 4d534600 17099604805102587613 86407001671 152740009484 0 328 ed4f518000215197 0 1953
        | status 0
        status 0
    "#;
    plays(&rt, rt.alloc(), &[scene]);
}

// A feed waits with its second entry until another has put its entry into the journal: what is printed is the same.
fn waits(rt: &(impl Abort + Threads + Wait + Sync), alloc: Global, gate: &str) {
    plays(rt, alloc, &["run drill --seed=7", SEED_7, gate, "passed"]);
}

#[test]
fn the_first_feed_waits_for_the_second(rt: HostRuntime) {
    waits(&rt, rt.alloc(), "gate 0 1 1 4 1");
}

#[test]
fn the_second_feed_waits_for_the_first(rt: HostRuntime) {
    waits(&rt, rt.alloc(), "gate 1 1 0 4 1");
}

// A day has 1440 minutes of three radios.
#[test]
fn a_journal_of_4320_entries_has_room_for_a_day(rt: HostRuntime) {
    plays(
        &rt,
        rt.alloc(),
        &["run drill --seed=7 --limit=4320", SEED_7],
    );
}

#[test]
fn a_journal_of_4319_entries_is_full(rt: HostRuntime) {
    let scene = r#"
        run drill --seed=7 --limit=4319
        ends
        |
        | status 6 full 4319
        status 6
    "#;
    plays(&rt, rt.alloc(), &[NO_OPENING, scene]);
}

// The sum of all numbers of the lines of feeds that aren't the numbers of the feeds.
fn sum_of_feeds(written: &[u8]) -> u64 {
    let mut sum = 0u64;
    for line in written.split(|byte| *byte == b'\n') {
        if line.starts_with(b"feed ") {
            for (place, field) in line.split(|byte| *byte == b' ').enumerate() {
                if let [digit] = field
                    && place > 1
                {
                    sum = sum.wrapping_add(u64::from(digit.wrapping_sub(b'0')));
                }
            }
        }
    }
    sum
}

#[test]
fn a_journal_of_three_entries_is_reported(rt: HostRuntime) {
    let scene = r#"
        run drill --seed 7 --limit 3
        ends
        |  0 0
        | status 6 full 3
        status 6
    "#;
    let written = written_of(&rt, rt.alloc(), &[NO_OPENING, scene]);
    assert!(rt; sum_of_feeds(written.as_slice()) == 3);
}

// The writing of this number fails, and after it nothing is written. Three lines of feeds, the page and the status are five.
fn is_cut(rt: &(impl Abort + Threads + Wait + Sync), alloc: Global, fails: &str, lines: &str) {
    plays(
        rt,
        alloc,
        &[
            "run drill --seed=7",
            NO_OPENING,
            fails,
            "writes",
            lines,
            "status 8",
        ],
    );
}

const FEED_0: &str = "| feed 0 verdict 1381 lone 30 differs 0 refused 29";

const FEEDS_0_1: &str = r#"
    | feed 0 verdict 1381 lone 30 differs 0 refused 29
    | feed 1 verdict 1381 lone 30 differs 0 refused 29
"#;

const FEEDS: &str = r#"
    | feed 0 verdict 1381 lone 30 differs 0 refused 29
    | feed 1 verdict 1381 lone 30 differs 0 refused 29
    | feed 2 verdict 1381 lone 30 differs 0 refused 29
"#;

const PAGE: &str = r#"
    | feed 0 verdict 1381 lone 30 differs 0 refused 29
    | feed 1 verdict 1381 lone 30 differs 0 refused 29
    | feed 2 verdict 1381 lone 30 differs 0 refused 29
    | page 4320 1 1 4d534600 17099604805104220025 86407001877 152740009690 0 328 ed4f51800047ba4e 0 -2987
"#;

#[test]
fn the_first_feeds_line_fails(rt: HostRuntime) {
    is_cut(&rt, rt.alloc(), "fails writing 1", "");
}

#[test]
fn the_second_feeds_line_fails(rt: HostRuntime) {
    is_cut(&rt, rt.alloc(), "fails writing 2", FEED_0);
}

#[test]
fn the_third_feeds_line_fails(rt: HostRuntime) {
    is_cut(&rt, rt.alloc(), "fails writing 3", FEEDS_0_1);
}

#[test]
fn the_line_of_the_page_fails(rt: HostRuntime) {
    is_cut(&rt, rt.alloc(), "fails writing 4", FEEDS);
}

#[test]
fn the_status_line_fails(rt: HostRuntime) {
    is_cut(&rt, rt.alloc(), "fails writing 5", PAGE);
}

#[test]
fn a_drill_without_a_seed_is_refused(rt: HostRuntime) {
    for run in [
        "run drill",
        "run drill --seed=4294967296",
        "run drill --seed=7 --limit=0",
    ] {
        plays(
            &rt,
            rt.alloc(),
            &[run, NO_OPENING, "writes\n| status 1 usage\nstatus 1"],
        );
    }
}
