//! Tests of `migrate` over the fakes: journals of both forms, bad lines, and each fault on the way.
use crate::runs::same;
use crate::scene::{plays, plays_each_writing};
use file_commands::JOURNAL_LIMIT;
use std::alloc::Global;
use std::process::Abort;
use std::sync::Wait;
use std::thread::Threads;

// A station of one radio, and the journal up to its text.
const MIGRATE: &str = r#"
    run migrate --station s --journal p
    file s
    | [[radio]]
    | plan = "dcf"
    | log = "log"

    file p
"#;

const BARE: &str = r#"
    | 0 62000000 lone 3976257600
    | 0 122000000 verdict 3976257660 0
"#;

// What two entries give, which is a journal too.
const NUMBERED: &str = r#"
    | j2 1 0 0 62000000 lone 3976257600
    | j2 2 0 0 122000000 verdict 3976257660 0
"#;

const TWO: &str = "| page 2 0 0 494e4954 0 122000000 0 0 1048576 0000000000000000 0 0";

const NONE_KEPT: &str = "| page 0 0 0 494e4954 0 0 0 0 1048576 0000000000000000 0 0";

const DONE: &str = "| status 0\nstatus 0";

#[test]
fn both_forms_give_the_second(rt: HostRuntime) {
    plays(
        &rt,
        rt.alloc(),
        &[MIGRATE, BARE, "writes", NUMBERED, TWO, DONE],
    );
    plays(
        &rt,
        rt.alloc(),
        &[MIGRATE, NUMBERED, "writes", NUMBERED, TWO, DONE],
    );
    plays(&rt, rt.alloc(), &[MIGRATE, "writes", NONE_KEPT, DONE]);
}

// Five exact minutes, and one that comes 3 ms late: the counter loses 12.5 parts per million.
const LATE: &str = r#"
    | 0 62000000 lone 3976257600
    | 0 122000000 verdict 3976257660 0
    | 0 182000000 verdict 3976257720 0
    | 0 242000000 verdict 3976257780 0
    | 0 302000000 verdict 3976257840 0
    | 0 362003000 verdict 3976257900 0
"#;

const LATE_MOVED: &str = r#"
    | j2 1 0 0 62000000 lone 3976257600
    | j2 2 0 0 122000000 verdict 3976257660 0
    | j2 3 0 0 182000000 verdict 3976257720 0
    | j2 4 0 0 242000000 verdict 3976257780 0
    | j2 5 0 0 302000000 verdict 3976257840 0
    | j2 6 -53687 0 362003000 verdict 3976257900 0
"#;

const LATE_PAGE: &str =
    "| page 6 1 1 44434600 17077896086170592347 362003000 37547671946 0 28981 ed00e16c00000000 0 -53687";

#[test]
fn a_line_reports_the_rate_after_it(rt: HostRuntime) {
    plays(
        &rt,
        rt.alloc(),
        &[MIGRATE, LATE, "writes", LATE_MOVED, LATE_PAGE, DONE],
    );
    plays(
        &rt,
        rt.alloc(),
        &[MIGRATE, LATE_MOVED, "writes", LATE_MOVED, LATE_PAGE, DONE],
    );
}

// What a journal gives whose first line is bad.
const REFUSED: &str = r#"
    writes
    | page 0 0 0 494e4954 0 0 0 0 1048576 0000000000000000 0 0
    | status 5 journal 1
    status 5
"#;

// The first line of each of these journals is bad, and nothing of it is kept.
fn refuses(rt: &(impl Abort + Threads + Wait + Sync), alloc: Global, journals: &str) {
    for line in journals.lines() {
        if line != "" {
            plays(rt, alloc, &[MIGRATE, line, REFUSED]);
        }
    }
}

// An empty line, a line of another kind, one without its line feed, one too few words, no such feed, moments that don't exist, numbers below 0 or
// above their most.
const NO_ENTRIES: &str = r#"
    |
    | page 0 0 0 494e4954 0 0 0 0 1048576 0000000000000000 0 0
    | 0 62000000 lone 3976257600\
    > hex 30203632303030303030206c6f6e6520333937363235373630300d0a
    | 0 62000000 lone
    | 1 62000000 lone 3976257600
    | 0 0 verdict 3155587199 0
    | 0 0 verdict 6311606400 0
    | 0 0 verdict 3976257660 1
    | 0 0 verdict 3976257660 6311606400
    | 0 0 notice 6311606400
    | 0 0 sample -1 0 0 1 7f000001 0 0
    | 0 0 sample 0 -1 0 1 7f000001 0 0
    | 0 0 sample 0 0 -1 1 7f000001 0 0
    | 0 0 sample 73786976294838206464 0 0 1 7f000001 0 0
"#;

// A rate that no first line has, numbers that aren't spelt so, and a number that isn't the next.
const NO_NUMBERED_ENTRIES: &str = r#"
    | j2 1 5 0 62000000 lone 3976257600
    | j2 1 -0 0 62000000 lone 3976257600
    | j2 1 +0 0 62000000 lone 3976257600
    | j2 1 00 0 62000000 lone 3976257600
    | j2 0 0 0 62000000 lone 3976257600
    | j2 2 0 0 62000000 lone 3976257600
    | j2 01 0 0 62000000 lone 3976257600
    | j2 18446744073709551616 0 0 62000000 lone 3976257600
    | j2 1 0 0 62000000 lone 3976257600\
    | j2 1 0 1 62000000 lone 3976257600
"#;

#[test]
fn lines_of_no_journal(rt: HostRuntime) {
    refuses(&rt, rt.alloc(), NO_ENTRIES);
    refuses(&rt, rt.alloc(), NO_NUMBERED_ENTRIES);
}

// What a journal gives whose second line is bad, after a minute that stands there once.
const FIRST_STANDS: &str = r#"
    writes
    | j2 1 0 0 62000000 lone 3976257600
    | page 1 0 0 494e4954 0 62000000 0 0 1048576 0000000000000000 0 0
    | status 5 journal 2
    status 5
"#;

#[test]
fn lines_before_a_bad_one_stand(rt: HostRuntime) {
    let first = "| 0 62000000 lone 3976257600";
    for line in [
        "| 0 122000000 verdict 3976257660",
        "| j2 2 0 0 122000000 verdict 3976257660 0",
        "| status 0",
        "|",
    ] {
        plays(&rt, rt.alloc(), &[MIGRATE, first, line, FIRST_STANDS]);
    }
    let third = "| status 5 journal 3\nstatus 5";
    for line in [
        "| 0 182000000 verdict 3976257720 0",
        "| j2 3 1 0 182000000 verdict 3976257720 0",
        "| j2 4 0 0 182000000 verdict 3976257720 0",
    ] {
        plays(
            &rt,
            rt.alloc(),
            &[MIGRATE, NUMBERED, line, "writes", NUMBERED, TWO, third],
        );
    }
}

// Each at a bound, and moments that fall.
#[test]
fn what_is_valid_is_moved(rt: HostRuntime) {
    let scene = r#"
        | 0 122000000 lone 0
        | 0 0 verdict 3155587200 0
        | 0 0 verdict 6311606399 3155587200
        | 0 0 notice 6311606399
        | 0 0 notice 0
        | 0 0 sample 73786976294838206463 0 0 255 7f000001 0 0
        writes
        | j2 1 0 0 122000000 lone 0
        | j2 2 0 0 0 verdict 3155587200 0
        | j2 3 0 0 0 verdict 6311606399 3155587200
        | j2 4 0 0 0 notice 6311606399
        | j2 5 0 0 0 notice 0
        | j2 6 0 0 0 sample 73786976294838206463 0 0 255 7f000001 0 0
        | page 6 0 0 494e4954 0 122000000 0 0 1048576 0000000000000000 0 0
        | status 0
        status 0
    "#;
    plays(&rt, rt.alloc(), &[MIGRATE, scene]);
}

// A line that is too long is bad at its 300th byte, whatever comes after it.
#[test]
fn a_line_of_300_bytes(rt: HostRuntime) {
    plays(&rt, rt.alloc(), &[MIGRATE, "> repeat 299 0", REFUSED]);
    plays(&rt, rt.alloc(), &[MIGRATE, "> repeat 300 0", REFUSED]);
    plays(
        &rt,
        rt.alloc(),
        &[
            MIGRATE,
            "> repeat 300 0\n|\n| 0 62000000 lone 3976257600",
            REFUSED,
        ],
    );
}

#[test]
fn openings_and_readings_that_fail(rt: HostRuntime) {
    let station = "writes\n| status 2 open station\nstatus 2";
    plays(
        &rt,
        rt.alloc(),
        &[MIGRATE, BARE, "fails opening 1", station],
    );
    let journal = "writes\n| status 2 open journal\nstatus 2";
    plays(
        &rt,
        rt.alloc(),
        &[MIGRATE, BARE, "fails opening 2", journal],
    );
    let station = "writes\n| status 4 read station\nstatus 4";
    plays(&rt, rt.alloc(), &[MIGRATE, BARE, "fails file s 1", station]);
    let journal = "| status 4 read journal\nstatus 4";
    plays(
        &rt,
        rt.alloc(),
        &[MIGRATE, BARE, "fails file p 1\nwrites", NONE_KEPT, journal],
    );
    plays(
        &rt,
        rt.alloc(),
        &[
            MIGRATE,
            BARE,
            "fails file p 2\nwrites",
            NUMBERED,
            TWO,
            journal,
        ],
    );
}

// A write that fails is the last: each line is written in one.
#[test]
fn writings_that_fail(rt: HostRuntime) {
    plays_each_writing(
        &rt,
        rt.alloc(),
        &[MIGRATE, BARE, "writes", NUMBERED, TWO, DONE],
    );
}

#[test]
fn a_station_with_a_fault_moves_nothing(rt: HostRuntime) {
    let scene = r#"
        run migrate --station s --journal p
        file s
        | holdover = 600
        file p
        | 0 62000000 lone 3976257600
        writes
        | status 3 station unknown holdover
        status 3
    "#;
    plays(&rt, rt.alloc(), &[scene]);
}

// What docs/FORMATS.md gives a journal.
#[test]
fn a_journal_may_have_two_to_the_thirty_bytes(rt: HostRuntime) {
    same(&rt, JOURNAL_LIMIT, 1_073_741_824);
}
