//! Tests of `decode`, and of words that are refused. The frames are those of DCF77 by PTB's table, of MSF by NPL's and of WWVB by NIST's, computed
//! from the calendar.
use crate::runs::same;
use crate::scene::plays;
use radio_engine::Status;
use std::alloc::Global;
use std::process::Abort;
use std::sync::Wait;
use std::thread::Threads;

// A log of DCF77, MSF or WWVB up to its text.
const DCF: &str = "run decode --plan dcf --log log\nfile log";

const MSF: &str = "run decode --plan msf --log log\nfile log";

const WWVB: &str = "run decode --plan wwvb --log log\nfile log";

const DONE: &str = "| status 0\nstatus 0";

// A first mark, and the frame of 1 January 2026, 13:00 (12:00 UTC) from 2 s on. Then that of 13:01, 13:02 or 13:03.
const NOON: &str = r#"
    | 0 100000
    > dcf 2000000 1000000 0 58 18 20 29 30 33 35 36 44 45 51 52 55
"#;

const NOON_1: &str = "> dcf 62000000 1000000 0 58 18 20 21 28 29 30 33 35 36 44 45 51 52 55";

const LONE: &str = r#"
    writes
    | 0 62000000 lone 3976257600
"#;

#[test]
fn two_frames_in_a_row_are_a_verdict(rt: HostRuntime) {
    let end = r#"
        | 122000000 100000
        writes
        | 0 62000000 lone 3976257600
        | 0 122000000 verdict 3976257660 0
        | status 0
        status 0
    "#;
    plays(&rt, rt.alloc(), &[DCF, NOON, NOON_1, end]);
}

// The weekday's last bit is at 44 s of the frame, the date's parity at 58 s.
#[test]
fn the_least_broken_rule_is_named(rt: HostRuntime) {
    let weekday = r#"
        | 0 100000
        > dcf 2000000 1000000 0 58 18 20 29 30 33 35 36 45 51 52 55
        | 62000000 100000
        writes
        | 0 62000000 refused 15
        | status 0
        status 0
    "#;
    let both = r#"
        | 0 100000
        > dcf 2000000 1000000 0 58 18 20 29 30 33 35 36 45 51 52 55 58
        | 62000000 100000
        writes
        | 0 62000000 refused 19
        | status 0
        status 0
    "#;
    plays(&rt, rt.alloc(), &[DCF, weekday]);
    plays(&rt, rt.alloc(), &[DCF, both]);
}

// 29 March 2026, 01:59 in winter, 03:00 and 03:01 in summer.
#[test]
fn the_change_to_summer_time_is_a_minute(rt: HostRuntime) {
    let scene = r#"
        | 0 100000
        > dcf 2000000 1000000 0 58 18 20 21 24 25 27 29 35 36 39 41 42 43 44 45 46 51 52 55 58
        > dcf 62000000 1000000 0 58 17 20 29 30 36 39 41 42 43 44 45 46 51 52 55 58
        > dcf 122000000 1000000 0 58 17 20 21 28 29 30 36 39 41 42 43 44 45 46 51 52 55 58
        | 182000000 100000
        writes
        | 0 62000000 lone 3983734740
        | 0 122000000 verdict 3983734800 0
        | 0 182000000 verdict 3983734860 0
        | status 0
        status 0
    "#;
    plays(&rt, rt.alloc(), &[DCF, scene]);
}

// 1 January 2017, 00:59 and 01:00 with a leap second announced, which the second frame has, or not.
#[test]
fn a_minute_may_end_with_a_leap_second(rt: HostRuntime) {
    let before = r#"
        | 0 100000
        > dcf 2000000 1000000 0 58 18 19 20 21 24 25 27 36 42 43 44 45 50 51 52 54 58
    "#;
    let with = r#"
        > dcf 62000000 1000000 0 59 18 19 20 29 35 36 42 43 44 45 50 51 52 54 58
        | 123000000 100000
        writes
        | 0 62000000 lone 3692217540
        | 0 123000000 verdict 3692217600 3692217600
    "#;
    let without = r#"
        > dcf 62000000 1000000 0 58 18 19 20 29 35 36 42 43 44 45 50 51 52 54 58
        | 122000000 100000
        writes
        | 0 62000000 lone 3692217540
        | 0 122000000 refused 24
    "#;
    plays(&rt, rt.alloc(), &[DCF, before, with, DONE]);
    plays(&rt, rt.alloc(), &[DCF, before, without, DONE]);
}

// The frame of noon after its first mark.
const AFTER_START: &str = r#"
    > dcf 2000000 1000000 1 58 18 20 29 30 33 35 36 44 45 51 52 55
    | 62000000 100000
    writes
"#;

#[test]
fn the_width_of_the_start_bit_decides(rt: HostRuntime) {
    let zero = "| 0 100000\n| 2000000 149999";
    let lone = "| 0 62000000 lone 3976257600";
    plays(&rt, rt.alloc(), &[DCF, zero, AFTER_START, lone, DONE]);
    let one = "| 0 100000\n| 2000000 150000";
    plays(
        &rt,
        rt.alloc(),
        &[DCF, one, AFTER_START, "| 0 62000000 refused 10", DONE],
    );
    let short = "| 0 100000\n| 2000000 39999";
    plays(
        &rt,
        rt.alloc(),
        &[DCF, short, AFTER_START, "| 0 62000000 refused 2", DONE],
    );
}

// The mark at 92 s is missing.
#[test]
fn a_lost_mark_costs_its_minute(rt: HostRuntime) {
    let scene = r#"
        > dcf 62000000 1000000 0 29 18 20 21 28 29
        > dcf 62000000 1000000 31 58 33 35 36 44 45 51 52 55
        > dcf 122000000 1000000 0 58 18 20 22 28 29 30 33 35 36 44 45 51 52 55
        > dcf 182000000 1000000 0 58 18 20 21 22 29 30 33 35 36 44 45 51 52 55
        | 242000000 100000
        writes
        | 0 62000000 lone 3976257600
        | 0 93000000 refused 3
        | 0 122000000 refused 3
        | 0 182000000 lone 3976257720
        | 0 242000000 verdict 3976257780 0
    "#;
    plays(&rt, rt.alloc(), &[DCF, NOON, scene, DONE]);
}

#[test]
fn two_valid_frames_may_differ(rt: HostRuntime) {
    let scene = r#"
        > dcf 62000000 1000000 0 58 18 20 22 28 29 30 33 35 36 44 45 51 52 55
        | 122000000 100000
        writes
        | 0 62000000 lone 3976257600
        | 0 122000000 differs 3976257600 3976257720 60000000
    "#;
    plays(&rt, rt.alloc(), &[DCF, NOON, scene, DONE]);
}

// The second frame lasts 116 ms too long by the host's counter.
#[test]
fn closings_that_are_no_minute_apart_differ(rt: HostRuntime) {
    let scene = r#"
        > dcf 62000000 1002000 0 58 18 20 21 28 29 30 33 35 36 44 45 51 52 55
        | 122116000 100000
        writes
        | 0 62000000 lone 3976257600
        | 0 122116000 differs 3976257600 3976257660 60116000
    "#;
    plays(&rt, rt.alloc(), &[DCF, NOON, scene, DONE]);
}

// A frame of MSF is read where the mark that closes it has another after it.
const MSF_END: &str = "| 62000000 500000\n| 63000000 100000\nwrites";

// 1 January 2026, 12:00, with the two parts of second 1, in which bit B alone is 1, so far apart or farther; and 2 January 2000, 00:00.
#[test]
fn msf_minutes_are_read(rt: HostRuntime) {
    let noon = r#"
        > msf 2000000 200000 0 59 19 22 23 29 35 36 40 43 53 54 55 56 57 58 / 1 55 57
    "#;
    let apart = r#"
        > msf 2000000 251000 0 59 19 22 23 29 35 36 40 43 53 54 55 56 57 58 / 1 55 57
    "#;
    let new_year_2000 = r#"
        > msf 2000000 200000 0 59 29 34 53 54 55 56 57 58 / 54 55 56 57
    "#;
    let alloc = rt.alloc();
    plays(
        &rt,
        alloc,
        &[MSF, noon, MSF_END, "| 0 62000000 lone 3976257600", DONE],
    );
    plays(
        &rt,
        alloc,
        &[MSF, apart, MSF_END, "| 0 62000000 refused 1", DONE],
    );
    plays(&rt, alloc, &[MSF, noon, "| 62000000 500000\nwrites", DONE]);
    plays(
        &rt,
        alloc,
        &[
            MSF,
            new_year_2000,
            MSF_END,
            "| 0 62000000 lone 3155760000",
            DONE,
        ],
    );
}

// A minute of WWVB that starts at 2 s, with a marker before it and one after it.
fn decodes_wwvb(
    rt: &(impl Abort + Threads + Wait + Sync),
    alloc: Global,
    minute: &str,
    want: &str,
) {
    let start = "| 1000000 800000";
    let end = "| 62000000 800000\nwrites";
    plays(rt, alloc, &[WWVB, start, minute, end, want, DONE]);
}

// 31 December 2024, 00:00, with the bit of a leap year and without it; and 31 December 2016, 23:59, with a leap second announced.
#[test]
fn wwvb_minutes_are_read(rt: HostRuntime) {
    let leap_year = "> wwvb 2000000 22 23 26 27 31 32 36 38 47 51";
    decodes_wwvb(&rt, rt.alloc(), leap_year, "| 0 62000000 lone 3944592060");
    let common_year = "> wwvb 2000000 22 23 26 27 31 32 36 38 47 51 53";
    decodes_wwvb(&rt, rt.alloc(), common_year, "| 0 62000000 refused 56");
    let leap_minute = "> wwvb 2000000 1 3 5 8 12 17 18 22 23 26 27 31 32 36 38 48 51 52 56";
    decodes_wwvb(&rt, rt.alloc(), leap_minute, "| 0 62000000 refused 58");
}

#[test]
fn a_log_ends_at_its_first_bad_line(rt: HostRuntime) {
    for line in [
        "| x 100000",
        "| 01 100000",
        "| 1 0",
        "| 1 2000001",
        "| 1 100000\\\n> hex 0d0a",
        "|",
        "| 1125899906842624 1",
    ] {
        plays(
            &rt,
            rt.alloc(),
            &[DCF, line, "writes\n| status 5 line 0 1\nstatus 5"],
        );
    }
    for second in ["| 900000 100000", "| 1000000 100000", "| 2000000 10\\"] {
        let first = "| 1000000 100000";
        plays(
            &rt,
            rt.alloc(),
            &[DCF, first, second, "writes\n| status 5 line 0 2\nstatus 5"],
        );
    }
    let third = "| 1 1\n| 2 1\n| 11111111111111111111111111111111111111\\";
    plays(
        &rt,
        rt.alloc(),
        &[DCF, third, "writes\n| status 5 line 0 3\nstatus 5"],
    );
}

#[test]
fn what_is_valid_is_taken(rt: HostRuntime) {
    for text in ["", "| 0 1", "| 1125899906842623 2000000"] {
        plays(&rt, rt.alloc(), &[DCF, text, "writes", DONE]);
    }
}

#[test]
fn entries_before_a_bad_line_stand(rt: HostRuntime) {
    let scene = r#"
        | 122000000 100000
        | 122000000 100000
        writes
        | 0 62000000 lone 3976257600
        | 0 122000000 verdict 3976257660 0
        | status 5 line 0 121
        status 5
    "#;
    plays(&rt, rt.alloc(), &[DCF, NOON, NOON_1, scene]);
}

const END: &str = "| 122000000 100000";

const BOTH: &str = r#"
    writes
    | 0 62000000 lone 3976257600
    | 0 122000000 verdict 3976257660 0
"#;

const FAULT: &str = "| status 4 read feed 0\nstatus 4";

// The log has five readings: four pieces, the last of them short, and the end.
#[test]
fn a_read_that_fails_ends_the_log(rt: HostRuntime) {
    let alloc = rt.alloc();
    plays(
        &rt,
        alloc,
        &[DCF, NOON, NOON_1, END, "fails file log 1\nwrites", FAULT],
    );
    plays(
        &rt,
        alloc,
        &[DCF, NOON, NOON_1, END, "fails file log 2\nwrites", FAULT],
    );
    plays(
        &rt,
        alloc,
        &[DCF, NOON, NOON_1, END, "fails file log 3", LONE, FAULT],
    );
    plays(
        &rt,
        alloc,
        &[DCF, NOON, NOON_1, END, "fails file log 4", LONE, FAULT],
    );
    plays(
        &rt,
        alloc,
        &[DCF, NOON, NOON_1, END, "fails file log 5", BOTH, FAULT],
    );
    plays(
        &rt,
        alloc,
        &[DCF, NOON, NOON_1, END, "fails file log 6", BOTH, DONE],
    );
}

#[test]
fn a_log_that_cannot_be_opened(rt: HostRuntime) {
    let other = r#"
        run decode --plan dcf --log other
        file log
        writes
        | status 2 open feed 0
        status 2
    "#;
    let fault = r#"
        fails opening 1
        writes
        | status 2 open feed 0
        status 2
    "#;
    plays(&rt, rt.alloc(), &[other]);
    plays(&rt, rt.alloc(), &[DCF, fault]);
}

#[test]
fn other_words_are_usage(rt: HostRuntime) {
    for run in [
        "run",
        "run decode",
        "run decode --log log",
        "run decode --plan jjy --log log",
        "run decode --plan dcf --log ''",
        "run decode --plan dcf --log -",
        "run decode --plan dcf --log log log",
    ] {
        plays(
            &rt,
            rt.alloc(),
            &[run, "file log\nwrites\n| status 1 usage\nstatus 1"],
        );
    }
}

#[test]
fn statuses_have_their_numbers(rt: HostRuntime) {
    let table = [
        (Status::Done, 0),
        (Status::Usage, 1),
        (Status::OpenFault, 2),
        (Status::Station, 3),
        (Status::ReadFault, 4),
        (Status::BadLine, 5),
        (Status::JournalFull, 6),
        (Status::LinkFault, 7),
        (Status::WriteFault, 8),
        (Status::Memory, 9),
        (Status::TooLong, 10),
    ];
    for (status, number) in table {
        same(&rt, status.number(), number);
    }
}
