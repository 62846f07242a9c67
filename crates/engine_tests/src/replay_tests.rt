//! Tests of `replay` over the fakes: worked scripts, and each fault on their way. The frames are those of DCF77 by PTB's table and of MSF by NPL's,
//! computed from the calendar.
use crate::runs::same;
use crate::scene::plays;
use replay_command::SCRIPT_LIMIT;
use std::alloc::Global;
use std::process::Abort;
use std::sync::Wait;
use std::thread::Threads;

const REPLAY: &str = "run replay --station s --script p";

const DCF: &str = r#"
    run replay --station s --script p
    file s
    | [[radio]]
    | plan = "dcf"
    | log = "log"
"#;

// Five minutes with a request before the last has ended, and one after it.
const FIVE_MINUTES: &str = r#"
    file p
    > pulse 0 noon 0 242
    > request 0 243000000 243000500 23 0
    > pulse 0 noon 243 302
    > request 0 303000000 303000500 23 0
"#;

#[test]
fn five_minutes_make_a_page(rt: HostRuntime) {
    let scene = r#"
        writes
        | j2 1 0 0 62000000 lone 3976257600
        | j2 2 0 0 122000000 verdict 3976257660 0
        | j2 3 0 0 182000000 verdict 3976257720 0
        | j2 4 0 0 242000000 verdict 3976257780 0
        | reply e40006ec0000000000100000494e495400000000000000001122334455667788000000f300000000000000f30020c49b
        | j2 5 0 0 302000000 verdict 3976257840 0
        | reply 240106ec000000000000f06744434600ed00e130000000001122334455667788ed00e13100000000ed00e1310020c49b
        | page 5 1 1 44434600 17077896086183477248 302000000 4364906902 0 61542 ed00e13000000000 0 0
        | status 0
        status 0
    "#;
    plays(&rt, rt.alloc(), &[DCF, FIVE_MINUTES, scene]);
}

#[test]
fn a_page_ends(rt: HostRuntime) {
    let scene = r#"
        > request 0 4364906901 4364906901 23 0
        > request 0 4364906902 4364906902 23 0
        line 8 reply 240106ec
        line 9 reply e40006ec0000000000100000494e4954
        status 0
    "#;
    plays(&rt, rt.alloc(), &[DCF, FIVE_MINUTES, scene]);
}

// The sixth minute, of 13:05, comes 3 ms late: the answer ten seconds after it follows the rate of the counter.
#[test]
fn a_reply_follows_the_rate(rt: HostRuntime) {
    let scene = r#"
        > pulse 0 dcf 302000000 1000000 1 58 18 20 21 23 29 30 33 35 36 44 45 51 52 55
        | pulse 0 362003000 100000
        > request 0 372003000 372003000 23 0
        ends
        | j2 6 -53687 0 362003000 verdict 3976257900 0
        | reply 240106ec000000000000713f44434600ed00e16c000000001122334455667788ed00e175fff7cedaed00e175fff7ceda
        | page 6 1 1 44434600 17077896086170592347 362003000 37547671946 0 28981 ed00e16c00000000 0 -53687
        | status 0
        status 0
    "#;
    plays(&rt, rt.alloc(), &[DCF, FIVE_MINUTES, scene]);
}

// The dispersion is above the bound from the first page on.
#[test]
fn a_page_above_its_bound_reports_no_time(rt: HostRuntime) {
    let station = r#"
        file s
        | bound = 500
        | [[radio]]
        | plan = "dcf"
        | log = "log"
        ends
        |
        | page 5 0 0 494e4954 0 302000000 0 0 1048576 0000000000000000 0 0
        | status 0
        status 0
    "#;
    plays(&rt, rt.alloc(), &[REPLAY, station, FIVE_MINUTES]);
}

#[test]
fn requests_are_answered_or_dropped(rt: HostRuntime) {
    let scene = r#"
        file p
        | request 0 1 1 23
        > request 0 1000000 1000000 2b 0
        > request 0 1000000 1000000 21 0
        > request 0 1000000 1000000 23 20
        writes
        | drop short
        | drop version
        | drop mode
        | reply e40006ec0000000000100000494e49540000000000000000112233445566778800000001000000000000000100000000
        | page 0 0 0 494e4954 0 0 0 0 1048576 0000000000000000 0 0
        | status 0
        status 0
    "#;
    plays(&rt, rt.alloc(), &[DCF, scene]);
}

// Three minutes, of which two find room, and a request.
const FULL: &str = r#"
    run replay --station s --script p --limit 2
    file s
    | [[radio]]
    | plan = "dcf"
    | log = "log"

    begins
    | j2 1 0 0 62000000 lone 3976257600
    | j2 2 0 0 122000000 verdict 3976257660 0
    | reply e40006ec\
    file p
    > pulse 0 noon 0 182
    > request 0 183000000 183000000 23 0
"#;
// A bad line comes before it.
#[test]
fn a_full_journal_goes_on(rt: HostRuntime) {
    let full = r#"
        ends
        |
        | page 2 0 0 494e4954 0 122000000 0 0 1048576 0000000000000000 0 0
        | status 6 full 2
        status 6
    "#;
    plays(&rt, rt.alloc(), &[FULL, full]);
    let bad = r#"
        |
        ends
        |
        | page 2 0 0 494e4954 0 122000000 0 0 1048576 0000000000000000 0 0
        | status 5 script 181
        status 5
    "#;
    plays(&rt, rt.alloc(), &[FULL, bad]);
}

#[test]
fn servers_are_asked(rt: HostRuntime) {
    let scene = r#"
        run replay --station s --script p
        file s
        | [[server]]
        | address = "127.0.0.1"
        | port = 123
        file p
        | ask 0 1000000
        | answer 0 1010000 240206ec00000100000002000a00000100000000000000008000000100000000ed00e13100000000ed00e1310020c49b
        | answer 0 1010000 240206ec00000100000002000a00000100000000000000008000000100000000ed00e13100000000ed00e1310020c49b
        begins
        | asked 230006ec0000000000000000000000000000000000000000000000000000000000000000000000008000000100000000
        | j2 1 0 0 1010000 sample 17077897383243199545 40802189 8837 2 7f000001 256 512
        | j2 2 0 0 1010000 declined 3
        status 0
    "#;
    plays(&rt, rt.alloc(), &[scene]);
}

#[test]
fn a_swap_loses_its_half_frame(rt: HostRuntime) {
    let scene = r#"
        file p
        > pulse 0 noon 0 90
        | swap 0
        > pulse 0 noon 91 182
        begins
        | j2 1 0 0 62000000 lone 3976257600
        | j2 2 0 0 182000000 lone 3976257720
        | page 2 \
        status 0
    "#;
    plays(&rt, rt.alloc(), &[DCF, scene]);
}

// A script whose line of this number is bad gives no entry.
fn is_bad(rt: &(impl Abort + Threads + Wait + Sync), alloc: Global, script: &str, end: &str) {
    let page = "writes\n| page 0 0 0 494e4954 0 0 0 0 1048576 0000000000000000 0 0";
    plays(rt, alloc, &[DCF, "file p", script, page, end, "status 5"]);
}

#[test]
fn a_script_ends_at_its_first_bad_line(rt: HostRuntime) {
    for line in [
        "| pulse 1 0 100000",
        "|",
        "| pulse 0 1 2000001",
        "| pulse 0  1 100000",
        "| ask 0 1",
        "| request 8 1 1 23",
        "| request 0 2 1 23",
    ] {
        is_bad(&rt, rt.alloc(), line, "| status 5 script 1");
    }
    for second in ["| pulse 0 1 100000", "| pulse 0 2 100000\\"] {
        let first = "writes\n| page 0 0 0 494e4954 0 0 0 0 1048576 0000000000000000 0 0";
        let end = "| status 5 script 2\nstatus 5";
        plays(
            &rt,
            rt.alloc(),
            &[DCF, "file p\n| pulse 0 1 100000", second, first, end],
        );
    }
    is_bad(&rt, rt.alloc(), "> lines 4 swap 0", "| status 5 script 4");
}

#[test]
fn a_line_of_4096_bytes_is_bad(rt: HostRuntime) {
    is_bad(
        &rt,
        rt.alloc(),
        "| swap 0\n> repeat 4096 0",
        "| status 5 script 2",
    );
}

// A station of this text is refused with these words.
fn is_refused(
    rt: &(impl Abort + Threads + Wait + Sync),
    alloc: Global,
    station: &str,
    fault: &str,
) {
    let files = "file p\n| swap 0\nfile s";
    let status = "writes\n| status 3 station \\";
    plays(
        rt,
        alloc,
        &[REPLAY, files, station, status, fault, "status 3"],
    );
}

#[test]
fn a_station_with_a_fault(rt: HostRuntime) {
    let alloc = rt.alloc();
    let plan = "| [[radio]]\n| plan = \"jjy\"\n| log = \"log\"";
    is_refused(&rt, alloc, plan, "| range radio.0.plan");
    is_refused(&rt, alloc, "| leap = 1", "| unknown leap");
    is_refused(&rt, alloc, "| bound = ", "| toml");
    is_refused(&rt, alloc, "| holdover = 600", "| unknown holdover");
    let radio = "| [[radio]]\n| plan = \"dcf\"";
    is_refused(&rt, alloc, radio, "| missing radio.0.log");
    let links =
        "| link = [{port=1},{port=1},{port=1},{port=1},{port=1},{port=1},{port=1},{port=1},{port=1}]";
    is_refused(&rt, alloc, links, "| many link 9");
    is_refused(&rt, alloc, "| bound = \\\n> hex ff0a", "| toml");
}

#[test]
fn a_station_of_65536_bytes_is_whole(rt: HostRuntime) {
    let whole = r#"
        run replay --station s --script p
        file p
        file s
        > repeat 65536 #
        writes
        | page 0 0 0 494e4954 0 0 0 0 1048576 0000000000000000 0 0
        | status 0
        status 0
    "#;
    let long = r#"
        run replay --station s --script p
        file p
        file s
        > repeat 65537 #
        writes
        | status 10 long station
        status 10
    "#;
    plays(&rt, rt.alloc(), &[whole]);
    plays(&rt, rt.alloc(), &[long]);
}

// The frames of 1 January 2017 from 00:55 to 01:03, winter time. A leap second is announced up to 01:00, whose frame has it. After the mark that
// begins that frame, two requests.
const NEW_YEAR: &str = r#"
    file p
    | pulse 0 0 100000
    > pulse 0 dcf 2000000 1000000 0 58 18 20 36 42 43 44 45 50 51 52 54 58 19 21 23 25 27
    > pulse 0 dcf 62000000 1000000 0 58 18 20 36 42 43 44 45 50 51 52 54 58 19 22 23 25 27
    > pulse 0 dcf 122000000 1000000 0 58 18 20 36 42 43 44 45 50 51 52 54 58 19 21 22 23 25 27 28
    > pulse 0 dcf 182000000 1000000 0 58 18 20 36 42 43 44 45 50 51 52 54 58 19 24 25 27 28
    > pulse 0 dcf 242000000 1000000 0 58 18 20 36 42 43 44 45 50 51 52 54 58 19 21 24 25 27
    > pulse 0 dcf 302000000 1000000 0 0
    > request 0 361999999 361999999 23 0
    > request 0 362000000 362000000 23 0
    > pulse 0 dcf 302000000 1000000 1 59 18 20 36 42 43 44 45 50 51 52 54 58 19 29 35
    > pulse 0 dcf 363000000 1000000 0 58 18 20 36 42 43 44 45 50 51 52 54 58 21 28 29 35
    > pulse 0 dcf 423000000 1000000 0 58 18 20 36 42 43 44 45 50 51 52 54 58 22 28 29 35
    > pulse 0 dcf 483000000 1000000 0 58 18 20 36 42 43 44 45 50 51 52 54 58 21 22 29 35
    | pulse 0 543000000 100000
"#;

#[test]
fn a_leap_second_ends_a_page(rt: HostRuntime) {
    let scene = r#"
        begins
        | j2 1 0 0 62000000 lone 3692217300
        | j2 2 0 0 122000000 verdict 3692217360 3692217600
        | j2 3 0 0 182000000 verdict 3692217420 3692217600
        | j2 4 0 0 242000000 verdict 3692217480 3692217600
        | j2 5 0 0 302000000 verdict 3692217540 3692217600
        | reply 640106ec\
        line 7 reply e40006ec
        ends
        |
        | j2 6 0 0 363000000 verdict 3692217600 3692217600
        | j2 7 0 0 423000000 verdict 3692217660 0
        | j2 8 0 0 483000000 verdict 3692217720 0
        | j2 9 0 0 543000000 verdict 3692217780 0
        | page 9 1 1 44434600 15857952282642481152 543000000 4605906902 0 61542 dc12c5b400000000 0 0
        | status 0
        status 0
    "#;
    plays(&rt, rt.alloc(), &[DCF, NEW_YEAR, scene]);
}

const FILES: &str = "file p\nfile s\n| [[radio]]\n| plan = \"dcf\"\n| log = \"log\"\nwrites";

#[test]
fn words_of_other_commands_are_usage(rt: HostRuntime) {
    for run in [
        "run decode --log a",
        "run serve --station s --limit 07",
        "run",
        "run replay decode",
    ] {
        plays(&rt, rt.alloc(), &[run, FILES, "| status 1 usage\nstatus 1"]);
    }
    // Valid words, and a log under that name.
    let run = "run decode --plan=dcf --log=p";
    plays(&rt, rt.alloc(), &[run, FILES, "| status 0\nstatus 0"]);
}

// 46 bytes after the first.
#[test]
fn a_request_of_47_bytes_is_dropped(rt: HostRuntime) {
    let scene = r#"
        file p
        | request 7 1 1 23\
        > repeat 46 00
        |
        writes
        | drop short
        | page 0 0 0 494e4954 0 0 0 0 1048576 0000000000000000 0 0
        | status 0
        status 0
    "#;
    plays(&rt, rt.alloc(), &[DCF, scene]);
}

// The frames of MSF of 1 January 2026, 12:00 and 12:01. The pulse after the swap is received by the new receiver alone, and the one before it by
// the old one alone.
#[test]
fn a_swap_of_msf_loses_its_frame(rt: HostRuntime) {
    let scene = r#"
        run replay --station s --script p
        file s
        | [[radio]]
        | plan = "msf"
        | log = "log"
        file p
        > pulse 0 msf 2000000 0 0 1 19 22 23 29 35 36 40 43 53 54 55 56 57 58 / 55 57
        | swap 0
        > pulse 0 msf 2000000 0 2 59 19 22 23 29 35 36 40 43 53 54 55 56 57 58 / 55 57
        > pulse 0 msf 62000000 0 0 59 19 22 23 29 35 36 40 43 51 53 54 55 56 57 58 / 55
        | pulse 0 122000000 500000
        | pulse 0 123000000 100000
        writes
        | j2 1 0 0 122000000 lone 3976257660
        | page 1 0 0 494e4954 0 122000000 0 0 1048576 0000000000000000 0 0
        | status 0
        status 0
    "#;
    plays(&rt, rt.alloc(), &[scene]);
}

// The answers are those of `a_full_journal_goes_on`, 1.4 ms earlier. A radio that is swapped in has the delay too.
#[test]
fn a_delay_is_taken_off(rt: HostRuntime) {
    let station = r#"
        file s
        | [[radio]]
        | plan = "dcf"
        | log = "log"
        | delay = 1400
        writes
        | j2 1 0 0 61998600 lone 3976257600
        | j2 2 0 0 121998600 verdict 3976257660 0
        | page 2 0 0 494e4954 0 121998600 0 0 1048576 0000000000000000 0 0
        | status 0
        status 0
        file p
    "#;
    plays(&rt, rt.alloc(), &[REPLAY, station, "> pulse 0 noon 0 122"]);
    plays(
        &rt,
        rt.alloc(),
        &[REPLAY, station, "| swap 0\n> pulse 0 noon 0 122"],
    );
}

// What docs/FORMATS.md gives a script.
#[test]
fn a_script_may_have_two_to_the_twenty_six_bytes(rt: HostRuntime) {
    same(&rt, SCRIPT_LIMIT, 67_108_864);
}
