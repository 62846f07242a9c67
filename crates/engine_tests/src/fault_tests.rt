//! What is written and how it ends where calls of the outside fail, each at each of its numbers, or where memory is refused.
use crate::scene::{plays, plays_each_writing, plays_or_wants_memory};
use std::alloc::Global;
use std::process::Abort;
use std::sync::Wait;
use std::thread::Threads;

// A station with a radio and a server. A comment makes it longer than 512 bytes, the most of one reading, so it has three readings: two pieces and
// the end. The script has two minute marks with no second between them, an exchange, and requests; at last the answer of the exchange once more. It
// has three readings too, of which the first ends in the last line.
const GIVEN: &str = r#"
    run replay --station s --script p
    file s
    | [[radio]]
    | plan = "dcf"
    | log = "log"
    | [[server]]
    | address = "127.0.0.1"
    | port = 123
    > repeat 512 #
    file p
    | pulse 0 0 100000
    | pulse 0 2000000 100000
    | pulse 0 4000000 100000
    | ask 1 1000000
    | answer 1 1010000 240206ec00000100000002000a00000100000000000000008000000100000000ed00e13100000000ed00e1310020c49b
    | request 0 1 1 23
    > request 0 1000000 1000000 23 0
    > request 0 1000000 1000000 2b 0
    | answer 1 5000000 240206ec00000100000002000a00000100000000000000008000000100000000ed00e13100000000ed00e1310020c49b
"#;

// What the first six lines that it gives are, and the others.
const SIX: &str = r#"
    writes
    | j2 1 0 0 4000000 refused 3
    | asked 230006ec0000000000000000000000000000000000000000000000000000000000000000000000008000000100000000
    | j2 2 0 1 1010000 sample 17077897383243199545 40802189 8837 2 7f000001 256 512
    | drop short
    | reply e40006ec0000000000100000494e49540000000000000000112233445566778800000001000000000000000100000000
    | drop version
"#;

const LAST: &str = r#"
    | j2 3 0 1 5000000 declined 3
    | page 3 0 0 494e4954 0 5000000 0 0 1048576 0000000000000000 0 0
"#;

const EMPTY_PAGE: &str = "| page 0 0 0 494e4954 0 0 0 0 1048576 0000000000000000 0 0";

const DONE: &str = "| status 0\nstatus 0";

#[test]
fn each_opening_may_fail(rt: HostRuntime) {
    let station = "fails opening 1\nwrites\n| status 2 open station\nstatus 2";
    plays(&rt, rt.alloc(), &[GIVEN, station]);
    let script = "fails opening 2\nwrites\n| status 2 open script\nstatus 2";
    plays(&rt, rt.alloc(), &[GIVEN, script]);
}

#[test]
fn each_reading_of_a_station_may_fail(rt: HostRuntime) {
    for fails in ["fails file s 1", "fails file s 2", "fails file s 3"] {
        plays(
            &rt,
            rt.alloc(),
            &[GIVEN, fails, "writes\n| status 4 read station\nstatus 4"],
        );
    }
}

// The lines before it stand, and the page of their entries. A line that the reading cut off isn't judged.
#[test]
fn each_reading_of_a_script_may_fail(rt: HostRuntime) {
    let end = "| status 4 read script\nstatus 4";
    let two = "| page 2 0 0 494e4954 0 4000000 0 0 1048576 0000000000000000 0 0";
    plays(
        &rt,
        rt.alloc(),
        &[GIVEN, "fails file p 1\nwrites", EMPTY_PAGE, end],
    );
    plays(&rt, rt.alloc(), &[GIVEN, "fails file p 2", SIX, two, end]);
    plays(&rt, rt.alloc(), &[GIVEN, "fails file p 3", SIX, LAST, end]);
}

#[test]
fn calls_past_the_last_fail_nothing(rt: HostRuntime) {
    let past = "fails opening 3\nfails file s 4\nfails file p 4\nfails writing 10";
    plays(&rt, rt.alloc(), &[GIVEN, past, SIX, LAST, DONE]);
}

#[test]
fn each_writing_of_a_replay_may_fail(rt: HostRuntime) {
    plays_each_writing(&rt, rt.alloc(), &[GIVEN, SIX, LAST, DONE]);
}

#[test]
fn each_writing_of_a_station_fault_may_fail(rt: HostRuntime) {
    let scene = r#"
        run replay --station s --script p
        file s
        | leap = 1
        file p
        writes
        | status 3 station unknown \
        | leap\
        |
        status 3
    "#;
    plays_each_writing(&rt, rt.alloc(), &[scene]);
}

// Minute marks with no second between them.
const MARKS: &str = r#"
    run decode --plan dcf --log p
    file p
    | 0 100000
    | 2000000 100000
    | 4000000 100000
    | 6000000 100000
    writes
    | 0 4000000 refused 3
    | 0 6000000 refused 3
    | status 0
    status 0
"#;

#[test]
fn each_writing_of_a_log_may_fail(rt: HostRuntime) {
    plays_each_writing(&rt, rt.alloc(), &[MARKS]);
}

// A script, with these calls failing, of which a writing is one, writes this and no more.
fn ends_by_a_writing(
    rt: &(impl Abort + Threads + Wait + Sync),
    alloc: Global,
    fails: &str,
    written: &str,
) {
    plays(rt, alloc, &[GIVEN, fails, "writes", written, "status 8"]);
}

// Of several causes a failed writing comes first.
#[test]
fn a_failed_writing_comes_before_other_faults(rt: HostRuntime) {
    let alloc = rt.alloc();
    ends_by_a_writing(&rt, alloc, "fails opening 1\nfails writing 1", "");
    ends_by_a_writing(&rt, alloc, "fails opening 2\nfails writing 1", "");
    ends_by_a_writing(&rt, alloc, "fails file s 1\nfails writing 1", "");
    ends_by_a_writing(&rt, alloc, "fails file p 1\nfails writing 2", EMPTY_PAGE);
}

// Under checks/refuse-allocations.sh each allocation is refused in turn.
#[test]
fn want_of_memory_in_a_replay(rt: HostRuntime) {
    plays_or_wants_memory(&rt, rt.alloc(), &[GIVEN, SIX, LAST, DONE]);
}

#[test]
fn want_of_memory_in_a_log(rt: HostRuntime) {
    plays_or_wants_memory(&rt, rt.alloc(), &[MARKS]);
}

// A replay of a station of this text.
const REPLAY: &str = "
    run replay --station s --script p
    file p
    file s
";

#[test]
fn want_of_memory_in_a_refusal(rt: HostRuntime) {
    let alloc = rt.alloc();
    plays_or_wants_memory(
        &rt,
        alloc,
        &["run decode\nwrites\n| status 1 usage\nstatus 1"],
    );
    let toml = "| bound = \nwrites\n| status 3 station toml\nstatus 3";
    plays_or_wants_memory(&rt, alloc, &[REPLAY, toml]);
    let fault = "| leap = 1\nwrites\n| status 3 station unknown leap\nstatus 3";
    plays_or_wants_memory(&rt, alloc, &[REPLAY, fault]);
}
