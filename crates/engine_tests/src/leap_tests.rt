//! Stations with a leap second file, over the fakes. Its rows are those that `leap-seconds.list` has for the ends of June 2015 and of 2016.
use crate::scene::plays;

// A station whose radio never received anything, with a leap second file, and this file up to its text.
const LISTED: &str = r#"
    run serve --station s
    file s
    | leap_file = "l"
    | [[radio]]
    | plan = "dcf"
    | log = "a"

    file a
    file l
"#;

const LIST: &str = "
    | # list
    | 3644697600\t36\t# 1 Jul 2015
    | 3692217600\t37\t# 1 Jan 2017
";

// What a list with one row after the first gives, up to how it ends.
const NOTICE: &str = r#"
    writes
    | j2 1 0 1 0 notice 3692217600
    | page 1 0 0 494e4954 0 0 0 0 1048576 0000000000000000 0 0
"#;

// What a list without a row after the first gives, up to how it ends.
const NOTHING: &str = r#"
    writes
    | page 0 0 0 494e4954 0 0 0 0 1048576 0000000000000000 0 0
"#;

const DONE: &str = "
    | status 0
    status 0
";

#[test]
fn each_row_but_the_first_is_reported(rt: HostRuntime) {
    plays(&rt, rt.alloc(), &[LISTED, LIST, NOTICE, DONE]);
}

#[test]
fn a_row_that_skips_a_second_is_a_bad_line(rt: HostRuntime) {
    let list = "
        | # list
        | 3644697600\t36\t# 1 Jul 2015
        | 3692217600\t38\t# 1 Jan 2017
    ";
    plays(
        &rt,
        rt.alloc(),
        &[LISTED, list, NOTHING, "| status 5 line 1 3", "status 5"],
    );
}

#[test]
fn an_empty_list_reports_nothing(rt: HostRuntime) {
    plays(&rt, rt.alloc(), &[LISTED, NOTHING, DONE]);
}

// The last row counts without its line feed, since the end of the file was read.
#[test]
fn a_last_row_without_its_line_feed_counts(rt: HostRuntime) {
    let list = r#"
        | 3644697600 36
        | 3692217600 37\
    "#;
    plays(&rt, rt.alloc(), &[LISTED, list, NOTICE, DONE]);
}

#[test]
fn a_last_line_that_is_bad_is_reported(rt: HostRuntime) {
    let list = r#"
        | 3644697600 36
        | 3692217600 37
        | 3692217600\
    "#;
    plays(
        &rt,
        rt.alloc(),
        &[LISTED, list, NOTICE, "| status 5 line 1 3", "status 5"],
    );
}

// The first reading fails, so that nothing of the file was read.
#[test]
fn a_read_fails(rt: HostRuntime) {
    let fault = r#"
        | status 4 read feed 1
        status 4
        fails file l 1
    "#;
    plays(&rt, rt.alloc(), &[LISTED, LIST, NOTHING, fault]);
}

// A file that is read in one piece, whose second reading fails: the row that its line feed ends counts, the unfinished one doesn't.
#[test]
fn a_read_fails_after_an_unfinished_row(rt: HostRuntime) {
    let list = r#"
        | 3644697600 36
        | 3692217600 37
        | 3786825600 38\
    "#;
    let fault = r#"
        | status 4 read feed 1
        status 4
        fails file l 2
    "#;
    plays(&rt, rt.alloc(), &[LISTED, list, NOTICE, fault]);
}

// 1008 lines of 65 bytes are 65520 bytes.
const REMARKS: &str = r#"
    > lines 1008 #234567890123456789012345678901234567890123456789012345678901234
"#;

// A row of 14 bytes with its line feed, and one byte more or two.
#[test]
fn a_list_may_have_65536_bytes(rt: HostRuntime) {
    let whole = r#"
        | 3644697600 36
        | #
    "#;
    let long = r#"
        writes
        | page 0 0 0 494e4954 0 0 0 0 1048576 0000000000000000 0 0
        | status 10 long feed 1
        status 10
    "#;
    plays(
        &rt,
        rt.alloc(),
        &[LISTED, REMARKS, whole, NOTHING, DONE, "bytes 65536 file l"],
    );
    plays(&rt, rt.alloc(), &[LISTED, REMARKS, whole, "|", long]);
}

#[test]
fn a_full_journal_loses_a_notice(rt: HostRuntime) {
    let scene = r#"
        run serve --station s --limit 1
        file s
        | leap_file = "l"
        | [[radio]]
        | plan = "dcf"
        | log = "a"

        file a
        file l
        | 3550089600 35
        | 3644697600 36
        | 3692217600 37
        writes
        | j2 1 0 1 0 notice 3644697600
        | page 1 0 0 494e4954 0 0 0 0 1048576 0000000000000000 0 0
        | status 6 full 1
        status 6
    "#;
    plays(&rt, rt.alloc(), &[scene]);
}

#[test]
fn one_that_is_not_there_is_reported_by_its_feed(rt: HostRuntime) {
    let scene = r#"
        run serve --station s
        file s
        | leap_file = "l"
        | [[radio]]
        | plan = "dcf"
        | log = "a"

        file a
        writes
        | status 2 open feed 1
        status 2
    "#;
    plays(&rt, rt.alloc(), &[scene]);
}

// A station with a server too, whose link answers at 1 s.
const WITH_SERVER: &str = "
    run serve --station s
    file s
    | leap_file = \"l\"
    | [[radio]]
    | plan = \"dcf\"
    | log = \"a\"
    | [[server]]
    | address = \"127.0.0.1\"
    | port = 123
    | polls = 1
    file a
    file l
    | # list
    | 3644697600\t36\t# 1 Jul 2015
    | 3692217600\t37\t# 1 Jan 2017
    link
    at 1000000
    hears 1 server 1010000 answer
    writes
";

// The station is opened first, then the log of feed 0, then the file of feed 2, then the link of feed 1.
#[test]
fn it_is_opened_after_the_logs(rt: HostRuntime) {
    let (first, second, third) = (
        "| status 2 open feed 0\nstatus 2\nfails opening 2",
        "| status 2 open feed 2\nstatus 2\nfails opening 3",
        "| status 2 open feed 1\nstatus 2\nfails opening 4",
    );
    plays(&rt, rt.alloc(), &[WITH_SERVER, first]);
    plays(&rt, rt.alloc(), &[WITH_SERVER, second]);
    plays(&rt, rt.alloc(), &[WITH_SERVER, third]);
}

// Its worker waits until the server's has kept its sample: its feed is the last one, after the server's.
#[test]
fn its_feed_stands_after_the_servers(rt: HostRuntime) {
    let scene = r#"
        | j2 1 0 1 1010000 sample 17077897383243199545 40802189 8837 2 7f000001 256 512
        | j2 2 0 2 0 notice 3692217600
        | page 2 0 0 494e4954 0 1010000 0 0 1048576 0000000000000000 0 0
        | status 0
        status 0
        gate 2 1 1 4 1
    "#;
    plays(&rt, rt.alloc(), &[WITH_SERVER, scene]);
}

// Its worker waits until the radio has received five minutes of 1 January 2026. A leap second at the end of that month is then still to come.
#[test]
fn the_page_of_a_station_is_armed(rt: HostRuntime) {
    let scene = r#"
        run serve --station s
        file s
        | leap_file = "l"
        | [[radio]]
        | plan = "dcf"
        | log = "a"

        file a
        > noon 0 302
        file l
        | 3692217600 37
        | 3978892800 38
        gate 1 1 0 4 5
        ends
        | j2 6 0 1 0 notice 3978892800
        | page 6 1 1 44434600 17077896086183477248 302000000 4364906902 0 61542 ed00e13000000000 3978892800 0
        | status 0
        status 0
    "#;
    plays(&rt, rt.alloc(), &[scene]);
}

// A leap second that is announced at noon for midnight, and the reply to a request a second later: its leap indicator is 1.
#[test]
fn a_leap_second_is_replayed(rt: HostRuntime) {
    let scene = r#"
        run replay --station s --script c
        file s
        | leap_file = "l"
        | [[radio]]
        | plan = "dcf"
        | log = "a"

        file c
        > pulse 0 noon 0 302
        | leap 1 302000000 3976300800
        > request 0 303000000 303000500 23 0
        ends
        | j2 6 0 1 302000000 notice 3976300800
        | reply 640106ec000000000000f06744434600ed00e130000000001122334455667788ed00e13100000000ed00e1310020c49b
        | page 6 1 1 44434600 17077896086183477248 302000000 4364906902 0 61542 ed00e13000000000 3976300800 0
        | status 0
        status 0
    "#;
    plays(&rt, rt.alloc(), &[scene]);
}
