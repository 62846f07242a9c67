//! Broken input, failing devices and a full journal, each case by itself over the fakes: what comes before stands, what goes wrong is named, and the
//! rest goes on. The minutes are those of DCF77 by PTB's table, 1 January 2026, 13:00 (12:00 UTC) and later; the answer of the server was worked
//! by hand from RFC 5905, section 8.
use crate::runs::same;
use crate::scene::{plays, plays_or_wants_memory, written_of};

// A station with a radio, and its log.
const RADIO: &str = r#"
    run serve --station s
    file s
    | [[radio]]
    | plan = "dcf"
    | log = "a"

    file a
"#;

const FIRST_IS_BAD: &str = r#"
    writes
    | page 0 0 0 494e4954 0 0 0 0 1048576 0000000000000000 0 0
    | status 5 line 0 1
    status 5
"#;

#[test]
fn a_carriage_return_before_the_line_feed_is_bad(rt: HostRuntime) {
    let log = r#"
        | 1000000 100000\
        > hex 0d0a
        | 2000000 100000\
        > hex 0d0a
    "#;
    plays(&rt, rt.alloc(), &[RADIO, log, FIRST_IS_BAD]);
}

#[test]
fn each_invalid_line_alone_is_bad(rt: HostRuntime) {
    for line in ["| 01 100000", "| 1 0", "| 1 2000001", "|"] {
        plays(&rt, rt.alloc(), &[RADIO, line, FIRST_IS_BAD]);
    }
}

#[test]
fn the_greatest_start_is_taken(rt: HostRuntime) {
    let scene = r#"
        | 1125899906842623 100000
        writes
        | page 0 0 0 494e4954 0 0 0 0 1048576 0000000000000000 0 0
        | status 0
        status 0
    "#;
    plays(&rt, rt.alloc(), &[RADIO, scene]);
}

#[test]
fn a_start_after_the_greatest_is_bad(rt: HostRuntime) {
    plays(
        &rt,
        rt.alloc(),
        &[RADIO, "| 1125899906842624 100000", FIRST_IS_BAD],
    );
}

// Nothing after the 32nd byte is looked at, and no second reading is made, which would fail.
#[test]
fn digits_without_a_line_feed_are_bad_at_the_32nd(rt: HostRuntime) {
    for digits in ["> repeat 32 1", "> repeat 632 1"] {
        plays(
            &rt,
            rt.alloc(),
            &[RADIO, digits, "fails file a 2", FIRST_IS_BAD],
        );
    }
}

// What the first readings of a log of two minutes give, where a later one fails.
const TWO_MINUTES: &str = r#"
    run serve --station s
    file s
    | [[radio]]
    | plan = "dcf"
    | log = "a"

    file a
    > noon 0 122
    writes
"#;

const NONE: &str = r#"
    | page 0 0 0 494e4954 0 0 0 0 1048576 0000000000000000 0 0
    | status 4 read feed 0
    status 4
"#;

const FIRST: &str = r#"
    | j2 1 0 0 62000000 lone 3976257600
    | page 1 0 0 494e4954 0 62000000 0 0 1048576 0000000000000000 0 0
    | status 4 read feed 0
    status 4
"#;

const BOTH: &str = r#"
    | j2 1 0 0 62000000 lone 3976257600
    | j2 2 0 0 122000000 verdict 3976257660 0
    | page 2 0 0 494e4954 0 122000000 0 0 1048576 0000000000000000 0 0
    | status 4 read feed 0
    status 4
"#;

const WHOLE: &str = r#"
    | j2 1 0 0 62000000 lone 3976257600
    | j2 2 0 0 122000000 verdict 3976257660 0
    | page 2 0 0 494e4954 0 122000000 0 0 1048576 0000000000000000 0 0
    | status 0
    status 0
"#;

// The log of two minutes has 1,927 bytes, which are four readings and one that finds its end.
#[test]
fn each_reading_of_a_log_may_fail(rt: HostRuntime) {
    plays(&rt, rt.alloc(), &[TWO_MINUTES, NONE, "fails file a 1"]);
    plays(&rt, rt.alloc(), &[TWO_MINUTES, NONE, "fails file a 2"]);
    plays(&rt, rt.alloc(), &[TWO_MINUTES, FIRST, "fails file a 3"]);
    plays(&rt, rt.alloc(), &[TWO_MINUTES, FIRST, "fails file a 4"]);
    plays(&rt, rt.alloc(), &[TWO_MINUTES, BOTH, "fails file a 5"]);
    plays(&rt, rt.alloc(), &[TWO_MINUTES, WHOLE, "fails file a 6"]);
}

// It has two readings, of which the second finds its end. No log is opened then.
#[test]
fn each_reading_of_a_station_that_is_served_may_fail(rt: HostRuntime) {
    let scene = r#"
        fails file a 1
        writes
        | status 4 read station
        status 4
    "#;
    plays(&rt, rt.alloc(), &[RADIO, scene, "fails file s 1"]);
    plays(&rt, rt.alloc(), &[RADIO, scene, "fails file s 2"]);
}

// A station with a link.
const LINK: &str = r#"
    run serve --station s
    file s
    | [[link]]
    | port = 5123

    link
"#;

const DROPPED: &str = r#"
    writes
    | link 0 answered 0 dropped 1 again 0 kissed 0 unkept 0 end linkend
    | page 0 0 0 494e4954 0 0 0 0 1048576 0000000000000000 0 0
    | status 0
    status 0
    sends 0 client 0
"#;

const ANSWERED: &str = r#"
    writes
    | link 0 answered 1 dropped 0 again 0 kissed 0 unkept 0 end linkend
    | page 0 0 0 494e4954 0 0 0 0 1048576 0000000000000000 0 0
    | status 0
    status 0
    sends 0 client 1
    sent 0 client 1 e40006ec ..
"#;

#[test]
fn datagrams_are_short_under_48_bytes(rt: HostRuntime) {
    plays(&rt, rt.alloc(), &[LINK, "hears 1 client 1000000", DROPPED]);
    plays(
        &rt,
        rt.alloc(),
        &[LINK, "hears 1 client 1000000 230006ec+43", DROPPED],
    );
    plays(
        &rt,
        rt.alloc(),
        &[LINK, "hears 1 client 1000000 230006ec+44", ANSWERED],
    );
    plays(
        &rt,
        rt.alloc(),
        &[LINK, "hears 1 client 1000000 230006ec+1020", ANSWERED],
    );
}

// A link receives, answers, and receives: its third call.
#[test]
fn a_second_hearing_that_fails_leaves_one_turn(rt: HostRuntime) {
    let scene = r#"
        hears 3 client 1000000 230006ec+44
        fails link 3
        writes
        | link 0 answered 1 dropped 0 again 0 kissed 0 unkept 0 end linkfault
        | page 0 0 0 494e4954 0 0 0 0 1048576 0000000000000000 0 0
        | status 7 link 0
        status 7
        events 0 heard moment sent
        sent 0 client 1 e40006ec ..
    "#;
    plays(&rt, rt.alloc(), &[LINK, scene]);
}

// A poller sends, receives, and sends: its third call. Of the second round there is the moment of its request alone.
#[test]
fn a_second_sending_that_fails_cuts_its_round(rt: HostRuntime) {
    let scene = r#"
        run serve --station s
        file s
        | [[server]]
        | address = "127.0.0.1"
        | port = 123
        | polls = 3

        link
        at 1000000
        hears 3 server 1010000 answer
        fails link 3
        writes
        | j2 1 0 0 1010000 sample 17077897383243199545 40802189 8837 2 7f000001 256 512
        | page 1 0 0 494e4954 0 1010000 0 0 1048576 0000000000000000 0 0
        | status 7 feed 0
        status 7
        events 0 moment sent heard moment
        sent 0 server 1 230006ec ..
    "#;
    plays(&rt, rt.alloc(), &[scene]);
}

// The radio is feed 0, and the server, to which nothing can be sent, feed 1.
#[test]
fn a_poller_that_fails_leaves_the_radio_whole(rt: HostRuntime) {
    let scene = r#"
        run serve --station s
        file s
        | [[radio]]
        | plan = "dcf"
        | log = "a"
        | [[server]]
        | address = "127.0.0.1"
        | port = 123
        | polls = 3
        | [[link]]
        | port = 5123
        file a
        > noon 0 122
        link
        at 1000000
        hears 3 server 1010000 answer
        fails link 1
        link
        hears 1 client 1000000 230006ec+44
        writes
        | j2 1 0 0 62000000 lone 3976257600
        | j2 2 0 0 122000000 verdict 3976257660 0
        | link 0 answered 1 dropped 0 again 0 kissed 0 unkept 0 end linkend
        | page 2 0 0 494e4954 0 122000000 0 0 1048576 0000000000000000 0 0
        | status 7 feed 1
        status 7
    "#;
    plays(&rt, rt.alloc(), &[scene]);
}

const KEPT: [&[u8]; 3] = [
    b"62000000 lone 3976257600",
    b"122000000 verdict 3976257660 0",
    b"182000000 verdict 3976257720 0",
];

// How many lines are entries of a feed, or None where these aren't the first ones that are due for its minutes.
fn prefix_of(written: &[u8], feed: u8) -> Option<usize> {
    let mut count = 0usize;
    for line in written.split(|byte| *byte == b'\n') {
        if line.starts_with(b"j2 ") {
            let mut fields = line.splitn(5, |byte| *byte == b' ').skip(3);
            if fields.next()? == [feed].as_slice() {
                if fields.next()? != *KEPT.get(count)? {
                    return None;
                }
                count = count.saturating_add(1);
            }
        }
    }
    Some(count)
}

// Sixteen hearings come beside the feeds. Three entries are too few for a page that couldn't be read.
#[test]
fn of_each_feed_a_full_journal_has_a_prefix(rt: HostRuntime) {
    let scene = r#"
        run serve --station s --limit 3 --after 1
        file s
        | [[radio]]
        | plan = "dcf"
        | log = "a"
        | [[radio]]
        | plan = "dcf"
        | log = "b"
        | [[link]]
        | port = 5123

        file a
        > noon 0 302
        file b
        > noon 0 302
        link
        hears 17 client 1000000 230006ec+44
        line 4 link 0 answered 17 dropped 0 again 0 kissed 0 unkept 0 end count
        line 5 page 3 0 0 494e4954 0
        ends
        | status 6 full 3
        status 6
        sends 0 client 17
        sent 0 client 17 e40006ec ..
    "#;
    let written = written_of(&rt, rt.alloc(), &[scene]);
    let first = prefix_of(written.as_slice(), b'0');
    let second = prefix_of(written.as_slice(), b'1');
    same(
        &rt,
        first.and_then(|first| second.map(|second| first.saturating_add(second))),
        Some(3),
    );
}

// A radio that receives a minute, and a link with one request.
const A_MINUTE: &str = r#"
    run serve --station s
    file s
    | [[radio]]
    | plan = "dcf"
    | log = "a"
    | [[link]]
    | port = 5123

    file a
    > noon 0 62
    link
    hears 1 client 1000000 230006ec+44
    writes
    | j2 1 0 0 62000000 lone 3976257600
    | link 0 answered 1 dropped 0 again 0 kissed 0 unkept 0 end linkend
    | page 1 0 0 494e4954 0 62000000 0 0 1048576 0000000000000000 0 0
    | status 0
    status 0
"#;
// Under checks/refuse-allocations.sh each allocation is refused in turn.
#[test]
fn want_of_memory_in_a_serving(rt: HostRuntime) {
    plays_or_wants_memory(&rt, rt.alloc(), &[A_MINUTE]);
}

// A journal of two entries that is moved.
const TWO_ENTRIES: &str = r#"
    run migrate --station s --journal a
    file s
    | [[radio]]
    | plan = "dcf"
    | log = "a"

    file a
    | 0 62000000 lone 3976257600
    | 0 122000000 verdict 3976257660 0
    writes
    | j2 1 0 0 62000000 lone 3976257600
    | j2 2 0 0 122000000 verdict 3976257660 0
    | page 2 0 0 494e4954 0 122000000 0 0 1048576 0000000000000000 0 0
    | status 0
    status 0
"#;

#[test]
fn want_of_memory_in_a_journal(rt: HostRuntime) {
    plays_or_wants_memory(&rt, rt.alloc(), &[TWO_ENTRIES]);
}
