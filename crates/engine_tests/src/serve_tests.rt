//! Tests of `serve` over the fakes: logs of DCF77 by PTB's table of 1 January 2026, 13:00 (12:00 UTC) and the minutes after it, a server's
//! answer that was worked by hand from RFC 5905, section 8, and clients whose answers are those of section 7.3 there.
use crate::scene::{plays, plays_each_writing};

const SERVE: &str = "run serve --station s";

const DURING_2: &str = "run serve --station s --during 2";

// Stations: a radio, two, a server that is asked once or three times, a link, two.

const RADIO: &str = r#"
    file s
    | [[radio]]
    | plan = "dcf"
    | log = "a"
"#;

const TWO_RADIOS: &str = r#"
    file s
    | [[radio]]
    | plan = "dcf"
    | log = "a"
    | [[radio]]
    | plan = "dcf"
    | log = "b"
"#;

const SERVER: &str = r#"
    file s
    | [[server]]
    | address = "127.0.0.1"
    | port = 123
    | polls = 1
"#;

const SERVER_3: &str = r#"
    file s
    | [[server]]
    | address = "127.0.0.1"
    | port = 123
    | polls = 3
"#;

// A link more of the station before it.
const AND_LINK: &str = r#"
    | [[link]]
    | port = 5123
"#;

const TWO_LINKS: &str = r#"
    file s
    | [[link]]
    | port = 5123
    | [[link]]
    | port = 5124
"#;

// The log of two minutes.
const TWO_MINUTES: &str = r#"
    file a
    > noon 0 122
"#;

const EMPTY_PAGE: &str = "| page 0 0 0 494e4954 0 0 0 0 1048576 0000000000000000 0 0";

const DONE: &str = r#"
    | status 0
    status 0
"#;

// A link whose first moment is 1 s, over which the answer comes twice.
const ANSWERED: &str = r#"
    link
    at 1000000
    hears 2 server 1010000 answer
"#;

#[test]
fn a_station_with_nothing_in_it_is_served(rt: HostRuntime) {
    let scene = [SERVE, "file s", "writes", EMPTY_PAGE, DONE];
    plays(&rt, rt.alloc(), &scene);
}

#[test]
fn a_link_that_ends_is_reported(rt: HostRuntime) {
    let scene = r#"
        run serve --station s --during 2
        file s
        | [[link]]
        | port = 5123

        link
        hears 1 client 303000000 request
        writes
        | link 0 answered 1 dropped 0 again 0 kissed 0 unkept 0 end linkend
        | page 0 0 0 494e4954 0 0 0 0 1048576 0000000000000000 0 0
        | status 0
        status 0
        sends 0 client 1
        sent 0 client 1 e40006ec ..
    "#;
    plays(&rt, rt.alloc(), &[scene]);
}

#[test]
fn a_server_is_polled(rt: HostRuntime) {
    let scene = r#"
        link
        at 1000000
        hears 1 stranger 1010000 answer
        hears 1 server 1010000 answer
        writes
        | j2 1 0 0 1010000 declined 1
        | j2 2 0 0 1010000 sample 17077897383243199545 40802189 8837 2 7f000001 256 512
        | page 2 0 0 494e4954 0 1010000 0 0 1048576 0000000000000000 0 0
        | status 0
        status 0
    "#;
    plays(&rt, rt.alloc(), &[SERVE, SERVER, scene]);
}

// The link's third call, its second sending, fails.
#[test]
fn a_poller_ends_by_a_fault(rt: HostRuntime) {
    let scene = r#"
        fails link 3
        writes
        | j2 1 0 0 1010000 sample 17077897383243199545 40802189 8837 2 7f000001 256 512
        | page 1 0 0 494e4954 0 1010000 0 0 1048576 0000000000000000 0 0
        | status 7 feed 0
        status 7
    "#;
    plays(&rt, rt.alloc(), &[SERVE, SERVER_3, ANSWERED, scene]);
}

// Each of the first three sendings is the second call of its turn.
#[test]
fn the_third_sending_fails(rt: HostRuntime) {
    let scene = r#"
        run serve --station s --during 0 --after 4
        link
        hears 5 client 303000000 request
        fails link 6
        writes
        | j2 1 0 0 62000000 lone 3976257600
        | j2 2 0 0 122000000 verdict 3976257660 0
        | link 0 answered 2 dropped 0 again 0 kissed 0 unkept 0 end linkfault
        | page 2 0 0 494e4954 0 122000000 0 0 1048576 0000000000000000 0 0
        | status 7 link 0
        status 7
        sends 0 client 2
    "#;
    plays(&rt, rt.alloc(), &[RADIO, AND_LINK, TWO_MINUTES, scene]);
}

#[test]
fn a_hearing_fails(rt: HostRuntime) {
    let scene = r#"
        run serve --station s --during 2
        file s
        | [[link]]
        | port = 5123

        link
        hears 5 client 303000000 request
        fails link 3
        writes
        | link 0 answered 1 dropped 0 again 0 kissed 0 unkept 0 end linkfault
        | page 0 0 0 494e4954 0 0 0 0 1048576 0000000000000000 0 0
        | status 7 link 0
        status 7
    "#;
    plays(&rt, rt.alloc(), &[scene]);
}

// The lines of 1,024 bytes are read, among them that of 62 s.
#[test]
fn a_read_fails_in_the_middle(rt: HostRuntime) {
    let scene = r#"
        fails file a 3
        writes
        | j2 1 0 0 62000000 lone 3976257600
        | page 1 0 0 494e4954 0 62000000 0 0 1048576 0000000000000000 0 0
        | status 4 read feed 0
        status 4
    "#;
    plays(&rt, rt.alloc(), &[SERVE, RADIO, TWO_MINUTES, scene]);
}

// A closing mark is dated as much earlier as the signal was on its way.
#[test]
fn a_radio_is_heard_with_its_delay(rt: HostRuntime) {
    let scene = r#"
        run serve --station s
        file s
        | [[radio]]
        | plan = "msf"
        | log = "a"
        | [[radio]]
        | plan = "dcf"
        | log = "b"
        | delay = 1400
        file a
        file b
        > noon 0 122
        writes
        | j2 1 0 1 61998600 lone 3976257600
        | j2 2 0 1 121998600 verdict 3976257660 0
        | page 2 0 0 494e4954 0 121998600 0 0 1048576 0000000000000000 0 0
        | status 0
        status 0
    "#;
    plays(&rt, rt.alloc(), &[scene]);
}

#[test]
fn a_bad_line_ends_its_feed_alone(rt: HostRuntime) {
    let scene = r#"
        file a
        | 1000000 100000
        | 900000 100000
        file b
        > noon 0 122
        writes
        | j2 1 0 1 62000000 lone 3976257600
        | j2 2 0 1 122000000 verdict 3976257660 0
        | page 2 0 0 494e4954 0 122000000 0 0 1048576 0000000000000000 0 0
        | status 5 line 0 2
        status 5
    "#;
    plays(&rt, rt.alloc(), &[SERVE, TWO_RADIOS, scene]);
}

#[test]
fn a_full_journal_is_reported(rt: HostRuntime) {
    let scene = r#"
        run serve --station s --during 0 --limit 1
        writes
        | j2 1 0 0 62000000 lone 3976257600
        | page 1 0 0 494e4954 0 62000000 0 0 1048576 0000000000000000 0 0
        | status 6 full 1
        status 6
    "#;
    plays(&rt, rt.alloc(), &[RADIO, TWO_MINUTES, scene]);
}

// A bad line has a lesser number than a full journal, and a read that failed than a bad line, on whatever feed.
#[test]
fn the_least_number_is_reported(rt: HostRuntime) {
    let full = r#"
        run serve --station s --during 0 --limit 1
        file a
        > noon 0 122
        | bad
        writes
        | j2 1 0 0 62000000 lone 3976257600
        | page 1 0 0 494e4954 0 62000000 0 0 1048576 0000000000000000 0 0
        | status 5 line 0 121
        status 5
    "#;
    let bad = r#"
        file a
        | bad
        file b
        fails file b 1
        writes
        | page 0 0 0 494e4954 0 0 0 0 1048576 0000000000000000 0 0
        | status 4 read feed 1
        status 4
    "#;
    plays(&rt, rt.alloc(), &[RADIO, full]);
    plays(&rt, rt.alloc(), &[SERVE, TWO_RADIOS, bad]);
}

// Of two with one number the first is reported; the rest of the station goes on.
#[test]
fn the_first_of_two_is_reported(rt: HostRuntime) {
    let both = r#"
        link
        hears 5 client 303000000 request
        fails link 3
        link
        hears 5 client 303000000 request
        fails link 1
        writes
        | link 0 answered 1 dropped 0 again 0 kissed 0 unkept 0 end linkfault
        | link 1 answered 0 dropped 0 again 0 kissed 0 unkept 0 end linkfault
        | page 0 0 0 494e4954 0 0 0 0 1048576 0000000000000000 0 0
        | status 7 link 0
        status 7
    "#;
    let second = r#"
        link
        hears 2 client 303000000 request
        link
        hears 5 client 303000000 request
        fails link 3
        writes
        | link 0 answered 2 dropped 0 again 0 kissed 0 unkept 0 end count
        | link 1 answered 1 dropped 0 again 0 kissed 0 unkept 0 end linkfault
        | page 0 0 0 494e4954 0 0 0 0 1048576 0000000000000000 0 0
        | status 7 link 1
        status 7
    "#;
    plays(&rt, rt.alloc(), &[DURING_2, TWO_LINKS, both]);
    plays(&rt, rt.alloc(), &[DURING_2, TWO_LINKS, second]);
}

// A station of a link, a server and a radio, whose first line of the log is bad.
const ALL: &str = r#"
    run serve --station s
    file s
    | [[link]]
    | port = 5123
    | [[server]]
    | address = "127.0.0.1"
    | port = 123
    | [[radio]]
    | plan = "dcf"
    | log = "a"
    file a
    | bad
    link
    at 1000000
    hears 2 server 1010000 answer
    link
    hears 1 client 303000000 request
    status 2
    events 0
    events 1
"#;

// The feeds of a station are numbered in order, the radios first. What was opened was not used.
#[test]
fn each_opening_may_fail(rt: HostRuntime) {
    plays(
        &rt,
        rt.alloc(),
        &[ALL, "fails opening 1", "writes", "| status 2 open station"],
    );
    plays(
        &rt,
        rt.alloc(),
        &[ALL, "fails opening 2", "writes", "| status 2 open feed 0"],
    );
    plays(
        &rt,
        rt.alloc(),
        &[ALL, "fails opening 3", "writes", "| status 2 open feed 1"],
    );
    plays(
        &rt,
        rt.alloc(),
        &[ALL, "fails opening 4", "writes", "| status 2 open link 0"],
    );
}

#[test]
fn one_log_of_two_radios_is_opened_once(rt: HostRuntime) {
    let scene = r#"
        run serve --station s
        file s
        | [[radio]]
        | plan = "dcf"
        | log = "a"
        | [[radio]]
        | plan = "dcf"
        | log = "a"
        file a
        writes
        | status 2 open feed 1
        status 2
    "#;
    plays(&rt, rt.alloc(), &[scene]);
}

#[test]
fn a_faulty_station_is_not_served(rt: HostRuntime) {
    let scene = r#"
        run serve --station s
        file s
        | holdover = 600
        writes
        | status 3 station unknown holdover
        status 3
    "#;
    plays(&rt, rt.alloc(), &[scene]);
}

// The lines of the journal, of the link, of the page, and the status line, each of which may not be taken.
#[test]
fn each_writing_may_fail(rt: HostRuntime) {
    let scene = r#"
        run serve --station s --during 0 --after 4
        link
        hears 5 client 303000000 request
        writes
        | j2 1 0 0 62000000 lone 3976257600
        | j2 2 0 0 122000000 verdict 3976257660 0
        | link 0 answered 4 dropped 0 again 0 kissed 0 unkept 0 end count
        | page 2 0 0 494e4954 0 122000000 0 0 1048576 0000000000000000 0 0
        | status 0
        status 0
    "#;
    plays_each_writing(&rt, rt.alloc(), &[RADIO, AND_LINK, TWO_MINUTES, scene]);
}

// Three radios that receive alike and two links. The worker that a gate held has passed its place, and waited no longer than it was to; the reply
// of the second phase is from the page of all entries on both links: it came and was answered at 303 s, which is 12:04:01 UTC.
const THREE_RADIOS: &str = r#"
    run serve --station s --during 4 --after 1
    file s
    | [[radio]]
    | plan = "dcf"
    | log = "a"
    | [[radio]]
    | plan = "dcf"
    | log = "b"
    | [[radio]]
    | plan = "dcf"
    | log = "c"
    | [[link]]
    | port = 5123
    | [[link]]
    | port = 5124
    file a
    > noon 0 302
    file b
    > noon 0 302
    file c
    > noon 0 302
    link
    hears 5 client 303000000 request
    link
    hears 5 client 303000000 request
    passed
    ends
    | page 15 1 1 44434600 17077896086183477248 302000000 4364906902 0 61542 ed00e13000000000 0 0
    | status 0
    status 0
    sent 0 client 5 reply
    sent 1 client 5 reply
"#;

// The first feed waits at its first entry until a responder has answered.
#[test]
fn a_feed_waits_for_a_responder(rt: HostRuntime) {
    plays(&rt, rt.alloc(), &[THREE_RADIOS, "gate 0 1 100 3 1"]);
}

// A responder waits with its first datagram until the first feed has put five entries into the journal; so the page that it reads then has them.
#[test]
fn a_responder_waits_for_a_feed(rt: HostRuntime) {
    plays(
        &rt,
        rt.alloc(),
        &[
            THREE_RADIOS,
            "gate 100 2 0 4 5",
            "sent 0 client 1 240106ec ..",
        ],
    );
}

// Ten entries are due, and the journal has room for three.
#[test]
fn two_radios_fill_a_journal(rt: HostRuntime) {
    let scene = r#"
        run serve --station s --limit 3 --during 0 --after 1
        file a
        > noon 0 302
        file b
        > noon 0 302
        link
        hears 5 client 303000000 request
        entries 3
        ends
        | status 6 full 3
        status 6
        sends 0 client 1
        sent 0 client 1 e40006ec ..
    "#;
    plays(&rt, rt.alloc(), &[TWO_RADIOS, AND_LINK, scene]);
}

// A radio that receives five minutes, a link and a key.
const KEYED: &str = r#"
    run serve --station s --during 0 --after 4
    file s
    | [[radio]]
    | plan = "dcf"
    | log = "a"
    | [[link]]
    | port = 5123
    | [[key]]
    | id = 1
    | secret = "longwave"
    file a
    > noon 0 302
    status 0
"#;

// MD5 of `longwave` and the 48 bytes before, by Python's hashlib, after key 1. The first request is authentic by the station's key. The second has a
// wrong last byte, and the third has no digest.
#[test]
fn a_reply_is_authentic_where_its_request_is(rt: HostRuntime) {
    let scene = r#"
        link
        hears 1 client 303000000 request 00000001 b408cf70f4de3798e713f31a2a885f12
        hears 1 client 303000000 request 00000001 b408cf70f4de3798e713f31a2a885f13
        hears 1 client 303000000 request
        sent 0 client 1 reply 00000001 55d9deba0177eb53478482df29236277
        sent 0 client 2 reply
        sent 0 client 3 reply
    "#;
    plays(&rt, rt.alloc(), &[KEYED, scene]);
}
