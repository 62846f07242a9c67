//! Tests of the gate of clients over the fakes: what `replay` and `serve` answer a client that asks too often, one of a denied net, and the
//! others. The kiss codes are those of RFC 5905, section 7.4; the minutes are those of the other tests.
use crate::scene::plays;

const REPLAY: &str = "run replay --station s --script p";

const GAP: &str = r#"
    file s
    | gap = 2000000
    | [[radio]]
    | plan = "dcf"
    | log = "log"
"#;

const DENY: &str = r#"
    file s
    | [[radio]]
    | plan = "dcf"
    | log = "log"
    | [[deny]]
    | net = "127.0.0.2/32"
"#;

// The script of five minutes of a radio, whose entries are five lines.
const FIVE_MINUTES: &str = r#"
    file p
    > pulse 0 noon 0 302
"#;

// The gap is counted from the request that was let pass.
#[test]
fn a_client_that_asks_within_the_gap(rt: HostRuntime) {
    let scene = r#"
        > request 0 303000000 303000500 23 0
        > request 0 304000000 304000500 23 0
        > request 0 305000000 305000500 23 0
        line 6 reply 240106ec000000000000f06744434600ed00e13000000000
        line 7 reply e40006ec00000000001000005241544500000000000000001122334455667788ed00e13200000000ed00e1320020c49b
        line 8 reply 240106ec
        line 9 page 5 1 1
        status 0
    "#;
    plays(&rt, rt.alloc(), &[REPLAY, GAP, FIVE_MINUTES, scene]);
}

// The one place of the table is the second client's by then.
#[test]
fn a_client_that_is_forgotten(rt: HostRuntime) {
    let scene = r#"
        run replay --station s --script p
        file s
        | gap = 2000000
        | clients = 1
        | [[radio]]
        | plan = "dcf"
        | log = "log"
        file p
        > pulse 0 noon 0 302
        > request 0 303000000 303000000 23 0
        > request 1 304000000 304000000 23 0
        > request 0 304500000 304500000 23 0
        line 6 reply 240106ec
        line 7 reply 240106ec
        line 8 reply 240106ec
        line 9 page 5 1 1
        status 0
    "#;
    plays(&rt, rt.alloc(), &[scene]);
}

#[test]
fn a_client_of_a_denied_net(rt: HostRuntime) {
    let scene = r#"
        > request 1 303000000 303000500 23 0
        > request 0 303000000 303000500 23 0
        > request 1 303000000 303000500 23 0
        line 6 reply e40006ec000000000010000044454e590000000000000000
        line 7 reply 240106ec000000000000f06744434600ed00e13000000000
        line 8 reply e40006ec000000000010000044454e590000000000000000
        line 9 page 5 1 1
        status 0
    "#;
    plays(&rt, rt.alloc(), &[REPLAY, DENY, FIVE_MINUTES, scene]);
}

// Without a gap each client may ask as often as it likes.
#[test]
fn a_client_without_a_gap(rt: HostRuntime) {
    let scene = r#"
        run replay --station s --script p
        file s
        | [[radio]]
        | plan = "dcf"
        | log = "log"

        file p
        > pulse 0 noon 0 302
        > request 0 303000000 303000500 23 0
        > request 0 303000000 303000500 23 0
        > request 0 303000000 303000500 23 0
        line 6 reply 240106ec000000000000f06744434600ed00e13000000000
        line 7 reply 240106ec000000000000f06744434600ed00e13000000000
        line 8 reply 240106ec000000000000f06744434600ed00e13000000000
        line 9 page 5 1 1
        status 0
    "#;
    plays(&rt, rt.alloc(), &[scene]);
}

// What a denied client sends is dropped where another's would be, and takes nothing from its gap.
#[test]
fn no_request_is_judged_that_is_dropped(rt: HostRuntime) {
    let scene = r#"
        run replay --station s --script p
        file s
        | gap = 2000000
        | [[radio]]
        | plan = "dcf"
        | log = "log"
        | [[deny]]
        | net = "127.0.0.2/32"
        file p
        | request 0 1000000 1000000 23
        | request 1 1000000 1000000 23
        > request 0 1000001 1000001 23 0
        > request 0 1000002 1000002 23 0
        begins
        | drop short
        | drop short
        | reply e40006ec0000000000100000494e4954\
        line 4 reply e40006ec000000000010000052415445
        status 0
    "#;
    plays(&rt, rt.alloc(), &[scene]);
}

#[test]
fn a_net_of_33_bits(rt: HostRuntime) {
    let scene = r#"
        run replay --station s --script p
        file s
        | [[radio]]
        | plan = "dcf"
        | log = "log"
        | [[deny]]
        | net = "127.0.0.2/33"
        file p
        writes
        | status 3 station range deny.0.net
        status 3
    "#;
    plays(&rt, rt.alloc(), &[scene]);
}

// The second phase goes on with the table of the first: the client that was let pass there gets RATE. Each link has a table of its own.
#[test]
fn two_links_judge_over_both_phases(rt: HostRuntime) {
    let scene = r#"
        run serve --station s --during 1 --after 3
        file s
        | gap = 2000000
        | [[radio]]
        | plan = "dcf"
        | log = "a"
        | [[link]]
        | port = 5123
        | [[link]]
        | port = 5124
        | [[deny]]
        | net = "127.0.0.2/32"
        file a
        > noon 0 302
        link
        hears 1 client 303000000 request
        hears 1 second 303000000 request
        hears 1 client 303000000 request
        hears 1 third 303000000 request
        link
        hears 1 client 303000000 request
        hears 1 second 303000000 request
        has
        |
        | link 0 answered 2 dropped 0 again 0 kissed 2 unkept 0 end count
        | link 1 answered 1 dropped 0 again 0 kissed 1 unkept 0 end linkend
        | page 5 \
        status 0
        sends 0 client 2
        sent 0 client 2 e40006ec0000000000100000 52415445 ..
        sends 0 second 1
        sent 0 second 1 e40006ec0000000000100000 44454e59 ..
        sends 0 third 1
        sent 0 third 1 240106ec000000000000f067 44434600 ..
        sends 1 client 1
        sends 1 second 1
        sent 1 second 1 e40006ec0000000000100000 44454e59 ..
        not 1 client 1 e40006ec0000000000100000 52415445 ..
    "#;
    plays(&rt, rt.alloc(), &[scene]);
}

// In the second phase alone: the first reply has the time of the page, and the next is the kiss code at the same moments.
#[test]
fn a_link_reports_the_time_once_a_gap(rt: HostRuntime) {
    let scene = r#"
        run serve --station s --during 0 --after 4
        file s
        | gap = 2000000
        | [[radio]]
        | plan = "dcf"
        | log = "a"
        | [[link]]
        | port = 5123
        file a
        > noon 0 302
        link
        hears 2 client 303000000 request
        status 0
        sends 0 client 2
        sent 0 client 1 reply
        sent 0 client 2 e40006ec0000000000100000 52415445 ..
    "#;
    plays(&rt, rt.alloc(), &[scene]);
}
