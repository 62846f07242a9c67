//! Worked examples on inputs of their own: two minutes of DCF77 into an output that fails, a journal that two radios fill, keys in a script, words
//! with their values after `=`, and which of two links at fault is reported.
use crate::scene::{plays, plays_each_writing, written_of};
use std::alloc::{AllocError, Global};
use std::process::Abort;
use std::sync::Wait;
use std::thread::Threads;

// The log of two minutes, and what is written of them.
const TWO_MINUTES: &str = r#"
    file p
    > noon 0 122
    writes
    | 0 62000000 lone 3976257600
    | 0 122000000 verdict 3976257660 0
    | status 0
    status 0
"#;

#[test]
fn each_writing_of_two_minutes_may_fail(rt: HostRuntime) {
    plays_each_writing(
        &rt,
        rt.alloc(),
        &["run decode --plan dcf --log p", TWO_MINUTES],
    );
}

#[test]
fn values_may_follow_an_equals_sign(rt: HostRuntime) {
    plays(
        &rt,
        rt.alloc(),
        &[
            "run decode --plan=dcf --log=a",
            "file a\nwrites\n| status 0\nstatus 0",
        ],
    );
}

// The lines of the entries of a feed, without their numbers, one after the other.
fn entries_of(alloc: Global, written: &[u8], feed: &str) -> Result<String, AllocError> {
    let mut all = String::new(alloc);
    for line in std::str::from_utf8(written)
        .unwrap_or("")
        .split_inclusive('\n')
    {
        let mut words = line.splitn(4, ' ');
        if words.next() != Some("j2") {
            continue;
        }
        let rest = words.nth(2).unwrap_or("");
        if let Some(entry) = rest.strip_prefix(feed) {
            all.push_str(entry)?;
        }
    }
    Ok(all)
}

// What a radio receives of the five minutes from 13:00 on 1 January 2026, 12:00 UTC.
const FIVE: &str =
    " 62000000 lone 3976257600\n 122000000 verdict 3976257660 0\n 182000000 verdict 3976257720 0\n \
242000000 verdict 3976257780 0\n 302000000 verdict 3976257840 0\n";

// Sixteen requests come beside the feeds and one after them.
#[test]
fn two_radios_fill_a_journal_of_three(rt: HostRuntime) {
    let scene = r#"
        run serve --station s --limit 3 --after 1
        file s
        | [[radio]]
        | plan = "dcf"
        | log = "a"
        | [[radio]]
        | plan = "dcf"
        | log = "b"
        | [[link]]
        | port = 5123

        file a
        > noon 0 302
        file b
        > noon 0 302
        link
        hears 17 client 303000000 request
        ends
        |
        | status 6 full 3
        status 6
        entries 3
        sends 0 client 17
        sent 0 client 17 e40006ec ..
    "#;
    let written = written_of(&rt, rt.alloc(), &[scene]);
    for feed in ["0", "1"] {
        let entries = entries_of(rt.alloc(), written.as_slice(), feed);
        assert!(rt; entries.is_ok_and(|entries| FIVE.starts_with(entries.as_str())));
    }
}

// A station with a key, and the script of five minutes and the beginning of a request.
const KEYED: &str = r#"
    run replay --station s --script p
    file s
    | [[radio]]
    | plan = "dcf"
    | log = "log"
    | [[key]]
    | id = 1
    | secret = "longwave"
    file p
    > pulse 0 noon 0 302
    | request 0 303000000 303000500 230006ec0000000000000000000000000000000000000000000000000000000000000000000000001122334455667788\
"#;

// What the line of its reply begins with.
const REPLIED: &str = r#"
    status 0
    has
    | j2 5 0 0 302000000 verdict 3976257840 0
    | reply 240106ec000000000000f06744434600ed00e130000000001122334455667788ed00e13100000000ed00e1310020c49b\
"#;

// What follows a request in a script, and what then follows the reply to it.
fn is_replied(rt: &(impl Abort + Threads + Wait + Sync), alloc: Global, after: &str, want: &str) {
    plays(rt, alloc, &[KEYED, after, REPLIED, want]);
}

// MD5 of `longwave` and the request, and of `longwave` and the reply, by Python's `hashlib`; then the request's with another last byte, and
// under another identifier.
#[test]
fn a_reply_of_a_script_is_sealed_as_its_request_is(rt: HostRuntime) {
    let alloc = rt.alloc();
    let key = "| 00000001b408cf70f4de3798e713f31a2a885f12";
    is_replied(
        &rt,
        alloc,
        key,
        "| 00000001c6347df5e2b59807072bd69b399065c3",
    );
    is_replied(
        &rt,
        alloc,
        "| 00000001b408cf70f4de3798e713f31a2a885f13",
        "|",
    );
    is_replied(
        &rt,
        alloc,
        "| 00000002b408cf70f4de3798e713f31a2a885f12",
        "|",
    );
}

#[test]
fn a_key_that_stands_twice(rt: HostRuntime) {
    let scene = r#"
        run replay --station s --script p
        file s
        | [[radio]]
        | plan = "dcf"
        | log = "log"
        | [[key]]
        | id = 1
        | secret = "longwave"
        | [[key]]
        | id = 1
        | secret = "longwave"
        file p
        writes
        | status 3 station range key.1.id
        status 3
    "#;
    plays(&rt, rt.alloc(), &[scene]);
}

#[test]
fn a_holdover_without_a_value(rt: HostRuntime) {
    let scene = "
        run replay --station s --script p
        file s
        | holdover = \n        file p
        writes
        | status 3 station toml
        status 3
    ";
    plays(&rt, rt.alloc(), &[scene]);
}

// The server can't be asked, and nothing can be received on the link: of two with one number the server is reported, since it is a feed.
#[test]
fn a_server_at_fault_is_reported_before_a_link(rt: HostRuntime) {
    let scene = r#"
        run serve --station s --during 2
        file s
        | [[link]]
        | port = 5123
        | [[server]]
        | address = "127.0.0.1"
        | port = 123
        | polls = 1
        link
        at 1000000
        hears 2 server 1010000 answer
        fails link 1
        link
        hears 5 client 303000000 request
        fails link 1
        writes
        | link 0 answered 0 dropped 0 again 0 kissed 0 unkept 0 end linkfault
        | page 0 0 0 494e4954 0 0 0 0 1048576 0000000000000000 0 0
        | status 7 feed 0
        status 7
    "#;
    plays(&rt, rt.alloc(), &[scene]);
}

// Three polls are to be made, and the link ends in the second: that is no fault.
#[test]
fn a_server_whose_link_ends_is_no_fault(rt: HostRuntime) {
    let scene = r#"
        run serve --station s
        file s
        | [[server]]
        | address = "127.0.0.1"
        | port = 123
        | polls = 3

        link
        at 1000000
        hears 1 server 1010000 answer
        writes
        | j2 1 0 0 1010000 sample 17077897383243199545 40802189 8837 2 7f000001 256 512
        | page 1 0 0 494e4954 0 1010000 0 0 1048576 0000000000000000 0 0
        | status 0
        status 0
    "#;
    plays(&rt, rt.alloc(), &[scene]);
}
