// What clients get that ask too often or are denied, after the five minutes of DCF77 from noon on.
use crate::script_tests::{gives, joined, noon};
use crate::shared::same;
use journal_entry::LINE_ROOM;
use memory_outside::REQUEST_DIGITS;
use packet_auth::KeyRing;
use replay_command::{Outcome, write_outcome};
use sealed_reply::sealed_like;
use std::alloc::Global;
use std::process::Abort;

const RADIO: &str = "[[radio]]\nplan = \"dcf\"\nlog = \"log\"\n";

const ENTRIES: &str =
    "j2 1 0 0 62000000 lone 3976257600\nj2 2 0 0 122000000 verdict 3976257660 0\nj2 3 0 0 182000000 verdict 3976257720 0\nj2 4 0 0 242000000 verdict 3976257780 0\n\
j2 5 0 0 302000000 verdict 3976257840 0\n";

// At a station of one radio whose file begins with this text, these requests give this text.
fn are_answered(rt: &impl Abort, alloc: Global, more: &str, requests: &[&str], text: &str) {
    let station = joined(alloc, &[more, RADIO]);
    let script = noon(alloc, requests);
    let want = joined(alloc, &[ENTRIES, text]);
    gives(rt, alloc, station.as_str(), script.as_str(), want.as_str());
}

// The gap is 2 s. The stamps and the drift of 15 in a million, by Python: 1.0005 s and 3.0005 s after the page's anchor.
#[test]
fn a_client_that_asks_too_often(rt: HostRuntime) {
    are_answered(
        &rt,
        rt.alloc(),
        "gap = 2000000\n",
        &[
            "request 0 303000000 303000500 ",
            REQUEST_DIGITS,
            "\n",
            "request 0 304000000 304000500 ",
            REQUEST_DIGITS,
            "\n",
            "request 0 305000000 305000500 ",
            REQUEST_DIGITS,
            "\n",
        ],
        "reply 240106ec000000000000f06744434600ed00e130000000001122334455667788ed00e13100000000ed00e1310020c49b\n\
reply e40006ec0000000000100000524154450000000000000000\
1122334455667788ed00e13200000000ed00e1320020c49b\n\
reply 240106ec000000000000f06944434600ed00e130000000001122334455667788ed00e13300000000ed00e1330020c49b\n",
    );
}

// The second client takes the place of the first, which is then 1.5 s after its own request.
#[test]
fn a_table_of_one_client(rt: HostRuntime) {
    are_answered(
        &rt,
        rt.alloc(),
        "gap = 2000000\nclients = 1\n",
        &[
            "request 0 303000000 303000000 ",
            REQUEST_DIGITS,
            "\n",
            "request 1 304000000 304000000 ",
            REQUEST_DIGITS,
            "\n",
            "request 0 304500000 304500000 ",
            REQUEST_DIGITS,
            "\n",
        ],
        "reply 240106ec000000000000f06744434600ed00e130000000001122334455667788ed00e13100000000ed00e13100000000\n\
reply 240106ec000000000000f06844434600ed00e130000000001122334455667788ed00e13200000000ed00e13200000000\n\
reply 240106ec000000000000f06944434600ed00e130000000001122334455667788ed00e13280000000ed00e13280000000\n",
    );
}

// Connection 1 is 127.0.0.2.
#[test]
fn a_denied_client(rt: HostRuntime) {
    are_answered(
        &rt,
        rt.alloc(),
        "[[deny]]\nnet = \"127.0.0.2/32\"\n",
        &[
            "request 1 303000000 303000500 ",
            REQUEST_DIGITS,
            "\n",
            "request 0 303000000 303000500 ",
            REQUEST_DIGITS,
            "\n",
            "request 1 303000000 303000500 ",
            "00",
            "\n",
        ],
        "reply e40006ec000000000010000044454e590000000000000000\
1122334455667788ed00e13100000000ed00e1310020c49b\n\
reply 240106ec000000000000f06744434600ed00e130000000001122334455667788ed00e13100000000ed00e1310020c49b\n\
drop short\n",
    );
}

// A table of one would forget the first client if the second one's datagrams were judged. The gap counts from arrival to arrival.
#[test]
fn what_is_dropped_is_not_judged(rt: HostRuntime) {
    are_answered(
        &rt,
        rt.alloc(),
        "gap = 2000000\nclients = 1\n",
        &[
            "request 0 303000000 303000500 ",
            REQUEST_DIGITS,
            "\n",
            "request 1 303000000 303000500 ",
            "00",
            "\n",
            "request 0 303000000 303000500 ",
            REQUEST_DIGITS,
            "\n",
        ],
        "reply 240106ec000000000000f06744434600ed00e130000000001122334455667788ed00e13100000000ed00e1310020c49b\n\
drop short\n\
reply e40006ec0000000000100000524154450000000000000000\
1122334455667788ed00e13100000000ed00e1310020c49b\n",
    );
}

// MD5 of `longwave` and the request, and of it and the kiss, by Python's `hashlib`.
#[test]
fn a_kiss_is_sealed_as_its_request_is(rt: HostRuntime) {
    are_answered(
        &rt,
        rt.alloc(),
        "gap = 2000000\n[[key]]\nid = 1\nsecret = \"longwave\"\n",
        &[
            "request 0 303000000 303000500 ",
            REQUEST_DIGITS,
            "\n",
            "request 0 303000000 303000500 ",
            "230006ec0000000000000000000000000000000000000000000000000000000000000000000000001122334455667788\
00000001b408cf70f4de3798e713f31a2a885f12",
            "\n",
        ],
        "reply 240106ec000000000000f06744434600ed00e130000000001122334455667788ed00e13100000000ed00e1310020c49b\n\
reply e40006ec0000000000100000524154450000000000000000\
1122334455667788ed00e13100000000ed00e1310020c49b0000000161133a05ee0053d406b96650ab6d975f\n",
    );
}

// The line that a reply of 48 bytes 0 gives, to a client that was kept or not, ends so.
fn ends_so(rt: &impl Abort, kept: bool, want: &[u8]) {
    let reply = sealed_like(&KeyRing::new(), b"", [0; 48]);
    let mut text = [b'#'; LINE_ROOM];
    let length = write_outcome(&Outcome::Replied { reply, kept }, &mut text);
    let end = text[..length]
        .strip_prefix(b"reply ")
        .expect(rt, "no reply");
    same(rt, end.get(96..).expect(rt, "too short"), want);
}

// The reply of 48 bytes 0, to a client that was kept and to one that was not.
#[test]
fn the_line_after_a_reply(rt: HostRuntime) {
    ends_so(&rt, true, b"\n");
    ends_so(&rt, false, b"\nunkept\n");
}
