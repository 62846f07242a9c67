// Leap seconds that the leap second file announces.
use crate::script_tests::{gives, is_of_noon, keeps, noon, outcome_of};
use crate::shared::same;
use std::alloc::Global;
use std::process::Abort;

// Feed 0 is a radio, feed 1 the leap second file.
const RADIO: &str = "leap_file = \"l\"\n[[radio]]\nplan = \"dcf\"\nlog = \"log\"\n";

// Feed 0 is a radio, feed 1 a server.
const NO_FILE: &str =
    "[[radio]]\nplan = \"dcf\"\nlog = \"log\"\n[[server]]\naddress = \"127.0.0.1\"\nport = 123\n";

// The same, and feed 2 is the leap second file.
const ALL: &str =
    "leap_file = \"l\"\n[[radio]]\nplan = \"dcf\"\nlog = \"log\"\n[[server]]\naddress = \"127.0.0.1\"\nport = 123\n";

// The reply differs from the one without a leap second by its leap indicator: 3976300800 is 2026-01-02 00:00 UTC, 12 hours later.
const ENTRIES: &str =
    "j2 1 0 0 62000000 lone 3976257600\nj2 2 0 0 122000000 verdict 3976257660 0\nj2 3 0 0 182000000 verdict 3976257720 0\nj2 4 0 0 242000000 verdict 3976257780 0\n\
j2 5 0 0 302000000 verdict 3976257840 0\nj2 6 0 1 302000000 notice 3976300800\n\
reply 640106ec000000000000f06744434600ed00e130000000001122334455667788ed00e13100000000ed00e1310020c49b\n";

const LEAP_AND_REQUEST: &str = "leap 1 302000000 3976300800\nrequest 0 303000000 303000500 \
230006ec0000000000000000000000000000000000000000000000000000000000000000000000001122334455667788\n";

#[test]
fn a_leap_second_is_announced(rt: HostRuntime) {
    let script = noon(rt.alloc(), &[LEAP_AND_REQUEST]);
    let played = outcome_of(&rt, rt.alloc(), RADIO, 1000, script.as_str());
    same(&rt, played.text.as_str(), ENTRIES);
    is_of_noon(&rt, &played.page, 6, 3_976_300_800);
}

#[test]
fn leap_seconds_are_of_their_own_feed(rt: HostRuntime) {
    let script =
        "leap 0 1 0\nleap 1 1 0\nleap 3 1 0\nleap 4294967295 1 0\nleap 2 1 3692217600\npulse 2 1 1\nask 2 1\nanswer 2 1 00\nswap 2\n";
    let want = "1 is not valid\n2 is not valid\n3 is not valid\n4 is not valid\n\
j2 1 0 2 1 notice 3692217600\n6 is not valid\n7 is not valid\n8 is not valid\n9 is not valid\n";
    gives(&rt, rt.alloc(), ALL, script, want);
}

#[test]
fn a_station_without_a_file_has_no_leap_seconds(rt: HostRuntime) {
    let script = "leap 0 1 0\nleap 1 1 0\nleap 2 1 0\nleap 3 1 0\n";
    let want = "1 is not valid\n2 is not valid\n3 is not valid\n4 is not valid\n";
    gives(&rt, rt.alloc(), NO_FILE, script, want);
}

// Neither a pulse nor a server's line moves the last moment of the file, and its lines do not move that of the server.
#[test]
fn moments_of_the_file_do_not_fall(rt: HostRuntime) {
    let script =
        "leap 2 5 3692217600\nleap 2 5 3644697600\nleap 2 4 3692217600\nanswer 1 3 00\nanswer 1 9 00\npulse 0 9000000 100000\nleap 2 6 0\nleap 2 5 0\nleap 2 8 1\nanswer 1 9 00\n";
    let want =
        "j2 1 0 2 5 notice 3692217600\nj2 2 0 2 5 notice 3644697600\n3 is not valid\nj2 3 0 1 3 declined 2\nj2 4 0 1 9 declined 2\n\
j2 5 0 2 6 notice 0\n8 is not valid\nj2 6 0 2 8 notice 1\nj2 7 0 1 9 declined 2\n";
    gives(&rt, rt.alloc(), ALL, script, want);
}

// With a journal of this size the file's script gives this text, and this is kept.
fn drops_leap_seconds(rt: &impl Abort, alloc: Global, limit: u16, want: &str, anchor: u64) {
    let script = "leap 1 10 3644697600\nleap 1 20 3692217600\nleap 1 19 0\nleap 1 20 0\n";
    let played = outcome_of(rt, alloc, RADIO, limit, script);
    same(rt, played.text.as_str(), want);
    same(rt, (limit, played.is_full), (limit, true));
    keeps(rt, &played.page, u64::from(limit), anchor);
}

// The file has announced a leap second also where it finds no room: its moment stays.
#[test]
fn a_full_journal_drops_leap_seconds(rt: HostRuntime) {
    drops_leap_seconds(&rt, rt.alloc(), 0, "3 is not valid\n", 0);
    let want = "j2 1 0 1 10 notice 3644697600\n3 is not valid\n";
    drops_leap_seconds(&rt, rt.alloc(), 1, want, 10);
}
