//! A station of sixteen feeds of all kinds, which is served only where its feeds run side by side: four radios of each plan, three servers and a
//! leap second file. Each keeps one entry.
use crate::scene::plays;
use std::alloc::Global;
use std::process::Abort;
use std::sync::Wait;
use std::thread::Threads;

// The radios, plan by plan, and after them the servers and the leap second file. Each log has a minute of one mark, which breaks a rule.
const SIXTEEN: &str = r#"
    run serve --station s --during 0
    file s
    | leap_file = "l"
    | [[radio]]
    | plan = "dcf"
    | log = "dcf0"
    | [[radio]]
    | plan = "dcf"
    | log = "dcf1"
    | [[radio]]
    | plan = "dcf"
    | log = "dcf2"
    | [[radio]]
    | plan = "dcf"
    | log = "dcf3"
    | [[radio]]
    | plan = "msf"
    | log = "msf0"
    | [[radio]]
    | plan = "msf"
    | log = "msf1"
    | [[radio]]
    | plan = "msf"
    | log = "msf2"
    | [[radio]]
    | plan = "msf"
    | log = "msf3"
    | [[radio]]
    | plan = "wwvb"
    | log = "wwvb0"
    | [[radio]]
    | plan = "wwvb"
    | log = "wwvb1"
    | [[radio]]
    | plan = "wwvb"
    | log = "wwvb2"
    | [[radio]]
    | plan = "wwvb"
    | log = "wwvb3"
    | [[server]]
    | address = "127.0.0.1"
    | port = 123
    | polls = 1
    | [[server]]
    | address = "127.0.0.1"
    | port = 123
    | polls = 1
    | [[server]]
    | address = "127.0.0.1"
    | port = 123
    | polls = 1
    file dcf0
    | 0 100000
    | 2000000 100000
    | 4000000 100000
    file dcf1
    | 0 100000
    | 2000000 100000
    | 4000000 100000
    file dcf2
    | 0 100000
    | 2000000 100000
    | 4000000 100000
    file dcf3
    | 0 100000
    | 2000000 100000
    | 4000000 100000
    file msf0
    | 0 500000
    | 2000000 500000
    | 3000000 100000
    file msf1
    | 0 500000
    | 2000000 500000
    | 3000000 100000
    file msf2
    | 0 500000
    | 2000000 500000
    | 3000000 100000
    file msf3
    | 0 500000
    | 2000000 500000
    | 3000000 100000
    file wwvb0
    | 0 800000
    | 1000000 800000
    | 2000000 800000
    file wwvb1
    | 0 800000
    | 1000000 800000
    | 2000000 800000
    file wwvb2
    | 0 800000
    | 1000000 800000
    | 2000000 800000
    file wwvb3
    | 0 800000
    | 1000000 800000
    | 2000000 800000
    file l
    | 3644697600 36
    | 3692217600 37
    link
    at 1000000
    hears 1 server 1010000 answer
    link
    at 1000000
    hears 1 server 1010000 answer
    link
    at 1000000
    hears 1 server 1010000 answer
    passed
    entries 16
    status 0
"#;

// One feed comes to its entry, and keeps it once another has kept its own.
fn keeps_after(rt: &(impl Abort + Threads + Wait + Sync), alloc: Global, gates: &[&str]) {
    for gate in gates {
        plays(rt, alloc, &[SIXTEEN, gate]);
    }
}

// Feed 0 is a radio, feed 15 the leap second file.
#[test]
fn the_first_and_the_last_of_sixteen_feeds_wait_for_one_another(rt: HostRuntime) {
    keeps_after(&rt, rt.alloc(), &["gate 0 1 15 4 1", "gate 15 1 0 4 1"]);
}

// Feeds 0 to 11 are radios, four of each plan.
#[test]
fn radios_wait_for_one_another(rt: HostRuntime) {
    keeps_after(
        &rt,
        rt.alloc(),
        &[
            "gate 0 1 1 4 1",
            "gate 1 1 0 4 1",
            "gate 0 1 11 4 1",
            "gate 11 1 0 4 1",
            "gate 4 1 5 4 1",
            "gate 10 1 11 4 1",
        ],
    );
}

// Feeds 12 to 14 are servers.
#[test]
fn servers_wait_for_one_another_and_for_the_other_feeds(rt: HostRuntime) {
    keeps_after(
        &rt,
        rt.alloc(),
        &[
            "gate 12 1 13 4 1",
            "gate 14 1 12 4 1",
            "gate 0 1 12 4 1",
            "gate 12 1 0 4 1",
            "gate 12 1 15 4 1",
            "gate 15 1 12 4 1",
        ],
    );
}
