//! The leap second file of a station.
use crate::tests::{are_right, feeds_of, has_answer, push_times, same, station_of};
use std::alloc::Global;
use std::process::Abort;

// Each line has a file, with `|` for its line feeds, and the file's result.

const VALUES: &str = r#"leap_file = "leap-seconds.list" -> 4294967296 0
leap_file = " " -> 4294967296 0
leap_file = "" -> range leap_file
leap_file = 1 -> range leap_file
leap_file = true -> range leap_file
leap_file = ["leap-seconds.list"] -> range leap_file
leap = "leap-seconds.list" -> unknown leap
[[radio]]|plan = "dcf"|log = "a"|leap_file = "b" -> unknown radio.0.leap_file
"#;

const ORDER: &str = r#"leap_file = ""|key = 1 -> range key
link = 1|leap_file = "" -> range leap_file
leap_file = ""|leaps = "" -> unknown leaps
leap_file = ""|[[link]] -> missing link.0.port
"#;

#[test]
fn names_of_leap_second_files(rt: HostRuntime) {
    are_right(&rt, rt.alloc(), VALUES);
}

#[test]
fn faults_of_leap_second_files(rt: HostRuntime) {
    are_right(&rt, rt.alloc(), ORDER);
}

const FEEDS: &str = r#"leap_file = "leap-seconds.list"
[[radio]]
plan = "msf"
log = "msf.log"
[[server]]
address = "127.0.0.1"
port = 123
"#;

// A station has this leap second file, and this many feeds.
fn has_leap_file(rt: &impl Abort, alloc: Global, text: &str, name: Option<&str>, feeds: u32) {
    let station = station_of(rt, alloc, text.as_bytes());
    same(rt, (station.leap_file(), feeds_of(&station)), (name, feeds));
}

#[test]
fn it_is_a_feed_beside_radios_and_servers(rt: HostRuntime) {
    has_leap_file(&rt, rt.alloc(), FEEDS, Some("leap-seconds.list"), 3);
}

#[test]
fn a_station_may_have_none(rt: HostRuntime) {
    let text = "[[radio]]\nplan = \"msf\"\nlog = \"a\"\n";
    has_leap_file(&rt, rt.alloc(), text, None, 1);
}

const OF_SERVER: &str = "[[server]]\naddress = \"127.0.0.1\"\nport = 123\npolls = 0\n";

// A station of a leap second file and this many servers.
fn servers(alloc: Global, count: u8) -> String {
    let mut text = String::new(alloc);
    push_times(&mut text, "leap_file = \"a\"\n", 1);
    push_times(&mut text, OF_SERVER, count);
    text
}

// There may be sixteen feeds of any kind.
#[test]
fn it_counts_as_a_feed(rt: HostRuntime) {
    let alloc = rt.alloc();
    let full = servers(alloc, 15);
    has_leap_file(&rt, alloc, full.as_str(), Some("a"), 16);
    let many = servers(alloc, 16);
    has_answer(&rt, alloc, many.as_bytes(), "many radio 17");
}
