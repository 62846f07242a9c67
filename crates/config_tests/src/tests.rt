//! Station files, valid ones and faulty ones, and the result of each.
use station_config::{KeyText, StationFault, read_station};
use station_values::Station;
use std::alloc::Global;
use std::fmt::Debug;
use std::process::Abort;
use tick_units::Plan;

// What `assert_eq!` does, as a call, which is proved in a tenth of the time.
pub(crate) fn same<T: PartialEq + Debug + Drop>(rt: &impl Abort, left: T, right: T) {
    assert_eq!(*rt; left, right);
}

// The station of a laboratory that receives all three plans and serves on a link.
const LABORATORY: &str = r#"bound = 500
[[radio]]
plan = "dcf"
log = "dcf.log"
delay = 1400
[[radio]]
plan = "msf"
log = "msf.log"
delay = 2700
[[radio]]
plan = "wwvb"
log = "wwvb.log"
delay = 24000
[[server]]
address = "127.0.0.1"
port = 4123
[[link]]
port = 5123
"#;

// In each table a line has a file, with `|` for its line feeds, and the file's result.

const DEFAULTS: &str = r#"# nothing -> 4294967296 0
radio = []|server = []|link = [] -> 4294967296 0
[[radio]]|plan = "wwvb"|log = "a b" -> 4294967296 0 wwvb a b 0
[[server]]|address = "10.0.0.255"|port = 123 -> 4294967296 0 0a0000ff 123 8
link = [{port = 1}, {port = 2}] -> 4294967296 0 1 2
start = 5|bound = 1 -> 4294967 5
bound =  -> toml
bound = 1|bound = 2 -> toml
radio -> toml
start = 007 -> toml
"#;

const NUMBERS: &str = r#"bound = 0 -> range bound
bound = 1 -> 4294967 0
bound = 16000 -> 68719476736 0
bound = 16001 -> range bound
bound = -1 -> range bound
bound = 9223372036854775807 -> range bound
bound = 0x10 -> 68719476 0
bound = 0o17 -> 64424509 0
bound = 0b11 -> 12884901 0
bound = +5 -> 21474836 0
bound = 5_00 -> 2147483648 0
bound = 1200.0 -> range bound
bound = 1e3 -> range bound
bound = true -> range bound
bound = "1200" -> range bound
bound = [1] -> range bound
bound = 1979-05-27 -> range bound
start = 0 -> 4294967296 0
start = 562949953421312 -> 4294967296 562949953421312
start = 562949953421313 -> range start
start = -1 -> range start
start = nan -> range start
"#;

const RADIOS: &str = r#"[[radio]]|plan = "dcf"|log = "a"|delay = 0 -> 4294967296 0 dcf a 0
[[radio]]|plan = "dcf"|log = "a"|delay = 100000 -> 4294967296 0 dcf a 100000
[[radio]]|plan = "dcf"|log = "a"|delay = 100001 -> range radio.0.delay
[[radio]]|plan = "dcf"|log = "a"|delay = -1 -> range radio.0.delay
[[radio]]|plan = "dcf"|log = "a"|delay = false -> range radio.0.delay
[[radio]]|log = "a"|plan = "jjy" -> range radio.0.plan
[[radio]]|log = "a"|plan = "DCF" -> range radio.0.plan
[[radio]]|log = "a"|plan = "" -> range radio.0.plan
[[radio]]|log = "a"|plan = 77 -> range radio.0.plan
[[radio]]|log = "a"|plan = "msf" -> 4294967296 0 msf a 0
[[radio]]|plan = "dcf"|log = "" -> range radio.0.log
[[radio]]|plan = "dcf"|log = 7 -> range radio.0.log
"#;

const ADDRESSES: &str = r#"0.0.0.0 -> 4294967296 0 00000000 123 8
255.255.255.255 -> 4294967296 0 ffffffff 123 8
192.0.2.10 -> 4294967296 0 c000020a 123 8
1.2.3.256 -> range server.0.address
300.2.3.4 -> range server.0.address
1.2.3.99999999999999999999 -> range server.0.address
01.2.3.4 -> range server.0.address
1.2.3.00 -> range server.0.address
1.2.3 -> range server.0.address
1.2.3.4.5 -> range server.0.address
1.2.3. -> range server.0.address
.1.2.3 -> range server.0.address
1..2.3 -> range server.0.address
 1.2.3.4 -> range server.0.address
1.2.3.4  -> range server.0.address
1.2.+3.4 -> range server.0.address
1.2.-3.4 -> range server.0.address
localhost -> range server.0.address
 -> range server.0.address
"#;

const PORTS: &str = r#"[[server]]|address = "1.2.3.4"|port = 0 -> range server.0.port
[[server]]|address = "1.2.3.4"|port = 1 -> 4294967296 0 01020304 1 8
[[server]]|address = "1.2.3.4"|port = 65535 -> 4294967296 0 01020304 65535 8
[[server]]|address = "1.2.3.4"|port = 65536 -> range server.0.port
[[server]]|address = "1.2.3.4"|port = 1|polls = 0 -> 4294967296 0 01020304 1 0
[[server]]|address = "1.2.3.4"|port = 1|polls = 100000 -> 4294967296 0 01020304 1 100000
[[server]]|address = "1.2.3.4"|port = 1|polls = 100001 -> range server.0.polls
[[server]]|address = "1.2.3.4"|port = 1|polls = 8.0 -> range server.0.polls
[[server]]|address = "1.2.3.4"|polls = 8 -> missing server.0.port
[[server]]|address = 1|port = 1 -> range server.0.address
[[link]]|port = 0 -> range link.0.port
[[link]]|port = 1 -> 4294967296 0 1
[[link]]|port = 65535 -> 4294967296 0 65535
[[link]]|port = 65536 -> range link.0.port
[[link]] -> missing link.0.port
"#;

const UNKNOWN: &str = r#"leap = 1 -> unknown leap
holdover = 600 -> unknown holdover
bound = 500|holdover = 600 -> unknown holdover
gaps = 0 -> unknown gaps
zone = 1|abc = 1 -> unknown abc
zone = 1|Zone = 1 -> unknown Zone
radios = [] -> unknown radios
"a key\n" = 1 -> unknown a key|
bound.plan = 1 -> range bound
radio.plan = "dcf" -> range radio
[[radio]]|[[radio]]|foo = 1 -> unknown radio.1.foo
[[radio]]|port = 1 -> unknown radio.0.port
[[server]]|"" = 1 -> unknown server.0.
[[link]]|"a.b" = 1 -> unknown link.0.a.b
[[link]]|[[link]]|[[link]]|plan = 1 -> unknown link.2.plan
"#;

// Kinds of faults come in their order wherever they stand; of one kind the top table comes first, and then the arrays.
const FIRST: &str = r#"bound = 0|link = 1|[[server]]|zone = 1 -> unknown server.0.zone
[[link]]|x = 1|[[server]]|x = 1|[[radio]]|x = 1 -> unknown radio.0.x
[[link]]|x = 1|[[server]]|x = 1|[[radio]] -> unknown server.0.x
x = 1|[[radio]]|a = 1 -> unknown x
bound = 0|[[link]] -> missing link.0.port
[[link]]|[[server]]|[[radio]] -> missing radio.0.log
[[link]]|[[server]]|[[radio]]|log = 1|plan = 1 -> missing server.0.address
[[radio]]|log = 1|[[radio]] -> missing radio.0.plan
start = -1|bound = 0 -> range bound
start = -1|server = 1|radio = 1|link = 1 -> range link
start = -1|server = 1|radio = 1 -> range radio
start = -1|server = 1 -> range server
start = -1|[[radio]]|plan = 1|log = 1|delay = "" -> range start
[[radio]]|plan = 1|log = 1|delay = "" -> range radio.0.delay
[[radio]]|plan = 1|log = 1 -> range radio.0.log
[[server]]|port = 0|polls = -1|address = "" -> range server.0.address
[[server]]|port = 0|polls = -1|address = "1.1.1.1" -> range server.0.polls
[[link]]|port = 0|[[server]]|port = 0|address = "1.1.1.1" -> range server.0.port
[[link]]|port = 1|[[link]]|port = 0 -> range link.1.port
"#;

// A key that is not an array of tables is at fault itself, and nothing in it is looked at.
const ARRAYS: &str = r#"radio = [{x = 1}, 2] -> range radio
radio = 1 -> range radio
server = [1] -> range server
server = [[]] -> range server
[link]|port = 1 -> range link
radio = [{log = "", plan = 1}] -> range radio.0.log
radio = [{log = "a", plan = "dcf"}, {log = "b", plan = "msf", delay = 7}] -> 4294967296 0 dcf a 0 msf b 7
link = [{}] -> missing link.0.port
"#;

// These write what they find to the end of a text. Where memory is short, the text is not what the test wants.

fn write_radio(text: &mut String, station: &Station, i: usize) {
    let Some(radio) = station.radio(i) else {
        let _ = text.push_str(" none");
        return;
    };
    let plan = radio.plan.word();
    let log = radio.log;
    let delay = radio.delay;
    let _ = write!(text, " {plan} {log} {delay}");
}

fn write_server(text: &mut String, station: &Station, i: usize) {
    let Some(server) = station.server(i) else {
        let _ = text.push_str(" none");
        return;
    };
    let ip = server.address.ip;
    let port = server.address.port;
    let polls = server.polls;
    let _ = write!(text, " {ip:08x} {port} {polls}");
}

fn write_link(text: &mut String, station: &Station, i: usize) {
    let Some(link) = station.link(i) else {
        let _ = text.push_str(" none");
        return;
    };
    let port = link.port;
    let _ = write!(text, " {port}");
}

// A station's values in one line: the bound in units of 2^-32 s, the start, and the rows.
fn write_station(text: &mut String, station: &Station) {
    let bound = station.settings().bound();
    let start = station.start().get();
    let _ = write!(text, "{bound} {start}");
    for i in 0..station.radios() {
        write_radio(text, station, i);
    }
    for i in 0..station.servers() {
        write_server(text, station, i);
    }
    for i in 0..station.links() {
        write_link(text, station, i);
    }
}

fn write_named(text: &mut String, kind: &str, key: &KeyText) {
    let key = std::str::from_utf8(key.bytes()).unwrap_or("?");
    let _ = write!(text, "{kind} {key}");
}

fn write_fault(text: &mut String, fault: &StationFault) {
    match fault {
        StationFault::NotToml => write_word(text, "toml"),
        StationFault::UnknownKey { key } => write_named(text, "unknown", key),
        StationFault::Missing { key } => write_named(text, "missing", key),
        StationFault::Range { key } => write_named(text, "range", key),
        StationFault::TooMany { key, count } => {
            write_named(text, "many", key);
            let _ = write!(text, " {count}");
        }
        StationFault::Memory => write_word(text, "memory"),
    }
}

fn write_word(text: &mut String, word: &str) {
    let _ = text.push_str(word);
}

// The result of a station file, in one line.
fn answer(alloc: Global, file: &[u8]) -> String {
    let mut text = String::new(alloc);
    match read_station(alloc, file) {
        Ok(station) => write_station(&mut text, &station),
        Err(fault) => write_fault(&mut text, &fault),
    }
    text
}

// A station file has this result.
pub(crate) fn has_answer(rt: &impl Abort, alloc: Global, file: &[u8], want: &str) {
    same(rt, answer(alloc, file).as_str(), want);
}

// Writes a text with a line feed for each `|`.
fn write_lines(lines: &mut String, text: &str) {
    for c in text.chars() {
        let _ = lines.push(if c == '|' { '\n' } else { c });
    }
}

// The file of a line of a table, and its result.
fn halves_of<'a>(rt: &impl Abort, line: &'a str) -> (&'a str, &'a str) {
    match line.split_once(" -> ") {
        Some(halves) => halves,
        None => panic!(*rt; "no line of a table: {line}"),
    }
}

// These texts one after another, with a line feed for each `|`.
fn file_between(alloc: Global, before: &str, middle: &str, after: &str) -> String {
    let mut file = String::new(alloc);
    write_lines(&mut file, before);
    write_lines(&mut file, middle);
    write_lines(&mut file, after);
    file
}

// The file of a line, between two texts, has the result that the line gives.
fn is_right(rt: &impl Abort, alloc: Global, line: &str, before: &str, after: &str) {
    let (middle, result) = halves_of(rt, line);
    let file = file_between(alloc, before, middle, after);
    let want = file_between(alloc, "", result, "");
    let found = answer(alloc, file.as_bytes());
    same(rt, (line, found.as_str()), (line, want.as_str()));
}

// Each line of a table is right, with these texts before and after its file.
pub(crate) fn are_right_between(
    rt: &impl Abort,
    alloc: Global,
    table: &str,
    before: &str,
    after: &str,
) {
    for line in table.lines() {
        is_right(rt, alloc, line, before, after);
    }
}

// The same where each file is a whole one but for its last line feed.
pub(crate) fn are_right(rt: &impl Abort, alloc: Global, table: &str) {
    are_right_between(rt, alloc, table, "", "|");
}

// The station of a file.
pub(crate) fn station_of(rt: &impl Abort, alloc: Global, file: &[u8]) -> Station {
    match read_station(alloc, file) {
        Ok(station) => station,
        Err(_) => panic!(*rt; "refused"),
    }
}

// How many radios, servers and links a station has.
fn counts_of(station: &Station) -> (usize, usize, usize) {
    (station.radios(), station.servers(), station.links())
}

// How many feeds its settings have.
pub(crate) fn feeds_of(station: &Station) -> u32 {
    station.settings().count()
}

// Whether it has a radio, a server and a link at these places.
fn has_rows(station: &Station, radio: usize, server: usize, link: usize) -> (bool, bool, bool) {
    (
        station.radio(radio).is_some(),
        station.server(server).is_some(),
        station.link(link).is_some(),
    )
}

const LABORATORY_LINE: &str =
    "2147483648 0 dcf dcf.log 1400 msf msf.log 2700 wwvb wwvb.log 24000 7f000001 4123 8 5123";

#[test]
fn the_laboratory(rt: HostRuntime) {
    let alloc = rt.alloc();
    has_answer(&rt, alloc, LABORATORY.as_bytes(), LABORATORY_LINE);
    let station = station_of(&rt, alloc, LABORATORY.as_bytes());
    same(&rt, counts_of(&station), (3, 1, 1));
    same(&rt, has_rows(&station, 3, 1, 1), (false, false, false));
    same(&rt, feeds_of(&station), 4);
}

#[test]
fn defaults(rt: HostRuntime) {
    has_answer(&rt, rt.alloc(), b"", "4294967296 0");
    are_right(&rt, rt.alloc(), DEFAULTS);
}

#[test]
fn no_text(rt: HostRuntime) {
    has_answer(&rt, rt.alloc(), b"start = 0\xff", "toml");
    has_answer(&rt, rt.alloc(), b"leap = \"\xc3\x28\"\n", "toml");
}

#[test]
fn values(rt: HostRuntime) {
    are_right(&rt, rt.alloc(), NUMBERS);
    are_right(&rt, rt.alloc(), RADIOS);
    are_right(&rt, rt.alloc(), PORTS);
}

#[test]
fn addresses(rt: HostRuntime) {
    let before = "[[server]]|port = 123|address = \"";
    are_right_between(&rt, rt.alloc(), ADDRESSES, before, "\"|");
}

#[test]
fn faults(rt: HostRuntime) {
    are_right(&rt, rt.alloc(), UNKNOWN);
    has_answer(&rt, rt.alloc(), b"\"\" = 1\n", "unknown ");
    are_right(&rt, rt.alloc(), FIRST);
    are_right(&rt, rt.alloc(), ARRAYS);
}

pub(crate) fn push_times(text: &mut String, row: &str, times: u8) {
    for _ in 0..times {
        let _ = text.push_str(row);
    }
}

const OF_DCF: &str = "[[radio]]\nplan = \"dcf\"\nlog = \"a\"\n";

const OF_MSF: &str = "[[radio]]\nplan = \"msf\"\nlog = \"a\"\n";

const OF_WWVB: &str = "[[radio]]\nplan = \"wwvb\"\nlog = \"a\"\n";

const OF_SERVER: &str = "[[server]]\naddress = \"1.2.3.4\"\nport = 1\n";

// A file with this many rows of each kind: radios of DCF77, MSF and WWVB, servers, and links.
fn file_of(alloc: Global, radios: [u8; 3], servers: u8, links: u8) -> String {
    let [dcf, msf, wwvb] = radios;
    let mut text = String::new(alloc);
    push_times(&mut text, OF_DCF, dcf);
    push_times(&mut text, OF_MSF, msf);
    push_times(&mut text, OF_WWVB, wwvb);
    push_times(&mut text, OF_SERVER, servers);
    push_times(&mut text, "[[link]]\nport = 1\n", links);
    text
}

// Such a file has this result.
fn rows_have_answer(
    rt: &impl Abort,
    alloc: Global,
    radios: [u8; 3],
    servers: u8,
    links: u8,
    want: &str,
) {
    let file = file_of(alloc, radios, servers, links);
    let found = answer(alloc, file.as_bytes());
    same(
        rt,
        (radios, servers, links, found.as_str()),
        (radios, servers, links, want),
    );
}

// The radios and servers together come first, and then the plans and the links.
#[test]
fn too_many(rt: HostRuntime) {
    let alloc = rt.alloc();
    rows_have_answer(&rt, alloc, [5, 5, 5], 2, 9, "many radio 17");
    rows_have_answer(&rt, alloc, [0, 0, 0], 17, 0, "many radio 17");
    rows_have_answer(&rt, alloc, [5, 6, 4], 0, 9, "many radio 5");
    rows_have_answer(&rt, alloc, [4, 6, 5], 0, 9, "many radio 6");
    rows_have_answer(&rt, alloc, [4, 3, 5], 0, 9, "many radio 5");
    rows_have_answer(&rt, alloc, [4, 4, 4], 4, 9, "many link 9");
}

// Whether a file is that of a station.
fn is_station(alloc: Global, file: &[u8]) -> bool {
    read_station(alloc, file).is_ok()
}

#[test]
fn as_many_as_may_be(rt: HostRuntime) {
    let alloc = rt.alloc();
    let mut full = file_of(alloc, [4, 4, 4], 4, 8);
    same(&rt, is_station(alloc, full.as_bytes()), true);
    write_word(&mut full, "[[link]]\nport = 0\n");
    has_answer(&rt, alloc, full.as_bytes(), "range link.8.port");
}

// The plan, the log and the delay of the radio at a place of a station.
fn radio_of(station: &Station, place: usize) -> Option<(Plan, &str, u32)> {
    let radio = station.radio(place)?;
    Some((radio.plan, radio.log, radio.delay))
}

// The radio at a place of a station is of this plan, and has this log and no delay.
fn has_radio(rt: &impl Abort, station: &Station, place: usize, plan: Plan, log: &str) {
    let wanted = Some((plan, log, 0));
    same(rt, (place, radio_of(station, place)), (place, wanted));
}

// What a drill serves.
pub(crate) fn one_of_each(rt: &impl Abort, alloc: Global) -> Station {
    match Station::one_of_each(alloc) {
        Ok(station) => station,
        Err(_) => panic!(*rt; "no memory"),
    }
}

// What a drill serves: each plan once, in the order of its feeds.
#[test]
fn one_of_each_plan(rt: HostRuntime) {
    let station = one_of_each(&rt, rt.alloc());
    same(&rt, counts_of(&station), (3, 0, 0));
    same(&rt, station.start().get(), 0);
    has_radio(&rt, &station, 0, Plan::Dcf, "dcf");
    has_radio(&rt, &station, 1, Plan::Msf, "msf");
    has_radio(&rt, &station, 2, Plan::Wwvb, "wwvb");
}
