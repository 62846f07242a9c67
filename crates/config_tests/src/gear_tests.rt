//! Opens the logs and links of stations over an outside in memory that notes each call. In some runs one of the openings fails;
//! one station has none, and one no leap second file.
ghost use Rattle.std.specs.Prelude.{◌≡◌, ◌∷◌, List, map, IfOk};
ghost use Rattle.std.specs.Option.{option_to_list};
ghost use Rattle.outside_traits.specs.Openings.{MakesOpenings, Visit};
ghost use Rattle.outside_traits.specs.Openings.Wanted.{LogOf};
ghost use Rattle.station_gear.specs.Gears.{IsEmptyFor, wanted_by};
ghost use Rattle.station_gear.specs.Opens.{failing_of};

use crate::tests::{same, station_of};
use memory_outside::{MemoryLink, MemoryOutside, MemorySource, NamedLog, Planned};
use outside_traits::{Address, Failed, Hearing, Link, OpenGate, Outside, Source};
use station_gear::{Gear, Missing, give_back_gear, open_gear};
use station_values::Station;
use std::alloc::Global;
use std::process::Abort;
use tick_units::Local;

const STATION: &str = r#"start = 7000
[[radio]]
plan = "dcf"
log = "b.log"
[[radio]]
plan = "msf"
log = "a.log"
[[server]]
address = "127.0.0.1"
port = 4123
[[link]]
port = 5123
[[link]]
port = 5001
"#;

// The same with a leap second file.
const LISTED: &str = r#"leap_file = "leap"
start = 7000
[[radio]]
plan = "dcf"
log = "b.log"
[[radio]]
plan = "msf"
log = "a.log"
[[server]]
address = "127.0.0.1"
port = 4123
[[link]]
port = 5123
[[link]]
port = 5001
"#;

const ALL: &str =
    "log own; back log; log b.log; log a.log; link 0 @7000; link 5123 @7000; link 5001 @7000; \
back log; back log; back link; back link; back link; ";

const ALL_LISTED: &str =
    "log own; back log; log b.log; log a.log; log leap; link 0 @7000; link 5123 @7000; link 5001 @7000; \
back log; back log; back log; back link; back link; back link; ";

// An outside in memory. It notes each opening and each giving back.
#[derive(Drop)]
struct Noting {
    inner: MemoryOutside<OpenGate>,
    calls: String,
}

impl Outside for Noting {
    ghost use Rattle.memory_outside.specs.MemoryOutside.{outside_state, is_gate_out};

    type Log = MemorySource;

    type Net = MemoryLink;

    type Turns = OpenGate;

    ghost state = { λ s. outside_state s.inner };

    ghost gate_out = { λ s. is_gate_out s.inner };

    fn open_log(&mut self, name: &str) -> Result<MemorySource, Failed> {
        let _ = write!(self.calls, "log {name}; ");
        self.inner.open_log(name)
    }

    fn open_link(&mut self, port: u16, start: Local) -> Result<MemoryLink, Failed> {
        let _ = write!(self.calls, "link {port} @{}; ", start.get());
        self.inner.open_link(port, start)
    }

    fn gate(&mut self) -> OpenGate {
        self.inner.gate()
    }

    fn give_back_gate(&mut self, gate: OpenGate) {
        self.inner.give_back_gate(gate);
    }

    fn give_back_log(&mut self, log: MemorySource) {
        let _ = self.calls.push_str("back log; ");
        self.inner.give_back_log(log);
    }

    fn give_back_link(&mut self, net: MemoryLink) {
        let _ = self.calls.push_str("back link; ");
        self.inner.give_back_link(net);
    }
}

// A log under a name, with this text.
fn log(rt: &impl Abort, alloc: Global, name: &str, text: &str) -> NamedLog {
    let name = String::from_str(alloc, name).expect(rt, "no memory");
    let text = Vec::from_slice(alloc, text.as_bytes()).expect(rt, "no memory");
    NamedLog::new(name, MemorySource::new(text, Vec::new(alloc)))
}

// A link that receives a datagram from this port.
fn link(rt: &impl Abort, alloc: Global, port: u16) -> MemoryLink {
    let hearing = Planned::Datagram {
        from: Address { ip: 1, port },
        at: Local::new(0).unwrap(),
        bytes: Vec::new(alloc),
    };
    let mut hearings = Vec::new(alloc);
    hearings.push(hearing).expect(rt, "no memory");
    MemoryLink::new(alloc, hearings, Vec::new(alloc), Vec::new(alloc), 4, 0).expect(rt, "no memory")
}

fn push_log(rt: &impl Abort, alloc: Global, logs: &mut Vec<NamedLog>, name: &str, text: &str) {
    logs.push(log(rt, alloc, name, text))
        .expect(rt, "no memory");
}

// The logs "a.log", "own", "leap" and, under the name `second`, a fourth one.
fn logs(rt: &impl Abort, alloc: Global, second: &str) -> Vec<NamedLog> {
    let mut logs = Vec::new(alloc);
    push_log(rt, alloc, &mut logs, "a.log", "A");
    push_log(rt, alloc, &mut logs, second, "B");
    push_log(rt, alloc, &mut logs, "own", "");
    push_log(rt, alloc, &mut logs, "leap", "L");
    logs
}

fn links(rt: &impl Abort, alloc: Global) -> Vec<MemoryLink> {
    let mut links = Vec::new(alloc);
    for port in [31, 32, 33] {
        links.push(link(rt, alloc, port)).expect(rt, "no memory");
    }
    links
}

// An outside with such logs and three links. The opening with this number fails.
fn outside(rt: &impl Abort, alloc: Global, second: &str, failing: u64) -> Noting {
    let logs = logs(rt, alloc, second);
    let links = links(rt, alloc);
    let fails = Vec::from_slice(alloc, &[failing]).expect(rt, "no memory");
    let inner = MemoryOutside::new(alloc, logs, links, OpenGate::new(), fails, 9, 99);
    Noting {
        inner: inner.expect(rt, "no memory"),
        calls: String::new(alloc),
    }
}

// The first byte of a log.
fn first_byte<L: Source>(log: &mut L) -> u8
    ensures { L.opening log.new ≡ L.opening log.old }
{
    let mut piece = [0; 1];
    let _ = log.read(&mut piece);
    piece[0]
}

// The port from which a link receives, or 0 where it receives nothing.
fn first_port<T: Link>(link: &mut T) -> u16
    ensures { T.opening link.new ≡ T.opening link.old }
{
    let mut piece = [0; 1024];
    match link.hear(&mut piece) {
        Ok(Hearing::Datagram(arrival)) => arrival.from.port,
        _ => 0,
    }
}

fn read_logs<L: Source + Drop>(logs: &mut Vec<L>, seen: &mut String)
    ensures { map (λ log. L.opening log) logs.new.items ≡ map (λ log. L.opening log) logs.old.items }
{
    for place in 0..logs.len() {
        let byte = first_byte(&mut logs[place]);
        let _ = write!(seen, "{byte} ");
    }
}

fn read_leap<L: Source + Drop>(leap: &mut Option<L>, seen: &mut String)
    ensures { map (λ log. L.opening log) (option_to_list leap.new) ≡ map (λ log. L.opening log) (option_to_list leap.old) }
{
    if let Some(log) = leap {
        let byte = first_byte(log);
        let _ = write!(seen, "{byte} ");
    }
}

fn receive_on_links<T: Link + Drop>(links: &mut Vec<T>, seen: &mut String)
    ensures { map (λ link. T.opening link) links.new.items ≡ map (λ link. T.opening link) links.old.items }
{
    for place in 0..links.len() {
        let port = first_port(&mut links[place]);
        let _ = write!(seen, "{port} ");
    }
}

// Opens the gear of a station, reads a byte of each log, has one hearing of each link, and gives back all: whether all was there.
fn visit_gear<O: Outside>(
    outside: &mut O,
    station: &Station,
    mut gear: Gear<O::Log, O::Net>,
    seen: &mut String,
) -> Result<(), Missing>
    requires { IsEmptyFor station.now gear }
    ensures { (visits : List Visit) × MakesOpenings (wanted_by station.now) (O.state outside.old) (O.state outside.new) visits (failing_of station.now result) }
{
    let opened = open_gear(outside, station, &mut gear);
    read_logs(&mut gear.logs, seen);
    read_leap(&mut gear.leap, seen);
    receive_on_links(&mut gear.servers, seen);
    receive_on_links(&mut gear.links, seen);
    give_back_gear(outside, gear);
    opened
}

// Opens the station's own log and gives it back, and then visits its gear.
fn visit<O: Outside>(
    outside: &mut O,
    name: &str,
    station: &Station,
    gear: Gear<O::Log, O::Net>,
    seen: &mut String,
) -> Result<Result<(), Missing>, Failed>
    requires { IsEmptyFor station.now gear }
    ensures { IfOk result (λ answer. (visits : List Visit) × MakesOpenings (LogOf name.now ∷ wanted_by station.now) (O.state outside.old) (O.state outside.new) visits (failing_of station.now answer)) }
{
    let Ok(own) = outside.open_log(name) else {
        return Err(Failed);
    };
    outside.give_back_log(own);
    Ok(visit_gear(outside, station, gear, seen))
}

// How many events the links of an outside report, where they are in their places.
fn counts(outside: &Noting) -> [Option<usize>; 3] {
    [count(outside, 0), count(outside, 1), count(outside, 2)]
}

fn count(outside: &Noting, place: usize) -> Option<usize> {
    match outside.inner.link(place) {
        Some(link) => Some(link.count()),
        None => None,
    }
}

// The result of a visit to the station of a text.
#[derive(Drop)]
struct Visited {
    answer: Result<(), Missing>,
    seen: String,
    calls: String,
    counts: [Option<usize>; 3],
}

// The gear of a station, where nothing is opened yet.
fn gear_of(rt: &impl Abort, alloc: Global, station: &Station) -> Gear<MemorySource, MemoryLink>
    ensures { IsEmptyFor station.now result }
{
    match Gear::with_room(alloc, station) {
        Ok(gear) => gear,
        Err(_) => panic!(*rt; "no memory"),
    }
}

// A visit to a station in an outside that has the station's own log.
fn visit_in(
    rt: &impl Abort,
    alloc: Global,
    outside: &mut Noting,
    station: &Station,
    seen: &mut String,
) -> Result<(), Missing> {
    let gear = gear_of(rt, alloc, station);
    match visit(outside, "own", station, gear, seen) {
        Ok(answer) => answer,
        Err(_) => panic!(*rt; "the station's own log was not opened"),
    }
}

fn visit_station(
    rt: &impl Abort,
    alloc: Global,
    text: &str,
    second: &str,
    failing: u64,
) -> Visited {
    let station = station_of(rt, alloc, text.as_bytes());
    let mut outside = outside(rt, alloc, second, failing);
    let mut seen = String::new(alloc);
    let answer = visit_in(rt, alloc, &mut outside, &station, &mut seen);
    let counts = counts(&outside);
    Visited {
        answer,
        seen,
        calls: outside.calls,
        counts,
    }
}

// A visit has this answer, these calls and these counts.
fn has_visited(
    rt: &impl Abort,
    visited: &Visited,
    answer: Result<(), Missing>,
    calls: &str,
    counts: [Option<usize>; 3],
) {
    same(rt, visited.answer, answer);
    same(rt, visited.calls.as_str(), calls);
    same(rt, visited.counts, counts);
}

// All of a station is opened, with these calls, and this is seen of it.
fn opens_all(rt: &impl Abort, alloc: Global, text: &str, calls: &str, seen: &str) {
    let visited = visit_station(rt, alloc, text, "b.log", 0);
    has_visited(rt, &visited, Ok(()), calls, [Some(1); 3]);
    same(rt, visited.seen.as_str(), seen);
}

// The opening that fails, what is missing then, and what is seen of the rest.
type Stop = (u64, Missing, &'static str);

fn stops_so(rt: &impl Abort, alloc: Global, text: &str, stop: &Stop) {
    let (failing, missing, seen) = *stop;
    let visited = visit_station(rt, alloc, text, "b.log", failing);
    same(rt, (failing, visited.answer), (failing, Err(missing)));
    same(rt, (failing, visited.seen.as_str()), (failing, seen));
}

fn each_stops_so(rt: &impl Abort, alloc: Global, text: &str, stops: &[Stop]) {
    for stop in stops {
        stops_so(rt, alloc, text, stop);
    }
}

#[test]
fn all_are_opened_in_order_and_come_back_to_their_places(rt: HostRuntime) {
    opens_all(&rt, rt.alloc(), STATION, ALL, "66 65 31 32 33 ");
}

const STOPS: [Stop; 5] = [
    (2, Missing::Feed(0), ""),
    (3, Missing::Feed(1), "66 "),
    (4, Missing::Feed(2), "66 65 "),
    (5, Missing::Link(0), "66 65 31 "),
    (6, Missing::Link(1), "66 65 31 32 "),
];

#[test]
fn it_stops_at_the_first_that_fails(rt: HostRuntime) {
    each_stops_so(&rt, rt.alloc(), STATION, &STOPS);
}

#[test]
fn a_leap_second_file_is_opened_after_the_logs(rt: HostRuntime) {
    let seen = "66 65 76 31 32 33 ";
    opens_all(&rt, rt.alloc(), LISTED, ALL_LISTED, seen);
}

const STOPS_LISTED: [Stop; 4] = [
    (3, Missing::Feed(1), "66 "),
    (4, Missing::LeapFile, "66 65 "),
    (5, Missing::Feed(2), "66 65 76 "),
    (6, Missing::Link(0), "66 65 76 31 "),
];

#[test]
fn it_stops_at_the_first_that_fails_with_a_leap_second_file(rt: HostRuntime) {
    each_stops_so(&rt, rt.alloc(), LISTED, &STOPS_LISTED);
}

const BEFORE_A_FAILURE: &str =
    "log own; back log; log b.log; log a.log; link 0 @7000; link 5123 @7000; back log; back log; back link; ";

#[test]
fn what_was_opened_before_a_failure_comes_back(rt: HostRuntime) {
    let visited = visit_station(&rt, rt.alloc(), STATION, "b.log", 5);
    let counts = [Some(1), Some(0), Some(0)];
    has_visited(
        &rt,
        &visited,
        Err(Missing::Link(0)),
        BEFORE_A_FAILURE,
        counts,
    );
}

#[test]
fn a_log_that_is_not_there_is_missing(rt: HostRuntime) {
    let visited = visit_station(&rt, rt.alloc(), STATION, "c.log", 0);
    let calls = "log own; back log; log b.log; ";
    has_visited(&rt, &visited, Err(Missing::Feed(0)), calls, [Some(0); 3]);
}

#[test]
fn a_station_with_nothing_in_it_opens_nothing(rt: HostRuntime) {
    let visited = visit_station(&rt, rt.alloc(), "", "b.log", 0);
    same(&rt, visited.answer, Ok(()));
    same(&rt, visited.calls.as_str(), "log own; back log; ");
    same(&rt, visited.seen.as_str(), "");
}
