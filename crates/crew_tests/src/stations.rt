//! Stations over fakes, stated by constants, and what they leave: a log of DCF77 by PTB's table of 1 January 2026, 13:00 (12:00 UTC) and the
//! minutes after it, a server's answer that was worked by hand from RFC 5905, section 8, and clients whose answers are those of RFC 5905,
//! section 7.3.
ghost use Rattle.std.specs.Prelude.{◌≡◌, ◌<◌, ◌≤◌};
ghost use Rattle.radio_receiver.specs.Histories.{blank_of};
ghost use Rattle.feed_workers.specs.Served.{AreBlank};
ghost use Rattle.tick_units.specs.declared.marks.Plan.TheVariants.{Dcf};

use crate::fakes::{Wire, link_of, minutes, source_of};
use memory_outside::{HoldGate, MemoryLink, MemorySource};
use outside_traits::{Gate, OpenGate};
use radio_receiver::{BoxedReceiver, DcfReceiver, Receiver};
use station_crew::{Budget, Ended, Equipment, Orders, serve_station};
use station_gear::Gear;
use station_reader::read_station;
use station_values::Station;
use std::alloc::{AllocError, Global};
use std::process::Abort;
use std::sync::Wait;
use std::thread::Threads;
use tick_units::Plan;

pub const RADIO: &str = "[[radio]]\nplan = \"dcf\"\nlog = \"noon\"\n";

pub const SERVER: &str = "[[server]]\naddress = \"127.0.0.1\"\nport = 123\npolls = 1\n";

pub const LINK: &str = "[[link]]\nport = 5123\n";

pub const SECOND_LINK: &str = "[[link]]\nport = 5124\n";

pub const NO_HEARINGS: Budget = Budget {
    during: 0,
    after: 0,
};

pub type Fakes = Gear<MemorySource, MemoryLink>;

pub type Done = Ended<MemorySource, MemoryLink>;

/// A station of these texts, how many entries its journal has room for, and its hearings. The logs of its radios have this many minutes, its leap
/// second file has this text, and its servers and its links have these links.
#[derive(Clone, Copy)]
pub struct Case<'a> {
    pub station: &'a [&'a str],
    pub limit: u32,
    pub budget: Budget,
    pub minutes: &'a [u32],
    pub leap: Option<&'a str>,
    pub servers: &'a [Wire<'a>],
    pub links: &'a [Wire<'a>],
}

/// An empty station.
pub const CASE: Case<'static> = Case {
    station: &[],
    limit: 20,
    budget: NO_HEARINGS,
    minutes: &[],
    leap: None,
    servers: &[],
    links: &[],
};

// The logs of the radios.
fn logs_of(alloc: Global, counts: &[u32]) -> Vec<MemorySource> {
    let mut logs = Vec::new(alloc);
    for count in counts {
        let _ = logs.push(minutes(alloc, *count));
    }
    logs
}

fn links_of(rt: &impl Abort, alloc: Global, wires: &[Wire<'_>]) -> Vec<MemoryLink> {
    let mut links = Vec::new(alloc);
    for wire in wires {
        let _ = links.push(link_of(rt, alloc, wire));
    }
    links
}

fn leap_of(alloc: Global, list: Option<&str>) -> Option<MemorySource> {
    match list {
        Some(list) => Some(source_of(alloc, list)),
        None => None,
    }
}

fn gear_of(rt: &impl Abort, alloc: Global, case: &Case<'_>) -> Fakes {
    Gear {
        logs: logs_of(alloc, case.minutes),
        leap: leap_of(alloc, case.leap),
        servers: links_of(rt, alloc, case.servers),
        links: links_of(rt, alloc, case.links),
    }
}

// The station of these texts.
fn station_of(rt: &impl Abort, alloc: Global, texts: &[&str]) -> Station {
    let mut all = String::new(alloc);
    for text in texts {
        let _ = all.push_str(text);
    }
    match read_station(alloc, all.as_bytes()) {
        Ok(station) => station,
        Err(_) => panic!(*rt; "no station"),
    }
}

// The receivers of a station that has no radio, or one of DCF77 without a delay.
fn receivers_of(
    rt: &impl Abort,
    alloc: Global,
    station: &Station,
    receiver: BoxedReceiver,
) -> Vec<BoxedReceiver>
    requires stands { stands_for receiver (blank_of Dcf) }
    requires least { least_start receiver ≡ 0 }
    ensures { AreBlank stands_for least_start station.now.radios result.items }
{
    let mut receivers = Vec::new(alloc);
    if station.radios() == 0 {
        return receivers;
    }
    if station.radios() != 1 {
        panic!(*rt; "two radios");
    }
    let Some(radio) = station.radio(0) else {
        panic!(*rt; "no radio");
    };
    if radio.delay != 0 {
        panic!(*rt; "a delay");
    }
    let Plan::Dcf = radio.plan else {
        panic!(*rt; "another plan");
    };
    match receivers.push(receiver) {
        Ok(()) => receivers,
        Err(_) => panic!(*rt; "no memory"),
    }
}

// What a station leaves, where its radio, if it has one, is given this receiver.
fn serve_with<R: Abort + Threads + Wait + Sync, G: Gate>(
    rt: &R,
    alloc: Global,
    gate: &G,
    station: &Station,
    orders: Orders,
    receiver: BoxedReceiver,
    gear: Fakes,
) -> Done
    requires limit { (0 < orders.limit) × (orders.limit ≤ 4194304) }
    requires stands { stands_for receiver (blank_of Dcf) }
    requires least { least_start receiver ≡ 0 }
{
    let receivers = receivers_of(rt, alloc, station, receiver);
    if gear.logs.len() != station.radios() {
        panic!(*rt; "logs");
    }
    if gear.leap.is_some() != station.leap_file().is_some() {
        panic!(*rt; "leap second file");
    }
    if gear.servers.len() != station.servers() {
        panic!(*rt; "servers");
    }
    if gear.links.len() != station.links() {
        panic!(*rt; "links");
    }
    let equipment = Equipment { receivers, gear };
    match serve_station(rt, alloc, gate, station, orders, equipment) {
        Ok(ended) => ended,
        Err(_) => panic!(*rt; "no memory"),
    }
}

// What a station leaves.
fn serve<R: Abort + Threads + Wait + Sync, G: Gate>(
    rt: &R,
    alloc: Global,
    gate: &G,
    station: &Station,
    orders: Orders,
    gear: Fakes,
) -> Result<Done, AllocError>
    requires { (0 < orders.limit) × (orders.limit ≤ 4194304) }
{
    let receiver = Box::new(alloc, DcfReceiver::new())?;
    Ok(serve_with(rt, alloc, gate, station, orders, receiver, gear))
}

/// What the station of a case leaves, with this gate.
pub fn left_with<R: Abort + Threads + Wait + Sync, G: Gate>(
    rt: &R,
    alloc: Global,
    case: &Case<'_>,
    gate: &G,
) -> Done {
    if case.limit == 0 || case.limit > 4_194_304 {
        panic!(*rt; "the limit");
    }
    let station = station_of(rt, alloc, case.station);
    let gear = gear_of(rt, alloc, case);
    let orders = Orders {
        limit: case.limit,
        budget: case.budget,
    };
    match serve(rt, alloc, gate, &station, orders, gear) {
        Ok(ended) => ended,
        Err(_) => panic!(*rt; "no memory"),
    }
}

/// What it leaves with a gate that holds nobody.
pub fn left<R: Abort + Threads + Wait + Sync>(rt: &R, alloc: Global, case: &Case<'_>) -> Done {
    left_with(rt, alloc, case, &OpenGate::new())
}

/// What it leaves with a gate that holds a worker.
pub fn left_held<R: Abort + Threads + Wait + Sync>(
    rt: &R,
    alloc: Global,
    case: &Case<'_>,
    gate: &HoldGate,
) -> Done {
    left_with(rt, alloc, case, gate)
}
