//! Serves a station whose logs and links are open.
ghost use Rattle.std.specs.Prelude.{◌≡◌, ◌<◌, ◌≤◌, All, IfErr, IfOk, length, vec_len};
ghost use Rattle.station_values.specs.Station.{gate_of, leap_feed, settings_of};
ghost use Rattle.station_crew.specs.Crews.{HasRoom, HasRoomFor, HasRoomForWork};
ghost use Rattle.station_gear.specs.Opens.{IsWhole};
ghost use Rattle.feed_workers.specs.Served.{AreBlank, IsJournalOf, LeapServed, LinksServed, RadiosServed, ServersServed};
ghost use Rattle.feed_workers.specs.Served.{column_of, seen, service_of};

use crate::crew::{Crew, Ended, Equipment, Reserved};
use crate::named::serve_named;
use feed_workers::{Orders, Work};
use kiss_gate::{ClientGate, GateOpen};
use outside_traits::{Gate, Link, Source};
use page_cell::{CellParts, PageCell};
use radio_receiver::{BoxedReceiver, Receiver};
use station_gear::Gear;
use station_values::Station;
use std::alloc::{AllocError, Global};
use std::marker::Brand;
use std::sync::Wait;
use std::thread::Threads;

// How many radios, servers and links a station has.
#[derive(Clone, Copy)]
struct Counts {
    radios: usize,
    servers: usize,
    links: usize,
}

// Room for the workers.
fn make_crew<L: Drop, T: Drop>(alloc: Global, counts: Counts) -> Result<Crew<L, T>, AllocError>
    ensures { IfOk result (HasRoomFor counts.radios counts.servers counts.links) }
{
    Ok(Crew {
        radios: Vec::with_capacity(alloc, counts.radios)?,
        pollers: Vec::with_capacity(alloc, counts.servers)?,
        leap: None,
        responders: Vec::with_capacity(alloc, counts.links)?,
    })
}

// Room for what is said of the workers.
fn make_work(alloc: Global, counts: Counts) -> Result<Work, AllocError>
    ensures { IfOk result (HasRoomForWork counts.radios counts.servers counts.links) }
{
    Ok(Work {
        radios: Vec::with_capacity(alloc, counts.radios)?,
        servers: Vec::with_capacity(alloc, counts.servers)?,
        leap: None,
        links: Vec::with_capacity(alloc, counts.links)?,
    })
}

// The gate of clients with which a link of a station begins.
fn open_gate(alloc: Global, station: &Station) -> Result<ClientGate, GateOpen>
    ensures { IfOk result (λ gate. gate ≡ gate_of station.now) }
{
    ClientGate::open(alloc, station.deny(), station.gap(), station.clients())
}

// One for each of this many links.
fn open_gates(alloc: Global, station: &Station, count: usize) -> Result<Vec<ClientGate>, AllocError>
    ensures count { IfOk result (λ gates. vec_len gates ≡ count) }
    ensures alike { IfOk result (λ gates. All (λ gate. gate ≡ gate_of station.now) gates.items) }
{
    let mut gates = Vec::with_capacity(alloc, count)?;
    for _ in 0..count {
        match open_gate(alloc, station) {
            Ok(gate) => gates.push_reserved(gate),
            Err(GateOpen::Memory) => return Err(AllocError),
        }
    }
    Ok(gates)
}

// Room for all, round the parts of a cell, and the gates.
fn make_room<L: Drop, T: Drop>(
    alloc: Global,
    station: &Station,
    counts: Counts,
    parts: CellParts,
) -> Result<Reserved<L, T>, AllocError>
    ensures room { IfOk result (HasRoom (gate_of station.now) counts.radios counts.servers counts.links) }
    ensures parts { IfOk result (λ room. room.parts ≡ parts) }
{
    match (
        make_crew(alloc, counts),
        make_work(alloc, counts),
        open_gates(alloc, station, counts.links),
    ) {
        (Ok(crew), Ok(work), Ok(gates)) => Ok(Reserved {
            alloc,
            parts,
            crew,
            work,
            gates,
        }),
        _ => Err(AllocError),
    }
}

/// Serves a station, in two phases. In the first phase the workers read its radios' logs and its leap second file and poll its
/// servers. They write one journal of at most `orders.limit` entries, 1 to 4194304. Beside them each link has
/// `orders.budget.during` hearings. Responders answer the clients of the links from the page of the journal so far, by the
/// station's keys where the clients ask for that. A client that the station denies or that asks too often gets a kiss code. In the
/// second phase those links that go on have `orders.budget.after` more hearings, with the page of the whole journal. Each link has
/// a gate of clients of its own, which goes on from phase to phase. The receivers of the equipment are those of the radios, in order,
/// and have received nothing. All memory is taken before any log or link is used, except what a gate of clients takes for a new
/// client. Where there is not enough, the gear comes back as it was.
pub fn serve_station<R: Threads + Wait + Sync, L: Source + Drop, T: Link + Drop, G: Gate>(
    rt: &R,
    alloc: Global,
    gate: &G,
    station: &Station,
    orders: Orders,
    equipment: Equipment<BoxedReceiver, L, T>,
) -> Result<Ended<L, T>, Gear<L, T>>
    requires limit { (0 < orders.limit) × (orders.limit ≤ 4194304) }
    requires blank { AreBlank stands_for least_start station.now.radios equipment.receivers.items }
    requires gear { IsWhole station.now equipment.gear }
    ensures journal { IfOk result (λ e. IsJournalOf (settings_of station.now) orders.limit e.journal) }
    ensures radios { IfOk result (λ e. let column = column_of 0 orders.limit e.journal.entries in
        let work = e.work.radios.items in
        RadiosServed (seen L.state L.opening) station.now.radios column equipment.gear.logs.items e.gear.logs.items work) }
    ensures servers { IfOk result (λ e. let first = length station.now.radios in
        let column = column_of first orders.limit e.journal.entries in
        let had = equipment.gear.servers.items in
        let has = e.gear.servers.items in
        ServersServed (seen T.state T.opening) station.now.servers column had has e.work.servers.items) }
    ensures leap { IfOk result (λ e. let column = column_of (leap_feed station.now) orders.limit e.journal.entries in
        let start = station.now.top.start in
        LeapServed (seen L.state L.opening) start column equipment.gear.leap e.gear.leap e.work.leap) }
    ensures links { IfOk result (λ e. let service = service_of station.now e.journal.entries orders.budget in
        LinksServed (seen T.state T.opening) service equipment.gear.links.items e.gear.links.items e.work.links.items) }
    ensures memory { IfErr result (λ g. g ≡ equipment.gear) }
{
    let counts = Counts {
        radios: station.radios(),
        servers: station.servers(),
        links: station.links(),
    };
    let Ok(parts) = PageCell::open(alloc, station.settings(), counts.links as u32) else {
        return Err(equipment.gear);
    };
    let Ok(room) = make_room(alloc, station, counts, parts) else {
        return Err(equipment.gear);
    };
    serve_named::<Brand, R, L, T, G>(rt, gate, station, orders, equipment, room)
}
