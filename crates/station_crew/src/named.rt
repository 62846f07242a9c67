// A station's hub under a name of its own, from its opening to its closing: both phases of the station.
ghost use Rattle.std.specs.Prelude.{◌≡◌, ◌<◌, ◌≤◌, [], All, IfErr, IfOk, length, map, vec_len};
ghost use Rattle.std.specs.List.{range_with_len};
ghost use Rattle.page_cell.specs.Passes.{claim_of, key_of};
ghost use Rattle.page_cell.specs.Views.{new_claim};
ghost use Rattle.station_values.specs.Station.{IsStation, gate_of, leap_feed, settings_of};
ghost use Rattle.station_crew.specs.Crews.{HasRoom, IsNewReader};
ghost use Rattle.station_gear.specs.Opens.{IsWhole};
ghost use Rattle.feed_workers.specs.Served.{AreBlank, IsJournalOf, LeapServed, LinksServed, RadiosServed, ServersServed};
ghost use Rattle.feed_workers.specs.Served.{column_of, seen, service_of};

use crate::assigning::assign_crew;
use crate::collecting::{collect_feeds, collect_responders};
use crate::crew::{Ended, Equipment, Reserved};
use crate::informing::inform_responders;
use crate::phases::{run_first, run_second};
use feed_workers::Orders;
use outside_traits::{Gate, Link, Source};
use radio_receiver::{BoxedReceiver, Receiver};
use station_gear::Gear;
use station_values::Station;
use std::sync::Wait;
use std::thread::Threads;
use verdict_journal::{Hub, HubName, HubParts};

/// Serves a station in the hub of a name: first the feeds' workers run beside the responders. Then the responders learn how much
/// every feed has seen, and those whose link goes on serve again. Lack of memory gives back the gear.
pub fn serve_named<
    N: HubName + Send + Sync,
    R: Threads + Wait + Sync,
    L: Source + Drop,
    T: Link + Drop,
    G: Gate,
>(
    rt: &R,
    gate: &G,
    station: &Station,
    orders: Orders,
    equipment: Equipment<BoxedReceiver, L, T>,
    room: Reserved<L, T>,
) -> Result<Ended<L, T>, Gear<L, T>>
    requires station { IsStation station.now }
    requires cell { (room.parts.cell.table ≡ N.table) × (room.parts.baton.table ≡ N.table) }
    requires settings { (key_of room.parts.baton.view ≡ settings_of station.now)
        × (settings_of station.now ≡ N.settings) }
    requires fresh { room.parts.baton.view.list ≡ [] }
    requires limit { (orders.limit ≡ N.limit) × (0 < orders.limit) × (orders.limit ≤ 4194304) }
    requires blank { AreBlank stands_for least_start station.now.radios equipment.receivers.items }
    requires gear { IsWhole station.now equipment.gear }
    requires claims { let numbers = range_with_len 0 (length N.settings.sources) in
        map (λ f. claim_of f.view) room.parts.feeds.items ≡ map new_claim numbers }
    requires feeds { All (λ f. f.table ≡ N.table) room.parts.feeds.items }
    requires readers { All (IsNewReader N.table) room.parts.readers.items }
    requires count { vec_len room.parts.readers ≡ vec_len equipment.gear.links }
    requires room { let of_servers = vec_len equipment.gear.servers in
        HasRoom (gate_of station.now) (vec_len equipment.gear.logs) of_servers (vec_len equipment.gear.links) room }
    ensures journal { IfOk result (λ e. IsJournalOf (settings_of station.now) orders.limit e.journal) }
    ensures radios { IfOk result (λ e. let column = column_of 0 orders.limit e.journal.entries in
        let work = e.work.radios.items in
        RadiosServed (seen L.state L.opening) station.now.radios column equipment.gear.logs.items e.gear.logs.items work) }
    ensures servers { IfOk result (λ e. let first = length station.now.radios in
        let column = column_of first orders.limit e.journal.entries in
        let had = equipment.gear.servers.items in
        let has = e.gear.servers.items in
        ServersServed (seen T.state T.opening) station.now.servers column had has e.work.servers.items) }
    ensures leap { IfOk result (λ e. let column = column_of (leap_feed station.now) orders.limit e.journal.entries in
        let start = station.now.top.start in
        LeapServed (seen L.state L.opening) start column equipment.gear.leap e.gear.leap e.work.leap) }
    ensures links { IfOk result (λ e. let service = service_of station.now e.journal.entries orders.budget in
        LinksServed (seen T.state T.opening) service equipment.gear.links.items e.gear.links.items e.work.links.items) }
    ensures memory { IfErr result (λ g. g ≡ equipment.gear) }
{
    let Reserved {
        alloc,
        parts,
        crew,
        mut work,
        gates,
    } = room;
    let Ok(parts) = Hub::<N>::open(alloc, parts, station.settings(), orders.limit) else {
        return Err(equipment.gear);
    };
    let HubParts {
        hub,
        mut feeds,
        mut readers,
    } = parts;
    let mut equipment = equipment;
    let mut crew = assign_crew(
        station,
        &mut equipment,
        &mut feeds,
        &mut readers,
        gates,
        crew,
    );
    run_first(rt, &hub, gate, orders.budget.during, &mut crew);
    let Equipment { mut gear, .. } = equipment;
    let mut responders = collect_feeds(crew, &mut gear, &mut work, &mut feeds);
    inform_responders(hub.cell(), &mut feeds, &mut responders);
    run_second(rt, &hub, gate, orders.budget.after, &mut responders);
    collect_responders(responders, &mut gear.links, &mut work.links, &mut readers);
    Ok(Ended {
        journal: hub.close(feeds, readers),
        gear,
        work,
    })
}
