// Workers, each with a pass of the cell.
ghost use Rattle.std.specs.Prelude.{◌≡◌, ◌≤◌, ◌<◌, ◌+◌, ◌++◌, [], All, IfSome, None, length, map, option_map};
ghost use Rattle.std.specs.Prelude.{slice_get, vec_capacity, vec_len};
ghost use Rattle.std.specs.List.{range_with_len};
ghost use Rattle.std.specs.Option.{option_to_list};
ghost use Rattle.packet_auth.specs.Keys.{keys_of};
ghost use Rattle.station_values.specs.Station.{IsStation, gate_of};
ghost use Rattle.station_values.specs.KeptStation.{server_fields};
ghost use Rattle.station_crew.specs.Crews.{CrewAssigned, HasRoomFor, HasRoomForGear};
ghost use Rattle.station_crew.specs.Jobs.{IsAssigned};
ghost use Rattle.station_crew.specs.Collecting.{file_of, leap_pass, link_of, log_of, number_of, passes_of};
ghost use Rattle.station_crew.specs.Collecting.{poll_pass, radio_pass, serve_pass, server_link, server_of};
ghost use Rattle.station_gear.specs.Opens.{IsWhole};
ghost use Rattle.feed_workers.specs.Served.{AreBlank};
ghost use Rattle.feed_workers.specs.Lists.{Pairs};

use crate::crew::{Crew, Equipment};
use crate::jobs::{LeapJob, PollJob, RadioJob, ServeJob};
use feed_workers::{
    LeapWorker, LinkWork, LogEnd, LogWork, PollEnd, PollWork, PollWorker, RadioWorker,
};
use kiss_gate::ClientGate;
use outside_traits::{Link, Source};
use page_cell::{FeedPass, ReadPass};
use radio_receiver::{BoxedReceiver, Receiver};
use responder::{End, Responder, Served};
use station_values::{ServerRow, Station};
use tick_units::Local;

// The result of a worker that has not run yet.
const UNREAD: LogWork = LogWork {
    end: LogEnd::Whole,
    full: false,
};

const UNASKED: PollWork = PollWork {
    end: PollEnd::Rounds,
    full: false,
};

const UNSERVED: Served = Served {
    answered: 0,
    dropped: 0,
    again: 0,
    kissed: 0,
    unkept: 0,
    end: End::Count,
};

// A radio's worker.
fn assign_radio<L: Source + Drop>(receiver: BoxedReceiver, log: L, pass: FeedPass) -> RadioJob<L>
    requires { least_start receiver ≡ 0 }
    ensures is { (result.worker.log ≡ log) × (result.worker.pass ≡ pass) }
    ensures assigned { IsAssigned stands_for least_start receiver result }
{
    RadioJob {
        worker: RadioWorker::new(receiver, log, pass),
        work: UNREAD,
    }
}

// A worker for each radio, with its receiver, its log and the pass of its feed.
fn assign_radios<L: Source + Drop>(
    receivers: &mut Vec<BoxedReceiver>,
    logs: &mut Vec<L>,
    feeds: &mut Vec<FeedPass>,
    jobs: &mut Vec<RadioJob<L>>,
)
    requires blank { All (λ b. least_start b ≡ 0) receivers.old.items }
    requires receivers { vec_len receivers.old ≡ vec_len logs.old }
    requires feeds { vec_len logs.old ≤ vec_len feeds.old }
    requires none { jobs.old.items ≡ [] }
    requires room { vec_len logs.old ≤ vec_capacity jobs.old }
    ensures logs { map log_of jobs.new.items ≡ logs.old.items }
    ensures emptied { logs.new.items ≡ [] }
    ensures logs_room { vec_capacity logs.new ≡ vec_capacity logs.old }
    ensures feeds { map radio_pass jobs.new.items ++ feeds.new.items ≡ feeds.old.items }
    ensures feeds_room { vec_capacity feeds.new ≡ vec_capacity feeds.old }
    ensures assigned { Pairs (IsAssigned stands_for least_start) receivers.old.items jobs.new.items }
{
    let count = logs.len();
    for _ in 0..count {
        let receiver = receivers.remove(0);
        let log = logs.remove(0);
        let pass = feeds.remove(0);
        jobs.push_reserved(assign_radio(receiver, log, pass));
    }
}

// The server at a place.
fn server_at(station: &Station, place: usize) -> ServerRow
    requires { place < length station.now.servers }
    ensures { slice_get station.now.servers place ≡ Some (server_fields result) }
{
    match station.server(place) {
        Some(server) => server,
        None => unreachable!(),
    }
}

// A worker for each server, with its link and the pass of its feed.
fn assign_pollers<T: Link + Drop>(
    station: &Station,
    links: &mut Vec<T>,
    feeds: &mut Vec<FeedPass>,
    jobs: &mut Vec<PollJob<T>>,
)
    requires links { vec_len links.old ≡ length station.now.servers }
    requires feeds { vec_len links.old ≤ vec_len feeds.old }
    requires none { jobs.old.items ≡ [] }
    requires room { vec_len links.old ≤ vec_capacity jobs.old }
    ensures links { map server_link jobs.new.items ≡ links.old.items }
    ensures emptied { links.new.items ≡ [] }
    ensures links_room { vec_capacity links.new ≡ vec_capacity links.old }
    ensures servers { map server_of jobs.new.items ≡ station.now.servers }
    ensures feeds { map poll_pass jobs.new.items ++ feeds.new.items ≡ feeds.old.items }
    ensures feeds_room { vec_capacity feeds.new ≡ vec_capacity feeds.old }
{
    let count = links.len();
    for _ in 0..count {
        let ServerRow { address, polls } = server_at(station, jobs.len());
        let link = links.remove(0);
        let pass = feeds.remove(0);
        jobs.push_reserved(PollJob {
            worker: PollWorker::new(address, polls, link, pass),
            work: UNASKED,
        });
    }
}

// A worker for the leap second file, where there is one, with the station's first moment and the pass of its feed.
fn assign_leap<L: Source + Drop>(
    file: &mut Option<L>,
    start: Local,
    feeds: &mut Vec<FeedPass>,
) -> Option<LeapJob<L>>
    requires feeds { length (option_to_list file.old) ≤ vec_len feeds.old }
    ensures file { option_map file_of result ≡ file.old }
    ensures emptied { file.new ≡ None }
    ensures begins { IfSome result (λ j. j.worker.start ≡ start) }
    ensures feeds { map leap_pass (option_to_list result) ++ feeds.new.items ≡ feeds.old.items }
    ensures feeds_room { vec_capacity feeds.new ≡ vec_capacity feeds.old }
{
    match file.take() {
        Some(log) => Some(LeapJob {
            worker: LeapWorker::new(log, start, feeds.remove(0)),
            work: UNREAD,
        }),
        None => None,
    }
}

// A responder for each link that the station serves on, numbered from 0. Each has the pass of a reader, the keys of the station
// and a gate of clients.
fn assign_responders<T: Link + Drop>(
    station: &Station,
    links: &mut Vec<T>,
    readers: &mut Vec<ReadPass>,
    gates: Vec<ClientGate>,
    jobs: &mut Vec<ServeJob<T>>,
)
    requires readers { vec_len links.old ≤ vec_len readers.old }
    requires gates { vec_len links.old ≤ vec_len gates }
    requires alike { All (λ gate. gate ≡ gate_of station.now) gates.items }
    requires few { vec_len links.old ≤ 8 }
    requires none { jobs.old.items ≡ [] }
    requires room { vec_len links.old ≤ vec_capacity jobs.old }
    ensures links { map link_of jobs.new.items ≡ links.old.items }
    ensures emptied { links.new.items ≡ [] }
    ensures links_room { vec_capacity links.new ≡ vec_capacity links.old }
    ensures readers { map serve_pass jobs.new.items ++ readers.new.items ≡ readers.old.items }
    ensures readers_room { vec_capacity readers.new ≡ vec_capacity readers.old }
    ensures numbers { map number_of jobs.new.items ≡ range_with_len 0 (vec_len links.old) }
    ensures none { All (λ j. j.work.second ≡ None) jobs.new.items }
    ensures keyed { All (λ j. keys_of j.responder.keys ≡ station.now.keys) jobs.new.items }
    ensures gated { All (λ j. j.responder.clients ≡ gate_of station.now) jobs.new.items }
{
    let keys = station.keys();
    let mut gates = gates;
    let count = links.len();
    for _ in 0..count {
        let number = jobs.len() as u32;
        let link = links.remove(0);
        let pass = readers.remove(0);
        let gate = gates.remove(0);
        jobs.push_reserved(ServeJob {
            responder: Responder::new(link, pass, number, keys, gate),
            work: LinkWork {
                first: UNSERVED,
                second: None,
            },
        });
    }
}

/// The workers of a station, each with its pass, in the room of a crew. They take the receivers, the logs and links and the passes:
/// room is left for what they give back.
pub fn assign_crew<L: Source + Drop, T: Link + Drop>(
    station: &Station,
    equipment: &mut Equipment<BoxedReceiver, L, T>,
    feeds: &mut Vec<FeedPass>,
    readers: &mut Vec<ReadPass>,
    gates: Vec<ClientGate>,
    crew: Crew<L, T>,
) -> Crew<L, T>
    requires station { IsStation station.now }
    requires blank { AreBlank stands_for least_start station.now.radios equipment.old.receivers.items }
    requires gear { IsWhole station.now equipment.old.gear }
    requires feeds { let file = length (option_to_list equipment.old.gear.leap) in
        vec_len feeds.old ≡ vec_len equipment.old.gear.logs + vec_len equipment.old.gear.servers + file }
    requires readers { vec_len readers.old ≡ vec_len equipment.old.gear.links }
    requires gates { vec_len gates ≡ vec_len equipment.old.gear.links }
    requires alike { All (λ gate. gate ≡ gate_of station.now) gates.items }
    requires room { let had = equipment.old.gear in
        HasRoomFor (vec_len had.logs) (vec_len had.servers) (vec_len had.links) crew }
    ensures assigned { let had = equipment.old in
        CrewAssigned stands_for least_start station.now had.receivers.items had.gear result }
    ensures emptied { let had = equipment.old.gear in
        HasRoomForGear (vec_len had.logs) (vec_len had.servers) (vec_len had.links) equipment.new.gear }
    ensures feeds { passes_of result.radios.items result.pollers.items result.leap ≡ feeds.old.items }
    ensures no_feeds { feeds.new.items ≡ [] }
    ensures feeds_room { vec_capacity feeds.new ≡ vec_capacity feeds.old }
    ensures readers { map serve_pass result.responders.items ≡ readers.old.items }
    ensures no_readers { readers.new.items ≡ [] }
    ensures readers_room { vec_capacity readers.new ≡ vec_capacity readers.old }
{
    let Equipment { receivers, gear } = equipment;
    let mut crew = crew;
    assign_radios(receivers, &mut gear.logs, feeds, &mut crew.radios);
    assign_pollers(station, &mut gear.servers, feeds, &mut crew.pollers);
    crew.leap = assign_leap(&mut gear.leap, station.start(), feeds);
    assign_responders(
        station,
        &mut gear.links,
        readers,
        gates,
        &mut crew.responders,
    );
    crew
}
