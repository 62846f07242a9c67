//! `serve`: serves a station, and then writes its journal, how its links ended, and the page of the journal.
ghost use Rattle.std.specs.Prelude.{◌≡◌, ◌<◌, ◌≤◌, ◌⊎◌, IfOk, false};
ghost use Rattle.station_report.specs.Crewing.{TriesServe, subject_of};
ghost use Rattle.command_ends.specs.Effects.{effect_of};
ghost use Rattle.command_ends.specs.Reports.{Reports, status_in};
ghost use Rattle.command_ends.specs.Unopened.{Lacks};
ghost use Rattle.station_report.specs.Serving.{RunsServe};
ghost use Rattle.station_gear.specs.Racks.{IsRack};
ghost use Rattle.feed_workers.specs.Served.{AreBlank};
ghost use Rattle.station_gear.specs.Gears.{IsEmptyFor};

use command_ends::{
    Ending, Known, Outcome, STATION_LIMIT, Subject, finish, finish_at, judge, open_station,
};
use outside_traits::{Outside, Sink};
use radio_receiver::{BoxedReceiver, Receiver};
use station_crew::{Ended, Equipment, Orders, serve_station};
use station_gear::{Gear, Missing, fit_radios, give_back_gear, open_gear};
use station_report::{Done, finish_served, leap_feed};
use station_values::Station;
use std::alloc::{AllocError, Global};
use std::sync::Wait;
use std::thread::Threads;

// The subject of the status line for a missing log or link.
fn subject_of(station: &Station, missing: Missing) -> Subject
    ensures { result ≡ subject_of station.now missing }
{
    match missing {
        Missing::Feed(number) => Subject::Feed(number),
        Missing::LeapFile => Subject::Feed(leap_feed(station)),
        Missing::Link(number) => Subject::Link(number),
    }
}

fn make_equipment<L: Drop, T: Drop>(
    alloc: Global,
    station: &Station,
    rack: Vec<BoxedReceiver>,
) -> Result<Equipment<BoxedReceiver, L, T>, AllocError>
    requires { IsRack stands_for rack.items }
    ensures receivers { IfOk result (λ equipment. AreBlank stands_for least_start station.now.radios equipment.receivers.items) }
    ensures gear { IfOk result (λ equipment. IsEmptyFor station.now equipment.gear) }
{
    Ok(Equipment {
        receivers: fit_radios(alloc, station, rack)?,
        gear: Gear::with_room(alloc, station)?,
    })
}

// Serves a station that was read: makes its equipment, opens its logs and links, has it served with the outside's gate, and gives all
// back.
fn serve<R: Threads + Wait + Sync, O: Outside>(
    rt: &R,
    alloc: Global,
    station: &Station,
    orders: Orders,
    rack: Vec<BoxedReceiver>,
    outside: &mut O,
) -> Result<Done, Ending>
    requires limit { (0 < orders.limit) × (orders.limit ≤ 4194304) }
    requires rack { IsRack stands_for rack.items }
    requires gate { O.gate_out outside.old ≡ false }
    ensures gate { O.gate_out outside.new ≡ O.gate_out outside.old }
    ensures tried { TriesServe station.now orders (O.state outside.old) (O.state outside.new) result }
{
    let Ok(mut equipment) = make_equipment(alloc, station, rack) else {
        return Err(Ending::NoMemory);
    };
    if let Err(missing) = open_gear(outside, station, &mut equipment.gear) {
        give_back_gear(outside, equipment.gear);
        return Err(Ending::NotOpened(subject_of(station, missing)));
    }
    let gate = outside.gate();
    let ended = serve_station(rt, alloc, &gate, station, orders, equipment);
    outside.give_back_gate(gate);
    match ended {
        Ok(ended) => {
            let Ended {
                journal,
                gear,
                work,
            } = ended;
            give_back_gear(outside, gear);
            Ok(Done { journal, work })
        }
        Err(gear) => {
            give_back_gear(outside, gear);
            Err(Ending::NoMemory)
        }
    }
}

// Serves a station by its name, and writes what was done once all is given back.
pub fn run_serve<R: Threads + Wait + Sync, O: Outside, K: Sink>(
    rt: &R,
    alloc: Global,
    name: &str,
    orders: Orders,
    rack: Vec<BoxedReceiver>,
    outside: &mut O,
    out: &mut K,
) -> Outcome
    requires limit { (0 < orders.limit) × (orders.limit ≤ 4194304) }
    requires rack { IsRack stands_for rack.items }
    requires gate { O.gate_out outside.old ≡ false }
    ensures gate { O.gate_out outside.new ≡ O.gate_out outside.old }
    ensures runs { let effect = effect_of (O.state outside.old) (O.state outside.new) (K.state out.old)
        (K.state out.new) (status_in result.report) in
        Lacks effect ⊎ RunsServe name.now orders effect }
    ensures reports { Reports result.report (K.state out.old) (K.state out.new) }
{
    let Ok(mut text) = Vec::with_capacity(alloc, STATION_LIMIT) else {
        return Outcome {
            report: finish(Ending::NoMemory, out),
            known: Known::nothing(),
        };
    };
    let Ok(end) = open_station(name, &mut text, outside) else {
        return Outcome {
            report: finish(Ending::NotOpened(Subject::Station), out),
            known: Known::nothing(),
        };
    };
    let station = match judge(alloc, end, text.as_slice()) {
        Ok(station) => station,
        Err(obstacle) => return Outcome {
            report: finish_at(obstacle, out),
            known: Known::of_text(text),
        },
    };
    match serve(rt, alloc, &station, orders, rack, outside) {
        Ok(done) => Outcome {
            report: finish_served(&station, &done, orders.limit, out),
            known: Known::of_station(station),
        },
        Err(ending) => Outcome {
            report: finish(ending, out),
            known: Known::of_station(station),
        },
    }
}
