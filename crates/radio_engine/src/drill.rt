//! `drill`: makes up a day of three radios in memory, serves it, and reports the result.
ghost use Rattle.std.specs.Prelude.{◌≡◌, ℕ, ◌<◌, ◌≤◌, ◌⊎◌, IfOk, false};
ghost use Rattle.station_report.specs.DrillScaffold.{HasDayGear, HasDrilled};
ghost use Rattle.station_report.specs.Drilling.{Drills};
ghost use Rattle.command_ends.specs.Effects.{effect_of};
ghost use Rattle.command_ends.specs.Reports.{Reports, status_in};
ghost use Rattle.command_ends.specs.Unopened.{Lacks};
ghost use Rattle.station_gear.specs.Racks.{IsRack};
ghost use Rattle.station_values.specs.Station.{one_of_each};
ghost use Rattle.feed_workers.specs.Served.{AreBlank};
ghost use Rattle.station_gear.specs.Opens.{IsWhole};

use command_ends::{Ending, Known, Outcome, finish};
use drill_day::make_logs;
use memory_links::SureSource;
use outside_traits::{Outside, Sink};
use radio_receiver::{BoxedReceiver, Receiver};
use station_crew::{Budget, Ended, Equipment, Orders, serve_station};
use station_gear::{Gear, fit_radios};
use station_report::{Done, finish_drilled};
use station_values::Station;
use std::alloc::{AllocError, Global};
use std::sync::Wait;
use std::thread::Threads;

// No link is served.
const NO_HEARING: Budget = Budget {
    during: 0,
    after: 0,
};

// The logs of a day, and no link.
fn day_gear<R: Threads + Sync, T: Drop>(
    rt: &R,
    alloc: Global,
    seed: u32,
) -> Result<Gear<SureSource, T>, AllocError>
    ensures { IfOk result (λ gear. HasDayGear seed gear) }
{
    Ok(Gear {
        logs: make_logs(rt, alloc, seed)?,
        leap: None,
        servers: Vec::new(alloc),
        links: Vec::new(alloc),
    })
}

// The receivers of the rack, and the logs of a day.
fn day_equipment<R: Threads + Sync, T: Drop>(
    rt: &R,
    alloc: Global,
    station: &Station,
    seed: u32,
    rack: Vec<BoxedReceiver>,
) -> Result<Equipment<BoxedReceiver, SureSource, T>, AllocError>
    requires { IsRack stands_for rack.items }
    ensures receivers { IfOk result (λ equipment. AreBlank stands_for least_start station.now.radios equipment.receivers.items) }
    ensures gear { IfOk result (λ equipment. HasDayGear seed equipment.gear) }
{
    Ok(Equipment {
        receivers: fit_radios(alloc, station, rack)?,
        gear: day_gear(rt, alloc, seed)?,
    })
}

// Serves a station of three radios on the logs of a day, with the outside's gate.
fn serve_day<R: Threads + Wait + Sync, O: Outside>(
    rt: &R,
    alloc: Global,
    station: &Station,
    limit: u32,
    equipment: Equipment<BoxedReceiver, SureSource, O::Net>,
    outside: &mut O,
) -> Result<Done, AllocError>
    requires limit { (0 < limit) × (limit ≤ 4194304) }
    requires station { station.now ≡ one_of_each }
    requires blank { AreBlank stands_for least_start station.now.radios equipment.receivers.items }
    requires gear { IsWhole station.now equipment.gear }
    requires gate { O.gate_out outside.old ≡ false }
    ensures same { O.state outside.new ≡ O.state outside.old }
    ensures gate { O.gate_out outside.new ≡ O.gate_out outside.old }
    ensures drilled { (seed : ℕ) → HasDayGear seed equipment.gear → IfOk result (λ done. HasDrilled seed limit done) }
{
    let orders = Orders {
        limit,
        budget: NO_HEARING,
    };
    let gate = outside.gate();
    let ended = serve_station(rt, alloc, &gate, station, orders, equipment);
    outside.give_back_gate(gate);
    match ended {
        Ok(ended) => {
            let Ended { journal, work, .. } = ended;
            Ok(Done { journal, work })
        }
        Err(_) => Err(AllocError),
    }
}

// Makes up a day, serves it with receivers of the rack, and writes its report after that.
pub fn run_drill<R: Threads + Wait + Sync, O: Outside, K: Sink>(
    rt: &R,
    alloc: Global,
    seed: u32,
    limit: u32,
    rack: Vec<BoxedReceiver>,
    outside: &mut O,
    out: &mut K,
) -> Outcome
    requires limit { (0 < limit) × (limit ≤ 4194304) }
    requires rack { IsRack stands_for rack.items }
    requires gate { O.gate_out outside.old ≡ false }
    ensures gate { O.gate_out outside.new ≡ O.gate_out outside.old }
    ensures runs { let effect = effect_of (O.state outside.old) (O.state outside.new) (K.state out.old)
        (K.state out.new) (status_in result.report) in
        Lacks effect ⊎ Drills seed limit effect }
    ensures reports { Reports result.report (K.state out.old) (K.state out.new) }
{
    let Ok(station) = Station::one_of_each(alloc) else {
        return Outcome {
            report: finish(Ending::NoMemory, out),
            known: Known::nothing(),
        };
    };
    let Ok(equipment) = day_equipment(rt, alloc, &station, seed, rack) else {
        return Outcome {
            report: finish(Ending::NoMemory, out),
            known: Known::nothing(),
        };
    };
    match serve_day(rt, alloc, &station, limit, equipment, outside) {
        Ok(done) => Outcome {
            report: finish_drilled(&station, &done, limit, out),
            known: Known::nothing(),
        },
        Err(AllocError) => Outcome {
            report: finish(Ending::NoMemory, out),
            known: Known::nothing(),
        },
    }
}
