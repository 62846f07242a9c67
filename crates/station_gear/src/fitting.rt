//! Fits receivers with the delays of a station's radios.
ghost use Rattle.std.specs.Prelude.{◌≡◌, ◌≤◌, ◌++◌, ◌∷◌, [], ◌+◌, ◌<◌, All, IfOk, List, map, vec_len, vec_capacity};
ghost use Rattle.radio_receiver.specs.Histories.{History, with_delay};
ghost use Rattle.station_values.specs.Station.{RadioFields};
ghost use Rattle.station_gear.specs.Racks.{AreOf, HasFitted, IsRack, left_of, silent};

use crate::rack::{Spare, four_of_each, take_of};
use radio_receiver::{BoxedReceiver, Receiver};
use station_values::Station;
use std::alloc::{AllocError, Global};
use tick_units::Plan;

/// Fits a blank receiver with a delay, in microseconds.
pub fn fit(receiver: BoxedReceiver, delay_us: u32) -> BoxedReceiver
    requires blank { least_start receiver ≡ 0 }
    requires delay { delay_us ≤ 100000 }
    ensures fitted { (h : History) → stands_for receiver h → stands_for result (with_delay h delay_us) }
    ensures least { least_start result ≡ 0 }
{
    let mut receiver = receiver;
    receiver.fit(delay_us);
    receiver
}

// One more radio, with this plan and this delay: the first receiver of its plan that is left, fitted.
fn add(
    spares: &mut Vec<Spare<BoxedReceiver>>,
    receivers: &mut Vec<BoxedReceiver>,
    plan: Plan,
    delay_us: u32,
)
    requires spares { All (λ spare. least_start spare.receiver ≡ 0) spares.old.items }
    requires receivers { All (λ b. least_start b ≡ 0) receivers.old.items }
    requires left { 1 ≤ left_of plan spares.old.items }
    requires delay { delay_us ≤ 100000 }
    requires room { vec_len receivers.old < vec_capacity receivers.old }
    ensures spares { All (λ spare. least_start spare.receiver ≡ 0) spares.new.items }
    ensures receivers { All (λ b. least_start b ≡ 0) receivers.new.items }
    ensures length { vec_len receivers.new ≡ vec_len receivers.old + 1 }
    ensures room { vec_capacity receivers.new ≡ vec_capacity receivers.old }
    ensures added { (radios : List RadioFields) (fields : RadioFields) → fields.plan ≡ plan → fields.delay ≡ delay_us →
        HasFitted stands_for receivers.old.items spares.old.items radios →
        HasFitted stands_for receivers.new.items spares.new.items (radios ++ fields ∷ []) }
{
    let receiver = take_of(spares, plan).unwrap();
    receivers.push_reserved(fit(receiver, delay_us));
}

/// The receivers of a station's radios, in the station's order: each is of its radio's plan and fitted with its delay. This takes
/// the first blank receivers of each plan from the rack, in its order, and drops the others.
///
/// # Errors
/// There is no memory.
pub fn fit_radios(
    alloc: Global,
    station: &Station,
    rack: Vec<BoxedReceiver>,
) -> Result<Vec<BoxedReceiver>, AllocError>
    requires { IsRack stands_for rack.items }
    ensures blank { IfOk result (λ receivers. All (λ b. least_start b ≡ 0) receivers.items) }
    ensures fitted { IfOk result (λ receivers. AreOf stands_for receivers.items (map silent station.now.radios)) }
{
    let mut spares = four_of_each(alloc, rack)?;
    let count = station.radios();
    let mut receivers = Vec::with_capacity(alloc, count)?;
    for place in 0..count {
        let row = station.radio(place).unwrap();
        add(&mut spares, &mut receivers, row.plan, row.delay);
    }
    Ok(receivers)
}
