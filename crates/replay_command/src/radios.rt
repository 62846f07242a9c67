//! The radios of the station.
ghost use Rattle.std.specs.Prelude.{◌≡◌, ◌≤◌, ◌+◌, ◌++◌, ◌∷◌, [], List, IfOk, OnOk, IfSome, vec_len};
ghost use Rattle.minute_pair.specs.Years.{BelievesYears};
ghost use Rattle.journal_entry.specs.Valid.{IsValid};
ghost use Rattle.station_values.specs.Station.{RadioFields, StationFields};
ghost use Rattle.script_line.specs.declared.line.ScriptLine.{ScriptLine};
ghost use Rattle.script_line.specs.declared.line.ScriptLine.TheVariants.{Pulse, Swap};
ghost use Rattle.replay_command.specs.Replay as replay;
ghost use Rattle.replay_command.specs.Replay.{may_receive, may_swap, radio_of};
ghost use Rattle.station_gear.specs.Racks.{IsRack, left_of};
ghost use Rattle.replay_command.specs.KeptPlayer.{AreReady, Gives, HasReceivedPulse, HasRadios, with_radio};

use crate::radio::Radio;
use crate::{BoxedReceiver, Invalid};
use journal_entry::{Entry, What};
use radio_receiver::Receiver;
use station_gear::{Spare, four_of_each, take_of};
use station_values::Station;
use std::alloc::{AllocError, Global};
use tick_units::{Heard, Plan, Reduction};

// The radios of the station by number, and the receivers that are left for swaps.
#[derive(Drop)]
pub struct Radios<B: Drop> {
    fitted: Vec<Radio<B>>,
    left: Vec<Spare<B>>,
}

// The entry of an answer.
fn entry_received(feed: u32, heard: Option<Heard>) -> Option<Entry>
    requires { IfSome heard (λ reported. BelievesYears reported.kind) }
    ensures value { result ≡ replay.entry_received feed heard }
    ensures valid { IfSome result (λ e. IsValid (feed + 1) e) }
{
    let heard = heard?;
    Some(Entry {
        feed,
        at: heard.at,
        what: What::Heard(heard.kind),
    })
}

impl Radios<BoxedReceiver> {
    // The radios of a station, each with the first receiver of its plan that is left of the rack.
    pub fn new(
        alloc: Global,
        station: &Station,
        rack: Vec<BoxedReceiver>,
    ) -> Result<Radios<BoxedReceiver>, AllocError>
        requires { IsRack stands_for rack.items }
        ensures ready { IfOk result (λ radios. AreReady least_start radios) }
        ensures played { IfOk result (λ radios. HasRadios stands_for radios station.now []) }
    {
        let count = station.radios();
        let mut radios = Radios {
            fitted: Vec::with_capacity(alloc, count)?,
            left: four_of_each(alloc, rack)?,
        };
        for place in 0..count {
            let row = station.radio(place).unwrap();
            radios.add(row.plan, row.delay)?;
        }
        Ok(radios)
    }

    // One more radio, with this plan and this delay.
    fn add(&mut self, plan: Plan, delay_us: u32) -> Result<(), AllocError>
        requires ready { AreReady least_start self.old }
        requires left { 1 ≤ left_of plan self.old.left.items }
        requires delay { delay_us ≤ 100000 }
        ensures ready { AreReady least_start self.new }
        ensures added { (station : StationFields) (fields : RadioFields) → fields.plan ≡ plan →
            fields.delay ≡ delay_us → HasRadios stands_for self.old station [] →
            OnOk result (HasRadios stands_for self.new (with_radio station fields) []) }
    {
        let receiver = take_of(&mut self.left, plan).unwrap();
        self.fitted.push(Radio::new(receiver, plan, delay_us))?;
        Ok(())
    }

    // A pulse for a radio: the entry that is due to it.
    pub fn hear(&mut self, feed: u32, reduction: Reduction) -> Result<Option<Entry>, Invalid>
        requires { AreReady least_start self.old }
        ensures ready { AreReady least_start self.new }
        ensures count { vec_len self.new.fitted ≡ vec_len self.old.fitted }
        ensures heard { (station : StationFields) (lines : List ScriptLine) →
            HasRadios stands_for self.old station lines →
            Gives (may_receive (radio_of station feed) feed reduction lines)
            (HasReceivedPulse stands_for self.new station lines (Pulse feed reduction))
            (HasRadios stands_for self.new station lines) result }
        ensures valid { IfOk result (λ entry. IfSome entry (λ e. IsValid (vec_len self.old.fitted) e)) }
    {
        let place = feed as usize;
        if place >= self.fitted.len() {
            return Err(Invalid);
        }
        if reduction.at.get() < self.fitted[place].least {
            return Err(Invalid);
        }
        let heard = self.fitted[place].hear(reduction);
        Ok(entry_received(feed, heard))
    }

    // Drops a radio's receiver, and fits the next of its plan in its place.
    pub fn swap(&mut self, feed: u32) -> Result<(), Invalid>
        requires { AreReady least_start self.old }
        ensures ready { AreReady least_start self.new }
        ensures count { vec_len self.new.fitted ≡ vec_len self.old.fitted }
        ensures swapped { (station : StationFields) (lines : List ScriptLine) →
            HasRadios stands_for self.old station lines →
            Gives (may_swap station (radio_of station feed) lines)
            (λ _. HasRadios stands_for self.new station (lines ++ Swap feed ∷ []))
            (HasRadios stands_for self.new station lines) result }
    {
        let place = feed as usize;
        if place >= self.fitted.len() {
            return Err(Invalid);
        }
        let plan = self.fitted[place].plan;
        let Some(receiver) = take_of(&mut self.left, plan) else {
            return Err(Invalid);
        };
        self.fitted[place].swap(receiver);
        Ok(())
    }
}
