// What the parts of this crate pass on, in the order in which a run of a station has it.

use crate::jobs::{LeapJob, PollJob, RadioJob, ServeJob};
use feed_workers::Work;
use kiss_gate::ClientGate;
use page_cell::CellParts;
use station_gear::Gear;
use std::alloc::Global;
use verdict_journal::Journal;

/// What a station is served with: the receivers of its radios, and its logs and links or room for them.
#[derive(Drop)]
pub struct Equipment<B: Drop, L: Drop, T: Drop> {
    pub receivers: Vec<B>,
    pub gear: Gear<L, T>,
}

/// The memory that a station is served in: the parts of its cell, room for its workers and for what they did, and a gate of clients
/// for each link. The hub takes the room for its entries from `alloc`.
#[derive(Drop)]
pub struct Reserved<L: Drop, T: Drop> {
    pub alloc: Global,
    pub parts: CellParts,
    pub crew: Crew<L, T>,
    pub work: Work,
    pub gates: Vec<ClientGate>,
}

/// The workers of a station, each in the station's order.
#[derive(Drop)]
pub struct Crew<L: Drop, T: Drop> {
    pub radios: Vec<RadioJob<L>>,
    pub pollers: Vec<PollJob<T>>,
    pub leap: Option<LeapJob<L>>,
    pub responders: Vec<ServeJob<T>>,
}

/// What a station leaves: its journal, its logs and links, and what was done with each, in the station's order.
#[derive(Drop)]
pub struct Ended<L: Drop, T: Drop> {
    pub journal: Journal,
    pub gear: Gear<L, T>,
    pub work: Work,
}
