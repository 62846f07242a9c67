//! The gear of a station, and the part of it that cannot be opened.
ghost use Rattle.std.specs.Prelude.{IfOk};
ghost use Rattle.station_gear.specs.Gears.{IsEmptyFor};

use station_values::Station;
use std::alloc::{AllocError, Global};

/// The logs and links of a station that are open: its radios' logs, its leap second file, its servers' links, and the links that
/// it serves on. Each kind is in the station's order.
#[derive(Drop)]
pub struct Gear<L: Drop, T: Drop> {
    pub logs: Vec<L>,
    pub leap: Option<L>,
    pub servers: Vec<T>,
    pub links: Vec<T>,
}

/// What could not be opened.
#[derive(Clone, Copy, Debug, PartialEq, Eq)]
pub enum Missing {
    /// The log of a radio or the link of a server, by the number of its feed. Radios come first, from 0, then servers.
    Feed(u32),
    /// The leap second file.
    LeapFile,
    /// A link that the station serves on, by its place, from 0.
    Link(u32),
}

impl<L: Drop, T: Drop> Gear<L, T> {
    /// An empty gear with room for all that the station has, so that no opening takes memory.
    pub fn with_room(alloc: Global, station: &Station) -> Result<Gear<L, T>, AllocError>
        ensures { IfOk result (λ gear. IsEmptyFor station.now gear) }
    {
        Ok(Gear {
            logs: Vec::with_capacity(alloc, station.radios())?,
            leap: None,
            servers: Vec::with_capacity(alloc, station.servers())?,
            links: Vec::with_capacity(alloc, station.links())?,
        })
    }
}
