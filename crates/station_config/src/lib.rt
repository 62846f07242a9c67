//! A station and its reader in one crate: what a station is (`station_values`), and how it is read from a file (`station_reader`). It
//! has no items of its own, so that the crates which only name a station need not wait for the reader.
#![tactic(auto)]

pub use station_reader::{KeyText, StationFault, read_station};
pub use station_values::{
    DeniedNet, LinkRow, Parts, Radio, RadioRow, ServerRow, SharedKey, Station, TopNumbers,
};
