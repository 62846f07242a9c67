//! The traits of what a station meets outside, each with a count of its faults.
//!
//! To read it in this order: `outside` (the traits `Source`, `Sink`, `Outside`), `link` (`Link`, `Gate`), `text` (a text written to a sink). Those of the host are in
//! `host_links`, and those in memory, which tests and drills use, in `memory_links`.
#![tactic(auto)]

mod link;
mod outside;
mod text;

pub use link::{Arrival, Gate, Hearing, Link, OpenGate};
pub use outside::{Address, Failed, Outside, Sink, Source};
pub use text::write_all;
