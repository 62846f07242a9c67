//! The crew of a station: the workers of its feeds beside the responders of its links, in two phases, over one shared page and one
//! journal.
//!
//! To read it in this order: `station` (the public call, and all memory), `named` (the station in its hub, from phase to phase),
//! `assigning` (each worker gets its pass), `phases` (the threads), `informing` (what responders learn between the phases), `collecting`
//! (what the workers give back). `crew` and `jobs` have what these pass on.
#![tactic(auto)]

mod assigning;
mod collecting;
mod crew;
mod informing;
mod jobs;
mod named;
mod phases;
mod station;

pub use crew::{Ended, Equipment};
pub use feed_workers::{Budget, LinkWork, Orders, Work};
pub use station::serve_station;
