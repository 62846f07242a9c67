//! The workers of feeds: a radio's reads its log, a server's polls it, and a leap second file's reads it. Each keeps the entries
//! that are due in the journal. What the workers of a station did, those of its links too, is one record.
//!
//! To read it in this order: `work` (what a worker leaves), `keeping` (how an entry is kept), `leap` (the shortest worker),
//! `radio`, `poller`, `crew` (what all workers of a station left).
#![tactic(auto)]

mod crew;
mod keeping;
mod leap;
mod poller;
mod radio;
mod work;

pub use crew::{Budget, LinkWork, Orders, Work};
pub use file_reader::LogEnd;
pub use leap::LeapWorker;
pub use poller::PollWorker;
pub use radio::{RadioWorker, WorkerOf};
pub use work::{LogWork, PollEnd, PollWork};

#[cfg(test)]
mod tests;
