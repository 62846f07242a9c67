//! Sources, links and an outside in memory, for tests: which of their calls fail is stated before.
//!
//! To read it in this order: `memory_outside`, `memory_source`, `memory_link`, with `event`, `book` and `ledger` (what they note).
//! `hold_gate` holds a worker.
#![tactic(auto)]

mod book;
mod event;
mod hold_gate;
mod known;
mod ledger;
mod memory_link;
mod memory_outside;
mod memory_source;

pub use event::{LinkEvent, Planned};
pub use hold_gate::HoldGate;
pub use known::{ANSWER, ANSWER_DIGITS, NOON, NOON_0, NOON_1, REQUEST, REQUEST_DIGITS};
pub use memory_link::MemoryLink;
pub use memory_outside::{FakeOpen, MemoryOutside, NamedLog};
pub use memory_source::MemorySource;
