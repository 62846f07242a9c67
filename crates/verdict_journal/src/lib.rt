//! The journal that threads append to, under one lock, beside the page that they read without it.
#![tactic(auto)]

mod hub;
mod journal;
mod name;
mod state;

pub use hub::{Hub, HubOpen, HubParts};
pub use journal::Journal;
pub use name::HubName;
pub use state::{Full, JournalState};
