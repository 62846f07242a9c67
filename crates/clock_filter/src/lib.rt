//! The clock filter of RFC 5905 (section 10): what the last eight samples of a source say of the time, and how far that may be
//! from the truth.
//!
//! To read it in this order: `filter` (the public type: the last eight samples), `taken` (one of them), `held` (those that
//! count, by delay), `figures` (what they say), `distances` (how far from the truth), `rate` (of the host's counter), `ready`
//! (figures for later moments), `roots`.
#![tactic(auto)]

mod distances;
mod figures;
mod filter;
mod held;
mod rate;
mod ready;
mod roots;
mod taken;

pub use distances::{distance, is_fit, root_delay, root_dispersion};
pub use figures::Figures;
pub use filter::Filter;
pub use ready::Ready;
pub use taken::Taken;
