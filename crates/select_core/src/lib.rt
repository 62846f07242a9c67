//! Selection: the interval that enough sources of the time agree on.
//!
//! To read it in this order: `chime` (what selection receives of a source), `intersection` (the interval, from a list),
//! `points` and `ends` (points in order, and where enough intervals are open), `narrowing` (the interval by these), `unanimous`
//! (where all agree), `sweep` (the same while sources come and go).
#![tactic(auto)]

mod chime;
mod ends;
mod intersection;
mod narrowing;
mod points;
mod sweep;
mod unanimous;

pub use chime::{Candidate, Chime};
pub use intersection::select;
pub use sweep::Sweep;
