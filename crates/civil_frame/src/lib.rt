//! The civil date and time that a frame says, and the rules on their numbers that the code plans share.
#![tactic(auto)]

mod civil_time;
mod ranges;

pub use civil_time::{CivilTime, TimeOfDay, local_second};
pub use ranges::breaks_year_range;
