//! Second marks: what the widths of the reductions of the carrier say, by the amplitude codes of DCF77, MSF and WWVB.
#![tactic(auto)]

mod held;
mod marker;

pub use held::{Held, mark_next};
pub use marker::Marker;
