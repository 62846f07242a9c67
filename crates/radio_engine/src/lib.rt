//! The one call that the program makes, from its arguments to its status.
#![tactic(auto)]

mod drill;
mod run;
mod serve;

pub use command_ends::{Outcome, Status};
pub use command_words::{Command, WordsFault};
pub use run::{Answer, end_without_memory, run_station, run_to_outcome};
pub use station_report::write_link_line;
