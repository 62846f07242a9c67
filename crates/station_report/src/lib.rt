//! Writes the report of a station that was served, or of a drill: the lines, and the status line, which names one of several
//! causes.
#![tactic(auto)]

mod cause;
mod done;
mod drill_text;
mod text;

pub use done::{Done, leap_feed};
pub use drill_text::finish_drilled;
pub use text::{finish_served, write_link_line};
