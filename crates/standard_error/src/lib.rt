//! What a person reads on standard error after a command has ended: what is wrong, where that can be named, and the help. No
//! proof speaks of these texts, and nothing else depends on them.
//!
//! To read it in this order: `message` (about a run that has ended), `names` (of feeds and links),
//! `fault` (a wrong command line), `fault_line` (a file that is not TOML), `bad_line` (a line that
//! is not valid), `widths` (a log without a minute), `beginning` (a run that begins), `texts` (all of them). `report` and `note` put a text together
//! from what came of a run and its files, and write it. A closed standard error changes nothing.
#![tactic(auto)]

mod bad_line;
mod beginning;
mod fault;
mod fault_line;
mod message;
mod names;
mod note;
mod report;
mod texts;
mod widths;

pub use bad_line::{LeapRow, LineSeeker, log_fault, row_fault};
pub use beginning::Beginning;
pub use fault_line::{TomlFault, toml_fault};
pub use message::{BadLine, Detail, Message, file_named};
pub use names::{file_of, is_leap_file};
pub use note::write_beginning;
pub use report::write_report;
pub use texts::NO_MINUTE;
pub use widths::{SAMPLE_BYTES, no_minute_text};
