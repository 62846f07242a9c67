//! The commands `decode` and `migrate`, which run through a file line by line.
#![tactic(auto)]

mod decode;
mod migrate;

pub use decode::open_and_decode;
pub use migrate::{JOURNAL_LIMIT, run_migrate};
