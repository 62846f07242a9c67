//! Files that are read line by line: each piece of bytes is cut into lines, and what they give is written as it comes.
//!
//! To read it in this order: `cutter` (lines of less than a stated length), `reading` (the one loop over a file), `by_line` (a file's lines
//! in turn), `log` (the bytes of a radio's log), `lines` (of entries).
#![tactic(auto)]

mod by_line;
mod cutter;
mod lines;
mod log;
mod reading;

pub use by_line::{ByLine, LineTaker};
pub use cutter::{Cut, LineCutter};
pub use lines::write_numbered_line;
pub use log::Decoding;
pub use reading::{Gives, Taker, ending_at, read_lines};
