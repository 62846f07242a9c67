//! Pulse logs: a reader of their bytes, one by one or line by line, and the writing of a line.
//!
//! To read it in this order: `taken` (what came of bytes), `reader` (the public type), `line` (byte by byte), `whole` and
//! `digits` (a whole line at once), `writer`.
#![tactic(auto)]

mod digits;
mod line;
mod reader;
mod taken;
mod whole;
mod writer;

pub use reader::{BadLine, LineReader};
pub use taken::Taken;
pub use writer::write_line;
