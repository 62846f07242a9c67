//! The lines of a replay script: what each says, and the reading of one.
#![tactic(auto)]

mod datagram;
mod fields;
mod line;
mod read;

pub use datagram::Datagram;
pub use line::ScriptLine;
pub use read::read_line;
