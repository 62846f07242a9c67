//! Reads a file piece by piece, up to a limit of bytes, and says how its reading ended.
#![tactic(auto)]

mod log_end;
mod pieces;
mod reader;
mod whole;

pub use log_end::LogEnd;
pub use pieces::{PieceTaker, read_pieces};
pub use reader::{FileEnd, FileReader, PIECE, Pulled};
pub use whole::read_whole;
