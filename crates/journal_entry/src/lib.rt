//! The entries of a journal, by themselves and numbered, and the one text of each; a journal's lines; and the writer of such texts.
//!
//! To read it in this order: `entry` and `numbered` (the types), `valid` (which entries feeds make), `keywords`, `write` and
//! `writer` (texts), `fields`, `read` and `line` (back from them).
#![tactic(auto)]

mod entry;
mod fields;
mod keywords;
mod line;
mod numbered;
mod read;
mod valid;
mod write;
mod writer;

pub use entry::{Entry, What};
pub use line::{Form, JournalLine, read_line};
pub use numbered::Numbered;
pub use read::{read_entry, read_numbered};
pub use valid::is_valid;
pub use write::{write_entry, write_numbered, write_unnumbered};
pub use writer::{ENTRY_ROOM, LINE_ROOM, TextWriter};
