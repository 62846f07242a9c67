//! The arguments of a command line, read with `clap`.
#![tactic(auto)]

mod arguments;
mod commands;
mod faults;
mod grammar;
mod reading;
mod rows;

pub use commands::{Command, Fault, WordsFault};
pub use reading::read_words;
