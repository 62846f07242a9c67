//! Tests of what reads and writes texts: numbers, lines, the list of leap seconds, scripts, the arguments of a command line. Also
//! files and sinks, the entries of a journal, and the messages on standard error. They stand in a crate of their own: a change in
//! them then re-proves none of the crates that they test.
//!
//! `shared` has what the others share; each is named after what it tests.
#![tactic(auto)]

#[cfg(test)]
mod command_words_tests;
#[cfg(test)]
mod cutter_tests;
#[cfg(test)]
mod decimal_text_tests;
#[cfg(test)]
mod file_reader_tests;
#[cfg(test)]
mod journal_entry_tests;
#[cfg(test)]
mod leap_file_tests;
#[cfg(test)]
mod leap_list_tests;
#[cfg(test)]
mod message_tests;
#[cfg(test)]
mod numbered_tests;
#[cfg(test)]
mod refused_words_tests;
#[cfg(test)]
mod script_line_tests;
#[cfg(test)]
mod shared;
#[cfg(test)]
mod writing_tests;
