//! Tests of decoding, from the pulses of a log to its minutes, and of the making of logs. They stand in a crate of their own: a
//! change in them then re-proves none of the crates that they test.
//!
//! `shared` has what the others share; each is named after the crate, or the rule, that it tests.
#![tactic(auto)]

#[cfg(test)]
mod counting_tests;
#[cfg(test)]
mod decoder_tests;
#[cfg(test)]
mod drill_day_tests;
#[cfg(test)]
mod frame_tests;
#[cfg(test)]
mod leap_tests;
#[cfg(test)]
mod maker_tests;
#[cfg(test)]
mod minute_pair_tests;
#[cfg(test)]
mod pulse_log_tests;
#[cfg(test)]
mod radio_receiver_tests;
#[cfg(test)]
mod second_marks_tests;
#[cfg(test)]
mod shared;
