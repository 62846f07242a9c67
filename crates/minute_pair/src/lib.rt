//! Minutes of a log. Its marks are cut into segments, and the code plan judges each closed segment. A minute is believed where
//! two valid frames in a row agree by their code and by the host's counter.
#![tactic(auto)]

mod answers;
mod minutes;
mod pairing;

pub use minutes::PairingOf;
pub use pairing::Pairing;

#[cfg(test)]
mod leap_tests;
