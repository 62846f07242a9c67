//! Tests of what threads do: the workers of feeds, responders, the journal that they share, and the station as one machine
//! without threads. They stand in a crate of their own, so that none of these crates is proved once more with them.
//!
//! `shared`, `serving` and `minutes` have what the others share; each is named after what it tests.
#![tactic(auto)]

#[cfg(test)]
mod beside_tests;
#[cfg(test)]
mod gate_tests;
#[cfg(test)]
mod journal_tests;
#[cfg(test)]
mod leap_tests;
#[cfg(test)]
mod minutes;
#[cfg(test)]
mod poller_tests;
#[cfg(test)]
mod radio_tests;
#[cfg(test)]
mod responder_tests;
#[cfg(test)]
mod serving;
#[cfg(test)]
mod shared;
#[cfg(test)]
mod world_tests;
