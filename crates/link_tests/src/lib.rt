//! Tests of units, and of links and outsides: the fakes in memory, files and sockets. They use only public items. They stand in a
//! crate of their own: a change in them then re-proves none of the crates that nearly all others need.
//!
//! Each module is named after what it tests.
#![tactic(auto)]

#[cfg(test)]
mod memory_tests;
#[cfg(test)]
mod planned_tests;
#[cfg(test)]
mod real_tests;
#[cfg(test)]
mod service_tests;
#[cfg(test)]
mod udp_tests;
#[cfg(test)]
mod unit_tests;
