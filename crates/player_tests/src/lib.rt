//! Tests of recorded scripts: what their lines give, one after the other. They have a crate of their own, so that the player is
//! not proved once more with them.
#![tactic(auto)]

#[cfg(test)]
mod script_client_tests;
#[cfg(test)]
mod script_leap_tests;
#[cfg(test)]
mod script_tests;
#[cfg(test)]
mod shared;
