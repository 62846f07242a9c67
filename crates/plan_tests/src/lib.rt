//! Tests of the code plans, and of what they stand on: civil minutes, what the frames share, and the frames of DCF77, MSF and
//! WWVB. They stand in a crate of their own: a change in them then re-proves none of the crates that they test.
//!
//! `shared` has what the others share; each is named after the crate that it tests.
#![tactic(auto)]

#[cfg(test)]
mod civil_frame_tests;
#[cfg(test)]
mod civil_minute_tests;
#[cfg(test)]
mod frame_rules_tests;
#[cfg(test)]
mod plan_dcf_tests;
#[cfg(test)]
mod plan_msf_tests;
#[cfg(test)]
mod plan_wwvb_tests;
#[cfg(test)]
mod shared;
