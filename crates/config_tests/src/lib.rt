//! Tests of the station file: valid ones and faulty ones, and the result of each. Others open the logs and links that it names.
//! They have a crate of their own, so that neither the reader of station files nor the gear is proved once more with them.
//!
//! `tests` has the station file itself; each other module is named after what it tests.
#![tactic(auto)]

#[cfg(test)]
mod deny_tests;
#[cfg(test)]
mod gear_tests;
#[cfg(test)]
mod key_tests;
#[cfg(test)]
mod leap_tests;
#[cfg(test)]
mod tests;
