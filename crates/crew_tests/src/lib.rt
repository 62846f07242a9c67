//! Tests of the crew of a station: stations over fakes in memory, served in both phases. They stand in a crate of their own, so that the crew
//! is not proved once more with them.
//!
//! `fakes`, `stations` and `checks` have what the others share; each other module is named after what it tests.
#![tactic(auto)]

#[cfg(test)]
mod beside_tests;
#[cfg(test)]
mod checks;
#[cfg(test)]
mod fakes;
#[cfg(test)]
mod gate_tests;
#[cfg(test)]
mod key_tests;
#[cfg(test)]
mod leap_tests;
#[cfg(test)]
mod number_tests;
#[cfg(test)]
mod place_tests;
#[cfg(test)]
mod stations;
#[cfg(test)]
mod tests;
