//! Tests of the engine: whole runs of every command over the fakes, through the one call that the program makes, and lines of links whose
//! counts no run reaches. They stand in a crate of their own, so that a change of one proves none of the engine anew.
//!
//! Most tests are scenes: texts that say what a run is given and what it must give; `scene` has their form. `runs` makes the one call. The others
//! are named after the command, or the circumstance, that they test.
#![tactic(auto)]

#[cfg(test)]
mod beside_tests;
#[cfg(test)]
mod broken_tests;
#[cfg(test)]
mod counting_tests;
#[cfg(test)]
mod decode_tests;
#[cfg(test)]
mod drill_tests;
#[cfg(test)]
mod fault_tests;
#[cfg(test)]
mod gate_tests;
#[cfg(test)]
mod leap_tests;
#[cfg(test)]
mod line_tests;
#[cfg(test)]
mod migrate_tests;
#[cfg(test)]
mod rack_tests;
#[cfg(test)]
mod replay_tests;
#[cfg(test)]
mod row_tests;
#[cfg(test)]
mod runs;
#[cfg(test)]
mod scene;
#[cfg(test)]
mod scene_tests;
#[cfg(test)]
mod serve_tests;
