//! The station as one machine with no threads: entries, the page that is published, and what each reader has seen.
#![tactic(auto)]

mod step;
mod world;

pub use step::{Step, StepRefusal};
pub use world::{World, WorldOpen};
