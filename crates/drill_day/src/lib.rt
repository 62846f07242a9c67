//! The day of a drill: pulse logs as a receiver would have written them that received a sender's run of minutes. The starts jitter,
//! and some of the minutes have a damaged second. And whether a journal names a leap second.
//!
//! To read it in this order: `minutes` (what a log says), `seconds` (by which reductions), `jitter` (how late), `writer`, `maker` (one
//! log), `day` (a log for each code plan, in memory), `leaps`.
#![tactic(auto)]

mod day;
mod jitter;
mod leaps;
mod maker;
mod minutes;
mod seconds;
mod writer;

pub use day::make_logs;
pub use leaps::names_no_leap;
pub use maker::make;

#[cfg(test)]
mod tests;
