//! The page that threads share: any thread reads it without a lock, and one pass at a time publishes the next.
//!
//! To read it in this order: `cell` (the public type), `view` (what a pass knows), `passes`, `steps` (the rule of the table),
//! `opening`, `loading` and `storing` (reading and publishing). `writer` is of the tests.
#![tactic(auto)]

mod cell;
mod loading;
mod opening;
mod passes;
mod steps;
mod storing;
#[cfg(test)]
mod tests;
mod view;
#[cfg(test)]
mod writer;

pub use cell::PageCell;
pub use loading::Again;
pub use opening::{CellOpen, CellParts};
pub use passes::{BatonPass, FeedPass, ReadPass, Receipt};
pub use view::{Claim, View, Watch};
