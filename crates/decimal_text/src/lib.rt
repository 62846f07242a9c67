//! Whole numbers in decimal, each with one spelling: without a sign and without leading zeros.
#![tactic(auto)]

mod number;
mod whole;

pub use number::{Number, first_number};
pub use whole::whole_number;
