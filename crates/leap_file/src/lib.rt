//! The list of leap seconds that IERS and NIST publish as a file, `leap-seconds.list`: a reader of its bytes, one by one.
#![tactic(auto)]

mod line;
mod part;
mod reader;
mod row;

pub use reader::{BadLeap, LeapReader};
