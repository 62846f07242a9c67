//! Frames of WWVB, by NIST Special Publication 432.
//!
//! A segment runs from the second of two markers in a row up to the next such one. It is refused with the least number of a
//! rule that it breaks:
//!
//! | rule | broken where |
//! |---|---|
//! | 1 | two neighbouring marks, or the last and the closing one, do not start 900000 to 1100000 microseconds apart |
//! | 2 | a width is in no class |
//! | 3 | there are not 60 marks |
//! | 50 | a marker is not Long, or another place is |
//! | 51 | a place that is always 0 is 1 |
//! | 52 | the sign of DUT1 is neither plus nor minus |
//! | 53, 54, 55 | the minute, the hour or the year is invalid |
//! | 56 | the year has no such day |
//! | 58 | a leap second is announced in the last minute of a month |
//!
//! Where one of the rules 53 to 56 is broken, rule 58 counts as unbroken.
#![tactic(auto)]

mod dates;
mod fields;
mod marks;
mod reading;
mod rules;
mod sending;
mod spelling;

pub use reading::{Frame, Wwvb, read};
pub use spelling::spell;
