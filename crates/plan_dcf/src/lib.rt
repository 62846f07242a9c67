//! Frames of DCF77, by PTB's description of the code.
//!
//! A segment runs from one minute mark up to the next. It is refused with the least number of a rule that it breaks:
//!
//! | rule | broken where |
//! |---|---|
//! | 1 | two neighbouring marks do not start 900000 to 1100000 microseconds apart |
//! | 2 | a width is in no class |
//! | 3 | there are neither 59 nor 60 marks |
//! | 10 | the start bit is 1 |
//! | 11 | the two bits of the time zone are equal |
//! | 12 | the time bit is 0 |
//! | 13, 14, 15 | the parity of the minute, of the hour or of the date is odd |
//! | 16, 17, 18 | the minute, the hour or the day of the month is invalid |
//! | 19 | the weekday is 0 |
//! | 20, 21 | the month or the year is invalid |
//! | 22 | the year has no such month and day |
//! | 23 | the weekday is not that of the date |
//! | 24 | a 60th mark is there, or is missing, against what is announced, or it is 1 |
//!
//! Where one of the rules 16 to 22 is broken, a later one on a date counts as unbroken.
#![tactic(auto)]

mod dates;
mod fields;
mod marks;
mod reading;
mod rules;
mod sending;
mod spelling;

pub use reading::{Dcf, Frame, read};
pub use spelling::spell;
