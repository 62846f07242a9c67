//! Frames of MSF, by NPL's description of the 60 kHz time and date code.
//!
//! A segment runs from one minute mark up to the next. It is refused with the least number of a rule that it breaks:
//!
//! | rule | broken where |
//! |---|---|
//! | 1 | two neighbouring marks, or the last and the closing one, do not start 900000 to 1100000 microseconds apart |
//! | 2 | a width is in no class |
//! | 3 | there are not 60 marks |
//! | 30 | bits A of places 52 to 59 are not the minute identifier |
//! | 31, 32, 33, 34 | the parity of the year, of the date, of the weekday or of the time is even |
//! | 35, 36, 37 | the minute, the hour or the day of the month is invalid |
//! | 38 | the weekday is 7 |
//! | 39, 40 | the month or the year is invalid |
//! | 41 | the year has no such month and day |
//! | 42 | the weekday is not that of the date |
//!
//! Where one of the rules 35 to 41 is broken, a later one on a date counts as unbroken.
#![tactic(auto)]

mod dates;
mod fields;
mod marks;
mod reading;
mod rules;
mod sending;
mod spelling;

pub use reading::{Frame, Msf, read};
pub use spelling::spell;
