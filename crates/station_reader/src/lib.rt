//! The station file: a TOML document, read into a station or refused with its first fault.
//!
//! To read it in this order: `rows` (the table of keys, and what is made of each kind of table), `fault` (the public error),
//! `reading` (the public call), `document`. Then come `keys`, `arrays`, `identifiers` and `counts` (the faults); `form`, `values`
//! and `items` (what is read); `address` and `nets` (texts in it).
#![tactic(auto)]

mod address;
mod arrays;
mod counts;
mod document;
mod fault;
mod form;
mod identifiers;
mod items;
mod keys;
mod nets;
mod reading;
mod rows;
mod values;

pub use fault::{KeyText, StationFault};
pub use reading::read_station;
