//! The page, which says how the server computes the time; its ten words; and what it says of a moment.
#![tactic(auto)]

mod page;
mod page_words;
mod times;

pub use page::{INIT, Page, UNKNOWN_DISPERSION};
pub use page_words::WORDS;
