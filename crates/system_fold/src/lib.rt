//! The page of a journal, entry by entry.
//!
//! To read it in this order: `settings`; `fold` (the public type: what is kept of a journal) and `feed`, `source` (what is kept
//! of each feed); `fit` and `sources` (those fit to be selected), `selecting` (those that agree), `inputs` and `page` (what
//! makes the page); `leaps`, `leap_words` (leap seconds); `moments`; `text` (the page's line). `plain` and `whole` make a page
//! from the whole list, as a reference.
#![tactic(auto)]

mod feed;
mod fit;
mod fold;
mod inputs;
mod leap_words;
mod leaps;
mod moments;
mod page;
mod plain;
mod selecting;
mod settings;
mod source;
mod sources;
mod text;
mod whole;

pub use fold::FoldState;
pub use plain::page_from_scratch;
pub use settings::{Settings, SourceKind};
pub use text::{page_text, write_page};
pub use whole::page_by_steps;
