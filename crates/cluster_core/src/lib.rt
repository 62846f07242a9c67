//! The cluster and combine algorithms of RFC 5905 (sections 11.2.2 and 11.2.3): of the sources that agree, those that agree best,
//! and the mean of their offsets.
//!
//! To read it in this order: `survivor`, `survivors` (what clustering receives), `spread` (how far the others are from one),
//! `ordering`, `clustering` (who is discarded), `combining` (the mean).
#![tactic(auto)]

mod clustering;
mod combining;
mod ordering;
mod spread;
mod survivor;
mod survivors;

pub use clustering::cluster;
pub use combining::combine;
pub use survivor::Survivor;
pub use survivors::Survivors;
