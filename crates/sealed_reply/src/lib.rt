//! Replies to requests as they stand on the wire: those to an authentic request are sealed by its key.
#![tactic(auto)]

mod answering;
mod reply;

pub use answering::{Request, sealed_like};
pub use reply::Reply;
