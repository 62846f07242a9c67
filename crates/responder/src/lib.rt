//! A responder on a link: it reads a page for each datagram that comes, and answers it from that page or drops it. A sender that
//! is denied or asks too often gets a kiss code in place of the answer.
#![tactic(auto)]

mod responding;
mod served;
mod state;

pub use served::{End, Served};
pub use state::Responder;
