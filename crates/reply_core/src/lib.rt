//! Answers to requests: from a page, a datagram and two moments to 48 bytes or a drop. The bytes give the time, or say that the
//! client is denied or asks too often.
#![tactic(auto)]

mod answering;
mod code;
mod dropped;

pub use answering::{kiss, read_request, reply, write_reply};
pub use code::Code;
pub use dropped::Dropped;
