//! The outside of a run that a supervisor holds: sockets and signals that it hands over by their numbers, the host's own counter,
//! and a pace for requests to servers.
//!
//! To read it in this order: `word` (what the supervisor writes), `signal`, `handed` (what it hands over), `watch` (a link's
//! beginning and end), `pace` and `asking` (when a link asks a server), `link` and `outside` (the traits of `outside_traits`).
#![tactic(auto)]

mod asking;
mod handed;
mod link;
mod outside;
mod pace;
mod signal;
mod watch;
mod word;

pub use asking::{Asking, Request};
pub use handed::{Handed, HandedSocket, Reason, handed_over};
pub use link::{ServiceLink, Waited};
pub use outside::{ServiceOutside, write_reason};
pub use pace::{Kiss, Pace, kiss_of};
pub use signal::Signal;
pub use watch::Watch;
pub use word::{BadWord, Fault, Word, read_words};
