//! The exchanges of one poller with one NTP server: its requests, and which datagrams are answers to them.
//!
//! To read it in this order: `poll` (the public type), `request`, `exchange` (what an answer says), `checks` (which answers are
//! refused), `refusal` (the reasons).
#![tactic(auto)]

mod checks;
mod exchange;
mod poll;
mod refusal;
mod request;

pub use poll::Poll;
pub use refusal::PollRefusal;
