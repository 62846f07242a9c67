//! The host's own files, streams and sockets, as the traits of `outside_traits` want them.
//!
//! To read it in this order: `host` (what the host opens), `real` (files and streams), `udp` (sockets).
#![tactic(auto)]

mod host;
mod real;
mod udp;

pub use host::{HostOutside, Refusal};
pub use real::{FileSource, StreamSink};
pub use udp::{
    Counter, DatagramSocket, Received, UdpLink, moment_at, receive_once, send_whole,
    whole_microseconds,
};
