//! A line of a script.
use crate::Datagram;
use tick_units::{Local, Reduction};

/// One line of a replay script: what the outside gives to a station, and when.
#[derive(Drop)]
pub enum ScriptLine<'a> {
    /// A radio's receiver receives a reduction of the carrier.
    Pulse {
        /// The number of the feed, from 0: the radios in the order of the station file, then its servers, then its leap second file.
        feed: u32,
        reduction: Reduction,
    },
    /// A poller asks its server.
    Ask {
        feed: u32,
        /// When, by the host's counter.
        at: Local,
    },
    /// A datagram comes from a server.
    Answer {
        feed: u32,
        at: Local,
        datagram: Datagram<'a>,
    },
    /// A radio's receiver is dropped, and another one takes its place.
    Swap {
        feed: u32,
    },
    /// A datagram comes from a client, and the station answers it.
    Request {
        /// The client's connection, 0 to 7.
        connection: u8,
        /// When it came.
        arrived: Local,
        /// When the station answers it; not before it came.
        sent: Local,
        datagram: Datagram<'a>,
    },
    /// The leap second file announces a leap second.
    Leap {
        feed: u32,
        /// When, by the host's counter.
        at: Local,
        /// The second after the leap second, counted from 1900-01-01 00:00 UTC, before 2100-01-03 00:00 UTC.
        leap_at: u64,
    },
}
