//! The fields of a header.
use tick_units::{Short, Stamp};

/// The fields of a packet's header, in the order in which they stand on the wire.
#[derive(Clone, Copy, Debug, PartialEq, Eq)]
pub struct Header {
    /// The leap indicator: 0 no warning, 1 the day's last minute has 61 seconds, 2 it has 59, 3 not synchronised.
    pub leap: u8,
    /// The protocol's version, 0 to 7.
    pub version: u8,
    /// The mode, 0 to 7: 3 is a client's, 4 a server's.
    pub mode: u8,
    /// The sender's stratum: 1 where a reference clock sets its own clock, else one more than that of its server. It is 0 where
    /// the sender is not synchronised, or says nothing of it.
    pub stratum: u8,
    /// The interval between polls, in log2 seconds.
    pub poll: i8,
    /// The precision of the sender's clock, in log2 seconds.
    pub precision: i8,
    /// The round-trip delay to the reference clock.
    pub root_delay: Short,
    /// The dispersion of the time that comes from the reference clock.
    pub root_disp: Short,
    /// What the sender takes its time from: four letters, or an IPv4 address.
    pub refid: u32,
    /// When the sender's clock was last set.
    pub reference: Stamp,
    /// When the request left the client, by the client's clock.
    pub origin: Stamp,
    /// When the request reached the server, by the server's clock.
    pub receive: Stamp,
    /// When this packet left its sender, by the sender's clock.
    pub transmit: Stamp,
}
