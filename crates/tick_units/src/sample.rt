//! Samples of the time.
use crate::{Short, Span};

/// What one exchange with a server, or one minute of a radio, says of the time (RFC 5905, section 8).
#[derive(Clone, Copy, Debug, PartialEq, Eq)]
pub struct Sample {
    /// What to add to the host's counter to get the time since 1900.
    pub offset: Span,
    /// How long the packets were under way, to the server and back.
    pub delay: Span,
    /// How far the offset may have been from the truth when it was taken, apart from the delay.
    pub dispersion: Span,
    /// The server's stratum, and 0 of a radio.
    pub stratum: u8,
    /// The server's IPv4 address, and 0 of a radio.
    pub address: u32,
    /// The server's own round-trip delay to its reference clock.
    pub root_delay: Short,
    /// The server's own dispersion.
    pub root_disp: Short,
}
