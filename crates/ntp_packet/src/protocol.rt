//! The numbers of the protocol that requests and answers share (RFC 5905, section 7.3).

/// The latest version of the protocol.
pub const VERSION: u8 = 4;

/// The mode of a client.
pub const CLIENT: u8 = 3;

/// The mode of a server.
pub const SERVER: u8 = 4;

/// The precision of the host's counter, about a microsecond, in log2 seconds. On the wire it is the byte ec.
pub const PRECISION: i8 = -20;

/// That precision in units of 2^-32 s.
pub const PRECISION_UNITS: u64 = 4096;

/// How many bytes a header has (RFC 5905, section 7.3).
pub const HEADER_LENGTH: usize = 48;
