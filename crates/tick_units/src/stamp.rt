//! Moments and lengths of time as they stand on the wire.
/// A moment as it stands on the wire: units of 2^-32 s since 1900-01-01 00:00 UTC modulo 2^64 (RFC 5905, section 6, the
/// timestamp format).
#[derive(Clone, Copy, Debug, PartialEq, Eq)]
pub struct Stamp(pub u64);

/// A length of time as it stands on the wire: units of 2^-16 s (RFC 5905, section 6, the short format).
#[derive(Clone, Copy, Debug, PartialEq, Eq, PartialOrd, Ord)]
pub struct Short(pub u32);
