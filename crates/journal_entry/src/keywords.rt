//! The words of entries, each of which says what its numbers are; and the word before a numbered entry.

/// The word before a numbered entry: the second form of a line.
pub const VERSION_2: &[u8] = b"j2";

/// A radio's minute that is believed: its second, and the end of its leap second or 0.
pub const VERDICT: &[u8] = b"verdict";

/// A radio's valid minute with no valid one before it: its second.
pub const LONE: &[u8] = b"lone";

/// Two valid minutes that do not agree: the second of each, and the microseconds between them.
pub const DIFFERS: &[u8] = b"differs";

/// A radio's segment that is no frame: the number of the least rule that it breaks.
pub const REFUSED: &[u8] = b"refused";

/// A server's sample: offset, delay and dispersion, stratum and address, root delay and root dispersion.
pub const SAMPLE: &[u8] = b"sample";

/// A server's answer that was declined: the number of the reason.
pub const DECLINED: &[u8] = b"declined";

/// A leap second of the leap second file: the second at which it ends.
pub const NOTICE: &[u8] = b"notice";
