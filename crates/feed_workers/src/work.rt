//! What workers did, and why they ended.

use file_reader::LogEnd;

/// What the worker of a radio, or of a leap second file, did.
#[derive(Clone, Copy, Debug, PartialEq, Eq)]
pub struct LogWork {
    /// Why it ended. A log may have 2^30 bytes, a leap second file 2^16.
    pub end: LogEnd,
    /// Whether an entry found the journal full.
    pub full: bool,
}

/// Why a poller's worker ended.
#[derive(Clone, Copy, Debug, PartialEq, Eq)]
pub enum PollEnd {
    /// All polls were made.
    Rounds,
    /// The link has ended.
    LinkEnd,
    /// A call of the link failed.
    LinkFault,
}

/// What a poller's worker did.
#[derive(Clone, Copy, Debug, PartialEq, Eq)]
pub struct PollWork {
    pub end: PollEnd,
    /// Whether an entry found the journal full.
    pub full: bool,
}
