//! An entry of a journal.
use tick_units::{Kind, Local, Sample};

/// One line of the journal: what a feed reported, and when.
#[derive(Clone, Copy, Debug, PartialEq, Eq)]
pub struct Entry {
    /// The number of the feed, from 0: the radios in the order of the station file, then its servers, then its leap second file.
    pub feed: u32,
    /// When the feed reported it, on the host's counter.
    pub at: Local,
    /// What the feed reported.
    pub what: What,
}

/// What a feed reported.
#[derive(Clone, Copy, Debug, PartialEq, Eq)]
pub enum What {
    /// A radio: what a closed minute comes to.
    Heard(Kind),
    /// A server: what an exchange with it says of the time.
    Sample(Sample),
    /// A server's answer was declined: the number of the reason.
    Declined(u8),
    /// A leap second is announced: the second at which it ends, since 1900.
    Notice(u64),
}
