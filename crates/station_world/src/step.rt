//! What can happen to the station, and why it may be refused.
use journal_entry::Entry;

/// One event.
#[derive(Clone, Copy, Debug, PartialEq, Eq)]
pub enum Step {
    /// The next entry goes after the journal.
    Enter(Entry),
    /// The page of the whole journal becomes the page that is read.
    Publish,
    /// The reader of this number reads the page.
    Read(u32),
    /// The reader of this number learns that this many entries were published.
    Tell(u32, u64),
}

/// Why a step is refused; of several reasons the first.
#[derive(Clone, Copy, Debug, PartialEq, Eq)]
pub enum StepRefusal {
    /// There is no reader of this number.
    NoReader { number: u32 },
    /// There is no feed of this number.
    NoFeed { feed: u32 },
    /// An entry comes before the one before it was published.
    Unpublished { entered: u64, published: u64 },
    /// All entries are published.
    Nothing { length: u64 },
    /// Fewer entries are published than the reader is to learn of.
    Beyond { told: u64, published: u64 },
    /// There was not enough memory.
    Memory,
}
