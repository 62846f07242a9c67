//! What a line of a script gives.
use journal_entry::Numbered;
use reply_core::Dropped as WhyDropped;
use sealed_reply::Reply;

/// What a line of a script gives.
#[derive(Clone, Copy, Debug, PartialEq, Eq)]
pub enum Outcome {
    /// Nothing: no minute was complete, a receiver was swapped, or the journal was full.
    Nothing,
    /// This entry is kept, with this number, and the page after it has this rate.
    Kept(Numbered),
    /// The poller asks the server of the feed with these bytes.
    Asked([u8; 48]),
    /// This reply answers the client.
    Replied {
        reply: Reply,
        /// Whether the client's judging was kept. It was not where that took memory and there was none.
        kept: bool,
    },
    /// The client gets no answer.
    Dropped(WhyDropped),
}

/// A line that may not stand after the lines before it.
#[derive(Clone, Copy, Debug, PartialEq, Eq)]
pub struct Invalid;
