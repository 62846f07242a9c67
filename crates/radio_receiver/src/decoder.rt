// A reader of lines, and the receiver that takes its reductions.
ghost use Rattle.std.specs.Prelude.{◌≡◌, ◌<◌, ◌≤◌, ℕ, List, [], length, take, None, Some, IfOk, IfSome, MatchResult};
ghost use Rattle.tick_units.specs.Log.{bad_at_end};
ghost use Rattle.tick_units.specs.declared.marks.Plan.{Plan};
ghost use Rattle.minute_pair.specs.Years.{BelievesYears};
ghost use Rattle.radio_receiver.specs.Due.{entry_of};
ghost use Rattle.radio_receiver.specs.Decoding.{HasDecoded, IsReady, IsEntryOf, DecodesPrefix, feed_of, radio_log};

use crate::Receiver;
use journal_entry::{Entry, What};
use pulse_log::{BadLine, LineReader, Taken};
use tick_units::Heard;

/// The most bytes of a log.
pub const LOG_LIMIT: usize = 1 << 30;

/// Decodes the log of a radio with a receiver. Where the receiver's type is known, its calls can be inlined; those of a boxed one
/// cost some forty instructions more a line.
#[derive(Drop)]
pub struct LogDecoder<R: Drop> {
    reader: LineReader,
    receiver: R,
    feed: u32,
}

// An answer as an entry of a feed. It is not inlined: it is called only where there is an answer, so a reduction that completes
// nothing writes no words of an entry.
#[inline(never)]
fn entry_of(feed: u32, heard: Heard) -> Entry
    requires { BelievesYears heard.kind }
    ensures value { result ≡ entry_of feed heard }
    ensures valid { IsEntryOf feed result }
{
    Entry {
        feed,
        at: heard.at,
        what: What::Heard(heard.kind),
    }
}

impl<R: Receiver> LogDecoder<R> {
    /// A decoder for this feed that has taken no byte, with a receiver that has received nothing.
    pub fn new(feed: u32, receiver: R) -> LogDecoder<R>
        requires { R.least_start receiver ≡ 0 }
        ensures ready { IsReady R.least_start result }
        ensures feed { feed_of result ≡ feed }
        ensures start { (plan : Plan) (delay : ℕ) →
            R.stands_for receiver (record { plan = plan; delay = delay; reductions = [] }) →
            HasDecoded R.stands_for result feed plan delay [] }
    {
        LogDecoder {
            reader: LineReader::new(),
            receiver,
            feed,
        }
    }

    /// Takes bytes up to the end of the first line that completes an entry, or up to the byte that makes a line bad. Takes all of
    /// them where there is neither. What came of them is the entry that they complete, None where they complete none, or the bad
    /// line. No clause says how many bytes one call takes, and the caller goes on with the rest.
    #[inline(always)]
    pub fn next_entry(&mut self, bytes: &[u8]) -> Taken<Result<Option<Entry>, BadLine>>
        requires some { 0 < length bytes.now }
        requires ready { IsReady R.least_start self.old }
        ensures some { 0 < result.count }
        ensures within { result.count ≤ length bytes.now }
        ensures ready { IsReady R.least_start self.new }
        ensures feed { feed_of self.new ≡ feed_of self.old }
        ensures valid { IfOk result.found (λ found. IfSome found (IsEntryOf (feed_of self.old))) }
        ensures taken { (feed : ℕ) (plan : Plan) (delay : ℕ) (before : List ℕ) →
            HasDecoded R.stands_for self.old feed plan delay before →
            let prefix = take result.count bytes.now in
            DecodesPrefix R.stands_for self.new (radio_log feed plan delay) before prefix result.found }
    {
        // Call functions that aren't inlined only from here: their result is then zeroed once a call of `next_entry`, and not once a
        // line.
        let mut count = 0;
        'lines: while count < bytes.len() {
            let rest = bytes.split_at(count).1;
            let reduction = match self.reader.take_whole_line(rest) {
                Some(line) => {
                    count += line.count;
                    line.found
                }
                None => {
                    let prefix = self.reader.take_by_bytes(rest);
                    count += prefix.count;
                    match prefix.found {
                        Ok(Some(reduction)) => reduction,
                        Ok(None) => continue,
                        Err(bad) => {
                            return Taken {
                                count,
                                found: Err(bad),
                            };
                        }
                    }
                }
            };
            match self.receiver.hear(reduction) {
                None => {}
                Some(heard) => {
                    return Taken {
                        count,
                        found: Ok(Some(entry_of(self.feed, heard))),
                    };
                }
            }
        }
        Taken {
            count,
            found: Ok(None),
        }
    }

    /// The log has ended.
    ///
    /// # Errors
    ///
    /// `BadLine` where one was returned, or where bytes stand after the last line feed.
    pub fn finish(&self) -> Result<(), BadLine>
        ensures { (feed : ℕ) (plan : Plan) (delay : ℕ) (bytes : List ℕ) →
            HasDecoded R.stands_for self.now feed plan delay bytes → MatchResult result
            (λ _. bad_at_end bytes ≡ None)
            (λ bad. bad_at_end bytes ≡ Some bad.line) }
    {
        self.reader.finish()
    }
}
