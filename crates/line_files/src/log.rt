//! The bytes of a radio's log, taken by its decoder.
ghost use Rattle.std.specs.Prelude.{◌≡◌, ◌++◌, List, [], None};
ghost use Rattle.command_ends.specs.Minutes.{minutes_of};
ghost use Rattle.journal_entry.specs.declared.entry.Entry as journal;
ghost use Rattle.line_files.specs.LogTaking.{IsFound, found_in};
ghost use Rattle.line_files.specs.Taking.{Fits};

use crate::lines::write_entry_line;
use crate::reading::{Gives, Taker};
use command_ends::{Line, Minutes};
use file_reader::LogEnd;
use journal_entry::Entry;
use pulse_log::{BadLine, Taken};
use radio_receiver::{LogDecoder, Receiver};

/// The decoding of a radio's log as feed 0: it gives the lines of the entries, and knows what the minutes are to one another.
#[derive(Drop)]
pub struct Decoding<R: Drop> {
    decoder: LogDecoder<R>,
    minutes: Minutes,
}

// What a decoder found: the length of an entry's line, which is then the beginning of `line`, nothing, or a bad line. The minute of
// an entry is counted. It is not inlined, since an entry is rare.
#[inline(never)]
fn give_found(
    found: Result<Option<Entry>, BadLine>,
    minutes: &mut Minutes,
    line: &mut Line,
) -> Gives
    ensures fits { Fits result }
    ensures gives { IsFound found result line.new }
    ensures counted { (entries : List journal.Entry) → minutes.old ≡ minutes_of entries →
        minutes.new ≡ minutes_of (entries ++ found_in found) }
{
    match found {
        Ok(None) => Ok(None),
        Ok(Some(entry)) => {
            *minutes = minutes.with(&entry);
            Ok(Some(write_entry_line(&entry, line)))
        }
        Err(bad) => Err(bad),
    }
}

impl<R: Receiver> Decoding<R> {
    ghost use Rattle.radio_receiver.specs.Decoding.{IsReady};
    ghost use Rattle.radio_receiver.specs.Histories.{blank_of};
    ghost use Rattle.line_files.specs.LogTaking.{IsDecodedBy, decoder_in, minutes_in};
    ghost use Rattle.tick_units.specs.declared.marks.Plan.{Plan};

    /// That of a log of which no byte was read, by a receiver that has received nothing.
    pub fn new(receiver: R) -> Decoding<R>
        requires { R.least_start receiver ≡ 0 }
        ensures ready { IsReady R.least_start (decoder_in result) }
        ensures start { (plan : Plan) → R.stands_for receiver (blank_of plan) →
            IsDecodedBy R.stands_for result plan [] [] None }
    {
        Decoding {
            decoder: LogDecoder::new(0, receiver),
            minutes: Minutes::none(),
        }
    }

    /// What the minutes are to one another of the bytes that it has taken.
    pub fn minutes(&self) -> Minutes
        ensures { result ≡ minutes_in self.now }
    {
        self.minutes
    }
}

impl<R: Receiver> Taker for Decoding<R> {
    ghost use Rattle.std.specs.Prelude.{◌^◌};
    ghost use Rattle.radio_receiver.specs.Decoding.{IsReady};
    ghost use Rattle.line_files.specs.LogTaking.{IsDecodedBy, decoder_in, log_says};
    ghost use Rattle.tick_units.specs.declared.marks.Plan.{Plan};

    ghost Case = { Plan };

    ghost says = { log_says };

    ghost holds = { λ decoding plan. IsDecodedBy R.stands_for decoding plan };

    ghost is_ready = { λ decoding. IsReady R.least_start (decoder_in decoding) };

    ghost room = { λ decoding. 2 ^ 64 };

    fn take(&mut self, bytes: &[u8], line: &mut Line) -> Taken<Gives> {
        let step = self.decoder.next_entry(bytes);
        Taken {
            count: step.count,
            found: give_found(step.found, &mut self.minutes, line),
        }
    }

    fn at_end(&self) -> LogEnd {
        match self.decoder.finish() {
            Ok(()) => LogEnd::Whole,
            Err(bad) => LogEnd::BadLine { line: bad.line },
        }
    }

    ghost held_says = { λ decoding plan bytes text held. held.text_is };
}
