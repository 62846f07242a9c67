//! Hands the bytes of a file to a taker, and writes the texts that they give.
ghost use Rattle.std.specs.Prelude.{◌≡◌, ◌+◌, ◌<◌, ◌≤◌, ◌++◌, ℕ, List, [], None, length, take};
ghost use Rattle.outside_traits.specs.States.{SinkState};
ghost use Rattle.journal_entry.specs.declared.writer.TheConstants.{LINE_ROOM};
ghost use Rattle.line_files.specs.Reading.{bad_in_the_end};
ghost use Rattle.file_reader.specs.Ends.{EndsAt};
ghost use Rattle.line_files.specs.Taking.{Holds, Says, Fits, given, bad_of};
ghost use Rattle.line_files.specs.Taking.{Flow, TakesAll, StopsTaking, EndsTaking, flow_of};
ghost use Rattle.file_reader.specs.Pieces.{EndsPieces};
ghost use Rattle.outside_traits.specs.Writing.{WritesAll};

use crate::reading::{Gives, Stop, write_given};
use command_ends::Line;
use file_reader::{FileEnd, LogEnd, PieceTaker, read_pieces};
use journal_entry::LINE_ROOM;
use outside_traits::{Failed, Sink, Source};
use pulse_log::Taken;

/// Takes the bytes of a kind of file as they come, and gives their text, up to the first bad line.
pub trait Taker {
    // What a file of this kind is taken for: the plan of a log, the station of a journal.
    ghost Case: { Type 0 };

    // The text of bytes that have no bad line.
    ghost says: { Case → Says };

    // It has taken these bytes, has given this text for them, and has met this bad line.
    ghost holds: { Self → Case → Holds };

    // It can take more.
    ghost is_ready: { Self → Type 0 };

    // It can take less than this many bytes more. Where it counts their lines, and nothing else ends them, that is the room of
    // its count.
    ghost room: { Self → ℕ };

    // Takes bytes up to the next text, which is then the beginning of the line, up to a bad line, or all of them.
    fn take(&mut self, bytes: &[u8], line: &mut Line) -> Taken<Gives>
        requires some { 0 < length bytes.now }
        requires ready { is_ready self.old }
        requires room { length bytes.now < room self.old }
        ensures some { 0 < result.count }
        ensures within { result.count ≤ length bytes.now }
        ensures ready { is_ready self.new }
        ensures room { room self.old ≤ room self.new + result.count }
        ensures fits { Fits result.found }
        ensures holds { (of : Case) (before text : List ℕ) → holds self.old of before text None →
            holds self.new of (before ++ take result.count bytes.now) (text ++ given result.found line.new)
            (bad_of result.found) };

    // Why a reading ended that came to the end of the file.
    fn at_end(&self) -> LogEnd
        requires ready { is_ready self.now }
        requires room { 0 < room self.now }
        ensures { (of : Case) (bytes text : List ℕ) → holds self.now of bytes text None →
            EndsAt result (bad_in_the_end None bytes) };

    // Up to a bad line the text that it has given is that of its bytes.
    ghost held_says: { (taker : Self) (of : Case) (bytes text : List ℕ) → holds taker of bytes text None →
        says of bytes text };
}

// Writes what a taker gives for the pieces of a file.
#[derive(Drop)]
struct Writing<'a, T, K> {
    taker: &'a mut T,
    out: &'a mut K,
}

impl<T: Taker, K: Sink> PieceTaker<Stop> for Writing<'_, T, K> {
    ghost use Rattle.std.specs.Borrow.{GName};
    ghost use Rattle.outside_traits.specs.States.{SinkState};
    ghost use Rattle.line_files.specs.Taking.{TakesAll, StopsTaking};

    // The case of the taker, and what the sink had reported at first.
    ghost Case = { T.Case × SinkState };

    ghost has_taken = { λ writing of. TakesAll (T.holds writing.taker.now of.0) of.1 (K.state writing.out.now) };

    ghost has_stopped = { λ writing of.
        StopsTaking (T.holds writing.taker.now of.0) (T.says of.0) of.1 (K.state writing.out.now) };

    // Which taker and which sink it has.
    ghost Mark = { GName × GName };

    ghost mark = { λ writing. (writing.taker.ghost_name, writing.out.ghost_name) };

    ghost is_ready = { λ writing. T.is_ready writing.taker.now };

    ghost room = { λ writing. T.room writing.taker.now };

    // Takes a piece, and writes its text, up to a bad line or a write that fails.
    fn take(&mut self, piece: &[u8]) -> Result<(), Stop> {
        let mut line = [0; LINE_ROOM];
        let mut rest = piece;
        'rest: while !rest.is_empty() {
            let took = self.taker.take(rest, &mut line);
            match write_given(took.found, &line, self.out) {
                Ok(()) => rest = rest.split_at(took.count).1,
                Err(stop) => return Err(stop),
            }
        }
        Ok(())
    }
}

// Why the reading of a file ended, by what came of its pieces.
fn end_of<T: Taker>(read: Result<FileEnd, Stop>, taker: &T) -> Result<LogEnd, Failed>
    requires ready { T.is_ready taker.now }
    requires room { 0 < T.room taker.now }
    ensures { (of : T.Case) (limit : ℕ) (flow : Flow) →
        EndsPieces (TakesAll (T.holds taker.now of) flow.out flow.out_now)
        (StopsTaking (T.holds taker.now of) (T.says of) flow.out flow.out_now) limit flow.file flow.file_now read →
        EndsTaking (T.holds taker.now of) (T.says of) limit flow result }
{
    match read {
        Ok(FileEnd::Whole) => Ok(taker.at_end()),
        Ok(FileEnd::Fault) => Ok(LogEnd::Fault),
        Ok(FileEnd::TooLong) => Ok(LogEnd::Long),
        Err(Stop::BadLine { line }) => Ok(LogEnd::BadLine { line }),
        Err(Stop::WriteFault) => Err(Failed),
    }
}

/// Reads a file of at most this many bytes to its end, to its first bad line or to its first fault. A taker takes the bytes, as
/// long as no write fails.
///
/// # Errors
/// A write of the text has failed.
pub fn read_lines<S: Source, T: Taker, K: Sink>(
    file: &mut S,
    taker: &mut T,
    limit: usize,
    out: &mut K,
) -> Result<LogEnd, Failed>
    requires ready { T.is_ready taker.old }
    requires room { limit < T.room taker.old }
    ensures number { S.opening file.new ≡ S.opening file.old }
    ensures ends { (of : T.Case) → T.holds taker.old of [] [] None →
        EndsTaking (T.holds taker.new of) (T.says of) limit
        (flow_of (S.state file.old) (S.state file.new) (K.state out.old) (K.state out.new)) result }
{
    let mut writing = Writing { taker, out };
    let read = read_pieces(file, &mut writing, limit);
    end_of(read, writing.taker)
}
