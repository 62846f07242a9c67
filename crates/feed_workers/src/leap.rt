//! The worker of a leap second file, which reads the list of leap seconds in it.
ghost use Rattle.std.specs.Prelude.{◌≡◌, ◌<◌, ◌++◌, ◌∷◌, [], ℕ, IfSome, List, Option, length};
ghost use Rattle.std.specs.Option.{option_to_list};
ghost use Rattle.feed_workers.specs.Keeping.{IsOfFeed, Keeps, share_of};
ghost use Rattle.feed_workers.specs.Leaps.{RunsLeap, leap_intake, most_of_a_list, notices_of};
ghost use Rattle.feed_workers.specs.Logs.{intake_of};
ghost use Rattle.feed_workers.specs.Noticing.{EndsList, EndsNoticing, HasNoticed, HasPassed, NoticesByte};
ghost use Rattle.outside_traits.specs.States.{SourceState};
ghost use Rattle.file_reader.specs.Pieces.{TakesOrStops};
ghost use Rattle.journal_entry.specs.declared.entry.Entry.{Entry};
ghost use Rattle.page_cell.specs.declared.view.Claim.{Claim};
ghost use Rattle.page_cell.specs.Passes.{claim_of};
ghost use Rattle.tick_units.specs.Years.{end_of_supported};

use crate::keeping::{Post, Recorder};
use crate::work::LogWork;
use file_reader::{FileEnd, LogEnd, PieceTaker, read_pieces};
use journal_entry::{Entry, What};
use leap_file::{BadLeap, LeapReader};
use outside_traits::{Gate, Source};
use page_cell::FeedPass;
use std::sync::Wait;
use tick_units::Local;
use verdict_journal::{Hub, HubName};

// The most bytes of a leap second file.
const LIMIT: usize = 1 << 16;

// Keeps the notice of a leap second, where one was found.
fn notice<K: Recorder>(
    recorder: &K,
    start: Local,
    pass: &mut FeedPass,
    found: Option<u64>,
    full: &mut bool,
)
    requires pass { IsOfFeed K.table K.sources (claim_of pass.old.view).number pass.old }
    requires reported { IfSome found (λ second. second < end_of_supported) }
    ensures pass { IsOfFeed K.table K.sources (claim_of pass.old.view).number pass.new }
    ensures kept { (begun : Claim) (due : List Entry) →
        Keeps (share_of begun pass.old K.limit full.old) due →
        let more = notices_of (claim_of pass.old.view).number start (option_to_list found) in
        Keeps (share_of begun pass.new K.limit full.new) (due ++ more) }
{
    if let Some(second) = found {
        let entry = Entry {
            feed: pass.number(),
            at: start,
            what: What::Notice(second),
        };
        recorder.enter(pass, entry, full);
    }
}

// Takes a byte, and keeps the notice of the row that it ends. Fails where the line that it ends is bad.
fn take_byte<K: Recorder>(
    recorder: &K,
    reader: &mut LeapReader,
    start: Local,
    pass: &mut FeedPass,
    byte: u8,
    full: &mut bool,
) -> Result<(), BadLeap>
    requires pass { IsOfFeed K.table K.sources (claim_of pass.old.view).number pass.old }
    ensures pass { IsOfFeed K.table K.sources (claim_of pass.old.view).number pass.new }
    ensures noticed { (begun : Claim) (bytes : List ℕ) →
        HasNoticed reader.old start (share_of begun pass.old K.limit full.old) bytes →
        NoticesByte reader.new start (share_of begun pass.new K.limit full.new) (bytes ++ byte ∷ []) result }
{
    match reader.take(byte) {
        Ok(found) => {
            notice(recorder, start, pass, found, full);
            Ok(())
        }
        Err(bad) => Err(bad),
    }
}

// Takes a piece of a file, or stops at a bad line, by its number.
fn take_piece<K: Recorder>(
    recorder: &K,
    reader: &mut LeapReader,
    start: Local,
    pass: &mut FeedPass,
    piece: &[u8],
    full: &mut bool,
) -> Result<(), u64>
    requires pass { IsOfFeed K.table K.sources (claim_of pass.old.view).number pass.old }
    ensures pass { IsOfFeed K.table K.sources (claim_of pass.old.view).number pass.new }
    ensures noticed { (begun : Claim) (bytes : List ℕ) →
        HasNoticed reader.old start (share_of begun pass.old K.limit full.old) bytes →
        let now = share_of begun pass.new K.limit full.new in
        TakesOrStops (HasNoticed reader.new start now) (λ line b. HasPassed start now b line)
        (bytes ++ piece.now) result }
{
    for place in 0..piece.len() {
        match take_byte(recorder, reader, start, pass, piece[place], full) {
            Ok(()) => {}
            Err(bad) => return Err(bad.line),
        }
    }
    Ok(())
}

// At the end of the file: keeps the notice of a last line without its line feed, and answers how the file ends.
fn finish_list<K: Recorder>(
    recorder: &K,
    reader: &mut LeapReader,
    start: Local,
    pass: &mut FeedPass,
    full: &mut bool,
) -> LogEnd
    requires pass { IsOfFeed K.table K.sources (claim_of pass.old.view).number pass.old }
    ensures pass { IsOfFeed K.table K.sources (claim_of pass.old.view).number pass.new }
    ensures ended { (begun : Claim) (bytes : List ℕ) →
        HasNoticed reader.old start (share_of begun pass.old K.limit full.old) bytes →
        EndsList start (share_of begun pass.new K.limit full.new) bytes result }
{
    match reader.finish() {
        Ok(found) => {
            notice(recorder, start, pass, found, full);
            LogEnd::Whole
        }
        Err(bad) => LogEnd::BadLine { line: bad.line },
    }
}

// Why the reading of a list ended, by what came of its pieces. Keeps the notice of a last line without its line feed.
fn end_of<K: Recorder>(
    recorder: &K,
    read: Result<FileEnd, u64>,
    reader: &mut LeapReader,
    start: Local,
    pass: &mut FeedPass,
    full: &mut bool,
) -> LogEnd
    requires pass { IsOfFeed K.table K.sources (claim_of pass.old.view).number pass.old }
    ensures pass { IsOfFeed K.table K.sources (claim_of pass.old.view).number pass.new }
    ensures runs { (begun : Claim) (file file_now : SourceState) →
        let intake = intake_of file file_now most_of_a_list in
        EndsNoticing reader.old start (intake (share_of begun pass.old K.limit full.old)) read →
        RunsLeap start (intake (share_of begun pass.new K.limit full.new)) result }
{
    match read {
        Ok(FileEnd::Whole) => finish_list(recorder, reader, start, pass, full),
        Ok(FileEnd::Fault) => LogEnd::Fault,
        Ok(FileEnd::TooLong) => LogEnd::Long,
        Err(line) => LogEnd::BadLine { line },
    }
}

// What takes the pieces of a list: its reader, and the pass by which a notice of each leap second is kept, at the station's first
// moment.
#[derive(Drop)]
struct Noticing<'a, K> {
    recorder: &'a K,
    reader: LeapReader,
    start: Local,
    pass: &'a mut FeedPass,
    full: bool,
}

impl<K: Recorder> PieceTaker<u64> for Noticing<'_, K> {
    ghost use Rattle.std.specs.Borrow.{GName};
    ghost use Rattle.std.specs.Prelude.{◌^◌, ℕ};
    ghost use Rattle.feed_workers.specs.Keeping.{IsOfFeed, share_of};
    ghost use Rattle.feed_workers.specs.Noticing.{HasNoticed, HasPassed};
    ghost use Rattle.page_cell.specs.Passes.{claim_of};
    ghost use Rattle.page_cell.specs.declared.view.Claim.{Claim};

    // What the pass claimed when the worker began.
    ghost Case = { Claim };

    ghost has_taken = { λ noticing begun. HasNoticed noticing.reader noticing.start
        (share_of begun noticing.pass.now K.limit noticing.full) };

    ghost has_stopped = { λ noticing begun line bytes. HasPassed noticing.start
        (share_of begun noticing.pass.now K.limit noticing.full) bytes line };

    // The first moment, the feed, and which pass it has.
    ghost Mark = { ℕ × ℕ × GName };

    ghost mark = { λ noticing. (noticing.start, (claim_of noticing.pass.now.view).number, noticing.pass.ghost_name) };

    ghost is_ready = { λ noticing. let feed = (claim_of noticing.pass.now.view).number in
        IsOfFeed K.table K.sources feed noticing.pass.now };

    ghost room = { λ noticing. 2 ^ 64 };

    fn take(&mut self, piece: &[u8]) -> Result<(), u64> {
        take_piece(
            self.recorder,
            &mut self.reader,
            self.start,
            self.pass,
            piece,
            &mut self.full,
        )
    }
}

// Reads a file to its end, a bad line, a fault or 2^16 bytes, whichever comes first, and keeps the entries that are due.
fn read_list<L: Source, K: Recorder>(
    recorder: &K,
    log: &mut L,
    start: Local,
    pass: &mut FeedPass,
) -> LogWork
    requires pass { IsOfFeed K.table K.sources (claim_of pass.old.view).number pass.old }
    ensures log { L.opening log.new ≡ L.opening log.old }
    ensures pass { IsOfFeed K.table K.sources (claim_of pass.old.view).number pass.new }
    ensures runs { let share = share_of (claim_of pass.old.view) pass.new K.limit result.full in
        RunsLeap start (intake_of (L.state log.old) (L.state log.new) most_of_a_list share) result.end }
{
    let mut noticing = Noticing {
        recorder,
        reader: LeapReader::new(),
        start,
        pass,
        full: false,
    };
    let read = read_pieces(log, &mut noticing, LIMIT);
    let Noticing {
        reader,
        pass,
        mut full,
        ..
    } = noticing;
    let mut reader = reader;
    let end = end_of(recorder, read, &mut reader, start, pass, &mut full);
    LogWork { end, full }
}

/// The worker of a leap second file: it reads the published list of leap seconds, and keeps a notice of each at the station's
/// first moment.
#[derive(Drop)]
pub struct LeapWorker<L: Drop> {
    pub(crate) log: L,
    pub(crate) start: Local,
    pub(crate) pass: FeedPass,
}

impl<L: Source + Drop> LeapWorker<L> {
    /// A worker over a file, with the station's first moment and the pass of its feed.
    pub fn new(log: L, start: Local, pass: FeedPass) -> LeapWorker<L>
        ensures { (result.log ≡ log) × (result.start ≡ start) × (result.pass ≡ pass) }
    {
        LeapWorker { log, start, pass }
    }

    /// Reads the file to its end, a bad line, a fault or 65536 bytes, whichever comes first. It keeps a notice of each leap
    /// second where there is room.
    pub fn run<N: HubName, R: Wait, G: Gate>(&mut self, rt: &R, hub: &Hub<N>, gate: &G) -> LogWork
        requires pass { let feed = (claim_of self.old.pass.view).number in
            IsOfFeed N.table (length N.settings.sources) feed self.old.pass }
        ensures log { L.opening self.new.log ≡ L.opening self.old.log }
        ensures start { self.new.start ≡ self.old.start }
        ensures pass { let feed = (claim_of self.old.pass.view).number in
            IsOfFeed N.table (length N.settings.sources) feed self.new.pass }
        ensures runs { RunsLeap self.old.start (leap_intake L.state N.limit self.old self.new result) result.end }
    {
        let post = Post { rt, hub, gate };
        let LeapWorker { log, start, pass } = self;
        read_list(&post, log, *start, pass)
    }

    /// Gives back the file and the pass.
    pub fn give_back(self) -> (L, FeedPass)
        ensures { (result.0 ≡ self.log) × (result.1 ≡ self.pass) }
    {
        let LeapWorker { log, pass, .. } = self;
        (log, pass)
    }
}
