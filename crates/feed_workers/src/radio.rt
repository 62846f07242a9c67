//! The worker of a radio, which reads its log.
ghost use Rattle.std.specs.Prelude.{◌≡◌, ◌≤◌, ◌<◌, ◌++◌, [], ℕ, List, None, length, take};
ghost use Rattle.radio_receiver.specs.Decoding.{HasDecoded, IsReady, feed_of};
ghost use Rattle.feed_workers.specs.Receiving.{EndsReceiving, HasReceived, HasMissed, Tuning};
ghost use Rattle.file_reader.specs.Pieces.{TakesOrStops};
ghost use Rattle.feed_workers.specs.Keeping.{IsOfFeed, share_of};
ghost use Rattle.feed_workers.specs.Logs.{Intake, RunsLog, intake_of, log_intake};
ghost use Rattle.page_cell.specs.declared.view.Claim.{Claim};
ghost use Rattle.page_cell.specs.Passes.{claim_of};
ghost use Rattle.tick_units.specs.declared.marks.Plan.{Plan};

use crate::keeping::{Post, Recorder};
use crate::work::LogWork;
use file_reader::{FileEnd, LogEnd, PieceTaker, read_pieces};
use outside_traits::{Gate, Source};
use page_cell::FeedPass;
use pulse_log::Taken;
use radio_receiver::{BoxedReceiver, LOG_LIMIT, LogDecoder, Receiver};
use std::sync::Wait;
use verdict_journal::{Hub, HubName};

/// The worker of a radio, with a receiver of type `R`.
#[derive(Drop)]
pub struct WorkerOf<L: Drop, R: Drop> {
    pub(crate) decoder: LogDecoder<R>,
    pub(crate) log: L,
    pub(crate) pass: FeedPass,
}

/// The worker of a radio: it decodes a log, and keeps the entries of its feed.
pub type RadioWorker<L> = WorkerOf<L, BoxedReceiver>;

// Takes bytes up to the end of a line, up to a bad line, or all of them, and keeps the entry that they complete. What came of
// them is the number of that bad line, where there is one.
fn take_line<K: Recorder, Q: Receiver>(
    recorder: &K,
    decoder: &mut LogDecoder<Q>,
    pass: &mut FeedPass,
    bytes: &[u8],
    full: &mut bool,
) -> Taken<Option<u64>>
    requires some { 0 < length bytes.now }
    requires ready { IsReady Q.least_start decoder.old }
    requires pass { IsOfFeed K.table K.sources (feed_of decoder.old) pass.old }
    ensures some { 0 < result.count }
    ensures within { result.count ≤ length bytes.now }
    ensures ready { IsReady Q.least_start decoder.new }
    ensures feed { feed_of decoder.new ≡ feed_of decoder.old }
    ensures pass { IsOfFeed K.table K.sources (feed_of decoder.old) pass.new }
    ensures heard { (tuning : Tuning) (begun : Claim) (before : List ℕ) →
        HasReceived Q.stands_for decoder.old tuning (share_of begun pass.old K.limit full.old) before None →
        let read = before ++ take result.count bytes.now in
        HasReceived Q.stands_for decoder.new tuning (share_of begun pass.new K.limit full.new) read result.found }
{
    let Taken { count, found } = decoder.next_entry(bytes);
    match found {
        Ok(None) => Taken { count, found: None },
        Ok(Some(entry)) => {
            recorder.enter(pass, entry, full);
            Taken { count, found: None }
        }
        Err(bad) => Taken {
            count,
            found: Some(bad.line),
        },
    }
}

// Takes a piece of a log, or stops at a bad line, by its number.
fn receive_piece<K: Recorder, Q: Receiver>(
    recorder: &K,
    decoder: &mut LogDecoder<Q>,
    pass: &mut FeedPass,
    piece: &[u8],
    full: &mut bool,
) -> Result<(), u64>
    requires ready { IsReady Q.least_start decoder.old }
    requires pass { IsOfFeed K.table K.sources (feed_of decoder.old) pass.old }
    ensures ready { IsReady Q.least_start decoder.new }
    ensures feed { feed_of decoder.new ≡ feed_of decoder.old }
    ensures pass { IsOfFeed K.table K.sources (feed_of decoder.old) pass.new }
    ensures heard { (tuning : Tuning) (begun : Claim) (bytes : List ℕ) →
        HasReceived Q.stands_for decoder.old tuning (share_of begun pass.old K.limit full.old) bytes None →
        let now = share_of begun pass.new K.limit full.new in
        TakesOrStops (λ b. HasReceived Q.stands_for decoder.new tuning now b None) (λ line b. HasMissed tuning now b line)
        (bytes ++ piece.now) result }
{
    let mut rest = piece;
    'rest: while !rest.is_empty() {
        let took = take_line(recorder, decoder, pass, rest, full);
        match took.found {
            Some(line) => return Err(line),
            None => rest = rest.split_at(took.count).1,
        }
    }
    Ok(())
}

// What takes the pieces of a log: its decoder, and the pass by which the entries are kept that are due.
#[derive(Drop)]
struct Listening<'a, K, Q: Drop> {
    recorder: &'a K,
    decoder: &'a mut LogDecoder<Q>,
    pass: &'a mut FeedPass,
    full: bool,
}

impl<K: Recorder, Q: Receiver> PieceTaker<u64> for Listening<'_, K, Q> {
    ghost use Rattle.std.specs.Borrow.{GName};
    ghost use Rattle.std.specs.Prelude.{◌^◌, ℕ, None};
    ghost use Rattle.radio_receiver.specs.Decoding.{IsReady, feed_of};
    ghost use Rattle.feed_workers.specs.Receiving.{Since, HasReceived, HasMissed};
    ghost use Rattle.feed_workers.specs.Keeping.{IsOfFeed, share_of};

    ghost Case = { Since };

    ghost has_taken = { λ listening since bytes. HasReceived Q.stands_for listening.decoder.now since.tuning
        (share_of since.begun listening.pass.now K.limit listening.full) bytes None };

    ghost has_stopped = { λ listening since line bytes. HasMissed since.tuning
        (share_of since.begun listening.pass.now K.limit listening.full) bytes line };

    // The feed, and which decoder and pass it has.
    ghost Mark = { ℕ × GName × GName };

    ghost mark = { λ listening.
        (feed_of listening.decoder.now, listening.decoder.ghost_name, listening.pass.ghost_name) };

    ghost is_ready = { λ listening. IsReady Q.least_start listening.decoder.now
        × IsOfFeed K.table K.sources (feed_of listening.decoder.now) listening.pass.now };

    ghost room = { λ listening. 2 ^ 64 };

    fn take(&mut self, piece: &[u8]) -> Result<(), u64> {
        receive_piece(
            self.recorder,
            self.decoder,
            self.pass,
            piece,
            &mut self.full,
        )
    }
}

// Why the reading of a log ended, by what came of its pieces.
fn end_of<Q: Receiver>(read: Result<FileEnd, u64>, decoder: &LogDecoder<Q>) -> LogEnd
    ensures { (tuning : Tuning) (intake : Intake) →
        EndsReceiving Q.stands_for decoder.now tuning intake read → RunsLog tuning.plan tuning.delay intake result }
{
    match read {
        Ok(FileEnd::Whole) => match decoder.finish() {
            Ok(()) => LogEnd::Whole,
            Err(bad) => LogEnd::BadLine { line: bad.line },
        },
        Ok(FileEnd::Fault) => LogEnd::Fault,
        Ok(FileEnd::TooLong) => LogEnd::Long,
        Err(line) => LogEnd::BadLine { line },
    }
}

// Reads a log of at most this many bytes, to its end, a bad line or a fault, and keeps the entries that are due.
pub fn read_log<L: Source, K: Recorder, Q: Receiver>(
    recorder: &K,
    decoder: &mut LogDecoder<Q>,
    log: &mut L,
    pass: &mut FeedPass,
    limit: usize,
) -> LogWork
    requires ready { IsReady Q.least_start decoder.old }
    requires pass { IsOfFeed K.table K.sources (feed_of decoder.old) pass.old }
    ensures log { L.opening log.new ≡ L.opening log.old }
    ensures ready { IsReady Q.least_start decoder.new }
    ensures feed { feed_of decoder.new ≡ feed_of decoder.old }
    ensures pass { IsOfFeed K.table K.sources (feed_of decoder.old) pass.new }
    ensures runs { (plan : Plan) (delay : ℕ) →
        HasDecoded Q.stands_for decoder.old (claim_of pass.old.view).number plan delay [] →
        let share = share_of (claim_of pass.old.view) pass.new K.limit result.full in
        RunsLog plan delay (intake_of (L.state log.old) (L.state log.new) limit share) result.end }
{
    let mut listening = Listening {
        recorder,
        decoder,
        pass,
        full: false,
    };
    let read = read_pieces(log, &mut listening, limit);
    let end = end_of(read, listening.decoder);
    LogWork {
        end,
        full: listening.full,
    }
}

impl<L: Source + Drop> WorkerOf<L, BoxedReceiver> {
    /// A worker over a log, with a receiver that has received nothing and the pass of its feed.
    pub fn new(receiver: BoxedReceiver, log: L, pass: FeedPass) -> RadioWorker<L>
        requires { least_start receiver ≡ 0 }
        ensures is { (result.log ≡ log) × (result.pass ≡ pass) }
        ensures ready { IsReady least_start result.decoder }
        ensures feed { feed_of result.decoder ≡ (claim_of pass.view).number }
        ensures start { (plan : Plan) (delay : ℕ) →
            stands_for receiver (record { plan = plan; delay = delay; reductions = [] }) →
            HasDecoded stands_for result.decoder (claim_of pass.view).number plan delay [] }
    {
        let decoder = LogDecoder::new(pass.number(), receiver);
        WorkerOf { decoder, log, pass }
    }

    /// Reads the log to its end, a bad line, a fault or 2^30 bytes, whichever comes first. It keeps each entry that is due where
    /// there is room. A worker that has decoded nothing yet keeps the entries of all that it reads.
    pub fn run<N: HubName, R: Wait, G: Gate>(&mut self, rt: &R, hub: &Hub<N>, gate: &G) -> LogWork
        requires ready { IsReady least_start self.old.decoder }
        requires pass { IsOfFeed N.table (length N.settings.sources) (feed_of self.old.decoder) self.old.pass }
        ensures log { L.opening self.new.log ≡ L.opening self.old.log }
        ensures pass { IsOfFeed N.table (length N.settings.sources) (feed_of self.old.decoder) self.new.pass }
        ensures runs { (plan : Plan) (delay : ℕ) →
            HasDecoded stands_for self.old.decoder (claim_of self.old.pass.view).number plan delay [] →
            RunsLog plan delay (log_intake L.state N.limit self.old self.new result) result.end }
    {
        let post = Post { rt, hub, gate };
        let WorkerOf { decoder, log, pass } = self;
        read_log(&post, decoder, log, pass, LOG_LIMIT)
    }

    /// Gives back the log and the pass. The receiver is dropped.
    pub fn give_back(self) -> (L, FeedPass)
        ensures { (result.0 ≡ self.log) × (result.1 ≡ self.pass) }
    {
        let WorkerOf { log, pass, .. } = self;
        (log, pass)
    }
}
