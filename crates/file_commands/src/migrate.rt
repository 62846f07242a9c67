//! `migrate`: reads a journal of either form against a station, line by line, and writes it in the second form.
ghost use Rattle.std.specs.Prelude.{◌≡◌, ◌⊎◌, [], None, IfOk, MatchResult};
ghost use Rattle.file_reader.specs.declared.reader.FileEnd.TheVariants.{Whole};
ghost use Rattle.command_ends.specs.Effects.{effect_of};
ghost use Rattle.line_files.specs.Keeping.{TriesFile};
ghost use Rattle.line_files.specs.LineFiles.{RunsThrough};
ghost use Rattle.file_commands.specs.Migrating.{RunsMigrate, journal_of, migrate_ending};
ghost use Rattle.file_commands.specs.Moving.{HasMoved};
ghost use Rattle.command_ends.specs.Reports.{Reports, status_in};
ghost use Rattle.command_ends.specs.Unopened.{Lacks};
ghost use Rattle.command_ends.specs.StationFile.{IsObstacle};
ghost use Rattle.station_reader.specs.Faults.{Says};
ghost use Rattle.station_values.specs.Station.{StationFields, settings_of};

mod mover;

use command_ends::{
    Ending, Known, Obstacle, Outcome, Report, STATION_LIMIT, Subject, finish, finish_at,
    finish_page, judge, open_station,
};
use file_reader::{FileEnd, LogEnd};
use line_files::{ByLine, ending_at, read_lines};
use mover::{MOST_LINES, Mover, TOO_LONG};
use outside_traits::{Failed, Outside, Sink, Source};
use std::alloc::Global;

/// The most bytes of a journal.
pub const JOURNAL_LIMIT: usize = 1 << 30;

// The line after the last that a journal may have.
const LINE_AFTER: u64 = MOST_LINES + 1;

// How a command ends that has converted the lines of a journal so far.
fn migrate_ending(end: LogEnd) -> Ending
    ensures { result ≡ migrate_ending end }
{
    match end {
        LogEnd::BadLine { line: LINE_AFTER } => Ending::Full(MOST_LINES as u32),
        end => ending_at(Subject::Journal, end),
    }
}

// Converts a journal to its end: writes its lines in the second form, then the page of their entries and the status line.
fn move_whole<S: Source, K: Sink>(journal: &mut S, mover: Mover, out: &mut K) -> Report
    requires { mover.fold.length ≡ 0 }
    ensures number { S.opening journal.new ≡ S.opening journal.old }
    ensures runs { (of : StationFields) → HasMoved mover (settings_of of) [] None →
        RunsThrough (journal_of of) (S.state journal.old) (S.state journal.new) (K.state out.old)
        (K.state out.new) (status_in result) }
    ensures reports { (of : StationFields) → HasMoved mover (settings_of of) [] None →
        Reports result (K.state out.old) (K.state out.new) }
{
    let mut lines = ByLine::new(mover, TOO_LONG, Some(MOST_LINES));
    match read_lines(journal, &mut lines, JOURNAL_LIMIT, out) {
        Ok(end) => finish_page(&lines.taker.page(), migrate_ending(end), out),
        Err(Failed) => Report::Unwritten,
    }
}

// Opens a journal, converts it and gives it back.
fn open_and_move<O: Outside, K: Sink>(
    name: &str,
    mover: Mover,
    outside: &mut O,
    out: &mut K,
) -> Report
    requires { mover.fold.length ≡ 0 }
    ensures gate { O.gate_out outside.new ≡ O.gate_out outside.old }
    ensures tried { (of : StationFields) → HasMoved mover (settings_of of) [] None →
        TriesFile Subject.Journal (journal_of of) name.now
        (effect_of (O.state outside.old) (O.state outside.new) (K.state out.old) (K.state out.new) (status_in result)) }
    ensures reports { (of : StationFields) → HasMoved mover (settings_of of) [] None →
        Reports result (K.state out.old) (K.state out.new) }
{
    let Ok(mut journal) = outside.open_log(name) else {
        return finish(Ending::NotOpened(Subject::Journal), out);
    };
    let report = move_whole(&mut journal, mover, out);
    outside.give_back_log(journal);
    report
}

// The mover for a station file whose reading ended in this way, or what keeps the station from being used.
fn prepare(alloc: Global, end: FileEnd, text: &[u8]) -> Result<Mover, Obstacle>
    ensures none { IfOk result (λ mover. mover.fold.length ≡ 0) }
    ensures judged { MatchResult result
        (λ mover. (end ≡ Whole) × ((of : StationFields) × Says text.now of × HasMoved mover (settings_of of) [] None))
        (λ obstacle. IsObstacle end text.now obstacle) }
{
    match judge(alloc, end, text) {
        Ok(station) => Ok(Mover::new(station.settings())),
        Err(obstacle) => Err(obstacle),
    }
}

/// Converts a journal of a station to the second form. All memory is taken before the first line is written.
pub fn run_migrate<O: Outside, K: Sink>(
    alloc: Global,
    station: &str,
    journal: &str,
    outside: &mut O,
    out: &mut K,
) -> Outcome
    ensures gate { O.gate_out outside.new ≡ O.gate_out outside.old }
    ensures runs { let effect = effect_of (O.state outside.old) (O.state outside.new) (K.state out.old)
        (K.state out.new) (status_in result.report) in
        Lacks effect ⊎ RunsMigrate station.now journal.now effect }
    ensures reports { Reports result.report (K.state out.old) (K.state out.new) }
{
    let Ok(mut text) = Vec::with_capacity(alloc, STATION_LIMIT) else {
        return Outcome {
            report: finish(Ending::NoMemory, out),
            known: Known::nothing(),
        };
    };
    let Ok(end) = open_station(station, &mut text, outside) else {
        return Outcome {
            report: finish(Ending::NotOpened(Subject::Station), out),
            known: Known::nothing(),
        };
    };
    match prepare(alloc, end, text.as_slice()) {
        Ok(mover) => Outcome {
            report: open_and_move(journal, mover, outside, out),
            known: Known::nothing(),
        },
        Err(obstacle) => Outcome {
            report: finish_at(obstacle, out),
            known: Known::of_text(text),
        },
    }
}
