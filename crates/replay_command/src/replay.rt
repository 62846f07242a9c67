//! `replay`: plays a script against a station, line by line.
ghost use Rattle.std.specs.Prelude.{◌≡◌, ◌≤◌, ◌^◌, ◌⊎◌, [], None, IfOk, MatchResult};
ghost use Rattle.file_reader.specs.declared.reader.FileEnd.TheVariants.{Whole};
ghost use Rattle.command_ends.specs.Effects.{effect_of};
ghost use Rattle.line_files.specs.Keeping.{TriesFile};
ghost use Rattle.line_files.specs.LineFiles.{RunsThrough};
ghost use Rattle.replay_command.specs.Replaying.{RunsReplay, replay_ending, script_of};
ghost use Rattle.command_ends.specs.Reports.{Reports, status_in};
ghost use Rattle.command_ends.specs.Unopened.{Lacks};
ghost use Rattle.command_ends.specs.StationFile.{IsObstacle};
ghost use Rattle.station_gear.specs.Racks.{IsRack};
ghost use Rattle.replay_command.specs.KeptPlayer.{HasPlayed, IsReady};
ghost use Rattle.replay_command.specs.Replay.{case_of};
ghost use Rattle.station_reader.specs.Faults.{Says};
ghost use Rattle.station_values.specs.Station.{StationFields};

mod lines;

use crate::{BoxedReceiver, Player};
use command_ends::{
    Ending, Known, Obstacle, Outcome, Report, STATION_LIMIT, Subject, finish, finish_at,
    finish_page, judge, open_station,
};
use file_reader::{FileEnd, LogEnd};
use line_files::{ByLine, ending_at, read_lines};
use lines::TOO_LONG;
use outside_traits::{Failed, Outside, Sink, Source};
use radio_receiver::Receiver;
use std::alloc::{AllocError, Global};

/// The most bytes of a script.
pub const SCRIPT_LIMIT: usize = 1 << 26;

// How a command ends that has played a script so far, where entries were lost or not.
fn replay_ending(end: LogEnd, lost: bool, limit: u32) -> Ending
    ensures { result ≡ replay_ending end lost limit }
{
    match end {
        LogEnd::Whole | LogEnd::Long if lost => Ending::Full(limit),
        end => ending_at(Subject::Script, end),
    }
}

// Plays a script to its end: writes what its lines give, then the page of the entries kept and the status line.
fn play_whole<S: Source, K: Sink>(
    script: &mut S,
    player: Player<BoxedReceiver>,
    limit: u32,
    out: &mut K,
) -> Report
    requires { IsReady least_start player }
    ensures number { S.opening script.new ≡ S.opening script.old }
    ensures replays { (station : StationFields) → HasPlayed stands_for player (case_of station limit) [] →
        RunsThrough (script_of limit station) (S.state script.old) (S.state script.new) (K.state out.old)
        (K.state out.new) (status_in result) }
    ensures reports { (station : StationFields) → HasPlayed stands_for player (case_of station limit) [] →
        Reports result (K.state out.old) (K.state out.new) }
{
    let mut lines = ByLine::new(player, TOO_LONG, None);
    match read_lines(script, &mut lines, SCRIPT_LIMIT, out) {
        Ok(end) => {
            let page = lines.taker.page();
            let ending = replay_ending(end, lines.taker.is_full(), limit);
            finish_page(&page, ending, out)
        }
        Err(Failed) => Report::Unwritten,
    }
}

// Opens a script, replays it and gives it back.
fn open_and_play<O: Outside, K: Sink>(
    name: &str,
    player: Player<BoxedReceiver>,
    limit: u32,
    outside: &mut O,
    out: &mut K,
) -> Report
    requires { IsReady least_start player }
    ensures gate { O.gate_out outside.new ≡ O.gate_out outside.old }
    ensures tried { (station : StationFields) → HasPlayed stands_for player (case_of station limit) [] →
        TriesFile Subject.Script (script_of limit station) name.now
        (effect_of (O.state outside.old) (O.state outside.new) (K.state out.old) (K.state out.new) (status_in result)) }
    ensures reports { (station : StationFields) → HasPlayed stands_for player (case_of station limit) [] →
        Reports result (K.state out.old) (K.state out.new) }
{
    let Ok(mut script) = outside.open_log(name) else {
        return finish(Ending::NotOpened(Subject::Script), out);
    };
    let report = play_whole(&mut script, player, limit, out);
    outside.give_back_log(script);
    report
}

// The player of a station file whose reading ended in this way, or what keeps the station from being used.
fn prepare(
    alloc: Global,
    end: FileEnd,
    text: &[u8],
    rack: Vec<BoxedReceiver>,
    limit: u32,
) -> Result<Player<BoxedReceiver>, Obstacle>
    requires rack { IsRack stands_for rack.items }
    requires most { limit ≤ 2 ^ 22 }
    ensures ready { IfOk result (IsReady least_start) }
    ensures judged { MatchResult result
        (λ player. (end ≡ Whole) × ((of : StationFields) × Says text.now of ×
        HasPlayed stands_for player (case_of of limit) []))
        (λ obstacle. IsObstacle end text.now obstacle) }
{
    let station = match judge(alloc, end, text) {
        Ok(station) => station,
        Err(obstacle) => return Err(obstacle),
    };
    match Player::new(alloc, &station, rack, limit) {
        Ok(player) => Ok(player),
        Err(_) => Err(Obstacle::Ends(Ending::NoMemory)),
    }
}

/// Runs a script against a station, with at most this many entries. All memory is taken before the first line is written.
pub fn run_replay<O: Outside, K: Sink>(
    alloc: Global,
    station: &str,
    script: &str,
    limit: u32,
    rack: Vec<BoxedReceiver>,
    outside: &mut O,
    out: &mut K,
) -> Outcome
    requires rack { IsRack stands_for rack.items }
    requires most { limit ≤ 2 ^ 22 }
    ensures gate { O.gate_out outside.new ≡ O.gate_out outside.old }
    ensures runs { let effect = effect_of (O.state outside.old) (O.state outside.new) (K.state out.old)
        (K.state out.new) (status_in result.report) in
        Lacks effect ⊎ RunsReplay station.now script.now limit effect }
    ensures reports { Reports result.report (K.state out.old) (K.state out.new) }
{
    let Ok(mut text) = Vec::with_capacity(alloc, STATION_LIMIT) else {
        return Outcome {
            report: finish(Ending::NoMemory, out),
            known: Known::nothing(),
        };
    };
    let Ok(end) = open_station(station, &mut text, outside) else {
        return Outcome {
            report: finish(Ending::NotOpened(Subject::Station), out),
            known: Known::nothing(),
        };
    };
    match prepare(alloc, end, text.as_slice(), rack, limit) {
        Ok(player) => Outcome {
            report: open_and_play(script, player, limit, outside, out),
            known: Known::nothing(),
        },
        Err(obstacle) => Outcome {
            report: finish_at(obstacle, out),
            known: Known::of_text(text),
        },
    }
}
