//! The one call that the program makes.
ghost use Rattle.std.specs.Prelude.{◌≡◌, ◌⊎◌, Err, IfOk, Some, false, map};
ghost use Rattle.command_words.specs.Commands.{Asked, AskFor, HasLimit, asked};
ghost use Rattle.command_words.specs.Faults.{fault_of, wrong};
ghost use Rattle.command_words.specs.declared.commands.Fault.{Fault};
ghost use Rattle.outside_traits.specs.Faults.{Rose};
ghost use Rattle.command_ends.specs.Effects.{effect_of};
ghost use Rattle.command_ends.specs.Endings.{status_of, status_line};
ghost use Rattle.radio_engine.specs.Run.{Runs, IsComplete, IsFaultless};
ghost use Rattle.command_ends.specs.Reports.{Reports, status_in};
ghost use Rattle.command_ends.specs.Unopened.{Refuses, Lacks};
ghost use Rattle.command_ends.specs.Writing.{Answers};
ghost use Rattle.command_ends.specs.declared.ending.Ending.TheVariants.{NoMemory};
ghost use Rattle.station_gear.specs.Racks.{IsRack};

use crate::drill::run_drill;
use crate::serve::run_serve;
use command_ends::{Ending, Known, Outcome, Status, finish};
use command_words::{Command, WordsFault, read_words};
use file_commands::{open_and_decode, run_migrate};
use outside_traits::{Outside, Sink};
use radio_receiver::Receiver;
use replay_command::run_replay;
use station_crew::{Budget, Orders};
use std::alloc::Global;
use std::sync::Wait;
use std::thread::Threads;

/// What came of a command where there was not enough memory before anything was opened: writes the status line.
pub fn end_without_memory<K: Sink>(out: &mut K) -> Outcome
    ensures answers { Answers (status_of NoMemory) (status_in result.report) (K.state out.old) (K.state out.new) (status_line NoMemory) }
    ensures reports { Reports result.report (K.state out.old) (K.state out.new) }
{
    Outcome {
        report: finish(Ending::NoMemory, out),
        known: Known::nothing(),
    }
}

/// What came of arguments.
#[derive(Drop)]
pub struct Answer<'a> {
    /// The command that they ask for, or what is wrong with them.
    pub asked: Result<Command<'a>, WordsFault<'a>>,
    /// What came of the command.
    pub outcome: Outcome,
}

// Runs a command.
fn run_command<R: Threads + Wait + Sync, O: Outside, K: Sink>(
    rt: &R,
    alloc: Global,
    command: Command<'_>,
    rack: Vec<Box<dyn Receiver + Send>>,
    outside: &mut O,
    out: &mut K,
) -> Outcome
    requires rack { IsRack stands_for rack.items }
    requires gate { O.gate_out outside.old ≡ false }
    requires limit { HasLimit command }
    ensures gate { O.gate_out outside.new ≡ O.gate_out outside.old }
    ensures runs { let effect = effect_of (O.state outside.old) (O.state outside.new) (K.state out.old)
        (K.state out.new) (status_in result.report) in Lacks effect ⊎ Runs (asked command.entry) effect }
    ensures reports { Reports result.report (K.state out.old) (K.state out.new) }
{
    match command {
        Command::Decode { plan, log } => open_and_decode(plan, log, outside, out),
        Command::Replay {
            station,
            script,
            limit,
        } => run_replay(alloc, station, script, limit, rack, outside, out),
        Command::Drill { seed, limit } => run_drill(rt, alloc, seed, limit, rack, outside, out),
        Command::Migrate { station, journal } => run_migrate(alloc, station, journal, outside, out),
        Command::Serve {
            station,
            during,
            after,
            limit,
        } => {
            let budget = Budget { during, after };
            let orders = Orders { limit, budget };
            run_serve(rt, alloc, station, orders, rack, outside, out)
        }
    }
}

/// Runs the command that the arguments spell, as `run_station` does, and answers what came of it.
pub fn run_to_outcome<'a, R: Threads + Wait + Sync, O: Outside, K: Sink>(
    rt: &R,
    alloc: Global,
    words: &'a [&'a str],
    rack: Vec<Box<dyn Receiver + Send>>,
    outside: &mut O,
    out: &mut K,
) -> Answer<'a>
    requires rack { IsRack stands_for rack.items }
    requires gate { O.gate_out outside.old ≡ false }
    ensures gate { O.gate_out outside.new ≡ O.gate_out outside.old }

    // Refuses arguments that ask for no command, and opens nothing.
    ensures refused { let effect = effect_of (O.state outside.old) (O.state outside.new) (K.state out.old)
        (K.state out.new) (status_in result.outcome.report) in
        ((asked : Asked) → AskFor (map (λ w. w.now) words.entry.now) asked → ⊥) → Refuses effect ⊎ Lacks effect }

    // Runs the command that they ask for: what it opens, reads, writes and gives back, and the cause of its answer.
    ensures runs { let effect = effect_of (O.state outside.old) (O.state outside.new) (K.state out.old)
        (K.state out.new) (status_in result.outcome.report) in
        (asked : Asked) → AskFor (map (λ w. w.now) words.entry.now) asked → Lacks effect ⊎ Runs asked effect }

    // Where nothing has a fault, all is done.
    ensures complete { (asked : Asked) → AskFor (map (λ w. w.now) words.entry.now) asked →
        IsFaultless asked (O.state outside.old) (O.state outside.new) →
        (Rose (K.state out.old).faults (K.state out.new).faults → ⊥) →
        IsComplete asked (status_in result.outcome.report) }

    // The last line that it writes reports what came of it.
    ensures reports { Reports result.outcome.report (K.state out.old) (K.state out.new) }

    // The command that the arguments ask for; or else, where the status says so, their first fault.
    ensures asked { IfOk result.asked (λ c. AskFor (map (λ w. w.now) words.entry.now) (asked c)) }
    ensures usage { ((asked : Asked) → AskFor (map (λ w. w.now) words.entry.now) asked → ⊥) →
        status_in result.outcome.report ≡ Status.Usage →
        (fault : Fault) × (result.asked ≡ Err (WordsFault.Usage fault)) × (fault_of (map (λ w. w.now) words.entry.now) ≡ Some (wrong fault)) }
{
    match read_words(alloc, words) {
        Ok(command) => Answer {
            asked: Ok(command),
            outcome: run_command(rt, alloc, command, rack, outside, out),
        },
        Err(WordsFault::Usage(fault)) => Answer {
            asked: Err(WordsFault::Usage(fault)),
            outcome: Outcome {
                report: finish(Ending::WrongWords, out),
                known: Known::nothing(),
            },
        },
        Err(WordsFault::Memory) => Answer {
            asked: Err(WordsFault::Memory),
            outcome: end_without_memory(out),
        },
    }
}

/// Runs the command that the arguments spell. `decode` opens its log once, writes a line for each answer as it comes and then the
/// status line, and gives back the log. `replay` reads its station, plays its script line by line with receivers of the rack, and
/// writes what each line gives. Then it writes the page of the entries kept and the status line. `migrate` reads its station,
/// converts its journal line by line, and then writes the page of the entries and the status line. `serve` reads its station, and
/// opens its logs and links in order. It runs the workers of its feeds beside the responders of its serving links, and then these
/// alone. It gives back all, also the outside's gate. Then it writes the journal, a line for each serving link, the page of the
/// journal and the status line. `drill` makes up a day of three radios in memory, and runs the workers of these radios with the
/// outside's gate. It writes how many answers of each kind each radio got, the page of the journal and the status line; it opens
/// nothing.
///
/// The rack holds at least four blank receivers of each plan. Those of a plan are used in the rack's order.
pub fn run_station<R: Threads + Wait + Sync, O: Outside, K: Sink>(
    rt: &R,
    alloc: Global,
    words: &[&str],
    rack: Vec<Box<dyn Receiver + Send>>,
    outside: &mut O,
    out: &mut K,
) -> Status
    requires rack { IsRack stands_for rack.items }
    requires gate { O.gate_out outside.old ≡ false }
    ensures gate { O.gate_out outside.new ≡ O.gate_out outside.old }

    // Refuses arguments that ask for no command, and opens nothing.
    ensures refused { let effect = effect_of (O.state outside.old) (O.state outside.new) (K.state out.old)
        (K.state out.new) result in
        ((asked : Asked) → AskFor (map (λ w. w.now) words.now) asked → ⊥) → Refuses effect ⊎ Lacks effect }

    // Runs the command that they ask for: what it opens, reads, writes and gives back, and the cause of its answer.
    ensures runs { let effect = effect_of (O.state outside.old) (O.state outside.new) (K.state out.old)
        (K.state out.new) result in
        (asked : Asked) → AskFor (map (λ w. w.now) words.now) asked → Lacks effect ⊎ Runs asked effect }

    // Where nothing has a fault, all is done.
    ensures complete { (asked : Asked) → AskFor (map (λ w. w.now) words.now) asked →
        IsFaultless asked (O.state outside.old) (O.state outside.new) →
        (Rose (K.state out.old).faults (K.state out.new).faults → ⊥) →
        IsComplete asked result }
{
    run_to_outcome(rt, alloc, words, rack, outside, out)
        .outcome
        .status()
}
