//! Reads the arguments of a command line.
ghost use Rattle.std.specs.Prelude.{◌≡◌, Some, map, IfOk, IfErr};
ghost use Rattle.command_words.specs.Commands.{Asked, asked, AskFor, HasLimit};
ghost use Rattle.command_words.specs.Faults.{fault_of, wrong};
ghost use Rattle.command_words.specs.declared.commands.Fault.{Fault};

use crate::commands::{Command, WordsFault};
use crate::faults::refusal;
use crate::grammar::grammar;
use crate::rows::command;
use clap::error::ErrorKind;
use std::alloc::Global;

/// The command that the arguments of a command line ask for, without the program's name.
///
/// Fails with `Usage` and the first fault exactly where the arguments ask for no command, and with `Memory` where memory runs out.
pub fn read_words<'a>(alloc: Global, words: &'a [&'a str]) -> Result<Command<'a>, WordsFault<'a>>
    ensures asked { IfOk result (λ c. AskFor (map (λ w. w.now) words.entry.now) (asked c)) }
    ensures limits { IfOk result HasLimit }
    ensures only { (a : Asked) → AskFor (map (λ w. w.now) words.entry.now) a → IfOk result (λ c. asked c ≡ a) }

    // Arguments that `clap` refuses belong to no command.
    ensures usage { IfErr result (λ e. (fault : Fault) → e ≡ WordsFault.Usage fault → (a : Asked) →
        AskFor (map (λ w. w.now) words.entry.now) a → ⊥) }

    // They have this fault first.
    ensures reason { IfErr result (λ e. (fault : Fault) → e ≡ WordsFault.Usage fault →
        fault_of (map (λ w. w.now) words.entry.now) ≡ Some (wrong fault)) }
{
    let Ok(grammar) = grammar(alloc) else {
        return Err(WordsFault::Memory);
    };
    let matches = match grammar.try_get_matches_from(words) {
        Ok(matches) => matches,
        Err(error) => {
            return Err(match error.kind() {
                ErrorKind::OutOfMemory => WordsFault::Memory,
                _ => refusal(alloc, words),
            });
        }
    };
    match command(&matches) {
        Some(command) => Ok(command),
        None => Err(refusal(alloc, words)),
    }
}
