//! The command with which `clap` reads the arguments.
ghost use Rattle.std.specs.Prelude.{◌≡◌, IfOk, false, fold};
ghost use Rattle.clap.specs.Words.{app_of, rule_of, with_rule};
ghost use Rattle.command_words.specs.Matches.{app, option_rule};

use clap::{Arg, ArgAction, Command};
use std::alloc::{AllocError, Global};

// The options of all commands.
pub const OPTIONS: [&str; 9] = [
    "plan", "log", "station", "script", "journal", "during", "after", "seed", "limit",
];

fn option<'a>(alloc: Global, name: &'a str) -> Arg<'a>
    ensures rule { rule_of result ≡ option_rule name.entry.now }
    ensures own { result.global ≡ false }
{
    Arg::new(alloc, name).long(name).action(ArgAction::Set)
}

// The command with one more option for each name.
fn with_options<'a>(
    alloc: Global,
    command: Command<'a>,
    names: &[&'a str],
) -> Result<Command<'a>, AllocError>
    ensures { IfOk result
        (λ c. app_of c ≡ fold (λ a w. with_rule a (option_rule w.now)) (app_of command.entry) names.entry.now) }
{
    let mut command = command;
    for name in names {
        command = command.arg(option(alloc, name))?;
    }
    Ok(command)
}

// One command word and the options of all commands, each with one value. The check of which command has which option comes after
// the parse.
pub fn grammar<'a>(alloc: Global) -> Result<Command<'a>, AllocError>
    ensures { IfOk result (λ c. app_of c ≡ app) }
{
    let command = Command::new(alloc, "radio_ntpd")
        .no_binary_name(true)
        .disable_help_flag(true)
        .disable_version_flag(true)
        .arg(Arg::new(alloc, "command").action(ArgAction::Set))?;
    with_options(alloc, command, &OPTIONS)
}
