// What a command line asks for.

use tick_units::Plan;

/// A command with the values of its options.
#[derive(Clone, Copy, Debug, PartialEq, Eq)]
pub enum Command<'a> {
    /// `decode`: decode one log by one code plan.
    Decode {
        plan: Plan,
        log: &'a str,
    },
    /// `replay`: run a script against a station, with at most `limit` entries (1 to 4194304).
    Replay {
        station: &'a str,
        script: &'a str,
        limit: u32,
    },
    /// `serve`: serve a station, with at most `limit` entries (1 to 4194304). Each serving link has `during` hearings beside the
    /// feeds, and `after` hearings after them (0 to 1000000 each).
    Serve {
        station: &'a str,
        during: u64,
        after: u64,
        limit: u32,
    },
    /// `drill`: make up a day of three radios from this seed and serve it, with at most `limit` entries (1 to 4194304).
    Drill {
        seed: u32,
        limit: u32,
    },
    /// `migrate`: write a journal of a station anew, in the second form of its lines.
    Migrate {
        station: &'a str,
        journal: &'a str,
    },
}

/// What is wrong with arguments that ask for no command.
#[derive(Clone, Copy, Debug, PartialEq, Eq)]
pub enum Fault<'a> {
    /// An argument begins with a hyphen, and no command has such an option.
    UnknownOption(&'a str),
    /// An option is the last argument, or what follows it is empty or begins with a hyphen.
    NoValue {
        option: &'a str,
        next: &'a str,
    },
    /// There are no arguments.
    NoArguments,
    /// Each argument is an option or its value.
    NoCommand,
    /// This word is no command.
    UnknownCommand(&'a str),
    /// There are two commands.
    TwoCommands(&'a str, &'a str),
    /// A word stands beside the command, as where its option is missing: `due` is one that the command needs.
    SecondWord {
        command: &'a str,
        word: &'a str,
        due: &'a str,
    },
    /// An option is given twice.
    Twice(&'a str),
    /// An option is not the command's.
    Foreign {
        command: &'a str,
        option: &'a str,
    },
    /// An option may not have its value.
    OutOfRange(&'a str),
    /// The command needs this option.
    Missing {
        command: &'a str,
        option: &'a str,
    },
}

/// Why arguments were refused.
#[derive(Clone, Copy, Debug, PartialEq, Eq)]
pub enum WordsFault<'a> {
    /// The arguments ask for no command, and this is their first fault.
    Usage(Fault<'a>),
    /// Memory ran out.
    Memory,
}
