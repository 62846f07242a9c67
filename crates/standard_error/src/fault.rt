//! The sentence on what is wrong in the arguments.

use crate::texts::{PLAN_WORDS, write_texts};
use command_words::Fault;
use std::fmt;

// What an option requires of its value, where that is no name of a file.
fn wants(option: &str) -> Option<&'static str> {
    match option {
        "plan" => Some(PLAN_WORDS),
        "during" | "after" => Some("a whole number from 0 to 1000000"),
        "seed" => Some("a whole number from 0 to 4294967295"),
        "limit" => Some("a whole number from 1 to 4194304"),
        _ => None,
    }
}

// An option requires another value.
fn write_wants<W: fmt::Write>(option: &str, f: &mut fmt::Formatter<W>) -> fmt::Result {
    write_texts(f, "--", option, " wants ")?;
    f.write_str(wants(option).unwrap_or("another value"))
}

// An option has no value, but this text after it.
fn write_no_value<W: fmt::Write>(
    option: &str,
    next: &str,
    f: &mut fmt::Formatter<W>,
) -> fmt::Result {
    if next.is_empty() || next.starts_with("--") {
        return write_texts(f, "--", option, " has no value");
    }
    if wants(option).is_some() {
        return write_wants(option, f);
    }
    f.write_str("--")?;
    if next == "-" {
        let wanted = " wants a file's name; standard input is /dev/stdin";
        return write_texts(f, option, wanted, "");
    }
    write_texts(f, option, " has no value: ", next)?;
    f.write_str(" begins with a hyphen; write ./ before such a name")
}

// There are two commands.
fn write_two<W: fmt::Write>(first: &str, second: &str, f: &mut fmt::Formatter<W>) -> fmt::Result {
    f.write_str("two commands, ")?;
    write_texts(f, first, " and ", second)
}

// A word stands beside a command.
fn write_second<W: fmt::Write>(
    command: &str,
    word: &str,
    due: &str,
    f: &mut fmt::Formatter<W>,
) -> fmt::Result {
    if word.starts_with('-') {
        return write_two(command, word, f);
    }
    if due == "seed" {
        return write_texts(f, word, " stands alone: a number goes after --", due);
    }
    write_texts(f, word, " stands alone: a file goes after --", due)
}

/// Writes the sentence on a fault, without a line feed.
pub fn write_fault<W: fmt::Write>(fault: Fault<'_>, f: &mut fmt::Formatter<W>) -> fmt::Result {
    match fault {
        Fault::UnknownOption(text) => write_texts(f, "unknown option ", text, ""),
        Fault::NoValue { option, next } => write_no_value(option, next, f),
        Fault::NoArguments | Fault::NoCommand => f.write_str("no command"),
        Fault::UnknownCommand(word) => write_texts(f, "unknown command ", word, ""),
        Fault::TwoCommands(first, second) => write_two(first, second, f),
        Fault::SecondWord { command, word, due } => write_second(command, word, due, f),
        Fault::Twice(option) => write_texts(f, "--", option, " is given twice"),
        Fault::Foreign { command, option } => {
            write_texts(f, command, " has no option --", option)
        }
        Fault::Missing { command, option } => write_texts(f, command, " needs --", option),
        Fault::OutOfRange(option) => write_wants(option, f),
    }
}
