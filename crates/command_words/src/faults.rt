//! What is wrong with arguments that ask for no command.
ghost use Rattle.std.specs.Prelude.{◌≡◌, ◌<◌, ◌^◌, MatchOption, None, Option, Some, [], ◌∷◌, map, option_map};
ghost use Rattle.std.specs.List.{list_any};
ghost use Rattle.std.specs.Str.{bytes_eq};
ghost use Rattle.command_words.specs.Faults.{command_fault, due, fault_of, first_of, is_given, is_good, is_number, need_fault, one_fault, option_fault, part, parts_fault, second_word, shape_in, shape_of, text_with, texts_with, two_fault, wrong};
ghost use Rattle.command_words.specs.Matches.{text_of};
ghost use Rattle.command_words.specs.declared.commands.Fault.{Fault};

use crate::arguments::{Argument, read_arguments};
use crate::commands::{Fault, WordsFault};
use crate::grammar::OPTIONS;
use crate::rows::{DECODE, DRILL, MIGRATE, MOST, MOST_HEARINGS, MOST_SEED, REPLAY, SERVE, is_in};
use decimal_text::whole_number;
use std::alloc::Global;
use tick_units::Plan;

// A command: its options, those that it needs, and the last of these.
#[derive(Clone, Copy)]
struct Shape {
    name: &'static str,
    row: &'static [&'static str],
    needs: &'static [&'static str],
    last: &'static str,
}

fn shape_of(word: &str) -> Option<Shape>
    ensures { option_map shape_in result ≡ shape_of word.now }
{
    let (name, row, needs, last): (
        &'static str,
        &'static [&'static str],
        &'static [&'static str],
        &'static str,
    ) = match word {
        "decode" => ("decode", &DECODE, &["plan", "log"], "log"),
        "replay" => ("replay", &REPLAY, &["station", "script"], "script"),
        "serve" => ("serve", &SERVE, &["station"], "station"),
        "drill" => ("drill", &DRILL, &["seed"], "seed"),
        "migrate" => ("migrate", &MIGRATE, &["station", "journal"], "journal"),
        _ => return None,
    };
    Some(Shape {
        name,
        row,
        needs,
        last,
    })
}

impl<'a> Argument<'a> {
    // Its text, where it is a value of this option, or a command word where there is no option.
    fn text_with(&self, option: Option<&str>) -> Option<&'a str>
        ensures { option_map (λ t. t.now) result ≡ text_with (text_of option.entry) (part self.now) }
    {
        match (option, self.option) {
            (None, None) => Some(self.text),
            (Some(name), Some(option)) if option == name => Some(self.text),
            _ => None,
        }
    }
}

// The first value of an option, or the first command word, and the arguments after it.
fn next_text<'a, 'b>(
    read: &'b [Argument<'a>],
    option: Option<&str>,
) -> Option<(&'a str, &'b [Argument<'a>])>
    ensures { MatchOption result (texts_with (text_of option.entry) (map part read.entry.now) ≡ [])
        (λ found. texts_with (text_of option.entry) (map part read.entry.now)
        ≡ found.0.now ∷ texts_with (text_of option.entry) (map part found.1.now)) }
{
    let mut rest = read;
    'arguments: while let [argument, more @ ..] = rest {
        if let Some(text) = argument.text_with(option) {
            return Some((text, more));
        }
        rest = more;
    }
    None
}

fn is_given(read: &[Argument<'_>], name: &str) -> bool
    ensures { result ≡ is_given (map part read.now) name.now }
{
    match next_text(read, Some(name)) {
        Some(_) => true,
        None => false,
    }
}

// A whole number from `least` to `most`, in its one spelling.
fn is_number(text: &str, least: u64, most: u64) -> bool
    requires { most < 2 ^ 60 }
    ensures { result ≡ is_number least most text.now }
{
    match whole_number(text.as_bytes(), most) {
        Some(number) => least <= number,
        None => false,
    }
}

// Whether an option may have this value, of those that are values.
fn is_good(option: &str, value: &str) -> bool
    ensures { result ≡ is_good option.now value.now }
{
    match option {
        "plan" => Plan::of_word(value).is_some(),
        "during" => is_number(value, 0, MOST_HEARINGS),
        "after" => is_number(value, 0, MOST_HEARINGS),
        "seed" => is_number(value, 0, MOST_SEED),
        "limit" => is_number(value, 1, MOST),
        _ => true,
    }
}

impl Shape {
    // What is wrong with an option, where it is given.
    fn option_fault<'a>(&self, read: &[Argument<'a>], name: &'static str) -> Option<Fault<'a>>
        ensures { option_map wrong result ≡ option_fault (map part read.now) (shape_in self.now) name.now }
    {
        let (value, rest) = next_text(read, Some(name))?;
        if let Some(_) = next_text(rest, Some(name)) {
            return Some(Fault::Twice(name));
        }
        if !is_in(self.row, name) {
            return Some(Fault::Foreign {
                command: self.name,
                option: name,
            });
        }
        if is_good(name, value) {
            return None;
        }
        Some(Fault::OutOfRange(name))
    }

    // What is wrong with the first option that has a fault.
    fn first_option_fault<'a>(
        &self,
        read: &[Argument<'a>],
        names: &[&'static str],
    ) -> Option<Fault<'a>>
        ensures { option_map wrong result ≡ first_of (option_fault (map part read.now) (shape_in self.now)) (map (λ w. w.now) names.now) }
    {
        let mut rest = names;
        'names: while let [name, more @ ..] = rest {
            if let Some(fault) = self.option_fault(read, name) {
                return Some(fault);
            }
            rest = more;
        }
        None
    }

    // The first option that the command needs and does not have.
    fn need_fault<'a>(&self, read: &[Argument<'a>], names: &[&'static str]) -> Option<Fault<'a>>
        ensures { option_map wrong result ≡ first_of (need_fault (map part read.now) (shape_in self.now)) (map (λ w. w.now) names.now) }
    {
        let mut rest = names;
        'names: while let [name, more @ ..] = rest {
            if !is_given(read, name) {
                return Some(Fault::Missing {
                    command: self.name,
                    option: name,
                });
            }
            rest = more;
        }
        None
    }

    // What is wrong with the command's options.
    fn fault<'a>(&self, read: &[Argument<'a>]) -> Option<Fault<'a>>
        ensures { option_map wrong result ≡ command_fault (map part read.now) (shape_in self.now) }
    {
        match self.first_option_fault(read, &OPTIONS) {
            Some(fault) => Some(fault),
            None => self.need_fault(read, self.needs),
        }
    }

    // The option that one more word may be meant for.
    fn due(&self, read: &[Argument<'_>]) -> &'static str
        ensures { result.now ≡ due (map part read.now) (shape_in self.now) }
    {
        let mut rest = self.needs;
        'names: while let [name, more @ ..] = rest {
            if *name != "plan" && !is_given(read, name) {
                return name;
            }
            rest = more;
        }
        self.last
    }

    // What is wrong where a word stands beside the command.
    fn second_word<'a>(&self, read: &[Argument<'a>], word: &'a str) -> Fault<'a>
        ensures { wrong result ≡ second_word self.now.name.now word.entry.now (due (map part read.now) (shape_in self.now)) }
    {
        Fault::SecondWord {
            command: self.name,
            word,
            due: self.due(read),
        }
    }
}

// What is wrong with the first two words.
fn two_fault<'a>(read: &[Argument<'a>], first: &'a str, second: &'a str) -> Fault<'a>
    ensures { wrong result ≡ two_fault (map part read.now) first.entry.now second.entry.now (shape_of first.entry.now) (shape_of second.entry.now) }
{
    match (shape_of(first), shape_of(second)) {
        (Some(shape), Some(other)) => Fault::TwoCommands(shape.name, other.name),
        (Some(shape), None) => shape.second_word(read, second),
        (None, Some(shape)) => shape.second_word(read, first),
        (None, None) => Fault::UnknownCommand(first),
    }
}

// What is wrong where there is one word.
fn one_fault<'a>(read: &[Argument<'a>], word: &'a str) -> Option<Fault<'a>>
    ensures { option_map wrong result ≡ one_fault (map part read.now) word.entry.now (shape_of word.entry.now) }
{
    match shape_of(word) {
        Some(shape) => shape.fault(read),
        None => Some(Fault::UnknownCommand(word)),
    }
}

// What is wrong with arguments of which each by itself is right.
fn parts_fault<'a>(read: &[Argument<'a>]) -> Option<Fault<'a>>
    ensures { option_map wrong result ≡ parts_fault (map part read.now) }
{
    if read.is_empty() {
        return Some(Fault::NoArguments);
    }
    let Some((first, rest)) = next_text(read, None) else {
        return Some(Fault::NoCommand);
    };
    match next_text(rest, None) {
        Some((second, _)) => Some(two_fault(read, first, second)),
        None => one_fault(read, first),
    }
}

/// Why arguments are refused that ask for no command.
pub fn refusal<'a>(alloc: Global, texts: &'a [&'a str]) -> WordsFault<'a>
    requires { fault_of (map (λ t. t.now) texts.now) ≡ None → ⊥ }
    ensures { (f : Fault) → result ≡ WordsFault.Usage f → fault_of (map (λ t. t.now) texts.entry.now) ≡ Some (wrong f) }
{
    match read_arguments(alloc, texts) {
        Ok(read) => match parts_fault(read.as_slice()) {
            Some(fault) => WordsFault::Usage(fault),
            None => unreachable!(),
        },
        Err(fault) => fault,
    }
}
