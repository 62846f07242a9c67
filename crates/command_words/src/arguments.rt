//! The arguments one by one, where they are refused: command words, and options with their values.
ghost use Rattle.std.specs.Prelude.{◌≡◌, Err, IfErr, IfOk, List, None, Ok, ◌∷◌, map, option_map};
ghost use Rattle.clap.specs.Lexer.{long_of, name_and_value, strip_byte};
ghost use Rattle.command_words.specs.CommandLine.{Text};
ghost use Rattle.command_words.specs.Faults.{Reading, before, names_option, part, read_after, single, valued, wrong};
ghost use Rattle.command_words.specs.Reading.{after, rest_of, stepped, with_read};
ghost use Rattle.command_words.specs.declared.commands.Fault.{Fault};

use crate::commands::{Fault, WordsFault};
use crate::grammar::OPTIONS;
use crate::rows::{is_in, is_value};
use std::alloc::Global;

/// A command word, which has no name, or the value of an option.
#[derive(Clone, Copy, Debug, PartialEq, Eq)]
pub struct Argument<'a> {
    pub option: Option<&'a str>,
    pub text: &'a str,
}

/// What the arguments before one make of it.
#[derive(Clone, Copy, Debug, PartialEq, Eq)]
pub enum Before<'a> {
    /// Nothing.
    Nothing,
    /// The value of this option.
    Option(&'a str),
    /// A word, since `--` stands before it.
    Mark,
}

fn strip_hyphen(text: &str) -> Option<&str>
    ensures { option_map (λ s. s.now) result ≡ strip_byte 45 text.now }
{
    text.strip_prefix('-')
}

// What stands before the first `=`, and what stands after it.
fn split(text: &str) -> (&str, Option<&str>)
    ensures { (result.0.now, option_map (λ s. s.now) result.1) ≡ name_and_value text.now }
{
    match text.split_once('=') {
        Some((name, value)) => (name, Some(value)),
        None => (text, None),
    }
}

// The name and the value of an argument that begins with two hyphens.
fn named(text: &str) -> Option<(&str, Option<&str>)>
    ensures { option_map (λ p. (p.0.now, option_map (λ s. s.now) p.1)) result ≡ long_of text.now }
{
    let rest = strip_hyphen(strip_hyphen(text)?)?;
    if rest.is_empty() {
        return None;
    }
    Some(split(rest))
}

// Whether a command has an option of this name.
fn is_option(name: &str) -> bool
    ensures { result ≡ names_option name.now }
{
    is_in(&OPTIONS, name)
}

// What stands before the next argument, and what this one is read as.
type Step<'a> = Result<(Before<'a>, Option<Argument<'a>>), Fault<'a>>;

// An argument that no option stands before, and that names none.
fn single(text: &str) -> Step<'_>
    ensures { (rest : List Text) → stepped result rest ≡ before (single text.now) (read_after None rest) }
{
    if strip_hyphen(text).is_some() {
        return Err(Fault::UnknownOption(text));
    }
    Ok((Before::Nothing, Some(Argument { option: None, text })))
}

// The value of an option.
fn valued<'a>(option: &'a str, text: &'a str) -> Step<'a>
    ensures { (rest : List Text) → stepped result rest ≡ before (valued option.entry.now text.entry.now) (read_after None rest) }
{
    if !is_value(text) {
        return Err(Fault::NoValue { option, next: text });
    }
    let option = Some(option);
    Ok((Before::Nothing, Some(Argument { option, text })))
}

// An argument before which no option and no `--` stands.
fn first(text: &str) -> Step<'_>
    ensures { (rest : List Text) → stepped result rest ≡ read_after None (text.now ∷ rest) }
{
    if text == "--" {
        return Ok((Before::Mark, None));
    }
    let Some((option, joined)) = named(text) else {
        return single(text);
    };
    if !is_option(option) {
        return Err(Fault::UnknownOption(text));
    }
    match joined {
        Some(value) => valued(option, value),
        None => Ok((Before::Option(option), None)),
    }
}

// Reads one argument.
fn step<'a>(before: Before<'a>, text: &'a str) -> Step<'a>
    ensures { (rest : List Text) → stepped result rest ≡ rest_of before.entry (text.entry.now ∷ rest) }
{
    match before {
        Before::Nothing => first(text),
        Before::Option(option) => valued(option, text),
        Before::Mark => Ok((Before::Mark, Some(Argument { option: None, text }))),
    }
}

// Adds what an argument was read as, where it is one by itself.
fn add<'a>(read: &mut Vec<Argument<'a>>, one: Option<Argument<'a>>) -> Result<(), WordsFault<'a>>
    ensures added { (rest : Reading) → IfOk result (λ _. after (map part read.new.items) rest
        ≡ after (map part read.old.items) (with_read (option_map part one.entry) rest)) }
    ensures memory { IfErr result (λ e. e ≡ WordsFault.Memory) }
{
    if let Some(one) = one {
        if let Err(_) = read.push(one) {
            return Err(WordsFault::Memory);
        }
    }
    Ok(())
}

/// The arguments, read in order. The first that is wrong by itself is a fault.
pub fn read_arguments<'a>(
    alloc: Global,
    texts: &'a [&'a str],
) -> Result<Vec<Argument<'a>>, WordsFault<'a>>
    ensures read { IfOk result (λ read. read_after None (map (λ t. t.now) texts.entry.now) ≡ Ok (map part read.items)) }
    ensures bad { IfErr result (λ e. (f : Fault) → e ≡ WordsFault.Usage f →
        read_after None (map (λ t. t.now) texts.entry.now) ≡ Err (wrong f)) }
{
    let mut read = Vec::new(alloc);
    let mut before = Before::Nothing;
    for text in texts {
        match step(before, text) {
            Ok((next, one)) => {
                before = next;
                add(&mut read, one)?;
            }
            Err(fault) => return Err(WordsFault::Usage(fault)),
        }
    }
    match before {
        Before::Option(option) => Err(WordsFault::Usage(Fault::NoValue { option, next: "" })),
        Before::Nothing | Before::Mark => Ok(read),
    }
}
