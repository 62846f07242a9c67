//! The values of a command's options.
ghost use Rattle.std.specs.Prelude.{◌≡◌, ◌<◌, ◌≤◌, ◌^◌, ℕ, IfSome, Some, map, option_map, codes, List};
ghost use Rattle.std.specs.List.{list_all, list_any};
ghost use Rattle.std.specs.Str.{bytes_eq};
ghost use Rattle.clap.specs.Words.{first_of, rows_of, found_of};
ghost use Rattle.tick_units.specs.declared.marks.Plan.{Plan};
ghost use Rattle.command_words.specs.CommandLine.{is_value};
ghost use Rattle.command_words.specs.Commands.{Asked, asked, name_of, HasLimit, IsHearings, IsLimit, IsNumber, IsSeed, decode, drill, migrate, replay, serve};
ghost use Rattle.command_words.specs.Matches.{text_of, may_have, has_only, Fit, AreFor};

use crate::commands::Command;
use crate::grammar::OPTIONS;
use clap::ArgMatches;
use decimal_text::whole_number;
use tick_units::Plan;

// The options of each command.
pub const DECODE: [&str; 2] = ["plan", "log"];

pub const REPLAY: [&str; 3] = ["station", "script", "limit"];

pub const SERVE: [&str; 4] = ["station", "during", "after", "limit"];

pub const DRILL: [&str; 2] = ["seed", "limit"];

pub const MIGRATE: [&str; 2] = ["station", "journal"];

// Entries of a journal.
const LIMIT: u64 = 1_048_576;

pub const MOST: u64 = 4_194_304;

// The seed of a drill.
pub const MOST_SEED: u64 = 4_294_967_295;

// Hearings of a link.
const DURING: u64 = 16;

const AFTER: u64 = 0;

pub const MOST_HEARINGS: u64 = 1_000_000;

// The value that was read under a name.
fn value<'a>(matches: &ArgMatches<'a>, name: &str) -> Option<&'a str>
    ensures { text_of result ≡ first_of name.now (rows_of (found_of matches.now)) }
{
    matches.get_str(name)
}

pub fn is_value(text: &str) -> bool
    ensures { result ≡ is_value text.now }
{
    match text.as_bytes().first() {
        Some(byte) => *byte != b'-',
        None => false,
    }
}

pub fn is_in(row: &[&str], name: &str) -> bool
    ensures { result ≡ list_any (λ w. bytes_eq name.now w.now) row.now }
{
    row.iter().any(|other| name == *other)
}

// Whether an option may have this value, or none, under a command with this row of options.
fn may_have(row: &[&str], name: &str, value: Option<&str>) -> bool
    ensures { result ≡ may_have (map (λ w. w.now) row.now) name.now (text_of value.entry) }
{
    match value {
        Some(text) => is_in(row, name) && is_value(text),
        None => true,
    }
}

// Whether each of these options may have the value it was given.
fn may_all_have(matches: &ArgMatches<'_>, row: &[&str], names: &[&str]) -> bool
    ensures { result ≡ list_all
        (λ w. may_have (map (λ w. w.now) row.now) w.now (first_of w.now (rows_of (found_of matches.now)))) names.now }
{
    names
        .iter()
        .all(|name| may_have(row, name, value(matches, name)))
}

// Whether all options given are those of a row, and each has a value that it may have.
fn has_only(matches: &ArgMatches<'_>, row: &[&str]) -> bool
    ensures { result ≡ has_only (map (λ w. w.now) row.now) (rows_of (found_of matches.now)) }
{
    may_all_have(matches, row, &OPTIONS)
}

// A number from `least` to `most`; or the default, where none is given.
fn number(given: Option<&str>, default: u64, least: u64, most: u64) -> Option<u64>
    requires { most < 2 ^ 60 }
    ensures said { IfSome result (λ n. IsNumber default least most (text_of given.entry) n) }
    ensures every { (n : ℕ) → IsNumber default least most (text_of given.entry) n → result ≡ Some n }
{
    let Some(text) = given else {
        return Some(default);
    };
    let number = whole_number(text.as_bytes(), most)?;
    if least <= number { Some(number) } else { None }
}

fn limit(given: Option<&str>) -> Option<u32>
    ensures said { IfSome result (λ n. IsLimit (text_of given.entry) n) }
    ensures every { (n : ℕ) → IsLimit (text_of given.entry) n → result ≡ Some n }
    ensures within { IfSome result (λ n. (0 < n) × (n ≤ 4194304)) }
{
    let entries = number(given, LIMIT, 1, MOST)?;
    Some(entries as u32)
}

fn hearings(given: Option<&str>, default: u64) -> Option<u64>
    ensures said { IfSome result (λ n. IsHearings default (text_of given.entry) n) }
    ensures every { (n : ℕ) → IsHearings default (text_of given.entry) n → result ≡ Some n }
{
    number(given, default, 0, MOST_HEARINGS)
}

fn seed(given: Option<&str>) -> Option<u32>
    ensures said { IfSome result (λ n. IsSeed (text_of given.entry) n) }
    ensures every { (n : ℕ) → IsSeed (text_of given.entry) n → result ≡ Some n }
{
    let seed = whole_number(given?.as_bytes(), MOST_SEED)?;
    Some(seed as u32)
}

fn decode<'a>(matches: &ArgMatches<'a>) -> Option<Command<'a>>
    ensures asked { IfSome result
        (λ c. (name_of (asked c) ≡ codes "decode") × Fit (rows_of (found_of matches.now)) (asked c)) }
    ensures every { (p : Plan) (log : List ℕ) → Fit (rows_of (found_of matches.now)) (decode p log) →
        option_map asked result ≡ Some (decode p log) }
    ensures limits { IfSome result HasLimit }
{
    if !has_only(matches, &DECODE) {
        return None;
    }
    Some(Command::Decode {
        plan: Plan::of_word(value(matches, "plan")?)?,
        log: value(matches, "log")?,
    })
}

fn replay<'a>(matches: &ArgMatches<'a>) -> Option<Command<'a>>
    ensures asked { IfSome result
        (λ c. (name_of (asked c) ≡ codes "replay") × Fit (rows_of (found_of matches.now)) (asked c)) }
    ensures every { (station script : List ℕ) (n : ℕ) → Fit (rows_of (found_of matches.now)) (replay station script n) →
        option_map asked result ≡ Some (replay station script n) }
    ensures limits { IfSome result HasLimit }
{
    if !has_only(matches, &REPLAY) {
        return None;
    }
    Some(Command::Replay {
        station: value(matches, "station")?,
        script: value(matches, "script")?,
        limit: limit(value(matches, "limit"))?,
    })
}

fn serve<'a>(matches: &ArgMatches<'a>) -> Option<Command<'a>>
    ensures asked { IfSome result
        (λ c. (name_of (asked c) ≡ codes "serve") × Fit (rows_of (found_of matches.now)) (asked c)) }
    ensures every { (station : List ℕ) (d a n : ℕ) → Fit (rows_of (found_of matches.now)) (serve station d a n) →
        option_map asked result ≡ Some (serve station d a n) }
    ensures limits { IfSome result HasLimit }
{
    if !has_only(matches, &SERVE) {
        return None;
    }
    Some(Command::Serve {
        station: value(matches, "station")?,
        during: hearings(value(matches, "during"), DURING)?,
        after: hearings(value(matches, "after"), AFTER)?,
        limit: limit(value(matches, "limit"))?,
    })
}

fn drill<'a>(matches: &ArgMatches<'a>) -> Option<Command<'a>>
    ensures asked { IfSome result
        (λ c. (name_of (asked c) ≡ codes "drill") × Fit (rows_of (found_of matches.now)) (asked c)) }
    ensures every { (s n : ℕ) → Fit (rows_of (found_of matches.now)) (drill s n) →
        option_map asked result ≡ Some (drill s n) }
    ensures limits { IfSome result HasLimit }
{
    if !has_only(matches, &DRILL) {
        return None;
    }
    Some(Command::Drill {
        seed: seed(value(matches, "seed"))?,
        limit: limit(value(matches, "limit"))?,
    })
}

fn migrate<'a>(matches: &ArgMatches<'a>) -> Option<Command<'a>>
    ensures asked { IfSome result
        (λ c. (name_of (asked c) ≡ codes "migrate") × Fit (rows_of (found_of matches.now)) (asked c)) }
    ensures every { (station journal : List ℕ) → Fit (rows_of (found_of matches.now)) (migrate station journal) →
        option_map asked result ≡ Some (migrate station journal) }
    ensures limits { IfSome result HasLimit }
{
    if !has_only(matches, &MIGRATE) {
        return None;
    }
    Some(Command::Migrate {
        station: value(matches, "station")?,
        journal: value(matches, "journal")?,
    })
}

// The command that `clap`'s matches ask for.
pub fn command<'a>(matches: &ArgMatches<'a>) -> Option<Command<'a>>
    ensures asked { IfSome result (λ c. AreFor (rows_of (found_of matches.now)) (asked c)) }
    ensures every { (a : Asked) → AreFor (rows_of (found_of matches.now)) a → option_map asked result ≡ Some a }
    ensures limits { IfSome result HasLimit }
{
    match value(matches, "command")? {
        "decode" => decode(matches),
        "replay" => replay(matches),
        "serve" => serve(matches),
        "drill" => drill(matches),
        "migrate" => migrate(matches),
        _ => None,
    }
}
