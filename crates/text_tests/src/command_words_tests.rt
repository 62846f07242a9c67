//! Command lines, valid ones and refused ones.
ghost use Rattle.std.specs.Prelude.{◌<◌, ◌≤◌};

use crate::shared::same_for;
use command_words::{Command, Fault, WordsFault, read_words};
use std::alloc::Global;
use std::process::Abort;
use tick_units::Plan;

// What is wanted of arguments that ask for no command. Which fault they have is in `message_tests`.
fn refused<'a>() -> Result<Command<'a>, WordsFault<'a>> {
    Err(WordsFault::Usage(Fault::NoArguments))
}

// The command that the arguments ask for, without the clauses of its reader.
fn read<'a>(alloc: Global, words: &'a [&'a str]) -> Result<Command<'a>, WordsFault<'a>> {
    match read_words(alloc, words) {
        Err(WordsFault::Usage(_)) => refused(),
        result => result,
    }
}

fn decode<'a>(plan: Plan, log: &'a str) -> Result<Command<'a>, WordsFault<'a>> {
    Ok(Command::Decode { plan, log })
}

fn replay<'a>(limit: u32) -> Result<Command<'a>, WordsFault<'a>> {
    Ok(Command::Replay {
        station: "s",
        script: "t",
        limit,
    })
}

fn serve<'a>(during: u64, after: u64, limit: u32) -> Result<Command<'a>, WordsFault<'a>> {
    Ok(Command::Serve {
        station: "s",
        during,
        after,
        limit,
    })
}

fn migrate<'a>() -> Result<Command<'a>, WordsFault<'a>> {
    Ok(Command::Migrate {
        station: "s",
        journal: "j",
    })
}

fn drill<'a>(seed: u32, limit: u32) -> Result<Command<'a>, WordsFault<'a>> {
    Ok(Command::Drill { seed, limit })
}

// The arguments are read as this command, or refused as this fault.
fn asks<'a>(
    rt: &impl Abort,
    alloc: Global,
    words: &'a [&'a str],
    want: Result<Command<'a>, WordsFault<'a>>,
) {
    same_for(rt, &words, read(alloc, words), want);
}

// All of these arguments are refused.
pub fn are_refused(rt: &impl Abort, alloc: Global, name: &str, table: &[&[&str]]) {
    for words in table {
        let found = read(alloc, words);
        same_for(rt, &(name, words), found, refused());
    }
}

// A caller's function that asks for a limit in its range.
fn handed_on(limit: u32) -> u32
    requires { (0 < limit) × (limit ≤ 4194304) }
{
    limit
}

// The limit that the arguments ask for, as a caller hands it on.
fn limit_of(alloc: Global, words: &[&str]) -> Option<u32> {
    match read_words(alloc, words) {
        Ok(
            Command::Serve {
                station: _,
                during: _,
                after: _,
                limit,
            },
        ) => Some(handed_on(limit)),
        Ok(
            Command::Replay {
                station: _,
                script: _,
                limit,
            },
        ) => Some(handed_on(limit)),
        Ok(Command::Drill { seed: _, limit }) => Some(handed_on(limit)),
        Ok(Command::Decode { plan: _, log: _ }) => None,
        Ok(
            Command::Migrate {
                station: _,
                journal: _,
            },
        ) => None,
        Err(_) => None,
    }
}

const DECODE: [(&[&str], Plan, &str); 6] = [
    (&["decode", "--plan=dcf", "--log=a"], Plan::Dcf, "a"),
    (
        &["decode", "--plan", "msf", "--log", "x y"],
        Plan::Msf,
        "x y",
    ),
    (
        &["--log", "decode", "decode", "--plan=wwvb"],
        Plan::Wwvb,
        "decode",
    ),
    (
        &["--plan=msf", "--log=a=b", "--", "decode"],
        Plan::Msf,
        "a=b",
    ),
    (
        &["--plan", "dcf", "--log==", "decode", "--"],
        Plan::Dcf,
        "=",
    ),
    (
        &["decode", "--log=replay", "--plan=dcf"],
        Plan::Dcf,
        "replay",
    ),
];

fn ask_for_decode(rt: &impl Abort, alloc: Global, table: &[(&[&str], Plan, &str)]) {
    for (words, plan, log) in table {
        asks(rt, alloc, words, decode(*plan, log));
    }
}

// A value follows its option or is joined to it, and the order is free; only the first `=` joins.
#[test]
fn words_of_decode(rt: HostRuntime) {
    ask_for_decode(&rt, rt.alloc(), &DECODE);
}

// The text of a limit, and the limit.
const REPLAY_LIMITS: [(&str, Option<u32>); 16] = [
    ("0", None),
    ("1", Some(1)),
    ("10", Some(10)),
    ("4194304", Some(4_194_304)),
    ("4194305", None),
    ("4294967296", None),
    ("4294967297", None),
    ("18446744073709551617", None),
    ("01", None),
    ("00", None),
    ("+1", None),
    ("-1", None),
    ("1 ", None),
    ("1e3", None),
    ("0x10", None),
    ("", None),
];

fn asks_for_replay(rt: &impl Abort, alloc: Global, text: &str, limit: Option<u32>) {
    let want = match limit {
        Some(limit) => replay(limit),
        None => refused(),
    };
    let words = ["--limit", text, "replay", "--station=s", "--script=t"];
    asks(rt, alloc, &words, want);
}

fn ask_for_replay(rt: &impl Abort, alloc: Global, limits: &[(&str, Option<u32>)]) {
    for (text, limit) in limits {
        asks_for_replay(rt, alloc, text, *limit);
    }
}

// The limit is 1 to 2^22, and 2^20 where none is given.
#[test]
fn words_of_replay(rt: HostRuntime) {
    let bare = ["replay", "--station", "s", "--script", "t"];
    asks(&rt, rt.alloc(), &bare, replay(1_048_576));
    ask_for_replay(&rt, rt.alloc(), &REPLAY_LIMITS);
}

const SERVE: [(&[&str], u64, u64, u32); 7] = [
    (&["serve", "--station", "s"], 16, 0, 1_048_576),
    (&["serve", "--station=s", "--after=3"], 16, 3, 1_048_576),
    (&["serve", "--during", "5", "--station=s"], 5, 0, 1_048_576),
    (&["serve", "--station=s", "--limit=9"], 16, 0, 9),
    (
        &["--after", "8", "serve", "--during=7", "--station", "s"],
        7,
        8,
        1_048_576,
    ),
    (
        &[
            "--limit=1",
            "--after=2",
            "--during",
            "3",
            "--station=s",
            "--",
            "serve",
        ],
        3,
        2,
        1,
    ),
    (
        &["serve", "--station=s", "--during=0", "--after=16"],
        0,
        16,
        1_048_576,
    ),
];

fn ask_for_serve(rt: &impl Abort, alloc: Global, table: &[(&[&str], u64, u64, u32)]) {
    for (words, during, after, limit) in table {
        asks(rt, alloc, words, serve(*during, *after, *limit));
    }
}

// A serving link has 16 hearings beside the feeds and none after them, unless the arguments give other numbers.
#[test]
fn words_of_serve(rt: HostRuntime) {
    ask_for_serve(&rt, rt.alloc(), &SERVE);
}

// The text of a number of hearings, and the number.
const HEARINGS: [(&str, Option<u64>); 17] = [
    ("0", Some(0)),
    ("1", Some(1)),
    ("10", Some(10)),
    ("999999", Some(999_999)),
    ("1000000", Some(1_000_000)),
    ("1000001", None),
    ("4294967296", None),
    ("18446744073709551616", None),
    ("00", None),
    ("07", None),
    ("+1", None),
    ("-1", None),
    ("-0", None),
    (" 1", None),
    ("1e3", None),
    ("1_000", None),
    ("", None),
];

// Where a text is a number of hearings, the arguments ask for as many beside the feeds, or after them.
fn asks_for_hearings(rt: &impl Abort, alloc: Global, number: &str, want: Option<u64>) {
    let (during, after) = match want {
        Some(n) => (serve(n, 0, 1_048_576), serve(16, n, 1_048_576)),
        None => (refused(), refused()),
    };
    let beside = ["serve", "--during", number, "--station=s"];
    asks(rt, alloc, &beside, during);
    let last = ["serve", "--station=s", "--after", number];
    asks(rt, alloc, &last, after);
}

fn ask_for_hearings(rt: &impl Abort, alloc: Global, numbers: &[(&str, Option<u64>)]) {
    for (number, want) in numbers {
        asks_for_hearings(rt, alloc, number, *want);
    }
}

// The number of hearings is 0 to 10^6, beside the feeds and after them.
#[test]
fn hearings_of_serve(rt: HostRuntime) {
    ask_for_hearings(&rt, rt.alloc(), &HEARINGS);
}

// The text of a limit, and the limit.
const LIMITS: [(&str, Option<u32>); 9] = [
    ("0", None),
    ("1", Some(1)),
    ("4194304", Some(4_194_304)),
    ("4194305", None),
    ("4294967297", None),
    ("07", None),
    ("+1", None),
    ("-1", None),
    ("", None),
];

// The arguments ask for this limit.
fn has_limit(rt: &impl Abort, alloc: Global, words: &[&str], want: Option<u32>) {
    same_for(rt, &words, limit_of(alloc, words), want);
}

// Where a text is a limit, the arguments of each command that has one ask for it.
fn has_limits(rt: &impl Abort, alloc: Global, text: &str, limit: Option<u32>) {
    let words = ["serve", "--station=s", "--limit", text];
    let said = match limit {
        Some(limit) => serve(16, 0, limit),
        None => refused(),
    };
    asks(rt, alloc, &words, said);
    has_limit(rt, alloc, &words, limit);
    let words = ["replay", "--station=s", "--script=t", "--limit", text];
    has_limit(rt, alloc, &words, limit);
    let words = ["drill", "--seed=7", "--limit", text];
    has_limit(rt, alloc, &words, limit);
}

fn have_limits(rt: &impl Abort, alloc: Global, limits: &[(&str, Option<u32>)]) {
    for (text, limit) in limits {
        has_limits(rt, alloc, text, *limit);
    }
}

#[test]
fn limits(rt: HostRuntime) {
    have_limits(&rt, rt.alloc(), &LIMITS);
}

const MIGRATE: [&[&str]; 3] = [
    &["migrate", "--station=s", "--journal=j"],
    &["--journal", "j", "migrate", "--station", "s"],
    &["--station=s", "--journal=j", "--", "migrate"],
];

const OTHER_MIGRATE: [&[&str]; 5] = [
    &["migrate", "--station=s"],
    &["migrate", "--journal=j"],
    &["migrate", "--station=s", "--journal="],
    &["migrate", "--station=s", "--journal=j", "--limit=1"],
    &["migrate", "--station=s", "--journal=j", "--script=t"],
];

fn ask_for_migrate(rt: &impl Abort, alloc: Global, table: &[&[&str]]) {
    for words in table {
        asks(rt, alloc, words, migrate());
    }
}

#[test]
fn words_of_migrate(rt: HostRuntime) {
    ask_for_migrate(&rt, rt.alloc(), &MIGRATE);
    are_refused(&rt, rt.alloc(), "migrate", &OTHER_MIGRATE);
}

const DRILL: [(&[&str], u32, u32); 5] = [
    (&["drill", "--seed", "7"], 7, 1_048_576),
    (&["--seed=0", "drill", "--limit=3"], 0, 3),
    (
        &["--limit", "4194304", "--seed=4294967295", "drill"],
        4_294_967_295,
        4_194_304,
    ),
    (&["--seed=10", "--", "drill"], 10, 1_048_576),
    (
        &["drill", "--seed=4294967294", "--limit=1"],
        4_294_967_294,
        1,
    ),
];

const OTHER_DRILL: [&[&str]; 12] = [
    &["drill"],
    &["drill", "--limit=3"],
    &["drill", "--seed=4294967296"],
    &["drill", "--seed=18446744073709551616"],
    &["drill", "--seed=07"],
    &["drill", "--seed=+7"],
    &["drill", "--seed=-7"],
    &["drill", "--seed="],
    &["drill", "--seed=7", "--limit=0"],
    &["drill", "--seed=7", "--limit=4194305"],
    &["drill", "--seed=7", "--station=s"],
    &["serve", "--station=s", "--seed=7"],
];

fn ask_for_drill(rt: &impl Abort, alloc: Global, table: &[(&[&str], u32, u32)]) {
    for (words, seed, limit) in table {
        asks(rt, alloc, words, drill(*seed, *limit));
    }
}

// The seed has no default; it has 32 bits.
#[test]
fn words_of_drill(rt: HostRuntime) {
    ask_for_drill(&rt, rt.alloc(), &DRILL);
    are_refused(&rt, rt.alloc(), "drill", &OTHER_DRILL);
}
