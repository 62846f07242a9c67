//! Command lines that are refused.
use crate::command_words_tests::are_refused;
use std::alloc::Global;
use std::process::Abort;

// Without its station, with an option twice, or with an option of another command.
const OF_SERVE: [&[&str]; 23] = [
    &["serve"],
    &["serve", "--during=1", "--after=1", "--limit=1"],
    &["serve", "--station"],
    &["serve", "--station="],
    &["serve", "--station=-s"],
    &["--station=s"],
    &["serve", "s"],
    &["serve", "serve", "--station=s"],
    &["serve", "replay", "--station=s"],
    &["serve", "--station=s", "--station=s"],
    &["serve", "--station=s", "--during=1", "--during=1"],
    &["serve", "--station=s", "--after=1", "--after", "1"],
    &["serve", "--station=s", "--limit=1", "--limit=1"],
    &["serve", "--station=s", "--during"],
    &["serve", "--station=s", "--script=t"],
    &["serve", "--station=s", "--journal=j"],
    &["serve", "--station=s", "--plan=dcf"],
    &["serve", "--station=s", "--log=a"],
    &["decode", "--plan=dcf", "--log=a", "--during=1"],
    &["replay", "--station=s", "--script=t", "--during=1"],
    &["replay", "--station=s", "--script=t", "--after=1"],
    &["migrate", "--station=s", "--journal=j", "--during=1"],
    &["migrate", "--station=s", "--journal=j", "--after=1"],
];

fn other_words_of_serve_are_refused(rt: &impl Abort, alloc: Global) {
    are_refused(rt, alloc, "other_words_of_serve_are_refused", &OF_SERVE);
}

// Where there is not exactly one command, or not all arguments that it requires.
const INCOMPLETE: [&[&str]; 14] = [
    &[],
    &["--"],
    &["decode"],
    &["decode", "--log", "a"],
    &["decode", "--plan=dcf"],
    &["decode", "--plan=dcf", "--log"],
    &["--plan=dcf", "--log=a"],
    &["replay", "decode"],
    &["decode", "--plan=dcf", "--log=a", "replay"],
    &["decode", "--plan=dcf", "--log=a", "--", "decode"],
    &["decode", "--plan=dcf", "--", "--log=a"],
    &["replay", "--station=s", "--script"],
    &["Decode", "--plan=dcf", "--log=a"],
    &["decode ", "--plan=dcf", "--log=a"],
];

fn incomplete_words_are_refused(rt: &impl Abort, alloc: Global) {
    are_refused(rt, alloc, "incomplete_words_are_refused", &INCOMPLETE);
}

const VALUES: [&[&str]; 7] = [
    &["decode", "--plan=jjy", "--log=a"],
    &["decode", "--plan=DCF", "--log=a"],
    &["decode", "--plan=dcf", "--log="],
    &["decode", "--plan=dcf", "--log", ""],
    &["decode", "--plan=dcf", "--log", "-"],
    &["decode", "--plan=dcf", "--log=-a"],
    &["decode", "--plan", "--log=a"],
];

fn values_are_plans_and_names(rt: &impl Abort, alloc: Global) {
    are_refused(rt, alloc, "values_are_plans_and_names", &VALUES);
}

// Each option stands once, is the command's own, and is written whole; clap's help is no option.
const OPTIONS: [&[&str]; 9] = [
    &["decode", "--plan=dcf", "--log=a", "--log=a"],
    &["decode", "--plan=dcf", "--log=a", "--log", "b"],
    &["decode", "--plan=dcf", "--log=a", "--limit=1"],
    &["decode", "--plan=dcf", "--log=a", "--station=s"],
    &["replay", "--station=s", "--script=t", "--plan=dcf"],
    &["decode", "--pla=dcf", "--log=a"],
    &["decode", "-plan=dcf", "--log=a"],
    &["decode", "--plan=dcf", "--log=a", "--help"],
    &["decode", "--plan=dcf", "--log=a", "-h"],
];

fn other_options_are_refused(rt: &impl Abort, alloc: Global) {
    are_refused(rt, alloc, "other_options_are_refused", &OPTIONS);
}

// No command of this program.
const COMMANDS: [&[&str]; 3] = [
    &["drills", "--seed=7"],
    &["made", "--station=s"],
    &["Serve", "--station=s"],
];

fn unknown_commands_are_refused(rt: &impl Abort, alloc: Global) {
    are_refused(rt, alloc, "unknown_commands_are_refused", &COMMANDS);
}

// Arguments that ask for no command.
#[test]
fn other_words_are_refused(rt: HostRuntime) {
    other_words_of_serve_are_refused(&rt, rt.alloc());
    incomplete_words_are_refused(&rt, rt.alloc());
    values_are_plans_and_names(&rt, rt.alloc());
    other_options_are_refused(&rt, rt.alloc());
    unknown_commands_are_refused(&rt, rt.alloc());
}
