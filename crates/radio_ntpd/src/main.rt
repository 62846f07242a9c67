//! A stratum 1 NTP server whose reference clocks are longwave radios. The program hands its arguments and its receivers to the
//! one call that does everything, and ends with that call's status. Then what a person needs to know of it follows on standard
//! error.
#![tactic(auto)]

ghost use Rattle.std.specs.Prelude.{◌≡◌, MatchResult, false, map};
ghost use Rattle.std.specs.Process.{exit_status};
ghost use Rattle.command_ends.specs.Effects.{effect_of};
ghost use Rattle.command_ends.specs.Endings.{number_of, status_of, status_line};
ghost use Rattle.command_ends.specs.Reports.{Reports, status_in};
ghost use Rattle.radio_engine.specs.Run.{IsRun};
ghost use Rattle.command_ends.specs.Writing.{Answers};
ghost use Rattle.command_ends.specs.declared.ending.Ending.TheVariants.{NoMemory};

mod arguments;

use arguments::{arguments_of, texts_of};
use host_links::{HostOutside, StreamSink};
use outside_traits::{Outside, Sink};
use radio_engine::{Answer, Outcome, WordsFault, end_without_memory, run_to_outcome};
use radio_receiver::{DcfReceiver, MsfReceiver, Receiver, WwvbReceiver};
use service_links::{ServiceOutside, handed_over, write_reason};
use standard_error::{write_beginning, write_report};
use station_gear::put_in_rack;
use std::alloc::{AllocError, Global};
use std::fs::{self, Files};
use std::io::IsTerminal;
use std::os::fd::AsRawFd;
use std::process::{self, ExitCode};
use std::sync::Wait;
use std::thread::Threads;
use std::{env, io};
use tick_units::Plan;

fn main(rt: HostRuntime) -> ExitCode {
    let _standard = hold_standard_streams(&rt);
    let mut out = StreamSink::new(io::writer(&rt));
    let all = env::args(&rt);
    let are_text = all.is_ok();
    let arguments = arguments_of(rt.alloc(), all);
    let texts = texts_of(rt.alloc(), &arguments);
    if rt.stderr().is_terminal() {
        write_beginning(&rt, &texts);
    }
    if let Some(handed) = handed_over(&rt, process::id(rt.process())) {
        let mut outside = ServiceOutside::new(&rt, &handed);
        let ended = run_program(&rt, rt.alloc(), &texts, &mut outside, &mut out);
        let answer = ended.answer;
        write_report(
            &rt,
            answer.asked,
            are_text,
            answer.outcome,
            outside.refusal(),
        );
        write_reason(&rt, &outside);
        return ended.code;
    }
    let mut outside = HostOutside::new(&rt);
    let ended = run_program(&rt, rt.alloc(), &texts, &mut outside, &mut out);
    let answer = ended.answer;
    write_report(
        &rt,
        answer.asked,
        are_text,
        answer.outcome,
        outside.refusal(),
    );
    ended.code
}

// What came of a run, and the exit status that says so.
#[derive(Drop)]
struct Ended<'a> {
    code: ExitCode,
    answer: Answer<'a>,
}

// Runs the program: the command that the arguments ask for. It ends with the number of its status.
fn run_program<'a, R: Threads + Wait + Sync, O: Outside, K: Sink>(
    rt: &R,
    alloc: Global,
    texts: &'a Result<Vec<&str>, AllocError>,
    outside: &mut O,
    out: &mut K,
) -> Ended<'a>
    requires { O.gate_out outside.old ≡ false }
    ensures code { exit_status result.code ≡ number_of (status_in result.answer.outcome.report) }
    ensures run { MatchResult texts.now
        (λ given. IsRun (map (λ t. t.now) given.items) (effect_of (O.state outside.old) (O.state outside.new)
        (K.state out.old) (K.state out.new) (status_in result.answer.outcome.report)))
        (λ _. Answers (status_of NoMemory) (status_in result.answer.outcome.report) (K.state out.old) (K.state out.new)
        (status_line NoMemory) × (O.state outside.new ≡ O.state outside.old)) }
    ensures reports { Reports result.answer.outcome.report (K.state out.old) (K.state out.new) }
{
    let answer = run_given(rt, alloc, texts, outside, out);
    Ended {
        code: exit_code(&answer.outcome),
        answer,
    }
}

// The program's exit status.
fn exit_code(outcome: &Outcome) -> ExitCode
    ensures { exit_status result ≡ number_of (status_in outcome.now.report) }
{
    ExitCode::from(outcome.status().number())
}

// Runs the command that the arguments ask for. Where there was not enough memory for them, or there is not for what the command is
// handed, it opens nothing and writes only the status line.
fn run_given<'a, R: Threads + Wait + Sync, O: Outside, K: Sink>(
    rt: &R,
    alloc: Global,
    texts: &'a Result<Vec<&str>, AllocError>,
    outside: &mut O,
    out: &mut K,
) -> Answer<'a>
    requires { O.gate_out outside.old ≡ false }
    ensures run { MatchResult texts.now
        (λ given. IsRun (map (λ t. t.now) given.items) (effect_of (O.state outside.old) (O.state outside.new)
        (K.state out.old) (K.state out.new) (status_in result.outcome.report)))
        (λ _. Answers (status_of NoMemory) (status_in result.outcome.report) (K.state out.old) (K.state out.new)
        (status_line NoMemory) × (O.state outside.new ≡ O.state outside.old)) }
    ensures reports { Reports result.outcome.report (K.state out.old) (K.state out.new) }
{
    let Ok(texts) = texts else {
        return lacking(out);
    };
    match run_arguments(rt, alloc, texts.as_slice(), outside, out) {
        Ok(answer) => answer,
        Err(AllocError) => lacking(out),
    }
}

// What came of arguments where there was not enough memory before anything was opened.
fn lacking<'a, K: Sink>(out: &mut K) -> Answer<'a>
    ensures answers { Answers (status_of NoMemory) (status_in result.outcome.report) (K.state out.old) (K.state out.new) (status_line NoMemory) }
    ensures reports { Reports result.outcome.report (K.state out.old) (K.state out.new) }
{
    Answer {
        asked: Err(WordsFault::Memory),
        outcome: end_without_memory(out),
    }
}

// Files that take the numbers of those of standard input, output and error that were closed when the program began. Without them
// the next opened file would take such a number, and would receive what the program writes to standard output.
fn hold_standard_streams<R: Files>(rt: &R) -> [Option<R::File>; 3]
where
    R::File: AsRawFd,
{
    [hold(rt), hold(rt), hold(rt)]
}

// The root folder as an open file, where it got the number of a standard stream. It is always there, and no process can write to
// it.
fn hold<R: Files>(rt: &R) -> Option<R::File>
where
    R::File: AsRawFd,
{
    let file = fs::open(rt, "/").ok()?;
    if file.as_raw_fd() > 2 {
        return None;
    }
    Some(file)
}

// The receivers of each plan.
const OF_A_PLAN: usize = 4;

// Runs the command that arguments ask for, with four receivers of each plan. Where there is not enough memory for the
// receivers, it does nothing.
fn run_arguments<'a, R: Threads + Wait + Sync, O: Outside, K: Sink>(
    rt: &R,
    alloc: Global,
    texts: &'a [&str],
    outside: &mut O,
    out: &mut K,
) -> Result<Answer<'a>, AllocError>
    requires { O.gate_out outside.old ≡ false }
    ensures { MatchResult result
        (λ answer. IsRun (map (λ t. t.now) texts.now)
        (effect_of (O.state outside.old) (O.state outside.new) (K.state out.old) (K.state out.new) (status_in answer.outcome.report))
        × Reports answer.outcome.report (K.state out.old) (K.state out.new))
        (λ _. (O.state outside.new ≡ O.state outside.old) × (K.state out.new ≡ K.state out.old)) }
{
    let mut rack: Vec<Box<dyn Receiver + Send>> = Vec::new(alloc);
    for _ in 0..OF_A_PLAN {
        put_in_rack(&mut rack, Box::new(alloc, DcfReceiver::new())?, Plan::Dcf)?;
        put_in_rack(&mut rack, Box::new(alloc, MsfReceiver::new())?, Plan::Msf)?;
        put_in_rack(&mut rack, Box::new(alloc, WwvbReceiver::new())?, Plan::Wwvb)?;
    }
    Ok(run_to_outcome(rt, alloc, texts, rack, outside, out))
}
