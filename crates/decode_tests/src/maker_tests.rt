//! Made logs, against values from outside.
ghost use Rattle.std.specs.Prelude.{◌≤◌};

use crate::shared::{SUM_OF_NONE, same, sum_on};
use drill_day::make;
use memory_links::MemorySink;
use outside_traits::Failed;
use std::alloc::Global;
use std::process::Abort;
use std::test::Fail;
use tick_units::Plan;

// 2026-03-01 00:00 UTC.
const FIRST: u64 = 3_981_312_000;

// A made log, and how its making ended.
#[derive(Drop)]
struct Making {
    ended: Result<u64, Failed>,
    text: Vec<u8>,
}

// Makes a log of this many minutes with the seed 7, into a sink whose writes of these numbers fail.
fn make_log(alloc: Global, plan: Plan, minutes: u32, fails: Vec<u64>) -> Making
    requires some { 1 ≤ minutes }
    requires few { minutes ≤ 1440 }
{
    let mut out = MemorySink::new(alloc, fails);
    let ended = make(plan, FIRST, minutes, 7, &mut out);
    Making {
        ended,
        text: out.into_bytes(),
    }
}

// How many lines a text has.
fn lines_of(text: &[u8]) -> usize {
    let mut lines = 0usize;
    for byte in text {
        if *byte == b'\n' {
            lines = lines.saturating_add(1);
        }
    }
    lines
}

// The first number of the generator for DCF77 is 1282168116, which is 1353 modulo 2001.
#[test]
fn a_log_begins_with_the_mark_before_its_first_minute(rt: HostRuntime) {
    let dcf = make_log(rt.alloc(), Plan::Dcf, 1, Vec::new(rt.alloc()));
    same(
        &rt,
        (dcf.ended, lines_of(dcf.text.as_slice())),
        (Ok(61), 61),
    );
    assert!(rt; dcf.text.starts_with(b"5001353 100000\n"));
}

// A log of eight minutes of a plan has this number of lines, this length and this checksum.
fn is_made(rt: &impl Abort, alloc: Global, plan: Plan, lines: u64, length: usize, sum: u64) {
    let made = make_log(alloc, plan, 8, Vec::new(alloc));
    let found = (
        made.ended,
        made.text.len(),
        sum_on(SUM_OF_NONE, made.text.as_slice()),
    );
    same(rt, found, (Ok(lines), length, sum));
}

// The numbers of lines, the lengths and the checksums of logs that a separate program made by the same description.
// Minute 7 of eight is damaged.
#[test]
fn logs_are_those_of_another_program(rt: HostRuntime) {
    is_made(&rt, rt.alloc(), Plan::Dcf, 474, 7960, 0x6141_14cb_f4a1_ee65);
    is_made(&rt, rt.alloc(), Plan::Msf, 482, 8097, 0xe4fa_b4ca_dc2d_3bf1);
    is_made(
        &rt,
        rt.alloc(),
        Plan::Wwvb,
        482,
        8095,
        0x5251_b4a7_428e_3f61,
    );
}

// A log whose write of this number fails holds this.
fn ends_with(rt: &impl Abort, alloc: Global, failing: u64, text: &[u8]) -> Result<(), Fail> {
    let fails = Vec::from_slice(alloc, &[failing])?;
    let made = make_log(alloc, Plan::Dcf, 1, fails);
    same(rt, made.ended, Err(Failed));
    same(rt, made.text.as_slice(), text);
    Ok(())
}

#[test]
fn a_log_ends_where_a_write_fails(rt: HostRuntime) -> Result<(), Fail> {
    ends_with(&rt, rt.alloc(), 1, b"")?;
    ends_with(&rt, rt.alloc(), 2, b"5001353 100000\n")
}
