//! Swaps with receivers that count what they receive: what is written is the same, whichever receivers stand in the rack.
ghost use Rattle.std.specs.Prelude.{◌≡◌, false};
ghost use Rattle.memory_outside.specs.MemoryOutside.{is_gate_out};

use crate::runs::{OF_A_PLAN, run_over, run_with, same};
use crate::scene::outside_of;
use memory_links::MemorySink;
use memory_outside::MemoryOutside;
use outside_traits::Gate;
use radio_engine::Status;
use radio_receiver::{CountingReceiver, DcfReceiver, MsfReceiver, WwvbReceiver};
use replay_command::BoxedReceiver;
use station_gear::put_in_rack;
use std::alloc::{AllocError, Global};
use std::sync::Wait;
use std::test::Fail;
use std::thread::Threads;
use tick_units::Plan;

const REPLAY: [&str; 5] = ["replay", "--station", "s", "--script", "p"];

// Runs the words with four receivers of each plan, each of which counts what it receives.
fn run_counting<R: Threads + Wait + Sync, G: Gate + Drop>(
    rt: &R,
    alloc: Global,
    words: &[&str],
    outside: &mut MemoryOutside<G>,
    out: &mut MemorySink,
) -> Result<Status, AllocError>
    requires { is_gate_out outside.old ≡ false }
{
    let mut rack: Vec<BoxedReceiver> = Vec::new(alloc);
    for _ in 0..OF_A_PLAN {
        let dcf = CountingReceiver::new(DcfReceiver::new());
        put_in_rack(&mut rack, Box::new(alloc, dcf)?, Plan::Dcf)?;
        let msf = CountingReceiver::new(MsfReceiver::new());
        put_in_rack(&mut rack, Box::new(alloc, msf)?, Plan::Msf)?;
        let wwvb = CountingReceiver::new(WwvbReceiver::new());
        put_in_rack(&mut rack, Box::new(alloc, wwvb)?, Plan::Wwvb)?;
    }
    Ok(run_with(rt, alloc, words, rack, outside, out))
}

// A station with a radio of DCF77, and the script of three minutes in which it is swapped after the pulse at 90 s.
const SWAPPED: &str = r#"
    file s
    | [[radio]]
    | plan = "dcf"
    | log = "a"

    file p
    > pulse 0 noon 0 90
    | swap 0
    > pulse 0 noon 91 182
"#;

const WHOLE: &str = "j2 1 0 0 62000000 lone 3976257600\nj2 2 0 0 182000000 lone 3976257720\n\
page 2 0 0 494e4954 0 182000000 0 0 1048576 0000000000000000 0 0\nstatus 0\n";

#[test]
fn a_swap_gives_the_same_with_receivers_that_count(rt: HostRuntime) -> Result<(), Fail> {
    let alloc = rt.alloc();
    let mut outside = outside_of(alloc, SWAPPED)?;
    let mut out = MemorySink::new(alloc, Vec::new(alloc));
    let status = run_over(&rt, alloc, &REPLAY, &mut outside, &mut out)?;
    same(&rt, out.into_bytes().as_slice(), WHOLE.as_bytes());
    same(&rt, status, Status::Done);
    let mut outside = outside_of(alloc, SWAPPED)?;
    let mut out = MemorySink::new(alloc, Vec::new(alloc));
    let status = run_counting(&rt, alloc, &REPLAY, &mut outside, &mut out)?;
    same(&rt, out.into_bytes().as_slice(), WHOLE.as_bytes());
    same(&rt, status, Status::Done);
    Ok(())
}
