//! The one call of the program over the fakes, as every test here makes it.
ghost use Rattle.std.specs.Prelude.{◌≡◌, false};
ghost use Rattle.memory_outside.specs.MemoryOutside.{is_gate_out};
ghost use Rattle.station_gear.specs.Racks.{IsRack};

use memory_links::MemorySink;
use memory_outside::MemoryOutside;
use outside_traits::Gate;
use radio_engine::{Status, run_station};
use radio_receiver::{DcfReceiver, MsfReceiver, Receiver, WwvbReceiver};
use replay_command::BoxedReceiver;
use station_gear::put_in_rack;
use std::alloc::{AllocError, Global};
use std::fmt::Debug;
use std::process::Abort;
use std::sync::Wait;
use std::thread::Threads;
use tick_units::Plan;

// What `assert_eq!` does, as a call: where many stand in a test, calls are proved in a third of the time.
pub fn same<T: PartialEq + Debug + Drop>(rt: &impl Abort, left: T, right: T) {
    assert_eq!(*rt; left, right);
}

// What the words write over this outside, and their status; the writing of this number fails.
pub fn written_over<R: Threads + Wait + Sync, G: Gate + Drop>(
    rt: &R,
    alloc: Global,
    words: &[&str],
    outside: &mut MemoryOutside<G>,
    fails: u64,
) -> Result<(Vec<u8>, Status), AllocError>
    requires { is_gate_out outside.old ≡ false }
{
    let mut out = MemorySink::new(alloc, vec![in alloc; fails]?);
    let status = run_over(rt, alloc, words, outside, &mut out)?;
    Ok((out.into_bytes(), status))
}

// The receivers of each plan.
pub const OF_A_PLAN: usize = 4;

// Runs the words with four receivers of each plan.
pub fn run_over<R: Threads + Wait + Sync, G: Gate + Drop>(
    rt: &R,
    alloc: Global,
    words: &[&str],
    outside: &mut MemoryOutside<G>,
    out: &mut MemorySink,
) -> Result<Status, AllocError>
    requires { is_gate_out outside.old ≡ false }
{
    let mut rack: Vec<BoxedReceiver> = Vec::new(alloc);
    for _ in 0..OF_A_PLAN {
        put_in_rack(&mut rack, Box::new(alloc, DcfReceiver::new())?, Plan::Dcf)?;
        put_in_rack(&mut rack, Box::new(alloc, MsfReceiver::new())?, Plan::Msf)?;
        put_in_rack(&mut rack, Box::new(alloc, WwvbReceiver::new())?, Plan::Wwvb)?;
    }
    Ok(run_with(rt, alloc, words, rack, outside, out))
}

// The one call, with the receivers of this rack. It has no clause of its own, so what calls it is proved without those of the call.
pub fn run_with<R: Threads + Wait + Sync, G: Gate + Drop>(
    rt: &R,
    alloc: Global,
    words: &[&str],
    rack: Vec<Box<dyn Receiver + Send>>,
    outside: &mut MemoryOutside<G>,
    out: &mut MemorySink,
) -> Status
    requires rack { IsRack stands_for rack.items }
    requires gate { is_gate_out outside.old ≡ false }
{
    run_station(rt, alloc, words, rack, outside, out)
}
