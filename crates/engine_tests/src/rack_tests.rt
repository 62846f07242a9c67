//! Which receivers of a rack are used: of each plan the first ones, in the order of the radios, and for each swap the next one.
ghost use Rattle.std.specs.Prelude.{◌≡◌, false};
ghost use Rattle.memory_outside.specs.MemoryOutside.{is_gate_out};
ghost use Rattle.radio_receiver.specs.Histories.{History};

use crate::runs::{OF_A_PLAN, run_with, same};
use crate::scene::outside_of;
use memory_links::MemorySink;
use memory_outside::MemoryOutside;
use outside_traits::Gate;
use radio_engine::Status;
use radio_receiver::{DcfReceiver, MsfReceiver, Receiver, WwvbReceiver};
use replay_command::BoxedReceiver;
use station_gear::put_in_rack;
use std::alloc::{AllocError, Global};
use std::sync::atomic::{AtomicU64, Ordering};
use std::sync::{Arc, Wait};
use std::test::Fail;
use std::thread::Threads;
use tick_units::{Heard, Plan, Reduction};

const REPLAY: [&str; 5] = ["replay", "--station", "s", "--script", "p"];

// How many times more each receiver of a plan adds than the one before it, which adds 1 at first: four hexadecimal digits of a count are of
// one receiver.
const NEXT: u64 = 0x1_0000;

// A receiver round a receiver, which adds its step to a count that others share wherever it receives.
#[derive(Drop)]
struct NotingReceiver<T> {
    inner: T,
    step: u64,
    heard: Arc<AtomicU64, Global>,
}

impl<T: Receiver> NotingReceiver<T> {
    // A receiver round this one, which stands for what that one stands for.
    fn new(inner: T, step: u64, heard: Arc<AtomicU64, Global>) -> NotingReceiver<T>
        ensures stands { (h : History) → T.stands_for inner h → ⟦<NotingReceiver<T> as Receiver>⟧.stands_for result h }
        ensures least { ⟦<NotingReceiver<T> as Receiver>⟧.least_start result ≡ T.least_start inner }
    {
        NotingReceiver { inner, step, heard }
    }
}

impl<T: Receiver> Receiver for NotingReceiver<T> {
    ghost stands_for = { λ noting h. T.stands_for noting.inner h };

    ghost least_start = { λ noting. T.least_start noting.inner };

    fn plan(&self) -> Plan {
        self.inner.plan()
    }

    fn fit(&mut self, delay_us: u32) {
        self.inner.fit(delay_us);
    }

    fn hear(&mut self, reduction: Reduction) -> Option<Heard> {
        self.heard.fetch_add(self.step, Ordering::SeqCst);
        self.inner.hear(reduction)
    }

    fn blank(&self) -> bool {
        self.inner.blank()
    }
}

// How often the four receivers of each plan have received.
#[derive(Drop)]
struct Counts {
    dcf: Arc<AtomicU64, Global>,
    msf: Arc<AtomicU64, Global>,
    wwvb: Arc<AtomicU64, Global>,
}

// Runs the words with four receivers of each plan, each of which notes where it receives.
fn run_noting<R: Threads + Wait + Sync, G: Gate + Drop>(
    rt: &R,
    alloc: Global,
    words: &[&str],
    heard: &Counts,
    outside: &mut MemoryOutside<G>,
    out: &mut MemorySink,
) -> Result<Status, AllocError>
    requires { is_gate_out outside.old ≡ false }
{
    let mut rack: Vec<BoxedReceiver> = Vec::new(alloc);
    let mut step = 1u64;
    for _ in 0..OF_A_PLAN {
        let dcf = NotingReceiver::new(DcfReceiver::new(), step, Arc::try_clone(&heard.dcf)?);
        put_in_rack(&mut rack, Box::new(alloc, dcf)?, Plan::Dcf)?;
        let msf = NotingReceiver::new(MsfReceiver::new(), step, Arc::try_clone(&heard.msf)?);
        put_in_rack(&mut rack, Box::new(alloc, msf)?, Plan::Msf)?;
        let wwvb = NotingReceiver::new(WwvbReceiver::new(), step, Arc::try_clone(&heard.wwvb)?);
        put_in_rack(&mut rack, Box::new(alloc, wwvb)?, Plan::Wwvb)?;
        step = step.wrapping_mul(NEXT);
    }
    Ok(run_with(rt, alloc, words, rack, outside, out))
}

// Radio 0 is the first of DCF77, radio 1 that of MSF, radio 2 the second of DCF77. Each receives some pulses, then radio 2 is swapped and receives
// some more, then radio 0, then radio 1.
const SWAPPED: &str = r#"
    file s
    | [[radio]]
    | plan = "dcf"
    | log = "a"
    | [[radio]]
    | plan = "msf"
    | log = "b"
    | [[radio]]
    | plan = "dcf"
    | log = "c"
    file p
    > pulse 0 dcf 1000000 1000000 0 2
    > pulse 1 dcf 1000000 1000000 0 0
    > pulse 2 dcf 1000000 1000000 0 1
    | swap 2
    > pulse 2 dcf 10000000 1000000 0 3
    | swap 0
    > pulse 0 dcf 10000000 1000000 0 4
    | swap 1
    > pulse 1 dcf 10000000 1000000 0 5
"#;

// The third and the fourth of DCF77 come by the swaps, the first one asked for first; of MSF two are left, and of WWVB all.
#[test]
fn receivers_are_used_in_the_order_of_the_rack(rt: HostRuntime) -> Result<(), Fail> {
    let alloc = rt.alloc();
    let heard = Counts {
        dcf: Arc::new(alloc, AtomicU64::new(0))?,
        msf: Arc::new(alloc, AtomicU64::new(0))?,
        wwvb: Arc::new(alloc, AtomicU64::new(0))?,
    };
    let mut outside = outside_of(alloc, SWAPPED)?;
    let mut out = MemorySink::new(alloc, Vec::new(alloc));
    let status = run_noting(&rt, alloc, &REPLAY, &heard, &mut outside, &mut out)?;
    same(&rt, status, Status::Done);
    same(&rt, heard.dcf.load(Ordering::SeqCst), 0x0005_0004_0002_0003);
    same(&rt, heard.msf.load(Ordering::SeqCst), 0x0006_0001);
    same(&rt, heard.wwvb.load(Ordering::SeqCst), 0);
    Ok(())
}
