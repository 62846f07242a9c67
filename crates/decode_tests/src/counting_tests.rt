//! Tests of a receiver around a receiver: it answers as the inner one does, and counts the reductions that it receives.
ghost use Rattle.std.specs.Prelude.{◌≡◌, ◌≤◌};

use crate::shared::{dcf_minute, lone, msf_minute, receives, same, wwvb_minute};
use radio_receiver::{
    BoxedReceiver, CountingReceiver, DcfReceiver, MsfReceiver, Receiver, WwvbReceiver,
};
use std::process::Abort;
use std::test::Fail;
use tick_units::{Heard, Plan, Reduction};

// Takes reductions that start at this moment or later, as far as their starts rise. Returns the last answer, and the least start
// that may come next.
fn receive_all<T: Receiver>(
    receiver: &mut T,
    least: u64,
    reductions: &[Reduction],
) -> (Option<Heard>, u64)
    requires { T.least_start receiver.old ≤ least }
    ensures { T.least_start receiver.new ≤ result.1 }
{
    let mut last = None;
    let mut least = least;
    for reduction in reductions {
        let at = reduction.at.get();
        if at < least {
            return (None, least);
        }
        least = at + 1;
        let heard = receiver.hear(*reduction);
        if heard.is_some() {
            last = heard;
        }
    }
    (last, least)
}

// The plan of a receiver. What a receiver around it counts before and after a path delay is set, and after a minute, and its
// answer to that.
type Counted = (Plan, [u64; 3], Option<Heard>);

// What a receiver around this blank one counts over these reductions.
fn counts<T: Receiver>(inner: Box<T>, delay_us: u32, list: &[Reduction]) -> Counted
    requires blank { T.least_start inner.value ≡ 0 }
    requires delay { delay_us ≤ 100000 }
{
    let inner = Box::into_inner(inner);
    let plan = inner.plan();
    let mut counting = CountingReceiver::new(inner);
    let blank = counting.count();
    counting.fit(delay_us);
    let fitted = counting.count();
    let (heard, _) = receive_all(&mut counting, 0, list);
    (plan, [blank, fitted, counting.count()], heard)
}

// What two receivers around this blank one count of the first forty reductions. Then what the inner one counts once it goes on by
// itself, and its answer.
fn goes_on<T: Receiver>(inner: Box<T>, list: &[Reduction]) -> Counted
    requires { T.least_start inner.value ≡ 0 }
{
    let inner = Box::into_inner(inner);
    let plan = inner.plan();
    let (first, rest) = list.split_at(list.len().min(40));
    let mut outer = CountingReceiver::new(CountingReceiver::new(inner));
    let (_, least) = receive_all(&mut outer, 0, first);
    let both = outer.count();
    let mut inner = outer.into_inner();
    let one = inner.count();
    let (heard, _) = receive_all(&mut inner, least, rest);
    (plan, [both, one, inner.count()], heard)
}

fn is_counted(rt: &impl Abort, found: Counted, want: Counted) {
    same(rt, found, want);
}

#[test]
fn it_answers_what_its_inner_receiver_answers(rt: HostRuntime) -> Result<(), Fail> {
    let counting = CountingReceiver::new(DcfReceiver::new());
    let counting: BoxedReceiver = Box::new(rt.alloc(), counting)?;
    let want = lone(62_000_000, 3_976_257_600);
    receives(&rt, counting, Plan::Dcf, 0, &dcf_minute(), want);
    let counting = CountingReceiver::new(MsfReceiver::new());
    let counting: BoxedReceiver = Box::new(rt.alloc(), counting)?;
    let want = lone(61_998_500, 3_976_257_600);
    receives(&rt, counting, Plan::Msf, 1_500, &msf_minute(), want);
    let counting = CountingReceiver::new(WwvbReceiver::new());
    let counting: BoxedReceiver = Box::new(rt.alloc(), counting)?;
    let want = lone(61_900_000, 3_944_592_060);
    receives(&rt, counting, Plan::Wwvb, 100_000, &wwvb_minute(), want);
    Ok(())
}

// Here a minute of DCF77 has 61 reductions, one of MSF 63 and one of WWVB 62. The last reduction completes the minute.
#[test]
fn it_counts_each_reduction(rt: HostRuntime) -> Result<(), Fail> {
    let found = counts(
        Box::new(rt.alloc(), DcfReceiver::new())?,
        20_000,
        &dcf_minute(),
    );
    let heard = lone(61_980_000, 3_976_257_600);
    is_counted(&rt, found, (Plan::Dcf, [0, 0, 61], heard));
    let found = counts(Box::new(rt.alloc(), MsfReceiver::new())?, 0, &msf_minute());
    let heard = lone(62_000_000, 3_976_257_600);
    is_counted(&rt, found, (Plan::Msf, [0, 0, 63], heard));
    let found = counts(
        Box::new(rt.alloc(), WwvbReceiver::new())?,
        0,
        &wwvb_minute(),
    );
    let heard = lone(62_000_000, 3_944_592_060);
    is_counted(&rt, found, (Plan::Wwvb, [0, 0, 62], heard));
    Ok(())
}

// The inner one of two counting receivers goes on after the outer one was taken away.
#[test]
fn the_inner_receiver_goes_on(rt: HostRuntime) -> Result<(), Fail> {
    let found = goes_on(Box::new(rt.alloc(), DcfReceiver::new())?, &dcf_minute());
    let heard = lone(62_000_000, 3_976_257_600);
    is_counted(&rt, found, (Plan::Dcf, [40, 40, 61], heard));
    Ok(())
}
