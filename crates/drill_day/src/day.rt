//! The logs of a day.
ghost use Rattle.std.specs.Prelude.{◌≡◌, ◌+◌, ◌<◌, ◌++◌, [], ◌∷◌, ℕ, IfOk, OnOk, map, vec_capacity, vec_len};
ghost use Rattle.drill_day.specs.Day.{day_log, day_logs, source_of, IsDay};
ghost use Rattle.memory_links.specs.Memory.{sure_state};
ghost use Rattle.tick_units.specs.declared.marks.Plan.{Plan};

use crate::make;
use memory_links::{MemorySink, SureSource};
use outside_traits::Failed;
use std::alloc::{AllocError, Global};
use std::thread::{Threads, join};
use tick_units::Plan;

// 2026-03-01 00:00 UTC.
const FIRST_MINUTE: u64 = 3_981_312_000;

const MINUTES: u32 = 1440;

// The log of a plan. Making it fails only for lack of memory.
#[tactic(auto, unfolding(crate::specs::Day::day_log))]
fn make_log(alloc: Global, plan: Plan, seed: u32) -> Result<SureSource, AllocError>
    ensures { IfOk result (λ log. sure_state log ≡ source_of (day_log plan seed)) }
{
    let mut out = MemorySink::new(alloc, Vec::new(alloc));
    match make(plan, FIRST_MINUTE, MINUTES, seed, &mut out) {
        Ok(_) => Ok(SureSource::new(out.into_bytes())),
        Err(Failed) => Err(AllocError),
    }
}

/// The logs of a day, made up in memory side by side: one of each plan, in the order DCF77, MSF, WWVB. Their jitter and their damaged
/// minutes come from the seed. Each has at most three million bytes.
///
/// Fails where memory runs out.
pub fn make_logs<R: Threads + Sync>(
    rt: &R,
    alloc: Global,
    seed: u32,
) -> Result<Vec<SureSource>, AllocError>
    ensures logs { IfOk result (λ logs. map sure_state logs.items ≡ map source_of (day_logs seed)) }

    // They are valid logs. As many entries are due for each as a day has minutes, and none names a leap second.
    ensures due { IfOk result (λ _. (feed : ℕ) (plan : Plan) → IsDay feed plan seed) }
{
    let (dcf, (msf, wwvb)) = join(
        rt,
        || make_log(alloc, Plan::Dcf, seed),
        || {
            join(
                rt,
                || make_log(alloc, Plan::Msf, seed),
                || make_log(alloc, Plan::Wwvb, seed),
            )
        },
    );
    let mut logs = Vec::with_capacity(alloc, 3)?;
    logs.push_reserved(dcf?);
    logs.push_reserved(msf?);
    logs.push_reserved(wwvb?);
    Ok(logs)
}
