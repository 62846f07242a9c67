//! Makes a rack, one receiver after the other.
ghost use Rattle.std.specs.Prelude.{ℕ, OnOk};
ghost use Rattle.radio_receiver.specs.Histories.{blank_of};
ghost use Rattle.station_gear.specs.Made.{HasOfEach, with_one};

use radio_receiver::{BoxedReceiver, Receiver};
use std::alloc::AllocError;
use tick_units::Plan;

/// Puts one more blank receiver of a plan into a rack.
///
/// # Errors
/// There is no memory.
#[tactic(auto, using(crate::proofs::MadeLaws::of_each_push))]
pub fn put_in_rack(
    rack: &mut Vec<BoxedReceiver>,
    receiver: BoxedReceiver,
    plan: Plan,
) -> Result<(), AllocError>
    requires { stands_for receiver (blank_of plan) }
    ensures { (count : Plan → ℕ) → HasOfEach stands_for count rack.old.items →
        OnOk result (HasOfEach stands_for (with_one plan count) rack.new.items) }
{
    rack.push(receiver)?;
    Ok(())
}
