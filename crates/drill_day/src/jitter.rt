//! The numbers that say how late the starts of marks are.
ghost use Rattle.std.specs.Prelude.{◌≡◌, ◌^◌, ◌<◌};
ghost use Rattle.code_plans.specs.Codes.{sending_of};
ghost use Rattle.tick_units.specs.declared.marks.Plan.{Plan};
ghost use Rattle.drill_day.specs.Made.{seeded, number_after};

use code_plans::{ListedSending, of_plan};
use tick_units::Plan;

const MODULUS: u64 = 1 << 31;

// What a plan adds to a seed, so that at one seed each plan has its own numbers.
fn number_by<C: ListedSending>() -> u32
    ensures { (plan : Plan) → C.which ≡ plan → result ≡ (sending_of plan).number }
{
    C::number()
}

fn number_of(plan: Plan) -> u32
    ensures { result ≡ (sending_of plan).number }
{
    of_plan!(plan, number_by())
}

// The number before the first one.
pub fn seeded(plan: Plan, seed: u32) -> u32
    ensures value { result ≡ seeded plan seed }
    ensures below { result < 2 ^ 31 }
{
    ((u64::from(seed) + u64::from(number_of(plan))) % MODULUS) as u32
}

// The number after this one: the generator in an example of the C standard.
pub fn number_after(number: u32) -> u32
    ensures value { result ≡ number_after number }
    ensures below { result < 2 ^ 31 }
{
    ((1_103_515_245 * u64::from(number) + 12_345) % MODULUS) as u32
}
