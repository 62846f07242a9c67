//! The seconds of a log: what each of them says, and by which reductions.
ghost use Rattle.std.specs.Prelude.{◌≡◌, ◌<◌, ◌≤◌, ◌^◌};
ghost use Rattle.tick_units.specs.declared.marks.Plan.{Plan};
ghost use Rattle.drill_day.specs.Made.{width_of, start_of};

use code_plans::{ListedSending, of_plan};
use tick_units::{Local, Plan, Reduction, Symbol};

/// A second that has a mark.
#[derive(Clone, Copy, Debug)]
pub struct Second {
    /// Its index in the log, from 0.
    pub index: u32,
    pub symbol: Symbol,
}

// The width that says a symbol in a plan.
fn width_by<C: ListedSending>(symbol: Symbol) -> u32
    ensures value { (plan : Plan) → C.which ≡ plan → result ≡ width_of plan symbol }
    ensures some { 1 ≤ result }
    ensures most { result ≤ 800000 }
{
    C::width(symbol)
}

// The width that says a symbol.
pub fn width_of(plan: Plan, symbol: Symbol) -> u32
    ensures value { result ≡ width_of plan symbol }
    ensures some { 1 ≤ result }
    ensures most { result ≤ 800000 }
{
    of_plan!(plan, width_by(symbol))
}

// The start of a second's mark, in microseconds, late by this number modulo 2001.
pub fn start_of(index: u32, number: u32) -> u64
    requires { index < 2 ^ 20 }
    ensures value { result ≡ start_of index number }
    ensures below { result < 2 ^ 45 }
{
    5_000_000 + u64::from(index) * 1_000_000 + u64::from(number % 2001)
}

// The reduction of this start and width.
pub fn reduction_at(start: u64, width: u32) -> Reduction
    requires { start < 2 ^ 50 }
    ensures at { result.at ≡ start }
    ensures width { result.width ≡ width }
{
    match Local::new(start) {
        Some(at) => Reduction { at, width },
        None => unreachable!(),
    }
}
