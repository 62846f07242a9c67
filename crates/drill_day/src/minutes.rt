//! What a log says in each of its minutes, and before and after them.
ghost use Rattle.std.specs.Prelude.{◌≡◌, ◌+◌, ◌*◌, ◌%◌, ◌≤◌, ◌<◌, ◌++◌, false, length, take, drop};
ghost use Rattle.tick_units.specs.declared.marks.Plan.{Plan};
ghost use Rattle.drill_day.specs.Minutes.{is_damaged, coded_of, spelt_by, symbols_of, opening_symbols, opening_index, closing_symbols};

use code_plans::{ListedSending, of_plan};
use tick_units::{Coded, Plan, Symbol};

/// One more than the number of symbols of the longest frame.
pub const FRAME_ROOM: usize = 61;

// The place whose width is in no class in a damaged minute.
const DAMAGED_PLACE: usize = 30;

// Whether a minute, counted from 0, is damaged.
fn is_damaged(seed: u32, minute: u32) -> bool
    ensures { result ≡ is_damaged seed minute }
{
    minute != 0 && minute % 50 == seed % 50
}

// Writes the frame of this minute in a plan to the beginning of `out`, and gives the number of its symbols.
fn spell_by<C: ListedSending>(c: &Coded, out: &mut [Symbol; 61]) -> usize
    requires whole { c.now.minute % 60 ≡ 0 }
    requires from { 3155760060 ≤ c.now.minute }
    requires most { c.now.minute ≤ 6311347200 }
    requires leap { c.now.leap_at ≡ 0 }
    requires summer { c.now.summer ≡ false }
    ensures count { (plan : Plan) → C.which ≡ plan → result ≡ length (spelt_by plan c.now) }
    ensures written { (plan : Plan) → C.which ≡ plan →
        out.new ≡ spelt_by plan c.now ++ drop (length (spelt_by plan c.now)) out.old }
{
    C::spell(c, out)
}

// The same by the plan's name.
fn spell(plan: Plan, c: &Coded, out: &mut [Symbol; 61]) -> usize
    requires whole { c.now.minute % 60 ≡ 0 }
    requires from { 3155760060 ≤ c.now.minute }
    requires most { c.now.minute ≤ 6311347200 }
    requires leap { c.now.leap_at ≡ 0 }
    requires summer { c.now.summer ≡ false }
    ensures count { result ≡ length (spelt_by plan c.now) }
    ensures written { out.new ≡ spelt_by plan c.now ++ drop (length (spelt_by plan c.now)) out.old }
{
    of_plan!(plan, spell_by(c, out))
}

/// Writes what the log says in a minute, counted from 0, to the beginning of `out`, and gives the number of its symbols. The
/// first minute of the log begins at the absolute second `first`.
pub fn write_symbols(
    plan: Plan,
    first: u64,
    seed: u32,
    minute: u32,
    out: &mut [Symbol; 61],
) -> usize
    requires whole { first % 60 ≡ 0 }
    requires from { 3155760000 ≤ first }
    requires most { first ≤ 6311260800 }
    requires few { minute < 1440 }
    ensures symbols { take result out.new ≡ symbols_of plan first seed minute }
    ensures within { result ≤ 61 }
{
    let coded = Coded {
        minute: first + 60 * (u64::from(minute) + 1),
        leap_at: 0,
        summer: false,
    };
    let count = spell(plan, &coded, out);
    if is_damaged(seed, minute) {
        out[DAMAGED_PLACE] = Symbol::Odd;
    }
    count
}

fn opening_by<C: ListedSending>() -> &'static [Symbol]
    ensures symbols { (plan : Plan) → C.which ≡ plan → result.now ≡ opening_symbols plan }
    ensures few { length result.now ≤ 61 }
{
    C::opening()
}

/// The symbols before the first minute.
pub fn opening_symbols(plan: Plan) -> &'static [Symbol]
    ensures symbols { result.now ≡ opening_symbols plan }
    ensures few { length result.now ≤ 61 }
{
    of_plan!(plan, opening_by())
}

fn opening_index_by<C: ListedSending>() -> u32
    ensures value { (plan : Plan) → C.which ≡ plan → result ≡ opening_index plan }
    ensures most { result ≤ 1 }
{
    C::opening_index()
}

/// The index of the first of them.
pub fn opening_index(plan: Plan) -> u32
    ensures value { result ≡ opening_index plan }
    ensures most { result ≤ 1 }
{
    of_plan!(plan, opening_index_by())
}

fn closing_by<C: ListedSending>() -> &'static [Symbol]
    ensures symbols { (plan : Plan) → C.which ≡ plan → result.now ≡ closing_symbols plan }
    ensures few { length result.now ≤ 61 }
{
    C::closing()
}

/// The symbols after the last minute.
pub fn closing_symbols(plan: Plan) -> &'static [Symbol]
    ensures symbols { result.now ≡ closing_symbols plan }
    ensures few { length result.now ≤ 61 }
{
    of_plan!(plan, closing_by())
}
