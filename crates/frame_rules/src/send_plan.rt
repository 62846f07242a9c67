//! How a code plan is sent.
ghost use Rattle.std.specs.Prelude.{◌≡◌, ◌≤◌, ◌%◌, ◌++◌, false, length, drop};

use crate::code_plan::CodePlan;
use tick_units::{Coded, Symbol};

/// A width in microseconds that is in no class of any plan.
pub const ODD_WIDTH: u32 = 30_000;

/// A code plan as it is sent: what a made log needs of it.
pub trait SendPlan: CodePlan {
    ghost use Rattle.frame_rules.specs.Sendings.{Sending};

    /// How it is sent, as definitions have it.
    ghost sending: { Sending };

    /// What is added to a seed, so that at one seed each plan has its own jitter.
    fn number() -> u32
        ensures { result ≡ sending.number };

    /// The width in microseconds that says a symbol, of each part where there are two.
    fn width(symbol: Symbol) -> u32
        ensures value { result ≡ sending.width symbol }
        ensures some { 1 ≤ result }
        ensures most { result ≤ 800000 };

    /// The symbols before the first minute of a log.
    fn opening() -> &'static [Symbol]
        ensures symbols { result.now ≡ sending.opening }
        ensures few { length result.now ≤ 61 };

    /// The index of the first of them, where that of the minute is 2.
    fn opening_index() -> u32
        ensures value { result ≡ sending.opening_index }
        ensures most { result ≤ 1 };

    /// The symbols after the last minute of a log.
    fn closing() -> &'static [Symbol]
        ensures symbols { result.now ≡ sending.closing }
        ensures few { length result.now ≤ 61 };

    /// Writes the frame that says a minute to the beginning of `out`, and returns the number of its symbols. It is a minute in UTC
    /// of the years 2000 to 2099, less a day at both ends, that announces no leap second. The rest of `out` stays.
    fn spell(c: &Coded, out: &mut [Symbol; 61]) -> usize
        requires whole { c.now.minute % 60 ≡ 0 }
        requires from { 3155760060 ≤ c.now.minute }
        requires most { c.now.minute ≤ 6311347200 }
        requires leap { c.now.leap_at ≡ 0 }
        requires summer { c.now.summer ≡ false }
        ensures count { result ≡ length (sending.spelt c.now) }
        ensures written { out.new ≡ sending.spelt c.now ++ drop (length (sending.spelt c.now)) out.old };
}
