//! Writes the seconds of a log, one after another.
ghost use Rattle.std.specs.Prelude.{◌≡◌, ℕ, ◌+◌, ◌*◌, ◌<◌, ◌≤◌, ◌^◌, List, [], ◌∷◌, ◌++◌, length, IfOk, OnOk, OnErr};
ghost use Rattle.outside_traits.specs.States.{SinkState};
ghost use Rattle.pulse_log.specs.Writing.{line_of};
ghost use Rattle.tick_units.specs.declared.marks.Plan.{Plan};
ghost use Rattle.drill_day.specs.Made.{seeded, width_of, parts_of, text_of};
ghost use Rattle.drill_day.specs.Minutes.{seconds_from};
ghost use Rattle.outside_traits.specs.Writing.{WritesAll, WritesPrefix};
ghost use Rattle.drill_day.specs.declared.seconds.Second.{Second};

use crate::jitter::{number_after, seeded};
use crate::seconds::{Second, reduction_at, start_of, width_of};
use outside_traits::{Failed, Sink, write_all};
use pulse_log::write_line;
use tick_units::{Plan, Reduction, Symbol};

// How long after the first part of an MSF second its second part starts, in microseconds.
const PARTS_APART: u64 = 200_000;

/// How far a log is written.
#[derive(Clone, Copy, Debug)]
pub struct LogWriter {
    plan: Plan,
    // The number that says how late the last mark is.
    number: u32,
    // How many lines there are.
    lines: u64,
}

// Writes the line of a reduction.
fn write_reduction<K: Sink>(r: Reduction, out: &mut K) -> Result<(), Failed>
    requires some { 1 ≤ r.width }
    requires most { r.width ≤ 2000000 }
    ensures ok { OnOk result (WritesAll (K.state out.old) (K.state out.new) (text_of (r ∷ []))) }
    ensures err { OnErr result (WritesPrefix (K.state out.old) (K.state out.new) (text_of (r ∷ []))) }
{
    let mut line = [0; 40];
    let length = write_line(r, &mut line);
    write_all(out, &line[..length])
}

// Writes the one reduction that says a symbol from a start on.
fn write_whole<K: Sink>(plan: Plan, start: u64, symbol: Symbol, out: &mut K) -> Result<(), Failed>
    requires { start < 2 ^ 46 }
    ensures ok { OnOk result (WritesAll (K.state out.old) (K.state out.new)
        (text_of (record { at = start; width = width_of plan symbol } ∷ []))) }
    ensures err { OnErr result (WritesPrefix (K.state out.old) (K.state out.new)
        (text_of (record { at = start; width = width_of plan symbol } ∷ []))) }
{
    write_reduction(reduction_at(start, width_of(plan, symbol)), out)
}

// Writes the reductions that say a symbol from a start on, and gives their number.
fn write_parts<K: Sink>(plan: Plan, start: u64, symbol: Symbol, out: &mut K) -> Result<u64, Failed>
    requires { start < 2 ^ 45 }
    ensures ok { OnOk result (WritesAll (K.state out.old) (K.state out.new) (text_of (parts_of plan start symbol))) }
    ensures err { OnErr result
        (WritesPrefix (K.state out.old) (K.state out.new) (text_of (parts_of plan start symbol))) }
    ensures lines { IfOk result (λ n. n ≡ length (parts_of plan start symbol)) }
    ensures few { IfOk result (λ n. n ≤ 2) }
{
    write_whole(plan, start, symbol, out)?;
    if symbol != Symbol::OnlyB {
        return Ok(1);
    }
    write_whole(plan, start + PARTS_APART, symbol, out)?;
    Ok(2)
}

impl LogWriter {
    ghost use Rattle.drill_day.specs.Progress.{HasWritten, HasStopped};

    /// No second yet.
    pub fn new(plan: Plan, seed: u32) -> LogWriter
        ensures start { (out : SinkState) → HasWritten plan (seeded plan seed) out result out [] }
        ensures lines { result.lines ≡ 0 }
    {
        LogWriter {
            plan,
            number: seeded(plan, seed),
            lines: 0,
        }
    }

    /// How many lines are written.
    pub fn lines(&self) -> u64
        ensures { result ≡ self.now.lines }
    {
        self.lines
    }

    // Writes the next second.
    fn write_second<K: Sink>(&mut self, second: Second, out: &mut K) -> Result<(), Failed>
        requires near { second.index < 2 ^ 20 }
        requires room { self.old.lines < 2 ^ 40 }
        ensures ok { OnOk result ((plan : Plan) (start : ℕ) (begin : SinkState) (seconds : List Second)
            → HasWritten plan start begin self.old (K.state out.old) seconds
            → HasWritten plan start begin self.new (K.state out.new) (seconds ++ second ∷ [])) }
        ensures err { OnErr result ((plan : Plan) (start : ℕ) (begin : SinkState) (seconds : List Second)
            → HasWritten plan start begin self.old (K.state out.old) seconds
            → HasStopped plan start begin (K.state out.new) (seconds ++ second ∷ [])) }
        ensures few { self.new.lines ≤ self.old.lines + 2 }
    {
        self.number = number_after(self.number);
        let start = start_of(second.index, self.number);
        let count = write_parts(self.plan, start, second.symbol, out)?;
        self.lines += count;
        Ok(())
    }

    /// Writes the next seconds: those that have these symbols, one after another from this index on.
    pub fn write<K: Sink>(
        &mut self,
        index: u32,
        symbols: &[Symbol],
        out: &mut K,
    ) -> Result<(), Failed>
        requires near { index < 2 ^ 19 }
        requires short { length symbols.now ≤ 61 }
        requires room { self.old.lines < 2 ^ 30 }
        ensures ok { OnOk result ((plan : Plan) (start : ℕ) (begin : SinkState) (seconds : List Second)
            → HasWritten plan start begin self.old (K.state out.old) seconds
            → HasWritten plan start begin self.new (K.state out.new) (seconds ++ seconds_from index symbols.now)) }
        ensures err { OnErr result ((plan : Plan) (start : ℕ) (begin : SinkState) (seconds : List Second)
            → HasWritten plan start begin self.old (K.state out.old) seconds
            → HasStopped plan start begin (K.state out.new) (seconds ++ seconds_from index symbols.now)) }
        ensures few { self.new.lines ≤ self.old.lines + 2 * length symbols.now }
    {
        let mut next = index;
        for symbol in symbols {
            let second = Second {
                index: next,
                symbol: *symbol,
            };
            self.write_second(second, out)?;
            next += 1;
        }
        Ok(())
    }
}
