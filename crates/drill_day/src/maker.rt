//! A made log, written whole.
ghost use Rattle.std.specs.Prelude.{◌≡◌, ◌%◌, ◌≤◌, length, IfOk, OnOk, OnErr};
ghost use Rattle.drill_day.specs.Made.{made, text_of, IsReadAs};
ghost use Rattle.drill_day.specs.Minutes.{index_of};
ghost use Rattle.outside_traits.specs.Writing.{WritesAll, WritesPrefix};

use crate::minutes::{FRAME_ROOM, closing_symbols, opening_index, opening_symbols, write_symbols};
use crate::writer::LogWriter;
use outside_traits::{Failed, Sink};
use tick_units::{Plan, Symbol};

// The index of the second at which a minute, counted from 0, begins.
fn index_of(minute: u32) -> u32
    requires { minute ≤ 1440 }
    ensures value { result ≡ index_of minute }
    ensures most { result ≤ 86402 }
{
    2 + 60 * minute
}

/// Writes the log of this many minutes, the first of which begins at the absolute second `first`, and gives the number of its
/// lines. Its jitter and its damaged minutes come from the seed.
///
/// `first` is a whole minute from 2000-01-02 00:00 to 2099-12-30 00:00 UTC, and there are at most as many minutes as a day has.
/// Failed where a write failed: the sink's count rose, and what was written is a prefix of the log.
pub fn make<K: Sink>(
    plan: Plan,
    first: u64,
    minutes: u32,
    seed: u32,
    out: &mut K,
) -> Result<u64, Failed>
    requires whole { first % 60 ≡ 0 }
    requires from { 3155760000 ≤ first }
    requires until { first ≤ 6311260800 }
    requires some { 1 ≤ minutes }
    requires few { minutes ≤ 1440 }
    ensures written { OnOk result
        (WritesAll (K.state out.old) (K.state out.new) (text_of (made plan first minutes seed))) }
    ensures lines { IfOk result (λ n. n ≡ length (made plan first minutes seed)) }

    // It is a valid log, in which a reader finds exactly these reductions.
    ensures read { IfOk result (λ _. IsReadAs (text_of (made plan first minutes seed)) (made plan first minutes seed)) }
    ensures failed { OnErr result
        (WritesPrefix (K.state out.old) (K.state out.new) (text_of (made plan first minutes seed))) }
{
    let mut log = LogWriter::new(plan, seed);
    log.write(opening_index(plan), opening_symbols(plan), out)?;
    for minute in 0..minutes {
        let mut symbols = [Symbol::Zero; FRAME_ROOM];
        let count = write_symbols(plan, first, seed, minute, &mut symbols);
        log.write(index_of(minute), &symbols[..count], out)?;
    }
    log.write(index_of(minutes), closing_symbols(plan), out)?;
    Ok(log.lines())
}
