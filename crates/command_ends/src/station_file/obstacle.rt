//! What keeps a station file from being used, and the lines that report it.

ghost use Rattle.std.specs.Prelude.{◌++◌, OnErr, OnOk, codes};
ghost use Rattle.command_ends.specs.Reports.{Reports, status_in};
ghost use Rattle.command_ends.specs.StationFile.{HasStatusLine, IsNamed, many_line, station_line, status_at, line_at};
ghost use Rattle.command_ends.specs.Writing.{Answers};
ghost use Rattle.command_ends.specs.declared.ending.status.Status.TheVariants.{Station};
ghost use Rattle.outside_traits.specs.Writing.{WritesAll, WritesPrefix};

use crate::ending::Ending;
use crate::ending::text::count_text;
use crate::ending::writing::finish;
use crate::report::Report;
use outside_traits::{Failed, Sink, write_all};
use station_reader::{KeyText, StationFault};

/// What keeps a station from being used: the end of the run, or a fault of the station file.
#[derive(Debug, Drop)]
pub enum Obstacle {
    Ends(Ending),
    Faulty(StationFault),
}

// Writes two texts.
fn write_two<K: Sink>(out: &mut K, first: &[u8], second: &[u8]) -> Result<(), Failed>
    ensures ok { OnOk result (WritesAll (K.state out.old) (K.state out.new) (first.now ++ second.now)) }
    ensures err { OnErr result (WritesPrefix (K.state out.old) (K.state out.new) (first.now ++ second.now)) }
{
    write_all(out, first)?;
    write_all(out, second)
}

// Writes three texts.
fn write_three<K: Sink>(
    out: &mut K,
    first: &[u8],
    second: &[u8],
    third: &[u8],
) -> Result<(), Failed>
    ensures ok { OnOk result (WritesAll (K.state out.old) (K.state out.new) (first.now ++ (second.now ++ third.now))) }
    ensures err { OnErr result (WritesPrefix (K.state out.old) (K.state out.new) (first.now ++ (second.now ++ third.now))) }
{
    write_all(out, first)?;
    write_two(out, second, third)
}

// Writes the status line of a fault at a key, which may be long.
fn write_at_key<K: Sink>(prefix: &[u8], key: &KeyText, out: &mut K) -> Result<(), Failed>
    ensures ok { OnOk result (WritesAll (K.state out.old) (K.state out.new) (prefix.now ++ (key.now ++ codes "\n"))) }
    ensures err { OnErr result (WritesPrefix (K.state out.old) (K.state out.new) (prefix.now ++ (key.now ++ codes "\n"))) }
{
    write_three(out, prefix, key.bytes(), b"\n")
}

// Writes the status line of a key of which there are too many.
fn write_at_many<K: Sink>(key: &KeyText, count: u64, out: &mut K) -> Result<(), Failed>
    ensures ok { OnOk result (WritesAll (K.state out.old) (K.state out.new) (many_line key.now count)) }
    ensures err { OnErr result (WritesPrefix (K.state out.old) (K.state out.new) (many_line key.now count)) }
{
    let text = count_text(count);
    write_three(out, b"status 3 station many ", key.bytes(), text.as_slice())
}

// Writes the status line of a station with a fault that a status line names.
fn write_fault<K: Sink>(fault: &StationFault, out: &mut K) -> Result<(), Failed>
    ensures ok { OnOk result (WritesAll (K.state out.old) (K.state out.new) (station_line fault.now)) }
    ensures err { OnErr result (WritesPrefix (K.state out.old) (K.state out.new) (station_line fault.now)) }
{
    match fault {
        StationFault::NotToml => write_all(out, b"status 3 station toml\n"),
        StationFault::UnknownKey { key } => write_at_key(b"status 3 station unknown ", key, out),
        StationFault::Missing { key } => write_at_key(b"status 3 station missing ", key, out),
        StationFault::Range { key } => write_at_key(b"status 3 station range ", key, out),
        StationFault::TooMany { key, count } => write_at_many(key, *count, out),
        // No obstacle has this fault.
        StationFault::Memory => Ok(()),
    }
}

// Ends with the status line of a station with a fault.
fn finish_faulty<K: Sink>(fault: StationFault, out: &mut K) -> Report
    ensures answers { Answers Station (status_in result) (K.state out.old) (K.state out.new) (station_line fault) }
    ensures reports { Reports result (K.state out.old) (K.state out.new) }
{
    match write_fault(&fault, out) {
        Ok(()) => Report::Refused(fault),
        Err(Failed) => Report::Unwritten,
    }
}

/// Writes the status line of a run that an obstacle ends. The answer is the obstacle, or that a write has failed.
pub fn finish_at<K: Sink>(obstacle: Obstacle, out: &mut K) -> Report
    ensures answers { HasStatusLine obstacle →
        Answers (status_at obstacle) (status_in result) (K.state out.old) (K.state out.new) (line_at obstacle) }
    ensures reports { Reports result (K.state out.old) (K.state out.new) }
{
    match obstacle {
        Obstacle::Ends(ending) => finish(ending, out),
        Obstacle::Faulty(fault) => finish_faulty(fault, out),
    }
}
