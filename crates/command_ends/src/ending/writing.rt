//! Writes the status line of an ending.

ghost use Rattle.command_ends.specs.Endings.{status_of, status_line};
ghost use Rattle.command_ends.specs.Reports.{Reports, status_in};
ghost use Rattle.command_ends.specs.Writing.{Answers};

use super::Ending;
use super::text::status_text;
use crate::report::Report;
use outside_traits::{Failed, Sink, write_all};

/// Writes the status line. The answer is the ending, or that a write has failed.
pub fn finish<K: Sink>(ending: Ending, out: &mut K) -> Report
    ensures answers { Answers (status_of ending) (status_in result) (K.state out.old) (K.state out.new) (status_line ending) }
    ensures reports { Reports result (K.state out.old) (K.state out.new) }
{
    match write_all(out, status_text(ending).as_slice()) {
        Ok(()) => Report::Ended(ending),
        Err(Failed) => Report::Unwritten,
    }
}
