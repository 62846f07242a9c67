//! What the bytes of a file give as they come, and how far its reading came.
ghost use Rattle.std.specs.Prelude.{◌≡◌};
ghost use Rattle.command_ends.specs.Endings.{ending_at};
ghost use Rattle.line_files.specs.Taking.{Fits, IsGiven};

mod taking;

use command_ends::{Ending, Line, Subject};
use file_reader::LogEnd;
use outside_traits::{Failed, Sink, write_all};
use pulse_log::BadLine;
pub use taking::{Taker, read_lines};

/// How a command ends that has read a file so far.
pub fn ending_at(subject: Subject, end: LogEnd) -> Ending
    ensures { result ≡ ending_at subject end }
{
    match end {
        LogEnd::Whole => Ending::Whole,
        LogEnd::BadLine { line } => Ending::WrongLine(subject, line),
        LogEnd::Fault => Ending::NotRead(subject),
        LogEnd::Long => Ending::Long(subject),
    }
}

/// What the first bytes give: a text of this many bytes at the beginning of the line, no text, or their bad line.
pub type Gives = Result<Option<usize>, BadLine>;

/// What stops the taking of a file before its end.
#[derive(Clone, Copy, Debug, PartialEq, Eq)]
pub enum Stop {
    /// A line that is not valid, by its number from 1.
    BadLine { line: u64 },
    /// A write that failed.
    WriteFault,
}

// Writes the text that bytes give, or stops at their bad line.
fn write_given<K: Sink>(gives: Gives, line: &Line, out: &mut K) -> Result<(), Stop>
    requires { Fits gives }
    ensures { IsGiven result gives line.now (K.state out.old) (K.state out.new) }
{
    match gives {
        Ok(None) => Ok(()),
        Ok(Some(length)) => match write_all(out, &line[..length]) {
            Ok(()) => Ok(()),
            Err(Failed) => Err(Stop::WriteFault),
        },
        Err(bad) => Err(Stop::BadLine { line: bad.line }),
    }
}
