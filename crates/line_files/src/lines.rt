//! The lines of entries.
ghost use Rattle.std.specs.Prelude.{◌≡◌, ◌≤◌, ◌++◌, codes, take};
ghost use Rattle.journal_entry.specs.Numbers.{numbered_text};
ghost use Rattle.journal_entry.specs.declared.writer.TheConstants.{LINE_ROOM};
ghost use Rattle.radio_receiver.specs.Due.{entry_line};

use command_ends::Line;
use journal_entry::{Entry, Numbered, write_numbered, write_unnumbered};

// Writes the line of an entry at the beginning of `line`. The answer is its number of bytes.
pub fn write_entry_line(entry: &Entry, line: &mut Line) -> usize
    ensures text { take result line.new ≡ entry_line entry.now }
    ensures within { result ≤ LINE_ROOM }
{
    let end = write_unnumbered(entry, line);
    line[end] = b'\n';
    end + 1
}

/// Writes the line of a numbered entry at the beginning of `line`. The answer is its number of bytes.
pub fn write_numbered_line(numbered: &Numbered, line: &mut Line) -> usize
    ensures text { take result line.new ≡ numbered_text numbered.now ++ codes "\n" }
    ensures within { result ≤ LINE_ROOM }
{
    let end = write_numbered(numbered, line);
    line[end] = b'\n';
    end + 1
}
