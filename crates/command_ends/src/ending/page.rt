//! The line of a page, and the status line after it.
ghost use Rattle.std.specs.Prelude.{◌≡◌, ◌≤◌, ◌++◌, take};
ghost use Rattle.journal_entry.specs.declared.writer.TheConstants.{LINE_ROOM};
ghost use Rattle.command_ends.specs.Endings.{status_of, status_line};
ghost use Rattle.command_ends.specs.Reports.{Reports, status_in};
ghost use Rattle.command_ends.specs.Text.{page_text};
ghost use Rattle.command_ends.specs.Writing.{Answers};

use super::Ending;
use super::writing::finish;
use crate::report::Report;
use clock_page::Page;
use journal_entry::LINE_ROOM;
use outside_traits::{Failed, Sink, write_all};
use system_fold::write_page;

/// A line that is written, in its room.
pub type Line = [u8; LINE_ROOM];

// Writes the line of a page at the beginning of `line`. The answer is its number of bytes.
#[tactic(auto, unfolding(crate::specs::Text::page_text))]
fn write_page_line(page: &Page, line: &mut Line) -> usize
    ensures text { take result line.new ≡ page_text page.now }
    ensures within { result ≤ LINE_ROOM }
{
    let end = write_page(page, line);
    line[end] = b'\n';
    end + 1
}

/// Writes the line of a page, and then the status line. The answer is the ending, or that a write has failed.
pub fn finish_page<K: Sink>(page: &Page, ending: Ending, out: &mut K) -> Report
    ensures answers { Answers (status_of ending) (status_in result) (K.state out.old) (K.state out.new)
        (page_text page.now ++ status_line ending) }
    ensures reports { Reports result (K.state out.old) (K.state out.new) }
{
    let mut line = [0; LINE_ROOM];
    let length = write_page_line(page, &mut line);
    match write_all(out, &line[..length]) {
        Ok(()) => finish(ending, out),
        Err(Failed) => Report::Unwritten,
    }
}
