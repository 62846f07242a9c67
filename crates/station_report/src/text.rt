//! Writes the report of a station that was served.
ghost use Rattle.std.specs.Prelude.{◌≡◌, ◌+◌, ◌≤◌, OnOk, OnErr, None, Some, codes, length, take, vec_len};
ghost use Rattle.journal_entry.specs.declared.writer.TheConstants.{LINE_ROOM};
ghost use Rattle.station_report.specs.Crewing.{FinishesDone, HasEach, line_of_work, totals_by, totals_of};
ghost use Rattle.station_report.specs.Crewing.{lines_before_page, lines_of_journal};
ghost use Rattle.station_report.specs.Headline.{each_text, end_word, link_line};
ghost use Rattle.command_ends.specs.Reports.{Reports, status_in};
ghost use Rattle.outside_traits.specs.Writing.{WritesAll, WritesPrefix};

use crate::cause::ending_of;
use crate::done::Done;
use command_ends::{Line, Report, finish_page};
use feed_workers::LinkWork;
use journal_entry::{LINE_ROOM, TextWriter};
use line_files::write_numbered_line;
use outside_traits::{Failed, Sink, write_all};
use responder::{End, Served};
use station_values::Station;
use verdict_journal::Journal;

// Writes the lines of a journal.
fn write_journal<K: Sink>(journal: &Journal, out: &mut K) -> Result<(), Failed>
    ensures ok { OnOk result (WritesAll (K.state out.old) (K.state out.new) (lines_of_journal journal.now)) }
    ensures err { OnErr result (WritesPrefix (K.state out.old) (K.state out.new) (lines_of_journal journal.now)) }
{
    let mut line = [0; LINE_ROOM];
    for place in 0..journal.len() {
        let numbered = journal.numbered(place).unwrap();
        let length = write_numbered_line(&numbered, &mut line);
        write_all(out, &line[..length])?;
    }
    Ok(())
}

// What the responder of a link did in both phases, and how it ended.
#[derive(Clone, Copy)]
struct Totals {
    answered: u128,
    dropped: u128,
    again: u128,
    kissed: u128,
    unkept: u128,
    end: End,
}

// What was done in the first phase alone.
fn of_one(first: Served) -> Totals
    ensures { result ≡ totals_by first None }
{
    Totals {
        answered: u128::from(first.answered),
        dropped: u128::from(first.dropped),
        again: u128::from(first.again),
        kissed: u128::from(first.kissed),
        unkept: u128::from(first.unkept),
        end: first.end,
    }
}

// What was done in both.
fn of_both(first: Served, second: Served) -> Totals
    ensures { result ≡ totals_by first (Some second) }
{
    Totals {
        answered: u128::from(first.answered) + u128::from(second.answered),
        dropped: u128::from(first.dropped) + u128::from(second.dropped),
        again: u128::from(first.again) + u128::from(second.again),
        kissed: u128::from(first.kissed) + u128::from(second.kissed),
        unkept: u128::from(first.unkept) + u128::from(second.unkept),
        end: second.end,
    }
}

fn totals_of(work: &LinkWork) -> Totals
    ensures { result ≡ totals_of work.now }
{
    match work.second {
        None => of_one(work.first),
        Some(second) => of_both(work.first, second),
    }
}

fn end_word(end: End) -> &'static [u8]
    ensures text { result.now ≡ end_word end }
    ensures short { length result.now ≤ 9 }
{
    match end {
        End::Count => b"count",
        End::LinkEnd => b"linkend",
        End::LinkFault => b"linkfault",
    }
}

/// Writes the line of a link at the beginning of `line`: its number from 0, how many datagrams of each kind its responder met in
/// both phases, and how it ended. The answer is the number of bytes.
pub fn write_link_line(number: usize, work: &LinkWork, line: &mut Line) -> usize
    ensures text { take result line.new ≡ line_of_work number work.now }
    ensures within { result ≤ LINE_ROOM }
{
    let totals = totals_of(work);
    let mut text = TextWriter::new(line);
    text.add(b"link");
    text.number(number);
    text.field(b"answered");
    text.number(totals.answered);
    text.field(b"dropped");
    text.number(totals.dropped);
    text.field(b"again");
    text.number(totals.again);
    text.field(b"kissed");
    text.number(totals.kissed);
    text.field(b"unkept");
    text.number(totals.unkept);
    text.field(b"end");
    text.field(end_word(totals.end));
    text.add(b"\n");
    text.len()
}

// Writes the lines of the links.
fn write_links<K: Sink>(works: &[LinkWork], out: &mut K) -> Result<(), Failed>
    ensures ok { OnOk result (WritesAll (K.state out.old) (K.state out.new) (each_text line_of_work 0 works.now)) }
    ensures err { OnErr result (WritesPrefix (K.state out.old) (K.state out.new) (each_text line_of_work 0 works.now)) }
{
    let mut line = [0; LINE_ROOM];
    for number in 0..works.len() {
        let length = write_link_line(number, &works[number], &mut line);
        write_all(out, &line[..length])?;
    }
    Ok(())
}

// Writes the lines of the journal and of the links.
fn write_lines<K: Sink>(done: &Done, out: &mut K) -> Result<(), Failed>
    ensures ok { OnOk result (WritesAll (K.state out.old) (K.state out.new) (lines_before_page done.now)) }
    ensures err { OnErr result (WritesPrefix (K.state out.old) (K.state out.new) (lines_before_page done.now)) }
{
    write_journal(&done.journal, out)?;
    write_links(done.work.links.as_slice(), out)
}

/// Writes what a station has left: its journal, its links, the page of the journal, and the status line. The answer
/// is how it has ended, or that a write has failed.
pub fn finish_served<K: Sink>(station: &Station, done: &Done, limit: u32, out: &mut K) -> Report
    requires { HasEach station.now done.now }
    ensures finishes { FinishesDone limit done.now (K.state out.old) (K.state out.new) (status_in result) }
    ensures reports { Reports result (K.state out.old) (K.state out.new) }
{
    let ending = ending_of(station, done, limit);
    match write_lines(done, out) {
        Ok(()) => finish_page(&done.journal.page(), ending, out),
        Err(Failed) => Report::Unwritten,
    }
}
