//! Writes the report of a drill.
ghost use Rattle.std.specs.Prelude.{◌≡◌, ◌-◌, ◌≤◌, ◌^◌, OnOk, OnErr, length, slice_get, take};
ghost use Rattle.journal_entry.specs.declared.writer.TheConstants.{LINE_ROOM};
ghost use Rattle.page_cell.specs.Claims.{of_feed};
ghost use Rattle.station_report.specs.Crewing.{HasEach};
ghost use Rattle.station_report.specs.DrillScaffold.{Counted, CountsFound, CountsOne, CountsUpTo, FinishesDrill, answer_found, answer_in, feed_lines, line_of_feed};
ghost use Rattle.command_ends.specs.Reports.{Reports, status_in};
ghost use Rattle.outside_traits.specs.Writing.{WritesAll, WritesPrefix};

use crate::cause::ending_of;
use crate::done::Done;
use command_ends::{Line, Report, finish_page};
use journal_entry::{Entry, LINE_ROOM, TextWriter, What};
use outside_traits::{Failed, Sink, write_all};
use station_values::Station;
use tick_units::Kind;
use verdict_journal::Journal;

// How many answers of each kind a radio got.
#[derive(Clone, Copy)]
struct Counts {
    verdict: u64,
    lone: u64,
    differs: u64,
    refused: u64,
}

const NONE: Counts = Counts {
    verdict: 0,
    lone: 0,
    differs: 0,
    refused: 0,
};

impl Counts {
    // Counts one answer more.
    fn count(&mut self, kind: Kind)
        requires { CountsUpTo (2 ^ 64 - 2) self.old }
        ensures { CountsOne kind self.old self.new }
    {
        match kind {
            Kind::Verdict {
                second: _,
                leap_at: _,
            } => self.verdict += 1,
            Kind::Lone { second: _ } => self.lone += 1,
            Kind::Differs {
                before: _,
                now: _,
                apart: _,
            } => self.differs += 1,
            Kind::Refused { rule: _ } => self.refused += 1,
        }
    }

    // Counts one answer more, if there is one.
    fn count_found(&mut self, found: Option<Kind>)
        requires { CountsUpTo (2 ^ 64 - 2) self.old }
        ensures { CountsFound found self.old self.new }
    {
        match found {
            Some(kind) => self.count(kind),
            None => {}
        }
    }
}

// The answer that an entry of a feed is, if it is one.
fn answer_in(entry: &Entry, feed: u32) -> Option<Kind>
    ensures { result ≡ answer_in feed entry.now }
{
    if entry.feed != feed {
        return None;
    }
    match entry.what {
        What::Heard(kind) => Some(kind),
        What::Sample(_) | What::Declined(_) | What::Notice(_) => None,
    }
}

// The answer that the entry at a place is, if it is one of the feed.
fn answer_at(journal: &Journal, place: usize, feed: u32) -> Option<Kind>
    ensures { result ≡ answer_found feed (slice_get journal.now.entries place) }
{
    match journal.get(place) {
        Some(entry) => answer_in(&entry, feed),
        None => None,
    }
}

// How many answers of each kind a feed got.
fn counts_of(journal: &Journal, feed: u32) -> Counts
    ensures { Counted (of_feed feed journal.now.entries) result }
{
    let mut counts = NONE;
    for place in 0..journal.len() {
        counts.count_found(answer_at(journal, place, feed));
    }
    counts
}

// Writes the line of a feed at the beginning of `line`. The answer is its number of bytes.
fn write_feed_line(feed: u32, journal: &Journal, line: &mut Line) -> usize
    ensures text { take result line.new ≡ line_of_feed feed journal.now }
    ensures within { result ≤ LINE_ROOM }
{
    let counts = counts_of(journal, feed);
    let mut text = TextWriter::new(line);
    text.add(b"feed");
    text.number(feed);
    text.field(b"verdict");
    text.number(counts.verdict);
    text.field(b"lone");
    text.number(counts.lone);
    text.field(b"differs");
    text.number(counts.differs);
    text.field(b"refused");
    text.number(counts.refused);
    text.add(b"\n");
    text.len()
}

// Writes the line of a feed.
fn write_feed<K: Sink>(feed: u32, journal: &Journal, out: &mut K) -> Result<(), Failed>
    ensures ok { OnOk result (WritesAll (K.state out.old) (K.state out.new) (line_of_feed feed journal.now)) }
    ensures err { OnErr result (WritesPrefix (K.state out.old) (K.state out.new) (line_of_feed feed journal.now)) }
{
    let mut line = [0; LINE_ROOM];
    let length = write_feed_line(feed, journal, &mut line);
    write_all(out, &line[..length])
}

// Writes the lines of the three feeds.
fn write_feeds<K: Sink>(journal: &Journal, out: &mut K) -> Result<(), Failed>
    ensures ok { OnOk result (WritesAll (K.state out.old) (K.state out.new) (feed_lines journal.now.entries)) }
    ensures err { OnErr result (WritesPrefix (K.state out.old) (K.state out.new) (feed_lines journal.now.entries)) }
{
    write_feed(0, journal, out)?;
    write_feed(1, journal, out)?;
    write_feed(2, journal, out)
}

/// Writes what a drill has left: how many answers of each kind each feed got, the page of its journal, and the status line.
/// The answer is how it has ended, or that a write has failed.
pub fn finish_drilled<K: Sink>(station: &Station, done: &Done, limit: u32, out: &mut K) -> Report
    requires { HasEach station.now done.now }
    ensures finishes { FinishesDrill limit done.now (K.state out.old) (K.state out.new) (status_in result) }
    ensures reports { Reports result (K.state out.old) (K.state out.new) }
{
    let ending = ending_of(station, done, limit);
    match write_feeds(&done.journal, out) {
        Ok(()) => finish_page(&done.journal.page(), ending, out),
        Err(Failed) => Report::Unwritten,
    }
}
