//! What a station has left.

use crate::fakes::CLIENT;
use crate::stations::Done;
use feed_workers::{LogEnd, LogWork, PollWork};
use journal_entry::{ENTRY_ROOM, Entry, write_entry};
use memory_outside::{HoldGate, LinkEvent, MemoryLink};
use outside_traits::Address;
use responder::{End, Served};
use station_crew::LinkWork;
use std::alloc::Global;
use std::fmt::Debug;
use std::process::Abort;
use std::sync::Wait;
use verdict_journal::Journal;

/// A log that was read whole, with room in the journal for all its entries, or not.
pub const WHOLE: LogWork = LogWork {
    end: LogEnd::Whole,
    full: false,
};

pub const FULL: LogWork = LogWork {
    end: LogEnd::Whole,
    full: true,
};

/// A link that answered nothing in its hearings; and one that answered once, and so on.
pub const NONE: Served = Served {
    answered: 0,
    dropped: 0,
    again: 0,
    kissed: 0,
    unkept: 0,
    end: End::Count,
};

pub const ONE: Served = Served {
    answered: 1,
    ..NONE
};

pub const TWO: Served = Served {
    answered: 2,
    ..NONE
};

/// What `assert_eq!` does, as a call, which is proved in a tenth of the time.
pub fn same<T: PartialEq + Debug + Drop>(rt: &impl Abort, left: T, right: T) {
    assert_eq!(*rt; left, right);
}

/// This holds.
pub fn holds(rt: &impl Abort, name: &str, fact: bool) {
    same(rt, (name, fact), (name, true));
}

/// The numbers are the same.
pub fn same_count(rt: &impl Abort, name: &str, left: usize, right: usize) {
    same(rt, (name, left), (name, right));
}

/// The radios have done this.
pub fn have_read(rt: &impl Abort, ended: &Done, want: &[LogWork]) {
    same(rt, ended.work.radios.as_slice(), want);
}

/// The servers have done this.
pub fn have_polled(rt: &impl Abort, ended: &Done, want: &[PollWork]) {
    same(rt, ended.work.servers.as_slice(), want);
}

/// The links have done this.
pub fn have_served(rt: &impl Abort, ended: &Done, want: &[LinkWork]) {
    same(rt, ended.work.links.as_slice(), want);
}

/// The first link has done this in the first phase.
pub fn has_first(rt: &impl Abort, ended: &Done, want: Served) {
    match ended.work.links.get(0) {
        Some(link) => same(rt, link.first, want),
        None => panic!(*rt; "no link"),
    }
}

/// The leap second file has done this.
pub fn has_listed(rt: &impl Abort, ended: &Done, want: Option<LogWork>) {
    same(rt, ended.work.leap, want);
}

/// The journal has this many entries.
pub fn has_entries(rt: &impl Abort, ended: &Done, count: usize) {
    same_count(rt, "entries", ended.journal.len(), count);
}

// Adds the line of an entry to a text. Where memory is short, the text is not what the test wants.
fn add_line(text: &mut String, entry: &Entry) {
    let mut line = [0; ENTRY_ROOM];
    let count = write_entry(entry, &mut line);
    let line = line.get(..count).unwrap_or(&[]);
    let _ = text.push_str(std::str::from_utf8(line).unwrap_or("?"));
    let _ = text.push('\n');
}

// The lines of a journal.
fn text_of(alloc: Global, journal: &Journal) -> String {
    let mut text = String::new(alloc);
    for place in 0..journal.len() {
        if let Some(entry) = journal.get(place) {
            add_line(&mut text, &entry);
        }
    }
    text
}

/// The entries are these lines.
pub fn has_lines(rt: &impl Abort, alloc: Global, ended: &Done, want: &str) {
    same(rt, text_of(alloc, &ended.journal).as_str(), want);
}

/// A reply: what it begins with, its reference ID, and what its receive timestamp begins with.
#[derive(Clone, Copy)]
pub struct Reply<'a> {
    pub to: Address,
    pub begin: &'a [u8],
    pub id: &'a [u8],
    pub second: &'a [u8],
}

/// A reply to the client.
pub const REPLY: Reply<'static> = Reply {
    to: CLIENT,
    begin: &[],
    id: b"INIT",
    second: &[],
};

// Whether these bytes stand there from a place on.
fn has_at(bytes: &[u8], place: usize, part: &[u8]) -> bool {
    match bytes.get(place..) {
        Some(rest) => rest.starts_with(part),
        None => false,
    }
}

// Whether a datagram that was sent is the reply of this place.
fn is_reply(to: Address, bytes: &[u8], wants: &[Reply<'_>], place: usize) -> bool {
    match wants.get(place) {
        Some(want) => {
            to == want.to
                && bytes.len() == 48
                && bytes.starts_with(want.begin)
                && has_at(bytes, 12, want.id)
                && has_at(bytes, 32, want.second)
        }
        None => false,
    }
}

// Whether a link has sent these replies, in order, and nothing else.
fn are_sent(link: &MemoryLink, wants: &[Reply<'_>]) -> bool {
    let mut count = 0usize;
    let mut right = true;
    for place in 0..link.count() {
        if let Some(LinkEvent::Sent { to, bytes }) = link.event(place) {
            right = right && is_reply(to, bytes, wants, count);
            count = count.saturating_add(1);
        }
    }
    right && count == wants.len()
}

/// The link of this place has sent these replies, in order.
pub fn has_sent(rt: &impl Abort, ended: &Done, place: usize, wants: &[Reply<'_>]) {
    match ended.gear.links.get(place) {
        Some(link) => holds(rt, "the replies", are_sent(link, wants)),
        None => panic!(*rt; "no link"),
    }
}

/// The link of this place has this many events.
pub fn has_events(rt: &impl Abort, ended: &Done, place: usize, count: usize) {
    match ended.gear.links.get(place) {
        Some(link) => same_count(rt, "events", link.count(), count),
        None => panic!(*rt; "no link"),
    }
}

/// The gate has held its worker once, and not for longer than until the other one had passed.
pub fn has_held_once(rt: &(impl Abort + Wait), gate: &HoldGate) {
    holds(rt, "held once", gate.passed(rt) == 1);
    holds(rt, "in time", !gate.ran_out(rt));
}
