// A link in memory.
ghost use Rattle.std.specs.Prelude.{◌≡◌, ℕ, ◌≤◌, Some, [], not, is_ok, drop, take, length, max, slice_get, unwrap_or, IfOk, MatchResult};
ghost use Rattle.std.specs.Option.{option_map};
ghost use Rattle.outside_traits.specs.Faults.{HasCause};
ghost use Rattle.outside_traits.specs.Links.{ReceivesNext, IsDeaf, ReportsMoment, Sends};
ghost use Rattle.memory_outside.specs.Seen.{event_seen};
ghost use Rattle.memory_links.specs.Calls.{AreStated, IsCalled, fails_next};

use crate::book::{Book, EventRoom};
use crate::{FakeOpen, LinkEvent, Planned};
use memory_links::Calls;
use outside_traits::{Address, Arrival, Failed, Hearing, Link};
use std::alloc::Global;
use tick_units::Local;

/// A link in memory, of which stated calls of `hear` and `send` fail, counted together. It gives the planned hearings, then its
/// end. It gives the stated moments, then the last one again. It reports its events until its room for them or for their bytes is
/// used up.
#[derive(Drop)]
pub struct MemoryLink {
    hearings: Vec<Planned>,
    heard: usize,
    moments: Vec<Local>,
    reported: usize,
    calls: Calls,
    latest: Local,
    faults: u64,
    book: Book,
    pub(crate) opening: u64,
    pub(crate) place: usize,
}

// The later of two moments.
fn later(a: Local, b: Local) -> Local
    ensures { result ≡ max a b }
{
    if a.get() < b.get() { b } else { a }
}

// Copies the first 1024 bytes of a datagram to the beginning of a piece, and returns how many there are.
fn copy_prefix(piece: &mut [u8; 1024], bytes: &[u8]) -> usize
    ensures copied { take result piece.new ≡ take 1024 bytes.now }
    ensures most { result ≤ 1024 }
{
    let count = 1024.min(bytes.len());
    piece[..count].copy_from_slice(&bytes[..count]);
    count
}

impl MemoryLink {
    ghost use Rattle.outside_traits.specs.Links.{event_of};
    ghost use Rattle.memory_outside.specs.Book.{NotesEvent};
    ghost use Rattle.memory_outside.specs.MemoryLink.{link_state, link_calls, link_book, hearings_of, moments_of, next_event, next_moment};

    /// A link with these hearings and moments, and with room for this many events and bytes of their datagrams. Its calls of
    /// `hear` and `send` of these numbers fail, counted from 1.
    pub fn new(
        alloc: Global,
        hearings: Vec<Planned>,
        moments: Vec<Local>,
        fails: Vec<u64>,
        events: usize,
        bytes: usize,
    ) -> Result<MemoryLink, FakeOpen>
        ensures calls { IfOk result (λ link. AreStated (link_calls link) fails.items) }
        ensures state { IfOk result (λ link. link_state link ≡ record { events = Some []; latest = 0; faults = 0 }) }
        ensures room { IfOk result
            (λ link. link_book link ≡ record { events = Some []; room = record { events = events; bytes = bytes } }) }
        ensures planned { IfOk result
            (λ link. (hearings_of link ≡ hearings.items) × (moments_of link ≡ moments.items)) }
    {
        Ok(MemoryLink {
            hearings,
            heard: 0,
            moments,
            reported: 0,
            calls: Calls::new(fails),
            latest: Local::new(0).unwrap(),
            faults: 0,
            book: Book::new(alloc, EventRoom { events, bytes })?,
            opening: 0,
            place: 0,
        })
    }

    /// How many events it reports: none, once its room was used up.
    pub fn count(&self) -> usize
        ensures { result ≡ length (unwrap_or (link_state self.now).events []) }
    {
        self.book.count()
    }

    /// The event at this place, counted from 0, where it is below the count.
    pub fn event(&self, place: usize) -> Option<LinkEvent<'_>>
        ensures { option_map event_seen result ≡ slice_get (unwrap_or (link_state self.now).events []) place }
    {
        self.book.get(place)
    }

    // The next stated moment, or the last one that it gave.
    fn next_moment(&mut self) -> Local
        ensures moment { result ≡ next_moment self.old.latest (moments_of self.old) }
        ensures moments { moments_of self.new ≡ drop 1 (moments_of self.old) }
        ensures same { self.new ≡ record self.old { reported = self.new.reported } }
    {
        if self.reported >= self.moments.len() {
            return self.latest;
        }
        let moment = self.moments[self.reported];
        self.reported += 1;
        later(self.latest, moment)
    }

    // Gives the next planned hearing, or the end.
    fn receive_next(&mut self, piece: &mut [u8; 1024]) -> Hearing
        ensures heard { ReceivesNext (link_state self.old) (link_state self.new) result piece.new }
        ensures planned { event_of result piece.new ≡ next_event self.old.latest (hearings_of self.old) }
        ensures hearings { hearings_of self.new ≡ drop 1 (hearings_of self.old) }
        ensures noted { NotesEvent (link_book self.old) (link_book self.new) (event_of result piece.new) }
        ensures same { self.new ≡ record self.old {
          heard = self.new.heard;
          latest = self.new.latest;
          book = self.new.book;
        } }
    {
        if self.heard >= self.hearings.len() {
            self.book.note(&LinkEvent::End);
            return Hearing::End;
        }
        match &self.hearings[self.heard] {
            Planned::Quiet => {
                self.heard += 1;
                self.book.note(&LinkEvent::Quiet);
                Hearing::Quiet
            }
            Planned::Datagram { from, at, bytes } => {
                let from = *from;
                let at = later(self.latest, *at);
                let length = copy_prefix(piece, bytes);
                self.heard += 1;
                self.latest = at;
                self.book.note(&LinkEvent::Datagram {
                    from,
                    at,
                    bytes: &piece[..length],
                });
                Hearing::Datagram(Arrival { from, length, at })
            }
        }
    }
}

impl Link for MemoryLink {
    ghost use Rattle.std.specs.Prelude.{◌≡◌, ℕ, IfOk, MatchResult};
    ghost use Rattle.outside_traits.specs.Links.{event_of};
    ghost use Rattle.memory_outside.specs.Book.{NotesEvent};
    ghost use Rattle.outside_traits.specs.States.NetEvent.{Timed, Went};
    ghost use Rattle.memory_outside.specs.MemoryLink.{link_state, link_calls, link_book, hearings_of, moments_of, next_event, next_moment};

    ghost state = { λ s. record { events = s.book.events; latest = s.latest; faults = s.faults } };

    ghost opening = { λ s. s.opening };

    fn hear(&mut self, piece: &mut [u8; 1024]) -> Result<Hearing, Failed>
        ensures heard { MatchResult result
            (λ hearing. ReceivesNext (link_state self.old) (link_state self.new) hearing piece.new)
            (λ _. IsDeaf (link_state self.old) (link_state self.new)) }
        ensures cause { HasCause self.old.faults self.new.faults result }
        ensures number { self.new.opening ≡ self.old.opening }

        // It fails exactly where that was stated, and else gives the next planned hearing.
        ensures called { IsCalled (link_calls self.old) (link_calls self.new) }
        ensures fails { is_ok result ≡ not (fails_next (link_calls self.old)) }
        ensures planned { MatchResult result
            (λ hearing. (event_of hearing piece.new ≡ next_event self.old.latest (hearings_of self.old)) ×
            (hearings_of self.new ≡ drop 1 (hearings_of self.old)))
            (λ _. hearings_of self.new ≡ hearings_of self.old) }
        ensures moments { moments_of self.new ≡ moments_of self.old }
        ensures reported { IfOk result
            (λ hearing. NotesEvent (link_book self.old) (link_book self.new) (event_of hearing piece.new)) }
    {
        if self.calls.next_fails() {
            self.faults = self.faults.saturating_add(1);
            return Err(Failed);
        }
        Ok(self.receive_next(piece))
    }

    fn moment(&mut self) -> Local
        ensures reported { ReportsMoment (link_state self.old) (link_state self.new) result }
        ensures number { self.new.opening ≡ self.old.opening }

        // It gives the next stated moment.
        ensures called { link_calls self.new ≡ link_calls self.old }
        ensures stated { result ≡ next_moment self.old.latest (moments_of self.old) }
        ensures moments { moments_of self.new ≡ drop 1 (moments_of self.old) }
        ensures hearings { hearings_of self.new ≡ hearings_of self.old }
        ensures noted { NotesEvent (link_book self.old) (link_book self.new) (Timed result) }
    {
        let moment = self.next_moment();
        self.latest = moment;
        self.book.note(&LinkEvent::Moment(moment));
        moment
    }

    fn send(&mut self, to: Address, bytes: &[u8]) -> Result<(), Failed>
        ensures sent { Sends (link_state self.old) (link_state self.new) result to bytes.now }
        ensures cause { HasCause self.old.faults self.new.faults result }
        ensures number { self.new.opening ≡ self.old.opening }

        // It fails exactly where that was stated.
        ensures called { IsCalled (link_calls self.old) (link_calls self.new) }
        ensures fails { is_ok result ≡ not (fails_next (link_calls self.old)) }
        ensures hearings { hearings_of self.new ≡ hearings_of self.old }
        ensures moments { moments_of self.new ≡ moments_of self.old }
        ensures noted { IfOk result (λ _. NotesEvent (link_book self.old) (link_book self.new) (Went to bytes.now)) }
    {
        if self.calls.next_fails() {
            self.faults = self.faults.saturating_add(1);
            return Err(Failed);
        }
        self.book.note(&LinkEvent::Sent { to, bytes });
        Ok(())
    }
}
