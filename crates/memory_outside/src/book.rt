// The events that a link in memory has noted, until its room is used up.
ghost use Rattle.std.specs.Prelude.{◌≡◌, ◌⊎◌, ◌+◌, ◌≤◌, ◌<◌, Some, [], ◌∷◌, ◌++◌, length, vec_capacity, slice_get, IfOk, unwrap_or};
ghost use Rattle.std.specs.Option.{option_map};
ghost use Rattle.std.specs.Bool.{OnTrue, OnFalse};
ghost use Rattle.memory_outside.specs.Book.{NotesEvent, IsNotedAs, bytes_of};
ghost use Rattle.memory_outside.specs.Seen.{event_seen};

use crate::LinkEvent;
use outside_traits::Address;
use std::alloc::{AllocError, Global};
use std::marker::Model;
use tick_units::Local;

// A kind of event.
#[derive(Drop)]
pub enum Kind {
    Heard { from: Address, at: Local },
    Nothing,
    Over,
    Clock { at: Local },
    Posted { to: Address },
}

// One event; the bytes of its datagram stand among those of all.
#[derive(Drop)]
pub struct Row {
    pub kind: Kind,
    pub start: usize,
    pub length: usize,
}

// How many events are reported, and how many bytes of their datagrams.
#[derive(Clone, Copy)]
pub struct EventRoom {
    pub events: usize,
    pub bytes: usize,
}

// Contracts see it as its list of events, or None once its room was used up, and that room.
#[derive(Drop)]
pub struct Book {
    bytes: Vec<u8>,
    rows: Vec<Row>,
    room: EventRoom,
    reports: bool,
}

impl Model for Book {
    ghost use Rattle.std.specs.Prelude.{◌≤◌, vec_capacity};
    ghost use Rattle.memory_outside.specs.Book.{Noted, events_reported, AreRows};

    ghost Value = { Noted };

    ghost view = { λ s. record {
      events = events_reported s.reports s.bytes.items s.rows.items;
      room = record { events = s.room.events; bytes = s.room.bytes };
    } };

    ghost invariant = { λ s. AreRows s.bytes.items s.rows.items × (s.room.bytes ≤ vec_capacity s.bytes) ×
        (s.room.events ≤ vec_capacity s.rows) };
}

impl Book {
    /// No events, with this room, which is taken here.
    pub fn new(alloc: Global, room: EventRoom) -> Result<Book, AllocError>
        ensures { IfOk result
            (λ book. book ≡ record { events = Some []; room = record { events = room.events; bytes = room.bytes } }) }
    {
        Ok(Book {
            bytes: Vec::with_capacity(alloc, room.bytes)?,
            rows: Vec::with_capacity(alloc, room.events)?,
            room,
            reports: true,
        })
    }

    /// Notes an event.
    pub fn note(&mut self, event: &LinkEvent<'_>)
        ensures { NotesEvent self.old self.new (event_seen event.now) }
    {
        let room = self.room;
        if !note_row(&mut self.bytes, &mut self.rows, room, event) {
            self.reports = false;
        }
    }

    /// How many events are reported.
    pub fn count(&self) -> usize
        ensures { result ≡ length (unwrap_or self.now.events []) }
    {
        if self.reports { self.rows.len() } else { 0 }
    }

    /// The event at this place.
    pub fn get(&self, place: usize) -> Option<LinkEvent<'_>>
        ensures { option_map event_seen result ≡ slice_get (unwrap_or self.now.events []) place }
    {
        if !self.reports || place >= self.rows.len() {
            return None;
        }
        Some(row_at(&self.rows, place).event(&self.bytes))
    }
}

impl Row {
    ghost use Rattle.memory_outside.specs.Book.{event_in};

    // The event of a row whose bytes stand among these.
    fn event<'a>(&self, bytes: &'a [u8]) -> LinkEvent<'a>
        requires { self.now.start + self.now.length ≤ length bytes.now }
        ensures { event_seen result ≡ event_in bytes.now self.now }
    {
        let bytes = &bytes[self.start..self.start + self.length];
        match &self.kind {
            Kind::Heard { from, at } => LinkEvent::Datagram {
                from: *from,
                at: *at,
                bytes,
            },
            Kind::Nothing => LinkEvent::Quiet,
            Kind::Over => LinkEvent::End,
            Kind::Clock { at } => LinkEvent::Moment(*at),
            Kind::Posted { to } => LinkEvent::Sent { to: *to, bytes },
        }
    }
}

fn row_at(rows: &[Row], place: usize) -> &Row
    requires { place < length rows.now }
    ensures { slice_get rows.now place ≡ Some result.now }
{
    &rows[place]
}

// Whether there is room for the bytes and a row.
fn has_room(bytes: &[u8], rows: &[Row], room: EventRoom, more: &[u8]) -> bool
    ensures bytes { OnTrue result (length bytes.now + length more.now ≤ room.bytes) }
    ensures rows { OnTrue result (length rows.now < room.events) }
    ensures full { OnFalse result ((room.bytes < length bytes.now + length more.now) ⊎
        (room.events ≤ length rows.now)) }
{
    bytes.len() <= room.bytes && more.len() <= room.bytes - bytes.len() && rows.len() < room.events
}

// Adds the bytes of an event and its row where there is room. Earlier bytes and rows stay where they are.
fn note_row(
    bytes: &mut Vec<u8>,
    rows: &mut Vec<Row>,
    room: EventRoom,
    event: &LinkEvent<'_>,
) -> bool
    requires bytes { room.bytes ≤ vec_capacity bytes.old }
    requires rows { room.events ≤ vec_capacity rows.old }
    ensures bytes { OnTrue result (bytes.new.items ≡ bytes.old.items ++ bytes_of (event_seen event.now)) }
    ensures rows { OnTrue result
        (IsNotedAs (event_seen event.now) (length bytes.old.items) rows.old.items rows.new.items) }
    ensures bytes_kept { OnFalse result (bytes.new.items ≡ bytes.old.items) }
    ensures rows_kept { OnFalse result (rows.new.items ≡ rows.old.items) }
    ensures full { OnFalse result ((room.bytes < length bytes.old.items + length (bytes_of (event_seen event.now))) ⊎
        (room.events ≤ length rows.old.items)) }
    ensures bytes_capacity { room.bytes ≤ vec_capacity bytes.new }
    ensures rows_capacity { room.events ≤ vec_capacity rows.new }
{
    let more = event.bytes();
    if !has_room(bytes, rows, room, more) {
        return false;
    }
    let row = Row {
        kind: event.kind(),
        start: bytes.len(),
        length: more.len(),
    };
    let _ = bytes.extend_from_slice(more);
    let _ = rows.push(row);
    true
}
