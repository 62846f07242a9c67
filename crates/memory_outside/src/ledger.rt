// The openings that an outside in memory has noted, until its room is used up.
ghost use Rattle.std.specs.Prelude.{◌≡◌, ◌⊎◌, ◌+◌, ◌≤◌, ◌<◌, Some, None, [], ◌∷◌, ◌++◌, length, vec_len, vec_capacity, slice_get, slice_set, IfOk, IfSome};
ghost use Rattle.std.specs.Bool.{OnTrue, OnFalse};
ghost use Rattle.memory_outside.specs.declared.ledger.Row.{Row};
ghost use Rattle.std.specs.Option.{option_map};
ghost use Rattle.outside_traits.specs.Openings.{IsNext, IsOut};
ghost use Rattle.memory_outside.specs.Ledger.{Notes, PutsBack, state_of, wanted_by};

use crate::{MemoryLink, MemorySource};
use std::alloc::{AllocError, Global};
use std::marker::Model;
use std::snapshot::Snapshot;

// What a log or a link reports at one moment. It has no bytes, since only contracts read it.
#[derive(Drop)]
pub enum Seen {
    Log(Snapshot<MemorySource>),
    Link(Snapshot<MemoryLink>),
}

// A link's port and the moment at which it starts.
#[derive(Clone, Copy)]
pub struct Port {
    pub port: u16,
    pub start: u64,
}

// One opening: a link's port, or the place of a log's name. Also what the object reported when it was opened, and when it was
// given back.
#[derive(Drop)]
pub struct Row {
    pub port: Option<Port>,
    pub name_at: usize,
    pub name_len: usize,
    pub opened: Option<Seen>,
    pub back: Option<Seen>,
}

// How many openings are reported, and how many bytes of their names.
#[derive(Clone, Copy)]
pub struct Room {
    pub openings: usize,
    pub names: usize,
}

// Contracts see it as its list of openings, or None once its room was used up, and that room.
#[derive(Drop)]
pub struct Ledger {
    names: Vec<u8>,
    rows: Vec<Row>,
    room: Room,
    reports: bool,
}

impl Model for Ledger {
    ghost use Rattle.std.specs.Prelude.{◌≤◌, vec_capacity};
    ghost use Rattle.memory_outside.specs.Ledger.{Book, openings_reported, AreRows};

    ghost Value = { Book };

    ghost view = { λ s. record {
      openings = openings_reported s.reports s.names.items s.rows.items;
      room = record { openings = s.room.openings; names = s.room.names };
    } };

    ghost invariant = { λ s. AreRows s.names.items s.rows.items × (s.room.names ≤ vec_capacity s.names) ×
        (s.room.openings ≤ vec_capacity s.rows) };
}

impl Ledger {
    ghost use Rattle.outside_traits.specs.Openings.Wanted.{LogOf, LinkAt};

    /// An empty list with this room, which is taken here.
    pub fn new(alloc: Global, room: Room) -> Result<Ledger, AllocError>
        ensures { IfOk result
            (λ ledger. ledger ≡ record {
              openings = Some [];
              room = record { openings = room.openings; names = room.names };
            }) }
    {
        Ok(Ledger {
            names: Vec::with_capacity(alloc, room.names)?,
            rows: Vec::with_capacity(alloc, room.openings)?,
            room,
            reports: true,
        })
    }

    /// The number of the next opening.
    pub fn next(&self) -> u64
        ensures { IsNext self.now.openings result }
    {
        self.rows.len() as u64
    }

    /// Notes the opening of a log.
    pub fn note_log(&mut self, name: &str, opened: Option<Seen>)
        ensures { Notes self.old self.new (record {
          what = LogOf name.now;
          opened = option_map state_of opened;
          back = None;
        }) }
    {
        self.note(name, None, opened);
    }

    /// Notes the opening of a link.
    pub fn note_link(&mut self, port: u16, start: u64, opened: Option<Seen>)
        ensures { Notes self.old self.new (record {
          what = LinkAt port start;
          opened = option_map state_of opened;
          back = None;
        }) }
    {
        self.note("", Some(Port { port, start }), opened);
    }

    // Notes an opening.
    fn note(&mut self, name: &str, port: Option<Port>, opened: Option<Seen>)
        requires { IfSome port (λ _. length name.now ≡ 0) }
        ensures { Notes self.old self.new (record {
          what = wanted_by name.now port;
          opened = option_map state_of opened;
          back = None;
        }) }
    {
        let room = self.room;
        if !note_row(&mut self.names, &mut self.rows, room, name, port, opened) {
            self.reports = false;
        }
    }

    /// Notes that the object of this opening was given back.
    pub fn put_back(&mut self, number: u64, seen: Seen)
        requires { IsOut self.old.openings number }
        ensures { PutsBack self.old self.new number (state_of seen) }
    {
        let place = number as usize;
        if place < self.rows.len() {
            set_back(&mut self.rows, place, seen);
        }
    }
}

// Whether there is room for a row and its name.
fn has_room(names: &[u8], rows: &[Row], room: Room, name: &str) -> bool
    ensures names { OnTrue result (length names.now + length name.now ≤ room.names) }
    ensures rows { OnTrue result (length rows.now < room.openings) }
    ensures full { OnFalse result ((room.names < length names.now + length name.now) ⊎
        (room.openings ≤ length rows.now)) }
{
    names.len() <= room.names
        && name.len() <= room.names - names.len()
        && rows.len() < room.openings
}

// Adds a name and its row where there is room. Earlier names and rows stay where they are.
fn note_row(
    names: &mut Vec<u8>,
    rows: &mut Vec<Row>,
    room: Room,
    name: &str,
    port: Option<Port>,
    opened: Option<Seen>,
) -> bool
    requires names { room.names ≤ vec_capacity names.old }
    requires rows { room.openings ≤ vec_capacity rows.old }
    ensures names { OnTrue result (names.new.items ≡ names.old.items ++ name.now) }
    ensures rows { OnTrue result (rows.new.items ≡ rows.old.items ++ record {
      port = port;
      name_at = length names.old.items;
      name_len = length name.now;
      opened = opened;
      back = None;
    } ∷ []) }
    ensures names_kept { OnFalse result (names.new.items ≡ names.old.items) }
    ensures rows_kept { OnFalse result (rows.new.items ≡ rows.old.items) }
    ensures full { OnFalse result ((room.names < length names.old.items + length name.now) ⊎
        (room.openings ≤ length rows.old.items)) }
    ensures names_capacity { room.names ≤ vec_capacity names.new }
    ensures rows_capacity { room.openings ≤ vec_capacity rows.new }
{
    if !has_room(names, rows, room, name) {
        return false;
    }
    let row = Row {
        port,
        name_at: names.len(),
        name_len: name.len(),
        opened,
        back: None,
    };
    let _ = names.extend_from_slice(name.as_bytes());
    let _ = rows.push(row);
    true
}

// Notes in its row what an object reports as it is given back.
fn set_back(rows: &mut Vec<Row>, place: usize, seen: Seen)
    requires { place < vec_len rows.old }
    ensures row { (row : Row) × (slice_get rows.old.items place ≡ Some row) ×
        (rows.new.items ≡ slice_set rows.old.items place (record row { back = Some seen })) }
    ensures capacity { vec_capacity rows.old ≤ vec_capacity rows.new }
{
    let row = &mut rows[place];
    row.back = Some(seen);
}
