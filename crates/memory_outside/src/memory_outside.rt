// Logs and links in memory, and the outside that opens them.
ghost use Rattle.std.specs.Prelude.{◌≡◌, None, Some, [], ◌<◌, length, map, IfOk, IfSome, slice_get, slice_set, vec_len};
ghost use Rattle.std.specs.Option.{MatchOption};
ghost use Rattle.std.specs.List.{position};
ghost use Rattle.memory_links.specs.Calls.{AreStated, IsCalled, fails_next};

use crate::ledger::{Ledger, Room, Seen};
use crate::{MemoryLink, MemorySource};
use memory_links::Calls;
use outside_traits::{Failed, Gate, Outside};
use std::alloc::{AllocError, AllocFailed, Global};
use std::snapshot::Snapshot;
use tick_units::Local;

/// There is no memory to make a fake.
#[derive(Clone, Copy, Debug, PartialEq, Eq)]
pub enum FakeOpen {
    Memory,
}

impl From<AllocError> for FakeOpen {
    fn from(_: AllocError) -> Self {
        FakeOpen::Memory
    }
}

impl<T: Drop> From<AllocFailed<T>> for FakeOpen {
    fn from(_: AllocFailed<T>) -> Self {
        FakeOpen::Memory
    }
}

/// A log, and the name by which it is opened.
#[derive(Drop)]
pub struct NamedLog {
    name: String,
    log: MemorySource,
}

impl NamedLog {
    /// A log under a name.
    pub fn new(name: String, log: MemorySource) -> NamedLog
        ensures { result ≡ record { name = name; log = log } }
    {
        NamedLog { name, log }
    }
}

/// Logs in memory under their names, links in their order, and a gate. Each log and each link is handed out once. Stated openings
/// fail. It reports its openings until its room for them or for their names is used up.
#[derive(Drop)]
pub struct MemoryOutside<G: Drop> {
    logs: Vec<NamedLog>,
    links: Vec<Option<MemoryLink>>,
    next: usize,
    gate: Option<G>,
    calls: Calls,
    faults: u64,
    ledger: Ledger,
}

// Links that stand in their places.
fn placed(alloc: Global, links: Vec<MemoryLink>) -> Result<Vec<Option<MemoryLink>>, FakeOpen>
    ensures { IfOk result (λ places. places.items ≡ map (λ link. Some link) links.items) }
{
    let mut places = Vec::with_capacity(alloc, links.len())?;
    'links: for link in links {
        places.push(Some(link))?;
    }
    Ok(places)
}

// Takes the link out of a place.
fn take_at(places: &mut Vec<Option<MemoryLink>>, place: usize) -> Option<MemoryLink>
    requires { place < vec_len places.old }
    ensures there { slice_get places.old.items place ≡ Some result }
    ensures taken { places.new.items ≡ slice_set places.old.items place None }
{
    places[place].take()
}

impl<G: Drop> MemoryOutside<G> {
    ghost use Rattle.memory_outside.specs.MemoryOutside.{TakesFirst, TakesNone, TakesLink, TakesNoLink, outside_state, outside_calls, logs_of, links_of, gate_of, next_link, has_name, stands_at};

    /// An outside with these logs, links and this gate, and with room for this many openings and bytes of their names. Its
    /// openings of these numbers fail, counted from 1.
    pub fn new(
        alloc: Global,
        logs: Vec<NamedLog>,
        links: Vec<MemoryLink>,
        gate: G,
        fails: Vec<u64>,
        openings: usize,
        names: usize,
    ) -> Result<MemoryOutside<G>, FakeOpen>
        ensures logs { IfOk result (λ outside. logs_of outside ≡ logs.items) }
        ensures links { IfOk result
            (λ outside. (links_of outside ≡ map (λ link. Some link) links.items) × (next_link outside ≡ 0)) }
        ensures gate { IfOk result (λ outside. gate_of outside ≡ Some gate) }
        ensures calls { IfOk result (λ outside. AreStated (outside_calls outside) fails.items) }
        ensures state { IfOk result
            (λ outside. outside_state outside ≡ record {
              openings = Some [];
              room = record { openings = openings; names = names };
              faults = 0;
            }) }
    {
        let links = placed(alloc, links)?;
        let ledger = Ledger::new(alloc, Room { openings, names })?;
        Ok(MemoryOutside {
            logs,
            links,
            next: 0,
            gate: Some(gate),
            calls: Calls::new(fails),
            faults: 0,
            ledger,
        })
    }

    /// The link of this place, counted from 0, where there is one and it is not out.
    pub fn link(&self, place: usize) -> Option<&MemoryLink>
        ensures { MatchOption result (stands_at (links_of self.now) place ≡ None)
            (λ link. stands_at (links_of self.now) place ≡ Some link.now) }
    {
        match self.links.get(place) {
            Some(link) => link.as_ref(),
            None => None,
        }
    }

    /// The gate, where it is not out.
    pub fn turns(&self) -> Option<&G>
        ensures { MatchOption result (gate_of self.now ≡ None) (λ gate. gate_of self.now ≡ Some gate.now) }
    {
        self.gate.as_ref()
    }

    // The place of the first log of this name.
    fn place_of(&self, name: &str) -> Option<usize>
        ensures place { result ≡ position (has_name name.now) (logs_of self.now) }
        ensures within { IfSome result (λ place. place < length (logs_of self.now)) }
    {
        self.logs
            .iter()
            .position(|named| named.name.as_str() == name)
    }

    // Takes the first log of this name out.
    fn take_log(&mut self, name: &str) -> Option<NamedLog>
        ensures same { self.new ≡ record self.old { logs = self.new.logs } }
        ensures taken { MatchOption result (TakesNone name.now (logs_of self.old) (logs_of self.new))
            (λ named. TakesFirst name.now (logs_of self.old) (logs_of self.new) named) }
    {
        match self.place_of(name) {
            Some(place) => Some(self.logs.remove(place)),
            None => None,
        }
    }

    // Takes the next link out of its place.
    fn take_link(&mut self) -> Option<MemoryLink>
        ensures same { self.new ≡ record self.old { links = self.new.links; next = self.new.next } }
        ensures taken { MatchOption result
            (TakesNoLink (links_of self.old) (next_link self.old) (links_of self.new) (next_link self.new))
            (λ link. TakesLink (links_of self.old) (next_link self.old) (links_of self.new) (next_link self.new) link) }
    {
        if self.next >= self.links.len() {
            return None;
        }
        match take_at(&mut self.links, self.next) {
            Some(link) => {
                self.next += 1;
                Some(link)
            }
            None => None,
        }
    }
}

// The next call.
impl<G: Drop> MemoryOutside<G> {
    ghost use Rattle.std.specs.Prelude.{◌⊎◌, true, false};
    ghost use Rattle.memory_outside.specs.MemoryOutside.{TakesFirst, TakesNone, TakesLink, TakesNoLink, outside_calls, logs_of, links_of, next_link};

    // Takes the first log of this name out, unless the call fails.
    fn find_log(&mut self, name: &str) -> Option<NamedLog>
        ensures same { self.new ≡ record self.old { logs = self.new.logs; calls = self.new.calls } }
        ensures called { IsCalled (outside_calls self.old) (outside_calls self.new) }
        ensures found { MatchOption result
            ((logs_of self.new ≡ logs_of self.old) ×
            ((fails_next (outside_calls self.old) ≡ true) ⊎
            TakesNone name.now (logs_of self.old) (logs_of self.new)))
            (λ named. (fails_next (outside_calls self.old) ≡ false) ×
            TakesFirst name.now (logs_of self.old) (logs_of self.new) named) }
    {
        if self.calls.next_fails() {
            return None;
        }
        self.take_log(name)
    }

    // Takes the next link out of its place, unless the call fails.
    fn find_link(&mut self) -> Option<MemoryLink>
        ensures same { self.new ≡ record self.old {
          links = self.new.links;
          next = self.new.next;
          calls = self.new.calls;
        } }
        ensures called { IsCalled (outside_calls self.old) (outside_calls self.new) }
        ensures found { MatchOption result
            ((fails_next (outside_calls self.old) ≡ true) × (links_of self.new ≡ links_of self.old) ×
            (next_link self.new ≡ next_link self.old)
            ⊎ TakesNoLink (links_of self.old) (next_link self.old) (links_of self.new) (next_link self.new))
            (λ link. (fails_next (outside_calls self.old) ≡ false) ×
            TakesLink (links_of self.old) (next_link self.old) (links_of self.new) (next_link self.new) link) }
    {
        if self.calls.next_fails() {
            return None;
        }
        self.take_link()
    }
}

impl<G: Gate + Drop> Outside for MemoryOutside<G> {
    ghost use Rattle.std.specs.Prelude.{◌≡◌, ◌⊎◌, ◌∷◌, true, false, MatchResult, IfOk};
    ghost use Rattle.std.specs.Option.{is_none};
    ghost use Rattle.outside_traits.specs.Faults.{HasCause};
    ghost use Rattle.outside_traits.specs.Openings.{GrowsBy, IsNext, IsOut, GivesBack, answered, failed};
    ghost use Rattle.outside_traits.specs.Openings.Wanted.{LogOf, LinkAt};
    ghost use Rattle.outside_traits.specs.Openings.State.{OfLog, OfLink};
    ghost use Rattle.memory_outside.specs.MemorySource.{source_state};
    ghost use Rattle.memory_outside.specs.MemoryLink.{link_state};
    ghost use Rattle.memory_outside.specs.MemoryOutside.{HandsOut, HandsOutLink, TakesNone, TakesNoLink, outside_state, outside_calls, logs_of, links_of, next_link, gate_of, is_gate_out, put_at};

    type Log = MemorySource;

    type Net = MemoryLink;

    type Turns = G;

    ghost state = { λ s. record { openings = s.ledger.openings; room = s.ledger.room; faults = s.faults } };

    ghost gate_out = { λ s. is_none s.gate };

    fn open_log(&mut self, name: &str) -> Result<MemorySource, Failed>
        ensures opened { MatchResult result
            (λ log. GrowsBy (outside_state self.old) (outside_state self.new)
            (answered (LogOf name.now) (OfLog (source_state log)) ∷ []))
            (λ _. GrowsBy (outside_state self.old) (outside_state self.new) (failed (LogOf name.now) ∷ [])) }
        ensures number { IfOk result (λ log. IsNext (outside_state self.old).openings log.opening) }
        ensures cause { HasCause self.old.faults self.new.faults result }
        ensures gate { is_gate_out self.new ≡ is_gate_out self.old }

        // It hands out the first log of this name. It fails exactly where that was stated or where none is left.
        ensures called { IsCalled (outside_calls self.old) (outside_calls self.new) }
        ensures handed { MatchResult result
            (λ log. (fails_next (outside_calls self.old) ≡ false) ×
            HandsOut name.now (logs_of self.old) (logs_of self.new) log)
            (λ _. (logs_of self.new ≡ logs_of self.old) ×
            ((fails_next (outside_calls self.old) ≡ true) ⊎
            TakesNone name.now (logs_of self.old) (logs_of self.new))) }
        ensures links { (links_of self.new ≡ links_of self.old) × (next_link self.new ≡ next_link self.old) }
        ensures same_gate { gate_of self.new ≡ gate_of self.old }
    {
        match self.find_log(name) {
            Some(NamedLog { mut log, .. }) => {
                log.opening = self.ledger.next();
                self.ledger
                    .note_log(name, Some(Seen::Log(Snapshot::of(&log))));
                Ok(log)
            }
            None => {
                self.ledger.note_log(name, None);
                self.faults = self.faults.saturating_add(1);
                Err(Failed)
            }
        }
    }

    fn open_link(&mut self, port: u16, start: Local) -> Result<MemoryLink, Failed>
        ensures opened { MatchResult result
            (λ net. GrowsBy (outside_state self.old) (outside_state self.new)
            (answered (LinkAt port start) (OfLink (link_state net)) ∷ []))
            (λ _. GrowsBy (outside_state self.old) (outside_state self.new) (failed (LinkAt port start) ∷ [])) }
        ensures number { IfOk result (λ net. IsNext (outside_state self.old).openings net.opening) }
        ensures cause { HasCause self.old.faults self.new.faults result }
        ensures gate { is_gate_out self.new ≡ is_gate_out self.old }

        // It hands out the next link, and fails exactly where that was stated or where none is left.
        ensures called { IsCalled (outside_calls self.old) (outside_calls self.new) }
        ensures handed { MatchResult result
            (λ net. (fails_next (outside_calls self.old) ≡ false) ×
            HandsOutLink (links_of self.old) (next_link self.old) (links_of self.new) (next_link self.new) net)
            (λ _. (fails_next (outside_calls self.old) ≡ true) × (links_of self.new ≡ links_of self.old) ×
            (next_link self.new ≡ next_link self.old)
            ⊎ TakesNoLink (links_of self.old) (next_link self.old) (links_of self.new) (next_link self.new)) }
        ensures logs { logs_of self.new ≡ logs_of self.old }
        ensures same_gate { gate_of self.new ≡ gate_of self.old }
    {
        let place = self.next;
        match self.find_link() {
            Some(link) => {
                let mut link = link;
                link.opening = self.ledger.next();
                link.place = place;
                self.ledger
                    .note_link(port, start.get(), Some(Seen::Link(Snapshot::of(&link))));
                Ok(link)
            }
            None => {
                self.ledger.note_link(port, start.get(), None);
                self.faults = self.faults.saturating_add(1);
                Err(Failed)
            }
        }
    }

    fn gate(&mut self) -> G
        requires { is_gate_out self.old ≡ false }
        ensures same { outside_state self.new ≡ outside_state self.old }
        ensures gate { is_gate_out self.new ≡ true }

        // It hands out the gate that it was made with.
        ensures is { gate_of self.old ≡ Some result }
        ensures others { self.new ≡ record self.old { gate = None } }
    {
        self.gate.take().unwrap()
    }

    fn give_back_gate(&mut self, gate: G)
        requires { is_gate_out self.old ≡ true }
        ensures same { outside_state self.new ≡ outside_state self.old }
        ensures gate { is_gate_out self.new ≡ false }

        // It stands in its place again.
        ensures others { self.new ≡ record self.old { gate = Some gate } }
    {
        self.gate = Some(gate);
    }

    fn give_back_log(&mut self, log: MemorySource) {
        self.ledger
            .put_back(log.opening, Seen::Log(Snapshot::of(&log)));
    }

    fn give_back_link(&mut self, net: MemoryLink)
        requires { IsOut (outside_state self.old).openings net.opening }
        ensures back { GivesBack (outside_state self.old) (outside_state self.new) net.opening
            (OfLink (link_state net)) }
        ensures gate { is_gate_out self.new ≡ is_gate_out self.old }

        // It stands in its place again, and all else stays.
        ensures place { links_of self.new ≡ put_at net.place net (links_of self.old) }
        ensures same { (logs_of self.new ≡ logs_of self.old) × (next_link self.new ≡ next_link self.old) ×
            (gate_of self.new ≡ gate_of self.old) }
    {
        self.ledger
            .put_back(net.opening, Seen::Link(Snapshot::of(&net)));
        let place = net.place;
        if place < self.links.len() {
            self.links[place] = Some(net);
        }
    }
}
