//! What the tests of responders share: a client, its requests, links on which they come, and one call of a responder. The page is
//! that of no entry, so each reply says that the server is not synchronised (RFC 5905, section 7.3: leap indicator 3).
ghost use Rattle.std.specs.Prelude.{◌≡◌};

use crate::shared::{alone, without_sources};
use kiss_gate::{ClientGate, DenyList, GateOpen};
use memory_outside::{MemoryLink, Planned, REQUEST};
use outside_traits::{Address, Link, OpenGate};
use packet_auth::KeyRing;
use page_cell::{PageCell, ReadPass};
use responder::{End, Responder, Served};
use std::alloc::Global;
use std::process::Abort;
use std::sync::Wait;

pub const CLIENT: Address = Address {
    ip: 0x7f00_0001,
    port: 5000,
};

pub const NONE: Served = Served {
    answered: 0,
    dropped: 0,
    again: 0,
    kissed: 0,
    unkept: 0,
    end: End::Count,
};

// A cell with one reader, and its pass.
fn opened(rt: &impl Abort, alloc: Global) -> (PageCell, ReadPass)
    ensures { result.1.table ≡ result.0.table }
{
    let settings = without_sources();
    let Ok(parts) = PageCell::open(alloc, &settings, 1) else {
        panic!(*rt; "no memory");
    };
    let mut readers = parts.readers;
    match readers.pop() {
        Some(pass) => (parts.cell, pass),
        None => panic!(*rt; "no reader"),
    }
}

/// A gate of clients that denies these nets, with a gap in microseconds.
pub fn gate_of(rt: &impl Abort, alloc: Global, deny: &DenyList, gap: u16) -> ClientGate {
    match ClientGate::open(alloc, deny, u64::from(gap), 4) {
        Ok(gate) => gate,
        Err(GateOpen::Memory) => panic!(*rt; "no memory"),
    }
}

/// A gate of clients that lets all pass.
pub fn open_to_all(rt: &impl Abort, alloc: Global) -> ClientGate {
    gate_of(rt, alloc, &DenyList::new(), 0)
}

/// A datagram of this many bytes that begins as the request does, but with another first byte. The others are 0.
pub fn bytes_of(alloc: Global, first: u8, length: usize) -> Vec<u8> {
    let mut bytes = Vec::new(alloc);
    for place in 0..length {
        let of_request = REQUEST.get(place).copied().unwrap_or(0);
        let _ = bytes.push(if place == 0 { first } else { of_request });
    }
    bytes
}

/// A link with these hearings and with room for this many events, one call of which fails.
pub fn link_of(
    rt: &impl Abort,
    alloc: Global,
    hearings: Vec<Planned>,
    failing: u64,
    events: usize,
) -> MemoryLink {
    let fails = alone(alloc, failing);
    let link = MemoryLink::new(alloc, hearings, Vec::new(alloc), fails, events, 4000);
    link.expect(rt, "no memory")
}

/// What a responder with these keys and this gate does on a link for this many hearings, and its link and gate after it.
pub fn serve<R: Abort + Wait, L: Link + Drop>(
    rt: &R,
    alloc: Global,
    link: L,
    keys: KeyRing,
    gate: ClientGate,
    hearings: u64,
) -> (Served, L, ClientGate) {
    let (cell, pass) = opened(rt, alloc);
    let mut responder = Responder::new(link, pass, 7, keys, gate);
    let served = responder.serve(rt, &cell, &OpenGate::new(), hearings);
    let (link, _, gate) = responder.give_back();
    (served, link, gate)
}
