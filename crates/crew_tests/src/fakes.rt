//! Logs and links in memory, stated by constants.

use memory_outside::{ANSWER, MemoryLink, MemorySource, NOON_0, Planned, REQUEST};
use outside_traits::Address;
use std::alloc::Global;
use std::process::Abort;
use tick_units::Local;

pub const CLIENT: Address = Address {
    ip: 0x7f00_0001,
    port: 5000,
};

/// A datagram that a link receives: its sender, its moment in microseconds, its bytes and as many zeros after them.
#[derive(Clone, Copy)]
pub struct Datagram<'a> {
    pub from: Address,
    pub at: u32,
    pub bytes: &'a [u8],
    pub zeros: u32,
}

/// A link: its first moment in microseconds, the datagrams that it receives before its end, and its call that fails, counted from 1, or 0 for
/// none.
#[derive(Clone, Copy)]
pub struct Wire<'a> {
    pub moment: u32,
    pub receives: &'a [Datagram<'a>],
    pub fails: u64,
}

/// The client's request, at 363 s.
pub const ASKS: Datagram<'static> = Datagram {
    from: CLIENT,
    at: 363_000_000,
    bytes: &REQUEST,
    zeros: 0,
};

/// A link that receives nothing but its end, and one that receives a request, and so on.
pub const WIRE: Wire<'static> = Wire {
    moment: 0,
    receives: &[],
    fails: 0,
};

pub const ASKED: Wire<'static> = Wire {
    receives: &[ASKS],
    ..WIRE
};

pub const ASKED_2: Wire<'static> = Wire {
    receives: &[ASKS, ASKS],
    ..WIRE
};

pub const ASKED_3: Wire<'static> = Wire {
    receives: &[ASKS, ASKS, ASKS],
    ..WIRE
};

/// A link whose first moment is 1 s, over which a server answers.
pub const ANSWERED: Wire<'static> = Wire {
    moment: 1_000_000,
    receives: &[Datagram {
        from: Address {
            ip: 0x7f00_0001,
            port: 123,
        },
        at: 1_010_000,
        bytes: &ANSWER,
        zeros: 0,
    }],
    fails: 0,
};

fn moment(microseconds: u32) -> Local {
    Local::new(u64::from(microseconds)).unwrap()
}

// These fill lists and texts as far as there is memory. Where it is short, a station leaves something else than the test wants.

fn datagram_of(alloc: Global, datagram: &Datagram<'_>) -> Planned {
    let mut bytes = Vec::new(alloc);
    let _ = bytes.extend_from_slice(datagram.bytes);
    for _ in 0..datagram.zeros {
        let _ = bytes.push(0);
    }
    Planned::Datagram {
        from: datagram.from,
        at: moment(datagram.at),
        bytes,
    }
}

fn alone<T: Drop>(alloc: Global, item: T) -> Vec<T> {
    let mut list = Vec::new(alloc);
    let _ = list.push(item);
    list
}

/// The link that is stated.
pub fn link_of(rt: &impl Abort, alloc: Global, wire: &Wire<'_>) -> MemoryLink {
    let mut hearings = Vec::new(alloc);
    for datagram in wire.receives {
        let _ = hearings.push(datagram_of(alloc, datagram));
    }
    let moments = alone(alloc, moment(wire.moment));
    let fails = alone(alloc, wire.fails);
    MemoryLink::new(alloc, hearings, moments, fails, 40, 4000).expect(rt, "no memory")
}

/// A file of this text.
pub fn source_of(alloc: Global, text: &str) -> MemorySource {
    let mut bytes = Vec::new(alloc);
    let _ = bytes.extend_from_slice(text.as_bytes());
    MemorySource::new(bytes, Vec::new(alloc))
}

// Whether the frame of a minute after 13:00, 0 to 7, has a one at a place: the minute's three bits stand at 21, 22 and 23, their parity at 28.
fn is_one(minute: u32, place: u32) -> bool {
    match place {
        21 => minute & 1 != 0,
        22 => minute & 2 != 0,
        23 => minute & 4 != 0,
        28 => minute.count_ones() & 1 != 0,
        _ => NOON_0.contains(&(place as usize)),
    }
}

// The lines of the frame of a minute after 13:00, which starts at 2 s in the first minute.
fn add_frame(text: &mut String, minute: u32) {
    for place in 0..59u32 {
        let second = u64::from(minute)
            .saturating_mul(60)
            .saturating_add(u64::from(place))
            .saturating_add(2);
        let at = second.saturating_mul(1_000_000);
        let width = if is_one(minute, place) {
            200_000
        } else {
            100_000
        };
        let _ = writeln!(text, "{at} {width}");
    }
}

/// The log of this many minutes: the last one closes 2 s after their sum. The log of none is empty.
pub fn minutes(alloc: Global, count: u32) -> MemorySource {
    if count == 0 {
        return source_of(alloc, "");
    }
    let mut text = String::new(alloc);
    let _ = text.push_str("0 100000\n");
    for minute in 0..count {
        add_frame(&mut text, minute);
    }
    let at = u64::from(count).saturating_mul(60).saturating_add(2);
    let _ = writeln!(text, "{at}000000 100000");
    source_of(alloc, text.as_str())
}
