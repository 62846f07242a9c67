// Links in memory: the planned hearings come in order, and each fault, bound and room shows where it was stated.
use crate::memory_tests::same;
use feed_link::{Address, Arrival, Failed, Gate, Hearing, Link, OpenGate, Outside};
use memory_outside::{FakeOpen, HoldGate, LinkEvent, MemoryLink, MemoryOutside, Planned};
use std::alloc::{AllocError, Global};
use std::process::Abort;
use std::test::Fail;
use tick_units::Local;

const CLIENT: Address = Address {
    ip: 0x7f00_0001,
    port: 5000,
};

// A moment of this many microseconds.
fn moment(microseconds: u32) -> Local {
    Local::new(u64::from(microseconds)).unwrap()
}

// A datagram of the client.
fn datagram(alloc: Global, at: u32, bytes: &[u8]) -> Result<Planned, AllocError> {
    Ok(Planned::Datagram {
        from: CLIENT,
        at: moment(at),
        bytes: Vec::from_slice(alloc, bytes)?,
    })
}

// The room of a link: events, and bytes of their datagrams.
#[derive(Clone, Copy)]
struct Space {
    events: usize,
    bytes: usize,
}

const AMPLE: Space = Space {
    events: 20,
    bytes: 4000,
};

fn hearings_of(alloc: Global) -> Result<Vec<Planned>, AllocError> {
    let mut hearings = Vec::new(alloc);
    hearings.push(datagram(alloc, 7, b"ab")?)?;
    hearings.push(Planned::Quiet)?;
    hearings.push(datagram(alloc, 5, b"cde")?)?;
    Ok(hearings)
}

// A link that receives "ab" at 7, nothing, "cde" at 5, and then its end. It has the moments 6 and 9, and one of its calls fails.
fn link(alloc: Global, failing: u64, space: Space) -> Result<MemoryLink, FakeOpen> {
    let hearings = hearings_of(alloc)?;
    let moments = Vec::from_slice(alloc, &[moment(6), moment(9)])?;
    let fails = Vec::from_slice(alloc, &[failing])?;
    MemoryLink::new(alloc, hearings, moments, fails, space.events, space.bytes)
}

// What a hearing gives: a word, and of a datagram the sender's port, the moment, the length and the first bytes.
type Given = (&'static str, u16, u64, usize, [u8; 4]);

const QUIET: Given = ("quiet", 0, 0, 0, [0; 4]);

const END: Given = ("end", 0, 0, 0, [0; 4]);

const FAILED: Given = ("failed", 0, 0, 0, [0; 4]);

const AB: Given = ("datagram", 5000, 7, 2, [97, 98, 0, 0]);

const CDE: Given = ("datagram", 5000, 7, 3, [99, 100, 101, 0]);

// The same, after the moment 9 was given.
const LATE_CDE: Given = ("datagram", 5000, 9, 3, [99, 100, 101, 0]);

fn given(arrival: &Arrival, piece: &[u8; 1024]) -> Given {
    let first = [piece[0], piece[1], piece[2], piece[3]];
    (
        "datagram",
        arrival.from.port,
        arrival.at.get(),
        arrival.length,
        first,
    )
}

// What a link receives next.
fn heard(link: &mut MemoryLink) -> Given {
    let mut piece = [0u8; 1024];
    match link.hear(&mut piece) {
        Ok(Hearing::Datagram(arrival)) => given(&arrival, &piece),
        Ok(Hearing::Quiet) => QUIET,
        Ok(Hearing::End) => END,
        Err(Failed) => FAILED,
    }
}

fn next_moment(link: &mut MemoryLink) -> u64 {
    link.moment().get()
}

fn is_sent(link: &mut MemoryLink) -> bool {
    link.send(CLIENT, b"xyzw").is_ok()
}

// Four hearings, the moments after the first and after the third, and whether what was sent after the second is on its way.
type Talk = ([Given; 4], [u64; 3], bool);

// Receives, asks for a moment, receives on, sends, receives, asks for two moments, and receives.
fn talk(link: &mut MemoryLink) -> Talk {
    let first = heard(link);
    let then = next_moment(link);
    let second = heard(link);
    let sent = is_sent(link);
    let third = heard(link);
    let later = next_moment(link);
    let last = next_moment(link);
    let fourth = heard(link);
    ([first, second, third, fourth], [then, later, last], sent)
}

fn says(rt: &impl Abort, link: &mut MemoryLink, want: Talk) {
    same(rt, talk(link), want);
}

// What a link reports of one event: a word, a port, a moment, and how many bytes.
type Event = (&'static str, u16, u64, usize);

fn event_of(event: &LinkEvent<'_>) -> Event {
    match event {
        LinkEvent::Datagram { from, at, bytes } => ("from", from.port, at.get(), bytes.len()),
        LinkEvent::Quiet => ("quiet", 0, 0, 0),
        LinkEvent::End => ("end", 0, 0, 0),
        LinkEvent::Moment(at) => ("moment", 0, at.get(), 0),
        LinkEvent::Sent { to, bytes } => ("to", to.port, 0, bytes.len()),
    }
}

// The event at a place, as far as the link reports one.
fn reported(link: &MemoryLink, place: usize) -> Option<Event> {
    match link.event(place) {
        Some(event) => Some(event_of(&event)),
        None => None,
    }
}

// The link reports these events and no others.
fn reports(rt: &impl Abort, link: &MemoryLink, events: &[Event]) {
    same(rt, link.count(), events.len());
    for place in 0..20usize {
        same(
            rt,
            (place, reported(link, place)),
            (place, events.get(place).copied()),
        );
    }
}

const WHOLE: Talk = ([AB, QUIET, CDE, END], [7, 9, 9], true);

const EVENTS: [Event; 8] = [
    ("from", 5000, 7, 2),
    ("moment", 0, 7, 0),
    ("quiet", 0, 0, 0),
    ("to", 5000, 0, 4),
    ("from", 5000, 7, 3),
    ("moment", 0, 9, 0),
    ("moment", 0, 9, 0),
    ("end", 0, 0, 0),
];

// A link with this room, none of whose calls fails, reports these events.
fn is_supported(rt: &impl Abort, alloc: Global, space: Space, events: &[Event]) {
    match link(alloc, 0, space) {
        Ok(mut link) => {
            says(rt, &mut link, WHOLE);
            reports(rt, &link, events);
        }
        Err(_) => assert!(*rt; false),
    }
}

#[test]
fn a_link_receives_what_was_planned_and_then_its_end(rt: HostRuntime) {
    is_supported(&rt, rt.alloc(), AMPLE, &EVENTS);
}

// A link whose call of this number fails says this.
fn is_said(rt: &impl Abort, alloc: Global, failing: u64, want: Talk) {
    match link(alloc, failing, AMPLE) {
        Ok(mut link) => says(rt, &mut link, want),
        Err(_) => assert!(*rt; false),
    }
}

fn are_said(rt: &impl Abort, alloc: Global, rows: &[(u64, Talk)]) {
    for (failing, want) in rows {
        is_said(rt, alloc, *failing, *want);
    }
}

// The number of the call that fails, and what is said then.
const FAILING: [(u64, Talk); 4] = [
    (1, ([FAILED, AB, QUIET, LATE_CDE], [6, 9, 9], true)),
    (2, ([AB, FAILED, QUIET, LATE_CDE], [7, 9, 9], true)),
    (3, ([AB, QUIET, CDE, END], [7, 9, 9], false)),
    (5, ([AB, QUIET, CDE, FAILED], [7, 9, 9], true)),
];

#[test]
fn a_call_that_fails_leaves_its_hearing_for_the_next(rt: HostRuntime) {
    are_said(&rt, rt.alloc(), &FAILING);
}

fn room_of(events: usize, bytes: usize) -> Space {
    Space { events, bytes }
}

#[test]
fn past_its_room_a_link_reports_nothing(rt: HostRuntime) {
    is_supported(&rt, rt.alloc(), room_of(8, 9), &EVENTS);
    is_supported(&rt, rt.alloc(), room_of(7, 9), &[]);
    is_supported(&rt, rt.alloc(), room_of(8, 8), &[]);
    is_supported(&rt, rt.alloc(), room_of(0, 0), &[]);
}

// A link that receives one datagram: `length` bytes, each 7.
fn link_of_sevens(alloc: Global, length: usize) -> Result<MemoryLink, FakeOpen> {
    let mut hearings = Vec::new(alloc);
    hearings.push(Planned::Datagram {
        from: CLIENT,
        at: moment(1),
        bytes: vec![in alloc; 7u8; length]?,
    })?;
    MemoryLink::new(alloc, hearings, Vec::new(alloc), Vec::new(alloc), 1, 2000)
}

// How many bytes of a piece are 7.
fn sevens(piece: &[u8]) -> usize {
    let mut count = 0usize;
    for byte in piece {
        if *byte == 7 {
            count = count.saturating_add(1);
        }
    }
    count
}

// The length of the datagram that a link receives, its next moment, and how many bytes of the piece are 7 then.
fn heard_of(link: &mut MemoryLink) -> Option<(usize, u64, usize)> {
    let mut piece = [0u8; 1024];
    let length = match link.hear(&mut piece) {
        Ok(Hearing::Datagram(arrival)) => arrival.length,
        _ => return None,
    };
    Some((length, link.moment().get(), sevens(&piece)))
}

// Of a datagram of this length this many bytes are received.
fn are_heard(rt: &impl Abort, alloc: Global, length: usize, heard: usize) {
    match link_of_sevens(alloc, length) {
        Ok(mut link) => same(rt, heard_of(&mut link), Some((heard, 1, heard))),
        Err(_) => assert!(*rt; false),
    }
}

#[test]
fn of_a_longer_datagram_1024_bytes_are_heard(rt: HostRuntime) {
    are_heard(&rt, rt.alloc(), 0, 0);
    are_heard(&rt, rt.alloc(), 1023, 1023);
    are_heard(&rt, rt.alloc(), 1024, 1024);
    are_heard(&rt, rt.alloc(), 1025, 1024);
}

// Links in each of which the call of this number fails.
fn links_of(alloc: Global, fails: &[u64]) -> Result<Vec<MemoryLink>, FakeOpen> {
    let mut links = Vec::new(alloc);
    for failing in fails {
        links.push(link(alloc, *failing, AMPLE)?)?;
    }
    Ok(links)
}

type Fake = MemoryOutside<OpenGate>;

// An outside with two links; its opening of this number fails.
fn two_links(alloc: Global, failing: u64) -> Result<Fake, FakeOpen> {
    let links = links_of(alloc, &[0, 1])?;
    let fails = Vec::from_slice(alloc, &[failing])?;
    MemoryOutside::new(alloc, Vec::new(alloc), links, OpenGate::new(), fails, 4, 0)
}

// Opens a link, receives once and gives it back.
fn visit(outside: &mut Fake) -> Result<(), Failed> {
    let mut net = outside.open_link(123, moment(3))?;
    let mut piece = [0u8; 1024];
    let heard = net.hear(&mut piece);
    outside.give_back_link(net);
    match heard {
        Ok(_) => Ok(()),
        Err(Failed) => Err(Failed),
    }
}

// How many events the links of the outside report, where they stand in their places.
fn counts(outside: &Fake) -> [Option<usize>; 3] {
    [count(outside, 0), count(outside, 1), count(outside, 2)]
}

fn count(outside: &Fake, place: usize) -> Option<usize> {
    match outside.link(place) {
        Some(link) => Some(link.count()),
        None => None,
    }
}

// The links of the outside have reported these numbers of events, where they stand in their places.
fn stand(rt: &impl Abort, outside: &Fake, want: [Option<usize>; 3]) {
    same(rt, counts(outside), want);
}

fn is_visited(rt: &impl Abort, outside: &mut Fake, want: Result<(), Failed>) {
    same(rt, visit(outside), want);
}

// Two links are handed out in order, and come back to their places. The call of the second fails.
fn hands_out_two(rt: &impl Abort, outside: &mut Fake) {
    stand(rt, outside, [Some(0), Some(0), None]);
    is_visited(rt, outside, Ok(()));
    stand(rt, outside, [Some(1), Some(0), None]);
    is_visited(rt, outside, Err(Failed));
    stand(rt, outside, [Some(1), Some(0), None]);
    is_visited(rt, outside, Err(Failed));
}

#[test]
fn links_are_handed_out_in_order_and_come_back_to_their_places(
    rt: HostRuntime,
) -> Result<(), Fail> {
    let mut outside = two_links(rt.alloc(), 9)?;
    hands_out_two(&rt, &mut outside);
    Ok(())
}

#[test]
fn a_link_that_is_out_does_not_stand_in_its_place(rt: HostRuntime) -> Result<(), Fail> {
    let mut outside = two_links(rt.alloc(), 1)?;
    assert!(rt; outside.open_link(123, moment(3)).is_err());
    let net = outside.open_link(123, moment(3))?;
    stand(&rt, &outside, [None, Some(0), None]);
    outside.give_back_link(net);
    stand(&rt, &outside, [Some(0), Some(0), None]);
    Ok(())
}

#[test]
fn a_gate_is_out_until_it_is_given_back(rt: HostRuntime) -> Result<(), Fail> {
    let mut outside = two_links(rt.alloc(), 0)?;
    assert!(rt; outside.turns().is_some());
    let gate = outside.gate();
    assert!(rt; outside.turns().is_none());
    gate.pass(&rt, 0, 1);
    outside.give_back_gate(gate);
    assert!(rt; outside.turns().is_some());
    Ok(())
}

#[test]
fn a_gate_holds_a_worker_until_its_turns_run_out(rt: HostRuntime) {
    let gate = HoldGate::new(0, 1, 100, 3, 2, 5);
    gate.pass(&rt, 0, 2);
    same(&rt, (gate.passed(&rt), gate.ran_out(&rt)), (0, false));
    gate.pass(&rt, 100, 3);
    gate.pass(&rt, 101, 3);
    gate.pass(&rt, 0, 1);
    same(&rt, (gate.passed(&rt), gate.ran_out(&rt)), (1, true));
}

#[test]
fn a_gate_opens_once_the_other_worker_has_passed(rt: HostRuntime) {
    let gate = HoldGate::new(0, 1, 100, 3, 2, 5);
    gate.pass(&rt, 100, 3);
    gate.pass(&rt, 100, 3);
    gate.pass(&rt, 0, 1);
    gate.pass(&rt, 0, 1);
    same(&rt, (gate.passed(&rt), gate.ran_out(&rt)), (2, false));
}
