//! A responder over links in memory, and one on the loopback beside a client's thread.
use crate::serving::{CLIENT, NONE, bytes_of, link_of, open_to_all, serve as serve_with};
use crate::shared::{address_of, alone, host_link, loopback_socket, moment, same};
use memory_outside::{LinkEvent, MemoryLink, Planned, REQUEST};
use outside_traits::Link;
use packet_auth::KeyRing;
use responder::{End, Served};
use std::alloc::Global;
use std::net::UdpSocket;
use std::process::Abort;
use std::sync::Wait;
use std::{io, thread};

// A datagram of this many bytes from the client.
fn datagram(alloc: Global, first: u8, length: usize) -> Planned {
    Planned::Datagram {
        from: CLIENT,
        at: moment(7),
        bytes: bytes_of(alloc, first, length),
    }
}

// What a responder that lets all pass does on a link for this many hearings, and the link after it.
fn serve<R: Abort + Wait>(
    rt: &R,
    alloc: Global,
    link: MemoryLink,
    budget: u64,
) -> (Served, MemoryLink) {
    let gate = open_to_all(rt, alloc);
    let (served, link, _) = serve_with(rt, alloc, link, KeyRing::new(), gate, budget);
    (served, link)
}

// The last event of a link: the length and the first byte of a datagram that was sent to the client, or None.
fn sent(link: &MemoryLink) -> Option<(usize, u8)> {
    let last = link.count().saturating_sub(1);
    match link.event(last) {
        Some(LinkEvent::Sent { to, bytes }) if to == CLIENT && !bytes.is_empty() => {
            Some((bytes.len(), bytes[0]))
        }
        _ => None,
    }
}

// The first byte of a datagram and its length, and the reply's length and first byte.
const DATAGRAMS: [(u8, usize, Option<(usize, u8)>); 10] = [
    (0x23, 0, None),
    (0x23, 47, None),
    (0x23, 48, Some((48, 0xe4))),
    (0x23, 68, Some((48, 0xe4))),
    (0x23, 1024, Some((48, 0xe4))),
    (0x0b, 48, Some((48, 0xcc))),
    (0x03, 48, None),
    (0x2b, 48, None),
    (0x21, 48, None),
    (0x26, 48, None),
];

// A datagram that comes alone is answered so, or dropped.
fn is_answered_so<R: Abort + Wait>(
    rt: &R,
    alloc: Global,
    first: u8,
    length: usize,
    want: Option<(usize, u8)>,
) {
    let hearings = alone(alloc, datagram(alloc, first, length));
    let (served, link) = serve(rt, alloc, link_of(rt, alloc, hearings, 0, 9), 1);
    let wanted = Served {
        answered: u64::from(want.is_some()),
        dropped: u64::from(want.is_none()),
        ..NONE
    };
    same(rt, (first, length, served), (first, length, wanted));
    let events = if want.is_some() { 3 } else { 2 };
    let found = (first, length, sent(&link), link.count());
    same(rt, found, (first, length, want, events));
}

fn are_answered_so<R: Abort + Wait>(
    rt: &R,
    alloc: Global,
    rows: &[(u8, usize, Option<(usize, u8)>)],
) {
    for (first, length, want) in rows {
        is_answered_so(rt, alloc, *first, *length, *want);
    }
}

#[test]
fn each_datagram_is_answered_or_dropped(rt: HostRuntime) {
    are_answered_so(&rt, rt.alloc(), &DATAGRAMS);
}

// MD5 of `longwave` and the request, by Python's `hashlib`.
const DIGEST: [u8; 16] = [
    0xb4, 0x08, 0xcf, 0x70, 0xf4, 0xde, 0x37, 0x98, 0xe7, 0x13, 0xf3, 0x1a, 0x2a, 0x88, 0x5f, 0x12,
];

// The reply of a server that is not synchronised to a request that came at 7 us and was answered at once. After it comes MD5 of
// `longwave` and its first 48 bytes, by `hashlib`.
const SEALED: [u8; 68] = [
    0xe4, 0x00, 0x06, 0xec, 0x00, 0x00, 0x00, 0x00, 0x00, 0x10, 0x00, 0x00, 0x49, 0x4e, 0x49, 0x54,
    0x00, 0x00, 0x00, 0x00, 0x00, 0x00, 0x00, 0x00, 0x11, 0x22, 0x33, 0x44, 0x55, 0x66, 0x77, 0x88,
    0x00, 0x00, 0x00, 0x00, 0x00, 0x00, 0x75, 0x70, 0x00, 0x00, 0x00, 0x00, 0x00, 0x00, 0x75, 0x70,
    0x00, 0x00, 0x00, 0x01, 0x56, 0x18, 0xe6, 0xd3, 0x2d, 0x50, 0x71, 0x75, 0x67, 0x1a, 0x0a, 0x40,
    0x59, 0xf3, 0x0d, 0xdf,
];

// A request that names this key, with this digest.
fn sealed(id: u8, digest: [u8; 16]) -> [u8; 68] {
    let mut bytes = [0; 68];
    bytes[..48].copy_from_slice(&REQUEST);
    bytes[51] = id;
    bytes[52..].copy_from_slice(&digest);
    bytes
}

// A link on which such a request comes.
fn asking(rt: &impl Abort, alloc: Global, id: u8, digest: [u8; 16]) -> MemoryLink {
    let bytes = Vec::from_slice(alloc, &sealed(id, digest)).expect(rt, "no memory");
    let hearing = Planned::Datagram {
        from: CLIENT,
        at: moment(7),
        bytes,
    };
    link_of(rt, alloc, alone(alloc, hearing), 0, 9)
}

// Whether the last event of a link is the sending of these bytes to the client.
fn has_sent(link: &MemoryLink, want: &[u8]) -> bool {
    match link.event(link.count().saturating_sub(1)) {
        Some(LinkEvent::Sent { to, bytes }) => to == CLIENT && bytes == want,
        _ => false,
    }
}

// A request that names this key gets these first bytes of the sealed reply.
fn is_sealed_so<R: Abort + Wait>(rt: &R, alloc: Global, keys: KeyRing, id: u8, want: &[u8]) {
    let link = asking(rt, alloc, id, DIGEST);
    let gate = open_to_all(rt, alloc);
    let (served, link, _) = serve_with(rt, alloc, link, keys, gate, 1);
    let wanted = Served {
        answered: 1,
        ..NONE
    };
    same(rt, (id, served), (id, wanted));
    same(rt, (id, has_sent(&link, want)), (id, true));
}

fn ring_of_two() -> KeyRing {
    let mut ring = KeyRing::new();
    ring.add(9, b"shortwave");
    ring.add(1, b"longwave");
    ring
}

#[test]
fn a_reply_is_sealed_where_its_request_is_authentic(rt: HostRuntime) {
    let (alloc, ring) = (rt.alloc(), ring_of_two());
    is_sealed_so(&rt, alloc, ring, 1, &SEALED);
    is_sealed_so(&rt, alloc, ring, 9, &SEALED[..48]);
    is_sealed_so(&rt, alloc, ring, 2, &SEALED[..48]);
    is_sealed_so(&rt, alloc, ring, 0, &SEALED[..48]);
}

// The reply that is sent at 1 s.
fn sent_at_1_s() -> [u8; 48] {
    let mut want = [0u8; 48];
    want.copy_from_slice(&SEALED[..48]);
    want[40..].copy_from_slice(&[0, 0, 0, 1, 0, 0, 0, 0]);
    want
}

// A link on which the request comes, and whose clock is at 1 s then.
fn asking_at_1_s(rt: &impl Abort, alloc: Global) -> MemoryLink {
    let hearings = alone(alloc, datagram(alloc, 0x23, 48));
    let moments = alone(alloc, moment(1_000_000));
    let link = MemoryLink::new(alloc, hearings, moments, Vec::new(alloc), 9, 4000);
    link.expect(rt, "no memory")
}

// On such a link the reply of 1 s is sent.
fn is_answered_at_1_s<R: Abort + Wait>(rt: &R, alloc: Global) {
    let (served, link) = serve(rt, alloc, asking_at_1_s(rt, alloc), 1);
    same(rt, served.answered, 1);
    same(rt, has_sent(&link, &sent_at_1_s()), true);
}

// The request comes at 7 us, which is 30064 of the 2^32 parts of a second, and is answered at 1 s.
#[test]
fn a_reply_has_the_moments_of_its_hearing_and_its_sending(rt: HostRuntime) {
    is_answered_at_1_s(&rt, rt.alloc());
}

// A link that gives a request, nothing, a request, and its end.
fn two_requests(rt: &impl Abort, alloc: Global, failing: u64, events: usize) -> MemoryLink {
    let mut hearings = alone(alloc, datagram(alloc, 0x23, 48));
    let _ = hearings.push(Planned::Quiet);
    let _ = hearings.push(datagram(alloc, 0x23, 48));
    link_of(rt, alloc, hearings, failing, events)
}

// The call that fails, how many requests are answered, why the serving ends, and how many events there are.
const FAULTS: [(u64, u64, End, usize); 7] = [
    (1, 0, End::LinkFault, 0),
    (2, 0, End::LinkFault, 2),
    (3, 1, End::LinkFault, 3),
    (4, 1, End::LinkFault, 4),
    (5, 1, End::LinkFault, 6),
    (6, 2, End::LinkFault, 7),
    (7, 2, End::LinkEnd, 8),
];

// On this link the responder answers `answered` requests and ends with `end`. The link has reported `events` events then.
fn serves_two<R: Abort + Wait>(
    rt: &R,
    alloc: Global,
    link: MemoryLink,
    budget: u64,
    want: (u64, End, usize),
) {
    let (answered, end, events) = want;
    let (served, link) = serve(rt, alloc, link, budget);
    let wanted = Served {
        answered,
        end,
        ..NONE
    };
    same(rt, (served, link.count()), (wanted, events));
}

fn end_at_faults<R: Abort + Wait>(rt: &R, alloc: Global, rows: &[(u64, u64, End, usize)]) {
    for (failing, answered, end, events) in rows {
        let link = two_requests(rt, alloc, *failing, 9);
        serves_two(rt, alloc, link, 9, (*answered, *end, *events));
    }
}

// The calls of hearing and sending are 1 to 6: request, reply, nothing, request, reply, end.
#[test]
fn a_fault_of_the_link_ends_the_serving(rt: HostRuntime) {
    end_at_faults(&rt, rt.alloc(), &FAULTS);
}

// How many hearings it is asked for, how many requests it answers, and how many events there are.
const BUDGETS: [(u64, u64, usize); 4] = [(0, 0, 0), (1, 1, 3), (2, 1, 4), (3, 2, 7)];

fn serve_so_often<R: Abort + Wait>(rt: &R, alloc: Global, rows: &[(u64, u64, usize)]) {
    for (budget, answered, events) in rows {
        let link = two_requests(rt, alloc, 0, 9);
        serves_two(rt, alloc, link, *budget, (*answered, End::Count, *events));
    }
}

#[test]
fn it_receives_as_often_as_it_is_asked_to(rt: HostRuntime) {
    serve_so_often(&rt, rt.alloc(), &BUDGETS);
}

#[test]
fn a_link_past_its_room_is_served_on(rt: HostRuntime) {
    let link = two_requests(&rt, rt.alloc(), 0, 2);
    serves_two(&rt, rt.alloc(), link, 9, (2, End::LinkEnd, 0));
}

// A client that waits for a datagram of the server, and then asks three times. It counts the replies of 48 bytes that say that
// the server is not synchronised.
fn ask(socket: &UdpSocket) -> io::Result<u64> {
    let mut piece = [0u8; 1024];
    let (_, server) = socket.recv_from(&mut piece)?;
    let mut replies = 0u64;
    for _ in 0..3u32 {
        socket.send_to(&REQUEST, server)?;
        let (length, _) = socket.recv_from(&mut piece)?;
        if length == 48 && piece[0] == 0xe4 {
            replies = replies.saturating_add(1);
        }
    }
    Ok(replies)
}

#[test]
fn a_client_on_the_loopback_is_answered(rt: HostRuntime) {
    let client = loopback_socket(&rt);
    let mut link = host_link(&rt, moment(0));
    let sent = link.send(address_of(&rt, &client), b"come");
    same(&rt, sent.is_ok(), true);
    let gate = open_to_all(&rt, rt.alloc());
    let Ok(child) = thread::spawn(&rt, move || ask(&client)) else {
        panic!(rt; "no thread");
    };
    let (served, _, _) = serve_with(&rt, rt.alloc(), link, KeyRing::new(), gate, 3);
    let Ok(replies) = child.join(&rt) else {
        panic!(rt; "the client was not answered");
    };
    let found = (replies, served.answered, served.end);
    same(&rt, found, (3, 3, End::Count));
}
