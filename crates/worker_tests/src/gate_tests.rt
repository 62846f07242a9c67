//! A responder whose gate denies senders, or lets each pass once in a gap. The page is that of no entry, so an answer has the
//! reference ID `INIT`. A kiss code stands there in its letters (RFC 5905, section 7.4).
use crate::serving::{CLIENT, NONE, bytes_of, gate_of, link_of, serve};
use crate::shared::{alone, moment, same};
use kiss_gate::{ClientGate, DenyList};
use memory_outside::{LinkEvent, MemoryLink, Planned};
use outside_traits::Address;
use packet_auth::KeyRing;
use responder::Served;
use std::alloc::Global;
use std::process::Abort;
use std::sync::Wait;

const OTHER: Address = Address {
    ip: 0x0a01_0203,
    port: 123,
};

// A datagram: its sender, its moment, its first byte and its length.
type Come = (Address, u32, u8, usize);

// These come.
fn hearings_of(alloc: Global, datagrams: &[Come]) -> Vec<Planned> {
    let mut hearings = Vec::new(alloc);
    for (from, at, first, length) in datagrams {
        let _ = hearings.push(Planned::Datagram {
            from: *from,
            at: moment(*at),
            bytes: bytes_of(alloc, *first, *length),
        });
    }
    hearings
}

// A reply: its receiver, and its reference ID.
type Reply = (Address, &'static str);

// Whether a datagram that was sent is the reply of this place: it has its receiver and its reference ID. Each has 48 bytes and says
// that the server is not synchronised.
fn is_reply(to: Address, bytes: &[u8], replies: &[Reply], place: usize) -> bool {
    match replies.get(place) {
        Some((client, id)) => {
            to == *client
                && bytes.len() == 48
                && bytes[0] == 0xe4
                && &bytes[12..16] == id.as_bytes()
        }
        None => false,
    }
}

// Whether these replies were sent on a link, in order, and nothing else.
fn has_sent(link: &MemoryLink, replies: &[Reply]) -> bool {
    let mut count = 0usize;
    let mut right = true;
    for place in 0..link.count() {
        if let Some(LinkEvent::Sent { to, bytes }) = link.event(place) {
            right = right && is_reply(to, bytes, replies, count);
            count = count.saturating_add(1);
        }
    }
    right && count == replies.len()
}

// A responder with this gate does this on a link for this many hearings, and sends these replies. Its gate after them.
fn serve_link<R: Abort + Wait>(
    rt: &R,
    alloc: Global,
    gate: ClientGate,
    link: MemoryLink,
    hearings: u64,
    replies: &[Reply],
    want: Served,
) -> ClientGate {
    let (served, link, gate) = serve(rt, alloc, link, KeyRing::new(), gate, hearings);
    same(rt, has_sent(&link, replies), true);
    same(rt, served, want);
    gate
}

// The same with datagrams that come one after another.
fn serve_all<R: Abort + Wait>(
    rt: &R,
    alloc: Global,
    gate: ClientGate,
    datagrams: &[Come],
    replies: &[Reply],
    want: Served,
) -> ClientGate {
    let link = link_of(rt, alloc, hearings_of(alloc, datagrams), 0, 40);
    let count = datagrams.len() as u64;
    serve_link(rt, alloc, gate, link, count, replies, want)
}

// The same, where the gate has this gap and denies nobody.
fn serves_all<R: Abort + Wait>(
    rt: &R,
    alloc: Global,
    datagrams: &[Come],
    replies: &[Reply],
    want: Served,
) {
    let gate = gate_of(rt, alloc, &DenyList::new(), 1000);
    let _gate = serve_all(rt, alloc, gate, datagrams, replies, want);
}

// A run that answers `answered` requests, and sends a kiss code to `kissed`.
fn of_these(answered: u64, kissed: u64) -> Served {
    Served {
        answered,
        kissed,
        ..NONE
    }
}

const WITHIN_THE_GAP: [Come; 4] = [
    (CLIENT, 100, 0x23, 48),
    (OTHER, 200, 0x23, 48),
    (CLIENT, 1099, 0x23, 48),
    (CLIENT, 1100, 0x23, 48),
];

const ONE_RATE: [Reply; 4] = [
    (CLIENT, "INIT"),
    (OTHER, "INIT"),
    (CLIENT, "RATE"),
    (CLIENT, "INIT"),
];

#[test]
fn a_client_that_asks_within_the_gap_gets_rate(rt: HostRuntime) {
    serves_all(&rt, rt.alloc(), &WITHIN_THE_GAP, &ONE_RATE, of_these(3, 1));
}

const TWO_WITHIN_THE_GAP: [Come; 2] = [(CLIENT, 100, 0x23, 48), (CLIENT, 1099, 0x23, 48)];

const INIT_AND_RATE: [Reply; 2] = [(CLIENT, "INIT"), (CLIENT, "RATE")];

// A link on which the client asks twice. Its clock is at 600 us at the first answer, and at 5 ms at the second.
fn asked_twice(rt: &impl Abort, alloc: Global) -> MemoryLink {
    let hearings = hearings_of(alloc, &TWO_WITHIN_THE_GAP);
    let mut moments = alone(alloc, moment(600));
    let _ = moments.push(moment(5000));
    let link = MemoryLink::new(alloc, hearings, moments, Vec::new(alloc), 40, 4000);
    link.expect(rt, "no memory")
}

fn is_judged_by_arrival<R: Abort + Wait>(rt: &R, alloc: Global) {
    let gate = gate_of(rt, alloc, &DenyList::new(), 1000);
    let link = asked_twice(rt, alloc);
    let _gate = serve_link(rt, alloc, gate, link, 2, &INIT_AND_RATE, of_these(1, 1));
}

// The second request comes 999 us after the first, and is answered 4.4 ms after it.
#[test]
fn a_client_is_judged_by_when_its_request_came(rt: HostRuntime) {
    is_judged_by_arrival(&rt, rt.alloc());
}

const OF_A_DENIED_NET: [Come; 5] = [
    (OTHER, 100, 0x23, 48),
    (OTHER, 101, 0x24, 48),
    (OTHER, 102, 0x23, 47),
    (CLIENT, 103, 0x23, 48),
    (OTHER, 104, 0x23, 68),
];

const TWO_DENIED: [Reply; 3] = [(OTHER, "DENY"), (CLIENT, "INIT"), (OTHER, "DENY")];

// A gate that denies the net of the other sender, and has no gap.
fn denying_other(rt: &impl Abort, alloc: Global) -> ClientGate {
    let mut deny = DenyList::new();
    deny.add(0x0a00_0000, 8);
    gate_of(rt, alloc, &deny, 0)
}

#[test]
fn a_denied_sender_gets_deny(rt: HostRuntime) {
    let alloc = rt.alloc();
    let want = Served {
        answered: 1,
        dropped: 2,
        kissed: 2,
        ..NONE
    };
    let gate = denying_other(&rt, alloc);
    let _gate = serve_all(&rt, alloc, gate, &OF_A_DENIED_NET, &TWO_DENIED, want);
}

const ONE_DROPPED: [Come; 3] = [
    (CLIENT, 100, 0x24, 48),
    (CLIENT, 150, 0x23, 48),
    (CLIENT, 160, 0x23, 48),
];

// So it does not keep its sender's next request away.
#[test]
fn a_dropped_datagram_is_not_judged(rt: HostRuntime) {
    let want = Served {
        dropped: 1,
        ..of_these(1, 1)
    };
    serves_all(&rt, rt.alloc(), &ONE_DROPPED, &INIT_AND_RATE, want);
}

const FIRST: [Come; 1] = [(CLIENT, 100, 0x23, 48)];

const NEXT: [Come; 2] = [(CLIENT, 500, 0x23, 48), (OTHER, 501, 0x23, 48)];

const ONE_INIT: [Reply; 1] = [(CLIENT, "INIT")];

const RATE_AND_INIT: [Reply; 2] = [(CLIENT, "RATE"), (OTHER, "INIT")];

// One responder lets a client pass; then the client asks the next one, which has the same gate.
#[test]
fn the_table_is_handed_on(rt: HostRuntime) {
    let alloc = rt.alloc();
    let gate = gate_of(&rt, alloc, &DenyList::new(), 1000);
    let gate = serve_all(&rt, alloc, gate, &FIRST, &ONE_INIT, of_these(1, 0));
    let _gate = serve_all(&rt, alloc, gate, &NEXT, &RATE_AND_INIT, of_these(1, 1));
}
