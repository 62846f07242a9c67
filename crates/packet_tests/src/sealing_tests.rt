//! Replies with and without a digest. The digests are those of Python's `hashlib`; the headers were worked by hand from RFC 5905.
ghost use Rattle.std.specs.Prelude.{◌≡◌, ◌≤◌, ◌<◌, ◌^◌, ◌∷◌, [], codes};
ghost use Rattle.packet_auth.specs.Keys.{keys_of};

use crate::shared::{self, ANSWER, BY_LONGWAVE, DENY, moment, of_a_radio, same};
use memory_outside::REQUEST;
use packet_auth::KeyRing;
use reply_core::{Code, Dropped};
use sealed_reply::{Reply, Request};
use std::process::Abort;

// MD5 of `shortwave` and the request.
const BY_SHORTWAVE: [u8; 16] = [
    0x53, 0x0e, 0xb1, 0x20, 0x91, 0x52, 0xc1, 0x0c, 0xaf, 0xca, 0x1d, 0x7b, 0x2b, 0x64, 0xd5, 0xd1,
];

// What a client gets that asks too often, half a millisecond after its request of 303 s.
const RATE: [u8; 48] = [
    0xe4, 0x00, 0x06, 0xec, 0x00, 0x00, 0x00, 0x00, 0x00, 0x10, 0x00, 0x00, 0x52, 0x41, 0x54, 0x45,
    0x00, 0x00, 0x00, 0x00, 0x00, 0x00, 0x00, 0x00, 0x11, 0x22, 0x33, 0x44, 0x55, 0x66, 0x77, 0x88,
    0xed, 0x00, 0xe1, 0x31, 0x00, 0x00, 0x00, 0x00, 0xed, 0x00, 0xe1, 0x31, 0x00, 0x20, 0xc4, 0x9b,
];

// MD5 of `longwave` and this code, and of it and the one for a client that is denied.
const RATE_BY_LONGWAVE: [u8; 16] = [
    0x61, 0x13, 0x3a, 0x05, 0xee, 0x00, 0x53, 0xd4, 0x06, 0xb9, 0x66, 0x50, 0xab, 0x6d, 0x97, 0x5f,
];

const DENY_BY_LONGWAVE: [u8; 16] = [
    0xf3, 0xa5, 0xcf, 0xeb, 0x3d, 0x1b, 0x1f, 0xba, 0xd8, 0x9a, 0x7e, 0x73, 0x48, 0x64, 0xb0, 0x44,
];

// MD5 of `longwave` and the answer, and of `shortwave` and it.
const ANSWER_BY_LONGWAVE: [u8; 16] = [
    0xc6, 0x34, 0x7d, 0xf5, 0xe2, 0xb5, 0x98, 0x07, 0x07, 0x2b, 0xd6, 0x9b, 0x39, 0x90, 0x65, 0xc3,
];

const ANSWER_BY_SHORTWAVE: [u8; 16] = [
    0xd5, 0xa6, 0xb4, 0xf0, 0x4f, 0x46, 0xf7, 0x59, 0x1a, 0xed, 0x52, 0x86, 0xff, 0x34, 0x14, 0x1c,
];

// A header, followed by an identifier below 256 and a digest.
fn packet(header: [u8; 48], id: u8, digest: [u8; 16]) -> [u8; 68] {
    shared::packet(header, [0, 0, 0, id], digest)
}

fn ring_of_two() -> KeyRing
    ensures { keys_of result ≡ record { id = 9; secret = codes "shortwave" } ∷ record { id = 1; secret = codes "longwave" } ∷ [] }
{
    let mut ring = KeyRing::new();
    ring.add(9, b"shortwave");
    ring.add(1, b"longwave");
    ring
}

// The reply that a client gets by its code at moments of its datagram and of the reply.
fn reply_at(code: Code, datagram: &[u8], arrived: u64, sent: u64) -> Result<Reply, Dropped>
    requires order { arrived ≤ sent }
    requires most { sent < 2 ^ 50 }
{
    let (page, ring) = (of_a_radio(), ring_of_two());
    match Request::read(datagram) {
        Ok(request) => Ok(request.reply(&ring, code, &page, moment(arrived), moment(sent))),
        Err(why) => Err(why),
    }
}

// The bytes of a reply, where there is one.
fn bytes_of(reply: &Result<Reply, Dropped>) -> Result<&[u8], Dropped> {
    match reply {
        Ok(reply) => Ok(reply.bytes()),
        Err(why) => Err(*why),
    }
}

// A client gets these bytes by its code and its datagram, or nothing.
fn comes_to(
    rt: &impl Abort,
    code: Code,
    datagram: &[u8],
    reply: &Result<Reply, Dropped>,
    want: Result<&[u8], Dropped>,
) {
    same(
        rt,
        (code, datagram, bytes_of(reply)),
        (code, datagram, want),
    );
}

// The reply half a millisecond after a datagram of 303 s has these bytes.
fn is_replied_by(rt: &impl Abort, code: Code, datagram: &[u8], want: &[u8]) {
    let reply = reply_at(code, datagram, 303_000_000, 303_000_500);
    comes_to(rt, code, datagram, &reply, Ok(want));
}

fn is_replied(rt: &impl Abort, datagram: &[u8], want: &[u8]) {
    is_replied_by(rt, Code::Pass, datagram, want);
}

// The request with the digest of the first key, and with that of the second one.
fn by_longwave() -> [u8; 68] {
    packet(REQUEST, 1, BY_LONGWAVE)
}

fn by_shortwave() -> [u8; 68] {
    packet(REQUEST, 9, BY_SHORTWAVE)
}

// The answer sealed by the first key.
fn answer_by_longwave() -> [u8; 68] {
    packet(ANSWER, 1, ANSWER_BY_LONGWAVE)
}

#[test]
fn a_reply_is_sealed_as_its_request_is(rt: HostRuntime) {
    is_replied(&rt, &REQUEST, &ANSWER);
    is_replied(&rt, &by_longwave(), &answer_by_longwave());
    let sealed = packet(ANSWER, 9, ANSWER_BY_SHORTWAVE);
    is_replied(&rt, &by_shortwave(), &sealed);
}

// The request with its digest, whose last byte is changed.
fn changed() -> [u8; 68] {
    let mut changed = by_longwave();
    changed[67] ^= 1;
    changed
}

// The sealed request, followed by 20 bytes of 0.
fn longer() -> [u8; 88] {
    let mut longer = [0; 88];
    longer[..68].copy_from_slice(&by_longwave());
    longer
}

// The first `length` bytes get the answer without a digest.
fn is_not_authentic(rt: &impl Abort, length: usize)
    requires { length ≤ 88 }
{
    is_replied(rt, &longer()[..length], &ANSWER);
}

// The digest of the first key under this identifier gets the answer without a digest.
fn is_of_another(rt: &impl Abort, id: u8) {
    is_replied(rt, &packet(REQUEST, id, BY_LONGWAVE), &ANSWER);
}

// The last byte is changed, or the identifier is another's or nobody's. Or the length is that of a crypto-NAK, or one byte too
// many or too few.
#[test]
fn a_request_that_is_not_authentic(rt: HostRuntime) {
    is_replied(&rt, &changed(), &ANSWER);
    is_of_another(&rt, 9);
    is_of_another(&rt, 2);
    is_of_another(&rt, 0);
    is_not_authentic(&rt, 52);
    is_not_authentic(&rt, 67);
    is_not_authentic(&rt, 69);
    is_not_authentic(&rt, 72);
    is_not_authentic(&rt, 88);
}

#[test]
fn a_kiss_is_sealed_as_its_request_is(rt: HostRuntime) {
    is_replied_by(&rt, Code::Rate, &REQUEST, &RATE);
    let sealed = packet(RATE, 1, RATE_BY_LONGWAVE);
    is_replied_by(&rt, Code::Rate, &by_longwave(), &sealed);
    is_replied_by(&rt, Code::Deny, &REQUEST, &DENY);
    let sealed = packet(DENY, 1, DENY_BY_LONGWAVE);
    is_replied_by(&rt, Code::Deny, &by_longwave(), &sealed);
}

// The reply to a datagram is written in the place of an earlier one.
fn write_in(reply: &mut Reply, datagram: &[u8]) -> Result<(), Dropped> {
    let (page, ring) = (of_a_radio(), ring_of_two());
    let request = Request::read(datagram)?;
    let (arrived, sent) = (moment(303_000_000), moment(303_000_500));
    request.reply_in(&ring, Code::Pass, &page, arrived, sent, reply);
    Ok(())
}

// A reply that is written in the place of an earlier one has these bytes.
fn is_replied_in(rt: &impl Abort, reply: &mut Reply, datagram: &[u8], want: &[u8]) {
    let written = write_in(reply, datagram);
    same(rt, (written, reply.bytes()), (Ok(()), want));
}

// A reply is sealed, the next one in its place is not, and the one after that is sealed again.
#[test]
fn a_reply_is_written_in_the_place_of_another(rt: HostRuntime) {
    let mut reply = Reply::blank();
    let (asked, sealed) = (by_longwave(), answer_by_longwave());
    is_replied_in(&rt, &mut reply, &asked, &sealed);
    is_replied_in(&rt, &mut reply, &REQUEST, &ANSWER);
    is_replied_in(&rt, &mut reply, &asked, &sealed);
}

// MD5 of `longwave` and the request with the first byte 2b, of version 5, and 24, of a server.
const OF_VERSION_5: [u8; 16] = [
    0x27, 0xaf, 0x0f, 0xe4, 0xc5, 0xe2, 0x83, 0x0b, 0x15, 0xa1, 0x38, 0x35, 0x58, 0xe0, 0x66, 0xd3,
];

const OF_A_SERVER: [u8; 16] = [
    0xa7, 0xf3, 0x47, 0x4c, 0xa7, 0x05, 0x7f, 0xe7, 0xfe, 0x42, 0xc6, 0xa1, 0x78, 0xa8, 0x9a, 0x68,
];

// The datagram of a client that gets this code is dropped for this reason.
fn is_dropped_by(rt: &impl Abort, code: Code, datagram: &[u8], why: Dropped) {
    let reply = reply_at(code, datagram, 0, 0);
    comes_to(rt, code, datagram, &reply, Err(why));
}

// The request with this first byte and this digest is authentic, and dropped whatever its client gets.
fn is_dropped(rt: &impl Abort, first: u8, digest: [u8; 16], why: Dropped) {
    let mut datagram = packet(REQUEST, 1, digest);
    datagram[0] = first;
    same(rt, ring_of_two().authentic(&datagram), Some(1));
    is_dropped_by(rt, Code::Pass, &datagram, why);
    is_dropped_by(rt, Code::Rate, &datagram, why);
    is_dropped_by(rt, Code::Deny, &datagram, why);
}

#[test]
fn what_is_no_request_is_dropped_sealed_or_not(rt: HostRuntime) {
    is_dropped(&rt, 0x2b, OF_VERSION_5, Dropped::Version);
    is_dropped(&rt, 0x24, OF_A_SERVER, Dropped::Mode);
    is_dropped_by(&rt, Code::Deny, &REQUEST[..47], Dropped::Short);
}
