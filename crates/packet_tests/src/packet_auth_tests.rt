//! Datagrams with and without a digest. The digests are those of Python's `hashlib` and of `openssl dgst -md5`.
ghost use Rattle.std.specs.Prelude.{◌≡◌, ◌≤◌, ◌∷◌, [], codes, IsTrue};
ghost use Rattle.packet_auth.specs.Keys.{has_id, keys_of};

use crate::shared::{self, BY_LONGWAVE, same};
use memory_outside::REQUEST;
use packet_auth::{KeyRing, SEALED_LENGTH};
use std::process::Abort;

// MD5 of `another client has this secret!!`, which has 32 bytes, and the request.
const OF_ANOTHER: [u8; 16] = [
    0x7d, 0xf7, 0xa5, 0x3a, 0x80, 0x55, 0x68, 0xf5, 0xf0, 0x59, 0x93, 0x65, 0xb9, 0xbb, 0x88, 0x21,
];

// MD5 of `~` and the request.
const OF_ONE_BYTE: [u8; 16] = [
    0x5a, 0xc8, 0x36, 0xae, 0xed, 0x24, 0x72, 0x9b, 0x2e, 0x5f, 0x19, 0x40, 0x00, 0xaa, 0x3d, 0xfe,
];

// The request, followed by an identifier and a digest.
fn packet(id: [u8; 4], digest: [u8; 16]) -> [u8; SEALED_LENGTH] {
    shared::packet(REQUEST, id, digest)
}

// The ring of three clients.
fn ring_of_three() -> KeyRing
    ensures { keys_of result ≡ record { id = 0x01020304; secret = 126 ∷ [] } ∷ record { id = 7; secret = codes "another client has this secret!!" } ∷ record { id = 1; secret = codes "longwave" } ∷ [] }
{
    let mut ring = KeyRing::new();
    ring.add(0x0102_0304, b"~");
    ring.add(7, b"another client has this secret!!");
    ring.add(1, b"longwave");
    ring
}

// By a ring this digest of the request under an identifier is this key's, or nobody's.
fn is_of(rt: &impl Abort, ring: &KeyRing, id: [u8; 4], digest: [u8; 16], key: Option<u32>) {
    let found = ring.authentic(&packet(id, digest));
    same(rt, (id, digest, found), (id, digest, key));
}

#[test]
fn a_request_with_the_digest_of_its_key(rt: HostRuntime) {
    let ring = ring_of_three();
    is_of(&rt, &ring, [0, 0, 0, 1], BY_LONGWAVE, Some(1));
    is_of(&rt, &ring, [0, 0, 0, 7], OF_ANOTHER, Some(7));
    is_of(&rt, &ring, [1, 2, 3, 4], OF_ONE_BYTE, Some(0x0102_0304));
    is_of(&rt, &KeyRing::new(), [0, 0, 0, 1], BY_LONGWAVE, None);
}

// By the ring of three clients this digest under this identifier is nobody's.
fn is_nobodys(rt: &impl Abort, id: [u8; 4], digest: [u8; 16]) {
    is_of(rt, &ring_of_three(), id, digest, None);
}

#[test]
fn a_digest_under_another_identifier(rt: HostRuntime) {
    is_nobodys(&rt, [0, 0, 0, 7], BY_LONGWAVE);
    is_nobodys(&rt, [1, 0, 0, 0], BY_LONGWAVE);
    is_nobodys(&rt, [0, 0, 0, 0], BY_LONGWAVE);
    is_nobodys(&rt, [0, 0, 0, 2], BY_LONGWAVE);
    is_nobodys(&rt, [0, 0, 1, 1], BY_LONGWAVE);
    is_nobodys(&rt, [0xff, 0xff, 0xff, 0xff], BY_LONGWAVE);
    is_nobodys(&rt, [4, 3, 2, 1], OF_ONE_BYTE);
}

// The sealed request is not authentic where this bit is wrong, in whichever of its bytes.
fn each_place_counts(rt: &impl Abort, bit: u8) {
    let ring = ring_of_three();
    for place in 0..SEALED_LENGTH {
        let mut changed = packet([0, 0, 0, 1], BY_LONGWAVE);
        changed[place] ^= bit;
        let found = ring.authentic(&changed);
        same(rt, (bit, place, found), (bit, place, None));
    }
}

#[test]
fn one_wrong_bit_at_each_place(rt: HostRuntime) {
    each_place_counts(&rt, 0x80);
    each_place_counts(&rt, 0x01);
}

// MD5 of `longwave` alone, of it and the first 47 bytes, and of the request and then `longwave`.
const ALONE: [u8; 16] = [
    0xd9, 0x22, 0x30, 0x86, 0xb2, 0x8d, 0xff, 0x87, 0xc4, 0xa9, 0x1c, 0x7a, 0x94, 0x2b, 0x29, 0xfe,
];

const SHORTER: [u8; 16] = [
    0x38, 0x3d, 0xfe, 0x6d, 0x49, 0x9d, 0x43, 0x6f, 0x8a, 0x45, 0x95, 0x35, 0x2c, 0xcd, 0x82, 0xd0,
];

const TURNED: [u8; 16] = [
    0x96, 0xdb, 0x01, 0x5a, 0xac, 0x73, 0xd2, 0x70, 0x22, 0x4a, 0x06, 0xf1, 0x7e, 0xa8, 0x7f, 0x43,
];

#[test]
fn a_digest_of_something_else(rt: HostRuntime) {
    is_nobodys(&rt, [0, 0, 0, 1], ALONE);
    is_nobodys(&rt, [0, 0, 0, 1], SHORTER);
    is_nobodys(&rt, [0, 0, 0, 1], TURNED);
    is_nobodys(&rt, [0, 0, 0, 1], [0; 16]);
}

// The sealed request, followed by 20 bytes of 0.
fn longer() -> [u8; 88] {
    let mut longer = [0; 88];
    longer[..SEALED_LENGTH].copy_from_slice(&packet([0, 0, 0, 1], BY_LONGWAVE));
    longer
}

// The first `length` bytes are not authentic.
fn has_another_length(rt: &impl Abort, length: usize)
    requires { length ≤ 88 }
{
    let found = ring_of_three().authentic(&longer()[..length]);
    same(rt, (length, found), (length, None));
}

// Of these lengths 52 is that of a crypto-NAK, and 72 and 88 those of packets with longer digests.
#[test]
fn another_length(rt: HostRuntime) {
    has_another_length(&rt, 0);
    has_another_length(&rt, 47);
    has_another_length(&rt, 48);
    has_another_length(&rt, 52);
    has_another_length(&rt, 67);
    has_another_length(&rt, 69);
    has_another_length(&rt, 72);
    has_another_length(&rt, 88);
}

// What the key of an identifier makes of the request, in the place of these bytes.
fn sealed_over(ring: &KeyRing, id: u32, byte: u8) -> [u8; SEALED_LENGTH]
    requires { IsTrue (has_id id (keys_of ring.now)) }
{
    let mut out = [byte; SEALED_LENGTH];
    ring.seal(id, &REQUEST, &mut out);
    out
}

#[test]
fn a_seal_is_that_of_the_key_that_was_asked_for(rt: HostRuntime) {
    let ring = ring_of_three();
    let sealed = sealed_over(&ring, 1, 0xaa);
    same(&rt, sealed, packet([0, 0, 0, 1], BY_LONGWAVE));
    let sealed = sealed_over(&ring, 7, 0xaa);
    same(&rt, sealed, packet([0, 0, 0, 7], OF_ANOTHER));
    let sealed = sealed_over(&ring, 0x0102_0304, 0x55);
    same(&rt, sealed, packet([1, 2, 3, 4], OF_ONE_BYTE));
}

// A ring is a value: what is added to a copy is not in it.
#[test]
fn a_copy_of_a_ring(rt: HostRuntime) {
    let empty = KeyRing::new();
    let mut copy = empty;
    copy.add(1, b"longwave");
    is_of(&rt, &copy, [0, 0, 0, 1], BY_LONGWAVE, Some(1));
    is_of(&rt, &empty, [0, 0, 0, 1], BY_LONGWAVE, None);
}

// The ring of three clients and five others, the last of which has the secret of one of the three.
fn ring_of_eight() -> KeyRing {
    let mut ring = ring_of_three();
    ring.add(2, b"two");
    ring.add(3, b"three");
    ring.add(4, b"four");
    ring.add(5, b"five");
    ring.add(6, b"longwave");
    ring
}

#[test]
fn eight_keys(rt: HostRuntime) {
    let ring = ring_of_eight();
    is_of(&rt, &ring, [0, 0, 0, 6], BY_LONGWAVE, Some(6));
    is_of(&rt, &ring, [0, 0, 0, 1], BY_LONGWAVE, Some(1));
    is_of(&rt, &ring, [0, 0, 0, 2], BY_LONGWAVE, None);
}
