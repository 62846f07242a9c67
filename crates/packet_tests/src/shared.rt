//! What the tests of packets share: a moment, a request, the page of a radio, and its server's replies.
ghost use Rattle.std.specs.Prelude.{◌≡◌, ◌<◌, ◌^◌};

use clock_page::Page;
use reply_core::Dropped;
use std::fmt::Debug;
use std::process::Abort;
use tick_units::{Local, Short, Span, Stamp};

// Does what `assert_eq!` does, as a call, which is proved in a tenth of the time.
pub(crate) fn same<T: PartialEq + Debug + Drop>(rt: &impl Abort, left: T, right: T) {
    assert_eq!(*rt; left, right);
}

pub(crate) fn moment(microseconds: u64) -> Local
    requires { microseconds < 2 ^ 50 }
    ensures { result ≡ microseconds }
{
    Local::new(microseconds).unwrap()
}

// A datagram, followed by 20 bytes.
pub(crate) fn longer(datagram: &[u8; 48]) -> [u8; 68] {
    let mut bytes = [0x55; 68];
    bytes[..48].copy_from_slice(datagram);
    bytes
}

// An identifier and a digest, on the wire.
fn seal(id: [u8; 4], digest: [u8; 16]) -> [u8; 20] {
    let mut bytes = [0; 20];
    bytes[..4].copy_from_slice(&id);
    bytes[4..].copy_from_slice(&digest);
    bytes
}

// A header, followed by them.
pub(crate) fn packet(header: [u8; 48], id: [u8; 4], digest: [u8; 16]) -> [u8; 68] {
    let mut bytes = [0; 68];
    bytes[..48].copy_from_slice(&header);
    bytes[48..].copy_from_slice(&seal(id, digest));
    bytes
}

// A request comes to this.
pub(crate) fn is_packet(
    rt: &impl Abort,
    found: Result<[u8; 48], Dropped>,
    wanted: Result<[u8; 48], Dropped>,
) {
    same(rt, found, wanted);
}

// MD5 of `longwave` and the request, by Python's `hashlib`.
pub(crate) const BY_LONGWAVE: [u8; 16] = [
    0xb4, 0x08, 0xcf, 0x70, 0xf4, 0xde, 0x37, 0x98, 0xe7, 0x13, 0xf3, 0x1a, 0x2a, 0x88, 0x5f, 0x12,
];

// A server with one DCF77 radio, whose counter began 62 s before noon of 2026-01-01, after its fifth minute.
pub(crate) fn of_a_radio() -> Page {
    Page {
        length: 5,
        sync: true,
        stratum: 1,
        refid: 0x4443_4600,
        offset: Span::from(17_077_896_086_183_477_248),
        anchor: moment(302_000_000),
        until: 4_364_906_902,
        root_delay: Short(0),
        root_disp: Short(61_542),
        reftime: Stamp(0xed00_e130_0000_0000),
        leap_at: 0,
        rate: 0,
    }
}

// The answer of that server to the request, which came at 303 s, half a millisecond after it.
pub(crate) const ANSWER: [u8; 48] = [
    0x24, 0x01, 0x06, 0xec, 0x00, 0x00, 0x00, 0x00, 0x00, 0x00, 0xf0, 0x67, 0x44, 0x43, 0x46, 0x00, // `DCF`
    0xed, 0x00, 0xe1, 0x30, 0x00, 0x00, 0x00, 0x00, 0x11, 0x22, 0x33, 0x44, 0x55, 0x66, 0x77, 0x88, // the origin
    0xed, 0x00, 0xe1, 0x31, 0x00, 0x00, 0x00, 0x00, 0xed, 0x00, 0xe1, 0x31, 0x00, 0x20, 0xc4, 0x9b,
];

// What a denied client gets at the same moments.
pub(crate) const DENY: [u8; 48] = [
    0xe4, 0x00, 0x06, 0xec, 0x00, 0x00, 0x00, 0x00, 0x00, 0x10, 0x00, 0x00, 0x44, 0x45, 0x4e, 0x59, // `DENY`
    0x00, 0x00, 0x00, 0x00, 0x00, 0x00, 0x00, 0x00, 0x11, 0x22, 0x33, 0x44, 0x55, 0x66, 0x77, 0x88, // the origin
    0xed, 0x00, 0xe1, 0x31, 0x00, 0x00, 0x00, 0x00, 0xed, 0x00, 0xe1, 0x31, 0x00, 0x20, 0xc4, 0x9b,
];
