//! Reads a header from bytes.
ghost use Rattle.std.specs.Prelude.{◌≡◌, ◌≤◌, ◌+◌, ◌↔◌, length, IsSome, IfSome};
ghost use Rattle.byteorder.specs.Endian.{big_from};
ghost use Rattle.ntp_packet.specs.Layout.{IsHeader, fields};

use crate::{HEADER_LENGTH, Header};
use byteorder::{BigEndian, ByteOrder};
use tick_units::{Short, Stamp};

// The number in the four bytes from a place.
fn u32_at(bytes: &[u8], place: usize) -> u32
    requires { place + 4 ≤ length bytes.now }
    ensures { result ≡ big_from place 4 bytes.now }
{
    BigEndian::read_u32(&bytes[place..])
}

// The number in the eight bytes from a place.
fn u64_at(bytes: &[u8], place: usize) -> u64
    requires { place + 8 ≤ length bytes.now }
    ensures { result ≡ big_from place 8 bytes.now }
{
    BigEndian::read_u64(&bytes[place..])
}

/// The header that the first 48 bytes spell. `None` where there are fewer. Bytes after the 48th are passed over.
pub fn read(bytes: &[u8]) -> Option<Header>
    ensures whole { IsSome result ↔ (48 ≤ length bytes.now) }
    ensures fields { IfSome result (λ h. h ≡ fields bytes.now) }
    ensures fits { IfSome result IsHeader }
{
    if bytes.len() < HEADER_LENGTH {
        return None;
    }
    Some(Header {
        leap: bytes[0] >> 6,
        version: bytes[0] >> 3 & 0b111,
        mode: bytes[0] & 0b111,
        stratum: bytes[1],
        poll: bytes[2].cast_signed(),
        precision: bytes[3].cast_signed(),
        root_delay: Short(u32_at(bytes, 4)),
        root_disp: Short(u32_at(bytes, 8)),
        refid: u32_at(bytes, 12),
        reference: Stamp(u64_at(bytes, 16)),
        origin: Stamp(u64_at(bytes, 24)),
        receive: Stamp(u64_at(bytes, 32)),
        transmit: Stamp(u64_at(bytes, 40)),
    })
}
