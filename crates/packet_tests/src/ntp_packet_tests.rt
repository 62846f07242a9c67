//! Headers that were decoded by hand, and their bytes.
use crate::shared::same;
use ntp_packet::{Header, read, write};
use std::process::Abort;
use tick_units::{Short, Stamp};

// These bytes spell these fields, and the fields these bytes.
fn assert_spells(rt: &impl Abort, bytes: &[u8; 48], header: &Header) {
    same(rt, read(bytes), Some(*header));
    if let Some(h) = read(bytes) {
        let mut out = [0xff; 48];
        write(&h, &mut out);
        same(rt, out, *bytes);
    }
}

const BY_NTPDATE: [u8; 48] = [
    0xe3, 0x00, 0x04, 0xfa, 0x00, 0x01, 0x00, 0x00, 0x00, 0x01, 0x00, 0x00, 0x00, 0x00, 0x00, 0x00, // to the refid
    0x00, 0x00, 0x00, 0x00, 0x00, 0x00, 0x00, 0x00, 0x00, 0x00, 0x00, 0x00, 0x00, 0x00, 0x00, 0x00, // to the origin
    0x00, 0x00, 0x00, 0x00, 0x00, 0x00, 0x00, 0x00, 0xd9, 0x0a, 0x33, 0x7c, 0x80, 0x00, 0x00, 0x00,
];

const NTPDATE_HEADER: Header = Header {
    leap: 3,
    version: 4,
    mode: 3,
    stratum: 0,
    poll: 4,
    precision: -6,
    root_delay: Short(65_536),
    root_disp: Short(65_536),
    refid: 0,
    reference: Stamp(0),
    origin: Stamp(0),
    receive: Stamp(0),
    transmit: Stamp(0xd90a_337c_8000_0000),
};

// A request as `ntpdate` lays it out: not synchronised, version 4, a poll of 16 s, a precision of 1/64 s. Root delay and root
// dispersion are a second each.
#[test]
fn a_request_of_ntpdate(rt: HostRuntime) {
    assert_spells(&rt, &BY_NTPDATE, &NTPDATE_HEADER);
}

fn by_timesyncd() -> [u8; 48] {
    let mut bytes = [0; 48];
    bytes[0] = 0x23;
    bytes[40..].copy_from_slice(&[0x66, 0xf8, 0x57, 0x26, 0xa4, 0x4f, 0x4b, 0x0e]);
    bytes
}

const TIMESYNCD_HEADER: Header = Header {
    leap: 0,
    version: 4,
    mode: 3,
    stratum: 0,
    poll: 0,
    precision: 0,
    root_delay: Short(0),
    root_disp: Short(0),
    refid: 0,
    reference: Stamp(0),
    origin: Stamp(0),
    receive: Stamp(0),
    transmit: Stamp(0x66f8_5726_a44f_4b0e),
};

// A request that `systemd-timesyncd` 252 sent: the version and the mode, and a random transmit timestamp.
#[test]
fn a_request_of_timesyncd(rt: HostRuntime) {
    assert_spells(&rt, &by_timesyncd(), &TIMESYNCD_HEADER);
}

const BY_A_SERVER: [u8; 48] = [
    0x64, 0x02, 0x0a, 0xe9, 0x00, 0x00, 0x01, 0x00, 0x00, 0x00, 0x02, 0x00, 0x0a, 0x00, 0x00, 0x01, // to the refid
    0xed, 0x00, 0xe0, 0x40, 0x00, 0x00, 0x00, 0x00, 0x11, 0x22, 0x33, 0x44, 0x55, 0x66, 0x77, 0x88, // to the origin
    0xed, 0x00, 0xe1, 0x31, 0x00, 0x00, 0x00, 0x01, 0xed, 0x00, 0xe1, 0x31, 0x00, 0x20, 0xc4, 0x9b,
];

const SERVER_HEADER: Header = Header {
    leap: 1,
    version: 4,
    mode: 4,
    stratum: 2,
    poll: 10,
    precision: -23,
    root_delay: Short(256),
    root_disp: Short(512),
    refid: (10 << 24) + 1,
    reference: Stamp(3_976_257_600 << 32),
    origin: Stamp(0x1122_3344_5566_7788),
    receive: Stamp((3_976_257_841 << 32) + 1),
    transmit: Stamp((3_976_257_841 << 32) + 0x0020_c49b),
};

// An answer of a server of stratum 2, decoded by hand. It has a leap second at the end of the day, a root delay of 1/256 s, a
// root dispersion of 1/128 s. Its clock was last set from 10.0.0.1 at noon of 2026-01-01. Each number has bytes of its own.
#[test]
fn an_answer_of_a_server(rt: HostRuntime) {
    assert_spells(&rt, &BY_A_SERVER, &SERVER_HEADER);
}

#[test]
fn a_header_has_48_bytes(rt: HostRuntime) {
    same(&rt, read(&[]), None);
    same(&rt, read(&[0x23; 47]), None);
    same(&rt, read(&[0x23; 48]), read(&[0x23; 68]));
    same(&rt, read(&[0x23; 68]).is_some(), true);
}
