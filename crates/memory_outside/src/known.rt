//! Inputs that many tests share, each computed from the public description of its code or protocol.

/// The places that are One in a frame of DCF77, by PTB's table and the calendar: 1 January 2026, 13:00 CET. It announces 12:00 UTC, which is
/// second 3976257600 since 1900.
pub const NOON_0: [usize; 12] = [18, 20, 29, 30, 33, 35, 36, 44, 45, 51, 52, 55];

/// Those of the next frame, 13:01 CET.
pub const NOON_1: [usize; 14] = [18, 20, 21, 28, 29, 30, 33, 35, 36, 44, 45, 51, 52, 55];

/// Those of the five frames from 13:00 to 13:04 CET.
pub const NOON: [&[usize]; 5] = [
    &NOON_0,
    &NOON_1,
    &[18, 20, 22, 28, 29, 30, 33, 35, 36, 44, 45, 51, 52, 55],
    &[18, 20, 21, 22, 29, 30, 33, 35, 36, 44, 45, 51, 52, 55],
    &[18, 20, 23, 28, 29, 30, 33, 35, 36, 44, 45, 51, 52, 55],
];

/// A client's request of version 4 with a poll of 64 s, sent at 0x1122334455667788 by its clock (RFC 5905, section 7.3).
pub const REQUEST: [u8; 48] = [
    0x23, 0x00, 0x06, 0xec, 0x00, 0x00, 0x00, 0x00, 0x00, 0x00, 0x00, 0x00, 0x00, 0x00, 0x00, 0x00, // to the refid
    0x00, 0x00, 0x00, 0x00, 0x00, 0x00, 0x00, 0x00, 0x00, 0x00, 0x00, 0x00, 0x00, 0x00, 0x00, 0x00, // to the origin
    0x00, 0x00, 0x00, 0x00, 0x00, 0x00, 0x00, 0x00, 0x11, 0x22, 0x33, 0x44, 0x55, 0x66, 0x77, 0x88,
];

/// The answer of a server of stratum 2 to the request of a counter that has run for 1 s. It came at 2026-01-01 12:04:01 UTC and was answered
/// half a millisecond later (RFC 5905, section 7.3).
pub const ANSWER: [u8; 48] = [
    0x24, 0x02, 0x06, 0xec, 0x00, 0x00, 0x01, 0x00, 0x00, 0x00, 0x02, 0x00, 0x0a, 0x00, 0x00, 0x01, // to the refid
    0x00, 0x00, 0x00, 0x00, 0x00, 0x00, 0x00, 0x00, 0x80, 0x00, 0x00, 0x01, 0x00, 0x00, 0x00, 0x00, // to the origin
    0xed, 0x00, 0xe1, 0x31, 0x00, 0x00, 0x00, 0x00, 0xed, 0x00, 0xe1, 0x31, 0x00, 0x20, 0xc4, 0x9b,
];

/// The bytes of `REQUEST` in hexadecimal digits, as scripts have them.
pub const REQUEST_DIGITS: &str =
    "230006ec0000000000000000000000000000000000000000000000000000000000000000000000001122334455667788";

/// The bytes of `ANSWER` in hexadecimal digits.
pub const ANSWER_DIGITS: &str =
    "240206ec00000100000002000a00000100000000000000008000000100000000ed00e13100000000ed00e1310020c49b";
