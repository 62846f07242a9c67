//! Quotients of units: which way each is rounded.
ghost use Rattle.std.specs.Prelude.{◌≡◌, ◌<◌, ◌^◌, pos, ◌≤ℤ◌};
ghost use Rattle.tick_units.specs.Units as units;
ghost use Rattle.tick_units.specs.Units.{IsRoot};

use crate::{Local, Short, Span, Stamp};

/// The least dispersion that a source counts as having, 5 ms in units of 2^-32 s, rounded up (MINDISP of RFC 5905, section
/// 11).
pub const LEAST_DISPERSION: u64 = 21_474_837;

/// The most that a rate is, either way: 500 parts per million, in units of 2^-32 s a second (MAXFREQ of RFC 5905, appendix
/// A.1.1).
pub const MOST_RATE: i32 = 2_147_483;

/// The leap indicator of a server that is not synchronised (RFC 5905, section 7.3).
pub const UNSYNCHRONISED: u8 = 3;

/// The span of a moment of the host's counter, rounded down.
pub fn local_span(moment: Local) -> Span
    ensures { result ≡ pos (units.local_span moment) }
{
    let seconds = moment.get() / 1_000_000;
    let rest = moment.get() % 1_000_000;
    Span::from((seconds << 32) + (rest << 32) / 1_000_000)
}

/// What the host's counter may drift in `DRIFT_MICROSECONDS`, in units of 2^-32 s: 15 parts per million (PHI of RFC 5905, appendix
/// A.1.1).
pub const DRIFT_UNITS: u64 = 3 << 20;

/// A microsecond has 15 * 2^32 / 10^12 units of drift, which is 3 * 2^20 / 5^11.
pub const DRIFT_MICROSECONDS: u64 = 48_828_125;

// Below this many microseconds, 12 days, the product has 64 bits.
const SOON: u64 = 1 << 40;

/// How far the host's counter may drift in this many microseconds: 15 parts per million, rounded up.
#[inline]
pub fn phi(microseconds: u64) -> Span
    requires { microseconds < 2 ^ 52 }
    ensures { result ≡ pos (units.phi microseconds) }
{
    if microseconds < SOON {
        Span::from((microseconds * DRIFT_UNITS + (DRIFT_MICROSECONDS - 1)) / DRIFT_MICROSECONDS)
    } else {
        let whole = microseconds / DRIFT_MICROSECONDS * DRIFT_UNITS;
        let rest = (microseconds % DRIFT_MICROSECONDS * DRIFT_UNITS).div_ceil(DRIFT_MICROSECONDS);
        Span::from(whole + rest)
    }
}

/// The square root, rounded down.
#[tactic(auto, using(crate::proofs::RootLaws::root_from))]
pub fn isqrt(value: u128) -> u64
    ensures value { result ≡ units.root value }
    ensures root { IsRoot value result }
{
    value.isqrt() as u64
}

/// The least short that is at least a span, or the greatest short where none is.
pub fn to_short(span: Span) -> Short
    requires { pos 0 ≤ℤ span }
    ensures { result.0 ≡ units.to_short span }
{
    let least = span.unsigned_abs().div_ceil(1 << 16);
    Short(least.min(u128::from(u32::MAX)) as u32)
}

/// A span since 1900 as it stands on the wire, modulo 2^64.
pub fn stamp_of(span: Span) -> Stamp
    ensures { result.0 ≡ units.stamp_of span }
{
    Stamp(span.get().rem_euclid(1 << 64) as u64)
}
