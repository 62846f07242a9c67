//! Figures of exchanges at the bounds of their fields.
use crate::poll_core_tests::{
    DELAY, DISPERSION, OFFSET, RECEIVE, SERVER, TRANSMIT, answered, sample, with,
};
use crate::shared::same;
use poll_core::PollRefusal;
use std::process::Abort;
use tick_units::{Sample, Span};

// Where further fields of a header begin.
const PRECISION: usize = 3;

// The root dispersion follows it.
const ROOT_DELAY: usize = 4;

// The answer with this precision has this dispersion.
fn has_dispersion(rt: &impl Abort, precision: i8, dispersion: u64) {
    let found = answered(SERVER, &with(PRECISION, &[precision.cast_unsigned()]));
    let wanted = Ok(sample(OFFSET, DELAY, dispersion));
    same(rt, (precision, found), (precision, wanted));
}

#[test]
fn the_precision_has_bounds(rt: HostRuntime) {
    has_dispersion(&rt, -128, 4_742);
    has_dispersion(&rt, -33, 4_742);
    has_dispersion(&rt, -32, 4_742);
    has_dispersion(&rt, -31, 4_743);
    has_dispersion(&rt, -20, DISPERSION);
    has_dispersion(&rt, 4, 68_719_481_477);
    has_dispersion(&rt, 5, 68_719_481_477);
    has_dispersion(&rt, 127, 68_719_481_477);
}

// The offset of the answer whose receive and transmit timestamps are both this second.
fn offset_at(second: u32) -> Result<i128, PollRefusal> {
    let [a, b, c, d] = second.to_be_bytes();
    let bytes = with(RECEIVE, &[a, b, c, d, 0, 0, 0, 0, a, b, c, d]);
    match answered(SERVER, &bytes) {
        Ok(sample) => Ok(sample.offset.get()),
        Err(refusal) => Err(refusal),
    }
}

// The first era ends at 2036-02-07 06:28:16, and the seconds before 2000-01-01 are the second era's.
#[test]
fn eras(rt: HostRuntime) {
    same(&rt, offset_at(0xffff_ffff), Ok(18_446_744_065_099_215_929));
    same(&rt, offset_at(0x0000_0001), Ok(18_446_744_073_689_150_521));
    same(&rt, offset_at(0xbc17_c1ff), Ok(32_000_258_973_949_801_529));
    same(&rt, offset_at(0xbc17_c200), Ok(13_553_514_904_535_217_209));
}

// The server says that it kept the request for longer than the exchange took.
#[test]
fn a_delay_has_a_floor(rt: HostRuntime) {
    let found = answered(SERVER, &with(TRANSMIT, &[0xed, 0x00, 0xe1, 0x32]));
    same(&rt, delay_of(found), Ok(Span::from(4_096)));
}

fn delay_of(found: Result<Sample, PollRefusal>) -> Result<Span, PollRefusal> {
    match found {
        Ok(sample) => Ok(sample.delay),
        Err(refusal) => Err(refusal),
    }
}

// Whether the answer is refused that has this root delay and this root dispersion.
fn is_far(rt: &impl Abort, root_delay: u32, root_disp: u32, is_far: bool) {
    let [a, b, c, d] = root_delay.to_be_bytes();
    let [e, f, g, h] = root_disp.to_be_bytes();
    let bytes = with(ROOT_DELAY, &[a, b, c, d, e, f, g, h]);
    let found = answered(SERVER, &bytes).is_err();
    same(
        rt,
        (root_delay, root_disp, found),
        (root_delay, root_disp, is_far),
    );
}

// Half of the root delay counts, and not half of the sum.
#[test]
fn sixteen_seconds_are_too_far(rt: HostRuntime) {
    is_far(&rt, 0x001f_ffff, 0, false);
    is_far(&rt, 0x0020_0000, 0, true);
    is_far(&rt, 0x0000_0001, 0x000f_ffff, false);
    is_far(&rt, 0x0000_0002, 0x000f_ffff, true);
    is_far(&rt, 0xffff_ffff, 0xffff_ffff, true);
}
