//! What a page says of a moment of the host's counter.
ghost use Rattle.std.specs.Prelude.{◌≡◌, ◌<◌, ◌^◌, pos, ◌+ℤ◌, ◌*ℤ◌, unsigned_abs};
ghost use Rattle.tick_units.specs.Units.{floor_div, stamp_of};
ghost use Rattle.clock_page.specs.Times as times;
ghost use Rattle.clock_page.specs.Times.{leap_indicator, leap_is_near, second_at};

use crate::Page;
use tick_units::{Local, Span, Stamp, UNSYNCHRONISED, local_span};

// A leap second is announced for a day before it.
const DAY: i128 = 86_400;

// A product of a rate.
fn times(rate: i32, count: u32) -> i64
    requires { count < 2 ^ 31 }
    ensures value { result ≡ rate *ℤ pos count }
    ensures small { unsigned_abs result < 2 ^ 62 }
{
    i64::from(rate) * i64::from(count)
}

// A product in millionths, rounded down.
#[tactic(auto, using(crate::proofs::SlewLaws::rest_small))]
fn millionths(product: i64) -> i64
    requires { unsigned_abs product < 2 ^ 62 }
    ensures value { result ≡ floor_div product (10 ^ 6) }
    ensures small { unsigned_abs result < 2 ^ 62 }
{
    product.div_euclid(1_000_000)
}

// How much the offset grows in this many microseconds, by whole seconds and the rest.
#[cold]
#[inline(never)]
fn grown_long(rate: i32, passed: u64) -> i64
    requires { passed < 2 ^ 50 }
    ensures value { result ≡ floor_div (rate *ℤ pos passed) (10 ^ 6) }
    ensures small { unsigned_abs result < 2 ^ 63 }
{
    let seconds = times(rate, (passed / 1_000_000) as u32);
    seconds + millionths(times(rate, (passed % 1_000_000) as u32))
}

// A product of a rate and less than this fits 64 bits: about 36 minutes, in microseconds.
const SHORT: u64 = 1 << 31;

// How much the offset grows in this many microseconds.
fn grown(rate: i32, passed: u64) -> i64
    requires { passed < 2 ^ 50 }
    ensures value { result ≡ floor_div (rate *ℤ pos passed) (10 ^ 6) }
    ensures small { unsigned_abs result < 2 ^ 63 }
{
    if passed < SHORT {
        millionths(times(rate, passed as u32))
    } else {
        grown_long(rate, passed)
    }
}

// The sum of two spans and what the offset has grown.
fn sum(offset: Span, grown: i64, counter: Span) -> i128
    ensures value { result ≡ (offset +ℤ grown) +ℤ counter }
    ensures small { unsigned_abs result < 2 ^ 72 }
{
    offset.get() + i128::from(grown) + counter.get()
}

// A number of units modulo 2^64.
fn low_word(units: i128) -> u64
    ensures { result ≡ stamp_of units }
{
    units.rem_euclid(1 << 64) as u64
}

// Whether a second is 1 to 86400 after another.
fn is_ahead(second: i128, leap_at: u64) -> bool
    requires { unsigned_abs second < 2 ^ 72 }
    ensures { result ≡ times.is_ahead second leap_at }
{
    let leap_at = i128::from(leap_at);
    second < leap_at && leap_at <= second + DAY
}

impl Page {
    // How much the offset has grown since the anchor.
    fn slew(&self, moment: Local) -> i64
        ensures { result ≡ times.slew self.now moment }
    {
        grown(self.rate, moment.get().saturating_sub(self.anchor.get()))
    }

    // The span since 1900 at a moment.
    fn span_at(&self, moment: Local) -> i128
        ensures value { result ≡ times.span_at self.now moment }
        ensures small { unsigned_abs result < 2 ^ 72 }
    {
        sum(self.offset, self.slew(moment), local_span(moment))
    }

    /// The time at a moment of the host's counter, as it stands on the wire.
    pub fn time_at(&self, moment: Local) -> Stamp
        ensures { result.0 ≡ times.time_at self.now moment }
    {
        Stamp(low_word(self.span_at(moment)))
    }

    /// Whether the page is synchronised at a moment.
    pub fn synced_at(&self, moment: Local) -> bool
        ensures { result ≡ times.synced_at self.now moment }
    {
        self.sync && moment.get() < self.until
    }

    /// The leap indicator at a moment: 0 no warning, 1 a leap second at most a day ahead, 3 not synchronised.
    pub fn leap_at_time(&self, moment: Local) -> u8
        ensures { result ≡ leap_indicator self.now moment }
    {
        if !self.synced_at(moment) {
            UNSYNCHRONISED
        } else if self.leap_is_near(moment) {
            1
        } else {
            0
        }
    }

    // The second at a moment, rounded down.
    fn second_at(&self, moment: Local) -> i128
        ensures value { result ≡ second_at self.now moment }
        ensures small { unsigned_abs result < 2 ^ 72 }
    {
        self.span_at(moment).div_euclid(1 << 32)
    }

    // Whether a leap second is announced and ends 1 to 86400 seconds after a moment.
    fn leap_is_near(&self, moment: Local) -> bool
        ensures { result ≡ leap_is_near self.now moment }
    {
        self.leap_at != 0 && is_ahead(self.second_at(moment), self.leap_at)
    }
}
