//! Tests of units, against values from outside.
ghost use Rattle.std.specs.Prelude.{◌<◌};

use std::fmt::Debug;
use std::process::Abort;
use tick_units::{
    END_OF_SUPPORTED, FIRST_SUPPORTED, LEAST_DISPERSION, Local, Plan, Short, Span, Stamp,
    is_supported, isqrt, local_span, phi, stamp_of, to_short,
};

// Does what `assert_eq!` does, as a call. In a test with many of them, calls are proved in a third of the time.
fn same<T: PartialEq + Debug + Drop>(rt: &impl Abort, left: T, right: T) {
    assert_eq!(*rt; left, right);
}

// The moment of `us` microseconds has `units` units, or is none.
fn has_units(rt: &impl Abort, us: u64, units: Option<i128>) {
    let found = match Local::new(us) {
        Some(moment) => Some(local_span(moment).get()),
        None => None,
    };
    same(rt, found, units);
}

// A second has 2^32 units, so 500 microseconds have 0x20c49b and a part of one.
#[test]
fn microseconds_are_rounded_down(rt: HostRuntime) {
    has_units(&rt, 0, Some(0));
    has_units(&rt, 500, Some(0x0020_c49b));
    has_units(&rt, 250_000, Some(1 << 30));
    has_units(&rt, 1_000_000, Some(1 << 32));
    has_units(&rt, 303_000_500, Some(303 * (1 << 32) + 0x0020_c49b));
    has_units(&rt, 1 << 50, None);
}

// 15 microseconds in a second, and 15 seconds in a million of them.
#[test]
fn drift_is_rounded_up(rt: HostRuntime) {
    is_span(&rt, phi(0), 0);
    is_span(&rt, phi(1), 1);
    is_span(&rt, phi(1_000_000), 64_425);
    is_span(&rt, phi(1_000_000_000_000), 15 << 32);
    is_span(&rt, phi(2_000_000_000_000), 30 << 32);
}

fn is_span(rt: &impl Abort, span: Span, units: i128) {
    same(rt, span.get(), units);
}

fn has_root(rt: &impl Abort, v: u128, root: u64) {
    same(rt, isqrt(v), root);
}

#[test]
fn roots_are_rounded_down(rt: HostRuntime) {
    has_root(&rt, 0, 0);
    has_root(&rt, 1, 1);
    has_root(&rt, 3, 1);
    has_root(&rt, 15, 3);
    has_root(&rt, 16, 4);
    has_root(&rt, 1 << 80, 1 << 40);
    has_root(&rt, u128::MAX, u64::MAX);
}

#[test]
fn shorts_are_rounded_up_and_capped(rt: HostRuntime) {
    same(&rt, to_short(Span::from(0)), Short(0));
    same(&rt, to_short(Span::from(65_536)), Short(1));
    same(&rt, to_short(Span::from(65_537)), Short(2));
    same(&rt, to_short(Span::from_seconds(1)), Short(0x0001_0000));
    same(&rt, to_short(Span::from_seconds(65_536)), Short(u32::MAX));
}

// The dates of RFC 5905, figure 4: seconds since 1900, and seconds of the era that they lie in.
#[test]
fn stamps_wrap_after_an_era(rt: HostRuntime) {
    let last_day_of_1899 = -Span::from_seconds(86_400);
    let first_day_of_unix = Span::from_seconds(2_208_988_800);
    let in_february_2036 = Span::from_seconds((1 << 32) + 63_104);
    same(&rt, stamp_of(last_day_of_1899), Stamp(4_294_880_896 << 32));
    same(&rt, stamp_of(first_day_of_unix), Stamp(2_208_988_800 << 32));
    same(&rt, stamp_of(in_february_2036), Stamp(63_104 << 32));
}

// The span of `units` units has the units and the size of `size`, or is none.
fn has_size(rt: &impl Abort, units: i128, size: Option<(i128, u128)>) {
    let found = match Span::new(units) {
        Some(span) => Some((span.get(), span.unsigned_abs())),
        None => None,
    };
    same(rt, found, size);
}

const GREATEST: i128 = (1 << 70) - 1;

#[test]
fn spans_are_below_their_bound(rt: HostRuntime) {
    has_size(&rt, GREATEST, Some((GREATEST, GREATEST as u128)));
    has_size(&rt, -GREATEST, Some((-GREATEST, GREATEST as u128)));
    has_size(&rt, 1 << 70, None);
    has_size(&rt, -(1 << 70), None);
}

fn is_number(rt: &impl Abort, left: u128, right: u128) {
    same(rt, left, right);
}

fn are_added(rt: &impl Abort) {
    let (five, seven) = (Span::from(5), Span::from(7));
    is_span(rt, five + seven, 12);
    is_span(rt, five - seven, -2);
    is_number(rt, five.abs_diff(-seven), 12);
    is_span(rt, Span::from(Short(3)), 3 * 65_536);
}

fn are_squared(rt: &impl Abort) {
    is_number(rt, Span::from(5).squared_apart(-Span::from(7)), 144);
    let long = Span::from_seconds(255).squared_apart(Span::from(0));
    is_number(rt, long, (255 << 32) * (255 << 32));
    let longer = Span::from_seconds(257).squared_apart(Span::from(0));
    is_number(rt, longer, 1 << 80);
}

fn are_ordered(rt: &impl Abort) {
    let (five, seven) = (Span::from(5), Span::from(7));
    is_span(rt, five.min(-seven), -7);
    is_span(rt, five.max(-seven), 5);
    assert!(*rt; -seven < five);
}

fn are_halved(rt: &impl Abort) {
    let five = Span::from(5);
    is_span(rt, five.halved_down(1), 2);
    is_span(rt, five.halved_up(1), 3);
    is_span(rt, (-five).halved_down(1), -3);
    is_span(rt, (-five).halved_up(1), -2);
}

#[test]
fn spans_are_reckoned_with(rt: HostRuntime) {
    are_added(&rt);
    are_squared(&rt);
    are_ordered(&rt);
    are_halved(&rt);
}

// The span of `units` units, halved `times` times, has `half` units.
fn has_half(rt: &impl Abort, units: i128, times: u32, half: i128)
    requires { times < 64 }
{
    let found = match Span::new(units) {
        Some(span) => Some(span.halved_up(times).get()),
        None => None,
    };
    same(rt, found, Some(half));
}

// Around 2^64 units, from where on a span takes more than 64 bits, and around 0.
#[test]
fn halves_are_rounded_up_on_both_sides_of_64_bits(rt: HostRuntime) {
    has_half(&rt, 0, 1, 0);
    has_half(&rt, 1, 1, 1);
    has_half(&rt, 1, 63, 1);
    has_half(&rt, 4, 1, 2);
    has_half(
        &rt,
        18_446_744_073_709_551_615,
        1,
        9_223_372_036_854_775_808,
    );
    has_half(
        &rt,
        18_446_744_073_709_551_616,
        1,
        9_223_372_036_854_775_808,
    );
    has_half(
        &rt,
        18_446_744_073_709_551_617,
        1,
        9_223_372_036_854_775_809,
    );
    has_half(&rt, 18_446_744_073_709_551_615, 63, 2);
    has_half(&rt, 18_446_744_073_709_551_617, 63, 3);
}

// The word stands for this plan, or for none.
fn names(rt: &impl Abort, word: &str, plan: Option<Plan>) {
    same(rt, Plan::of_word(word), plan);
}

// The plan has this word and these letters.
fn has_word(rt: &impl Abort, plan: Plan, word: &str, letters: [u8; 4]) {
    same(rt, plan.word(), word);
    names(rt, word, Some(plan));
    same(rt, plan.reference_id(), u32::from_be_bytes(letters));
}

// The letters of RFC 5905, section 7.3, figure 12, as ASCII has them.
#[test]
fn plans_have_words_and_letters(rt: HostRuntime) {
    has_word(&rt, Plan::Dcf, "dcf", [68, 67, 70, 0]);
    has_word(&rt, Plan::Msf, "msf", [77, 83, 70, 0]);
    has_word(&rt, Plan::Wwvb, "wwvb", [87, 87, 86, 66]);
    names(&rt, "", None);
    names(&rt, "DCF", None);
    names(&rt, "dcf77", None);
    names(&rt, "dc", None);
    names(&rt, "wwv", None);
    names(&rt, "wwvb ", None);
    names(&rt, "gps", None);
}

// Whether a second is told.
fn is_in_century(rt: &impl Abort, second: u64, supported: bool) {
    same(rt, is_supported(second), supported);
}

// RFC 5905, figure 4, has the last day of 1999; from 2000 on, 100 years have 36525 days.
#[test]
fn seconds_are_supported_in_a_century(rt: HostRuntime) {
    same(&rt, FIRST_SUPPORTED, 3_155_587_200);
    same(
        &rt,
        END_OF_SUPPORTED,
        FIRST_SUPPORTED + (1 + 36_525 + 2) * 86_400,
    );
    is_in_century(&rt, 0, false);
    is_in_century(&rt, FIRST_SUPPORTED - 1, false);
    is_in_century(&rt, FIRST_SUPPORTED, true);
    is_in_century(&rt, END_OF_SUPPORTED - 1, true);
    is_in_century(&rt, END_OF_SUPPORTED, false);
}

#[test]
fn the_least_dispersion_is_5_ms(rt: HostRuntime) {
    same(&rt, LEAST_DISPERSION, (5u64 << 32).div_ceil(1000));
}
