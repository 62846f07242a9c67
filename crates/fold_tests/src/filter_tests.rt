//! Samples of a source and what they say, on numbers that can be computed by hand.
ghost use Rattle.std.specs.Prelude.{◌≤◌, ◌<◌, ◌^◌};

use crate::shared::{moment, same};
use clock_filter::{Figures, Filter, distance, is_fit, root_delay, root_dispersion};
use std::process::Abort;
use tick_units::{Local, Sample, Short, Span, local_span};

// A minute of a DCF77 radio, which is known to 1 ms.
fn of_a_radio(at: Local, second: u32) -> Sample {
    Sample {
        offset: Span::from_seconds(u64::from(second)) - local_span(at),
        delay: Span::from(0),
        dispersion: Span::from(4_294_968),
        stratum: 0,
        address: 0,
        root_delay: Short(0),
        root_disp: Short(0),
    }
}

// An exchange with a server on this host.
fn of_a_server(offset: Span, delay: Span, dispersion: Span) -> Sample {
    Sample {
        offset,
        delay,
        dispersion,
        stratum: 2,
        address: 0x7f00_0001,
        root_delay: Short(256),
        root_disp: Short(512),
    }
}

// Adds an exchange at a second of the counter. Its dispersion is 8 units.
fn add_exchange(filter: &mut Filter, second: u16, offset: u64, delay: u64) {
    let sample = of_a_server(Span::from(offset), Span::from(delay), Span::from(8));
    filter.add(moment(u64::from(second) * 1_000_000), sample);
}

// Four minutes of a DCF77 radio, from 2026-01-01 12:01 UTC on.
fn of_four_minutes() -> Filter {
    of_four_minutes_from(0)
}

// The same, of a filter that looks from a cut on.
fn of_four_minutes_from(cut: u64) -> Filter {
    let mut filter = Filter::new();
    filter.look_from(cut);
    for minute in 0u32..4 {
        let at = moment(122_000_000 + 60_000_000 * u64::from(minute));
        filter.add(at, of_a_radio(at, 3_976_257_660 + 60 * minute));
    }
    filter
}

fn figures_at(rt: &impl Abort, filter: &Filter, cut: u64) -> Figures {
    filter.figures(cut).expect(rt, "no sample is held")
}

// What a filter says, as numbers.
fn offset_of(f: &Figures) -> i128 {
    f.offset.get()
}

fn delay_of(f: &Figures) -> i128 {
    f.delay.get()
}

fn dispersion_of(f: &Figures) -> i128 {
    f.dispersion.get()
}

fn taken_at(f: &Figures) -> u64 {
    f.taken_at.get()
}

fn newest_of(f: &Figures) -> u64 {
    f.newest.get()
}

// How far the source is, its root delay and dispersion, and whether it is fit.
#[derive(Clone, Copy)]
struct Standing {
    distance: i128,
    root_delay: i128,
    root_dispersion: i128,
    fit: bool,
}

// How a source stands at a moment, in microseconds.
fn standing_at(rt: &impl Abort, f: &Figures, microseconds: u64) -> Standing
    requires { microseconds < 2 ^ 50 }
{
    let longest = 1 << 68;
    let now = moment(microseconds);
    if now < f.newest || f.newest < f.taken_at {
        panic!(*rt; "a moment before its samples");
    }
    if f.delay.unsigned_abs() > longest || f.dispersion.unsigned_abs() > longest {
        panic!(*rt; "too far");
    }
    Standing {
        distance: distance(f, now).get(),
        root_delay: root_delay(f).get(),
        root_dispersion: root_dispersion(f, now).get(),
        fit: is_fit(f, now),
    }
}

#[test]
fn minutes_of_a_radio(rt: HostRuntime) {
    let figures = figures_at(&rt, &of_four_minutes(), 0);
    same(&rt, offset_of(&figures), 17_077_896_086_183_477_248);
    same(&rt, delay_of(&figures), 0);
    same(&rt, dispersion_of(&figures), 4_033_215_885);
    same(&rt, figures.jitter2, 0);
    same(&rt, taken_at(&figures), 302_000_000);
    same(&rt, newest_of(&figures), 302_000_000);
    same(&rt, (figures.stratum, figures.address), (0, 0));
    let now = standing_at(&rt, &figures, 302_000_000);
    same(&rt, now.distance, 4_043_953_304);
    same(&rt, now.fit, true);
    let later = standing_at(&rt, &figures, 902_000_000);
    same(&rt, later.distance, 4_082_608_010);
}

// A cut, and the dispersion of what a filter says from it on.
type Cut = (u64, i128);

// A sample from the cut itself is held, but not one from a microsecond before it; stages without a sample count as 16 s.
const CUTS: [Cut; 4] = [
    (182_000_000, 8_327_189_969),
    (182_000_001, 16_915_621_322),
    (242_000_000, 16_915_621_322),
    (302_000_000, 34_093_450_396),
];

// Looking from a cut on, a filter has this dispersion.
fn has_dispersion(rt: &impl Abort, filter: &Filter, cut: u64, dispersion: i128) {
    let found = dispersion_of(&figures_at(rt, filter, cut));
    same(rt, (cut, found), (cut, dispersion));
}

fn has_dispersions(rt: &impl Abort, filter: &Filter, cuts: &[Cut]) {
    for (cut, dispersion) in cuts {
        has_dispersion(rt, filter, *cut, *dispersion);
    }
}

// The same before and after the filter looks from each cut.
fn looks_from(rt: &impl Abort, filter: &mut Filter, cuts: &[Cut]) {
    for (cut, dispersion) in cuts {
        has_dispersion(rt, filter, *cut, *dispersion);
        filter.look_from(*cut);
        has_dispersion(rt, filter, *cut, *dispersion);
    }
}

fn may_look_from(rt: &impl Abort, from: u64, dispersion: i128, cuts: &[Cut]) {
    let mut filter = of_four_minutes_from(from);
    has_dispersion(rt, &filter, from, dispersion);
    looks_from(rt, &mut filter, cuts);
    filter.look_from(302_000_001);
    same(rt, (from, filter.figures(302_000_001)), (from, None));
}

// Whichever cut a filter looks from, before its samples came or after them, it gives for each cut what it says.
#[test]
fn a_filter_may_look_from_any_cut(rt: HostRuntime) {
    may_look_from(&rt, 182_000_000, 8_327_189_969, &CUTS);
    may_look_from(&rt, 182_000_001, 16_915_621_322, &CUTS);
    may_look_from(&rt, 242_000_000, 16_915_621_322, &CUTS);
    may_look_from(&rt, 302_000_000, 34_093_450_396, &CUTS);
}

// The filter holds nothing from the cut on.
fn is_empty_from(rt: &impl Abort, filter: &Filter, cut: u64) {
    same(rt, filter.figures(cut), None);
}

#[test]
fn a_cut_leaves_stages_empty(rt: HostRuntime) {
    let filter = of_four_minutes();
    has_dispersions(&rt, &filter, &CUTS);
    is_empty_from(&rt, &filter, 302_000_001);
    is_empty_from(&rt, &Filter::new(), 0);
}

fn of_one_minute() -> Filter {
    let mut filter = Filter::new();
    let at = moment(122_000_000);
    filter.add(at, of_a_radio(at, 3_976_257_660));
    filter
}

#[test]
fn one_sample_has_no_jitter(rt: HostRuntime) {
    let figures = figures_at(&rt, &of_one_minute(), 0);
    same(&rt, figures.jitter2, 0);
    same(&rt, dispersion_of(&figures), 34_093_450_396);
    let now = standing_at(&rt, &figures, 122_000_000);
    same(&rt, now.distance, 34_104_187_815);
    same(&rt, now.fit, false);
}

// The best sample is the one of least delay, and of two such the later one. The others are 30, 20 and 10 units apart from it:
// 1400 / 3.
#[test]
fn the_later_of_equal_delays_comes_first(rt: HostRuntime) {
    let mut filter = Filter::new();
    add_exchange(&mut filter, 1, 1000, 30);
    add_exchange(&mut filter, 2, 1010, 10);
    add_exchange(&mut filter, 3, 1020, 20);
    add_exchange(&mut filter, 4, 1030, 10);
    let figures = figures_at(&rt, &filter, 0);
    same(&rt, offset_of(&figures), 1030);
    same(&rt, delay_of(&figures), 10);
    same(&rt, taken_at(&figures), 4_000_000);
    same(&rt, figures.jitter2, 466);
    same(&rt, dispersion_of(&figures), 4_026_584_195);
}

// A server's own delay and dispersion are part of its distance.
#[test]
fn an_exchange_with_a_server(rt: HostRuntime) {
    let mut filter = Filter::new();
    add_exchange(&mut filter, 4, 1030, 30_000_000);
    let figures = figures_at(&rt, &filter, 0);
    same(&rt, (figures.stratum, figures.address), (2, 0x7f00_0001));
    let now = standing_at(&rt, &figures, 5_000_000);
    same(&rt, now.root_delay, 46_777_216);
    same(&rt, now.root_dispersion, 34_124_921_773);
    same(&rt, now.distance, 34_148_310_381);
}

// Adds eight exchanges from a second on. At second `n` the offset is 1000 + n units, and the delay 100 - n.
fn add_eight(filter: &mut Filter, from: u16)
    requires { from ≤ 2 }
{
    for number in 0u16..8 {
        let second = from + number;
        let further = u64::from(second);
        add_exchange(filter, second, 1000 + further, 100 - further);
    }
}

// The first of nine samples is gone, though its delay is the least.
#[test]
fn the_last_eight_count(rt: HostRuntime) {
    let mut filter = Filter::new();
    add_exchange(&mut filter, 1, 1001, 5);
    add_eight(&mut filter, 2);
    let figures = figures_at(&rt, &filter, 0);
    same(&rt, delay_of(&figures), 91);
    same(&rt, figures.jitter2, 20);
    same(&rt, dispersion_of(&figures), 62_172);
}

// The eight are taken first: a ninth that is not from before the cut does not come back.
#[test]
fn the_cut_comes_after_the_eight(rt: HostRuntime) {
    let mut filter = Filter::new();
    add_exchange(&mut filter, 9, 7, 1);
    add_eight(&mut filter, 1);
    is_empty_from(&rt, &filter, 9_000_000);
    let figures = figures_at(&rt, &filter, 8_000_000);
    same(&rt, offset_of(&figures), 1008);
    same(&rt, dispersion_of(&figures), 34_091_302_916);
}

// The greatest span.
fn most() -> Span {
    Span::new((1 << 70) - 1).unwrap()
}

// Offsets and dispersions at their bounds, once up and once down, four times.
fn of_the_widest() -> Filter {
    let (none, most) = (Span::from(0), most());
    let mut filter = Filter::new();
    for second in 0u64..4 {
        let at = moment(2_000_000 * second + 1_000_000);
        filter.add(at, of_a_server(most, none, most));
        let next = moment(2_000_000 * second + 2_000_000);
        filter.add(next, of_a_server(-most, none, -most));
    }
    filter
}

// Adds a sample of the least offset and the greatest dispersion at 40 s.
fn add_widest(filter: &mut Filter) {
    let sample = of_a_server(-most(), Span::from(0), most());
    filter.add(moment(40_000_000), sample);
}

#[test]
fn the_widest_samples_are_counted(rt: HostRuntime) {
    let mut filter = of_the_widest();
    let figures = figures_at(&rt, &filter, 0);
    same(&rt, dispersion_of(&figures), -783_986_623_109_838_902_738);
    same(&rt, figures.jitter2, 690_814_754_065_502_385_546_386);
    same(&rt, figures.rate, 0);
    add_widest(&mut filter);
    add_widest(&mut filter);
    same(&rt, figures_at(&rt, &filter, 3_000_000).rate, -2_147_483);
}

fn of_the_lowest() -> Filter {
    let (none, least) = (Span::from(0), -most());
    let mut filter = Filter::new();
    for second in 1u64..9 {
        let at = moment(1_000_000 * second);
        filter.add(at, of_a_server(none, none, least));
    }
    filter
}

#[test]
fn the_lowest_dispersions_are_counted(rt: HostRuntime) {
    let figures = figures_at(&rt, &of_the_lowest(), 0);
    let lowest = -1_175_979_934_698_983_853_355;
    same(&rt, dispersion_of(&figures), lowest);
}

// The first moment and the last one.
fn of_the_longest_time() -> Filter {
    let none = Span::from(0);
    let mut filter = Filter::new();
    filter.add(moment(0), of_a_server(none, none, none));
    let last = moment((1 << 50) - 1);
    filter.add(last, of_a_server(none, Span::from(1), none));
    filter
}

// The best sample is as old as possible.
#[test]
fn the_longest_time_is_counted(rt: HostRuntime) {
    let figures = figures_at(&rt, &of_the_longest_time(), 0);
    same(&rt, newest_of(&figures), (1 << 50) - 1);
    same(&rt, taken_at(&figures), 0);
    same(&rt, dispersion_of(&figures), 51_271_172_096);
    let now = standing_at(&rt, &figures, (1 << 50) - 1);
    same(&rt, now.distance, 72_586_864_640_825);
}

// A source of this dispersion and this stratum, which was read at 7 s.
fn of_dispersion(dispersion: u64, stratum: u8) -> Figures {
    let at = moment(7_000_000);
    Figures {
        offset: Span::from(0),
        delay: Span::from(0),
        dispersion: Span::from(dispersion),
        jitter2: 0,
        taken_at: at,
        newest: at,
        stratum,
        address: 0,
        root_delay: Short(0),
        root_disp: Short(0),
        rate: 0,
    }
}

fn stands(rt: &impl Abort, dispersion: u64, stratum: u8, fit: bool) {
    let now = standing_at(rt, &of_dispersion(dispersion, stratum), 7_000_000);
    same(
        rt,
        (dispersion, stratum, now.fit),
        (dispersion, stratum, fit),
    );
}

// At 1 s a source is fit, and a unit farther it is not; nor is one of stratum 15. Half of the least delay is 10737419 units.
#[test]
fn a_source_is_fit_to_a_second(rt: HostRuntime) {
    let farthest = (1 << 32) - 10_737_419;
    stands(&rt, farthest, 14, true);
    stands(&rt, farthest + 1, 14, false);
    stands(&rt, 0, 15, false);
    stands(&rt, 0, 0, true);
}

// The rate where the offset is the first number of units, and then the second number this many microseconds later.
fn rate_after(rt: &impl Abort, apart: u32, before: u64, after: u64) -> i32 {
    let none = Span::from(0);
    let mut filter = Filter::new();
    let first = of_a_server(Span::from(before), none, none);
    filter.add(moment(1_000_000), first);
    let second = of_a_server(Span::from(after), none, none);
    filter.add(moment(1_000_000 + u64::from(apart)), second);
    figures_at(rt, &filter, 0).rate
}

fn has_rate(rt: &impl Abort, apart: u32, before: u64, after: u64, rate: i32) {
    let found = rate_after(rt, apart, before, after);
    same(
        rt,
        (apart, before, after, found),
        (apart, before, after, rate),
    );
}

// Units a second, rounded down; the samples have to span at least 30 s.
#[test]
fn a_rate_is_rounded_down(rt: HostRuntime) {
    has_rate(&rt, 29_999_999, 1_000, 901_000, 0);
    has_rate(&rt, 30_000_000, 1_000, 901_000, 30_000);
    has_rate(&rt, 30_000_001, 1_000, 901_000, 29_999);
    has_rate(&rt, 30_000_000, 1_000, 1_029, 0);
    has_rate(&rt, 30_000_000, 1_000, 1_030, 1);
    has_rate(&rt, 30_000_000, 1_000, 999, -1);
    has_rate(&rt, 30_000_000, 1_000, 970, -1);
    has_rate(&rt, 30_000_000, 1_000, 969, -2);
}

// The offset is 100000000 units, and 30 s later another one.
fn has_rate_in_30_s(rt: &impl Abort, after: u64, rate: i32) {
    has_rate(rt, 30_000_000, 100_000_000, after, rate);
}

// 500 parts per million of 2^32 are 2147483.6.
#[test]
fn a_rate_is_held_to_its_bound(rt: HostRuntime) {
    let before = 100_000_000;
    has_rate_in_30_s(&rt, before + 64_424_489, 2_147_482);
    has_rate_in_30_s(&rt, before + 64_424_490, 2_147_483);
    has_rate_in_30_s(&rt, before + 64_424_520, 2_147_483);
    has_rate_in_30_s(&rt, 1 << 62, 2_147_483);
    has_rate_in_30_s(&rt, before - 64_424_460, -2_147_482);
    has_rate_in_30_s(&rt, before - 64_424_490, -2_147_483);
    has_rate_in_30_s(&rt, before - 64_424_491, -2_147_483);
    has_rate(&rt, 30_000_000, 1 << 63, 0, -2_147_483);
}

// Of equal moments the first counts at the beginning and the last at the end, whatever their delays and order: 6000 units in 30
// s.
#[test]
fn a_rate_is_from_the_first_moment_to_the_last(rt: HostRuntime) {
    let mut filter = Filter::new();
    add_exchange(&mut filter, 31, 5_000, 1);
    add_exchange(&mut filter, 1, 1_000, 9);
    add_exchange(&mut filter, 1, 2_000, 2);
    add_exchange(&mut filter, 16, 9_000, 4);
    add_exchange(&mut filter, 31, 7_000, 9);
    add_exchange(&mut filter, 16, 3_000, 1);
    same(&rt, figures_at(&rt, &filter, 0).rate, 200);
}

// Adds eight exchanges, a minute apart.
fn add_eight_minutes(filter: &mut Filter) {
    for minute in 1u16..9 {
        let further = u64::from(minute);
        add_exchange(filter, 60 * minute, 60_000 * further * further, 1);
    }
}

// The first of nine samples, and those from before the cut, give no rate.
#[test]
fn a_rate_is_of_the_held_samples(rt: HostRuntime) {
    let mut filter = Filter::new();
    add_exchange(&mut filter, 1, 1_000_000, 1);
    add_eight_minutes(&mut filter);
    same(&rt, figures_at(&rt, &filter, 0).rate, 9_000);
    same(&rt, figures_at(&rt, &filter, 420_000_000).rate, 15_000);
    same(&rt, figures_at(&rt, &filter, 420_000_001).rate, 0);
}
