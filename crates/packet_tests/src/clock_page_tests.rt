//! Pages, their words, and what they say of a moment.
ghost use Rattle.std.specs.Prelude.{pos, ◌≤ℤ◌, ◌<◌, ◌^◌};
ghost use Rattle.tick_units.specs.Units.{IsRate};

use crate::shared::{moment, same};
use clock_page::Page;
use std::process::Abort;
use tick_units::{Short, Span, Stamp};

// A server with one DCF77 radio, 302 s after its start, which receives nothing for ten minutes.
fn of_a_radio(offset: Span, leap_at: u64) -> Page
    requires { pos 0 ≤ℤ offset }
{
    with_rate(offset, leap_at, 0)
}

// The same, where the host's counter loses this many units a second.
fn with_rate(offset: Span, leap_at: u64, rate: i32) -> Page
    requires offset { pos 0 ≤ℤ offset }
    requires rate { IsRate rate }
{
    Page {
        length: 5,
        sync: true,
        stratum: 1,
        refid: 0x4443_4600,
        offset,
        anchor: moment(302_000_000),
        until: 902_000_000,
        root_delay: Short(0),
        root_disp: Short(61_542),
        reftime: Stamp(0xed00_e130_0000_0000),
        leap_at,
        rate,
    }
}

// The same, where the counter began 62 s before noon of 2026-01-01.
pub(crate) fn of_2026(leap_at: u64) -> Page {
    of_2026_with(leap_at, 0)
}

fn of_2026_with(leap_at: u64, rate: i32) -> Page
    requires { IsRate rate }
{
    with_rate(Span::from_seconds(3_976_257_538), leap_at, rate)
}

const WORDS: [u64; 10] = [
    5,
    0x0101_4443_4600,
    17_077_896_086_183_477_248,
    302_000_000,
    902_000_000,
    61_542,
    0xed00_e130_0000_0000,
    0,
    0,
    0,
];

// The same with another word at a place.
fn with_word(place: usize, word: u64) -> [u64; 10]
    requires { place < 10 }
{
    let mut words = WORDS;
    words[place] = word;
    words
}

// The page has these words, and these words are the page's.
fn spells(rt: &impl Abort, page: &Page, words: &[u64; 10]) {
    same(rt, page.to_words(), *words);
    same(rt, Page::of_words(*words), Some(*page));
}

#[test]
fn a_page_and_its_words(rt: HostRuntime) {
    spells(&rt, &of_2026(0), &WORDS);
}

// The words of a page that is not synchronised, and any rate.
fn unsynchronised_words(rate: u64) -> [u64; 10] {
    [
        4,
        0x494e_4954,
        0,
        242_000_000,
        0,
        0x0010_0000,
        0,
        0,
        0,
        rate,
    ]
}

#[test]
fn a_page_that_is_not_synchronised_and_its_words(rt: HostRuntime) {
    let page = Page::unsynchronised(4, moment(242_000_000));
    spells(&rt, &page, &unsynchronised_words(0));
}

// The ninth word and the third one, where the offset has two.
fn offset_words(page: &Page) -> (u64, u64) {
    let words = page.to_words();
    (words[8], words[2])
}

// An offset past 2^64 units has a high word.
#[test]
fn an_offset_of_two_words(rt: HostRuntime) {
    let page = of_a_radio(Span::from_seconds((1 << 32) + 7), 0);
    same(&rt, offset_words(&page), (1, 7 << 32));
    same(&rt, Page::of_words(page.to_words()), Some(page));
}

// A page that is not synchronised has no rate.
#[test]
fn a_rate_where_nothing_reports_the_time(rt: HostRuntime) {
    same(&rt, Page::of_words(unsynchronised_words(1)), None);
}

// The ninth word is the rate modulo 2^64.
#[test]
fn rates_and_their_words(rt: HostRuntime) {
    let page = of_2026_with(0, 2_147_483);
    spells(&rt, &page, &with_word(9, 2_147_483));
    let page = of_2026_with(0, -2_147_483);
    spells(&rt, &page, &with_word(9, 0xffff_ffff_ffdf_3b65));
    let page = of_2026_with(0, -1);
    same(&rt, Page::of_words(with_word(9, u64::MAX)), Some(page));
}

// At a moment a page gives this time, as its 64 bits.
fn reports(rt: &impl Abort, page: &Page, at: u64, bits: u64)
    requires { at < 2 ^ 50 }
{
    let found = page.time_at(moment(at));
    same(rt, (page.rate, at, found), (page.rate, at, Stamp(bits)));
}

// The counter loses 1, 53687 and 2147483 units a second, or gains as many: rounded down, from the anchor on and not before it.
#[test]
fn the_time_follows_the_rate(rt: HostRuntime) {
    let gains = of_2026_with(0, 53_687);
    let loses = of_2026_with(0, -53_687);
    reports(&rt, &gains, 301_000_000, 0xed00_e12f_0000_0000);
    reports(&rt, &loses, 301_000_000, 0xed00_e12f_0000_0000);
    reports(&rt, &gains, 302_000_000, 0xed00_e130_0000_0000);
    reports(&rt, &gains, 302_000_001, 0xed00_e130_0000_10c6);
    reports(&rt, &loses, 302_000_001, 0xed00_e130_0000_10c5);
    reports(&rt, &gains, 303_000_000, 0xed00_e131_0000_d1b7);
    reports(&rt, &loses, 303_000_000, 0xed00_e130_ffff_2e49);
    reports(&rt, &loses, 312_500_000, 0xed00_e13a_7ff7_65fe);
    let most = of_2026_with(0, 2_147_483);
    reports(&rt, &most, (1 << 50) - 1, 0x3025_558a_79a5_125d);
    let least = with_rate(Span::from(0), 0, -2_147_483);
    reports(&rt, &least, (1 << 50) - 1, 0x4313_477d_35c7_35c8);
}

// The leap indicator of a page at a moment.
fn warns(rt: &impl Abort, page: &Page, at: u64, indicator: u8)
    requires { at < 2 ^ 50 }
{
    let leap_at = page.leap_at;
    let found = page.leap_at_time(moment(at));
    same(rt, (leap_at, at, found), (leap_at, at, indicator));
}

// A counter that gains crosses a second later: the warning ends by the rate's time.
#[test]
fn a_warning_follows_the_rate(rt: HostRuntime) {
    let page = of_2026_with(3_976_257_841, -1);
    warns(&rt, &page, 303_000_000, 1);
    warns(&rt, &of_2026(3_976_257_841), 303_000_000, 0);
}

// The words with one word changed are no page's.
fn spells_no_page(rt: &impl Abort, place: usize, word: u64)
    requires { place < 10 }
{
    same(rt, Page::of_words(with_word(place, word)), None);
}

// One word changed: a word past its range, or a word of a page that says more than that it is not synchronised.
#[test]
fn words_of_no_page(rt: HostRuntime) {
    spells_no_page(&rt, 1, 0x0201_4443_4600);
    spells_no_page(&rt, 1, 0x0301_4443_4600);
    spells_no_page(&rt, 1, 0x0001_4443_4600);
    spells_no_page(&rt, 3, 1 << 50);
    spells_no_page(&rt, 8, 64);
    spells_no_page(&rt, 9, 2_147_484);
    spells_no_page(&rt, 9, 0xffff_ffff_ffdf_3b64);
    spells_no_page(&rt, 9, 1 << 63);
}

// Whether a page gives the time at a moment.
fn is_good(rt: &impl Abort, page: &Page, at: u64, good: bool)
    requires { at < 2 ^ 50 }
{
    same(rt, (at, page.synced_at(moment(at))), (at, good));
}

#[test]
fn a_page_is_good_until_its_moment(rt: HostRuntime) {
    let page = of_2026(0);
    is_good(&rt, &page, 901_999_999, true);
    is_good(&rt, &page, 902_000_000, false);
    warns(&rt, &page, 901_999_999, 0);
    warns(&rt, &page, 902_000_000, 3);
    reports(&rt, &page, 303_000_000, 0xed00_e131_0000_0000);
    reports(&rt, &page, 303_000_500, 0xed00_e131_0020_c49b);
}

// At 303 s it is second 3976257841 since 1900, and stays so for a whole second.
fn is_announced(rt: &impl Abort, leap_at: u64, indicator: u8) {
    warns(rt, &of_2026(leap_at), 303_999_999, indicator);
}

#[test]
fn a_leap_second_is_announced_for_a_day(rt: HostRuntime) {
    is_announced(&rt, 0, 0);
    is_announced(&rt, 3_976_257_840, 0);
    is_announced(&rt, 3_976_257_841, 0);
    is_announced(&rt, 3_976_257_842, 1);
    is_announced(&rt, 3_976_344_241, 1);
    is_announced(&rt, 3_976_344_242, 0);
}
