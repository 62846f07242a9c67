//! The ten words of a page, and the page of ten words.
ghost use Rattle.std.specs.Prelude.{◌≡◌, ◌+◌, ◌*◌, ◌-◌, ◌/◌, ◌%◌, ◌^◌, ◌<◌, ◌≤◌, pos, IfSome, IfNone, Some, slice_index};
ghost use Rattle.std.specs.Int.{from_bool};
ghost use Rattle.tick_units.specs.Units.{IsRate, most_rate};
ghost use Rattle.clock_page.specs.Page as pages;
ghost use Rattle.clock_page.specs.Page.{AreWords, IsPage, PageFields, words};

use crate::Page;
use tick_units::{Local, MOST_RATE, Short, Span, Stamp, stamp_of};

/// How many words a page has.
pub const WORDS: usize = 10;

// A number in a word of its own.
fn whole(n: u64) -> u64
    ensures value { result ≡ n }
    ensures fits { n < 2 ^ 64 }
{
    n
}

// Two numbers in one word.
#[tactic(auto, using(std::proofs::lemmas::Nat::or_shifted))]
fn pair(high: u32, low: u32) -> u64
    ensures value { result ≡ high * 2 ^ 32 + low }
    ensures high { high < 2 ^ 32 }
    ensures low { low < 2 ^ 32 }
{
    u64::from(high) << 32 | u64::from(low)
}

// Whether a page is synchronised, and its stratum, in one number.
#[tactic(auto, using(std::proofs::lemmas::Nat::or_shifted))]
fn state(sync: bool, stratum: u8) -> u32
    ensures value { result ≡ from_bool sync * 2 ^ 8 + stratum }
    ensures stratum { stratum < 2 ^ 8 }
{
    u32::from(sync) << 8 | u32::from(stratum)
}

// The high and the low half of a word.
fn high(word: u64) -> u32
    ensures value { result ≡ word / 2 ^ 32 }
    ensures fits { result < 2 ^ 32 }
{
    (word >> 32) as u32
}

fn low(word: u64) -> u32
    ensures { result ≡ word % 2 ^ 32 }
{
    (word % (1 << 32)) as u32
}

// The offset in two words, where it is small enough.
fn offset_of(high: u64, low: u64) -> Option<Span>
    ensures some { IfSome result (λ s. s ≡ pos (high * 2 ^ 64 + low)) }
    ensures none { IfNone result (64 ≤ high) }
    ensures high { IfSome result (λ _. high < 64) }
    ensures low { low < 2 ^ 64 }
{
    if high >= 64 {
        return None;
    }
    Span::new((i128::from(high) << 64) + i128::from(low))
}

// A rate in a word.
fn word_of(rate: i32) -> u64
    ensures { result ≡ pages.word_of rate }
{
    i128::from(rate).rem_euclid(1 << 64) as u64
}

// The greatest rate, as it stands in a word.
const MOST: u64 = MOST_RATE as u64;

// The rate in a word, where it is within its bound.
fn rate_of(word: u64) -> Option<i32>
    ensures some { IfSome result (λ rate. IsRate rate × (word ≡ pages.word_of rate)) }
    ensures none { IfNone result ((most_rate < word) × (word < 2 ^ 64 - most_rate)) }
{
    let below = u64::MAX - word;
    if word <= MOST {
        Some(word as i32)
    } else if below < MOST {
        Some(-1 - below as i32)
    } else {
        None
    }
}

// The one page that is not synchronised whose words these can be.
fn blank(w: &[u64; WORDS], anchor: Local) -> Page
    requires anchor { anchor ≡ slice_index w.now 3 }
    requires state { slice_index w.now 1 / 2 ^ 32 < 256 }
    ensures { (p : PageFields) → AreWords w.now p → result ≡ p }
{
    Page::unsynchronised(w[0], anchor)
}

// The page whose words these are, where it is not synchronised.
fn unsynced(w: &[u64; WORDS], anchor: Local) -> Option<Page>
    requires anchor { anchor ≡ slice_index w.now 3 }
    requires state { slice_index w.now 1 / 2 ^ 32 < 256 }
    ensures page { IfSome result (AreWords w.now) }
    ensures every { (p : PageFields) → AreWords w.now p → result ≡ Some p }
{
    let page = blank(w, anchor);
    if page.to_words() == *w {
        Some(page)
    } else {
        None
    }
}

// What `state` gives is less.
const STATES: u32 = 512;

// The page whose words these are, where it is synchronised.
fn synced(w: &[u64; WORDS], anchor: Local) -> Option<Page>
    requires anchor { anchor ≡ slice_index w.now 3 }
    requires state { 256 ≤ slice_index w.now 1 / 2 ^ 32 }
    ensures page { IfSome result (AreWords w.now) }
    ensures every { (p : PageFields) → AreWords w.now p → result ≡ Some p }
{
    let state = high(w[1]);
    if state >= STATES {
        return None;
    }
    let offset = offset_of(w[8], w[2])?;
    let rate = rate_of(w[9])?;
    Some(Page {
        length: whole(w[0]),
        sync: true,
        stratum: (state % 256) as u8,
        refid: low(w[1]),
        offset,
        anchor,
        until: whole(w[4]),
        root_delay: Short(high(w[5])),
        root_disp: Short(low(w[5])),
        reftime: Stamp(whole(w[6])),
        leap_at: whole(w[7]),
        rate,
    })
}

impl Page {
    /// The ten words of the page.
    #[tactic(auto, unfolding(crate::specs::Page::words))]
    pub fn to_words(&self) -> [u64; WORDS]
        ensures words { result ≡ words self.now }
        ensures page { IsPage self.now }
    {
        [
            whole(self.length),
            pair(state(self.sync, self.stratum), self.refid),
            stamp_of(self.offset).0,
            self.anchor.get(),
            whole(self.until),
            pair(self.root_delay.0, self.root_disp.0),
            whole(self.reftime.0),
            whole(self.leap_at),
            (self.offset.unsigned_abs() >> 64) as u64,
            word_of(self.rate),
        ]
    }

    /// The page whose words these are. `None` where no page has these words.
    pub fn of_words(w: [u64; WORDS]) -> Option<Page>
        ensures page { IfSome result (AreWords w) }
        ensures every { (p : PageFields) → AreWords w p → result ≡ Some p }
    {
        let anchor = Local::new(w[3])?;
        if high(w[1]) < 256 {
            unsynced(&w, anchor)
        } else {
            synced(&w, anchor)
        }
    }
}
