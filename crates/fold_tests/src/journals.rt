//! Journals and settings for tests.
ghost use Rattle.std.specs.Prelude.{◌≡◌, ◌≤◌, ◌<◌, ◌^◌, true, length};
ghost use Rattle.journal_entry.specs.Valid.{IsValidKind, IsValidVerdict, IsValidWhat, IsSupported};
ghost use Rattle.tick_units.specs.Samples as samples;
ghost use Rattle.system_fold.specs.Settings.{AreValid, IsJournal, IsKept};

use crate::shared::same;
use clock_page::Page;
use journal_entry::{ENTRY_ROOM, Entry, What, read_entry};
use outside_traits::Address;
use std::alloc::Global;
use std::process::Abort;
use system_fold::{Settings, SourceKind, page_by_steps, page_from_scratch, page_text};
use tick_units::{END_OF_SUPPORTED, Kind, Plan, Sample, Span, is_supported};

pub const DCF: SourceKind = SourceKind::Radio(Plan::Dcf);

pub const SERVER: SourceKind = SourceKind::Server(Address {
    ip: 0x7f00_0001,
    port: 123,
});

fn may_be_supported(second: u64) -> bool
    ensures { result ≡ true → IsSupported second }
{
    is_supported(second)
}

fn is_valid_verdict(second: u64, leap_at: u64) -> bool
    ensures { result ≡ true → IsValidVerdict second leap_at }
{
    if leap_at == 0 {
        return may_be_supported(second);
    }
    if !may_be_supported(leap_at) {
        return false;
    }
    may_be_supported(second)
}

fn is_valid_kind(kind: &Kind) -> bool
    ensures { result ≡ true → IsValidKind kind.now }
{
    match kind {
        Kind::Verdict { second, leap_at } => is_valid_verdict(*second, *leap_at),
        _ => true,
    }
}

fn is_length(span: Span) -> bool
    ensures { result ≡ true → samples.IsLength span }
{
    let units = span.get();
    0 <= units && units < 1 << 66
}

fn is_valid_sample(sample: &Sample) -> bool
    ensures { result ≡ true → samples.IsValid sample.now }
{
    if !is_length(sample.offset) {
        return false;
    }
    if !is_length(sample.delay) {
        return false;
    }
    is_length(sample.dispersion)
}

fn is_valid_what(what: &What) -> bool
    ensures { result ≡ true → IsValidWhat what.now }
{
    match what {
        What::Heard(kind) => is_valid_kind(kind),
        What::Sample(sample) => is_valid_sample(sample),
        What::Declined(_) => true,
        What::Notice(leap_at) => *leap_at < END_OF_SUPPORTED,
    }
}

fn is_kept(feeds: u32, e: &Entry) -> bool
    ensures valid { result ≡ true → IsKept feeds e.now }
{
    let _moment = e.at.get();
    if e.feed >= feeds {
        return false;
    }
    is_valid_what(&e.what)
}

fn is_journal(settings: &Settings, journal: &[Entry]) -> bool
    ensures { result ≡ true → IsJournal settings.now journal.now }
{
    for e in journal {
        if !is_kept(settings.count(), e) {
            return false;
        }
    }
    true
}

// Whether the bound is this many milliseconds.
fn is_bound(settings: &Settings, milliseconds: u64) -> bool
    ensures { result ≡ true → AreValid settings.now }
{
    if milliseconds < 1 || milliseconds > 16_000 {
        return false;
    }
    Settings::new(milliseconds as u32).bound() == settings.bound()
}

fn are_valid(settings: &Settings) -> bool
    ensures { result ≡ true → AreValid settings.now }
{
    is_bound(
        settings,
        settings.bound().saturating_mul(1000).div_ceil(1 << 32),
    )
}

/// The page of a journal, where it is one of valid entries: by steps and from scratch, which give the same.
pub fn page_after(rt: &impl Abort, settings: &Settings, journal: &[Entry]) -> Page {
    if !are_valid(settings) {
        panic!(*rt; "no valid settings");
    }
    if !is_journal(settings, journal) {
        panic!(*rt; "no valid journal");
    }
    if journal.len() > 1 << 22 {
        panic!(*rt; "too long");
    }
    let page = page_by_steps(settings, journal);
    same(rt, page_from_scratch(settings, journal), page);
    page
}

/// The line of a page is this one. Where it isn't, the message says why this page was made.
pub fn has_line(rt: &impl Abort, why: &str, page: &Page, line: &str) {
    let mut out = [0; ENTRY_ROOM];
    let length = page_text(page, &mut out);
    match str::from_utf8(&out[..length]) {
        Ok(text) => same(rt, (why, text), (why, line)),
        Err(_) => panic!(*rt; "no text"),
    }
}

/// Settings with feeds of these kinds.
pub fn settings_of(rt: &impl Abort, bound_ms: u32, kinds: &[SourceKind]) -> Settings
    requires least { 1 ≤ bound_ms }
    requires most { bound_ms ≤ 16000 }
{
    let mut settings = Settings::new(bound_ms);
    for kind in kinds {
        if settings.count() >= 16 {
            panic!(*rt; "too many feeds");
        }
        settings.add(*kind);
    }
    settings
}

// Adds the entry of a text to a journal.
fn add_entry(rt: &impl Abort, journal: &mut Vec<Entry>, text: &str) {
    let entry = read_entry(text.as_bytes()).expect(rt, "no entry");
    journal.push(entry).expect(rt, "no memory");
}

/// The entries of these texts.
pub fn journal_of(rt: &impl Abort, alloc: Global, texts: &[&str]) -> Vec<Entry> {
    let mut journal = Vec::new(alloc);
    for text in texts {
        add_entry(rt, &mut journal, text);
    }
    journal
}

// The kind of a feed, by its word.
fn kind_of(rt: &impl Abort, word: &str) -> SourceKind {
    match word {
        "dcf" => DCF,
        "msf" => SourceKind::Radio(Plan::Msf),
        "wwvb" => SourceKind::Radio(Plan::Wwvb),
        "server" => SERVER,
        "leap" => SourceKind::Leap,
        _ => panic!(*rt; "no kind of a feed: {word}"),
    }
}

// Settings with a bound of a second and feeds of these kinds.
fn settings_by(rt: &impl Abort, words: &str) -> Settings {
    let mut settings = Settings::new(1000);
    for word in words.split(' ') {
        if settings.count() >= 16 {
            panic!(*rt; "too many feeds");
        }
        settings.add(kind_of(rt, word));
    }
    settings
}

// The first line of a text, and the others.
fn cut<'a>(rt: &impl Abort, text: &'a str) -> (&'a str, &'a str) {
    match text.split_once("\n") {
        Some(both) => both,
        None => panic!(*rt; "too few lines: {text}"),
    }
}

// The page of an odd journal has its line, which another program computed from the rules. The text says why the journal is odd,
// and has its feeds, the line of its page and its entries.
fn is_the_page(rt: &impl Abort, alloc: Global, odd: &str) {
    let (why, rest) = cut(rt, odd);
    let (feeds, rest) = cut(rt, rest);
    let (line, entries) = cut(rt, rest);
    let settings = settings_by(rt, feeds);
    let mut journal = Vec::new(alloc);
    for text in entries.lines() {
        add_entry(rt, &mut journal, text);
    }
    has_line(rt, why, &page_after(rt, &settings, &journal), line);
}

/// The same of each journal of a table, which begins with `#`.
pub fn are_the_pages(rt: &impl Abort, alloc: Global, table: &str) {
    for odd in table.split('#') {
        if !odd.is_empty() {
            is_the_page(rt, alloc, odd);
        }
    }
}
