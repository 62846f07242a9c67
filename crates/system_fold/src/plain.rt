//! The page of a journal by the definition: from the whole list of entries, with nothing kept between them. It is slow.
ghost use Rattle.std.specs.Prelude.{◌≡◌, ◌<◌, ◌≤◌, ◌==◌, ◌++◌, ◌∷◌, [], All, List, length, if◌then◌else◌};
ghost use Rattle.clock_filter.specs.Held as filters;
ghost use Rattle.journal_entry.specs.Valid.{IsValidWhat};
ghost use Rattle.journal_entry.specs.declared.entry.Entry.{Entry};
ghost use Rattle.system_fold.specs.Journal as journals;
ghost use Rattle.system_fold.specs.Leaps as words;
ghost use Rattle.system_fold.specs.Page.{page_of};
ghost use Rattle.system_fold.specs.Samples.{samples_of};
ghost use Rattle.system_fold.specs.Settings.{AreValid, IsJournal};
ghost use Rattle.system_fold.specs.KeptFold as standing;
ghost use Rattle.system_fold.specs.KeptFold.{KeepsLeaps, or_older};

use crate::feed::Feed;
use crate::fit::fit_sources;
use crate::inputs::PageInputs;
use crate::leap_words::Words;
use crate::leaps::{Leaps, Verdict, Word, last_passed, verdict_said, word_said};
use crate::moments::{beginning, later};
use crate::page::page_by;
use crate::{Settings, SourceKind};
use arrayvec::ArrayVec;
use clock_page::Page;
use journal_entry::Entry;
use tick_units::Local;

// The greatest moment.
fn now_of(journal: &[Entry]) -> Local
    ensures { result ≡ journals.now_of journal.now }
{
    let mut now = beginning();
    for e in journal {
        now = later(now, e.at);
    }
    now
}

// The last verdict of any feed.
fn last_verdict(journal: &[Entry]) -> Option<Verdict>
    ensures { result ≡ words.last_verdict journal.now }
{
    let mut last = None;
    for e in journal {
        last = verdict_said(e.at, &e.what).or(last);
    }
    last
}

// The word of any feed after an entry.
fn word_after(word: Option<Word>, feed: u32, e: &Entry) -> Option<Word>
    ensures { result ≡ if e.now.feed == feed then or_older (words.word_in e.now.at e.now.what) word else word }
{
    if e.feed == feed {
        word_said(e.at, &e.what).or(word)
    } else {
        word
    }
}

// The last word of a feed.
fn word_of(journal: &[Entry], feed: u32) -> Option<Word>
    ensures { result ≡ words.word_of journal.now feed }
{
    let mut word = None;
    for e in journal {
        word = word_after(word, feed, e);
    }
    word
}

// The last words of all feeds.
fn words_of(journal: &[Entry]) -> [Option<Word>; 16]
    ensures { result ≡ words.words_of journal.now }
{
    let mut words = [None; 16];
    for feed in 0..16usize {
        words[feed] = word_of(journal, feed as u32);
    }
    words
}

// The greatest moment of a leap second that has passed by the end of a journal, by what it says then.
fn passed(journal: &[Entry]) -> u64
    ensures { result ≡ words.passed journal.now }
{
    last_passed(now_of(journal), &last_verdict(journal), &words_of(journal))
}

// The greatest of these among all prefixes of a journal.
fn cut_of(journal: &[Entry]) -> u64
    ensures { result ≡ words.cut_of journal.now }
{
    let mut cut = passed(&journal[..0]);
    for end in 0..journal.len() {
        cut = cut.max(passed(&journal[..end + 1]));
    }
    cut
}

// What a journal says of leap seconds.
fn leaps_of(journal: &[Entry]) -> Leaps
    ensures { KeepsLeaps result journal.now }
{
    Leaps {
        latest: now_of(journal),
        cut: cut_of(journal),
        verdict: last_verdict(journal),
        words: Words::of(words_of(journal)),
    }
}

// Takes the sample that an entry is, if it is one of this feed.
fn take_own(feed: &mut Feed, number: u32, e: &Entry)
    requires { IsValidWhat e.now.what }
    ensures kind { feed.new.kind ≡ feed.old.kind }
    ensures filter { (journal : List Entry) →
        filters.StandsFor feed.old.filter (samples_of feed.old.kind number journal) →
        filters.StandsFor feed.new.filter (samples_of feed.old.kind number (journal ++ e.now ∷ [])) }
{
    if e.feed == number {
        feed.take(e);
    }
}

// A feed with its last eight samples.
fn feed_of(journal: &[Entry], number: u32, kind: SourceKind) -> Feed
    requires { All (λ e. IsValidWhat e.what) journal.now }
    ensures { result ≡ record { kind = kind; filter = filters.last_eight (samples_of kind number journal.now) } }
{
    let mut feed = Feed::new(kind);
    for e in journal {
        take_own(&mut feed, number, e);
    }
    feed
}

// Each feed with its last eight samples.
fn feeds_of(settings: &Settings, journal: &[Entry]) -> ArrayVec<Feed, 16>
    requires { IsJournal settings.now journal.now }
    ensures items { result.items ≡ standing.feeds_of settings.now journal.now }
    ensures few { length settings.now.sources ≤ 16 }
{
    let kinds = settings.sources();
    let mut feeds = ArrayVec::new();
    for (number, kind) in kinds.iter().enumerate() {
        feeds.push(feed_of(journal, number as u32, *kind));
    }
    feeds
}

/// The page of a journal.
pub fn page_from_scratch(settings: &Settings, journal: &[Entry]) -> Page
    requires settings { AreValid settings.now }
    requires entries { IsJournal settings.now journal.now }
    ensures { result ≡ page_of settings.now journal.now }
{
    let leaps = leaps_of(journal);
    let inputs = PageInputs {
        length: journal.len() as u64,
        moment: leaps.latest,
        bound: settings.bound(),
        armed: leaps.armed(),
    };
    let feeds = feeds_of(settings, journal);
    let fit = fit_sources(feeds.as_slice(), leaps.cut, leaps.latest);
    page_by(&inputs, fit.as_slice())
}
