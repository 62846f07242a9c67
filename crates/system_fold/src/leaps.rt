//! What the feeds of a journal say of leap seconds.
ghost use Rattle.std.specs.Prelude.{◌≡◌, ◌<◌, ◌+◌, ◌-◌, ◌*◌, ◌^◌, ◌++◌, ◌∷◌, [], List, length, max, nat_lt};
ghost use Rattle.system_fold.specs.Leaps.{word_in, verdict_in, leap_of, passed_by, passed_among, ahead_of, armed_among, armed_of};
ghost use Rattle.system_fold.specs.KeptFold.{KeepsLeaps, best_with, or_older, words_with};
ghost use Rattle.journal_entry.specs.declared.entry.Entry.{Entry};

use crate::leap_words::Words;
use crate::moments::{beginning, later};
use journal_entry::{Entry, What};
use tick_units::{Kind, Local};

/// What a feed last said of a leap second.
#[derive(Clone, Copy)]
pub enum Word {
    /// A radio's verdict: its moment, its second, and the second at which the leap second ends, or 0.
    Verified {
        at: Local,
        second: u64,
        leap_at: u64,
    },
    /// The second at which an announced leap second ends.
    Announced {
        leap_at: u64,
    },
}

/// A leap second: the moment at which it comes, and the second at which it ends.
#[derive(Clone, Copy)]
pub struct Leap {
    pub moment: u128,
    pub leap_at: u64,
}

/// The moment and the second of a verdict.
#[derive(Clone, Copy)]
pub struct Verdict {
    pub at: Local,
    pub second: u64,
}

/// What is kept of a journal for its leap seconds.
#[derive(Drop)]
pub struct Leaps {
    pub latest: Local,
    pub cut: u64,
    pub verdict: Option<Verdict>,
    pub words: Words,
}

// The announcement that an entry makes, if it makes one.
pub fn word_said(at: Local, what: &What) -> Option<Word>
    ensures { result ≡ word_in at what.now }
{
    match what {
        What::Heard(Kind::Verdict { second, leap_at }) => Some(Word::Verified {
            at,
            second: *second,
            leap_at: *leap_at,
        }),
        What::Notice(leap_at) => Some(Word::Announced { leap_at: *leap_at }),
        _ => None,
    }
}

// An entry's verdict, if it is one: its moment and its second since 1900.
pub fn verdict_said(at: Local, what: &What) -> Option<Verdict>
    ensures { result ≡ verdict_in at what.now }
{
    match what {
        What::Heard(Kind::Verdict { second, leap_at: _ }) => Some(Verdict {
            at,
            second: *second,
        }),
        _ => None,
    }
}

// A leap second, by a moment and the second that began there. It is computed in 128 bits, so it needs no bound.
fn leap_from(at: Local, second: u64, leap_at: u64) -> Leap
    ensures { result ≡ record { moment = (at + leap_at * 10 ^ 6) - second * 10 ^ 6; leap_at = leap_at } }
{
    let end = u128::from(at.get()) + u128::from(leap_at) * 1_000_000;
    let start = u128::from(second) * 1_000_000;
    Leap {
        moment: end.saturating_sub(start),
        leap_at,
    }
}

// The leap second announced, if there is one.
fn leap_named(verdict: &Option<Verdict>, word: &Option<Word>) -> Option<Leap>
    ensures { result ≡ leap_of verdict.now word.now }
{
    match word {
        None => None,
        Some(
            Word::Verified {
                at,
                second,
                leap_at,
            },
        ) => {
            if *leap_at == 0 {
                None
            } else {
                Some(leap_from(*at, *second, *leap_at))
            }
        }
        Some(Word::Announced { leap_at }) => match verdict {
            None => None,
            Some(v) => {
                if *leap_at == 0 || *leap_at < v.second {
                    None
                } else {
                    Some(leap_from(v.at, v.second, *leap_at))
                }
            }
        },
    }
}

// The moment of a leap second that is not above now, or 0.
fn passed_moment(now: Local, leap: &Option<Leap>) -> u64
    ensures { result ≡ passed_by now leap.now }
{
    match leap {
        None => 0,
        Some(leap) => {
            if leap.moment <= u128::from(now.get()) {
                leap.moment as u64
            } else {
                0
            }
        }
    }
}

// A leap second, where its moment is above now.
fn ahead(now: Local, leap: Option<Leap>) -> Option<Leap>
    ensures { result ≡ ahead_of now leap }
{
    match leap {
        None => None,
        Some(leap) => {
            if u128::from(now.get()) < leap.moment {
                Some(leap)
            } else {
                None
            }
        }
    }
}

// The sooner of two, where there are two; of equal ones the first.
fn sooner(first: Option<Leap>, next: Option<Leap>) -> Option<Leap>
    ensures { result ≡ best_with (λ y x. nat_lt y.moment x.moment) first next }
{
    match next {
        None => first,
        Some(next) => match first {
            None => Some(next),
            Some(leap) => {
                if next.moment < leap.moment {
                    Some(next)
                } else {
                    Some(leap)
                }
            }
        },
    }
}

// The greatest moment of a leap second among words that is not above now, or 0.
pub fn last_passed(now: Local, verdict: &Option<Verdict>, words: &[Option<Word>]) -> u64
    ensures { result ≡ passed_among now verdict.now words.now }
{
    let mut most = 0;
    for word in words {
        most = most.max(passed_moment(now, &leap_named(verdict, word)));
    }
    most
}

// The next leap second among words that is above now.
fn next_ahead(now: Local, verdict: &Option<Verdict>, words: &[Option<Word>]) -> Option<Leap>
    ensures { result ≡ armed_among now verdict.now words.now }
{
    let mut next = None;
    for word in words {
        next = sooner(next, ahead(now, leap_named(verdict, word)));
    }
    next
}

impl Leaps {
    /// Of no entry.
    pub fn new() -> Leaps
        ensures { KeepsLeaps result [] }
    {
        Leaps {
            latest: beginning(),
            cut: 0,
            verdict: None,
            words: Words::new(),
        }
    }

    // Keeps the word of an entry, if it is one.
    fn note_word(&mut self, e: &Entry)
        requires { e.now.feed < 16 }
        ensures { self.new ≡
            record self.old { words = words_with self.old.words e.now.feed (word_in e.now.at e.now.what) } }
    {
        if let Some(word) = word_said(e.at, &e.what) {
            self.words.put(e.feed, word);
        }
    }

    // Keeps a verdict.
    fn note_verdict(&mut self, e: &Entry)
        ensures { self.new ≡ record self.old { verdict = or_older (verdict_in e.now.at e.now.what) self.old.verdict } }
    {
        if let Some(verdict) = verdict_said(e.at, &e.what) {
            self.verdict = Some(verdict);
        }
    }

    /// Takes the next entry.
    pub fn step(&mut self, e: &Entry)
        requires { e.now.feed < 16 }
        ensures moment { e.now.at < 2 ^ 50 }
        ensures leaps { (journal : List Entry) → KeepsLeaps self.old journal →
            KeepsLeaps self.new (journal ++ e.now ∷ []) }
    {
        self.note_word(e);
        self.note_verdict(e);
        self.latest = later(self.latest, e.at);
        self.cut = self.cut.max(last_passed(self.latest, &self.verdict, self.words.announcing()));
    }

    /// The leap second that is armed.
    pub fn armed(&self) -> Option<Leap>
        ensures { (journal : List Entry) → KeepsLeaps self.now journal → result ≡ armed_of journal }
    {
        next_ahead(self.latest, &self.verdict, self.words.announcing())
    }
}
