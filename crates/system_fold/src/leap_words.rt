//! The word of each feed on leap seconds.
ghost use Rattle.std.specs.Prelude.{◌≡◌, ◌<◌, ℕ, Option, Some, true, [], slice_set};
ghost use Rattle.system_fold.specs.Leaps.{armed_among, passed_among, words_of};
ghost use Rattle.system_fold.specs.Silence as silence;
ghost use Rattle.system_fold.specs.declared.leaps.Verdict.{Verdict};

use crate::leaps::Word;
use std::marker::Model;

/// What each of at most 16 feeds last said of a leap second, by its number. Contracts see it as the list of the words.
#[derive(Drop)]
pub struct Words {
    of: [Option<Word>; 16],
    // Whether all of them are known to name no leap second.
    silent: bool,
}

impl Model for Words {
    ghost use Rattle.std.specs.Prelude.{◌≡◌, true, List, Option, length};
    ghost use Rattle.std.specs.List.{list_all};
    ghost use Rattle.system_fold.specs.Silence.{names_none};
    ghost use Rattle.system_fold.specs.declared.leaps.Word.{Word};

    ghost Value = { List (Option Word) };

    ghost view = { λ w. w.of };

    ghost invariant = { λ w. (length w.of ≡ 16) × (w.silent ≡ true → list_all names_none w.of ≡ true) };
}

// Whether a word names no leap second.
fn names_none(word: &Option<Word>) -> bool
    ensures { result ≡ silence.names_none word.now }
{
    match word {
        None => true,
        Some(Word::Verified { leap_at, .. }) => *leap_at == 0,
        Some(Word::Announced { leap_at }) => *leap_at == 0,
    }
}

// Whether all these words, one of them new, are known to name no leap second.
fn are_silent(others: bool, new: &Option<Word>) -> bool
    ensures others { result ≡ true → others ≡ true }
    ensures new { result ≡ true → silence.names_none new.now ≡ true }
{
    others && names_none(new)
}

impl Words {
    /// No feed has said anything.
    pub fn new() -> Words
        ensures { result ≡ words_of [] }
    {
        Words {
            of: [None; 16],
            silent: true,
        }
    }

    /// These words, all of which are read.
    pub fn of(words: [Option<Word>; 16]) -> Words
        ensures { result ≡ words }
    {
        Words {
            of: words,
            silent: false,
        }
    }

    /// Keeps the word of a feed.
    pub fn put(&mut self, feed: u32, word: Word)
        requires { feed < 16 }
        ensures { self.new ≡ slice_set self.old feed (Some word) }
    {
        let word = Some(word);
        self.silent = are_silent(self.silent, &word);
        self.of[feed as usize] = word;
    }

    /// The words that have to be read: none where none of them names a leap second, which is the common case, and else all.
    pub fn announcing(&self) -> &[Option<Word>]
        ensures passed { (now : ℕ) (last : Option Verdict) →
            passed_among now last result.now ≡ passed_among now last self.now }
        ensures armed { (now : ℕ) (last : Option Verdict) →
            armed_among now last result.now ≡ armed_among now last self.now }
    {
        if self.silent { &[] } else { &self.of }
    }
}
