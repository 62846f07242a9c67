//! What is kept of the journal of a station in a script.
ghost use Rattle.std.specs.Prelude.{◌≡◌, ◌≤◌, ◌^◌, ◌++◌, ◌∷◌, [], ℕ, List, Some, length, take, nat_lt};
ghost use Rattle.journal_entry.specs.Valid.{IsValid};
ghost use Rattle.journal_entry.specs.declared.entry.Entry.{Entry};
ghost use Rattle.system_fold.specs.Page.{page_of};
ghost use Rattle.system_fold.specs.Settings.{AreValid, SettingsFields};

use crate::Outcome;
use clock_page::Page;
use journal_entry::{Entry, Numbered};
use std::marker::Model;
use system_fold::{FoldState, Settings};

// What is kept of the journal: its page so far, and how many entries it has.
#[derive(Drop)]
pub struct ReplayJournal {
    fold: FoldState,
    count: u32,
    limit: u32,
    is_full: bool,
}

impl Model for ReplayJournal {
    ghost use Rattle.replay_command.specs.Keeping.{IsKeeping, JournalFields};

    ghost Value = { JournalFields };

    ghost view = { λ j. record { fold = j.fold; count = j.count; limit = j.limit; is_full = j.is_full } };

    ghost invariant = { λ j. IsKeeping j.fold j.count j.limit };
}

impl ReplayJournal {
    ghost use Rattle.replay_command.specs.Replay.{outcome_of_due};
    ghost use Rattle.replay_command.specs.KeptPlayer.{HasKept};

    // The empty journal.
    pub fn new(settings: &Settings, limit: u32) -> ReplayJournal
        requires valid { AreValid settings.now }
        requires most { limit ≤ 2 ^ 22 }
        ensures kept { HasKept result settings.now limit [] }
        ensures feeds { length result.fold.feeds ≡ length settings.now.sources }
    {
        ReplayJournal {
            fold: FoldState::new(settings),
            count: 0,
            limit,
            is_full: false,
        }
    }

    // An entry that is due. It is dropped where the journal is full.
    pub fn take(&mut self, e: &Entry) -> Outcome
        requires { IsValid (length self.old.fold.feeds) e.now }
        ensures kept { (settings : SettingsFields) (limit : ℕ) (entries : List Entry) →
            HasKept self.old settings limit entries →
            HasKept self.new settings limit (entries ++ e.now ∷ []) }
        ensures outcome { (settings : SettingsFields) (limit : ℕ) (entries : List Entry) →
            HasKept self.old settings limit entries →
            result ≡ outcome_of_due settings limit entries (Some e.now) }
        ensures feeds { length self.new.fold.feeds ≡ length self.old.fold.feeds }
    {
        if self.count == self.limit {
            self.is_full = true;
            return Outcome::Nothing;
        }
        self.fold.step(e);
        self.count += 1;
        Outcome::Kept(Numbered {
            length: u64::from(self.count),
            rate: self.fold.page().rate,
            entry: *e,
        })
    }

    // The page of the entries kept.
    pub fn page(&self) -> Page
        ensures { (settings : SettingsFields) (limit : ℕ) (entries : List Entry) →
            HasKept self.now settings limit entries →
            result ≡ page_of settings (take limit entries) }
    {
        self.fold.page()
    }

    // Whether one was dropped.
    pub fn is_full(&self) -> bool
        ensures { (settings : SettingsFields) (limit : ℕ) (entries : List Entry) →
            HasKept self.now settings limit entries →
            result ≡ nat_lt limit (length entries) }
    {
        self.is_full
    }
}
