//! What is kept of a journal, entry by entry.
ghost use Rattle.std.specs.Prelude.{◌≡◌, ◌<◌, ◌≤◌, ◌^◌, ◌++◌, ◌∷◌, [], List, length, map};
ghost use Rattle.arrayvec.specs.ArrayVec.{array_vec_len};
ghost use Rattle.journal_entry.specs.Valid.{IsValid, IsValidWhat};
ghost use Rattle.journal_entry.specs.declared.entry.Entry.{Entry};
ghost use Rattle.system_fold.specs.Page.{page_of};
ghost use Rattle.system_fold.specs.Settings.{AreValid, SettingsFields};
ghost use Rattle.system_fold.specs.KeptFold.{StandsForJournal, blank, feeds_of};

use crate::feed::Feed;
use crate::fit::find_fit;
use crate::inputs::PageInputs;
use crate::leaps::Leaps;
use crate::page::page_within;
use crate::sources::Sources;
use crate::{Settings, SourceKind};
use arrayvec::ArrayVec;
use clock_page::Page;
use journal_entry::Entry;
use select_core::Sweep;
use std::marker::Model;

/// What is kept of a journal to make its page: the last eight samples of each feed, what was said of leap seconds, and the number
/// of entries. Computed once an entry are the sources that are fit and the ends of their intervals in order. Contracts see that
/// it stands for the settings and the whole journal.
#[derive(Drop)]
pub struct FoldState {
    bound: u64,
    feeds: ArrayVec<Feed, 16>,
    leaps: Leaps,
    length: u64,
    fit: Sources,
    sweep: Sweep,
}

impl Model for FoldState {
    ghost use Rattle.system_fold.specs.KeptFold.{FoldFields, IsFold, kept_by};

    ghost Value = { FoldFields };

    ghost view = { kept_by };

    ghost invariant = { λ s. IsFold (kept_by s) s.fit s.sweep };
}

// Each feed with its kind and no sample.
fn blank_feeds(kinds: &[SourceKind]) -> ArrayVec<Feed, 16>
    requires { length kinds.now ≤ 16 }
    ensures { result.items ≡ map blank kinds.now }
{
    let mut feeds = ArrayVec::new();
    for kind in kinds {
        feeds.push(Feed::new(*kind));
    }
    feeds
}

// Computes the figures of each feed from a cut on, unless the filters had this cut before.
fn look_from(feeds: &mut [Feed], before: u64, cut: u64)
    ensures { feeds.new ≡ feeds.old }
{
    if cut != before {
        look_all_from(feeds, cut);
    }
}

// Computes the figures of each feed from a cut on.
fn look_all_from(feeds: &mut [Feed], cut: u64)
    ensures { feeds.new ≡ feeds.old }
{
    for feed in feeds {
        feed.look_from(cut);
    }
}

// Takes the sample that an entry is, if it is one, for the entry's feed.
fn take_sample(feeds: &mut [Feed], e: &Entry, before: u64, cut: u64)
    requires feed { e.now.feed < length feeds.old }
    requires what { IsValidWhat e.now.what }
    ensures { (settings : SettingsFields) (journal : List Entry) → feeds.old ≡ feeds_of settings journal →
        feeds.new ≡ feeds_of settings (journal ++ e.now ∷ []) }
{
    feeds[e.feed as usize].take(e);
    look_from(feeds, before, cut);
}

impl FoldState {
    /// The state of the empty journal.
    pub fn new(settings: &Settings) -> FoldState
        requires { AreValid settings.now }
        ensures { StandsForJournal result settings.now [] }
    {
        FoldState {
            bound: settings.bound(),
            feeds: blank_feeds(settings.sources()),
            leaps: Leaps::new(),
            length: 0,
            fit: Sources::new(),
            sweep: Sweep::new(),
        }
    }

    /// Takes the next entry. A journal has at most 2^22 of them.
    pub fn step(&mut self, e: &Entry)
        requires valid { IsValid (length self.old.feeds) e.now }
        requires room { self.old.length < 2 ^ 22 }
        ensures { (settings : SettingsFields) (journal : List Entry) → StandsForJournal self.old settings journal →
            StandsForJournal self.new settings (journal ++ e.now ∷ []) }
    {
        let before = self.leaps.cut;
        self.leaps.step(e);
        take_sample(self.feeds.as_mut_slice(), e, before, self.leaps.cut);
        self.length += 1;
        find_fit(
            self.feeds.as_slice(),
            self.leaps.cut,
            self.leaps.latest,
            &mut self.fit,
            &mut self.sweep,
        );
    }

    /// The page of the journal.
    pub fn page(&self) -> Page
        ensures { (settings : SettingsFields) (journal : List Entry) → StandsForJournal self.now settings journal →
            result ≡ page_of settings journal }
    {
        let inputs = PageInputs {
            length: self.length,
            moment: self.leaps.latest,
            bound: self.bound,
            armed: self.leaps.armed(),
        };
        page_within(&inputs, self.fit.as_slice(), &self.sweep.chime())
    }
}
