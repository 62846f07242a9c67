//! What is behind the hub's lock, and how to put an entry into it.
ghost use Rattle.std.specs.Prelude.{◌≡◌, ◌<◌, ◌≤◌, ◌++◌, ◌∷◌, [], length, IfOk, IfErr};
ghost use mathlib.Core.List.{IsPrefix};
ghost use Rattle.journal_entry.specs.Valid.{IsValid};
ghost use Rattle.page_cell.specs.Passes.{claim_of};
ghost use Rattle.verdict_journal.specs.Journals.{IsSamePass};

use crate::name::HubName;
use journal_entry::{Entry, Numbered};
use page_cell::{BatonPass, FeedPass, PageCell};
use std::marker::{Model, PhantomData};
use system_fold::FoldState;

/// The journal has as many entries as it may.
#[derive(Clone, Copy, Debug, PartialEq, Eq)]
pub struct Full {
    pub limit: u32,
}

/// What is behind the hub's lock: the entries with their numbers and rates, the baton, whose list they are, and their fold. It
/// has room for as many entries as there may be.
#[derive(Drop)]
pub struct JournalState<N: HubName> {
    pub(crate) lines: Vec<Numbered>,
    pub(crate) limit: u32,
    pub(crate) baton: BatonPass,
    pub(crate) fold: FoldState,
    pub(crate) name: PhantomData<N>,
}

impl<N: HubName> Model for JournalState<N> {
    ghost use Rattle.std.specs.Prelude.{◌≡◌, vec_capacity};
    ghost use Rattle.page_cell.specs.Passes.{key_of};
    ghost use Rattle.verdict_journal.specs.Journals.{State, IsKept};

    ghost Value = { State };

    ghost view = { λ s. record { entries = s.baton.view.list; settings = key_of s.baton.view; limit = s.limit } };

    ghost invariant = { λ s. IsKept s.lines.items (vec_capacity s.lines) s.fold s.limit s.baton ×
        (s.baton.table ≡ N.table) × (key_of s.baton.view ≡ N.settings) × (s.limit ≡ N.limit) };
}

impl<N: HubName> JournalState<N> {
    /// Puts an entry after the journal and publishes its page; answers how many entries there are with it. `Full` exactly where
    /// there are as many as there may be: then journal, page and the pass's own list are as they were, and the pass has seen all
    /// of it.
    pub fn push(&mut self, cell: &PageCell, f: &mut FeedPass, e: Entry) -> Result<u64, Full>
        requires cell { cell.now.table ≡ N.table }
        requires pass { f.old.table ≡ N.table }
        requires feed { e.feed ≡ (claim_of f.old.view).number }
        requires valid { IsValid (length N.settings.sources) e }
        ensures pass { IsSamePass f.old f.new }
        ensures before { IsPrefix (claim_of f.old.view).seen self.old.entries }
        ensures seen { (claim_of f.new.view).seen ≡ self.new.entries }
        ensures same { (self.new.settings ≡ self.old.settings) × (self.new.limit ≡ self.old.limit) }
        ensures within { (length self.new.entries ≤ self.new.limit) × (self.new.limit ≡ N.limit) }
        ensures ok { IfOk result (λ n. (self.new.entries ≡ self.old.entries ++ e ∷ []) × (n ≡ length self.new.entries) ×
            ((claim_of f.new.view).own ≡ (claim_of f.old.view).own ++ e ∷ [])) }
        ensures full { IfErr result (λ x. (x.limit ≡ self.old.limit) × (length self.old.entries ≡ self.old.limit) ×
            (self.new.entries ≡ self.old.entries) × ((claim_of f.new.view).own ≡ (claim_of f.old.view).own)) }
    {
        if self.lines.len() >= self.limit as usize {
            cell.show(&mut self.baton, f);
            return Err(Full { limit: self.limit });
        }
        self.fold.step(&e);
        let page = self.fold.page();
        let length = cell.publish(&mut self.baton, f, &e, &page);
        self.lines.push_reserved(Numbered {
            length,
            rate: page.rate,
            entry: e,
        });
        Ok(length)
    }
}
