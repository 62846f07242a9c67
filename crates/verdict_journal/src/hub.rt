//! The hub: the shared page, and the journal behind its lock.
ghost use Rattle.std.specs.Prelude.{◌≡◌, ◌<◌, ◌≤◌, [], length, IfOk, IfErr, All};
ghost use Rattle.journal_entry.specs.Valid.{IsValid};
ghost use Rattle.page_cell.specs.Claims.{IsTrueOf};
ghost use Rattle.page_cell.specs.Passes.{key_of, claim_of};
ghost use Rattle.system_fold.specs.Settings.{AreValid, IsJournal};
ghost use Rattle.verdict_journal.specs.Journals.{Appends, FindsFull, HasRead, IsSamePass};

use crate::journal::Journal;
use crate::name::HubName;
use crate::state::{Full, JournalState};
use journal_entry::Entry;
use page_cell::{BatonPass, CellParts, FeedPass, PageCell, ReadPass};
use std::alloc::Global;
use std::marker::PhantomData;
use std::sync::{Mutex, Wait};
use system_fold::{FoldState, Settings};

/// The shared page, and the journal behind its lock.
#[derive(Drop)]
pub struct Hub<N: HubName> {
    cell: PageCell,
    state: Mutex<JournalState<N>>,
    ghost cell_is: { cell.table ≡ N.table },
}

/// A hub, and the passes of its cell.
#[derive(Drop)]
pub struct HubParts<N: HubName> {
    pub hub: Hub<N>,
    pub feeds: Vec<FeedPass>,
    pub readers: Vec<ReadPass>,
}

/// Why a hub was not opened.
#[derive(Clone, Copy, Debug, PartialEq, Eq)]
pub enum HubOpen {
    /// There was not enough memory.
    Memory,
}

// Takes back feeds' passes.
fn gather_feeds(cell: &PageCell, baton: &mut BatonPass, mut feeds: Vec<FeedPass>)
    requires baton { baton.old.table ≡ cell.now.table }
    requires feeds { All (λ f. f.table ≡ cell.now.table) feeds.items }
    ensures cell { baton.new.table ≡ baton.old.table }
    ensures settings { key_of baton.new.view ≡ key_of baton.old.view }
    ensures list { baton.new.view.list ≡ baton.old.view.list }
    ensures claims { All (λ f. IsTrueOf baton.old.view.list (claim_of f.view)) feeds.items }
{
    while let Some(f) = feeds.pop() {
        cell.gather_feed(baton, f);
    }
}

// Takes back readers' passes.
fn gather_readers(cell: &PageCell, baton: &mut BatonPass, mut readers: Vec<ReadPass>)
    requires baton { baton.old.table ≡ cell.now.table }
    requires readers { All (λ r. r.table ≡ cell.now.table) readers.items }
    ensures cell { baton.new.table ≡ baton.old.table }
    ensures settings { key_of baton.new.view ≡ key_of baton.old.view }
    ensures list { baton.new.view.list ≡ baton.old.view.list }
    ensures readings { All (λ r. HasRead (key_of baton.old.view) baton.old.view.list r.view) readers.items }
{
    while let Some(r) = readers.pop() {
        cell.gather_reader(baton, r);
    }
}

impl<N: HubName> Hub<N> {
    /// Opens a hub over a cell in which nothing has been published yet. This takes the room for `limit` entries, 1 to 4194304; no
    /// later call takes memory.
    pub fn open(
        alloc: Global,
        parts: CellParts,
        settings: &Settings,
        limit: u32,
    ) -> Result<HubParts<N>, HubOpen>
        requires cell { (parts.cell.table ≡ N.table) × (parts.baton.table ≡ N.table) }
        requires settings { (key_of parts.baton.view ≡ settings.now) × (settings.now ≡ N.settings) }
        requires valid { AreValid settings.now }
        requires fresh { parts.baton.view.list ≡ [] }
        requires limit { (limit ≡ N.limit) × (0 < limit) × (limit ≤ 4194304) }
        ensures passes { IfOk result
            (λ p. (p.feeds.items ≡ parts.feeds.items) × (p.readers.items ≡ parts.readers.items)) }
    {
        let CellParts {
            cell,
            baton,
            feeds,
            readers,
        } = parts;
        let Ok(lines) = Vec::with_capacity(alloc, limit as usize) else {
            return Err(HubOpen::Memory);
        };
        let state = JournalState {
            lines,
            limit,
            baton,
            fold: FoldState::new(settings),
            name: PhantomData,
        };
        let hub = Hub {
            cell,
            state: Mutex::new(state),
        };
        Ok(HubParts {
            hub,
            feeds,
            readers,
        })
    }

    /// The shared page.
    pub fn cell(&self) -> &PageCell
        ensures { result.now.table ≡ N.table }
    {
        &self.cell
    }

    /// Appends an entry from any thread, once the lock is free. The entry is then in the journal, its page is published, and the
    /// answer is how many entries there are with it. `Full` exactly where the journal has as many entries as it may.
    pub fn append<R: Wait>(&self, rt: &R, f: &mut FeedPass, e: Entry) -> Result<u64, Full>
        requires pass { f.old.table ≡ N.table }
        requires feed { e.feed ≡ (claim_of f.old.view).number }
        requires valid { IsValid (length N.settings.sources) e }
        ensures pass { IsSamePass f.old f.new }
        ensures ok { IfOk result (λ n. Appends e n N.limit f.old f.new) }
        ensures full { IfErr result (λ x. (x.limit ≡ N.limit) × FindsFull N.limit f.old f.new) }
    {
        self.state.lock(rt).push(&self.cell, f, e)
    }

    /// Takes back all passes and gives the journal. What each pass knows is true of it.
    pub fn close(self, feeds: Vec<FeedPass>, readers: Vec<ReadPass>) -> Journal
        requires feeds { All (λ f. f.table ≡ N.table) feeds.items }
        requires readers { All (λ r. r.table ≡ N.table) readers.items }
        ensures settings { result.settings ≡ N.settings }
        ensures limit { result.limit ≡ N.limit }
        ensures within { length result.entries ≤ N.limit }
        ensures valid { IsJournal result.settings result.entries }
        ensures feeds { All (λ f. IsTrueOf result.entries (claim_of f.view)) feeds.items }
        ensures readers { All (λ r. HasRead result.settings result.entries r.view) readers.items }
    {
        let Hub { cell, state } = self;
        let JournalState {
            lines,
            limit,
            mut baton,
            fold,
            name: _,
        } = state.into_inner();
        gather_feeds(&cell, &mut baton, feeds);
        gather_readers(&cell, &mut baton, readers);
        Journal {
            lines,
            limit,
            page: fold.page(),
            baton,
        }
    }
}
