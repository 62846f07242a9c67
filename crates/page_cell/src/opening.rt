//! Opening a cell, with all passes that it will have.
ghost use Rattle.std.specs.Prelude.{◌≡◌, ◌+◌, ◌<◌, ◌≤◌, [], length, map, All, IfOk, slice_index, vec_len};
ghost use Rattle.std.specs.List.{range_with_len};
ghost use Rattle.page_cell.specs.Passes.{key_of, claim_of};
ghost use Rattle.page_cell.specs.Rule.{HasBank};
ghost use Rattle.page_cell.specs.Views.{new_claim, opened_by};
ghost use Rattle.system_fold.specs.Settings.{AreValid};

use crate::cell::PageCell;
use crate::passes::{BatonPass, FeedPass, ReadPass};
use crate::steps::{Banks, GivesFeed, GivesReader};
use clock_page::WORDS;
use std::alloc::Global;
use system_fold::{FoldState, Settings};

/// A cell and all of its passes: one with the baton, one for each feed in the order of the settings, and one for each reader.
#[derive(Drop)]
pub struct CellParts {
    pub cell: PageCell,
    pub baton: BatonPass,
    pub feeds: Vec<FeedPass>,
    pub readers: Vec<ReadPass>,
}

/// Why a cell was not opened.
#[derive(Clone, Copy, Debug, PartialEq, Eq)]
pub enum CellOpen {
    /// There was not enough memory.
    Memory,
}

// The words of a table: the count, and a page in each bank.
const TABLE_WORDS: usize = 1 + 2 * WORDS;

// The words of a table in which the bank of the count 0 has these ten.
fn first_words(ten: &[u64; WORDS]) -> [u64; TABLE_WORDS]
    requires { length ten.now ≡ 10 }
    ensures { (length result ≡ 21) × (slice_index result 0 ≡ 0) × HasBank result 0 ten.now }
{
    let mut all = [0u64; TABLE_WORDS];
    for i in 0..WORDS {
        all[i + 1] = ten[i];
    }
    all
}

// The cell with the page of no entry, and its first pass.
fn first_pass(alloc: Global, s: &Settings) -> Result<(PageCell, BatonPass), CellOpen>
    requires { AreValid s.now }
    ensures cell { IfOk result (λ r. r.1.table ≡ r.0.table) }
    ensures view { IfOk result (λ r. r.1.view ≡ opened_by s.now) }
{
    let ten = FoldState::new(s).page().to_words();
    let Ok((banks, token)) = Banks::of_words(alloc, &first_words(&ten), s) else {
        return Err(CellOpen::Memory);
    };
    Ok((PageCell { banks }, BatonPass { length: 0, token }))
}

impl PageCell {
    // The next feed's pass.
    fn give_feed(&self, b: &mut BatonPass, number: u32) -> FeedPass
        requires own { b.old.table ≡ self.now.table }
        requires next { number ≡ b.old.view.given }
        requires room { number < length (key_of b.old.view).sources }
        ensures cell { (b.new.table ≡ b.old.table) × (result.table ≡ b.old.table) }
        ensures baton { (b.new.view.list ≡ b.old.view.list) × (key_of b.new.view ≡ key_of b.old.view) ×
            (b.new.view.given ≡ number + 1) }
        ensures feed { claim_of result.view ≡ new_claim number }
    {
        let token = self.banks.shared.split_seat::<GivesFeed>(&mut b.token);
        FeedPass {
            number,
            length: 0,
            token,
        }
    }

    // A reader's pass.
    fn give_reader(&self, b: &mut BatonPass, number: u32) -> ReadPass
        requires { b.old.table ≡ self.now.table }
        ensures cell { result.table ≡ b.old.table }
        ensures same { b.new ≡ b.old }
        ensures number { result.number ≡ number }
        ensures reader { (result.view.seen ≡ 0) × (result.view.readings ≡ []) × (result.view.watch.torn ≡ 0) }
    {
        let token = self.banks.shared.split_seat::<GivesReader>(&mut b.token);
        ReadPass {
            number,
            seen: 0,
            token,
        }
    }

    // A pass for each feed, in order.
    fn give_feeds(
        &self,
        alloc: Global,
        b: &mut BatonPass,
        count: u32,
    ) -> Result<Vec<FeedPass>, CellOpen>
        requires own { b.old.table ≡ self.now.table }
        requires none { b.old.view.given ≡ 0 }
        requires room { count ≤ length (key_of b.old.view).sources }
        ensures cell { b.new.table ≡ b.old.table }
        ensures baton { (b.new.view.list ≡ b.old.view.list) × (key_of b.new.view ≡ key_of b.old.view) }
        ensures claims { IfOk result
            (λ fs. map (λ f. claim_of f.view) fs.items ≡ map new_claim (range_with_len 0 count)) }
        ensures feeds { IfOk result (λ fs. All (λ f. f.table ≡ self.now.table) fs.items) }
    {
        let mut feeds = Vec::new(alloc);
        for number in 0..count {
            let feed = self.give_feed(b, number);
            let Ok(()) = feeds.push(feed) else {
                return Err(CellOpen::Memory);
            };
        }
        Ok(feeds)
    }

    // Passes for this many readers.
    fn give_readers(
        &self,
        alloc: Global,
        b: &mut BatonPass,
        count: u32,
    ) -> Result<Vec<ReadPass>, CellOpen>
        requires { b.old.table ≡ self.now.table }
        ensures same { b.new ≡ b.old }
        ensures readers { IfOk result
            (λ rs. All (λ r. (r.table ≡ self.now.table) × (r.view.seen ≡ 0) × (r.view.readings ≡ []) ×
            (r.view.watch.torn ≡ 0)) rs.items) }
        ensures numbers { IfOk result (λ rs. map (λ r. r.number) rs.items ≡ range_with_len 0 count) }
        ensures count { IfOk result (λ rs. vec_len rs ≡ count) }
    {
        let mut readers = Vec::new(alloc);
        for number in 0..count {
            let reader = self.give_reader(b, number);
            let Ok(()) = readers.push(reader) else {
                return Err(CellOpen::Memory);
            };
        }
        Ok(readers)
    }

    /// Opens a cell with the page of no entry: a pass for each feed of the settings, and for this many readers, at most 8.
    pub fn open(alloc: Global, s: &Settings, readers: u32) -> Result<CellParts, CellOpen>
        requires valid { AreValid s.now }
        requires few { readers ≤ 8 }
        ensures baton { IfOk result
            (λ p. (p.baton.table ≡ p.cell.table) × (p.baton.view.list ≡ []) × (key_of p.baton.view ≡ s.now)) }
        ensures claims { IfOk result
            (λ p. map (λ f. claim_of f.view) p.feeds.items ≡ map new_claim (range_with_len 0 (length s.now.sources))) }
        ensures feeds { IfOk result (λ p. All (λ f. f.table ≡ p.cell.table) p.feeds.items) }
        ensures readers { IfOk result
            (λ p. All (λ r. (r.table ≡ p.cell.table) × (r.view.seen ≡ 0) × (r.view.readings ≡ []) ×
            (r.view.watch.torn ≡ 0)) p.readers.items) }
        ensures numbers { IfOk result (λ p. map (λ r. r.number) p.readers.items ≡ range_with_len 0 readers) }
        ensures count { IfOk result (λ p. vec_len p.readers ≡ readers) }
    {
        let (cell, mut baton) = first_pass(alloc, s)?;
        let feeds = cell.give_feeds(alloc, &mut baton, s.count())?;
        let readers = cell.give_readers(alloc, &mut baton, readers)?;
        Ok(CellParts {
            cell,
            baton,
            feeds,
            readers,
        })
    }
}
