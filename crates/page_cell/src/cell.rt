//! The page that threads share: two banks of ten words beside a count.
ghost use Rattle.std.specs.Prelude.{◌≡◌, ◌<◌, ◌≤◌, ◌^◌, ◌++◌, ◌∷◌, [], length, max, All, IfOk, IfErr};
ghost use mathlib.Core.List.{IsPrefix};
ghost use Rattle.page_cell.specs.Claims.{IsReading, IsTally, IsTrueOf};
ghost use Rattle.page_cell.specs.Passes.{key_of, claim_of};
ghost use Rattle.page_cell.specs.Readings.{ReadsAgain, ReadsPage};
ghost use Rattle.system_fold.specs.Page.{page_of};

use crate::loading::{Again, Meanwhile, Nothing, look, try_four};
use crate::passes::{BatonPass, FeedPass, ReadPass, Receipt};
use crate::steps::{Banks, Cuts, GivesReceipt, HandsBack, Takes};
use crate::storing::{begin, store_count};
use clock_page::{Page, WORDS};
use journal_entry::Entry;
use std::marker::{Brand, Model};

/// The page that threads share, in two banks of ten words beside a count, which is the number of entries. Threads read its words
/// without a lock. Contracts know it by its table: a pass is of this cell where its table is the cell's.
#[derive(Drop)]
pub struct PageCell {
    pub(crate) banks: Banks,
}

impl Model for PageCell {
    ghost use Rattle.std.specs.Prelude.{◌≡◌};
    ghost use Rattle.page_cell.specs.Passes.{CellFields};

    ghost Value = { CellFields };

    ghost view = { λ c. record { table = c.banks.shared.table_id } };

    ghost invariant = { λ c. c.banks.shared.table_id.words ≡ 21 };
}

impl PageCell {
    /// Puts an entry after the list, and makes its page the page that is read. It makes ten stores into the idle bank, and then
    /// one of the count. It answers how many entries there are with it, at most 2^22.
    pub fn publish(&self, b: &mut BatonPass, f: &mut FeedPass, e: &Entry, p: &Page) -> u64
        requires baton { b.old.table ≡ self.now.table }
        requires feed { f.old.table ≡ self.now.table }
        requires number { e.now.feed ≡ (claim_of f.old.view).number }
        requires room { length b.old.view.list < 2 ^ 22 }
        requires page { p.now ≡ page_of (key_of b.old.view) (b.old.view.list ++ e.now ∷ []) }
        ensures cell { (b.new.table ≡ b.old.table) × (f.new.table ≡ f.old.table) }
        ensures settings { key_of b.new.view ≡ key_of b.old.view }
        ensures list { b.new.view.list ≡ b.old.view.list ++ e.now ∷ [] }
        ensures number { (claim_of f.new.view).number ≡ (claim_of f.old.view).number }
        ensures own { (claim_of f.new.view).own ≡ (claim_of f.old.view).own ++ e.now ∷ [] }
        ensures seen { (claim_of f.new.view).seen ≡ b.new.view.list }
        ensures before { IsPrefix (claim_of f.old.view).seen b.old.view.list }
        ensures length { result ≡ length b.new.view.list }
    {
        let total = b.length + 1;
        begin(
            &self.banks,
            &mut b.token,
            &mut f.token,
            b.length,
            &p.to_words(),
            WORDS,
        );
        store_count::<Brand>(&self.banks, &mut f.token, e, total);
        b.token = self.banks.shared.split_seat::<HandsBack>(&mut f.token);
        b.length = total;
        f.length = total;
        total
    }

    // A reading during which something else may happen.
    pub(crate) fn read_during<M: Meanwhile>(
        &self,
        r: &mut ReadPass,
        meanwhile: &mut M,
    ) -> Result<Page, Again>
        requires { r.old.table ≡ self.now.table }
        ensures cell { (r.new.table ≡ r.old.table) × (r.new.number ≡ r.old.number) }
        ensures ok { IfOk result (λ p. ReadsPage r.old.view r.new.view p) }
        ensures again { IfErr result (λ a. ReadsAgain r.old.view r.new.view a.first a.second) }
    {
        match try_four(&self.banks, &mut r.token, meanwhile) {
            Ok((length, page)) => {
                r.seen = length;
                Ok(page)
            }
            Err(again) => Err(again),
        }
    }

    /// The page of this many first entries, no fewer than the pass had seen, or `Again` where each of four tries met a
    /// publishing. It takes no lock, waits for no thread, and makes at most 48 loads.
    pub fn try_read(&self, r: &mut ReadPass) -> Result<Page, Again>
        requires { r.old.table ≡ self.now.table }
        ensures cell { (r.new.table ≡ r.old.table) × (r.new.number ≡ r.old.number) }
        ensures ok { IfOk result (λ p. ReadsPage r.old.view r.new.view p) }
        ensures again { IfErr result (λ a. ReadsAgain r.old.view r.new.view a.first a.second) }
    {
        self.read_during(r, &mut Nothing)
    }

    /// A receipt of all that a feed's pass has seen.
    pub fn receipt(&self, f: &mut FeedPass) -> Receipt
        requires { f.old.table ≡ self.now.table }
        ensures same { f.new ≡ f.old }
        ensures cell { result.table ≡ f.old.table }
        ensures length { result.view.seen ≡ length (claim_of f.old.view).seen }
    {
        let token = self.banks.shared.split_seat::<GivesReceipt>(&mut f.token);
        Receipt {
            length: f.length,
            token,
        }
    }

    /// Afterwards a reader's pass has seen at least as many entries as the receipt says.
    pub fn learn(&self, r: &mut ReadPass, t: Receipt)
        requires reader { r.old.table ≡ self.now.table }
        requires receipt { t.table ≡ self.now.table }
        ensures cell { (r.new.table ≡ r.old.table) × (r.new.number ≡ r.old.number) }
        ensures seen { r.new.view.seen ≡ max r.old.view.seen t.view.seen }
        ensures readings { r.new.view.readings ≡ r.old.view.readings }
        ensures watch { r.new.view.watch ≡ r.old.view.watch }
    {
        let Receipt { length, token } = t;
        self.banks.shared.join_seat::<Takes>(&mut r.token, token);
        if r.seen < length {
            r.seen = length;
        }
    }

    /// Afterwards a feed's pass has seen the whole list.
    pub fn show(&self, b: &mut BatonPass, f: &mut FeedPass)
        requires baton { b.old.table ≡ self.now.table }
        requires feed { f.old.table ≡ self.now.table }
        ensures cell { (b.new.table ≡ b.old.table) × (f.new.table ≡ f.old.table) }
        ensures settings { key_of b.new.view ≡ key_of b.old.view }
        ensures list { b.new.view.list ≡ b.old.view.list }
        ensures number { (claim_of f.new.view).number ≡ (claim_of f.old.view).number }
        ensures own { (claim_of f.new.view).own ≡ (claim_of f.old.view).own }
        ensures seen { (claim_of f.new.view).seen ≡ b.old.view.list }
        ensures before { IsPrefix (claim_of f.old.view).seen b.old.view.list }
    {
        let whole = self.banks.shared.split_seat::<Cuts>(&mut b.token);
        self.banks.shared.join_seat::<Takes>(&mut f.token, whole);
        look(&self.banks, &mut f.token);
        b.token = self.banks.shared.split_seat::<HandsBack>(&mut f.token);
        f.length = b.length;
    }

    /// Takes back a feed's pass: what it claims is true of the whole list.
    pub fn gather_feed(&self, b: &mut BatonPass, f: FeedPass)
        requires baton { b.old.table ≡ self.now.table }
        requires feed { f.table ≡ self.now.table }
        ensures cell { b.new.table ≡ b.old.table }
        ensures settings { key_of b.new.view ≡ key_of b.old.view }
        ensures list { b.new.view.list ≡ b.old.view.list }
        ensures claim { IsTrueOf b.old.view.list (claim_of f.view) }
    {
        let FeedPass { token, .. } = f;
        let mut token = token;
        let whole = self.banks.shared.split_seat::<Cuts>(&mut token);
        self.banks.shared.join_seat::<Takes>(&mut b.token, whole);
        look(&self.banks, &mut b.token);
    }

    /// Takes back a reader's pass: each of its readings is of the page of a beginning of the whole list.
    pub fn gather_reader(&self, b: &mut BatonPass, r: ReadPass)
        requires baton { b.old.table ≡ self.now.table }
        requires reader { r.table ≡ self.now.table }
        ensures cell { b.new.table ≡ b.old.table }
        ensures settings { key_of b.new.view ≡ key_of b.old.view }
        ensures list { b.new.view.list ≡ b.old.view.list }
        ensures seen { r.view.seen ≤ length b.old.view.list }
        ensures readings { All (IsReading (key_of b.old.view) b.old.view.list) r.view.readings }
        ensures tally { IsTally (length b.old.view.list) (r.view.watch.torn, r.view.watch.greatest) }
    {
        let ReadPass { token, .. } = r;
        let mut token = token;
        let whole = self.banks.shared.split_seat::<Cuts>(&mut token);
        self.banks.shared.join_seat::<Takes>(&mut b.token, whole);
        look(&self.banks, &mut b.token);
    }
}
