//! The loads of a reading: at most four tries, each of them the count, ten words of its bank, and the count again.
ghost use Rattle.std.specs.Prelude.{◌≡◌, ◌≤◌, [], true, false, length, IfOk, IfErr, Some};
ghost use Rattle.clock_page.specs.Page.{AreWords, PageFields, words};
ghost use Rattle.page_cell.specs.Passes.{IsResting};
ghost use Rattle.page_cell.specs.Readings.{ReadsAgain, ReadsPage};
ghost use Rattle.page_cell.specs.Steps.{Holds};
ghost use Rattle.page_cell.specs.Tries.{ReadsOnce, ReportsTry, Tried};
ghost use Rattle.page_cell.specs.Views.{with_loaded};

use crate::steps::{Banks, BeginsTry, EndsTry, LoadsWord, LooksOver, Token};
use clock_page::{Page, WORDS};

/// A publishing met each of four tries of a reading: the two counts of the last one.
#[derive(Clone, Copy, Debug, PartialEq, Eq)]
pub struct Again {
    pub first: u64,
    pub second: u64,
}

/// What else happens in the middle of a try, before the second load of its count. A test publishes there; the program does nothing.
pub(crate) trait Meanwhile {
    fn happens(&mut self);
}

#[derive(Drop)]
pub(crate) struct Nothing;

impl Meanwhile for Nothing {
    fn happens(&mut self) {}
}

// The ten words of the bank of a count.
fn load_words(banks: &Banks, token: &mut Token, first: u64) -> [u64; WORDS]
    requires own { (token.old.table_id ≡ banks.now.shared.table_id) × (banks.now.shared.table_id.words ≡ 21) }
    requires trying { (token.old.me.0.watch.trying ≡ true) × (token.old.me.0.watch.first ≡ first) ×
        (token.old.me.0.watch.loaded ≡ []) }
    ensures own { token.new.table_id ≡ token.old.table_id }
    ensures me { token.new.me ≡ (with_loaded result 10 token.old.me.0, token.old.me.1) }
    ensures ten { length result ≡ 10 }
{
    let start = 1 + WORDS * (first as usize % 2);
    let mut ten = [0u64; WORDS];
    for i in 0..WORDS {
        ten[i] = banks.shared.load::<LoadsWord>(token, start + i);
    }
    ten
}

// One try.
fn attempt<M: Meanwhile>(
    banks: &Banks,
    token: &mut Token,
    meanwhile: &mut M,
) -> (u64, u64, [u64; WORDS])
    requires own { (token.old.table_id ≡ banks.now.shared.table_id) × (banks.now.shared.table_id.words ≡ 21) }
    ensures own { token.new.table_id ≡ token.old.table_id }
    ensures slots { token.new.me.1 ≡ token.old.me.1 }
    ensures greatest { token.old.me.0.watch.greatest ≤ result.0 }
    ensures reports { ReportsTry result.0 result.1 result.2 token.old.me.0 token.new.me.0 }
{
    let first = banks.shared.load::<BeginsTry>(token, 0);
    let ten = load_words(banks, token, first);
    meanwhile.happens();
    let second = banks.shared.load::<EndsTry>(token, 0);
    (first, second, ten)
}

// The page whose words these ten are.
fn page_in(ten: &[u64; WORDS]) -> Page
    requires { (p : PageFields) × AreWords ten.now p }
    ensures { AreWords ten.now result }
{
    match Page::of_words(*ten) {
        Some(page) => page,
        None => unreachable!(),
    }
}

/// At most four tries: the count and the page of the first in which the count stood still.
pub(crate) fn try_four<M: Meanwhile>(
    banks: &Banks,
    token: &mut Token,
    meanwhile: &mut M,
) -> Result<(u64, Page), Again>
    requires own { (token.old.table_id ≡ banks.now.shared.table_id) × (banks.now.shared.table_id.words ≡ 21) }
    requires rests { IsResting token.old.me.0 }
    ensures own { token.new.table_id ≡ token.old.table_id }
    ensures slots { token.new.me.1 ≡ token.old.me.1 }
    ensures ok { IfOk result (λ r. ReadsOnce token.old.me.0 r.0 (words r.1) token.new.me.0) }
    ensures page { IfOk result (λ r. ReadsPage token.old.me.0 token.new.me.0 r.1) }
    ensures tried { IfErr result (λ a. Tried 4 token.old.me.0 token.new.me.0) }
    ensures again { IfErr result (λ a. ReadsAgain token.old.me.0 token.new.me.0 a.first a.second) }
{
    let mut last = (0, 0);
    for i in 0..4u64 {
        let (first, second, ten) = attempt(banks, token, meanwhile);
        if second == first {
            return Ok((first, page_in(&ten)));
        }
        last = (first, second);
    }
    let (first, second) = last;
    Err(Again { first, second })
}

/// A load by which a pass with the baton learns that all that it keeps is true.
pub(crate) fn look(banks: &Banks, token: &mut Token)
    requires own { (token.old.table_id ≡ banks.now.shared.table_id) × (banks.now.shared.table_id.words ≡ 21) }
    requires holds { (token.old.me.0.spent ≡ false) × (token.old.me.0.baton ≡ true) }
    ensures own { token.new.table_id ≡ token.old.table_id }
    ensures me { token.new.me ≡ token.old.me }
    ensures reported { Holds token.old.me.0 }
{
    banks.shared.load::<LooksOver>(token, 0);
}
