//! The stores of a publishing: the words of the next page go to the idle bank, and the count follows them.
ghost use Rattle.std.specs.Prelude.{◌≡◌, ◌+◌, ◌<◌, ◌≤◌, ◌^◌, ◌++◌, ◌∷◌, [], true, length, take, All};
ghost use mathlib.Core.List.{IsPrefix};
ghost use Rattle.clock_page.specs.Page.{AreWords};
ghost use Rattle.page_cell.specs.Passes.{key_of, IsBaton, IsFeed, IsPublisher};
ghost use Rattle.page_cell.specs.Views.{added, both, with_stored};
ghost use Rattle.system_fold.specs.Page.{page_of};

use crate::steps::{Banks, Cuts, Published, PublishesEntry, StoresWord, Takes, Token};
use clock_page::WORDS;
use journal_entry::Entry;

// Stores the first words of the next page into the idle bank.
fn store_words(banks: &Banks, token: &mut Token, total: u64, ten: &[u64; WORDS], count: usize)
    requires own { (token.old.table_id ≡ banks.now.shared.table_id) × (banks.now.shared.table_id.words ≡ 21) }
    requires baton { (token.old.me.0.baton ≡ true) × (token.old.me.0.stored ≡ []) }
    requires total { (total ≡ length token.old.me.0.list) × (total < 2 ^ 63) }
    requires count { count ≤ 10 }
    ensures own { token.new.table_id ≡ token.old.table_id }
    ensures me { token.new.me ≡ (with_stored (take count ten.now) token.old.me.0, token.old.me.1) }
{
    let start = 1 + WORDS * ((total as usize + 1) % 2);
    for i in 0..count {
        banks.shared.store::<StoresWord>(token, start + i, ten[i]);
    }
}

/// A feed's pass takes the baton, and stores this many words of the next page.
pub(crate) fn begin(
    banks: &Banks,
    baton: &mut Token,
    feed: &mut Token,
    total: u64,
    ten: &[u64; WORDS],
    count: usize,
)
    requires own { (baton.old.table_id ≡ banks.now.shared.table_id) × (feed.old.table_id ≡ banks.now.shared.table_id) ×
        (banks.now.shared.table_id.words ≡ 21) }
    requires baton { IsBaton total baton.old.me.0 }
    requires feed { (number : _) × (n : _) × IsFeed number n feed.old.me.0 }
    requires count { (count ≤ 10) × (total < 2 ^ 63) }
    ensures own { (baton.new.table_id ≡ baton.old.table_id) × (feed.new.table_id ≡ feed.old.table_id) }
    ensures me { feed.new.me ≡ (with_stored (take count ten.now) (both feed.old.me.0 baton.old.me.0), feed.old.me.1) }
{
    let whole = banks.shared.split_seat::<Cuts>(baton);
    banks.shared.join_seat::<Takes>(feed, whole);
    store_words(banks, feed, total, ten, count);
}

/// The store of the count, which publishes the words that were stored.
pub(crate) fn store_count<K: Published>(banks: &Banks, token: &mut Token, e: &Entry, total: u64)
    requires own { (token.old.table_id ≡ banks.now.shared.table_id) × (banks.now.shared.table_id.words ≡ 21) }
    requires entry { e.now ≡ K.entry }
    requires publisher { (before : _) × IsPublisher e.now.feed before token.old.me.0 }
    requires total { total ≡ length (token.old.me.0.list ++ e.now ∷ []) }
    requires stored { AreWords token.old.me.0.stored
        (page_of (key_of token.old.me.0) (token.old.me.0.list ++ e.now ∷ [])) }
    ensures own { token.new.table_id ≡ token.old.table_id }
    ensures me { token.new.me ≡ (added e.now token.old.me.0, token.old.me.1) }
    ensures seen { All (λ c. IsPrefix c.seen token.old.me.0.list) token.old.me.0.feeds }
{
    banks.shared.store::<PublishesEntry<K>>(token, 0, total);
}
