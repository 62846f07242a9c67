//! The rule of the table, and its kinds of step: what each shows, how passes are split and joined.
use crate::view::View;
use atomic_table::{Join, Play, Seat, Split, Table, TableRule};
use journal_entry::Entry;
use std::alloc::Global;
use std::marker::{Brand, PhantomData};
use system_fold::Settings;

/// The rule: the count is the number of entries, and its bank has the words of their page.
pub struct PageRule;

impl TableRule<u64, View, Settings> for PageRule {
    ghost use Rattle.page_cell.specs.Views.{opened_by};
    ghost use Rattle.page_cell.specs.Rule.{Kept};

    ghost holds = { Kept };

    ghost first = { opened_by };
}

/// The table: a count and two banks of ten words, and the settings as its key.
pub type Banks = Table<u64, View, Settings, PageRule, Global>;

/// The pass with which a step is made. It has no bytes.
pub type Token = Seat<u64, View>;

/// Names the entry that a store of the count publishes.
pub trait Published {
    ghost use Rattle.journal_entry.specs.declared.entry.Entry.{Entry};

    ghost entry: { Entry };
}

impl Published for Brand {
    ghost use Rattle.page_cell.specs.Views.{no_entry};

    ghost entry = { no_entry };
}

// A store of a word of the idle bank.
pub struct StoresWord;

impl Play<u64, View> for StoresWord {
    ghost use Rattle.page_cell.specs.Steps.{Stores};

    ghost then = { Stores };
}

// The store of the count.
pub struct PublishesEntry<K: Published> {
    entry: PhantomData<K>,
}

impl<K: Published> Play<u64, View> for PublishesEntry<K> {
    ghost use Rattle.page_cell.specs.Steps.{Publishes};

    ghost then = { Publishes K.entry };
}

// The first load of the count in a try.
pub struct BeginsTry;

impl Play<u64, View> for BeginsTry {
    ghost use Rattle.page_cell.specs.Steps.{Begins};

    ghost then = { Begins };
}

// A load of the next word of the bank.
pub struct LoadsWord;

impl Play<u64, View> for LoadsWord {
    ghost use Rattle.page_cell.specs.Steps.{Loads};

    ghost then = { Loads };
}

// The second load of the count in a try.
pub struct EndsTry;

impl Play<u64, View> for EndsTry {
    ghost use Rattle.page_cell.specs.Steps.{Ends};

    ghost then = { Ends };
}

// A load by which a pass with the baton learns that what it keeps is true.
pub struct LooksOver;

impl Play<u64, View> for LooksOver {
    ghost use Rattle.page_cell.specs.Steps.{Looks};

    ghost then = { Looks };
}

// The baton's pass gives the next feed's pass.
pub struct GivesFeed;

impl Split<View> for GivesFeed {
    ghost use Rattle.page_cell.specs.Views.{one_given, new_feed};

    ghost left = { one_given };

    ghost right = { new_feed };
}

// A pass gives one that knows only the settings.
pub struct GivesReader;

impl Split<View> for GivesReader {
    ghost use Rattle.page_cell.specs.Views.{emptied};

    ghost left = { λ v. v };

    ghost right = { emptied };
}

// A feed's pass that has the baton hands it on, and has seen all.
pub struct HandsBack;

impl Split<View> for HandsBack {
    ghost use Rattle.page_cell.specs.Views.{without_baton, baton_of};

    ghost left = { without_baton };

    ghost right = { baton_of };
}

// All that a pass knows goes to a new pass.
pub struct Cuts;

impl Split<View> for Cuts {
    ghost use Rattle.page_cell.specs.Views.{emptied};

    ghost left = { emptied };

    ghost right = { λ v. v };
}

// A feed's pass gives a pass that has seen as much.
pub struct GivesReceipt;

impl Split<View> for GivesReceipt {
    ghost use Rattle.page_cell.specs.Views.{receipt_of};

    ghost left = { λ v. v };

    ghost right = { receipt_of };
}

// A pass takes in another.
pub struct Takes;

impl Join<View> for Takes {
    ghost use Rattle.page_cell.specs.Views.{both, nobody};

    ghost both = { both };

    ghost spent = { nobody };
}
