//! The writer that publishes in tests.
ghost use Rattle.std.specs.Prelude.{◌≡◌, ◌≤◌, ◌<◌, [], length};
ghost use Rattle.page_cell.specs.Passes.{key_of};
ghost use Rattle.system_fold.specs.Settings.{AreValid};

use crate::loading::{Again, Meanwhile};
use crate::storing::begin;
use crate::{BatonPass, CellParts, FeedPass, PageCell, ReadPass, Receipt};
use clock_page::{Page, WORDS};
use journal_entry::{Entry, What};
use std::alloc::Global;
use std::marker::Model;
use system_fold::{FoldState, Settings, SourceKind};
use tick_units::{Local, Plan};

/// The baton's pass and a feed's, and what is folded of the list.
#[derive(Drop)]
pub struct Writer {
    pub baton: BatonPass,
    pub feed: FeedPass,
    fold: FoldState,
    feeds: u32,
    published: u64,
}

impl Model for Writer {
    ghost use Rattle.std.specs.Prelude.{◌≡◌, length};
    ghost use Rattle.page_cell.specs.Passes.{CellFields, key_of};
    ghost use Rattle.system_fold.specs.KeptFold.{StandsForJournal};

    ghost Value = { CellFields };

    ghost view = { λ w. record { table = w.baton.table } };

    ghost invariant = { λ w. (w.feed.table ≡ w.baton.table) × StandsForJournal w.fold (key_of w.baton.view) w.baton.view.list × (w.feeds ≡ length (key_of w.baton.view).sources) × (w.published ≡ length w.baton.view.list) };
}

// The zero of the counter.
fn beginning() -> Local {
    match Local::new(0) {
        Some(moment) => moment,
        None => unreachable!(),
    }
}

impl Writer {
    /// Nothing is published yet.
    pub fn new(baton: BatonPass, feed: FeedPass, settings: &Settings) -> Writer
        requires own { feed.table ≡ baton.table }
        requires fresh { (baton.view.list ≡ []) × (key_of baton.view ≡ settings.now) }
        requires valid { AreValid settings.now }
        ensures { result.table ≡ baton.table }
    {
        Writer {
            baton,
            feed,
            fold: FoldState::new(settings),
            feeds: settings.count(),
            published: 0,
        }
    }

    /// The feed announces that there is no leap second, up to a hundred times.
    pub fn publish(&mut self, cell: &PageCell)
        requires { self.old.table ≡ cell.now.table }
        ensures { self.new.table ≡ self.old.table }
    {
        let feed = self.feed.number();
        if feed >= self.feeds {
            return;
        }
        if self.published >= 100 {
            return;
        }
        let e = Entry {
            feed,
            at: beginning(),
            what: What::Notice(0),
        };
        self.fold.step(&e);
        let page = self.fold.page();
        cell.publish(&mut self.baton, &mut self.feed, &e, &page);
        self.published += 1;
    }

    /// Stores this many words of a page that is never published. There is nothing to ensure: the writer is gone, and no contract
    /// speaks of the words of a cell between two steps of a publishing.
    pub fn stop_half_way(self, cell: &PageCell, ten: &[u64; WORDS], count: usize)
        requires own { self.table ≡ cell.now.table }
        requires count { count ≤ 10 }
    {
        let Writer { baton, feed, .. } = self;
        let BatonPass { token, length } = baton;
        let mut baton_token = token;
        let FeedPass { token, .. } = feed;
        let mut feed_token = token;
        if length < 100 {
            begin(
                &cell.banks,
                &mut baton_token,
                &mut feed_token,
                length,
                ten,
                count,
            );
        }
    }
}

// One more feed, of a leap second file, up to 16 feeds in all.
fn add_leap(settings: &mut Settings)
    requires { AreValid settings.old }
    ensures { AreValid settings.new }
{
    if settings.count() >= 16 {
        return;
    }
    settings.add(SourceKind::Leap);
}

/// Settings with this many feeds, 1 to 16, the first of which is a radio.
pub fn of_one_radio(feeds: u32) -> Settings
    ensures { AreValid result }
{
    let mut settings = Settings::new(1000);
    settings.add(SourceKind::Radio(Plan::Dcf));
    for _ in 1..feeds {
        add_leap(&mut settings);
    }
    settings
}

/// A cell over one radio, with its writer and a reader.
#[derive(Drop)]
pub struct Shared {
    pub cell: PageCell,
    pub writer: Writer,
    pub reader: ReadPass,
    ghost own: { (writer.table ≡ cell.table) × (reader.table ≡ cell.table) },
}

impl Shared {
    /// With the last of this many readers, 1 to 8; nothing where there is not enough memory.
    pub fn open(alloc: Global, readers: u32) -> Option<Shared>
        requires { readers ≤ 8 }
    {
        let settings = of_one_radio(1);
        let Ok(parts) = PageCell::open(alloc, &settings, readers) else {
            return None;
        };
        let CellParts {
            cell,
            baton,
            mut feeds,
            mut readers,
        } = parts;
        let Some(feed) = feeds.pop() else {
            return None;
        };
        let Some(reader) = readers.pop() else {
            return None;
        };
        let writer = Writer::new(baton, feed, &settings);
        Some(Shared {
            cell,
            writer,
            reader,
        })
    }

    /// An entry more.
    pub fn publish(&mut self)
        ensures { self.new.cell ≡ self.old.cell }
    {
        self.writer.publish(&self.cell);
    }

    /// The length of the page that the reader reads next, and whether the page gives the time.
    pub fn read(&mut self) -> Option<(u64, bool)>
        ensures { self.new.cell ≡ self.old.cell }
    {
        match self.cell.try_read(&mut self.reader) {
            Ok(page) => Some((page.length, page.sync)),
            Err(_) => None,
        }
    }

    /// A receipt of all that the feed's pass has seen.
    pub fn receipt(&mut self) -> Receipt
        ensures cell { self.new.cell ≡ self.old.cell }
        ensures own { result.table ≡ self.new.cell.table }
    {
        self.cell.receipt(&mut self.writer.feed)
    }

    /// The reader learns what a receipt says.
    pub fn learn(&mut self, receipt: Receipt)
        requires own { receipt.table ≡ self.old.cell.table }
    {
        self.cell.learn(&mut self.reader, receipt);
    }

    /// A reading while half of a page is stored that is never published, and how much the reader has seen then.
    pub fn read_half_way(self) -> (Result<Page, Again>, u64) {
        let Shared {
            cell,
            writer,
            mut reader,
        } = self;
        writer.stop_half_way(&cell, &[7u64; 10], 5);
        let read = cell.try_read(&mut reader);
        (read, reader.seen())
    }

    /// A reading of which this many tries are torn. It gives the length of its page, how much the reader has seen then, and the
    /// length of the next page.
    pub fn read_torn(self, tries: u32) -> (Result<u64, Again>, u64, Result<u64, Again>) {
        let Shared {
            cell,
            writer,
            mut reader,
        } = self;
        let mut meanwhile = Interrupting {
            cell: &cell,
            writer,
            tries,
        };
        let answer = cell.read_during(&mut reader, &mut meanwhile);
        let seen = reader.seen();
        let after = cell.try_read(&mut reader);
        (length_of(answer), seen, length_of(after))
    }
}

// How many entries a page has.
fn length_of(read: Result<Page, Again>) -> Result<u64, Again> {
    match read {
        Ok(page) => Ok(page.length),
        Err(again) => Err(again),
    }
}

/// A writer that publishes in the middle of this many tries.
#[derive(Drop)]
pub struct Interrupting<'a> {
    pub cell: &'a PageCell,
    pub writer: Writer,
    pub tries: u32,
    ghost own: { writer.table ≡ cell.now.table },
}

impl Meanwhile for Interrupting<'_> {
    fn happens(&mut self) {
        if self.tries > 0 {
            self.tries -= 1;
            self.writer.publish(self.cell);
        }
    }
}
