//! The minutes that tests append to a journal, from one thread or beside a reader, and what is right of the journal then.
ghost use Rattle.std.specs.Prelude.{◌≡◌, ◌<◌, ◌≤◌, ◌^◌, [], All, IfSome, length};
ghost use Rattle.feed_workers.specs.Keeping.{IsOfFeed};
ghost use Rattle.journal_entry.specs.Valid.{IsValidWhat};
ghost use Rattle.page_cell.specs.Passes.{claim_of};
ghost use Rattle.system_fold.specs.Settings.{AreValid};

use crate::shared::settings_of;
use clock_page::Page;
use journal_entry::{Entry, Numbered, What};
use page_cell::{FeedPass, PageCell, ReadPass};
use std::alloc::Global;
use std::sync::Wait;
use system_fold::{FoldState, Settings, SourceKind};
use tick_units::{Kind, Local, Plan};
use verdict_journal::{Full, Hub, HubName, Journal};

/// Settings with this many DCF77 radios, 1 to 16.
pub fn of_radios(radios: u32) -> Settings
    ensures valid { AreValid result }
    ensures some { 0 < length result.sources }
{
    let mut settings = settings_of(SourceKind::Radio(Plan::Dcf));
    for number in 1..radios {
        if settings.count() == number && number < 16 {
            settings.add(SourceKind::Radio(Plan::Dcf));
        }
    }
    settings
}

/// The minute of this number, from 2026-01-01 12:00 UTC on, as a radio gives it: up to a millisecond late.
pub fn minute(feed: u32, number: u64) -> Option<Entry>
    requires { number < 2 ^ 20 }
    ensures { IfSome result (λ e. (e.feed ≡ feed) × IsValidWhat e.what) }
{
    let at = Local::new(2_000_000 + 60_000_000 * number + number * 7919 % 1000)?;
    Some(Entry {
        feed,
        at,
        what: What::Heard(Kind::Verdict {
            second: 3_976_257_600 + 60 * number,
            leap_at: 0,
        }),
    })
}

/// Appends the minute of this number to the journal.
pub fn enter<N: HubName, R: Wait>(
    rt: &R,
    hub: &Hub<N>,
    pass: &mut FeedPass,
    number: u64,
) -> Option<Result<u64, Full>>
    requires pass { IsOfFeed N.table (length N.settings.sources) (claim_of pass.old.view).number pass.old }
    requires number { number < 2 ^ 20 }
    ensures { IsOfFeed N.table (length N.settings.sources) (claim_of pass.new.view).number pass.new }
{
    let e = minute(pass.number(), number)?;
    Some(hub.append(rt, pass, e))
}

/// Appends this many minutes, and answers how many were taken.
pub fn append_all<N: HubName, R: Wait>(
    rt: &R,
    hub: &Hub<N>,
    mut pass: FeedPass,
    count: u64,
) -> (FeedPass, u64)
    requires pass { IsOfFeed N.table (length N.settings.sources) (claim_of pass.view).number pass }
    requires count { count ≤ 2 ^ 20 }
    ensures { result.0.table ≡ N.table }
{
    let mut taken = 0u64;
    for number in 0..count {
        if let Some(Ok(_)) = enter(rt, hub, &mut pass, number) {
            taken = taken.saturating_add(1);
        }
    }
    (pass, taken)
}

/// What a reader saw: each page of another length than the one before, and how many readings met four publishings. It also says
/// whether each page of the same length was the same page and lengths never fell.
#[derive(Drop)]
pub struct Seen {
    pub pages: Vec<Page>,
    pub in_order: bool,
    pub agains: u64,
}

/// Notes a reading.
fn note(seen: &mut Seen, page: Page) {
    if let Some(last) = seen.pages.last() {
        if page.length == last.length {
            if page != *last {
                seen.in_order = false;
            }
            return;
        }
        if page.length < last.length {
            seen.in_order = false;
        }
    }
    if seen.pages.push(page).is_err() {
        seen.in_order = false;
    }
}

/// Reads this many times.
pub fn read_all(alloc: Global, cell: &PageCell, mut pass: ReadPass, count: u64) -> (ReadPass, Seen)
    requires { pass.table ≡ cell.now.table }
    ensures { result.0.table ≡ cell.now.table }
{
    let mut seen = Seen {
        pages: Vec::new(alloc),
        in_order: true,
        agains: 0,
    };
    for _ in 0..count {
        match cell.try_read(&mut pass) {
            Ok(page) => note(&mut seen, page),
            Err(_) => seen.agains = seen.agains.saturating_add(1),
        }
    }
    (pass, seen)
}

// Whether the next page of these, if it has the length of this one, is this one, and how many of them are checked then.
fn met(pages: &[Page], next: usize, page: &Page) -> Option<usize> {
    let Some(read) = pages.get(next) else {
        return Some(next);
    };
    if read.length != page.length {
        return Some(next);
    }
    if *read != *page {
        return None;
    }
    Some(next.saturating_add(1))
}

/// Whether the journal has the minutes of one radio up to a number, each line with its number and the rate after it. Each of the
/// pages after them also has to be the page of a beginning of the journal.
pub fn are_of(journal: &Journal, pages: &[Page], settings: &Settings, count: u64) -> bool
    requires valid { AreValid settings.now }
    requires some { 0 < length settings.now.sources }
    requires count { count ≤ 2 ^ 20 }
{
    let mut fold = FoldState::new(settings);
    let mut next = 0;
    for number in 0..count {
        let Some(now) = met(pages, next, &fold.page()) else {
            return false;
        };
        next = now;
        let Some(entry) = minute(0, number) else {
            return false;
        };
        fold.step(&entry);
        let line = Numbered {
            length: number + 1,
            rate: fold.page().rate,
            entry,
        };
        if journal.numbered(number as usize) != Some(line) {
            return false;
        }
    }
    let Some(now) = met(pages, next, &fold.page()) else {
        return false;
    };
    now == pages.len() && fold.page() == journal.page()
}
