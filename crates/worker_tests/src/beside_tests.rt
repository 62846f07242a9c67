//! Threads that append beside a reader.
ghost use Rattle.std.specs.Prelude.{◌≡◌, ◌<◌, ◌≤◌, ◌^◌, [], All, IfSome, length};
ghost use Rattle.feed_workers.specs.Keeping.{IsOfFeed};
ghost use Rattle.page_cell.specs.Passes.{claim_of, key_of};
ghost use Rattle.system_fold.specs.Settings.{AreValid};

use crate::minutes::{Seen, append_all, are_of, minute, of_radios, read_all};
use crate::shared::{pop_feed, put_back, same};
use clock_page::Page;
use page_cell::{CellParts, FeedPass, PageCell, ReadPass};
use std::alloc::Global;
use std::marker::Brand;
use std::process::Abort;
use std::sync::Wait;
use std::thread::{Threads, join};
use system_fold::Settings;
use verdict_journal::{Hub, HubName, HubParts, Journal};

// A feed's pass and the number of minutes it appended; a reader's pass and what it saw.
type RanBeside = ((FeedPass, u64), (ReadPass, Seen));

// A feed appends this many minutes beside a reader that reads this many times.
fn beside<N: HubName + Send + Sync, R: Threads + Wait + Sync>(
    rt: &R,
    alloc: Global,
    hub: &Hub<N>,
    pass: FeedPass,
    reader: ReadPass,
    count: u64,
    readings: u64,
) -> RanBeside
    requires pass { IsOfFeed N.table (length N.settings.sources) (claim_of pass.view).number pass }
    requires reader { reader.table ≡ N.table }
    requires count { count ≤ 2 ^ 20 }
    ensures { (result.0.0.table ≡ N.table) × (result.1.0.table ≡ N.table) }
{
    join(
        rt,
        || -> (FeedPass, u64)
            requires { IsOfFeed N.table (length N.settings.sources) (claim_of pass.view).number pass × (count ≤ 2 ^ 20) }
            ensures { result.0.table ≡ N.table }
        { append_all(rt, hub, pass, count) },
        || -> (ReadPass, Seen)
            requires { reader.table ≡ N.table }
            ensures { result.0.table ≡ N.table }
        { read_all(alloc, hub.cell(), reader, readings) },
    )
}

// What threads did: how many of its minutes each feed appended, or 0 for a feed that is not there; what the reader saw; and the
// journal.
type Done = ((u64, u64), Seen, Journal);

// Two feeds append this many minutes each beside a reader.
fn both_beside<N: HubName + Send + Sync, R: Threads + Wait + Sync>(
    rt: &R,
    alloc: Global,
    hub: &Hub<N>,
    first: FeedPass,
    last: FeedPass,
    reader: ReadPass,
    count: u64,
    readings: u64,
) -> ((FeedPass, u64), RanBeside)
    requires first { IsOfFeed N.table (length N.settings.sources) (claim_of first.view).number first }
    requires last { IsOfFeed N.table (length N.settings.sources) (claim_of last.view).number last }
    requires reader { reader.table ≡ N.table }
    requires count { count ≤ 2 ^ 20 }
    ensures first { result.0.0.table ≡ N.table }
    ensures others { (result.1.0.0.table ≡ N.table) × (result.1.1.0.table ≡ N.table) }
{
    join(
        rt,
        || -> (FeedPass, u64)
            requires { IsOfFeed N.table (length N.settings.sources) (claim_of first.view).number first × (count ≤ 2 ^ 20) }
            ensures { result.0.table ≡ N.table }
        { append_all(rt, hub, first, count) },
        || -> RanBeside
            requires { IsOfFeed N.table (length N.settings.sources) (claim_of last.view).number last × (reader.table ≡ N.table) × (count ≤ 2 ^ 20) }
            ensures { (result.0.0.table ≡ N.table) × (result.1.0.table ≡ N.table) }
        { beside(rt, alloc, hub, last, reader, count, readings) },
    )
}

// The same of one feed, and of another where there is one.
fn all_beside<N: HubName + Send + Sync, R: Threads + Wait + Sync>(
    rt: &R,
    alloc: Global,
    hub: &Hub<N>,
    feed: FeedPass,
    other: Option<FeedPass>,
    reader: ReadPass,
    count: u64,
    readings: u64,
) -> ((Option<FeedPass>, u64), RanBeside)
    requires feed { IsOfFeed N.table (length N.settings.sources) (claim_of feed.view).number feed }
    requires other { IfSome other (λ f. IsOfFeed N.table (length N.settings.sources) (claim_of f.view).number f) }
    requires reader { reader.table ≡ N.table }
    requires count { count ≤ 2 ^ 20 }
    ensures other { IfSome result.0.0 (λ f. f.table ≡ N.table) }
    ensures ran { (result.1.0.0.table ≡ N.table) × (result.1.1.0.table ≡ N.table) }
{
    let Some(other) = other else {
        return (
            (None, 0),
            beside(rt, alloc, hub, feed, reader, count, readings),
        );
    };
    let ((other, taken), ran) = both_beside(rt, alloc, hub, other, feed, reader, count, readings);
    ((Some(other), taken), ran)
}

// Puts a reader's pass back. Where memory is short, it is lost.
fn put_reader_back<N: HubName>(readers: &mut Vec<ReadPass>, pass: ReadPass)
    requires readers { All (λ r. r.table ≡ N.table) readers.old.items }
    requires pass { pass.table ≡ N.table }
    ensures { All (λ r. r.table ≡ N.table) readers.new.items }
{
    match readers.push(pass) {
        Ok(()) | Err(_) => {}
    }
}

// One feed or two append this many minutes each beside a reader: how many they appended, and what the reader saw. Their passes are
// put back.
fn append_beside<N: HubName + Send + Sync, R: Threads + Wait + Sync>(
    rt: &R,
    alloc: Global,
    hub: &Hub<N>,
    feeds: &mut Vec<FeedPass>,
    readers: &mut Vec<ReadPass>,
    sources: u32,
    count: u64,
    readings: u64,
) -> Option<((u64, u64), Seen)>
    requires feeds { All (λ f. f.table ≡ N.table) feeds.old.items }
    requires readers { All (λ r. r.table ≡ N.table) readers.old.items }
    requires sources { sources ≡ length N.settings.sources }
    requires count { count ≤ 2 ^ 20 }
    ensures feeds { All (λ f. f.table ≡ N.table) feeds.new.items }
    ensures readers { All (λ r. r.table ≡ N.table) readers.new.items }
{
    let reader = readers.pop()?;
    let feed = pop_feed::<N>(feeds, sources)?;
    let other = pop_feed::<N>(feeds, sources);
    let ((other, taken), ran) = all_beside(rt, alloc, hub, feed, other, reader, count, readings);
    let ((feed, own), (reader, seen)) = ran;
    put_back::<N>(feeds, Some(feed));
    put_back::<N>(feeds, other);
    put_reader_back::<N>(readers, reader);
    Some(((own, taken), seen))
}

// They do so in a hub for this many entries.
fn side_by_side<N: HubName + Send + Sync, R: Threads + Wait + Sync>(
    rt: &R,
    alloc: Global,
    parts: CellParts,
    settings: &Settings,
    limit: u32,
    count: u64,
    readings: u64,
) -> Option<Done>
    requires cell { (parts.cell.table ≡ N.table) × (parts.baton.table ≡ N.table) }
    requires settings { (key_of parts.baton.view ≡ settings.now) × (settings.now ≡ N.settings) }
    requires valid { AreValid settings.now }
    requires fresh { parts.baton.view.list ≡ [] }
    requires limit { (limit ≡ N.limit) × (0 < limit) × (limit ≤ 4194304) }
    requires feeds { All (λ f. f.table ≡ N.table) parts.feeds.items }
    requires readers { All (λ r. r.table ≡ N.table) parts.readers.items }
    requires count { count ≤ 2 ^ 20 }
{
    let Ok(
        HubParts {
            hub,
            mut feeds,
            mut readers,
        },
    ) = Hub::<N>::open(alloc, parts, settings, limit)
    else {
        return None;
    };
    let sources = settings.count();
    let ran = append_beside(
        rt,
        alloc,
        &hub,
        &mut feeds,
        &mut readers,
        sources,
        count,
        readings,
    );
    let journal = hub.close(feeds, readers);
    let (taken, seen) = ran?;
    Some((taken, seen, journal))
}

// The same in a station of this many radios.
fn ran_beside<R: Abort + Threads + Wait + Sync>(
    rt: &R,
    alloc: Global,
    radios: u32,
    limit: u32,
    count: u64,
    readings: u64,
) -> Done
    requires limit { (0 < limit) × (limit ≤ 4194304) }
    requires count { count ≤ 2 ^ 20 }
{
    let settings = of_radios(radios);
    let Ok(parts) = PageCell::open(alloc, &settings, 1) else {
        panic!(*rt; "no memory");
    };
    match side_by_side::<Brand, R>(rt, alloc, parts, &settings, limit, count, readings) {
        Some(done) => done,
        None => panic!(*rt; "no memory"),
    }
}

// The feed of an entry of a journal.
fn feed_at(journal: &Journal, place: usize) -> Option<u32> {
    match journal.get(place) {
        Some(entry) => Some(entry.feed),
        None => None,
    }
}

// How many entries of a feed a journal has, if they are its minutes in order.
fn minutes_of(journal: &Journal, feed: u32) -> Option<u64> {
    let mut number = 0u64;
    for place in 0..journal.len() {
        if feed_at(journal, place) == Some(feed) {
            if number >= 1 << 20 {
                return None;
            }
            if minute(feed, number) != journal.get(place) {
                return None;
            }
            number += 1;
        }
    }
    Some(number)
}

// Two threads append a hundred minutes each while a third reads a hundred times.
#[test]
fn two_threads_append_while_a_third_reads(rt: HostRuntime) {
    let (taken, seen, journal) = ran_beside(&rt, rt.alloc(), 2, 300, 100, 100);
    same(&rt, (taken, seen.in_order), ((100, 100), true));
    same(&rt, journal.len(), 200);
    same(&rt, minutes_of(&journal, 0), Some(100));
    same(&rt, minutes_of(&journal, 1), Some(100));
}

// Whether each of these pages is the page of a beginning of the journal, which has 20,000 minutes of one radio.
fn are_pages_of(journal: &Journal, pages: &[Page]) -> bool {
    are_of(journal, pages, &of_radios(1), 20_000)
}

// A million readings beside a writer: each page is the page of a beginning of the journal.
#[test]
fn a_million_readings_beside_a_writer(rt: HostRuntime) {
    let (taken, seen, journal) = ran_beside(&rt, rt.alloc(), 1, 20_000, 20_000, 1_000_000);
    same(&rt, (taken, seen.in_order), ((20_000, 0), true));
    same(&rt, journal.len(), 20_000);
    let mut pages = seen.pages;
    same(&rt, are_pages_of(&journal, pages.as_slice()), true);

    // The check finds a page that the journal does not have.
    let Some(last) = pages.pop() else {
        panic!(rt; "no page");
    };
    let _ = pages.push(Page::unsynchronised(last.length, last.anchor));
    same(&rt, are_pages_of(&journal, pages.as_slice()), false);
}
