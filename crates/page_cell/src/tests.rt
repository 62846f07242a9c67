//! One thread that publishes and reads, also in the middle of a publishing or a reading.
ghost use Rattle.std.specs.Prelude.{◌≤◌};

use crate::loading::Again;
use crate::writer::{Shared, of_one_radio};
use crate::{CellParts, PageCell};
use std::alloc::Global;
use std::fmt::Debug;
use std::process::Abort;
use std::test::*;
use system_fold::FoldState;

// What `assert_eq!` does, as a call: where a test has many, calls are proved in a third of the time.
fn same<T: PartialEq + Debug + Drop>(rt: &impl Abort, left: T, right: T) {
    assert_eq!(*rt; left, right);
}

// A cell with this many readers, 1 to 8.
fn opened(alloc: Global, readers: u32) -> Result<Shared, Fail>
    requires { readers ≤ 8 }
{
    match Shared::open(alloc, readers) {
        Some(shared) => Ok(shared),
        None => Err("memory")?,
    }
}

// Reads the page of no entry, and then that of one.
#[test]
fn a_reading_after_a_publishing(rt: HostRuntime) -> Result<(), Fail> {
    let mut shared = opened(rt.alloc(), 1)?;
    same(&rt, shared.read(), Some((0, false)));
    same(&rt, shared.reader.seen(), 0);
    shared.publish();
    same(&rt, shared.read(), Some((1, false)));
    same(&rt, shared.reader.seen(), 1);
    Ok(())
}

// A receipt says how much a feed's pass has seen; then a reader's pass has seen as much.
#[test]
fn a_receipt_is_learnt(rt: HostRuntime) -> Result<(), Fail> {
    let mut shared = opened(rt.alloc(), 2)?;
    same(&rt, shared.writer.feed.number(), 0);
    same(&rt, shared.reader.number(), 1);
    same(&rt, shared.reader.seen(), 0);
    shared.publish();
    let receipt = shared.receipt();
    same(&rt, receipt.length(), 1);
    shared.learn(receipt);
    same(&rt, shared.reader.seen(), 1);
    Ok(())
}

// A receipt of less than a reader has seen takes nothing away.
#[test]
fn an_older_receipt_is_learnt(rt: HostRuntime) -> Result<(), Fail> {
    let mut shared = opened(rt.alloc(), 1)?;
    shared.publish();
    let receipt = shared.receipt();
    shared.publish();
    same(&rt, shared.read(), Some((2, false)));
    same(&rt, receipt.length(), 1);
    shared.learn(receipt);
    same(&rt, shared.reader.seen(), 2);
    Ok(())
}

// No reading gives the words of a page that is not published yet.
#[test]
fn half_a_publishing_is_not_seen(rt: HostRuntime) -> Result<(), Fail> {
    let (read, seen) = opened(rt.alloc(), 1)?.read_half_way();
    same(&rt, read, Ok(FoldState::new(&of_one_radio(1)).page()));
    same(&rt, seen, 0);
    Ok(())
}

// A row: how many tries are torn, the length of the page, how much the reader has seen then, and the next page's length.
const TORN: [(u32, Result<u64, Again>, u64, u64); 4] = [
    (0, Ok(0), 0, 0),
    (1, Ok(1), 1, 1),
    (3, Ok(3), 3, 3),
    (
        4,
        Err(Again {
            first: 3,
            second: 4,
        }),
        0,
        4,
    ),
];

fn is_torn_so(
    rt: &impl Abort,
    alloc: Global,
    rows: &[(u32, Result<u64, Again>, u64, u64)],
) -> Result<(), Fail> {
    for (tries, answer, seen, next) in rows {
        let shared = opened(alloc, 1)?;
        let (read, has_seen, after) = shared.read_torn(*tries);
        same(rt, read, *answer);
        same(rt, has_seen, *seen);
        same(rt, after, Ok(*next));
    }
    Ok(())
}

// A try is made again where an entry was published between its two loads of the count, up to three times.
#[test]
fn four_torn_tries_are_reported(rt: HostRuntime) -> Result<(), Fail> {
    is_torn_so(&rt, rt.alloc(), &TORN)
}

// Sixteen feeds and eight readers have their numbers.
#[test]
fn sixteen_feeds_and_eight_readers(rt: HostRuntime) -> Result<(), Fail> {
    let settings = of_one_radio(16);
    same(&rt, settings.count(), 16);
    let Ok(parts) = PageCell::open(rt.alloc(), &settings, 8) else {
        return Err("memory")?;
    };
    let CellParts { feeds, readers, .. } = parts;
    same(&rt, (feeds.len(), readers.len()), (16, 8));
    for (number, feed) in feeds.iter().enumerate() {
        same(&rt, feed.number() as usize, number);
    }
    for (number, reader) in readers.iter().enumerate() {
        same(&rt, (reader.number() as usize, reader.seen()), (number, 0));
    }
    Ok(())
}
