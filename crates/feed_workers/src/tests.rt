//! A radio's worker that may read fewer bytes than a log may have: no public call has another limit than 2^30 bytes. The log is of
//! DCF77 by PTB's table of 1 January 2026, 13:00 and 13:01.
ghost use Rattle.std.specs.Prelude.{◌≡◌, ◌<◌, ◌≤◌, [], All, length};
ghost use Rattle.feed_workers.specs.Keeping.{IsOfFeed};
ghost use Rattle.page_cell.specs.Passes.{claim_of, key_of};
ghost use Rattle.system_fold.specs.Settings.{AreValid};

use crate::keeping::Post;
use crate::radio::read_log;
use crate::{LogEnd, LogWork, RadioWorker};
use journal_entry::{ENTRY_ROOM, write_entry};
use memory_links::SureSource;
use outside_traits::OpenGate;
use page_cell::{CellParts, FeedPass, PageCell};
use radio_receiver::{BoxedReceiver, DcfReceiver, Receiver};
use std::alloc::Global;
use std::fmt::Debug;
use std::marker::Brand;
use std::process::Abort;
use std::sync::Wait;
use std::test::Fail;
use system_fold::{Settings, SourceKind};
use tick_units::Plan;
use verdict_journal::{Hub, HubName, HubParts, Journal};

// What `assert_eq!` does, as a call: where a test has many, calls are proved in a third of the time.
fn same<T: PartialEq + Debug + Drop>(rt: &impl Abort, left: T, right: T) {
    assert_eq!(*rt; left, right);
}

const NOON: [usize; 12] = [18, 20, 29, 30, 33, 35, 36, 44, 45, 51, 52, 55];

const NOON_1: [usize; 14] = [18, 20, 21, 28, 29, 30, 33, 35, 36, 44, 45, 51, 52, 55];

// The lines of a frame that starts at this microsecond.
fn add_frame(text: &mut String, ones: &[usize], start: u64) -> Result<(), Fail> {
    for place in 0..59usize {
        let at = start.saturating_add(1_000_000u64.saturating_mul(place as u64));
        let width = if ones.contains(&place) {
            200_000
        } else {
            100_000
        };
        writeln!(text, "{at} {width}")?;
    }
    Ok(())
}

// The log of two minutes, with an end.
fn two_frames(alloc: Global, end: &str) -> Result<String, Fail> {
    let mut text = String::from_str(alloc, "0 100000\n")?;
    add_frame(&mut text, &NOON, 2_000_000)?;
    add_frame(&mut text, &NOON_1, 62_000_000)?;
    text.push_str(end)?;
    Ok(text)
}

// The lines of a journal.
fn text_of(alloc: Global, journal: &Journal) -> Result<String, Fail> {
    let mut text = String::new(alloc);
    for place in 0..journal.len() {
        if let Some(entry) = journal.get(place) {
            let mut line = [0; ENTRY_ROOM];
            let count = write_entry(&entry, &mut line);
            for byte in line.iter().take(count) {
                text.push(char::from(*byte))?;
            }
            text.push('\n')?;
        }
    }
    Ok(text)
}

// A worker reads at most this many bytes of a log: what was done, and the pass of its feed.
fn read_with<N: HubName, R: Wait>(
    rt: &R,
    hub: &Hub<N>,
    receiver: BoxedReceiver,
    log: SureSource,
    pass: FeedPass,
    most: usize,
) -> (LogWork, FeedPass)
    requires pass { IsOfFeed N.table (length N.settings.sources) (claim_of pass.view).number pass }
    requires blank { least_start receiver ≡ 0 }
    ensures { result.1.table ≡ N.table }
{
    let mut worker = RadioWorker::new(receiver, log, pass);
    let gate = OpenGate::new();
    let post = Post {
        rt,
        hub,
        gate: &gate,
    };
    let work = read_log(
        &post,
        &mut worker.decoder,
        &mut worker.log,
        &mut worker.pass,
        most,
    );
    let (_, pass) = worker.give_back();
    (work, pass)
}

// Reads a log of at most this many bytes, in a hub with room for all: what was done, and the journal.
fn run_log<N: HubName, R: Wait>(
    rt: &R,
    alloc: Global,
    parts: CellParts,
    settings: &Settings,
    limit: u32,
    receiver: BoxedReceiver,
    log: SureSource,
    most: usize,
) -> Option<(LogWork, Journal)>
    requires cell { (parts.cell.table ≡ N.table) × (parts.baton.table ≡ N.table) }
    requires settings { (key_of parts.baton.view ≡ settings.now) × (settings.now ≡ N.settings) }
    requires valid { AreValid settings.now }
    requires fresh { parts.baton.view.list ≡ [] }
    requires limit { (limit ≡ N.limit) × (0 < limit) × (limit ≤ 4194304) }
    requires feeds { All (λ f. f.table ≡ N.table) parts.feeds.items }
    requires blank { least_start receiver ≡ 0 }
{
    let Ok(
        HubParts {
            hub,
            mut feeds,
            readers: _,
        },
    ) = Hub::<N>::open(alloc, parts, settings, limit)
    else {
        return None;
    };
    let pass = feeds.pop()?;
    if pass.number() >= settings.count() {
        return None;
    }
    let (work, pass) = read_with(rt, &hub, receiver, log, pass, most);
    let mut passes = Vec::new(alloc);
    passes.push(pass).ok()?;
    Some((work, hub.close(passes, Vec::new(alloc))))
}

// One source of a station.
fn settings_of(kind: SourceKind) -> Settings
    ensures { AreValid result }
{
    let mut settings = Settings::new(500);
    settings.add(kind);
    settings
}

const LONE: &str = "0 62000000 lone 3976257600\n";

const BOTH: &str = "0 62000000 lone 3976257600\n0 122000000 verdict 3976257660 0\n";

// What the worker does with a log of which it reads at most this many bytes, and the lines of the journal.
fn read_up_to<R: Wait>(
    rt: &R,
    alloc: Global,
    text: &str,
    most: usize,
) -> Result<(LogWork, String), Fail> {
    let settings = settings_of(SourceKind::Radio(Plan::Dcf));
    let Ok(parts) = PageCell::open(alloc, &settings, 1) else {
        return Err("memory")?;
    };
    let log = SureSource::new(Vec::from_slice(alloc, text.as_bytes())?);
    let receiver = Box::new(alloc, DcfReceiver::new())?;
    match run_log::<Brand, R>(rt, alloc, parts, &settings, 9, receiver, log, most) {
        Some((work, journal)) => Ok((work, text_of(alloc, &journal)?)),
        None => Err("memory")?,
    }
}

// The most bytes that are read, how the log ends, and the lines of the journal.
const LIMITS: [(usize, LogEnd, &str); 4] = [
    (1927, LogEnd::Whole, BOTH),
    (1926, LogEnd::Long, LONE),
    (1000, LogEnd::Long, LONE),
    (5, LogEnd::Long, ""),
];

fn ends_so<R: Abort + Wait>(
    rt: &R,
    alloc: Global,
    log: &str,
    rows: &[(usize, LogEnd, &str)],
) -> Result<(), Fail> {
    for (most, end, want) in rows {
        let (work, lines) = read_up_to(rt, alloc, log, *most)?;
        let end = *end;
        same(rt, work, LogWork { end, full: false });
        same(rt, lines.as_str(), *want);
    }
    Ok(())
}

// The log has 1,927 bytes.
#[test]
fn a_byte_past_the_limit_is_too_long(rt: HostRuntime) -> Result<(), Fail> {
    let log = two_frames(rt.alloc(), "122000000 100000\n")?;
    same(&rt, log.len(), 1927);
    ends_so(&rt, rt.alloc(), log.as_str(), &LIMITS)
}
