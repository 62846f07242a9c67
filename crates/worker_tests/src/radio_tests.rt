//! A radio's worker over logs in memory. They are of DCF77 by PTB's table of 1 January 2026, 13:00 and 13:01.
ghost use Rattle.std.specs.Prelude.{◌≡◌, ◌<◌, ◌≤◌, length};
ghost use Rattle.feed_workers.specs.Keeping.{IsOfFeed};
ghost use Rattle.page_cell.specs.Passes.{claim_of};

use crate::shared::{Work, alone, has_lines, run_alone, same};
use feed_workers::{LogEnd, LogWork, RadioWorker};
use memory_outside::{MemorySource, NOON_0, NOON_1};
use outside_traits::{OpenGate, Source};
use page_cell::FeedPass;
use radio_receiver::{DcfReceiver, Receiver};
use std::alloc::Global;
use std::process::Abort;
use std::sync::Wait;
use system_fold::SourceKind;
use tick_units::Plan;
use verdict_journal::{Hub, HubName};

const LONE: &str = "0 62000000 lone 3976257600\n";

const BOTH: &str = "0 62000000 lone 3976257600\n0 122000000 verdict 3976257660 0\n";

// A log that a receiver of DCF77 hears.
#[derive(Drop)]
struct Heard<L: Drop> {
    alloc: Global,
    log: L,
}

// What the worker of a radio does with a log; nothing where there is no memory for the receiver.
fn hear<N: HubName, R: Wait, L: Source + Drop>(
    rt: &R,
    hub: &Hub<N>,
    heard: Heard<L>,
    pass: FeedPass,
) -> (Option<LogWork>, FeedPass)
    requires { IsOfFeed N.table (length N.settings.sources) (claim_of pass.view).number pass }
    ensures { result.1.table ≡ N.table }
{
    let Heard { alloc, log } = heard;
    let Ok(receiver) = Box::new(alloc, DcfReceiver::new()) else {
        return (None, pass);
    };
    let mut worker = RadioWorker::new(receiver, log, pass);
    let work = worker.run(rt, hub, &OpenGate::new());
    (Some(work), worker.give_back().1)
}

impl Work for Heard<MemorySource> {
    type Done = Option<LogWork>;

    fn run<N: HubName, R: Wait>(
        self,
        rt: &R,
        hub: &Hub<N>,
        pass: FeedPass,
    ) -> (Option<LogWork>, FeedPass) {
        hear(rt, hub, self, pass)
    }
}

// The lines of a frame that starts at this microsecond.
fn add_frame(text: &mut String, ones: &[usize], start: u64) {
    for place in 0..59usize {
        let at = start.saturating_add(1_000_000u64.saturating_mul(place as u64));
        let width = if ones.contains(&place) {
            200_000
        } else {
            100_000
        };
        let _ = writeln!(text, "{at} {width}");
    }
}

// The log of two minutes, with an end.
fn two_frames(alloc: Global, end: &str) -> String {
    let mut text = String::new(alloc);
    let _ = text.push_str("0 100000\n");
    add_frame(&mut text, &NOON_0, 2_000_000);
    add_frame(&mut text, &NOON_1, 62_000_000);
    let _ = text.push_str(end);
    text
}

// A radio's worker reads a log of which given reads fail, where the journal may have this many entries: what it did, and the lines
// of the journal.
fn reads<R: Abort + Wait>(
    rt: &R,
    alloc: Global,
    log: &str,
    failing: u64,
    limit: u32,
    work: LogWork,
    lines: &str,
)
    requires { (0 < limit) × (limit ≤ 4194304) }
{
    let text = Vec::from_slice(alloc, log.as_bytes()).expect(rt, "no memory");
    let log = MemorySource::new(text, alone(alloc, failing));
    let heard = Heard { alloc, log };
    let (done, journal) = run_alone(rt, alloc, SourceKind::Radio(Plan::Dcf), limit, heard);
    same(rt, done, Some(work));
    has_lines(rt, alloc, &journal, lines);
}

// The same of the log of two minutes with an end, which is read to its own end.
fn reads_two<R: Abort + Wait>(
    rt: &R,
    alloc: Global,
    tail: &str,
    limit: u32,
    work: LogWork,
    lines: &str,
)
    requires { (0 < limit) × (limit ≤ 4194304) }
{
    let log = two_frames(alloc, tail);
    reads(rt, alloc, log.as_str(), 0, limit, work, lines);
}

// The pulse that closes the second minute.
const END: &str = "122000000 100000\n";

// How the log of two minutes ends, by its end, and the lines of the journal.
const ENDS: [(&str, LogEnd, &str); 4] = [
    ("122000000 100000\n", LogEnd::Whole, BOTH),
    ("122000000 100000", LogEnd::BadLine { line: 120 }, LONE),
    ("122000000 100000\nx\n", LogEnd::BadLine { line: 121 }, BOTH),
    ("x\n122000000 100000\n", LogEnd::BadLine { line: 120 }, LONE),
];

fn end_so<R: Abort + Wait>(rt: &R, alloc: Global, rows: &[(&str, LogEnd, &str)]) {
    for (tail, end, lines) in rows {
        let work = LogWork {
            end: *end,
            full: false,
        };
        reads_two(rt, alloc, tail, 9, work, lines);
    }
}

#[test]
fn a_log_is_read_to_its_end_or_to_its_first_bad_line(rt: HostRuntime) {
    end_so(&rt, rt.alloc(), &ENDS);
}

// The read that fails, and the lines of the journal.
const FAULTS: [(u64, &str); 5] = [(1, ""), (2, ""), (3, LONE), (4, LONE), (5, BOTH)];

fn end_at_faults<R: Abort + Wait>(rt: &R, alloc: Global, rows: &[(u64, &str)]) {
    let log = two_frames(alloc, END);
    let work = LogWork {
        end: LogEnd::Fault,
        full: false,
    };
    for (failing, lines) in rows {
        reads(rt, alloc, log.as_str(), *failing, 9, work, lines);
    }
}

// The log has 1,927 bytes, so its reads are of 512, 512, 512, 391 and no bytes.
#[test]
fn a_read_that_fails_ends_the_reading(rt: HostRuntime) {
    end_at_faults(&rt, rt.alloc(), &FAULTS);
}

#[test]
fn a_full_journal_keeps_a_prefix_and_the_log_is_read_on(rt: HostRuntime) {
    let end = LogEnd::Whole;
    reads_two(&rt, rt.alloc(), END, 1, LogWork { end, full: true }, LONE);
    reads_two(&rt, rt.alloc(), END, 2, LogWork { end, full: false }, BOTH);
}

// Three minutes and a bad line.
fn three_frames(alloc: Global) -> String {
    let mut log = two_frames(alloc, "");
    add_frame(&mut log, &NOON_0, 122_000_000);
    let _ = log.push_str("x\n");
    log
}

// The second minute's entry finds the journal full. The bad line follows one more frame, in a later piece: 1 and three times 59
// lines before it.
#[test]
fn a_log_is_read_on_to_a_bad_line_after_a_lost_entry(rt: HostRuntime) {
    let log = three_frames(rt.alloc());
    let work = LogWork {
        end: LogEnd::BadLine { line: 179 },
        full: true,
    };
    reads(&rt, rt.alloc(), log.as_str(), 0, 1, work, LONE);
}
