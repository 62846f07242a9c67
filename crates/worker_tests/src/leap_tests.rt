//! The worker of a leap second file over fakes. The rows are those of the published list: a second since 1900, and TAI less UTC
//! from then on.
ghost use Rattle.std.specs.Prelude.{◌<◌, ◌≤◌};

use crate::shared::{Work, alone, has_lines, moment, run_alone, same};
use feed_workers::{LeapWorker, LogEnd, LogWork};
use memory_outside::MemorySource;
use outside_traits::OpenGate;
use page_cell::FeedPass;
use std::alloc::Global;
use std::process::Abort;
use std::sync::Wait;
use system_fold::SourceKind;
use verdict_journal::{Hub, HubName};

// The leap seconds of the middle of 2012, of the middle of 2015 and of the end of 2016.
const LIST: &str =
    "# list\n3550089600\t35\t# 1 Jul 2012\n3644697600\t36\t# 1 Jul 2015\n3692217600\t37\t# 1 Jan 2017\n";

const FIRST: &str = "0 5000000 notice 3644697600\n";

const TWO: &str = "0 5000000 notice 3644697600\n0 5000000 notice 3692217600\n";

const WHOLE: LogWork = LogWork {
    end: LogEnd::Whole,
    full: false,
};

const FAULT: LogWork = LogWork {
    end: LogEnd::Fault,
    full: false,
};

// A leap second file that is read at 5 s.
#[derive(Drop)]
struct Listed {
    log: MemorySource,
}

impl Work for Listed {
    type Done = LogWork;

    fn run<N: HubName, R: Wait>(self, rt: &R, hub: &Hub<N>, pass: FeedPass) -> (LogWork, FeedPass) {
        let mut worker = LeapWorker::new(self.log, moment(5_000_000), pass);
        let work = worker.run(rt, hub, &OpenGate::new());
        (work, worker.give_back().1)
    }
}

// A file of this text, whose read number `failing` fails, gives these lines of a journal with room for `limit` entries. The work
// on it ends as `work`.
fn reads<R: Abort + Wait>(
    rt: &R,
    alloc: Global,
    text: &[u8],
    failing: u64,
    limit: u32,
    lines: &str,
    work: LogWork,
)
    requires { (0 < limit) × (limit ≤ 4194304) }
{
    let text = Vec::from_slice(alloc, text).expect(rt, "no memory");
    let log = MemorySource::new(text, alone(alloc, failing));
    let (done, journal) = run_alone(rt, alloc, SourceKind::Leap, limit, Listed { log });
    has_lines(rt, alloc, &journal, lines);
    same(rt, done, work);
}

#[test]
fn each_row_but_the_first_is_a_notice(rt: HostRuntime) {
    reads(&rt, rt.alloc(), LIST.as_bytes(), 0, 10, TWO, WHOLE);
    reads(&rt, rt.alloc(), b"", 0, 10, "", WHOLE);
    reads(&rt, rt.alloc(), b"# none\n", 0, 10, "", WHOLE);
}

// The list without its last line feed.
fn cut() -> &'static [u8] {
    let list = LIST.as_bytes();
    list.split_at(list.len() - 1).0
}

// A last line without its line feed counts where the end was read, and not where a read failed before it.
#[test]
fn a_last_line_counts_at_the_end(rt: HostRuntime) {
    reads(&rt, rt.alloc(), cut(), 0, 10, TWO, WHOLE);
    reads(&rt, rt.alloc(), cut(), 2, 10, FIRST, FAULT);
    reads(&rt, rt.alloc(), LIST.as_bytes(), 1, 10, "", FAULT);
}

// The reading ends at a bad line of this number.
fn bad(line: u64, full: bool) -> LogWork {
    LogWork {
        end: LogEnd::BadLine { line },
        full,
    }
}

const A_BAD_THIRD: &[u8] = b"3550089600 35\n3644697600 36\n3692217600 38\n3723753600 39\n";

// The last line is bad only at the end of the file.
const A_BAD_LAST: &[u8] = b"3550089600 35\n3644697600";

#[test]
fn rows_before_a_bad_line_stand(rt: HostRuntime) {
    reads(&rt, rt.alloc(), A_BAD_THIRD, 0, 10, FIRST, bad(3, false));
    reads(&rt, rt.alloc(), A_BAD_LAST, 0, 10, "", bad(2, false));
}

#[test]
fn a_full_journal_keeps_the_first(rt: HostRuntime) {
    let full = LogWork {
        end: LogEnd::Whole,
        full: true,
    };
    reads(&rt, rt.alloc(), LIST.as_bytes(), 0, 1, FIRST, full);
}

// A text, then this many `#`, then another text. Where memory is short, the text is not what the test wants.
fn with_comment(alloc: Global, text: &[u8], count: u32, rest: &[u8]) -> Vec<u8> {
    let mut all = Vec::new(alloc);
    let _ = all.extend_from_slice(text);
    for _ in 0..count {
        let _ = all.push(b'#');
    }
    let _ = all.extend_from_slice(rest);
    all
}

// The second notice finds the journal full. The bad line follows a comment of 600 bytes, in a later piece.
#[test]
fn a_list_is_read_on_to_a_bad_line_after_a_lost_notice(rt: HostRuntime) {
    let text = with_comment(rt.alloc(), LIST.as_bytes(), 600, b"\nx\n");
    reads(&rt, rt.alloc(), text.as_slice(), 0, 1, FIRST, bad(6, true));
}

const TWO_ROWS: &[u8] = b"3550089600\t35\n3644697600\t36\n";

const LONG: LogWork = LogWork {
    end: LogEnd::Long,
    full: false,
};

// A comment comes before the last row, which ends at byte 65536 of the file. Then there is one byte more.
#[test]
fn a_list_of_65536_bytes_is_whole(rt: HostRuntime) {
    let alloc = rt.alloc();
    let whole = with_comment(alloc, TWO_ROWS, 65_493, b"\n3692217600\t37\n");
    same(&rt, whole.len(), 65_536);
    reads(&rt, alloc, whole.as_slice(), 0, 10, TWO, WHOLE);
    let longer = with_comment(alloc, TWO_ROWS, 65_493, b"\n3692217600\t37\n\n");
    reads(&rt, alloc, longer.as_slice(), 0, 10, TWO, LONG);
}
