//! Pages of usual journals.
ghost use Rattle.std.specs.Prelude.{◌<◌, ◌≤◌};

use crate::journals::{DCF, SERVER, has_line, journal_of, page_after, settings_of};
use crate::shared::moment;
use journal_entry::{Entry, What};
use std::alloc::Global;
use std::process::Abort;
use system_fold::SourceKind;
use tick_units::{Sample, Short, Span};

// A station with one receiver and this bound, in milliseconds, whose page has this line after these entries.
fn has_page(rt: &impl Abort, alloc: Global, bound_ms: u32, texts: &[&str], line: &str)
    requires least { 1 ≤ bound_ms }
    requires most { bound_ms ≤ 16000 }
{
    let settings = settings_of(rt, bound_ms, &[DCF]);
    let journal = journal_of(rt, alloc, texts);
    let page = page_after(rt, &settings, &journal);
    has_line(rt, "one receiver", &page, line);
}

// After as many of these entries, and with a bound of a second, the page has this line.
struct Step {
    entries: usize,
    line: &'static str,
}

fn have_pages(rt: &impl Abort, alloc: Global, texts: &[&str], pages: &[Step]) {
    for page in pages {
        match texts.get(..page.entries) {
            Some(texts) => has_page(rt, alloc, 1000, texts, page.line),
            None => panic!(*rt; "too few entries"),
        }
    }
}

// The minutes of a DCF77 receiver from 2026-01-01 12:00 UTC on.
const MINUTES: [&str; 5] = [
    "0 62000000 lone 3976257600",
    "0 122000000 verdict 3976257660 0",
    "0 182000000 verdict 3976257720 0",
    "0 242000000 verdict 3976257780 0",
    "0 302000000 verdict 3976257840 0",
];

const OF_MINUTES: [Step; 4] = [
    Step {
        entries: 0,
        line: "page 0 0 0 494e4954 0 0 0 0 1048576 0000000000000000 0 0",
    },
    Step {
        entries: 2,
        line: "page 2 0 0 494e4954 0 122000000 0 0 1048576 0000000000000000 0 0",
    },
    Step {
        entries: 4,
        line: "page 4 0 0 494e4954 0 242000000 0 0 1048576 0000000000000000 0 0",
    },
    Step {
        entries: 5,
        line: "page 5 1 1 44434600 17077896086183477248 302000000 4364906902 0 61542 ed00e13000000000 0 0",
    },
];

// The first four samples make the page give the time.
#[test]
fn a_radio_is_believed_after_four_minutes(rt: HostRuntime) {
    have_pages(&rt, rt.alloc(), &MINUTES, &OF_MINUTES);
}

// The minutes of a DCF77 receiver from 2016-12-31 23:55 UTC on, over the leap second at the end of that day.
const OVER_A_LEAP: [&str; 9] = [
    "0 62000000 lone 3692217300",
    "0 122000000 verdict 3692217360 3692217600",
    "0 182000000 verdict 3692217420 3692217600",
    "0 242000000 verdict 3692217480 3692217600",
    "0 302000000 verdict 3692217540 3692217600",
    "0 363000000 verdict 3692217600 3692217600",
    "0 423000000 verdict 3692217660 0",
    "0 483000000 verdict 3692217720 0",
    "0 543000000 verdict 3692217780 0",
];

const OF_A_LEAP: [Step; 4] = [
    Step {
        entries: 5,
        line: "page 5 1 1 44434600 15857952286937448448 302000000 362000000 0 61542 dc12c4c400000000 3692217600 0",
    },
    Step {
        entries: 6,
        line: "page 6 0 0 494e4954 0 363000000 0 0 1048576 0000000000000000 0 0",
    },
    Step {
        entries: 8,
        line: "page 8 0 0 494e4954 0 483000000 0 0 1048576 0000000000000000 0 0",
    },
    Step {
        entries: 9,
        line: "page 9 1 1 44434600 15857952282642481152 543000000 4605906902 0 61542 dc12c5b400000000 0 0",
    },
];

// A page ends with the announced leap second; four minutes later there is another.
#[test]
fn a_page_ends_with_a_leap_second(rt: HostRuntime) {
    have_pages(&rt, rt.alloc(), &OVER_A_LEAP, &OF_A_LEAP);
}

// The exchange of a number with the server of a number. The greater its number, the farther a server is from the truth, and the
// nearer it is to the host.
fn exchange(number: u64, server: u32) -> Entry
    requires number { number < 4 }
    requires server { server < 16 }
{
    let further = u64::from(server);
    Entry {
        feed: server,
        at: moment(280_000_000 + 1_000_000 * number + further),
        what: What::Sample(Sample {
            offset: Span::from(15_857_950_998_447_259_648 + 10_000_000 * further),
            delay: Span::from(1_000_000 * (16 - further) + number),
            dispersion: Span::from(4_096),
            stratum: 1,
            address: 0x0a00_0000 + server,
            root_delay: Short(server),
            root_disp: Short(2 * server),
        }),
    }
}

// Four exchanges with each of as many servers as there can be.
fn of_sixteen(rt: &impl Abort, alloc: Global) -> Vec<Entry> {
    let mut journal = Vec::new(alloc);
    for number in 0..4 {
        for server in 0..16 {
            let entry = exchange(number, server);
            journal.push(entry).expect(rt, "no memory");
        }
    }
    journal
}

// The page of servers after these entries has this line.
fn servers_have_page(
    rt: &impl Abort,
    bound_ms: u32,
    servers: &[SourceKind],
    journal: &[Entry],
    line: &str,
)
    requires least { 1 ≤ bound_ms }
    requires most { bound_ms ≤ 16000 }
{
    let settings = settings_of(rt, bound_ms, servers);
    let page = page_after(rt, &settings, journal);
    has_line(rt, "servers", &page, line);
}

#[test]
fn sixteen_servers(rt: HostRuntime) {
    let journal = of_sixteen(&rt, rt.alloc());
    let line =
        "page 64 1 2 0a000000 15857950998457259431 283000015 4443563167 245 61446 dc12c3850098b734 0 0";
    servers_have_page(&rt, 1000, &[SERVER; 16], &journal, line);
}

// The sixth minute comes 3 ms late: in 240.003 s the offset falls by 3 ms.
const A_LATE_MINUTE: [&str; 6] = [
    "0 62000000 lone 3976257600",
    "0 122000000 verdict 3976257660 0",
    "0 182000000 verdict 3976257720 0",
    "0 242000000 verdict 3976257780 0",
    "0 302000000 verdict 3976257840 0",
    "0 362003000 verdict 3976257900 0",
];

#[test]
fn a_page_reports_the_rate_of_its_peer(rt: HostRuntime) {
    let line =
        "page 6 1 1 44434600 17077896086170592347 362003000 37547671946 0 28981 ed00e16c00000000 0 -53687";
    has_page(&rt, rt.alloc(), 1000, &A_LATE_MINUTE, line);
}

// The page after four minutes, where it gives no time, and where it gives the time until a moment.
const UNREPORTED: &str = "page 5 0 0 494e4954 0 302000000 0 0 1048576 0000000000000000 0 0";

const NEAR: &str =
    "page 5 1 1 44434600 17077896086183477248 302000000 364906898 0 61542 ed00e13000000000 0 0";

const WIDEST: &str =
    "page 5 1 1 44434600 17077896086183477248 302000000 1004364906902 0 61542 ed00e13000000000 0 0";

// The page after four minutes has a root dispersion of 0.94 s.
#[test]
fn a_page_is_trusted_up_to_the_bound(rt: HostRuntime) {
    let alloc = rt.alloc();
    has_page(&rt, alloc, 939, &MINUTES, UNREPORTED);
    has_page(&rt, alloc, 940, &MINUTES, NEAR);
    has_page(&rt, alloc, 500, &MINUTES, UNREPORTED);
    has_page(&rt, alloc, 16_000, &MINUTES, WIDEST);
}

// An answer at 7 s from a server that is as far from the truth as it reports.
fn entry_with(root_disp: u32) -> Entry {
    Entry {
        feed: 0,
        at: moment(7_000_000),
        what: What::Sample(Sample {
            offset: Span::from_seconds(3_976_257_600),
            delay: Span::from(0),
            dispersion: Span::from(0),
            stratum: 1,
            address: 0x7f00_0001,
            root_delay: Short(0),
            root_disp: Short(root_disp),
        }),
    }
}

// The page after eight such answers has this line. The bound of 125 ms is 8192 units of 2^-16 s.
fn has_page_with(rt: &impl Abort, root_disp: u32, line: &str) {
    servers_have_page(rt, 125, &[SERVER], &[entry_with(root_disp); 8], line);
}

// The pages with a unit less than the bound, with the bound, and with a unit more.
const BELOW: &str =
    "page 8 1 2 7f000001 17077896352471449600 7000000 8017253 0 8191 ed00e04700000000 0 0";

const AT_THE_BOUND: &str =
    "page 8 1 2 7f000001 17077896352471449600 7000000 7000001 0 8192 ed00e04700000000 0 0";

const ABOVE: &str = "page 8 0 0 494e4954 0 7000000 0 0 1048576 0000000000000000 0 0";

// At the bound itself a page is trusted for one microsecond. With a unit less it is trusted for a second and 17253 microseconds
// more, with one more not at all.
#[test]
fn a_page_ends_at_the_least_moment(rt: HostRuntime) {
    has_page_with(&rt, 8_191, BELOW);
    has_page_with(&rt, 8_192, AT_THE_BOUND);
    has_page_with(&rt, 8_193, ABOVE);
}
