//! Appends from one thread, up to a full journal, and what a journal says of each entry.
ghost use Rattle.std.specs.Prelude.{◌≡◌, ◌<◌, ◌≤◌, ◌^◌, [], All, length};
ghost use Rattle.feed_workers.specs.Keeping.{IsOfFeed};
ghost use Rattle.page_cell.specs.Passes.{claim_of, key_of};
ghost use Rattle.system_fold.specs.Settings.{AreValid};

use crate::minutes::{append_all, enter, of_radios};
use crate::shared::{Work, pop_feed, put_back, run_alone, same};
use page_cell::{CellParts, FeedPass, PageCell};
use std::alloc::Global;
use std::marker::Brand;
use std::process::Abort;
use std::sync::Wait;
use system_fold::{Settings, SourceKind};
use tick_units::Plan;
use verdict_journal::{Full, Hub, HubName, HubParts, Journal};

// The answer to an append, and how many entries its pass has seen then, as a receipt of it says.
type Answer = (Option<Result<u64, Full>>, u64);

// Appends the minute of this number to the journal.
fn offered<N: HubName, R: Wait>(rt: &R, hub: &Hub<N>, pass: &mut FeedPass, number: u64) -> Answer
    requires pass { IsOfFeed N.table (length N.settings.sources) (claim_of pass.old.view).number pass.old }
    requires number { number < 2 ^ 20 }
    ensures { IsOfFeed N.table (length N.settings.sources) (claim_of pass.new.view).number pass.new }
{
    let answer = enter(rt, hub, pass, number);
    let seen = hub.cell().receipt(pass).length();
    (answer, seen)
}

// Two feeds in turn append two minutes each: the answers to each.
fn append_in_turn<N: HubName, R: Wait>(
    rt: &R,
    alloc: Global,
    hub: &Hub<N>,
    feeds: &mut Vec<FeedPass>,
    sources: u32,
) -> Option<Vec<Answer>>
    requires feeds { All (λ f. f.table ≡ N.table) feeds.old.items }
    requires sources { sources ≡ length N.settings.sources }
    ensures { All (λ f. f.table ≡ N.table) feeds.new.items }
{
    let mut second = pop_feed::<N>(feeds, sources)?;
    let mut first = pop_feed::<N>(feeds, sources)?;
    let mut answers = Vec::new(alloc);
    for number in 0..2u64 {
        let _ = answers.push(offered(rt, hub, &mut first, number));
        let _ = answers.push(offered(rt, hub, &mut second, number));
    }
    put_back::<N>(feeds, Some(first));
    put_back::<N>(feeds, Some(second));
    Some(answers)
}

// Two feeds in turn append to a journal of this many entries: the answers to each, and the journal.
fn in_turn<N: HubName, R: Wait>(
    rt: &R,
    alloc: Global,
    parts: CellParts,
    settings: &Settings,
    limit: u32,
) -> Option<(Vec<Answer>, Journal)>
    requires cell { (parts.cell.table ≡ N.table) × (parts.baton.table ≡ N.table) }
    requires settings { (key_of parts.baton.view ≡ settings.now) × (settings.now ≡ N.settings) }
    requires valid { AreValid settings.now }
    requires fresh { parts.baton.view.list ≡ [] }
    requires limit { (limit ≡ N.limit) × (0 < limit) × (limit ≤ 4194304) }
    requires feeds { All (λ f. f.table ≡ N.table) parts.feeds.items }
{
    let Ok(
        HubParts {
            hub,
            mut feeds,
            readers: _,
        },
    ) = Hub::<N>::open(alloc, parts, settings, limit)
    else {
        return None;
    };
    let answers = append_in_turn(rt, alloc, &hub, &mut feeds, settings.count());
    let journal = hub.close(feeds, Vec::new(alloc));
    Some((answers?, journal))
}

// The answers to the first four of these appends.
fn first_four(answers: &[Answer]) -> [Answer; 4] {
    let mut first = [(None, 0); 4];
    for (place, answer) in answers.iter().enumerate() {
        if place < 4 {
            first[place] = *answer;
        }
    }
    first
}

// Two feeds in turn, in a journal of this many entries: these are the answers to the first four appends, and then there are as many
// entries as it may have.
fn four_appends<R: Abort + Wait>(rt: &R, alloc: Global, limit: u32, want: [Answer; 4])
    requires { (0 < limit) × (limit ≤ 4194304) }
{
    let settings = of_radios(2);
    let Ok(parts) = PageCell::open(alloc, &settings, 0) else {
        panic!(*rt; "no memory");
    };
    let Some((answers, journal)) = in_turn::<Brand, _>(rt, alloc, parts, &settings, limit) else {
        panic!(*rt; "no memory");
    };
    same(rt, first_four(answers.as_slice()), want);
    same(rt, journal.len(), limit as usize);
}

// What an append gets that the journal takes, as the entry of this number, and what it gets where the journal is full.
fn taken(number: u64) -> Answer {
    (Some(Ok(number)), number)
}

fn full(limit: u32) -> Answer {
    (Some(Err(Full { limit })), u64::from(limit))
}

// A journal is full exactly where it has as many entries as it may. The pass that appends has then seen all that are in it, also
// where there was no room.
#[test]
fn a_journal_is_full_at_its_limit(rt: HostRuntime) {
    let want = [taken(1), full(1), full(1), full(1)];
    four_appends(&rt, rt.alloc(), 1, want);
    let want = [taken(1), taken(2), taken(3), full(3)];
    four_appends(&rt, rt.alloc(), 3, want);
    let want = [taken(1), taken(2), taken(3), taken(4)];
    four_appends(&rt, rt.alloc(), 4, want);
}

// A radio appends six minutes: how many are taken.
#[derive(Drop)]
struct SixMinutes;

impl Work for SixMinutes {
    type Done = u64;

    fn run<N: HubName, R: Wait>(self, rt: &R, hub: &Hub<N>, pass: FeedPass) -> (u64, FeedPass) {
        let (pass, taken) = append_all(rt, hub, pass, 6);
        (taken, pass)
    }
}

// The number of a line of a journal, and the rate of the page after it.
fn number_at(journal: &Journal, place: usize) -> Option<(u64, i32)> {
    match journal.numbered(place) {
        Some(line) => Some((line.length, line.rate)),
        None => None,
    }
}

// The number and the rate of each line, and that there is no sixth one.
const NUMBERS: [Option<(u64, i32)>; 6] = [
    Some((1, 0)),
    Some((2, 0)),
    Some((3, 0)),
    Some((4, -18_063)),
    Some((5, -12_098)),
    None,
];

fn have_numbers(rt: &impl Abort, journal: &Journal, lines: &[Option<(u64, i32)>]) {
    for (place, line) in lines.iter().enumerate() {
        same(rt, number_at(journal, place), *line);
    }
}

// A radio gives the time from its fourth minute on. From the first to the fourth the counter gains 757 us, 3251290 units of 2^-32
// s, in 180.000757 s. To the fifth it gains 676 us, 2903397 units, in 240.000676 s. These are 18062.6 and 12097.5 units a second,
// and a rate is rounded down. The sixth minute finds the journal full.
#[test]
fn a_line_has_its_number_and_the_rate_after_it(rt: HostRuntime) {
    let kind = SourceKind::Radio(Plan::Dcf);
    let (taken, journal) = run_alone(&rt, rt.alloc(), kind, 5, SixMinutes);
    same(&rt, taken, 5);
    have_numbers(&rt, &journal, &NUMBERS);
    let page = journal.page();
    same(&rt, (page.length, page.sync, page.rate), (5, true, -12_098));
}
