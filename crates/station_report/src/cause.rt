//! Which of several causes the status line reports.
ghost use Rattle.std.specs.Prelude.{◌≡◌, ◌+◌, ◌++◌, ◌≤◌, ◌^◌, ℕ, List, Option, Some, [], length, map, vec_len, nat_lt, option_map, if◌then◌else◌};
ghost use Rattle.std.specs.List.{list_any};
ghost use Rattle.std.specs.Option.{option_to_list};
ghost use Rattle.station_report.specs.Crewing.{HasEach, HasLeast, any_full, causes_left, end_of};
ghost use Rattle.station_report.specs.Headline.{IsReported, each_cause, full_cause, link_cause, log_cause, number_at, poll_cause};
ghost use Rattle.command_ends.specs.declared.ending.Ending.{Ending};

use crate::done::{Done, leap_feed};
use command_ends::{Ending, Subject, status_by};
use feed_workers::{LinkWork, LogEnd, LogWork, PollEnd, PollWork};
use responder::End;
use station_values::Station;

// The number of the status that reports an ending.
fn number_at(ending: Ending) -> u8
    ensures { result ≡ number_at ending }
{
    status_by(ending).number()
}

// Of two, the one whose status has the lesser number, and of one number the first.
fn least(first: Ending, next: Ending) -> Ending
    ensures { result ≡ (if nat_lt (number_at next) (number_at first) then next else first) }
{
    if number_at(next) < number_at(first) {
        return next;
    }
    first
}

// The one to report of those so far and one more.
fn with_next(found: Option<Ending>, next: Option<Ending>) -> Option<Ending>
    ensures { (all : List Ending) → HasLeast all found → HasLeast (all ++ option_to_list next) result }
{
    match (found, next) {
        (None, next) => next,
        (found, None) => found,
        (Some(first), Some(next)) => Some(least(first, next)),
    }
}

// What a worker of a station did, as a possible cause of the run's end.
trait Work {
    ghost cause: { ℕ → Self → Option Ending };

    // The cause that it is, at its place among its kind.
    fn cause(&self, place: u32) -> Option<Ending>
        ensures { result ≡ cause place self.now };
}

impl Work for LogWork {
    ghost cause = { λ feed work. log_cause feed work.end };

    fn cause(&self, feed: u32) -> Option<Ending> {
        match self.end {
            LogEnd::Whole => None,
            LogEnd::BadLine { line } => Some(Ending::WrongLine(Subject::Feed(feed), line)),
            LogEnd::Fault => Some(Ending::NotRead(Subject::Feed(feed))),
            LogEnd::Long => Some(Ending::Long(Subject::Feed(feed))),
        }
    }
}

impl Work for PollWork {
    ghost cause = { λ feed work. poll_cause feed work.end };

    fn cause(&self, feed: u32) -> Option<Ending> {
        match self.end {
            PollEnd::Rounds | PollEnd::LinkEnd => None,
            PollEnd::LinkFault => Some(Ending::LinkFailed(Subject::Feed(feed))),
        }
    }
}

// How a link ended in the last phase that it had.
fn end_of(work: &LinkWork) -> End
    ensures { result ≡ end_of work.now }
{
    match work.second {
        Some(second) => second.end,
        None => work.first.end,
    }
}

impl Work for LinkWork {
    ghost cause = { λ number work. link_cause number (end_of work) };

    fn cause(&self, number: u32) -> Option<Ending> {
        match end_of(self) {
            End::Count | End::LinkEnd => None,
            End::LinkFault => Some(Ending::LinkFailed(Subject::Link(number))),
        }
    }
}

// The one to report of those so far and of these workers, whose places count from this one on.
fn with_works<W: Work>(found: Option<Ending>, works: &[W], first: u32) -> Option<Ending>
    requires { first + length works.now ≤ 2 ^ 31 }
    ensures { (all : List Ending) → HasLeast all found → HasLeast (all ++ each_cause W.cause first works.now) result }
{
    let mut found = found;
    let mut place = first;
    for work in works {
        found = with_next(found, work.cause(place));
        place += 1;
    }
    found
}

// The one to report of those so far and of a leap second file's worker, where there is one, with the feed of this number.
fn with_leap(found: Option<Ending>, leap: Option<LogWork>, feed: u32) -> Option<Ending>
    ensures { (all : List Ending) → HasLeast all found →
        let more = each_cause (λ place work. log_cause place work.end) feed (option_to_list leap) in
        HasLeast (all ++ more) result }
{
    match leap {
        Some(work) => with_next(found, work.cause(feed)),
        None => found,
    }
}

// Whether an entry of one of these radios found the journal full.
fn has_full_radio(works: &[LogWork]) -> bool
    ensures { result ≡ list_any (λ w. w.full) works.now }
{
    works.iter().any(|work| work.full)
}

// Whether a sample of one of these servers found the journal full.
fn has_full_server(works: &[PollWork]) -> bool
    ensures { result ≡ list_any (λ w. w.full) works.now }
{
    works.iter().any(|work| work.full)
}

// Whether a notice of the leap second file found the journal full.
fn has_full_leap(work: Option<LogWork>) -> bool
    ensures { result ≡ list_any (λ w. w.full) (option_to_list work) }
{
    match work {
        Some(work) => work.full,
        None => false,
    }
}

fn is_full(radios: &[LogWork], servers: &[PollWork], leap: Option<LogWork>) -> bool
    ensures { result ≡ any_full radios.now servers.now leap }
{
    has_full_radio(radios) || has_full_server(servers) || has_full_leap(leap)
}

fn full_cause(limit: u32, full: bool) -> Option<Ending>
    ensures { result ≡ full_cause limit full }
{
    if full {
        Some(Ending::Full(limit))
    } else {
        None
    }
}

// How a run ends whose workers have left this.
pub fn ending_of(station: &Station, done: &Done, limit: u32) -> Ending
    requires { HasEach station.now done.now }
    ensures { IsReported (causes_left limit done.now) result }
{
    let radios = station.radios() as u32;
    let found = with_works(None, done.work.radios.as_slice(), 0);
    let found = with_works(found, done.work.servers.as_slice(), radios);
    let found = with_leap(found, done.work.leap, leap_feed(station));
    let found = with_works(found, done.work.links.as_slice(), 0);
    let full = is_full(
        done.work.radios.as_slice(),
        done.work.servers.as_slice(),
        done.work.leap,
    );
    with_next(found, full_cause(limit, full)).unwrap_or(Ending::Whole)
}
