// The two phases: workers side by side.
ghost use Rattle.std.specs.Prelude.{◌≡◌, All, IfSome, length, vec_len};
ghost use Rattle.station_crew.specs.Jobs.{HasServed, HasServedAgain, LeapRan, PollRan, RadioRan};
ghost use Rattle.station_crew.specs.Jobs.{MayReceive, MayNotice, MayPoll};
ghost use Rattle.feed_workers.specs.Lists.{Both, Each, Every};

use crate::crew::Crew;
use crate::jobs::{LeapJob, PollJob, RadioJob, ServeJob};
use outside_traits::{Gate, Link, Source};
use radio_receiver::Receiver;
use responder::End;
use std::sync::Wait;
use std::thread;
use std::thread::{Threads, join_mut};
use verdict_journal::{Hub, HubName};

// The most feeds of a station, and the most links that it serves on.
const FEEDS: usize = 16;

const LINKS: usize = 8;

// The radios' workers side by side.
fn run_radios<N: HubName + Send + Sync, R: Threads + Wait + Sync, L: Source + Drop, G: Gate>(
    rt: &R,
    hub: &Hub<N>,
    gate: &G,
    jobs: &mut [RadioJob<L>],
)
    requires { All (MayReceive least_start N.table (length N.settings.sources)) jobs.old }
    ensures { Each (RadioRan stands_for L.state L.opening N.limit) jobs.old jobs.new }
{
    thread::for_each_mut(
        rt,
        jobs,
        FEEDS,
        &|_i: usize, radio: &mut RadioJob<L>|
            requires { MayReceive least_start N.table (length N.settings.sources) radio.old }
            ensures { RadioRan stands_for L.state L.opening N.limit radio.old radio.new }
        {
            radio.work = radio.worker.run(rt, hub, gate);
        },
    );
}

// The servers' workers side by side.
fn run_pollers<N: HubName + Send + Sync, R: Threads + Wait + Sync, T: Link + Drop, G: Gate>(
    rt: &R,
    hub: &Hub<N>,
    gate: &G,
    jobs: &mut [PollJob<T>],
)
    requires { All (λ j. MayPoll N.table (length N.settings.sources) j) jobs.old }
    ensures { Each (PollRan T.state T.opening N.limit) jobs.old jobs.new }
{
    thread::for_each_mut(
        rt,
        jobs,
        FEEDS,
        &|_i: usize, poller: &mut PollJob<T>|
            requires { MayPoll N.table (length N.settings.sources) poller.old }
            ensures { PollRan T.state T.opening N.limit poller.old poller.new }
        {
            poller.work = poller.worker.run(rt, hub, gate);
        },
    );
}

// The leap second file's worker, where there is one.
fn run_leap<N: HubName, R: Wait, L: Source + Drop, G: Gate>(
    rt: &R,
    hub: &Hub<N>,
    gate: &G,
    leap: &mut Option<LeapJob<L>>,
)
    requires { IfSome leap.old (λ j. MayNotice N.table (length N.settings.sources) j) }
    ensures { Both (LeapRan L.state L.opening N.limit) leap.old leap.new }
{
    if let Some(job) = leap {
        job.work = job.worker.run(rt, hub, gate);
    }
}

// The responders side by side, for this many hearings each.
fn run_responders<N: HubName + Send + Sync, R: Threads + Wait + Sync, T: Link + Drop, G: Gate>(
    rt: &R,
    hub: &Hub<N>,
    gate: &G,
    budget: u64,
    jobs: &mut [ServeJob<T>],
)
    requires { All (λ j. j.responder.pass.table ≡ N.table) jobs.old }
    ensures { Each (HasServed T.state T.opening budget) jobs.old jobs.new }
{
    thread::for_each_mut(
        rt,
        jobs,
        LINKS,
        &|_i: usize, job: &mut ServeJob<T>|
            requires { job.old.responder.pass.table ≡ N.table }
            ensures { HasServed T.state T.opening budget job.old job.new }
        {
            job.work.first = job.responder.serve(rt, hub.cell(), gate, budget);
        },
    );
}

// The servers' workers beside that of the leap second file.
fn run_others<
    N: HubName + Send + Sync,
    R: Threads + Wait + Sync,
    L: Source + Drop,
    T: Link + Drop,
    G: Gate,
>(rt: &R, hub: &Hub<N>, gate: &G, pollers: &mut [PollJob<T>], leap: &mut Option<LeapJob<L>>)
    requires pollers { Every (λ j. MayPoll N.table (length N.settings.sources) j) pollers.old }
    requires leap { IfSome leap.old (λ j. MayNotice N.table (length N.settings.sources) j) }
    ensures pollers { Each (PollRan T.state T.opening N.limit) pollers.old pollers.new }
    ensures leap { Both (LeapRan L.state L.opening N.limit) leap.old leap.new }
{
    join_mut(
        rt,
        &mut ||
            requires { Every (λ j. MayPoll N.table (length N.settings.sources) j) pollers.now }
            ensures { Each (PollRan T.state T.opening N.limit) pollers.entry.now pollers.exit.now }
        { run_pollers(rt, hub, gate, pollers) },
        &mut ||
            requires { IfSome leap.now (λ j. MayNotice N.table (length N.settings.sources) j) }
            ensures { Both (LeapRan L.state L.opening N.limit) leap.entry.now leap.exit.now }
        { run_leap(rt, hub, gate, leap) },
    );
}

// The feeds' workers side by side.
fn run_feeds<
    N: HubName + Send + Sync,
    R: Threads + Wait + Sync,
    L: Source + Drop,
    T: Link + Drop,
    G: Gate,
>(
    rt: &R,
    hub: &Hub<N>,
    gate: &G,
    radios: &mut [RadioJob<L>],
    pollers: &mut [PollJob<T>],
    leap: &mut Option<LeapJob<L>>,
)
    requires radios { Every (MayReceive least_start N.table (length N.settings.sources)) radios.old }
    requires pollers { Every (λ j. MayPoll N.table (length N.settings.sources) j) pollers.old }
    requires leap { IfSome leap.old (λ j. MayNotice N.table (length N.settings.sources) j) }
    ensures radios { Each (RadioRan stands_for L.state L.opening N.limit) radios.old radios.new }
    ensures pollers { Each (PollRan T.state T.opening N.limit) pollers.old pollers.new }
    ensures leap { Both (LeapRan L.state L.opening N.limit) leap.old leap.new }
{
    join_mut(
        rt,
        &mut ||
            requires { Every (MayReceive least_start N.table (length N.settings.sources)) radios.now }
            ensures { Each (RadioRan stands_for L.state L.opening N.limit) radios.entry.now radios.exit.now }
        { run_radios(rt, hub, gate, radios) },
        &mut ||
            requires pollers { Every (λ j. MayPoll N.table (length N.settings.sources) j) pollers.now }
            requires leap { IfSome leap.now (λ j. MayNotice N.table (length N.settings.sources) j) }
            ensures pollers { Each (PollRan T.state T.opening N.limit) pollers.entry.now pollers.exit.now }
            ensures leap { Both (LeapRan L.state L.opening N.limit) leap.entry.now leap.exit.now }
        { run_others(rt, hub, gate, pollers, leap) },
    );
}

/// The first phase: the feeds' workers beside the responders, for this many hearings of each link.
pub fn run_first<
    N: HubName + Send + Sync,
    R: Threads + Wait + Sync,
    L: Source + Drop,
    T: Link + Drop,
    G: Gate,
>(rt: &R, hub: &Hub<N>, gate: &G, budget: u64, crew: &mut Crew<L, T>)
    requires radios { Every (MayReceive least_start N.table (length N.settings.sources)) crew.old.radios.items }
    requires pollers { Every (λ j. MayPoll N.table (length N.settings.sources) j) crew.old.pollers.items }
    requires leap { IfSome crew.old.leap (λ j. MayNotice N.table (length N.settings.sources) j) }
    requires responders { Every (λ j. j.responder.pass.table ≡ N.table) crew.old.responders.items }
    ensures radios { Each (RadioRan stands_for L.state L.opening N.limit) crew.old.radios.items crew.new.radios.items }
    ensures pollers { Each (PollRan T.state T.opening N.limit) crew.old.pollers.items crew.new.pollers.items }
    ensures leap { Both (LeapRan L.state L.opening N.limit) crew.old.leap crew.new.leap }
    ensures responders { Each (HasServed T.state T.opening budget) crew.old.responders.items crew.new.responders.items }
    ensures counts { (vec_len crew.new.radios ≡ vec_len crew.old.radios)
        × (vec_len crew.new.pollers ≡ vec_len crew.old.pollers)
        × (vec_len crew.new.responders ≡ vec_len crew.old.responders) }
{
    let Crew {
        radios,
        pollers,
        leap,
        responders,
    } = crew;
    join_mut(
        rt,
        &mut ||
            requires radios { Every (MayReceive least_start N.table (length N.settings.sources)) radios.now.items }
            requires pollers { Every (λ j. MayPoll N.table (length N.settings.sources) j) pollers.now.items }
            requires leap { IfSome leap.now (λ j. MayNotice N.table (length N.settings.sources) j) }
            ensures radios { Each (RadioRan stands_for L.state L.opening N.limit) radios.entry.now.items
                radios.exit.now.items }
            ensures pollers { Each (PollRan T.state T.opening N.limit) pollers.entry.now.items pollers.exit.now.items }
            ensures leap { Both (LeapRan L.state L.opening N.limit) leap.entry.now leap.exit.now }
            ensures counts { (vec_len radios.exit.now ≡ vec_len radios.entry.now)
                × (vec_len pollers.exit.now ≡ vec_len pollers.entry.now) }
        {
            run_feeds(
                rt,
                hub,
                gate,
                radios.as_mut_slice(),
                pollers.as_mut_slice(),
                leap,
            )
        },
        &mut ||
            requires { Every (λ j. j.responder.pass.table ≡ N.table) responders.now.items }
            ensures served { Each (HasServed T.state T.opening budget) responders.entry.now.items
                responders.exit.now.items }
            ensures count { vec_len responders.exit.now ≡ vec_len responders.entry.now }
        { run_responders(rt, hub, gate, budget, responders.as_mut_slice()) },
    );
}

/// The second phase: those responders whose link goes on, for this many hearings more.
pub fn run_second<N: HubName + Send + Sync, R: Threads + Wait + Sync, T: Link + Drop, G: Gate>(
    rt: &R,
    hub: &Hub<N>,
    gate: &G,
    budget: u64,
    jobs: &mut Vec<ServeJob<T>>,
)
    requires { All (λ j. j.responder.pass.table ≡ N.table) jobs.old.items }
    ensures served { Each (HasServedAgain T.state T.opening budget) jobs.old.items jobs.new.items }
    ensures count { vec_len jobs.new ≡ vec_len jobs.old }
{
    thread::for_each_mut(
        rt,
        jobs.as_mut_slice(),
        LINKS,
        &|_i: usize, job: &mut ServeJob<T>|
            requires { job.old.responder.pass.table ≡ N.table }
            ensures { HasServedAgain T.state T.opening budget job.old job.new }
        {
            if let End::Count = job.work.first.end {
                job.work.second = Some(job.responder.serve(rt, hub.cell(), gate, budget));
            }
        },
    );
}
