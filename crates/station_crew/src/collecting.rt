// What workers give back: logs and links, what they did, and their passes.
ghost use Rattle.std.specs.Prelude.{◌≡◌, ◌≤◌, ◌+◌, ◌++◌, [], length, map, option_map, vec_capacity, vec_len};
ghost use Rattle.std.specs.Option.{option_to_list};
ghost use Rattle.station_crew.specs.Crews.{FeedsCollected, HasRoomForGear, HasRoomForServed, HasRoomForWork};
ghost use Rattle.station_crew.specs.Collecting.{file_of, leap_pass, link_of, log_of, poll_pass};
ghost use Rattle.station_crew.specs.Collecting.{radio_pass, serve_pass, server_link};

use crate::crew::Crew;
use crate::jobs::{LeapJob, PollJob, RadioJob, ServeJob};
use feed_workers::{LinkWork, LogWork, PollWork, Work};
use outside_traits::{Link, Source};
use page_cell::{FeedPass, ReadPass};
use station_gear::Gear;

// The radios' workers give back their logs, what they did, and their passes.
fn collect_radios<L: Source + Drop>(
    jobs: Vec<RadioJob<L>>,
    logs: &mut Vec<L>,
    works: &mut Vec<LogWork>,
    feeds: &mut Vec<FeedPass>,
)
    requires logs { vec_len logs.old + vec_len jobs ≤ vec_capacity logs.old }
    requires works { vec_len works.old + vec_len jobs ≤ vec_capacity works.old }
    requires feeds { vec_len feeds.old + vec_len jobs ≤ vec_capacity feeds.old }
    ensures logs { logs.new.items ≡ logs.old.items ++ map log_of jobs.items }
    ensures works { works.new.items ≡ works.old.items ++ map (λ j. j.work) jobs.items }
    ensures feeds { feeds.new.items ≡ feeds.old.items ++ map radio_pass jobs.items }
    ensures room { vec_capacity feeds.new ≡ vec_capacity feeds.old }
{
    for job in jobs {
        let RadioJob { worker, work } = job;
        let (log, pass) = worker.give_back();
        logs.push_reserved(log);
        works.push_reserved(work);
        feeds.push_reserved(pass);
    }
}

// The servers' workers give back their links, what they did, and their passes.
fn collect_pollers<T: Link + Drop>(
    jobs: Vec<PollJob<T>>,
    links: &mut Vec<T>,
    works: &mut Vec<PollWork>,
    feeds: &mut Vec<FeedPass>,
)
    requires links { vec_len links.old + vec_len jobs ≤ vec_capacity links.old }
    requires works { vec_len works.old + vec_len jobs ≤ vec_capacity works.old }
    requires feeds { vec_len feeds.old + vec_len jobs ≤ vec_capacity feeds.old }
    ensures links { links.new.items ≡ links.old.items ++ map server_link jobs.items }
    ensures works { works.new.items ≡ works.old.items ++ map (λ j. j.work) jobs.items }
    ensures feeds { feeds.new.items ≡ feeds.old.items ++ map poll_pass jobs.items }
    ensures room { vec_capacity feeds.new ≡ vec_capacity feeds.old }
{
    for job in jobs {
        let PollJob { worker, work } = job;
        let (link, pass) = worker.give_back();
        links.push_reserved(link);
        works.push_reserved(work);
        feeds.push_reserved(pass);
    }
}

// The leap second file's worker gives back, where there is one: the file, and what it did.
fn collect_leap<L: Source + Drop>(
    job: Option<LeapJob<L>>,
    feeds: &mut Vec<FeedPass>,
) -> (Option<L>, Option<LogWork>)
    requires feeds { vec_len feeds.old + length (option_to_list job) ≤ vec_capacity feeds.old }
    ensures file { result.0 ≡ option_map file_of job }
    ensures work { result.1 ≡ option_map (λ j. j.work) job }
    ensures feeds { feeds.new.items ≡ feeds.old.items ++ map leap_pass (option_to_list job) }
{
    match job {
        Some(LeapJob { worker, work }) => {
            let (file, pass) = worker.give_back();
            feeds.push_reserved(pass);
            (Some(file), Some(work))
        }
        None => (None, None),
    }
}

/// The feeds' workers give back their logs and links, what they did, and their passes. The responders are still there.
pub fn collect_feeds<L: Source + Drop, T: Link + Drop>(
    crew: Crew<L, T>,
    gear: &mut Gear<L, T>,
    work: &mut Work,
    feeds: &mut Vec<FeedPass>,
) -> Vec<ServeJob<T>>
    requires gear { HasRoomForGear (vec_len crew.radios) (vec_len crew.pollers) (vec_len crew.responders) gear.old }
    requires work { HasRoomForWork (vec_len crew.radios) (vec_len crew.pollers) (vec_len crew.responders) work.old }
    requires none { feeds.old.items ≡ [] }
    requires room { let file = length (option_to_list crew.leap) in
        vec_len crew.radios + vec_len crew.pollers + file ≤ vec_capacity feeds.old }
    ensures responders { result ≡ crew.responders }
    ensures feeds { FeedsCollected crew gear.new work.new feeds.new.items }
    ensures served { HasRoomForServed (vec_len crew.responders) gear.new work.new }
{
    let Crew {
        radios,
        pollers,
        leap,
        responders,
    } = crew;
    collect_radios(radios, &mut gear.logs, &mut work.radios, feeds);
    collect_pollers(pollers, &mut gear.servers, &mut work.servers, feeds);
    let (file, done) = collect_leap(leap, feeds);
    gear.leap = file;
    work.leap = done;
    responders
}

/// The responders give back their links, what they did, and their passes.
pub fn collect_responders<T: Link + Drop>(
    jobs: Vec<ServeJob<T>>,
    links: &mut Vec<T>,
    works: &mut Vec<LinkWork>,
    readers: &mut Vec<ReadPass>,
)
    requires links { vec_len links.old + vec_len jobs ≤ vec_capacity links.old }
    requires works { vec_len works.old + vec_len jobs ≤ vec_capacity works.old }
    requires readers { vec_len readers.old + vec_len jobs ≤ vec_capacity readers.old }
    ensures links { links.new.items ≡ links.old.items ++ map link_of jobs.items }
    ensures works { works.new.items ≡ works.old.items ++ map (λ j. j.work) jobs.items }
    ensures readers { readers.new.items ≡ readers.old.items ++ map serve_pass jobs.items }
{
    for job in jobs {
        let ServeJob { responder, work } = job;
        let (link, pass, _) = responder.give_back();
        links.push_reserved(link);
        works.push_reserved(work);
        readers.push_reserved(pass);
    }
}
