// Between the phases: each responder learns how much every feed has seen.
ghost use Rattle.std.specs.Prelude.{◌≡◌, ◌≤◌, All, length, vec_len};
ghost use Rattle.page_cell.specs.Passes.{claim_of};
ghost use Rattle.feed_workers.specs.Lists.{Each};
ghost use Rattle.station_crew.specs.Informing.{HasLearnt, WasInformed};

use crate::jobs::ServeJob;
use outside_traits::Link;
use page_cell::{FeedPass, PageCell};

// The responder learns a receipt of the feed's.
fn inform<T: Link + Drop>(cell: &PageCell, feed: &mut FeedPass, job: &mut ServeJob<T>)
    requires feed { feed.old.table ≡ cell.now.table }
    requires reader { job.old.responder.pass.table ≡ cell.now.table }
    ensures same { feed.new ≡ feed.old }
    ensures others { (job.new.responder.link ≡ job.old.responder.link) × (job.new.work ≡ job.old.work)
        × (job.new.responder.number ≡ job.old.responder.number)
        × (job.new.responder.keys ≡ job.old.responder.keys)
        × (job.new.responder.clients ≡ job.old.responder.clients) }
    ensures learnt { HasLearnt job.old.responder.pass job.new.responder.pass }
    ensures seen { length (claim_of feed.old.view).seen ≤ job.new.responder.pass.view.seen }
{
    let receipt = cell.receipt(feed);
    job.responder.learn(cell, receipt);
}

// It learns a receipt of every feed's.
fn inform_all<T: Link + Drop>(cell: &PageCell, feeds: &mut [FeedPass], job: &mut ServeJob<T>)
    requires feeds { All (λ f. f.table ≡ cell.now.table) feeds.old }
    requires reader { job.old.responder.pass.table ≡ cell.now.table }
    ensures same { feeds.new ≡ feeds.old }
    ensures informed { WasInformed feeds.old job.old job.new }
{
    for i in 0..feeds.len() {
        inform(cell, &mut feeds[i], job);
    }
}

// So does each of these responders.
fn inform_each<T: Link + Drop>(cell: &PageCell, feeds: &mut [FeedPass], jobs: &mut [ServeJob<T>])
    requires feeds { All (λ f. f.table ≡ cell.now.table) feeds.old }
    requires readers { All (λ j. j.responder.pass.table ≡ cell.now.table) jobs.old }
    ensures same { feeds.new ≡ feeds.old }
    ensures informed { Each (WasInformed feeds.old) jobs.old jobs.new }
{
    for i in 0..jobs.len() {
        inform_all(cell, feeds, &mut jobs[i]);
    }
}

/// The responders, each of which has then seen as much as every feed.
pub fn inform_responders<T: Link + Drop>(
    cell: &PageCell,
    feeds: &mut Vec<FeedPass>,
    jobs: &mut Vec<ServeJob<T>>,
)
    requires feeds { All (λ f. f.table ≡ cell.now.table) feeds.old.items }
    requires readers { All (λ j. j.responder.pass.table ≡ cell.now.table) jobs.old.items }
    ensures same { feeds.new.items ≡ feeds.old.items }
    ensures informed { Each (WasInformed feeds.old.items) jobs.old.items jobs.new.items }
    ensures count { vec_len jobs.new ≡ vec_len jobs.old }
{
    inform_each(cell, feeds.as_mut_slice(), jobs.as_mut_slice());
}
