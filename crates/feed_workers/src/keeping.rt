//! Keeps an entry that is due.
ghost use Rattle.std.specs.Prelude.{◌++◌, ◌∷◌, [], List, length};
ghost use Rattle.journal_entry.specs.Valid.{IsValidWhat};
ghost use Rattle.journal_entry.specs.declared.entry.Entry.{Entry};
ghost use Rattle.feed_workers.specs.Keeping.{IsOfFeed, Keeps, share_of};
ghost use Rattle.page_cell.specs.declared.view.Claim.{Claim};

use journal_entry::Entry;
use outside_traits::Gate;
use page_cell::FeedPass;
use std::sync::Wait;
use verdict_journal::{Hub, HubName};

// The places of the gate that a feed's worker passes: before it appends an entry, and after it.
const BEFORE: u8 = 1;

const AFTER: u8 = 4;

/// Keeps the entries of a feed.
pub trait Recorder {
    ghost use Rattle.std.specs.Prelude.{◌++◌, ◌∷◌, [], ℕ, List};
    ghost use Rattle.atomic_table.specs.Seated.{TableId};

    // The table of the journal's cell, its number of sources, and how many entries it may have.
    ghost table: { TableId };

    ghost sources: { ℕ };

    ghost limit: { ℕ };

    // Keeps an entry that is due, where there is room.
    fn enter(&self, pass: &mut FeedPass, entry: Entry, full: &mut bool)
        requires pass { IsOfFeed table sources entry.feed pass.old }
        requires valid { IsValidWhat entry.what }
        ensures pass { IsOfFeed table sources entry.feed pass.new }
        ensures kept { (begun : Claim) (due : List Entry) →
            Keeps (share_of begun pass.old limit full.old) due →
            Keeps (share_of begun pass.new limit full.new) (due ++ entry ∷ []) };
}

/// By what a feed's worker keeps its entries: the runtime, the hub, and the gate that it passes before each and after it.
#[derive(Drop)]
pub struct Post<'a, N: HubName, R, G> {
    pub rt: &'a R,
    pub hub: &'a Hub<N>,
    pub gate: &'a G,
}

// Appends an entry, where there is room. It is a function of its own since a `match` before a later call loses the facts of its
// branches.
fn append<N: HubName, R: Wait>(
    rt: &R,
    hub: &Hub<N>,
    pass: &mut FeedPass,
    entry: Entry,
    full: &mut bool,
)
    requires pass { IsOfFeed N.table (length N.settings.sources) entry.feed pass.old }
    requires valid { IsValidWhat entry.what }
    ensures pass { IsOfFeed N.table (length N.settings.sources) entry.feed pass.new }
    ensures kept { (begun : Claim) (due : List Entry) →
        Keeps (share_of begun pass.old N.limit full.old) due →
        Keeps (share_of begun pass.new N.limit full.new) (due ++ entry ∷ []) }
{
    match hub.append(rt, pass, entry) {
        Ok(_) => {}
        Err(_) => *full = true,
    }
}

// The methods of this block call no function that asks for a `Gate`: a call would ask that the gate is `Sync`, which a trait's
// method can't show.
impl<N: HubName, R: Wait, G: Gate> Recorder for Post<'_, N, R, G> {
    ghost use Rattle.std.specs.Prelude.{length};

    ghost table = { N.table };

    ghost sources = { length N.settings.sources };

    ghost limit = { N.limit };

    fn enter(&self, pass: &mut FeedPass, entry: Entry, full: &mut bool) {
        let feed = entry.feed;
        self.gate.pass(self.rt, feed, BEFORE);
        append(self.rt, self.hub, pass, entry, full);
        self.gate.pass(self.rt, feed, AFTER);
    }
}
