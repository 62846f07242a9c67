//! Whether a journal names a leap second.
ghost use Rattle.std.specs.Prelude.{IsTrue, List, ◌≡◌, ◌↔◌};
ghost use Rattle.journal_entry.specs.declared.entry.Entry.{Entry as Entered};
ghost use Rattle.drill_day.specs.Orders.{KeepsFeeds, NamesNoLeap, leap_in, leap_named};
ghost use Rattle.system_fold.specs.Page.{page_of};
ghost use Rattle.system_fold.specs.Settings.{SettingsFields};

use journal_entry::{Entry, What};
use tick_units::Kind;

// The leap second that a closed minute names, or 0.
fn leap_of_kind(kind: &Kind) -> u64
    ensures { result ≡ leap_in kind.now }
{
    match kind {
        Kind::Verdict { leap_at, .. } => *leap_at,
        Kind::Lone { .. } => 0,
        Kind::Differs { .. } => 0,
        Kind::Refused { .. } => 0,
    }
}

// The leap second that an entry names, or 0.
fn leap_of_what(what: &What) -> u64
    ensures { result ≡ leap_named what.now }
{
    match what {
        What::Heard(kind) => leap_of_kind(kind),
        What::Sample(_) => 0,
        What::Declined(_) => 0,
        What::Notice(leap_at) => *leap_at,
    }
}

/// Whether no entry of a journal names a leap second. Then its page is the same in every other order of its entries that keeps
/// the entries of each feed in order.
pub fn names_no_leap(journal: &[Entry]) -> bool
    ensures names { IsTrue result ↔ NamesNoLeap journal.now }
    ensures page { IsTrue result
        → (settings : SettingsFields) (other : List Entered) → KeepsFeeds journal.now other
        → page_of settings journal.now ≡ page_of settings other }
{
    journal.iter().all(|e| leap_of_what(&e.what) == 0)
}
