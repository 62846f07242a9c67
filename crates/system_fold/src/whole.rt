//! The page of a whole journal.
ghost use Rattle.std.specs.Prelude.{◌≡◌, ◌≤◌, ◌^◌, length};
ghost use Rattle.system_fold.specs.Page.{page_of};
ghost use Rattle.system_fold.specs.Settings.{AreValid, IsJournal};

use crate::{FoldState, Settings};
use clock_page::Page;
use journal_entry::Entry;

/// The page of a journal of at most 2^22 entries, entry by entry.
pub fn page_by_steps(settings: &Settings, journal: &[Entry]) -> Page
    requires settings { AreValid settings.now }
    requires entries { IsJournal settings.now journal.now }
    requires room { length journal.now ≤ 2 ^ 22 }
    ensures { result ≡ page_of settings.now journal.now }
{
    let mut fold = FoldState::new(settings);
    for entry in journal {
        fold.step(entry);
    }
    fold.page()
}
