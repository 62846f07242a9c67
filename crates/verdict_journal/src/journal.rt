//! The journal once all passes are taken back.
ghost use Rattle.std.specs.Prelude.{◌≡◌, length, slice_get};
ghost use Rattle.std.specs.Option.{option_map};
ghost use Rattle.system_fold.specs.Page.{page_of};
ghost use Rattle.verdict_journal.specs.Journals.{numbered_of};

use clock_page::Page;
use journal_entry::{Entry, Numbered};
use page_cell::BatonPass;
use std::marker::Model;

/// The entries of a closed hub in their order, each with its number and the rate after it, and the page of all.
#[derive(Drop)]
pub struct Journal {
    pub(crate) lines: Vec<Numbered>,
    pub(crate) limit: u32,
    pub(crate) page: Page,
    pub(crate) baton: BatonPass,
}

impl Model for Journal {
    ghost use Rattle.std.specs.Prelude.{◌≡◌, length, vec_len};
    ghost use Rattle.page_cell.specs.Passes.{key_of};
    ghost use Rattle.system_fold.specs.Page.{page_of};
    ghost use Rattle.verdict_journal.specs.Journals.{State, numbered_of};

    ghost Value = { State };

    ghost view = { λ j. record { entries = j.baton.view.list; settings = key_of j.baton.view; limit = j.limit } };

    ghost invariant = { λ j. (j.lines.items ≡ numbered_of (key_of j.baton.view) j.baton.view.list) ×
        (vec_len j.lines ≡ length j.baton.view.list) × (j.page ≡ page_of (key_of j.baton.view) j.baton.view.list) };
}

// The entry of a line.
fn entry_in(line: Option<Numbered>) -> Option<Entry>
    ensures { result ≡ option_map (λ n. n.entry) line }
{
    match line {
        Some(line) => Some(line.entry),
        None => None,
    }
}

impl Journal {
    /// How many entries there are.
    pub fn len(&self) -> usize
        ensures { result ≡ length self.now.entries }
    {
        self.lines.len()
    }

    /// The entry of this place, from 0; `None` from the length on.
    pub fn get(&self, i: usize) -> Option<Entry>
        ensures { result ≡ slice_get self.now.entries i }
    {
        entry_in(self.numbered(i))
    }

    /// The entry of this place with its number and the rate of the page after it; `None` from the length on.
    pub fn numbered(&self, i: usize) -> Option<Numbered>
        ensures { result ≡ slice_get (numbered_of self.now.settings self.now.entries) i }
    {
        self.lines.get(i).copied()
    }

    /// The page of all entries.
    pub fn page(&self) -> Page
        ensures { result ≡ page_of self.now.settings self.now.entries }
    {
        self.page
    }
}
