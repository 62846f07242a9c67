//! What is kept of a feed.
ghost use Rattle.std.specs.Prelude.{◌≡◌, ◌<◌, ◌++◌, ◌∷◌, [], List, Option};
ghost use Rattle.clock_filter.specs.Held as filters;
ghost use Rattle.clock_filter.specs.declared.taken.Taken.{Taken};
ghost use Rattle.journal_entry.specs.Valid.{IsValidWhat};
ghost use Rattle.system_fold.specs.Feeds.{with_sample};
ghost use Rattle.system_fold.specs.Samples.{taken_in};

use crate::SourceKind;
use crate::source::taken_in;
use clock_filter::Filter;
use journal_entry::Entry;

/// What a feed is, and those of its samples that may still count.
#[derive(Drop)]
pub struct Feed {
    pub kind: SourceKind,
    pub filter: Filter,
}

/// What fills the unused places of a fold.
impl Default for Feed {
    fn default() -> Feed {
        Feed::new(SourceKind::Leap)
    }
}

impl Feed {
    /// A feed with no samples.
    pub fn new(kind: SourceKind) -> Feed
        ensures { result ≡ record { kind = kind; filter = [] } }
    {
        Feed {
            kind,
            filter: Filter::new(),
        }
    }

    /// Takes the sample that an entry is, if it is one.
    pub fn take(&mut self, e: &Entry)
        requires { IsValidWhat e.now.what }
        ensures kind { self.new.kind ≡ self.old.kind }
        ensures filter { (samples : List Taken) → filters.StandsFor self.old.filter samples →
            filters.StandsFor self.new.filter (with_sample samples (taken_in self.old.kind e.now)) }
    {
        if let Some(taken) = taken_in(self.kind, e) {
            self.filter.add(taken.at, taken.sample);
        }
    }
    /// Computes the figures of its samples from this cut on.
    pub fn look_from(&mut self, cut: u64)
        ensures { self.new ≡ self.old }
    {
        self.filter.look_from(cut);
    }
}
