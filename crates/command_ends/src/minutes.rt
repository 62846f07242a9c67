//! What the minutes of a log are to one another.
ghost use Rattle.std.specs.Prelude.{◌≡◌, ◌++◌, ◌∷◌, [], List};
ghost use Rattle.command_ends.specs.Minutes.{minutes_of};
ghost use Rattle.journal_entry.specs.declared.entry.Entry as journal;
ghost use Rattle.journal_entry.specs.declared.entry.What.TheVariants as what;

use journal_entry::{Entry, What};
use tick_units::Kind;

/// Where this many minutes of a log differ, and no two agree, its counter is off, or it has more than noise.
pub const MANY_DIFFER: u8 = 3;

/// What the minutes of a log are to one another, by its entries.
#[derive(Clone, Copy, Debug, PartialEq, Eq)]
pub struct Minutes {
    /// Two minutes agree.
    pub agree: bool,
    /// A frame is valid, with no valid one before it.
    pub lone: bool,
    /// How many differ from the minute before, up to `MANY_DIFFER`.
    pub differing: u8,
}

impl Minutes {
    /// Those of a log that has given no entry.
    pub fn none() -> Minutes
        ensures { result ≡ minutes_of [] }
    {
        Minutes {
            agree: false,
            lone: false,
            differing: 0,
        }
    }

    /// These and that of one more entry.
    pub fn with(self, entry: &Entry) -> Minutes
        ensures { (entries : List journal.Entry) → self ≡ minutes_of entries →
            result ≡ minutes_of (entries ++ entry.now ∷ []) }
    {
        match entry.what {
            What::Heard(kind) => self.with_kind(kind),
            What::Sample(_) => self,
            What::Declined(_) => self,
            What::Notice(_) => self,
        }
    }

    // These and one of this kind.
    fn with_kind(self, kind: Kind) -> Minutes
        ensures { (entries : List journal.Entry) (entry : journal.Entry) → entry.what ≡ what.Heard kind →
            self ≡ minutes_of entries → result ≡ minutes_of (entries ++ entry ∷ []) }
    {
        match kind {
            Kind::Verdict { .. } => Minutes {
                agree: true,
                ..self
            },
            Kind::Lone { .. } => Minutes { lone: true, ..self },
            Kind::Differs { .. } => Minutes {
                differing: self.differing.saturating_add(1).min(MANY_DIFFER),
                ..self
            },
            Kind::Refused { .. } => self,
        }
    }
}
