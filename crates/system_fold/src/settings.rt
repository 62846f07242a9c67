//! What makes a page besides the journal.
ghost use Rattle.std.specs.Prelude.{◌≡◌, ◌++◌, ◌∷◌, [], ◌<◌, ◌≤◌, length};
ghost use Rattle.system_fold.specs.Settings.{SettingsFields, bound_of};

use arrayvec::ArrayVec;
use outside_traits::Address;
use std::marker::Model;
use tick_units::Plan;

/// What a feed is.
#[derive(Clone, Copy, Debug, PartialEq, Eq)]
pub enum SourceKind {
    /// A receiver of a radio with this code plan.
    Radio(Plan),
    /// An NTP server at this address.
    Server(Address),
    /// A file of leap seconds, which gives no time.
    Leap,
}

/// What fills the unused places of the settings.
impl Default for SourceKind {
    fn default() -> SourceKind {
        SourceKind::Leap
    }
}

/// What makes a page besides the journal: what each feed is, by its number, and the root dispersion above which a page is not
/// trusted.
#[derive(Drop)]
pub struct Settings {
    bound: u64,
    sources: ArrayVec<SourceKind, 16>,
}

impl Model for Settings {
    ghost use Rattle.std.specs.Prelude.{◌≤◌, length};
    ghost use Rattle.system_fold.specs.Settings.{SettingsFields};

    ghost Value = { SettingsFields };

    ghost view = { λ s. record { bound = s.bound; sources = s.sources.items } };

    ghost invariant = { λ s. length s.sources.items ≤ 16 };
}

/// A bound of this many milliseconds in units of 2^-32 s.
pub fn bound_of(milliseconds: u32) -> u64
    requires { milliseconds ≤ 16000 }
    ensures { result ≡ bound_of milliseconds }
{
    (u64::from(milliseconds) * 1000 << 32) / 1_000_000
}

impl Settings {
    /// Settings with no feed, and with a bound of this many milliseconds, 1 to 16000.
    pub fn new(bound_ms: u32) -> Settings
        requires least { 1 ≤ bound_ms }
        requires most { bound_ms ≤ 16000 }
        ensures { result ≡ record { bound = bound_of bound_ms; sources = [] } }
    {
        Settings {
            bound: bound_of(bound_ms),
            sources: ArrayVec::new(),
        }
    }

    /// Adds the feed of the next number.
    pub fn add(&mut self, kind: SourceKind)
        requires { length self.old.sources < 16 }
        ensures { self.new ≡ record self.old { sources = self.old.sources ++ kind ∷ [] } }
    {
        self.sources.push(kind);
    }

    /// The root dispersion above which a page is not trusted, in units of 2^-32 s.
    pub fn bound(&self) -> u64
        ensures { result ≡ self.now.bound }
    {
        self.bound
    }

    /// What each feed is, by number.
    pub fn sources(&self) -> &[SourceKind]
        ensures value { result.now ≡ self.now.sources }
        ensures few { length result.now ≤ 16 }
    {
        self.sources.as_slice()
    }

    /// The number of feeds.
    pub fn count(&self) -> u32
        ensures value { result ≡ length self.now.sources }
        ensures most { result ≤ 16 }
    {
        self.sources.as_slice().len() as u32
    }
}
