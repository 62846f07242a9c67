//! What selection receives of a source, and the interval that it finds.
ghost use Rattle.std.specs.Prelude.{◌≡◌, IsTrue};
ghost use Rattle.select_core.specs.Selection as selection;
ghost use Rattle.select_core.specs.Selection.{contains, is_measured, is_within, is_in};

use tick_units::Span;

/// A source that is fit to be selected. It says that the true offset is within its distance of its own offset.
#[derive(Clone, Copy, Debug, PartialEq, Eq)]
pub struct Candidate {
    /// The number of the source's feed.
    pub feed: u32,
    /// The time since 1900 less the host's counter; selection takes at most 2^68 units in size.
    pub offset: Span,
    /// The root distance (RFC 5905, section 11.2.1); selection takes 1 unit to 2^32 units (1 s).
    pub distance: Span,
}

/// The interval that enough sources agree on.
#[derive(Clone, Copy, Debug, PartialEq, Eq)]
pub struct Chime {
    /// The ends of the interval, which contains both.
    pub low: Span,
    pub high: Span,
    /// How many offsets might have lain outside; no more than these do.
    pub allowed: u32,
}

// What fills the places of a `Sweep` where no candidate stands.
impl Default for Candidate {
    fn default() -> Candidate {
        Candidate {
            feed: 0,
            offset: Span::from(0),
            distance: Span::from(0),
        }
    }
}

impl Candidate {
    // The ends of its interval, which contains both.
    pub(crate) fn lower(&self) -> Span
        requires { IsTrue (is_measured self.now) }
        ensures { result ≡ selection.lower self.now }
    {
        self.offset - self.distance
    }

    pub(crate) fn upper(&self) -> Span
        requires { IsTrue (is_measured self.now) }
        ensures { result ≡ selection.upper self.now }
    {
        self.offset + self.distance
    }

    // Whether its interval contains a point.
    pub(crate) fn contains(&self, point: Span) -> bool
        requires { IsTrue (is_measured self.now) }
        ensures { result ≡ contains point self.now }
    {
        is_within(self.lower(), self.upper(), point)
    }
}

impl Chime {
    /// Whether an offset lies in the interval: then its source survives the selection.
    pub fn holds(&self, offset: Span) -> bool
        ensures { result ≡ is_in self.now offset }
    {
        is_within(self.low, self.high, offset)
    }
}

// Whether an interval, both ends included, contains a point.
pub(crate) fn is_within(low: Span, high: Span, point: Span) -> bool
    ensures { result ≡ is_within low high point }
{
    low <= point && point <= high
}
