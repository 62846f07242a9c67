//! What clustering receives of a source.
use tick_units::Span;

/// A source that agrees with enough others.
#[derive(Clone, Copy, Debug, PartialEq, Eq)]
pub struct Survivor {
    /// Its number.
    pub feed: u32,
    /// Its stratum; 0 for a radio.
    pub stratum: u8,
    /// How far its offset may be from the truth: its root distance.
    pub distance: Span,
    /// The time since 1900 less the host's counter, by this source.
    pub offset: Span,
    /// The square of its jitter, in units of 2^-64 s^2.
    pub jitter2: u128,
}

/// What fills the unused places of a list.
impl Default for Survivor {
    fn default() -> Survivor {
        Survivor {
            feed: 0,
            stratum: 0,
            distance: Span::from(0),
            offset: Span::from(0),
            jitter2: 0,
        }
    }
}
