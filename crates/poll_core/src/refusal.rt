//! Why an answer is refused, and the number of each reason.
ghost use Rattle.std.specs.Prelude.{◌≡◌};
ghost use Rattle.poll_core.specs.Refusals.{code_of, TableIsByNumber};

use outside_traits::Address;
use tick_units::{Short, Stamp};

/// Why a datagram is not taken as the answer to a poll (RFC 5905, section 8 and appendix A.5.1.1). Of several reasons the first
/// counts; the order is this project's own.
#[derive(Clone, Copy, Debug, PartialEq, Eq)]
pub enum PollRefusal {
    /// The sender is not the poller's server.
    Stranger { from: Address },
    /// It has fewer than 48 bytes.
    Short { length: usize },
    /// No request is outstanding.
    NotAsked,
    /// Its version is not 1 to 4.
    Version { version: u8 },
    /// Its mode is not that of a server.
    Mode { mode: u8 },
    /// Its origin timestamp is not the transmit timestamp of the outstanding request.
    Bogus { origin: Stamp, asked: Stamp },
    /// Its transmit timestamp is that of the last answer that was accepted.
    Duplicate { transmit: Stamp },
    /// Its server is not synchronised: the leap indicator is 3, or the stratum is not 1 to 15.
    Unsynchronised { leap: u8, stratum: u8 },
    /// Its receive or its transmit timestamp is 0.
    ZeroStamp,
    /// Its server is too far from its reference clock: half of the root delay and the root dispersion are together 16 s or
    /// more.
    Distance { root_delay: Short, root_disp: Short },
}

impl PollRefusal {
    /// Its number, 1 to 10 in the order of the checks.
    pub fn code(&self) -> u8
        ensures value { result ≡ code_of self.now }
        ensures by_number { TableIsByNumber }
    {
        match self {
            PollRefusal::Stranger { .. } => 1,
            PollRefusal::Short { .. } => 2,
            PollRefusal::NotAsked => 3,
            PollRefusal::Version { .. } => 4,
            PollRefusal::Mode { .. } => 5,
            PollRefusal::Bogus { .. } => 6,
            PollRefusal::Duplicate { .. } => 7,
            PollRefusal::Unsynchronised { .. } => 8,
            PollRefusal::ZeroStamp => 9,
            PollRefusal::Distance { .. } => 10,
        }
    }
}
