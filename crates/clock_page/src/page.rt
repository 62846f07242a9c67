//! The page: what it says, and the page of a server that does not know the time.
ghost use Rattle.std.specs.Prelude.{◌≡◌};
ghost use Rattle.clock_page.specs.Page.{unsynchronised};

use std::marker::Model;
use tick_units::{Local, Short, Span, Stamp};

/// The reference ID of a server that is not synchronised: `INIT` (RFC 5905, section 7.4).
pub const INIT: u32 = 0x494e_4954;

/// The root dispersion where nothing is known: 16 s, which is MAXDISP of RFC 5905.
pub const UNKNOWN_DISPERSION: u32 = 0x0010_0000;

/// How the server computes the time, from the first `length` entries of its journal.
#[derive(Clone, Copy, Debug, PartialEq, Eq)]
pub struct Page {
    /// The number of entries.
    pub length: u64,
    /// Whether the page gives the time.
    pub sync: bool,
    /// The server's stratum.
    pub stratum: u8,
    /// What the server takes its time from: four letters, or an IPv4 address.
    pub refid: u32,
    /// What to add to the host's counter to get the time since 1900, at the anchor; never negative.
    pub offset: Span,
    /// The moment for which the page was computed.
    pub anchor: Local,
    /// The moment from which on the page is not synchronised, in microseconds.
    pub until: u64,
    /// The round-trip delay to the reference clock.
    pub root_delay: Short,
    /// The dispersion of the time that comes from the reference clock, at the anchor.
    pub root_disp: Short,
    /// When the reference clock was last received.
    pub reftime: Stamp,
    /// The second at which the announced leap second ends, and 0 where none is announced.
    pub leap_at: u64,
    /// How fast the host's counter loses: by how many units of 2^-32 s the offset grows in a second from the anchor on. It is
    /// -2147483 to 2147483 (500 parts per million).
    pub rate: i32,
}

impl Model for Page {
    ghost use Rattle.clock_page.specs.Page.{PageFields, IsSound};

    ghost Value = { PageFields };

    ghost use Rattle.clock_page.specs.KeptPage.{said_by, inside_of};

    ghost view = { said_by };

    ghost invariant = { λ p. IsSound (said_by p) };

    ghost inverse = { inside_of };
}

impl Page {
    /// The page of this many entries at a moment, where the server does not know the time.
    pub fn unsynchronised(length: u64, anchor: Local) -> Page
        ensures { result ≡ unsynchronised length anchor }
    {
        Page {
            length,
            sync: false,
            stratum: 0,
            refid: INIT,
            offset: Span::from(0),
            anchor,
            until: 0,
            root_delay: Short(0),
            root_disp: Short(UNKNOWN_DISPERSION),
            reftime: Stamp(0),
            leap_at: 0,
            rate: 0,
        }
    }
}
