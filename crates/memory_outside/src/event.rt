// The hearings that a link in memory was given, and the events that it noted.
ghost use Rattle.std.specs.Prelude.{◌≡◌};
ghost use Rattle.memory_outside.specs.Book.{event_with, bytes_of};
ghost use Rattle.memory_outside.specs.Seen.{event_seen};

use crate::book::Kind;
use outside_traits::Address;
use tick_units::Local;

/// A hearing that a link in memory will give.
#[derive(Drop)]
pub enum Planned {
    /// A datagram with its sender and the moment at which it comes. The link receives its first 1024 bytes.
    Datagram {
        from: Address,
        at: Local,
        bytes: Vec<u8>,
    },
    /// Nothing comes for a while.
    Quiet,
}

/// An event of a link in memory.
#[derive(Drop)]
pub enum LinkEvent<'a> {
    /// A datagram came.
    Datagram {
        from: Address,
        at: Local,
        bytes: &'a [u8],
    },
    /// Nothing came for a while.
    Quiet,
    /// Nothing will come any more.
    End,
    /// It gave a moment.
    Moment(Local),
    /// A datagram was sent.
    Sent {
        to: Address,
        bytes: &'a [u8],
    },
}

impl<'a> LinkEvent<'a> {
    /// What kind of event it is, without the bytes of its datagram.
    pub fn kind(&self) -> Kind
        ensures { event_with result (bytes_of (event_seen self.now)) ≡ event_seen self.now }
    {
        match self {
            LinkEvent::Datagram { from, at, .. } => Kind::Heard {
                from: *from,
                at: *at,
            },
            LinkEvent::Quiet => Kind::Nothing,
            LinkEvent::End => Kind::Over,
            LinkEvent::Moment(at) => Kind::Clock { at: *at },
            LinkEvent::Sent { to, .. } => Kind::Posted { to: *to },
        }
    }

    /// The bytes of its datagram; none where the event has no datagram.
    pub fn bytes(&self) -> &'a [u8]
        ensures { result.now ≡ bytes_of (event_seen self.now) }
    {
        match self {
            LinkEvent::Datagram { bytes, .. } | LinkEvent::Sent { bytes, .. } => bytes,
            LinkEvent::Quiet | LinkEvent::End | LinkEvent::Moment(_) => &[],
        }
    }
}
