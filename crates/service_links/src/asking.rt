//! What a link that asks a server keeps.
ghost use Rattle.std.specs.Prelude.{◌≡◌, None, if◌then◌else◌};
ghost use Rattle.service_links.specs.Paces.{kiss_for, kiss_in, after_kiss, asked_at, is_from, is_never, sending};

use crate::pace::stamp_of;
use crate::{Kiss, Pace, kiss_of};
use outside_traits::Address;
use tick_units::{Local, Stamp};

/// A request: its receiver and its transmit timestamp.
#[derive(Clone, Copy, Debug, PartialEq, Eq)]
pub struct Request {
    pub to: Address,
    pub stamp: Stamp,
}

/// The pace of a link to a server, and its last request until a `RATE` came for it.
#[derive(Clone, Copy, Debug, PartialEq, Eq)]
pub struct Asking {
    pub pace: Pace,
    pub request: Option<Request>,
}

impl Request {
    // Whether an address is that of its receiver.
    fn is_from(&self, from: Address) -> bool
        ensures { result ≡ is_from self.now from }
    {
        from.ip == self.to.ip && from.port == self.to.port
    }

    // The kiss code for it in a datagram.
    fn kiss(&self, from: Address, bytes: &[u8]) -> Option<Kiss>
        ensures { result ≡ if is_from self.now from then kiss_in bytes.now self.now.stamp else None }
    {
        if self.is_from(from) {
            kiss_of(bytes, self.stamp)
        } else {
            None
        }
    }
}

impl Asking {
    /// No request was made yet.
    pub fn new(pace: Pace) -> Asking
        ensures { result ≡ record { pace = pace; request = None } }
    {
        Asking {
            pace,
            request: None,
        }
    }

    // The kiss code of a datagram for the last request.
    fn kiss(&self, from: Address, bytes: &[u8]) -> Option<Kiss>
        ensures { result ≡ kiss_for self.now from bytes.now }
    {
        match self.request {
            Some(request) => request.kiss(from, bytes),
            None => None,
        }
    }

    /// Heeds the kiss code of a datagram that came at this moment. Returns whether the server wants no more requests.
    pub fn heed(&mut self, moment: Local, from: Address, bytes: &[u8]) -> bool
        ensures pace { self.new ≡ after_kiss self.old moment (kiss_for self.old from bytes.now) }
        ensures never { result ≡ is_never (kiss_for self.old from bytes.now) }
    {
        match self.kiss(from, bytes) {
            Some(Kiss::Slower) => {
                self.pace.slow_down(moment);
                self.request = None;
                false
            }
            Some(Kiss::Never) => true,
            None => false,
        }
    }

    /// A request is made at this moment.
    pub fn ask(&mut self, moment: Local)
        ensures { self.new ≡ record self.old { pace = asked_at self.old.pace moment } }
    {
        self.pace.ask(moment);
    }

    /// These bytes are sent as a request.
    pub fn send(&mut self, to: Address, bytes: &[u8])
        ensures { self.new ≡ sending self.old to bytes.now }
    {
        self.request = match stamp_of(bytes) {
            Some(stamp) => Some(Request { to, stamp }),
            None => None,
        };
    }
}
