// A link on which datagrams come and go, and the gate at which a test may hold a worker.
ghost use Rattle.std.specs.Prelude.{◌≡◌, ℕ, MatchResult};
ghost use Rattle.outside_traits.specs.Faults.{HasCause};
ghost use Rattle.outside_traits.specs.States.{LinkState};
ghost use Rattle.outside_traits.specs.Links.{ReceivesNext, IsDeaf, ReportsMoment, Sends};

use crate::{Address, Failed};
use std::sync::Wait;
use tick_units::Local;

/// A datagram that came: its sender, how many bytes of it were received, and when it came.
#[derive(Drop)]
pub struct Arrival {
    pub from: Address,
    /// At most 1024.
    pub length: usize,
    pub at: Local,
}

/// What a link received.
#[derive(Drop)]
pub enum Hearing {
    /// A datagram, whose bytes stand at the beginning of the piece.
    Datagram(Arrival),
    /// Nothing came for a while.
    Quiet,
    /// Nothing will come any more.
    End,
}

/// Datagrams that come and go.
pub trait Link: Send {
    /// What it reports: its events in order, its last moment or arrival, and how often it has failed.
    ghost state: { Self → LinkState };

    /// The number of its opening at its outside.
    ghost opening: { Self → ℕ };

    /// Receives a datagram, or reports silence or the end. Of a longer datagram it receives the first 1024 bytes.
    fn hear(&mut self, piece: &mut [u8; 1024]) -> Result<Hearing, Failed>
        ensures heard { MatchResult result
            (λ hearing. ReceivesNext (state self.old) (state self.new) hearing piece.new)
            (λ _. IsDeaf (state self.old) (state self.new)) }
        ensures cause { HasCause (state self.old).faults (state self.new).faults result }
        ensures number { opening self.new ≡ opening self.old };

    /// The moment now, which is never below an earlier moment or arrival.
    fn moment(&mut self) -> Local
        ensures reported { ReportsMoment (state self.old) (state self.new) result }
        ensures number { opening self.new ≡ opening self.old };

    /// Sends a datagram.
    fn send(&mut self, to: Address, bytes: &[u8]) -> Result<(), Failed>
        ensures sent { Sends (state self.old) (state self.new) result to bytes.now }
        ensures cause { HasCause (state self.old).faults (state self.new).faults result }
        ensures number { opening self.new ≡ opening self.old };
}

/// Where a test may hold a worker. Workers of feeds pass it with the number of their feed, responders with 100 and their number.
pub trait Gate: Sync {
    /// A worker passes a place: 1 before it appends a feed's entry, 4 after that. A responder passes 2 after it has received a
    /// datagram, 3 after it has sent a reply. The call changes nothing, and may wait.
    fn pass<R: Wait>(&self, rt: &R, worker: u32, place: u8);
}

/// A gate that never holds.
#[derive(Clone, Copy, Debug, PartialEq, Eq)]
pub struct OpenGate;

impl OpenGate {
    /// A gate that never holds.
    pub fn new() -> OpenGate
        ensures { result ≡ record {} }
    {
        OpenGate
    }
}

impl Gate for OpenGate {
    fn pass<R: Wait>(&self, _rt: &R, _worker: u32, _place: u8) {}
}
