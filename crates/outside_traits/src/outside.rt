// The traits of what a station meets outside.
ghost use Rattle.std.specs.Prelude.{◌≡◌, ℕ, ◌<◌, ◌≤◌, ◌∷◌, [], Bool, true, false, length, IfOk, MatchResult};
ghost use Rattle.outside_traits.specs.Faults.{HasCause};
ghost use Rattle.outside_traits.specs.States.{SourceState, SinkState, Reads, Writes};
ghost use Rattle.outside_traits.specs.Openings.{OutsideState, GrowsBy, IsNext, IsOut, GivesBack, answered, failed};
ghost use Rattle.outside_traits.specs.Openings.Wanted.{LogOf, LinkAt};
ghost use Rattle.outside_traits.specs.Openings.State.{OfLog, OfLink};

use crate::{Gate, Link};
use tick_units::Local;

/// A call of the outside failed. The count of faults of the object that was called has risen.
#[derive(Clone, Copy, Debug, PartialEq, Eq)]
pub struct Failed;

/// An IPv4 address and a port.
#[derive(Clone, Copy, Debug, PartialEq, Eq)]
pub struct Address {
    pub ip: u32,
    pub port: u16,
}

/// Bytes that come in, as a log does.
pub trait Source: Send {
    /// What it reports: the bytes that are left, and how often it has failed.
    ghost state: { Self → SourceState };

    /// The number of its opening at its outside.
    ghost opening: { Self → ℕ };

    /// Takes the next bytes and returns how many. 0 is the end.
    fn read(&mut self, piece: &mut [u8]) -> Result<usize, Failed>
        ensures within { IfOk result (λ n. n ≤ length piece.new) }
        ensures bytes { Reads (state self.old) (state self.new) result piece.new }
        ensures cause { HasCause (state self.old).faults (state self.new).faults result }
        ensures number { opening self.new ≡ opening self.old };
}

/// Where bytes are written to.
pub trait Sink {
    /// What it reports: the bytes that it holds, and how often it has failed.
    ghost state: { Self → SinkState };

    /// Appends the first bytes of the piece and returns how many, at least one where there is one.
    fn write(&mut self, piece: &[u8]) -> Result<usize, Failed>
        ensures within { IfOk result (λ n. n ≤ length piece.now) }
        ensures some { IfOk result (λ n. 0 < length piece.now → 0 < n) }
        ensures bytes { Writes (state self.old) (state self.new) result piece.now }
        ensures cause { HasCause (state self.old).faults (state self.new).faults result };
}

/// What a station opens, and gives back.
pub trait Outside {
    type Log: Source + Drop;

    type Net: Link + Drop;

    type Turns: Gate + Drop;

    /// What it reports: its openings in order, its room for them, and how often it has failed.
    ghost state: { Self → OutsideState };

    /// Whether its gate is out.
    ghost gate_out: { Self → Bool };

    /// Opens the log of this name.
    fn open_log(&mut self, name: &str) -> Result<Self::Log, Failed>
        ensures opened { MatchResult result
            (λ log. GrowsBy (state self.old) (state self.new)
            (answered (LogOf name.now) (OfLog (Self.Log.state log)) ∷ []))
            (λ _. GrowsBy (state self.old) (state self.new) (failed (LogOf name.now) ∷ [])) }
        ensures number { IfOk result (λ log. IsNext (state self.old).openings (Self.Log.opening log)) }
        ensures cause { HasCause (state self.old).faults (state self.new).faults result }
        ensures gate { gate_out self.new ≡ gate_out self.old };

    /// Opens a link on this port, or on any free one where it is 0. Its moments count from `start` on.
    fn open_link(&mut self, port: u16, start: Local) -> Result<Self::Net, Failed>
        ensures opened { MatchResult result
            (λ net. GrowsBy (state self.old) (state self.new)
            (answered (LinkAt port start) (OfLink (Self.Net.state net)) ∷ []))
            (λ _. GrowsBy (state self.old) (state self.new) (failed (LinkAt port start) ∷ [])) }
        ensures number { IfOk result (λ net. IsNext (state self.old).openings (Self.Net.opening net)) }
        ensures cause { HasCause (state self.old).faults (state self.new).faults result }
        ensures gate { gate_out self.new ≡ gate_out self.old };

    /// Hands out its gate.
    fn gate(&mut self) -> Self::Turns
        requires { gate_out self.old ≡ false }
        ensures same { state self.new ≡ state self.old }
        ensures gate { gate_out self.new ≡ true };

    /// Takes its gate back.
    fn give_back_gate(&mut self, gate: Self::Turns)
        requires { gate_out self.old ≡ true }
        ensures same { state self.new ≡ state self.old }
        ensures gate { gate_out self.new ≡ false };

    /// Takes back a log that it opened.
    fn give_back_log(&mut self, log: Self::Log)
        requires { IsOut (state self.old).openings (Self.Log.opening log) }
        ensures back { GivesBack (state self.old) (state self.new) (Self.Log.opening log) (OfLog (Self.Log.state log)) }
        ensures gate { gate_out self.new ≡ gate_out self.old };

    /// Takes back a link that it opened.
    fn give_back_link(&mut self, net: Self::Net)
        requires { IsOut (state self.old).openings (Self.Net.opening net) }
        ensures back { GivesBack (state self.old) (state self.new) (Self.Net.opening net)
            (OfLink (Self.Net.state net)) }
        ensures gate { gate_out self.new ≡ gate_out self.old };
}
