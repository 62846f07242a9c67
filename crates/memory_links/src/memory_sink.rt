// An output in memory.
ghost use Rattle.std.specs.Prelude.{◌≡◌, ◌⊎◌, ◌+◌, ◌<◌, ◌≤◌, ℕ, true, Some, [], length, IfOk, OnOk, OnErr};
ghost use Rattle.outside_traits.specs.Faults.{HasCause};
ghost use Rattle.outside_traits.specs.States.{Writes};
ghost use Rattle.memory_links.specs.Calls.{AreStated, IsCalled, fails_next};

use crate::calls::Calls;
use outside_traits::{Failed, Sink};
use std::alloc::Global;

/// An output in memory, of which stated calls of `write` fail. It is a fault too where there is no memory to grow.
#[derive(Drop)]
pub struct MemorySink {
    bytes: Vec<u8>,
    calls: Calls,
    faults: u64,
}

impl MemorySink {
    ghost use Rattle.memory_links.specs.Memory.{sink_state, sink_calls, sink_room};
    ghost use Rattle.std.specs.Bool.{OnTrue, OnFalse};
    ghost use Rattle.std.specs.Prelude.{◌++◌};

    /// An empty output, whose calls of these numbers fail, counted from 1.
    pub fn new(alloc: Global, fails: Vec<u64>) -> MemorySink
        ensures calls { AreStated (sink_calls result) fails.items }
        ensures state { sink_state result ≡ record { held = Some []; faults = 0 } }
    {
        MemorySink {
            bytes: Vec::new(alloc),
            calls: Calls::new(fails),
            faults: 0,
        }
    }

    /// The bytes that it holds.
    pub fn bytes(&self) -> &[u8]
        ensures { (sink_state self.now).held ≡ Some result.now }
    {
        &self.bytes
    }

    // Adds a piece, unless there is no memory for it.
    fn add(&mut self, piece: &[u8]) -> bool
        ensures calls { self.new.calls ≡ self.old.calls }
        ensures faults { self.new.faults ≡ self.old.faults }
        ensures added { OnTrue result (self.new.bytes.items ≡ self.old.bytes.items ++ piece.now) }
        ensures kept { OnFalse result (self.new.bytes.items ≡ self.old.bytes.items) }
        ensures full { OnFalse result (sink_room self.old < length self.old.bytes.items + length piece.now) }
    {
        match self.bytes.extend_from_slice(piece) {
            Ok(()) => true,
            Err(_) => false,
        }
    }

    /// The bytes that it holds.
    pub fn into_bytes(self) -> Vec<u8>
        ensures { (sink_state self).held ≡ Some result.items }
    {
        self.bytes
    }
}

impl Sink for MemorySink {
    ghost use Rattle.std.specs.Prelude.{false};
    ghost use Rattle.memory_links.specs.Memory.{sink_state, sink_calls, sink_room};

    ghost state = { λ s. record { held = Some s.bytes.items; faults = s.faults } };

    fn write(&mut self, piece: &[u8]) -> Result<usize, Failed>
        ensures within { IfOk result (λ n. n ≤ length piece.now) }
        ensures some { IfOk result (λ n. 0 < length piece.now → 0 < n) }
        ensures bytes { Writes (sink_state self.old) (sink_state self.new) result piece.now }
        ensures cause { HasCause self.old.faults self.new.faults result }

        // It takes all of the piece. It fails exactly where that was stated or where there is no memory.
        ensures whole { IfOk result (λ n. n ≡ length piece.now) }
        ensures called { IsCalled (sink_calls self.old) (sink_calls self.new) }
        ensures passes { OnOk result (fails_next (sink_calls self.old) ≡ false) }
        ensures fails { OnErr result ((fails_next (sink_calls self.old) ≡ true) ⊎
            (sink_room self.old < length self.old.bytes.items + length piece.now)) }
    {
        if self.calls.next_fails() || !self.add(piece) {
            self.faults = self.faults.saturating_add(1);
            return Err(Failed);
        }
        Ok(piece.len())
    }
}
