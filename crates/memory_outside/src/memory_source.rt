// A log in memory.
ghost use Rattle.std.specs.Prelude.{◌≡◌, ℕ, ◌≤◌, Some, drop, length, not, is_ok, vec_len, IfOk};
ghost use Rattle.outside_traits.specs.Faults.{HasCause};
ghost use Rattle.outside_traits.specs.States.{Reads};
ghost use Rattle.memory_links.specs.Calls.{AreStated, IsCalled, fails_next};

use memory_links::Calls;
use outside_traits::{Failed, Source};

/// A log in memory, of which stated calls of `read` fail.
#[derive(Drop)]
pub struct MemorySource {
    pub(crate) text: Vec<u8>,
    pub(crate) at: usize,
    calls: Calls,
    pub(crate) faults: u64,
    pub(crate) opening: u64,
    ghost within: { at ≤ vec_len text },
}

impl MemorySource {
    ghost use Rattle.memory_outside.specs.MemorySource.{source_state, source_calls};

    /// A log of these bytes, whose calls of these numbers fail, counted from 1.
    pub fn new(text: Vec<u8>, fails: Vec<u64>) -> MemorySource
        ensures calls { AreStated (source_calls result) fails.items }
        ensures state { source_state result ≡ record { left = Some text.items; faults = 0 } }
    {
        MemorySource {
            text,
            at: 0,
            calls: Calls::new(fails),
            faults: 0,
            opening: 0,
        }
    }
}

impl Source for MemorySource {
    ghost use Rattle.memory_outside.specs.MemorySource.{source_state, source_calls};

    ghost state = { λ s. record { left = Some (drop s.at s.text.items); faults = s.faults } };

    ghost opening = { λ s. s.opening };

    fn read(&mut self, piece: &mut [u8]) -> Result<usize, Failed>
        ensures within { IfOk result (λ n. n ≤ length piece.new) }
        ensures bytes { Reads (source_state self.old) (source_state self.new) result piece.new }
        ensures cause { HasCause self.old.faults self.new.faults result }
        ensures number { self.new.opening ≡ self.old.opening }

        // It fails exactly where that was stated.
        ensures called { IsCalled (source_calls self.old) (source_calls self.new) }
        ensures fails { is_ok result ≡ not (fails_next (source_calls self.old)) }
    {
        if self.calls.next_fails() {
            self.faults = self.faults.saturating_add(1);
            return Err(Failed);
        }
        let count = piece.len().min(self.text.len() - self.at);
        piece[..count].copy_from_slice(&self.text[self.at..self.at + count]);
        self.at += count;
        Ok(count)
    }
}
