// A log in memory that never fails.
ghost use Rattle.std.specs.Prelude.{◌≡◌, ℕ, ◌≤◌, Some, drop, length, vec_len};

use outside_traits::{Failed, Source};

/// A log in memory that never fails.
#[derive(Drop)]
pub struct SureSource {
    text: Vec<u8>,
    at: usize,
    ghost within: { at ≤ vec_len text },
}

impl SureSource {
    ghost use Rattle.memory_links.specs.Memory.{sure_state};

    /// A log of these bytes.
    pub fn new(text: Vec<u8>) -> SureSource
        ensures { sure_state result ≡ record { left = Some text.items; faults = 0 } }
    {
        SureSource { text, at: 0 }
    }
}

impl Source for SureSource {
    ghost state = { λ s. record { left = Some (drop s.at s.text.items); faults = 0 } };

    ghost opening = { λ s. 0 };

    fn read(&mut self, piece: &mut [u8]) -> Result<usize, Failed> {
        let count = piece.len().min(self.text.len() - self.at);
        piece[..count].copy_from_slice(&self.text[self.at..self.at + count]);
        self.at += count;
        Ok(count)
    }
}
