// A real file and a real stream. Each counts its faults, and reports nothing of its contents.
ghost use Rattle.std.specs.Prelude.{◌≡◌, ℕ, ◌<◌, ◌≤◌, None, length, IfOk};
ghost use Rattle.std.specs.Io.KnownBytes.{ReadConsumes, WriteAppends};
ghost use Rattle.outside_traits.specs.Faults.{HasCause};
ghost use Rattle.outside_traits.specs.States.{Reads, Writes};
ghost use Rattle.host_links.specs.Real.{file_state, file_number, stream_state};

use outside_traits::{Failed, Sink, Source};
use std::io::{ErrorKind, Read, Write};

/// A file, read from its start. It counts its faults and reports nothing of its contents.
#[derive(Drop)]
pub struct FileSource<F: Read + Drop> {
    file: F,
    faults: u64,
}

impl<F: Read + Drop> FileSource<F> {
    /// The source of an opened file, which has not failed yet.
    pub fn new(file: F) -> FileSource<F>
        ensures { result ≡ record { file = file; faults = 0 } }
    {
        FileSource { file, faults: 0 }
    }
}

// Takes the next bytes of a file. It repeats an interrupted call.
#[tactic(auto, using(crate::proofs::RealLaws::keeps_on, crate::proofs::RealLaws::keeps_same, crate::proofs::RealLaws::consumes_on))]
fn read_some<F: Read>(file: &mut F, piece: &mut [u8]) -> Result<usize, Failed>
    ensures within { IfOk result (λ n. n ≤ length piece.new) }
    ensures bytes { ReadConsumes (F.remaining file.old) (F.remaining file.new) result piece.new }
{
    for _ in 0..u64::MAX {
        match file.read(piece) {
            Ok(count) => return Ok(count),
            Err(e) if e.kind() == ErrorKind::Interrupted => {}
            Err(_) => return Err(Failed),
        }
    }
    Err(Failed)
}

impl<F: Read + Drop + Send> Source for FileSource<F> {
    ghost state = { λ s. record { left = None; faults = s.faults } };

    ghost opening = { λ s. 0 };

    fn read(&mut self, piece: &mut [u8]) -> Result<usize, Failed>
        ensures within { IfOk result (λ n. n ≤ length piece.new) }
        ensures bytes { Reads (file_state self.old.faults) (file_state self.new.faults) result piece.new }
        ensures cause { HasCause self.old.faults self.new.faults result }
        ensures number { file_number ≡ file_number }

        // It gives the bytes of the file.
        ensures file { ReadConsumes (F.remaining self.old.file) (F.remaining self.new.file) result piece.new }
    {
        match read_some(&mut self.file, piece) {
            Ok(count) => Ok(count),
            Err(Failed) => {
                self.faults = self.faults.saturating_add(1);
                Err(Failed)
            }
        }
    }
}

/// A stream that is written to, as standard output. It counts its faults and reports nothing of its contents.
#[derive(Drop)]
pub struct StreamSink<W: Write + Drop> {
    stream: W,
    faults: u64,
}

impl<W: Write + Drop> StreamSink<W> {
    /// The sink of a stream, which has not failed yet.
    pub fn new(stream: W) -> StreamSink<W>
        ensures { result ≡ record { stream = stream; faults = 0 } }
    {
        StreamSink { stream, faults: 0 }
    }

    /// The stream.
    pub fn stream(&self) -> &W
        ensures { result.now ≡ self.now.stream }
    {
        &self.stream
    }
}

// Writes the first bytes of a piece, at least one where there is one. It repeats an interrupted call.
#[tactic(auto, using(crate::proofs::RealLaws::keeps_on, crate::proofs::RealLaws::keeps_same, crate::proofs::RealLaws::appends_on))]
fn write_some<W: Write>(stream: &mut W, piece: &[u8]) -> Result<usize, Failed>
    ensures within { IfOk result (λ n. n ≤ length piece.now) }
    ensures some { IfOk result (λ n. 0 < length piece.now → 0 < n) }
    ensures bytes { WriteAppends (W.contents stream.old) (W.contents stream.new) result piece.now }
{
    for _ in 0..u64::MAX {
        match stream.write(piece) {
            Ok(0) if !piece.is_empty() => return Err(Failed),
            Ok(written) => return Ok(written),
            Err(e) if e.kind() == ErrorKind::Interrupted => {}
            Err(_) => return Err(Failed),
        }
    }
    Err(Failed)
}

impl<W: Write + Drop> Sink for StreamSink<W> {
    ghost state = { λ s. record { held = None; faults = s.faults } };

    fn write(&mut self, piece: &[u8]) -> Result<usize, Failed>
        ensures within { IfOk result (λ n. n ≤ length piece.now) }
        ensures some { IfOk result (λ n. 0 < length piece.now → 0 < n) }
        ensures bytes { Writes (stream_state self.old.faults) (stream_state self.new.faults) result piece.now }
        ensures cause { HasCause self.old.faults self.new.faults result }

        // The stream holds what it takes.
        ensures stream { WriteAppends (W.contents self.old.stream) (W.contents self.new.stream) result piece.now }
    {
        match write_some(&mut self.stream, piece) {
            Ok(written) => Ok(written),
            Err(Failed) => {
                self.faults = self.faults.saturating_add(1);
                Err(Failed)
            }
        }
    }
}
