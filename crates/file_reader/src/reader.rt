// A reader of a file, which gives one piece after another.
ghost use Rattle.std.specs.Prelude.{◌≡◌, ◌+◌, ◌<◌, ◌≤◌, ℕ, List, [], length, IfOk};
ghost use Rattle.outside_traits.specs.Faults.{HasCause};
ghost use Rattle.outside_traits.specs.States.{SourceState, Reads};

use outside_traits::{Failed, Source};

/// The most bytes of one read.
pub const PIECE: usize = 512;

/// How the reading of a file ended.
#[derive(Clone, Copy, Debug, PartialEq, Eq)]
pub enum FileEnd {
    /// All of its bytes were read.
    Whole,
    /// A read failed.
    Fault,
    /// It has more bytes than the limit.
    TooLong,
}

/// What one more read of a file gave.
#[derive(Clone, Copy, Debug, PartialEq, Eq)]
pub enum Pulled {
    /// A piece of at least one byte, which the reader holds until it is asked for the next one.
    Piece,
    /// The reading ended.
    Ended(FileEnd),
}

/// Reads a file of at most `limit` bytes.
#[derive(Drop)]
pub struct FileReader {
    piece: [u8; PIECE],
    count: usize,
    taken: usize,
    limit: usize,
    ghost filled: { count ≤ 512 },
    ghost within: { taken ≤ limit },
}

// Reads at most `most` bytes into the beginning of the piece.
fn read_piece<S: Source>(file: &mut S, piece: &mut [u8], most: usize) -> Result<usize, Failed>
    requires some { 0 < most }
    requires fits { most ≤ length piece.old }
    ensures within { IfOk result (λ n. n ≤ most) }
    ensures bytes { Reads (S.state file.old) (S.state file.new) result piece.new }
    ensures cause { HasCause (S.state file.old).faults (S.state file.new).faults result }
    ensures number { S.opening file.new ≡ S.opening file.old }
{
    file.read(&mut piece[..most])
}

impl FileReader {
    ghost use Rattle.file_reader.specs.Reader.{limit_of, room_of, piece_of, HasPulled, Gives};
    ghost use Rattle.file_reader.specs.declared.reader.Pulled.TheVariants.{Piece};

    /// A reader of a file from its start, which takes at most `limit` bytes.
    pub fn new(limit: usize) -> FileReader
        ensures limit { limit_of result ≡ limit }
        ensures room { room_of result ≡ limit }
        ensures none { piece_of result ≡ [] }
        ensures start { (file : SourceState) → HasPulled result file file [] }
    {
        FileReader {
            piece: [0; PIECE],
            count: 0,
            taken: 0,
            limit,
        }
    }

    /// The piece that was read last.
    pub fn piece(&self) -> &[u8]
        ensures value { result.now ≡ piece_of self.now }
    {
        &self.piece[..self.count]
    }

    /// Reads the next piece. At the limit it asks for one byte more, to distinguish a file that ends there from one that is too
    /// long. That byte does not count as taken.
    pub fn pull<S: Source>(&mut self, file: &mut S) -> Pulled
        ensures number { S.opening file.new ≡ S.opening file.old }
        ensures limit { limit_of self.new ≡ limit_of self.old }
        ensures some { result ≡ Piece → 0 < length (piece_of self.new) }
        ensures most { length (piece_of self.new) ≤ 512 }
        ensures room { result ≡ Piece → room_of self.new + length (piece_of self.new) ≡ room_of self.old }
        ensures gives { (start : SourceState) (bytes : List ℕ) → HasPulled self.old start (S.state file.old) bytes →
            Gives result self.new start (S.state file.new) bytes }
    {
        let room = self.limit - self.taken;
        let most = room.min(PIECE).max(1);
        match read_piece(file, &mut self.piece, most) {
            Err(Failed) => Pulled::Ended(FileEnd::Fault),
            Ok(0) => Pulled::Ended(FileEnd::Whole),
            Ok(_) if room == 0 => Pulled::Ended(FileEnd::TooLong),
            Ok(count) => {
                self.count = count;
                self.taken += count;
                Pulled::Piece
            }
        }
    }
}
