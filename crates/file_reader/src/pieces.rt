// Hands the pieces of a file to whoever takes them.
ghost use Rattle.std.specs.Prelude.{◌≡◌, ◌+◌, ◌<◌, ◌≤◌, ◌++◌, [], ℕ, List, length};
ghost use Rattle.file_reader.specs.Pieces.{EndsPieces, TakesOrStops};

use crate::reader::{FileEnd, FileReader, Pulled};
use outside_traits::Source;

/// Takes the bytes of a file, piece after piece, until it stops by itself, for a reason of type `E`.
pub trait PieceTaker<E> {
    // What else it is judged by: the plan of a log, what a sink had reported.
    ghost Case: { Type 0 };

    // It has taken these bytes of a file.
    ghost has_taken: { Self → Case → List ℕ → Type 0 };

    // It has stopped for this reason, in the last piece of these bytes.
    ghost has_stopped: { Self → Case → E → List ℕ → Type 0 };

    // What stays as it was, whatever it takes.
    ghost Mark: { Type 0 };

    ghost mark: { Self → Mark };

    // It can take more.
    ghost is_ready: { Self → Type 0 };

    // It can take less than this many bytes more.
    ghost room: { Self → ℕ };

    // Takes a piece, whole or up to where it stops.
    fn take(&mut self, piece: &[u8]) -> Result<(), E>
        requires short { length piece.now ≤ 512 }
        requires ready { is_ready self.old }
        requires room { length piece.now < room self.old }
        ensures ready { is_ready self.new }
        ensures room { room self.old ≤ room self.new + length piece.now }
        ensures mark { mark self.new ≡ mark self.old }
        ensures takes { (of : Case) (bytes : List ℕ) → has_taken self.old of bytes →
            TakesOrStops (has_taken self.new of) (has_stopped self.new of) (bytes ++ piece.now) result };
}

/// Reads a file of at most `limit` bytes, and hands its pieces to a taker until the reading ends or the taker stops.
///
/// # Errors
/// Why the taker has stopped.
pub fn read_pieces<E, S: Source, T: PieceTaker<E>>(
    file: &mut S,
    taker: &mut T,
    limit: usize,
) -> Result<FileEnd, E>
    requires ready { T.is_ready taker.old }
    requires room { limit < T.room taker.old }
    ensures number { S.opening file.new ≡ S.opening file.old }
    ensures ready { T.is_ready taker.new }
    ensures room { 0 < T.room taker.new }
    ensures mark { T.mark taker.new ≡ T.mark taker.old }
    ensures ends { (of : T.Case) → T.has_taken taker.old of [] →
        EndsPieces (T.has_taken taker.new of) (T.has_stopped taker.new of) limit
        (S.state file.old) (S.state file.new) result }
{
    let mut reader = FileReader::new(limit);
    'pieces: loop {
        match reader.pull(file) {
            Pulled::Piece => taker.take(reader.piece())?,
            Pulled::Ended(end) => return Ok(end),
        }
    }
}
