// Reads a file of limited length whole.
ghost use Rattle.std.specs.Prelude.{◌≡◌, ◌≤◌, [], vec_capacity};
ghost use Rattle.file_reader.specs.Ends.{EndsReading};

use crate::pieces::{PieceTaker, read_pieces};
use crate::reader::FileEnd;
use outside_traits::Source;

// Why the taking of a piece stops for which there is room: never.
#[derive(Drop)]
enum Never {}

// A text takes the pieces for which it has room.
impl PieceTaker<Never> for Vec<u8> {
    ghost use Rattle.std.specs.Prelude.{◌≡◌, ◌-◌, ◌+◌, length, vec_capacity};

    ghost Case = { Unit {0} };

    ghost has_taken = { λ text of bytes. text.items ≡ bytes };

    ghost has_stopped = { λ text of why bytes. ⊥ };

    ghost Mark = { Unit {0} };

    ghost mark = { λ text. tt };

    ghost is_ready = { λ text. Unit {0} };

    ghost room = { λ text. 1 + vec_capacity text - length text.items };

    fn take(&mut self, piece: &[u8]) -> Result<(), Never> {
        let _ = self.extend_from_slice(piece);
        Ok(())
    }
}

/// Reads a file of at most `limit` bytes into a text that has room for them.
pub fn read_whole<S: Source>(file: &mut S, limit: usize, text: &mut Vec<u8>) -> FileEnd
    requires empty { text.old.items ≡ [] }
    requires room { limit ≤ vec_capacity text.old }
    ensures number { S.opening file.new ≡ S.opening file.old }
    ensures ends { EndsReading result limit (S.state file.old) (S.state file.new) text.new.items }
{
    match read_pieces(file, text, limit) {
        Ok(end) => end,
        Err(never) => match never {},
    }
}
