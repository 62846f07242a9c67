//! Cuts the bytes of a file into lines.
ghost use Rattle.std.specs.Prelude.{◌≡◌, ◌==◌, ◌+◌, ◌<◌, ◌≤◌, ℕ, List, [], ◌++◌, nat_lt, length, take};
ghost use Rattle.std.specs.List.{position};
ghost use Rattle.tick_units.specs.Log.{has_tail};

use pulse_log::Taken;

// The room for a line.
const ROOM: usize = 4096;

/// What a piece of a file did to the line that it continues.
#[derive(Clone, Copy, Debug, PartialEq, Eq)]
pub enum Cut {
    /// The line goes on after the piece.
    More,
    /// The line has ended.
    Line,
    /// The line has come to the length at which it is too long, without a line feed.
    TooLong,
}

/// Cuts the bytes of a file, which come in pieces, into lines. It keeps one line.
#[derive(Drop)]
pub struct LineCutter {
    room: [u8; ROOM],
    too_long: usize,
    length: usize,
    ended: bool,
    ghost short: { length < too_long },
    ghost fits: { too_long ≤ 4096 },
}

impl LineCutter {
    ghost use Rattle.line_files.specs.Cutting.{HasTaken, TakesPiece, line_in, unfinished_in};

    /// The cutter that has taken no byte. A line that comes to `too_long` bytes (1 to 4096) before its line feed is too long.
    pub fn new(too_long: usize) -> LineCutter
        requires some { 0 < too_long }
        requires fits { too_long ≤ 4096 }
        ensures { HasTaken result too_long [] }
    {
        LineCutter {
            room: [0; ROOM],
            too_long,
            length: 0,
            ended: false,
        }
    }

    /// Takes from a piece what stands up to and including its first line feed, or all of it. Where the line would be too long it
    /// keeps nothing, and counts up to the byte at which that shows.
    pub fn take(&mut self, piece: &[u8]) -> Taken<Cut>
        ensures taken { (too_long : ℕ) (bytes : List ℕ) → HasTaken self.old too_long bytes →
            TakesPiece self.new too_long bytes piece.now result }
        ensures within { result.count ≤ length piece.now }
        ensures progress { 0 < length piece.now → 0 < result.count }
    {
        let held = self.held();
        match first_line_feed(piece) {
            Some(place) if place < self.too_long - held => {
                self.put(held, &piece[..place]);
                self.ended = true;
                Taken {
                    count: place + 1,
                    found: Cut::Line,
                }
            }
            None if piece.len() < self.too_long - held => {
                self.put(held, piece);
                self.ended = false;
                Taken {
                    count: piece.len(),
                    found: Cut::More,
                }
            }
            _ => Taken {
                count: self.too_long - held,
                found: Cut::TooLong,
            },
        }
    }

    /// The line that has ended, without its line feed.
    pub fn line(&self) -> &[u8]
        ensures { result.now ≡ line_in self.now }
    {
        &self.room[..self.length]
    }

    /// Bytes have come after the last line feed.
    pub fn has_tail(&self) -> bool
        ensures { (too_long : ℕ) (bytes : List ℕ) → HasTaken self.now too_long bytes → result ≡ has_tail bytes }
    {
        self.held() > 0
    }

    // The number of bytes of the line that goes on.
    fn held(&self) -> usize
        ensures value { result ≡ length (unfinished_in self.now) }
        ensures line { take result self.now.room ≡ unfinished_in self.now }
        ensures short { result < self.now.too_long }
    {
        if self.ended { 0 } else { self.length }
    }

    // Puts a piece after this many bytes.
    fn put(&mut self, held: usize, piece: &[u8])
        requires { held + length piece.now < self.old.too_long }
        ensures same { self.new.too_long ≡ self.old.too_long }
        ensures line { line_in self.new ≡ take held self.old.room ++ piece.now }
        ensures ended { self.new.ended ≡ self.old.ended }
    {
        let end = held + piece.len();
        self.room[held..end].copy_from_slice(piece);
        self.length = end;
    }
}

// The place of the first line feed.
fn first_line_feed(piece: &[u8]) -> Option<usize>
    ensures { result ≡ position (λ byte. byte == 10) piece.now }
{
    piece.iter().position(|byte| *byte == b'\n')
}
