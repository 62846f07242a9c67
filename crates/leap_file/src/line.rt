//! A line of a leap second file, taken byte by byte.
ghost use Rattle.std.specs.Prelude.{◌≡◌, true, ℕ, List, [], ◌∷◌, ◌++◌, if◌then◌else◌};
ghost use Rattle.std.specs.Str.Lines.{strip_carriage_return};
ghost use Rattle.leap_file.specs.Parts.{is_small, next};

use crate::part::{LeapLine, Part, ends, next};

/// What is kept of an unfinished line: how far it has come, and not its text.
#[derive(Clone, Copy, Debug, PartialEq, Eq)]
pub struct Line {
    // Without the carriage return that may end it.
    part: Part,
    returned: bool,
    ghost small: { is_small part ≡ true },
}

impl Line {
    ghost use Rattle.leap_file.specs.Lines.{line_says, IsSaid};
    ghost use Rattle.leap_file.specs.Reading.{IsLine};

    /// The line that has no byte.
    pub fn new() -> Line
        ensures { IsLine result [] }
    {
        Line {
            part: Part::Start,
            returned: false,
        }
    }

    /// Takes the next byte of the line.
    pub fn add(&mut self, byte: u8)
        ensures { (text : List ℕ) → IsLine self.old text → IsLine self.new (text ++ byte ∷ []) }
    {
        let part = self.whole();
        if byte == b'\r' {
            self.part = part;
            self.returned = true;
        } else {
            self.part = next(part, byte);
            self.returned = false;
        }
    }

    // How far it has come with the carriage return that it ends with by now.
    fn whole(&self) -> Part
        ensures part { result ≡ (if self.now.returned then next self.now.part 13 else self.now.part) }
        ensures small { is_small result ≡ true }
    {
        if self.returned {
            next(self.part, b'\r')
        } else {
            self.part
        }
    }

    /// What the line says, if it ends here.
    pub fn says(&self) -> LeapLine
        ensures value { (text : List ℕ) → IsLine self.now text → result ≡ line_says text }
        ensures sentence { (text : List ℕ) → IsLine self.now text → IsSaid (strip_carriage_return text) result }
    {
        ends(self.part)
    }
}
