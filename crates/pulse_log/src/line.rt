//! A line of a log, taken byte by byte.
ghost use Rattle.std.specs.Prelude.{◌≡◌, ℕ, ◌+◌, ◌<◌, ◌≤◌, ◌^◌, List, ◌∷◌, [], ◌++◌};

use tick_units::{Local, Reduction};

// A start is below this.
const STARTS: u64 = 1 << 50;

// A width is from this to this.
const NARROWEST: u32 = 1;

const WIDEST: u32 = 2_000_000;

/// The part of a line that its last byte is in.
#[derive(Clone, Copy, Debug, PartialEq, Eq)]
pub enum Part {
    /// The digits of the start, or nothing yet.
    Start,
    /// A start that is the one digit 0.
    Zero,
    /// The space, or the digits of the width after it.
    Width,
    /// No valid line begins as this one does.
    Invalid,
}

/// What is kept of an unfinished line: its numbers so far and its length, and not its text.
#[derive(Clone, Copy, Debug, PartialEq, Eq)]
pub struct Line {
    part: Part,
    start: u64,
    width: u32,
    length: u32,
    ghost start_bounded: { start < 2 ^ 50 },
    ghost width_bounded: { width ≤ 2000000 },
    ghost short: { length < 32 },
}

impl Line {
    ghost use Rattle.tick_units.specs.Log.{reduction_of};
    ghost use Rattle.pulse_log.specs.Lines.{EndsIn, IsLine};

    /// The line that has no byte.
    pub fn new() -> Line
        ensures { IsLine result [] }
    {
        Line {
            part: Part::Start,
            start: 0,
            width: 0,
            length: 0,
        }
    }

    /// Its number of bytes.
    pub fn len(&self) -> u32
        ensures { result ≡ self.now.length }
    {
        self.length
    }

    /// Takes the next byte of the line.
    pub fn add(&mut self, byte: u8)
        requires { self.old.length < 31 }
        ensures { (text : List ℕ) → IsLine self.old text → IsLine self.new (text ++ byte ∷ []) }
    {
        self.length += 1;
        match byte {
            b'0'..=b'9' => self.add_digit(byte - b'0'),
            b' ' => self.add_space(),
            _ => self.part = Part::Invalid,
        }
    }

    // Takes a digit.
    fn add_digit(&mut self, digit: u8)
        requires { digit < 10 }
        ensures part { (text : List ℕ) → EndsIn self.old.part self.old.start self.old.width text
            → EndsIn self.new.part self.new.start self.new.width (text ++ (48 + digit) ∷ []) }
        ensures length { self.new.length ≡ self.old.length }
    {
        match self.part {
            Part::Start => {
                let start = self.start * 10 + u64::from(digit);
                if 0 < start && start < STARTS {
                    self.start = start;
                } else if start == 0 {
                    self.part = Part::Zero;
                } else {
                    self.part = Part::Invalid;
                }
            }
            Part::Width => {
                let width = self.width * 10 + u32::from(digit);
                if NARROWEST <= width && width <= WIDEST {
                    self.width = width;
                } else {
                    self.part = Part::Invalid;
                }
            }
            Part::Zero => self.part = Part::Invalid,
            Part::Invalid => {}
        }
    }

    // Takes a space.
    fn add_space(&mut self)
        ensures part { (text : List ℕ) → EndsIn self.old.part self.old.start self.old.width text
            → EndsIn self.new.part self.new.start self.new.width (text ++ 32 ∷ []) }
        ensures length { self.new.length ≡ self.old.length }
    {
        match self.part {
            Part::Start if 0 < self.start => self.part = Part::Width,
            Part::Zero => self.part = Part::Width,
            _ => self.part = Part::Invalid,
        }
    }

    /// What the line says, if it ends here.
    pub fn reduction(&self) -> Option<Reduction>
        ensures { (text : List ℕ) → IsLine self.now text → result ≡ reduction_of text }
    {
        match self.part {
            Part::Width if NARROWEST <= self.width => {
                let at = Local::new(self.start)?;
                Some(Reduction {
                    at,
                    width: self.width,
                })
            }
            _ => None,
        }
    }
}
