//! The reader of a leap second file: bytes in, leap seconds out, or the first bad line.
ghost use Rattle.std.specs.Prelude.{◌≡◌, ℕ, ◌+◌, ◌<◌, List, [], ◌∷◌, ◌++◌, None, IfOk, IfSome, MatchResult};
ghost use Rattle.tick_units.specs.Years.{end_of_supported};
ghost use Rattle.leap_file.specs.Reading.{counted};

use crate::line::Line;
use crate::part::LeapLine;
use crate::row::{Row, may_stand};

/// The number, from 1, of the first bad line of a file. It stops at 2^64 - 1.
#[derive(Clone, Copy, Debug, PartialEq, Eq)]
pub struct BadLeap {
    pub line: u64,
}

// One line more; the count stops at the greatest number.
fn one_more(lines: u64) -> u64
    ensures { result ≡ counted (lines + 1) }
{
    lines.saturating_add(1)
}

/// Reads a leap second file byte by byte, up to its first bad line.
///
/// A row is two numbers with spaces or tabs between them. The first is a second since 1900-01-01 in 1 to 10 digits. The second is
/// TAI less UTC from then on, in 1 to 3 digits. Spaces and tabs may follow, and after at least one of these a remark that begins
/// with `#`. Lines that begin with `#`, lines of spaces and tabs and empty lines are no rows. A carriage return at the end of a
/// line is passed over. Any other line is bad. A row is bad too where its second is not before 2100-01-03, begins no month of UTC
/// or does not rise. So is a row whose difference is above 255 or is not one more than that of the row before. The first row says
/// what held before the leap seconds of the list, so it names none.
#[derive(Drop)]
pub struct LeapReader {
    line: Line,
    lines: u64,
    before: Option<Row>,
    bad: Option<BadLeap>,
}

impl LeapReader {
    ghost use Rattle.leap_file.specs.Reading.{stopped, AddsRow, Finishes, HasRead, Takes};

    /// The reader that has taken no byte.
    pub fn new() -> LeapReader
        ensures { HasRead result [] }
    {
        LeapReader {
            line: Line::new(),
            lines: 0,
            before: None,
            bad: None,
        }
    }

    /// Takes the next byte. Returns the second of the row that it ends, or None where it ends no row or the first one.
    ///
    /// # Errors
    ///
    /// `BadLeap` where the line that it ends is bad. From then on each call returns the same.
    pub fn take(&mut self, byte: u8) -> Result<Option<u64>, BadLeap>
        ensures taken { (bytes : List ℕ) → HasRead self.old bytes → Takes self.new bytes byte result }
        ensures reported { IfOk result (λ found. IfSome found (λ second. second < end_of_supported)) }
    {
        if let Some(bad) = self.bad {
            return Err(bad);
        }
        if byte == b'\n' {
            return self.end_line();
        }
        self.line.add(byte);
        Ok(None)
    }

    // Takes a line feed.
    fn end_line(&mut self) -> Result<Option<u64>, BadLeap>
        requires { self.old.bad ≡ None }
        ensures taken { (bytes : List ℕ) → HasRead self.old bytes → Takes self.new bytes 10 result }
        ensures reported { IfOk result (λ found. IfSome found (λ second. second < end_of_supported)) }
    {
        let said = self.line.says();
        self.line = Line::new();
        self.lines = one_more(self.lines);
        match said {
            LeapLine::Nothing => Ok(None),
            LeapLine::Bad => Err(self.stop()),
            LeapLine::Numbers(row) => self.add_row(row),
        }
    }

    // Takes a row, whose line is counted.
    fn add_row(&mut self, row: Row) -> Result<Option<u64>, BadLeap>
        ensures row { AddsRow self.old self.new row result }
        ensures reported { IfOk result (λ found. IfSome found (λ second. second < end_of_supported)) }
    {
        if !may_stand(self.before, row) {
            return Err(self.stop());
        }
        let is_first = self.before.is_none();
        self.before = Some(row);
        if is_first {
            return Ok(None);
        }
        Ok(Some(row.second))
    }

    // The line that was counted last is bad.
    fn stop(&mut self) -> BadLeap
        ensures line { result.line ≡ self.old.lines }
        ensures bad { self.new ≡ stopped self.old result }
    {
        let bad = BadLeap { line: self.lines };
        self.bad = Some(bad);
        bad
    }

    /// The file has ended. Returns the second of a last row without its line feed, or None where there is none or it is the first
    /// row.
    ///
    /// # Errors
    ///
    /// `BadLeap` where one was returned, or where that line is bad. From then on each call returns the same.
    pub fn finish(&mut self) -> Result<Option<u64>, BadLeap>
        ensures finished { (bytes : List ℕ) → HasRead self.old bytes → Finishes self.new bytes result }
        ensures reported { IfOk result (λ found. IfSome found (λ second. second < end_of_supported)) }
    {
        self.take(b'\n')
    }
}
