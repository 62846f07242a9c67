//! The reader of a log: bytes in, reductions out, or the first bad line.
ghost use Rattle.std.specs.Prelude.{◌≡◌, true, ℕ, ◌+◌, ◌<◌, ◌≤◌, ◌^◌, nat_lt, length, take, IfSome};

use crate::line::Line;
use crate::taken::Taken;
use crate::whole::leading_line;
use tick_units::Reduction;

// A line has at most this number of bytes before its line feed.
const LONGEST: u32 = 31;

/// The number, from 1, of the first bad line of a log.
#[derive(Clone, Copy, Debug, PartialEq, Eq)]
pub struct BadLine {
    pub line: u64,
}

/// Reads a log byte by byte or line by line. A line is the start and the width of a reduction, each in decimal without leading
/// zeros. One space stands between them and a line feed after them. The start is below 2^50 microseconds and above that of the
/// line before; the width is 1 to 2000000 microseconds. The reader stops at the first bad line.
#[derive(Drop)]
pub struct LineReader {
    line: Line,
    lines: u64,
    least: u64,
    bad: Option<BadLine>,
    ghost counted: { lines ≤ least },
    ghost bounded: { least ≤ 2 ^ 50 },
}

impl LineReader {
    ghost use Rattle.std.specs.Prelude.{◌∷◌, ◌++◌, [], List, MatchResult, None, Some, Ok};
    ghost use Rattle.tick_units.specs.Log.{bad_at_end};
    ghost use Rattle.pulse_log.specs.Reading.{HasRead, GoesOn, TakesByte, TakesPrefix};
    ghost use Rattle.pulse_log.specs.Writing.{line_of};

    /// The reader that has taken no byte.
    pub fn new() -> LineReader
        ensures { HasRead result [] }
    {
        LineReader {
            line: Line::new(),
            lines: 0,
            least: 0,
            bad: None,
        }
    }

    /// Takes the next byte. Returns the reduction of the line that it ends, or None where it ends no line.
    ///
    /// # Errors
    ///
    /// `BadLine` where the line that it ends, or brings to 32 bytes, is bad. From then on each call returns the same.
    #[inline]
    pub fn take(&mut self, byte: u8) -> Result<Option<Reduction>, BadLine>
        ensures { (bytes : List ℕ) → HasRead self.old bytes → TakesByte self.new bytes byte result }
    {
        if let Some(bad) = self.bad {
            return Err(bad);
        }
        if byte == b'\n' {
            return self.end_line();
        }
        if self.line.len() == LONGEST {
            return Err(self.stop());
        }
        self.line.add(byte);
        Ok(None)
    }

    /// Takes the line at the beginning of these bytes at once, with its line feed, where no line has begun before them and it is
    /// valid. Returns None and takes nothing where it cannot: the line is bad or not whole, or its numbers are too long to be read
    /// at once. Such a line is for `take_by_bytes`. All that it calls is inlined, so its result needs no memory in a loop.
    #[inline(always)]
    pub fn take_whole_line(&mut self, bytes: &[u8]) -> Option<Taken<Reduction>>
        ensures none { result ≡ None → self.new ≡ self.old }
        ensures some { IfSome result (λ line. 0 < line.count) }
        ensures within { IfSome result (λ line. line.count ≤ length bytes.now) }
        ensures taken { (before : List ℕ) → HasRead self.old before → IfSome result (λ line.
            TakesPrefix self.new before (take line.count bytes.now) (Ok (Some line.found))) }
    {
        if !self.is_between_lines() {
            return None;
        }
        let line = leading_line(bytes)?;
        if self.is_early(&line.found) {
            return None;
        }
        self.end_whole(line.found);
        Some(line)
    }

    // No line was bad, and none has begun.
    #[inline]
    fn is_between_lines(&self) -> bool
        ensures { result ≡ true → (self.now.bad ≡ None) × (self.now.line.length ≡ 0) }
    {
        self.bad.is_none() && self.line.len() == 0
    }

    // Whether a reduction starts before it may.
    #[inline]
    fn is_early(&self, found: &Reduction) -> bool
        ensures { result ≡ nat_lt found.now.at self.now.least }
    {
        found.at.get() < self.least
    }

    // Takes the text of this reduction at once, with its line feed.
    #[inline]
    fn end_whole(&mut self, found: Reduction)
        requires none { self.old.bad ≡ None }
        requires empty { self.old.line.length ≡ 0 }
        requires least { self.old.least ≤ found.at }
        requires narrowest { 1 ≤ found.width }
        requires widest { found.width ≤ 2000000 }
        ensures { (before : List ℕ) → HasRead self.old before →
            TakesPrefix self.new before (line_of found ++ 10 ∷ []) (Ok (Some found)) }
    {
        self.lines += 1;
        self.least = found.at.get() + 1;
    }

    /// Takes bytes up to the end of the first line that ends among them, or up to the byte that makes it bad. Takes all of them
    /// where there is neither. What came of them is the reduction of the line that they end, None where they end none, or the bad
    /// line. It is not inlined, since most lines are taken by `take_whole_line`.
    #[inline(never)]
    pub fn take_by_bytes(&mut self, bytes: &[u8]) -> Taken<Result<Option<Reduction>, BadLine>>
        requires { 0 < length bytes.now }
        ensures some { 0 < result.count }
        ensures within { result.count ≤ length bytes.now }
        ensures taken { (before : List ℕ) → HasRead self.old before →
            TakesPrefix self.new before (take result.count bytes.now) result.found }
    {
        let count = self.go_on(bytes);
        match bytes.get(count) {
            Some(byte) => Taken {
                count: count + 1,
                found: self.take(*byte),
            },
            None => Taken {
                count,
                found: Ok(None),
            },
        }
    }

    // Takes the bytes that neither end the line nor bring it to 32 bytes.
    fn go_on(&mut self, bytes: &[u8]) -> usize
        ensures within { result ≤ length bytes.now }
        ensures goes { (before : List ℕ) → HasRead self.old before → GoesOn self.new before (take result bytes.now) }
        ensures bad { self.new.bad ≡ self.old.bad }
        ensures none { 0 < result → self.old.bad ≡ None }
    {
        if self.bad.is_some() {
            return 0;
        }
        // The loop works on a copy of the line, so that its numbers can stay in registers.
        let mut line = self.line;
        let mut count = 0;
        'bytes: for byte in bytes {
            if *byte == b'\n' || line.len() == LONGEST {
                break;
            }
            line.add(*byte);
            count += 1;
        }
        self.line = line;
        count
    }

    // Takes a line feed.
    fn end_line(&mut self) -> Result<Option<Reduction>, BadLine>
        requires { self.old.bad ≡ None }
        ensures { (bytes : List ℕ) → HasRead self.old bytes → TakesByte self.new bytes 10 result }
    {
        let Some(found) = self.line.reduction() else {
            return Err(self.stop());
        };
        let at = found.at.get();
        if at < self.least {
            return Err(self.stop());
        }
        self.line = Line::new();
        self.lines += 1;
        self.least = at + 1;
        Ok(Some(found))
    }

    // The line that is not finished is bad.
    fn stop(&mut self) -> BadLine
        ensures line { result.line ≡ self.old.lines + 1 }
        ensures bad { self.new.bad ≡ Some result }
    {
        let bad = self.unfinished();
        self.bad = Some(bad);
        bad
    }

    // The number of the line that is not finished.
    fn unfinished(&self) -> BadLine
        ensures { result.line ≡ self.now.lines + 1 }
    {
        BadLine {
            line: self.lines + 1,
        }
    }

    /// The log has ended.
    ///
    /// # Errors
    ///
    /// `BadLine` where one was returned, or where bytes stand after the last line feed.
    pub fn finish(&self) -> Result<(), BadLine>
        ensures { (bytes : List ℕ) → HasRead self.now bytes → MatchResult result
            (λ _. bad_at_end bytes ≡ None)
            (λ bad. bad_at_end bytes ≡ Some bad.line) }
    {
        if let Some(bad) = self.bad {
            return Err(bad);
        }
        if self.line.len() == 0 {
            return Ok(());
        }
        Err(self.unfinished())
    }
}
