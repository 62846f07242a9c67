//! A file whose lines are taken one after the other.
ghost use Rattle.std.specs.Prelude.{◌≡◌, ◌+◌, ◌-◌, ◌<◌, ◌≤◌, ◌^◌, ℕ, true, false, List, [], Option, None, Some, length, MatchOption};
ghost use Rattle.journal_entry.specs.declared.writer.TheConstants.{LINE_ROOM};
ghost use Rattle.line_files.specs.Cutting.{line_in};
ghost use Rattle.line_files.specs.LineTaking.{GivesLine, HasRoom, IsCounting, IsTakenBy, IsWay, LineWay, TakesLine, line_texts};
ghost use Rattle.line_files.specs.Taking.{Fits};

use crate::cutter::{Cut, LineCutter};
use crate::reading::{Gives, Taker};
use command_ends::Line;
use file_reader::LogEnd;
use pulse_log::{BadLine, Taken};

/// Takes the lines of a kind of file, one after the other.
pub trait LineTaker {
    // The number of bytes at which a line is too long, and the most lines of a file, where there is such a bound.
    ghost too_long: { ℕ };

    ghost most: { Option ℕ };

    // What a file of this kind is taken for: the station of a journal, the case of a script.
    ghost Case: { Type 0 };

    // How its lines are taken for that.
    ghost way: { Case → LineWay Self };

    // It can take the line after this many.
    ghost is_ready: { Self → ℕ → Type 0 };

    // Takes the line with this text, after `count` lines. The answer is the length of what it gives, which is then the beginning of
    // `line`, or none where the line may not stand here.
    fn take_line(&mut self, text: &[u8], count: u64, line: &mut Line) -> Option<usize>
        requires room { HasRoom most count }
        requires ready { is_ready self.old count }
        ensures ready { is_ready self.new (count + 1) }
        ensures fits { MatchOption result (Unit {0}) (λ size. size ≤ LINE_ROOM) }
        ensures takes { (of : Case) (items : List (way of).file.Item) → count ≡ length items →
            (way of).stands self.old items None →
            TakesLine (way of) self.new items (line_texts text.now line.new) result };

    // These are the bounds of its lines.
    ghost is_way: { (of : Case) → IsWay too_long most (way of) };
}

/// Cuts the bytes of a file into lines, and hands them to what takes them.
#[derive(Drop)]
pub struct ByLine<T: Drop> {
    cutter: LineCutter,
    /// What takes the lines.
    pub taker: T,
    most: Option<u64>,
    count: u64,
}

impl<T: LineTaker + Drop> ByLine<T> {
    /// No byte is taken yet. A line is too long at `too_long` bytes (1 to 4096); after `most` lines any byte is a bad line.
    pub fn new(taker: T, too_long: usize, most: Option<u64>) -> ByLine<T>
        requires some { 0 < too_long }
        requires fits { too_long ≤ 4096 }
        requires limit { too_long ≡ T.too_long }
        requires most { most ≡ T.most }
        requires ready { T.is_ready taker 0 }
        ensures counting { IsCounting T.is_ready T.most result }
        ensures none { result.count ≡ 0 }
        ensures taken { (of : T.Case) → (T.way of).stands taker [] None →
            IsTakenBy T.too_long (T.way of) result [] [] None }
    {
        ByLine {
            cutter: LineCutter::new(too_long),
            taker,
            most,
            count: 0,
        }
    }

    // There are as many lines as there may be.
    fn is_full(&self) -> bool
        requires { IsCounting T.is_ready T.most self.now }
        ensures full { result ≡ true → T.most ≡ Some self.now.count }
        ensures room { result ≡ false → HasRoom T.most self.now.count }
    {
        match self.most {
            Some(most) => self.count == most,
            None => false,
        }
    }

    // Hands on the line that has ended.
    fn give_line(&mut self, line: &mut Line) -> Gives
        requires counting { IsCounting T.is_ready T.most self.old }
        requires room { HasRoom T.most self.old.count }
        requires counted { self.old.count < 2 ^ 64 - 1 }
        ensures counting { IsCounting T.is_ready T.most self.new }
        ensures cutter { self.new.cutter ≡ self.old.cutter }
        ensures count { self.new.count ≡ self.old.count + 1 }
        ensures fits { Fits result }
        ensures gives { (of : T.Case) (items : List (T.way of).file.Item) → self.old.count ≡ length items →
            (T.way of).stands self.old.taker items None →
            GivesLine (T.way of) self.new.taker items (line_texts (line_in self.old.cutter) line.new) result }
    {
        let given = self.taker.take_line(self.cutter.line(), self.count, line);
        self.count += 1;
        match given {
            Some(length) => Ok(Some(length)),
            None => Err(BadLine { line: self.count }),
        }
    }
}

impl<T: LineTaker + Drop> Taker for ByLine<T> {
    ghost use Rattle.std.specs.Prelude.{◌-◌, ◌^◌};
    ghost use Rattle.line_files.specs.LineTaking.{IsCounting, IsTakenBy, file_says};

    ghost Case = { T.Case };

    ghost says = { λ of. file_says (T.way of).file };

    ghost holds = { λ lines of. IsTakenBy T.too_long (T.way of) lines };

    ghost is_ready = { IsCounting T.is_ready T.most };

    ghost room = { λ lines. 2 ^ 64 - 1 - lines.count };

    fn take(&mut self, bytes: &[u8], line: &mut Line) -> Taken<Gives> {
        let next = self.count + 1;
        if self.is_full() {
            return Taken {
                count: 1,
                found: Err(BadLine { line: next }),
            };
        }
        let taken = self.cutter.take(bytes);
        match taken.found {
            Cut::More => Taken {
                count: taken.count,
                found: Ok(None),
            },
            Cut::Line => Taken {
                count: taken.count,
                found: self.give_line(line),
            },
            Cut::TooLong => Taken {
                count: taken.count,
                found: Err(BadLine { line: next }),
            },
        }
    }

    fn at_end(&self) -> LogEnd {
        if self.cutter.has_tail() {
            LogEnd::BadLine {
                line: self.count + 1,
            }
        } else {
            LogEnd::Whole
        }
    }

    ghost held_says = { λ lines of bytes text held. (held.items, held.said, held.text_is) };
}
