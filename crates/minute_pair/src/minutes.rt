//! A plan's marks in, answers out: each closed segment and the one before it.
ghost use Rattle.std.specs.Prelude.{◌≡◌, true, false, None, ◌++◌, ◌∷◌, [], List, IfSome};
ghost use Rattle.std.specs.List.{last_or};
ghost use Rattle.std.specs.Option.{option_to_list};
ghost use Rattle.frame_rules.specs.Words.{HasMarks};
ghost use Rattle.tick_units.specs.declared.marks.Mark.{Mark};
ghost use Rattle.minute_pair.specs.Answers.{answers_by};
ghost use Rattle.minute_pair.specs.Segments.{segments_by};
ghost use Rattle.minute_pair.specs.Years.{BelievesYears};

use crate::answers::{Before, Closed, answer, before_by};
use frame_rules::{CodePlan, Frame};
use tick_units::{Heard, Local, Mark};

/// Pairs the segments of a plan's marks: the answer to each depends on it and on the one just before it.
#[derive(Drop)]
pub struct PairingOf<C> {
    // It reads the piece that the last mark is in.
    frame: Frame<C>,
    // Whether a mark that begins a minute begins the piece.
    is_open: bool,
    before: Before,
}

impl<C: CodePlan> PairingOf<C> {
    ghost use Rattle.minute_pair.specs.Pairing.{HasPairedBy};

    /// A pairing that has received no mark.
    pub fn new() -> PairingOf<C>
        ensures { HasPairedBy C.code result [] }
    {
        PairingOf {
            frame: Frame::new(),
            is_open: false,
            before: Before::Nothing,
        }
    }

    /// Takes the next mark where it begins no minute, and returns whether it did.
    #[inline(always)]
    pub fn adds(&mut self, mark: &Mark) -> bool
        ensures added { (marks : List Mark) → HasPairedBy C.code self.old marks → result ≡ true →
            HasPairedBy C.code self.new (marks ++ mark.now ∷ []) }
        ensures same { (marks : List Mark) → HasPairedBy C.code self.old marks → result ≡ true →
            segments_by C.code (marks ++ mark.now ∷ []) ≡ segments_by C.code marks }
        ensures begins { (marks : List Mark) → HasPairedBy C.code self.old marks → result ≡ false →
            C.code.begins_minute (last_or None marks) mark.now ≡ true }
        ensures left { result ≡ false → self.new ≡ self.old }
    {
        if C::begins_minute(&self.frame.last(), mark) {
            return false;
        }
        self.frame.add(*mark);
        true
    }

    // Begins a segment.
    fn begin(&mut self, mark: &Mark)
        ensures frame { HasMarks self.new.frame (mark.now ∷ []) }
        ensures opened { self.new.is_open ≡ true }
        ensures before { self.new.before ≡ self.old.before }
    {
        let mut frame = Frame::new();
        frame.add(*mark);
        self.frame = frame;
        self.is_open = true;
    }

    /// Takes the next mark, which begins a minute, and returns the answer to the segment that it closes, if it closes one, at this
    /// mark's start.
    pub fn turn(&mut self, mark: &Mark) -> Option<Heard>
        ensures heard { (marks : List Mark) → HasPairedBy C.code self.old marks →
            C.code.begins_minute (last_or None marks) mark.now ≡ true →
            HasPairedBy C.code self.new (marks ++ mark.now ∷ []) }
        ensures answered { (marks : List Mark) → HasPairedBy C.code self.old marks →
            C.code.begins_minute (last_or None marks) mark.now ≡ true →
            answers_by C.code (segments_by C.code (marks ++ mark.now ∷ [])) ≡
            answers_by C.code (segments_by C.code marks) ++ option_to_list result }
        ensures years { IfSome result (λ heard. BelievesYears heard.kind) }
    {
        if !self.is_open {
            self.begin(mark);
            return None;
        }
        let closed = Closed {
            close: mark.at,
            judged: C::judge(&self.frame, mark.at),
            has_leap: C::has_leap_second(&self.frame),
        };
        let kind = answer(&self.before, &closed);
        let before = before_by(&closed);
        self.begin(mark);
        self.before = before;
        Some(Heard { at: mark.at, kind })
    }

    /// Takes the next mark, and returns the answer to the segment that it closes, if it closes one, at this mark's start.
    pub fn hear(&mut self, mark: Mark) -> Option<Heard>
        ensures heard { (marks : List Mark) → HasPairedBy C.code self.old marks →
            HasPairedBy C.code self.new (marks ++ mark ∷ []) }
        ensures answered { (marks : List Mark) → HasPairedBy C.code self.old marks →
            answers_by C.code (segments_by C.code (marks ++ mark ∷ [])) ≡
            answers_by C.code (segments_by C.code marks) ++ option_to_list result }
        ensures years { IfSome result (λ heard. BelievesYears heard.kind) }
    {
        if self.adds(&mark) {
            return None;
        }
        self.turn(&mark)
    }
}
