//! A segment that is read mark by mark by the rules of a code plan.
ghost use Rattle.std.specs.Prelude.{◌≡◌, None, Some, Option, IfOk, IfErr, min, List, [], ◌∷◌, ◌++◌, length};
ghost use Rattle.std.specs.List.{last_or};
ghost use Rattle.tick_units.specs.Years.{SaysYears};
ghost use Rattle.tick_units.specs.declared.marks.Mark.{Mark};
ghost use Rattle.frame_rules.specs.First.{IsLeastBroken};
ghost use Rattle.frame_rules.specs.Words.{is_near, HasMarks};

use crate::bits::{Bit, is_long, is_odd};
use crate::code_plan::CodePlan;
use crate::place_words::{has, raise, with_bit};
use crate::places::{KEPT_PLACES, Places};
use crate::rules::is_a_second_on;
use std::marker::PhantomData;
use tick_units::{Broken, Coded, Local, Mark, Symbol};

/// A segment that is read mark by mark. It keeps a few numbers, however many marks it reads.
#[derive(Clone, Copy, Debug)]
pub struct Frame<C> {
    // How many marks there are, up to 61.
    count: usize,
    // The bits of the first 61 marks, a word for each kind of bit.
    bits_a: u64,
    bits_b: u64,
    longs: u64,
    // Of all marks: whether one from the 62nd on is Long, whether two neighbours do not start about a second apart, whether a width is
    // in no class, and the last mark, where there is one.
    long_after: bool,
    spacing_broken: bool,
    width_broken: bool,
    last_symbol: Symbol,
    last_at: Local,
    plan: PhantomData<C>,
}

// Whether a moment comes a second after a mark, where there is one.
#[inline]
fn is_near(last: &Option<Mark>, moment: Local) -> bool
    ensures { result ≡ is_near last.now moment }
{
    match last {
        Some(mark) => is_a_second_on(mark.at, moment),
        None => true,
    }
}

impl<C: CodePlan> Frame<C> {
    /// No mark yet.
    #[inline]
    pub fn new() -> Frame<C>
        ensures { HasMarks result [] }
    {
        Frame {
            count: 0,
            bits_a: 0,
            bits_b: 0,
            longs: 0,
            long_after: false,
            spacing_broken: false,
            width_broken: false,
            last_symbol: Symbol::Zero,
            last_at: Local::new(0).unwrap(),
            plan: PhantomData,
        }
    }

    /// Reads the next mark.
    #[inline]
    pub fn add(&mut self, mark: Mark)
        ensures { (marks : List Mark) → HasMarks self.old marks → HasMarks self.new (marks ++ mark ∷ []) }
    {
        let far = !is_near(&self.last(), mark.at);
        raise(&mut self.spacing_broken, far);
        raise(&mut self.width_broken, is_odd(mark.symbol));
        self.last_symbol = mark.symbol;
        self.last_at = mark.at;
        let long = is_long(mark.symbol);
        if self.count < KEPT_PLACES {
            self.bits_a = with_bit(self.bits_a, Bit::A.is_in(mark.symbol), self.count);
            self.bits_b = with_bit(self.bits_b, Bit::B.is_in(mark.symbol), self.count);
            self.longs = with_bit(self.longs, long, self.count);
            self.count += 1;
        } else {
            raise(&mut self.long_after, long);
        }
    }

    /// The last mark.
    #[inline]
    pub fn last(&self) -> Option<Mark>
        ensures { (marks : List Mark) → HasMarks self.now marks → result ≡ last_or None marks }
    {
        if self.count == 0 {
            return None;
        }
        Some(Mark {
            at: self.last_at,
            symbol: self.last_symbol,
        })
    }

    /// What the marks say, closed by a mark that starts at this moment; or the least number of a rule that they break.
    pub fn close(&self, at: Local) -> Result<Coded, Broken>
        ensures ok { (marks : List Mark) → HasMarks self.now marks →
            IfOk result (λ c. (C.code.first marks at ≡ None) × (c ≡ C.code.coded marks)) }
        ensures err { (marks : List Mark) → HasMarks self.now marks →
            IfErr result (λ broken. C.code.first marks at ≡ Some broken.rule) }
        ensures least { (marks : List Mark) → HasMarks self.now marks →
            IfErr result (λ broken. IsLeastBroken (C.code.rules marks at) broken.rule) }
        ensures holds { IfOk result C.holds }
        ensures years { IfOk result SaysYears }
    {
        C::judge(self, at)
    }
}

impl<C: CodePlan> Places for Frame<C> {
    ghost use Rattle.frame_rules.specs.Words.{HasMarks};

    ghost stands_for = { HasMarks };

    #[inline]
    fn count(&self) -> usize {
        self.count
    }

    #[inline]
    fn is_set(&self, bit: Bit, place: usize) -> bool {
        match bit {
            Bit::Only => has(self.bits_a, place) && !has(self.bits_b, place),
            Bit::A => has(self.bits_a, place),
            Bit::B => has(self.bits_b, place),
        }
    }

    #[inline]
    fn is_long(&self, place: usize) -> bool {
        has(self.longs, place)
    }

    #[inline]
    fn has_long_after(&self) -> bool {
        self.long_after
    }

    #[inline]
    fn breaks_spacing(&self) -> bool {
        self.spacing_broken
    }

    #[inline]
    fn breaks_spacing_to(&self, close: Local) -> bool {
        self.spacing_broken || !is_near(&self.last(), close)
    }

    #[inline]
    fn breaks_width(&self) -> bool {
        self.width_broken
    }
}
