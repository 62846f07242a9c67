//! A segment whose marks lie in a slice.
ghost use Rattle.std.specs.Prelude.{◌≡◌, drop};
ghost use Rattle.frame_rules.specs.MarkRules.{breaks_spacing, breaks_spacing_to, breaks_width};
ghost use Rattle.frame_rules.specs.Words.{has_long};

use crate::bits::{Bit, is_long, is_odd};
use crate::places::{KEPT_PLACES, Places};
use crate::rules::is_a_second_on;
use tick_units::{Local, Mark};

/// The marks of a segment, read where they lie.
#[derive(Clone, Copy, Debug)]
pub struct Segment<'a> {
    pub marks: &'a [Mark],
}

impl<'a> Places for Segment<'a> {
    ghost stands_for = { λ segment marks. segment.marks.now ≡ marks };

    fn count(&self) -> usize {
        self.marks.len().min(KEPT_PLACES)
    }

    fn is_set(&self, bit: Bit, place: usize) -> bool {
        match self.marks.get(place) {
            Some(mark) => bit.is_in(mark.symbol),
            None => false,
        }
    }

    fn is_long(&self, place: usize) -> bool {
        match self.marks.get(place) {
            Some(mark) => is_long(mark.symbol),
            None => false,
        }
    }

    fn has_long_after(&self) -> bool {
        has_long_after(self.marks)
    }

    fn breaks_spacing(&self) -> bool {
        breaks_spacing(self.marks)
    }

    fn breaks_spacing_to(&self, close: Local) -> bool {
        breaks_spacing_to(self.marks, close)
    }

    fn breaks_width(&self) -> bool {
        has_odd(self.marks)
    }
}

// Whether a mark after the first 61 is Long.
fn has_long_after(marks: &[Mark]) -> bool
    ensures { result ≡ has_long (drop 61 marks.now) }
{
    marks
        .iter()
        .skip(KEPT_PLACES)
        .any(|mark| is_long(mark.symbol))
}

// Whether a mark's width is in no class.
fn has_odd(marks: &[Mark]) -> bool
    ensures { result ≡ breaks_width marks.now }
{
    marks.iter().any(|mark| is_odd(mark.symbol))
}

// Whether two neighbouring marks do not start 900000 to 1100000 microseconds apart.
fn breaks_spacing(marks: &[Mark]) -> bool
    ensures { result ≡ breaks_spacing marks.now }
{
    let mut rest = marks;
    'marks: while let [mark, more @ ..] = rest {
        if let [next, ..] = more {
            if !is_a_second_on(mark.at, next.at) {
                return true;
            }
        }
        rest = more;
    }
    false
}

// Whether two neighbouring marks, or the last mark and the mark that closes them, do not start 900000 to 1100000 microseconds
// apart.
fn breaks_spacing_to(marks: &[Mark], close: Local) -> bool
    ensures { result ≡ breaks_spacing_to marks.now close }
{
    let mut rest = marks;
    'marks: while let [mark, more @ ..] = rest {
        let next = match more {
            [next, ..] => next.at,
            [] => close,
        };
        if !is_a_second_on(mark.at, next) {
            return true;
        }
        rest = more;
    }
    false
}
