//! What the rules of the code plans need of a segment.
ghost use Rattle.std.specs.Prelude.{◌≡◌, ◌<◌, min, List, length, drop};
ghost use Rattle.frame_rules.specs.Fields.{is_set};
ghost use Rattle.tick_units.specs.Marks.{is_long};
ghost use Rattle.tick_units.specs.declared.marks.Mark.{Mark};
ghost use Rattle.frame_rules.specs.Bits.{has_bit};
ghost use Rattle.frame_rules.specs.MarkRules.{breaks_spacing, breaks_spacing_to, breaks_width};
ghost use Rattle.frame_rules.specs.Words.{has_long};

use crate::bits::Bit;
use tick_units::Local;

/// How many places of a segment are kept one by one. A minute has 59 or 60 marks; a segment with more is too long, whatever they
/// are.
pub const KEPT_PLACES: usize = 61;

/// A segment of marks, as far as the rules need it. Places count from 0, and those up to 60 are kept one by one. A place that the
/// segment does not have counts as `Zero`.
pub trait Places {
    /// It stands for a list of marks: it answers as the definitions do for that list.
    ghost stands_for: { Self → List Mark → Type 0 };

    /// How many marks there are, where 61 stands for any number from 61 on.
    fn count(&self) -> usize
        ensures { (marks : List Mark) → stands_for self.now marks → result ≡ min (length marks) 61 };

    /// Whether the bit of a place is 1.
    fn is_set(&self, bit: Bit, place: usize) -> bool
        requires { place < 61 }
        ensures { (marks : List Mark) → stands_for self.now marks → result ≡ is_set (has_bit bit) marks place };

    /// Whether a place is `Long`.
    fn is_long(&self, place: usize) -> bool
        requires { place < 61 }
        ensures { (marks : List Mark) → stands_for self.now marks → result ≡ is_set is_long marks place };

    /// Whether a mark from the 62nd on is `Long`.
    fn has_long_after(&self) -> bool
        ensures { (marks : List Mark) → stands_for self.now marks → result ≡ has_long (drop 61 marks) };

    /// Whether two neighbouring marks do not start 900000 to 1100000 microseconds apart.
    fn breaks_spacing(&self) -> bool
        ensures { (marks : List Mark) → stands_for self.now marks → result ≡ breaks_spacing marks };

    /// Whether two neighbouring marks, or the last mark and the mark that closes them, do not start 900000 to 1100000
    /// microseconds apart.
    fn breaks_spacing_to(&self, close: Local) -> bool
        ensures { (marks : List Mark) → stands_for self.now marks → result ≡ breaks_spacing_to marks close };

    /// Whether a mark's width is in no class.
    fn breaks_width(&self) -> bool
        ensures { (marks : List Mark) → stands_for self.now marks → result ≡ breaks_width marks };
}
