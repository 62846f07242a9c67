//! The rules on marks that the plans share, and which broken rule is named.
ghost use Rattle.std.specs.Prelude.{◌≡◌, ◌+◌, List};
ghost use Rattle.tick_units.specs.Marks.{is_between};
ghost use Rattle.frame_rules.specs.First.{first_broken};
ghost use Rattle.frame_rules.specs.MarkRules.{breaks_length};
ghost use Rattle.tick_units.specs.declared.marks.Mark.{Mark};

use crate::places::Places;
use tick_units::Local;

/// A numbered rule, and whether a segment breaks it.
#[derive(Clone, Copy, Debug, PartialEq, Eq)]
pub struct Rule {
    pub number: u8,
    pub broken: bool,
}

impl Rule {
    /// The rule of this number, and whether it is broken.
    pub fn new(number: u8, broken: bool) -> Rule
        ensures { result ≡ record { number = number; broken = broken } }
    {
        Rule { number, broken }
    }
}

/// The number of the first rule of these that is broken.
pub fn first_broken(rules: &[Rule]) -> Option<u8>
    ensures { result ≡ first_broken rules.now }
{
    rules
        .iter()
        .find(|rule| rule.broken)
        .map(|rule| rule.number)
}

// Whether one moment comes 900000 to 1100000 microseconds after another.
#[inline]
pub(crate) fn is_a_second_on(before: Local, moment: Local) -> bool
    ensures { result ≡ is_between (before + 900000) (before + 1100000) moment }
{
    // One comparison: what comes earlier than the window wraps to more than its length.
    moment.get().wrapping_sub(before.get() + 900_000) <= 200_000
}

/// Whether there are not 60 marks.
pub fn breaks_length<P: Places>(segment: &P) -> bool
    ensures { (marks : List Mark) → P.stands_for segment.now marks → result ≡ breaks_length marks }
{
    segment.count() != 60
}
