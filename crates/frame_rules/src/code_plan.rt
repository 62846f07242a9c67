//! What a code plan is by itself.
ghost use Rattle.std.specs.Prelude.{◌≡◌, None, Some, IfOk, IfErr, List};
ghost use Rattle.tick_units.specs.Years.{SaysYears};
ghost use Rattle.tick_units.specs.declared.marks.Mark.{Mark};
ghost use Rattle.frame_rules.specs.First.{IsLeastBroken};

use crate::places::Places;
use tick_units::{Broken, Coded, Local, Mark, Plan, Reduction, Symbol};

/// A code plan: its classes of widths, what begins a minute, its rules, and what a segment that breaks none of them says.
pub trait CodePlan: Drop {
    ghost use Rattle.tick_units.specs.declared.marks.Plan.{Plan};
    ghost use Rattle.tick_units.specs.declared.verdicts.Coded.{Coded};
    ghost use Rattle.frame_rules.specs.Codes.{Code};

    /// Its name.
    ghost which: { Plan };

    /// The plan as definitions have it.
    ghost code: { Code };

    /// What holds of every minute that is said.
    ghost holds: { Coded → Type 0 };

    /// Its name.
    fn plan() -> Plan
        ensures { result ≡ which };

    /// What a width in microseconds says.
    fn symbol(width: u32) -> Symbol
        ensures { result ≡ code.symbol width };

    /// Whether a second may have two reductions.
    fn has_parts() -> bool
        ensures { result ≡ code.has_parts };

    /// Whether two neighbouring reductions can be the parts of one second, by these two alone.
    fn are_parts(first: &Reduction, second: &Reduction) -> bool
        ensures { result ≡ code.are_parts first.now second.now };

    /// Whether a mark begins a minute, by the mark just before it.
    fn begins_minute(before: &Option<Mark>, mark: &Mark) -> bool
        ensures { result ≡ code.begins_minute before.now mark.now };

    /// Whether a segment has the mark of a leap second more than other minutes.
    fn has_leap_second<P: Places>(segment: &P) -> bool
        ensures { (marks : List Mark) → P.stands_for segment.now marks → result ≡ code.has_leap_second marks };

    /// What a segment says, however its marks are kept, or the least number of a rule that it breaks.
    fn judge<P: Places>(segment: &P, close: Local) -> Result<Coded, Broken>
        ensures ok { (marks : List Mark) → P.stands_for segment.now marks →
            IfOk result (λ c. (code.first marks close ≡ None) × (c ≡ code.coded marks)) }
        ensures err { (marks : List Mark) → P.stands_for segment.now marks →
            IfErr result (λ broken. code.first marks close ≡ Some broken.rule) }
        ensures least { (marks : List Mark) → P.stands_for segment.now marks →
            IfErr result (λ broken. IsLeastBroken (code.rules marks close) broken.rule) }
        ensures holds { IfOk result holds }

        // A minute that is said, and its leap second, lie in the supported years, 2000 to 2099 and a day or two around them.
        ensures years { IfOk result SaysYears };
}
