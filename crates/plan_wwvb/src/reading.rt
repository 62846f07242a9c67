//! WWVB as a code plan: what a segment comes to.
ghost use Rattle.std.specs.Prelude.{◌≡◌, None, Some, IfOk, IfErr};
ghost use Rattle.frame_rules.specs.First.{IsLeastBroken};
ghost use Rattle.civil_frame.specs.Seconds.{IsDated};
ghost use Rattle.plan_wwvb.specs.Fields.{coded};
ghost use Rattle.plan_wwvb.specs.Rules.{first, rules};

use crate::dates::coded;
use crate::fields::said;
use crate::marks::{begins_minute, symbol_of};
use crate::rules::first_broken_rule;
use frame_rules::{CodePlan, Places, Segment};
use tick_units::{Broken, Coded, Local, Mark, Plan, Reduction, Symbol};

/// The code plan of WWVB.
#[derive(Clone, Copy, Debug)]
pub struct Wwvb;

/// A segment of WWVB that is read mark by mark. It keeps a few numbers, however many marks it reads.
pub type Frame = frame_rules::Frame<Wwvb>;

impl CodePlan for Wwvb {
    ghost use Rattle.civil_frame.specs.Seconds.{IsDated};
    ghost use Rattle.plan_wwvb.specs.Code.{wwvb_code};
    ghost use Rattle.tick_units.specs.declared.marks.Plan.TheVariants.{Wwvb};

    ghost which = { Wwvb };

    ghost code = { wwvb_code };

    // The minute before it is one of the years 2000 to 2099.
    ghost holds = { IsDated 3155673660 6311433660 };

    #[inline]
    fn plan() -> Plan {
        Plan::Wwvb
    }

    #[inline]
    fn symbol(width: u32) -> Symbol {
        symbol_of(width)
    }

    #[inline]
    fn has_parts() -> bool {
        false
    }

    #[inline]
    fn are_parts(_first: &Reduction, _second: &Reduction) -> bool {
        false
    }

    #[inline]
    fn begins_minute(before: &Option<Mark>, mark: &Mark) -> bool {
        begins_minute(before, mark)
    }

    fn has_leap_second<P: Places>(_segment: &P) -> bool {
        false
    }

    fn judge<P: Places>(segment: &P, close: Local) -> Result<Coded, Broken> {
        let ordinal = said(segment);
        match first_broken_rule(segment, close, &ordinal) {
            Some(rule) => Err(Broken { rule }),
            None => Ok(coded(segment, &ordinal)),
        }
    }
}

/// The minute that a segment says, which begins at the mark that closes it; or the least number of a rule that the
/// segment breaks. `close` is the start of the closing mark.
pub fn read(segment: &[Mark], close: Local) -> Result<Coded, Broken>
    ensures ok { IfOk result (λ c. (first segment.now close ≡ None) × (c ≡ coded segment.now)) }
    ensures err { IfErr result (λ broken. first segment.now close ≡ Some broken.rule) }
    ensures least { IfErr result (λ broken. IsLeastBroken (rules segment.now close) broken.rule) }

    // The minute before it is one of the years 2000 to 2099.
    ensures dated { IfOk result (λ c. IsDated 3155673660 6311433660 c) }
{
    Wwvb::judge(&Segment { marks: segment }, close)
}
