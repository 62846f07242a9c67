//! DCF77 as a code plan: what a segment comes to.
ghost use Rattle.std.specs.Prelude.{◌≡◌, None, Some, IfOk, IfErr};
ghost use Rattle.frame_rules.specs.First.{IsLeastBroken};
ghost use Rattle.civil_frame.specs.Seconds.{IsDated};
ghost use Rattle.plan_dcf.specs.Fields.{coded};
ghost use Rattle.plan_dcf.specs.Rules.{first, rules};

use crate::dates::coded;
use crate::fields::said;
use crate::marks::{begins_minute, has_leap_second, symbol_of};
use crate::rules::first_broken_rule;
use frame_rules::{CodePlan, Places, Segment};
use tick_units::{Broken, Coded, Local, Mark, Plan, Reduction, Symbol};

/// The code plan of DCF77.
#[derive(Clone, Copy, Debug)]
pub struct Dcf;

/// A segment of DCF77 that is read mark by mark. It keeps a few numbers, however many marks it reads.
pub type Frame = frame_rules::Frame<Dcf>;

impl CodePlan for Dcf {
    ghost use Rattle.civil_frame.specs.Seconds.{IsDated};
    ghost use Rattle.plan_dcf.specs.Code.{dcf_code};
    ghost use Rattle.tick_units.specs.declared.marks.Plan.TheVariants.{Dcf};

    ghost which = { Dcf };

    ghost code = { dcf_code };

    // In German time it is a minute of the years 2000 to 2099.
    ghost holds = { IsDated 3155666400 6311433600 };

    #[inline]
    fn plan() -> Plan {
        Plan::Dcf
    }

    #[inline]
    fn symbol(width: u32) -> Symbol {
        symbol_of(width)
    }

    #[inline]
    fn has_parts() -> bool {
        false
    }

    #[inline]
    fn are_parts(_first: &Reduction, _second: &Reduction) -> bool {
        false
    }

    #[inline]
    fn begins_minute(before: &Option<Mark>, mark: &Mark) -> bool {
        begins_minute(before, mark)
    }

    fn has_leap_second<P: Places>(segment: &P) -> bool {
        has_leap_second(segment)
    }

    fn judge<P: Places>(segment: &P, _close: Local) -> Result<Coded, Broken> {
        let civil = said(segment);
        match first_broken_rule(segment, &civil) {
            Some(rule) => Err(Broken { rule }),
            None => Ok(coded(segment, &civil)),
        }
    }
}

/// The minute that a segment says, which begins at the mark that closes it; or the least number of a rule that the segment
/// breaks. In DCF77 no rule concerns the closing mark.
pub fn read(segment: &[Mark], close: Local) -> Result<Coded, Broken>
    ensures ok { IfOk result (λ c. (first segment.now ≡ None) × (c ≡ coded segment.now)) }
    ensures err { IfErr result (λ broken. first segment.now ≡ Some broken.rule) }
    ensures least { IfErr result (λ broken. IsLeastBroken (rules segment.now) broken.rule) }

    // In German time it is a minute of the years 2000 to 2099.
    ensures dated { IfOk result (λ c. IsDated 3155666400 6311433600 c) }
{
    Dcf::judge(&Segment { marks: segment }, close)
}
