//! MSF as a code plan: what a segment comes to.
ghost use Rattle.std.specs.Prelude.{◌≡◌, None, Some, IfOk, IfErr};
ghost use Rattle.frame_rules.specs.First.{IsLeastBroken};
ghost use Rattle.civil_frame.specs.Seconds.{IsDated};
ghost use Rattle.plan_msf.specs.Fields.{coded};
ghost use Rattle.plan_msf.specs.Rules.{first, rules};

use crate::dates::coded;
use crate::fields::said;
use crate::marks::{are_parts, begins_minute, symbol_of};
use crate::rules::first_broken_rule;
use frame_rules::{CodePlan, Places, Segment};
use tick_units::{Broken, Coded, Local, Mark, Plan, Reduction, Symbol};

/// The code plan of MSF.
#[derive(Clone, Copy, Debug)]
pub struct Msf;

/// A segment of MSF that is read mark by mark. It keeps a few numbers, however many marks it reads.
pub type Frame = frame_rules::Frame<Msf>;

impl CodePlan for Msf {
    ghost use Rattle.civil_frame.specs.Seconds.{IsDated};
    ghost use Rattle.plan_msf.specs.Code.{msf_code};
    ghost use Rattle.tick_units.specs.declared.marks.Plan.TheVariants.{Msf};
    ghost use Rattle.std.specs.Prelude.{◌≡◌};

    ghost which = { Msf };

    ghost code = { msf_code };

    // In UK time it is a minute of the years 2000 to 2099.
    ghost holds = { λ c. IsDated 3155670000 6311433600 c × (c.leap_at ≡ 0) };

    #[inline]
    fn plan() -> Plan {
        Plan::Msf
    }

    #[inline]
    fn symbol(width: u32) -> Symbol {
        symbol_of(width)
    }

    #[inline]
    fn has_parts() -> bool {
        true
    }

    #[inline]
    fn are_parts(first: &Reduction, second: &Reduction) -> bool {
        are_parts(first, second)
    }

    #[inline]
    fn begins_minute(_before: &Option<Mark>, mark: &Mark) -> bool {
        begins_minute(mark)
    }

    fn has_leap_second<P: Places>(_segment: &P) -> bool {
        false
    }

    fn judge<P: Places>(segment: &P, close: Local) -> Result<Coded, Broken> {
        let civil = said(segment);
        match first_broken_rule(segment, close, &civil) {
            Some(rule) => Err(Broken { rule }),
            None => Ok(coded(segment, &civil)),
        }
    }
}

/// The minute that a segment says, which begins at the mark that closes it; or the least number of a rule that the
/// segment breaks. `close` is the start of the closing mark.
pub fn read(segment: &[Mark], close: Local) -> Result<Coded, Broken>
    ensures ok { IfOk result (λ c. (first segment.now close ≡ None) × (c ≡ coded segment.now)) }
    ensures err { IfErr result (λ broken. first segment.now close ≡ Some broken.rule) }
    ensures least { IfErr result (λ broken. IsLeastBroken (rules segment.now close) broken.rule) }

    // In UK time it is a minute of the years 2000 to 2099.
    ensures dated { IfOk result (λ c. IsDated 3155670000 6311433600 c) }
    ensures no_leap { IfOk result (λ c. c.leap_at ≡ 0) }
{
    Msf::judge(&Segment { marks: segment }, close)
}
