//! A pairing that is given its plan's name.
ghost use Rattle.std.specs.Prelude.{◌≡◌, ◌++◌, ◌∷◌, [], List, IfSome};
ghost use Rattle.std.specs.Option.{option_to_list};
ghost use Rattle.minute_pair.specs.Segments.{segments_of};
ghost use Rattle.tick_units.specs.declared.marks.Mark.{Mark};
ghost use Rattle.tick_units.specs.declared.marks.Plan.{Plan};
ghost use Rattle.minute_pair.specs.Answers.{answers};
ghost use Rattle.minute_pair.specs.Years.{BelievesYears};

use crate::minutes::PairingOf;
use code_plans::{Dcf, Msf, Wwvb};
use tick_units::{Heard, Mark, Plan};

/// Pairs the segments of the marks of any plan.
#[derive(Drop)]
pub enum Pairing {
    /// Of DCF77.
    OfDcf(PairingOf<Dcf>),
    /// Of MSF.
    OfMsf(PairingOf<Msf>),
    /// Of WWVB.
    OfWwvb(PairingOf<Wwvb>),
}

impl Pairing {
    ghost use Rattle.minute_pair.specs.Pairing.{HasPaired};

    /// A pairing of a plan's marks that has received none.
    pub fn new(plan: Plan) -> Pairing
        ensures { HasPaired result plan [] }
    {
        match plan {
            Plan::Dcf => Pairing::OfDcf(PairingOf::new()),
            Plan::Msf => Pairing::OfMsf(PairingOf::new()),
            Plan::Wwvb => Pairing::OfWwvb(PairingOf::new()),
        }
    }

    /// Takes the next mark, and returns the answer to the segment that it closes, if it closes one, at this mark's start.
    pub fn hear(&mut self, mark: Mark) -> Option<Heard>
        ensures heard { (plan : Plan) (marks : List Mark) → HasPaired self.old plan marks →
            HasPaired self.new plan (marks ++ mark ∷ []) }
        ensures answered { (plan : Plan) (marks : List Mark) → HasPaired self.old plan marks →
            answers plan (segments_of plan (marks ++ mark ∷ [])) ≡
            answers plan (segments_of plan marks) ++ option_to_list result }

        // A believed second, and its leap second, lie in the supported years, 2000 to 2099 and a day or two around them.
        ensures years { IfSome result (λ heard. BelievesYears heard.kind) }
    {
        match self {
            Pairing::OfDcf(pairing) => pairing.hear(mark),
            Pairing::OfMsf(pairing) => pairing.hear(mark),
            Pairing::OfWwvb(pairing) => pairing.hear(mark),
        }
    }
}
