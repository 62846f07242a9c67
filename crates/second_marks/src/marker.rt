//! A marker: reductions in, marks out.
ghost use Rattle.std.specs.Prelude.{◌≡◌, ◌++◌, ◌∷◌, [], List};
ghost use Rattle.std.specs.Option.{option_to_list};
ghost use Rattle.second_marks.specs.Marker.{HasReceived};
ghost use Rattle.second_marks.specs.Marks.{marks_of};
ghost use Rattle.tick_units.specs.declared.marks.Plan.{Plan};
ghost use Rattle.tick_units.specs.declared.marks.Reduction.{Reduction};

use crate::held::{Held, mark_next};
use code_plans::{Listed, of_plan};
use tick_units::{Mark, Plan, Reduction};

/// Turns the reductions of a log into marks. In MSF a second may have two reductions, so a mark comes with the reduction after
/// its last part. The last mark of an MSF log never comes.
#[derive(Drop)]
pub struct Marker {
    plan: Plan,
    held: Held,
}

// Takes the next reduction, as a marker of this plan.
fn receive_as<C: Listed>(marker: &mut Marker, reduction: Reduction) -> Option<Mark>
    ensures heard { (plan : Plan) (reductions : List Reduction) → C.which ≡ plan → HasReceived marker.old plan reductions →
        HasReceived marker.new plan (reductions ++ reduction ∷ []) }
    ensures marks { (plan : Plan) (reductions : List Reduction) → C.which ≡ plan → HasReceived marker.old plan reductions →
        marks_of plan (reductions ++ reduction ∷ []) ≡ marks_of plan reductions ++ option_to_list result }
    ensures plan { marker.new.plan ≡ marker.old.plan }
{
    mark_next::<C>(&mut marker.held, reduction)
}

impl Marker {
    /// A marker of a plan that has received nothing.
    pub fn new(plan: Plan) -> Marker
        ensures { HasReceived result plan [] }
    {
        Marker {
            plan,
            held: Held::Nothing,
        }
    }

    /// Takes the next reduction, and returns the mark that it completes, if it completes one.
    pub fn hear(&mut self, reduction: Reduction) -> Option<Mark>
        ensures heard { (plan : Plan) (reductions : List Reduction) → HasReceived self.old plan reductions →
            HasReceived self.new plan (reductions ++ reduction ∷ []) }
        ensures marks { (plan : Plan) (reductions : List Reduction) → HasReceived self.old plan reductions →
            marks_of plan (reductions ++ reduction ∷ []) ≡ marks_of plan reductions ++ option_to_list result }
    {
        of_plan!(self.plan, receive_as(self, reduction))
    }
}
