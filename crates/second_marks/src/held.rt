//! What is held back of a second that may have two reductions, until the next reduction.
ghost use Rattle.std.specs.Prelude.{◌≡◌, ◌++◌, ◌∷◌, [], List};
ghost use Rattle.std.specs.Option.{option_to_list};
ghost use Rattle.tick_units.specs.declared.marks.Reduction.{Reduction};
ghost use Rattle.second_marks.specs.Held.{held_after, mark_before};
ghost use Rattle.second_marks.specs.Marker.{HoldsBack};
ghost use Rattle.second_marks.specs.Marks.{mark_by, marks_by};

use frame_rules::CodePlan;
use tick_units::{Local, Mark, Reduction, Symbol};

/// What a marker holds back, since the next reduction may be the second part of the same second.
#[derive(Clone, Copy, Debug)]
pub enum Held {
    /// Nothing: it has received nothing, or each second has one reduction.
    Nothing,
    /// The last reduction.
    Alone(Reduction),
    /// The start of a second of which it has received both parts.
    Joined(Local),
}

// The mark of a reduction by itself.
#[inline]
fn mark_of<C: CodePlan>(reduction: &Reduction) -> Mark
    ensures { result ≡ mark_by C.code reduction.now }
{
    Mark {
        at: reduction.at,
        symbol: C::symbol(reduction.width),
    }
}

// What is held back after this reduction.
#[inline]
fn held_after<C: CodePlan>(held: &Held, reduction: &Reduction) -> Held
    ensures { result ≡ held_after C.code held.now reduction.now }
{
    match held {
        Held::Alone(before) if C::are_parts(before, reduction) => Held::Joined(before.at),
        _ => Held::Alone(*reduction),
    }
}

// The mark that this reduction completes.
#[inline]
fn mark_before<C: CodePlan>(held: &Held, reduction: &Reduction) -> Option<Mark>
    ensures { result ≡ mark_before C.code held.now reduction.now }
{
    match held {
        Held::Nothing => None,
        Held::Joined(at) => Some(Mark {
            at: *at,
            symbol: Symbol::OnlyB,
        }),
        Held::Alone(before) if C::are_parts(before, reduction) => None,
        Held::Alone(before) => Some(mark_of::<C>(before)),
    }
}

/// Takes the next reduction of a plan, and returns the mark that it completes, if it completes one.
#[inline(always)]
pub fn mark_next<C: CodePlan>(held: &mut Held, reduction: Reduction) -> Option<Mark>
    ensures held { (reductions : List Reduction) → HoldsBack C.code held.old reductions →
        HoldsBack C.code held.new (reductions ++ reduction ∷ []) }
    ensures marks { (reductions : List Reduction) → HoldsBack C.code held.old reductions →
        marks_by C.code (reductions ++ reduction ∷ []) ≡ marks_by C.code reductions ++ option_to_list result }
{
    if !C::has_parts() {
        return Some(mark_of::<C>(&reduction));
    }
    let mark = mark_before::<C>(held, &reduction);
    *held = held_after::<C>(held, &reduction);
    mark
}
