//! What DCF77 second marks say, by the class of their width in microseconds, and what begins a minute.
ghost use Rattle.std.specs.Prelude.{◌≡◌, List};
ghost use Rattle.tick_units.specs.declared.marks.Mark.{Mark};
ghost use Rattle.plan_dcf.specs.Marks.{symbol_of, begins_minute, has_leap_second};

use frame_rules::Places;
use tick_units::{Mark, Symbol};

// The class of a width.
#[inline]
pub(crate) fn symbol_of(width: u32) -> Symbol
    ensures { result ≡ symbol_of width }
{
    match width {
        40_000..=149_999 => Symbol::Zero,
        150_000..=260_000 => Symbol::One,
        _ => Symbol::Odd,
    }
}

// Whether a mark begins a minute, by the mark just before it: the last second of a minute has none.
#[inline]
pub(crate) fn begins_minute(before: &Option<Mark>, mark: &Mark) -> bool
    ensures { result ≡ begins_minute before.now mark.now }
{
    match before {
        Some(last) => {
            // One comparison: what comes earlier than the window wraps to more than its length.
            mark.at.get().wrapping_sub(last.at.get() + 1_900_000) <= 200_000
        }
        None => false,
    }
}

// Whether a segment has the 60th mark of a minute that ends with a leap second.
pub(crate) fn has_leap_second<P: Places>(segment: &P) -> bool
    ensures { (marks : List Mark) → P.stands_for segment.now marks → result ≡ has_leap_second marks }
{
    segment.count() == 60
}
