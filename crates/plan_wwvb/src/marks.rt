//! What WWVB second marks say, by the class of their width in microseconds, and what begins a minute.
ghost use Rattle.std.specs.Prelude.{◌≡◌};
ghost use Rattle.plan_wwvb.specs.Marks.{symbol_of, begins_minute};

use tick_units::{Mark, Symbol};

// The class of a width.
#[inline]
pub(crate) fn symbol_of(width: u32) -> Symbol
    ensures { result ≡ symbol_of width }
{
    match width {
        100_000..=349_999 => Symbol::Zero,
        350_000..=649_999 => Symbol::One,
        650_000..=900_000 => Symbol::Long,
        _ => Symbol::Odd,
    }
}

// Whether a mark begins a minute, by the mark just before it: each is a marker.
#[inline]
pub(crate) fn begins_minute(before: &Option<Mark>, mark: &Mark) -> bool
    ensures { result ≡ begins_minute before.now mark.now }
{
    match before {
        Some(last) => last.symbol == Symbol::Long && mark.symbol == Symbol::Long,
        None => false,
    }
}
