//! What MSF second marks say, by the class of their width in microseconds, and what begins a minute.
ghost use Rattle.std.specs.Prelude.{◌≡◌};
ghost use Rattle.tick_units.specs.Marks.{is_long};
ghost use Rattle.plan_msf.specs.Marks.{is_short, symbol_of, are_parts};

use tick_units::{Mark, Reduction, Symbol};

// The class of a width.
#[inline]
pub(crate) fn symbol_of(width: u32) -> Symbol
    ensures { result ≡ symbol_of width }
{
    match width {
        40_000..=149_999 => Symbol::Zero,
        150_000..=249_999 => Symbol::One,
        250_000..=399_999 => Symbol::Both,
        400_000..=600_000 => Symbol::Long,
        _ => Symbol::Odd,
    }
}

#[inline]
fn is_short(width: u32) -> bool
    ensures { result ≡ is_short width }
{
    (40_000..=149_999).contains(&width)
}

// Whether two neighbouring reductions can be the parts of one second, by these two alone.
#[inline]
pub(crate) fn are_parts(first: &Reduction, second: &Reduction) -> bool
    ensures { result ≡ are_parts first.now second.now }
{
    // One comparison: what comes earlier than the window wraps to more than its length.
    is_short(first.width)
        && is_short(second.width)
        && second.at.get().wrapping_sub(first.at.get() + 150_000) <= 100_000
}

// Whether a mark begins a minute: the first second of each is long.
#[inline]
pub(crate) fn begins_minute(mark: &Mark) -> bool
    ensures { result ≡ is_long mark.now.symbol }
{
    mark.symbol == Symbol::Long
}
