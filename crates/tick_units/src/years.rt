//! The supported years, and the absolute seconds in them.
ghost use Rattle.std.specs.Prelude.{◌<◌, ◌≤◌, IsTrue};
ghost use Rattle.std.specs.Prelude.{◌↔◌};
ghost use Rattle.tick_units.specs.Years.{first_supported, end_of_supported};

/// The first absolute second of the supported years, 1999-12-31 00:00 UTC.
pub const FIRST_SUPPORTED: u64 = 3_155_587_200;

/// The absolute second after the last of the supported years, 2100-01-03 00:00 UTC.
pub const END_OF_SUPPORTED: u64 = 6_311_606_400;

/// Whether an absolute second lies in the supported years.
pub fn is_supported(second: u64) -> bool
    ensures { IsTrue result ↔ ((first_supported ≤ second) × (second < end_of_supported)) }
{
    FIRST_SUPPORTED <= second && second < END_OF_SUPPORTED
}
