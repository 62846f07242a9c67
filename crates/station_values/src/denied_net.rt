//! A net that a station denies.
ghost use Rattle.std.specs.Prelude.{◌≤◌};

/// A net as a station keeps it: the addresses that agree with this one in their first bits.
#[derive(Clone, Copy, Debug)]
pub struct DeniedNet {
    pub address: u32,
    /// How many bits, 0 to 32.
    pub bits: u8,
    ghost most: { bits ≤ 32 },
}
