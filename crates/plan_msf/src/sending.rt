//! MSF as it is sent.
use crate::reading::Msf;
use crate::spelling::spell;
use frame_rules::{ODD_WIDTH, SendPlan};
use tick_units::{Coded, Symbol};

impl SendPlan for Msf {
    ghost use Rattle.plan_msf.specs.Sending.{msf_sending};

    ghost sending = { msf_sending };

    #[inline]
    fn number() -> u32 {
        1
    }

    #[inline]
    fn width(symbol: Symbol) -> u32 {
        match symbol {
            Symbol::Zero | Symbol::OnlyB => 100_000,
            Symbol::One => 200_000,
            Symbol::Both => 300_000,
            Symbol::Long => 500_000,
            Symbol::Odd => ODD_WIDTH,
        }
    }

    #[inline]
    fn opening() -> &'static [Symbol] {
        &[]
    }

    #[inline]
    fn opening_index() -> u32 {
        0
    }

    #[inline]
    fn closing() -> &'static [Symbol] {
        &[Symbol::Long, Symbol::Zero]
    }

    fn spell(c: &Coded, out: &mut [Symbol; 61]) -> usize {
        spell(c, out)
    }
}
