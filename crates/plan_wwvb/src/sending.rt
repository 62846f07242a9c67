//! WWVB as it is sent.
use crate::reading::Wwvb;
use crate::spelling::spell;
use frame_rules::{ODD_WIDTH, SendPlan};
use tick_units::{Coded, Symbol};

impl SendPlan for Wwvb {
    ghost use Rattle.plan_wwvb.specs.Sending.{wwvb_sending};

    ghost sending = { wwvb_sending };

    #[inline]
    fn number() -> u32 {
        2
    }

    #[inline]
    fn width(symbol: Symbol) -> u32 {
        match symbol {
            Symbol::Zero => 200_000,
            Symbol::One => 500_000,
            Symbol::Long => 800_000,
            _ => ODD_WIDTH,
        }
    }

    // The last marker of the minute before.
    #[inline]
    fn opening() -> &'static [Symbol] {
        &[Symbol::Long]
    }

    #[inline]
    fn opening_index() -> u32 {
        1
    }

    #[inline]
    fn closing() -> &'static [Symbol] {
        &[Symbol::Long]
    }

    fn spell(c: &Coded, out: &mut [Symbol; 61]) -> usize {
        spell(c, out)
    }
}
