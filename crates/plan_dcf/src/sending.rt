//! DCF77 as it is sent.
use crate::reading::Dcf;
use crate::spelling::spell;
use frame_rules::{ODD_WIDTH, SendPlan};
use tick_units::{Coded, Symbol};

impl SendPlan for Dcf {
    ghost use Rattle.plan_dcf.specs.Sending.{dcf_sending};

    ghost sending = { dcf_sending };

    #[inline]
    fn number() -> u32 {
        0
    }

    #[inline]
    fn width(symbol: Symbol) -> u32 {
        match symbol {
            Symbol::Zero => 100_000,
            Symbol::One => 200_000,
            _ => ODD_WIDTH,
        }
    }

    // The last mark of the minute before, after which one second has none.
    #[inline]
    fn opening() -> &'static [Symbol] {
        &[Symbol::Zero]
    }

    #[inline]
    fn opening_index() -> u32 {
        0
    }

    #[inline]
    fn closing() -> &'static [Symbol] {
        &[Symbol::Zero]
    }

    fn spell(c: &Coded, out: &mut [Symbol; 61]) -> usize {
        spell(c, out)
    }
}
