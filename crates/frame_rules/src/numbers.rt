//! Numbers of two digits.
ghost use Rattle.std.specs.Prelude.{◌≡◌, ◌^◌, ◌<◌};
ghost use Rattle.frame_rules.specs.Rules.{is_out_of};
ghost use Rattle.frame_rules.specs.Numbers.{both_digits};

/// A number of two digits as the places of a frame say it, as two sums of weights. Those of its tens are 10, 20, 40 and 80, those
/// of its ones 1, 2, 4 and 8.
#[derive(Clone, Copy, Debug, PartialEq, Eq)]
pub struct Number {
    pub tens: u16,
    pub ones: u16,
}

impl Number {
    /// Both together.
    pub fn get(self) -> u32
        ensures value { result ≡ both_digits self }
        ensures small { result < 2 ^ 17 }
    {
        u32::from(self.tens) + u32::from(self.ones)
    }

    /// Whether its ones digit is above 9, or it is not from `least` to `most`.
    pub fn is_out_of(self, least: u32, most: u32) -> bool
        ensures { result ≡ is_out_of least most self.ones (both_digits self) }
    {
        is_out_of(least, most, self.ones, self.get())
    }
}

/// Whether a number with this ones digit is invalid: that digit is above 9, or the number is not from `least` to `most`.
pub fn is_out_of(least: u32, most: u32, ones: u16, number: u32) -> bool
    ensures { result ≡ is_out_of least most ones number }
{
    ones > 9 || number < least || number > most
}
