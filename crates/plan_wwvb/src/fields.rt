//! What the places of a WWVB segment say.
ghost use Rattle.std.specs.Prelude.{◌≡◌, ◌<◌, List};
ghost use Rattle.tick_units.specs.declared.marks.Mark.{Mark};
ghost use Rattle.frame_rules.specs.Numbers.{both_digits};
ghost use Rattle.plan_wwvb.specs.Fields.{announces_leap, said, day_of_year};

use civil_frame::TimeOfDay;
use frame_rules::{Bit, Number, Places, value};

// A minute as the places of a frame say it, by the day of the year.
#[derive(Clone, Copy, Debug, PartialEq, Eq)]
pub struct OrdinalTime {
    // The year of the century that begins in 2000.
    pub year: Number,
    // The hundreds of the day of the year, and its tens and ones.
    pub hundreds: u16,
    pub day: Number,
    pub time: TimeOfDay,
}

impl OrdinalTime {
    // The day of the year, from 1.
    pub fn day_of_year(&self) -> u32
        ensures { result ≡ day_of_year self.now }
    {
        u32::from(self.hundreds) + self.day.get()
    }
}

// The weights of a digit of ones.
const ONES: [u8; 4] = [8, 4, 2, 1];

// Whether a leap second is announced for the end of the month.
pub(crate) fn announces_leap<P: Places>(segment: &P) -> bool
    ensures { (marks : List Mark) → P.stands_for segment.now marks → result ≡ announces_leap marks }
{
    segment.is_set(Bit::Only, 56)
}

// The year, the day of the year and the time.
#[tactic(auto, unfolding(crate::specs::Fields::said))]
pub(crate) fn said<P: Places>(segment: &P) -> OrdinalTime
    ensures value { (marks : List Mark) → P.stands_for segment.now marks → result ≡ said marks }
    ensures year { both_digits result.year < 1000 }
{
    OrdinalTime {
        time: TimeOfDay {
            minute: Number {
                tens: value(Bit::Only, segment, 1, &[40, 20, 10]),
                ones: value(Bit::Only, segment, 5, &ONES),
            },
            hour: Number {
                tens: value(Bit::Only, segment, 12, &[20, 10]),
                ones: value(Bit::Only, segment, 15, &ONES),
            },
        },
        hundreds: value(Bit::Only, segment, 22, &[200, 100]),
        day: Number {
            tens: value(Bit::Only, segment, 25, &[80, 40, 20, 10]),
            ones: value(Bit::Only, segment, 30, &ONES),
        },
        year: Number {
            tens: value(Bit::Only, segment, 45, &[80, 40, 20, 10]),
            ones: value(Bit::Only, segment, 50, &ONES),
        },
    }
}
