//! What the tests share.
ghost use Rattle.std.specs.Prelude.{◌≡◌};

use std::fmt::Debug;
use std::process::Abort;
use tick_units::{Broken, Coded, Local};

// Does what `assert_eq!` does, as a call. In a test with many of them, calls are proved in a third of the time.
pub fn same<T: PartialEq + Debug + Drop>(rt: &impl Abort, left: T, right: T) {
    assert_eq!(*rt; left, right);
}

// The host's counter at this microsecond, up to its last.
pub fn moment(microseconds: u64) -> Local {
    Local::new(microseconds.min((1 << 50) - 1)).unwrap()
}

// What a reader answers.
pub type Answer = Result<Coded, Broken>;

pub fn is_answer(rt: &impl Abort, found: Answer, wanted: Answer) {
    same(rt, found, wanted);
}

// What a frame is refused with.
pub fn broken(rule: u8) -> Answer {
    Err(Broken { rule })
}

pub fn are_alike(rt: &impl Abort, found: bool, wanted: bool) {
    same(rt, found, wanted);
}

// A minute for which no leap second is announced.
pub fn plain(minute: u64, summer: bool) -> Coded
    ensures { result ≡ record { minute = minute; leap_at = 0; summer = summer } }
{
    Coded {
        minute,
        leap_at: 0,
        summer,
    }
}
