//! What these tests share: a comparison, moments and candidates from numbers, and intervals as numbers.
ghost use Rattle.std.specs.Prelude.{◌≡◌, ◌≤◌, ◌<◌, ◌^◌, IsTrue, unsigned_abs};
ghost use Rattle.select_core.specs.Selection.{is_measured};

use select_core::{Candidate, Chime};
use std::fmt::Debug;
use std::process::Abort;
use tick_units::{Local, Span};

/// What `assert_eq!` does, as a call, which is proved in a tenth of the time.
pub fn same<T: PartialEq + Debug + Drop>(rt: &impl Abort, left: T, right: T) {
    assert_eq!(*rt; left, right);
}

/// A moment of the host's counter, in microseconds.
pub fn moment(microseconds: u64) -> Local
    requires { microseconds < 2 ^ 50 }
    ensures { result ≡ microseconds }
{
    Local::new(microseconds).unwrap()
}

/// A candidate of selection.
pub fn source(feed: u32, offset: i128, distance: u64) -> Candidate
    requires offset { unsigned_abs offset ≤ 2 ^ 68 }
    requires least { 1 ≤ distance }
    requires most { distance ≤ 2 ^ 32 }
    ensures { IsTrue (is_measured result) }
{
    Candidate {
        feed,
        offset: Span::new(offset).unwrap(),
        distance: Span::from(distance),
    }
}

/// An interval: its ends, and how many may stand outside.
pub type Found = Option<(i128, i128, u32)>;

/// An interval as numbers.
pub fn found(chime: Option<Chime>) -> Found {
    match chime {
        Some(chime) => Some((chime.low.get(), chime.high.get(), chime.allowed)),
        None => None,
    }
}
