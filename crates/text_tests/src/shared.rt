//! What the tests share.
use journal_entry::{Entry, What};
use std::fmt::Debug;
use std::process::Abort;
use std::test::Fail;
use tick_units::{Local, Sample, Short, Span};

// Does what `assert_eq!` does, as a call. In a test with many of them, calls are proved in a third of the time.
pub fn same<T: PartialEq + Debug + Drop>(rt: &impl Abort, left: T, right: T) {
    assert_eq!(*rt; left, right);
}

// The same for a row of a table, which is named where the two differ.
pub fn same_for<T: PartialEq + Debug + Drop>(rt: &impl Abort, row: &impl Debug, left: T, right: T) {
    assert_eq!(*rt; left, right, "{row:?}");
}

// The host's counter at this microsecond, up to its last.
pub fn moment(microseconds: u64) -> Local {
    Local::new(microseconds.min((1 << 50) - 1)).unwrap()
}

pub fn entry(feed: u32, at: u64, what: What) -> Entry {
    let at = moment(at);
    Entry { feed, at, what }
}

// The sample whose text is longest: each number is at its bound.
pub fn longest() -> Result<Sample, Fail> {
    let least = Span::new(1 - (1 << 70)).ok_or("no span")?;
    Ok(Sample {
        offset: least,
        delay: least,
        dispersion: least,
        stratum: 255,
        address: u32::MAX,
        root_delay: Short(u32::MAX),
        root_disp: Short(u32::MAX),
    })
}
