//! What the tests of scripts share.
use std::fmt::Debug;
use std::process::Abort;

// What `assert_eq!` does, as a call, which is proved in a tenth of the time.
pub(crate) fn same<T: PartialEq + Debug + Drop>(rt: &impl Abort, left: T, right: T) {
    assert_eq!(*rt; left, right);
}
