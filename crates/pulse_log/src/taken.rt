//! What every reader of bytes returns.

/// How many of some bytes were taken, and what came of them.
#[derive(Clone, Copy, Debug, PartialEq, Eq)]
pub struct Taken<T> {
    /// How many of them, from the first on.
    pub count: usize,
    /// What came of those.
    pub found: T,
}
