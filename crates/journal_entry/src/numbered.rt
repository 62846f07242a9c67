//! An entry with its number in the journal and the rate of the server's page after it.
use crate::Entry;

/// One line of the journal that says where it stands, and how fast the host's counter was gaining or losing.
#[derive(Clone, Copy, Debug, PartialEq, Eq)]
pub struct Numbered {
    /// The number of the entry in the journal, from 1.
    pub length: u64,
    /// The rate of the page after the entry, in units of 2^-32 s a second; at most 500 parts per million either way.
    pub rate: i32,
    /// The entry.
    pub entry: Entry,
}
