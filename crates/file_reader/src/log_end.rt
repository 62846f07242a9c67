// Why the reading of a file of lines ended.

/// Why the reading of a file of lines ended: of a log, a journal, a script or a leap second file.
#[derive(Clone, Copy, Debug, PartialEq, Eq)]
pub enum LogEnd {
    /// The file was read to its end.
    Whole,
    /// The line of this number, from 1, is not valid.
    BadLine { line: u64 },
    /// A read failed.
    Fault,
    /// The file has more bytes than it may.
    Long,
}
