//! The ways in which a command ends, and their numbers.

ghost use Rattle.std.specs.Prelude.{◌≡◌};

/// How a command ended. The program's exit status is its number.
#[derive(Clone, Copy, Debug, PartialEq, Eq)]
pub enum Status {
    /// All was read to its end without a fault.
    Done,
    /// The arguments are not valid.
    Usage,
    /// The last opening failed.
    OpenFault,
    /// The station file is refused.
    Station,
    /// A read failed.
    ReadFault,
    /// A line is not valid.
    BadLine,
    /// An entry found the journal full.
    JournalFull,
    /// A link failed.
    LinkFault,
    /// A write failed. No status line reports it.
    WriteFault,
    /// There was not enough memory.
    Memory,
    /// A file is longer than its limit.
    TooLong,
}

impl Status {
    ghost use Rattle.command_ends.specs.Endings.{number_of};

    /// Its number, 0 to 10 in the order above.
    pub fn number(&self) -> u8
        ensures { result ≡ number_of self.now }
    {
        *self as u8
    }
}
