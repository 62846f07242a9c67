//! How a command ends: its status, and the line that reports it.
ghost use Rattle.std.specs.Prelude.{◌≡◌};
ghost use Rattle.command_ends.specs.Endings.{status_of};

pub mod page;
pub mod status;
pub mod subject;
pub mod text;
pub mod writing;

use status::Status;
use subject::Subject;

/// How a command ends, where no write fails, with what its status line reports.
#[derive(Clone, Copy, Debug)]
pub enum Ending {
    /// All was read to its end without a fault.
    Whole,
    /// The arguments are not valid.
    WrongWords,
    /// The opening failed.
    NotOpened(Subject),
    /// A read failed.
    NotRead(Subject),
    /// The line of this number is not valid; the first is number 1.
    WrongLine(Subject, u64),
    /// The journal held this many entries, its limit, and one more entry was due.
    Full(u32),
    /// A link failed.
    LinkFailed(Subject),
    /// There was not enough memory.
    NoMemory,
    /// A file is longer than its limit.
    Long(Subject),
}

/// The status of an ending.
pub fn status_by(ending: Ending) -> Status
    ensures { result ≡ status_of ending }
{
    match ending {
        Ending::Whole => Status::Done,
        Ending::WrongWords => Status::Usage,
        Ending::NotOpened(_) => Status::OpenFault,
        Ending::NotRead(_) => Status::ReadFault,
        Ending::WrongLine(..) => Status::BadLine,
        Ending::Full(_) => Status::JournalFull,
        Ending::LinkFailed(_) => Status::LinkFault,
        Ending::NoMemory => Status::Memory,
        Ending::Long(_) => Status::TooLong,
    }
}
