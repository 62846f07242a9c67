//! What the last line of a command reports.
ghost use Rattle.std.specs.Prelude.{◌≡◌};

use crate::ending::status::Status;
use crate::ending::{Ending, status_by};
use station_reader::StationFault;

/// What the last line that a command has written reports.
#[derive(Debug, Drop)]
pub enum Report {
    /// How the command has ended.
    Ended(Ending),
    /// A fault of the station file.
    Refused(StationFault),
    /// Nothing, since a write has failed.
    Unwritten,
}

impl Report {
    ghost use Rattle.command_ends.specs.Reports.{status_in};

    /// The status of the command.
    pub fn status(&self) -> Status
        ensures { result ≡ status_in self.now }
    {
        match self {
            Report::Ended(ending) => status_by(*ending),
            Report::Refused(_) => Status::Station,
            Report::Unwritten => Status::WriteFault,
        }
    }
}
