//! What came of a command.
ghost use Rattle.std.specs.Prelude.{◌≡◌, None, Some};

use crate::ending::status::Status;
use crate::minutes::Minutes;
use crate::report::Report;
use station_values::Station;

/// What is known of the files of a command that has ended.
#[derive(Drop)]
pub struct Known {
    /// The station that was served, or that could not be.
    pub station: Option<Station>,
    /// The text of a station file that was refused.
    pub station_text: Option<Vec<u8>>,
    /// What the minutes of a log are to one another that was decoded.
    pub minutes: Option<Minutes>,
}

impl Known {
    /// Nothing.
    pub fn nothing() -> Known
        ensures station { result.station ≡ None }
        ensures text { result.station_text ≡ None }
        ensures minutes { result.minutes ≡ None }
    {
        Known {
            station: None,
            station_text: None,
            minutes: None,
        }
    }

    /// The text of a station file that was refused.
    pub fn of_text(text: Vec<u8>) -> Known
        ensures station { result.station ≡ None }
        ensures text { result.station_text ≡ Some text }
        ensures minutes { result.minutes ≡ None }
    {
        Known {
            station: None,
            station_text: Some(text),
            minutes: None,
        }
    }

    /// What the minutes of a log are to one another.
    pub fn of_minutes(minutes: Minutes) -> Known
        ensures station { result.station ≡ None }
        ensures text { result.station_text ≡ None }
        ensures minutes { result.minutes ≡ Some minutes }
    {
        Known {
            station: None,
            station_text: None,
            minutes: Some(minutes),
        }
    }

    /// The station.
    pub fn of_station(station: Station) -> Known
        ensures station { result.station ≡ Some station }
        ensures text { result.station_text ≡ None }
        ensures minutes { result.minutes ≡ None }
    {
        Known {
            station: Some(station),
            station_text: None,
            minutes: None,
        }
    }
}

/// What came of a command.
#[derive(Drop)]
pub struct Outcome {
    /// What the last line that was written reports.
    pub report: Report,
    /// What is known of its files.
    pub known: Known,
}

impl Outcome {
    ghost use Rattle.command_ends.specs.Reports.{status_in};

    /// The status of the command, whose number is the exit status of the program.
    pub fn status(&self) -> Status
        ensures { result ≡ status_in self.now.report }
    {
        self.report.status()
    }
}
