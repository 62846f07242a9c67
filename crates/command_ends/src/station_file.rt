//! The station file: opens it, reads it whole, gives it back, and checks its station.
ghost use Rattle.std.specs.Prelude.{◌≡◌, ◌≤◌, [], MatchResult, vec_capacity};
ghost use Rattle.file_reader.specs.declared.reader.FileEnd.TheVariants.{Whole};
ghost use Rattle.command_ends.specs.Keeping.{TriesStation};
ghost use Rattle.command_ends.specs.StationFile.{IsObstacle};
ghost use Rattle.station_reader.specs.Faults.{Says};

pub mod obstacle;

use crate::ending::Ending;
use crate::ending::subject::Subject;
use file_reader::{FileEnd, read_whole};
use obstacle::Obstacle;
use outside_traits::{Failed, Outside};
use station_reader::{StationFault, read_station};
use station_values::Station;
use std::alloc::Global;

/// The most bytes of a station file.
pub const STATION_LIMIT: usize = 1 << 16;

/// Opens a station file, reads it whole into a text for which there is room, and gives it back. The answer is how the reading
/// ended.
///
/// # Errors
/// The opening failed.
pub fn open_station<O: Outside>(
    name: &str,
    text: &mut Vec<u8>,
    outside: &mut O,
) -> Result<FileEnd, Failed>
    requires empty { text.old.items ≡ [] }
    requires room { 65536 ≤ vec_capacity text.old }
    ensures gate { O.gate_out outside.new ≡ O.gate_out outside.old }
    ensures tried { TriesStation name.now (O.state outside.old) (O.state outside.new) text.new.items result }
{
    let Ok(mut file) = outside.open_log(name) else {
        return Err(Failed);
    };
    let end = read_whole(&mut file, STATION_LIMIT, text);
    outside.give_back_log(file);
    Ok(end)
}

/// The station of a file whose reading ended in this way.
///
/// # Errors
/// What keeps it from being used.
pub fn judge(alloc: Global, end: FileEnd, text: &[u8]) -> Result<Station, Obstacle>
    ensures { MatchResult result (λ of. (end ≡ Whole) × Says text.now of)
        (λ obstacle. IsObstacle end text.now obstacle) }
{
    match end {
        FileEnd::Whole => match read_station(alloc, text) {
            Ok(station) => Ok(station),
            Err(StationFault::Memory) => Err(Obstacle::Ends(Ending::NoMemory)),
            Err(fault) => Err(Obstacle::Faulty(fault)),
        },
        FileEnd::TooLong => Err(Obstacle::Ends(Ending::Long(Subject::Station))),
        FileEnd::Fault => Err(Obstacle::Ends(Ending::NotRead(Subject::Station))),
    }
}
