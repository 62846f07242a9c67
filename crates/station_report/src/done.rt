//! What is left after a station's run.
ghost use Rattle.std.specs.Prelude.{◌≡◌};
ghost use Rattle.station_values.specs.Station.{leap_feed};

use feed_workers::Work;
use station_values::Station;
use verdict_journal::Journal;

/// What the workers of a station have left, once its logs and links are given back.
#[derive(Drop)]
pub struct Done {
    pub journal: Journal,
    pub work: Work,
}

/// The number of the leap second file's feed, which follows the servers.
pub fn leap_feed(station: &Station) -> u32
    ensures { result ≡ leap_feed station.now }
{
    (station.radios() + station.servers()) as u32
}
