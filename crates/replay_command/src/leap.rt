//! The leap second file of the station.
ghost use Rattle.std.specs.Prelude.{◌≡◌, ◌<◌, ◌+◌, [], List, IfOk, Some};
ghost use Rattle.tick_units.specs.Years.{end_of_supported};
ghost use Rattle.journal_entry.specs.Valid.{IsValid};
ghost use Rattle.station_values.specs.Station.{StationFields};
ghost use Rattle.script_line.specs.declared.line.ScriptLine.{ScriptLine};
ghost use Rattle.script_line.specs.declared.line.ScriptLine.TheVariants.{Leap};
ghost use Rattle.replay_command.specs.Replay.{is_leap_feed, may_announce};
ghost use Rattle.replay_command.specs.KeptPlayer.{Gives, HasLeap, HasReported};

use crate::Invalid;
use journal_entry::{Entry, What};
use station_values::Station;
use tick_units::Local;

// The feed of the leap second file.
#[derive(Drop)]
pub struct LeapFeed {
    // Its number, after those of the radios and of the servers, where the station names such a file.
    number: Option<u32>,
    // The moment of the last leap second that it announced, and 0 at first.
    last: Local,
}

impl LeapFeed {
    // That of a station, before its first leap second.
    pub fn new(station: &Station) -> LeapFeed
        ensures { HasLeap result station.now [] }
    {
        let number = (station.radios() + station.servers()) as u32;
        LeapFeed {
            number: match station.leap_file() {
                Some(_) => Some(number),
                None => None,
            },
            last: Local::new(0).unwrap(),
        }
    }

    // The file announces a leap second: the entry that is due to it.
    pub fn announce(&mut self, feed: u32, at: Local, leap_at: u64) -> Result<Entry, Invalid>
        requires { leap_at < end_of_supported }
        ensures number { self.new.number ≡ self.old.number }
        ensures reported { (station : StationFields) (lines : List ScriptLine) → HasLeap self.old station lines →
            Gives (may_announce (is_leap_feed station feed) feed at lines)
            (HasReported self.new station lines (Leap feed at leap_at)) (HasLeap self.new station lines) result }
        ensures own { IfOk result (λ _. self.old.number ≡ Some feed) }
        ensures valid { IfOk result (λ e. IsValid (feed + 1) e) }
    {
        if self.number != Some(feed) {
            return Err(Invalid);
        }
        if at.get() < self.last.get() {
            return Err(Invalid);
        }
        self.last = at;
        Ok(Entry {
            feed,
            at,
            what: What::Notice(leap_at),
        })
    }
}
