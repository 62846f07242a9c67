//! The servers of the station.
ghost use Rattle.std.specs.Prelude.{◌≡◌, ◌<◌, ◌+◌, ◌++◌, ◌∷◌, [], List, IfOk, OnOk, length, vec_len};
ghost use Rattle.poll_core.specs.Formulas.{request_header};
ghost use Rattle.ntp_packet.specs.Layout.{layout};
ghost use Rattle.journal_entry.specs.Valid.{IsValid};
ghost use Rattle.station_values.specs.Station.{StationFields};
ghost use Rattle.script_line.specs.declared.line.ScriptLine.{ScriptLine};
ghost use Rattle.script_line.specs.declared.line.ScriptLine.TheVariants.{Ask, Answer};
ghost use Rattle.replay_command.specs.Replay.{may_poll, server_of};
ghost use Rattle.replay_command.specs.KeptPlayer.{Gives, HasAnswered, HasServers, IsTimely};

use crate::Invalid;
use crate::server::Server;
use journal_entry::Entry;
use poll_core::Poll;
use station_values::Station;
use std::alloc::{AllocError, Global};
use tick_units::Local;

// The servers of the station. Their numbers begin after those of the radios.
#[derive(Drop)]
pub struct Servers {
    first: u32,
    servers: Vec<Server>,
}

impl Servers {
    // No server yet; their numbers begin here.
    pub fn new(alloc: Global, first: u32) -> Servers
        ensures first { result.first ≡ first }
        ensures none { result.servers.items ≡ [] }
    {
        Servers {
            first,
            servers: Vec::new(alloc),
        }
    }

    // The servers of a station, none of which has been asked yet.
    pub fn add_all(&mut self, station: &Station) -> Result<(), AllocError>
        requires first { self.old.first ≡ length station.now.radios }
        requires none { self.old.servers.items ≡ [] }
        ensures { OnOk result (HasServers self.new station.now []) }
    {
        let count = station.servers();
        self.servers.reserve(count)?;
        let least = Local::new(0).unwrap();
        for place in 0..count {
            let row = station.server(place).unwrap();
            let poll = Poll::new(row.address);
            self.servers
                .push_reserved(Server::new(poll, row.address, least));
        }
        Ok(())
    }

    // The place of a server, where this moment is not below its last one.
    fn place_of(&self, feed: u32, at: Local) -> Result<usize, Invalid>
        ensures valid { (station : StationFields) (lines : List ScriptLine) → HasServers self.now station lines →
            Gives (may_poll (server_of station feed) feed at lines)
            (λ place. feed ≡ length station.radios + place) (Unit {0}) result }
        ensures within { IfOk result (λ place. place < vec_len self.now.servers) }
        ensures place { IfOk result (λ place. feed ≡ self.now.first + place) }
        ensures timely { IfOk result (λ place. IsTimely self.now.servers.items place at) }
    {
        let Some(place) = feed.checked_sub(self.first) else {
            return Err(Invalid);
        };
        let place = place as usize;
        if place >= self.servers.len() {
            return Err(Invalid);
        }
        if at.get() < self.servers[place].last.get() {
            return Err(Invalid);
        }
        Ok(place)
    }

    // A server is asked.
    pub fn ask(&mut self, feed: u32, at: Local) -> Result<[u8; 48], Invalid>
        ensures count { vec_len self.new.servers ≡ vec_len self.old.servers }
        ensures first { self.new.first ≡ self.old.first }
        ensures asked { (station : StationFields) (lines : List ScriptLine) → HasServers self.old station lines →
            Gives (may_poll (server_of station feed) feed at lines)
            (λ _. HasServers self.new station (lines ++ Ask feed at ∷ []))
            (HasServers self.new station lines) result }
        ensures request { IfOk result (λ bytes. bytes ≡ layout (request_header at)) }
    {
        let place = self.place_of(feed, at)?;
        Ok(self.servers[place].ask(at))
    }

    // A datagram comes from a server: the entry that is due to it.
    pub fn answer(&mut self, feed: u32, at: Local, datagram: &[u8]) -> Result<Entry, Invalid>
        ensures count { vec_len self.new.servers ≡ vec_len self.old.servers }
        ensures first { self.new.first ≡ self.old.first }
        ensures answered { (station : StationFields) (lines : List ScriptLine) → HasServers self.old station lines →
            Gives (may_poll (server_of station feed) feed at lines)
            (HasAnswered self.new station lines (Answer feed at datagram.now))
            (HasServers self.new station lines) result }
        ensures valid { IfOk result (λ e. IsValid (self.old.first + vec_len self.old.servers) e) }
    {
        let place = self.place_of(feed, at)?;
        let what = self.servers[place].answer(at, datagram);
        Ok(Entry { feed, at, what })
    }
}
