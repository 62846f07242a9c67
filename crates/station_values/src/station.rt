//! A station, and the parts that it is made of.
ghost use Rattle.std.specs.Prelude.{◌≡◌, ◌≤◌, ◌+◌, ◌++◌, option_map, length, map, string_bytes};
ghost use Rattle.std.specs.List.{slice_get};
ghost use Rattle.packet_auth.specs.Keys.{AreApart, keys_of};
ghost use Rattle.kiss_gate.specs.Nets.{nets_of};
ghost use Rattle.system_fold.specs.Settings.{AreValid};
ghost use Rattle.station_values.specs.Station.{IsStation, kind_of_radio, kind_of_server, leap_feeds, one_of_each, settings_of};
ghost use Rattle.station_values.specs.KeptStation.{key_kept, net_kept, parts_fields, radio_given, radio_kept, server_fields};

use crate::denied_net::DeniedNet;
use crate::shared_key::SharedKey;
use kiss_gate::DenyList;
use outside_traits::Address;
use packet_auth::KeyRing;
use std::marker::Model;
use system_fold::{Settings, SourceKind};
use tick_units::{Local, Plan};

/// A radio of a station.
#[derive(Clone, Copy, Debug)]
pub struct RadioRow<'a> {
    /// Its code plan.
    pub plan: Plan,
    /// The name of its log, which is not empty.
    pub log: &'a str,
    /// The delay from the sender to the receiver in microseconds, 0 to 100000.
    pub delay: u32,
}

/// A server of a station.
#[derive(Clone, Copy, Debug, PartialEq, Eq)]
pub struct ServerRow {
    /// Its address and port. The port is 1 to 65535.
    pub address: Address,
    /// How many times it is asked, 0 to 100000.
    pub polls: u32,
}

/// A link that a station serves on.
#[derive(Clone, Copy, Debug, PartialEq, Eq)]
pub struct LinkRow {
    /// Its port, 1 to 65535.
    pub port: u16,
}

/// A radio as a station keeps it.
#[derive(Debug, Drop)]
pub struct Radio {
    /// Its code plan.
    pub plan: Plan,
    /// The name of its log, which is not empty.
    pub log: String,
    /// The delay from the sender to the receiver in microseconds, 0 to 100000.
    pub delay: u32,
}

/// The numbers of a station file's top table.
#[derive(Clone, Copy, Debug)]
pub struct TopNumbers {
    /// The root dispersion above which a page is not trusted, 1 to 16000 milliseconds.
    pub bound: u32,
    /// The first moment of the links, at most 2^49 microseconds.
    pub start: Local,
    /// The least gap between the requests of a client, at most 60000000 microseconds; 0 sets none.
    pub gap: u64,
    /// How many clients a link remembers, 1 to 65536.
    pub clients: u32,
}

impl TopNumbers {
    // Those that a file has by default.
    pub(crate) fn by_default() -> TopNumbers
        ensures { result ≡ one_of_each.top }
    {
        TopNumbers {
            bound: 1000,
            start: Local::new(0).unwrap(),
            gap: 0,
            clients: 1024,
        }
    }
}

/// What a station is made of. It has no `Debug`, so that no text contains a secret.
#[derive(Drop)]
pub struct Parts {
    pub top: TopNumbers,
    /// At most 4 of each plan. Radios, servers and the leap second file are at most 16.
    pub radios: Vec<Radio>,
    pub servers: Vec<ServerRow>,
    /// The name of its leap second file, which is not empty.
    pub leap_file: Option<String>,
    /// At most 8.
    pub links: Vec<LinkRow>,
    /// At most 8, of which no two have the same number.
    pub keys: Vec<SharedKey>,
    /// At most 16.
    pub deny: Vec<DeniedNet>,
}

// The feeds of the radios.
fn add_radios(settings: &mut Settings, radios: &[Radio])
    requires { length settings.old.sources + length radios.now ≤ 16 }
    ensures { settings.new ≡
        record settings.old { sources = settings.old.sources ++ map (λ r. kind_of_radio (radio_kept r)) radios.now } }
{
    for radio in radios {
        settings.add(SourceKind::Radio(radio.plan));
    }
}

// The feeds of the servers.
fn add_servers(settings: &mut Settings, servers: &[ServerRow])
    requires { length settings.old.sources + length servers.now ≤ 16 }
    ensures { settings.new ≡ record settings.old {
      sources = settings.old.sources ++ map
          (λ s. kind_of_server (server_fields s)) servers.now;
    } }
{
    for server in servers {
        settings.add(SourceKind::Server(server.address));
    }
}

// The feed of the leap second file, where there is one.
fn add_leap(settings: &mut Settings, leap_file: &Option<String>)
    requires { length settings.old.sources + length (leap_feeds (option_map string_bytes leap_file.now)) ≤ 16 }
    ensures { settings.new ≡
        record settings.old { sources = settings.old.sources ++ leap_feeds (option_map string_bytes leap_file.now) } }
{
    if leap_file.is_some() {
        settings.add(SourceKind::Leap);
    }
}

// The ring of keys.
fn ring_of(keys: &[SharedKey]) -> KeyRing
    requires most { length keys.now ≤ 8 }
    requires apart { AreApart (map key_kept keys.now) }
    ensures { keys_of result ≡ map key_kept keys.now }
{
    let mut ring = KeyRing::new();
    for key in keys {
        ring.add(key.id, key.secret.as_bytes());
    }
    ring
}

// The list of these nets.
fn deny_list(nets: &[DeniedNet]) -> DenyList
    requires { length nets.now ≤ 16 }
    ensures { nets_of result ≡ map net_kept nets.now }
{
    let mut list = DenyList::new();
    for net in nets {
        list.add(net.address, net.bits);
    }
    list
}

/// A station: its radios, its servers, its leap second file, its links, the keys that it shares with its clients, and the nets
/// that it denies. Contracts see it as a record of these.
#[derive(Drop)]
pub struct Station {
    settings: Settings,
    denied: DenyList,
    parts: Parts,
}

impl Model for Station {
    ghost use Rattle.station_values.specs.Station.{StationFields};
    ghost use Rattle.station_values.specs.KeptStation.{IsInside, parts_fields};

    ghost Value = { StationFields };

    ghost view = { λ s. parts_fields s.parts };

    ghost invariant = { λ s. IsInside s.settings s.denied (parts_fields s.parts) };
}

impl Station {
    /// The station of these parts, which are within its bounds.
    pub fn new(parts: Parts) -> Station
        requires { IsStation (parts_fields parts) }
        ensures { result ≡ parts_fields parts }
    {
        let mut settings = Settings::new(parts.top.bound);
        add_radios(&mut settings, parts.radios.as_slice());
        add_servers(&mut settings, parts.servers.as_slice());
        add_leap(&mut settings, &parts.leap_file);
        let denied = deny_list(parts.deny.as_slice());
        Station {
            settings,
            denied,
            parts,
        }
    }

    /// The settings for a page of the station's feeds: the bound of its root dispersion, and as sources its radios, then its
    /// servers and then its leap second file.
    pub fn settings(&self) -> &Settings
        ensures value { result.now ≡ settings_of self.now }
        ensures valid { AreValid result.now }
        ensures bounds { IsStation self.now }
    {
        &self.settings
    }

    /// The first moment of its links, at most 2^49 microseconds.
    pub fn start(&self) -> Local
        ensures value { result ≡ self.now.top.start }
        ensures bounds { IsStation self.now }
    {
        self.parts.top.start
    }

    /// The number of its radios.
    pub fn radios(&self) -> usize
        ensures value { result ≡ length self.now.radios }
        ensures bounds { IsStation self.now }
    {
        self.parts.radios.len()
    }

    /// The number of its servers.
    pub fn servers(&self) -> usize
        ensures value { result ≡ length self.now.servers }
        ensures bounds { IsStation self.now }
    {
        self.parts.servers.len()
    }

    /// The number of the links that it serves on.
    pub fn links(&self) -> usize
        ensures value { result ≡ length self.now.links }
        ensures bounds { IsStation self.now }
    {
        self.parts.links.len()
    }

    /// The name of its leap second file, which is not empty. `None` exactly where the station names none.
    pub fn leap_file(&self) -> Option<&str>
        ensures value { option_map (λ name. name.now) result ≡ self.now.leap_file }
        ensures bounds { IsStation self.now }
    {
        match &self.parts.leap_file {
            Some(name) => Some(name.as_str()),
            None => None,
        }
    }

    /// The keys that it shares with its clients.
    pub fn keys(&self) -> KeyRing
        ensures value { keys_of result ≡ self.now.keys }
        ensures bounds { IsStation self.now }
    {
        ring_of(self.parts.keys.as_slice())
    }

    /// The least gap between the requests of a client in microseconds, 0 to 60000000; 0 sets none.
    pub fn gap(&self) -> u64
        ensures value { result ≡ self.now.top.gap }
        ensures bounds { IsStation self.now }
        ensures most { result ≤ 60000000 }
    {
        self.parts.top.gap
    }

    /// How many clients a link remembers, 1 to 65536.
    pub fn clients(&self) -> u32
        ensures value { result ≡ self.now.top.clients }
        ensures bounds { IsStation self.now }
        ensures least { 1 ≤ result }
        ensures most { result ≤ 65536 }
    {
        self.parts.top.clients
    }

    /// The nets whose clients it denies, at most 16.
    pub fn deny(&self) -> &DenyList
        ensures value { nets_of result.now ≡ self.now.deny }
        ensures bounds { IsStation self.now }
    {
        &self.denied
    }

    /// The radio at a place, from 0. `None` exactly where the place is not below the number of radios.
    pub fn radio(&self, i: usize) -> Option<RadioRow<'_>>
        ensures { option_map radio_given result ≡ slice_get self.now.radios i }
    {
        match self.parts.radios.get(i) {
            Some(radio) => Some(RadioRow {
                plan: radio.plan,
                log: radio.log.as_str(),
                delay: radio.delay,
            }),
            None => None,
        }
    }

    /// The server at a place, from 0. `None` exactly where the place is not below the number of servers.
    pub fn server(&self, i: usize) -> Option<ServerRow>
        ensures { option_map server_fields result ≡ slice_get self.now.servers i }
    {
        self.parts.servers.get(i).copied()
    }

    /// The link at a place, from 0. `None` exactly where the place is not below the number of links.
    pub fn link(&self, i: usize) -> Option<LinkRow>
        ensures { option_map (λ l. l.port) result ≡ slice_get self.now.links i }
    {
        self.parts.links.get(i).copied()
    }
}
