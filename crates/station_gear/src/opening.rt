//! Opens the logs and links of a station.
ghost use Rattle.std.specs.Prelude.{◌≡◌, ◌≤◌, ◌<◌, [], length, map, vec_capacity, MatchResult, IfOk, is_some};
ghost use Rattle.std.specs.Option.{option_to_list};
ghost use Rattle.station_gear.specs.Gears.{IsEmptyFor, logs_needed, leap_needed, servers_needed, links_needed, wanted_by, log_states, link_states, states_of, numbers_of};
ghost use Rattle.station_gear.specs.Opens.{OpensAll, StopsIn, StopsAt, IsWhole, IsUpTo};

use crate::{Gear, Missing};
use outside_traits::{Failed, Outside};
use station_values::Station;

// Opens the logs of the radios, until one fails.
fn open_logs<O: Outside>(
    outside: &mut O,
    station: &Station,
    logs: &mut Vec<O::Log>,
) -> Result<(), Failed>
    requires none { logs.old.items ≡ [] }
    requires room { length station.now.radios ≤ vec_capacity logs.old }
    ensures opened { MatchResult result
        (λ _. OpensAll (logs_needed station.now) (map O.Log.opening logs.new.items) (log_states
        O.Log.state logs.new.items) (O.state outside.old) (O.state outside.new))
        (λ _. StopsIn (logs_needed station.now) (map O.Log.opening logs.new.items) (log_states
        O.Log.state logs.new.items) (O.state outside.old) (O.state outside.new)) }
    ensures gate { O.gate_out outside.new ≡ O.gate_out outside.old }
{
    while let Some(radio) = station.radio(logs.len()) {
        let Ok(log) = outside.open_log(radio.log) else {
            return Err(Failed);
        };
        logs.push_reserved(log);
    }
    Ok(())
}

// Opens the leap second file, where the station names one.
fn open_leap<O: Outside>(outside: &mut O, station: &Station) -> Result<Option<O::Log>, Failed>
    ensures opened { MatchResult result
        (λ leap. OpensAll (leap_needed station.now) (map O.Log.opening (option_to_list leap)) (log_states
        O.Log.state (option_to_list leap)) (O.state outside.old) (O.state outside.new))
        (λ _. StopsIn (leap_needed station.now) [] [] (O.state outside.old) (O.state outside.new)) }
    ensures named { IfOk result (λ leap. is_some leap ≡ is_some station.now.leap_file) }
    ensures gate { O.gate_out outside.new ≡ O.gate_out outside.old }
{
    let Some(name) = station.leap_file() else {
        return Ok(None);
    };
    match outside.open_log(name) {
        Ok(log) => Ok(Some(log)),
        Err(Failed) => Err(Failed),
    }
}

// Opens a link on a free port for each server, until one fails.
fn open_servers<O: Outside>(
    outside: &mut O,
    station: &Station,
    servers: &mut Vec<O::Net>,
) -> Result<(), Failed>
    requires none { servers.old.items ≡ [] }
    requires room { length station.now.servers ≤ vec_capacity servers.old }
    ensures opened { MatchResult result
        (λ _. OpensAll (servers_needed station.now) (map O.Net.opening servers.new.items) (link_states
        O.Net.state servers.new.items) (O.state outside.old) (O.state outside.new))
        (λ _. StopsIn (servers_needed station.now) (map O.Net.opening servers.new.items) (link_states
        O.Net.state servers.new.items) (O.state outside.old) (O.state outside.new)) }
    ensures gate { O.gate_out outside.new ≡ O.gate_out outside.old }
{
    while servers.len() < station.servers() {
        let Ok(link) = outside.open_link(0, station.start()) else {
            return Err(Failed);
        };
        servers.push_reserved(link);
    }
    Ok(())
}

// Opens the links that a station serves on, until one fails.
fn open_links<O: Outside>(
    outside: &mut O,
    station: &Station,
    links: &mut Vec<O::Net>,
) -> Result<(), Failed>
    requires none { links.old.items ≡ [] }
    requires room { length station.now.links ≤ vec_capacity links.old }
    ensures opened { MatchResult result
        (λ _. OpensAll (links_needed station.now) (map O.Net.opening links.new.items) (link_states
        O.Net.state links.new.items) (O.state outside.old) (O.state outside.new))
        (λ _. StopsIn (links_needed station.now) (map O.Net.opening links.new.items) (link_states
        O.Net.state links.new.items) (O.state outside.old) (O.state outside.new)) }
    ensures gate { O.gate_out outside.new ≡ O.gate_out outside.old }
{
    while let Some(row) = station.link(links.len()) {
        let Ok(link) = outside.open_link(row.port, station.start()) else {
            return Err(Failed);
        };
        links.push_reserved(link);
    }
    Ok(())
}

// A place among those of a station.
fn number(place: usize) -> u32
    requires { place ≤ 16 }
    ensures { result ≡ place }
{
    place as u32
}

/// Opens the logs of a station's radios by their names, then its leap second file. Then it opens a link on a free port for each
/// of its servers, and the links that the station serves on. Each kind is in the station's order; the moments of all links count
/// from the station's start. It stops at the first that cannot be opened: those opened before it are in the gear.
pub fn open_gear<O: Outside>(
    outside: &mut O,
    station: &Station,
    gear: &mut Gear<O::Log, O::Net>,
) -> Result<(), Missing>
    requires { IsEmptyFor station.now gear.old }
    ensures opened { MatchResult result
        (λ _. OpensAll (wanted_by station.now) (numbers_of O.Log.opening
        O.Net.opening gear.new) (states_of O.Log.state
        O.Net.state gear.new) (O.state outside.old) (O.state outside.new))
        (λ missing. StopsAt station.now missing (numbers_of O.Log.opening
        O.Net.opening gear.new) (states_of O.Log.state
        O.Net.state gear.new) (O.state outside.old) (O.state outside.new)) }
    ensures places { MatchResult result (λ _. IsWhole station.now gear.new)
        (λ missing. IsUpTo station.now missing gear.new) }
    ensures gate { O.gate_out outside.new ≡ O.gate_out outside.old }
{
    let radios = station.radios();
    if let Err(Failed) = open_logs(outside, station, &mut gear.logs) {
        return Err(Missing::Feed(number(gear.logs.len())));
    }
    match open_leap(outside, station) {
        Ok(leap) => gear.leap = leap,
        Err(Failed) => return Err(Missing::LeapFile),
    }
    if let Err(Failed) = open_servers(outside, station, &mut gear.servers) {
        return Err(Missing::Feed(number(radios + gear.servers.len())));
    }
    if let Err(Failed) = open_links(outside, station, &mut gear.links) {
        return Err(Missing::Link(number(gear.links.len())));
    }
    Ok(())
}
