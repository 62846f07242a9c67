//! What a station calls its feeds and links.

use crate::texts::write_texts;
use command_ends::Subject;
use station_values::Station;
use std::fmt;
use std::net::Ipv4Addr;

// Writes the address of a server, or else the name of the leap second file, which comes after the servers.
fn write_server<W: fmt::Write>(
    station: &Station,
    place: usize,
    f: &mut fmt::Formatter<W>,
) -> fmt::Result {
    match (station.server(place), station.leap_file()) {
        (Some(server), _) => {
            let ip = Ipv4Addr::from_bits(server.address.ip);
            let port = server.address.port;
            write!(f, " ({ip} port {port})")
        }
        (None, Some(name)) => write_texts(f, " (", name, ")"),
        (None, None) => Ok(()),
    }
}

// Writes the name of a radio's log, or what comes after the radios.
fn write_feed<W: fmt::Write>(
    station: &Station,
    place: usize,
    f: &mut fmt::Formatter<W>,
) -> fmt::Result {
    match station.radio(place) {
        Some(radio) => write_texts(f, " (", radio.log, ")"),
        None => write_server(station, place.saturating_sub(station.radios()), f),
    }
}

// Writes the port of a link.
fn write_link<W: fmt::Write>(
    station: &Station,
    place: usize,
    f: &mut fmt::Formatter<W>,
) -> fmt::Result {
    match station.link(place) {
        Some(link) => {
            let port = link.port;
            write!(f, " (port {port})")
        }
        None => Ok(()),
    }
}

/// Writes what a station calls a feed or a link, in brackets: the name of its file, its address, or its port. Other files it does not
/// name.
pub fn write_name<W: fmt::Write>(
    station: &Station,
    subject: Subject,
    f: &mut fmt::Formatter<W>,
) -> fmt::Result {
    match subject {
        Subject::Feed(number) => write_feed(station, number as usize, f),
        Subject::Link(number) => write_link(station, number as usize, f),
        Subject::Station | Subject::Script | Subject::Journal => Ok(()),
    }
}

/// Whether a station's feed is its leap second file, which comes after the radios and servers.
pub fn is_leap_file(station: &Station, subject: Subject) -> bool {
    match subject {
        Subject::Feed(number) => {
            number as usize == station.radios().saturating_add(station.servers())
        }
        _ => false,
    }
}

/// The name of the file of a feed: a radio's log or the leap second file. A server has none.
pub fn file_of(station: &Station, subject: Subject) -> Option<&str> {
    match subject {
        Subject::Feed(_) if is_leap_file(station, subject) => station.leap_file(),
        Subject::Feed(number) => Some(station.radio(number as usize)?.log),
        _ => None,
    }
}
