//! The note of a run that begins to serve.

use crate::Beginning;
use crate::report::station_of;
use command_words::{Command, read_words};
use station_values::Station;
use std::alloc::{AllocError, Global};
use std::fs::{self, Files};
use std::io::Eprint;
use std::os::unix::fs::FileTypeExt;

// Whether a name is that of a FIFO.
fn is_pipe<R: Files>(rt: &R, name: &str) -> bool {
    match fs::metadata(rt, name) {
        Ok(metadata) => metadata.file_type().is_fifo(),
        Err(_) => false,
    }
}

// The ports of a station's links.
fn ports_of(alloc: Global, station: &Station) -> Result<Vec<u16>, AllocError> {
    let mut ports = Vec::new(alloc);
    for place in 0..station.links() {
        if let Some(link) = station.link(place) {
            ports.push(link.port)?;
        }
    }
    Ok(ports)
}

// The logs of a station's radios that are FIFOs.
fn pipes_of<R: Files + AllocGlobal>(rt: &R, station: &Station) -> Result<Vec<String>, AllocError> {
    let mut pipes = Vec::new(rt.alloc());
    for place in 0..station.radios() {
        if let Some(radio) = station.radio(place) {
            if is_pipe(rt, radio.log) {
                pipes.push(String::from_str(rt.alloc(), radio.log)?)?;
            }
        }
    }
    Ok(pipes)
}

// What a station serves, where its file can be read beforehand.
fn beginning_of<R: Files + AllocGlobal>(rt: &R, name: &str) -> Option<Beginning> {
    let station = station_of(rt, name)?;
    Some(Beginning {
        ports: ports_of(rt.alloc(), &station).ok()?,
        pipes: pipes_of(rt, &station).ok()?,
    })
}

/// Writes on standard error what a run is about to serve and which pipes it waits for, where these arguments ask for `serve` and the
/// station is a file. It is for who starts a run by hand.
pub fn write_beginning<R: Files + AllocGlobal + Eprint>(
    rt: &R,
    texts: &Result<Vec<&str>, AllocError>,
) {
    let Ok(texts) = texts else {
        return;
    };
    if let Ok(Command::Serve { station, .. }) = read_words(rt.alloc(), texts.as_slice()) {
        if let Some(beginning) = beginning_of(rt, station) {
            let _ = eprint!(rt; "{beginning}");
        }
    }
}
