//! A signal of the supervisor: an end of a pair of streams.

use std::io::{self, ErrorKind, Read};
use std::os::unix::net::UnixStream;

/// An end of a pair of streams. The signal is given once the other end is closed, by its holder or because its holder has died.
#[derive(Drop)]
pub struct Signal {
    stream: UnixStream,
}

impl Signal {
    /// The signal of this end.
    pub fn new(stream: UnixStream) -> io::Result<Signal> {
        stream.set_nonblocking(true)?;
        Ok(Signal { stream })
    }

    /// Whether the signal is given. Nothing that the other end wrote counts.
    pub fn is_given(&self) -> bool {
        let mut piece = [0u8; 64];
        let mut stream = &self.stream;
        match stream.read(&mut piece) {
            Ok(count) => count == 0,
            Err(e) => e.kind() != ErrorKind::WouldBlock && e.kind() != ErrorKind::Interrupted,
        }
    }
}
