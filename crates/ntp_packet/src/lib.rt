//! The header of an NTP packet, read from bytes and written to them (RFC 5905, section 7.3), and the protocol's numbers.
#![tactic(auto)]

mod header;
mod protocol;
mod reading;
mod writing;

pub use header::Header;
pub use protocol::{CLIENT, HEADER_LENGTH, PRECISION, PRECISION_UNITS, SERVER, VERSION};
pub use reading::read;
pub use writing::write;
