//! Keys that a server shares with its clients, and the digests that they make of packets (RFC 5905, section 7.3; MD5 is RFC 1321).
#![tactic(auto)]

mod comparing;
mod key;
mod lookup;
mod ring;

pub use ring::{KeyRing, SEALED_LENGTH};
