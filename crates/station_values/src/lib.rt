//! What a station is: its radios, servers, links, keys and denied nets, within their bounds.
//!
//! To read it in this order: `station` (the public type, and the parts that it is made of), `denied_net`, `shared_key`,
//! `one_of_each` (a station without a file).
#![tactic(auto)]

mod denied_net;
mod one_of_each;
mod shared_key;
mod station;

pub use denied_net::DeniedNet;
pub use shared_key::SharedKey;
pub use station::{LinkRow, Parts, Radio, RadioRow, ServerRow, Station, TopNumbers};
