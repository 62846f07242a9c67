//! Who gets an answer, and who gets a kiss code (RFC 5905, section 7.4). There are denied nets, and a least gap between the
//! requests of a client.
#![tactic(auto)]

mod gate;
mod judged;
mod nets;
mod table;

pub use gate::{ClientGate, GateOpen};
pub use judged::Judged;
pub use nets::DenyList;
