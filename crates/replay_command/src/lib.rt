//! The command `replay`: plays a recorded script against a station, line by line, on one thread.
//!
//! To read it in this order: `replay` (the command), `player` (what plays a line), `radio`, `radios`, `server`, `servers`, `leap` (the
//! station's feeds), `journal` (what is kept of them), `outcome` and `text` (what a line gives).
#![tactic(auto)]

mod journal;
mod leap;
mod outcome;
mod player;
mod radio;
mod radios;
mod replay;
mod server;
mod servers;
mod text;

pub use outcome::{Invalid, Outcome};
pub use player::Player;
pub use radio_receiver::BoxedReceiver;
pub use replay::{SCRIPT_LIMIT, run_replay};
pub use text::write_outcome;
