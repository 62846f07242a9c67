//! What a station works with: a receiver for each radio, from a rack, and all its logs and links, opened in order and given back.
#![tactic(auto)]

mod fitting;
mod gear;
mod making;
mod opening;
mod rack;
mod returning;

pub use fitting::{fit, fit_radios};
pub use gear::{Gear, Missing};
pub use making::put_in_rack;
pub use opening::open_gear;
pub use rack::{Spare, four_of_each, take_of};
pub use returning::give_back_gear;
