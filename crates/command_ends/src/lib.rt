//! How each command ends: its status, the line that reports it, what came of it; and the station file, for each command that has one.
//!
//! To read it in this order: `ending` (statuses and last lines), `report`, `minutes` and `outcome` (what came of a
//! command), `station_file`.
#![tactic(auto)]

mod ending;
mod minutes;
mod outcome;
mod report;
mod station_file;

pub use ending::page::{Line, finish_page};
pub use ending::status::Status;
pub use ending::subject::Subject;
pub use ending::writing::finish;
pub use ending::{Ending, status_by};
pub use minutes::{MANY_DIFFER, Minutes};
pub use outcome::{Known, Outcome};
pub use report::Report;
pub use station_file::obstacle::{Obstacle, finish_at};
pub use station_file::{STATION_LIMIT, judge, open_station};
