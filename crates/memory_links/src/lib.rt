//! A log and an output in memory. `drill` reads and writes through them, and so do tests. `calls` says which calls of an object in
//! memory fail.
#![tactic(auto)]

mod calls;
mod memory_sink;
mod sure_source;

pub use calls::Calls;
pub use memory_sink::MemorySink;
pub use sure_source::SureSource;
