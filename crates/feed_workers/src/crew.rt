//! What a station is served for, and what was done.

use crate::{LogWork, PollWork};
use responder::Served;

/// How many hearings each responder makes in each phase: beside the feeds' workers, and after them.
#[derive(Clone, Copy, Debug, PartialEq, Eq)]
pub struct Budget {
    pub during: u64,
    pub after: u64,
}

/// The bounds of a station's run: how many entries its journal may have, and how many hearings its links have in each phase.
#[derive(Clone, Copy)]
pub struct Orders {
    pub limit: u32,
    pub budget: Budget,
}

/// What the responder of a link did in each phase. There is no second one where the first ended with the link or by its fault.
#[derive(Clone, Copy, Debug, PartialEq, Eq)]
pub struct LinkWork {
    pub first: Served,
    pub second: Option<Served>,
}

/// What the workers of a station did, of each kind in the station's order: with its radios' logs, its servers, its leap second
/// file and its links.
#[derive(Drop)]
pub struct Work {
    pub radios: Vec<LogWork>,
    pub servers: Vec<PollWork>,
    pub leap: Option<LogWork>,
    pub links: Vec<LinkWork>,
}
