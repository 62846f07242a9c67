//! A scene: a text that says what a run is given, and what it must give. A test is a name and a scene.
//!
//! Each line of a scene begins with a keyword. Other lines, but for empty ones, are refused, so that no line is skipped.
//!
//! | line | meaning |
//! |---|---|
//! | `run ARGUMENTS` | the arguments, divided by spaces; `''` is an empty one |
//! | `file NAME` | a file of this name; the lines below it are its text |
//! | `bytes COUNT file NAME` | how many bytes its text has, on which a test of a bound rests |
//! | `link` | a link; the lines below it are what it receives and when it sends |
//! | `writes`, `begins`, `ends`, `has` | what is written: just the text below it, its beginning, its end, or a part |
//! | `\| TEXT` | a line of a text, with its line feed unless it ends with `\` |
//! | `> ..` | made lines of a text: see `made` |
//! | `line N BEGINNING`, `entries COUNT` | what the line of that number begins with, and how many lines are entries of the journal |
//! | `status NUMBER` | the number of the status, which each scene has |
//! | `at MOMENT` | a moment of the link, which dates what it sends |
//! | `hears COUNT SENDER MOMENT DATAGRAM` | datagrams that the link receives, alike |
//! | `fails opening N`, `fails writing N`, `fails file NAME N`, `fails link N` | that call fails, counted from 1; of the link above |
//! | `gate WORKER PLACE OTHER PLACE TIMES` | the worker waits at the first place until the other has passed the second so often |
//! | `passed` | the gate was passed, and nobody waited in vain |
//! | `sends LINK RECEIVER COUNT` | how many datagrams the link has sent there |
//! | `sent LINK RECEIVER N DATAGRAM` | the datagram of that number that the link has sent there; with ` ..` its beginning |
//! | `not LINK RECEIVER N BEGINNING ..` | that it begins otherwise |
//! | `events LINK KINDS` | what the link has noted: `heard`, `quiet`, `moment`, `sent`, `end` |

use memory_outside::FakeOpen;
use std::alloc::{AllocError, AllocFailed};

mod links;
mod made;
mod play;
mod texts;

pub use play::{outside_of, plays, plays_each_writing, plays_or_wants_memory, written_of};

/// Why a scene isn't played, or not judged to its end.
#[derive(Clone, Copy, Debug, PartialEq, Eq)]
pub enum Unplayed {
    Memory,
    Wrong(&'static str),
}

impl From<AllocError> for Unplayed {
    fn from(_: AllocError) -> Self {
        Unplayed::Memory
    }
}

impl<T: Drop> From<AllocFailed<T>> for Unplayed {
    fn from(_: AllocFailed<T>) -> Self {
        Unplayed::Memory
    }
}

impl From<FakeOpen> for Unplayed {
    fn from(_: FakeOpen) -> Self {
        Unplayed::Memory
    }
}
