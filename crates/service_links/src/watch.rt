//! The beginning and the end of a link.
ghost use Rattle.std.specs.Prelude.{◌≡◌, true, false, None};

use crate::Signal;
use std::thread;
use std::time::{Clock, Duration};
use tick_units::Local;

// After how many microseconds of its counter a link looks at its end again.
const LOOK: u64 = 100_000;

// For how many milliseconds a link sleeps between two looks while it waits for its beginning.
const STEP: u64 = 20;

/// What a link looks at: the signals of its beginning and its end. A link that has ended stays ended.
#[derive(Drop)]
pub struct Watch<'a> {
    /// The signal of its beginning, until it has begun.
    begin: Option<&'a Signal>,
    end: Option<&'a Signal>,
    /// The moment at which it last looked.
    looked: u64,
    /// Whether it has ended.
    pub(crate) is_over: bool,
}

impl<'a> Watch<'a> {
    /// A link begins at the one signal and ends at the other. Without them it begins at once, and never ends.
    pub fn new(begin: Option<&'a Signal>, end: Option<&'a Signal>) -> Watch<'a>
        ensures { result ≡ record { begin = begin.entry; end = end.entry; looked = 0; is_over = false } }
    {
        Watch {
            begin,
            end,
            looked: 0,
            is_over: false,
        }
    }

    /// Looks at the end.
    #[inline(never)]
    pub fn look(&mut self)
        ensures { self.old.is_over ≡ true → self.new.is_over ≡ true }
    {
        if let Some(end) = self.end {
            if end.is_given() {
                self.is_over = true;
            }
        }
    }

    /// Looks at the end where the last look lies far enough before this moment.
    pub fn look_when_due(&mut self, at: Local)
        ensures { self.old.is_over ≡ true → self.new.is_over ≡ true }
    {
        let at = at.get();
        if at.saturating_sub(self.looked) >= LOOK {
            self.looked = at;
            self.look();
        }
    }

    // Whether it still has to wait for its beginning.
    fn waits(&self) -> bool {
        match self.begin {
            Some(begin) => !begin.is_given(),
            None => false,
        }
    }

    // Waits for the beginning, or for the end.
    #[cold]
    #[inline(never)]
    fn wait<R: Clock>(&mut self, rt: &R)
        ensures { self.old.is_over ≡ true → self.new.is_over ≡ true }
    {
        for _ in 0..u64::MAX {
            self.look();
            if self.is_over {
                return;
            }
            if !self.waits() {
                self.begin = None;
                return;
            }
            thread::sleep(rt, Duration::from_millis(STEP));
        }
    }

    /// Waits until the link has begun or ended.
    pub fn begin<R: Clock>(&mut self, rt: &R)
        ensures { self.old.is_over ≡ true → self.new.is_over ≡ true }
    {
        if self.begin.is_some() {
            self.wait(rt);
        }
    }

    /// The link has ended.
    pub fn end(&mut self)
        ensures { self.new.is_over ≡ true }
    {
        self.is_over = true;
    }
}
