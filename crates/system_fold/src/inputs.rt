//! The page inputs: what makes a page besides the sources that are left, and the moment at which it ends.
ghost use Rattle.std.specs.Prelude.{◌≡◌, ◌+◌, ◌*◌, ◌^◌, ◌<◌, ◌≤◌, false, nat_lt};
ghost use Rattle.tick_units.specs.Units.{phi};
ghost use Rattle.clock_page.specs.Page.{unsynchronised};
ghost use Rattle.system_fold.specs.Ends.{IsLeast, is_above, lasts};
ghost use Rattle.system_fold.specs.Fields as pages;
ghost use Rattle.system_fold.specs.Inputs.{AreBounded, until_of};

use crate::leaps::Leap;
use clock_page::Page;
use tick_units::{DRIFT_MICROSECONDS, DRIFT_UNITS, Local, Short};

/// What makes a page besides the sources that are left.
#[derive(Clone, Copy)]
pub struct PageInputs {
    /// The number of entries of the journal.
    pub length: u64,
    /// The greatest moment of its entries.
    pub moment: Local,
    /// The root dispersion above which the page is not trusted, in units of 2^-32 s.
    pub bound: u64,
    /// The leap second that is still to come.
    pub armed: Option<Leap>,
}

// A short in units of 2^-32 s.
fn units_of(short: Short) -> u64
    ensures value { result ≡ short.0 * 65536 }
    ensures small { result < 2 ^ 48 }
{
    u64::from(short.0) << 16
}

// The least number of microseconds after which the drift of the host's counter takes a dispersion above a bound.
fn first_above(bound: u64, dispersion: u64) -> u64
    requires within { dispersion ≤ bound }
    requires most { bound ≤ 2 ^ 36 }
    ensures least { IsLeast (λ h. nat_lt bound (dispersion + phi h)) result }
    ensures small { result < 2 ^ 41 }
{
    (bound - dispersion) * DRIFT_MICROSECONDS / DRIFT_UNITS + 1
}

impl PageInputs {
    /// The page where no source gives the time.
    pub fn unsynchronised(&self) -> Page
        ensures { result ≡ unsynchronised self.now.length self.now.moment }
    {
        Page::unsynchronised(self.length, self.moment)
    }

    /// Whether a root dispersion is above the bound.
    pub fn is_above(&self, root_disp: Short) -> bool
        ensures { result ≡ is_above self.now.bound root_disp.0 0 }
    {
        self.bound < units_of(root_disp)
    }

    // For how many microseconds a page of this root dispersion is trusted.
    fn lasts(&self, root_disp: Short) -> u64
        requires bounded { AreBounded self.now }
        requires within { is_above self.now.bound root_disp.0 0 ≡ false }
        ensures value { result ≡ lasts self.now.bound root_disp.0 }
        ensures least { IsLeast (is_above self.now.bound root_disp.0) result }
        ensures small { result < 2 ^ 41 }
    {
        first_above(self.bound, units_of(root_disp))
    }

    /// The moment at which a page of this root dispersion ends: where that passes the bound, or at the next leap second if it is
    /// sooner.
    pub fn until(&self, root_disp: Short) -> u64
        requires bounded { AreBounded self.now }
        requires within { is_above self.now.bound root_disp.0 0 ≡ false }
        ensures { result ≡ until_of self.now root_disp.0 }
    {
        let end = self.moment.get() + self.lasts(root_disp);
        match &self.armed {
            Some(leap) if leap.moment < u128::from(end) => leap.moment as u64,
            _ => end,
        }
    }

    /// The second at which the next leap second ends, and 0 where there is none.
    pub fn leap_second(&self) -> u64
        ensures { result ≡ pages.leap_second self.now.armed }
    {
        match &self.armed {
            Some(leap) => leap.leap_at,
            None => 0,
        }
    }
}
