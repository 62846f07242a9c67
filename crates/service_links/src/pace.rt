//! When a link asks its server.
ghost use Rattle.std.specs.Prelude.{◌≡◌, ◌==◌, ◌-◌, ◌<◌, length, None, Some, nat_lt, if◌then◌else◌};
ghost use Rattle.ntp_packet.specs.Layout.{fields};
ghost use Rattle.service_links.specs.Paces.{kiss_in, kiss_with, kiss_by, pace_at, wait_at, asked_at, slowed_at, doubled, new_pace};

use ntp_packet::{Header, SERVER, read};
use tick_units::{Local, Stamp};

// Microseconds in a second.
const SECOND: u64 = 1_000_000;

// How many requests need not wait at the beginning.
const FREE: u8 = 4;

// The pace after a first `RATE` where none was given: the least interval between polls (RFC 5905, section 7.3).
const LEAST_RAISED: u64 = 16 * SECOND;

// No `RATE` makes the pace greater.
const MOST_RAISED: u64 = 1_024 * SECOND;

// After how long without a `RATE` the pace is the given one again.
const RAISED_FOR: u64 = 4 * 3_600 * SECOND;

// Reference IDs of kiss codes (RFC 5905, section 7.4).
const RATE: u32 = 0x5241_5445;

const DENY: u32 = 0x4445_4e59;

const RSTR: u32 = 0x5253_5452;

/// What a server says of the requests of its client.
#[derive(Clone, Copy, Debug, PartialEq, Eq)]
pub enum Kiss {
    /// They come too often.
    Slower,
    /// None is wanted.
    Never,
}

// The kiss code with this reference ID.
fn kiss_by(refid: u32) -> Option<Kiss>
    ensures { result ≡ kiss_by refid }
{
    match refid {
        RATE => Some(Kiss::Slower),
        DENY | RSTR => Some(Kiss::Never),
        _ => None,
    }
}

// The kiss code of a header.
fn kiss_with(header: &Header, asked: Stamp) -> Option<Kiss>
    ensures { result ≡ kiss_with header.now asked }
{
    if header.mode != SERVER || header.stratum != 0 || header.origin.0 != asked.0 {
        return None;
    }
    kiss_by(header.refid)
}

/// The kiss code of a datagram to the request with this transmit timestamp (RFC 5905, section 7.4).
pub fn kiss_of(bytes: &[u8], asked: Stamp) -> Option<Kiss>
    ensures { result ≡ kiss_in bytes.now asked }
{
    match read(bytes) {
        Some(header) => kiss_with(&header, asked),
        None => None,
    }
}

/// The transmit timestamp of a request, where it has one.
pub fn stamp_of(request: &[u8]) -> Option<Stamp>
    ensures { result ≡ if nat_lt (length request.now) 48 then None else Some (fields request.now).transmit }
{
    match read(request) {
        Some(header) => Some(header.transmit),
        None => None,
    }
}

/// The pace of the requests of a link to its server.
#[derive(Clone, Copy, Debug, PartialEq, Eq)]
pub struct Pace {
    /// The given pace in microseconds.
    given: u64,
    /// The pace that a `RATE` asked for, and when.
    raised: u64,
    raised_at: Option<u64>,
    /// How many requests need not wait.
    free: u8,
    /// When the last request was made.
    asked: Option<u64>,
}

impl Pace {
    /// So many seconds between two requests, after four that need not wait.
    pub fn new(seconds: u16) -> Pace
        ensures { result ≡ new_pace seconds }
    {
        Pace {
            given: u64::from(seconds) * SECOND,
            raised: 0,
            raised_at: None,
            free: FREE,
            asked: None,
        }
    }

    /// The microseconds between two requests at this moment.
    pub fn at(&self, moment: Local) -> u64
        ensures { result ≡ pace_at self.now moment }
    {
        match self.raised_at {
            Some(at) => {
                if moment.get().saturating_sub(at) < RAISED_FOR {
                    self.raised
                } else {
                    self.given
                }
            }
            None => self.given,
        }
    }

    /// For how many microseconds the next request has to wait at this moment.
    pub fn wait(&self, moment: Local) -> u64
        ensures { result ≡ wait_at self.now moment }
    {
        match self.asked {
            Some(asked) => self.wait_after(moment, asked),
            None => 0,
        }
    }

    // The same after a request at a moment.
    fn wait_after(&self, moment: Local, asked: u64) -> u64
        ensures { result ≡ if self.now.free == 0 then pace_at self.now moment - (moment - asked) else 0 }
    {
        if self.free != 0 {
            return 0;
        }
        let passed = moment.get().saturating_sub(asked);
        self.at(moment).saturating_sub(passed)
    }

    /// A request is made at this moment.
    pub fn ask(&mut self, moment: Local)
        ensures { self.new ≡ asked_at self.old moment }
    {
        self.asked = Some(moment.get());
        self.free = self.free.saturating_sub(1);
    }

    /// The server says at this moment that requests come too often.
    pub fn slow_down(&mut self, moment: Local)
        ensures { self.new ≡ slowed_at self.old moment }
    {
        self.raised = double(self.at(moment));
        self.raised_at = Some(moment.get());
        self.free = 0;
    }
}

// The pace after a `RATE`.
fn double(pace: u64) -> u64
    ensures { result ≡ doubled pace }
{
    let doubled = if pace == 0 {
        LEAST_RAISED
    } else {
        pace.saturating_mul(2)
    };
    doubled.min(MOST_RAISED).max(pace)
}
