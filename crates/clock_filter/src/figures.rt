//! What the samples of a source say of the time.
ghost use Rattle.std.specs.Prelude.{◌≡◌, ◌<◌, ◌≤◌, ◌^◌, ◌∷◌, max, length, pos, ◌+ℤ◌, ◌≤ℤ◌, unsigned_abs, slice_get, IfSome};
ghost use Rattle.std.specs.Int.{int_min};
ghost use Rattle.tick_units.specs.Units as units;
ghost use Rattle.clock_filter.specs.Figures as figures;

use crate::Taken;
use tick_units::{Local, Short, Span, phi};

// How many stages the filter has (NSTAGE).
const STAGES: usize = 8;

/// What the samples of a source say of the time.
#[derive(Clone, Copy, Debug, PartialEq, Eq)]
pub struct Figures {
    /// The time since 1900 less the host's counter, by the best sample: the one of least delay.
    pub offset: Span,
    /// The best sample's round-trip delay.
    pub delay: Span,
    /// How far the offset may be from the truth at `newest`, without the delay and the server's own part; at most 16 s.
    pub dispersion: Span,
    /// The mean of the squares of the other samples' distances from the offset, in units of 2^-64 s^2; at most 2^80.
    pub jitter2: u128,
    /// When the best sample was taken.
    pub taken_at: Local,
    /// When the newest sample was taken.
    pub newest: Local,
    /// The server's stratum; 0 for a radio.
    pub stratum: u8,
    /// The server's IPv4 address; 0 for a radio.
    pub address: u32,
    /// The server's own round-trip delay to its reference clock.
    pub root_delay: Short,
    /// The server's own dispersion.
    pub root_disp: Short,
    /// The rate at which the host's counter loses, by the samples: the growth of the offset in a second, in units of 2^-32 s. It
    /// is -2147483 to 2147483 (500 parts per million), and 0 where the samples span less than 30 s.
    pub rate: i32,
}

// MAXDISP of RFC 5905, 16 s: the most that a stage counts as, and what an empty one does.
fn max_dispersion() -> Span
    ensures { result ≡ pos (2 ^ 36) }
{
    Span::from_seconds(16)
}

// The later of two moments.
fn later(one: Local, other: Local) -> Local
    ensures { result ≡ max one other }
{
    if one < other { other } else { one }
}

// The greatest moment.
fn newest_of(best: &Taken, others: &[Taken]) -> Local
    ensures { result ≡ figures.newest_of (best.now ∷ others.now) }
{
    let mut newest = best.at;
    for taken in others {
        newest = later(newest, taken.at);
    }
    newest
}

// A dispersion that has grown by the drift over this many microseconds, at most 16 s.
fn grown(dispersion: Span, microseconds: u64) -> Span
    requires { microseconds < 2 ^ 50 }
    ensures value { result ≡ int_min (pos (2 ^ 36)) (dispersion +ℤ pos (units.phi microseconds)) }
    ensures small { unsigned_abs result < 2 ^ 70 }
    ensures most { result ≤ℤ pos (2 ^ 36) }
{
    let most = max_dispersion();
    // Read for its bound: every span is below 2^70.
    let _size = dispersion.unsigned_abs();
    if dispersion < most {
        most.min(dispersion + phi(microseconds))
    } else {
        most
    }
}

// The dispersion of a stage at a moment.
fn age_of(now: Local, held: &[Taken], stage: usize) -> Span
    ensures value { result ≡ figures.aged now (slice_get held.now stage) }
    ensures small { unsigned_abs result < 2 ^ 70 }
    ensures most { result ≤ℤ pos (2 ^ 36) }
{
    match held.get(stage) {
        Some(taken) => grown(
            taken.sample.dispersion,
            now.get().saturating_sub(taken.at.get()),
        ),
        None => max_dispersion(),
    }
}

// The sum of the stages.
fn dispersion_of(now: Local, held: &[Taken]) -> Span
    ensures value { result ≡ figures.staged 8 now held.now }
    ensures most { result ≤ℤ pos (2 ^ 36) }
{
    let mut sum = Span::from(0);
    for stage in 0..STAGES {
        sum = sum + age_of(now, held, stage).halved_up(stage as u32 + 1);
    }
    sum
}

// The mean of the squares of the distances from the best sample's offset.
fn jitter2_of(best: &Taken, others: &[Taken]) -> u128
    requires { length others.now < 8 }
    ensures value { result ≡ figures.jitter2_of best.now others.now }
    ensures small { result ≤ 2 ^ 80 }
{
    if others.is_empty() {
        return 0;
    }
    let mut sum = 0;
    for taken in others {
        sum += taken.sample.offset.squared_apart(best.sample.offset);
    }
    sum / others.len() as u128
}

/// The figures of samples in order, and of their rate.
#[inline(always)]
pub fn figures_by(rate: i32, held: &[Taken]) -> Option<Figures>
    requires { length held.now ≤ 8 }
    ensures value { result ≡ figures.figures_by rate held.now }
    ensures spread { IfSome result (λ f. f.jitter2 ≤ 2 ^ 80) }
{
    let (best, others) = held.split_first()?;
    let newest = newest_of(best, others);
    Some(Figures {
        offset: best.sample.offset,
        delay: best.sample.delay,
        dispersion: dispersion_of(newest, held),
        jitter2: jitter2_of(best, others),
        taken_at: best.at,
        newest,
        stratum: best.sample.stratum,
        address: best.sample.address,
        root_delay: best.sample.root_delay,
        root_disp: best.sample.root_disp,
        rate,
    })
}
