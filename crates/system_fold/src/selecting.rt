//! The sources that agree.
ghost use Rattle.std.specs.Prelude.{◌≡◌, ◌≤◌, ◌<◌, ◌^◌, ◌-ℤ◌, ◌≤ℤ◌, ◌==◌, ◌+◌, ◌++◌, ◌∷◌, [], Some, pos, List, All, find, length, map, slice_get, option_map, IsTrue, IfSome};
ghost use Rattle.std.specs.List.{cons_option};
ghost use Rattle.cluster_core.specs.Bounds.{IsWeighable};
ghost use Rattle.select_core.specs.Selection.{are_measured, chime_of, is_in, is_measured};
ghost use Rattle.system_fold.specs.Fields.{fresh_of};
ghost use Rattle.system_fold.specs.Fit.{AreUpward, IsFit};
ghost use Rattle.system_fold.specs.Selecting as selecting;
ghost use Rattle.system_fold.specs.declared.source.Source.{Source};

use crate::moments::{beginning, later};
use crate::source::Source;
use arrayvec::ArrayVec;
use cluster_core::{Survivor, Survivors};
use select_core::{Candidate, Chime, select};
use tick_units::Local;

/// What the selection receives of a source.
pub fn candidate_of(source: &Source, now: Local) -> Candidate
    requires { IsFit now source.now }
    ensures value { result ≡ selecting.candidate_of now source.now }
    ensures measured { IsTrue (is_measured result) }
{
    Candidate {
        feed: source.feed,
        offset: source.figures.get().offset,
        distance: source.figures.distance(now),
    }
}

// What the selection receives of the sources that are fit.
fn candidates_of(fit: &[Source], now: Local) -> ArrayVec<Candidate, 16>
    requires few { length fit.now ≤ 16 }
    requires fit { All (IsFit now) fit.now }
    ensures value { result.items ≡ map (selecting.candidate_of now) fit.now }
    ensures measured { IsTrue (are_measured result.items) }
{
    let mut candidates = ArrayVec::new();
    for source in fit {
        candidates.push(candidate_of(source, now));
    }
    candidates
}

/// The interval that enough sources agree on.
pub fn agreed(fit: &[Source], now: Local) -> Option<Chime>
    requires few { length fit.now ≤ 16 }
    requires fit { All (IsFit now) fit.now }
    ensures chime { result ≡ chime_of (map (selecting.candidate_of now) fit.now) }
    ensures narrow { IfSome result (λ chime. (chime.high -ℤ chime.low) ≤ℤ pos (2 ^ 33)) }
{
    select(candidates_of(fit, now).as_slice())
}

// What the clustering receives of a source.
fn survivor_of(source: &Source, now: Local) -> Survivor
    requires { IsFit now source.now }
    ensures value { result ≡ selecting.survivor_of now source.now }
    ensures measured { IsWeighable result }
{
    Survivor {
        feed: source.feed,
        stratum: source.figures.get().stratum,
        distance: source.figures.distance(now),
        offset: source.figures.get().offset,
        jitter2: source.figures.get().jitter2,
    }
}

// Adds a source to the survivors, where its offset lies in the interval.
fn add_if_in(survivors: &mut Survivors, chime: &Chime, source: &Source, now: Local)
    requires room { length survivors.old < 16 }
    requires fit { IsFit now source.now }
    ensures value { survivors.new ≡ survivors.old ++ selecting.survivors_in (Some chime.now) now (source.now ∷ []) }
    ensures measured { All IsWeighable survivors.old → All IsWeighable survivors.new }
    ensures few { length survivors.new ≤ length survivors.old + 1 }
{
    if chime.holds(source.figures.get().offset) {
        survivors.add(survivor_of(source, now));
    }
}

/// Adds the sources whose offset lies in the interval to survivors, of which there are none yet.
pub fn add_survivors(survivors: &mut Survivors, chime: &Chime, fit: &[Source], now: Local)
    requires none { survivors.old ≡ [] }
    requires few { length fit.now ≤ 16 }
    requires fit { All (IsFit now) fit.now }
    ensures value { survivors.new ≡ selecting.survivors_in (Some chime.now) now fit.now }
    ensures measured { All IsWeighable survivors.new }
{
    for source in fit {
        add_if_in(survivors, chime, source, now);
    }
}

/// Of the sources of survivors, in their order: the first, and the moment of the newest sample of all.
#[derive(Clone, Copy)]
pub struct Left<'a> {
    pub peer: Option<&'a Source>,
    pub fresh: Local,
}

// The source of a feed.
fn source_at(fit: &[Source], feed: u32) -> Option<&Source>
    ensures { option_map (λ s. s.now) result ≡ find (λ s. s.feed == feed) fit.now }
{
    let mut further = fit;
    'sources: while let [source, more @ ..] = further {
        if source.feed == feed {
            return Some(source);
        }
        further = more;
    }
    None
}

// The source of a feed, where the sources are in the order of their feeds. Where each lesser feed has a source, that of a feed is
// at the feed's number.
fn source_of(fit: &[Source], feed: u32) -> Option<&Source>
    requires { AreUpward fit.now }
    ensures { option_map (λ s. s.now) result ≡ find (λ s. s.feed == feed) fit.now }
{
    let place = feed as usize;
    if place < fit.len() {
        let source = &fit[place];
        if source.feed == feed {
            return Some(source);
        }
    }
    source_at(fit, feed)
}

// The first of two sources, where there is one.
fn first_of<'a>(first: Option<&'a Source>, next: Option<&'a Source>) -> Option<&'a Source>
    ensures { (xs : List Source) → option_map (λ s. s.now) first.entry ≡ slice_get xs 0 →
        option_map (λ s. s.now) result ≡ slice_get (xs ++ cons_option (option_map (λ s. s.now) next.entry) []) 0 }
{
    match first {
        Some(source) => Some(source),
        None => next,
    }
}

// The later of a moment and that of a source's newest sample, if there is a source.
fn fresher(fresh: Local, source: Option<&Source>) -> Local
    ensures { (xs : List Source) → fresh ≡ fresh_of xs →
        result ≡ fresh_of (xs ++ cons_option (option_map (λ s. s.now) source.entry) []) }
{
    match source {
        Some(source) => later(fresh, source.figures.get().newest),
        None => fresh,
    }
}

/// What a page says of the sources of survivors.
pub fn left_of<'a>(fit: &'a [Source], survivors: &[Survivor]) -> Left<'a>
    requires { AreUpward fit.now }
    ensures peer { option_map (λ s. s.now) result.peer ≡ slice_get (selecting.sources_at fit.now survivors.now) 0 }
    ensures fresh { result.fresh ≡ fresh_of (selecting.sources_at fit.now survivors.now) }
{
    let mut left = Left {
        peer: None,
        fresh: beginning(),
    };
    for survivor in survivors {
        let source = source_of(fit, survivor.feed);
        left = Left {
            peer: first_of(left.peer, source),
            fresh: fresher(left.fresh, source),
        };
    }
    left
}
