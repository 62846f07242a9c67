//! The sources that are fit to be selected.
ghost use Rattle.std.specs.Prelude.{◌≡◌, ◌≤◌, ◌<◌, ◌^◌, ◌+◌, ◌++◌, [], List, All, length, map, pos, ◌≤ℤ◌, unsigned_abs, Some, IfSome};
ghost use Rattle.std.specs.List.{cons_option};
ghost use Rattle.std.specs.Option.{option_map};
ghost use Rattle.clock_filter.specs.Bounds.{IsMeasured};
ghost use Rattle.select_core.specs.Sweeping.{others};
ghost use Rattle.system_fold.specs.Fit as fits;
ghost use Rattle.system_fold.specs.Fit.{AreFew, AreFit, IsFit, IsSound, fit_feeds, source_with, with_some};
ghost use Rattle.system_fold.specs.Selecting as selecting;

use crate::SourceKind;
use crate::feed::Feed;
use crate::selecting::candidate_of;
use crate::source::Source;
use crate::sources::Sources;
use clock_filter::Ready;
use select_core::{Candidate, Sweep};
use tick_units::Local;

// The feed with a number, where its samples from the cut on make it fit.
fn fit_source(number: u32, feed: &Feed, cut: u64, now: Local) -> Option<Source>
    requires { IsSound now feed.now }
    ensures value { result ≡ fits.fit_source cut now (number, feed.now) }
    ensures feed { IfSome result (λ s. s.feed ≡ number) }
    ensures fit { IfSome result (IsFit now) }
{
    let figures = feed.filter.ready(cut)?;
    if figures.is_fit(now) {
        Some(Source {
            feed: number,
            kind: feed.kind,
            figures,
        })
    } else {
        None
    }
}

// Adds a source, if there is one.
fn push_some(sources: &mut Sources, source: &Option<Source>)
    requires { length sources.old < 16 }
    ensures items { sources.new ≡ sources.old ++ cons_option source.now [] }
    ensures len { length sources.new ≤ length sources.old + 1 }
{
    if let Some(source) = source {
        sources.push(source);
    }
}

/// The feeds that are fit, in the order of their numbers.
pub fn fit_sources(feeds: &[Feed], cut: u64, now: Local) -> Sources
    requires few { length feeds.now ≤ 16 }
    requires sound { All (IsSound now) feeds.now }
    ensures value { result ≡ fit_feeds cut now feeds.now }
    ensures fit { All (IsFit now) result }
    ensures few { length result ≤ 16 }
{
    let mut fit = Sources::new();
    for (number, feed) in feeds.iter().enumerate() {
        push_some(&mut fit, &fit_source(number as u32, feed, cut, now));
    }
    fit
}

// Adds the source and the candidate of a feed, where its figures make it fit; where they do not, it has no candidate.
fn add_if_fit(
    number: u32,
    kind: SourceKind,
    figures: &Ready,
    now: Local,
    fit: &mut Sources,
    sweep: &mut Sweep,
)
    requires moment { figures.now.newest ≤ now }
    requires newest { figures.now.taken_at ≤ figures.now.newest }
    requires measured { IsMeasured figures.now }
    requires jitter { figures.now.jitter2 ≤ 2 ^ 80 }
    requires few { length fit.old < 16 }
    requires room { length (others number sweep.old) < 16 }
    ensures source { IfSome (fits.if_fit now (Some (source_with number kind figures.now))) (IsFit now) }
    ensures fit { fit.new ≡
        fit.old ++ cons_option (fits.if_fit now (Some (source_with number kind figures.now))) [] }
    ensures sweep { sweep.new ≡ with_some number
        (option_map (selecting.candidate_of now)
        (fits.if_fit now (Some (source_with number kind figures.now)))) sweep.old }
{
    let distance = figures.distance(now);
    if figures.is_fit_with(distance) {
        fit.push_of(number, kind, figures);
        sweep.put(Candidate {
            feed: number,
            offset: figures.get().offset,
            distance,
        });
    } else {
        sweep.remove(number);
    }
}

// The same of a feed whose filter does not have the figures from the cut on ready.
#[inline(never)]
fn look_again(number: u32, feed: &Feed, cut: u64, now: Local, fit: &mut Sources, sweep: &mut Sweep)
    requires sound { IsSound now feed.now }
    requires few { length fit.old < 16 }
    requires room { length (others number sweep.old) < 16 }
    ensures source { IfSome (fits.fit_source cut now (number, feed.now)) (IsFit now) }
    ensures fit { fit.new ≡ fit.old ++ cons_option (fits.fit_source cut now (number, feed.now)) [] }
    ensures sweep { sweep.new ≡ with_some number
        (option_map (selecting.candidate_of now) (fits.fit_source cut now (number, feed.now))) sweep.old }
{
    match fit_source(number, feed, cut, now) {
        Some(source) => {
            fit.push(&source);
            sweep.put(candidate_of(&source, now));
        }
        None => sweep.remove(number),
    }
}

// Looks at a feed. Where it is fit, this adds its source and its candidate; where it is not, it has no candidate.
fn look_at(number: u32, feed: &Feed, cut: u64, now: Local, fit: &mut Sources, sweep: &mut Sweep)
    requires sound { IsSound now feed.now }
    requires few { length fit.old < 16 }
    requires room { length (others number sweep.old) < 16 }
    ensures source { IfSome (fits.fit_source cut now (number, feed.now)) (IsFit now) }
    ensures fit { fit.new ≡ fit.old ++ cons_option (fits.fit_source cut now (number, feed.now)) [] }
    ensures sweep { sweep.new ≡ with_some number
        (option_map (selecting.candidate_of now) (fits.fit_source cut now (number, feed.now))) sweep.old }
{
    match feed.filter.known(cut) {
        Some(figures) => add_if_fit(number, feed.kind, figures, now, fit, sweep),
        None => look_again(number, feed, cut, now, fit, sweep),
    }
}

/// Finds the feeds that are fit, in the order of their numbers, as `fit_sources` does. The sweep then has their candidates and no
/// others, with their present distances.
pub fn find_fit(feeds: &[Feed], cut: u64, now: Local, fit: &mut Sources, sweep: &mut Sweep)
    requires few { length feeds.now ≤ 16 }
    requires sound { All (IsSound now) feeds.now }
    requires standing { AreFew (length feeds.now) sweep.old }
    ensures fit { AreFit cut now feeds.now fit.new }
    ensures sweep { sweep.new ≡ map (selecting.candidate_of now) fit.new }
{
    fit.clear();
    for (index, feed) in feeds.iter().enumerate() {
        look_at(index as u32, feed, cut, now, fit, sweep);
    }
}
