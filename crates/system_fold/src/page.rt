//! The fields of a page.
ghost use Rattle.std.specs.Prelude.{◌≡◌, false, ◌∷◌, ◌<◌, ◌≤◌, ◌^◌, ℤ, pos, ◌≤ℤ◌, ◌<ℤ◌, ◌+ℤ◌, ◌-ℤ◌, List, All, IfSome, length, map};
ghost use Rattle.tick_units.specs.Samples.{IsLength};
ghost use Rattle.tick_units.specs.Units as units;
ghost use Rattle.clock_filter.specs.Distance.{root_delay_of};
ghost use Rattle.cluster_core.specs.Bounds.{AreNear, IsWeighable};
ghost use Rattle.cluster_core.specs.Mean.{mean};
ghost use Rattle.select_core.specs.Selection.{chime_of};
ghost use Rattle.system_fold.specs.Ends.{is_above};
ghost use Rattle.system_fold.specs.Fit.{AreUpward, IsFit};
ghost use Rattle.system_fold.specs.Selecting as selecting;
ghost use Rattle.system_fold.specs.Surviving.{IsLong};
ghost use Rattle.system_fold.specs.Fields as pages;
ghost use Rattle.system_fold.specs.Fields.{fresh_of};
ghost use Rattle.system_fold.specs.Inputs.{AreBounded};
ghost use Rattle.system_fold.specs.Page.{page_by};
ghost use Rattle.system_fold.specs.declared.source.Source.{Source};

use crate::SourceKind;
use crate::inputs::PageInputs;
use crate::selecting::{add_survivors, agreed, left_of};
use crate::source::Source;
use clock_filter::root_delay;
use clock_page::Page;
use cluster_core::{Survivors, cluster, combine};
use select_core::Chime;
use tick_units::{LEAST_DISPERSION, Local, Short, Span, Stamp, local_span, stamp_of, to_short};

// The reference ID of a source: the letters of a radio, the IPv4 address of a server.
fn reference_id(source: &Source) -> u32
    ensures { result ≡ pages.reference_id source.now.kind source.now.figures }
{
    match source.kind {
        SourceKind::Radio(plan) => plan.reference_id(),
        SourceKind::Server(_) => source.figures.get().address,
        SourceKind::Leap => 0,
    }
}

// The root delay of a page whose system peer this is.
fn root_delay_of(peer: &Source, now: Local) -> Short
    requires { IsFit now peer.now }
    ensures { result.0 ≡ units.to_short (root_delay_of peer.now.figures) }
{
    to_short(root_delay(peer.figures.get()))
}

// The root dispersion of a page whose system peer this is.
fn root_disp_of(peer: &Source, now: Local) -> Short
    requires { IsFit now peer.now }
    ensures { result.0 ≡ pages.page_dispersion now peer.now }
{
    to_short(Span::from(LEAST_DISPERSION).max(peer.figures.root_dispersion(now)))
}

// The page that gives the time by the sources that are left.
fn synchronised_by(
    inputs: &PageInputs,
    peer: &Source,
    fresh: Local,
    root_disp: Short,
    offset: Span,
) -> Page
    requires inputs { AreBounded inputs.now }
    requires peer { IsFit inputs.now.moment peer.now }
    requires offset { IsLength offset }
    requires root_disp { root_disp.0 ≡ pages.page_dispersion inputs.now.moment peer.now }
    requires within { is_above inputs.now.bound root_disp.0 0 ≡ false }
    ensures { (others : List Source) → fresh ≡ fresh_of (peer.now ∷ others) →
        result ≡ pages.synchronised_by inputs.now peer.now others offset }
{
    Page {
        length: inputs.length,
        sync: true,
        stratum: peer.figures.get().stratum + 1,
        refid: reference_id(peer),
        offset,
        anchor: inputs.moment,
        until: inputs.until(root_disp),
        root_delay: root_delay_of(peer, inputs.moment),
        root_disp,
        reftime: stamp_of(offset + local_span(fresh)),
        leap_at: inputs.leap_second(),
        rate: peer.figures.get().rate,
    }
}

/// The page of the sources that are left. It depends on the system peer, which is the first of them, the moment of the newest
/// sample of all, and their mean offset.
#[tactic(auto, unfolding(crate::specs::Fields::page_from))]
pub fn page_from(inputs: &PageInputs, peer: &Source, fresh: Local, offset: Span) -> Page
    requires inputs { AreBounded inputs.now }
    requires peer { IsFit inputs.now.moment peer.now }
    requires offset { IsLength offset }
    ensures { (others : List Source) → fresh ≡ fresh_of (peer.now ∷ others) →
        result ≡ pages.page_from inputs.now (peer.now ∷ others) offset }
{
    let root_disp = root_disp_of(peer, inputs.moment);
    if inputs.is_above(root_disp) {
        inputs.unsynchronised()
    } else {
        synchronised_by(inputs, peer, fresh, root_disp, offset)
    }
}

// The page of the survivors that are left.
fn page_of_survivors(inputs: &PageInputs, fit: &[Source], survivors: &Survivors) -> Page
    requires inputs { AreBounded inputs.now }
    requires fit { All (IsFit inputs.now.moment) fit.now }
    requires upward { AreUpward fit.now }
    requires measured { All IsWeighable survivors.now }
    requires near { AreNear survivors.now }
    requires long { All IsLong survivors.now }
    ensures { result ≡ pages.page_from inputs.now (selecting.sources_at fit.now survivors.now) (mean survivors.now) }
{
    let left = left_of(fit, survivors.as_slice());
    match left.peer {
        Some(peer) => page_from(inputs, peer, left.fresh, combine(survivors)),
        None => inputs.unsynchronised(),
    }
}

/// The page of the sources that are fit, by the interval that enough of them agree on.
#[tactic(auto, unfolding(crate::specs::Page::page_by))]
pub fn page_within(inputs: &PageInputs, fit: &[Source], chime: &Option<Chime>) -> Page
    requires inputs { AreBounded inputs.now }
    requires few { length fit.now ≤ 16 }
    requires fit { All (IsFit inputs.now.moment) fit.now }
    requires upward { AreUpward fit.now }
    requires chime { chime.now ≡ chime_of (map (selecting.candidate_of inputs.now.moment) fit.now) }
    requires narrow { IfSome chime.now (λ chime. (chime.high -ℤ chime.low) ≤ℤ pos (2 ^ 33)) }
    ensures { result ≡ page_by inputs.now fit.now }
{
    match chime {
        Some(chime) => {
            let mut survivors = Survivors::new();
            add_survivors(&mut survivors, chime, fit, inputs.moment);
            cluster(&mut survivors);
            page_of_survivors(inputs, fit, &survivors)
        }
        None => inputs.unsynchronised(),
    }
}

/// The page of the sources that are fit, with a new selection among them.
pub fn page_by(inputs: &PageInputs, fit: &[Source]) -> Page
    requires inputs { AreBounded inputs.now }
    requires few { length fit.now ≤ 16 }
    requires fit { All (IsFit inputs.now.moment) fit.now }
    requires upward { AreUpward fit.now }
    ensures { result ≡ page_by inputs.now fit.now }
{
    page_within(inputs, fit, &agreed(fit, inputs.moment))
}
