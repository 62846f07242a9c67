//! Whether receivers and pollers can make an entry.
ghost use Rattle.std.specs.Prelude.{IsTrue, ◌↔◌};
ghost use Rattle.tick_units.specs.Samples.{IsLength};
ghost use Rattle.tick_units.specs.Samples.{IsValid as IsValidSample};
ghost use Rattle.journal_entry.specs.Valid.{IsValid, IsValidKind, IsValidVerdict, IsValidWhat};

use crate::{Entry, What};
use tick_units::{END_OF_SUPPORTED, Kind, Sample, Span, is_supported};

// Whether a span is from 0 on and shorter than 2^34 s.
fn is_length(span: Span) -> bool
    ensures { IsTrue result ↔ IsLength span }
{
    Span::from(0) <= span && span < Span::from_seconds(1 << 34)
}

fn is_valid_sample(sample: &Sample) -> bool
    ensures { IsTrue result ↔ IsValidSample sample.now }
{
    is_length(sample.offset) && is_length(sample.delay) && is_length(sample.dispersion)
}

fn is_valid_verdict(second: u64, leap_at: u64) -> bool
    ensures { IsTrue result ↔ IsValidVerdict second leap_at }
{
    is_supported(second) && (leap_at == 0 || is_supported(leap_at))
}

fn is_valid_kind(kind: &Kind) -> bool
    ensures { IsTrue result ↔ IsValidKind kind.now }
{
    match kind {
        Kind::Verdict { second, leap_at } => is_valid_verdict(*second, *leap_at),
        Kind::Lone { .. } => true,
        Kind::Differs { .. } => true,
        Kind::Refused { .. } => true,
    }
}

fn is_valid_what(what: &What) -> bool
    ensures { IsTrue result ↔ IsValidWhat what.now }
{
    match what {
        What::Heard(kind) => is_valid_kind(kind),
        What::Sample(sample) => is_valid_sample(sample),
        What::Declined(_) => true,
        What::Notice(leap_at) => *leap_at < END_OF_SUPPORTED,
    }
}

/// Whether an entry may stand in the journal of a station with this many sources.
pub fn is_valid(entry: &Entry, sources: u32) -> bool
    ensures { IsTrue result ↔ IsValid sources entry.now }
{
    entry.feed < sources && is_valid_what(&entry.what)
}
