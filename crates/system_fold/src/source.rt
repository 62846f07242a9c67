//! The samples of a source, and what they say.
ghost use Rattle.std.specs.Prelude.{◌≡◌, ◌<◌, ◌≤◌};
ghost use Rattle.journal_entry.specs.Valid.{IsValidWhat};
ghost use Rattle.tick_units.specs.Years.{end_of_supported};
ghost use Rattle.system_fold.specs.Samples as samples;

use crate::SourceKind;
use crate::moments::beginning;
use clock_filter::{Figures, Ready, Taken};
use journal_entry::{Entry, What};
use tick_units::{Kind, Local, Sample, Short, Span, local_span};

// How far a radio's verdict may be from the truth: 1 ms.
const RADIO_DISPERSION: u64 = 4_294_968;

/// A feed whose samples say something, and what they say.
#[derive(Clone, Copy, Debug)]
pub struct Source {
    pub feed: u32,
    pub kind: SourceKind,
    pub figures: Ready,
}

/// What fills the unused places of a list of sources.
impl Default for Source {
    fn default() -> Source {
        Source {
            feed: 0,
            kind: SourceKind::Leap,
            figures: Ready::of(Figures {
                offset: Span::from(0),
                delay: Span::from(0),
                dispersion: Span::from(0),
                jitter2: 0,
                taken_at: beginning(),
                newest: beginning(),
                stratum: 0,
                address: 0,
                root_delay: Short(0),
                root_disp: Short(0),
                rate: 0,
            }),
        }
    }
}

// The sample of a radio that says that a second began at a moment.
fn radio_sample(at: Local, second: u64) -> Sample
    requires { second < end_of_supported }
    ensures { result ≡ samples.radio_sample at second }
{
    Sample {
        offset: Span::from_seconds(second) - local_span(at),
        delay: Span::from(0),
        dispersion: Span::from(RADIO_DISPERSION),
        stratum: 0,
        address: 0,
        root_delay: Short(0),
        root_disp: Short(0),
    }
}

// The sample that an entry is of a feed of this kind.
pub fn taken_in(kind: SourceKind, e: &Entry) -> Option<Taken>
    requires { IsValidWhat e.now.what }
    ensures { result ≡ samples.taken_in kind e.now }
{
    let sample = match (kind, e.what) {
        (SourceKind::Radio(_), What::Heard(Kind::Verdict { second, leap_at: _ })) => radio_sample(
            e.at, second,
        ),
        (SourceKind::Server(_), What::Sample(sample)) => sample,
        _ => return None,
    };
    Some(Taken { at: e.at, sample })
}
