//! A sample and its moment.
use tick_units::{Local, Sample, Short, Span};

/// A sample of a source, and the moment when it was taken.
#[derive(Clone, Copy, Debug, PartialEq, Eq)]
pub struct Taken {
    /// When it was taken, by the host's counter.
    pub at: Local,
    /// What it says.
    pub sample: Sample,
}

/// What fills the unused places of a filter.
impl Default for Taken {
    fn default() -> Taken {
        Taken {
            at: Local::new(0).unwrap(),
            sample: Sample {
                offset: Span::from(0),
                delay: Span::from(0),
                dispersion: Span::from(0),
                stratum: 0,
                address: 0,
                root_delay: Short(0),
                root_disp: Short(0),
            },
        }
    }
}
