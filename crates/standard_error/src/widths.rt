//! What the starts and the widths of a log say, where it gave no minute.

use crate::texts::{
    IN_MILLISECONDS, INVERTED, LIKE_DCF, LIKE_MSF, LIKE_WWVB, NO_MARKS, NO_MINUTE, NOT_WHOLE,
    SHORT_LOG, STARTS_IN_MILLISECONDS, TOO_NARROW, TOO_SMALL, TOO_WIDE,
};
use std::alloc::{AllocError, Global};

/// The most bytes of a log that are looked at: a line of a log has at most 32, so these hold the sample.
pub const SAMPLE_BYTES: u64 = 8192;

// The most reductions that are looked at: the first ones of the log.
const SAMPLE: usize = 256;

// A log's median width is at least this in microseconds, and below it in milliseconds.
const LEAST: u64 = 1_000;

// No receiver gives a mark of so few microseconds.
const LEAST_MARK: u64 = 20_000;

// From one mark to the next a log rises by at least this in microseconds, and by less in milliseconds.
const LEAST_STEP: u64 = 10_000;

// A second in microseconds.
const SECOND: u64 = 1_000_000;

// The fewest marks of a minute, those of DCF77.
const MINUTE: usize = 59;

// How far a width may be from that of the plan, in microseconds.
const NEAR: u64 = 50_000;

// How much each width may have too much or too little, in microseconds, and how far it may be from that.
const STRETCH: u64 = 65_000;

const NEAR_STRETCH: u64 = 35_000;

// The widths of a plan's marks in microseconds, as PTB (DCF77), NPL (MSF) and NIST (WWVB) publish them.
struct Marks {
    plan: &'static str,
    widths: &'static [u64],
    /// The longest of them: no plan before it in the table has it.
    longest: &'static [u64],
    /// What is said where another plan was asked for.
    sentence: &'static str,
}

// The marks of each plan. Those of DCF77 are also marks of MSF, whose longest one comes once a minute.
const PLANS: [Marks; 3] = [
    Marks {
        plan: "wwvb",
        widths: &[200_000, 500_000, 800_000],
        longest: &[800_000],
        sentence: LIKE_WWVB,
    },
    Marks {
        plan: "msf",
        widths: &[100_000, 200_000, 300_000, 500_000],
        longest: &[500_000],
        sentence: LIKE_MSF,
    },
    Marks {
        plan: "dcf",
        widths: &[100_000, 200_000],
        longest: &[200_000],
        sentence: LIKE_DCF,
    },
];

// The start and the width of a line.
fn reduction_of(line: &str) -> Option<(u64, u64)> {
    let (start, width) = line.split_once(' ')?;
    Some((start.parse().ok()?, width.parse().ok()?))
}

// The widths of the first lines of a log, the least first.
fn widths_of(alloc: Global, log: &[u8]) -> Result<Vec<u64>, AllocError> {
    let mut widths = Vec::new(alloc);
    for line in str::from_utf8(log).unwrap_or("").split('\n') {
        if let Some((_, width)) = reduction_of(line) {
            if widths.len() < SAMPLE {
                widths.push(width)?;
            }
        }
    }
    widths.sort_unstable();
    Ok(widths)
}

// By how much the starts of the first lines of a log rise, the least first.
fn steps_of(alloc: Global, log: &[u8]) -> Result<Vec<u64>, AllocError> {
    let mut steps = Vec::new(alloc);
    let mut before = None;
    for line in str::from_utf8(log).unwrap_or("").split('\n') {
        if let Some((start, _)) = reduction_of(line) {
            if let Some(before) = before {
                if steps.len() < SAMPLE {
                    steps.push(start.abs_diff(before))?;
                }
            }
            before = Some(start);
        }
    }
    steps.sort_unstable();
    Ok(steps)
}

// How a receiver gives the widths of marks.
#[derive(Clone, Copy)]
enum Given {
    AsSent,
    /// All that is left of a second beside a mark.
    Inverted,
    TooWide,
    TooNarrow,
}

impl Given {
    // Whether a receiver may give this width for a mark that is sent with that one.
    fn is_near(self, width: u64, mark: u64) -> bool {
        match self {
            Given::AsSent => width.abs_diff(mark) <= NEAR,
            Given::Inverted => width.abs_diff(SECOND.saturating_sub(mark)) <= NEAR,
            Given::TooWide => width.abs_diff(mark.saturating_add(STRETCH)) <= NEAR_STRETCH,
            Given::TooNarrow => width.abs_diff(mark.saturating_sub(STRETCH)) <= NEAR_STRETCH,
        }
    }

    // Whether it may give a width for one of these marks.
    fn is_near_one(self, width: u64, marks: &[u64]) -> bool {
        for mark in marks {
            if self.is_near(width, *mark) {
                return true;
            }
        }
        false
    }

    // How many widths it may give for one of these marks.
    fn near(self, widths: &[u64], marks: &[u64]) -> usize {
        let mut count = 0usize;
        for width in widths {
            if self.is_near_one(*width, marks) {
                count = count.saturating_add(1);
            }
        }
        count
    }
}

impl Marks {
    // Whether nine of ten widths are those of the plan, and one of a hundred is its longest.
    fn are_in(&self, given: Given, widths: &[u64]) -> bool {
        let all = widths.len();
        given.near(widths, self.widths).saturating_mul(10) >= all.saturating_mul(9)
            && given.near(widths, self.longest).saturating_mul(100) >= all
    }

    // What is said of a log of this plan's marks.
    fn sentence(&self, plan: &str) -> &'static str {
        if self.plan == plan {
            NOT_WHOLE
        } else {
            self.sentence
        }
    }
}

// Whether widths that look like those of WWVB are what is left of its seconds: a minute has seven marks of 800 ms, and four times as
// many of 200 ms.
fn are_turned(widths: &[u64]) -> bool {
    Given::AsSent.near(widths, &[800_000]) > Given::AsSent.near(widths, &[200_000])
}

// What is said of a log whose marks some plan has, as the receiver gives them.
fn like_text(plan: &str, widths: &[u64]) -> Option<&'static str> {
    for marks in &PLANS {
        if marks.are_in(Given::AsSent, widths) {
            let is_inverted = marks.plan == "wwvb" && are_turned(widths);
            return Some(if is_inverted {
                INVERTED
            } else {
                marks.sentence(plan)
            });
        }
    }
    None
}

// What is said of a log whose marks are those of this plan, but for how the receiver gives them.
fn stretched_text(plan: &str, widths: &[u64]) -> Option<&'static str> {
    for marks in &PLANS {
        if marks.plan == plan && marks.are_in(Given::TooWide, widths) {
            return Some(TOO_WIDE);
        }
        if marks.plan == plan && marks.are_in(Given::TooNarrow, widths) {
            return Some(TOO_NARROW);
        }
    }
    None
}

// Whether the widths are what is left of the seconds of some plan.
fn are_inverted(widths: &[u64]) -> bool {
    for marks in &PLANS {
        if marks.are_in(Given::Inverted, widths) {
            return true;
        }
    }
    false
}

// What is said of a log whose widths are in microseconds.
fn marks_text(plan: &str, widths: &[u64]) -> &'static str {
    if widths.len() < MINUTE {
        return SHORT_LOG;
    }
    if let Some(text) = like_text(plan, widths) {
        return text;
    }
    if are_inverted(widths) {
        return INVERTED;
    }
    stretched_text(plan, widths).unwrap_or(NO_MARKS)
}

// The number in the middle of these, the least first. There is none where there are no numbers.
fn median(numbers: &[u64]) -> Option<u64> {
    numbers.get(numbers.len() / 2).copied()
}

// What is said of a log with these widths and these steps from start to start, the least first.
fn sample_text(plan: &str, widths: &[u64], steps: &[u64]) -> &'static str {
    match (median(widths), median(steps)) {
        (Some(width), _) if width < LEAST => IN_MILLISECONDS,
        (Some(width), _) if width < LEAST_MARK => TOO_SMALL,
        (Some(_), Some(step)) if step < LEAST_STEP => STARTS_IN_MILLISECONDS,
        _ => marks_text(plan, widths),
    }
}

/// Why a log gave no minute that was decoded as one of `plan`, by its first 256 reductions. `log` is its beginning, `SAMPLE_BYTES`
/// long where the log is not shorter.
pub fn no_minute_text(alloc: Global, plan: &str, log: &[u8]) -> &'static str {
    match (widths_of(alloc, log), steps_of(alloc, log)) {
        (Ok(widths), Ok(steps)) => sample_text(plan, widths.as_slice(), steps.as_slice()),
        _ => NO_MINUTE,
    }
}
