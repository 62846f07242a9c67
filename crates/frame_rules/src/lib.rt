//! What the frames of the three code plans share: a segment, the bits of its places, their values, and the common rules on marks.
//! The marks of a segment lie in a slice or are kept as numbers.
//!
//! To read it in this order: `code_plan` (what a plan is), `bits`, `numbers` (what places hold), `places` (what rules need of a
//! segment), `rules` (those that all plans share), `segment` and `frame` (marks in a slice, and mark by mark), `place_words` (a
//! frame's bits), `send_plan` and `spelling` (how it is sent).
#![tactic(auto)]

mod bits;
mod code_plan;
mod frame;
mod numbers;
mod place_words;
mod places;
mod rules;
mod segment;
mod send_plan;
mod spelling;

pub use bits::{Bit, has_pattern, is_odd_over, value};
pub use code_plan::CodePlan;
pub use frame::Frame;
pub use numbers::{Number, is_out_of};
pub use places::{KEPT_PLACES, Places};
pub use rules::{Rule, breaks_length, first_broken};
pub use segment::Segment;
pub use send_plan::{ODD_WIDTH, SendPlan};
pub use spelling::{Spelling, bit_symbol};
