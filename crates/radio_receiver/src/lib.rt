//! Receivers of longwave time signals: what the reductions of the carrier come to, minute by minute; and the decoder of a radio's log,
//! from its bytes, as they come, to the entries of its feed.
#![tactic(auto)]

mod counting;
mod decoder;
mod receiver;
mod receivers;

use code_plans::{Dcf, Msf, Wwvb};
pub use counting::CountingReceiver;
pub use decoder::{LOG_LIMIT, LogDecoder};
pub use receiver::{BoxedReceiver, Receiver};
pub use receivers::PlanReceiver;

/// A receiver of DCF77.
pub type DcfReceiver = PlanReceiver<Dcf>;

/// A receiver of MSF.
pub type MsfReceiver = PlanReceiver<Msf>;

/// A receiver of WWVB.
pub type WwvbReceiver = PlanReceiver<Wwvb>;
