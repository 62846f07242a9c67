//! What a responder did, and why it ended.
ghost use Rattle.std.specs.Prelude.{◌≡◌, ◌<◌, ◌-◌, ◌^◌};
ghost use Rattle.responder.specs.Steps.{HasRoom, with_judged, with_sent};

use reply_core::Code;

/// Why a call of `serve` ended.
#[derive(Clone, Copy, Debug, PartialEq, Eq)]
pub enum End {
    /// It made as many hearings as the caller asked for.
    Count,
    /// The link has ended.
    LinkEnd,
    /// A call of the link failed.
    LinkFault,
}

/// What a call of `serve` did.
#[derive(Clone, Copy, Debug, PartialEq, Eq)]
pub struct Served {
    /// How many datagrams it answered with the time, or with the report that the server is not synchronised.
    pub answered: u64,
    /// How many it dropped, since they are no request of a client.
    pub dropped: u64,
    /// How many it left, since it could read no page.
    pub again: u64,
    /// How many it answered with a kiss code, since their sender is denied or asks too often.
    pub kissed: u64,
    /// How many senders the table of clients could not keep, since there was no memory for them. Each of them passed the gate.
    pub unkept: u64,
    pub end: End,
}

impl Served {
    // Counts a request that was judged.
    pub(crate) fn count_judged(&mut self, kept: bool)
        requires { HasRoom self.old }
        ensures counted { self.new ≡ with_judged kept self.old }
        ensures others { (self.new.answered ≡ self.old.answered) × (self.new.kissed ≡ self.old.kissed) }
    {
        if !kept {
            self.unkept += 1;
        }
    }

    // Counts a reply that was sent.
    pub(crate) fn count_sent(&mut self, code: Code)
        requires answered { self.old.answered < 2 ^ 64 - 1 }
        requires kissed { self.old.kissed < 2 ^ 64 - 1 }
        ensures { self.new ≡ with_sent code self.old }
    {
        match code {
            Code::Pass => self.answered += 1,
            Code::Deny => self.kissed += 1,
            Code::Rate => self.kissed += 1,
        }
    }
}
