//! The passes of a cell. Each is one or two numbers at run time; what it stands for is known in proofs.
ghost use Rattle.std.specs.Prelude.{◌≡◌, length};
ghost use Rattle.page_cell.specs.Passes.{claim_of};

use crate::steps::Token;
use std::marker::Model;

/// The pass that may publish. It stands for the whole list of published entries.
#[derive(Drop)]
pub struct BatonPass {
    pub(crate) length: u64,
    pub(crate) token: Token,
}

impl Model for BatonPass {
    ghost use Rattle.std.specs.Prelude.{◌≡◌, []};
    ghost use Rattle.page_cell.specs.Passes.{Known, IsBaton};

    ghost Value = { Known };

    ghost view = { λ p. record { table = p.token.table_id; view = p.token.me.0 } };

    ghost invariant = { λ p. (p.token.me.1 ≡ []) × IsBaton p.length p.token.me.0 };
}

/// A feed's pass. It stands for the feed's number, the list of the feed's own entries, and the list of all entries that it has
/// seen.
#[derive(Drop)]
pub struct FeedPass {
    pub(crate) number: u32,
    pub(crate) length: u64,
    pub(crate) token: Token,
}

impl Model for FeedPass {
    ghost use Rattle.std.specs.Prelude.{◌≡◌, []};
    ghost use Rattle.page_cell.specs.Passes.{Known, IsFeed};

    ghost Value = { Known };

    ghost view = { λ p. record { table = p.token.table_id; view = p.token.me.0 } };

    ghost invariant = { λ p. (p.token.me.1 ≡ []) × IsFeed p.number p.length p.token.me.0 };
}

/// A reader's pass. It stands for the number of entries that it has seen, and for its readings.
#[derive(Drop)]
pub struct ReadPass {
    pub(crate) number: u32,
    pub(crate) seen: u64,
    pub(crate) token: Token,
}

impl Model for ReadPass {
    ghost use Rattle.std.specs.Prelude.{◌≡◌, []};
    ghost use Rattle.page_cell.specs.Passes.{KnownReader, IsReader};

    ghost Value = { KnownReader };

    ghost view = { λ p. record { table = p.token.table_id; view = p.token.me.0; number = p.number } };

    ghost invariant = { λ p. (p.token.me.1 ≡ []) × IsReader p.seen p.token.me.0 };
}

/// Says that a feed's pass has seen this many entries.
#[derive(Drop)]
pub struct Receipt {
    pub(crate) length: u64,
    pub(crate) token: Token,
}

impl Model for Receipt {
    ghost use Rattle.std.specs.Prelude.{◌≡◌, []};
    ghost use Rattle.page_cell.specs.Passes.{Known, IsReceipt};

    ghost Value = { Known };

    ghost view = { λ p. record { table = p.token.table_id; view = p.token.me.0 } };

    ghost invariant = { λ p. (p.token.me.1 ≡ []) × IsReceipt p.length p.token.me.0 };
}

impl FeedPass {
    /// The number of the feed.
    pub fn number(&self) -> u32
        ensures { result ≡ (claim_of self.now.view).number }
    {
        self.number
    }
}

impl ReadPass {
    /// The number of the reader, from 0.
    pub fn number(&self) -> u32
        ensures { result ≡ self.now.number }
    {
        self.number
    }

    /// How many entries it has seen.
    pub fn seen(&self) -> u64
        ensures { result ≡ self.now.view.seen }
    {
        self.seen
    }
}

impl Receipt {
    /// How many entries it says.
    pub fn length(&self) -> u64
        ensures { result ≡ self.now.view.seen }
    {
        self.length
    }
}
