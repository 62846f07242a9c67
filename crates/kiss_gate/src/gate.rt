//! The gate that judges requests.
ghost use Rattle.std.specs.Prelude.{◌≡◌, ◌≤◌, ◌<◌, ◌∷◌, [], List, None, IfOk, length, nat_eq, false, true};
ghost use Rattle.std.specs.Map.{lookup};

use crate::table::{judge_known, put_in_front};
use crate::{DenyList, Judged};
use lru::LruCache;
use reply_core::Code;
use std::alloc::Global;
use std::marker::Model;
use std::num::NonZeroUsize;
use tick_units::Local;

/// Why a gate cannot be opened.
#[derive(Clone, Copy, Debug, PartialEq, Eq)]
pub enum GateOpen {
    /// There is no memory.
    Memory,
}

/// Judges the requests of clients: by the nets that are denied, and by when it last let each client pass.
///
/// It keeps a pair of address and moment for each of the last clients that it let pass, up to the size of its table. Where the
/// gap is 0 it keeps none.
#[derive(Drop)]
pub struct ClientGate {
    denied: DenyList,
    gap: u64,
    clients: LruCache<u32, Local>,
}

impl Model for ClientGate {
    ghost use Rattle.std.specs.Prelude.{◌≤◌};
    ghost use Rattle.kiss_gate.specs.Gates.{Gate};
    ghost use Rattle.kiss_gate.specs.Nets.{nets_of};

    ghost Value = { Gate };

    ghost view = { λ g. record {
      denied = nets_of g.denied;
      gap = g.gap;
      clients = g.clients.cap;
      table = g.clients.entries;
    } };

    ghost invariant = { λ g. g.gap ≤ 60000000 };
}

impl ClientGate {
    ghost use Rattle.kiss_gate.specs.Clients.{after, IsJudged};
    ghost use Rattle.kiss_gate.specs.Histories.{code_alone, gate_after, senders, Request};
    ghost use Rattle.kiss_gate.specs.Nets.{nets_of};

    /// The gate that has judged nothing. It denies these nets, lets a client pass once in `gap` microseconds, and remembers this
    /// many clients. A gap of 0 lets all pass that are not denied.
    ///
    /// # Errors
    ///
    /// `Memory` where there is no memory.
    pub fn open(
        alloc: Global,
        deny: &DenyList,
        gap: u64,
        clients: u32,
    ) -> Result<ClientGate, GateOpen>
        requires gap { gap ≤ 60000000 }
        requires least { 1 ≤ clients }
        requires most { clients ≤ 65536 }
        ensures opened { IfOk result
            (λ gate. gate ≡ record { denied = nets_of deny.now; gap = gap; clients = clients; table = [] }) }
    {
        let Some(room) = NonZeroUsize::new(clients as usize) else {
            unreachable!();
        };
        match LruCache::new(alloc, room) {
            Ok(table) => Ok(ClientGate {
                denied: *deny,
                gap,
                clients: table,
            }),
            Err(_) => Err(GateOpen::Memory),
        }
    }

    /// Judges a request from an address at a moment of the host's counter. It is `Deny` where the address is in a denied net,
    /// `Rate` where the client was let pass less than the gap ago, else `Pass`. A client that gets `Rate` may ask again when the
    /// gap since it last passed is over.
    ///
    /// It takes memory for a client that it does not know. Where there is none, the client passes and is not kept, and nothing
    /// else changes.
    pub fn judge(&mut self, ip: u32, at: Local) -> Judged
        ensures judged { IsJudged self.old ip at result }
        ensures table { self.new ≡ after self.old ip at result.kept }

        // What it has judged, where all were kept.
        ensures history { (requests : List Request) → result.kept ≡ true → self.old ≡ gate_after self.old requests
            → self.new ≡ gate_after self.new (record { ip = ip; at = at } ∷ requests) }

        // While there is room for all senders, each is judged as if it alone had asked.
        ensures alone { (requests : List Request) → self.old ≡ gate_after self.old requests
            → length (senders (record { ip = ip; at = at } ∷ requests)) ≤ self.old.clients
            → result.code ≡ code_alone self.old requests ip at }
    {
        self.decide(ip, at)
    }

    // The code of a request, and the table after it. It stands apart so that `judge` shows once what follows of these two clauses for
    // a history, and not at each return.
    fn decide(&mut self, ip: u32, at: Local) -> Judged
        ensures judged { IsJudged self.old ip at result }
        ensures table { self.new ≡ after self.old ip at result.kept }
    {
        if self.denied.denies(ip) {
            return Judged {
                code: Code::Deny,
                kept: true,
            };
        }
        if self.gap == 0 {
            return Judged {
                code: Code::Pass,
                kept: true,
            };
        }
        match judge_known(&mut self.clients, ip, self.gap, at) {
            Some(code) => Judged { code, kept: true },
            None => Judged {
                code: Code::Pass,
                kept: put_in_front(&mut self.clients, ip, at),
            },
        }
    }
}
