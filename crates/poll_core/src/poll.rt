//! The exchanges of a poller with its server.
ghost use Rattle.std.specs.Prelude.{◌≡◌, ℕ, ◌≤◌, ◌++◌, ◌∷◌, [], List, Option, None, Some, IfOk, IfErr, OnOk, OnErr};
ghost use Rattle.std.specs.Option.{ForSome};
ghost use Rattle.ntp_packet.specs.Layout.{fields, layout};
ghost use Rattle.tick_units.specs.Samples.{IsValid};
ghost use Rattle.outside_traits.specs.declared.outside.Address.{Address};
ghost use Rattle.poll_core.specs.Formulas.{request_header};
ghost use Rattle.poll_core.specs.Histories.{Event, Asked, Answered, judge};
ghost use Rattle.poll_core.specs.Refusals.{table, first_refusal};

use crate::checks::{check_exchange, check_server};
use crate::exchange::Exchange;
use crate::{PollRefusal, request};
use ntp_packet::{HEADER_LENGTH, read};
use outside_traits::Address;
use tick_units::{Local, Sample, Stamp};

/// The exchanges of one poller with one server (RFC 5905, section 8).
///
/// A request is outstanding until an answer to it is accepted or another request is made. A refused answer changes nothing, so a
/// late or a strange datagram does not spoil the exchange.
#[derive(Debug, Drop)]
pub struct Poll {
    server: Address,
    // The moment of the outstanding request, which also gives its transmit timestamp.
    asked: Option<Local>,
    // The transmit timestamp of the last answer that was accepted.
    accepted: Option<Stamp>,
}

impl Poll {
    ghost use Rattle.poll_core.specs.Polling.{HasPolled, asked_at};

    /// The poller of a server that has asked nothing yet.
    pub fn new(server: Address) -> Poll
        ensures polled { HasPolled result server [] }
        ensures asked { asked_at result ≡ None }
    {
        Poll {
            server,
            asked: None,
            accepted: None,
        }
    }

    /// Makes the request of this moment: the bytes to send to the server. It takes the place of an outstanding one.
    pub fn ask(&mut self, moment: Local) -> [u8; HEADER_LENGTH]
        ensures polled { (server : Address) (history : List Event) → HasPolled self.old server history →
            HasPolled self.new server (history ++ Asked moment ∷ []) }
        ensures asked { asked_at self.new ≡ Some moment }
        ensures request { result ≡ layout (request_header moment) }
    {
        self.asked = Some(moment);
        request::bytes(moment)
    }

    /// Takes a datagram that arrived at this moment from this sender. Returns what it says of the time, where it is the answer to
    /// the outstanding request. It arrived no earlier than the request was made. Bytes after the 48th are passed over.
    ///
    /// # Errors
    ///
    /// The first of the refusals whose condition holds; the poller then stays as it was.
    pub fn answer(&mut self, at: Local, from: Address, bytes: &[u8]) -> Result<Sample, PollRefusal>
        requires { ForSome (asked_at self.old) (λ moment. moment ≤ at) }
        ensures polled { (server : Address) (history : List Event) → HasPolled self.old server history →
            HasPolled self.new server (history ++ Answered at from bytes.now ∷ []) }
        ensures judged { (server : Address) (history : List Event) → HasPolled self.old server history →
            result ≡ judge server history at from bytes.now }
        ensures valid { IfOk result IsValid }
        ensures asked { OnOk result (asked_at self.new ≡ None) }
        ensures unchanged { OnErr result (self.new ≡ self.old) }
    {
        let exchange = self.exchange_in(from, bytes)?;
        self.asked = None;
        self.accepted = Some(exchange.header.transmit);
        Ok(exchange.sample(self.server, at))
    }

    // The exchange that a datagram completes.
    fn exchange_in(&self, from: Address, bytes: &[u8]) -> Result<Exchange, PollRefusal>
        ensures refused { IfErr result
            (λ refusal. first_refusal (table self.now.server self.now.asked self.now.accepted from bytes.now) ≡
            Some refusal) }
        ensures passed { OnOk result
            (first_refusal (table self.now.server self.now.asked self.now.accepted from bytes.now) ≡ None) }
        ensures asked { IfOk result (λ exchange. self.now.asked ≡ Some exchange.asked) }
        ensures header { IfOk result (λ exchange. exchange.header ≡ fields bytes.now) }
    {
        if from != self.server {
            return Err(PollRefusal::Stranger { from });
        }
        let Some(header) = read(bytes) else {
            return Err(PollRefusal::Short {
                length: bytes.len(),
            });
        };
        let Some(asked) = self.asked else {
            return Err(PollRefusal::NotAsked);
        };
        check_exchange(&header, request::stamp(asked), self.accepted)?;
        check_server(&header)?;
        Ok(Exchange { asked, header })
    }
}
