//! A server of the station, with its poller.
ghost use Rattle.std.specs.Prelude.{◌≡◌, ◌≤◌, ◌++◌, ◌∷◌, [], List, None};
ghost use Rattle.std.specs.Option.{ForSome};
ghost use Rattle.poll_core.specs.Formulas.{request_header};
ghost use Rattle.poll_core.specs.Histories.{Event, judge};
ghost use Rattle.poll_core.specs.Histories.Event.{Asked, Answered};
ghost use Rattle.poll_core.specs.Polling.{HasPolled, asked_at};
ghost use Rattle.ntp_packet.specs.Layout.{layout};
ghost use Rattle.journal_entry.specs.Valid.{IsValidWhat};
ghost use Rattle.outside_traits.specs.declared.outside.Address.{Address};

use journal_entry::What;
use outside_traits::Address;
use poll_core::Poll;
use tick_units::Local;

// A server of the station, with the poller that asks it.
#[derive(Drop)]
pub struct Server {
    poll: Poll,
    address: Address,
    // The moment of its last request or answer.
    pub last: Local,
    ghost timely: { ForSome (asked_at poll) (λ moment. moment ≤ last) },
}

impl Server {
    ghost use Rattle.replay_command.specs.Replay.{what_answered};

    // A server with a poller that has asked nothing. No moment of it will be below this one.
    pub fn new(poll: Poll, address: Address, last: Local) -> Server
        requires { asked_at poll ≡ None }
        ensures poll { result.poll ≡ poll }
        ensures address { result.address ≡ address }
        ensures last { result.last ≡ last }
    {
        Server {
            poll,
            address,
            last,
        }
    }

    // Its poller asks.
    pub fn ask(&mut self, at: Local) -> [u8; 48]
        ensures address { self.new.address ≡ self.old.address }
        ensures last { self.new.last ≡ at }
        ensures polled { (server : Address) (history : List Event) → HasPolled self.old.poll server history →
            HasPolled self.new.poll server (history ++ Asked at ∷ []) }
        ensures request { result ≡ layout (request_header at) }
    {
        self.last = at;
        self.poll.ask(at)
    }

    // A datagram comes from it: what that gives.
    pub fn answer(&mut self, at: Local, datagram: &[u8]) -> What
        requires { self.old.last ≤ at }
        ensures address { self.new.address ≡ self.old.address }
        ensures last { self.new.last ≡ at }
        ensures polled { (server : Address) (history : List Event) → HasPolled self.old.poll server history →
            HasPolled self.new.poll server (history ++ Answered at self.old.address datagram.now ∷ []) }
        ensures judged { (server : Address) (history : List Event) → HasPolled self.old.poll server history →
            result ≡ what_answered (judge server history at self.old.address datagram.now) }
        ensures valid { IsValidWhat result }
    {
        self.last = at;
        match self.poll.answer(at, self.address, datagram) {
            Ok(sample) => What::Sample(sample),
            Err(refusal) => What::Declined(refusal.code()),
        }
    }
}
