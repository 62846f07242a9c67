//! The worker of a server, which polls it.
ghost use Rattle.std.specs.Prelude.{◌≡◌, ◌≤◌, ◌<◌, ◌+◌, ◌++◌, ◌∷◌, [], ℕ, List, Option, None, Some, is_ok, length, IfSome, IfNone};
ghost use Rattle.std.specs.Option.{ForSome};
ghost use Rattle.outside_traits.specs.States.{NetEvent, LinkState};
ghost use Rattle.outside_traits.specs.declared.outside.Address.{Address};
ghost use Rattle.feed_workers.specs.Asking.{HasDone, ReceivesOne, Polled};
ghost use Rattle.feed_workers.specs.Keeping.{IsOfFeed, share_of};
ghost use Rattle.feed_workers.specs.Polling.{RunsPolls, session_at, session_of};
ghost use Rattle.feed_workers.specs.Polls.{what_of};
ghost use Rattle.journal_entry.specs.Valid.{IsValidWhat};
ghost use Rattle.page_cell.specs.declared.view.Claim.{Claim};
ghost use Rattle.page_cell.specs.Passes.{claim_of};
ghost use Rattle.poll_core.specs.Histories.{Event, judge};
ghost use Rattle.poll_core.specs.Histories.Event.{Answered};
ghost use Rattle.poll_core.specs.Polling.{HasPolled, asked_at};

use crate::keeping::{Post, Recorder};
use crate::work::{PollEnd, PollWork};
use journal_entry::{Entry, What};
use outside_traits::{Address, Arrival, Failed, Gate, Hearing, Link};
use page_cell::FeedPass;
use poll_core::Poll;
use std::sync::Wait;
use verdict_journal::{Hub, HubName};

// The most hearings of a round.
const HEARINGS: u32 = 8;

/// The worker of a server: it polls it this many times, and keeps the entries of its feed.
#[derive(Drop)]
pub struct PollWorker<L: Drop> {
    pub(crate) server: Address,
    pub(crate) polls: u32,
    pub(crate) link: L,
    pub(crate) pass: FeedPass,
}

// The result of one hearing of a round.
#[derive(Clone, Copy)]
enum HearingEnd {
    // A datagram that was refused: the round goes on.
    On,
    // Nothing, or an answer that was accepted: the round is over.
    Over,
    // The link's end.
    End,
    // A call of the link failed.
    Fault,
}

// The server that is polled, and the number of its feed.
#[derive(Clone, Copy)]
struct Peer {
    feed: u32,
    server: Address,
}

// What a datagram is in the journal, and whether it is an accepted answer.
#[derive(Drop)]
struct JudgedAnswer {
    what: What,
    accepted: bool,
}

// Judges a datagram.
fn judge_datagram(poll: &mut Poll, arrival: &Arrival, bytes: &[u8]) -> JudgedAnswer
    requires { ForSome (asked_at poll.old) (λ moment. moment ≤ arrival.now.at) }
    ensures polled { (server : Address) (history : List Event) → HasPolled poll.old server history →
        HasPolled poll.new server (history ++ Answered arrival.now.at arrival.now.from bytes.now ∷ []) }
    ensures what { (server : Address) (history : List Event) → HasPolled poll.old server history →
        result.what ≡ what_of (judge server history arrival.now.at arrival.now.from bytes.now) }
    ensures accepted { (server : Address) (history : List Event) → HasPolled poll.old server history →
        result.accepted ≡ is_ok (judge server history arrival.now.at arrival.now.from bytes.now) }
    ensures valid { IsValidWhat result.what }
    ensures asked { ForSome (asked_at poll.new) (λ moment. moment ≤ arrival.now.at) }
{
    match poll.answer(arrival.at, arrival.from, bytes) {
        Ok(sample) => JudgedAnswer {
            what: What::Sample(sample),
            accepted: true,
        },
        Err(refusal) => JudgedAnswer {
            what: What::Declined(refusal.code()),
            accepted: false,
        },
    }
}

// One hearing; keeps the entry of a datagram.
fn receive_once<L: Link, K: Recorder>(
    recorder: &K,
    feed: u32,
    poll: &mut Poll,
    link: &mut L,
    pass: &mut FeedPass,
    full: &mut bool,
) -> HearingEnd
    requires pass { IsOfFeed K.table K.sources feed pass.old }
    requires asked { ForSome (asked_at poll.old) (λ moment. moment ≤ (L.state link.old).latest) }
    ensures link { L.opening link.new ≡ L.opening link.old }
    ensures pass { IsOfFeed K.table K.sources feed pass.new }
    ensures asked { ForSome (asked_at poll.new) (λ moment. moment ≤ (L.state link.new).latest) }
    ensures receives { (server : Address) (before : LinkState) (begun : Claim) (events : List NetEvent) →
        let had = share_of begun pass.old K.limit full.old in
        let has = share_of begun pass.new K.limit full.new in
        HasDone poll.old (session_at server before (L.state link.old) had) events → begun.number ≡ feed →
        ReceivesOne poll.new (session_at server before (L.state link.new) has) events result }
{
    let mut piece = [0u8; 1024];
    match link.hear(&mut piece) {
        Ok(Hearing::Datagram(arrival)) => {
            let judged = judge_datagram(poll, &arrival, &piece[..arrival.length]);
            let JudgedAnswer { what, accepted } = judged;
            let at = arrival.at;
            recorder.enter(pass, Entry { feed, at, what }, full);
            if accepted {
                HearingEnd::Over
            } else {
                HearingEnd::On
            }
        }
        Ok(Hearing::Quiet) => HearingEnd::Over,
        Ok(Hearing::End) => HearingEnd::End,
        Err(Failed) => HearingEnd::Fault,
    }
}

// Makes one poll, and answers why the polling ends with it, if it does.
fn poll_once<L: Link, K: Recorder>(
    recorder: &K,
    peer: Peer,
    poll: &mut Poll,
    link: &mut L,
    pass: &mut FeedPass,
    full: &mut bool,
) -> Option<PollEnd>
    requires pass { IsOfFeed K.table K.sources peer.feed pass.old }
    ensures link { L.opening link.new ≡ L.opening link.old }
    ensures pass { IsOfFeed K.table K.sources peer.feed pass.new }
    ensures goes { IfNone result ((before : LinkState) (begun : Claim) (count : ℕ) →
        let had = share_of begun pass.old K.limit full.old in
        let has = share_of begun pass.new K.limit full.new in
        Polled poll.old (session_at peer.server before (L.state link.old) had) count → begun.number ≡ peer.feed →
        Polled poll.new (session_at peer.server before (L.state link.new) has) (count + 1)) }
    ensures stops { IfSome result (λ end. (before : LinkState) (begun : Claim) (count polls : ℕ) →
        count < polls →
        let had = share_of begun pass.old K.limit full.old in
        let has = share_of begun pass.new K.limit full.new in
        Polled poll.old (session_at peer.server before (L.state link.old) had) count → begun.number ≡ peer.feed →
        RunsPolls (session_at peer.server before (L.state link.new) has) polls end) }
{
    let moment = link.moment();
    let request = poll.ask(moment);
    match link.send(peer.server, &request) {
        Ok(()) => {}
        Err(Failed) => return Some(PollEnd::LinkFault),
    }
    'hearings: for _ in 0..HEARINGS {
        match receive_once(recorder, peer.feed, poll, link, pass, full) {
            HearingEnd::On => {}
            HearingEnd::Over => return None,
            HearingEnd::End => return Some(PollEnd::LinkEnd),
            HearingEnd::Fault => return Some(PollEnd::LinkFault),
        }
    }
    None
}

impl<L: Link + Drop> PollWorker<L> {
    /// A worker that polls this server this many times over a link, with the pass of its feed.
    pub fn new(server: Address, polls: u32, link: L, pass: FeedPass) -> PollWorker<L>
        ensures is { (result.link ≡ link) × (result.pass ≡ pass) }
        ensures asks { (result.server ≡ server) × (result.polls ≡ polls) }
    {
        PollWorker {
            server,
            polls,
            link,
            pass,
        }
    }

    /// Makes its polls, until the link ends or fails, and keeps each entry that is due where there is room. A poll takes the
    /// link's moment and sends a request to the server. It goes on until it accepts an answer, a hearing gives nothing, or it has
    /// made eight hearings.
    pub fn run<N: HubName, R: Wait, G: Gate>(&mut self, rt: &R, hub: &Hub<N>, gate: &G) -> PollWork
        requires { IsOfFeed N.table (length N.settings.sources) (claim_of self.old.pass.view).number self.old.pass }
        ensures link { L.opening self.new.link ≡ L.opening self.old.link }
        ensures pass { IsOfFeed N.table (length N.settings.sources) (claim_of self.old.pass.view).number self.new.pass }
        ensures asks { (self.new.server ≡ self.old.server) × (self.new.polls ≡ self.old.polls) }
        ensures runs { RunsPolls (session_of L.state N.limit self.old self.new result) self.old.polls result.end }
    {
        let post = Post { rt, hub, gate };
        let feed = self.pass.number();
        let PollWorker {
            server,
            polls,
            link,
            pass,
        } = self;
        let mut poll = Poll::new(*server);
        let mut full = false;
        'polls: for _ in 0..*polls {
            let server = *server;
            let peer = Peer { feed, server };
            let end = poll_once(&post, peer, &mut poll, link, pass, &mut full);
            if let Some(end) = end {
                return PollWork { end, full };
            }
        }
        PollWork {
            end: PollEnd::Rounds,
            full,
        }
    }

    /// Gives back the link and the pass.
    pub fn give_back(self) -> (L, FeedPass)
        ensures { (result.0 ≡ self.link) × (result.1 ≡ self.pass) }
    {
        let PollWorker { link, pass, .. } = self;
        (link, pass)
    }
}
