//! Turn after turn: one hearing, one reading, one answer.
ghost use Rattle.std.specs.Prelude.{◌≡◌, ◌<◌, ◌-◌, ◌^◌, ◌∷◌, []};
ghost use Rattle.std.specs.Bool.{OnTrue, OnFalse};
ghost use Rattle.outside_traits.specs.States.NetEvent.{Came};
ghost use Rattle.responder.specs.Desks.{IsSame, desk_of};
ghost use Rattle.responder.specs.Serving.{Serves};
ghost use Rattle.responder.specs.Steps.{Goes, Stops, StopsUnsent, HasRoom};

use crate::{End, Responder, Served};
use kiss_gate::ClientGate;
use outside_traits::{Arrival, Failed, Gate, Hearing, Link};
use packet_auth::KeyRing;
use page_cell::{PageCell, ReadPass};
use sealed_reply::{Reply, Request};
use std::sync::Wait;

// The numbers of responders at the gate begin here.
const AT_GATE: u32 = 100;

// The places of the gate that a responder passes: after it has received a datagram, and after it has sent a reply.
const HEARD: u8 = 2;

const SENT: u8 = 3;

impl<L: Link + Drop> Responder<L> {
    /// A responder on a link, with a reader's pass, the keys of the station and a gate of clients. Its number, from 0, is below
    /// 8.
    pub fn new(
        link: L,
        pass: ReadPass,
        number: u32,
        keys: KeyRing,
        clients: ClientGate,
    ) -> Responder<L>
        requires { number < 8 }
        ensures { (result.link ≡ link) × (result.pass ≡ pass) × (result.number ≡ number)
            × (result.keys ≡ keys) × (result.clients ≡ clients) }
    {
        Responder {
            link,
            pass,
            number,
            keys,
            clients,
            reply: Reply::blank(),
        }
    }

    // Answers a datagram that came; its hearing is over. True where another turn may come.
    fn answer<R: Wait, G: Gate>(
        &mut self,
        rt: &R,
        cell: &PageCell,
        gate: &G,
        arrival: &Arrival,
        datagram: &[u8],
        served: &mut Served,
    ) -> bool
        requires pass { self.old.pass.table ≡ cell.now.table }
        requires room { HasRoom served.old }
        requires at { (L.state self.old.link).latest ≡ arrival.now.at }
        ensures same { IsSame L.opening self.old self.new }
        ensures goes { let arrived = Came arrival.now.from arrival.now.at datagram.now ∷ [] in
            let before = desk_of L.state self.old in
            OnTrue result (Goes before (desk_of L.state self.new) arrived served.old served.new) }
        ensures stops { let arrived = Came arrival.now.from arrival.now.at datagram.now ∷ [] in
            let before = desk_of L.state self.old in
            OnFalse result (StopsUnsent before (desk_of L.state self.new) arrived served.old served.new) }
    {
        gate.pass(rt, AT_GATE + self.number, HEARD);
        let Ok(page) = cell.try_read(&mut self.pass) else {
            served.again += 1;
            return true;
        };
        let sent = self.link.moment();
        let Ok(request) = Request::read(datagram) else {
            served.dropped += 1;
            return true;
        };
        let judged = self.clients.judge(arrival.from.ip, arrival.at);
        served.count_judged(judged.kept);
        request.reply_in(
            &self.keys,
            judged.code,
            &page,
            arrival.at,
            sent,
            &mut self.reply,
        );
        match self.link.send(arrival.from, self.reply.bytes()) {
            Ok(()) => {
                served.count_sent(judged.code);
                gate.pass(rt, AT_GATE + self.number, SENT);
                true
            }
            Err(Failed) => {
                served.end = End::LinkFault;
                false
            }
        }
    }

    // One hearing into a piece, and what follows from it. True where another turn may come.
    fn turn<R: Wait, G: Gate>(
        &mut self,
        rt: &R,
        cell: &PageCell,
        gate: &G,
        piece: &mut [u8; 1024],
        served: &mut Served,
    ) -> bool
        requires pass { self.old.pass.table ≡ cell.now.table }
        requires room { HasRoom served.old }
        ensures same { IsSame L.opening self.old self.new }
        ensures goes { let before = desk_of L.state self.old in
            OnTrue result (Goes before (desk_of L.state self.new) [] served.old served.new) }
        ensures stops { let before = desk_of L.state self.old in
            OnFalse result (Stops before (desk_of L.state self.new) served.old served.new) }
    {
        match self.link.hear(piece) {
            Ok(Hearing::Datagram(arrival)) => {
                let datagram = &piece[..arrival.length];
                self.answer(rt, cell, gate, &arrival, datagram, served)
            }
            Ok(Hearing::Quiet) => true,
            Ok(Hearing::End) => {
                served.end = End::LinkEnd;
                false
            }
            Err(Failed) => {
                served.end = End::LinkFault;
                false
            }
        }
    }

    /// Serves for this many hearings, or until the link ends or fails. Each datagram that comes passes place 2 of the gate. Then
    /// the responder reads the page, and takes the link's moment. It drops a datagram that is no request of a client. It judges
    /// the sender of any other, which gets the answer or a kiss code, sealed as the datagram is. After a sending it passes place
    /// 3. Where it could read no page, it leaves the datagram.
    ///
    /// It takes memory for each client that the table of its gate of clients is to keep and does not know.
    pub fn serve<R: Wait, G: Gate>(
        &mut self,
        rt: &R,
        cell: &PageCell,
        gate: &G,
        budget: u64,
    ) -> Served
        requires { self.old.pass.table ≡ cell.now.table }
        ensures same { IsSame L.opening self.old self.new }
        ensures serves { Serves (desk_of L.state self.old) (desk_of L.state self.new) budget result }
    {
        let mut served = Served {
            answered: 0,
            dropped: 0,
            again: 0,
            kissed: 0,
            unkept: 0,
            end: End::Count,
        };
        let mut piece = [0u8; 1024];
        for _ in 0..budget {
            if !self.turn(rt, cell, gate, &mut piece, &mut served) {
                return served;
            }
        }
        served
    }

    /// The keys of the station.
    pub fn keys(&self) -> KeyRing
        ensures { result ≡ self.now.keys }
    {
        self.keys
    }

    /// Gives back the link and the pass, and the gate of clients as the calls so far left it.
    pub fn give_back(self) -> (L, ReadPass, ClientGate)
        ensures { (result.0 ≡ self.link) × (result.1 ≡ self.pass) × (result.2 ≡ self.clients) }
    {
        (self.link, self.pass, self.clients)
    }
}
