//! A station in the middle of a script.
ghost use Rattle.std.specs.Prelude.{◌≡◌, ◌<◌, ◌≤◌, ◌+◌, ◌^◌, [], List, Ok, IfOk, vec_len, length};
ghost use Rattle.std.specs.Option.{ForSome};
ghost use Rattle.tick_units.specs.Years.{end_of_supported};
ghost use Rattle.script_line.specs.Texts.{IsLine};
ghost use Rattle.script_line.specs.declared.line.ScriptLine.{ScriptLine};
ghost use Rattle.script_line.specs.declared.line.ScriptLine.TheVariants as lines;
ghost use Rattle.replay_command.specs.Replay as replay;
ghost use Rattle.replay_command.specs.Replay.{Played, ReplayCase, case_of, lines_of, page_after, sender_of};

use crate::journal::ReplayJournal;
use crate::leap::LeapFeed;
use crate::radios::Radios;
use crate::servers::Servers;
use crate::{BoxedReceiver, Invalid, Outcome};
use clock_page::Page;
use kiss_gate::ClientGate;
use packet_auth::KeyRing;
use radio_receiver::Receiver;
use script_line::{Datagram, ScriptLine};
use sealed_reply::Request;
use station_values::Station;
use std::alloc::{AllocError, Global};
use tick_units::{Local, Reduction};

// 127.0.0.1, the address of the first connection's requests.
const FIRST_CLIENT: u32 = 0x7f00_0001;

// The address of a client: that of its connection, and this many after the first.
fn sender_of(connection: u8) -> u32
    ensures { result ≡ sender_of connection }
{
    FIRST_CLIENT + u32::from(connection)
}

/// A station in the middle of a script: it plays the lines one after the other, and keeps the journal's page and the gate of its
/// clients.
///
/// It stands for its station, the most entries that it keeps, and the lines that it has played, with whether each client's judging
/// was kept.
#[derive(Drop)]
pub struct Player<B: Drop> {
    radios: Radios<B>,
    servers: Servers,
    leap: LeapFeed,
    journal: ReplayJournal,
    keys: KeyRing,
    clients: ClientGate,
    ghost first: { servers.first ≡ vec_len radios.fitted },
    ghost feeds: { vec_len radios.fitted + vec_len servers.servers ≤ length journal.fold.feeds },
    ghost leaps: { ForSome leap.number (λ n. n < length journal.fold.feeds) },
}

impl Player<BoxedReceiver> {
    ghost use Rattle.station_gear.specs.Racks.{IsRack};
    ghost use Rattle.replay_command.specs.KeptPlayer.{HasGiven, HasPlayed, IsReady, Plays};

    /// A station that has played no line yet, and that keeps at most this many entries, up to 4194304. It uses the first four
    /// blank receivers of each plan of the rack, in its order; the others are dropped.
    ///
    /// # Errors
    /// There is no memory. Of the other calls only `play` takes memory.
    pub fn new(
        alloc: Global,
        station: &Station,
        rack: Vec<BoxedReceiver>,
        limit: u32,
    ) -> Result<Player<BoxedReceiver>, AllocError>
        requires rack { IsRack stands_for rack.items }
        requires limit { limit ≤ 2 ^ 22 }
        ensures played { IfOk result (λ player. HasPlayed stands_for player (case_of station.now limit) []) }
        ensures ready { IfOk result (IsReady least_start) }
    {
        let radios = Radios::new(alloc, station, rack)?;
        let mut servers = Servers::new(alloc, station.radios() as u32);
        servers.add_all(station)?;
        let leap = LeapFeed::new(station);
        let journal = ReplayJournal::new(station.settings(), limit);
        let Ok(clients) = ClientGate::open(alloc, station.deny(), station.gap(), station.clients())
        else {
            return Err(AllocError);
        };
        Ok(Player {
            radios,
            servers,
            leap,
            journal,
            keys: station.keys(),
            clients,
        })
    }

    /// The next line: what it gives, where it may stand after the lines before it.
    ///
    /// A request comes from the address 127.0.0.1 plus its connection's number, and is judged as it arrives. Only a client that
    /// the gate does not know takes memory. Where there is none, the client gets its answer, and `kept` says so.
    ///
    /// # Errors
    /// A line that may not stand there; it changes nothing.
    pub fn play(&mut self, line: &ScriptLine<'_>) -> Result<Outcome, Invalid>
        requires line { IsLine line.now }
        requires ready { IsReady least_start self.old }
        ensures ready { IsReady least_start self.new }
        ensures plays { (of : ReplayCase) (before : List Played) → HasPlayed stands_for self.old of before →
            Plays stands_for self.new of before line.now result }
    {
        match line {
            ScriptLine::Pulse { feed, reduction } => self.hear(*feed, *reduction),
            ScriptLine::Ask { feed, at } => self.ask(*feed, *at),
            ScriptLine::Answer { feed, at, datagram } => self.answer(*feed, *at, datagram),
            ScriptLine::Swap { feed } => self.swap(*feed),
            ScriptLine::Request {
                connection,
                arrived,
                sent,
                datagram,
            } => Ok(self.reply(*connection, *arrived, *sent, datagram)),
            ScriptLine::Leap { feed, at, leap_at } => self.announce(*feed, *at, *leap_at),
        }
    }

    // A pulse for a radio.
    fn hear(&mut self, feed: u32, reduction: Reduction) -> Result<Outcome, Invalid>
        requires { IsReady least_start self.old }
        ensures ready { IsReady least_start self.new }
        ensures plays { (of : ReplayCase) (before : List Played) → HasPlayed stands_for self.old of before →
            Plays stands_for self.new of before (lines.Pulse feed reduction) result }
    {
        match self.radios.hear(feed, reduction)? {
            Some(entry) => Ok(self.journal.take(&entry)),
            None => Ok(Outcome::Nothing),
        }
    }

    // A server is asked.
    fn ask(&mut self, feed: u32, at: Local) -> Result<Outcome, Invalid>
        requires { IsReady least_start self.old }
        ensures ready { IsReady least_start self.new }
        ensures plays { (of : ReplayCase) (before : List Played) → HasPlayed stands_for self.old of before →
            Plays stands_for self.new of before (lines.Ask feed at) result }
    {
        let request = self.servers.ask(feed, at)?;
        Ok(Outcome::Asked(request))
    }

    // A datagram comes from a server.
    fn answer(&mut self, feed: u32, at: Local, datagram: &Datagram<'_>) -> Result<Outcome, Invalid>
        requires { IsReady least_start self.old }
        ensures ready { IsReady least_start self.new }
        ensures plays { (of : ReplayCase) (before : List Played) → HasPlayed stands_for self.old of before →
            Plays stands_for self.new of before (lines.Answer feed at datagram.now) result }
    {
        let mut room = [0; 1024];
        let length = datagram.write(&mut room);
        let entry = self.servers.answer(feed, at, &room[..length])?;
        Ok(self.journal.take(&entry))
    }

    // A radio gets another receiver.
    fn swap(&mut self, feed: u32) -> Result<Outcome, Invalid>
        requires { IsReady least_start self.old }
        ensures ready { IsReady least_start self.new }
        ensures plays { (of : ReplayCase) (before : List Played) → HasPlayed stands_for self.old of before →
            Plays stands_for self.new of before (lines.Swap feed) result }
    {
        self.radios.swap(feed)?;
        Ok(Outcome::Nothing)
    }

    // The leap second file announces a leap second.
    fn announce(&mut self, feed: u32, at: Local, leap_at: u64) -> Result<Outcome, Invalid>
        requires reported { leap_at < end_of_supported }
        requires ready { IsReady least_start self.old }
        ensures ready { IsReady least_start self.new }
        ensures plays { (of : ReplayCase) (before : List Played) → HasPlayed stands_for self.old of before →
            Plays stands_for self.new of before (lines.Leap feed at leap_at) result }
    {
        let entry = self.leap.announce(feed, at, leap_at)?;
        Ok(self.journal.take(&entry))
    }

    // A client's datagram: where it is a request, it is judged and answered.
    fn reply(
        &mut self,
        connection: u8,
        arrived: Local,
        sent: Local,
        datagram: &Datagram<'_>,
    ) -> Outcome
        requires moments { arrived ≤ sent }
        requires ready { IsReady least_start self.old }
        ensures ready { IsReady least_start self.new }
        ensures given { (of : ReplayCase) (before : List Played) → HasPlayed stands_for self.old of before →
            HasGiven stands_for self.new of before (lines.Request connection arrived sent datagram.now) result }
    {
        let mut room = [0; 1024];
        let length = datagram.write(&mut room);
        match Request::read(&room[..length]) {
            Ok(request) => self.judge_and_reply(connection, &request, arrived, sent),
            Err(why) => Outcome::Dropped(why),
        }
    }

    // A client's request is judged as it arrives. The answer is by its code, from the page of the entries kept so far, and is
    // sealed as the request is.
    fn judge_and_reply(
        &mut self,
        connection: u8,
        request: &Request<'_>,
        arrived: Local,
        sent: Local,
    ) -> Outcome
        requires moments { arrived ≤ sent }
        requires ready { IsReady least_start self.old }
        ensures ready { IsReady least_start self.new }
        ensures given { (of : ReplayCase) (before : List Played) → HasPlayed stands_for self.old of before →
            HasGiven stands_for self.new of before
            (lines.Request connection arrived sent request.now.datagram.now) result }
    {
        let page = self.page();
        let judged = self.clients.judge(sender_of(connection), arrived);
        Outcome::Replied {
            reply: request.reply(&self.keys, judged.code, &page, arrived, sent),
            kept: judged.kept,
        }
    }

    /// The page of the entries kept so far.
    pub fn page(&self) -> Page
        ensures { (of : ReplayCase) (before : List Played) → HasPlayed stands_for self.now of before →
            result ≡ page_after of.station of.limit (lines_of before) }
    {
        self.journal.page()
    }

    /// Whether an entry was due when the journal was full.
    pub fn is_full(&self) -> bool
        ensures { (of : ReplayCase) (before : List Played) → HasPlayed stands_for self.now of before →
            result ≡ replay.is_full of.station of.limit (lines_of before) }
    {
        self.journal.is_full()
    }
}
