//! A link of a run that a supervisor holds.
ghost use Rattle.std.specs.Prelude.{◌≡◌, ◌≤◌, ◌⊎◌, ℕ, true, min, Option, None, Some, length, IfOk, IfSome, MatchOption, MatchResult, Ok, take, if◌then◌else◌};
ghost use Rattle.outside_traits.specs.Faults.{RoseByOne, HasCause};
ghost use Rattle.outside_traits.specs.Links.{ReceivesNext, IsDeaf, ReportsMoment, Sends};
ghost use Rattle.outside_traits.specs.declared.link.Hearing.TheVariants.{End};
ghost use Rattle.host_links.specs.Real.{socket_state, file_number};
ghost use Rattle.host_links.specs.Sockets.{PassesOver, Repeats, is_passed_over, moment_of};
ghost use Rattle.service_links.specs.Held.{GivesPart, GivesUntilEnd, GivesWaited, PostsUntilEnd, NeedsNoWait, after_hearing, ends_asking};
ghost use Rattle.service_links.specs.Paces.{after_kiss, asked_at, heeding, is_never, kiss_for, noting, sending};
ghost use Rattle.service_links.specs.declared.link.Waited.TheVariants.{Silence, Over};

use crate::{Asking, Pace, Watch};
use host_links::{
    DatagramSocket, Received, moment_at, receive_once, send_whole, whole_microseconds,
};
use outside_traits::{Address, Arrival, Failed, Hearing, Link};
use std::thread;
use std::time::{Clock, Duration};
use tick_units::Local;

// After how many waits of a tenth of a second without a datagram a link reports silence: two seconds.
const WAITS: u32 = 20;

// For how many microseconds a link sleeps between two looks at its end while a request has to wait.
const NAP: u64 = 100_000;

/// A link of a run that a supervisor holds. Its moments are those of the host's own counter. It counts its faults and reports
/// nothing of what it receives and sends.
#[derive(Drop)]
pub struct ServiceLink<'a, R: Clock, S: DatagramSocket + Drop> {
    socket: S,
    rt: &'a R,
    start: Local,
    latest: Local,
    faults: u64,
    watch: Watch<'a>,
    /// What a link to a server keeps; a link that answers clients has none.
    asking: Option<Asking>,
}

impl<'a, R: Clock, S: DatagramSocket + Drop> ServiceLink<'a, R, S> {
    /// A link on which clients are answered. Its moments are those of the host's counter, which `start` is added to.
    pub fn answering(socket: S, rt: &'a R, start: Local, watch: Watch<'a>) -> ServiceLink<'a, R, S>
        ensures moments { (result.start ≡ start) × (result.latest ≡ start) × (result.faults ≡ 0) }
        ensures parts { (result.socket ≡ socket) × (result.watch ≡ watch.entry) × (result.asking ≡ None) }
    {
        ServiceLink {
            socket,
            rt,
            start,
            latest: start,
            faults: 0,
            watch,
            asking: None,
        }
    }

    /// A link that asks a server, at this pace.
    pub fn asking(
        socket: S,
        rt: &'a R,
        start: Local,
        watch: Watch<'a>,
        pace: Pace,
    ) -> ServiceLink<'a, R, S>
        ensures moments { (result.start ≡ start) × (result.latest ≡ start) × (result.faults ≡ 0) }
        ensures parts { (result.socket ≡ socket) × (result.watch ≡ watch.entry)
            × (result.asking ≡ Some (record { pace = pace; request = None })) }
    {
        ServiceLink {
            socket,
            rt,
            start,
            latest: start,
            faults: 0,
            watch,
            asking: Some(Asking::new(pace)),
        }
    }

    // A call failed.
    #[cold]
    #[inline(never)]
    fn fail(&mut self) -> Failed
        ensures faults { RoseByOne self.old.faults self.new.faults }
        ensures later { self.old.faults ≤ self.new.faults }
        ensures others { self.new ≡ record self.old { faults = self.new.faults } }
    {
        self.faults = self.faults.saturating_add(1);
        Failed
    }

    // The host's counter, where it can be read.
    fn counted(&self) -> Option<u64> {
        match self.rt.monotonic() {
            Ok(since_boot) => Some(whole_microseconds(since_boot)),
            Err(_) => None,
        }
    }

    // The moment now.
    #[inline(always)]
    fn now(&self) -> Local
        ensures later { self.now.latest ≤ result }
        ensures value { (counted : Option ℕ) × (result ≡ moment_of self.now.start self.now.latest counted) }
    {
        moment_at(self.start, self.latest, self.counted())
    }

    // Whether the waiting is over since the link has ended.
    fn over(&self) -> Option<Waited>
        ensures { result ≡ if self.now.watch.is_over then Some Over else None }
    {
        if self.watch.is_over {
            Some(Waited::Over)
        } else {
            None
        }
    }

    // What the waiting comes to after so many waits without a datagram.
    fn silence(&self, waits: u32) -> Option<Waited>
        ensures { MatchOption result (Unit {0}) (λ waited. waited ≡ if self.now.watch.is_over then Over else Silence) }
    {
        if self.watch.is_over {
            return Some(Waited::Over);
        }
        if waits >= WAITS {
            return Some(Waited::Silence);
        }
        None
    }

    // Looks at the end where that is due, after a datagram that cannot be answered.
    #[cold]
    #[inline(never)]
    fn pass_over(&mut self) -> Option<Waited>
        ensures over { result ≡ if self.new.watch.is_over then Some Over else None }
        ensures others { self.new ≡ record self.old { watch = self.new.watch } }
    {
        let now = self.now();
        self.watch.look_when_due(now);
        self.over()
    }

    // Looks at the end, after so many waits without a datagram.
    #[cold]
    #[inline(never)]
    fn wait_on(&mut self, waits: u32) -> Option<Waited>
        ensures waited { MatchOption result (Unit {0}) (λ waited. waited ≡ if self.new.watch.is_over then Over else Silence) }
        ensures others { self.new ≡ record self.old { watch = self.new.watch } }
    {
        self.watch.look();
        self.silence(waits)
    }

    // Calls the socket once, and looks at the end where no datagram came that can be answered. Returns None where the waiting goes
    // on.
    fn wait_once(&mut self, piece: &mut [u8], waits: &mut u32) -> Result<Option<Waited>, Failed>
        ensures given { MatchResult result
            (λ waited. GivesPart (S.passed self.old.socket) (S.passed self.new.socket) waited piece.new)
            (λ _. PassesOver (S.passed self.old.socket) (S.passed self.new.socket)) }
        ensures over { IfOk result (λ waited. waited ≡ Some Over → self.new.watch.is_over ≡ true) }
        ensures others { self.new ≡ record self.old { socket = self.new.socket; watch = self.new.watch } }
    {
        match receive_once(&mut self.socket, piece) {
            Ok(Received::Answerable(from, length)) => Ok(Some(Waited::Came(from, length))),
            Ok(Received::PassedOver) => Ok(self.pass_over()),
            Ok(Received::Nothing) => {
                *waits = waits.saturating_add(1);
                Ok(self.wait_on(*waits))
            }
            Err(Failed) => Err(Failed),
        }
    }

    // Waits for a datagram that can be answered, for two seconds, or until the end.
    fn wait(&mut self, piece: &mut [u8]) -> Result<Waited, Failed>
        ensures given { MatchResult result
            (λ waited. GivesWaited (S.passed self.old.socket) (S.passed self.new.socket) waited piece.new)
            (λ _. Repeats is_passed_over (S.passed self.old.socket) (S.passed self.new.socket)) }
        ensures over { IfOk result (λ waited. waited ≡ Over → self.new.watch.is_over ≡ true) }
        ensures others { self.new ≡ record self.old { socket = self.new.socket; watch = self.new.watch } }
    {
        let mut waits = 0;
        for _ in 0..u64::MAX {
            match self.wait_once(piece, &mut waits) {
                Ok(None) => {}
                Ok(Some(waited)) => return Ok(waited),
                Err(Failed) => return Err(Failed),
            }
        }
        Err(Failed)
    }

    // Heeds the kiss code of a datagram that came at the latest moment.
    #[inline(never)]
    fn heed(&mut self, mut asking: Asking, from: Address, bytes: &[u8])
        ensures asking { self.new.asking ≡ Some (after_kiss asking self.old.latest (kiss_for asking from bytes.now)) }
        ensures never { is_never (kiss_for asking from bytes.now) ≡ true → self.new.watch.is_over ≡ true }
        ensures others { self.new ≡ record self.old { asking = self.new.asking; watch = self.new.watch } }
    {
        if asking.heed(self.latest, from, bytes) {
            self.watch.end();
        }
        self.asking = Some(asking);
    }

    // A datagram came now.
    fn take(&mut self, from: Address, count: usize, piece: &[u8]) -> Arrival
        requires { count ≤ length piece.now }
        ensures arrival { (result.from ≡ from) × (result.length ≡ count) × (result.at ≡ self.new.latest) }
        ensures later { self.old.latest ≤ self.new.latest }
        ensures asking { self.new.asking ≡ heeding self.old.asking self.new.latest from (take count piece.now) }
        ensures never { IfSome self.old.asking (λ a. is_never (kiss_for a from (take count piece.now)) ≡ true → self.new.watch.is_over ≡ true) }
        ensures others { self.new ≡ record self.old { latest = self.new.latest; asking = self.new.asking; watch = self.new.watch } }
    {
        self.latest = self.now();
        if let Some(asking) = self.asking {
            self.heed(asking, from, &piece[..count]);
        }
        Arrival {
            from,
            length: count,
            at: self.latest,
        }
    }

    // For how many microseconds a request has to wait now.
    fn wait_to_ask(&self, asking: &Asking) -> u64
        ensures { result ≡ 0 → NeedsNoWait asking.now.pace self.now.start self.now.latest }
    {
        asking.pace.wait(self.now())
    }

    // Waits until a request may be made, or until the end.
    fn pause(&mut self, asking: &Asking)
        ensures paced { (self.new.watch.is_over ≡ true) ⊎ NeedsNoWait asking.now.pace self.old.start self.old.latest }
        ensures over { self.old.watch.is_over ≡ true → self.new.watch.is_over ≡ true }
        ensures others { self.new ≡ record self.old { watch = self.new.watch } }
    {
        self.watch.begin(self.rt);
        for _ in 0..u64::MAX {
            if self.watch.is_over {
                return;
            }
            let wait = self.wait_to_ask(asking);
            if wait == 0 {
                return;
            }
            thread::sleep(self.rt, Duration::from_micros(wait.min(NAP)));
            self.watch.look();
        }
        self.watch.end();
    }

    // A request is made now, after it has waited, or after the link has ended.
    #[inline(never)]
    fn ask(&mut self, mut asking: Asking) -> Local
        ensures paced { (self.new.watch.is_over ≡ true) ⊎ NeedsNoWait asking.pace self.old.start self.old.latest }
        ensures over { self.old.watch.is_over ≡ true → self.new.watch.is_over ≡ true }
        ensures later { self.old.latest ≤ result }
        ensures value { (counted : Option ℕ) × (result ≡ moment_of self.old.start self.old.latest counted) }
        ensures asked { self.new.asking ≡ Some (record asking { pace = asked_at asking.pace result }) }
        ensures others { self.new ≡ record self.old { latest = result; asking = self.new.asking; watch = self.new.watch } }
    {
        self.pause(&asking);
        self.latest = self.now();
        asking.ask(self.latest);
        self.asking = Some(asking);
        self.latest
    }

    // These bytes are sent as a request.
    #[inline(never)]
    fn note(&mut self, mut asking: Asking, to: Address, bytes: &[u8])
        ensures asking { self.new.asking ≡ Some (sending asking to bytes.now) }
        ensures others { self.new ≡ record self.old { asking = self.new.asking } }
    {
        asking.send(to, bytes);
        self.asking = Some(asking);
    }
}

// What the waiting for a datagram comes to.
#[derive(Drop)]
pub enum Waited {
    // A datagram that can be answered: its sender, and how many bytes of it were received.
    Came(Address, usize),
    // Nothing for two seconds.
    Silence,
    // The link has ended.
    Over,
}

impl<R: Clock + Sync, S: DatagramSocket + Send + Drop> Link for ServiceLink<'_, R, S> {
    ghost state = { λ s. record { events = None; latest = s.latest; faults = s.faults } };

    ghost opening = { λ s. 0 };

    fn hear(&mut self, piece: &mut [u8; 1024]) -> Result<Hearing, Failed>
        ensures heard { MatchResult result
            (λ hearing. ReceivesNext (socket_state self.old.latest self.old.faults)
            (socket_state self.new.latest self.new.faults) hearing piece.new)
            (λ _. IsDeaf (socket_state self.old.latest self.old.faults)
            (socket_state self.new.latest self.new.faults)) }
        ensures cause { HasCause self.old.faults self.new.faults result }
        ensures number { file_number ≡ file_number }

        // It receives what the socket gave.
        ensures socket { MatchResult result
            (λ hearing. GivesUntilEnd (S.passed self.old.socket) (S.passed self.new.socket) hearing piece.new)
            (λ _. Repeats is_passed_over (S.passed self.old.socket) (S.passed self.new.socket)) }

        // A link that has ended stays ended.
        ensures ended { self.old.watch.is_over ≡ true → result ≡ Ok End }
        ensures over { IfOk result (λ hearing. hearing ≡ End → self.new.watch.is_over ≡ true) }
        ensures start { self.new.start ≡ self.old.start }

        // A link to a server heeds its kiss codes.
        ensures heeds { IfOk result (λ hearing. self.new.asking ≡ after_hearing self.old.asking hearing piece.new) }
        ensures never { IfOk result (λ hearing. ends_asking self.old.asking hearing piece.new ≡ true → self.new.watch.is_over ≡ true) }
    {
        self.watch.begin(self.rt);
        self.watch.look_when_due(self.latest);
        if self.watch.is_over {
            return Ok(Hearing::End);
        }
        match self.wait(piece.as_mut_slice()) {
            Ok(Waited::Came(from, length)) => {
                Ok(Hearing::Datagram(self.take(from, length, piece.as_slice())))
            }
            Ok(Waited::Silence) => Ok(Hearing::Quiet),
            Ok(Waited::Over) => Ok(Hearing::End),
            Err(Failed) => Err(self.fail()),
        }
    }

    fn moment(&mut self) -> Local
        ensures reported { ReportsMoment (socket_state self.old.latest self.old.faults)
            (socket_state self.new.latest self.new.faults) result }
        ensures number { file_number ≡ file_number }

        // It reads the host's counter. A link to a server has waited before, as its pace wants, or has ended.
        ensures value { (counted : Option ℕ) × (result ≡ moment_of self.old.start self.old.latest counted) }
        ensures answering { self.old.asking ≡ None → self.new ≡ record self.old { latest = result } }
        ensures paced { IfSome self.old.asking (λ a. (self.new.watch.is_over ≡ true) ⊎ NeedsNoWait a.pace self.old.start self.old.latest) }
        ensures asked { IfSome self.old.asking (λ a. self.new.asking ≡ Some (record a { pace = asked_at a.pace result })) }
        ensures over { self.old.watch.is_over ≡ true → self.new.watch.is_over ≡ true }
        ensures others { self.new ≡ record self.old { latest = result; asking = self.new.asking; watch = self.new.watch } }
    {
        match self.asking {
            Some(asking) => self.ask(asking),
            None => {
                self.latest = self.now();
                self.latest
            }
        }
    }

    fn send(&mut self, to: Address, bytes: &[u8]) -> Result<(), Failed>
        ensures sent { Sends (socket_state self.old.latest self.old.faults)
            (socket_state self.new.latest self.new.faults) result to bytes.now }
        ensures cause { HasCause self.old.faults self.new.faults result }
        ensures number { file_number ≡ file_number }

        // The socket took the whole datagram, where there was a route. A link that has ended sends nothing.
        ensures socket { PostsUntilEnd self.old.watch.is_over (S.passed self.old.socket) (S.passed self.new.socket) result to bytes.now }
        ensures over { self.new.watch ≡ self.old.watch }
        ensures start { self.new.start ≡ self.old.start }

        // A link to a server keeps the request.
        ensures asking { self.new.asking ≡ if self.old.watch.is_over then self.old.asking else noting self.old.asking to bytes.now }
    {
        if self.watch.is_over {
            return Ok(());
        }
        if let Some(asking) = self.asking {
            self.note(asking, to, bytes);
        }
        match send_whole(&mut self.socket, to, bytes) {
            Ok(()) => Ok(()),
            Err(Failed) => Err(self.fail()),
        }
    }
}
