// A real link: a socket of UDP.
ghost use Rattle.std.specs.Prelude.{◌≡◌, ℕ, ◌≤◌, ◌/◌, ◌^◌, ◌-◌, min, List, None, Option, length, IfOk, IfSome, MatchOption, MatchResult};
ghost use Rattle.std.specs.Duration.{as_nanos};
ghost use Rattle.outside_traits.specs.Faults.{RoseByOne, HasCause};
ghost use Rattle.outside_traits.specs.Links.{ReceivesNext, IsDeaf, ReportsMoment, Sends};
ghost use Rattle.host_links.specs.Real.{socket_state, file_number};
ghost use Rattle.host_links.specs.Sockets.{Passed, Receives, Transmits, Gives, GivesNone, GivesHearing, GivesOnce, PassesOver, IsFor, Posts, Repeats, address_of, is_lost, is_passed_over, is_sent_again, moment_of};

use outside_traits::{Address, Arrival, Failed, Hearing, Link};
use std::io::{self, ErrorKind};
use std::net::{IpAddr, Ipv4Addr, SocketAddr, UdpSocket};
use std::time::{Clock, Duration, Instant};
use tick_units::Local;

// How often a datagram is sent again where the host was interrupted or reported an error of an earlier one.
const TRIES: u32 = 1000;

// The number of the greatest moment.
const GREATEST_MOMENT: u64 = (1 << 50) - 1;

/// A socket that gives and takes datagrams, with a bound on how long it waits for one.
pub trait DatagramSocket {
    /// What it gave and took so far, where that is known. It is not known of the host's own socket.
    ghost passed: { Self → Option (List Passed) } = { λ _. None };

    /// The next datagram: how many of its bytes stand in the piece, and who sent it.
    fn receive(&mut self, piece: &mut [u8]) -> io::Result<(usize, SocketAddr)>
        ensures within { IfOk result (λ r. r.0 ≤ length piece.new) }
        ensures given { Receives (passed self.old) (passed self.new) result piece.new };

    /// Sends a datagram: how many of its bytes were taken.
    fn transmit(&mut self, to: SocketAddr, bytes: &[u8]) -> io::Result<usize>
        ensures within { IfOk result (λ n. n ≤ length bytes.now) }
        ensures taken { Transmits (passed self.old) (passed self.new) result to bytes.now };
}

impl DatagramSocket for UdpSocket {
    fn receive(&mut self, piece: &mut [u8]) -> io::Result<(usize, SocketAddr)> {
        self.recv_from(piece)
    }

    fn transmit(&mut self, to: SocketAddr, bytes: &[u8]) -> io::Result<usize> {
        self.send_to(bytes, to)
    }
}

/// The host's counter, as links count it: microseconds since an outside was made.
#[derive(Drop)]
pub struct Counter<'a, R: Clock> {
    rt: &'a R,
    made: Option<Instant>,
}

impl<'a, R: Clock> Counter<'a, R> {
    /// It counts from now on, or stands still where nothing can read the clock.
    pub fn new(rt: &'a R) -> Counter<'a, R>
        ensures { result.rt.now ≡ rt.now }
    {
        Counter {
            rt,
            made: Instant::now(rt).ok(),
        }
    }

    /// The same counter.
    pub fn again(&self) -> Counter<'a, R>
        ensures { result ≡ self.now }
    {
        Counter {
            rt: self.rt,
            made: self.made,
        }
    }

    // How many microseconds it has counted, where the clock can be read.
    fn microseconds(&self) -> Option<u64> {
        let made = self.made?;
        let elapsed = made.elapsed(self.rt).ok()?;
        Some(whole_microseconds(elapsed))
    }
}

/// A duration in whole microseconds.
pub fn whole_microseconds(elapsed: Duration) -> u64
    ensures { result ≡ min (as_nanos elapsed / 1_000) (2 ^ 64 - 1) }
{
    u64::try_from(elapsed.as_micros()).unwrap_or(u64::MAX)
}

/// The moment of a counter that was at `start` this many microseconds ago. It is the latest one again where nothing can read the
/// counter, or where it has stood still.
pub fn moment_at(start: Local, latest: Local, counted: Option<u64>) -> Local
    ensures { result ≡ moment_of start latest counted }
{
    let Some(counted) = counted else {
        return latest;
    };
    let at = start.get().saturating_add(counted).min(GREATEST_MOMENT);
    match Local::new(at) {
        Some(at) if at.get() > latest.get() => at,
        _ => latest,
    }
}

/// A socket as a link. It counts its faults and reports nothing of what it receives and sends.
#[derive(Drop)]
pub struct UdpLink<'a, R: Clock, S: DatagramSocket + Drop> {
    socket: S,
    counter: Counter<'a, R>,
    start: Local,
    latest: Local,
    faults: u64,
}

// The sender of a datagram, where it can be answered: it has an IPv4 address and a port.
fn sender(from: SocketAddr) -> Option<Address>
    ensures { result ≡ address_of from }
{
    match from {
        SocketAddr::V4(v4) if v4.port() != 0 => Some(Address {
            ip: v4.ip().to_bits(),
            port: v4.port(),
        }),
        _ => None,
    }
}

// Where a socket sends to.
fn receiver(to: Address) -> SocketAddr
    ensures { IsFor to result }
{
    SocketAddr::new(IpAddr::V4(Ipv4Addr::from_bits(to.ip)), to.port)
}

// Whether the host was interrupted, or reports an error of an earlier datagram. The sending is then repeated.
fn is_sent_again(kind: ErrorKind) -> bool
    ensures { result ≡ is_sent_again kind }
{
    matches!(
        kind,
        ErrorKind::Interrupted | ErrorKind::ConnectionRefused | ErrorKind::ConnectionReset
    )
}

// Whether the host has no way for a datagram, or may not send it. The datagram is then lost, as any may be; the link has no fault.
fn is_lost(kind: ErrorKind) -> bool
    ensures { result ≡ is_lost kind }
{
    matches!(
        kind,
        ErrorKind::HostUnreachable
            | ErrorKind::NetworkUnreachable
            | ErrorKind::NetworkDown
            | ErrorKind::PermissionDenied
            | ErrorKind::InvalidInput
    )
}

// Whether a hearing is repeated: the host was interrupted, or reports an error of a datagram that was sent.
fn is_of_another(kind: ErrorKind) -> bool {
    is_sent_again(kind)
        || matches!(
            kind,
            ErrorKind::HostUnreachable | ErrorKind::NetworkUnreachable
        )
}

/// What one call of a socket gave.
#[derive(Drop)]
pub enum Received {
    /// A datagram that can be answered: its sender, and how many bytes of it were received.
    Answerable(Address, usize),
    /// A datagram that cannot be answered, an error of an earlier datagram, or an interruption.
    PassedOver,
    /// The socket's time ran out.
    Nothing,
}

/// Calls a socket once for a datagram.
pub fn receive_once<S: DatagramSocket>(socket: &mut S, piece: &mut [u8]) -> Result<Received, Failed>
    ensures { MatchResult result
        (λ received. GivesOnce (S.passed socket.old) (S.passed socket.new) received piece.new)
        (λ _. PassesOver (S.passed socket.old) (S.passed socket.new)) }
{
    match socket.receive(piece) {
        Ok((length, from)) => match sender(from) {
            Some(from) => Ok(Received::Answerable(from, length)),
            None => Ok(Received::PassedOver),
        },
        Err(e) if e.kind() == ErrorKind::WouldBlock || e.kind() == ErrorKind::TimedOut => {
            Ok(Received::Nothing)
        }
        Err(e) if is_of_another(e.kind()) => Ok(Received::PassedOver),
        Err(_) => Err(Failed),
    }
}

// Waits for a datagram that can be answered. Returns its sender and how many bytes of it were received, or None where the
// socket's time ran out.
#[tactic(auto, using(crate::proofs::SocketLaws::no_call, crate::proofs::SocketLaws::one_more))]
fn receive_some<S: DatagramSocket>(
    socket: &mut S,
    piece: &mut [u8],
) -> Result<Option<(Address, usize)>, Failed>
    ensures within { IfOk result (λ heard. IfSome heard (λ h. h.1 ≤ length piece.new)) }
    ensures given { MatchResult result
        (λ heard. MatchOption heard
        (GivesNone (S.passed socket.old) (S.passed socket.new))
        (λ h. Gives (S.passed socket.old) (S.passed socket.new) h.0 h.1 piece.new))
        (λ _. Repeats is_passed_over (S.passed socket.old) (S.passed socket.new)) }
{
    for _ in 0..u64::MAX {
        match receive_once(socket, piece) {
            Ok(Received::Answerable(from, length)) => return Ok(Some((from, length))),
            Ok(Received::PassedOver) => {}
            Ok(Received::Nothing) => return Ok(None),
            Err(Failed) => return Err(Failed),
        }
    }
    Err(Failed)
}

/// Sends a datagram whole. It is lost where the host has no way for it. It is a fault where the socket took only a part.
///
/// # Errors
/// The socket took a part of it, or failed for a reason that speaks of no other datagram and of no way, or failed a thousand times.
#[tactic(auto, using(crate::proofs::SocketLaws::no_call, crate::proofs::SocketLaws::one_more))]
pub fn send_whole<S: DatagramSocket>(
    socket: &mut S,
    to: Address,
    bytes: &[u8],
) -> Result<(), Failed>
    ensures { Posts (S.passed socket.old) (S.passed socket.new) result to bytes.now }
{
    let at = receiver(to);
    for _ in 0..TRIES {
        match socket.transmit(at, bytes) {
            Ok(count) if count == bytes.len() => return Ok(()),
            Ok(_) => return Err(Failed),
            Err(e) => {
                let kind = e.kind();
                if is_lost(kind) {
                    return Ok(());
                }
                if !is_sent_again(kind) {
                    return Err(Failed);
                }
            }
        }
    }
    Err(Failed)
}

impl<'a, R: Clock, S: DatagramSocket + Drop> UdpLink<'a, R, S> {
    /// The link of a socket, whose moments count from `start` on.
    pub fn new(socket: S, counter: Counter<'a, R>, start: Local) -> UdpLink<'a, R, S>
        ensures { result ≡ record {
          socket = socket;
          counter = counter.entry;
          start = start;
          latest = start;
          faults = 0;
        } }
    {
        UdpLink {
            socket,
            counter,
            start,
            latest: start,
            faults: 0,
        }
    }

    // A call failed.
    fn fail(&mut self) -> Failed
        ensures faults { RoseByOne self.old.faults self.new.faults }
        ensures later { self.old.faults ≤ self.new.faults }
        ensures others { self.new ≡ record self.old { faults = self.new.faults } }
    {
        self.faults = self.faults.saturating_add(1);
        Failed
    }

    // The moment now.
    fn now(&self) -> Local
        ensures later { self.now.latest ≤ result }
        ensures value { (counted : Option ℕ) × (result ≡ moment_of self.now.start self.now.latest counted) }
    {
        moment_at(self.start, self.latest, self.counter.microseconds())
    }
}

impl<R: Clock + Sync, S: DatagramSocket + Send + Drop> Link for UdpLink<'_, R, S> {
    ghost state = { λ s. record { events = None; latest = s.latest; faults = s.faults } };

    ghost opening = { λ s. 0 };

    fn hear(&mut self, piece: &mut [u8; 1024]) -> Result<Hearing, Failed>
        ensures heard { MatchResult result
            (λ hearing. ReceivesNext (socket_state self.old.latest self.old.faults)
            (socket_state self.new.latest self.new.faults) hearing piece.new)
            (λ _. IsDeaf (socket_state self.old.latest self.old.faults)
            (socket_state self.new.latest self.new.faults)) }
        ensures cause { HasCause self.old.faults self.new.faults result }
        ensures number { file_number ≡ file_number }

        // It receives what the socket gave.
        ensures socket { MatchResult result
            (λ hearing. GivesHearing (S.passed self.old.socket) (S.passed self.new.socket) hearing piece.new)
            (λ _. Repeats is_passed_over (S.passed self.old.socket) (S.passed self.new.socket)) }
        ensures counter { self.new.counter ≡ self.old.counter }
        ensures start { self.new.start ≡ self.old.start }
    {
        match receive_some(&mut self.socket, piece.as_mut_slice()) {
            Ok(Some((from, length))) => {
                self.latest = self.now();
                Ok(Hearing::Datagram(Arrival {
                    from,
                    length,
                    at: self.latest,
                }))
            }
            Ok(None) => Ok(Hearing::Quiet),
            Err(Failed) => Err(self.fail()),
        }
    }

    fn moment(&mut self) -> Local
        ensures reported { ReportsMoment (socket_state self.old.latest self.old.faults)
            (socket_state self.new.latest self.new.faults) result }
        ensures number { file_number ≡ file_number }

        // It reads the counter again, and the socket stays as it is.
        ensures value { (counted : Option ℕ) × (result ≡ moment_of self.old.start self.old.latest counted) }
        ensures others { self.new ≡ record self.old { latest = result } }
    {
        self.latest = self.now();
        self.latest
    }

    fn send(&mut self, to: Address, bytes: &[u8]) -> Result<(), Failed>
        ensures sent { Sends (socket_state self.old.latest self.old.faults)
            (socket_state self.new.latest self.new.faults) result to bytes.now }
        ensures cause { HasCause self.old.faults self.new.faults result }
        ensures number { file_number ≡ file_number }

        // The socket took the whole datagram, or the datagram is lost.
        ensures socket { Posts (S.passed self.old.socket) (S.passed self.new.socket) result to bytes.now }
        ensures counter { self.new.counter ≡ self.old.counter }
        ensures start { self.new.start ≡ self.old.start }
    {
        match send_whole(&mut self.socket, to, bytes) {
            Ok(()) => Ok(()),
            Err(Failed) => Err(self.fail()),
        }
    }
}
