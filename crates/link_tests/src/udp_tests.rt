// Sockets as links: over a socket that is interrupted, silent or fails, and over the host's own.
ghost use Rattle.std.specs.Prelude.{◌≡◌};

use crate::memory_tests::{Host, is_read, same};
use feed_link::{Address, Failed, Hearing, Link, Outside};
use host_links::{Counter, DatagramSocket, HostOutside, Refusal, UdpLink, send_whole};
use std::io::{self, ErrorKind};
use std::net::{IpAddr, Ipv4Addr, SocketAddr, UdpSocket};
use std::process::Abort;
use std::test::Fail;
use std::thread;
use std::time::{Clock, Duration};
use tick_units::Local;

pub(crate) fn moment(microseconds: u32) -> Local {
    Local::new(u64::from(microseconds)).unwrap()
}

pub(crate) fn loopback(port: u16) -> SocketAddr {
    SocketAddr::new(IpAddr::V4(Ipv4Addr::LOCALHOST), port)
}

// A socket whose first calls fail in a stated way, a stated number of times. Then it gives some datagrams from a port and all
// others from port 7, and takes all that is sent, and counts it.
#[derive(Drop)]
struct Shaky {
    kind: ErrorKind,
    calls: u32,
    port: u16,
    /// How many datagrams come from the port.
    count: u32,
    /// How many bytes fewer it takes than are given.
    short: usize,
    /// How many datagrams it took.
    taken: u32,
}

impl Shaky {
    fn fails(&mut self) -> bool {
        if self.calls == 0 {
            return false;
        }
        self.calls -= 1;
        true
    }
}

impl DatagramSocket for Shaky {
    fn receive(&mut self, piece: &mut [u8]) -> io::Result<(usize, SocketAddr)> {
        if self.fails() {
            return Err(io::Error::from(self.kind));
        }
        let port = if self.count == 0 { 7 } else { self.port };
        self.count = self.count.saturating_sub(1);
        Ok((piece.len().min(3), loopback(port)))
    }

    fn transmit(&mut self, _: SocketAddr, bytes: &[u8]) -> io::Result<usize> {
        if self.fails() {
            return Err(io::Error::from(self.kind));
        }
        self.taken = self.taken.saturating_add(1);
        Ok(bytes.len().saturating_sub(self.short))
    }
}

// The port of the sender from which a link receives next, or 0 where nothing came.
fn port_of(link: &mut impl Link) -> Result<u16, Failed> {
    let mut piece = [0u8; 1024];
    match link.hear(&mut piece) {
        Ok(Hearing::Datagram(arrival)) => Ok(arrival.from.port),
        Ok(_) => Ok(0),
        Err(failed) => Err(failed),
    }
}

// What a link receives over a socket whose first calls fail: the sender's port, or 0 where nothing came.
fn heard(rt: &HostRuntime, socket: Shaky) -> Result<u16, Failed> {
    let mut link = UdpLink::new(socket, Counter::new(rt), moment(5));
    port_of(&mut link)
}

// How a sending over such a socket ends, and how many datagrams the socket took.
fn sent(socket: Shaky) -> (Result<(), Failed>, u32) {
    let mut socket = socket;
    let to = Address {
        ip: 0x7f00_0001,
        port: 9,
    };
    let sent = send_whole(&mut socket, to, b"a");
    (sent, socket.taken)
}

// A socket whose first calls fail, and which then gives one datagram from a port.
fn failing(kind: ErrorKind, calls: u32, port: u16) -> Shaky {
    Shaky {
        kind,
        calls,
        port,
        count: 1,
        short: 0,
        taken: 0,
    }
}

// What was received is from this port.
fn is_from(rt: &impl Abort, heard: Result<u16, Failed>, port: Result<u16, Failed>) {
    same(rt, heard, port);
}

// How a sending ends, and how many datagrams were taken.
type Sending = (Result<(), Failed>, u32);

// A sending ended so.
fn has_ended(rt: &impl Abort, sent: Sending, want: Sending) {
    same(rt, sent, want);
}

// How a hearing ends, and a sending.
type Ends = (Result<u16, Failed>, Sending);

const FAULTS: Ends = (Err(Failed), (Err(Failed), 0));

const QUIET_AND_FAULT: Ends = (Ok(0), (Err(Failed), 0));

const FAULT_AND_LOSS: Ends = (Err(Failed), (Ok(()), 0));

const HEARD_AND_LOSS: Ends = (Ok(123), (Ok(()), 0));

const DONE: Ends = (Ok(123), (Ok(()), 1));

// How both end after `calls` calls that fail with `kind`.
fn tried(rt: &HostRuntime, kind: ErrorKind, calls: u32) -> Ends {
    (
        heard(rt, failing(kind, calls, 123)),
        sent(failing(kind, calls, 123)),
    )
}

fn end(rt: &impl Abort, tried: Ends, want: Ends) {
    same(rt, tried, want);
}

#[test]
fn silence_is_quiet_and_an_error_of_the_socket_is_a_fault(rt: HostRuntime) {
    end(&rt, tried(&rt, ErrorKind::WouldBlock, 1), QUIET_AND_FAULT);
    end(&rt, tried(&rt, ErrorKind::TimedOut, 1), QUIET_AND_FAULT);
    end(&rt, tried(&rt, ErrorKind::NotConnected, 1), FAULTS);
    end(&rt, tried(&rt, ErrorKind::AddrNotAvailable, 1), FAULTS);
    end(&rt, tried(&rt, ErrorKind::OutOfMemory, 1), FAULTS);
}

#[test]
fn a_call_is_made_again_that_was_interrupted_or_reported_of_another_datagram(rt: HostRuntime) {
    end(&rt, tried(&rt, ErrorKind::Interrupted, 3), DONE);
    end(&rt, tried(&rt, ErrorKind::Interrupted, 200), DONE);
    end(&rt, tried(&rt, ErrorKind::ConnectionRefused, 3), DONE);
    end(&rt, tried(&rt, ErrorKind::ConnectionRefused, 200), DONE);
    end(&rt, tried(&rt, ErrorKind::ConnectionReset, 3), DONE);
    end(&rt, tried(&rt, ErrorKind::ConnectionReset, 200), DONE);
    end(
        &rt,
        tried(&rt, ErrorKind::HostUnreachable, 3),
        HEARD_AND_LOSS,
    );
    end(
        &rt,
        tried(&rt, ErrorKind::HostUnreachable, 200),
        HEARD_AND_LOSS,
    );
    end(
        &rt,
        tried(&rt, ErrorKind::NetworkUnreachable, 3),
        HEARD_AND_LOSS,
    );
    end(
        &rt,
        tried(&rt, ErrorKind::NetworkUnreachable, 200),
        HEARD_AND_LOSS,
    );
}

#[test]
fn a_datagram_without_a_way_is_lost_and_no_fault(rt: HostRuntime) {
    end(&rt, tried(&rt, ErrorKind::NetworkDown, 1), FAULT_AND_LOSS);
    end(
        &rt,
        tried(&rt, ErrorKind::PermissionDenied, 1),
        FAULT_AND_LOSS,
    );
    end(&rt, tried(&rt, ErrorKind::InvalidInput, 1), FAULT_AND_LOSS);
}

// How a sending ends where the host never has a route, for this reason.
fn sent_without_route(kind: ErrorKind) -> Sending {
    sent(failing(kind, u32::MAX, 123))
}

// The network is not there for as long as it takes: a link that serves must outlast that (docs/OPERATING.md, status 7).
#[test]
fn a_network_that_stays_away_is_no_fault(rt: HostRuntime) {
    let sent = sent_without_route(ErrorKind::HostUnreachable);
    has_ended(&rt, sent, (Ok(()), 0));
    let sent = sent_without_route(ErrorKind::NetworkUnreachable);
    has_ended(&rt, sent, (Ok(()), 0));
}

#[test]
fn a_sender_without_a_port_is_not_heard(rt: HostRuntime) {
    is_from(&rt, heard(&rt, failing(ErrorKind::Other, 0, 0)), Ok(7));
    is_from(&rt, heard(&rt, failing(ErrorKind::Other, 0, 9)), Ok(9));
}

#[test]
fn a_flood_from_port_0_ends_no_hearing(rt: HostRuntime) {
    let socket = Shaky {
        kind: ErrorKind::Other,
        calls: 0,
        port: 0,
        count: 50_000,
        short: 0,
        taken: 0,
    };
    is_from(&rt, heard(&rt, socket), Ok(7));
}

#[test]
fn a_datagram_that_is_taken_in_part_is_a_fault(rt: HostRuntime) {
    let socket = Shaky {
        kind: ErrorKind::Other,
        calls: 0,
        port: 123,
        count: 1,
        short: 1,
        taken: 0,
    };
    has_ended(&rt, sent(socket), (Err(Failed), 1));
}

// A socket on which a datagram comes after 20 ms.
#[derive(Drop)]
struct Late<'a> {
    rt: &'a HostRuntime,
}

impl DatagramSocket for Late<'_> {
    fn receive(&mut self, piece: &mut [u8]) -> io::Result<(usize, SocketAddr)> {
        thread::sleep(self.rt, Duration::from_millis(20));
        Ok((piece.len().min(3), loopback(123)))
    }

    fn transmit(&mut self, _: SocketAddr, bytes: &[u8]) -> io::Result<usize> {
        Ok(bytes.len())
    }
}

// For how many microseconds a link waits for a datagram, by the moment that this has; none where no datagram comes.
fn wait_of(link: &mut impl Link) -> Option<u64> {
    let mut piece = [0u8; 1024];
    let before = link.moment().get();
    match link.hear(&mut piece) {
        Ok(Hearing::Datagram(arrival)) => Some(arrival.at.get().saturating_sub(before)),
        _ => None,
    }
}

#[test]
fn a_datagram_has_the_moment_at_which_it_came(rt: HostRuntime) {
    let mut link = UdpLink::new(Late { rt: &rt }, Counter::new(&rt), moment(5));
    let waited = wait_of(&mut link);
    assert!(rt; waited.is_some() && waited >= Some(20_000));
}

// A host whose clock of day goes back by a second in each second.
#[derive(Drop)]
struct SetBack<'a> {
    rt: &'a HostRuntime,
}

impl Clock for SetBack<'_> {
    fn monotonic(&self) -> io::Result<Duration> {
        self.rt.monotonic()
    }

    fn since_1970(&self) -> io::Result<Duration> {
        let since_start = self.rt.monotonic()?;
        Ok(Duration::from_secs(2_000_000_000).saturating_sub(since_start))
    }
}

#[test]
fn moments_go_on_where_the_clock_of_day_is_set_back(rt: HostRuntime) {
    let host = SetBack { rt: &rt };
    let mut link = UdpLink::new(
        failing(ErrorKind::Other, 0, 123),
        Counter::new(&host),
        moment(5),
    );
    let before = link.moment().get();
    thread::sleep(&rt, Duration::from_millis(20));
    let waited = link.moment().get().saturating_sub(before);
    assert!(rt; waited >= 20_000);
}

#[test]
fn moments_are_of_single_microseconds(rt: HostRuntime) {
    let mut link = UdpLink::new(
        failing(ErrorKind::Other, 0, 123),
        Counter::new(&rt),
        moment(0),
    );
    let mut is_odd = false;
    for _ in 0..100_000 {
        is_odd = is_odd || link.moment().get() % 1_000 != 0;
    }
    assert!(rt; is_odd);
}

fn is_refused_as(rt: &impl Abort, kind: ErrorKind, refusal: Refusal) {
    same(rt, Refusal::of(kind), refusal);
}

// The last refusal of the host is this.
fn has_refused(rt: &impl Abort, outside: &Host<'_>, refusal: Option<Refusal>) {
    same(rt, outside.refusal(), refusal);
}

#[test]
fn a_host_says_why_it_refused(rt: HostRuntime) {
    is_refused_as(&rt, ErrorKind::NotFound, Refusal::NotThere);
    is_refused_as(&rt, ErrorKind::PermissionDenied, Refusal::NoRight);
    is_refused_as(&rt, ErrorKind::AddrInUse, Refusal::Taken);
    is_refused_as(&rt, ErrorKind::IsADirectory, Refusal::Other);
    let mut outside = HostOutside::new(&rt);
    has_refused(&rt, &outside, None);
    is_read(&rt, &mut outside, "nosuch", Err(Failed));
    has_refused(&rt, &outside, Some(Refusal::NotThere));
}

// The client of a link: a socket of the host that waits for at most two seconds, and its address.
#[derive(Drop)]
pub(crate) struct Client {
    pub(crate) socket: UdpSocket,
    pub(crate) address: Address,
}

pub(crate) fn client_of(rt: &HostRuntime) -> io::Result<Client> {
    let mut socket = UdpSocket::bind(rt, loopback(0))?;
    socket.set_read_timeout(Some(Duration::from_secs(2)))?;
    let address = Address {
        ip: 0x7f00_0001,
        port: socket.local_addr()?.port(),
    };
    Ok(Client { socket, address })
}

// A client receives these bytes, and the answer is where they came from.
fn receives(rt: &impl Abort, client: &mut Client, bytes: &[u8]) -> SocketAddr {
    let mut piece = [0u8; 1024];
    match client.socket.receive(&mut piece) {
        Ok((length, from)) => {
            same(rt, &piece[..length], bytes);
            from
        }
        Err(error) => panic!(*rt; "{error:?}"),
    }
}

// A client sends these bytes, all at once.
pub(crate) fn transmits(rt: &impl Abort, client: &mut Client, to: SocketAddr, bytes: &[u8]) {
    same(
        rt,
        client.socket.transmit(to, bytes).ok(),
        Some(bytes.len()),
    );
}

// What a link receives of a datagram: from whom, how many bytes, whether these are the first of them, and whether its moment lies
// between two that the link gives.
fn brought(link: &mut impl Link, bytes: &[u8]) -> Option<(Address, usize, bool, bool)> {
    let mut piece = [0u8; 1024];
    let first = link.moment().get();
    let heard = link.hear(&mut piece);
    let last = link.moment().get();
    match heard {
        Ok(Hearing::Datagram(arrival)) => {
            let at = arrival.at.get();
            let is_between = first <= at && at <= last;
            let begins = piece.starts_with(bytes);
            Some((arrival.from, arrival.length, begins, is_between))
        }
        _ => None,
    }
}

// A link receives a datagram from this address, of which it keeps these bytes.
fn brings(rt: &impl Abort, link: &mut impl Link, from: Address, bytes: &[u8]) {
    let found = brought(link, bytes);
    same(rt, found, Some((from, bytes.len(), true, true)));
}

fn sends(rt: &impl Abort, link: &mut impl Link, to: Address) {
    same(rt, link.send(to, b"abc"), Ok(()));
}

// A link and its client talk. The link is bound to all addresses of the host.
fn talk(rt: &impl Abort, link: &mut impl Link, client: &mut Client) {
    let to = client.address;
    sends(rt, link, to);
    let from = receives(rt, client, b"abc");
    transmits(rt, client, from, &[7; 1100]);
    brings(rt, link, to, &[7; 1024]);
    let other = SocketAddr::new(IpAddr::V4(Ipv4Addr::new(127, 0, 0, 2)), from.port());
    transmits(rt, client, other, b"xy");
    brings(rt, link, to, b"xy");
}

// For how many microseconds a link waits to which nothing comes; none where it hears something, or fails.
fn silence(link: &mut impl Link) -> Option<u64> {
    let mut piece = [0u8; 1024];
    let before = link.moment().get();
    match link.hear(&mut piece) {
        Ok(Hearing::Quiet) => Some(link.moment().get().saturating_sub(before)),
        _ => None,
    }
}

// A busy host may wake a link late, but hardly by 0.9 s three times. This is the least of its waits.
fn least_silence(rt: &impl Abort, link: &mut impl Link) -> u64 {
    let mut least = u64::MAX;
    for _ in 0..3 {
        if least >= 2_900_000 {
            least = least.min(silence(link).expect(rt, "no silence"));
        }
    }
    least
}

// What is done with a link of the host.
#[derive(Drop)]
enum Task {
    Talk(Client),
    Send(Address),
    Look,
}

// Does it. What it returns is the link's first moment, or for how long it was silent after what it sent.
fn work(rt: &impl Abort, link: &mut impl Link, task: &mut Task) -> u64 {
    let first = link.moment().get();
    match task {
        Task::Talk(client) => {
            talk(rt, link, client);
            first
        }
        Task::Send(to) => {
            sends(rt, link, *to);
            least_silence(rt, link)
        }
        Task::Look => first,
    }
}

// Opens a link on a port, does something with it and gives it back.
fn visit(
    rt: &impl Abort,
    outside: &mut Host<'_>,
    port: u16,
    start: u32,
    task: &mut Task,
) -> Result<u64, Failed> {
    let Ok(mut link) = outside.open_link(port, moment(start)) else {
        return Err(Failed);
    };
    let found = work(rt, &mut link, task);
    outside.give_back_link(link);
    Ok(found)
}

// The link of a free port, and a client.
#[test]
fn a_link_of_the_host_receives_and_answers(rt: HostRuntime) -> Result<(), Fail> {
    let mut task = Task::Talk(client_of(&rt)?);
    let mut outside = HostOutside::new(&rt);
    let first = visit(&rt, &mut outside, 0, 50, &mut task);
    assert!(rt; first.unwrap_or(0) >= 50);
    Ok(())
}

#[test]
fn two_seconds_of_silence_are_quiet_also_after_a_dead_server(rt: HostRuntime) {
    let mut outside = HostOutside::new(&rt);
    let dead = Address {
        ip: 0x7f00_0001,
        port: 9,
    };
    let least = visit(&rt, &mut outside, 0, 0, &mut Task::Send(dead)).unwrap_or(0);
    assert!(rt; least >= 1_900_000 && least < 2_900_000);

    // The moments of a later link count from its own start on, by the same counter.
    let first = visit(&rt, &mut outside, 0, 7_000_000, &mut Task::Look).unwrap_or(0);
    assert!(rt; first >= 8_900_000 && first < 67_000_000);
}

// A host hands its gate out and takes it back.
fn hands_out_its_gate(rt: &HostRuntime) {
    let mut outside = HostOutside::new(rt);
    let gate = outside.gate();
    outside.give_back_gate(gate);
}

#[test]
fn a_port_that_is_taken_cannot_be_opened(rt: HostRuntime) -> Result<(), Fail> {
    let taken = client_of(&rt)?;
    let mut outside = HostOutside::new(&rt);
    let found = visit(&rt, &mut outside, taken.address.port, 0, &mut Task::Look);
    same(&rt, found, Err(Failed));
    has_refused(&rt, &outside, Some(Refusal::Taken));
    hands_out_its_gate(&rt);
    Ok(())
}
