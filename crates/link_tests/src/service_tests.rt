// Links that a supervisor holds: over the host's sockets and pairs of streams, and over a socket that answers as it is told.
use crate::memory_tests::same;
use crate::udp_tests::{Client, client_of, loopback, moment, transmits};
use feed_link::{Address, Failed, Hearing, Link};
use host_links::DatagramSocket;
use service_links::{
    Fault, HandedSocket, Kiss, Pace, ServiceLink, Signal, Watch, Word, kiss_of, read_words,
};
use std::alloc::Global;
use std::io::{self, ErrorKind};
use std::net::{SocketAddr, UdpSocket};
use std::os::unix::net::UnixStream;
use std::process::Abort;
use std::test::Fail;
use std::time::Clock;
use tick_units::{Local, Stamp};

// What a link hears, as a letter.
fn heard(link: &mut impl Link) -> char {
    let mut piece = [0u8; 1024];
    match link.hear(&mut piece) {
        Ok(Hearing::Datagram(_)) => 'd',
        Ok(Hearing::Quiet) => 'q',
        Ok(Hearing::End) => 'e',
        Err(Failed) => 'f',
    }
}

// A signal and the end of the pair that gives it when it is dropped.
fn signal_of(rt: &HostRuntime) -> io::Result<(Signal, UnixStream)> {
    let (ours, theirs) = UnixStream::pair(rt)?;
    Ok((Signal::new(theirs)?, ours))
}

// A socket of the host, and where it is.
fn socket_of(rt: &HostRuntime) -> io::Result<(HandedSocket, SocketAddr)> {
    let socket = UdpSocket::bind(rt, loopback(0))?;
    let at = socket.local_addr()?;
    Ok((HandedSocket::new(socket)?, at))
}

// For how many microseconds a link waits until it hears this.
fn wait_for(rt: &impl Abort, link: &mut impl Link, want: char) -> u64 {
    let before = link.moment().get();
    same(rt, heard(link), want);
    link.moment().get().saturating_sub(before)
}

#[test]
fn a_signal_is_given_once_its_other_end_is_closed(rt: HostRuntime) -> Result<(), Fail> {
    let (signal, ours) = signal_of(&rt)?;
    same(&rt, signal.is_given(), false);
    same(&rt, signal.is_given(), false);
    drop(ours);
    same(&rt, signal.is_given(), true);
    same(&rt, signal.is_given(), true);
    Ok(())
}

#[test]
fn what_lay_in_the_socket_is_heard_after_the_beginning(rt: HostRuntime) -> Result<(), Fail> {
    let (begin, ours) = signal_of(&rt)?;
    let (socket, at) = socket_of(&rt)?;
    let mut client = client_of(&rt)?;
    transmits(&rt, &mut client, at, b"abc");
    drop(ours);
    let watch = Watch::new(Some(&begin), None);
    let mut link = ServiceLink::answering(socket, &rt, moment(0), watch);
    same(&rt, heard(&mut link), 'd');
    Ok(())
}

// A socket whose waits of a tenth of a second run out so often, each after an interruption. Then it gives a datagram.
#[derive(Drop)]
struct Silent {
    waits: u32,
    interrupted: bool,
}

impl DatagramSocket for Silent {
    fn receive(&mut self, piece: &mut [u8]) -> io::Result<(usize, SocketAddr)> {
        self.interrupted = !self.interrupted;
        if self.interrupted {
            return Err(io::Error::from(ErrorKind::Interrupted));
        }
        if self.waits == 0 {
            return Ok((piece.len().min(3), loopback(9)));
        }
        self.waits -= 1;
        Err(io::Error::from(ErrorKind::WouldBlock))
    }

    fn transmit(&mut self, _: SocketAddr, bytes: &[u8]) -> io::Result<usize> {
        Ok(bytes.len())
    }
}

// What a link hears after so many waits.
fn heard_after(rt: &HostRuntime, waits: u32) -> char {
    let socket = Silent {
        waits,
        interrupted: false,
    };
    let mut link = ServiceLink::answering(socket, rt, moment(0), Watch::new(None, None));
    heard(&mut link)
}

// Twenty waits are two seconds, whatever was passed over between them.
#[test]
fn two_seconds_of_waits_are_a_silence(rt: HostRuntime) {
    same(&rt, heard_after(&rt, 19), 'd');
    same(&rt, heard_after(&rt, 20), 'q');
}

#[test]
fn a_link_that_never_began_ends_and_takes_nothing(rt: HostRuntime) -> Result<(), Fail> {
    let (begin, _held) = signal_of(&rt)?;
    let (end, ours) = signal_of(&rt)?;
    let (socket, at) = socket_of(&rt)?;
    let mut client = client_of(&rt)?;
    transmits(&rt, &mut client, at, b"abc");
    drop(ours);
    let watch = Watch::new(Some(&begin), Some(&end));
    let mut link = ServiceLink::answering(socket, &rt, moment(0), watch);
    let waited = wait_for(&rt, &mut link, 'e');
    same(&rt, waited < 250_000, true);
    same(&rt, heard(&mut link), 'e');
    Ok(())
}

#[test]
fn a_silent_link_ends_within_a_quarter_of_a_second(rt: HostRuntime) -> Result<(), Fail> {
    let (end, ours) = signal_of(&rt)?;
    let (socket, _) = socket_of(&rt)?;
    let mut link = ServiceLink::answering(socket, &rt, moment(0), Watch::new(None, Some(&end)));
    let silence = wait_for(&rt, &mut link, 'q');
    same(&rt, silence >= 1_900_000, true);
    drop(ours);
    let waited = wait_for(&rt, &mut link, 'e');
    same(&rt, waited < 250_000, true);
    same(&rt, heard(&mut link), 'e');
    Ok(())
}

// A link hears one datagram after its end was asked for, and then the end: the next look is due by the first one's moment.
#[test]
fn a_link_ends_under_datagrams(rt: HostRuntime) -> Result<(), Fail> {
    let (end, ours) = signal_of(&rt)?;
    let (socket, at) = socket_of(&rt)?;
    let mut client = client_of(&rt)?;
    transmits(&rt, &mut client, at, b"a");
    transmits(&rt, &mut client, at, b"b");
    transmits(&rt, &mut client, at, b"c");
    let mut link = ServiceLink::answering(socket, &rt, moment(0), Watch::new(None, Some(&end)));
    drop(ours);
    same(&rt, heard(&mut link), 'd');
    same(&rt, heard(&mut link), 'e');
    Ok(())
}

#[test]
fn moments_are_the_hosts_counter_after_the_start(rt: HostRuntime) -> Result<(), Fail> {
    let (socket, _) = socket_of(&rt)?;
    let mut link = ServiceLink::answering(socket, &rt, moment(5_000_000), Watch::new(None, None));
    let before = rt.monotonic()?.as_micros();
    let at = u128::from(link.moment().get());
    let after = rt.monotonic()?.as_micros();
    same(
        &rt,
        before + 5_000_000 <= at && at <= after + 5_000_000,
        true,
    );
    Ok(())
}

// The receiver of requests.
const SERVER: Address = Address {
    ip: 0x7f00_0001,
    port: 9,
};

// A request whose transmit timestamp is its moment.
fn request_at(at: Local) -> [u8; 48] {
    let mut bytes = [0u8; 48];
    bytes[0] = 0x23;
    bytes[40..].copy_from_slice(&at.get().to_be_bytes());
    bytes
}

// A kiss code for the request with this timestamp.
fn kiss_for(code: &[u8; 4], asked: u64) -> [u8; 48] {
    let mut bytes = [0u8; 48];
    bytes[0] = 0xe4;
    bytes[12..16].copy_from_slice(code);
    bytes[24..32].copy_from_slice(&asked.to_be_bytes());
    bytes
}

// A socket that answers the last request with a kiss code, with an origin timestamp that is so much greater.
#[derive(Drop)]
struct Kissing {
    code: [u8; 4],
    more: u64,
    asked: u64,
    sent: u32,
}

impl DatagramSocket for Kissing {
    fn receive(&mut self, piece: &mut [u8]) -> io::Result<(usize, SocketAddr)> {
        if self.asked == 0 || piece.len() < 48 {
            return Err(io::Error::from(ErrorKind::WouldBlock));
        }
        let bytes = kiss_for(&self.code, self.asked.wrapping_add(self.more));
        self.asked = 0;
        for (to, from) in piece.iter_mut().zip(bytes) {
            *to = from;
        }
        Ok((48, loopback(9)))
    }

    fn transmit(&mut self, _: SocketAddr, bytes: &[u8]) -> io::Result<usize> {
        self.sent = self.sent.saturating_add(1);
        if let Some((_, last)) = bytes.split_last_chunk::<8>() {
            self.asked = u64::from_be_bytes(*last);
        }
        Ok(bytes.len())
    }
}

// Asks once, and hears what comes.
fn asks(link: &mut impl Link) -> (u64, Result<(), Failed>, char) {
    let at = link.moment();
    let sent = link.send(SERVER, &request_at(at));
    (at.get(), sent, heard(link))
}

// A link that asks over a socket that answers so.
fn end_of(rt: &impl Abort, link: &mut impl Link, want: char) {
    same(rt, asks(link).2, 'd');
    same(rt, heard(link), want);
}

fn socket_with(code: &[u8; 4], more: u64) -> Kissing {
    Kissing {
        code: *code,
        more,
        asked: 0,
        sent: 0,
    }
}

#[test]
fn after_a_deny_for_its_request_a_link_has_ended(rt: HostRuntime) {
    let watch = Watch::new(None, None);
    let mut link = ServiceLink::asking(
        socket_with(b"DENY", 0),
        &rt,
        moment(5),
        watch,
        Pace::new(0),
    );
    end_of(&rt, &mut link, 'e');
    let (_, sent, then) = asks(&mut link);
    same(&rt, (sent, then), (Ok(()), 'e'));
}

#[test]
fn a_deny_for_another_request_is_passed_over(rt: HostRuntime) {
    let watch = Watch::new(None, None);
    let mut link = ServiceLink::asking(
        socket_with(b"DENY", 1),
        &rt,
        moment(5),
        watch,
        Pace::new(0),
    );
    end_of(&rt, &mut link, 'q');
}

// A link waits for its second request after a `RATE` to the first, until its end. It then sends nothing.
#[test]
fn the_end_cuts_a_wait_short(rt: HostRuntime) -> Result<(), Fail> {
    let (end, ours) = signal_of(&rt)?;
    let watch = Watch::new(None, Some(&end));
    let mut link = ServiceLink::asking(
        socket_with(b"RATE", 0),
        &rt,
        moment(5),
        watch,
        Pace::new(0),
    );
    let (first, ..) = asks(&mut link);
    drop(ours);
    let (second, sent, then) = asks(&mut link);
    same(&rt, (sent, then), (Ok(()), 'e'));
    same(&rt, second.saturating_sub(first) < 250_000, true);
    Ok(())
}

// The kiss code of an answer to the request with timestamp 77, where one byte of it is changed.
fn kiss_with(code: &[u8; 4], place: usize, byte: u8) -> Option<Kiss> {
    let mut bytes = kiss_for(code, 77);
    if let Some(at) = bytes.get_mut(place) {
        *at = byte;
    }
    kiss_of(&bytes, Stamp(77))
}

// The kiss code of the same answer without its last byte.
fn kiss_cut_short(code: &[u8; 4]) -> Option<Option<Kiss>> {
    let bytes = kiss_for(code, 77);
    let (_, short) = bytes.split_last()?;
    Some(kiss_of(short, Stamp(77)))
}

// Bytes 0, 1 and 24 to 31 are the mode, the stratum and the origin timestamp (RFC 5905, section 7.3).
#[test]
fn kiss_codes_are_those_of_the_rfc(rt: HostRuntime) {
    same(&rt, kiss_with(b"RATE", 48, 0), Some(Kiss::Slower));
    same(&rt, kiss_with(b"DENY", 48, 0), Some(Kiss::Never));
    same(&rt, kiss_with(b"RSTR", 48, 0), Some(Kiss::Never));
    same(&rt, kiss_with(b"INIT", 48, 0), None);
    same(&rt, kiss_with(b"RATE", 0, 0xe3), None);
    same(&rt, kiss_with(b"RATE", 1, 1), None);
    same(&rt, kiss_with(b"RATE", 24, 1), None);
    same(&rt, kiss_with(b"RATE", 31, 76), None);
    same(&rt, kiss_cut_short(b"RATE"), Some(None));
}

// The seconds of a pace after so many kiss codes `RATE` at a moment, at that moment or so many seconds later.
fn pace_after(pace: u16, kisses: u32, later: u16) -> u64 {
    let mut pace = Pace::new(pace);
    for _ in 0..kisses {
        pace.slow_down(moment(1_000_000));
    }
    let at = 1_000_000 + u64::from(later) * 1_000_000;
    pace.at(Local::new(at).unwrap()) / 1_000_000
}

#[test]
fn a_pace_doubles_up_to_1024_seconds_and_comes_back(rt: HostRuntime) {
    same(&rt, pace_after(16, 0, 0), 16);
    same(&rt, pace_after(16, 1, 0), 32);
    same(&rt, pace_after(16, 6, 0), 1024);
    same(&rt, pace_after(16, 7, 0), 1024);
    same(&rt, pace_after(16, 2, 14_399), 64);
    same(&rt, pace_after(16, 2, 14_400), 16);
    same(&rt, pace_after(0, 1, 0), 16);
    same(&rt, pace_after(1, 1, 0), 2);
    same(&rt, pace_after(2000, 1, 0), 2000);
}

// How many milliseconds a request has to wait that comes half a second after so many that were made at once.
fn wait_after(pace: u16, requests: u32) -> u64 {
    let mut pace = Pace::new(pace);
    for _ in 0..requests {
        pace.ask(moment(1_000_000));
    }
    pace.wait(moment(1_500_000)) / 1_000
}

#[test]
fn four_requests_need_not_wait(rt: HostRuntime) {
    same(&rt, wait_after(2, 0), 0);
    same(&rt, wait_after(2, 3), 0);
    same(&rt, wait_after(2, 4), 1_500);
    same(&rt, wait_after(2, 9), 1_500);
    same(&rt, wait_after(0, 9), 0);
}

// What is wrong with a text of words, and with which; how many words it has where nothing is wrong.
fn judged(alloc: Global, text: &str) -> (usize, &str, Option<Fault>) {
    match read_words(Vec::new(alloc), text) {
        Ok(Ok(words)) => (words.len(), "", None),
        Ok(Err(bad)) => (0, bad.text, Some(bad.fault)),
        Err(_) => (0, "no memory", None),
    }
}

// Texts that are valid, and how many words each has.
const GOOD: [(&str, usize); 6] = [
    ("", 0),
    ("pace=0", 1),
    ("socket=7 socket=8 ask=4 go=5 end=6 pace=16", 6),
    ("end=3 pace=65535", 2),
    ("pace=7 go=7", 2),
    ("socket=65535", 1),
];

// Texts whose first bad word is this one, and why.
const BAD: [(&str, &str, Fault); 14] = [
    (" ", "", Fault::Unknown),
    ("end=3 ", "", Fault::Unknown),
    ("end=3  go=4", "", Fault::Unknown),
    ("stop=3 go=x", "stop=3", Fault::Unknown),
    ("go=4 go", "go", Fault::Unknown),
    ("socket=2", "socket=2", Fault::Unknown),
    ("socket=65536", "socket=65536", Fault::Unknown),
    ("socket=07", "socket=07", Fault::Unknown),
    ("socket=+7", "socket=+7", Fault::Unknown),
    ("Go=4", "Go=4", Fault::Unknown),
    ("socket=7 socket=7 x", "socket=7", Fault::Twice),
    ("go=4 ask=4", "ask=4", Fault::Twice),
    ("end=4 socket=5 end=6", "end=6", Fault::Twice),
    ("pace=1 pace=1", "pace=1", Fault::Twice),
];

fn are_good(rt: &impl Abort, alloc: Global, rows: &[(&str, usize)]) {
    for (text, count) in rows {
        same(rt, judged(alloc, text), (*count, "", None));
    }
}

fn are_bad(rt: &impl Abort, alloc: Global, rows: &[(&str, &str, Fault)]) {
    for (text, bad, fault) in rows {
        same(rt, judged(alloc, text), (0, *bad, Some(*fault)));
    }
}

#[test]
fn words_of_a_supervisor(rt: HostRuntime) {
    are_good(&rt, rt.alloc(), &GOOD);
    are_bad(&rt, rt.alloc(), &BAD);
}

#[test]
fn words_follow_those_of_systemd(rt: HostRuntime) -> Result<(), Fail> {
    let mut words = Vec::new(rt.alloc());
    words.push(Word::Socket(3))?;
    let found = match read_words(words, "go=4 end=3")? {
        Ok(_) => "",
        Err(bad) => bad.text,
    };
    same(&rt, found, "end=3");
    Ok(())
}
