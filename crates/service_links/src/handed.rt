//! What a supervisor hands over to its run.
ghost use Rattle.std.specs.Prelude.{◌≡◌, ◌<◌, ◌^◌};

use crate::{BadWord, Fault, Signal, Word, read_words};
use decimal_text::whole_number;
use host_links::DatagramSocket;
use os::FromRawFd;
use std::alloc::{AllocError, Global};
use std::env::{self, Env, VarError};
use std::fmt;
use std::io::{self, ErrorKind};
use std::net::{SocketAddr, TcpStream, UdpSocket};
use std::os::fd::IntoRawFd;
use std::os::unix::net::UnixStream;
use std::time::Duration;

// The variable of the environment with the words.
const VARIABLE: &str = "RADIO_NTPD_SERVICE";

// Variables of systemd: how many sockets it hands over, and to which process (sd_listen_fds).
const LISTEN_COUNT: &str = "LISTEN_FDS";

const LISTEN_PROCESS: &str = "LISTEN_PID";

// The number of the first socket of systemd.
const LISTEN_FIRST: u16 = 3;

// The greatest number of a process.
const LAST_PROCESS: u64 = 4_294_967_295;

// The most sockets of systemd.
const MOST_LISTENED: u64 = 1_000;

// For how many milliseconds a socket waits for a datagram at a time.
const WAIT: u64 = 100;

/// Why nothing can be opened of what was handed over.
#[derive(Drop)]
pub enum Reason {
    /// This word is none of those that may stand there.
    Unknown(String),
    /// An earlier word has the number of this one, or its name.
    Twice(String),
    /// The number of this word is no socket of its kind.
    NoSocket(String),
    /// The variable is not text.
    NoText,
    /// There was not enough memory.
    NoMemory,
}

/// What a supervisor hands over.
#[derive(Drop)]
pub struct Handed {
    pub(crate) sockets: Vec<UdpSocket>,
    ask: Option<Signal>,
    go: Option<Signal>,
    end: Option<Signal>,
    pace: u16,
    pub(crate) reason: Option<Reason>,
}

/// A socket of the host that a supervisor handed over, or that was bound beside those. It waits for a tenth of a second at a time.
#[derive(Drop)]
pub struct HandedSocket {
    socket: UdpSocket,
}

impl HandedSocket {
    /// The socket waits from now on, whatever another process that has it made of it.
    pub fn new(socket: UdpSocket) -> io::Result<HandedSocket> {
        socket.set_nonblocking(false)?;
        socket.set_read_timeout(Some(Duration::from_millis(WAIT)))?;
        Ok(HandedSocket { socket })
    }

    // Another process that has the socket may have told it not to wait.
    #[cold]
    #[inline(never)]
    fn wait_again(&self, kind: ErrorKind) {
        if kind == ErrorKind::WouldBlock {
            let _ = self.socket.set_nonblocking(false);
        }
    }
}

impl DatagramSocket for HandedSocket {
    fn receive(&mut self, piece: &mut [u8]) -> io::Result<(usize, SocketAddr)> {
        let received = self.socket.recv_from(piece);
        if let Err(e) = &received {
            self.wait_again(e.kind());
        }
        received
    }

    fn transmit(&mut self, to: SocketAddr, bytes: &[u8]) -> io::Result<usize> {
        self.socket.send_to(bytes, to)
    }
}

// The stream of a number.
fn stream_of(number: u16) -> UnixStream {
    unsafe { UnixStream::from_raw_fd(i32::from(number)) }
}

// Whether the number is a stream of TCP.
fn is_tcp(number: u16) -> bool {
    let stream = unsafe { TcpStream::from_raw_fd(i32::from(number)) };
    let is_tcp = stream.nodelay().is_ok();
    let _ = stream.into_raw_fd();
    is_tcp
}

// The socket of a number, where it is one of datagrams that is bound to a port of IPv4.
fn adopt_socket(number: u16) -> Option<UdpSocket> {
    if is_tcp(number) {
        return None;
    }
    let socket = unsafe { UdpSocket::from_raw_fd(i32::from(number)) };
    match socket.local_addr() {
        Ok(SocketAddr::V4(at)) if at.port() != 0 => Some(socket),
        _ => {
            let _ = socket.into_raw_fd();
            None
        }
    }
}

// The signal of a number, where it is a stream.
fn adopt_signal(number: u16) -> Option<Signal> {
    let stream = stream_of(number);
    if stream.peer_addr().is_err() {
        let _ = stream.into_raw_fd();
        return None;
    }
    Signal::new(stream).ok()
}

impl Handed {
    // Nothing.
    fn nothing(alloc: Global, reason: Option<Reason>) -> Handed {
        Handed {
            sockets: Vec::new(alloc),
            ask: None,
            go: None,
            end: None,
            pace: 0,
            reason,
        }
    }

    // Adopts what a word names. It answers whether there is such a thing.
    fn adopt(&mut self, word: Word) -> Result<bool, AllocError> {
        match word {
            Word::Socket(number) => match adopt_socket(number) {
                Some(socket) => self.sockets.push(socket)?,
                None => return Ok(false),
            },
            Word::Ask(number) => self.ask = adopt_signal(number),
            Word::Go(number) => self.go = adopt_signal(number),
            Word::End(number) => self.end = adopt_signal(number),
            Word::Pace(seconds) => self.pace = seconds,
        }
        Ok(match word {
            Word::Ask(_) => self.ask.is_some(),
            Word::Go(_) => self.go.is_some(),
            Word::End(_) => self.end.is_some(),
            Word::Socket(_) | Word::Pace(_) => true,
        })
    }

    /// The signal at which clients are answered.
    pub fn go(&self) -> Option<&Signal> {
        self.go.as_ref()
    }

    /// The signal at which servers are asked.
    pub fn ask(&self) -> Option<&Signal> {
        match &self.ask {
            Some(ask) => Some(ask),
            None => self.go.as_ref(),
        }
    }

    /// The signal at which the run ends.
    pub fn end(&self) -> Option<&Signal> {
        self.end.as_ref()
    }

    /// The seconds between two requests to a server.
    pub fn pace(&self) -> u16
        ensures { result ≡ self.now.pace }
    {
        self.pace
    }
}

// A word as it stands in the variable.
fn text_of(alloc: Global, word: Word) -> Result<String, AllocError> {
    match word {
        Word::Socket(number) => format!(in alloc; "socket={number}"),
        Word::Ask(number) => format!(in alloc; "ask={number}"),
        Word::Go(number) => format!(in alloc; "go={number}"),
        Word::End(number) => format!(in alloc; "end={number}"),
        Word::Pace(number) => format!(in alloc; "pace={number}"),
    }
}

// Adopts what the words name, up to the first that names nothing.
fn adopt_all(alloc: Global, words: &[Word]) -> Result<Handed, AllocError> {
    let mut handed = Handed::nothing(alloc, None);
    for word in words {
        if !handed.adopt(*word)? {
            let text = text_of(alloc, *word)?;
            handed.reason = Some(Reason::NoSocket(text));
            return Ok(handed);
        }
    }
    Ok(handed)
}

// Why a word is refused.
fn reason_of(alloc: Global, bad: BadWord<'_>) -> Result<Reason, AllocError> {
    let text = String::from_str(alloc, bad.text)?;
    Ok(match bad.fault {
        Fault::Unknown => Reason::Unknown(text),
        Fault::Twice => Reason::Twice(text),
    })
}

// The number that a variable of the environment has, at most this great.
fn number_in<R: Env + AllocGlobal>(rt: &R, name: &str, most: u64) -> Option<u64>
    requires { most < 2 ^ 60 }
{
    let text = env::var(rt, name).ok()?;
    whole_number(text.as_str().as_bytes(), most)
}

// How many sockets systemd hands over to this process.
fn listened<R: Env + AllocGlobal>(rt: &R, process: u32) -> u64 {
    match number_in(rt, LISTEN_PROCESS, LAST_PROCESS) {
        Some(owner) if owner == u64::from(process) => {
            number_in(rt, LISTEN_COUNT, MOST_LISTENED).unwrap_or(0)
        }
        _ => 0,
    }
}

// The words that stand for so many sockets of systemd.
fn words_of(alloc: Global, count: u64) -> Result<Vec<Word>, AllocError> {
    let mut words = Vec::new(alloc);
    let mut number = LISTEN_FIRST;
    for _ in 0..count {
        words.push(Word::Socket(number))?;
        number = number.saturating_add(1);
    }
    Ok(words)
}

// What a text of words hands over, beside so many sockets of systemd.
fn handed_by(alloc: Global, count: u64, text: &str) -> Result<Handed, AllocError> {
    match read_words(words_of(alloc, count)?, text)? {
        Ok(words) => adopt_all(alloc, words.as_slice()),
        Err(bad) => Ok(Handed::nothing(alloc, Some(reason_of(alloc, bad)?))),
    }
}

/// What the supervisor of this process hands over, where it has one: where `RADIO_NTPD_SERVICE` is set. The sockets of systemd are
/// part of it.
pub fn handed_over<R: Env + AllocGlobal>(rt: &R, process: u32) -> Option<Handed> {
    let alloc = rt.alloc();
    match env::var(rt, VARIABLE) {
        Ok(text) => Some(
            match handed_by(alloc, listened(rt, process), text.as_str()) {
                Ok(handed) => handed,
                Err(AllocError) => Handed::nothing(alloc, Some(Reason::NoMemory)),
            },
        ),
        Err(VarError::NotPresent) => None,
        Err(VarError::NotUnicode) => Some(Handed::nothing(alloc, Some(Reason::NoText))),
        Err(VarError::OutOfMemory) => Some(Handed::nothing(alloc, Some(Reason::NoMemory))),
    }
}

impl fmt::Display for Reason {
    fn fmt<W: fmt::Write>(&self, f: &mut fmt::Formatter<W>) -> fmt::Result {
        match self {
            Reason::Unknown(word) => write!(f, "{word} is none of its words"),
            Reason::Twice(word) => write!(
                f,
                "{word} has the number or the name of an earlier word"
            ),
            Reason::NoSocket(word) => write!(f, "the number of {word} is no socket of its kind"),
            Reason::NoText => f.write_str("it is not text"),
            Reason::NoMemory => f.write_str("there is not enough memory for it"),
        }
    }
}
