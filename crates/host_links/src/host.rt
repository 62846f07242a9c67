// The host's files and sockets, and the outside that opens them.
ghost use Rattle.std.specs.Prelude.{◌≡◌, ◌≤◌, ◌∷◌, [], None, false, IfOk, MatchResult};
ghost use Rattle.outside_traits.specs.Faults.{RoseByOne, HasCause};
ghost use Rattle.outside_traits.specs.Openings.{GrowsBy, IsNext, answered, failed};
ghost use Rattle.outside_traits.specs.Openings.Wanted.{LinkAt};
ghost use Rattle.outside_traits.specs.Openings.State.{OfLink};
ghost use Rattle.host_links.specs.Real.{host_state, socket_state, file_number};

use crate::udp::Counter;
use crate::{FileSource, UdpLink};
use outside_traits::{Failed, OpenGate, Outside};
use std::fs;
use std::io::{self, ErrorKind};
use std::net::{IpAddr, Ipv4Addr, Net, SocketAddr, UdpSocket};
use std::rt::Files;
use std::time::{Clock, Duration};
use tick_units::Local;

// For how many seconds a link waits before it reports silence.
const SILENCE: u64 = 2;

/// Why the host refuses an opening.
#[derive(Clone, Copy, Debug, PartialEq, Eq)]
pub enum Refusal {
    NotThere,
    NoRight,
    /// Another socket has the port.
    Taken,
    Other,
}

impl Refusal {
    /// The reason that stands for an error of this kind.
    pub fn of(kind: ErrorKind) -> Refusal {
        match kind {
            ErrorKind::NotFound => Refusal::NotThere,
            ErrorKind::PermissionDenied => Refusal::NoRight,
            ErrorKind::AddrInUse => Refusal::Taken,
            _ => Refusal::Other,
        }
    }
}

/// The host's files and sockets. It counts its faults and reports nothing of its openings.
#[derive(Drop)]
pub struct HostOutside<'a, R: Files + Net + Clock> {
    rt: &'a R,
    counter: Counter<'a, R>,
    faults: u64,
    is_out: bool,
    refusal: Option<Refusal>,
}

impl<'a, R: Files + Net + Clock> HostOutside<'a, R> {
    /// The files and sockets that this runtime reaches; no opening has failed yet. The moments of its links count from now on.
    pub fn new(rt: &'a R) -> HostOutside<'a, R>
        ensures faults { result.faults ≡ 0 }
        ensures gate { result.is_out ≡ false }
    {
        HostOutside {
            rt,
            counter: Counter::new(rt),
            faults: 0,
            is_out: false,
            refusal: None,
        }
    }

    /// Why the last opening that failed was refused. It is for people to read, and no clause states it.
    pub fn refusal(&self) -> Option<Refusal> {
        self.refusal
    }

    // An opening failed.
    fn fail(&mut self, kind: ErrorKind) -> Failed
        ensures faults { RoseByOne self.old.faults self.new.faults }
        ensures later { self.old.faults ≤ self.new.faults }
        ensures gate { self.new.is_out ≡ self.old.is_out }
        ensures counter { self.new.counter ≡ self.old.counter }
    {
        self.faults = self.faults.saturating_add(1);
        self.refusal = Some(Refusal::of(kind));
        Failed
    }
}

// A socket on this port of all addresses of the host, or on a free port where it is 0. It waits `SILENCE` seconds for a datagram.
fn bind<R: Net>(rt: &R, port: u16) -> io::Result<UdpSocket> {
    let all = IpAddr::V4(Ipv4Addr::UNSPECIFIED);
    let socket = rt.bind_udp(SocketAddr::new(all, port))?;
    socket.set_read_timeout(Some(Duration::from_secs(SILENCE)))?;
    Ok(socket)
}

impl<'a, R: Files + Net + Clock + Sync> Outside for HostOutside<'a, R>
where
    R::File: Send,
{
    type Log = FileSource<R::File>;

    type Net = UdpLink<'a, R, UdpSocket>;

    type Turns = OpenGate;

    ghost state = { λ s. record { openings = None; room = record { openings = 0; names = 0 }; faults = s.faults } };

    ghost gate_out = { λ s. s.is_out };

    fn open_log(&mut self, name: &str) -> Result<FileSource<R::File>, Failed> {
        match fs::open(self.rt, name) {
            Ok(file) => Ok(FileSource::new(file)),
            Err(error) => Err(self.fail(error.kind())),
        }
    }

    fn open_link(&mut self, port: u16, start: Local) -> Result<UdpLink<'a, R, UdpSocket>, Failed>
        ensures opened { MatchResult result
            (λ net. GrowsBy (host_state self.old.faults) (host_state self.new.faults)
            (answered (LinkAt port start) (OfLink (socket_state net.latest net.faults)) ∷ []))
            (λ _. GrowsBy (host_state self.old.faults) (host_state self.new.faults) (failed (LinkAt port start) ∷ [])) }
        ensures number { IfOk result (λ _. IsNext (host_state self.old.faults).openings file_number) }
        ensures cause { HasCause self.old.faults self.new.faults result }
        ensures gate { self.new.is_out ≡ self.old.is_out }

        // Its moments count from the start on, by the one counter of this outside.
        ensures made { IfOk result
            (λ net. (net.counter ≡ self.old.counter) × (net.start ≡ start) × (net.latest ≡ start)) }
        ensures counter { self.new.counter ≡ self.old.counter }
    {
        match bind(self.rt, port) {
            Ok(socket) => Ok(UdpLink::new(socket, self.counter.again(), start)),
            Err(error) => Err(self.fail(error.kind())),
        }
    }

    fn gate(&mut self) -> OpenGate {
        self.is_out = true;
        OpenGate::new()
    }

    fn give_back_gate(&mut self, _gate: OpenGate) {
        self.is_out = false;
    }

    fn give_back_log(&mut self, log: FileSource<R::File>) {
        let _ = log;
    }

    fn give_back_link(&mut self, net: UdpLink<'a, R, UdpSocket>) {
        let _ = net;
    }
}
