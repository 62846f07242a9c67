//! The files of the host, and the links that a supervisor hands over.
ghost use Rattle.std.specs.Prelude.{◌≡◌, ◌≤◌, ◌∷◌, [], None, false, IfOk, MatchResult};
ghost use Rattle.outside_traits.specs.Faults.{RoseByOne, HasCause};
ghost use Rattle.outside_traits.specs.Openings.{GrowsBy, IsNext, answered, failed};
ghost use Rattle.outside_traits.specs.Openings.Wanted.{LinkAt};
ghost use Rattle.outside_traits.specs.Openings.State.{OfLink};
ghost use Rattle.host_links.specs.Real.{host_state, socket_state, file_number};
ghost use Rattle.service_links.specs.Paces.{new_asking};

use crate::{Handed, HandedSocket, Pace, Reason, ServiceLink, Watch};
use host_links::{FileSource, Refusal};
use outside_traits::{Failed, OpenGate, Outside};
use std::fs;
use std::io::{self, Eprint, ErrorKind};
use std::net::{IpAddr, Ipv4Addr, Net, SocketAddr};
use std::rt::Files;
use std::time::Clock;
use tick_units::Local;

/// The host's files, and what a supervisor handed over. It counts its faults and reports nothing of its openings.
#[derive(Drop)]
pub struct ServiceOutside<'a, R: Files + Net + Clock> {
    rt: &'a R,
    handed: &'a Handed,
    faults: u64,
    is_out: bool,
    refusal: Option<Refusal>,
    // The port of which no socket was handed over.
    missing: Option<u16>,
    is_refused: bool,
}

impl<'a, R: Files + Net + Clock> ServiceOutside<'a, R> {
    /// The files that this runtime reaches, and what was handed over.
    pub fn new(rt: &'a R, handed: &'a Handed) -> ServiceOutside<'a, R>
        ensures faults { result.faults ≡ 0 }
        ensures gate { result.is_out ≡ false }
    {
        ServiceOutside {
            rt,
            handed,
            faults: 0,
            is_out: false,
            refusal: None,
            missing: None,
            is_refused: false,
        }
    }

    /// Why the last opening that failed was refused.
    pub fn refusal(&self) -> Option<Refusal> {
        self.refusal
    }

    // An opening failed.
    fn fail(&mut self, kind: ErrorKind) -> Failed
        ensures faults { RoseByOne self.old.faults self.new.faults }
        ensures later { self.old.faults ≤ self.new.faults }
        ensures gate { self.new.is_out ≡ self.old.is_out }
    {
        self.faults = self.faults.saturating_add(1);
        self.refusal = Some(Refusal::of(kind));
        Failed
    }

    // A link could not be opened.
    fn fail_link(&mut self, kind: ErrorKind, port: u16) -> Failed
        ensures faults { RoseByOne self.old.faults self.new.faults }
        ensures later { self.old.faults ≤ self.new.faults }
        ensures gate { self.new.is_out ≡ self.old.is_out }
    {
        match kind {
            ErrorKind::InvalidInput => self.is_refused = true,
            ErrorKind::AddrNotAvailable => self.missing = Some(port),
            _ => {}
        }
        self.fail(kind)
    }
}

// The socket of a port that was handed over.
fn find_socket(handed: &Handed, port: u16) -> io::Result<HandedSocket> {
    for socket in &handed.sockets {
        if socket.local_addr()?.port() == port {
            return HandedSocket::new(socket.try_clone()?);
        }
    }
    Err(io::Error::from(ErrorKind::AddrNotAvailable))
}

// A socket on a free port of all addresses of the host.
fn bind_free<R: Net>(rt: &R) -> io::Result<HandedSocket> {
    let all = IpAddr::V4(Ipv4Addr::UNSPECIFIED);
    HandedSocket::new(rt.bind_udp(SocketAddr::new(all, 0))?)
}

// The socket of a link.
fn socket_of<R: Net>(rt: &R, handed: &Handed, port: u16) -> io::Result<HandedSocket> {
    if handed.reason.is_some() {
        return Err(io::Error::from(ErrorKind::InvalidInput));
    }
    if port == 0 {
        bind_free(rt)
    } else {
        find_socket(handed, port)
    }
}

// The link of a socket.
fn link_of<'a, R: Clock>(
    rt: &'a R,
    handed: &'a Handed,
    port: u16,
    socket: HandedSocket,
    start: Local,
) -> ServiceLink<'a, R, HandedSocket>
    ensures moments { (result.start ≡ start) × (result.latest ≡ start) × (result.faults ≡ 0) × (result.watch.is_over ≡ false) }
    ensures asking { result.asking ≡ new_asking port handed.now.pace }
{
    if port == 0 {
        let watch = Watch::new(handed.ask(), handed.end());
        ServiceLink::asking(socket, rt, start, watch, Pace::new(handed.pace()))
    } else {
        let watch = Watch::new(handed.go(), handed.end());
        ServiceLink::answering(socket, rt, start, watch)
    }
}

impl<'a, R: Files + Net + Clock + Sync> Outside for ServiceOutside<'a, R>
where
    R::File: Send,
{
    type Log = FileSource<R::File>;

    type Net = ServiceLink<'a, R, HandedSocket>;

    type Turns = OpenGate;

    ghost state = { λ s. record { openings = None; room = record { openings = 0; names = 0 }; faults = s.faults } };

    ghost gate_out = { λ s. s.is_out };

    fn open_log(&mut self, name: &str) -> Result<FileSource<R::File>, Failed> {
        match fs::open(self.rt, name) {
            Ok(file) => Ok(FileSource::new(file)),
            Err(error) => Err(self.fail(error.kind())),
        }
    }

    fn open_link(
        &mut self,
        port: u16,
        start: Local,
    ) -> Result<ServiceLink<'a, R, HandedSocket>, Failed>
        ensures opened { MatchResult result
            (λ net. GrowsBy (host_state self.old.faults) (host_state self.new.faults)
            (answered (LinkAt port start) (OfLink (socket_state net.latest net.faults)) ∷ []))
            (λ _. GrowsBy (host_state self.old.faults) (host_state self.new.faults) (failed (LinkAt port start) ∷ [])) }
        ensures number { IfOk result (λ _. IsNext (host_state self.old.faults).openings file_number) }
        ensures cause { HasCause self.old.faults self.new.faults result }
        ensures gate { self.new.is_out ≡ self.old.is_out }

        // Its moments count from the start on, and it has not ended.
        ensures made { IfOk result
            (λ net. (net.start ≡ start) × (net.latest ≡ start) × (net.watch.is_over ≡ false)) }

        // One of port 0 asks a server, at the pace that was handed over.
        ensures asking { IfOk result (λ net. net.asking ≡ new_asking port self.old.handed.now.pace) }
    {
        match socket_of(self.rt, self.handed, port) {
            Ok(socket) => Ok(link_of(self.rt, self.handed, port, socket, start)),
            Err(error) => Err(self.fail_link(error.kind(), port)),
        }
    }

    fn gate(&mut self) -> OpenGate {
        self.is_out = true;
        OpenGate::new()
    }

    fn give_back_gate(&mut self, _gate: OpenGate) {
        self.is_out = false;
    }

    fn give_back_log(&mut self, log: FileSource<R::File>) {
        let _ = log;
    }

    fn give_back_link(&mut self, net: ServiceLink<'a, R, HandedSocket>) {
        let _ = net;
    }
}

/// Writes on standard error why a link could not be opened, where what was handed over is the reason.
pub fn write_reason<R: Files + Net + Clock + Eprint>(rt: &R, outside: &ServiceOutside<'_, R>) {
    if outside.is_refused {
        if let Some(reason) = &outside.handed.reason {
            let _ = eprintln!(rt; "radio_ntpd: RADIO_NTPD_SERVICE: {reason}");
        }
    }
    if let Some(port) = outside.missing {
        let _ = eprintln!(rt;
            "radio_ntpd: RADIO_NTPD_SERVICE: no socket that was handed over has port {port}"
        );
    }
}
