//! What a client gets for a datagram.
ghost use Rattle.std.specs.Prelude.{◌≡◌, ◌≢◌, ◌<◌, ◌≤◌, IfErr, IfOk, OnOk, OnErr, length};
ghost use Rattle.ntp_packet.specs.Layout.{layout};
ghost use Rattle.reply_core.specs.Reply.{answer, answer_for, header_for, header_of, request_of, root_disp_at, untimed};
ghost use Rattle.reply_core.specs.declared.code.Code.TheVariants.{Pass};

use crate::{Code, Dropped};
use clock_page::{INIT, Page, UNKNOWN_DISPERSION};
use ntp_packet::{CLIENT, HEADER_LENGTH, Header, PRECISION, SERVER, VERSION, read, write};
use tick_units::{Local, Short, Span, Stamp, UNSYNCHRONISED, phi, to_short};

// `DENY` as a reference ID (RFC 5905, section 7.4).
const DENY: u32 = 0x4445_4e59;

// `RATE` as a reference ID.
const RATE: u32 = 0x5241_5445;

/// The request in a datagram; what stands after its first 48 bytes is passed over.
///
/// # Errors
/// A datagram that is no client's request: it has fewer than 48 bytes, a version outside 1 to 4, or another mode.
pub fn read_request(datagram: &[u8]) -> Result<Header, Dropped>
    ensures read { result ≡ request_of datagram.now }
    ensures version { IfOk result (λ request. request.version < 8) }
    ensures no_longer { IfOk result (λ _. 48 ≤ length datagram.now) }
{
    let Some(request) = read(datagram) else {
        return Err(Dropped::Short);
    };
    if request.version == 0 || request.version > VERSION {
        return Err(Dropped::Version);
    }
    if request.mode != CLIENT {
        return Err(Dropped::Mode);
    }
    Ok(request)
}

// The root dispersion of a page at the moment of sending.
fn root_disp(page: &Page, sent: Local) -> Short
    ensures { result.0 ≡ root_disp_at page.now sent }
{
    let waited = sent.get().saturating_sub(page.anchor.get());
    to_short(Span::from(page.root_disp) + phi(waited))
}

// The header of an answer that gives no time, with a reference ID that says why.
fn untimed(refid: u32, page: &Page, request: &Header, arrived: Local, sent: Local) -> Header
    ensures header { result ≡ untimed refid page.now request.now arrived sent }
    ensures leap { result.leap < 4 }
    ensures version { result.version ≡ request.now.version }
{
    Header {
        leap: UNSYNCHRONISED,
        version: request.version,
        mode: SERVER,
        stratum: 0,
        poll: request.poll,
        precision: PRECISION,
        root_delay: Short(0),
        root_disp: Short(UNKNOWN_DISPERSION),
        refid,
        reference: Stamp(0),
        origin: request.transmit,
        receive: page.time_at(arrived),
        transmit: page.time_at(sent),
    }
}

// The header of the answer to a request.
fn answer_header(page: &Page, request: &Header, arrived: Local, sent: Local) -> Header
    ensures header { result ≡ header_of page.now request.now arrived sent }
    ensures leap { result.leap < 4 }
    ensures version { result.version ≡ request.now.version }
{
    let mut header = untimed(INIT, page, request, arrived, sent);
    if page.synced_at(sent) {
        header.leap = page.leap_at_time(sent);
        header.stratum = page.stratum;
        header.root_delay = page.root_delay;
        header.root_disp = root_disp(page, sent);
        header.refid = page.refid;
        header.reference = page.reftime;
    }
    header
}

// The header of what a client gets by its code.
fn header(code: Code, page: &Page, request: &Header, arrived: Local, sent: Local) -> Header
    ensures header { result ≡ header_for code page.now request.now arrived sent }
    ensures leap { result.leap < 4 }
    ensures version { result.version ≡ request.now.version }
{
    match code {
        Code::Pass => answer_header(page, request, arrived, sent),
        Code::Deny => untimed(DENY, page, request, arrived, sent),
        Code::Rate => untimed(RATE, page, request, arrived, sent),
    }
}

/// Writes the 48 bytes that a client gets by its code for a request that `read_request` has read. They are the answer for `Pass`,
/// and a kiss-o'-death packet for the others. They depend on a page, the moment when the request arrived and the moment when they
/// are sent.
pub fn write_reply(
    code: Code,
    page: &Page,
    request: &Header,
    arrived: Local,
    sent: Local,
    out: &mut [u8; HEADER_LENGTH],
)
    requires order { arrived ≤ sent }
    requires version { request.now.version < 8 }
    ensures { out.new ≡ layout (header_for code page.now request.now arrived sent) }
{
    write(&header(code, page, request, arrived, sent), out);
}

// What `reply` and `kiss` write for a datagram.
fn write_by_code(
    code: Code,
    page: &Page,
    datagram: &[u8],
    arrived: Local,
    sent: Local,
    out: &mut [u8; HEADER_LENGTH],
) -> Result<(), Dropped>
    requires { arrived ≤ sent }
    ensures answered { OnOk result (answer_for code page.now datagram.now arrived sent ≡ Ok out.new) }
    ensures dropped { IfErr result (λ why. answer_for code page.now datagram.now arrived sent ≡ Err why) }
    ensures unchanged { OnErr result (out.new ≡ out.old) }
    ensures no_longer { OnOk result (48 ≤ length datagram.now) }
{
    let request = read_request(datagram)?;
    write_reply(code, page, &request, arrived, sent, out);
    Ok(())
}

/// Writes the 48 bytes that answer a datagram. They depend on a page, the moment when the datagram arrived and the moment when
/// the answer is sent.
///
/// It judges at the moment of sending whether the page is synchronised, and whether a leap second is announced. Bytes of the
/// datagram after the 48th are passed over.
///
/// # Errors
/// A datagram that is no request of a client is dropped, and `out` stays as it was.
pub fn reply(
    page: &Page,
    datagram: &[u8],
    arrived: Local,
    sent: Local,
    out: &mut [u8; HEADER_LENGTH],
) -> Result<(), Dropped>
    requires { arrived ≤ sent }
    ensures answered { OnOk result (answer page.now datagram.now arrived sent ≡ Ok out.new) }
    ensures dropped { IfErr result (λ why. answer page.now datagram.now arrived sent ≡ Err why) }
    ensures unchanged { OnErr result (out.new ≡ out.old) }
    ensures no_longer { OnOk result (48 ≤ length datagram.now) }
{
    write_by_code(Code::Pass, page, datagram, arrived, sent, out)
}

/// Writes the 48 bytes of a kiss-o'-death packet (RFC 5905, section 7.4), where `reply` would write an answer. The code's letters
/// are its reference ID. Whatever the page says, it is not synchronised and has stratum 0.
///
/// # Errors
/// A datagram that `reply` drops is dropped for the same reason, and `out` stays as it was.
pub fn kiss(
    code: Code,
    page: &Page,
    datagram: &[u8],
    arrived: Local,
    sent: Local,
    out: &mut [u8; HEADER_LENGTH],
) -> Result<(), Dropped>
    requires order { arrived ≤ sent }
    requires code { code ≢ Pass }
    ensures answered { OnOk result (answer_for code page.now datagram.now arrived sent ≡ Ok out.new) }
    ensures dropped { IfErr result (λ why. answer_for code page.now datagram.now arrived sent ≡ Err why) }
    ensures unchanged { OnErr result (out.new ≡ out.old) }
    ensures no_longer { OnOk result (48 ≤ length datagram.now) }
{
    write_by_code(code, page, datagram, arrived, sent, out)
}
