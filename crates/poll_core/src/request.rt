//! The request of a poller.
ghost use Rattle.std.specs.Prelude.{◌≡◌, ◌<◌};
ghost use Rattle.ntp_packet.specs.Layout.{layout};
ghost use Rattle.poll_core.specs.Formulas.{request_stamp, request_header};

use ntp_packet::{CLIENT, HEADER_LENGTH, Header, PRECISION, VERSION, write};
use tick_units::{Local, Short, Stamp, local_span};

// The interval between polls that a request states, in log2 seconds.
const POLL: i8 = 6;

// The transmit timestamp of the request made at a moment. Its highest bit is 1, so it is never 0.
pub fn stamp(moment: Local) -> Stamp
    ensures { result ≡ request_stamp moment }
{
    Stamp((1 << 63) + local_span(moment).unsigned_abs() as u64)
}

// The 48 bytes of the request made at a moment.
pub fn bytes(moment: Local) -> [u8; HEADER_LENGTH]
    ensures { result ≡ layout (request_header moment) }
{
    let header = Header {
        leap: 0,
        version: VERSION,
        mode: CLIENT,
        stratum: 0,
        poll: POLL,
        precision: PRECISION,
        root_delay: Short(0),
        root_disp: Short(0),
        refid: 0,
        reference: Stamp(0),
        origin: Stamp(0),
        receive: Stamp(0),
        transmit: stamp(moment),
    };
    let mut out = [0; HEADER_LENGTH];
    write(&header, &mut out);
    out
}
