//! The checks of an answer, in the order of their numbers.
ghost use Rattle.std.specs.Prelude.{◌≡◌, None, Some, MatchResult};
ghost use Rattle.poll_core.specs.Refusals.{exchange_rows, server_rows, first_refusal};

use crate::PollRefusal;
use ntp_packet::{Header, SERVER, VERSION};
use tick_units::{Stamp, UNSYNCHRONISED};

// The greatest stratum of a server that can be used.
const MOST_STRATUM: u8 = 15;

// Twice the least distance from the reference clock that is too far, in units of 2^-16 s: twice 16 s.
const TOO_FAR_TWICE: u64 = 2 << 20;

// Whether a datagram answers the request with this transmit timestamp, and for the first time.
pub fn check_exchange(
    header: &Header,
    asked: Stamp,
    accepted: Option<Stamp>,
) -> Result<(), PollRefusal>
    ensures { MatchResult result
        (λ _. first_refusal (exchange_rows asked accepted header.now) ≡ None)
        (λ refusal. first_refusal (exchange_rows asked accepted header.now) ≡ Some refusal) }
{
    let version = header.version;
    if version == 0 || version > VERSION {
        return Err(PollRefusal::Version { version });
    }
    let mode = header.mode;
    if mode != SERVER {
        return Err(PollRefusal::Mode { mode });
    }
    let origin = header.origin;
    if origin != asked {
        return Err(PollRefusal::Bogus { origin, asked });
    }
    let transmit = header.transmit;
    if accepted == Some(transmit) {
        return Err(PollRefusal::Duplicate { transmit });
    }
    Ok(())
}

// Whether the server that sent a datagram can be used.
pub fn check_server(header: &Header) -> Result<(), PollRefusal>
    ensures { MatchResult result
        (λ _. first_refusal (server_rows header.now) ≡ None)
        (λ refusal. first_refusal (server_rows header.now) ≡ Some refusal) }
{
    let leap = header.leap;
    let stratum = header.stratum;
    if leap == UNSYNCHRONISED || stratum == 0 || stratum > MOST_STRATUM {
        return Err(PollRefusal::Unsynchronised { leap, stratum });
    }
    if header.receive == Stamp(0) || header.transmit == Stamp(0) {
        return Err(PollRefusal::ZeroStamp);
    }
    let root_delay = header.root_delay;
    let root_disp = header.root_disp;
    if u64::from(root_delay.0) + 2 * u64::from(root_disp.0) >= TOO_FAR_TWICE {
        return Err(PollRefusal::Distance {
            root_delay,
            root_disp,
        });
    }
    Ok(())
}
