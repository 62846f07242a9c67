//! What an exchange says of the time.
ghost use Rattle.std.specs.Prelude.{◌≡◌, ◌<◌, ◌≤◌, ◌+◌, ◌*◌, ◌/◌, ◌%◌, ◌^◌, pos, unsigned_abs};
ghost use Rattle.civil_minute.specs.Eras.{Unwraps};
ghost use Rattle.tick_units.specs.Units.{local_span};
ghost use Rattle.tick_units.specs.Samples.{IsValid};
ghost use Rattle.poll_core.specs.Formulas.{span_of, precision_units, sample_of};

use civil_minute::unwrap_era;
use ntp_packet::{Header, PRECISION_UNITS};
use outside_traits::Address;
use tick_units::{Local, Sample, Span, Stamp, local_span, phi};

// A server's precision in log2 seconds counts as 2^4 s at most.
const MOST_PRECISION: u32 = 36;

// The span of a moment of the host's counter.
fn counter_span(moment: Local) -> Span
    ensures value { result ≡ pos (local_span moment) }
    ensures below { local_span moment < 2 ^ 63 }
{
    local_span(moment)
}

// The span since 1900 that a timestamp stands for: the second that its low bits name from 2000-01-01 on, and its fraction.
fn span_of(stamp: Stamp) -> Span
    ensures value { result ≡ span_of stamp }
    ensures era { Unwraps (stamp.0 / 2 ^ 32) (unsigned_abs result / 2 ^ 32) }
    ensures fraction { unsigned_abs result % 2 ^ 32 ≡ stamp.0 % 2 ^ 32 }
{
    let second = unwrap_era((stamp.0 >> 32) as u32);
    Span::from_seconds(second) + Span::from(stamp.0 % (1 << 32))
}

// A server's precision in units of 2^-32 s, at least one.
fn precision_units(precision: i8) -> u64
    ensures value { result ≡ precision_units precision }
    ensures most { result ≤ 2 ^ 36 }
{
    let exponent = 32_u32.saturating_add_signed(i32::from(precision));
    1 << exponent.min(MOST_PRECISION)
}

// An answer with the moment of the request that it answers.
#[derive(Drop)]
pub struct Exchange {
    pub asked: Local,
    pub header: Header,
}

impl Exchange {
    // What it says of the time, where the answer arrived at this moment.
    pub fn sample(&self, server: Address, at: Local) -> Sample
        requires { self.now.asked ≤ at }
        ensures value { result ≡ sample_of server self.now.asked at self.now.header }
        ensures valid { IsValid result }
    {
        let header = &self.header;
        let sent = counter_span(self.asked);
        let arrived = counter_span(at);
        let received = span_of(header.receive);
        let answered = span_of(header.transmit);
        Sample {
            offset: ((received - sent) + (answered - arrived)).halved_down(1),
            delay: ((arrived - sent) - (answered - received)).max(Span::from(PRECISION_UNITS)),
            dispersion: Span::from(PRECISION_UNITS + precision_units(header.precision))
                + phi(at.get() - self.asked.get()),
            stratum: header.stratum,
            address: server.ip,
            root_delay: header.root_delay,
            root_disp: header.root_disp,
        }
    }
}
