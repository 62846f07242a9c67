//! Reads the nets that a station denies as CIDR writes them (RFC 4632).
ghost use Rattle.std.specs.Prelude.{◌≡◌, ◌≤◌, IfSome, option_map};
ghost use Rattle.station_values.specs.KeptStation.{net_kept};
ghost use Rattle.station_reader.specs.Forms.{after_slash, before_slash, cidr_of, net_by, prefix_of};

use crate::address::address;
use decimal_text::whole_number;
use station_values::DeniedNet;

// The number of bits of an IPv4 address.
const BITS: u64 = 32;

// The length of a prefix in a text, from 0 to 32.
fn prefix(text: &str) -> Option<u8>
    ensures value { result ≡ prefix_of text.now }
    ensures most { IfSome result (λ n. n ≤ 32) }
{
    let number = whole_number(text.as_bytes(), BITS)?;
    Some(number as u8)
}

// The parts of a text before and after its first slash; all of it and nothing where it has none.
fn parts(text: &str) -> (&str, &str)
    ensures before { result.0.now ≡ before_slash text.now }
    ensures after { result.1.now ≡ after_slash text.now }
{
    match text.split_once('/') {
        Some(parts) => parts,
        None => (text, ""),
    }
}

fn joined(address: Option<u32>, bits: Option<u8>) -> Option<DeniedNet>
    requires { IfSome bits (λ n. n ≤ 32) }
    ensures { option_map net_kept result ≡ net_by address bits }
{
    Some(DeniedNet {
        address: address?,
        bits: bits?,
    })
}

// The net of an address and the length of a prefix, separated by a slash.
pub fn denied_net(text: &str) -> Option<DeniedNet>
    ensures { option_map net_kept result ≡ cidr_of text.now }
{
    let (net, bits) = parts(text);
    joined(address(net), prefix(bits))
}
