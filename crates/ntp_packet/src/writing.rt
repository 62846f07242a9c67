//! Writes the bytes of a header.
ghost use Rattle.std.specs.Prelude.{◌≡◌, ◌≤◌, ◌<◌, ◌+◌, ◌^◌, ◌++◌, take};
ghost use Rattle.byteorder.specs.Endian.{big_bytes};
ghost use Rattle.ntp_packet.specs.Layout.{fields, layout};

use crate::{HEADER_LENGTH, Header};
use byteorder::{BigEndian, ByteOrder};

// Writes a number of four bytes after those at the beginning.
fn put_u32(out: &mut [u8; HEADER_LENGTH], start: usize, n: u32)
    requires { start + 4 ≤ 48 }
    ensures piece { take (start + 4) out.new ≡ take start out.old ++ big_bytes 4 n }
    ensures fits { n < 2 ^ 32 }
{
    BigEndian::write_u32(&mut out[start..start + 4], n);
}

// Writes a number of eight bytes after those at the beginning.
fn put_u64(out: &mut [u8; HEADER_LENGTH], start: usize, n: u64)
    requires { start + 8 ≤ 48 }
    ensures piece { take (start + 8) out.new ≡ take start out.old ++ big_bytes 8 n }
    ensures fits { n < 2 ^ 64 }
{
    BigEndian::write_u64(&mut out[start..start + 8], n);
}

/// Writes the 48 bytes of a header.
pub fn write(header: &Header, out: &mut [u8; HEADER_LENGTH])
    requires leap { header.now.leap < 4 }
    requires version { header.now.version < 8 }
    requires mode { header.now.mode < 8 }
    ensures bytes { out.new ≡ layout header.now }
    ensures reads_back { fields out.new ≡ header.now }
{
    out[0] = header.leap << 6 | header.version << 3 | header.mode;
    out[1] = header.stratum;
    out[2] = header.poll.cast_unsigned();
    out[3] = header.precision.cast_unsigned();
    put_u32(out, 4, header.root_delay.0);
    put_u32(out, 8, header.root_disp.0);
    put_u32(out, 12, header.refid);
    put_u64(out, 16, header.reference.0);
    put_u64(out, 24, header.origin.0);
    put_u64(out, 32, header.receive.0);
    put_u64(out, 40, header.transmit.0);
}
