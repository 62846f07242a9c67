//! The bytes of a reply.
ghost use Rattle.std.specs.Prelude.{◌≡◌, ◌≤◌, ◌<◌, length};
ghost use Rattle.ntp_packet.specs.Layout.{layout};
ghost use Rattle.reply_core.specs.Reply.{header_for};

use clock_page::Page;
use ntp_packet::{HEADER_LENGTH, Header};
use packet_auth::SEALED_LENGTH;
use reply_core::{Code, write_reply};
use std::marker::Model;
use tick_units::Local;

// A header alone, or one followed by a key's identifier and a digest.
#[derive(Clone, Copy, Debug, PartialEq, Eq)]
pub enum Packet {
    Plain([u8; HEADER_LENGTH]),
    Sealed([u8; SEALED_LENGTH]),
}

/// A reply as it stands on the wire: the 48 bytes of its header, or 68 where it is sealed. Contracts see it as its bytes.
#[derive(Clone, Copy, Debug, PartialEq, Eq)]
pub struct Reply {
    packet: Packet,
}

impl Model for Reply {
    ghost use Rattle.std.specs.Prelude.{List, ℕ};
    ghost use Rattle.sealed_reply.specs.Packets.{IsPacket, bytes_of, packet_back, packet_of};

    ghost Value = { List ℕ };

    ghost view = { λ r. bytes_of r.packet };

    ghost invariant = { λ r. IsPacket r.packet };

    ghost inverse = { λ bytes. record { packet = packet_of bytes } };

    ghost inverse_ok = { λ r h i. record { packet = packet_back r.packet h i } };
}

// Writes the 48 bytes of what a client gets by its code. It stands apart since an array's length is lost where the array is a part
// of an enum that is changed.
#[inline(always)]
fn write_header(
    code: Code,
    page: &Page,
    request: &Header,
    arrived: Local,
    sent: Local,
    out: &mut [u8; HEADER_LENGTH],
)
    requires order { arrived ≤ sent }
    requires version { request.now.version < 8 }
    ensures bytes { out.new ≡ layout (header_for code page.now request.now arrived sent) }
    ensures long { length out.new ≡ 48 }
{
    write_reply(code, page, request, arrived, sent, out);
}

impl Reply {
    // The reply whose bytes are a header alone.
    pub(crate) fn plain(header: [u8; HEADER_LENGTH]) -> Reply
        requires { length header ≡ 48 }
        ensures { result ≡ header }
    {
        Reply {
            packet: Packet::Plain(header),
        }
    }

    /// A reply of 48 bytes that are 0, in the place of which another is written.
    pub fn blank() -> Reply
        ensures { length result ≡ 48 }
    {
        Reply::plain([0; HEADER_LENGTH])
    }

    // Makes it a header alone.
    #[cold]
    #[inline(never)]
    fn clear(&mut self)
        ensures { length self.new ≡ 48 }
    {
        self.packet = Packet::Plain([0; HEADER_LENGTH]);
    }

    // Keeps a header alone, and makes one of anything else. Few replies are sealed, so the latter stands apart.
    #[inline(always)]
    fn make_plain(&mut self)
        ensures { length self.new ≡ 48 }
    {
        if let Packet::Sealed(_) = self.packet {
            self.clear();
        }
    }

    // Makes it the header of what a client gets by its code.
    #[inline(always)]
    pub(crate) fn write(
        &mut self,
        code: Code,
        page: &Page,
        request: &Header,
        arrived: Local,
        sent: Local,
    )
        requires order { arrived ≤ sent }
        requires version { request.now.version < 8 }
        ensures bytes { self.new ≡ layout (header_for code page.now request.now arrived sent) }
        ensures plain { length self.new ≡ 48 }
    {
        self.make_plain();
        match &mut self.packet {
            Packet::Plain(header) => write_header(code, page, request, arrived, sent, header),
            Packet::Sealed(_) => unreachable!(),
        }
    }

    // The header that is all of its bytes.
    pub(crate) fn header(&self) -> [u8; HEADER_LENGTH]
        requires { length self.now ≡ 48 }
        ensures { result ≡ self.now }
    {
        match &self.packet {
            Packet::Plain(header) => *header,
            Packet::Sealed(_) => unreachable!(),
        }
    }

    // The reply whose bytes are a sealed header.
    pub(crate) fn sealed(bytes: [u8; SEALED_LENGTH]) -> Reply
        requires { length bytes ≡ 68 }
        ensures { result ≡ bytes }
    {
        Reply {
            packet: Packet::Sealed(bytes),
        }
    }

    /// Its bytes.
    pub fn bytes(&self) -> &[u8]
        ensures value { result.now ≡ self.now }
        ensures least { 48 ≤ length self.now }
        ensures most { length self.now ≤ 68 }
    {
        match &self.packet {
            Packet::Plain(bytes) => bytes,
            Packet::Sealed(bytes) => bytes,
        }
    }
}
