//! The keys of a server.
ghost use Rattle.std.specs.Prelude.{◌≡◌, ◌≤◌, ◌<◌, ◌==◌, ◌&&◌, [], ◌∷◌, ◌++◌, ◌^◌, Some, IfSome, take, length, map, IsTrue, IsFalse, bytes_eq};
ghost use Rattle.std.specs.List.{list_any};
ghost use Rattle.byteorder.specs.Endian.{big_bytes};

use crate::key::Key;
use crate::lookup::{digest_by, vouches};
use byteorder::{BigEndian, ByteOrder};
use ntp_packet::HEADER_LENGTH;

// The digest stands after the identifier.
const DIGEST_PLACE: usize = 52;

/// How many bytes a packet has that carries an identifier and a digest.
pub const SEALED_LENGTH: usize = 68;

// A ring has at most this number of keys.
const MOST: usize = 8;

// Writes an identifier after a header, its highest byte first.
fn put_id(out: &mut [u8; SEALED_LENGTH], id: u32)
    ensures piece { take 52 out.new ≡ take 48 out.old ++ big_bytes 4 id }
    ensures fits { id < 2 ^ 32 }
{
    BigEndian::write_u32(&mut out[HEADER_LENGTH..DIGEST_PLACE], id);
}

/// The keys that a server shares with its clients, at most 8. It has no `Debug`, so that no secret stands in any text.
#[derive(Clone, Copy)]
pub struct KeyRing {
    keys: [Key; MOST],
    count: usize,
    ghost counted: { count ≤ 8 },
}

impl KeyRing {
    ghost use Rattle.packet_auth.specs.Digests.{authentic, digest, sealed};
    ghost use Rattle.packet_auth.specs.Keys.{has_id, key_fields, keys_of, secret_of};

    /// The ring without keys.
    pub fn new() -> KeyRing
        ensures { keys_of result ≡ [] }
    {
        KeyRing {
            keys: [Key::blank(); MOST],
            count: 0,
        }
    }

    /// Adds a key with a secret of 1 to 32 bytes. Its identifier is not 0, and no other key has it. There is room for 8 keys.
    pub fn add(&mut self, id: u32, secret: &[u8])
        requires some { 0 < id }
        requires other { IsFalse (has_id id (keys_of self.old)) }
        requires room { length (keys_of self.old) ≤ 7 }
        requires least { 1 ≤ length secret.now }
        requires most { length secret.now ≤ 32 }
        ensures { keys_of self.new ≡ keys_of self.old ++ record { id = id; secret = secret.now } ∷ [] }
    {
        self.keys[self.count] = Key::new(id, secret);
        self.count += 1;
    }

    // Its keys.
    fn keys(&self) -> &[Key]
        ensures { result.now ≡ take self.now.count self.now.keys }
    {
        &self.keys[..self.count]
    }

    /// The identifier by which a datagram is authentic. Such a datagram has 68 bytes. One of the keys has the identifier in bytes
    /// 48 to 51, its highest byte first. That key makes of the first 48 bytes the digest in bytes 52 to 67. `None` for any other
    /// datagram.
    pub fn authentic(&self, datagram: &[u8]) -> Option<u32>
        ensures value { result ≡ authentic (keys_of self.now) datagram.now }
        ensures known { IfSome result (λ id. IsTrue (has_id id (keys_of self.now))) }
    {
        if datagram.len() != SEALED_LENGTH {
            return None;
        }
        let (header, later) = datagram.split_at(HEADER_LENGTH);
        let (id, claimed) = later.split_at(DIGEST_PLACE - HEADER_LENGTH);
        let id = BigEndian::read_u32(id);
        vouches(self.keys(), id, header, claimed).then_some(id)
    }

    /// Writes a header, then the identifier of one of the keys, its highest byte first, then the digest that this key makes of
    /// the header.
    pub fn seal(&self, id: u32, header: &[u8; HEADER_LENGTH], out: &mut [u8; SEALED_LENGTH])
        requires { IsTrue (has_id id (keys_of self.now)) }
        ensures bytes { out.new ≡ sealed (keys_of self.now) id header.now }
        ensures reads_back { authentic (keys_of self.now) out.new ≡ Some id }
    {
        let digest = digest_by(self.keys(), id, header);
        out[..HEADER_LENGTH].copy_from_slice(header);
        put_id(out, id);
        out[DIGEST_PLACE..].copy_from_slice(&digest);
    }
}
