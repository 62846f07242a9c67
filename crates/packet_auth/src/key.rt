//! A key.
ghost use Rattle.std.specs.Prelude.{◌≡◌, ◌≤◌, length, bytes_eq};

use crate::comparing::is_same;
use md5::{Digest, Md5};

/// How many bytes a digest has.
pub(crate) const DIGEST_LENGTH: usize = 16;

// A secret has at most this number of bytes.
const LONGEST: usize = 32;

// A key: the identifier that packets name, and a secret. It has no `Debug`, so that the secret stands in no text.
#[derive(Clone, Copy)]
pub(crate) struct Key {
    pub(crate) id: u32,
    bytes: [u8; LONGEST],
    size: usize,
    ghost sized: { size ≤ 32 },
}

impl Key {
    ghost use Rattle.packet_auth.specs.Digests.{digest};
    ghost use Rattle.packet_auth.specs.Keys.{key_fields};

    // What fills a place that has no key.
    pub(crate) fn blank() -> Key {
        Key {
            id: 0,
            bytes: [0; LONGEST],
            size: 0,
        }
    }

    // The key with this identifier and secret.
    pub(crate) fn new(id: u32, secret: &[u8]) -> Key
        requires { length secret.now ≤ 32 }
        ensures id { (key_fields result).id ≡ id }
        ensures secret { (key_fields result).secret ≡ secret.now }
    {
        let mut bytes = [0; LONGEST];
        bytes[..secret.len()].copy_from_slice(secret);
        Key {
            id,
            bytes,
            size: secret.len(),
        }
    }

    // The digest that the key makes of a header.
    pub(crate) fn digest(&self, header: &[u8]) -> [u8; DIGEST_LENGTH]
        ensures digest { result ≡ digest (key_fields self.now).secret header.now }
        ensures long { length result ≡ 16 }
    {
        let mut hasher = Md5::new();
        hasher.update(&self.bytes[..self.size]);
        hasher.update(header);
        hasher.finalize()
    }

    // Whether a digest is the one that the key makes of a header.
    pub(crate) fn makes(&self, header: &[u8], claimed: &[u8]) -> bool
        requires { length claimed.now ≡ 16 }
        ensures { result ≡ bytes_eq (digest (key_fields self.now).secret header.now) claimed.now }
    {
        is_same(&self.digest(header), claimed)
    }
}
