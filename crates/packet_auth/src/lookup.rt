//! Looks among keys.
ghost use Rattle.std.specs.Prelude.{◌≡◌, ◌==◌, ◌&&◌, IsTrue, bytes_eq, length, map, option_map};
ghost use Rattle.std.specs.List.{find, list_any};
ghost use Rattle.packet_auth.specs.Digests.{digest};
ghost use Rattle.packet_auth.specs.Keys.{key_fields, secret_of};

use crate::key::{DIGEST_LENGTH, Key};

// Whether one of these keys has this identifier and makes this digest of a header.
pub(crate) fn vouches(keys: &[Key], id: u32, header: &[u8], claimed: &[u8]) -> bool
    requires { length claimed.now ≡ 16 }
    ensures found { result ≡ list_any
        (λ key. (key_fields key).id == id && bytes_eq
        (digest (key_fields key).secret header.now) claimed.now) keys.now }
{
    keys.iter()
        .any(|key| key.id == id && key.makes(header, claimed))
}

// The key with an identifier.
fn key_with(keys: &[Key], id: u32) -> Option<&Key>
    ensures { option_map (λ key. key.now) result ≡ find (λ key. key.id == id) keys.now }
{
    keys.iter().find(|key| key.id == id)
}

// The digest that the key with an identifier makes of a header.
pub(crate) fn digest_by(keys: &[Key], id: u32, header: &[u8]) -> [u8; DIGEST_LENGTH]
    requires { IsTrue (list_any (λ key. key.id == id) keys.now) }
    ensures digest { result ≡ digest (secret_of id (map key_fields keys.now)) header.now }
    ensures long { length result ≡ 16 }
{
    match key_with(keys, id) {
        Some(key) => key.digest(header),
        None => unreachable!(),
    }
}
