//! Compares digests.
ghost use Rattle.std.specs.Prelude.{◌≡◌, length, bytes_eq};

use crate::key::DIGEST_LENGTH;

// Whether a digest is the one that was made. It compares all bytes, wherever the first that differs stands. So its running time
// shows a sender nothing of how far a guessed digest was right. No clause can say that.
pub(crate) fn is_same(made: &[u8; DIGEST_LENGTH], claimed: &[u8]) -> bool
    requires { length claimed.now ≡ 16 }
    ensures { result ≡ bytes_eq made.now claimed.now }
{
    let mut differing = 0u8;
    for (own, other) in made.iter().zip(claimed) {
        differing |= own ^ other;
    }
    differing == 0
}
