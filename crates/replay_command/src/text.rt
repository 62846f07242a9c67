//! Writes what a line of a script gives.
ghost use Rattle.std.specs.Prelude.{◌≡◌, ◌+◌, ◌*◌, ◌≤◌, ◌++◌, ◌∷◌, [], length, take, drop};
ghost use Rattle.hex.specs.Hex.{encode_lower};
ghost use Rattle.replay_command.specs.Texts.{outcome_text, reply_end};

use crate::Outcome;
use hex::encode_to_slice;
use journal_entry::{LINE_ROOM, Numbered, TextWriter, write_numbered};
use reply_core::Dropped;

// Writes a keyword and a line feed.
fn write_word(word: &[u8], out: &mut [u8; LINE_ROOM]) -> usize
    requires { length word.now ≤ 20 }
    ensures text { take result out.new ≡ word.now ++ 10 ∷ [] }
    ensures rest { drop result out.new ≡ drop result out.old }
    ensures length { result ≡ length word.now + 1 }
{
    let mut text = TextWriter::new(out);
    text.add(word);
    text.add(b"\n");
    text.len()
}

// Writes a keyword with its space, the bytes in hexadecimal digits, and then the end.
#[tactic(auto, using(crate::proofs::TextLaws::drop_on))]
fn write_bytes(word: &[u8], bytes: &[u8], end: &[u8], out: &mut [u8; LINE_ROOM]) -> usize
    requires word { length word.now ≤ 20 }
    requires bytes { length bytes.now ≤ 68 }
    requires end { length end.now ≤ 8 }
    ensures text { take result out.new ≡ word.now ++ encode_lower bytes.now ++ end.now }
    ensures rest { drop result out.new ≡ drop result out.old }
    ensures length { result ≡ length word.now + 2 * length bytes.now + length end.now }
{
    let mut room = [0; 136];
    let digits = &mut room[..2 * bytes.len()];
    let _ = encode_to_slice(bytes, digits);
    let mut text = TextWriter::new(out);
    text.add(word);
    text.add(digits);
    text.add(end);
    text.len()
}

// The end of a reply's line, with a line of its own after it where the client was not kept.
fn reply_end(kept: bool) -> &'static [u8]
    ensures text { result.now ≡ reply_end kept }
    ensures most { length result.now ≤ 8 }
{
    if kept { b"\n" } else { b"\nunkept\n" }
}

// Writes a numbered entry and a line feed.
fn write_kept(n: &Numbered, out: &mut [u8; LINE_ROOM]) -> usize
    ensures text { take result out.new ≡ outcome_text (Outcome.Kept n.now) }
    ensures rest { drop result out.new ≡ drop result out.old }
    ensures length { result ≡ length (outcome_text (Outcome.Kept n.now)) }
{
    let length = write_numbered(n, out);
    out[length] = b'\n';
    length + 1
}

/// Writes what a line of a script gives at the beginning of `out`, and leaves the rest as it was: a line with its line feed.
/// After a reply whose client was not kept comes the line `unkept`. The answer is the number of bytes written, 0 where the line
/// gives nothing.
pub fn write_outcome(outcome: &Outcome, out: &mut [u8; LINE_ROOM]) -> usize
    ensures text { take result out.new ≡ outcome_text outcome.now }
    ensures rest { drop result out.new ≡ drop result out.old }
    ensures length { result ≡ length (outcome_text outcome.now) }
{
    match outcome {
        Outcome::Nothing => 0,
        Outcome::Kept(numbered) => write_kept(numbered, out),
        Outcome::Asked(bytes) => write_bytes(b"asked ", bytes, b"\n", out),
        Outcome::Replied { reply, kept } => {
            write_bytes(b"reply ", reply.bytes(), reply_end(*kept), out)
        }
        Outcome::Dropped(Dropped::Short) => write_word(b"drop short", out),
        Outcome::Dropped(Dropped::Version) => write_word(b"drop version", out),
        Outcome::Dropped(Dropped::Mode) => write_word(b"drop mode", out),
    }
}
