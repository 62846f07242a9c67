//! The line of a reduction, written.
ghost use Rattle.std.specs.Prelude.{◌≡◌, ℕ, ◌+◌, ◌≤◌, ◌∷◌, ◌++◌, [], length, take, drop};
ghost use Rattle.pulse_log.specs.Writing.{line_of, IsTheLine};

use itoa::Buffer;
use tick_units::Reduction;

/// Writes the line of a reduction, with its line feed, at the beginning of `out`, and leaves the rest as it was. Returns the
/// number of bytes written. The width is 1 to 2000000 microseconds.
pub fn write_line(r: Reduction, out: &mut [u8; 40]) -> usize
    requires some { 1 ≤ r.width }
    requires most { r.width ≤ 2000000 }
    ensures text { out.new ≡ line_of r ++ 10 ∷ [] ++ drop result out.old }
    ensures length { result ≡ length (line_of r) + 1 }
    ensures line { IsTheLine (line_of r) r }
{
    let mut buffer = Buffer::new();
    let space = put(out, 0, buffer.format(r.at.get()).as_bytes());
    let width = put(out, space, b" ");
    let feed = put(out, width, buffer.format(r.width).as_bytes());
    put(out, feed, b"\n")
}

// Puts a text at a place. Returns the place after it.
fn put(out: &mut [u8; 40], place: usize, text: &[u8]) -> usize
    requires { place + length text.now ≤ 40 }
    ensures text { out.new ≡ take place out.old ++ text.now ++ drop result out.old }
    ensures place { result ≡ place + length text.now }
{
    let end = place + text.len();
    out[place..end].copy_from_slice(text);
    end
}
