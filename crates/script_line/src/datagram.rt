//! A datagram in hexadecimal digits.
ghost use Rattle.std.specs.Prelude.{◌≡◌, ℕ, List, IfSome, Some, length, take, drop};
ghost use Rattle.std.specs.List.{list_all};
ghost use Rattle.script_line.specs.Datagrams as datagrams;
ghost use Rattle.script_line.specs.Datagrams.{IsDatagram, IsTextOfDatagram, bytes_said};

use hex::decode_to_slice;
use std::marker::Model;

/// The bytes of a datagram as they stand in a line of a script: 1 to 1024 of them, each as two lowercase hexadecimal digits.
/// Contracts see them as the list of bytes.
#[derive(Drop)]
pub struct Datagram<'a> {
    digits: &'a [u8],
}

impl<'a> Model for Datagram<'a> {
    ghost use Rattle.std.specs.Prelude.{List, ℕ};
    ghost use Rattle.script_line.specs.Datagrams.{bytes_said, IsTextOfDatagram};

    ghost Value = { List ℕ };

    ghost view = { λ d. bytes_said d.digits.now };

    ghost invariant = { λ d. IsTextOfDatagram d.digits.now (bytes_said d.digits.now) };
}

impl<'a> Datagram<'a> {
    /// The datagram that these digits say, and `None` where they are no datagram's.
    pub fn new(digits: &'a [u8]) -> Option<Datagram<'a>>
        ensures datagram { IfSome result (λ bytes. IsTextOfDatagram digits.now bytes) }
        ensures every { (bytes : List ℕ) → IsTextOfDatagram digits.now bytes → result ≡ Some bytes }
    {
        if are_digits(digits) {
            Some(Datagram { digits })
        } else {
            None
        }
    }

    /// Writes its bytes at the beginning of `out`, and leaves the rest as it was. The answer is their number.
    pub fn write(&self, out: &mut [u8; 1024]) -> usize
        ensures bytes { take result out.new ≡ self.now }
        ensures rest { drop result out.new ≡ drop result out.old }
        ensures length { result ≡ length self.now }
        ensures valid { IsDatagram self.now }
    {
        let count = self.count();
        decode(self.digits, &mut out[..count]);
        count
    }

    // Its number of bytes.
    fn count(&self) -> usize
        ensures value { result ≡ length self.now }
        ensures valid { IsDatagram self.now }
    {
        self.digits.len() / 2
    }
}

// Writes the bytes that digits say over a room of exactly their number.
fn decode(digits: &[u8], room: &mut [u8])
    requires text { IsTextOfDatagram digits.now (bytes_said digits.now) }
    requires room { length room.old ≡ length (bytes_said digits.now) }
    ensures { room.new ≡ bytes_said digits.now }
{
    let _ = decode_to_slice(digits, room);
}

// A text of lowercase digits, two for each of 1 to 1024 bytes.
fn are_digits(digits: &[u8]) -> bool
    ensures { result ≡ datagrams.are_digits digits.now }
{
    if !are_pairs(digits.len()) {
        return false;
    }
    are_small(digits)
}

// Two digits for each of 1 to 1024 bytes.
fn are_pairs(count: usize) -> bool
    ensures { result ≡ datagrams.are_pairs count }
{
    2 <= count && count <= 2048 && count % 2 == 0
}

// Digits without a capital letter.
fn are_small(digits: &[u8]) -> bool
    ensures { result ≡ list_all datagrams.is_small_digit digits.now }
{
    digits.iter().all(|byte| is_small_digit(*byte))
}

// A hexadecimal digit that is no capital letter.
fn is_small_digit(byte: u8) -> bool
    ensures { result ≡ datagrams.is_small_digit byte }
{
    b'0' <= byte && byte <= b'9' || b'a' <= byte && byte <= b'f'
}
