//! Reads an IPv4 address.
ghost use Rattle.std.specs.Prelude.{◌≡◌};
ghost use Rattle.station_reader.specs.Forms.{octet_of, four_of, before_dot, after_dot, address_of};

use decimal_text::whole_number;

// The number that a text is, from 0 to 255.
fn octet(text: &str) -> Option<u8>
    ensures { result ≡ octet_of text.now }
{
    let number = whole_number(text.as_bytes(), 255)?;
    Some(number as u8)
}

// The parts of a text before and after its first dot; all of it and nothing where it has none.
fn parts(text: &str) -> (&str, &str)
    ensures before { result.0.now ≡ before_dot text.now }
    ensures after { result.1.now ≡ after_dot text.now }
{
    match text.split_once('.') {
        Some(parts) => parts,
        None => (text, ""),
    }
}

fn joined(
    first: Option<u8>,
    second: Option<u8>,
    third: Option<u8>,
    fourth: Option<u8>,
) -> Option<u32>
    ensures { result ≡ four_of first second third fourth }
{
    Some(u32::from_be_bytes([first?, second?, third?, fourth?]))
}

// The IPv4 address of four such numbers, separated by dots.
pub fn address(text: &str) -> Option<u32>
    ensures { result ≡ address_of text.now }
{
    let (first, rest) = parts(text);
    let (second, rest) = parts(rest);
    let (third, fourth) = parts(rest);
    joined(octet(first), octet(second), octet(third), octet(fourth))
}
