//! The writer of a text in its room.
ghost use Rattle.std.specs.Prelude.{◌≤◌};
ghost use Rattle.journal_entry.specs.declared.writer.TheConstants.{LINE_ROOM};

use hex::encode_to_slice;
use itoa::{Buffer, Integer};
use tick_units::{Local, Span, Stamp};

/// The room for the text of a line, in bytes. A line of a journal that is longer than this is bad.
pub const LINE_ROOM: usize = 300;

/// The room for the text of one entry, or of one page, in bytes.
pub const ENTRY_ROOM: usize = 256;

/// Writes the fields of a text at the beginning of its room.
#[derive(Drop)]
pub struct TextWriter<'a> {
    out: &'a mut [u8; LINE_ROOM],
    length: usize,
    ghost within: { length ≤ LINE_ROOM },
}

impl<'a> TextWriter<'a> {
    ghost use Rattle.std.specs.Prelude.{◌≡◌, ◌+◌, ◌^◌, ◌<◌, ◌≤◌, ◌∷◌, length, unsigned_abs};
    ghost use Rattle.std.specs.Fmt.{decimal, signed_decimal};
    ghost use Rattle.journal_entry.specs.Texts.{address_text, stamp_text};
    ghost use Rattle.journal_entry.specs.Writing.{Adds, HasRoom, room_name, room_of, written};

    /// The writer of no text.
    pub fn new(out: &'a mut [u8; LINE_ROOM]) -> TextWriter<'a>
        ensures room { room_name result ≡ out.entry.ghost_name }
        ensures length { written result ≡ 0 }
        ensures same { room_of result ≡ out.old }
    {
        TextWriter { out, length: 0 }
    }

    /// The number of bytes written.
    pub fn len(&self) -> usize
        ensures { result ≡ written self.now }
    {
        self.length
    }

    /// Adds a piece of text.
    #[tactic(auto, using(std::proofs::lemmas::Slice::overwrites))]
    pub fn add(&mut self, piece: &[u8])
        requires { HasRoom self.old (length piece.now) }
        ensures { Adds self.old self.new piece.now }
    {
        let end = self.length + piece.len();
        let out = &mut *self.out;
        out[self.length..end].copy_from_slice(piece);
        self.length = end;
    }

    /// Adds a space and a field.
    #[tactic(auto, using(crate::proofs::WritingLaws::adds_both))]
    pub fn field(&mut self, field: &[u8])
        requires { HasRoom self.old (1 + length field.now) }
        ensures { Adds self.old self.new (32 ∷ field.now) }
    {
        self.add(b" ");
        self.add(field);
    }

    /// Adds a space and a number in decimal.
    pub fn number<I: Integer>(&mut self, number: I)
        requires { HasRoom self.old (1 + I.MAX_STR_LEN) }
        ensures text { Adds self.old self.new (32 ∷ I.text number) }
        ensures short { written self.new ≤ written self.old + 1 + I.MAX_STR_LEN }
    {
        let mut buffer = Buffer::new();
        self.field(buffer.format(number).as_bytes());
    }

    /// Adds a space and a moment's number of microseconds in decimal.
    pub fn moment(&mut self, at: Local)
        requires { HasRoom self.old 21 }
        ensures text { Adds self.old self.new (32 ∷ decimal at) }
        ensures short { written self.new ≤ written self.old + 17 }
        ensures small { at < 2 ^ 50 }
    {
        self.number(at.get());
    }

    /// Adds a space and a span's number of units in decimal, with a sign where it is negative.
    pub fn span(&mut self, span: Span)
        requires { HasRoom self.old 41 }
        ensures text { Adds self.old self.new (32 ∷ signed_decimal span) }
        ensures short { written self.new ≤ written self.old + 24 }
        ensures small { unsigned_abs span < 2 ^ 70 }
    {
        self.number(span.get());
    }

    /// Adds a space and a rate in decimal, with a sign where it is negative.
    pub fn rate(&mut self, rate: i32)
        requires { HasRoom self.old 12 }
        ensures text { Adds self.old self.new (32 ∷ signed_decimal rate) }
        ensures short { written self.new ≤ written self.old + 12 }
    {
        self.number(rate);
    }

    /// Adds a space and the four bytes of an address, each in two hexadecimal digits.
    pub fn address(&mut self, address: u32)
        requires { HasRoom self.old 9 }
        ensures text { Adds self.old self.new (32 ∷ address_text address) }
        ensures short { written self.new ≤ written self.old + 9 }
    {
        let mut digits = [0; 8];
        let _ = encode_to_slice(address.to_be_bytes(), &mut digits);
        self.field(&digits);
    }

    /// Adds a space and the eight bytes of a stamp, each in two hexadecimal digits.
    pub fn stamp(&mut self, stamp: Stamp)
        requires { HasRoom self.old 17 }
        ensures text { Adds self.old self.new (32 ∷ stamp_text stamp.0) }
        ensures short { written self.new ≤ written self.old + 17 }
        ensures small { stamp.0 < 2 ^ 64 }
    {
        let mut sixteen = [0; 16];
        let _ = encode_to_slice(stamp.0.to_be_bytes(), &mut sixteen);
        self.field(&sixteen);
    }
}
