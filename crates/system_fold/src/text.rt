//! The line of a page.
ghost use Rattle.std.specs.Prelude.{◌≡◌, ◌+◌, ◌≤◌, length, take, drop};
ghost use Rattle.journal_entry.specs.Writing.{AddsFields, HasRoom, written};
ghost use Rattle.system_fold.specs.PageText.{page_fields, page_line};

use clock_page::Page;
use journal_entry::{ENTRY_ROOM, LINE_ROOM, TextWriter};

/// Writes the line of a page at the beginning of `out`, without a line feed, and leaves the rest as it was. The answer is the
/// number of bytes written, at most 173.
#[tactic(auto, using(std::proofs::lemmas::Slice::overwrites))]
pub fn page_text(p: &Page, out: &mut [u8; ENTRY_ROOM]) -> usize
    ensures text { take result out.new ≡ page_line p.now }
    ensures rest { drop result out.new ≡ drop result out.old }
    ensures length { result ≡ length (page_line p.now) }
    ensures most { result ≤ 173 }
{
    let mut line = [0; LINE_ROOM];
    let length = write_page(p, &mut line);
    out[..length].copy_from_slice(&line[..length]);
    length
}

/// Writes the line of a page as `page_text` does, into the room of a line.
pub fn write_page(p: &Page, out: &mut [u8; LINE_ROOM]) -> usize
    ensures text { take result out.new ≡ page_line p.now }
    ensures rest { drop result out.new ≡ drop result out.old }
    ensures length { result ≡ length (page_line p.now) }
    ensures most { result ≤ 173 }
{
    let mut text = TextWriter::new(out);
    text.add(b"page");
    write_fields(p, &mut text);
    text.len()
}

// Writes the fields of a page.
fn write_fields(p: &Page, text: &mut TextWriter<'_>)
    requires { HasRoom text.old 201 }
    ensures text { AddsFields text.old text.new (page_fields p.now) }
    ensures short { written text.new ≤ written text.old + 169 }
{
    text.number(p.length);
    text.number(u8::from(p.sync));
    text.number(p.stratum);
    text.address(p.refid);
    text.span(p.offset);
    text.moment(p.anchor);
    text.number(p.until);
    text.number(p.root_delay.0);
    text.number(p.root_disp.0);
    text.stamp(p.reftime);
    text.number(p.leap_at);
    text.rate(p.rate);
}
