//! Writes the text of an entry.
ghost use Rattle.std.specs.Prelude.{◌≡◌, ◌+◌, ◌<◌, ◌≤◌, ◌^◌, length, take, drop};
ghost use Rattle.journal_entry.specs.Entries.{IsEntry, IsKind, IsSample, IsWhat};
ghost use Rattle.journal_entry.specs.Numbers.{numbered_text};
ghost use Rattle.journal_entry.specs.Texts.{kind_fields, what_fields, text_of};
ghost use Rattle.journal_entry.specs.Writing.{AddsFields, HasRoom, written};

use crate::writer::{ENTRY_ROOM, LINE_ROOM, TextWriter};
use crate::{Entry, Numbered, What, keywords};
use itoa::Buffer;
use tick_units::{Kind, Sample};

/// Writes the text of an entry at the beginning of `out`, without a line feed, and leaves the rest as it was. Returns the number
/// of bytes written, at most 141.
#[tactic(auto, using(std::proofs::lemmas::Slice::overwrites))]
pub fn write_entry(e: &Entry, out: &mut [u8; ENTRY_ROOM]) -> usize
    ensures text { take result out.new ≡ text_of e.now }
    ensures rest { drop result out.new ≡ drop result out.old }
    ensures length { result ≡ length (text_of e.now) }
    ensures most { result ≤ 141 }
    ensures entry { IsEntry e.now }
{
    let mut line = [0; LINE_ROOM];
    let length = write_unnumbered(e, &mut line);
    out[..length].copy_from_slice(&line[..length]);
    length
}

// It is not inlined: an entry is rare among pulses, and the room and registers of its text would slow down each of them.
/// Writes the text of an entry as `write_entry` does, in the room of a line. Returns the number of bytes written, at most 141.
#[inline(never)]
pub fn write_unnumbered(e: &Entry, out: &mut [u8; LINE_ROOM]) -> usize
    ensures text { take result out.new ≡ text_of e.now }
    ensures rest { drop result out.new ≡ drop result out.old }
    ensures length { result ≡ length (text_of e.now) }
    ensures most { result ≤ 141 }
    ensures entry { IsEntry e.now }
{
    let mut text = TextWriter::new(out);
    text.add(Buffer::new().format(e.feed).as_bytes());
    text.moment(e.at);
    write_what(&e.what, &mut text);
    text.len()
}

/// Writes the text of a numbered entry at the beginning of `out`, without a line feed, and leaves the rest as it was. Returns the
/// number of bytes written, at most 177.
pub fn write_numbered(n: &Numbered, out: &mut [u8; LINE_ROOM]) -> usize
    ensures text { take result out.new ≡ numbered_text n.now }
    ensures rest { drop result out.new ≡ drop result out.old }
    ensures length { result ≡ length (numbered_text n.now) }
    ensures most { result ≤ 177 }
    ensures entry { IsEntry n.now.entry }
    ensures number { n.now.length < 2 ^ 64 }
{
    let mut text = TextWriter::new(out);
    text.add(keywords::VERSION_2);
    text.number(n.length);
    text.rate(n.rate);
    text.number(n.entry.feed);
    text.moment(n.entry.at);
    write_what(&n.entry.what, &mut text);
    text.len()
}

// Writes what an entry says.
fn write_what(what: &What, text: &mut TextWriter<'_>)
    requires { HasRoom text.old 114 }
    ensures text { AddsFields text.old text.new (what_fields what.now) }
    ensures short { written text.new ≤ written text.old + 114 }
    ensures what { IsWhat what.now }
{
    match what {
        What::Heard(kind) => write_kind(kind, text),
        What::Sample(sample) => write_sample(sample, text),
        What::Declined(code) => {
            text.field(keywords::DECLINED);
            text.number(*code);
        }
        What::Notice(leap_at) => {
            text.field(keywords::NOTICE);
            text.number(*leap_at);
        }
    }
}

// Writes what a closed minute comes to.
fn write_kind(kind: &Kind, text: &mut TextWriter<'_>)
    requires { HasRoom text.old 71 }
    ensures text { AddsFields text.old text.new (kind_fields kind.now) }
    ensures short { written text.new ≤ written text.old + 71 }
    ensures kind { IsKind kind.now }
{
    match kind {
        Kind::Verdict { second, leap_at } => {
            text.field(keywords::VERDICT);
            text.number(*second);
            text.number(*leap_at);
        }
        Kind::Lone { second } => {
            text.field(keywords::LONE);
            text.number(*second);
        }
        Kind::Differs { before, now, apart } => {
            text.field(keywords::DIFFERS);
            text.number(*before);
            text.number(*now);
            text.number(*apart);
        }
        Kind::Refused { rule } => {
            text.field(keywords::REFUSED);
            text.number(*rule);
        }
    }
}

// Writes a sample.
fn write_sample(sample: &Sample, text: &mut TextWriter<'_>)
    requires { HasRoom text.old 114 }
    ensures text { AddsFields text.old text.new (what_fields (What.Sample sample.now)) }
    ensures short { written text.new ≤ written text.old + 114 }
    ensures sample { IsSample sample.now }
{
    text.field(keywords::SAMPLE);
    text.span(sample.offset);
    text.span(sample.delay);
    text.span(sample.dispersion);
    text.number(sample.stratum);
    text.address(sample.address);
    text.number(sample.root_delay.0);
    text.number(sample.root_disp.0);
}
