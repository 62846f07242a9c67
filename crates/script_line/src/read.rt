//! Reads a line of a script from its text.
ghost use Rattle.std.specs.Prelude.{◌≡◌, ℕ, List, IfSome, Some, codes};
ghost use Rattle.script_line.specs.Reading.{IsOfFields};
ghost use Rattle.script_line.specs.Texts.{IsTextOf, word_of};
ghost use Rattle.script_line.specs.declared.line.ScriptLine as line;
ghost use Rattle.tick_units.specs.declared.marks.Reduction as reduction;

use crate::ScriptLine;
use crate::fields::Fields;
use tick_units::Reduction;

/// The line with this text, and `None` where no line has it. The text has no line feed. This does not judge what depends on the
/// station or on the lines before it.
pub fn read_line<'a>(text: &'a [u8]) -> Option<ScriptLine<'a>>
    ensures line { IfSome result (λ line. IsTextOf text.now line) }
    ensures every { (line : line.ScriptLine) → IsTextOf text.now line → result ≡ Some line }
{
    if let Some(rest) = text.strip_prefix(b"pulse") {
        read_pulse(Fields::new(rest))
    } else if let Some(rest) = text.strip_prefix(b"ask") {
        read_ask(Fields::new(rest))
    } else if let Some(rest) = text.strip_prefix(b"answer") {
        read_answer(Fields::new(rest))
    } else if let Some(rest) = text.strip_prefix(b"swap") {
        read_swap(Fields::new(rest))
    } else if let Some(rest) = text.strip_prefix(b"request") {
        read_request(Fields::new(rest))
    } else if let Some(rest) = text.strip_prefix(b"leap") {
        read_leap(Fields::new(rest))
    } else {
        None
    }
}

// A reduction that a radio's receiver receives.
fn read_pulse<'a>(mut fields: Fields<'a>) -> Option<ScriptLine<'a>>
    ensures line { IfSome result (λ line. IsOfFields fields.entry line × (word_of line ≡ codes "pulse")) }
    ensures every { (feed : ℕ) (reduction : reduction.Reduction) →
        IsOfFields fields.entry (ScriptLine.Pulse feed reduction) →
        result ≡ Some (ScriptLine.Pulse feed reduction) }
{
    let feed = fields.next_feed()?;
    let at = fields.next_moment()?;
    let width = fields.next_width()?;
    if fields.is_empty() {
        let reduction = Reduction { at, width };
        Some(ScriptLine::Pulse { feed, reduction })
    } else {
        None
    }
}

// A poller asks.
fn read_ask<'a>(mut fields: Fields<'a>) -> Option<ScriptLine<'a>>
    ensures line { IfSome result (λ line. IsOfFields fields.entry line × (word_of line ≡ codes "ask")) }
    ensures every { (feed at : ℕ) → IsOfFields fields.entry (ScriptLine.Ask feed at) →
        result ≡ Some (ScriptLine.Ask feed at) }
{
    let feed = fields.next_feed()?;
    let at = fields.next_moment()?;
    if fields.is_empty() {
        Some(ScriptLine::Ask { feed, at })
    } else {
        None
    }
}

// A server's datagram.
fn read_answer<'a>(mut fields: Fields<'a>) -> Option<ScriptLine<'a>>
    ensures line { IfSome result (λ line. IsOfFields fields.entry line × (word_of line ≡ codes "answer")) }
    ensures every { (feed at : ℕ) (bytes : List ℕ) → IsOfFields fields.entry (ScriptLine.Answer feed at bytes) →
        result ≡ Some (ScriptLine.Answer feed at bytes) }
{
    let feed = fields.next_feed()?;
    let at = fields.next_moment()?;
    let datagram = fields.datagram()?;
    Some(ScriptLine::Answer { feed, at, datagram })
}

// A swap of a receiver.
fn read_swap<'a>(mut fields: Fields<'a>) -> Option<ScriptLine<'a>>
    ensures line { IfSome result (λ line. IsOfFields fields.entry line × (word_of line ≡ codes "swap")) }
    ensures every { (feed : ℕ) → IsOfFields fields.entry (ScriptLine.Swap feed) → result ≡ Some (ScriptLine.Swap feed) }
{
    let feed = fields.next_feed()?;
    if fields.is_empty() {
        Some(ScriptLine::Swap { feed })
    } else {
        None
    }
}

// A client's datagram.
fn read_request<'a>(mut fields: Fields<'a>) -> Option<ScriptLine<'a>>
    ensures line { IfSome result (λ line. IsOfFields fields.entry line × (word_of line ≡ codes "request")) }
    ensures every { (connection arrived sent : ℕ) (bytes : List ℕ) →
        IsOfFields fields.entry (ScriptLine.Request connection arrived sent bytes) →
        result ≡ Some (ScriptLine.Request connection arrived sent bytes) }
{
    let connection = fields.next_connection()?;
    let arrived = fields.next_moment()?;
    let sent = fields.next_moment()?;
    if sent.get() < arrived.get() {
        return None;
    }
    let datagram = fields.datagram()?;
    Some(ScriptLine::Request {
        connection,
        arrived,
        sent,
        datagram,
    })
}

// A leap second that the file announces.
fn read_leap<'a>(mut fields: Fields<'a>) -> Option<ScriptLine<'a>>
    ensures line { IfSome result (λ line. IsOfFields fields.entry line × (word_of line ≡ codes "leap")) }
    ensures every { (feed at leap_at : ℕ) → IsOfFields fields.entry (ScriptLine.Leap feed at leap_at) →
        result ≡ Some (ScriptLine.Leap feed at leap_at) }
{
    let feed = fields.next_feed()?;
    let at = fields.next_moment()?;
    let leap_at = fields.next_second()?;
    if fields.is_empty() {
        Some(ScriptLine::Leap { feed, at, leap_at })
    } else {
        None
    }
}
