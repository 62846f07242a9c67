//! The status line.
ghost use Rattle.std.specs.Prelude.{◌≡◌, ◌+◌, ◌≤◌, ◌++◌, length, codes, decimal};
ghost use Rattle.arrayvec.specs.ArrayVec.{array_vec_len};
ghost use Rattle.command_ends.specs.Endings.{name_of, place_of, status_line};

use super::Ending;
use super::subject::Subject;
use arrayvec::ArrayVec;
use itoa::Buffer;

/// A status line that names no key of a station file, with its line feed: at most 80 bytes.
pub type Line = ArrayVec<u8, 80>;

// Adds a text to a line.
fn add(line: &mut Line, text: &[u8])
    requires { array_vec_len line.old + length text.now ≤ 80 }
    ensures { line.new.items ≡ line.old.items ++ text.now }
{
    let _ = line.try_extend_from_slice(text);
}

// Adds a number in decimal to a line.
fn add_number(line: &mut Line, number: u64)
    requires { array_vec_len line.old + 20 ≤ 80 }
    ensures text { line.new.items ≡ line.old.items ++ decimal number }
    ensures short { array_vec_len line.new ≤ array_vec_len line.old + 20 }
{
    let mut buffer = Buffer::new();
    add(line, buffer.format(number).as_bytes());
}

// A line of these two texts.
fn joined(first: &[u8], second: &[u8]) -> Line
    requires { length first.now + length second.now ≤ 30 }
    ensures text { result.items ≡ first.now ++ second.now }
    ensures short { array_vec_len result ≤ 30 }
{
    let mut line = Line::new();
    add(&mut line, first);
    add(&mut line, second);
    line
}

// A text, then a keyword and a number.
fn counted(prefix: &[u8], word: &[u8], number: u32) -> Line
    requires { length prefix.now + length word.now ≤ 30 }
    ensures text { result.items ≡ prefix.now ++ word.now ++ decimal number }
    ensures short { array_vec_len result ≤ 50 }
{
    let mut line = joined(prefix, word);
    add_number(&mut line, u64::from(number));
    line
}

// A text, and what the status line calls a subject.
fn named(prefix: &[u8], subject: Subject) -> Line
    requires { length prefix.now ≤ 15 }
    ensures text { result.items ≡ prefix.now ++ name_of subject }
    ensures short { array_vec_len result ≤ 50 }
{
    match subject {
        Subject::Station => joined(prefix, b"station"),
        Subject::Script => joined(prefix, b"script"),
        Subject::Journal => joined(prefix, b"journal"),
        Subject::Feed(number) => counted(prefix, b"feed ", number),
        Subject::Link(number) => counted(prefix, b"link ", number),
    }
}

// A text, and the place of a line of a subject.
fn placed(prefix: &[u8], subject: Subject) -> Line
    requires { length prefix.now ≤ 15 }
    ensures text { result.items ≡ prefix.now ++ place_of subject }
    ensures short { array_vec_len result ≤ 50 }
{
    match subject {
        Subject::Feed(number) => counted(prefix, b"line ", number),
        other => named(prefix, other),
    }
}

// A line that has ended.
fn ended(line: Line) -> Line
    requires { array_vec_len line ≤ 63 }
    ensures { result.items ≡ line.items ++ codes "\n" }
{
    let mut line = line;
    add(&mut line, b"\n");
    line
}

// A line that ends with a number.
fn numbered(line: Line, number: u64) -> Line
    requires { array_vec_len line ≤ 50 }
    ensures { result.items ≡ line.items ++ codes " " ++ decimal number ++ codes "\n" }
{
    let mut line = line;
    add(&mut line, b" ");
    add_number(&mut line, number);
    add(&mut line, b"\n");
    line
}

// The end of a line that ends with a number.
pub fn count_text(count: u64) -> Line
    ensures { result.items ≡ codes " " ++ decimal count ++ codes "\n" }
{
    numbered(Line::new(), count)
}

// The last line of a command.
pub fn status_text(ending: Ending) -> Line
    ensures { result.items ≡ status_line ending }
{
    match ending {
        Ending::Whole => joined(b"status 0\n", b""),
        Ending::WrongWords => joined(b"status 1 usage\n", b""),
        Ending::NotOpened(subject) => ended(named(b"status 2 open ", subject)),
        Ending::NotRead(subject) => ended(named(b"status 4 read ", subject)),
        Ending::WrongLine(subject, line) => numbered(placed(b"status 5 ", subject), line),
        Ending::Full(limit) => numbered(joined(b"status 6 full", b""), u64::from(limit)),
        Ending::LinkFailed(subject) => ended(named(b"status 7 ", subject)),
        Ending::NoMemory => joined(b"status 9 memory\n", b""),
        Ending::Long(subject) => ended(named(b"status 10 long ", subject)),
    }
}
