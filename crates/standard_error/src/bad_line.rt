//! What is wrong with a line of a file that a run found bad: one condition, by the line's bytes and the line before it. It is a second
//! reader of logs and leap second files, and names only what the first refuses; `checks/messages.sh` has a line for each condition.

use crate::texts::{
    BYTE_ORDER_MARK, COMMENT, CR_END, CR_INSIDE, EDGE, EMPTY_LINE, GREAT_START, LEADING_ZERO,
    LONG_LINE, NANOSECONDS, NEGATIVE, NO_LINE_FEED, NOT_ABOVE, NOT_WHOLE_NUMBER, ODD_BYTE,
    ONE_NUMBER, ROW_DIFFERENCE, ROW_FALLS, ROW_LATE, ROW_MONTH, ROW_NUMBERS, ROW_REMARK, ROW_STEP,
    SEPARATOR, SPACE_FIRST, SPACE_LAST, START_END, TAB, THREE_NUMBERS, TWO_SPACES, UTF_16, WIDE,
    WIDTH_START, ZERO_WIDTH,
};
use std::alloc::{AllocError, Global};

// How many bytes of a line are kept. A log has none that is so long.
const KEPT: usize = 64;

// How many bytes of a line are shown.
const SHOWN: usize = 40;

// A line of a log is too long at this byte.
const TOO_LONG: usize = 32;

// The moments of a log are below 2^50 microseconds.
const END: u64 = 1 << 50;

// The greatest width of a log in microseconds.
const WIDEST: u64 = 2_000_000;

// A width of a mark in nanoseconds, from 40 ms to 1 s.
const LEAST_NANOSECONDS: u64 = 40_000_000;

const MOST_NANOSECONDS: u64 = 1_000_000_000;

// The seconds of a leap second file are below this one, 2100-01-03 00:00 UTC.
const LAST_SECOND: u64 = 6_311_606_400;

// The greatest difference of a leap second file.
const GREATEST_DIFFERENCE: u64 = 255;

/// What is kept of a line: its beginning, its last byte and whether it has a line feed.
#[derive(Clone, Copy)]
pub struct Kept {
    bytes: [u8; KEPT],
    length: usize,
    last: u8,
    has_end: bool,
}

impl Kept {
    // The line that has no byte yet.
    fn new() -> Kept {
        Kept {
            bytes: [0; KEPT],
            length: 0,
            last: 0,
            has_end: false,
        }
    }

    // The line with one byte more.
    fn add(&mut self, byte: u8) {
        self.last = byte;
        if let Some(place) = self.bytes.get_mut(self.length) {
            *place = byte;
            self.length = self.length.saturating_add(1);
        }
    }

    // What is kept of its bytes.
    fn text(&self) -> &[u8] {
        self.bytes.get(..self.length).unwrap_or(&[])
    }
}

/// Looks for a line of a file by its number, as the file's bytes come.
#[derive(Clone, Copy)]
pub struct LineSeeker {
    wanted: u64,
    number: u64,
    line: Kept,
    /// The last line before that begins with a digit.
    before: Kept,
}

impl LineSeeker {
    /// It has taken no byte of a file of which it looks for the line of this number, from 1.
    pub fn new(wanted: u64) -> LineSeeker {
        LineSeeker {
            wanted,
            number: 1,
            line: Kept::new(),
            before: Kept::new(),
        }
    }

    /// Whether the line has been taken whole.
    pub fn has_found(&self) -> bool {
        self.line.has_end
    }

    // Takes a line feed.
    fn end_line(&mut self) {
        if self.number >= self.wanted {
            self.line.has_end = true;
            return;
        }
        self.number = self.number.saturating_add(1);
        if let Some(first) = self.line.text().first() {
            if first.is_ascii_digit() {
                self.before = self.line;
            }
        }
        self.line = Kept::new();
    }

    /// Takes the bytes that come next.
    pub fn take(&mut self, bytes: &[u8]) {
        for byte in bytes {
            if self.line.has_end {
                return;
            }
            if *byte == b'\n' {
                self.end_line();
            } else {
                self.line.add(*byte);
            }
        }
    }

    /// What is printable of the line, up to 40 bytes. Tabs and carriage returns are `\t` and `\r`, and any other byte is `?`.
    pub fn shown(&self, alloc: Global) -> Result<String, AllocError> {
        let mut shown = String::new(alloc);
        for byte in self.line.text().get(..SHOWN).unwrap_or(self.line.text()) {
            match *byte {
                b'\r' => shown.push_str("\\r")?,
                b'\t' => shown.push_str("\\t")?,
                b' '..=b'~' => shown.push(char::from(*byte))?,
                _ => shown.push('?')?,
            }
        }
        if self.line.length > SHOWN {
            shown.push_str("..")?;
        }
        Ok(shown)
    }

    /// The condition of a log that the line does not meet, as a sentence; none where it meets each.
    pub fn log_fault(&self) -> Option<&'static str> {
        log_fault(
            self.line.text(),
            self.line.has_end,
            start_of(self.before.text()),
        )
    }

    /// The condition of a leap second file that the line does not meet, as a sentence.
    pub fn leap_fault(&self) -> &'static str {
        row_fault(self.line.text(), row_of(self.before.text()))
    }

    /// What is wrong with the line of a script or a journal, where that can be seen without knowing its fields.
    pub fn plain_fault(&self) -> Option<&'static str> {
        if self.line.length == 0 {
            return Some(EMPTY_LINE);
        }
        if self.line.last == b'\r' {
            return Some(CR_END);
        }
        mark_fault(self.line.text()).or(if self.line.has_end {
            None
        } else {
            Some(NO_LINE_FEED)
        })
    }
}

// Whether a text has another in it.
fn has(text: &[u8], part: &[u8]) -> bool {
    text.windows(part.len().max(1)).any(|piece| piece == part)
}

// The mark that an editor puts at a file's beginning.
fn mark_fault(line: &[u8]) -> Option<&'static str> {
    if line.starts_with(&[0xef, 0xbb, 0xbf]) {
        return Some(BYTE_ORDER_MARK);
    }
    if line.starts_with(&[0xff, 0xfe]) || line.starts_with(&[0xfe, 0xff]) {
        return Some(UTF_16);
    }
    None
}

// Whether a line is that of an edge, as a feeder's command prints it.
fn is_edge(line: &[u8]) -> bool {
    has(line, b"rising") || has(line, b"falling") || has(line, b" EDGE")
}

// What is wrong with the bytes of a log's line that has others than digits and spaces.
fn odd_fault(line: &[u8]) -> Option<&'static str> {
    if line.ends_with(b"\r") {
        return Some(CR_END);
    }
    if line.contains(&b'\r') {
        return Some(CR_INSIDE);
    }
    if is_edge(line) {
        return Some(EDGE);
    }
    if line.contains(&b'\t') {
        return Some(TAB);
    }
    if line.starts_with(b"#") {
        return Some(COMMENT);
    }
    if line.starts_with(b"-") || has(line, b" -") {
        return Some(NEGATIVE);
    }
    if line.contains(&b',') || line.contains(&b';') {
        return Some(SEPARATOR);
    }
    number_fault(line)
}

// What is wrong with a number of a line that has others than digits and spaces.
fn number_fault(line: &[u8]) -> Option<&'static str> {
    let mut is_decimal = true;
    for byte in line {
        is_decimal = is_decimal && (byte.is_ascii_digit() || *byte == b' ' || *byte == b'.');
    }
    if is_decimal {
        Some(NOT_WHOLE_NUMBER)
    } else {
        Some(ODD_BYTE)
    }
}

// Whether a line has digits and spaces alone.
fn is_plain(line: &[u8]) -> bool {
    for byte in line {
        if !byte.is_ascii_digit() && *byte != b' ' {
            return false;
        }
    }
    true
}

// What is wrong with the bytes of a log's line.
fn bytes_fault(line: &[u8]) -> Option<&'static str> {
    if line.is_empty() {
        return Some(EMPTY_LINE);
    }
    if let Some(mark) = mark_fault(line) {
        return Some(mark);
    }
    if !is_plain(line) {
        return odd_fault(line);
    }
    if line.len() >= TOO_LONG {
        return Some(LONG_LINE);
    }
    spaces_fault(line)
}

// What is wrong with the spaces of a log's line.
fn spaces_fault(line: &[u8]) -> Option<&'static str> {
    if line.starts_with(b" ") {
        return Some(SPACE_FIRST);
    }
    if line.ends_with(b" ") {
        return Some(SPACE_LAST);
    }
    if has(line, b"  ") {
        return Some(TWO_SPACES);
    }
    None
}

// Whether a number has a zero before its other digits.
fn has_leading_zero(number: &str) -> bool {
    number.starts_with('0') && number != "0"
}

// What a line with these two numbers seems to be: its start and its end, its width and its start, or a line in nanoseconds.
fn likeness(start: u64, width: u64) -> Option<&'static str> {
    if width > WIDEST && width > start && width.abs_diff(start) <= WIDEST {
        return Some(START_END);
    }
    if width > WIDEST && start >= LEAST_WIDTH && start <= WIDEST {
        return Some(WIDTH_START);
    }
    if width >= LEAST_NANOSECONDS && width <= MOST_NANOSECONDS {
        return Some(NANOSECONDS);
    }
    None
}

// A width of a mark in microseconds has at least this many.
const LEAST_WIDTH: u64 = 40_000;

// Which bound a start or a width passes. `before` is the start of the line before.
fn bound_fault(start: u64, width: u64, before: Option<u64>) -> Option<&'static str> {
    if let Some(likeness) = likeness(start, width) {
        return Some(likeness);
    }
    if start >= END {
        return Some(GREAT_START);
    }
    if width == 0 {
        return Some(ZERO_WIDTH);
    }
    if width > WIDEST {
        return Some(WIDE);
    }
    match before {
        Some(before) if start <= before => Some(NOT_ABOVE),
        _ => None,
    }
}

// What is wrong with the numbers of a log's line, which has single spaces between digits.
fn numbers_fault(line: &str, before: Option<u64>) -> Option<&'static str> {
    let Some((start, width)) = line.split_once(' ') else {
        return Some(ONE_NUMBER);
    };
    if width.contains(' ') {
        return Some(THREE_NUMBERS);
    }
    if has_leading_zero(start) || has_leading_zero(width) {
        return Some(LEADING_ZERO);
    }
    let Ok(start) = start.parse::<u64>() else {
        return Some(GREAT_START);
    };
    let Ok(width) = width.parse::<u64>() else {
        return Some(WIDE);
    };
    bound_fault(start, width, before)
}

/// The first condition of a log that a line does not meet, as a sentence: `line` are its bytes without its line feed, `has_end` is
/// whether it has one, and `before` is the start of the line before it. There is none where it meets each.
pub fn log_fault(line: &[u8], has_end: bool, before: Option<u64>) -> Option<&'static str> {
    if let Some(fault) = bytes_fault(line) {
        return Some(fault);
    }
    if let Some(fault) = numbers_fault(str::from_utf8(line).unwrap_or(""), before) {
        return Some(fault);
    }
    if has_end { None } else { Some(NO_LINE_FEED) }
}

// The start of a log's line.
fn start_of(line: &[u8]) -> Option<u64> {
    let (start, _) = str::from_utf8(line).ok()?.split_once(' ')?;
    start.parse().ok()
}

/// A row of a leap second file: the second from which its difference of TAI and UTC holds.
#[derive(Clone, Copy)]
pub struct LeapRow {
    pub second: u64,
    pub difference: u64,
}

// Whether a letter stands between the numbers of a row.
fn is_blank(letter: char) -> bool {
    letter == ' ' || letter == '\t'
}

// The number at the beginning of a text, and what follows it after spaces and tabs.
fn first_number(text: &str) -> Option<(u64, &str)> {
    let end = text.find(|letter: char| !letter.is_ascii_digit());
    let (digits, rest) = text.split_at(end.unwrap_or(text.len()));
    Some((digits.parse().ok()?, rest.trim_start_matches(is_blank)))
}

// The row of a line, whatever follows it.
fn row_of(line: &[u8]) -> Option<LeapRow> {
    let (second, rest) = first_number(str::from_utf8(line).ok()?)?;
    let (difference, _) = first_number(rest)?;
    Some(LeapRow { second, difference })
}

// What is wrong with a row whose numbers were read. `before` is the row before it. A row that is bad and passes no other bound begins
// no month.
fn row_bound_fault(row: LeapRow, before: Option<LeapRow>) -> &'static str {
    if row.second >= LAST_SECOND {
        return ROW_LATE;
    }
    if row.difference > GREATEST_DIFFERENCE {
        return ROW_DIFFERENCE;
    }
    match before {
        Some(before) if row.second <= before.second => ROW_FALLS,
        Some(before) if row.difference != before.difference.saturating_add(1) => ROW_STEP,
        _ => ROW_MONTH,
    }
}

/// The condition of a leap second file that a bad line does not meet, as a sentence: `line` are its bytes without its line feed, and
/// `before` is the row before it.
pub fn row_fault(line: &[u8], before: Option<LeapRow>) -> &'static str {
    if let Some(mark) = mark_fault(line) {
        return mark;
    }
    let text = str::from_utf8(line).unwrap_or("").trim_end_matches('\r');
    let Some((second, rest)) = first_number(text) else {
        return ROW_NUMBERS;
    };
    let Some((difference, rest)) = first_number(rest) else {
        return ROW_NUMBERS;
    };
    if !rest.is_empty() && !rest.starts_with('#') {
        return ROW_REMARK;
    }
    row_bound_fault(LeapRow { second, difference }, before)
}
