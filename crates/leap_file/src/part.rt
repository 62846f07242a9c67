//! How far a line has come, byte by byte, and what it says by then.
ghost use Rattle.std.specs.Prelude.{◌≡◌, true};
ghost use Rattle.std.specs.Char.{is_ascii_digit, digit_value};
ghost use Rattle.leap_file.specs.declared.part.Part.TheVariants.{Second, Dtai};
ghost use Rattle.leap_file.specs.Lines.{is_blank};
ghost use Rattle.leap_file.specs.Parts.{after_dtai, after_gap, after_row, after_second, ends, is_small, next, starts};

use crate::row::Row;

// The most digits of a row's first number, and of its second one.
const SECOND_DIGITS: u8 = 10;

const DTAI_DIGITS: u8 = 3;

/// What a line says.
#[derive(Clone, Copy, Debug, PartialEq, Eq)]
pub enum LeapLine {
    /// No row: it has only blanks, or begins with `#`.
    Nothing,
    /// A row.
    Numbers(Row),
    /// Neither.
    Bad,
}

/// How far a line has come.
#[derive(Clone, Copy, Debug, PartialEq, Eq)]
pub enum Part {
    /// It has no byte.
    Start,
    /// It has only blanks.
    Blank,
    /// It begins with `#`.
    Remark,
    /// It has digits, which write the second.
    Second(u8, u64),
    /// Blanks stand after the second.
    Gap(u64),
    /// After the second and blanks it has digits, which write the difference.
    Dtai(u64, u8, u16),
    /// Blanks stand after the row's two numbers.
    After(Row),
    /// A remark stands after them.
    Noted(Row),
    /// No valid line begins in this way.
    Lost,
}

// A space or a tab.
fn is_blank(byte: u8) -> bool
    ensures { result ≡ is_blank byte }
{
    byte == b' ' || byte == b'\t'
}

// The value of a digit.
fn value_of(byte: u8) -> u8
    requires { is_ascii_digit byte ≡ true }
    ensures { result ≡ digit_value byte }
{
    byte - b'0'
}

// From a line's first byte on.
fn starts(byte: u8) -> Part
    ensures next { result ≡ starts byte }
    ensures small { is_small result ≡ true }
{
    if byte.is_ascii_digit() {
        Part::Second(1, u64::from(value_of(byte)))
    } else if is_blank(byte) {
        Part::Blank
    } else if byte == b'#' {
        Part::Remark
    } else {
        Part::Lost
    }
}

// A byte after digits of the second.
fn after_second(digits: u8, second: u64, byte: u8) -> Part
    requires small { is_small (Second digits second) ≡ true }
    ensures next { result ≡ after_second digits second byte }
    ensures small { is_small result ≡ true }
{
    if byte.is_ascii_digit() {
        if digits < SECOND_DIGITS {
            Part::Second(digits + 1, second * 10 + u64::from(value_of(byte)))
        } else {
            Part::Lost
        }
    } else if is_blank(byte) {
        Part::Gap(second)
    } else {
        Part::Lost
    }
}

// A byte after the blanks between the two numbers.
fn after_gap(second: u64, byte: u8) -> Part
    ensures next { result ≡ after_gap second byte }
    ensures small { is_small result ≡ true }
{
    if is_blank(byte) {
        Part::Gap(second)
    } else if byte.is_ascii_digit() {
        Part::Dtai(second, 1, u16::from(value_of(byte)))
    } else {
        Part::Lost
    }
}

// A byte after digits of the difference.
fn after_dtai(second: u64, digits: u8, dtai: u16, byte: u8) -> Part
    requires small { is_small (Dtai second digits dtai) ≡ true }
    ensures next { result ≡ after_dtai second digits dtai byte }
    ensures small { is_small result ≡ true }
{
    if byte.is_ascii_digit() {
        if digits < DTAI_DIGITS {
            Part::Dtai(second, digits + 1, dtai * 10 + u16::from(value_of(byte)))
        } else {
            Part::Lost
        }
    } else if is_blank(byte) {
        Part::After(Row { second, dtai })
    } else {
        Part::Lost
    }
}

// A byte after the blanks that follow a row's numbers.
fn after_row(row: Row, byte: u8) -> Part
    ensures next { result ≡ after_row row byte }
    ensures small { is_small result ≡ true }
{
    if is_blank(byte) {
        Part::After(row)
    } else if byte == b'#' {
        Part::Noted(row)
    } else {
        Part::Lost
    }
}

// How far the line has come with one more byte.
pub(crate) fn next(part: Part, byte: u8) -> Part
    requires small { is_small part ≡ true }
    ensures next { result ≡ next part byte }
    ensures small { is_small result ≡ true }
{
    match part {
        Part::Start => starts(byte),
        Part::Blank => {
            if is_blank(byte) {
                Part::Blank
            } else {
                Part::Lost
            }
        }
        Part::Remark => Part::Remark,
        Part::Second(digits, second) => after_second(digits, second, byte),
        Part::Gap(second) => after_gap(second, byte),
        Part::Dtai(second, digits, dtai) => after_dtai(second, digits, dtai, byte),
        Part::After(row) => after_row(row, byte),
        Part::Noted(row) => Part::Noted(row),
        Part::Lost => Part::Lost,
    }
}

// What a line says that ends here.
pub(crate) fn ends(part: Part) -> LeapLine
    ensures { result ≡ ends part }
{
    match part {
        Part::Start => LeapLine::Nothing,
        Part::Blank => LeapLine::Nothing,
        Part::Remark => LeapLine::Nothing,
        Part::Second(_, _) => LeapLine::Bad,
        Part::Gap(_) => LeapLine::Bad,
        Part::Dtai(second, _, dtai) => LeapLine::Numbers(Row { second, dtai }),
        Part::After(row) => LeapLine::Numbers(row),
        Part::Noted(row) => LeapLine::Numbers(row),
        Part::Lost => LeapLine::Bad,
    }
}
