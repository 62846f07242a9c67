//! Numbered entries and their texts.
use crate::shared::{entry, longest, moment, same, same_for};
use journal_entry::{Entry, LINE_ROOM, Numbered, What, read_numbered, write_numbered};
use std::process::Abort;
use std::test::Fail;
use tick_units::{Kind, Local};

// The one text of a numbered entry, written and read; what lies after it in its room stays.
fn is_the_text(rt: &impl Abort, text: &str, numbered: &Numbered) {
    let mut out = [b'#'; LINE_ROOM];
    let length = write_numbered(numbered, &mut out);
    same(rt, &out[..length], text.as_bytes());
    assert!(rt; out[length..].iter().all(|byte| *byte == b'#'));
    same(rt, read_numbered(text.as_bytes()), Some(*numbered));
}

// A minute that a radio reported once.
fn lone(at: Local, length: u64, rate: i32) -> Numbered {
    let kind = Kind::Lone {
        second: 3_976_257_600,
    };
    let what = What::Heard(kind);
    let entry = Entry { feed: 0, at, what };
    Numbered {
        length,
        rate,
        entry,
    }
}

// The text of a lone minute with this number and rate.
const RATES: [(&str, u64, i32); 4] = [
    ("j2 1 0 0 62000000 lone 3976257600", 1, 0),
    ("j2 6 -53687 0 62000000 lone 3976257600", 6, -53_687),
    (
        "j2 4194304 2147483 0 62000000 lone 3976257600",
        4_194_304,
        2_147_483,
    ),
    ("j2 10 -2147483 0 62000000 lone 3976257600", 10, -2_147_483),
];

fn are_texts(rt: &impl Abort, table: &[(&str, u64, i32)]) {
    let at = moment(62_000_000);
    for (text, length, rate) in table {
        is_the_text(rt, text, &lone(at, *length, *rate));
    }
}

#[test]
fn numbers_and_rates(rt: HostRuntime) {
    are_texts(&rt, &RATES);
}

// Each number at its bound: no text that is read is longer than this.
#[test]
fn the_longest_line(rt: HostRuntime) -> Result<(), Fail> {
    let text =
        "j2 18446744073709551615 -2147483 4294967295 1125899906842623 sample -1180591620717411303423 -1180591620717411303423 -1180591620717411303423 255 ffffffff 4294967295 4294967295";
    same(&rt, text.len(), 174);
    let numbered = Numbered {
        length: u64::MAX,
        rate: -2_147_483,
        entry: entry(u32::MAX, (1 << 50) - 1, What::Sample(longest()?)),
    };
    is_the_text(&rt, text, &numbered);
    Ok(())
}

const INVALID: [(&str, u64, i32); 4] = [
    ("j2 0 0 0 62000000 lone 3976257600", 0, 0),
    ("j2 1 2147484 0 62000000 lone 3976257600", 1, 2_147_484),
    ("j2 1 -2147484 0 62000000 lone 3976257600", 1, -2_147_484),
    ("j2 1 -2147483648 0 62000000 lone 3976257600", 1, i32::MIN),
];

fn are_written_alone(rt: &impl Abort, table: &[(&str, u64, i32)]) {
    let at = moment(62_000_000);
    for (text, length, rate) in table {
        let mut out = [0; LINE_ROOM];
        let count = write_numbered(&lone(at, *length, *rate), &mut out);
        same(rt, &out[..count], text.as_bytes());
        is_no_line(rt, text);
    }
}

// A line with an invalid number or rate can be written, but is not read again.
#[test]
fn numbers_of_no_line(rt: HostRuntime) {
    are_written_alone(&rt, &INVALID);
}

const NO_LINES: [&str; 33] = [
    "",
    "j2",
    "j2 1",
    "j2 1 0",
    "j2 1 0 ",
    "j2 1 0 0 0",
    "0 0 lone 1",
    "j2 0 0 lone 1",
    "j2 1 0 0 lone 1",
    "j1 1 0 0 0 lone 1",
    "J2 1 0 0 0 lone 1",
    "j2  1 0 0 0 lone 1",
    "j2 1  0 0 0 lone 1",
    "j2 1 0  0 0 lone 1",
    " j2 1 0 0 0 lone 1",
    "j2 1 0 0 0 lone 1 ",
    "j2 1 0 0 0 lone 1\n",
    "j2 1 0 0 0 lone 1\r",
    "j2 01 0 0 0 lone 1",
    "j2 +1 0 0 0 lone 1",
    "j2 -1 0 0 0 lone 1",
    "j2 18446744073709551616 0 0 0 lone 1",
    "j2 1 -0 0 0 lone 1",
    "j2 1 +5 0 0 lone 1",
    "j2 1 007 0 0 lone 1",
    "j2 1 00 0 0 lone 1",
    "j2 1 --1 0 0 lone 1",
    "j2 1 2147483648 0 0 lone 1",
    "j2 1 -4294967296 0 0 lone 1",
    "j2 1 340282366920938463463374607431768211457 0 0 lone 1",
    "j2 1 0 00 0 lone 1",
    "j2 1 0 0 0 lone 01",
    "j2 1 0 0 0 lone 1 2",
];

fn is_no_line(rt: &impl Abort, text: &str) {
    same_for(rt, &text, read_numbered(text.as_bytes()), None);
}

fn are_no_lines(rt: &impl Abort, texts: &[&str]) {
    for text in texts {
        is_no_line(rt, text);
    }
}

#[test]
fn texts_of_no_numbered_entry(rt: HostRuntime) {
    are_no_lines(&rt, &NO_LINES);
    assert!(rt; read_numbered(b"j2 1 0 0 0 lone 1").is_some());
}
