//! Lines of scripts and their texts.
use crate::shared::{same, same_for};
use script_line::{Datagram, ScriptLine, read_line};
use std::alloc::{AllocError, Global};
use std::process::Abort;

// A line, its word, and its numbers in their order.
type Row<'a> = (&'a str, &'a str, (&'a str, [u64; 3]));

const LINES: [Row<'static>; 4] = [
    (
        "a_pulse",
        "pulse 3 62000000 100000",
        ("pulse", [3, 62_000_000, 100_000]),
    ),
    ("an_ask", "ask 12 1000000", ("ask", [12, 1_000_000, 0])),
    ("a_swap", "swap 1", ("swap", [1, 0, 0])),
    // 2026-01-02 00:00 UTC by Python's calendar.
    (
        "a_leap_second",
        "leap 1 302000000 3976300800",
        ("leap", [1, 302_000_000, 3_976_300_800]),
    ),
];

// The word and the numbers of a line that has no datagram; a number that it lacks is 0.
fn numbers_of(text: &[u8]) -> Option<(&'static str, [u64; 3])> {
    match read_line(text)? {
        ScriptLine::Pulse { feed, reduction } => {
            let width = u64::from(reduction.width);
            Some(("pulse", [u64::from(feed), reduction.at.get(), width]))
        }
        ScriptLine::Ask { feed, at } => Some(("ask", [u64::from(feed), at.get(), 0])),
        ScriptLine::Swap { feed } => Some(("swap", [u64::from(feed), 0, 0])),
        ScriptLine::Leap { feed, at, leap_at } => {
            Some(("leap", [u64::from(feed), at.get(), leap_at]))
        }
        _ => None,
    }
}

fn have_numbers(rt: &impl Abort, rows: &[Row<'_>]) {
    for (name, text, numbers) in rows {
        same_for(rt, name, numbers_of(text.as_bytes()), Some(*numbers));
    }
}

#[test]
fn lines_without_a_datagram(rt: HostRuntime) {
    have_numbers(&rt, &LINES);
}

// A line is an answer with this feed, this moment and these bytes.
fn is_answer(rt: &impl Abort, text: &[u8], numbers: [u64; 2], bytes: &[u8]) {
    let line = read_line(text);
    let Some(ScriptLine::Answer { feed, at, datagram }) = &line else {
        panic!(*rt; "no answer");
    };
    same(rt, [u64::from(*feed), at.get()], numbers);
    says(rt, datagram, bytes);
}

#[test]
fn an_answer(rt: HostRuntime) {
    let bytes = [0x24, 0x01, 0x0a, 0xfe];
    is_answer(&rt, b"answer 2 1010000 24010afe", [2, 1_010_000], &bytes);
}

#[test]
fn a_request(rt: HostRuntime) {
    let line = read_line(b"request 7 5 9 e3");
    let Some(
        ScriptLine::Request {
            connection,
            arrived,
            sent,
            datagram,
        },
    ) = &line
    else {
        panic!(rt; "no request");
    };
    let moments = [arrived.get(), sent.get()];
    same(&rt, (u64::from(*connection), moments), (7, [5, 9]));
    says(&rt, datagram, &[0xe3]);
}

// A datagram has these bytes, and what lies after them in the room stays.
fn says(rt: &impl Abort, datagram: &Datagram<'_>, bytes: &[u8]) {
    let mut out = [b'#'; 1024];
    let count = datagram.write(&mut out);
    same(&rt, &out[..count], bytes);
    assert!(rt; out[count..].iter().all(|byte| *byte == b'#'));
}

const AT_BOUNDS: [&str; 12] = [
    "pulse 0 0 1",
    "pulse 4294967295 1125899906842623 2000000",
    "ask 0 0",
    "ask 4294967295 1125899906842623",
    "answer 0 0 00",
    "answer 4294967295 1125899906842623 0123456789abcdef",
    "swap 0",
    "swap 4294967295",
    "request 0 0 0 00",
    "request 7 1125899906842623 1125899906842623 ff",
    "leap 0 0 0",
    "leap 4294967295 1125899906842623 6311606399",
];

const PAST_BOUNDS: [&str; 18] = [
    "pulse 4294967296 0 1",
    "pulse 0 1125899906842624 1",
    "pulse 0 0 0",
    "pulse 0 0 2000001",
    "pulse 0 99999999999999999999999999999999999999999 1",
    "ask 4294967296 0",
    "ask 0 1125899906842624",
    "answer 4294967296 0 00",
    "answer 0 1125899906842624 00",
    "swap 4294967296",
    "request 8 0 0 00",
    "request 0 1125899906842624 1125899906842624 00",
    "request 0 0 1125899906842624 00",
    "request 0 2 1 00",
    "leap 4294967296 0 0",
    "leap 0 1125899906842624 0",
    "leap 0 0 6311606400",
    "leap 0 0 18446744073709551616",
];

#[test]
fn numbers_at_their_bounds(rt: HostRuntime) {
    are_lines(&rt, &AT_BOUNDS);
    are_no_lines(&rt, &PAST_BOUNDS);
}

fn are_lines(rt: &impl Abort, texts: &[&str]) {
    for text in texts {
        assert!(rt; read_line(text.as_bytes()).is_some(), "{text}");
    }
}

fn are_no_lines(rt: &impl Abort, texts: &[&str]) {
    for text in texts {
        assert!(rt; read_line(text.as_bytes()).is_none(), "{text}");
    }
}

const NO_PULSES: [&str; 19] = [
    " ",
    "pulse",
    "pulse ",
    "pulse 0",
    "pulse 0 0",
    "pulse 0 0 ",
    "pulse 0 0 1 ",
    "pulse 0 0 1 1",
    "pulse 0 0 1\n",
    "pulse 0 0 1\r",
    " pulse 0 0 1",
    "pulse  0 0 1",
    "pulse 0  0 1",
    "pulse 0 0  1",
    "pulse\t0 0 1",
    "pulse0 0 1",
    "Pulse 0 0 1",
    "pulses 0 0 1",
    "puls 0 0 1",
];

const NO_NUMBERS: [&str; 11] = [
    "pulse 00 0 1",
    "pulse 0 01 1",
    "pulse 0 0 01",
    "pulse +0 0 1",
    "pulse 0 -0 1",
    "pulse 0 0 +1",
    "pulse 0 0 -1",
    "pulse 0 0 1x",
    "pulse 0 0x1 1",
    "pulse zero 0 1",
    "pulse 0 0 1.0",
];

const NO_OTHERS: [&str; 11] = [
    "asks 0 0",
    "ask 0",
    "ask 0 0 0",
    "ask 0 0 00",
    "swap",
    "swap ",
    "swap 0 0",
    "swap 0 ",
    "tick 0 0",
    "#",
    "reply 00",
];

const NO_LEAPS: [&str; 21] = [
    "leap",
    "leap ",
    "leap 0",
    "leap 0 0",
    "leap 0 0 ",
    "leap 0 0 0 ",
    "leap 0 0 0 0",
    "leap  0 0 0",
    "leap 0  0 0",
    "leap 0 0  0",
    "leap 00 0 0",
    "leap 0 00 0",
    "leap 0 0 00",
    "leap 0 0 01",
    "leap 0 0 +1",
    "leap 0 0 -1",
    "leap 0 0 0\r",
    " leap 0 0 0",
    "leap0 0 0",
    "leaps 0 0 0",
    "lea 0 0 0",
];

#[test]
fn texts_of_no_line(rt: HostRuntime) {
    are_no_lines(&rt, &NO_PULSES);
    are_no_lines(&rt, &NO_NUMBERS);
    are_no_lines(&rt, &NO_OTHERS);
    are_no_lines(&rt, &NO_LEAPS);
}

#[test]
fn a_line_of_nothing(rt: HostRuntime) {
    assert!(rt; read_line(b"").is_none());
}

const NO_ANSWERS: [&str; 15] = [
    "answer 0 0",
    "answer 0 0 ",
    "answer 0 0 0",
    "answer 0 0 000",
    "answer 0 0 0A",
    "answer 0 0 AB",
    "answer 0 0 0g",
    "answer 0 0 0/",
    "answer 0 0 0:",
    "answer 0 0 0`",
    "answer 0 0 00 ",
    "answer 0 0  00",
    "answer 0 0 00 00",
    "answer 0 0 00\n",
    "answer 0 0 00\r",
];

const NO_REQUESTS: [&str; 6] = [
    "request 0 0 0",
    "request 0 0 0 ",
    "request 0 0 0 0",
    "request 0 0 0 0A",
    "request 0 0 0 00 0",
    "request 0 0 00",
];

#[test]
fn digits_of_no_datagram(rt: HostRuntime) {
    are_no_lines(&rt, &NO_ANSWERS);
    are_no_lines(&rt, &NO_REQUESTS);
}

// `answer 0 0 ` and this many digits.
fn answer(alloc: Global, digits: usize) -> Result<Vec<u8>, AllocError> {
    let mut text = Vec::new(alloc);
    text.extend_from_slice(b"answer 0 0 ")?;
    for _ in 0..digits {
        text.push(b'7')?;
    }
    Ok(text)
}

#[test]
fn datagrams_have_up_to_1024_bytes(rt: HostRuntime) {
    let text = answer(rt.alloc(), 2048).expect(&rt, "no memory");
    is_answer(&rt, text.as_slice(), [0, 0], &[0x77; 1024]);
    let longer = answer(rt.alloc(), 2050).expect(&rt, "no memory");
    assert!(rt; read_line(longer.as_slice()).is_none());
}
