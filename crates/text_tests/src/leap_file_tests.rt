//! Leap second files, line by line.
use crate::shared::{same, same_for};
use leap_file::{BadLeap, LeapReader};
use std::process::Abort;

// What a file says: how many leap seconds, the last of them, and the first bad line.
#[derive(Clone, Copy, Debug, PartialEq, Eq)]
struct Reported {
    count: u32,
    last: Option<u64>,
    bad: Option<u64>,
}

impl Reported {
    fn add(&mut self, answer: Result<Option<u64>, BadLeap>) {
        match answer {
            Ok(Some(second)) => {
                self.count = self.count.saturating_add(1);
                self.last = Some(second);
            }
            Ok(None) => {}
            Err(bad) => self.bad = Some(bad.line),
        }
    }
}

// The bytes of a file, whose end is not read.
fn begun(reader: &mut LeapReader, file: &[u8]) -> Reported {
    let mut reported = Reported {
        count: 0,
        last: None,
        bad: None,
    };
    for byte in file {
        reported.add(reader.take(*byte));
    }
    reported
}

// The whole file.
fn read(file: &[u8]) -> Reported {
    let mut reader = LeapReader::new();
    let mut reported = begun(&mut reader, file);
    reported.add(reader.finish());
    reported
}

// A file without a bad line that names this many leap seconds.
fn good(count: u32, last: Option<u64>) -> Reported {
    Reported {
        count,
        last,
        bad: None,
    }
}

// A file that names no leap second before its bad line.
fn bad(line: u64) -> Reported {
    Reported {
        count: 0,
        last: None,
        bad: Some(line),
    }
}

// The file says this.
fn says(rt: &impl Abort, file: &[u8], reported: Reported) {
    same_for(rt, &file, read(file), reported);
}

// Each file without a bad line says this.
fn all_say(rt: &impl Abort, files: &[&[u8]], reported: Reported) {
    for file in files {
        says(rt, file, reported);
    }
}

// Each file names this many leap seconds, of which this is the last.
fn are_good(rt: &impl Abort, files: &[(&[u8], u32, Option<u64>)]) {
    for (file, count, last) in files {
        says(rt, file, good(*count, *last));
    }
}

// Each file is bad in this line, and names no leap second before it.
fn are_bad(rt: &impl Abort, files: &[(&[u8], u64)]) {
    for (file, line) in files {
        says(rt, file, bad(*line));
    }
}

const FIRST_ROWS: [(&[u8], u32, Option<u64>); 2] = [
    (b"3644697600\t36\t# 1 Jul 2015\n", 0, None),
    (
        b"# list\n3644697600\t36\t# 1 Jul 2015\n3692217600\t37\t# 1 Jan 2017\n",
        1,
        Some(3692217600),
    ),
];

#[test]
fn the_first_row_reports_of_no_leap_second(rt: HostRuntime) {
    are_good(&rt, &FIRST_ROWS);
}

const WITHOUT_ROWS: [&[u8]; 9] = [
    b"",
    b"# a remark",
    b"#",
    b"\n",
    b"\n\n\n",
    b" \t \n\t",
    b"\r\n",
    b"\r",
    b"# a\r\n#\xff\x00\r\n  \r\n",
];

#[test]
fn files_without_rows(rt: HostRuntime) {
    all_say(&rt, &WITHOUT_ROWS, good(0, None));
}

const FORMS: [&[u8]; 11] = [
    b"3644697600 36\n3692217600 37\n",
    b"3644697600\t36\n3692217600\t37\n",
    b"3644697600 \t 36 \t\n3692217600 \t 37 \t\n",
    b"3644697600 36 #\n3692217600 37 # any \xff # bytes\r at all\n",
    b"3644697600 36\r\n3692217600 37\r\n",
    b"3644697600 36\t# x\r\n\r\n3692217600 37 \r\n",
    b"3644697600 036\n3692217600 037\n",
    b"3644697600 36\n# between\n \n\n3692217600 37\n",
    b"3644697600 36\n3692217600 37",
    b"3644697600 36\n3692217600 37\r",
    b"3644697600 36\n3692217600 37 # 1 Jan 2017",
];

// Two rows, of which the second is written in another way each time; the last has no line feed.
#[test]
fn one_row_in_many_forms(rt: HostRuntime) {
    all_say(&rt, &FORMS, good(1, Some(3692217600)));
}

const MONTHS: [(&[u8], u32, Option<u64>); 3] = [
    (b"0 0\n0002678400 001\n", 1, Some(2678400)),
    (b"2272060800 10\n2287785600 11\n", 1, Some(2287785600)),
    (b"6308755200 254\n6311433600 255\n", 1, Some(6311433600)),
];

// 1900-01-01 and 1900-02-01, 1972-01-01 and 1972-07-01, 2099-12-01 and 2100-01-01, by Python's datetime; the greatest difference.
#[test]
fn the_first_and_the_last_months(rt: HostRuntime) {
    are_good(&rt, &MONTHS);
}

const NO_FORM: [&[u8]; 26] = [
    // No digit, a byte before the digits, or one that is none of them.
    b"3644697600 36\nx\n",
    b"3644697600 36\n 3692217600 37\n",
    b"3644697600 36\n\t# remark\n",
    b"3644697600 36\n+3692217600 37\n",
    b"3644697600 36\n-1 37\n",
    b"3644697600 36\n3692217600. 37\n",
    b"3644697600 36\n3692217600 3x\n",
    b"3644697600 36\n3692217600 +37\n",
    b"3644697600 36\n3692217600,37\n",
    // The bytes next to the digits: `/` and `:`.
    b"3644697600 36\n369221760/ 37\n",
    b"3644697600 36\n369221760: 37\n",
    // 11 digits, or four.
    b"3644697600 36\n03692217600 37\n",
    b"3644697600 36\n3692217600 0037\n",
    // One number, or three.
    b"3644697600 36\n3692217600\n",
    b"3644697600 36\n3692217600 \n",
    b"3644697600 36\n3692217600 # 37\n",
    b"3644697600 36\n3692217600# 37\n",
    b"3644697600 36\n3692217600 37 1\n",
    // A remark without a blank before it.
    b"3644697600 36\n3692217600 37# 1 Jan 2017\n",
    b"3644697600 36\n3692217600 37#\n",
    // A carriage return that ends no line, and other white space.
    b"3644697600 36\n3692217600\r 37\n",
    b"3644697600 36\n3692217600 37\r\r\n",
    b"3644697600 36\n\r\r\n",
    b"3644697600 36\n3692217600\x0b37\n",
    b"3644697600 36\n\x0c\n",
    b"3644697600 36\n\x00\n",
];

// Each is bad in its second line.
#[test]
fn lines_of_no_form(rt: HostRuntime) {
    all_say(&rt, &NO_FORM, bad(2));
}

const NO_ROWS: [(&[u8], u64); 13] = [
    // 2100-01-03, 2100-02-01, and the greatest number of ten digits.
    (b"6311606400 37\n", 1),
    (b"6314112000 37\n", 1),
    (b"9999999999 37\n", 1),
    // A second after the start of a month, and 2017-01-02.
    (b"3692217601 37\n", 1),
    (b"3692304000 37\n", 1),
    // The same second, and an earlier one.
    (b"3644697600 36\n3644697600 37\n", 2),
    (b"3644697600 36\n3550089600 37\n", 2),
    // Above 255, also where it is one more.
    (b"3644697600 256\n", 1),
    (b"3644697600 999\n", 1),
    (b"3644697600 255\n3692217600 256\n", 2),
    // The same difference, two more, and one less.
    (b"3644697600 36\n3692217600 36\n", 2),
    (
        b"# list\n3644697600\t36\t# 1 Jul 2015\n3692217600\t38\t# 1 Jan 2017\n",
        3,
    ),
    (b"3644697600 36\n3692217600 35\n", 2),
];

#[test]
fn rows_that_may_not_stand(rt: HostRuntime) {
    are_bad(&rt, &NO_ROWS);
}

const FOURTH_IS_BAD: &[u8] =
    b"# list\n2272060800 10\n2287785600 11\nx\n2303683200 12\n2335219200 13";

#[test]
fn the_first_bad_line_is_reported_from_then_on(rt: HostRuntime) {
    let mut reader = LeapReader::new();
    let reported = begun(&mut reader, FOURTH_IS_BAD);
    same(
        &rt,
        reported,
        Reported {
            count: 1,
            last: Some(2287785600),
            bad: Some(4),
        },
    );
    same(&rt, reader.finish(), Err(BadLeap { line: 4 }));
    same(&rt, reader.take(b'#'), Err(BadLeap { line: 4 }));
    same(&rt, reader.take(b'\n'), Err(BadLeap { line: 4 }));
    same(&rt, reader.finish(), Err(BadLeap { line: 4 }));
}

// The file names nothing as far as it is read, and this at its end.
fn ends(rt: &impl Abort, file: &[u8], end: Result<Option<u64>, BadLeap>) {
    let mut reader = LeapReader::new();
    let reported = begun(&mut reader, file);
    same_for(rt, &file, (reported, reader.finish()), (good(0, None), end));
}

fn end_in_a_bad_line(rt: &impl Abort, files: &[&[u8]]) {
    for file in files {
        ends(rt, file, Err(BadLeap { line: 2 }));
    }
}

const MID_LINE: [&[u8]; 4] = [
    b"3644697600 36\n36922176",
    b"3644697600 36\n3692217600 ",
    b"3644697600 36\n3692217600 3",
    b"3644697600 36\nx",
];

// A line that is not finished is no row and is not bad, unless the file ends there.
#[test]
fn files_that_end_in_mid_line(rt: HostRuntime) {
    ends(&rt, b"3644697600 36\n3692217600 37", Ok(Some(3692217600)));
    end_in_a_bad_line(&rt, &MID_LINE);
}
