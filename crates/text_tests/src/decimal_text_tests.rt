//! Texts of numbers, and texts that write no number.
use crate::shared::same_for;
use decimal_text::{Number, first_number, whole_number};
use std::process::Abort;

const WHOLE: [(&str, Option<u64>); 18] = [
    ("0", Some(0)),
    ("7", Some(7)),
    ("10", Some(10)),
    ("255", Some(255)),
    ("256", None),
    ("1000000000000000000000000000", None),
    ("", None),
    ("00", None),
    ("01", None),
    ("+1", None),
    ("-1", None),
    ("-0", None),
    (" 1", None),
    ("1 ", None),
    ("1.", None),
    ("0x1", None),
    ("1e1", None),
    ("1_0", None),
];

fn are_whole(rt: &impl Abort, table: &[(&str, Option<u64>)]) {
    for (text, number) in table {
        same_for(rt, &text, whole_number(text.as_bytes(), 255), *number);
    }
}

#[test]
fn whole_texts(rt: HostRuntime) {
    are_whole(&rt, &WHOLE);
}

// The number with which a text begins, and its length.
const BEGINS: [(&str, Option<(u64, usize)>); 14] = [
    ("12 34", Some((12, 2))),
    ("0 1", Some((0, 1))),
    ("200", Some((200, 3))),
    ("200/", Some((200, 3))),
    ("200:", Some((200, 3))),
    ("20\0", Some((20, 2))),
    ("201 1", None),
    ("2000 1", None),
    ("00 1", None),
    ("012", None),
    (" 1", None),
    ("/1", None),
    (":1", None),
    ("", None),
];

fn begin_with(rt: &impl Abort, table: &[(&str, Option<(u64, usize)>)]) {
    for (text, number) in table {
        let expected = match number {
            Some((value, length)) => Some(Number {
                value: *value,
                length: *length,
            }),
            None => None,
        };
        same_for(rt, &text, first_number(text.as_bytes(), 200), expected);
    }
}

#[test]
fn numbers_before_more(rt: HostRuntime) {
    begin_with(&rt, &BEGINS);
}

const MOST: u64 = 1_152_921_504_606_846_975;

const AROUND_MOST: [(&str, Option<u64>); 3] = [
    ("1152921504606846975", Some(MOST)),
    ("1152921504606846976", None),
    ("9999999999999999999", None),
];

fn are_up_to_most(rt: &impl Abort, table: &[(&str, Option<u64>)]) {
    for (text, number) in table {
        same_for(rt, &text, whole_number(text.as_bytes(), MOST), *number);
    }
}

// The greatest bound, 2^60 - 1, and one more.
#[test]
fn numbers_up_to_the_greatest_bound(rt: HostRuntime) {
    are_up_to_most(&rt, &AROUND_MOST);
}
