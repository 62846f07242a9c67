//! Entries and their texts.
use crate::shared::{entry, longest, same, same_for};
use journal_entry::{ENTRY_ROOM, Entry, What, read_entry, write_entry};
use std::process::Abort;
use std::test::Fail;
use tick_units::{Kind, Sample, Short, Span};

// The one text of an entry, written and read; what lies after it in its room stays.
fn is_the_text(rt: &impl Abort, text: &str, entry: &Entry) {
    let mut out = [b'#'; ENTRY_ROOM];
    let length = write_entry(entry, &mut out);
    same(rt, &out[..length], text.as_bytes());
    assert!(rt; out[length..].iter().all(|byte| *byte == b'#'));
    same(rt, read_entry(text.as_bytes()), Some(*entry));
}

const OF_A_RADIO: [(&str, u64, Kind); 4] = [
    (
        "0 62000000 lone 3976257600",
        62_000_000,
        Kind::Lone {
            second: 3_976_257_600,
        },
    ),
    (
        "0 122000000 verdict 3976257660 0",
        122_000_000,
        Kind::Verdict {
            second: 3_976_257_660,
            leap_at: 0,
        },
    ),
    (
        "0 122000000 differs 3976257600 3976257720 60000000",
        122_000_000,
        Kind::Differs {
            before: 3_976_257_600,
            now: 3_976_257_720,
            apart: 60_000_000,
        },
    ),
    (
        "0 62000000 refused 15",
        62_000_000,
        Kind::Refused { rule: 15 },
    ),
];

fn are_texts_of_a_radio(rt: &impl Abort, table: &[(&str, u64, Kind)]) {
    for (text, at, kind) in table {
        is_the_text(rt, text, &entry(0, *at, What::Heard(*kind)));
    }
}

#[test]
fn what_a_radio_reported(rt: HostRuntime) {
    are_texts_of_a_radio(&rt, &OF_A_RADIO);
}

// An exchange with a server of stratum 2 on this machine.
fn of_a_server(offset: Span) -> What {
    What::Sample(Sample {
        offset,
        delay: Span::from(40_802_189),
        dispersion: Span::from(8_837),
        stratum: 2,
        address: 0x7f00_0001,
        root_delay: Short(256),
        root_disp: Short(512),
    })
}

// The text of an entry of a feed at this microsecond.
fn is_entry(rt: &impl Abort, text: &str, feed: u32, at: u64, what: What) {
    is_the_text(rt, text, &entry(feed, at, what));
}

#[test]
fn what_a_server_reported(rt: HostRuntime) {
    is_entry(
        &rt,
        "0 1010000 sample 17077897383243199545 40802189 8837 2 7f000001 256 512",
        0,
        1_010_000,
        of_a_server(Span::from(17_077_897_383_243_199_545)),
    );
    is_entry(
        &rt,
        "0 1010000 sample -1 40802189 8837 2 7f000001 256 512",
        0,
        1_010_000,
        of_a_server(-Span::from(1)),
    );
    is_entry(&rt, "0 1010000 declined 3", 0, 1_010_000, What::Declined(3));
    is_entry(
        &rt,
        "1 0 notice 3692217600",
        1,
        0,
        What::Notice(3_692_217_600),
    );
}

const LONGEST: &str =
    "4294967295 1125899906842623 sample -1180591620717411303423 -1180591620717411303423 -1180591620717411303423 255 ffffffff 4294967295 4294967295";

const GREATEST: Kind = Kind::Differs {
    before: u64::MAX,
    now: u64::MAX,
    apart: u64::MAX,
};

// Each number at its bound: a text is never longer than the first of these.
#[test]
fn the_greatest_numbers(rt: HostRuntime) -> Result<(), Fail> {
    let last = (1 << 50) - 1;
    same(&rt, LONGEST.len(), 141);
    is_entry(&rt, LONGEST, u32::MAX, last, What::Sample(longest()?));
    is_entry(
        &rt,
        "4294967295 1125899906842623 differs 18446744073709551615 18446744073709551615 18446744073709551615",
        u32::MAX,
        last,
        What::Heard(GREATEST),
    );
    let refused = What::Heard(Kind::Refused { rule: 255 });
    is_entry(&rt, "0 0 refused 255", 0, 0, refused);
    Ok(())
}

const NO_ENTRIES: [&str; 35] = [
    "",
    " ",
    "0",
    "0 0",
    "0 0 lone",
    "0 0 lone ",
    "0 0 1",
    "0 0 lone 1 ",
    " 0 0 lone 1",
    "0  0 lone 1",
    "0 0 lone  1",
    "0\t0 lone 1",
    "0 0 lone 1\n",
    "0 0 lone 1\r",
    "0 0 lone 1 2",
    "0 0 verdict 1",
    "0 0 Lone 1",
    "0 0 lones 1",
    "0 0 lon 1",
    "0 062000000 lone 3976257600",
    "00 0 lone 1",
    "0 0 lone 01",
    "0 0 lone +1",
    "0 0 lone -1",
    "0 0 lone -0",
    "0 0 lone 1x",
    "0 0 lone 0x1",
    "-0 0 lone 1",
    "4294967296 0 lone 1",
    "0 1125899906842624 lone 1",
    "0 0 lone 18446744073709551616",
    "0 0 lone 340282366920938463463374607431768211457",
    "0 0 refused 256",
    "0 0 declined 256",
    "0 0 notice 18446744073709551616",
];

fn are_no_entries(rt: &impl Abort, texts: &[&str]) {
    for text in texts {
        same_for(rt, &text, read_entry(text.as_bytes()), None);
    }
}

#[test]
fn texts_of_no_entry(rt: HostRuntime) {
    are_no_entries(&rt, &NO_ENTRIES);
}

const NO_SAMPLES: [&str; 16] = [
    "0 0 sample -0 2 3 4 7f000001 6 7",
    "0 0 sample 01 2 3 4 7f000001 6 7",
    "0 0 sample -01 2 3 4 7f000001 6 7",
    "0 0 sample +1 2 3 4 7f000001 6 7",
    "0 0 sample --1 2 3 4 7f000001 6 7",
    "0 0 sample 1180591620717411303424 2 3 4 7f000001 6 7",
    "0 0 sample -1180591620717411303424 2 3 4 7f000001 6 7",
    "0 0 sample 1 2 3 256 7f000001 6 7",
    "0 0 sample 1 2 3 4 7F000001 6 7",
    "0 0 sample 1 2 3 4 7f00001 6 7",
    "0 0 sample 1 2 3 4 07f000001 6 7",
    "0 0 sample 1 2 3 4 7f00000g 6 7",
    "0 0 sample 1 2 3 4 7f000001 4294967296 7",
    "0 0 sample 1 2 3 4 7f000001 6 -7",
    "0 0 sample 1 2 3 4 7f000001 6",
    "0 0 sample 1 2 3 4 7f000001 6 7 8",
];

#[test]
fn texts_of_no_sample(rt: HostRuntime) {
    are_no_entries(&rt, &NO_SAMPLES);
    assert!(rt; read_entry(b"0 0 sample 1 2 3 4 7f000001 6 7").is_some());
}
