//! Stations with a leap second file: the rows are those of `leap-seconds.list` for the leap seconds at the ends of June 2015 and of 2016.

use crate::checks::{FULL, WHOLE, has_entries, has_lines, has_listed, have_read, holds};
use crate::stations::{CASE, Case, RADIO, left};
use feed_workers::{LogEnd, LogWork};

const LEAP_FILE: &str = "leap_file = \"leap\"\n";

const LISTED: Case<'static> = Case {
    station: &["start = 7000\n", LEAP_FILE],
    limit: 9,
    leap: Some("# list\n3644697600\t36\t# 1 Jul 2015\n3692217600\t37\t# 1 Jan 2017\n"),
    ..CASE
};

// The first row says when the list begins, and is no leap second.
#[test]
fn each_row_but_the_first_is_a_notice(rt: HostRuntime) {
    let ended = left(&rt, rt.alloc(), &LISTED);
    has_lines(&rt, rt.alloc(), &ended, "0 7000 notice 3692217600\n");
    has_listed(&rt, &ended, Some(WHOLE));
    holds(&rt, "the file is back", ended.gear.leap.is_some());
}

// The radio's log is empty.
const WITH_RADIO: Case<'static> = Case {
    station: &[LEAP_FILE, RADIO],
    minutes: &[0],
    ..LISTED
};

#[test]
fn its_feed_stands_after_the_radios(rt: HostRuntime) {
    let ended = left(&rt, rt.alloc(), &WITH_RADIO);
    has_lines(&rt, rt.alloc(), &ended, "1 0 notice 3692217600\n");
    have_read(&rt, &ended, &[WHOLE]);
}

const SKIPPING: Case<'static> = Case {
    station: &[LEAP_FILE],
    leap: Some("# list\n3644697600\t36\n3692217600\t38\n"),
    ..LISTED
};

const BAD: LogWork = LogWork {
    end: LogEnd::BadLine { line: 3 },
    full: false,
};

#[test]
fn a_row_that_skips_a_second_is_a_bad_line(rt: HostRuntime) {
    let ended = left(&rt, rt.alloc(), &SKIPPING);
    has_entries(&rt, &ended, 0);
    has_listed(&rt, &ended, Some(BAD));
}

const ROOM_FOR_ONE: Case<'static> = Case {
    limit: 1,
    leap: Some("3550089600 35\n3644697600 36\n3692217600 37\n"),
    ..SKIPPING
};

#[test]
fn a_full_journal_loses_a_notice_and_says_so(rt: HostRuntime) {
    let ended = left(&rt, rt.alloc(), &ROOM_FOR_ONE);
    has_lines(&rt, rt.alloc(), &ended, "0 0 notice 3644697600\n");
    has_listed(&rt, &ended, Some(FULL));
}

const EMPTY: Case<'static> = Case {
    leap: Some(""),
    ..SKIPPING
};

#[test]
fn an_empty_list_reports_nothing(rt: HostRuntime) {
    let ended = left(&rt, rt.alloc(), &EMPTY);
    has_entries(&rt, &ended, 0);
    has_listed(&rt, &ended, Some(WHOLE));
}

#[test]
fn a_station_without_one_has_no_work_for_it(rt: HostRuntime) {
    let ended = left(&rt, rt.alloc(), &CASE);
    has_listed(&rt, &ended, None);
}
