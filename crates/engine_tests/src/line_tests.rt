//! The line of a link: each count is its own, and the sum of both phases. The sums were worked by hand.
use crate::runs::same;
use journal_entry::LINE_ROOM;
use radio_engine::write_link_line;
use responder::{End, Served};
use station_crew::LinkWork;
use std::process::Abort;

const FIRST: Served = Served {
    answered: 1,
    dropped: 20,
    again: 300,
    kissed: 4_000,
    unkept: 50_000,
    end: End::LinkFault,
};

const SECOND: Served = Served {
    answered: 600_000,
    dropped: 7_000_000,
    again: 80_000_000,
    kissed: 900_000_000,
    unkept: 10_000_000_000,
    end: End::LinkEnd,
};

const MOST: Served = Served {
    answered: u64::MAX,
    dropped: u64::MAX,
    again: u64::MAX,
    kissed: u64::MAX,
    unkept: u64::MAX,
    end: End::Count,
};

// The line of a link with this number.
fn is_the_line(rt: &impl Abort, number: usize, first: Served, second: Option<Served>, text: &str) {
    let mut line = [0; LINE_ROOM];
    let length = write_link_line(number, &LinkWork { first, second }, &mut line);
    same(&rt, &line[..length], text.as_bytes());
}

#[test]
fn a_line_has_the_counts_of_one_phase(rt: HostRuntime) {
    is_the_line(
        &rt,
        7,
        FIRST,
        None,
        "link 7 answered 1 dropped 20 again 300 kissed 4000 unkept 50000 end linkfault\n",
    );
}

#[test]
fn a_line_sums_the_counts_of_two_phases_and_has_the_end_of_the_second(rt: HostRuntime) {
    is_the_line(
        &rt,
        0,
        FIRST,
        Some(SECOND),
        "link 0 answered 600001 dropped 7000020 again 80000300 kissed 900004000 unkept 10000050000 end linkend\n",
    );
}

// 2 (2^64 - 1), which takes more than 64 bits.
#[test]
fn a_sum_of_the_greatest_counts_is_whole(rt: HostRuntime) {
    is_the_line(
        &rt,
        0,
        MOST,
        Some(MOST),
        "link 0 answered 36893488147419103230 dropped 36893488147419103230 again 36893488147419103230 kissed 36893488147419103230 unkept 36893488147419103230 end count\n",
    );
}
