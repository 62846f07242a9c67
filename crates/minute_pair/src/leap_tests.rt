//! A leap second is believed where both of two neighbouring frames announce it. Valid frames of neighbouring minutes never
//! announce two different ones. DCF77's leap second ends at the next UTC midnight that begins a month, and WWVB's where the next
//! month begins. That is the same second for both minutes, or else the former minute is refused. MSF announces none. So two that
//! differ are tried at the function that compares them.
use crate::answers::leap_of_both;

// The ends of 2016 and of June 2015, each with a leap second before it (IERS Bulletins C 52 and C 49).
const END_OF_2016: u64 = 3_692_217_600;

const END_OF_JUNE_2015: u64 = 3_644_697_600;

#[test]
fn two_leap_seconds_that_differ_are_not_believed(rt: HostRuntime) {
    for (was, is, believed) in [
        (0, 0, 0),
        (0, END_OF_2016, 0),
        (END_OF_2016, 0, 0),
        (END_OF_2016, END_OF_2016, END_OF_2016),
        (END_OF_JUNE_2015, END_OF_2016, 0),
        (END_OF_2016, END_OF_JUNE_2015, 0),
    ] {
        assert_eq!(rt; leap_of_both(was, is), believed, "{was} {is}");
    }
}
