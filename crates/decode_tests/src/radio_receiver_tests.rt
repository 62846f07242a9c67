//! Tests of receivers: each plan, its path delay, its boundaries, and leap seconds.
use crate::shared::{
    dcf_minute, last_answer, lone, moment, msf_minute, receives, reduction, same, wwvb_minute,
};
use memory_outside::{NOON_0, NOON_1};
use radio_receiver::{BoxedReceiver, DcfReceiver, MsfReceiver, Receiver, WwvbReceiver};
use std::alloc::{AllocError, Global};
use std::process::Abort;
use std::test::Fail;
use tick_units::{Heard, Kind, Plan, Reduction};

#[test]
fn a_boxed_receiver_of_dcf77_receives_a_minute(rt: HostRuntime) -> Result<(), Fail> {
    let receiver: BoxedReceiver = Box::new(rt.alloc(), DcfReceiver::new())?;
    let want = lone(62_000_000, 3_976_257_600);
    receives(&rt, receiver, Plan::Dcf, 0, &dcf_minute(), want);
    Ok(())
}

#[test]
fn a_boxed_receiver_of_msf_receives_a_minute(rt: HostRuntime) -> Result<(), Fail> {
    let receiver: BoxedReceiver = Box::new(rt.alloc(), MsfReceiver::new())?;
    let want = lone(61_998_500, 3_976_257_600);
    receives(&rt, receiver, Plan::Msf, 1_500, &msf_minute(), want);
    Ok(())
}

#[test]
fn a_boxed_receiver_of_wwvb_receives_a_minute(rt: HostRuntime) -> Result<(), Fail> {
    let receiver: BoxedReceiver = Box::new(rt.alloc(), WwvbReceiver::new())?;
    let want = lone(61_900_000, 3_944_592_060);
    receives(&rt, receiver, Plan::Wwvb, 100_000, &wwvb_minute(), want);
    Ok(())
}

// Two minutes of MSF that begin 50 ms apart.
#[test]
fn no_moment_is_below_0(rt: HostRuntime) -> Result<(), Fail> {
    let receiver: BoxedReceiver = Box::new(rt.alloc(), MsfReceiver::new())?;
    let list = [
        reduction(0, 500_000),
        reduction(50_000, 500_000),
        reduction(1_050_000, 100_000),
    ];
    let want = answer(0, Kind::Refused { rule: 1 });
    receives(&rt, receiver, Plan::Msf, 100_000, &list, want);
    Ok(())
}

#[test]
fn a_receiver_is_blank_until_it_receives(rt: HostRuntime) {
    let mut receiver = DcfReceiver::new();
    assert!(rt; receiver.blank());
    receiver.fit(20_000);
    assert!(rt; receiver.blank());
    same(&rt, receiver.hear(reduction(0, 100_000)), None);
    assert!(rt; !receiver.blank());
}

// The last answer of a receiver of DCF77.
fn dcf_answer(alloc: Global, list: &[Reduction]) -> Result<Option<Heard>, Fail> {
    let receiver: BoxedReceiver = Box::new(alloc, DcfReceiver::new())?;
    Ok(last_answer(receiver, 0, list))
}

// Whether the second of three marks of DCF77, which starts so much after the first, begins a minute.
fn begins_minute(rt: &impl Abort, alloc: Global, apart: u64, is_minute: bool) -> Result<(), Fail> {
    let list = [
        reduction(0, 100_000),
        reduction(apart, 100_000),
        reduction(apart.saturating_add(2_000_000), 100_000),
    ];
    let heard = dcf_answer(alloc, &list)?;
    same(rt, (apart, heard.is_some()), (apart, is_minute));
    Ok(())
}

// A minute of DCF77 begins 1900000 to 2100000 microseconds after the mark before it. So the second mark here begins one, which
// the third closes, or none does.
#[test]
fn a_minute_of_dcf77_begins_after_a_gap(rt: HostRuntime) -> Result<(), Fail> {
    begins_minute(&rt, rt.alloc(), 1_899_999, false)?;
    begins_minute(&rt, rt.alloc(), 1_900_000, true)?;
    begins_minute(&rt, rt.alloc(), 2_100_000, true)?;
    begins_minute(&rt, rt.alloc(), 2_100_001, false)
}

// Whether three marks of WWVB, of which the second has this width, hold a minute.
fn holds_minute(rt: &impl Abort, alloc: Global, width: u32, is_minute: bool) -> Result<(), Fail> {
    let receiver: BoxedReceiver = Box::new(alloc, WwvbReceiver::new())?;
    let list = [
        reduction(0, 800_000),
        reduction(1_000_000, width),
        reduction(2_000_000, 800_000),
    ];
    let heard = last_answer(receiver, 0, &list);
    same(rt, (width, heard.is_some()), (width, is_minute));
    Ok(())
}

// A minute of WWVB begins with the second of two markers; so three markers hold one, of one mark.
#[test]
fn a_minute_of_wwvb_begins_after_a_marker(rt: HostRuntime) -> Result<(), Fail> {
    holds_minute(&rt, rt.alloc(), 800_000, true)?;
    holds_minute(&rt, rt.alloc(), 500_000, false)
}

// By PTB's table, 1 January 2017, 00:59 and 01:00, where a leap second is announced and then comes.
const BEFORE_LEAP: [usize; 17] = [
    18, 19, 20, 21, 24, 25, 27, 36, 42, 43, 44, 45, 50, 51, 52, 54, 58,
];

const LEAP: [usize; 15] = [18, 19, 20, 29, 35, 36, 42, 43, 44, 45, 50, 51, 52, 54, 58];

// The second marks of a minute of DCF77 except the first: those that are One, how many there are, and how far they are apart.
#[derive(Clone, Copy)]
struct Places {
    ones: &'static [usize],
    count: usize,
    spacing: u64,
}

fn push(list: &mut Vec<Reduction>, at: u64, width: u32) -> Result<(), AllocError> {
    list.extend_from_slice(&[reduction(at, width)])
}

fn push_places(list: &mut Vec<Reduction>, begin: u64, places: &Places) -> Result<(), AllocError> {
    for place in 1..places.count {
        let is_one = places.ones.contains(&place);
        let at = begin.saturating_add(places.spacing.saturating_mul(place as u64));
        push(list, at, if is_one { 200_000 } else { 100_000 })?;
    }
    Ok(())
}

// Two minutes of DCF77, the second as it is given, and the moments at which they close.
#[derive(Clone, Copy)]
struct Two {
    before: Places,
    now: Places,
    first: u64,
    second: u64,
}

// The reductions of two minutes of DCF77. The second begins at about 62 s.
fn push_two(list: &mut Vec<Reduction>, two: &Two) -> Result<(), AllocError> {
    push(list, 0, 100_000)?;
    push(list, 2_000_000, 100_000)?;
    push_places(list, 2_000_000, &two.before)?;
    push(list, two.first, 100_000)?;
    push_places(list, 62_000_000, &two.now)?;
    push(list, two.second, 100_000)
}

fn answer(at: u64, kind: Kind) -> Option<Heard> {
    Some(Heard {
        at: moment(at),
        kind,
    })
}

// The last answer to two minutes is this, at the moment at which the second closes.
fn comes_to(rt: &impl Abort, alloc: Global, two: &Two, kind: Kind) -> Result<(), Fail> {
    let mut list = Vec::new(alloc);
    push_two(&mut list, two)?;
    same(
        rt,
        dcf_answer(alloc, list.as_slice())?,
        answer(two.second, kind),
    );
    Ok(())
}

const NOON_MINUTE: Places = Places {
    ones: &NOON_0,
    count: 59,
    spacing: 1_000_000,
};

const NEXT_MINUTE: Places = Places {
    ones: &NOON_1,
    count: 59,
    spacing: 1_000_000,
};

fn at_noon(first: u64, second: u64) -> Two {
    Two {
        before: NOON_MINUTE,
        now: NEXT_MINUTE,
        first,
        second,
    }
}

const NOON_VERDICT: Kind = Kind::Verdict {
    second: 3_976_257_660,
    leap_at: 0,
};

fn differs_at_noon(apart: u64) -> Kind {
    Kind::Differs {
        before: 3_976_257_600,
        now: 3_976_257_660,
        apart,
    }
}

// A minute is believed where it closes 60 s after the one before, within 100 ms.
#[test]
fn minutes_are_a_minute_apart(rt: HostRuntime) -> Result<(), Fail> {
    let alloc = rt.alloc();
    comes_to(&rt, alloc, &at_noon(62_000_000, 122_100_000), NOON_VERDICT)?;
    let kind = differs_at_noon(60_100_001);
    comes_to(&rt, alloc, &at_noon(61_999_999, 122_100_000), kind)?;
    comes_to(&rt, alloc, &at_noon(62_000_000, 121_900_000), NOON_VERDICT)?;
    let kind = differs_at_noon(59_899_999);
    comes_to(&rt, alloc, &at_noon(62_000_001, 121_900_000), kind)
}

// All bits are 0, so the two of the time zone are equal (PTB).
const REFUSED_MINUTE: Places = Places {
    ones: &[],
    count: 59,
    spacing: 1_000_000,
};

fn push_minute(list: &mut Vec<Reduction>, begin: u64, places: &Places) -> Result<(), AllocError> {
    push(list, begin, 100_000)?;
    push_places(list, begin, places)
}

// A refused minute is between two good ones: the last stands alone, whatever the first said.
#[test]
fn a_minute_after_a_refused_one_is_alone(rt: HostRuntime) -> Result<(), Fail> {
    let mut list = Vec::new(rt.alloc());
    push(&mut list, 0, 100_000)?;
    push_minute(&mut list, 2_000_000, &NOON_MINUTE)?;
    push_minute(&mut list, 62_000_000, &REFUSED_MINUTE)?;
    push_minute(&mut list, 122_000_000, &NEXT_MINUTE)?;
    push(&mut list, 182_000_000, 100_000)?;
    let heard = dcf_answer(rt.alloc(), list.as_slice())?;
    same(&rt, heard, lone(182_000_000, 3_976_257_660));
    Ok(())
}

// A minute without a leap second, whose marks come so slowly that it closes after 61 s: that is no minute.
#[test]
fn a_minute_without_a_leap_second_has_no_61_seconds(rt: HostRuntime) -> Result<(), Fail> {
    let two = Two {
        before: NOON_MINUTE,
        now: Places {
            ones: &NOON_1,
            count: 59,
            spacing: 1_017_000,
        },
        first: 62_000_000,
        second: 123_000_000,
    };
    comes_to(&rt, rt.alloc(), &two, differs_at_noon(61_000_000))
}

const MINUTE_BEFORE_LEAP: Places = Places {
    ones: &BEFORE_LEAP,
    count: 59,
    spacing: 1_000_000,
};

fn at_leap(spacing: u64, first: u64, second: u64) -> Two {
    Two {
        before: MINUTE_BEFORE_LEAP,
        now: Places {
            ones: &LEAP,
            count: 60,
            spacing,
        },
        first,
        second,
    }
}

const LEAP_VERDICT: Kind = Kind::Verdict {
    second: 3_692_217_600,
    leap_at: 3_692_217_600,
};

fn differs_at_leap(apart: u64) -> Kind {
    Kind::Differs {
        before: 3_692_217_540,
        now: 3_692_217_600,
        apart,
    }
}

// A minute with a leap second closes 61 s after the one before, or 60 s, within 100 ms of either.
#[test]
fn a_leap_minute_is_a_second_longer(rt: HostRuntime) -> Result<(), Fail> {
    let alloc = rt.alloc();
    comes_to(
        &rt,
        alloc,
        &at_leap(1_000_000, 62_000_000, 123_100_000),
        LEAP_VERDICT,
    )?;
    let kind = differs_at_leap(61_100_001);
    comes_to(
        &rt,
        alloc,
        &at_leap(1_000_000, 61_999_999, 123_100_000),
        kind,
    )?;
    comes_to(
        &rt,
        alloc,
        &at_leap(1_000_000, 62_000_000, 122_900_000),
        LEAP_VERDICT,
    )?;
    let kind = differs_at_leap(60_899_999);
    comes_to(
        &rt,
        alloc,
        &at_leap(1_000_000, 62_000_001, 122_900_000),
        kind,
    )?;
    comes_to(
        &rt,
        alloc,
        &at_leap(985_000, 62_000_000, 122_100_000),
        LEAP_VERDICT,
    )?;
    let kind = differs_at_leap(60_100_001);
    comes_to(&rt, alloc, &at_leap(985_000, 61_999_999, 122_100_000), kind)
}
