//! What the tests share: minutes by the tables of PTB, NPL and NIST, their pulses, what a receiver answers, and the checksum of a
//! log.
ghost use Rattle.std.specs.Prelude.{◌≡◌, ◌≤◌};

use memory_outside::NOON_0;
use radio_receiver::{BoxedReceiver, Receiver};
use std::fmt::Debug;
use std::process::Abort;
use tick_units::{Heard, Kind, Local, Mark, Plan, Reduction, Symbol};

// Does what `assert_eq!` does, as a call. In a test with many of them, calls are proved in a third of the time.
pub fn same<T: PartialEq + Debug + Drop>(rt: &impl Abort, left: T, right: T) {
    assert_eq!(*rt; left, right);
}

// The places with bit A 1, and those with bit B 1 except for place 1, in a frame of MSF, by NPL's table: 1 January 2026, 12:00.
pub const MSF_A: [usize; 14] = [19, 22, 23, 29, 35, 36, 40, 43, 53, 54, 55, 56, 57, 58];

const MSF_B: [usize; 2] = [55, 57];

// The places that are One in a frame of WWVB, and its markers, by NIST's table: 31 December 2024, 00:00.
const WWVB_ONES: [usize; 10] = [22, 23, 26, 27, 31, 32, 36, 38, 47, 51];

pub const WWVB_MARKERS: [usize; 7] = [0, 9, 19, 29, 39, 49, 59];

// The host's counter at this microsecond, up to its last.
pub fn moment(microseconds: u64) -> Local {
    Local::new(microseconds.min((1 << 50) - 1)).unwrap()
}

pub fn mark_at(start: u64, symbol: Symbol) -> Mark {
    Mark {
        at: moment(start),
        symbol,
    }
}

pub fn reduction(at: u64, width: u32) -> Reduction
    ensures { result.width ≡ width }
{
    Reduction {
        at: moment(at),
        width,
    }
}

fn start_of(place: usize) -> u64 {
    2_000_000u64.saturating_add(1_000_000u64.saturating_mul(place as u64))
}

// The second of this place of a minute of DCF77.
fn dcf_second(place: usize) -> Reduction {
    let is_one = NOON_0.contains(&place);
    reduction(start_of(place), if is_one { 200_000 } else { 100_000 })
}

// The mark before a minute of DCF77, its 59 marks, and the one that closes it.
pub fn dcf_minute() -> [Reduction; 61] {
    let mut list = [reduction(0, 100_000); 61];
    for (number, kept) in list.iter_mut().enumerate() {
        *kept = match number {
            0 => reduction(0, 100_000),
            60 => reduction(62_000_000, 100_000),
            _ => dcf_second(number.saturating_sub(1)),
        };
    }
    list
}

// The second of this place of a minute of MSF, in one part.
fn msf_second(place: usize) -> Reduction {
    let width = match (MSF_A.contains(&place), MSF_B.contains(&place)) {
        (false, _) => 100_000,
        (true, false) => 200_000,
        (true, true) => 300_000,
    };
    reduction(start_of(place), width)
}

// A minute of MSF, whose second at place 1 has two parts, and two marks after it.
pub fn msf_minute() -> [Reduction; 63] {
    let mut list = [reduction(2_000_000, 500_000); 63];
    for (number, kept) in list.iter_mut().enumerate() {
        *kept = match number {
            0 => reduction(2_000_000, 500_000),
            1 => reduction(3_000_000, 100_000),
            2 => reduction(3_200_000, 100_000),
            61 => reduction(62_000_000, 500_000),
            62 => reduction(63_000_000, 100_000),
            _ => msf_second(number.saturating_sub(1)),
        };
    }
    list
}

// The second of this place of a minute of WWVB.
fn wwvb_second(place: usize) -> Reduction {
    let width = if WWVB_MARKERS.contains(&place) {
        800_000
    } else if WWVB_ONES.contains(&place) {
        500_000
    } else {
        200_000
    };
    reduction(start_of(place), width)
}

// The marker before a minute of WWVB, its 60 marks, and the marker that closes it.
pub fn wwvb_minute() -> [Reduction; 62] {
    let mut list = [reduction(1_000_000, 800_000); 62];
    for (number, kept) in list.iter_mut().enumerate() {
        *kept = match number {
            0 => reduction(1_000_000, 800_000),
            61 => reduction(62_000_000, 800_000),
            _ => wwvb_second(number.saturating_sub(1)),
        };
    }
    list
}

// The last answer of a receiver with a path delay to reductions, as far as their starts rise.
pub fn last_answer(
    receiver: Box<dyn Receiver + Send>,
    delay_us: u32,
    reductions: &[Reduction],
) -> Option<Heard>
    requires blank { least_start receiver ≡ 0 }
    requires delay { delay_us ≤ 100000 }
{
    let mut receiver = receiver;
    receiver.fit(delay_us);
    let mut last = None;
    let mut least = 0;
    for reduction in reductions {
        let at = reduction.at.get();
        if at < least {
            return None;
        }
        least = at + 1;
        let heard = receiver.hear(*reduction);
        if heard.is_some() {
            last = heard;
        }
    }
    last
}

// A receiver of this plan, with a path delay, answers so at last.
pub fn receives(
    rt: &impl Abort,
    receiver: BoxedReceiver,
    plan: Plan,
    delay_us: u32,
    list: &[Reduction],
    want: Option<Heard>,
)
    requires blank { least_start receiver ≡ 0 }
    requires delay { delay_us ≤ 100000 }
{
    same(rt, receiver.plan(), plan);
    same(rt, last_answer(receiver, delay_us, list), want);
}

pub fn lone(at: u64, second: u64) -> Option<Heard> {
    Some(Heard {
        at: moment(at),
        kind: Kind::Lone { second },
    })
}

// The FNV-1a checksum of no bytes.
pub const SUM_OF_NONE: u64 = 0xcbf2_9ce4_8422_2325;

// The FNV-1a checksum of some bytes, and of those before them, whose checksum is given.
pub fn sum_on(sum: u64, bytes: &[u8]) -> u64 {
    let mut sum = sum;
    for byte in bytes {
        sum = (sum ^ u64::from(*byte)).wrapping_mul(0x0100_0000_01b3);
    }
    sum
}
