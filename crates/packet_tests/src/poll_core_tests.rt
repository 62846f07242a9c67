//! Exchanges with a server, accepted ones and refused ones.
ghost use Rattle.std.specs.Prelude.{◌≡◌, ◌<◌, Some, None};
ghost use Rattle.poll_core.specs.Polling.{asked_at};

use crate::shared::{longer, moment, same};
use memory_outside::ANSWER;
use outside_traits::Address;
use poll_core::{Poll, PollRefusal};
use std::process::Abort;
use tick_units::{Local, Sample, Short, Span, Stamp};

pub(crate) const SERVER: Address = Address {
    ip: 0x7f00_0001,
    port: 123,
};

const OTHER_PORT: Address = Address {
    ip: 0x7f00_0001,
    port: 124,
};

const OTHER_HOST: Address = Address {
    ip: 0x7f00_0002,
    port: 123,
};

// The request of a counter that has run for a second: version 4, a client's mode, a poll of 64 s, a precision of 2^-20 s.
const REQUEST: [u8; 48] = [
    0x23, 0x00, 0x06, 0xec, 0x00, 0x00, 0x00, 0x00, 0x00, 0x00, 0x00, 0x00, 0x00, 0x00, 0x00, 0x00, // to the refid
    0x00, 0x00, 0x00, 0x00, 0x00, 0x00, 0x00, 0x00, 0x00, 0x00, 0x00, 0x00, 0x00, 0x00, 0x00, 0x00, // to the origin
    0x00, 0x00, 0x00, 0x00, 0x00, 0x00, 0x00, 0x00, 0x80, 0x00, 0x00, 0x01, 0x00, 0x00, 0x00, 0x00,
];

// Where the fields of a header begin.
const STRATUM: usize = 1;

const POLL: usize = 2;

const REFERENCE_ID: usize = 12;

const REFERENCE: usize = 16;

const ROOT_DISP: usize = 8;

pub(crate) const RECEIVE: usize = 32;

pub(crate) const TRANSMIT: usize = 40;

// The answer with these bytes from a place on.
pub(crate) fn with(place: usize, piece: &[u8]) -> [u8; 48] {
    let mut bytes = ANSWER;
    for (offset, new) in piece.iter().enumerate() {
        if let Some(byte) = bytes.get_mut(place.saturating_add(offset)) {
            *byte = *new;
        }
    }
    bytes
}

// A poller that has asked at this moment.
fn asked(moment: Local) -> Poll
    ensures { asked_at result ≡ Some moment }
{
    let mut poll = Poll::new(SERVER);
    let _request = poll.ask(moment);
    poll
}

// What a datagram comes to that arrives 10 ms after the request.
pub(crate) fn answered(from: Address, bytes: &[u8]) -> Result<Sample, PollRefusal> {
    let mut poll = asked(moment(1_000_000));
    poll.answer(moment(1_010_000), from, bytes)
}

pub(crate) fn sample(offset: u64, delay: u64, dispersion: u64) -> Sample {
    Sample {
        offset: Span::from(offset),
        delay: Span::from(delay),
        dispersion: Span::from(dispersion),
        stratum: 2,
        address: 0x7f00_0001,
        root_delay: Short(256),
        root_disp: Short(512),
    }
}

pub(crate) const OFFSET: u64 = 17_077_897_383_243_199_545;

pub(crate) const DELAY: u64 = 40_802_189;

pub(crate) const DISPERSION: u64 = 8_837;

// The sample of the answer.
pub(crate) fn as_usual() -> Result<Sample, PollRefusal> {
    Ok(sample(OFFSET, DELAY, DISPERSION))
}

// What a poller says of a datagram.
fn is_answer(
    rt: &impl Abort,
    found: Result<Sample, PollRefusal>,
    wanted: Result<Sample, PollRefusal>,
) {
    same(rt, found, wanted);
}

#[test]
fn an_exchange(rt: HostRuntime) {
    let mut poll = Poll::new(SERVER);
    same(&rt, poll.ask(moment(1_000_000)), REQUEST);
    let arrived = moment(1_010_000);
    is_answer(&rt, poll.answer(arrived, SERVER, &ANSWER), as_usual());
    let again = poll.answer(arrived, SERVER, &ANSWER);
    is_answer(&rt, again, Err(PollRefusal::NotAsked));
}

// A datagram is refused so, and the right answer is taken then.
fn is_refused(rt: &impl Abort, from: Address, bytes: &[u8], refusal: PollRefusal) {
    let mut poll = asked(moment(1_000_000));
    let arrived = moment(1_010_000);
    let found = poll.answer(arrived, from, bytes);
    let then = poll.answer(arrived, SERVER, &ANSWER);
    same(rt, (bytes, found, then), (bytes, Err(refusal), as_usual()));
}

// The same, where the refusal has this number.
fn is_refused_as(rt: &impl Abort, from: Address, bytes: &[u8], refusal: PollRefusal, code: u8) {
    is_refused(rt, from, bytes, refusal);
    same(rt, (refusal, refusal.code()), (refusal, code));
}

fn is_strange(rt: &impl Abort, from: Address) {
    is_refused_as(rt, from, &ANSWER, PollRefusal::Stranger { from }, 1);
}

#[test]
fn a_stranger(rt: HostRuntime) {
    is_strange(&rt, OTHER_PORT);
    is_strange(&rt, OTHER_HOST);
}

fn unsynchronised(leap: u8, stratum: u8) -> PollRefusal {
    PollRefusal::Unsynchronised { leap, stratum }
}

// Its origin is one unit after the request's transmit timestamp.
const BOGUS: PollRefusal = PollRefusal::Bogus {
    origin: Stamp(0x8000_0001_0000_0001),
    asked: Stamp(0x8000_0001_0000_0000),
};

const FAR: PollRefusal = PollRefusal::Distance {
    root_delay: Short(256),
    root_disp: Short(0x0010_0000),
};

// The answer with these bytes from a place on is refused so.
fn faulty(rt: &impl Abort, place: usize, piece: &[u8], refusal: PollRefusal, code: u8) {
    is_refused_as(rt, SERVER, &with(place, piece), refusal, code);
}

// What is changed of the answer, and what it is then refused as.
#[test]
fn each_fault_of_an_answer(rt: HostRuntime) {
    faulty(&rt, 0, &[0x2c], PollRefusal::Version { version: 5 }, 4);
    faulty(&rt, 0, &[0x04], PollRefusal::Version { version: 0 }, 4);
    faulty(&rt, 0, &[0x23], PollRefusal::Mode { mode: 3 }, 5);
    faulty(&rt, 31, &[1], BOGUS, 6);
    faulty(&rt, 0, &[0xe4], unsynchronised(3, 2), 8);
    faulty(&rt, STRATUM, &[16], unsynchronised(0, 16), 8);
    faulty(&rt, STRATUM, &[0], unsynchronised(0, 0), 8);
    faulty(&rt, RECEIVE, &[0; 8], PollRefusal::ZeroStamp, 9);
    faulty(&rt, TRANSMIT, &[0; 8], PollRefusal::ZeroStamp, 9);
    faulty(&rt, ROOT_DISP, &[0, 0x10, 0, 0], FAR, 10);
}

#[test]
fn a_short_answer(rt: HostRuntime) {
    is_refused_as(&rt, SERVER, &[], PollRefusal::Short { length: 0 }, 2);
    let (bytes, refusal) = (&ANSWER[..47], PollRefusal::Short { length: 47 });
    is_refused_as(&rt, SERVER, bytes, refusal, 2);
}

#[test]
fn an_answer_to_no_request(rt: HostRuntime) {
    let mut poll = Poll::new(SERVER);
    let found = poll.answer(moment(1_010_000), SERVER, &ANSWER);
    is_answer(&rt, found, Err(PollRefusal::NotAsked));
    same(&rt, PollRefusal::NotAsked.code(), 3);
}

// The answer came before.
const DUPLICATE: PollRefusal = PollRefusal::Duplicate {
    transmit: Stamp(0xed00_e131_0020_c49b),
};

// A poller that has got the answer.
fn answered_once(rt: &impl Abort) -> Poll
    ensures { asked_at result ≡ None }
{
    let mut poll = asked(moment(1_000_000));
    match poll.answer(moment(1_010_000), SERVER, &ANSWER) {
        Ok(_) => poll,
        Err(refusal) => panic!(*rt; "{refusal:?}"),
    }
}

// The answer comes twice, and the second time there is a request that it fits.
#[test]
fn a_duplicate(rt: HostRuntime) {
    let mut poll = answered_once(&rt);
    let _request = poll.ask(moment(1_000_000));
    let second = poll.answer(moment(1_010_000), SERVER, &ANSWER);
    is_answer(&rt, second, Err(DUPLICATE));
    same(&rt, DUPLICATE.code(), 7);
}

// The request was sent a second later.
const LATE: PollRefusal = PollRefusal::Bogus {
    origin: Stamp(0x8000_0001_0000_0000),
    asked: Stamp(0x8000_0002_0000_0000),
};

// A request takes the place of the one before it, whose answer then comes too late.
#[test]
fn a_late_answer(rt: HostRuntime) {
    let mut poll = asked(moment(1_000_000));
    let _request = poll.ask(moment(2_000_000));
    let late = poll.answer(moment(2_000_000), SERVER, &ANSWER);
    is_answer(&rt, late, Err(LATE));
}

// Of several reasons the first counts.
#[test]
fn an_answer_with_each_fault(rt: HostRuntime) {
    let mut poll = Poll::new(SERVER);
    let stranger = PollRefusal::Stranger { from: OTHER_PORT };
    let found = poll.answer(moment(0), OTHER_PORT, &[0; 47]);
    is_answer(&rt, found, Err(stranger));
    let found = poll.answer(moment(0), SERVER, &[0; 47]);
    is_answer(&rt, found, Err(PollRefusal::Short { length: 47 }));
    let found = poll.answer(moment(0), SERVER, &[0; 48]);
    is_answer(&rt, found, Err(PollRefusal::NotAsked));
    let of_version_0 = PollRefusal::Version { version: 0 };
    is_answer(&rt, answered(SERVER, &[0; 48]), Err(of_version_0));
}

// The answer with these bytes from a place on, and another byte at another one.
fn with_two(place: usize, piece: &[u8], other: usize, byte: u8) -> [u8; 48]
    requires { other < 48 }
{
    let mut bytes = with(place, piece);
    bytes[other] = byte;
    bytes
}

// Each answer has the faults of two numbers that follow one another, and the lesser one counts.
#[test]
fn of_two_faults_the_lesser_number_counts(rt: HostRuntime) {
    let of_a_client = with_two(0, &[0x23], 31, 1);
    is_refused(&rt, SERVER, &of_a_client, PollRefusal::Mode { mode: 3 });
    let of_stratum_0 = with_two(RECEIVE, &[0; 8], STRATUM, 0);
    is_refused(&rt, SERVER, &of_stratum_0, unsynchronised(0, 0));
    let with_no_stamp = with_two(TRANSMIT, &[0; 8], ROOT_DISP + 1, 0x10);
    is_refused(&rt, SERVER, &with_no_stamp, PollRefusal::ZeroStamp);
}

// The same of an answer that was accepted before: first it answers another request, then its clock is not synchronised.
#[test]
fn a_duplicate_with_another_fault(rt: HostRuntime) {
    let mut poll = answered_once(&rt);
    let _other = poll.ask(moment(2_000_000));
    let second = poll.answer(moment(2_000_000), SERVER, &ANSWER);
    is_answer(&rt, second, Err(LATE));
    let _same = poll.ask(moment(1_000_000));
    let third = poll.answer(moment(1_010_000), SERVER, &with(0, &[0xe4]));
    is_answer(&rt, third, Err(DUPLICATE));
}

// The answer with another first byte, followed by 20 bytes, is taken.
fn version_is_taken(rt: &impl Abort, first: u8) {
    let found = answered(SERVER, &longer(&with(0, &[first])));
    same(rt, (first, found), (first, as_usual()));
}

// Versions 1 to 4, and what follows the 48th byte, are taken.
#[test]
fn each_version(rt: HostRuntime) {
    version_is_taken(&rt, 0x0c);
    version_is_taken(&rt, 0x14);
    version_is_taken(&rt, 0x1c);
    version_is_taken(&rt, 0x64);
}

// The answer with these bytes from a place on is taken.
fn is_taken(rt: &impl Abort, place: usize, piece: &[u8]) {
    let found = answered(SERVER, &with(place, piece));
    same(rt, (place, piece, found), (place, piece, as_usual()));
}

// No row speaks of the poll, the reference ID or the reference timestamp. RFC 5905's own check refuses a reference timestamp after the
// transmit timestamp (appendix A.5.1.1); this table does not.
#[test]
fn what_no_row_speaks_of_is_taken(rt: HostRuntime) {
    is_taken(&rt, POLL, &[0x00]);
    is_taken(&rt, POLL, &[0x80]);
    is_taken(&rt, REFERENCE_ID, b"RATE");
    is_taken(
        &rt,
        REFERENCE,
        &[0xed, 0x00, 0xe1, 0x31, 0x00, 0x20, 0xc4, 0x9c],
    );
    is_taken(&rt, REFERENCE, &[0xff; 8]);
}

// The answer with this first byte is taken at the least stratum and at the greatest.
fn strata_are_taken(rt: &impl Abort, first: u8) {
    let of_least = answered(SERVER, &with(0, &[first, 1])).is_ok();
    let of_greatest = answered(SERVER, &with(0, &[first, 15])).is_ok();
    same(rt, (first, of_least, of_greatest), (first, true, true));
}

// Strata 1 to 15, with and without a warning of a leap second, are taken.
#[test]
fn a_server_of_the_least_and_of_the_greatest_stratum(rt: HostRuntime) {
    strata_are_taken(&rt, 0x24);
    strata_are_taken(&rt, 0x64);
    strata_are_taken(&rt, 0xa4);
}
