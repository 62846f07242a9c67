//! Requests and their answers, byte by byte.
ghost use Rattle.std.specs.Prelude.{◌≤◌, ◌<◌, ◌^◌};

use crate::clock_page_tests::of_2026;
use crate::shared::{ANSWER, is_packet, longer, moment, of_a_radio, same};
use clock_page::Page;
use memory_outside::REQUEST;
use reply_core::{Dropped, reply};
use std::process::Abort;
use tick_units::{Short, Span, Stamp};

// What is answered; a drop leaves nothing of it.
pub(crate) fn answered(
    page: &Page,
    datagram: &[u8],
    arrived: u64,
    sent: u64,
) -> Result<[u8; 48], Dropped>
    requires order { arrived ≤ sent }
    requires most { sent < 2 ^ 50 }
{
    let mut out = [0xaa; 48];
    match reply(page, datagram, moment(arrived), moment(sent), &mut out) {
        Ok(()) => Ok(out),
        Err(dropped) => Err(dropped),
    }
}

const UNSYNCHRONISED: [u8; 48] = [
    0xe4, 0x00, 0x06, 0xec, 0x00, 0x00, 0x00, 0x00, 0x00, 0x10, 0x00, 0x00, 0x49, 0x4e, 0x49, 0x54, // `INIT`
    0x00, 0x00, 0x00, 0x00, 0x00, 0x00, 0x00, 0x00, 0x11, 0x22, 0x33, 0x44, 0x55, 0x66, 0x77, 0x88, // the origin
    0x00, 0x00, 0x00, 0xf3, 0x00, 0x00, 0x00, 0x00, 0x00, 0x00, 0x00, 0xf3, 0x00, 0x20, 0xc4, 0x9b,
];

#[test]
fn an_answer_of_a_server_that_is_not_synchronised(rt: HostRuntime) {
    let page = Page::unsynchronised(4, moment(242_000_000));
    let found = answered(&page, &REQUEST, 243_000_000, 243_000_500);
    is_packet(&rt, found, Ok(UNSYNCHRONISED));
}

#[test]
fn an_answer_of_a_synchronised_server(rt: HostRuntime) {
    let found = answered(&of_a_radio(), &REQUEST, 303_000_000, 303_000_500);
    is_packet(&rt, found, Ok(ANSWER));
}

// A packet with this poll in its third byte.
fn with_poll(packet: &[u8; 48], poll: u8) -> [u8; 48] {
    let mut bytes = *packet;
    bytes[2] = poll;
    bytes
}

#[test]
fn an_answer_has_the_poll_of_its_request(rt: HostRuntime) {
    let request = with_poll(&REQUEST, 10);
    let found = answered(&of_a_radio(), &request, 303_000_000, 303_000_500);
    is_packet(&rt, found, Ok(with_poll(&ANSWER, 10)));
    let page = Page::unsynchronised(4, moment(242_000_000));
    let found = answered(&page, &request, 243_000_000, 243_000_500);
    is_packet(&rt, found, Ok(with_poll(&UNSYNCHRONISED, 10)));
}

// The same server, whose sixth minute comes 3 ms late: its counter gains 12.5 parts per million, and the answer follows that.
pub(crate) fn of_a_fast_counter() -> Page {
    Page {
        length: 6,
        sync: true,
        stratum: 1,
        refid: 0x4443_4600,
        offset: Span::from(17_077_896_086_170_592_347),
        anchor: moment(362_003_000),
        until: 37_547_671_946,
        root_delay: Short(0),
        root_disp: Short(28_981),
        reftime: Stamp(0xed00_e16c_0000_0000),
        leap_at: 0,
        rate: -53_687,
    }
}

const OF_A_FAST_COUNTER: [u8; 48] = [
    0x24, 0x01, 0x06, 0xec, 0x00, 0x00, 0x00, 0x00, 0x00, 0x00, 0x71, 0x3f, 0x44, 0x43, 0x46, 0x00, // `DCF`
    0xed, 0x00, 0xe1, 0x6c, 0x00, 0x00, 0x00, 0x00, 0x11, 0x22, 0x33, 0x44, 0x55, 0x66, 0x77, 0x88, // the origin
    0xed, 0x00, 0xe1, 0x75, 0xff, 0xf7, 0xce, 0xda, 0xed, 0x00, 0xe1, 0x75, 0xff, 0xf7, 0xce, 0xda,
];

#[test]
fn an_answer_follows_the_rate(rt: HostRuntime) {
    let found = answered(&of_a_fast_counter(), &REQUEST, 372_003_000, 372_003_000);
    is_packet(&rt, found, Ok(OF_A_FAST_COUNTER));
}

// The first four bytes of an answer, and its reference ID.
type Beginning = Result<(u32, u32), Dropped>;

fn beginning_of(answer: Result<[u8; 48], Dropped>) -> Beginning {
    match answer {
        Ok(b) => Ok((
            u32::from_be_bytes([b[0], b[1], b[2], b[3]]),
            u32::from_be_bytes([b[12], b[13], b[14], b[15]]),
        )),
        Err(dropped) => Err(dropped),
    }
}

// `DCF` and `INIT`.
const DCF: u32 = 0x4443_4600;

const INIT: u32 = 0x494e_4954;

// How an answer begins: with the time, with it and the warning of a leap second, and without the time.
const PLAIN: (u32, u32) = (0x2401_06ec, DCF);

const WARNING: (u32, u32) = (0x6401_06ec, DCF);

const TIMELESS: (u32, u32) = (0xe400_06ec, INIT);

// The answer to the request begins so.
fn begins(rt: &impl Abort, page: &Page, arrived: u64, sent: u64, beginning: (u32, u32))
    requires order { arrived ≤ sent }
    requires most { sent < 2 ^ 50 }
{
    let found = beginning_of(answered(page, &REQUEST, arrived, sent));
    same(rt, (arrived, sent, found), (arrived, sent, Ok(beginning)));
}

#[test]
fn a_page_ends_at_the_moment_of_sending(rt: HostRuntime) {
    let page = of_a_radio();
    begins(&rt, &page, 4_364_906_901, 4_364_906_901, PLAIN);
    begins(&rt, &page, 4_364_906_902, 4_364_906_902, TIMELESS);
    begins(&rt, &page, 4_364_906_901, 4_364_906_902, TIMELESS);
}

// A server at the end of 2016, with its page's end where the leap second begins.
fn before_a_leap_second() -> Page {
    Page {
        length: 5,
        sync: true,
        stratum: 1,
        refid: 0x4443_4600,
        offset: Span::from_seconds(3_692_217_600 - 362),
        anchor: moment(302_000_000),
        until: 362_000_000,
        root_delay: Short(0),
        root_disp: Short(61_542),
        reftime: Stamp((3_692_217_600 - 60) << 32),
        leap_at: 3_692_217_600,
        rate: 0,
    }
}

// The leap second at the end of 2016: the last second before it, and the page's end where it begins.
#[test]
fn a_leap_second_is_announced(rt: HostRuntime) {
    let page = before_a_leap_second();
    begins(&rt, &page, 361_999_999, 361_999_999, WARNING);
    begins(&rt, &page, 362_000_000, 362_000_000, TIMELESS);
}

// Second 3976257842 begins at 304 s. Then the warning of a leap second that ends a day later begins, and that of one that ends there is
// over. A request of the second before is answered by the moment of sending.
#[test]
fn a_leap_second_is_announced_by_the_moment_of_sending(rt: HostRuntime) {
    let page = of_2026(3_976_344_242);
    begins(&rt, &page, 303_999_999, 303_999_999, PLAIN);
    begins(&rt, &page, 303_999_999, 304_000_000, WARNING);

    let page = of_2026(3_976_257_842);
    begins(&rt, &page, 303_999_999, 303_999_999, WARNING);
    begins(&rt, &page, 303_999_999, 304_000_000, PLAIN);
}

// The request with another first byte.
pub(crate) fn beginning_with(first: u8) -> [u8; 48] {
    let mut datagram = REQUEST;
    datagram[0] = first;
    datagram
}

// A datagram is dropped for this reason.
fn drops(rt: &impl Abort, page: &Page, datagram: &[u8], why: Dropped) {
    let found = answered(page, datagram, 0, 0);
    same(rt, (datagram, found), (datagram, Err(why)));
}

// The request with this first byte is dropped for this reason.
fn is_dropped(rt: &impl Abort, page: &Page, first: u8, why: Dropped) {
    drops(rt, page, &beginning_with(first), why);
}

#[test]
fn what_is_no_request_is_dropped(rt: HostRuntime) {
    let page = of_a_radio();
    drops(&rt, &page, &[], Dropped::Short);
    drops(&rt, &page, &REQUEST[..47], Dropped::Short);
    is_dropped(&rt, &page, 0x2b, Dropped::Version);
    is_dropped(&rt, &page, 0x03, Dropped::Version);
    is_dropped(&rt, &page, 0x29, Dropped::Version);
    is_dropped(&rt, &page, 0x21, Dropped::Mode);
    is_dropped(&rt, &page, 0x24, Dropped::Mode);
}

#[test]
fn a_drop_writes_nothing(rt: HostRuntime) {
    let mut out = [0xaa; 48];
    let (page, at) = (of_a_radio(), moment(0));
    let dropped = reply(&page, &[0x23; 47], at, at, &mut out);
    same(&rt, dropped, Err(Dropped::Short));
    same(&rt, out, [0xaa; 48]);
}

// A datagram with this first byte gets an answer with this one, and so it does where 20 bytes follow it.
fn version_is_answered(rt: &impl Abort, page: &Page, first: u8, head: u32) {
    let datagram = beginning_with(first);
    let alone = answered(page, &datagram, 303_000_000, 303_000_500);
    let answer = answered(page, &longer(&datagram), 303_000_000, 303_000_500);
    same(rt, (first, beginning_of(answer)), (first, Ok((head, DCF))));
    is_packet(rt, answer, alone);
}

// Versions 1 to 4 are answered with their own, and what follows the 48th byte is passed over.
#[test]
fn each_version_is_answered(rt: HostRuntime) {
    let page = of_a_radio();
    version_is_answered(&rt, &page, 0x0b, 0x0c01_06ec);
    version_is_answered(&rt, &page, 0x13, 0x1401_06ec);
    version_is_answered(&rt, &page, 0x1b, 0x1c01_06ec);
    version_is_answered(&rt, &page, 0xe3, 0x2401_06ec);
}

// The root dispersion of the answer that is sent at a moment.
fn has_dispersion(rt: &impl Abort, page: &Page, sent: u64, dispersion: u32)
    requires { sent < 2 ^ 50 }
{
    let found = match answered(page, &REQUEST, 0, sent) {
        Ok(b) => Ok(u32::from_be_bytes([b[8], b[9], b[10], b[11]])),
        Err(dropped) => Err(dropped),
    };
    same(rt, (sent, found), (sent, Ok(dispersion)));
}

// The page is from 302 s, and the host's counter drifts 15 us in a second. That is 590 units of 2^-16 s in ten minutes, up to a
// whole second at its end, and nothing before the page was made.
#[test]
fn a_dispersion_grows_from_the_page_on(rt: HostRuntime) {
    let page = of_a_radio();
    has_dispersion(&rt, &page, 0, 0xf066);
    has_dispersion(&rt, &page, 302_000_000, 0xf066);
    has_dispersion(&rt, &page, 302_000_001, 0xf067);
    has_dispersion(&rt, &page, 901_999_999, 0xf2b4);
    has_dispersion(&rt, &page, 4_364_906_901, 0x0001_0000);
}
