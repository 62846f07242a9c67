//! The kiss codes, byte by byte: Python's `struct` packed the header of RFC 5905, section 7.3.
ghost use Rattle.std.specs.Prelude.{◌≢◌, ◌≤◌, ◌<◌, ◌^◌};
ghost use Rattle.reply_core.specs.declared.code.Code.TheVariants.{Pass};

use crate::reply_core_tests::{answered, beginning_with, of_a_fast_counter};
use crate::shared::{DENY, is_packet, longer, moment, of_a_radio, same};
use clock_page::Page;
use memory_outside::REQUEST;
use reply_core::{Code, Dropped, kiss};
use std::process::Abort;

// What a client gets with the code; a drop leaves nothing of it, and writes nothing.
fn kissed(
    rt: &impl Abort,
    code: Code,
    page: &Page,
    datagram: &[u8],
    arrived: u64,
    sent: u64,
) -> Result<[u8; 48], Dropped>
    requires code { code ≢ Pass }
    requires order { arrived ≤ sent }
    requires most { sent < 2 ^ 50 }
{
    let mut out = [0xaa; 48];
    match kiss(
        code,
        page,
        datagram,
        moment(arrived),
        moment(sent),
        &mut out,
    ) {
        Ok(()) => Ok(out),
        Err(dropped) => {
            same(rt, out, [0xaa; 48]);
            Err(dropped)
        }
    }
}

const RATE: [u8; 48] = [
    0xe4, 0x00, 0x06, 0xec, 0x00, 0x00, 0x00, 0x00, 0x00, 0x10, 0x00, 0x00, 0x52, 0x41, 0x54, 0x45, // `RATE`
    0x00, 0x00, 0x00, 0x00, 0x00, 0x00, 0x00, 0x00, 0x11, 0x22, 0x33, 0x44, 0x55, 0x66, 0x77, 0x88, // the origin
    0xed, 0x00, 0xe1, 0x32, 0x00, 0x00, 0x00, 0x00, 0xed, 0x00, 0xe1, 0x32, 0x00, 0x20, 0xc4, 0x9b,
];

#[test]
fn a_client_asks_too_often(rt: HostRuntime) {
    let found = kissed(
        &rt,
        Code::Rate,
        &of_a_radio(),
        &REQUEST,
        304_000_000,
        304_000_500,
    );
    is_packet(&rt, found, Ok(RATE));
}

#[test]
fn a_client_is_denied(rt: HostRuntime) {
    let found = kissed(
        &rt,
        Code::Deny,
        &of_a_radio(),
        &REQUEST,
        303_000_000,
        303_000_500,
    );
    is_packet(&rt, found, Ok(DENY));
}

const DENY_OF_VERSION_1: [u8; 48] = [
    0xcc, 0x00, 0x06, 0xec, 0x00, 0x00, 0x00, 0x00, 0x00, 0x10, 0x00, 0x00, 0x44, 0x45, 0x4e, 0x59, // `DENY`
    0x00, 0x00, 0x00, 0x00, 0x00, 0x00, 0x00, 0x00, 0x11, 0x22, 0x33, 0x44, 0x55, 0x66, 0x77, 0x88, // the origin
    0x00, 0x00, 0x00, 0xf3, 0x00, 0x00, 0x00, 0x00, 0x00, 0x00, 0x00, 0xf3, 0x00, 0x20, 0xc4, 0x9b,
];

const RATE_OF_VERSION_3: [u8; 48] = [
    0xdc, 0x00, 0x11, 0xec, 0x00, 0x00, 0x00, 0x00, 0x00, 0x10, 0x00, 0x00, 0x52, 0x41, 0x54, 0x45, // `RATE`
    0x00, 0x00, 0x00, 0x00, 0x00, 0x00, 0x00, 0x00, 0x11, 0x22, 0x33, 0x44, 0x55, 0x66, 0x77, 0x88, // the origin
    0xed, 0x00, 0xf1, 0x0e, 0xe8, 0x2a, 0xba, 0xbe, 0xed, 0x00, 0xf1, 0x0e, 0xe8, 0x2a, 0xba, 0xbe,
];

// A request of version 3 with a poll of 17.
fn of_version_3() -> [u8; 48] {
    let mut request = beginning_with(0x1b);
    request[2] = 17;
    request
}

// A request of version 1 to a server that never knew the time. Then one of version 3 with a poll of 17 after a page's end.
#[test]
fn a_server_that_is_not_synchronised_has_the_same_codes(rt: HostRuntime) {
    let page = Page::unsynchronised(4, moment(242_000_000));
    let request = beginning_with(0x0b);
    let found = kissed(&rt, Code::Deny, &page, &request, 243_000_000, 243_000_500);
    is_packet(&rt, found, Ok(DENY_OF_VERSION_1));

    let (page, request) = (of_a_radio(), of_version_3());
    let found = kissed(
        &rt,
        Code::Rate,
        &page,
        &request,
        4_364_906_902,
        4_364_906_902,
    );
    is_packet(&rt, found, Ok(RATE_OF_VERSION_3));
}

// How a code begins.
const BEGINS: [u8; 12] = [0xe4, 0x00, 0x06, 0xec, 0, 0, 0, 0, 0x00, 0x10, 0, 0];

// An answer and a kiss code end alike from the origin on, and the code begins as one.
fn has_stamps_of(
    rt: &impl Abort,
    answer: Result<[u8; 48], Dropped>,
    kissed: Result<[u8; 48], Dropped>,
) {
    match (answer, kissed) {
        (Ok(answer), Ok(packet)) => {
            same(rt, &packet[24..], &answer[24..]);
            same(rt, &packet[..12], BEGINS.as_slice());
        }
        _ => panic!(*rt; "no answer, or no code"),
    }
}

// A kiss code has the times of the answer in whose place it comes, and their origin.
#[test]
fn a_code_has_the_stamps_of_the_answer(rt: HostRuntime) {
    let page = of_a_fast_counter();
    let answer = answered(&page, &REQUEST, 372_003_000, 372_003_000);
    let packet = kissed(&rt, Code::Rate, &page, &REQUEST, 372_003_000, 372_003_000);
    has_stamps_of(&rt, answer, packet);
}

// A datagram is dropped for this reason.
fn drops(rt: &impl Abort, code: Code, datagram: &[u8], why: Dropped)
    requires { code ≢ Pass }
{
    let found = kissed(rt, code, &of_a_radio(), datagram, 0, 0);
    same(rt, (code, datagram, found), (code, datagram, Err(why)));
}

// The request with this first byte is dropped for this reason.
fn is_dropped(rt: &impl Abort, code: Code, first: u8, why: Dropped)
    requires { code ≢ Pass }
{
    drops(rt, code, &beginning_with(first), why);
}

// What follows the request is passed over.
fn kisses_the_longer(rt: &impl Abort, code: Code)
    requires { code ≢ Pass }
{
    let page = of_a_radio();
    let packet = kissed(rt, code, &page, &longer(&REQUEST), 303_000_000, 303_000_500);
    let of_request = kissed(rt, code, &page, &REQUEST, 303_000_000, 303_000_500);
    same(rt, (code, packet.is_ok()), (code, true));
    is_packet(rt, packet, of_request);
}

// With this code the same datagrams are dropped as answers are.
fn drops_as_answers_do(rt: &impl Abort, code: Code)
    requires { code ≢ Pass }
{
    drops(rt, code, &[], Dropped::Short);
    drops(rt, code, &REQUEST[..47], Dropped::Short);
    is_dropped(rt, code, 0x2b, Dropped::Version);
    is_dropped(rt, code, 0x03, Dropped::Version);
    is_dropped(rt, code, 0x29, Dropped::Version);
    is_dropped(rt, code, 0x21, Dropped::Mode);
    is_dropped(rt, code, 0x24, Dropped::Mode);
}

// What is not answered gets no code either, and what follows the 48th byte is passed over.
#[test]
fn codes_are_dropped_as_answers_are(rt: HostRuntime) {
    drops_as_answers_do(&rt, Code::Deny);
    kisses_the_longer(&rt, Code::Deny);
    drops_as_answers_do(&rt, Code::Rate);
    kisses_the_longer(&rt, Code::Rate);
}
