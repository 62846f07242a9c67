//! Requests at a gate, one after another.
ghost use Rattle.std.specs.Prelude.{◌≡◌, ◌≤◌, ◌<◌, ◌^◌, [], length};
ghost use Rattle.kiss_gate.specs.Nets.{nets_of};

use crate::shared::same;
use kiss_gate::{ClientGate, DenyList, GateOpen, Judged};
use reply_core::Code;
use std::alloc::Global;
use std::process::Abort;
use tick_units::Local;

// 127.0.0.1 and the next one.
const FIRST: u32 = 0x7f00_0001;

const SECOND: u32 = 0x7f00_0002;

fn opened(rt: &impl Abort, gate: Result<ClientGate, GateOpen>) -> ClientGate {
    match gate {
        Ok(gate) => gate,
        Err(GateOpen::Memory) => panic!(*rt; "no memory"),
    }
}

// A gate with room for as many clients.
pub(crate) fn gate(
    rt: &impl Abort,
    alloc: Global,
    deny: &DenyList,
    gap: u64,
    clients: u32,
) -> ClientGate
    requires gap { gap ≤ 60000000 }
    requires least { 1 ≤ clients }
    requires most { clients ≤ 65536 }
{
    opened(rt, ClientGate::open(alloc, deny, gap, clients))
}

// What a request gets that is kept.
pub(crate) fn kept(code: Code) -> Judged {
    Judged { code, kept: true }
}

// A request, of a client at a moment, and the code that it gets.
type Asked = (u32, u64, Code);

fn is_judged(rt: &impl Abort, gate: &mut ClientGate, asked: &Asked) {
    let (ip, at, code) = *asked;
    let moment = Local::new(at).expect(rt, "no moment");
    same(rt, (ip, at, gate.judge(ip, moment)), (ip, at, kept(code)));
}

// These requests get these codes in turn, and are kept.
fn are_judged(rt: &impl Abort, mut gate: ClientGate, requests: &[Asked]) {
    for asked in requests {
        is_judged(rt, &mut gate, asked);
    }
}

// The same at a gate that denies nobody.
fn nobody_is_denied(rt: &impl Abort, alloc: Global, gap: u64, clients: u32, requests: &[Asked])
    requires gap { gap ≤ 60000000 }
    requires least { 1 ≤ clients }
    requires most { clients ≤ 65536 }
{
    are_judged(
        rt,
        gate(rt, alloc, &DenyList::new(), gap, clients),
        requests,
    );
}

// The same at a gate that denies the second address, with room for one client.
fn second_is_denied(rt: &impl Abort, alloc: Global, gap: u64, requests: &[Asked])
    requires { gap ≤ 60000000 }
{
    let mut deny = DenyList::new();
    deny.add(SECOND, 32);
    are_judged(rt, gate(rt, alloc, &deny, gap, 1), requests);
}

const WITHIN_THE_GAP: [Asked; 5] = [
    (FIRST, 303_000_000, Code::Pass),
    (FIRST, 304_000_000, Code::Rate),
    (FIRST, 305_000_000, Code::Pass),
    (FIRST, 306_999_999, Code::Rate),
    (FIRST, 307_000_000, Code::Pass),
];

#[test]
fn a_request_within_the_gap(rt: HostRuntime) {
    nobody_is_denied(&rt, rt.alloc(), 2_000_000, 1024, &WITHIN_THE_GAP);
}

const ASKING_AGAIN: [Asked; 6] = [
    (FIRST, 100, Code::Pass),
    (FIRST, 100, Code::Rate),
    (FIRST, 101, Code::Rate),
    (FIRST, 105, Code::Rate),
    (FIRST, 109, Code::Rate),
    (FIRST, 110, Code::Pass),
];

// The gap counts from the last request that passed, however often the client asks in between.
#[test]
fn asking_again_does_not_prolong_the_gap(rt: HostRuntime) {
    nobody_is_denied(&rt, rt.alloc(), 10, 1, &ASKING_AGAIN);
}

const FROM_BEFORE: [Asked; 5] = [
    (FIRST, 100, Code::Pass),
    (FIRST, 90, Code::Rate),
    (FIRST, 80, Code::Rate),
    (FIRST, 0, Code::Rate),
    (FIRST, 110, Code::Pass),
];

// A moment from before the last one that passed is not a gap after it, however far from it (a script may go back).
#[test]
fn a_request_from_before_the_last_one(rt: HostRuntime) {
    nobody_is_denied(&rt, rt.alloc(), 10, 1, &FROM_BEFORE);
}

const AT_A_TABLE_OF_ONE: [Asked; 4] = [
    (FIRST, 303_000_000, Code::Pass),
    (SECOND, 304_000_000, Code::Pass),
    (FIRST, 304_500_000, Code::Pass),
    (FIRST, 304_500_001, Code::Rate),
];

#[test]
fn a_table_of_one_forgets(rt: HostRuntime) {
    nobody_is_denied(&rt, rt.alloc(), 2_000_000, 1, &AT_A_TABLE_OF_ONE);
}

const AT_A_TABLE_OF_THREE: [Asked; 24] = [
    (1, 101, Code::Pass),
    (0, 102, Code::Pass),
    (3, 104, Code::Pass),
    (1, 107, Code::Rate),
    (0, 108, Code::Rate),
    (2, 109, Code::Pass),
    (3, 110, Code::Pass),
    (0, 113, Code::Pass),
    (1, 116, Code::Pass),
    (3, 116, Code::Rate),
    (2, 119, Code::Pass),
    (3, 120, Code::Pass),
    (3, 120, Code::Rate),
    (0, 121, Code::Pass),
    (4, 123, Code::Pass),
    (0, 125, Code::Rate),
    (3, 126, Code::Rate),
    (3, 129, Code::Rate),
    (3, 131, Code::Pass),
    (4, 131, Code::Rate),
    (4, 131, Code::Rate),
    (0, 131, Code::Pass),
    (0, 132, Code::Rate),
    (0, 134, Code::Rate),
];

// Five clients at a table of three. Python's OrderedDict gave the codes. A table of two or four gives four other codes or more.
// So does one that does not move a client that gets RATE to the first place, and one that renews its moment.
#[test]
fn a_table_of_three_forgets_the_one_that_asked_longest_ago(rt: HostRuntime) {
    nobody_is_denied(&rt, rt.alloc(), 10, 3, &AT_A_TABLE_OF_THREE);
}

// Requests of three clients: who asks, and when.
const OF_THREE_CLIENTS: [(u32, u64); 12] = [
    (7, 100),
    (8, 101),
    (7, 104),
    (9, 105),
    (8, 107),
    (7, 109),
    (7, 110),
    (9, 111),
    (8, 111),
    (7, 112),
    (9, 120),
    (7, 120),
];

// A client gets alone what it gets among the others; the request of another client is judged among them only.
fn is_judged_alike(
    rt: &impl Abort,
    all: &mut ClientGate,
    alone: &mut ClientGate,
    client: u32,
    request: &(u32, u64),
) {
    let (ip, at) = *request;
    let moment = Local::new(at).expect(rt, "no moment");
    let among = all.judge(ip, moment);
    if ip == client {
        same(rt, (ip, at, among), (ip, at, alone.judge(ip, moment)));
    }
}

fn are_judged_alike(rt: &impl Abort, alloc: Global, client: u32, requests: &[(u32, u64)]) {
    let mut all = gate(rt, alloc, &DenyList::new(), 10, 3);
    let mut alone = gate(rt, alloc, &DenyList::new(), 10, 3);
    for request in requests {
        is_judged_alike(rt, &mut all, &mut alone, client, request);
    }
}

// Three clients at a table of three, and each of them alone at one: the same codes.
#[test]
fn each_client_is_judged_as_if_it_alone_had_asked(rt: HostRuntime) {
    are_judged_alike(&rt, rt.alloc(), 7, &OF_THREE_CLIENTS);
    are_judged_alike(&rt, rt.alloc(), 8, &OF_THREE_CLIENTS);
    are_judged_alike(&rt, rt.alloc(), 9, &OF_THREE_CLIENTS);
}

const WITH_NO_GAP: [Asked; 3] = [
    (FIRST, 100, Code::Pass),
    (FIRST, 100, Code::Pass),
    (FIRST, 101, Code::Pass),
];

#[test]
fn a_gap_of_0_lets_all_pass(rt: HostRuntime) {
    nobody_is_denied(&rt, rt.alloc(), 0, 10, &WITH_NO_GAP);
}

const WITH_THE_GREATEST_GAP: [Asked; 7] = [
    (FIRST, 0, Code::Pass),
    (0, 0, Code::Pass),
    (u32::MAX, 0, Code::Pass),
    (FIRST, 59_999_999, Code::Rate),
    (u32::MAX, 59_999_999, Code::Rate),
    (FIRST, 60_000_000, Code::Pass),
    (0, 60_000_000, Code::Pass),
];

// A minute, and a table of the most clients.
#[test]
fn the_greatest_gap_and_table(rt: HostRuntime) {
    nobody_is_denied(&rt, rt.alloc(), 60_000_000, 65_536, &WITH_THE_GREATEST_GAP);
}

const AT_THE_GREATEST_MOMENT: [Asked; 6] = [
    (FIRST, 1_125_899_846_842_622, Code::Pass),
    (FIRST, 1_125_899_906_842_621, Code::Rate),
    (SECOND, 1_125_899_906_842_622, Code::Pass),
    (FIRST, 1_125_899_906_842_622, Code::Pass),
    (FIRST, 1_125_899_906_842_623, Code::Rate),
    (SECOND, 1_125_899_906_842_623, Code::Rate),
];

// The counter's last microsecond, 2^50 - 1, with the greatest gap.
#[test]
fn the_greatest_moment(rt: HostRuntime) {
    nobody_is_denied(&rt, rt.alloc(), 60_000_000, 2, &AT_THE_GREATEST_MOMENT);
}

const OF_A_DENIED_NET: [Asked; 2] = [
    (SECOND, 303_000_000, Code::Deny),
    (FIRST, 303_000_000, Code::Pass),
];

#[test]
fn a_denied_net_of_one_address(rt: HostRuntime) {
    second_is_denied(&rt, rt.alloc(), 0, &OF_A_DENIED_NET);
}

const OF_A_DENIED_SENDER: [Asked; 6] = [
    (FIRST, 100, Code::Pass),
    (SECOND, 101, Code::Deny),
    (SECOND, 102, Code::Deny),
    (FIRST, 109, Code::Rate),
    (FIRST, 110, Code::Pass),
    (SECOND, 200, Code::Deny),
];

// A denied sender takes no place in a table of one, and gets DENY however often it asks.
#[test]
fn a_denied_sender_is_not_in_the_table(rt: HostRuntime) {
    second_is_denied(&rt, rt.alloc(), 10, &OF_A_DENIED_SENDER);
}
