//! Which addresses a list of nets denies, as a gate shows it that lets every client pass whenever it asks.
ghost use Rattle.std.specs.Prelude.{◌≡◌, ◌≤◌, ◌<◌, [], length};
ghost use Rattle.kiss_gate.specs.Nets.{nets_of};

use crate::kiss_gate_tests::{gate, kept};
use crate::shared::{moment, same};
use kiss_gate::DenyList;
use reply_core::Code;
use std::alloc::Global;
use std::process::Abort;

// A net: its address, its bits, and addresses, each with whether it is in the net.
type Net = (u32, u8, [(u32, bool); 4]);

// Python's ipaddress gave which addresses are in which net; some nets have bits set after the prefix.
const NETS: [Net; 7] = [
    (
        0x7f00_0002,
        32,
        [
            (0x7f00_0002, true),
            (0x7f00_0001, false),
            (0x7f00_0003, false),
            (0xff00_0002, false),
        ],
    ),
    (
        0x0a00_0000,
        8,
        [
            (0x0a00_0000, true),
            (0x0aff_ffff, true),
            (0x09ff_ffff, false),
            (0x0b00_0000, false),
        ],
    ),
    (
        0xc0a8_4dc9,
        24,
        [
            (0xc0a8_4d00, true),
            (0xc0a8_4dff, true),
            (0xc0a8_4cff, false),
            (0xc0a8_4e00, false),
        ],
    ),
    (
        0xcb00_7181,
        31,
        [
            (0xcb00_7180, true),
            (0xcb00_7181, true),
            (0xcb00_717f, false),
            (0xcb00_7182, false),
        ],
    ),
    (
        0x8000_0000,
        1,
        [
            (0x8000_0000, true),
            (0xffff_ffff, true),
            (0x7fff_ffff, false),
            (0x0000_0000, false),
        ],
    ),
    (
        0xc633_6407,
        0,
        [
            (0x0000_0000, true),
            (0xffff_ffff, true),
            (0x7f00_0001, true),
            (0xc633_6407, true),
        ],
    ),
    (
        0xac10_0000,
        12,
        [
            (0xac10_0000, true),
            (0xac1f_ffff, true),
            (0xac20_0000, false),
            (0xac0f_ffff, false),
        ],
    ),
];

fn list_of(net: u32, bits: u8) -> DenyList
    requires { bits ≤ 32 }
{
    let mut deny = DenyList::new();
    deny.add(net, bits);
    deny
}

// A gate that lets every client pass whenever it asks denies an address of the list, or does not.
fn is_denied(rt: &impl Abort, alloc: Global, deny: &DenyList, ip: u32, is_in: bool) {
    let code = if is_in { Code::Deny } else { Code::Pass };
    let mut gate = gate(rt, alloc, deny, 0, 1);
    same(rt, (ip, gate.judge(ip, moment(0))), (ip, kept(code)));
}

fn has_addresses(rt: &impl Abort, alloc: Global, net: &Net) {
    let (net, bits, addresses) = net;
    let bits = *bits;
    assert!(*rt; bits <= 32);
    let deny = list_of(*net, bits);
    for (ip, is_in) in addresses {
        is_denied(rt, alloc, &deny, *ip, *is_in);
    }
}

fn have_addresses(rt: &impl Abort, alloc: Global, nets: &[Net]) {
    for net in nets {
        has_addresses(rt, alloc, net);
    }
}

#[test]
fn nets_have_their_addresses(rt: HostRuntime) {
    have_addresses(&rt, rt.alloc(), &NETS);
}

// 16 nets of one address each, the first and the last among them.
fn sixteen() -> DenyList {
    let mut deny = DenyList::new();
    deny.add(0, 32);
    deny.add(1, 32);
    deny.add(2, 32);
    deny.add(3, 32);
    deny.add(4, 32);
    deny.add(5, 32);
    deny.add(6, 32);
    deny.add(7, 32);
    deny.add(8, 32);
    deny.add(9, 32);
    deny.add(10, 32);
    deny.add(11, 32);
    deny.add(12, 32);
    deny.add(13, 32);
    deny.add(14, 32);
    deny.add(15, 32);
    deny
}

// A list denies the addresses from 0 to 15.
fn denies_sixteen(rt: &impl Abort, alloc: Global, deny: &DenyList) {
    for ip in 0..16 {
        is_denied(rt, alloc, deny, ip, true);
    }
}

// A list without nets denies nobody.
#[test]
fn a_full_list_denies_each_of_its_nets(rt: HostRuntime) {
    let alloc = rt.alloc();
    is_denied(&rt, alloc, &DenyList::new(), 0, false);
    let deny = sixteen();
    denies_sixteen(&rt, alloc, &deny);
    is_denied(&rt, alloc, &deny, 16, false);
    is_denied(&rt, alloc, &deny, u32::MAX, false);
}
