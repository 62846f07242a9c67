//! Which nets a station denies, and how often a client may ask.
ghost use Rattle.std.specs.Prelude.{◌≡◌, IfOk};
ghost use Rattle.station_values.specs.Station.{gate_of};

use crate::key_tests::push_keys;
use crate::tests::{
    are_right, are_right_between, has_answer, one_of_each, push_times, same, station_of,
};
use kiss_gate::{ClientGate, GateOpen};
use reply_core::Code;
use station_values::Station;
use std::alloc::Global;
use std::process::Abort;
use tick_units::Local;

// Each line has a file, with `|` for its line feeds, and the file's result.

const NUMBERS: &str = r#"gap = 0 -> 4294967296 0
gap = 60000000 -> 4294967296 0
gap = 60000001 -> range gap
gap = -1 -> range gap
gap = 1.0 -> range gap
gap = "0" -> range gap
clients = 0 -> range clients
clients = 1 -> 4294967296 0
clients = 65536 -> 4294967296 0
clients = 65537 -> range clients
clients = -1 -> range clients
clients = true -> range clients
"#;

// The text between the quotes of a net, and the file's result.
const NETS: &str = r#"0.0.0.0/0 -> 4294967296 0
255.255.255.255/32 -> 4294967296 0
127.0.0.2/32 -> 4294967296 0
127.0.0.2/33 -> range deny.0.net
10.1.2.3/8 -> 4294967296 0
010.0.0.0/8 -> range deny.0.net
1.2.3.4 -> range deny.0.net
1.2.3.4/ -> range deny.0.net
1.2.3.4/08 -> range deny.0.net
1.2.3.4/00 -> range deny.0.net
1.2.3.4/+8 -> range deny.0.net
1.2.3.4/-1 -> range deny.0.net
1.2.3.4/0x8 -> range deny.0.net
1.2.3.4/99999999999999999999 -> range deny.0.net
1.2.3.4/8/8 -> range deny.0.net
1.2.3.4/ 8 -> range deny.0.net
1.2.3.4 /8 -> range deny.0.net
1.2.3/8 -> range deny.0.net
1.2.3.256/8 -> range deny.0.net
1.2.3.4.5/8 -> range deny.0.net
/8 -> range deny.0.net
/ -> range deny.0.net
 -> range deny.0.net
"#;

const TABLES: &str = r#"deny = [] -> 4294967296 0
deny = [{net = "1.2.3.4/8"}, {net = "1.2.3.4/8"}] -> 4294967296 0
[[deny]]|net = 8 -> range deny.0.net
[[deny]]|net = 1.5 -> range deny.0.net
[[deny]]|net = ["1.2.3.4/8"] -> range deny.0.net
[[deny]] -> missing deny.0.net
[[deny]]|net = "1.2.3.4/8"|[[deny]] -> missing deny.1.net
[[deny]]|net = "1.2.3.4/8"|[[deny]]|net = "" -> range deny.1.net
[[deny]]|net = "1.2.3.4/8"|bits = 8 -> unknown deny.0.bits
[[deny]]|Net = "1.2.3.4/8" -> unknown deny.0.Net
deny = "1.2.3.4/8" -> range deny
deny = ["1.2.3.4/8"] -> range deny
[deny]|net = "1.2.3.4/8" -> range deny
"#;

// The denied nets come after the keys.
const ORDER: &str = r#"[[deny]]|x = 1|[[key]]|x = 1 -> unknown key.0.x
[[deny]]|x = 1|[[key]] -> unknown deny.0.x
[[deny]]|[[key]] -> missing key.0.id
[[deny]]|[[key]]|id = 0|secret = "" -> missing deny.0.net
[[deny]]|net = ""|[[key]]|id = 0|secret = "a" -> range key.0.id
[[deny]]|net = ""|[[key]]|id = 1|secret = "a"|[[key]]|id = 1|secret = "b" -> range key.1.id
[[deny]]|net = ""|[[key]]|id = 1|secret = "a" -> range deny.0.net
[[deny]]|net = ""|[[link]]|port = 0 -> range link.0.port
[[deny]]|x = 1|[[link]]|x = 1 -> unknown link.0.x
bound = 0|clients = 0 -> range bound
start = -1|key = 1|gap = -1|deny = 1|clients = 0 -> range clients
start = -1|key = 1|gap = -1|deny = 1 -> range deny
start = -1|key = 1|gap = -1 -> range gap
start = -1|[[deny]]|net = "" -> range start
"#;

#[test]
fn gaps_and_clients(rt: HostRuntime) {
    are_right(&rt, rt.alloc(), NUMBERS);
}

#[test]
fn texts_of_nets(rt: HostRuntime) {
    are_right_between(&rt, rt.alloc(), NETS, "[[deny]]|net = \"", "\"|");
}

#[test]
fn faults_of_nets(rt: HostRuntime) {
    are_right(&rt, rt.alloc(), TABLES);
    are_right(&rt, rt.alloc(), ORDER);
}

// Sixteen nets, then a further text, and keys with the identifiers from 1 up to the one before this.
fn nets_and_keys(alloc: Global, further: &str, end: u8) -> String {
    let mut text = String::new(alloc);
    push_times(&mut text, "[[deny]]\nnet = \"1.2.3.4/8\"\n", 16);
    push_times(&mut text, further, 1);
    push_keys(&mut text, end);
    text
}

// Such a file has this result.
fn nets_have_answer(rt: &impl Abort, alloc: Global, further: &str, end: u8, want: &str) {
    let file = nets_and_keys(alloc, further, end);
    has_answer(rt, alloc, file.as_bytes(), want);
}

// There may be sixteen nets; of more the texts are looked at first, and the keys are counted before them.
#[test]
fn seventeen_nets(rt: HostRuntime) {
    let alloc = rt.alloc();
    let bad = "[[deny]]\nnet = \"\"\n";
    let further = "[[deny]]\nnet = \"1.2.3.4/8\"\n";
    nets_have_answer(&rt, alloc, "", 0, "4294967296 0");
    nets_have_answer(&rt, alloc, bad, 0, "range deny.16.net");
    nets_have_answer(&rt, alloc, further, 0, "many deny 17");
    nets_have_answer(&rt, alloc, further, 10, "many key 9");
}

// The gate of clients with which a link of a station begins.
fn gate(alloc: Global, station: &Station) -> Result<ClientGate, GateOpen>
    ensures { IfOk result (λ gate. gate ≡ gate_of station.now) }
{
    ClientGate::open(alloc, station.deny(), station.gap(), station.clients())
}

// A request of an address, and the code that it gets.
type Asked = (u32, Code);

// The gate of clients of the station of a text.
fn gate_of_text(rt: &impl Abort, alloc: Global, text: &[u8]) -> ClientGate {
    let station = station_of(rt, alloc, text);
    match gate(alloc, &station) {
        Ok(gate) => gate,
        Err(_) => panic!(*rt; "no memory"),
    }
}

// A request of this address, at one moment for all, gets this code.
fn is_judged(rt: &impl Abort, gate: &mut ClientGate, ip: u32, code: Code) {
    let judged = gate.judge(ip, Local::new(303_000_000).unwrap());
    same(rt, (ip, judged.code), (ip, code));
}

// Requests of these addresses get these codes in turn.
fn are_judged(rt: &impl Abort, gate: &mut ClientGate, requests: &[Asked]) {
    for (ip, code) in requests {
        is_judged(rt, gate, *ip, *code);
    }
}

const DENYING: &[u8] =
    b"gap = 2000000\nclients = 2\n[[deny]]\nnet = \"127.0.0.2/32\"\n[[deny]]\nnet = \"10.1.2.3/8\"\n";

// The gap of a station, and how many clients it knows.
fn numbers_of(station: &Station) -> (u64, u32) {
    (station.gap(), station.clients())
}

// The station of a text has these numbers.
fn has_numbers(rt: &impl Abort, alloc: Global, text: &[u8], want: (u64, u32)) {
    same(rt, numbers_of(&station_of(rt, alloc, text)), want);
}

#[test]
fn the_numbers_of_a_station(rt: HostRuntime) {
    let alloc = rt.alloc();
    has_numbers(&rt, alloc, DENYING, (2_000_000, 2));
    has_numbers(&rt, alloc, b"", (0, 1024));
    let drill = one_of_each(&rt, alloc);
    same(&rt, numbers_of(&drill), (0, 1024));
}

const SOME_DENIED: [Asked; 9] = [
    (0x7f00_0001, Code::Pass),
    (0x7f00_0002, Code::Deny),
    (0x7f00_0003, Code::Pass),
    (0x0a00_0000, Code::Deny),
    (0x0aff_ffff, Code::Deny),
    (0x09ff_ffff, Code::Pass),
    (0x09ff_ffff, Code::Rate),
    (0x0b00_0000, Code::Pass),
    (0x7f00_0003, Code::Pass),
];

const NONE_DENIED: [Asked; 3] = [
    (0x7f00_0002, Code::Pass),
    (0x7f00_0002, Code::Pass),
    (0xffff_ffff, Code::Pass),
];

const ALL_DENIED: [Asked; 3] = [
    (0, Code::Deny),
    (0x7f00_0001, Code::Deny),
    (0xffff_ffff, Code::Deny),
];

#[test]
fn the_nets_of_a_station(rt: HostRuntime) {
    let alloc = rt.alloc();
    let mut gate = gate_of_text(&rt, alloc, DENYING);
    are_judged(&rt, &mut gate, &SOME_DENIED);
    let mut gate = gate_of_text(&rt, alloc, b"");
    are_judged(&rt, &mut gate, &NONE_DENIED);
    let mut gate = gate_of_text(&rt, alloc, b"[[deny]]\nnet = \"1.2.3.4/0\"\n");
    are_judged(&rt, &mut gate, &ALL_DENIED);
}
