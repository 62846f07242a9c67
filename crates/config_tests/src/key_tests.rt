//! The keys of a station file, valid ones and faulty ones.
use crate::tests::{are_right, are_right_between, has_answer, push_times, same, station_of};
use station_values::Station;
use std::alloc::Global;
use std::process::Abort;

// Each line has a file, with `|` for its line feeds, and the file's result.

const IDENTIFIERS: &str = r#"key = [] -> 4294967296 0
[[key]]|id = 1|secret = "longwave" -> 4294967296 0
[[key]]|id = 4294967295|secret = "longwave" -> 4294967296 0
[[key]]|id = 0x10|secret = "longwave" -> 4294967296 0
[[key]]|id = 0|secret = "longwave" -> range key.0.id
[[key]]|id = 4294967296|secret = "longwave" -> range key.0.id
[[key]]|id = -1|secret = "longwave" -> range key.0.id
[[key]]|id = "1"|secret = "longwave" -> range key.0.id
[[key]]|id = 1.0|secret = "longwave" -> range key.0.id
[[key]]|id = 1|secret = "longwave"|[[key]]|id = 2|secret = "longwave" -> 4294967296 0
[[key]]|id = 1|secret = "longwave"|[[key]]|id = 1|secret = "shortwave" -> range key.1.id
[[key]]|id = 1|secret = "a"|[[key]]|id = 2|secret = "b"|[[key]]|id = 1|secret = "c" -> range key.2.id
[[key]]|id = 1|secret = "a"|[[key]]|id = 1|secret = "b"|[[key]]|id = 1|secret = "c" -> range key.1.id
[[key]]|id = 0|secret = "a"|[[key]]|id = 0|secret = "b" -> range key.0.id
[[key]]|id = 1|secret = "a"|[[key]]|id = 1|secret = "" -> range key.1.id
[[key]]|id = 1|secret = ""|[[key]]|id = 1|secret = "b" -> range key.0.secret
"#;

// The text between the quotes of a secret, and the file's result.
const SECRETS: &str = r#"! -> 4294967296 0
~ -> 4294967296 0
\u0021\u007e -> 4294967296 0
0123456789abcdef0123456789abcdef -> 4294967296 0
0123456789abcdef0123456789abcdef0 -> range key.0.secret
 -> range key.0.secret
  -> range key.0.secret
long wave -> range key.0.secret
longwave\t -> range key.0.secret
\u0020 -> range key.0.secret
\u007f -> range key.0.secret
\u0000 -> range key.0.secret
längst -> range key.0.secret
\u00ff -> range key.0.secret
"#;

const ORDER: &str = r#"[[key]] -> missing key.0.id
[[key]]|id = 1 -> missing key.0.secret
[[key]]|secret = "a" -> missing key.0.id
[[key]]|id = 1|secret = "a"|type = "md5" -> unknown key.0.type
[[key]]|id = 1|secret = 7 -> range key.0.secret
[[key]]|id = 0|secret = 7 -> range key.0.id
[[key]]|id = 0|secret = "a"|[[link]]|port = 0 -> range link.0.port
[[key]]|x = 1|[[link]]|x = 1 -> unknown link.0.x
[[key]]|[[link]] -> missing link.0.port
[[key]]|id = 1|secret = "a"|[[key]]|x = 1 -> unknown key.1.x
key = 1 -> range key
key = [1] -> range key
bound = 0|key = 1 -> range bound
link = 1|key = 1 -> range key
"#;

#[test]
fn identifiers_of_keys(rt: HostRuntime) {
    are_right(&rt, rt.alloc(), IDENTIFIERS);
}

#[test]
fn secrets_of_keys(rt: HostRuntime) {
    let before = "[[key]]|id = 1|secret = \"";
    are_right_between(&rt, rt.alloc(), SECRETS, before, "\"|");
}

#[test]
fn faults_of_keys(rt: HostRuntime) {
    are_right(&rt, rt.alloc(), ORDER);
}

// Keys with the identifiers from 1 to 8, then a further text, and this many links.
fn keys_and_links(alloc: Global, further: &str, links: u8) -> String {
    let mut text = String::new(alloc);
    push_keys(&mut text, 9);
    push_times(&mut text, further, 1);
    push_times(&mut text, "[[link]]\nport = 1\n", links);
    text
}

// Adds keys with the identifiers from 1 on, up to the one before this.
pub(crate) fn push_keys(text: &mut String, end: u8) {
    for id in 1..end {
        let _ = write!(text, "[[key]]\nid = {id}\nsecret = \"a\"\n");
    }
}

// Such a file has this result.
fn keys_have_answer(rt: &impl Abort, alloc: Global, further: &str, links: u8, want: &str) {
    let file = keys_and_links(alloc, further, links);
    has_answer(rt, alloc, file.as_bytes(), want);
}

// There may be eight keys; of nine the identifiers and secrets are looked at first, and the links are counted before them.
#[test]
fn nine_keys(rt: HostRuntime) {
    let alloc = rt.alloc();
    let (ninth, twice) = (
        "[[key]]\nid = 9\nsecret = \"a\"\n",
        "[[key]]\nid = 8\nsecret = \"a\"\n",
    );
    keys_have_answer(&rt, alloc, "", 0, "4294967296 0");
    keys_have_answer(&rt, alloc, ninth, 0, "many key 9");
    keys_have_answer(&rt, alloc, ninth, 9, "many link 9");
    keys_have_answer(&rt, alloc, twice, 0, "range key.8.id");
}

// A packet of 48 zero bytes, the identifier, and MD5 of the secret and the zeros as Python's `hashlib` gives it.
fn packet(id: u8, digest: [u8; 16]) -> [u8; 68] {
    let mut bytes = [0; 68];
    bytes[51] = id;
    bytes[52..].copy_from_slice(&digest);
    bytes
}

const OF_LONGWAVE: [u8; 16] = [
    0xf0, 0x74, 0x26, 0x01, 0x30, 0x6e, 0x55, 0x67, 0x53, 0x77, 0xeb, 0x06, 0x52, 0x55, 0x1f, 0x6d,
];

const OF_SHORTWAVE: [u8; 16] = [
    0x95, 0x4b, 0x3c, 0x4c, 0x11, 0xef, 0x4a, 0xb1, 0x2e, 0x21, 0x26, 0xc9, 0x10, 0xce, 0x75, 0x17,
];

const TWO_KEYS: &[u8] =
    b"[[key]]\nid = 7\nsecret = \"longwave\"\n[[key]]\nid = 2\nsecret = \"shortwave\"\n";

// Whose key this digest is of, with this identifier.
fn authentic(station: &Station, id: u8, digest: [u8; 16]) -> Option<u32> {
    station.keys().authentic(&packet(id, digest))
}

#[test]
fn the_keys_of_a_station(rt: HostRuntime) {
    let station = station_of(&rt, rt.alloc(), TWO_KEYS);
    same(&rt, authentic(&station, 7, OF_LONGWAVE), Some(7));
    same(&rt, authentic(&station, 2, OF_SHORTWAVE), Some(2));
    same(&rt, authentic(&station, 2, OF_LONGWAVE), None);
    same(&rt, authentic(&station, 1, OF_LONGWAVE), None);
    let station = station_of(&rt, rt.alloc(), b"");
    same(&rt, authentic(&station, 7, OF_LONGWAVE), None);
}
