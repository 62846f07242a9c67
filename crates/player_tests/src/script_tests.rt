// What lines give after the lines before them, and the page that is kept of them.
ghost use Rattle.std.specs.Prelude.{◌≡◌, ◌≤◌, ◌^◌};
ghost use Rattle.station_gear.specs.Racks.{IsRack};
ghost use Rattle.replay_command.specs.KeptPlayer.{IsReady};

use crate::shared::same;
use clock_page::Page;
use journal_entry::LINE_ROOM;
use memory_outside::{NOON, REQUEST_DIGITS};
use radio_receiver::{DcfReceiver, MsfReceiver, Receiver, WwvbReceiver};
use replay_command::{BoxedReceiver, Invalid, Outcome, Player, write_outcome};
use script_line::read_line;
use station_gear::put_in_rack;
use station_reader::read_station;
use station_values::Station;
use std::alloc::{AllocError, Global};
use std::process::Abort;
use tick_units::{Plan, Short, Stamp};

// The result of a script: the text of its lines, the numbers of the invalid ones, and what is kept of its entries.
#[derive(Drop)]
pub struct Played {
    pub text: String,
    pub page: Page,
    pub is_full: bool,
}

// The receivers of each plan.
const OF_A_PLAN: usize = 4;

// Plays a script with four receivers of each plan.
fn play(alloc: Global, station: &Station, limit: u16, script: &str) -> Result<Played, AllocError> {
    let mut rack: Vec<BoxedReceiver> = Vec::new(alloc);
    for _ in 0..OF_A_PLAN {
        put_in_rack(&mut rack, Box::new(alloc, DcfReceiver::new())?, Plan::Dcf)?;
        put_in_rack(&mut rack, Box::new(alloc, MsfReceiver::new())?, Plan::Msf)?;
        put_in_rack(&mut rack, Box::new(alloc, WwvbReceiver::new())?, Plan::Wwvb)?;
    }
    play_with(alloc, rack, station, u32::from(limit), script)
}

// Plays a script with the receivers of a rack.
fn play_with(
    alloc: Global,
    rack: Vec<BoxedReceiver>,
    station: &Station,
    limit: u32,
    script: &str,
) -> Result<Played, AllocError>
    requires rack { IsRack stands_for rack.items }
    requires limit { limit ≤ 2 ^ 22 }
{
    let mut player = Player::new(alloc, station, rack, limit)?;
    let text = play_lines(alloc, &mut player, script)?;
    Ok(Played {
        text,
        page: player.page(),
        is_full: player.is_full(),
    })
}

// The text of each line of a script that is valid, and the number of each that is not.
fn play_lines(
    alloc: Global,
    player: &mut Player<BoxedReceiver>,
    script: &str,
) -> Result<String, AllocError>
    requires { IsReady least_start player.old }
{
    let mut text = String::new(alloc);
    let mut number = 0u32;
    for words in script.lines() {
        number = number.saturating_add(1);
        let Some(line) = read_line(words.as_bytes()) else {
            text.push_str("no line of a script")?;
            continue;
        };
        match player.play(&line) {
            Ok(outcome) => write_line(&mut text, &outcome),
            Err(Invalid) => {
                let _ = write!(text, "{number} is not valid\n");
            }
        }
    }
    Ok(text)
}

// Adds the line of an outcome to a text.
fn write_line(text: &mut String, outcome: &Outcome) {
    let mut room = [0; LINE_ROOM];
    let length = write_outcome(outcome, &mut room);
    if let Some(line) = room.get(..length) {
        let _ = text.push_str(str::from_utf8(line).unwrap_or("no text"));
    }
}

// The same for the text of a station.
pub fn outcome_of(
    rt: &impl Abort,
    alloc: Global,
    station: &str,
    limit: u16,
    script: &str,
) -> Played {
    let Ok(station) = read_station(alloc, station.as_bytes()) else {
        panic!(*rt; "no station");
    };
    play(alloc, &station, limit, script).expect(rt, "no memory")
}

const MANY: u16 = 1000;

const DCF: &str = "[[radio]]\nplan = \"dcf\"\nlog = \"log\"\n";

const SERVER: &str = "[[server]]\naddress = \"127.0.0.1\"\nport = 123\n";

// These texts one after the other. Where memory is short, the result is not what the test wants.
pub fn joined(alloc: Global, parts: &[&str]) -> String {
    let mut text = String::new(alloc);
    for part in parts {
        let _ = text.push_str(part);
    }
    text
}

// A script gives this text.
pub fn gives(rt: &impl Abort, alloc: Global, station: &str, script: &str, want: &str) {
    let played = outcome_of(rt, alloc, station, MANY, script);
    same(rt, played.text.as_str(), want);
    same(rt, played.is_full, false);
}

// The same where each of the three is made of parts.
fn parts_give(rt: &impl Abort, alloc: Global, station: &[&str], script: &[&str], want: &[&str]) {
    let station = joined(alloc, station);
    let script = joined(alloc, script);
    let want = joined(alloc, want);
    gives(rt, alloc, station.as_str(), script.as_str(), want.as_str());
}

const DELAYED: &str = "[[radio]]\nplan = \"dcf\"\nlog = \"log\"\ndelay = 1400\n";

const MARKS_TO_2_S: &str = "pulse 0 0 100000\npulse 0 2000000 100000\n";

const MARKS_FROM_4_S: &str =
    "pulse 0 4000000 100000\npulse 0 6000000 100000\npulse 0 8000000 100000\n";

const ALL_REFUSED: &str =
    "j2 1 0 0 3998600 refused 3\nj2 2 0 0 5998600 refused 3\nj2 3 0 0 7998600 refused 3\n";

const LAST_REFUSED: &str = "j2 1 0 0 7998600 refused 3\n";

// Minute marks with no second between them: each of them closes a segment of one mark, which the third rule of DCF77 refuses.
// After the swap the mark at 4 s has none before it, and the one at 6 s is the first that begins a minute.
#[test]
fn a_swap_loses_what_was_heard_and_keeps_the_delay(rt: HostRuntime) {
    let alloc = rt.alloc();
    let marks = [MARKS_TO_2_S, MARKS_FROM_4_S];
    parts_give(&rt, alloc, &[DELAYED], &marks, &[ALL_REFUSED]);
    let marks = [MARKS_TO_2_S, "swap 0\n", MARKS_FROM_4_S];
    parts_give(&rt, alloc, &[DELAYED], &marks, &[LAST_REFUSED]);
}

// Two radios of DCF77 leave two receivers for swaps, whichever of them is swapped, and one radio of MSF leaves three.
#[test]
fn a_plan_has_four_receivers(rt: HostRuntime) {
    let station = [DCF, DCF, "[[radio]]\nplan = \"msf\"\nlog = \"log\"\n"];
    let script = "swap 0\nswap 1\nswap 0\nswap 2\nswap 2\nswap 2\nswap 2\nswap 1\n";
    let want = "3 is not valid\n7 is not valid\n8 is not valid\n";
    parts_give(&rt, rt.alloc(), &station, &[script], &[want]);
}

#[test]
fn pulses_of_a_feed_rise_over_swaps_too(rt: HostRuntime) {
    let script =
        "pulse 0 2000000 1\npulse 0 2000000 1\npulse 0 1999999 1\npulse 1 1000000 1\nswap 0\npulse 0 2000000 1\npulse 0 2000001 1\n";
    let want = "2 is not valid\n3 is not valid\n6 is not valid\n";
    parts_give(&rt, rt.alloc(), &[DCF, DCF], &[script], &[want]);
}

// What follows the place and the moment of the answer to a request that was made at 1 s.
const ANSWER: &str =
    " 240206ec00000100000002000a00000100000000000000008000000100000000ed00e13100000000ed00e1310020c49b\n";

const ASKED: &str =
    "asked 230006ec0000000000000000000000000000000000000000000000000000000000000000000000008000000100000000\n";

const SAMPLE: &str =
    "j2 1 0 0 1010000 sample 17077897383243199545 40802189 8837 2 7f000001 256 512\n";

const ASKED_AGAIN: &str =
    "asked 230006ec00000000000000000000000000000000000000000000000000000000000000000000000080000001028f5c28\n";

// What a server is asked, and its answers.
const FALLING: [&str; 11] = [
    "ask 0 1000000\nask 0 999999\n",
    "answer 0 999999",
    ANSWER,
    "answer 0 1010000",
    ANSWER,
    "ask 0 1009999\n",
    "answer 0 1009999",
    ANSWER,
    "answer 0 1010000",
    ANSWER,
    "ask 0 1010000\n",
];

const OF_FALLING: [&str; 5] = [
    ASKED,
    "2 is not valid\n3 is not valid\n",
    SAMPLE,
    "5 is not valid\n6 is not valid\nj2 2 0 0 1010000 declined 3\n",
    ASKED_AGAIN,
];

#[test]
fn moments_of_a_server_do_not_fall(rt: HostRuntime) {
    parts_give(&rt, rt.alloc(), &[SERVER], &FALLING, &OF_FALLING);
}

const OF_OTHER_FEEDS: &str =
    "pulse 1 1 1\npulse 2 1 1\nask 0 1\nask 2 1\nanswer 0 1 00\nanswer 2 1 00\nswap 1\nswap 2\npulse 4294967295 1 1\nask 4294967295 1\n";

const INVALID: &str =
    "1 is not valid\n2 is not valid\n3 is not valid\n4 is not valid\n5 is not valid\n6 is not valid\n7 is not valid\n\
8 is not valid\n9 is not valid\n10 is not valid\n";

// Feed 0 is a radio, feed 1 a server, and there is no other.
#[test]
fn lines_of_other_feeds_are_not_valid(rt: HostRuntime) {
    let script = [
        OF_OTHER_FEEDS,
        "request 7 1 1 00\npulse 0 1 1\nanswer 1 1 00\n",
    ];
    let want = [INVALID, "drop short\nj2 1 0 1 1 declined 2\n"];
    parts_give(&rt, rt.alloc(), &[DCF, SERVER], &script, &want);
}

// A page is of this many entries, the latest of this moment.
pub fn keeps(rt: &impl Abort, page: &Page, length: u64, anchor: u64) {
    same(rt, page.length, length);
    same(rt, page.anchor.get(), anchor);
}

const TO_A_FULL_JOURNAL: [&str; 6] = [
    "ask 0 1000000\n",
    "answer 0 1010000",
    ANSWER,
    "answer 0 2000000",
    ANSWER,
    "ask 0 1999999\n",
];

// With a journal of this size a server's script gives this text, and this is kept.
fn drops_what_is_due(
    rt: &impl Abort,
    alloc: Global,
    limit: u16,
    want: &[&str],
    is_full: bool,
    anchor: u64,
) {
    let script = joined(alloc, &TO_A_FULL_JOURNAL);
    let want = joined(alloc, want);
    let played = outcome_of(rt, alloc, SERVER, limit, script.as_str());
    same(rt, played.text.as_str(), want.as_str());
    same(rt, (limit, played.is_full), (limit, is_full));
    keeps(rt, &played.page, u64::from(limit), anchor);
}

const DECLINED: &str = "j2 2 0 0 2000000 declined 3\n";

const FOURTH: &str = "4 is not valid\n";

// An entry that is dropped counts for its server all the same: the server's moment stays.
#[test]
fn a_full_journal_drops_what_is_due(rt: HostRuntime) {
    let alloc = rt.alloc();
    let none = [ASKED, FOURTH];
    drops_what_is_due(&rt, alloc, 0, &none, true, 0);
    let one = [ASKED, SAMPLE, FOURTH];
    drops_what_is_due(&rt, alloc, 1, &one, true, 1_010_000);
    let both = [ASKED, SAMPLE, DECLINED, FOURTH];
    drops_what_is_due(&rt, alloc, 2, &both, false, 2_000_000);
}

// The pulses of a frame.
fn frame(script: &mut String, ones: &[usize], start: u64) {
    for place in 0..59usize {
        let at = start.saturating_add(1_000_000u64.saturating_mul(place as u64));
        let width = if ones.contains(&place) {
            200_000
        } else {
            100_000
        };
        let _ = writeln!(script, "pulse 0 {at} {width}");
    }
}

// The pulses of five minutes.
fn minutes(script: &mut String, all: &[&[usize]]) {
    let _ = script.push_str("pulse 0 0 100000\n");
    let mut start = 2_000_000u64;
    for ones in all {
        frame(script, ones, start);
        start = start.saturating_add(60_000_000);
    }
}

// The pulses of five minutes, up to the one that closes the last, and what follows them.
pub fn noon(alloc: Global, further: &[&str]) -> String {
    let mut script = String::new(alloc);
    minutes(&mut script, &NOON);
    let _ = script.push_str("pulse 0 302000000 100000\n");
    for part in further {
        let _ = script.push_str(part);
    }
    script
}

const ENTRIES: &str =
    "j2 1 0 0 62000000 lone 3976257600\nj2 2 0 0 122000000 verdict 3976257660 0\nj2 3 0 0 182000000 verdict 3976257720 0\nj2 4 0 0 242000000 verdict 3976257780 0\n\
reply e40006ec0000000000100000494e4954000000000000000011223344556677880000012e000000000000012e00000000\n\
j2 5 0 0 302000000 verdict 3976257840 0\n\
reply 240106ec000000000000f06744434600ed00e130000000001122334455667788ed00e13100000000ed00e1310020c49b\n";

// The pulses of five minutes. One request comes before the pulse that closes the fifth frame, and one after it.
fn requests_at_noon(alloc: Global) -> String {
    let mut script = String::new(alloc);
    minutes(&mut script, &NOON);
    let _ = script.push_str("request 0 302000000 302000000 ");
    let _ = script.push_str(REQUEST_DIGITS);
    let _ = script.push_str("\npulse 0 302000000 100000\nrequest 0 303000000 303000500 ");
    let _ = script.push_str(REQUEST_DIGITS);
    let _ = script.push_str("\n");
    script
}

#[test]
fn a_reply_is_of_the_entries_so_far(rt: HostRuntime) {
    let script = requests_at_noon(rt.alloc());
    let played = outcome_of(&rt, rt.alloc(), DCF, MANY, script.as_str());
    same(&rt, played.text.as_str(), ENTRIES);
    is_of_noon(&rt, &played.page, 5, 0);
}

// The requests are followed by an identifier and MD5 of `longwave` and the request, by Python's `hashlib`, once with its last
// byte changed. The first reply ends with MD5 of `longwave` and its own header.
const SEALED: &str =
    "j2 1 0 0 62000000 lone 3976257600\nj2 2 0 0 122000000 verdict 3976257660 0\nj2 3 0 0 182000000 verdict 3976257720 0\nj2 4 0 0 242000000 verdict 3976257780 0\n\
j2 5 0 0 302000000 verdict 3976257840 0\n\
reply 240106ec000000000000f06744434600ed00e130000000001122334455667788ed00e13100000000ed00e1310020c49b00000001c6347df5e2b59807072bd69b399065c3\n\
reply 240106ec000000000000f06744434600ed00e130000000001122334455667788ed00e13100000000ed00e1310020c49b\n\
reply 240106ec000000000000f06744434600ed00e130000000001122334455667788ed00e13100000000ed00e1310020c49b\n";

const SEALED_REQUESTS: [&str; 9] = [
    "request 0 303000000 303000500 ",
    REQUEST_DIGITS,
    "00000001b408cf70f4de3798e713f31a2a885f12\n",
    "request 0 303000000 303000500 ",
    REQUEST_DIGITS,
    "00000001b408cf70f4de3798e713f31a2a885fed\n",
    "request 0 303000000 303000500 ",
    REQUEST_DIGITS,
    "00000002b408cf70f4de3798e713f31a2a885f12\n",
];

const WITH_A_KEY: &str =
    "[[radio]]\nplan = \"dcf\"\nlog = \"log\"\n[[key]]\nid = 1\nsecret = \"longwave\"\n";

#[test]
fn a_reply_is_sealed_as_its_request_is(rt: HostRuntime) {
    let script = noon(rt.alloc(), &SEALED_REQUESTS);
    let played = outcome_of(&rt, rt.alloc(), WITH_A_KEY, MANY, script.as_str());
    same(&rt, played.text.as_str(), SEALED);
}

// The page that docs/PAGE.md works out, after this many entries, and with this leap second.
pub fn is_of_noon(rt: &impl Abort, page: &Page, length: u64, leap_at: u64) {
    same(rt, page.length, length);
    same(rt, page.sync, true);
    same(rt, page.stratum, 1);
    same(rt, page.refid, 0x4443_4600);
    same(rt, page.offset.get(), 17_077_896_086_183_477_248);
    same(rt, page.anchor.get(), 302_000_000);
    same(rt, page.until, 4_364_906_902);
    same(rt, page.root_delay, Short(0));
    same(rt, page.root_disp, Short(61_542));
    same(rt, page.reftime, Stamp(0xed00_e130_0000_0000));
    same(rt, page.leap_at, leap_at);
    same(rt, page.rate, 0);
}
