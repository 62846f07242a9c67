//! Logs of DCF77 in which every expected value is from outside. The frames are by PTB's table, of 1 January 2026, 13:00 and
//! 13:01. Their seconds since 1900 are 3976257600 and 3976257660.
ghost use Rattle.std.specs.Prelude.{◌≡◌, ◌≤◌};
ghost use Rattle.radio_receiver.specs.Decoding.{IsReady};

use crate::shared::same;
use journal_entry::{ENTRY_ROOM, Entry, write_entry};
use memory_outside::{NOON_0, NOON_1};
use pulse_log::{BadLine, Taken};
use radio_receiver::{BoxedReceiver, DcfReceiver, LOG_LIMIT, LogDecoder, Receiver};
use std::alloc::Global;
use std::process::Abort;
use std::test::Fail;

// The lines of a frame that starts at this microsecond.
fn add_frame(text: &mut String, ones: &[usize], start: u64) -> Result<(), Fail> {
    for place in 0..59usize {
        let at = start.saturating_add(1_000_000u64.saturating_mul(place as u64));
        let width = if ones.contains(&place) {
            200_000
        } else {
            100_000
        };
        writeln!(text, "{at} {width}")?;
    }
    Ok(())
}

fn two_frames(alloc: Global) -> Result<String, Fail> {
    let mut text = String::from_str(alloc, "0 100000\n")?;
    add_frame(&mut text, &NOON_0, 2_000_000)?;
    add_frame(&mut text, &NOON_1, 62_000_000)?;
    text.push_str("122000000 100000\n")?;
    Ok(text)
}

// Adds the line of an entry to a text.
fn add_line(text: &mut Vec<u8>, entry: &Entry) -> Result<(), Fail> {
    let mut line = [0; ENTRY_ROOM];
    let length = write_entry(entry, &mut line);
    text.extend_from_slice(&line[..length])?;
    text.push(b'\n')?;
    Ok(())
}

// The lines of the entries of a log, and its bad line.
fn decoded<R: Receiver>(
    decoder: LogDecoder<R>,
    bytes: &[u8],
    text: &mut Vec<u8>,
) -> Result<Result<(), BadLine>, Fail>
    requires { IsReady R.least_start decoder }
{
    let mut decoder = decoder;
    let mut rest = bytes;
    'rest: while !rest.is_empty() {
        let Taken { count, found } = decoder.next_entry(rest);
        match found {
            Ok(Some(entry)) => add_line(text, &entry)?,
            Ok(None) => {}
            Err(bad) => return Ok(Err(bad)),
        }
        rest = rest.split_at(count).1;
    }
    Ok(decoder.finish())
}

// A receiver that has received nothing, with a path delay.
fn fitted(receiver: BoxedReceiver, delay_us: u32) -> BoxedReceiver
    requires blank { least_start receiver ≡ 0 }
    requires delay { delay_us ≤ 100000 }
    ensures { least_start result ≡ 0 }
{
    let mut receiver = receiver;
    receiver.fit(delay_us);
    receiver
}

// The text of a log of DCF77 for a feed, with a path delay, and its bad line.
fn text_of(
    alloc: Global,
    feed: u32,
    delay_us: u32,
    bytes: &[u8],
) -> Result<(Vec<u8>, Result<(), BadLine>), Fail>
    requires { delay_us ≤ 100000 }
{
    let receiver = fitted(Box::new(alloc, DcfReceiver::new())?, delay_us);
    let mut text = Vec::new(alloc);
    let end = decoded(LogDecoder::new(feed, receiver), bytes, &mut text)?;
    Ok((text, end))
}

#[test]
fn each_minute_is_an_entry_of_the_feed_less_the_delay(rt: HostRuntime) -> Result<(), Fail> {
    let log = two_frames(rt.alloc())?;
    let (text, end) = text_of(rt.alloc(), 3, 2_500, log.as_bytes())?;
    same(&rt, end, Ok(()));
    same(
        &rt,
        text.as_slice(),
        b"3 61997500 lone 3976257600\n3 121997500 verdict 3976257660 0\n",
    );
    Ok(())
}

// A log that gives no entry, and how it ends.
type Row<'a> = (&'a str, Result<(), BadLine>);

const SHORT: [Row<'static>; 4] = [
    ("0 100000\n0 100000\n5 100000\n", Err(BadLine { line: 2 })),
    ("0 100000\n7 100000", Err(BadLine { line: 2 })),
    ("0 100000\n7 100000\n", Ok(())),
    ("", Ok(())),
];

fn ends(rt: &impl Abort, alloc: Global, row: &Row<'_>) -> Result<(), Fail> {
    let (log, want) = *row;
    let (text, end) = text_of(alloc, 0, 0, log.as_bytes())?;
    same(rt, (log, text.len(), end), (log, 0, want));
    Ok(())
}

fn all_end(rt: &impl Abort, alloc: Global, rows: &[Row<'_>]) -> Result<(), Fail> {
    for row in rows {
        ends(rt, alloc, row)?;
    }
    Ok(())
}

#[test]
fn a_bad_line_ends_the_log(rt: HostRuntime) -> Result<(), Fail> {
    all_end(&rt, rt.alloc(), &SHORT)
}

// The lines of the entries of feed 3, by a receiver whose type is known, and the bad line.
fn decoded_by<R: Receiver>(
    receiver: Box<R>,
    bytes: &[u8],
    text: &mut Vec<u8>,
) -> Result<Result<(), BadLine>, Fail>
    requires { R.least_start receiver.value ≡ 0 }
{
    decoded(LogDecoder::new(3, Box::into_inner(receiver)), bytes, text)
}

// The text of a log of DCF77 for feed 3, by a receiver of a known type, and its bad line.
fn known_text_of(alloc: Global, bytes: &[u8]) -> Result<(Vec<u8>, Result<(), BadLine>), Fail> {
    let receiver = Box::new(alloc, DcfReceiver::new())?;
    let mut text = Vec::new(alloc);
    let end = decoded_by(receiver, bytes, &mut text)?;
    Ok((text, end))
}

fn ends_known(rt: &impl Abort, alloc: Global, row: &Row<'_>) -> Result<(), Fail> {
    let (log, want) = *row;
    let (text, end) = known_text_of(alloc, log.as_bytes())?;
    same(rt, (log, text.len(), end), (log, 0, want));
    Ok(())
}

fn all_end_known(rt: &impl Abort, alloc: Global, rows: &[Row<'_>]) -> Result<(), Fail> {
    for row in rows {
        ends_known(rt, alloc, row)?;
    }
    Ok(())
}

fn gives_minutes(rt: &impl Abort, alloc: Global) -> Result<(), Fail> {
    let log = two_frames(alloc)?;
    let (text, end) = known_text_of(alloc, log.as_bytes())?;
    same(rt, end, Ok(()));
    same(
        rt,
        text.as_slice(),
        b"3 62000000 lone 3976257600\n3 122000000 verdict 3976257660 0\n",
    );
    Ok(())
}

#[test]
fn a_receiver_of_a_known_type_gives_the_same_entries(rt: HostRuntime) -> Result<(), Fail> {
    gives_minutes(&rt, rt.alloc())?;
    all_end_known(&rt, rt.alloc(), &SHORT)
}

// What docs/FORMATS.md gives a log.
#[test]
fn a_log_may_have_two_to_the_thirty_bytes(rt: HostRuntime) {
    same(&rt, LOG_LIMIT, 1_073_741_824);
}
