// Lines that a scene does not spell out.
use crate::scene::Unplayed;
use crate::scene::texts::Words;
use memory_outside::NOON;
use std::alloc::{AllocError, Global};

/// Adds what a made line stands for:
///
/// - `noon FROM TO`: the marks from one second to another of a log that has a mark at 0, the frames of 1 January 2026 from 12:00 UTC on,
///   the first of which begins at 2 s, and the mark that closes the fifth
/// - `dcf START SPACING FROM TO ONES`: marks of a frame of DCF77, so far apart, of which those at these places are One
/// - `msf START APART FROM TO ONES / ONES`: marks of a frame of MSF with the places of bit A and of bit B; where B alone is One, its two parts
///   are so far apart
/// - `wwvb START ONES`: a frame of WWVB
/// - `pulse RADIO` and one of these: the same as lines of a script
/// - `request CONNECTION ARRIVED SENT FIRST MORE`: the line of a script with a request of this first byte, and this many zeros after it
/// - `lines COUNT TEXT`: a line so often
/// - `repeat COUNT TEXT`, `hex BYTES`: without a line feed
pub fn add_made(alloc: Global, text: &mut Vec<u8>, line: &str) -> Result<(), Unplayed> {
    let mut made = String::new(alloc);
    if let Some((prefix, marks)) = line.split_at_checked(8)
        && prefix.starts_with("pulse ")
    {
        add_marks(&mut made, prefix, Words::of(marks))?;
    } else if let Some(request) = line.strip_prefix("request ") {
        add_request(&mut made, Words::of(request))?;
    } else if let Some(repeated) = line.strip_prefix("repeat ") {
        add_repeated(&mut made, Words::of(repeated), "")?;
    } else if let Some(repeated) = line.strip_prefix("lines ") {
        add_repeated(&mut made, Words::of(repeated), "\n")?;
    } else if let Some(bytes) = line.strip_prefix("hex ") {
        add_hex(text, bytes)?;
    } else {
        add_marks(&mut made, "", Words::of(line))?;
    }
    text.extend_from_slice(made.as_bytes())?;
    Ok(())
}

// Adds marks of a frame, each in a line with this prefix.
fn add_marks(text: &mut String, prefix: &str, words: Words<'_>) -> Result<(), Unplayed> {
    let mut words = words;
    match words.word() {
        "noon" => add_noon(text, prefix, words.number()?, words.number()?)?,
        "dcf" => add_dcf(text, prefix, words)?,
        "msf" => add_msf(text, prefix, words)?,
        "wwvb" => add_wwvb(text, prefix, words)?,
        _ => return Err(Unplayed::Wrong("no such lines can be made")),
    }
    Ok(())
}

// The width of the mark of the log of noon at a second, or 0 where it has none.
fn width_at(second: u64) -> u32 {
    let Some(past) = second.checked_sub(2) else {
        return if second == 0 { 100_000 } else { 0 };
    };
    let (frame, place) = (past / 60, past % 60);
    let ones = NOON.get(frame as usize).map_or(&[][..], |ones| *ones);
    if place == 59 || frame > 5 || (frame == 5 && place > 0) {
        0
    } else if ones.contains(&(place as usize)) {
        200_000
    } else {
        100_000
    }
}

fn add_noon(text: &mut String, prefix: &str, from: u64, to: u64) -> Result<(), AllocError> {
    for second in from..=to {
        let width = width_at(second);
        if width > 0 {
            let at = second.saturating_mul(1_000_000);
            writeln!(text, "{prefix}{at} {width}")?;
        }
    }
    Ok(())
}

// Whether a list of numbers has this one.
fn has(list: &str, number: u64) -> bool {
    for word in list.split(' ') {
        if word.parse() == Ok(number) {
            return true;
        }
    }
    false
}

// The moment of a place.
fn moment(start: u64, spacing: u64, place: u64) -> u64 {
    start.saturating_add(spacing.saturating_mul(place))
}

fn add_dcf(text: &mut String, prefix: &str, words: Words<'_>) -> Result<(), Unplayed> {
    let mut words = words;
    let start = words.number()?;
    let spacing = words.number()?;
    let from = words.number()?;
    let to = words.number()?;
    for place in from..=to {
        let at = moment(start, spacing, place);
        let width = if has(words.left, place) { 2 } else { 1 };
        writeln!(text, "{prefix}{at} {width}00000")?;
    }
    Ok(())
}

fn add_msf(text: &mut String, prefix: &str, words: Words<'_>) -> Result<(), Unplayed> {
    let mut words = words;
    let start = words.number()?;
    let apart = words.number()?;
    let from = words.number()?;
    let to = words.number()?;
    let (a, b) = words
        .left
        .split_once(" / ")
        .ok_or(Unplayed::Wrong("bit B is missing"))?;
    for place in from..=to {
        let at = moment(start, 1_000_000, place);
        let width = match (place, has(a, place), has(b, place)) {
            (0, _, _) => 5,
            (_, true, true) => 3,
            (_, true, false) => 2,
            (_, false, _) => 1,
        };
        writeln!(text, "{prefix}{at} {width}00000")?;
        if width == 1 && has(b, place) {
            let second = at.saturating_add(apart);
            writeln!(text, "{prefix}{second} 100000")?;
        }
    }
    Ok(())
}

fn add_wwvb(text: &mut String, prefix: &str, words: Words<'_>) -> Result<(), Unplayed> {
    let mut words = words;
    let start = words.number()?;
    for place in 0..60u64 {
        let at = moment(start, 1_000_000, place);
        let width = if place == 0 || place % 10 == 9 {
            8
        } else if has(words.left, place) {
            5
        } else {
            2
        };
        writeln!(text, "{prefix}{at} {width}00000")?;
    }
    Ok(())
}

// A request: its first byte, a poll of 64 s, zeros, the transmit timestamp 1122334455667788, and more zeros.
fn add_request(text: &mut String, words: Words<'_>) -> Result<(), Unplayed> {
    let mut words = words;
    let connection = words.number()?;
    let arrived = words.number()?;
    let sent = words.number()?;
    let first = words.word();
    let more = words.number()?;
    write!(text, "request {connection} {arrived} {sent} {first}0006ec")?;
    add_zeros(text, 36)?;
    text.push_str("1122334455667788")?;
    add_zeros(text, more)?;
    text.push_str("\n")?;
    Ok(())
}

fn add_zeros(text: &mut String, count: u64) -> Result<(), AllocError> {
    for _ in 0..count {
        text.push_str("00")?;
    }
    Ok(())
}

fn add_repeated(text: &mut String, words: Words<'_>, end: &str) -> Result<(), Unplayed> {
    let mut words = words;
    let count = words.number()?;
    for _ in 0..count {
        text.push_str(words.left)?;
        text.push_str(end)?;
    }
    Ok(())
}

/// Adds the bytes that hexadecimal digits spell.
pub fn add_hex(bytes: &mut Vec<u8>, digits: &str) -> Result<(), Unplayed> {
    for pair in digits.as_bytes().chunks(2) {
        let byte = match std::str::from_utf8(pair) {
            Ok(pair) => u8::from_str_radix(pair, 16),
            Err(_) => return Err(NO_BYTE),
        };
        match byte {
            Ok(byte) => bytes.push(byte)?,
            Err(_) => return Err(NO_BYTE),
        }
    }
    Ok(())
}

const NO_BYTE: Unplayed = Unplayed::Wrong("two hexadecimal digits are due");
