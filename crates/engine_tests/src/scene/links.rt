// The links of a scene: what each receives, and what it has sent.
use crate::scene::Unplayed;
use crate::scene::made::add_hex;
use crate::scene::texts::{Words, number};
use memory_outside::{ANSWER_DIGITS, LinkEvent, MemoryLink, Planned, REQUEST_DIGITS};
use outside_traits::Address;
use std::alloc::Global;
use tick_units::Local;

// The reply to it from the page of five minutes, where it came and was answered at 303 s, which is 12:04:01 UTC.
const REPLY: &str =
    "240106ec000000000000f06744434600ed00e130000000001122334455667788ed00e13100000000ed00e13100000000";

// What a link is to receive, the moments that it gives, and the numbers of its calls that fail.
#[derive(Drop)]
struct Plan {
    hearings: Vec<Planned>,
    moments: Vec<Local>,
    fails: Vec<u64>,
}

impl Plan {
    // Adds what a line of the link says.
    fn add(&mut self, alloc: Global, line: &str) -> Result<(), Unplayed> {
        let mut words = Words::of(line);
        match words.word() {
            "at" => self.add_moment(words.number()?)?,
            "hears" => self.add_datagrams(alloc, words)?,
            "fails" if words.word() == "link" => self.fails.push(words.number()?)?,
            _ => {}
        }
        Ok(())
    }

    fn add_moment(&mut self, microseconds: u64) -> Result<(), Unplayed> {
        let Some(moment) = Local::new(microseconds) else {
            return Err(TOO_LATE);
        };
        self.moments.push(moment)?;
        Ok(())
    }

    fn add_datagrams(&mut self, alloc: Global, words: Words<'_>) -> Result<(), Unplayed> {
        let mut words = words;
        let count = words.number()?;
        let from = address(words.word())?;
        let Some(at) = Local::new(words.number()?) else {
            return Err(TOO_LATE);
        };
        for _ in 0..count {
            let bytes = datagram(alloc, words.left)?;
            self.hearings.push(Planned::Datagram { from, at, bytes })?;
        }
        Ok(())
    }
}

const TOO_LATE: Unplayed = Unplayed::Wrong("a moment is too late");

// Who sends and receives.
fn address(name: &str) -> Result<Address, Unplayed> {
    let (ip, port) = match name {
        "server" => (0x7f00_0001, 123),
        "client" => (0x7f00_0001, 5000),
        "stranger" => (0x7f00_0001, 124),
        "second" => (0x7f00_0002, 5000),
        "third" => (0x7f00_0003, 5000),
        _ => return Err(Unplayed::Wrong("nobody has this name")),
    };
    Ok(Address { ip, port })
}

/// The bytes that these words spell, one after the other: a request, an answer, the reply to the request at 303 s, or hexadecimal digits, which
/// `+` and a number of zeros may follow.
pub fn datagram(alloc: Global, words: &str) -> Result<Vec<u8>, Unplayed> {
    let mut bytes = Vec::new(alloc);
    for word in words.split(' ') {
        let (digits, zeros) = word.split_once('+').unwrap_or((word, "0"));
        let digits = match digits {
            "request" => REQUEST_DIGITS,
            "answer" => ANSWER_DIGITS,
            "reply" => REPLY,
            _ => digits,
        };
        add_hex(&mut bytes, digits)?;
        add_zeros(&mut bytes, number(zeros)?)?;
    }
    Ok(bytes)
}

fn add_zeros(bytes: &mut Vec<u8>, count: u64) -> Result<(), Unplayed> {
    for _ in 0..count {
        bytes.push(0)?;
    }
    Ok(())
}

// The link of this number, counted from 1, or None where the scene has fewer.
fn link(alloc: Global, scene: &str, number: u64) -> Result<Option<MemoryLink>, Unplayed> {
    let mut plan = Plan {
        hearings: Vec::new(alloc),
        moments: Vec::new(alloc),
        fails: Vec::new(alloc),
    };
    let mut count = 0u64;
    for line in scene.lines() {
        if line.trim_ascii() == "link" {
            count = count.saturating_add(1);
        } else if count == number {
            plan.add(alloc, line)?;
        }
    }
    if count < number {
        return Ok(None);
    }
    let link = MemoryLink::new(alloc, plan.hearings, plan.moments, plan.fails, 60, 6000)?;
    Ok(Some(link))
}

// The most links of a scene.
const MOST: u64 = 8;

/// The links of a scene.
pub fn links(alloc: Global, scene: &str) -> Result<Vec<MemoryLink>, Unplayed> {
    let mut links = Vec::new(alloc);
    for number in 1..=MOST {
        if let Some(link) = link(alloc, scene, number)? {
            links.push(link)?;
        }
    }
    Ok(links)
}

/// How many datagrams a link has sent to somebody.
pub fn count_sent(link: &MemoryLink, name: &str) -> Result<usize, Unplayed> {
    let client = address(name)?;
    let mut count = 0usize;
    for place in 0..link.count() {
        if let Some(LinkEvent::Sent { to, .. }) = link.event(place) {
            if to == client {
                count = count.saturating_add(1);
            }
        }
    }
    Ok(count)
}

/// The datagram of this number, counted from 1, that a link has sent to somebody.
pub fn sent_to<'a>(link: &'a MemoryLink, name: &str, number: usize) -> Result<&'a [u8], Unplayed> {
    let client = address(name)?;
    let mut count = 0usize;
    for place in 0..link.count() {
        if let Some(LinkEvent::Sent { to, bytes }) = link.event(place) {
            if to == client {
                count = count.saturating_add(1);
                if count == number {
                    return Ok(bytes);
                }
            }
        }
    }
    Err(Unplayed::Wrong("a datagram isn't sent"))
}

/// What the events of a link are, in order.
pub fn kinds(alloc: Global, link: &MemoryLink) -> Result<String, Unplayed> {
    let mut kinds = String::new(alloc);
    for place in 0..link.count() {
        kinds.push_str(match link.event(place) {
            Some(LinkEvent::Datagram { .. }) => " heard",
            Some(LinkEvent::Quiet) => " quiet",
            Some(LinkEvent::Moment(_)) => " moment",
            Some(LinkEvent::Sent { .. }) => " sent",
            Some(LinkEvent::End) | None => " end",
        })?;
    }
    Ok(kinds)
}
