//! What a run says on standard error: what came of it, and what its arguments and its files say, put together and written.

use crate::{
    BadLine, Detail, LineSeeker, Message, NO_MINUTE, SAMPLE_BYTES, TomlFault, file_named, file_of,
    is_leap_file, no_minute_text, toml_fault,
};
use command_ends::{Ending, MANY_DIFFER, Minutes, Outcome, Report, STATION_LIMIT, Subject};
use command_words::{Command, WordsFault};
use host_links::Refusal;
use station_reader::{StationFault, read_station};
use station_values::Station;
use std::alloc::Global;
use std::fs::{self, Files};
use std::io::{Eprint, Read};
use tick_units::Plan;

// The most bytes of a file that are looked at for its bad line.
const PIECE: usize = 4096;

// The first bytes of a file. A pipe is not read a second time, since it gives its bytes once.
fn beginning_of_file<R: Files + AllocGlobal>(rt: &R, name: &str, most: u64) -> Option<Vec<u8>> {
    if !fs::metadata(rt, name).ok()?.is_file() {
        return None;
    }
    let mut bytes = Vec::new(rt.alloc());
    let file = fs::open(rt, name).ok()?;
    file.take(most).read_to_end(&mut bytes).ok()?;
    Some(bytes)
}

// The station of a file of this name.
pub(crate) fn station_of<R: Files + AllocGlobal>(rt: &R, name: &str) -> Option<Station> {
    let text = beginning_of_file(rt, name, STATION_LIMIT as u64)?;
    read_station(rt.alloc(), text.as_slice()).ok()
}

/// The command that the arguments ask for, or why they ask for none.
type Asked<'a> = Result<Command<'a>, WordsFault<'a>>;

// Where and why the station file of an outcome stops being TOML.
fn find_toml_fault(alloc: Global, outcome: &Outcome) -> Option<TomlFault> {
    match &outcome.known.station_text {
        Some(text) => toml_fault(alloc, text.as_slice()),
        None => None,
    }
}

// Why a log gave no minute that was decoded by this plan.
fn find_hint<R: Files + AllocGlobal>(rt: &R, plan: Plan, log: &str) -> &'static str {
    match beginning_of_file(rt, log, SAMPLE_BYTES) {
        Some(log) => no_minute_text(rt.alloc(), plan.word(), log.as_slice()),
        None => NO_MINUTE,
    }
}

// Reads a file until the seeker has found its line, or to the end.
fn seek<F: Read>(file: &mut F, seeker: &mut LineSeeker) -> Option<()> {
    let mut piece = [0u8; PIECE];
    for _ in 0..u64::MAX {
        let count = file.read(&mut piece).ok()?;
        if count == 0 || seeker.has_found() {
            return Some(());
        }
        seeker.take(piece.get(..count)?);
    }
    None
}

// A line of a file, by its number from 1, with the line before it. A pipe is not read a second time.
fn find_line<R: Files>(rt: &R, name: &str, number: u64) -> Option<LineSeeker> {
    if !fs::metadata(rt, name).ok()?.is_file() {
        return None;
    }
    let mut file = fs::open(rt, name).ok()?;
    let mut seeker = LineSeeker::new(number);
    seek(&mut file, &mut seeker)?;
    Some(seeker)
}

// The file whose line is bad: one that the arguments name, or a feed of the station.
fn bad_file<'a>(
    asked: &Asked<'a>,
    station: &'a Option<Station>,
    subject: Subject,
) -> Option<&'a str> {
    match (subject, station) {
        (Subject::Feed(_) | Subject::Link(_), Some(station)) => file_of(station, subject),
        _ => file_named(asked, subject),
    }
}

// The condition that a line does not meet, where one can be named.
fn fault_in(
    seeker: &LineSeeker,
    station: &Option<Station>,
    subject: Subject,
) -> Option<&'static str> {
    match (subject, station) {
        (Subject::Script | Subject::Journal, _) => seeker.plain_fault(),
        (_, Some(station)) if is_leap_file(station, subject) => Some(seeker.leap_fault()),
        _ => seeker.log_fault(),
    }
}

// The bad line of a file, where the file can be read once more.
fn find_bad_line<R: Files + AllocGlobal>(
    rt: &R,
    asked: &Asked<'_>,
    station: &Option<Station>,
    subject: Subject,
    number: u64,
) -> Option<BadLine> {
    let name = bad_file(asked, station, subject)?;
    let seeker = find_line(rt, name, number)?;
    Some(BadLine {
        text: seeker.shown(rt.alloc()).ok()?,
        why: fault_in(&seeker, station, subject),
    })
}

// What is said of a run that was done, which decoded a log of these minutes.
fn find_done<R: Files + AllocGlobal>(
    rt: &R,
    asked: &Asked<'_>,
    minutes: Minutes,
) -> Option<Detail> {
    if minutes.agree {
        None
    } else if minutes.differing >= MANY_DIFFER {
        Some(Detail::Disagreement)
    } else if minutes.lone {
        None
    } else if let Ok(Command::Decode { plan, log }) = *asked {
        Some(Detail::Hint(find_hint(rt, plan, log)))
    } else {
        None
    }
}

// What the files of a run say beside its outcome.
fn find_detail<R: Files + AllocGlobal>(
    rt: &R,
    asked: &Asked<'_>,
    outcome: &Outcome,
) -> Option<Detail> {
    match &outcome.report {
        Report::Ended(Ending::Whole) => find_done(rt, asked, outcome.known.minutes?),
        Report::Ended(Ending::WrongLine(subject, number)) => Some(Detail::Line(find_bad_line(
            rt,
            asked,
            &outcome.known.station,
            *subject,
            *number,
        )?)),
        Report::Refused(StationFault::NotToml) => {
            Some(Detail::Toml(find_toml_fault(rt.alloc(), outcome)?))
        }
        _ => None,
    }
}

/// Writes on standard error what a person needs to know of a run that has ended: what is wrong, where that can be named, or the
/// help. `are_text` is false where an argument is not UTF-8.
pub fn write_report<R: Files + AllocGlobal + Eprint>(
    rt: &R,
    asked: Asked<'_>,
    are_text: bool,
    outcome: Outcome,
    refusal: Option<Refusal>,
) {
    let detail = find_detail(rt, &asked, &outcome);
    let message = Message {
        are_text,
        asked,
        outcome,
        refusal,
        detail: detail.unwrap_or(Detail::Nothing),
    };
    let _ = eprint!(rt; "{message}");
}
