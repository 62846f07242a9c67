//! The message about a run that has ended.

use crate::fault::write_fault;
use crate::fault_line::TomlFault;
use crate::names::{is_leap_file, write_name};
use crate::texts::{
    COMMAND_LINES, FULL, HELP, JOURNAL_LINE, LEAP_LINE, LINK_FAILED, LOG_LINE, NO_MEMORY,
    NO_OUTPUT, NO_TOML, NO_TOML_LINE, NO_TWO_AGREE, NOT_READ, SCRIPT_LINE, VERSION, most_of,
    range_of, write_texts,
};
use command_ends::{Ending, Outcome, Report, Subject};
use command_words::{Command, Fault, WordsFault};
use host_links::Refusal;
use station_reader::{KeyText, StationFault};
use std::fmt;

/// A line that is not valid.
#[derive(Drop)]
pub struct BadLine {
    /// What is printable of its beginning.
    pub text: String,
    /// The condition that it does not meet, where one can be named.
    pub why: Option<&'static str>,
}

/// What the files of a run say beside its outcome.
#[derive(Drop)]
pub enum Detail {
    Nothing,
    /// The bad line, where its file can be read once more.
    Line(BadLine),
    /// Where the station file stops being TOML, and why.
    Toml(TomlFault),
    /// Why a log gave no minute.
    Hint(&'static str),
    /// No two minutes of a log agree.
    Disagreement,
}

/// A run that has ended. Its `Display` is the message about it: whole lines, or nothing. It owns its parts, since the borrow checker
/// does not cover a struct whose parts are lent for different times.
#[derive(Drop)]
pub struct Message<'a> {
    /// Whether the arguments are text.
    pub are_text: bool,
    /// The command that they ask for, or what is wrong with them.
    pub asked: Result<Command<'a>, WordsFault<'a>>,
    /// What came of the command.
    pub outcome: Outcome,
    /// Why the last opening that failed was refused.
    pub refusal: Option<Refusal>,
    pub detail: Detail,
}

// The message about arguments that ask for no command, and whose first fault is this.
fn write_usage<W: fmt::Write>(fault: Fault<'_>, f: &mut fmt::Formatter<W>) -> fmt::Result {
    match fault {
        Fault::NoArguments
        | Fault::UnknownOption("--help" | "-h")
        | Fault::UnknownCommand("help")
        | Fault::SecondWord { word: "help", .. } => f.write_str(HELP),
        Fault::UnknownOption("--version") => f.write_str(VERSION),
        _ => {
            f.write_str("radio_ntpd: ")?;
            write_fault(fault, f)?;
            f.write_str("\n")?;
            f.write_str(COMMAND_LINES)
        }
    }
}

/// The file that a command names, where it names one of this kind. A log is the one feed of `decode`.
pub fn file_named<'a>(
    asked: &Result<Command<'a>, WordsFault<'a>>,
    subject: Subject,
) -> Option<&'a str> {
    match (*asked, subject) {
        (
            Ok(
                Command::Serve { station, .. }
                | Command::Replay { station, .. }
                | Command::Migrate { station, .. },
            ),
            Subject::Station,
        ) => Some(station),
        (Ok(Command::Replay { script, .. }), Subject::Script) => Some(script),
        (Ok(Command::Migrate { journal, .. }), Subject::Journal) => Some(journal),
        (Ok(Command::Decode { log, .. }), Subject::Feed(_) | Subject::Link(_)) => Some(log),
        _ => None,
    }
}

// The table and the name of a key of a station file: those of `radio.0.plan` are `radio` and `plan`, and `bound` has no table.
fn key_parts(key: &str) -> (&str, &str) {
    match key.split_once('.') {
        Some((table, rest)) => match rest.split_once('.') {
            Some((_, name)) => (table, name),
            None => (table, rest),
        },
        None => ("", key),
    }
}

// What a key of a station file requires.
fn range_text(key: &str) -> &'static str {
    let (table, name) = key_parts(key);
    range_of(table, name).unwrap_or("another value")
}

// The message about a key of a station file that is not known. A key of the top table may stand below a table's head by mistake.
fn write_unknown<W: fmt::Write>(key: &str, f: &mut fmt::Formatter<W>) -> fmt::Result {
    write_texts(f, "there is no key ", key, "")?;
    let (table, name) = key_parts(key);
    if !table.is_empty() && range_of("", name).is_some() {
        write_texts(f, "; ", name, " stands above the first [[..]]")?;
    }
    Ok(())
}

// The message about an array of a station file that is too long: its name and how many it has.
fn write_many<W: fmt::Write>(key: &str, count: u64, f: &mut fmt::Formatter<W>) -> fmt::Result {
    f.write_str(key)?;
    write!(f, " counts {count}")?;
    let most = most_of(key).unwrap_or("fewer");
    write_texts(f, ", and there may be ", most, "")
}

// The text of a key.
fn key_text(key: &KeyText) -> &str {
    str::from_utf8(key.bytes()).unwrap_or("")
}

// Why an opening was refused where a right is missing, of a file or of a link.
fn no_right_text(subject: Subject) -> &'static str {
    match subject {
        Subject::Link(_) => "a port below 1024 needs a right",
        _ => "there is no right to read it",
    }
}

// Why an opening was refused, of a file or of a link.
fn refusal_text(refusal: Option<Refusal>, subject: Subject) -> &'static str {
    match refusal {
        Some(Refusal::NotThere) => "there is no such file",
        Some(Refusal::Taken) => "another program or link has the port",
        Some(Refusal::NoRight) => no_right_text(subject),
        Some(Refusal::Other) | None => "the host refuses it",
    }
}

// The most bytes of a leap second file.
const LEAP_LIMIT: &str = "65536";

// The most bytes of a file that is no leap second file.
fn limit_text(subject: Subject) -> &'static str {
    match subject {
        Subject::Station => "65536",
        Subject::Script => "2^26",
        Subject::Journal | Subject::Feed(_) | Subject::Link(_) => "2^30",
    }
}

// What a line of a file looks like that is no leap second file.
fn line_text(subject: Subject) -> &'static str {
    match subject {
        Subject::Script => SCRIPT_LINE,
        Subject::Journal => JOURNAL_LINE,
        Subject::Feed(_) | Subject::Link(_) | Subject::Station => LOG_LINE,
    }
}

impl Message<'_> {
    // Whether a subject is a leap second file.
    fn is_leap_file(&self, subject: Subject) -> bool {
        match &self.outcome.known.station {
            Some(station) => is_leap_file(station, subject),
            None => false,
        }
    }

    // The most bytes of a file.
    fn limit_text(&self, subject: Subject) -> &'static str {
        if self.is_leap_file(subject) {
            LEAP_LIMIT
        } else {
            limit_text(subject)
        }
    }

    // What a line of a file looks like.
    fn line_text(&self, subject: Subject) -> &'static str {
        if self.is_leap_file(subject) {
            LEAP_LINE
        } else {
            line_text(subject)
        }
    }

    // Why a line is not valid, and the line, or else what a line looks like.
    fn write_why<W: fmt::Write>(&self, subject: Subject, f: &mut fmt::Formatter<W>) -> fmt::Result {
        let general = self.line_text(subject);
        match &self.detail {
            Detail::Line(line) => {
                write_texts(f, line.why.unwrap_or(general), ": '", line.text.as_str())?;
                f.write_str("'")
            }
            _ => f.write_str(general),
        }
    }

    // Writes a feed, which is the one log where there is no station.
    fn write_feed<W: fmt::Write>(&self, number: u32, f: &mut fmt::Formatter<W>) -> fmt::Result {
        if self.outcome.known.station.is_some() {
            write!(f, "feed {number}")
        } else {
            f.write_str("the log")
        }
    }

    // Writes what a file or a link is called.
    fn write_kind<W: fmt::Write>(
        &self,
        subject: Subject,
        f: &mut fmt::Formatter<W>,
    ) -> fmt::Result {
        match subject {
            Subject::Station => f.write_str("the station file"),
            Subject::Script => f.write_str("the script"),
            Subject::Journal => f.write_str("the journal"),
            Subject::Feed(number) => self.write_feed(number, f),
            Subject::Link(number) => write!(f, "link {number}"),
        }
    }

    // Writes the name that the arguments give a file, where they give one.
    fn write_named<W: fmt::Write>(
        &self,
        subject: Subject,
        f: &mut fmt::Formatter<W>,
    ) -> fmt::Result {
        match file_named(&self.asked, subject) {
            Some(name) => write_texts(f, " (", name, ")"),
            None => Ok(()),
        }
    }

    // Writes what a file or a link is called, and its name: that of the station, or the one of the arguments.
    fn write_subject<W: fmt::Write>(
        &self,
        subject: Subject,
        f: &mut fmt::Formatter<W>,
    ) -> fmt::Result {
        self.write_kind(subject, f)?;
        match &self.outcome.known.station {
            Some(station) => write_name(station, subject, f),
            None => self.write_named(subject, f),
        }
    }

    // What is wrong with a line of the station file, or with all of it.
    fn write_no_toml<W: fmt::Write>(&self, f: &mut fmt::Formatter<W>) -> fmt::Result {
        match &self.detail {
            Detail::Toml(fault) => {
                let line = fault.line;
                write!(f, "line {line}")?;
                write_texts(f, NO_TOML_LINE, fault.why.as_str(), "")
            }
            _ => f.write_str(NO_TOML),
        }
    }

    // What is wrong with a station file, and with which key.
    fn write_fault<W: fmt::Write>(
        &self,
        fault: &StationFault,
        f: &mut fmt::Formatter<W>,
    ) -> fmt::Result {
        match fault {
            StationFault::UnknownKey { key } => write_unknown(key_text(key), f),
            StationFault::Missing { key } => {
                write_texts(f, "the key ", key_text(key), " is missing")
            }
            StationFault::Range { key } => {
                write_texts(f, key_text(key), " wants ", range_text(key_text(key)))
            }
            StationFault::TooMany { key, count } => write_many(key_text(key), *count, f),
            StationFault::NotToml | StationFault::Memory => self.write_no_toml(f),
        }
    }

    // The message about a station file that is refused.
    fn write_refused<W: fmt::Write>(
        &self,
        fault: &StationFault,
        f: &mut fmt::Formatter<W>,
    ) -> fmt::Result {
        f.write_str("radio_ntpd: the station file")?;
        self.write_named(Subject::Station, f)?;
        f.write_str(": ")?;
        self.write_fault(fault, f)?;
        f.write_str("\n")
    }

    // Writes a sentence on a subject: the text before it, and two after it.
    fn write_about<W: fmt::Write>(
        &self,
        before: &str,
        subject: Subject,
        after: &str,
        why: &str,
        f: &mut fmt::Formatter<W>,
    ) -> fmt::Result {
        write_texts(f, "radio_ntpd: ", before, "")?;
        self.write_subject(subject, f)?;
        write_texts(f, after, why, "\n")
    }

    // The message about a line that is not valid.
    fn write_bad_line<W: fmt::Write>(
        &self,
        subject: Subject,
        number: u64,
        f: &mut fmt::Formatter<W>,
    ) -> fmt::Result {
        write!(f, "radio_ntpd: line {number} of ")?;
        self.write_subject(subject, f)?;
        f.write_str(" is bad: ")?;
        self.write_why(subject, f)?;
        f.write_str("\n")
    }

    // The message about arguments that ask for no command.
    fn write_usage<W: fmt::Write>(&self, f: &mut fmt::Formatter<W>) -> fmt::Result {
        if !self.are_text {
            f.write_str("radio_ntpd: an argument is not UTF-8\n")?;
            return f.write_str(COMMAND_LINES);
        }
        match self.asked {
            Err(WordsFault::Usage(fault)) => write_usage(fault, f),
            _ => f.write_str(COMMAND_LINES),
        }
    }

    // The message about a run that was done.
    fn write_done<W: fmt::Write>(&self, f: &mut fmt::Formatter<W>) -> fmt::Result {
        match self.detail {
            Detail::Hint(why) => {
                write_texts(f, "radio_ntpd: the log gave no minute: ", why, "\n")
            }
            Detail::Disagreement => write_texts(f, "radio_ntpd: ", NO_TWO_AGREE, "\n"),
            _ => Ok(()),
        }
    }

    // The message about a run that has ended in this way.
    fn write_ending<W: fmt::Write>(
        &self,
        ending: Ending,
        f: &mut fmt::Formatter<W>,
    ) -> fmt::Result {
        match ending {
            Ending::Whole => self.write_done(f),
            Ending::WrongWords => self.write_usage(f),
            Ending::NotOpened(subject) => {
                let why = refusal_text(self.refusal, subject);
                self.write_about("cannot open ", subject, ": ", why, f)
            }
            Ending::NotRead(subject) => {
                self.write_about("cannot read ", subject, ": ", NOT_READ, f)
            }
            Ending::WrongLine(subject, number) => self.write_bad_line(subject, number, f),
            Ending::Full(limit) => write!(f, "radio_ntpd: {FULL}: {limit}\n"),
            Ending::LinkFailed(subject) => {
                self.write_about("the host failed ", subject, ": ", LINK_FAILED, f)
            }
            Ending::NoMemory => write_texts(f, "radio_ntpd: ", NO_MEMORY, "\n"),
            Ending::Long(subject) => {
                f.write_str("radio_ntpd: ")?;
                self.write_subject(subject, f)?;
                write_texts(f, " has more than ", self.limit_text(subject), " bytes\n")
            }
        }
    }
}

impl fmt::Display for Message<'_> {
    fn fmt<W: fmt::Write>(&self, f: &mut fmt::Formatter<W>) -> fmt::Result {
        match &self.outcome.report {
            Report::Ended(ending) => self.write_ending(*ending, f),
            Report::Refused(fault) => self.write_refused(fault, f),
            Report::Unwritten => write_texts(f, "radio_ntpd: ", NO_OUTPUT, "\n"),
        }
    }
}
