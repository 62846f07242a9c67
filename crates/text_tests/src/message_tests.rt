//! The messages on standard error, row by row.
use crate::shared::{entry, same, same_for};
use command_ends::{Ending, Known, Minutes, Outcome, Report, Subject};
use command_words::{Fault, WordsFault, read_words};
use host_links::Refusal;
use journal_entry::What;
use standard_error::{
    BadLine, Beginning, Detail, LeapRow, LineSeeker, Message, TomlFault, log_fault, no_minute_text,
    row_fault, toml_fault,
};
use station_reader::read_station;
use std::alloc::Global;
use std::process::Abort;
use tick_units::Kind;

fn text_of(rt: &impl Abort, alloc: Global, text: &str) -> String {
    String::from_str(alloc, text).expect(rt, "no memory")
}

fn written(rt: &impl Abort, alloc: Global, message: &Message<'_>) -> String {
    format!(in alloc; "{message}").expect(rt, "no memory")
}

// What came of a run of whose files nothing is known.
fn outcome_of(report: Report) -> Outcome {
    Outcome {
        report,
        known: Known::nothing(),
    }
}

// The message about a run with these arguments.
fn said(
    rt: &impl Abort,
    alloc: Global,
    words: &str,
    outcome: Outcome,
    refusal: Refusal,
    detail: Detail,
) -> String {
    let mut all = Vec::new(alloc);
    for word in words.split_whitespace() {
        all.push(word).expect(rt, "no memory");
    }
    let message = Message {
        are_text: true,
        asked: read_words(alloc, all.as_slice()),
        outcome,
        refusal: Some(refusal),
        detail,
    };
    written(rt, alloc, &message)
}

// What a row leads to has a text in it.
fn has_text(rt: &impl Abort, row: &str, found: &str, text: &str) {
    assert!(*rt; found.contains(text), "{row}: {found}");
}

// Looks at a row of arguments and a text of the message, with `|` between them.
fn look(rt: &impl Abort, alloc: Global, row: &str) {
    let (words, text) = row.split_once('|').unwrap_or((row, "?"));
    let outcome = outcome_of(Report::Ended(Ending::WrongWords));
    let found = said(
        rt,
        alloc,
        words,
        outcome,
        Refusal::NotThere,
        Detail::Nothing,
    );
    has_text(rt, row, found.as_str(), text);
}

const ARGUMENTS: &str = "serve --staton a|unknown option --staton
decode --plan DCF77 --log a|--plan wants dcf, msf or wwvb
decode --plan dcf|decode needs --log
serve --station a --log b|serve has no option --log
drill --seed 07|--seed wants a whole number from 0 to 4294967295
server|unknown command server
serve decode|two commands, serve and decode
--station a|no command
serve --station|--station has no value
serve --station --during 5|--station has no value
serve --station -a|--station has no value: -a begins with a hyphen; write ./ before such a name
decode --plan dcf --log -|--log wants a file's name; standard input is /dev/stdin
serve --station a --during -1|--during wants a whole number from 0 to 1000000
drill --seed -1|--seed wants a whole number from 0 to 4294967295
decode --plan -|--plan wants dcf, msf or wwvb
serve --station=a --station=b|--station is given twice
drill --log a --log b|--log is given twice
drill --log a|drill has no option --log
decode --plan x|--plan wants dcf, msf or wwvb
decode --log a --plan x --staton a|unknown option --staton
decode --staton a --log|unknown option --staton
decode --log -- --staton a|--log has no value
decode examples/x.log|examples/x.log stands alone: a file goes after --log
examples/x.log decode --plan dcf|examples/x.log stands alone: a file goes after --log
decode --plan dcf --log a b|b stands alone: a file goes after --log
serve x.toml|x.toml stands alone: a file goes after --station
replay --station a b|b stands alone: a file goes after --script
migrate a|a stands alone: a file goes after --station
drill 7|7 stands alone: a number goes after --seed
decode decode|two commands, decode and decode
-h|SEED      0 to 4294967295
|SEED      0 to 4294967295
serve -- --station a|two commands, serve and --station
-- --station|unknown command --station
--version|radio_ntpd 0.3.0";

// Looks at each row.
fn look_at_all(rt: &impl Abort, alloc: Global, rows: &str) {
    for row in rows.split('\n') {
        look(rt, alloc, row);
    }
}

#[test]
fn arguments_that_ask_for_nothing_are_reported(rt: HostRuntime) {
    look_at_all(&rt, rt.alloc(), ARGUMENTS);
}

// A run of these arguments without a station that ends so has this text in its message.
fn ends(rt: &impl Abort, alloc: Global, words: &str, ending: Ending, text: &str) {
    let outcome = outcome_of(Report::Ended(ending));
    let found = said(
        rt,
        alloc,
        words,
        outcome,
        Refusal::NotThere,
        Detail::Nothing,
    );
    has_text(rt, words, found.as_str(), text);
}

#[test]
fn each_ending_of_a_file_has_its_sentence(rt: HostRuntime) {
    let alloc = rt.alloc();
    let log = "decode --plan dcf --log a.log";
    let text = "cannot open the log (a.log): there is no such file";
    ends(&rt, alloc, log, Ending::NotOpened(Subject::Feed(0)), text);
    let text = "line 2 of the log (a.log) is bad: a line is START WIDTH";
    ends(
        &rt,
        alloc,
        log,
        Ending::WrongLine(Subject::Feed(0), 2),
        text,
    );
    let script = "replay --station s --script c";
    let text = "cannot read the script (c): it is a folder";
    ends(&rt, alloc, script, Ending::NotRead(Subject::Script), text);
    let text = "line 7 of the script (c) is bad: man radio_ntpd has the lines of a script,";
    ends(
        &rt,
        alloc,
        script,
        Ending::WrongLine(Subject::Script, 7),
        text,
    );
    let text = "line 7 of the journal is bad: man radio_ntpd has the lines of a journal;";
    ends(
        &rt,
        alloc,
        "migrate",
        Ending::WrongLine(Subject::Journal, 7),
        text,
    );
    let text = "more entries than a journal may have: 2\n";
    ends(&rt, alloc, "serve", Ending::Full(2), text);
    let text = "no memory was found, and nothing was done";
    ends(&rt, alloc, "serve", Ending::NoMemory, text);
    let outcome = outcome_of(Report::Unwritten);
    let found = said(
        &rt,
        alloc,
        "serve",
        outcome,
        Refusal::Other,
        Detail::Nothing,
    );
    has_text(
        &rt,
        "a write",
        found.as_str(),
        "standard output took no more",
    );
}

// The limits of docs/FORMATS.md.
#[test]
fn a_file_that_is_too_long_has_its_limit(rt: HostRuntime) {
    let alloc = rt.alloc();
    let text = "the station file (b.toml) has more than 65536 bytes";
    ends(
        &rt,
        alloc,
        "serve --station b.toml",
        Ending::Long(Subject::Station),
        text,
    );
    let text = "the script (c) has more than 2^26 bytes";
    ends(
        &rt,
        alloc,
        "replay --station s --script c",
        Ending::Long(Subject::Script),
        text,
    );
    let text = "the journal (d) has more than 2^30 bytes";
    ends(
        &rt,
        alloc,
        "migrate --station s --journal d",
        Ending::Long(Subject::Journal),
        text,
    );
    let text = "the log (a.log) has more than 2^30 bytes";
    ends(
        &rt,
        alloc,
        "decode --plan dcf --log a.log",
        Ending::Long(Subject::Feed(0)),
        text,
    );
}

// What came of a run whose station file has this text, and is refused.
fn refusing(rt: &impl Abort, alloc: Global, text: &str) -> Outcome {
    match read_station(alloc, text.as_bytes()) {
        Ok(_) => panic!(*rt; "a station: {text}"),
        Err(fault) => outcome_of(Report::Refused(fault)),
    }
}

// Looks at a row of a station file, with `;` for a line feed, and a text of the message, with `|` between them.
fn look_at_station(rt: &impl Abort, alloc: Global, row: &str) {
    let (lines, wanted) = row.split_once('|').unwrap_or((row, "?"));
    let mut text = String::new(alloc);
    for line in lines.split(';') {
        text.push_str(line).expect(rt, "no memory");
        text.push('\n').expect(rt, "no memory");
    }
    let outcome = refusing(rt, alloc, text.as_str());
    let words = "serve --station b.toml";
    let found = said(rt, alloc, words, outcome, Refusal::Other, Detail::Nothing);
    has_text(rt, row, found.as_str(), "the station file (b.toml): ");
    has_text(rt, row, found.as_str(), wanted);
}

const STATIONS: &str = "bound =|it is not TOML, or not UTF-8
'odd key' = 1|there is no key odd key
[[link]];port = 1;bound = 1|there is no key link.0.bound; bound stands above the first [[..]]
'' = 1|there is no key 
[[radio]];plan = 'dcf'|the key radio.0.log is missing
[[link]];port = 0|link.0.port wants a whole number, 1 to 65535
bound = 0|bound wants whole milliseconds, 1 to 16000";

#[test]
fn each_fault_of_a_station_file_has_its_sentence(rt: HostRuntime) {
    for row in STATIONS.split('\n') {
        look_at_station(&rt, rt.alloc(), row);
    }
    let nine =
        "[[link]];port = 1;[[link]];port = 1;[[link]];port = 1;[[link]];port = 1;[[link]];port = 1;[[link]];port = 1;[[link]];port = 1;[[link]];port = 1;[[link]];port = 1|link counts 9, and there may be 8";
    look_at_station(&rt, rt.alloc(), nine);
}

// A radio, two servers, a leap second file and two links.
const STATION: &str = "leap_file = 'list'
[[radio]]
plan = 'dcf'
log = 'r'
[[server]]
address = '192.0.2.9'
port = 4123
polls = 0
[[server]]
address = '192.0.2.9'
port = 4124
polls = 0
[[link]]
port = 123
[[link]]
port = 124
";

// The message about a run of this station that ends so.
fn said_of_station(
    rt: &impl Abort,
    alloc: Global,
    ending: Ending,
    refusal: Refusal,
    detail: Detail,
) -> String {
    let station = match read_station(alloc, STATION.as_bytes()) {
        Ok(station) => station,
        Err(_) => panic!(*rt; "no station"),
    };
    let outcome = Outcome {
        report: Report::Ended(ending),
        known: Known::of_station(station),
    };
    said(rt, alloc, "serve --station s", outcome, refusal, detail)
}

// It is this text.
fn of_station(rt: &impl Abort, alloc: Global, ending: Ending, refusal: Refusal, text: &str) {
    let found = said_of_station(rt, alloc, ending, refusal, Detail::Nothing);
    same(rt, found.as_str(), text);
}

#[test]
fn what_a_station_has_is_named(rt: HostRuntime) {
    let alloc = rt.alloc();
    let text = "radio_ntpd: cannot open link 0 (port 123): a port below 1024 needs a right\n";
    let ending = Ending::NotOpened(Subject::Link(0));
    of_station(&rt, alloc, ending, Refusal::NoRight, text);
    let text = "radio_ntpd: cannot open link 1 (port 124): another program or link has the port\n";
    let ending = Ending::NotOpened(Subject::Link(1));
    of_station(&rt, alloc, ending, Refusal::Taken, text);
    let text = "radio_ntpd: cannot open feed 0 (r): there is no right to read it\n";
    let ending = Ending::NotOpened(Subject::Feed(0));
    of_station(&rt, alloc, ending, Refusal::NoRight, text);
    let text = "radio_ntpd: cannot open feed 2 (192.0.2.9 port 4124): the host refuses it\n";
    let ending = Ending::NotOpened(Subject::Feed(2));
    of_station(&rt, alloc, ending, Refusal::Other, text);
    let text =
        "radio_ntpd: the host failed link 1 (port 124): a hearing or a sending of it; the rest went on\n";
    let ending = Ending::LinkFailed(Subject::Link(1));
    of_station(&rt, alloc, ending, Refusal::Other, text);
    let text = "radio_ntpd: feed 3 (list) has more than 65536 bytes\n";
    let ending = Ending::Long(Subject::Feed(3));
    of_station(&rt, alloc, ending, Refusal::Other, text);
    let text = "radio_ntpd: feed 0 (r) has more than 2^30 bytes\n";
    let ending = Ending::Long(Subject::Feed(0));
    of_station(&rt, alloc, ending, Refusal::Other, text);
}

// A message begins so.
fn begins(rt: &impl Abort, found: &str, text: &str) {
    assert!(*rt; found.starts_with(text), "{found}");
}

// The message about a run of this command that was done is this text.
fn done(rt: &impl Abort, alloc: Global, word: &str, detail: Detail, text: &str) {
    let outcome = outcome_of(Report::Ended(Ending::Whole));
    let found = said(rt, alloc, word, outcome, Refusal::Other, detail);
    same(rt, found.as_str(), text);
}

#[test]
fn what_the_files_say_is_named(rt: HostRuntime) {
    let alloc = rt.alloc();
    let hint = Detail::Hint("it is odd");
    let text = "radio_ntpd: the log gave no minute: it is odd\n";
    done(&rt, alloc, "decode", hint, text);
    done(&rt, alloc, "drill", Detail::Nothing, "");
    let text =
        "radio_ntpd: no two minutes of the log agree, as where its counter is 0.2 % or more too fast or too slow\n";
    done(&rt, alloc, "decode", Detail::Disagreement, text);
    let line = Detail::Toml(TomlFault {
        line: 12,
        why: text_of(&rt, alloc, "it is odd"),
    });
    let outcome = refusing(&rt, alloc, "bound =");
    let found = said(&rt, alloc, "serve", outcome, Refusal::Other, line);
    let text = "radio_ntpd: the station file: line 12 is not TOML: it is odd\n";
    same(&rt, found.as_str(), text);
}

// A bad line with this reason.
fn bad(rt: &impl Abort, alloc: Global, why: Option<&'static str>) -> Detail {
    Detail::Line(BadLine {
        text: text_of(rt, alloc, "1 2.5"),
        why,
    })
}

#[test]
fn a_bad_line_is_shown(rt: HostRuntime) {
    let alloc = rt.alloc();
    let line = bad(&rt, alloc, Some("it is odd"));
    let outcome = outcome_of(Report::Ended(Ending::WrongLine(Subject::Feed(0), 9)));
    let found = said(
        &rt,
        alloc,
        "decode --plan dcf --log l",
        outcome,
        Refusal::Other,
        line,
    );
    let text = "radio_ntpd: line 9 of the log (l) is bad: it is odd: '1 2.5'\n";
    same(&rt, found.as_str(), text);
    let line = bad(&rt, alloc, Some("it is odd"));
    let ending = Ending::WrongLine(Subject::Feed(0), 9);
    let found = said_of_station(&rt, alloc, ending, Refusal::Other, line);
    let text = "radio_ntpd: line 9 of feed 0 (r) is bad: it is odd: '1 2.5'\n";
    same(&rt, found.as_str(), text);
    let line = bad(&rt, alloc, None);
    let outcome = outcome_of(Report::Ended(Ending::WrongLine(Subject::Journal, 9)));
    let found = said(&rt, alloc, "migrate", outcome, Refusal::Other, line);
    let text =
        "radio_ntpd: line 9 of the journal is bad: man radio_ntpd has the lines of a journal;";
    begins(&rt, found.as_str(), text);
    assert!(rt; found.ends_with(": '1 2.5'\n"), "{found}");
}

#[test]
fn arguments_that_are_no_text_are_reported(rt: HostRuntime) {
    let message = Message {
        are_text: false,
        asked: Err(WordsFault::Usage(Fault::NoArguments)),
        outcome: outcome_of(Report::Ended(Ending::WrongWords)),
        refusal: None,
        detail: Detail::Nothing,
    };
    let found = written(&rt, rt.alloc(), &message);
    begins(
        &rt,
        found.as_str(),
        "radio_ntpd: an argument is not UTF-8\n",
    );
}

// Texts that are not TOML, each with its line as counted by hand: the first; the last one, without a line feed; after carriage
// returns; after letters of two and three bytes; and at a byte that is not UTF-8.
const NO_TOML: [(&[u8], usize); 9] = [
    (b"bound =", 1),
    (b"bound = [\n", 1),
    (b"bound =\n", 1),
    (b"bound = = 1\nstart = 0\n", 1),
    (b"bound = 1\nstart = 0\ngap =", 3),
    (b"bound = 1\r\n\r\nstart = \r\ngap = 1\r\n", 3),
    (
        b"# K\xc3\xb6ln \xe2\x80\x94 77,5 kHz\nbound = 1\n[[radio]]\nplan = dcf\n",
        4,
    ),
    (b"[[radio]]\nlog = \"K\xc3\xb6ln\n\n", 2),
    (b"bound = 1\nstart = 0\n# \xff\n", 3),
];

// Looks at each row of texts and lines.
fn have_lines(rt: &impl Abort, alloc: Global, rows: &[(&[u8], usize)]) {
    for (text, line) in rows {
        same(rt, line_of(alloc, text), Some(*line));
    }
}

// The line in which a text stops being TOML.
fn line_of(alloc: Global, text: &[u8]) -> Option<usize> {
    match toml_fault(alloc, text) {
        Some(fault) => Some(fault.line),
        None => None,
    }
}

// Why a text is not TOML.
fn why_of(rt: &impl Abort, alloc: Global, text: &[u8]) -> String {
    match toml_fault(alloc, text) {
        Some(fault) => fault.why,
        None => text_of(rt, alloc, ""),
    }
}

#[test]
fn a_text_that_is_not_toml_has_a_line(rt: HostRuntime) {
    have_lines(&rt, rt.alloc(), &NO_TOML);
    same(&rt, line_of(rt.alloc(), b"bound = 1\n"), None);
    let why = why_of(&rt, rt.alloc(), b"bound = 1\nbound = 2\n");
    same(&rt, why.as_str(), "duplicate key");
}

// Logs: the plan that was asked for, how many marks, the width of each minute's first mark, and of those after it in turn, and the
// unit in microseconds: 1000 for milliseconds. PTB gives DCF77 marks of 100 and 200 ms, NPL gives MSF marks of 100, 200, 300 and
// 500 ms, and NIST gives WWVB marks of 200, 500 and 800 ms.
const LOGS: &str = "dcf 120 100 100,200 1|widths look like milliseconds; the log wants microseconds
wwvb 120 800 200,500 1|look like milliseconds; the log wants microseconds
dcf 5 999 999 1|look like milliseconds; the log wants microseconds
dcf 120 1000 1000 1|below those of any mark
dcf 120 19999 19999 1|below those of any mark
dcf 120 20000 20000 1|starts look like milliseconds, and widths like microseconds
msf 120 300 100,200 1000|look like those of --plan dcf
dcf 120 165 165,265 1000|look like those of this plan, each some 30 to 100 ms too long
msf 120 565 165,265,365 1000|look like those of this plan, each some 30 to 100 ms too long
wwvb 120 865 265,565 1000|look like those of this plan, each some 30 to 100 ms too long
msf 120 165 165,265 1000|those of no plan
dcf 120 35 35,135 1000|look like those of this plan, each some 30 to 100 ms too short
msf 120 435 35,135,235 1000|look like those of this plan, each some 30 to 100 ms too short
wwvb 120 735 135,435 1000|look like those of this plan, each some 30 to 100 ms too short
dcf 120 900 900,800 1000|give edges_to_log.py --low
dcf 120 500 900,800,700,900 1000|give edges_to_log.py --low
msf 120 500 900,800,700,900 1000|give edges_to_log.py --low
wwvb 120 200 800,500,800,800 1000|give edges_to_log.py --low
wwvb 120 800 200,500,200,200 1000|look like those of this plan, but no minute has them all
msf 120 100 100,200 1000|look like those of --plan dcf
wwvb 120 100 100,200 1000|look like those of --plan dcf
dcf 120 130 130,230 1000|look like those of this plan, but no minute has them all
dcf 120 500 100,200,300,100 1000|look like those of --plan msf
wwvb 120 500 100,200,300,100 1000|look like those of --plan msf
msf 120 500 100,200,300,100 1000|look like those of this plan
dcf 120 800 200,500,200,800 1000|look like those of --plan wwvb
msf 120 800 200,500,200,200,200,500,200,500,800 1000|look like those of --plan wwvb
wwvb 120 800 200,500,200,800 1000|look like those of this plan
dcf 120 610 610,680 1000|those of no plan; it is noise
dcf 120 100 100,100,100,100,200,100,200,100,640,100 1000|look like those of this plan
dcf 120 100 100,640,100,100,200,100,200,100,640,100 1000|those of no plan
dcf 58 100 100,200 1000|fewer marks than a minute has
dcf 59 100 100,200 1000|look like those of this plan
dcf 0 100 100,200 1000|fewer marks than a minute has";

// A number of a row.
fn number(row: &str, place: usize) -> u64 {
    let word = row.split_whitespace().nth(place).unwrap_or("");
    word.parse().unwrap_or(0)
}

// The width of a mark, as its row says.
fn width(row: &str, mark: u64) -> u64 {
    if mark % 60 == 0 {
        return number(row, 2);
    }
    let turns = row.split_whitespace().nth(3).unwrap_or("");
    let count = turns.split(',').count().max(1);
    let turn = turns.split(',').nth(mark as usize % count).unwrap_or("");
    turn.parse().unwrap_or(0)
}

// The log of a row.
fn log_of(rt: &impl Abort, alloc: Global, row: &str) -> String {
    let mut log = String::new(alloc);
    for mark in 0..number(row, 1) {
        let width = width(row, mark).saturating_mul(number(row, 4));
        let start = mark.saturating_mul(number(row, 4)).saturating_mul(1000);
        let line = format!(in alloc; "{start} {width}\n").expect(rt, "no memory");
        log.push_str(line.as_str()).expect(rt, "no memory");
    }
    log
}

// Looks at a row of a log and a text of its hint, with `|` between them.
fn look_at_log(rt: &impl Abort, alloc: Global, row: &str) {
    let (shape, text) = row.split_once('|').unwrap_or((row, "?"));
    let plan = shape.split_whitespace().next().unwrap_or("");
    let log = log_of(rt, alloc, shape);
    let hint = no_minute_text(alloc, plan, log.as_str().as_bytes());
    has_text(rt, row, hint, text);
}

fn look_at_logs(rt: &impl Abort, alloc: Global, rows: &str) {
    for row in rows.split('\n') {
        look_at_log(rt, alloc, row);
    }
}

#[test]
fn a_log_without_minute_has_a_hint(rt: HostRuntime) {
    look_at_logs(&rt, rt.alloc(), LOGS);
}

// Lines of a log behind one that starts at 1000000, as docs/FORMATS.md judges them: the line, and a text of the one condition that it
// does not meet. `~` stands for a line that has no line feed, and `!` for a carriage return.
const LINES: &str = "|it is empty
!|a carriage return stands at its end
2000000 100000!|a carriage return stands at its end
2000000 100000!3000000 100000|a carriage return stands in it
12.345678901 rising gpiochip0 17|it is an edge of a receiver; edges_to_log.py
event: FALLING EDGE offset: 17 timestamp: [    12.345678901]|it is an edge of a receiver
# at width|a log has no remarks
-5 100000|a number is negative
2000000 -5|a number is negative
2000000,100000|a comma or a semicolon stands in it
2000000; 100000|a comma or a semicolon stands in it
2.5 100000|a number is not whole
2000000 100.5|a number is not whole
2026-01-01T00:00:02 100000|it has a byte that is no digit and no space
0x1e8480 100000|it has a byte that is no digit and no space
+2000000 100000|it has a byte that is no digit and no space
 2000000 100000|a space stands at its beginning
2000000 100000 |a space stands at its end
2000000  100000|two spaces stand in it
2000000|it has one number
2000000 100000 1|it has more than two numbers
02000000 100000|a number has a leading zero
2000000 0100000|a number has a leading zero
2000000 00|a number has a leading zero
3000000 3100000|it looks like START END
3000000 5000000|it looks like START END
3000000 5000001|its width is above 2000000
100000 2000001|it looks like START END
100000 4514523738|it looks like WIDTH START
2000000000 100000000|its width looks like nanoseconds
1767261605000000000 200000000|its width looks like nanoseconds
2000001 39999999|its width is above 2000000
3000000 40000000|its width looks like nanoseconds
3000000 1000000000|its width looks like nanoseconds
3000000 1000000001|its width is above 2000000
1125899906842624 100000|its start is 2^50 (1125899906842624) or more
1767261605000000 100000|its start is 2^50 (1125899906842624) or more, as a Unix time
99999999999999999999 1|its start is 2^50
1125899906842623 100000|
2000000 0|its width is 0
2000000 2000000|
3000000 99999999999999999999|its width is above 2000000
1000000 100000|its start is not above that of the line before
999999 100000|its start is not above that of the line before
1000001 100000|
2000000 100000~|the file ends before its line feed
2000000 100000!~|a carriage return stands at its end
2000000 100000123456789012345678|it has 32 bytes or more
2000000 10000012345678901234567|its width is above 2000000";

// The line of a row as it stands in a file, and whether it has its line feed.
fn line_in(rt: &impl Abort, alloc: Global, text: &str) -> (String, bool) {
    let mut line = String::new(alloc);
    let mut has_end = true;
    for letter in text.chars() {
        match letter {
            '!' => line.push('\r').expect(rt, "no memory"),
            '~' => has_end = false,
            _ => line.push(letter).expect(rt, "no memory"),
        }
    }
    (line, has_end)
}

// Looks at a row of a line and a text of what is wrong with it, with `|` between them; the text is empty where nothing is.
fn look_at_line(rt: &impl Abort, alloc: Global, row: &str) {
    let (text, wanted) = row.split_once('|').unwrap_or((row, "?"));
    let (line, has_end) = line_in(rt, alloc, text);
    let found = log_fault(line.as_str().as_bytes(), has_end, Some(1_000_000)).unwrap_or("");
    has_text(rt, row, found, wanted);
    same_for(rt, &row, found.is_empty(), wanted.is_empty());
}

#[test]
fn a_bad_line_of_a_log_has_one_condition(rt: HostRuntime) {
    for row in LINES.split('\n') {
        look_at_line(&rt, rt.alloc(), row);
    }
    same(&rt, log_fault(b"0 1", true, None), None);
    let mark = log_fault(b"\xef\xbb\xbf2000000 100000", true, None).unwrap_or("");
    has_text(&rt, "a mark", mark, "a byte order mark stands before it");
    let wide = log_fault(b"\xff\xfe2\0", true, None).unwrap_or("");
    has_text(&rt, "wide", wide, "it is UTF-16");
    let odd = log_fault(b"2000000\0100000", true, None).unwrap_or("");
    has_text(&rt, "a zero", odd, "no digit and no space");
}

// Rows of a leap second file behind `3644697600 36`, as docs/FORMATS.md judges them.
const ROWS: &str = "odd|a row has two numbers
3692217600|a row has two numbers
3692217600 x|a row has two numbers
3692217600 37 x|after its two numbers only a remark may stand
3692217600 37x|after its two numbers only a remark may stand
6311606400 37|its second is 6311606400 (2100-01-03) or more
99999999999999999999 37|a row has two numbers
3692217600 256|its difference is above 255
3644697600 37|its second is not above that of the row before
3644697599 37|its second is not above that of the row before
3692217600 38|its difference is not one more than that of the row before
3692217600 36|its difference is not one more than that of the row before
3692217601 37 # x|its second begins no month of UTC
3692217601\t 37!|its second begins no month of UTC";

// Looks at a row of a line and a text of what is wrong with it.
fn look_at_row(rt: &impl Abort, alloc: Global, row: &str) {
    let (text, wanted) = row.split_once('|').unwrap_or((row, "?"));
    let (line, _) = line_in(rt, alloc, text);
    let before = LeapRow {
        second: 3_644_697_600,
        difference: 36,
    };
    let found = row_fault(line.as_str().as_bytes(), Some(before));
    has_text(rt, row, found, wanted);
}

#[test]
fn a_bad_row_of_a_leap_second_file_has_one_condition(rt: HostRuntime) {
    for row in ROWS.split('\n') {
        look_at_row(&rt, rt.alloc(), row);
    }
    has_text(
        &rt,
        "the first",
        row_fault(b"3692217601 37", None),
        "no month",
    );
}

// What a seeker shows of the line of this number, whose file comes in pieces of this many bytes, and whether it has its line feed.
fn shown_of(
    rt: &impl Abort,
    alloc: Global,
    file: &[u8],
    number: u64,
    most: usize,
) -> (String, bool) {
    let mut seeker = LineSeeker::new(number);
    for piece in file.chunks(most.max(1)) {
        seeker.take(piece);
    }
    (
        seeker.shown(alloc).expect(rt, "no memory"),
        seeker.has_found(),
    )
}

fn is_shown(rt: &impl Abort, alloc: Global, file: &[u8], number: u64, wanted: (&str, bool)) {
    for most in 1..9usize {
        let (shown, has_found) = shown_of(rt, alloc, file, number, most);
        same_for(rt, &most, (shown.as_str(), has_found), wanted);
    }
}

#[test]
fn a_line_is_found_by_its_number(rt: HostRuntime) {
    let alloc = rt.alloc();
    is_shown(&rt, alloc, b"1 2\n3 4\n5 6\n", 1, ("1 2", true));
    is_shown(&rt, alloc, b"1 2\n3 4\n5 6\n", 2, ("3 4", true));
    is_shown(&rt, alloc, b"1 2\n3 4\n5 6", 3, ("5 6", false));
    is_shown(&rt, alloc, b"\xef 1\t2\r\n", 1, ("? 1\\t2\\r", true));
    let forty: &[u8] = b"1234567890123456789012345678901234567890\n";
    let text = "1234567890123456789012345678901234567890";
    is_shown(&rt, alloc, forty, 1, (text, true));
    let more: &[u8] = b"12345678901234567890123456789012345678901\n";
    let text = "1234567890123456789012345678901234567890..";
    is_shown(&rt, alloc, more, 1, (text, true));
}

// What is wrong with the line of this number of a log.
fn fault_at(file: &[u8], number: u64) -> Option<&'static str> {
    let mut seeker = LineSeeker::new(number);
    seeker.take(file);
    seeker.log_fault()
}

#[test]
fn a_line_is_judged_by_the_one_before(rt: HostRuntime) {
    let log: &[u8] = b"1000000 100000\n2000000 100000\n2000000 100000\n";
    same(&rt, fault_at(log, 2), None);
    let found = fault_at(log, 3).unwrap_or("");
    has_text(&rt, "equal", found, "not above that of the line before");
    let mut seeker = LineSeeker::new(4);
    seeker.take(b"3644697600 36\n# x\n\n3692217600 38\n");
    has_text(&rt, "a list", seeker.leap_fault(), "not one more than");
    let mut seeker = LineSeeker::new(1);
    seeker.take(b"j2 1 0 0 1 lone 2\r\n");
    has_text(
        &rt,
        "a journal",
        seeker.plain_fault().unwrap_or(""),
        "carriage return",
    );
    let mut seeker = LineSeeker::new(1);
    seeker.take(b"0 1 lone 2");
    has_text(
        &rt,
        "its end",
        seeker.plain_fault().unwrap_or(""),
        "before its line feed",
    );
    let mut seeker = LineSeeker::new(1);
    seeker.take(b"0 1 lone x\n");
    same(&rt, seeker.plain_fault(), None);
}

#[test]
fn a_run_that_serves_says_what_it_waits_for(rt: HostRuntime) {
    let alloc = rt.alloc();
    let mut ports = Vec::new(alloc);
    ports.push(123u16).expect(&rt, "no memory");
    let mut pipes = Vec::new(alloc);
    pipes
        .push(text_of(&rt, alloc, "dcf.fifo"))
        .expect(&rt, "no memory");
    let beginning = Beginning { ports, pipes };
    let found = format!(in alloc; "{beginning}").expect(&rt, "no memory");
    let text = "radio_ntpd: dcf.fifo is a FIFO: its opening waits for a writer
radio_ntpd: serves port 123 once all files are open; standard output follows at the end\n";
    same(&rt, found.as_str(), text);
}

// What the minutes of entries that say this are to one another.
fn minutes_of(kinds: &[Kind]) -> Minutes {
    let mut minutes = Minutes::none();
    for kind in kinds {
        minutes = minutes.with(&entry(0, 7, What::Heard(*kind)));
    }
    minutes
}

const LONE: Kind = Kind::Lone {
    second: 4_004_773_200,
};

const VERDICT: Kind = Kind::Verdict {
    second: 4_004_773_260,
    leap_at: 0,
};

const DIFFERS: Kind = Kind::Differs {
    before: 4_004_773_320,
    now: 4_004_773_380,
    apart: 60_000_000,
};

const REFUSED: Kind = Kind::Refused { rule: 2 };

// Entries, whether two minutes agree, whether one stands alone, and how many differ, up to three.
const MINUTES: [(&[Kind], bool, bool, u8); 8] = [
    (&[], false, false, 0),
    (&[REFUSED, LONE], false, true, 0),
    (&[LONE, VERDICT], true, true, 0),
    (&[VERDICT, REFUSED], true, false, 0),
    (&[DIFFERS], false, false, 1),
    (&[LONE, DIFFERS, REFUSED, DIFFERS], false, true, 2),
    (&[DIFFERS, DIFFERS, DIFFERS], false, false, 3),
    (
        &[DIFFERS, DIFFERS, DIFFERS, DIFFERS, VERDICT],
        true,
        false,
        3,
    ),
];

fn are_counted(rt: &impl Abort, rows: &[(&[Kind], bool, bool, u8)]) {
    for (kinds, agree, lone, differing) in rows {
        let minutes = Minutes {
            agree: *agree,
            lone: *lone,
            differing: *differing,
        };
        same(rt, minutes_of(kinds), minutes);
    }
}

// What is no answer of a radio is no minute.
#[test]
fn a_notice_is_no_minute(rt: HostRuntime) {
    let notice = entry(0, 7, What::Notice(0));
    same(&rt, Minutes::none().with(&notice), Minutes::none());
}

#[test]
fn minutes_of_entries_are_counted(rt: HostRuntime) {
    are_counted(&rt, &MINUTES);
}
