//! The texts, in one table. `docs/STANDARD_ERROR.md` has the same.

use std::fmt;

/// The whole help: one screen.
pub const HELP: &str = "radio_ntpd: a stratum 1 NTP server; its reference clocks are longwave radios

serve    answers NTP clients from radios and from other servers
decode   prints what each minute of a radio's log says
replay   plays a script of pulses, answers and requests against a station
drill    makes up a day of three radios and runs on it
migrate  writes a journal anew, in version 2 of its lines

radio_ntpd serve --station FILE [--during HEARINGS] [--after HEARINGS]
                 [--limit ENTRIES]
radio_ntpd decode --plan PLAN --log FILE
radio_ntpd replay --station FILE --script FILE [--limit ENTRIES]
radio_ntpd drill --seed SEED [--limit ENTRIES]
radio_ntpd migrate --station FILE --journal FILE

PLAN      dcf, msf or wwvb
HEARINGS  0 to 1000000 datagrams or silences of 2 s; by default 16 and 0
ENTRIES   1 to 4194304, the most of a journal; by default 1048576
SEED      0 to 4294967295

The exit status, which the last line of the output says too: 0 done, 1 usage,
2 open, 3 station, 4 read, 5 line, 6 full, 7 link, 8 write, 9 memory, 10 long.
See man radio_ntpd and docs/OPERATING.md.
";

/// The names of the code plans.
pub const PLAN_WORDS: &str = "dcf, msf or wwvb";

/// The command lines.
pub const COMMAND_LINES: &str =
    "radio_ntpd serve --station FILE [--during HEARINGS] [--after HEARINGS]
                 [--limit ENTRIES]
radio_ntpd decode --plan PLAN --log FILE
radio_ntpd replay --station FILE --script FILE [--limit ENTRIES]
radio_ntpd drill --seed SEED [--limit ENTRIES]
radio_ntpd migrate --station FILE --journal FILE
radio_ntpd --help
";

/// The program's version, and the kit that it is to be proved and built with.
pub const VERSION: &str = "radio_ntpd 0.3.0
to be proved and built with rattle-kit-13f logic dac8208d650f15bf
";

/// Where a log gave no minute and was a pipe, which is not read again.
pub const NO_MINUTE: &str = "it has no marks of this plan, or its widths are not in microseconds";

/// Where a log gave no minute, and its widths are below those of any mark.
pub const IN_MILLISECONDS: &str = "widths look like milliseconds; the log wants microseconds";

/// Where a log gave no minute, and its widths are too great for milliseconds and too small for microseconds.
pub const TOO_SMALL: &str = "widths are below those of any mark; the log wants microseconds";

/// Where a log gave no minute, and its starts rise by some 1000 a second.
pub const STARTS_IN_MILLISECONDS: &str =
    "starts look like milliseconds, and widths like microseconds; the log wants microseconds for both";

/// Where a log gave no minute, and is shorter than one.
pub const SHORT_LOG: &str = "it has fewer marks than a minute has";

/// Where a log gave no minute, and its marks are those of DCF77.
pub const LIKE_DCF: &str = "its marks look like those of --plan dcf";

/// Where a log gave no minute, and its marks are those of MSF.
pub const LIKE_MSF: &str = "its marks look like those of --plan msf";

/// Where a log gave no minute, and its marks are those of WWVB.
pub const LIKE_WWVB: &str = "its marks look like those of --plan wwvb";

/// Where a log gave no minute, and its marks are those of the plan.
pub const NOT_WHOLE: &str = "its marks look like those of this plan, but no minute has them all";

/// Where a log gave no minute, and its widths are what is left of a second beside a mark.
pub const INVERTED: &str =
    "its marks are high where they should be low; give edges_to_log.py --low";

/// Where a log gave no minute, and its marks are those of the plan but for a length that each has too much.
pub const TOO_WIDE: &str =
    "its marks look like those of this plan, each some 30 to 100 ms too long; set the receiver's threshold";

/// Where a log gave no minute, and its marks are those of the plan but for a length that each lacks.
pub const TOO_NARROW: &str =
    "its marks look like those of this plan, each some 30 to 100 ms too short; set the receiver's threshold";

/// Where a log gave no minute, and its marks are those of no plan.
pub const NO_MARKS: &str = "its widths are those of no plan; it is noise";

/// Where a log gave minutes, of which no two agree.
pub const NO_TWO_AGREE: &str =
    "no two minutes of the log agree, as where its counter is 0.2 % or more too fast or too slow";

/// Where the output accepts no more.
pub const NO_OUTPUT: &str = "standard output took no more: it is closed, or its disk is full";

/// Where there is not enough memory.
pub const NO_MEMORY: &str = "no memory was found, and nothing was done";

/// Where the station file is no TOML, and was a pipe.
pub const NO_TOML: &str = "it is not TOML, or not UTF-8";

/// Where the station file is no TOML, after the number of the line.
pub const NO_TOML_LINE: &str = " is not TOML: ";

/// Why a read fails.
pub const NOT_READ: &str = "it is a folder, or its disk failed";

/// Why a link fails.
pub const LINK_FAILED: &str = "a hearing or a sending of it; the rest went on";

/// Where a journal is full.
pub const FULL: &str = "there were more entries than a journal may have";

/// What a line of a log looks like.
pub const LOG_LINE: &str =
    "a line is START WIDTH in whole microseconds, one space between them, and starts rise";

/// What a row of a leap second file looks like.
pub const LEAP_LINE: &str =
    "a row is the second since 1900 at which a month begins and TAI less UTC from then on";

/// What a line of a script looks like.
pub const SCRIPT_LINE: &str =
    "man radio_ntpd has the lines of a script, and docs/FORMATS.md which feed may have which";

/// What a line of a journal looks like.
pub const JOURNAL_LINE: &str =
    "man radio_ntpd has the lines of a journal; it may be of another station, or cut off";

// What is wrong with a bad line: one condition each. `docs/FORMATS.md` has them.

pub const EMPTY_LINE: &str = "it is empty";

pub const BYTE_ORDER_MARK: &str = "a byte order mark stands before it";

pub const UTF_16: &str = "it is UTF-16, and ASCII is wanted";

pub const CR_END: &str = "a carriage return stands at its end";

pub const CR_INSIDE: &str = "a carriage return stands in it; a line ends with a line feed";

pub const EDGE: &str = "it is an edge of a receiver; edges_to_log.py makes a log of edges";

pub const TAB: &str = "a tab stands in it; one space stands between START and WIDTH";

pub const COMMENT: &str = "a log has no remarks";

pub const NEGATIVE: &str = "a number is negative";

pub const SEPARATOR: &str =
    "a comma or a semicolon stands in it; one space stands between START and WIDTH";

pub const NOT_WHOLE_NUMBER: &str = "a number is not whole; both are whole microseconds";

pub const ODD_BYTE: &str = "it has a byte that is no digit and no space";

pub const LONG_LINE: &str = "it has 32 bytes or more";

pub const SPACE_FIRST: &str = "a space stands at its beginning";

pub const SPACE_LAST: &str = "a space stands at its end";

pub const TWO_SPACES: &str = "two spaces stand in it";

pub const ONE_NUMBER: &str = "it has one number; a line is START WIDTH";

pub const THREE_NUMBERS: &str = "it has more than two numbers; a line is START WIDTH";

pub const LEADING_ZERO: &str = "a number has a leading zero";

pub const START_END: &str = "it looks like START END; a line is START WIDTH";

pub const WIDTH_START: &str = "it looks like WIDTH START; a line is START WIDTH";

pub const NANOSECONDS: &str = "its width looks like nanoseconds; the log wants microseconds";

pub const GREAT_START: &str =
    "its start is 2^50 (1125899906842624) or more, as a Unix time in microseconds is";

pub const ZERO_WIDTH: &str = "its width is 0";

pub const WIDE: &str = "its width is above 2000000 (2 s); a longer one is given as 2000000";

pub const NOT_ABOVE: &str = "its start is not above that of the line before";

pub const NO_LINE_FEED: &str = "the file ends before its line feed";

pub const ROW_NUMBERS: &str =
    "a row has two numbers, the second since 1900 at which a month begins and TAI less UTC from then on";

pub const ROW_REMARK: &str = "after its two numbers only a remark may stand, which begins with #";

pub const ROW_LATE: &str = "its second is 6311606400 (2100-01-03) or more";

pub const ROW_DIFFERENCE: &str = "its difference is above 255";

pub const ROW_FALLS: &str = "its second is not above that of the row before";

pub const ROW_STEP: &str = "its difference is not one more than that of the row before";

pub const ROW_MONTH: &str = "its second begins no month of UTC";

/// What a key of a station file requires.
pub struct Range {
    /// The table of the key, or nothing.
    pub table: &'static str,
    pub name: &'static str,
    pub wants: &'static str,
}

/// What each key of a station file requires.
pub const RANGES: [Range; 20] = [
    Range {
        table: "",
        name: "bound",
        wants: "whole milliseconds, 1 to 16000",
    },
    Range {
        table: "",
        name: "start",
        wants: "whole microseconds, 0 to 562949953421312",
    },
    Range {
        table: "",
        name: "gap",
        wants: "whole microseconds, 0 to 60000000",
    },
    Range {
        table: "",
        name: "clients",
        wants: "a whole number, 1 to 65536",
    },
    Range {
        table: "",
        name: "leap_file",
        wants: "the name of a file, in quotes",
    },
    Range {
        table: "",
        name: "radio",
        wants: "a table [[radio]] for each radio",
    },
    Range {
        table: "",
        name: "server",
        wants: "a table [[server]] for each server",
    },
    Range {
        table: "",
        name: "link",
        wants: "a table [[link]] for each port",
    },
    Range {
        table: "",
        name: "key",
        wants: "a table [[key]] for each key",
    },
    Range {
        table: "",
        name: "deny",
        wants: "a table [[deny]] for each net",
    },
    Range {
        table: "radio",
        name: "plan",
        wants: "\"dcf\", \"msf\" or \"wwvb\", in quotes",
    },
    Range {
        table: "radio",
        name: "log",
        wants: "the name of a file, in quotes",
    },
    Range {
        table: "radio",
        name: "delay",
        wants: "whole microseconds, 0 to 100000",
    },
    Range {
        table: "server",
        name: "address",
        wants: "an IPv4 address as \"192.0.2.1\", in quotes; names and IPv6 are not served",
    },
    Range {
        table: "server",
        name: "port",
        wants: "a whole number, 1 to 65535",
    },
    Range {
        table: "server",
        name: "polls",
        wants: "a whole number, 0 to 100000",
    },
    Range {
        table: "link",
        name: "port",
        wants: "a whole number, 1 to 65535",
    },
    Range {
        table: "key",
        name: "id",
        wants: "a whole number, 1 to 4294967295, that no key before it has",
    },
    Range {
        table: "key",
        name: "secret",
        wants: "1 to 32 visible characters of ASCII, in quotes",
    },
    Range {
        table: "deny",
        name: "net",
        wants: "a net of IPv4 as \"198.51.100.0/24\", in quotes",
    },
];

/// How many there may be of each.
pub const MOST: [(&str, &str); 4] = [
    (
        "radio",
        "16 radios, servers and leap second files together, and 4 radios of a plan",
    ),
    ("link", "8"),
    ("key", "8"),
    ("deny", "16"),
];

impl Range {
    // Whether it is that of this key.
    fn is_of(&self, table: &str, name: &str) -> bool {
        self.table.as_bytes() == table.as_bytes() && self.name.as_bytes() == name.as_bytes()
    }
}

/// What the key with this name requires, in this table or in none.
pub fn range_of(table: &str, name: &str) -> Option<&'static str> {
    for range in &RANGES {
        if range.is_of(table, name) {
            return Some(range.wants);
        }
    }
    None
}

/// How many there may be of what a key names.
pub fn most_of(key: &str) -> Option<&'static str> {
    for (name, most) in &MOST {
        if *name == key {
            return Some(*most);
        }
    }
    None
}

/// Writes three texts, one after the other. A call is proved in less time than a `write!`.
pub fn write_texts<W: fmt::Write>(
    f: &mut fmt::Formatter<W>,
    first: &str,
    second: &str,
    third: &str,
) -> fmt::Result {
    f.write_str(first)?;
    f.write_str(second)?;
    f.write_str(third)
}
