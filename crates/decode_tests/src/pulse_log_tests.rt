//! Tests of lines, of their faults, and of logs in pieces.
use crate::shared::{moment, same};
use pulse_log::{BadLine, LineReader, write_line};
use std::alloc::{AllocError, Global};
use std::process::Abort;
use std::test::Fail;
use tick_units::Reduction;

// What a reader answers over a log, byte by byte and at its end: starts and widths, and the bad line.
fn read(alloc: Global, log: &[u8]) -> Result<(Vec<(u64, u32)>, Option<u64>), AllocError> {
    let mut reader = LineReader::new();
    let mut found = Vec::new(alloc);
    for byte in log {
        if let Ok(Some(r)) = reader.take(*byte) {
            found.push((r.at.get(), r.width))?;
        }
    }
    let bad = reader.finish().err().map(|bad| bad.line);
    Ok((found, bad))
}

// Takes a piece of a log line by line, and adds what its lines say.
fn take_lines(
    reader: &mut LineReader,
    piece: &[u8],
    found: &mut Vec<(u64, u32)>,
) -> Result<(), AllocError> {
    let mut rest = piece;
    for _ in piece {
        if rest.is_empty() {
            return Ok(());
        }
        let (count, said) = match reader.take_whole_line(rest) {
            Some(line) => (line.count, Some(line.found)),
            None => {
                let prefix = reader.take_by_bytes(rest);
                (prefix.count, prefix.found.ok().flatten())
            }
        };
        rest = rest.split_at(count).1;
        if let Some(r) = said {
            found.push((r.at.get(), r.width))?;
        }
    }
    Ok(())
}

// What a reader answers over a log in pieces of this size, and at its end.
fn read_in_pieces(
    alloc: Global,
    log: &[u8],
    size: usize,
) -> Result<(Vec<(u64, u32)>, Option<u64>), AllocError> {
    let mut reader = LineReader::new();
    let mut found = Vec::new(alloc);
    for piece in log.chunks(size.max(1)) {
        take_lines(&mut reader, piece, &mut found)?;
    }
    let bad = reader.finish().err().map(|bad| bad.line);
    Ok((found, bad))
}

// A log, the starts and widths of its valid lines before the first bad one, and the number of that line.
type Read = (&'static str, &'static [(u64, u32)], Option<u64>);

const IN_PIECES: [Read; 5] = [
    (
        "62000000 100000\n63000000 200000\n",
        &[(62_000_000, 100_000), (63_000_000, 200_000)],
        None,
    ),
    ("7 1\n\n8 1\n", &[(7, 1)], Some(2)),
    ("7 1\n8 1\n9 1", &[(7, 1), (8, 1)], Some(3)),
    (
        "7 1\n11111111111111111111111111111111\n8 1\n",
        &[(7, 1)],
        Some(2),
    ),
    (
        "0 1\n1 2000000\n2 x\n3 1\n",
        &[(0, 1), (1, 2_000_000)],
        Some(3),
    ),
];

// A log is read so in pieces of this size.
fn is_read_in_pieces(
    rt: &impl Abort,
    alloc: Global,
    row: &Read,
    size: usize,
) -> Result<(), AllocError> {
    let (log, want, line) = *row;
    let (found, bad) = read_in_pieces(alloc, log.as_bytes(), size)?;
    same(
        rt,
        (log, size, found.as_slice(), bad),
        (log, size, want, line),
    );
    Ok(())
}

// A log is read so in pieces of each size.
fn is_read_in_each_size(rt: &impl Abort, alloc: Global, row: &Read) -> Result<(), AllocError> {
    for size in 1..=row.0.len() {
        is_read_in_pieces(rt, alloc, row, size)?;
    }
    Ok(())
}

#[test]
fn pieces_are_taken_line_by_line(rt: HostRuntime) -> Result<(), Fail> {
    for row in &IN_PIECES {
        is_read_in_each_size(&rt, rt.alloc(), row)?;
    }
    Ok(())
}

const VALID: [Read; 6] = [
    ("", &[], None),
    ("0 1\n", &[(0, 1)], None),
    (
        "62000000 100000\n63000000 200000\n",
        &[(62_000_000, 100_000), (63_000_000, 200_000)],
        None,
    ),
    (
        "1125899906842623 2000000\n",
        &[(1_125_899_906_842_623, 2_000_000)],
        None,
    ),
    (
        "999999999999999 999999\n1000000000000000 1000000\n",
        &[
            (999_999_999_999_999, 999_999),
            (1_000_000_000_000_000, 1_000_000),
        ],
        None,
    ),
    (
        "1 10\n1000000000000000 9\n1000000000000001 1000001\n",
        &[
            (1, 10),
            (1_000_000_000_000_000, 9),
            (1_000_000_000_000_001, 1_000_001),
        ],
        None,
    ),
];

// A log is read so byte by byte, and at once.
fn is_read_both_ways(rt: &impl Abort, alloc: Global, row: &Read) -> Result<(), AllocError> {
    let (log, want, line) = *row;
    let (found, bad) = read(alloc, log.as_bytes())?;
    same(rt, (log, found.as_slice(), bad), (log, want, line));
    is_read_in_pieces(rt, alloc, row, 512)
}

#[test]
fn valid_lines_are_read(rt: HostRuntime) -> Result<(), Fail> {
    for row in &VALID {
        is_read_both_ways(&rt, rt.alloc(), row)?;
    }
    Ok(())
}

// A log, how many of its lines are valid, and the number of the first bad one.
const INVALID: [(&str, usize, u64); 23] = [
    ("\n", 0, 1),
    (" 100\n", 0, 1),
    ("100\n", 0, 1),
    ("100 \n", 0, 1),
    ("007 100\n", 0, 1),
    ("00 100\n", 0, 1),
    ("7 0100\n", 0, 1),
    ("7 0\n", 0, 1),
    ("7 2000001\n", 0, 1),
    ("1125899906842624 1\n", 0, 1),
    ("7  1\n", 0, 1),
    ("7 1 \n", 0, 1),
    ("7\t1\n", 0, 1),
    ("7 1\r\n", 0, 1),
    ("seven 1\n", 0, 1),
    ("-7 1\n", 0, 1),
    ("7 1x\n", 0, 1),
    ("7 1\n6 1\n", 1, 2),
    ("7 1\n7 1\n", 1, 2),
    ("7 1\n\n8 1\n", 1, 2),
    ("7 1\n8 1\n9 1", 2, 3),
    ("1111111111111111111111111111111", 0, 1),
    ("7 1\n11111111111111111111111111111111", 1, 2),
];

// A log has this many valid lines before its first bad one, byte by byte and at once.
fn ends_at(
    rt: &impl Abort,
    alloc: Global,
    log: &str,
    valid: usize,
    line: u64,
) -> Result<(), AllocError> {
    let (found, bad) = read(alloc, log.as_bytes())?;
    same(rt, (log, found.len(), bad), (log, valid, Some(line)));
    let (found, bad) = read_in_pieces(alloc, log.as_bytes(), 512)?;
    same(rt, (log, found.len(), bad), (log, valid, Some(line)));
    Ok(())
}

#[test]
fn the_first_line_that_is_not_valid_is_reported(rt: HostRuntime) -> Result<(), Fail> {
    for (log, valid, line) in INVALID {
        ends_at(&rt, rt.alloc(), log, valid, line)?;
    }
    Ok(())
}

#[test]
fn a_line_is_bad_at_its_32nd_byte(rt: HostRuntime) -> Result<(), Fail> {
    let mut reader = LineReader::new();
    for _ in 0..31u8 {
        same(&rt, reader.take(b'1'), Ok(None));
    }
    same(&rt, reader.take(b'1'), Err(BadLine { line: 1 }));
    Ok(())
}

#[test]
fn a_bad_line_is_reported_on(rt: HostRuntime) -> Result<(), Fail> {
    let mut reader = LineReader::new();
    for byte in b"7 1\n8 x" {
        let _ = reader.take(*byte);
    }
    same(&rt, reader.take(b'\n'), Err(BadLine { line: 2 }));
    for byte in b"9 1\n10 1\n" {
        same(&rt, reader.take(*byte), Err(BadLine { line: 2 }));
    }
    same(&rt, reader.finish(), Err(BadLine { line: 2 }));
    Ok(())
}

#[test]
fn lines_are_written(rt: HostRuntime) -> Result<(), Fail> {
    let table = [
        (0, 1, "0 1\n####################################"),
        (
            62_000_000,
            100_000,
            "62000000 100000\n########################",
        ),
        (
            1_125_899_906_842_623,
            2_000_000,
            "1125899906842623 2000000\n###############",
        ),
    ];
    for (at, width, want) in table {
        let at = moment(at);
        let mut out = [b'#'; 40];
        let length = write_line(Reduction { at, width }, &mut out);
        same(&rt, out.as_slice(), want.as_bytes());
        same(&rt, Some(length), want.find('#'));
    }
    Ok(())
}
