//! How a file is cut into lines.
ghost use Rattle.std.specs.Prelude.{◌<◌};

use crate::shared::same;
use line_files::{Cut, LineCutter};
use std::alloc::{AllocError, Global};
use std::process::Abort;

const SCRIPT: &[u8] = b"pulse 0 1 2\n\nask 1 2\nswap 0";

// Takes a piece of a script, and adds the lines that end there, each with a bar after it.
fn take_piece(
    cutter: &mut LineCutter,
    piece: &[u8],
    lines: &mut Vec<u8>,
) -> Result<(), AllocError> {
    let mut rest = piece;
    for _ in 0..piece.len() {
        let taken = cutter.take(rest);
        rest = rest.split_at(taken.count).1;
        if taken.found == Cut::Line {
            lines.extend_from_slice(cutter.line())?;
            lines.push(b'|')?;
        }
    }
    Ok(())
}

// The lines of a script that comes in pieces of this length, and whether bytes follow the last.
fn cut(alloc: Global, script: &[u8], length: usize) -> Result<(Vec<u8>, bool), AllocError>
    requires { 0 < length }
{
    let mut cutter = LineCutter::new(4096);
    let mut lines = Vec::new(alloc);
    for piece in script.chunks(length) {
        take_piece(&mut cutter, piece, &mut lines)?;
    }
    Ok((lines, cutter.has_tail()))
}

// In pieces of this length a script has these lines, and bytes after them or not.
fn is_cut(
    rt: &impl Abort,
    alloc: Global,
    script: &[u8],
    length: usize,
    wanted: &[u8],
    has_tail: bool,
)
    requires { 0 < length }
{
    let (lines, tail) = cut(alloc, script, length).expect(rt, "no memory");
    same(
        rt,
        (length, lines.as_slice(), tail),
        (length, wanted, has_tail),
    );
}

#[test]
fn pieces_are_cut_anywhere(rt: HostRuntime) {
    let alloc = rt.alloc();
    for length in 1..30 {
        is_cut(&rt, alloc, SCRIPT, length, b"pulse 0 1 2||ask 1 2|", true);
    }
    // A carriage return is a byte of its line.
    is_cut(&rt, alloc, b"a\r\nb\rc\n\r", 4, b"a\r|b\rc|", true);
    is_cut(&rt, alloc, b"swap 0\n", 3, b"swap 0|", false);
}

// The limit is the cutter's own.
#[test]
fn a_line_is_too_long_where_the_limit_says(rt: HostRuntime) {
    for limit in 1..10usize {
        let mut cutter = LineCutter::new(limit);
        let whole = &b"123456789"[..limit - 1];
        takes(&rt, &mut cutter, whole, limit - 1, Cut::More);
        takes(&rt, &mut cutter, b"\n", 1, Cut::Line);
        same(&rt, cutter.line().len(), limit - 1);
        let longer = &b"123456789"[..limit];
        takes(&rt, &mut cutter, longer, limit, Cut::TooLong);
    }
}

// A cutter takes `count` bytes of a piece, and finds `found`.
fn takes(rt: &impl Abort, cutter: &mut LineCutter, piece: &[u8], count: usize, found: Cut) {
    let taken = cutter.take(piece);
    same(rt, (taken.count, taken.found), (count, found));
}

#[test]
fn a_line_is_too_long_at_its_4096th_byte(rt: HostRuntime) {
    let mut cutter = LineCutter::new(4096);
    let whole = [b'a'; 4095];
    takes(&rt, &mut cutter, &whole, 4095, Cut::More);
    takes(&rt, &mut cutter, b"\nnext", 1, Cut::Line);
    same(&rt, cutter.line(), whole.as_slice());
    takes(&rt, &mut cutter, &whole[1..], 4094, Cut::More);
    takes(&rt, &mut cutter, b"bc\n", 2, Cut::TooLong);
    takes(&rt, &mut cutter, b"bc\n", 2, Cut::TooLong);
}
