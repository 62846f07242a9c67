// Files in memory, read piece by piece, with expected values counted by hand.
ghost use Rattle.memory_links.specs.Memory.{sure_state};

use crate::shared::{same, same_for};
use file_reader::{FileEnd, FileReader, Pulled, read_whole};
use memory_links::SureSource;
use memory_outside::MemorySource;
use outside_traits::{Failed, Source};
use std::alloc::{AllocError, Global};
use std::process::Abort;

// How the reading of a file ends, and how many bytes were read.
type Ended = Result<(FileEnd, usize), AllocError>;

fn end_of<S: Source>(alloc: Global, file: &mut S, limit: usize) -> Ended {
    let mut text = Vec::with_capacity(alloc, limit)?;
    let end = read_whole(file, limit, &mut text);
    Ok((end, text.len()))
}

// This many bytes, up to 1200.
fn bytes(alloc: Global, count: usize) -> Result<Vec<u8>, AllocError> {
    let text = [b'x'; 1200];
    Vec::from_slice(alloc, &text[..count.min(1200)])
}

// How many bytes a file has, the limit, how the reading ends, and how many bytes are read.
const LIMITS: [(usize, usize, FileEnd, usize); 11] = [
    (0, 5, FileEnd::Whole, 0),
    (4, 5, FileEnd::Whole, 4),
    (5, 5, FileEnd::Whole, 5),
    (6, 5, FileEnd::TooLong, 5),
    (0, 0, FileEnd::Whole, 0),
    (1, 0, FileEnd::TooLong, 0),
    (512, 512, FileEnd::Whole, 512),
    (513, 512, FileEnd::TooLong, 512),
    (512, 600, FileEnd::Whole, 512),
    (1024, 1024, FileEnd::Whole, 1024),
    (1200, 1024, FileEnd::TooLong, 1024),
];

// How a file of `count` bytes ends.
fn end_at(alloc: Global, count: usize, limit: usize) -> Ended {
    let mut file = SureSource::new(bytes(alloc, count)?);
    end_of(alloc, &mut file, limit)
}

fn are_read(rt: &impl Abort, alloc: Global, table: &[(usize, usize, FileEnd, usize)]) {
    for (count, limit, end, read) in table {
        let ended = end_at(alloc, *count, *limit);
        same_for(rt, &(count, limit), ended, Ok((*end, *read)));
    }
}

#[test]
fn a_file_up_to_the_limit_is_whole_and_one_byte_more_is_too_long(rt: HostRuntime) {
    are_read(&rt, rt.alloc(), &LIMITS);
}

// Which read fails, how the reading ends, and how many bytes are read.
const FAILING: [(u64, FileEnd, usize); 5] = [
    (1, FileEnd::Fault, 0),
    (2, FileEnd::Fault, 512),
    (3, FileEnd::Fault, 1024),
    (4, FileEnd::Fault, 1200),
    (5, FileEnd::Whole, 1200),
];

// The end of a file of 1200 bytes, one read of which fails.
fn end_after_fault(alloc: Global, failing: u64) -> Ended {
    let text = bytes(alloc, 1200)?;
    let fails = Vec::from_slice(alloc, &[failing])?;
    end_of(alloc, &mut MemorySource::new(text, fails), 1200)
}

fn end_with(rt: &impl Abort, alloc: Global, table: &[(u64, FileEnd, usize)]) {
    for (failing, end, read) in table {
        let ended = end_after_fault(alloc, *failing);
        same_for(rt, &failing, ended, Ok((*end, *read)));
    }
}

// A file of 1200 bytes takes four reads: 512, 512, 176 and none.
#[test]
fn a_read_that_fails_ends_the_reading(rt: HostRuntime) {
    end_with(&rt, rt.alloc(), &FAILING);
}

// A file that gives at most two bytes a call.
#[derive(Drop)]
struct Slow {
    file: SureSource,
}

impl Source for Slow {
    ghost state = { λ s. sure_state s.file };

    ghost opening = { λ s. 0 };

    fn read(&mut self, piece: &mut [u8]) -> Result<usize, Failed> {
        let most = piece.len().min(2);
        self.file.read(&mut piece[..most])
    }
}

// The limit, what is read of a file of seven bytes, and how the reading ends.
const IN_PARTS: [(usize, &[u8], FileEnd); 3] = [
    (7, b"abcdefg", FileEnd::Whole),
    (6, b"abcdef", FileEnd::TooLong),
    (5, b"abcde", FileEnd::TooLong),
];

// A file that comes in small parts is read so.
fn is_read_in_parts(rt: &impl Abort, alloc: Global, limit: usize, want: &[u8], end: FileEnd) {
    let text = Vec::from_slice(alloc, b"abcdefg").expect(rt, "no memory");
    let mut file = Slow {
        file: SureSource::new(text),
    };
    let mut read = Vec::with_capacity(alloc, limit).expect(rt, "no memory");
    let found = read_whole(&mut file, limit, &mut read);
    same(rt, (limit, found, read.as_slice()), (limit, end, want));
}

fn are_read_in_parts(rt: &impl Abort, alloc: Global, table: &[(usize, &[u8], FileEnd)]) {
    for (limit, want, end) in table {
        is_read_in_parts(rt, alloc, *limit, want, *end);
    }
}

#[test]
fn a_file_that_comes_in_small_parts_is_read_whole(rt: HostRuntime) {
    are_read_in_parts(&rt, rt.alloc(), &IN_PARTS);
}

fn pulls(rt: &impl Abort, reader: &mut FileReader, file: &mut SureSource, pulled: Pulled) {
    same(rt, reader.pull(file), pulled);
}

fn has_piece(rt: &impl Abort, reader: &FileReader, piece: &[u8]) {
    same(rt, reader.piece(), piece);
}

// A file of 512 bytes and two more.
fn longer(alloc: Global) -> Result<SureSource, AllocError> {
    let mut text = bytes(alloc, 512)?;
    text.extend_from_slice(b"yz")?;
    Ok(SureSource::new(text))
}

#[test]
fn pieces_come_in_order_and_the_end_stays(rt: HostRuntime) {
    let mut file = longer(rt.alloc()).expect(&rt, "no memory");
    let mut reader = FileReader::new(1000);
    assert!(rt; reader.piece().is_empty());
    pulls(&rt, &mut reader, &mut file, Pulled::Piece);
    has_piece(&rt, &reader, &[b'x'; 512]);
    pulls(&rt, &mut reader, &mut file, Pulled::Piece);
    has_piece(&rt, &reader, b"yz");
    pulls(&rt, &mut reader, &mut file, Pulled::Ended(FileEnd::Whole));
    pulls(&rt, &mut reader, &mut file, Pulled::Ended(FileEnd::Whole));
}
