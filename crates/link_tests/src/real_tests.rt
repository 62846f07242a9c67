// Files and streams, over readers and writers that are interrupted, fail, or take little at a call.
ghost use Rattle.std.specs.Prelude.{◌≡◌, ◌≤◌, IfOk};

use crate::memory_tests::{gives, read_three, same, takes};
use feed_link::{Failed, Source};
use host_links::{FileSource, StreamSink};
use std::io::{self, ErrorKind, Read, Write};
use std::process::Abort;

// How a read ends.
fn ends<S: Source>(rt: &impl Abort, source: &mut S, want: Result<usize, Failed>) {
    same(rt, read_three(source).0, want);
}

// A stream that is interrupted at its first call, goes on at its second, and fails from the third on.
#[derive(Drop)]
struct Shaky {
    calls: u8,
}

impl Shaky {
    fn answer(&mut self) -> io::Result<usize>
        ensures { IfOk result (λ n. n ≡ 0) }
    {
        self.calls = self.calls.saturating_add(1);
        match self.calls {
            1 => Err(io::Error::from(ErrorKind::Interrupted)),
            2 => Ok(0),
            _ => Err(io::Error::from(ErrorKind::Other)),
        }
    }
}

impl Read for Shaky {
    fn read(&mut self, _: &mut [u8]) -> io::Result<usize> {
        self.answer()
    }
}

impl Write for Shaky {
    fn write(&mut self, _: &[u8]) -> io::Result<usize> {
        self.answer()
    }

    fn flush(&mut self) -> io::Result<()> {
        Ok(())
    }
}

#[test]
fn a_file_is_read_on_after_an_interruption(rt: HostRuntime) {
    let mut source = FileSource::new(Shaky { calls: 0 });
    ends(&rt, &mut source, Ok(0));
    ends(&rt, &mut source, Err(Failed));
}

#[test]
fn a_write_of_nothing_is_a_fault(rt: HostRuntime) {
    let mut sink = StreamSink::new(Shaky { calls: 0 });
    takes(&rt, &mut sink, b"a", Err(Failed));
    let mut sink = StreamSink::new(Shaky { calls: 0 });
    takes(&rt, &mut sink, b"", Ok(0));
    takes(&rt, &mut sink, b"a", Err(Failed));
}

// A stream that is interrupted at a number of calls, one after another. Then it is at its end, and takes all that is written.
#[derive(Drop)]
struct Interrupted {
    calls: u16,
}

impl Interrupted {
    fn is_interrupted(&mut self) -> bool {
        if self.calls == 0 {
            return false;
        }
        self.calls -= 1;
        true
    }
}

impl Read for Interrupted {
    fn read(&mut self, _: &mut [u8]) -> io::Result<usize> {
        if self.is_interrupted() {
            return Err(io::Error::from(ErrorKind::Interrupted));
        }
        Ok(0)
    }
}

impl Write for Interrupted {
    fn write(&mut self, piece: &[u8]) -> io::Result<usize> {
        if self.is_interrupted() {
            return Err(io::Error::from(ErrorKind::Interrupted));
        }
        Ok(piece.len())
    }

    fn flush(&mut self) -> io::Result<()> {
        Ok(())
    }
}

#[test]
fn a_call_that_is_interrupted_again_and_again_is_made_again(rt: HostRuntime) {
    let mut source = FileSource::new(Interrupted { calls: 5000 });
    ends(&rt, &mut source, Ok(0));
    let mut sink = StreamSink::new(Interrupted { calls: 5000 });
    takes(&rt, &mut sink, b"ab", Ok(2));
}

// A file of the bytes 1, 2, 3 .. up to a last one, of which each call gives one.
#[derive(Drop)]
struct OneByOne {
    next: u8,
    last: u8,
}

impl Read for OneByOne {
    fn read(&mut self, piece: &mut [u8]) -> io::Result<usize> {
        if piece.is_empty() || self.next == self.last {
            return Ok(0);
        }
        self.next = self.next.saturating_add(1);
        piece[0] = self.next;
        Ok(1)
    }
}

#[test]
fn a_file_that_gives_one_byte_a_call_loses_none(rt: HostRuntime) {
    let mut source = FileSource::new(OneByOne { next: 0, last: 3 });
    gives(&rt, &mut source, (Ok(1), [1, 0, 0]));
    gives(&rt, &mut source, (Ok(1), [2, 0, 0]));
    gives(&rt, &mut source, (Ok(1), [3, 0, 0]));
    gives(&rt, &mut source, (Ok(0), [0; 3]));
}

// A file that fills every piece.
#[derive(Drop)]
struct Full;

impl Read for Full {
    fn read(&mut self, piece: &mut [u8]) -> io::Result<usize> {
        piece.fill(7);
        Ok(piece.len())
    }
}

#[test]
fn a_file_may_give_more_than_512_bytes_at_a_call(rt: HostRuntime) {
    let mut piece = [0u8; 700];
    same(&rt, FileSource::new(Full).read(&mut piece), Ok(700));
    same(&rt, piece, [7; 700]);
}

// A stream that takes at most three bytes a call, keeps the last of them, and fails once: at its second call.
#[derive(Drop)]
struct Narrow {
    calls: u8,
    last: u8,
}

impl Write for Narrow {
    fn write(&mut self, piece: &[u8]) -> io::Result<usize> {
        self.calls = self.calls.saturating_add(1);
        if self.calls == 2 {
            return Err(io::Error::from(ErrorKind::Other));
        }
        let count = piece.len().min(3);
        if count > 0 {
            self.last = piece[count - 1];
        }
        Ok(count)
    }

    fn flush(&mut self) -> io::Result<()> {
        Ok(())
    }
}

#[test]
fn a_short_write_is_answered_as_short_and_a_fault_in_mid_piece_as_a_fault(rt: HostRuntime) {
    let mut sink = StreamSink::new(Narrow { calls: 0, last: 0 });
    takes(&rt, &mut sink, b"abcde", Ok(3));
    takes(&rt, &mut sink, b"de", Err(Failed));
    takes(&rt, &mut sink, b"de", Ok(2));
    takes(&rt, &mut sink, b"", Ok(0));
}
