// The fakes in memory, and the host's files.
ghost use Rattle.std.specs.Prelude.{◌≡◌};

use feed_link::{Failed, OpenGate, Outside, Sink, Source};
use host_links::HostOutside;
use memory_links::{MemorySink, SureSource};
use memory_outside::{FakeOpen, MemoryOutside, MemorySource, NamedLog};
use std::alloc::{AllocError, Global};
use std::fmt::Debug;
use std::process::Abort;
use std::test::Fail;

// Does what `assert_eq!` does, as a call. In a test with many of them, calls are proved in a third of the time.
pub(crate) fn same<T: PartialEq + Debug + Drop>(rt: &impl Abort, left: T, right: T) {
    assert_eq!(*rt; left, right);
}

// What a read gives, and the piece after it.
pub(crate) type Read = (Result<usize, Failed>, [u8; 3]);

pub(crate) fn read_three<S: Source>(source: &mut S) -> Read
    ensures { S.opening source.new ≡ S.opening source.old }
{
    let mut piece = [0u8; 3];
    let outcome = source.read(&mut piece);
    (outcome, piece)
}

// The source gives this at its next read.
pub(crate) fn gives<S: Source>(rt: &impl Abort, source: &mut S, want: Read) {
    same(rt, read_three(source), want);
}

// A log of these bytes, whose reads of these numbers fail.
fn log_of(alloc: Global, bytes: &[u8], fails: &[u64]) -> Result<MemorySource, AllocError> {
    let bytes = Vec::from_slice(alloc, bytes)?;
    let fails = Vec::from_slice(alloc, fails)?;
    Ok(MemorySource::new(bytes, fails))
}

// A log of five bytes gives them in two reads, between two that fail.
fn gives_five(rt: &impl Abort, source: &mut MemorySource) {
    gives(rt, source, (Ok(3), *b"abc"));
    gives(rt, source, (Err(Failed), [0; 3]));
    gives(rt, source, (Ok(2), *b"de\0"));
    gives(rt, source, (Err(Failed), [0; 3]));
    gives(rt, source, (Ok(0), [0; 3]));
}

#[test]
fn a_source_in_memory_fails_at_its_calls_and_loses_nothing(rt: HostRuntime) -> Result<(), Fail> {
    let mut source = log_of(rt.alloc(), b"abcde", &[2, 4])?;
    gives_five(&rt, &mut source);
    Ok(())
}

// A log of four bytes gives them in two reads.
fn gives_four(rt: &impl Abort, source: &mut SureSource) {
    gives(rt, source, (Ok(3), *b"abc"));
    gives(rt, source, (Ok(1), *b"d\0\0"));
    gives(rt, source, (Ok(0), [0; 3]));
}

#[test]
fn a_sure_source_never_fails(rt: HostRuntime) -> Result<(), Fail> {
    let mut source = SureSource::new(Vec::from_slice(rt.alloc(), b"abcd")?);
    gives_four(&rt, &mut source);
    Ok(())
}

// A write to the sink ends so.
pub(crate) fn takes<S: Sink>(
    rt: &impl Abort,
    sink: &mut S,
    piece: &[u8],
    want: Result<usize, Failed>,
) {
    same(rt, sink.write(piece), want);
}

pub(crate) fn are_bytes(rt: &impl Abort, left: &[u8], right: &[u8]) {
    same(rt, left, right);
}

// The second write fails, and leaves nothing.
fn fails_once(rt: &impl Abort, sink: &mut MemorySink) {
    takes(rt, sink, b"ab", Ok(2));
    takes(rt, sink, b"cd", Err(Failed));
    takes(rt, sink, b"ef", Ok(2));
    are_bytes(rt, sink.bytes(), b"abef");
}

#[test]
fn a_sink_in_memory_fails_at_its_calls_and_adds_nothing(rt: HostRuntime) -> Result<(), Fail> {
    let fails = Vec::from_slice(rt.alloc(), &[2u64])?;
    let mut sink = MemorySink::new(rt.alloc(), fails);
    fails_once(&rt, &mut sink);
    let bytes = sink.into_bytes();
    are_bytes(&rt, bytes.as_slice(), b"abef");
    Ok(())
}

// A log with this name and this text.
fn named(alloc: Global, name: &str, text: &str) -> Result<NamedLog, AllocError> {
    let log = log_of(alloc, text.as_bytes(), &[])?;
    Ok(NamedLog::new(String::from_str(alloc, name)?, log))
}

// Logs with these names and texts.
fn logs_of(alloc: Global, rows: &[(&str, &str)]) -> Result<Vec<NamedLog>, AllocError> {
    let mut logs = Vec::new(alloc);
    for (name, text) in rows {
        logs.push(named(alloc, name, text)?)?;
    }
    Ok(logs)
}

type Fake = MemoryOutside<OpenGate>;

// An outside with these logs in memory and no links. Its openings of these numbers fail.
fn outside_of(alloc: Global, rows: &[(&str, &str)], fails: &[u64]) -> Result<Fake, FakeOpen> {
    let logs = logs_of(alloc, rows)?;
    let fails = Vec::from_slice(alloc, fails)?;
    MemoryOutside::new(alloc, logs, Vec::new(alloc), OpenGate::new(), fails, 8, 8)
}

// Opens a log, reads from it and gives it back.
fn first_byte(outside: &mut Fake, name: &str) -> Result<u8, Failed> {
    let mut log = outside.open_log(name)?;
    let (count, piece) = read_three(&mut log);
    outside.give_back_log(log);
    count?;
    Ok(piece[0])
}

// The log of this name, opened now, begins so.
fn begins(rt: &impl Abort, outside: &mut Fake, name: &str, want: Result<u8, Failed>) {
    same(rt, first_byte(outside, name), want);
}

// A log, and how it begins where it is opened now.
type Opened<'a> = (&'a str, Result<u8, Failed>);

fn begin(rt: &impl Abort, outside: &mut Fake, rows: &[Opened<'_>]) {
    for (name, want) in rows {
        begins(rt, outside, name, *want);
    }
}

// Logs in memory are handed out so, one after another, where the openings of these numbers fail.
fn are_handed_out(
    rt: &impl Abort,
    alloc: Global,
    logs: &[(&str, &str)],
    fails: &[u64],
    rows: &[Opened<'_>],
) {
    match outside_of(alloc, logs, fails) {
        Ok(mut outside) => begin(rt, &mut outside, rows),
        Err(_) => assert!(*rt; false),
    }
}

const TWO_LOGS: [(&str, &str); 2] = [("a", "1"), ("b", "2")];

// Each of two logs is handed out once, and no other.
const ONCE: [Opened<'static>; 4] = [
    ("b", Ok(b'2')),
    ("b", Err(Failed)),
    ("c", Err(Failed)),
    ("a", Ok(b'1')),
];

#[test]
fn an_outside_in_memory_hands_each_log_out_once(rt: HostRuntime) {
    are_handed_out(&rt, rt.alloc(), &TWO_LOGS, &[9], &ONCE);
}

const FIVE_LOGS: [(&str, &str); 5] = [("b", "0"), ("a", "1"), ("a", "2"), ("c", "3"), ("a", "4")];

// Of the logs of one name the first is opened first.
const IN_ORDER: [Opened<'static>; 5] = [
    ("a", Ok(b'1')),
    ("a", Ok(b'2')),
    ("a", Ok(b'4')),
    ("a", Err(Failed)),
    ("c", Ok(b'3')),
];

#[test]
fn the_first_log_of_a_name_is_opened_first(rt: HostRuntime) {
    are_handed_out(&rt, rt.alloc(), &FIVE_LOGS, &[], &IN_ORDER);
}

// A source of 600 bytes gives them at once.
fn gives_all(rt: &impl Abort, source: &mut SureSource) {
    let mut piece = [0u8; 700];
    same(rt, source.read(&mut piece), Ok(600));
    same(rt, (piece[599], piece[600]), (7, 0));
    same(rt, source.read(&mut piece), Ok(0));
}

#[test]
fn a_read_may_be_of_more_than_512_bytes(rt: HostRuntime) -> Result<(), Fail> {
    let mut source = SureSource::new(vec![in rt.alloc(); 7u8; 600]?);
    gives_all(&rt, &mut source);
    Ok(())
}

// The first opening fails, and the second does not.
const LATE: [Opened<'static>; 2] = [("a", Err(Failed)), ("a", Ok(b'1'))];

#[test]
fn an_opening_fails_at_its_number(rt: HostRuntime) {
    are_handed_out(&rt, rt.alloc(), &TWO_LOGS, &[1], &LATE);
}

pub(crate) type Host<'a> = HostOutside<'a, HostRuntime>;

// What a log of the host gives at its first read. It is given back then.
fn read_of(outside: &mut Host<'_>, name: &str) -> Result<Read, Failed> {
    let mut log = outside.open_log(name)?;
    let read = read_three(&mut log);
    outside.give_back_log(log);
    Ok(read)
}

pub(crate) fn is_read(
    rt: &impl Abort,
    outside: &mut Host<'_>,
    name: &str,
    want: Result<Read, Failed>,
) {
    same(rt, read_of(outside, name), want);
}

#[test]
fn the_host_opens_files(rt: HostRuntime) {
    let mut outside = HostOutside::new(&rt);
    is_read(&rt, &mut outside, "/dev/zero", Ok((Ok(3), [0; 3])));
    is_read(&rt, &mut outside, "/dev/null/none", Err(Failed));
}
