// Texts over a sink in memory.
ghost use Rattle.memory_links.specs.Memory.{sink_state};

use crate::shared::same;
use memory_links::MemorySink;
use outside_traits::{Failed, Sink, write_all};
use std::alloc::{AllocError, Global};
use std::process::Abort;

// What a sink holds after these texts, where these of its writes fail, and the first text that failed.
fn held_after(
    alloc: Global,
    texts: &[&str],
    fails: &[u64],
) -> Result<(Vec<u8>, Option<usize>), AllocError> {
    let mut out = MemorySink::new(alloc, Vec::from_slice(alloc, fails)?);
    let mut failed = None;
    for place in 0..texts.len() {
        if write_all(&mut out, texts[place].as_bytes()).is_err() && failed.is_none() {
            failed = Some(place);
        }
    }
    Ok((out.into_bytes(), failed))
}

fn are_held(
    rt: &impl Abort,
    alloc: Global,
    texts: &[&str],
    fails: &[u64],
    bytes: &[u8],
    failed: Option<usize>,
) {
    let (held, first) = held_after(alloc, texts, fails).expect(rt, "no memory");
    same(rt, (held.as_slice(), first), (bytes, failed));
}

#[test]
fn a_text_is_written_whole_and_stands_after_the_one_before(rt: HostRuntime) {
    let texts = ["one", "", " two"];
    are_held(&rt, rt.alloc(), &texts, &[], b"one two", None);
}

#[test]
fn a_write_that_fails_is_not_tried_again(rt: HostRuntime) {
    let texts = ["one", "two", "three"];
    are_held(&rt, rt.alloc(), &texts, &[2], b"onethree", Some(1));
}

#[test]
fn an_empty_text_is_no_write(rt: HostRuntime) {
    let texts = ["", "one", "two"];
    are_held(&rt, rt.alloc(), &texts, &[1], b"two", Some(1));
}

// A sink that takes at most two bytes a call.
#[derive(Drop)]
struct Slow {
    out: MemorySink,
}

impl Sink for Slow {
    ghost state = { λ s. sink_state s.out };

    fn write(&mut self, piece: &[u8]) -> Result<usize, Failed> {
        let most = piece.len().min(2);
        self.out.write(&piece[..most])
    }
}

// A text is written, or not, and the sink holds these bytes then.
fn writes(rt: &impl Abort, slow: &mut Slow, text: &[u8], written: Result<(), Failed>, held: &[u8]) {
    let found = write_all(slow, text);
    same(rt, (found, slow.out.bytes()), (written, held));
}

// A text of five bytes takes three writes. The third write of the second text fails, which is the sixth of all.
#[test]
fn a_text_is_written_in_parts(rt: HostRuntime) {
    let fails = Vec::from_slice(rt.alloc(), &[6u64]).expect(&rt, "no memory");
    let mut slow = Slow {
        out: MemorySink::new(rt.alloc(), fails),
    };
    writes(&rt, &mut slow, b"abcde", Ok(()), b"abcde");
    writes(&rt, &mut slow, b"12345", Err(Failed), b"abcde1234");
}
