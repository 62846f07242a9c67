// Plays a scene through the one call that the program makes, and judges what came of it.
ghost use Rattle.std.specs.Prelude.{◌≡◌, IfOk, false};
ghost use Rattle.memory_outside.specs.MemoryOutside.{is_gate_out};

use crate::runs::{same, written_over};
use crate::scene::Unplayed;
use crate::scene::links::{count_sent, datagram, kinds, links, sent_to};
use crate::scene::texts::{Words, after, lines_under, number, refuse_unknown, text_under};
use memory_outside::{HoldGate, MemoryLink, MemoryOutside, MemorySource, NamedLog};
use radio_engine::Status;
use std::alloc::Global;
use std::process::Abort;
use std::sync::Wait;
use std::thread::Threads;

// The worker of a scene's gate that never comes.
const NOBODY: u32 = 1000;

// For how many turns a gate holds a worker at most.
const TURNS: u64 = 1_000_000_000;

/// Plays the scene that these texts are together.
pub fn plays(rt: &(impl Abort + Threads + Wait + Sync), alloc: Global, texts: &[&str]) {
    let _ = written_of(rt, alloc, texts);
}

/// Plays the scene that these texts are together, and returns what was written.
pub fn written_of(
    rt: &(impl Abort + Threads + Wait + Sync),
    alloc: Global,
    texts: &[&str],
) -> Vec<u8> {
    match play_all(rt, alloc, texts) {
        Ok(written) => written,
        Err(Unplayed::Memory) => panic!(*rt; "no memory"),
        Err(Unplayed::Wrong(why)) => panic!(*rt; "{why}"),
    }
}

fn play_all(
    rt: &(impl Abort + Threads + Wait + Sync),
    alloc: Global,
    texts: &[&str],
) -> Result<Vec<u8>, Unplayed> {
    let scene = joined(alloc, texts)?;
    let fails = number_after(scene.as_str(), "fails writing")?;
    play(rt, alloc, scene.as_str(), fails)
}

/// Plays a scene with each of its writings failing in turn: those before it stand, and nothing else. Each line of its text is a writing.
pub fn plays_each_writing(
    rt: &(impl Abort + Threads + Wait + Sync),
    alloc: Global,
    texts: &[&str],
) {
    match play_each_writing(rt, alloc, texts) {
        Ok(()) => {}
        Err(Unplayed::Memory) => panic!(*rt; "no memory"),
        Err(Unplayed::Wrong(why)) => panic!(*rt; "{why}"),
    }
}

fn play_each_writing(
    rt: &(impl Abort + Threads + Wait + Sync),
    alloc: Global,
    texts: &[&str],
) -> Result<(), Unplayed> {
    let scene = joined(alloc, texts)?;
    let scene = scene.as_str();
    let count = lines_under(scene, "writes");
    for before in 0..count {
        let mut outside = outside_of(alloc, scene)?;
        let fails = before.saturating_add(1);
        let (written, status) = run(rt, alloc, scene, &mut outside, fails)?;
        let want = text_under(alloc, scene, "writes", before)?;
        same(rt, written.as_slice(), want.as_slice());
        same(rt, status, Status::WriteFault);
    }
    let _ = play(rt, alloc, scene, count.saturating_add(1))?;
    Ok(())
}

/// Plays a scene where memory may be refused. What is written is the whole text, or the status of want of memory alone, or, where the output in
/// memory found no room for more, a prefix of the text. Where the run wasn't reached nothing is judged.
pub fn plays_or_wants_memory(
    rt: &(impl Abort + Threads + Wait + Sync),
    alloc: Global,
    texts: &[&str],
) {
    match played(rt, alloc, texts) {
        Ok(()) | Err(Unplayed::Memory) => {}
        Err(Unplayed::Wrong(why)) => panic!(*rt; "{why}"),
    }
}

fn played(
    rt: &(impl Abort + Threads + Wait + Sync),
    alloc: Global,
    texts: &[&str],
) -> Result<(), Unplayed> {
    let scene = joined(alloc, texts)?;
    let scene = scene.as_str();
    let whole = text_under(alloc, scene, "writes", u64::MAX)?;
    let mut outside = outside_of(alloc, scene)?;
    let (written, status) = run(rt, alloc, scene, &mut outside, 0)?;
    let (written, whole) = (written.as_slice(), whole.as_slice());
    match status {
        Status::Memory => same(rt, written, b"status 9 memory\n".as_slice()),
        Status::WriteFault => {
            assert!(*rt; whole.starts_with(written));
            assert!(*rt; written.len() < whole.len());
        }
        _ => {
            same(rt, written, whole);
            judge_status(rt, Words::of(after(scene, "status").unwrap_or("")), status)?;
        }
    }
    Ok(())
}

fn joined(alloc: Global, texts: &[&str]) -> Result<String, Unplayed> {
    let mut scene = String::new(alloc);
    for text in texts {
        scene.push_str(text)?;
        scene.push_str("\n")?;
    }
    refuse_unknown(scene.as_str())?;
    Ok(scene)
}

fn play(
    rt: &(impl Abort + Threads + Wait + Sync),
    alloc: Global,
    scene: &str,
    fails: u64,
) -> Result<Vec<u8>, Unplayed> {
    let mut outside = outside_of(alloc, scene)?;
    let (written, status) = run(rt, alloc, scene, &mut outside, fails)?;
    judge_status(rt, Words::of(after(scene, "status").unwrap_or("")), status)?;
    for line in scene.lines() {
        let words = Words::of(line);
        judge_writing(rt, alloc, scene, words, written.as_slice())?;
        judge_length(rt, alloc, scene, words)?;
        judge_outside(rt, alloc, words, &outside)?;
    }
    Ok(written)
}

// What stands after a line's first words as a number, or 0.
fn number_after(scene: &str, words: &str) -> Result<u64, Unplayed> {
    for line in scene.lines() {
        if let Some(number_text) = line.trim_ascii().strip_prefix(words) {
            return number(number_text.trim_ascii());
        }
    }
    Ok(0)
}

fn run<R: Threads + Wait + Sync>(
    rt: &R,
    alloc: Global,
    scene: &str,
    outside: &mut MemoryOutside<HoldGate>,
    fails: u64,
) -> Result<(Vec<u8>, Status), Unplayed>
    requires { is_gate_out outside.old ≡ false }
{
    let mut arguments = Vec::new(alloc);
    for word in after(scene, "run")
        .ok_or(Unplayed::Wrong("the scene runs nothing"))?
        .split(' ')
    {
        match word {
            "" => {}
            "''" => arguments.push("")?,
            _ => arguments.push(word)?,
        }
    }
    Ok(written_over(rt, alloc, arguments.as_slice(), outside, fails)?)
}

/// The outside of a scene: its files, its links and its gate.
pub fn outside_of(alloc: Global, scene: &str) -> Result<MemoryOutside<HoldGate>, Unplayed>
    ensures { IfOk result (λ outside. is_gate_out outside ≡ false) }
{
    let files = files(alloc, scene)?;
    let links = links(alloc, scene)?;
    let gate = gate(scene)?;
    let fails = vec![in alloc; number_after(scene, "fails opening")?]?;
    Ok(MemoryOutside::new(alloc, files, links, gate, fails, 24, 100)?)
}

fn gate(scene: &str) -> Result<HoldGate, Unplayed> {
    let Some(line) = after(scene, "gate") else {
        return Ok(HoldGate::new(NOBODY, 0, NOBODY, 0, 0, TURNS));
    };
    let mut words = Words::of(line);
    let worker = words.small()?;
    let place = words.byte()?;
    let other = words.small()?;
    let other_place = words.byte()?;
    let times = words.small()?;
    Ok(HoldGate::new(worker, place, other, other_place, times, TURNS))
}

// The files of a scene.
fn files(alloc: Global, scene: &str) -> Result<Vec<NamedLog>, Unplayed> {
    let mut files = Vec::new(alloc);
    for line in scene.lines() {
        let line = line.trim_ascii();
        if let Some(name) = line.strip_prefix("file ") {
            let text = text_under(alloc, scene, line, u64::MAX)?;
            let fails = reading_that_fails(scene, name)?;
            let source = MemorySource::new(text, vec![in alloc; fails]?);
            files.push(NamedLog::new(String::from_str(alloc, name)?, source))?;
        }
    }
    Ok(files)
}

// The number of the reading of a file that fails, or 0.
fn reading_that_fails(scene: &str, name: &str) -> Result<u64, Unplayed> {
    for line in scene.lines() {
        if let Some(rest) = line.trim_ascii().strip_prefix("fails file ") {
            let mut words = Words::of(rest);
            if words.word() == name {
                return words.number();
            }
        }
    }
    Ok(0)
}

fn judge_writing(
    rt: &impl Abort,
    alloc: Global,
    scene: &str,
    words: Words<'_>,
    written: &[u8],
) -> Result<(), Unplayed> {
    let mut words = words;
    let keyword = words.word();
    let want = text_under(alloc, scene, keyword, u64::MAX)?;
    let want = want.as_slice();
    match keyword {
        "writes" => same(rt, written, want),
        "begins" => assert!(*rt; written.starts_with(want)),
        "ends" => assert!(*rt; written.ends_with(want)),
        "has" => assert!(*rt; has(written, want)),
        "line" => assert!(*rt; has_line(written, words)?),
        "entries" => same(rt, count_entries(written), words.place()?),
        _ => {}
    }
    Ok(())
}

// Whether a text has a part.
fn has(text: &[u8], part: &[u8]) -> bool {
    for place in 0..=text.len() {
        if text.get(place..).unwrap_or(&[]).starts_with(part) {
            return true;
        }
    }
    false
}

// Whether the line of a number, counted from 1, begins so.
fn has_line(text: &[u8], words: Words<'_>) -> Result<bool, Unplayed> {
    let mut words = words;
    let number = words.place()?;
    let mut lines = text.split(|byte| *byte == b'\n');
    let line = lines
        .nth(number.saturating_sub(1))
        .ok_or(Unplayed::Wrong("too few lines"))?;
    Ok(line.starts_with(words.left.as_bytes()))
}

// How many lines are of entries.
fn count_entries(text: &[u8]) -> usize {
    let mut count = 0usize;
    for line in text.split(|byte| *byte == b'\n') {
        if line.starts_with(b"j2 ") {
            count = count.saturating_add(1);
        }
    }
    count
}

fn judge_status(rt: &impl Abort, words: Words<'_>, status: Status) -> Result<(), Unplayed> {
    let mut words = words;
    same(rt, status.number(), words.byte()?);
    Ok(())
}

// How many bytes a text is to have: what a test of a bound rests on.
fn judge_length(
    rt: &impl Abort,
    alloc: Global,
    scene: &str,
    words: Words<'_>,
) -> Result<(), Unplayed> {
    let mut words = words;
    if words.word() == "bytes" {
        let length = words.place()?;
        same(
            rt,
            text_under(alloc, scene, words.left, u64::MAX)?.len(),
            length,
        );
    }
    Ok(())
}

fn judge_outside(
    rt: &(impl Abort + Wait),
    alloc: Global,
    words: Words<'_>,
    outside: &MemoryOutside<HoldGate>,
) -> Result<(), Unplayed> {
    let mut words = words;
    let keyword = words.word();
    if keyword == "passed" {
        let gate = outside.turns().ok_or(Unplayed::Wrong("the gate is out"))?;
        assert!(*rt; gate.passed(rt) >= 1);
        assert!(*rt; !gate.ran_out(rt));
    } else if is_of_a_link(keyword) {
        let link = outside
            .link(words.place()?)
            .ok_or(Unplayed::Wrong("a link is out"))?;
        judge_link(rt, alloc, keyword, words, link)?;
    }
    Ok(())
}

fn is_of_a_link(keyword: &str) -> bool {
    matches!(keyword, "sends" | "sent" | "not" | "events")
}

fn judge_link(
    rt: &impl Abort,
    alloc: Global,
    keyword: &str,
    words: Words<'_>,
    link: &MemoryLink,
) -> Result<(), Unplayed> {
    let mut words = words;
    if keyword == "events" {
        same(rt, kinds(alloc, link)?.as_str().trim_ascii(), words.left);
        return Ok(());
    }
    let name = words.word();
    let number = words.place()?;
    if keyword == "sends" {
        same(rt, count_sent(link, name)?, number);
        return Ok(());
    }
    let bytes = sent_to(link, name, number)?;
    let beginning = words.left.strip_suffix(" ..").unwrap_or(words.left);
    let want = datagram(alloc, beginning)?;
    let begins = bytes.starts_with(want.as_slice());
    match (keyword, beginning == words.left) {
        ("not", _) => assert!(*rt; !begins),
        (_, false) => assert!(*rt; begins),
        (_, true) => same(rt, bytes, want.as_slice()),
    }
    Ok(())
}
