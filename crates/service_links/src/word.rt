//! The words that a supervisor writes for its run.
ghost use Rattle.std.specs.Prelude.{◌≡◌, ℕ, ◌≤◌, IfOk, IfSome, MatchResult, Some, decimal};
ghost use Rattle.service_links.specs.Words.{AreWords, Follows, IsBad, IsFirstBad, IsWord, descriptor_of, excludes, is_excluded, is_same, is_twice, text_of, texts_in};
ghost use Rattle.service_links.specs.declared.word.Word as word;

use decimal_text::whole_number;
use std::alloc::AllocError;

// The greatest number of a descriptor, and of seconds.
const GREATEST: u64 = 65_535;

// The least number of a descriptor that is handed over: those below are of the standard streams.
const LEAST: u64 = 3;

/// A word.
#[derive(Clone, Copy, Debug, PartialEq, Eq)]
pub enum Word {
    /// A socket of datagrams, by its number.
    Socket(u16),
    /// Servers are asked once the other end of this stream is closed.
    Ask(u16),
    /// Clients are answered once the other end of this stream is closed.
    Go(u16),
    /// The run ends once the other end of this stream is closed.
    End(u16),
    /// How many seconds pass between two requests to a server.
    Pace(u16),
}

/// Why a word is not valid.
#[derive(Clone, Copy, Debug, PartialEq, Eq)]
pub enum Fault {
    /// It is none of the words.
    Unknown,
    /// An earlier word has its number, or its name where that may stand only once.
    Twice,
}

/// A word that is not valid: its text, and why.
#[derive(Clone, Copy)]
pub struct BadWord<'a> {
    pub text: &'a str,
    pub fault: Fault,
}

// The number of a descriptor.
fn descriptor(text: &[u8]) -> Option<u16>
    ensures said { IfSome result (λ n. (text.now ≡ decimal n) × (3 ≤ n) × (n ≤ 65535)) }
    ensures every { (n : ℕ) → 3 ≤ n → n ≤ 65535 → text.now ≡ decimal n → result ≡ Some n }
{
    match whole_number(text, GREATEST) {
        Some(number) if number >= LEAST => Some(number as u16),
        _ => None,
    }
}

// A number of seconds.
fn seconds(text: &[u8]) -> Option<u16>
    ensures said { IfSome result (λ n. (text.now ≡ decimal n) × (n ≤ 65535)) }
    ensures every { (n : ℕ) → n ≤ 65535 → text.now ≡ decimal n → result ≡ Some n }
{
    match whole_number(text, GREATEST) {
        Some(number) => Some(number as u16),
        None => None,
    }
}

// The word of a text.
fn read_word(text: &[u8]) -> Option<Word>
    ensures word { IfSome result (λ w. (text.now ≡ text_of w) × IsWord w) }
    ensures every { (w : word.Word) → IsWord w → text.now ≡ text_of w → result ≡ Some w }
{
    if let Some(number) = text.strip_prefix(b"socket=") {
        Some(Word::Socket(descriptor(number)?))
    } else if let Some(number) = text.strip_prefix(b"ask=") {
        Some(Word::Ask(descriptor(number)?))
    } else if let Some(number) = text.strip_prefix(b"go=") {
        Some(Word::Go(descriptor(number)?))
    } else if let Some(number) = text.strip_prefix(b"end=") {
        Some(Word::End(descriptor(number)?))
    } else if let Some(number) = text.strip_prefix(b"pace=") {
        Some(Word::Pace(seconds(number)?))
    } else {
        None
    }
}

// Whether two words name the same descriptor.
fn is_same(one: Option<u16>, other: Option<u16>) -> bool
    ensures { result ≡ is_same one other }
{
    match (one, other) {
        (Some(one), Some(other)) => one == other,
        _ => false,
    }
}

impl Word {
    /// The number of the descriptor that it names.
    pub fn descriptor(self) -> Option<u16>
        ensures { result ≡ descriptor_of self }
    {
        match self {
            Word::Socket(number) => Some(number),
            Word::Ask(number) => Some(number),
            Word::Go(number) => Some(number),
            Word::End(number) => Some(number),
            Word::Pace(_) => None,
        }
    }

    // Whether another word has its name, which may stand only once.
    fn is_twice(self, word: Word) -> bool
        ensures { result ≡ is_twice self word }
    {
        match self {
            Word::Socket(_) => false,
            Word::Ask(_) => matches!(word, Word::Ask(_)),
            Word::Go(_) => matches!(word, Word::Go(_)),
            Word::End(_) => matches!(word, Word::End(_)),
            Word::Pace(_) => matches!(word, Word::Pace(_)),
        }
    }

    // Whether it excludes a later word.
    fn excludes(self, word: Word) -> bool
        ensures { result ≡ excludes self word }
    {
        self.is_twice(word) || is_same(self.descriptor(), word.descriptor())
    }
}

// Whether a word of a list excludes this one.
fn is_excluded(words: &[Word], word: Word) -> bool
    ensures { result ≡ is_excluded words.now word }
{
    words.iter().any(|other| other.excludes(word))
}

// What is wrong with the text of a word that follows others, or the word.
fn judge(words: &[Word], text: &[u8]) -> Result<Word, Fault>
    ensures { MatchResult result (λ w. Follows words.now w text.now) (λ fault. IsBad words.now text.now fault) }
{
    let Some(word) = read_word(text) else {
        return Err(Fault::Unknown);
    };
    if is_excluded(words, word) {
        return Err(Fault::Twice);
    }
    Ok(word)
}

/// The words of a text after others, with one space between two of them, or the first that is not valid.
pub fn read_words<'a>(
    mut words: Vec<Word>,
    text: &'a str,
) -> Result<Result<Vec<Word>, BadWord<'a>>, AllocError>
    ensures { IfOk result (λ read. MatchResult read
        (λ all. AreWords words.items (texts_in text.now) all.items)
        (λ bad. IsFirstBad words.items (texts_in text.now) bad.text.now bad.fault)) }
{
    if text.is_empty() {
        return Ok(Ok(words));
    }
    for part in text.split(' ') {
        match judge(words.as_slice(), part.as_bytes()) {
            Ok(word) => words.push(word)?,
            Err(fault) => return Ok(Err(BadWord { text: part, fault })),
        }
    }
    Ok(Ok(words))
}
