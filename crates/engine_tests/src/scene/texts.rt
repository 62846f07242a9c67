// The lines of a scene, their words, and the texts under its keywords.
use crate::scene::Unplayed;
use crate::scene::made::add_made;
use std::alloc::Global;

// What a line of a scene may begin with.
const KEYWORDS: &str =
    "run file bytes link writes begins ends has line entries at hears fails gate status sends sent not events passed";

/// The words of a line that are not yet taken.
#[derive(Clone, Copy)]
pub struct Words<'a> {
    pub left: &'a str,
}

impl<'a> Words<'a> {
    /// The words of a line.
    pub fn of(line: &'a str) -> Words<'a> {
        Words {
            left: line.trim_ascii(),
        }
    }

    /// Takes the next word, which is empty after the last.
    pub fn word(&mut self) -> &'a str {
        let (word, left) = self.left.split_once(' ').unwrap_or((self.left, ""));
        self.left = left;
        word
    }

    /// Takes the next word, which is to be a number.
    pub fn number(&mut self) -> Result<u64, Unplayed> {
        number(self.word())
    }

    /// Takes the next word, which is to be a number of 32 bits.
    pub fn small(&mut self) -> Result<u32, Unplayed> {
        match self.word().parse::<u32>() {
            Ok(number) => Ok(number),
            Err(_) => Err(NO_NUMBER),
        }
    }

    /// Takes the next word, which is to be a number of 8 bits.
    pub fn byte(&mut self) -> Result<u8, Unplayed> {
        match self.word().parse::<u8>() {
            Ok(number) => Ok(number),
            Err(_) => Err(NO_NUMBER),
        }
    }

    /// Takes the next word, which is to be the number of a place.
    pub fn place(&mut self) -> Result<usize, Unplayed> {
        match self.word().parse::<usize>() {
            Ok(number) => Ok(number),
            Err(_) => Err(NO_NUMBER),
        }
    }
}

const NO_NUMBER: Unplayed = Unplayed::Wrong("a word of the scene is no number");

/// The number that a word is.
pub fn number(word: &str) -> Result<u64, Unplayed> {
    match word.parse::<u64>() {
        Ok(number) => Ok(number),
        Err(_) => Err(NO_NUMBER),
    }
}

/// Whether a line belongs to a text.
fn is_text(line: &str) -> bool {
    line.starts_with("|") || line.starts_with(">")
}

// Whether a list has a word.
fn has_word(list: &str, word: &str) -> bool {
    for one in list.split(' ') {
        if one == word {
            return true;
        }
    }
    false
}

// The keywords under which a text stands.
const HEADS: &str = "file writes begins ends has";

/// Refuses a scene with a line that begins with no keyword, and one with a text under no line that takes it.
pub fn refuse_unknown(scene: &str) -> Result<(), Unplayed> {
    let mut takes_text = false;
    for line in scene.lines() {
        let line = line.trim_ascii();
        let keyword = Words::of(line).word();
        if is_text(line) {
            if !takes_text {
                return Err(Unplayed::Wrong("a text stands under no line that takes it"));
            }
        } else if line != "" {
            if !has_word(KEYWORDS, keyword) {
                return Err(Unplayed::Wrong("a line begins with no keyword"));
            }
            takes_text = has_word(HEADS, keyword);
        }
    }
    Ok(())
}

/// What stands after the keyword in the first line that begins with it, if any does.
pub fn after<'a>(scene: &'a str, keyword: &str) -> Option<&'a str> {
    for line in scene.lines() {
        let mut words = Words::of(line);
        if words.word() == keyword {
            return Some(words.left);
        }
    }
    None
}

/// The text under a line, of at most this many of its lines.
pub fn text_under(alloc: Global, scene: &str, head: &str, most: u64) -> Result<Vec<u8>, Unplayed> {
    let mut text = Vec::new(alloc);
    let mut count = 0u64;
    let mut is_under = false;
    for line in scene.lines() {
        let line = line.trim_ascii_start();
        if !is_text(line) {
            is_under = line == head || (is_under && line == "");
        } else if is_under && count < most {
            add_line(alloc, &mut text, line)?;
            count = count.saturating_add(1);
        }
    }
    Ok(text)
}

/// How many lines the text under a line has.
pub fn lines_under(scene: &str, head: &str) -> u64 {
    let mut count = 0u64;
    let mut is_under = false;
    for line in scene.lines() {
        let line = line.trim_ascii_start();
        if !is_text(line) {
            is_under = line == head || (is_under && line == "");
        } else if is_under {
            count = count.saturating_add(1);
        }
    }
    count
}

// Adds a line to a text.
fn add_line(alloc: Global, text: &mut Vec<u8>, line: &str) -> Result<(), Unplayed> {
    if let Some(made) = line.strip_prefix("> ") {
        return add_made(alloc, text, made);
    }
    let line = line.strip_prefix("|").unwrap_or(line);
    let line = line.strip_prefix(" ").unwrap_or(line);
    match line.strip_suffix("\\") {
        Some(unfinished) => text.extend_from_slice(unfinished.as_bytes())?,
        None => {
            text.extend_from_slice(line.as_bytes())?;
            text.push(b'\n')?;
        }
    }
    Ok(())
}
