//! Where a station file stops being TOML.

use std::alloc::Global;

// The line in which a byte stands, from 1. What stands after a text's end is in its last line.
fn line_at(text: &[u8], place: usize) -> usize {
    let last = text.len().saturating_sub(1);
    let before = text.get(..place.min(last)).unwrap_or(text);
    let mut line = 1usize;
    for byte in before {
        if *byte == b'\n' {
            line = line.saturating_add(1);
        }
    }
    line
}

/// The line in which a text stops being TOML or UTF-8, from 1, and why. Lines end with a line feed.
#[derive(Drop)]
pub struct TomlFault {
    pub line: usize,
    pub why: String,
}

/// Where and why a text stops being TOML or UTF-8. There is none where the text is TOML, or where memory runs out.
pub fn toml_fault(alloc: Global, text: &[u8]) -> Option<TomlFault> {
    match toml::table_from_slice(alloc, text) {
        Ok(_) => None,
        Err(error) => Some(TomlFault {
            line: line_at(text, error.span()?.start),
            why: String::from_str(alloc, error.message()).ok()?,
        }),
    }
}
