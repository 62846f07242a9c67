//! A line of a journal in either of its two forms.
ghost use Rattle.std.specs.Prelude.{◌≡◌, IfSome, Some};
ghost use Rattle.journal_entry.specs.Lines.{IsLineText};
ghost use Rattle.journal_entry.specs.declared.line.JournalLine as line;

use crate::keywords::VERSION_2;
use crate::{Entry, Numbered, read_entry, read_numbered};

/// A line of a journal: an entry by itself, as in the first form, or with its number and rate, as in the second.
#[derive(Clone, Copy, Debug, PartialEq, Eq)]
pub enum JournalLine {
    Bare(Entry),
    Numbered(Numbered),
}

/// The form of a journal's lines.
#[derive(Clone, Copy, Debug, PartialEq, Eq)]
pub enum Form {
    Bare,
    Numbered,
}

impl JournalLine {
    ghost use Rattle.journal_entry.specs.Lines.{entry_of, form_of};

    /// The form that it has.
    pub fn form(&self) -> Form
        ensures { result ≡ form_of self.now }
    {
        match self {
            JournalLine::Bare(_) => Form::Bare,
            JournalLine::Numbered(_) => Form::Numbered,
        }
    }

    /// Its entry.
    pub fn entry(&self) -> &Entry
        ensures { result.now ≡ entry_of self.now }
    {
        match self {
            JournalLine::Bare(entry) => entry,
            JournalLine::Numbered(numbered) => &numbered.entry,
        }
    }
}

/// The line whose text this is, in either form. `None` where no line has this text.
pub fn read_line(text: &[u8]) -> Option<JournalLine>
    ensures line { IfSome result (λ l. IsLineText text.now l) }
    ensures every { (l : line.JournalLine) → IsLineText text.now l → result ≡ Some l }
{
    if text.starts_with(VERSION_2) {
        Some(JournalLine::Numbered(read_numbered(text)?))
    } else {
        Some(JournalLine::Bare(read_entry(text)?))
    }
}
