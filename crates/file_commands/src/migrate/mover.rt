//! What is kept of a journal while its lines are converted, whatever its length.
ghost use Rattle.std.specs.Prelude.{◌≡◌, ◌+◌, ◌<◌, ◌≤◌, ◌^◌, ◌↔◌, IsTrue, [], List, None, length};
ghost use Rattle.journal_entry.specs.declared.line.JournalLine as journal;
ghost use Rattle.file_commands.specs.Migrating.{StatesNumber};
ghost use Rattle.system_fold.specs.Settings.{AreValid, SettingsFields};

use clock_page::Page;
use command_ends::Line;
use journal_entry::{Entry, Form, JournalLine, Numbered, is_valid, read_line};
use line_files::{LineTaker, write_numbered_line};
use std::marker::Model;
use system_fold::{FoldState, Settings};

/// The most lines of a journal.
pub const MOST_LINES: u64 = 4_194_304;

/// A line of a journal is too long at this many bytes.
pub const TOO_LONG: usize = 300;

// What is kept of the lines so far: the fold of their entries, the page after them, and their form.
#[derive(Drop)]
pub struct Mover {
    fold: FoldState,
    page: Page,
    form: Option<Form>,
    sources: u32,
}

impl Model for Mover {
    ghost use Rattle.file_commands.specs.Moving.{IsMoving, MoverFields};

    ghost Value = { MoverFields };

    ghost view = { λ m. record { fold = m.fold; page = m.page; form = m.form; sources = m.sources } };

    ghost invariant = { λ m. IsMoving m.fold m.sources };
}

// A line of the second form has this number, rate and entry.
fn reports(line: &JournalLine, numbered: &Numbered) -> bool
    ensures { IsTrue result ↔ StatesNumber line.now numbered.now }
{
    match line {
        JournalLine::Bare(_) => true,
        JournalLine::Numbered(reported) => reported.length == numbered.length
            && reported.rate == numbered.rate,
    }
}

// An entry with its number, and the rate of the page after it.
fn numbered_by(page: &Page, number: u64, entry: &Entry) -> Numbered
    ensures { result ≡ record { length = number; rate = page.now.rate; entry = entry.now } }
{
    Numbered {
        length: number,
        rate: page.rate,
        entry: *entry,
    }
}

impl Mover {
    ghost use Rattle.file_commands.specs.Moving.{HasMoved, IsFormOf, MovesLine};
    ghost use Rattle.file_commands.specs.Migrating.{HasFormOf};

    // No line is converted yet.
    pub fn new(settings: &Settings) -> Mover
        requires { AreValid settings.now }
        ensures moved { HasMoved result settings.now [] None }
        ensures none { result.fold.length ≡ 0 }
    {
        let fold = FoldState::new(settings);
        Mover {
            page: fold.page(),
            fold,
            form: None,
            sources: settings.count(),
        }
    }

    // Whether a line has the form of those before it.
    fn has_form(&self, line: &JournalLine) -> bool
        ensures { (before : List journal.JournalLine) → IsFormOf self.now.form before →
            (IsTrue result ↔ HasFormOf before line.now) }
    {
        match self.form {
            Some(form) => line.form() == form,
            None => true,
        }
    }

    // Takes the line of this number: its second form, where it may stand here.
    pub fn take(&mut self, line: &JournalLine, number: u64) -> Option<Numbered>
        requires { self.old.fold.length < 2 ^ 22 }
        ensures grown { self.new.fold.length ≤ self.old.fold.length + 1 }
        ensures moves { (settings : SettingsFields) (before : List journal.JournalLine) → number ≡ length before + 1 →
            length before < 4194304 →
            HasMoved self.old settings before None → MovesLine self.new settings before line.now number result }
    {
        if !self.has_form(line) || !is_valid(line.entry(), self.sources) {
            return None;
        }
        self.form = Some(line.form());
        self.fold.step(line.entry());
        let page = self.fold.page();
        let numbered = numbered_by(&page, number, line.entry());
        if !reports(line, &numbered) {
            return None;
        }
        self.page = page;
        Some(numbered)
    }

    // The page after the lines that were converted.
    pub fn page(&self) -> Page
        ensures { result ≡ self.now.page }
    {
        self.page
    }
}

impl LineTaker for Mover {
    ghost use Rattle.file_commands.specs.Moving.{journal_way};
    ghost use Rattle.file_commands.specs.declared.migrate.mover.TheConstants.{MOST_LINES, TOO_LONG};
    ghost use Rattle.std.specs.Prelude.{Some, refl};
    ghost use Rattle.std.proofs.Common.{sym};
    ghost use Rattle.std.proofs.lemmas.Option.{none-some};
    ghost use Rattle.station_values.specs.Station.{StationFields};

    ghost too_long = { TOO_LONG };

    ghost most = { Some MOST_LINES };

    ghost Case = { StationFields };

    ghost way = { journal_way };

    ghost is_ready = { λ mover count. mover.fold.length ≤ count };

    // Converts the line into the second form.
    fn take_line(&mut self, text: &[u8], count: u64, line: &mut Line) -> Option<usize> {
        let Some(read) = read_line(text) else {
            return None;
        };
        let Some(numbered) = self.take(&read, count + 1) else {
            return None;
        };
        Some(write_numbered_line(&numbered, line))
    }

    ghost is_way = { λ of. record {
      none = refl;
      limit = λ lines. refl;
      room = λ lines text line says. says.1.room;
      ends = λ mover lines bad moved. record { page = moved.page; going = λ none. absurd (none-some bad (sym none)) };
    } };
}
