//! The hub's name, by which proofs know what is behind the hub's lock.
use std::marker::Brand;

/// Names one cell, how many entries its journal may have, and the settings of its pages. The caller that opens the cell does so
/// in a function of its own that is generic in the name, with `Brand` for it. The hub lives inside that function.
pub trait HubName {
    ghost use Rattle.std.specs.Prelude.{ℕ};
    ghost use Rattle.atomic_table.specs.Seated.{TableId};
    ghost use Rattle.system_fold.specs.Settings.{SettingsFields};

    ghost table: { TableId };

    ghost limit: { ℕ };

    ghost settings: { SettingsFields };
}

impl HubName for Brand {
    ghost use Rattle.page_cell.specs.Views.{no_settings};
    ghost use Rattle.verdict_journal.specs.Journals.{no_table};

    ghost table = { no_table };

    ghost limit = { 0 };

    ghost settings = { no_settings };
}
