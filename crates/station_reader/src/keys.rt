//! The keys at fault of one table: those that are unknown, those that are missing, and those whose values are not of their form.
ghost use Rattle.std.specs.Prelude.{◌≡◌, ◌&&◌, find, is_none, map, option_map, slice_get};
ghost use Rattle.std.specs.List.{list_any};
ghost use Rattle.std.specs.Str.{bytes_eq};
ghost use Rattle.toml.specs.Data.{get_member};
ghost use Rattle.toml.specs.View.{table_view};
ghost use Rattle.station_reader.specs.Forms.{is_required};
ghost use Rattle.station_reader.specs.Faults.{is_bad, is_known, is_missing, missing_in, bad_in, rows_of, unknown_in};
ghost use Rattle.station_reader.specs.Finding.{keys_for, row_seen};

use crate::form::{Need, Row};
use crate::rows::rows_of;
use crate::values::{has_form, value_at};
use toml::Table;

// A part of a station file: the top table, a radio, a server, a link, a key that is shared with clients, or a denied net.
#[derive(Clone, Copy)]
pub enum Part {
    Top,
    Radio,
    Server,
    Link,
    Key,
    Deny,
}

// What is asked of the keys of a table, in the order of the faults.
#[derive(Clone, Copy)]
pub enum Check {
    Unknown,
    Missing,
    Range,
}

// A key of a table; the place counts the tables of an array from 0.
#[derive(Clone, Copy)]
pub struct KeyPath<'a> {
    pub part: Part,
    pub place: usize,
    pub key: &'a str,
}

fn is_among(rows: &[Row], key: &str) -> bool
    ensures { result ≡ list_any (λ row. bytes_eq key.now row.key.now) rows.now }
{
    rows.iter().any(|row| key == row.key)
}

fn is_known(part: Part, key: &str) -> bool
    ensures { result ≡ is_known (rows_of part) key.now }
{
    is_among(rows_of(part), key)
}

fn first_unknown<'a>(part: Part, table: &'a Table) -> Option<&'a str>
    ensures { option_map (λ k. k.now) result ≡ slice_get (unknown_in (rows_of part) (table_view table.now)) 0 }
{
    'members: for (key, _) in table.iter() {
        if !is_known(part, key.as_str()) {
            return Some(key.as_str());
        }
    }
    None
}

fn is_missing(row: &Row, table: &Table) -> bool
    ensures { result ≡ is_missing (table_view table.now) (row_seen row.now) }
{
    match row.need {
        Need::Required => value_at(table, row.key).is_none(),
        _ => false,
    }
}

fn first_missing(part: Part, table: &Table) -> Option<&'static str>
    ensures { option_map (λ k. k.now) result ≡ slice_get (missing_in (rows_of part) (table_view table.now)) 0 }
{
    for row in rows_of(part) {
        if is_missing(row, table) {
            return Some(row.key);
        }
    }
    None
}

// Whether the value at a row's key is not of the row's form.
pub fn is_bad(row: &Row, table: &Table) -> bool
    ensures { result ≡ is_bad (table_view table.now) (row_seen row.now) }
{
    match value_at(table, row.key) {
        Some(value) => !has_form(row.form, value),
        None => false,
    }
}

fn first_bad(part: Part, table: &Table) -> Option<&'static str>
    ensures { option_map (λ k. k.now) result ≡ slice_get (bad_in (rows_of part) (table_view table.now)) 0 }
{
    for row in rows_of(part) {
        if is_bad(row, table) {
            return Some(row.key);
        }
    }
    None
}

// The first key of a table that fails a check, by the bytes of the keys.
pub fn first_in<'a>(check: Check, part: Part, table: &'a Table) -> Option<&'a str>
    ensures { option_map (λ k. k.now) result ≡ slice_get (keys_for check (rows_of part) (table_view table.now)) 0 }
{
    match check {
        Check::Unknown => first_unknown(part, table),
        Check::Missing => first_missing(part, table),
        Check::Range => first_bad(part, table),
    }
}
