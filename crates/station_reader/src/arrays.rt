//! The keys at fault of all tables, in the order in which a fault is named.
ghost use Rattle.std.specs.Prelude.{◌≡◌, ◌++◌, ◌∷◌, option_map, slice_get};
ghost use Rattle.toml.specs.View.{view, items_view, table_view};
ghost use Rattle.station_reader.specs.Forms.{table_at, tables_at, tables_from};
ghost use Rattle.station_reader.specs.Faults.{client_sheets, item_sheets, keys_at, sheets, sheets_of, top_sheet};
ghost use Rattle.station_reader.specs.Finding.{keys_for, path_text, row_seen};

use crate::form::Row;
use crate::keys::{Check, KeyPath, Part, first_in};
use crate::rows::{DENY_ROW, KEY_ROW, LINK_ROW, RADIO_ROW, SERVER_ROW};
use crate::values::tables;
use toml::{Table, Value};

fn first_in_item<'a>(check: Check, part: Part, place: usize, item: &'a Value) -> Option<KeyPath<'a>>
    ensures { option_map path_text result ≡
        slice_get (keys_at (keys_for check) (sheets part (table_at place (view item.now)))) 0 }
{
    match item.as_table() {
        Some(table) => match first_in(check, part, table) {
            Some(key) => Some(KeyPath { part, place, key }),
            None => None,
        },
        None => None,
    }
}

fn first_in_items<'a>(check: Check, part: Part, items: &'a [Value]) -> Option<KeyPath<'a>>
    ensures { option_map path_text result ≡
        slice_get (keys_at (keys_for check) (sheets part (tables_from 0 (items_view items.now)))) 0 }
{
    for (place, item) in items.iter().enumerate() {
        let spot = first_in_item(check, part, place, item);
        if spot.is_some() {
            return spot;
        }
    }
    None
}

// The same of the array at a row's key.
pub fn first_in_array<'a>(
    check: Check,
    part: Part,
    table: &'a Table,
    row: &Row,
) -> Option<KeyPath<'a>>
    ensures { option_map path_text result ≡ slice_get
        (keys_at (keys_for check) (sheets part (tables_at (row_seen row.now) (table_view table.now)))) 0 }
{
    first_in_items(check, part, tables(table, row))
}

// The same of the arrays of feeds and links: the radios come first, and then the servers and the links.
fn first_in_arrays<'a>(check: Check, table: &'a Table) -> Option<KeyPath<'a>>
    ensures { option_map path_text result ≡
        slice_get (keys_at (keys_for check) (item_sheets (table_view table.now))) 0 }
{
    let radio = first_in_array(check, Part::Radio, table, &RADIO_ROW);
    if radio.is_some() {
        return radio;
    }
    let server = first_in_array(check, Part::Server, table, &SERVER_ROW);
    if server.is_some() {
        return server;
    }
    first_in_array(check, Part::Link, table, &LINK_ROW)
}

// The same of the arrays about clients: the shared keys come first, and then the denied nets.
fn first_in_clients<'a>(check: Check, table: &'a Table) -> Option<KeyPath<'a>>
    ensures { option_map path_text result ≡
        slice_get (keys_at (keys_for check) (client_sheets (table_view table.now))) 0 }
{
    let key = first_in_array(check, Part::Key, table, &KEY_ROW);
    if key.is_some() {
        return key;
    }
    first_in_array(check, Part::Deny, table, &DENY_ROW)
}

// The same of the tables before those about clients: the top table, and then the radios, the servers and the links.
pub fn first_before_clients<'a>(check: Check, table: &'a Table) -> Option<KeyPath<'a>>
    ensures { option_map path_text result ≡ slice_get
        (keys_at (keys_for check) (top_sheet (table_view table.now) ∷ item_sheets (table_view table.now))) 0 }
{
    match first_in(check, Part::Top, table) {
        Some(key) => Some(KeyPath {
            part: Part::Top,
            place: 0,
            key,
        }),
        None => first_in_arrays(check, table),
    }
}

// The first key of a document that fails a check.
pub fn first_at<'a>(check: Check, table: &'a Table) -> Option<KeyPath<'a>>
    ensures { option_map path_text result ≡ slice_get (keys_at (keys_for check) (sheets_of (table_view table.now))) 0 }
{
    let before = first_before_clients(check, table);
    if before.is_some() {
        return before;
    }
    first_in_clients(check, table)
}
