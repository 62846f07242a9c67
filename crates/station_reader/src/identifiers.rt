//! The first value of a document that is a fault: also an identifier that an earlier key has.
ghost use Rattle.std.specs.Prelude.{◌≡◌, ◌==◌, ◌||◌, [], option_map, slice_get};
ghost use Rattle.std.specs.List.{list_any};
ghost use Rattle.toml.specs.View.{view, items_view, table_view};
ghost use Rattle.station_reader.specs.Forms.{table_at, tables_from};
ghost use Rattle.station_reader.specs.Faults.{bad_in_key, bad_in_keys, bad_of_clients, bad_values, is_bad, is_taken};
ghost use Rattle.station_reader.specs.Rows.{id_row};
ghost use Rattle.station_reader.specs.Finding.{ids_at, ids_in, path_text};

use crate::arrays::{first_before_clients, first_in_array};
use crate::keys::{Check, KeyPath, Part, is_bad};
use crate::rows::{DENY_ROW, ID_ROW, KEY_ROW, SECRET_ROW};
use crate::values::{number, tables};
use toml::{Table, Value};

// Whether a value is a table with this identifier.
fn has_id(item: &Value, id: u64) -> bool
    ensures { result ≡ list_any (λ other. other == id) (ids_at (view item.now)) }
{
    match item.as_table() {
        Some(table) => number(table, &ID_ROW) == id,
        None => false,
    }
}

// Whether one of these values is.
fn is_taken(items: &[Value], id: u64) -> bool
    ensures { result ≡ list_any (λ other. other == id) (ids_in (items_view items.now)) }
{
    for item in items {
        if has_id(item, id) {
            return true;
        }
    }
    false
}

// Whether the identifier of a key is a fault.
fn is_id_bad(before: &[Value], table: &Table) -> bool
    ensures { result ≡ (is_bad (table_view table.now) id_row ||
        is_taken (ids_in (items_view before.now)) (table_view table.now)) }
{
    let taken = is_taken(before, number(table, &ID_ROW));
    is_bad(&ID_ROW, table) || taken
}

// The first bad value of a key's table, which stands after the tables of these values.
fn first_in_key(before: &[Value], table: &Table) -> Option<&'static str>
    ensures { option_map (λ k. k.now) result ≡
        slice_get (bad_in_key (ids_in (items_view before.now)) (table_view table.now)) 0 }
{
    if is_id_bad(before, table) {
        return Some(ID_ROW.key);
    }
    if is_bad(&SECRET_ROW, table) {
        return Some(SECRET_ROW.key);
    }
    None
}

// The same of a value that may be a table.
fn first_in_item(before: &[Value], place: usize, item: &Value) -> Option<KeyPath<'static>>
    ensures { option_map path_text result ≡
        slice_get (bad_in_keys (ids_in (items_view before.now)) (table_at place (view item.now))) 0 }
{
    match item.as_table() {
        Some(table) => match first_in_key(before, table) {
            Some(key) => Some(KeyPath {
                part: Part::Key,
                place,
                key,
            }),
            None => None,
        },
        None => None,
    }
}

// The first bad value of the keys' tables.
fn first_in_keys(items: &[Value]) -> Option<KeyPath<'static>>
    ensures { option_map path_text result ≡ slice_get (bad_in_keys [] (tables_from 0 (items_view items.now))) 0 }
{
    for (place, item) in items.iter().enumerate() {
        let spot = first_in_item(items.split_at(place).0, place, item);
        if spot.is_some() {
            return spot;
        }
    }
    None
}

// The same of the tables about clients: the keys come first, and then the denied nets.
fn first_of_clients<'a>(table: &'a Table) -> Option<KeyPath<'a>>
    ensures { option_map path_text result ≡ slice_get (bad_of_clients (table_view table.now)) 0 }
{
    let key = first_in_keys(tables(table, &KEY_ROW));
    if key.is_some() {
        return key;
    }
    first_in_array(Check::Range, Part::Deny, table, &DENY_ROW)
}

// The first value of a document that is a fault.
pub fn first_bad_value<'a>(table: &'a Table) -> Option<KeyPath<'a>>
    ensures { option_map path_text result ≡ slice_get (bad_values (table_view table.now)) 0 }
{
    let before = first_before_clients(Check::Range, table);
    if before.is_some() {
        return before;
    }
    first_of_clients(table)
}
