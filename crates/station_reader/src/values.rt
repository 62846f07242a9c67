//! What the values of a table say.
//!
//! A value is read after all keys were judged. So a default stands only for a key that may be left out.
ghost use Rattle.std.specs.Prelude.{◌≡◌, ◌≤◌, [], None, IfSome, option_map};
ghost use Rattle.std.specs.List.{list_all};
ghost use Rattle.tick_units.specs.declared.marks.Plan.TheVariants.{Dcf};
ghost use Rattle.toml.specs.Data.{get_member};
ghost use Rattle.toml.specs.Text.{are_tables as spec_are_tables};
ghost use Rattle.toml.specs.View.{array_view, items_view, table_view, view};
ghost use Rattle.station_reader.specs.Forms.{address_in, has_form, is_secret, is_visible, net_in, number_at, plan_in, preset_of, read_or, secret_in, tables_at, tables_from, tables_in, text_in, whole_in, whole_of};
ghost use Rattle.station_reader.specs.Rows.{address_row, leap_file_of, net_of, plan_row, secret_row};
ghost use Rattle.station_reader.specs.Finding.{least_of, most_of, row_seen};
ghost use Rattle.station_values.specs.KeptStation.{net_kept};

use crate::address::address;
use crate::form::{Form, Need, Row};
use crate::nets::denied_net;
use crate::rows::{ADDRESS_ROW, LEAP_FILE_ROW, NET_ROW, PLAN_ROW, SECRET_ROW};
use station_values::DeniedNet;
use tick_units::Plan;
use toml::value::Array;
use toml::{Table, Value};

// A secret has at most this number of bytes.
const LONGEST: usize = 32;

// The net of all addresses.
const ALL: DeniedNet = DeniedNet {
    address: 0,
    bits: 0,
};

// The value at a key.
pub fn value_at<'a>(table: &'a Table, key: &str) -> Option<&'a Value>
    ensures { option_map (λ v. view v.now) result ≡ get_member key.now (table_view table.now) }
{
    table.get(key)
}

// ---- what a value says, where it is of a form

// A whole number in a range.
fn whole(value: &Value, least: u64, most: u64) -> Option<u64>
    ensures value { result ≡ whole_in least most (view value.now) }
    ensures least { IfSome result (λ n. least ≤ n) }
    ensures most { IfSome result (λ n. n ≤ most) }
{
    let number = u64::try_from(value.as_integer()?).ok()?;
    if least <= number && number <= most {
        Some(number)
    } else {
        None
    }
}

// A text that is not empty.
fn filled_text(value: &Value) -> Option<&str>
    ensures { option_map (λ t. t.now) result ≡ text_in (view value.now) }
{
    let text = value.as_str()?;
    if text.is_empty() { None } else { Some(text) }
}

// Only visible characters of ASCII.
fn is_visible(text: &[u8]) -> bool
    ensures { result ≡ list_all is_visible text.now }
{
    text.iter().all(|byte| 33 <= *byte && *byte <= 126)
}

// One to 32 visible characters of ASCII.
fn is_secret(text: &str) -> bool
    ensures { result ≡ is_secret text.now }
{
    1 <= text.len() && text.len() <= LONGEST && is_visible(text.as_bytes())
}

fn secret_of(value: &Value) -> Option<&str>
    ensures { option_map (λ t. t.now) result ≡ secret_in (view value.now) }
{
    let text = value.as_str()?;
    if is_secret(text) { Some(text) } else { None }
}

fn plan_of(value: &Value) -> Option<Plan>
    ensures { result ≡ plan_in (view value.now) }
{
    Plan::of_word(value.as_str()?)
}

fn address_of(value: &Value) -> Option<u32>
    ensures { result ≡ address_in (view value.now) }
{
    address(value.as_str()?)
}

fn net_of(value: &Value) -> Option<DeniedNet>
    ensures { option_map net_kept result ≡ net_in (view value.now) }
{
    denied_net(value.as_str()?)
}

fn are_tables(array: &Array) -> bool
    ensures { result ≡ spec_are_tables (array_view array.now) }
{
    for item in array {
        if !item.is_table() {
            return false;
        }
    }
    true
}

// The values of an array of tables.
fn tables_of(value: &Value) -> Option<&[Value]>
    ensures { option_map (λ v. tables_from 0 (items_view v.now)) result ≡ tables_in (view value.now) }
{
    match value.as_array() {
        Some(array) => {
            if are_tables(array) {
                Some(array.as_slice())
            } else {
                None
            }
        }
        None => None,
    }
}

// Whether a value is of a form.
pub fn has_form(form: Form, value: &Value) -> bool
    ensures { result ≡ has_form form (view value.now) }
{
    match form {
        Form::Whole(least, most) => whole(value, least, most).is_some(),
        Form::Text => filled_text(value).is_some(),
        Form::Secret => secret_of(value).is_some(),
        Form::Plan => plan_of(value).is_some(),
        Form::Address => address_of(value).is_some(),
        Form::Net => net_of(value).is_some(),
        Form::Tables => tables_of(value).is_some(),
    }
}

// ---- what a table says at a row's key

// The number that stands for a key that is not there.
fn preset(row: &Row) -> u64
    ensures { result ≡ preset_of row.now.need }
{
    match row.need {
        Need::Preset(number) => number,
        _ => 0,
    }
}

// The number that a value is, by a form.
fn number_of(value: &Value, form: Form) -> Option<u64>
    ensures value { result ≡ whole_of form (view value.now) }
    ensures least { IfSome result (λ n. least_of form ≤ n) }
    ensures most { IfSome result (λ n. n ≤ most_of form) }
{
    match form {
        Form::Whole(least, most) => whole(value, least, most),
        _ => None,
    }
}

// The number at a row's key.
pub fn number(table: &Table, row: &Row) -> u64
    requires { preset_of row.now.need ≤ most_of row.now.form }
    ensures said { result ≡ number_at (row_seen row.now) (table_view table.now) }
    ensures least { least_of row.now.form ≤ preset_of row.now.need → least_of row.now.form ≤ result }
    ensures most { result ≤ most_of row.now.form }
{
    match value_at(table, row.key) {
        Some(value) => number_of(value, row.form).unwrap_or(preset(row)),
        None => preset(row),
    }
}

// The text at a row's key.
pub fn text<'a>(table: &'a Table, row: &Row) -> &'a str
    ensures { result.now ≡ read_or [] text_in (get_member row.now.key.now (table_view table.now)) }
{
    match value_at(table, row.key) {
        Some(value) => filled_text(value).unwrap_or(""),
        None => "",
    }
}

// The name of the leap second file, where there is one.
pub fn leap_file(table: &Table) -> Option<&str>
    ensures { option_map (λ name. name.now) result ≡ leap_file_of (table_view table.now) }
{
    filled_text(value_at(table, LEAP_FILE_ROW.key)?)
}

// The secret of a key.
pub fn secret(table: &Table) -> &str
    ensures { result.now ≡ read_or [] secret_in (get_member secret_row.key (table_view table.now)) }
{
    match value_at(table, SECRET_ROW.key) {
        Some(value) => secret_of(value).unwrap_or(""),
        None => "",
    }
}

// The code plan of a radio.
pub fn plan(table: &Table) -> Plan
    ensures { result ≡ read_or Dcf plan_in (get_member plan_row.key (table_view table.now)) }
{
    match value_at(table, PLAN_ROW.key) {
        Some(value) => plan_of(value).unwrap_or(Plan::Dcf),
        None => Plan::Dcf,
    }
}

// The address of a server.
pub fn ip(table: &Table) -> u32
    ensures { result ≡ read_or 0 address_in (get_member address_row.key (table_view table.now)) }
{
    match value_at(table, ADDRESS_ROW.key) {
        Some(value) => address_of(value).unwrap_or(0),
        None => 0,
    }
}

// The net that is denied.
pub fn cidr(table: &Table) -> DeniedNet
    ensures { net_kept result ≡ net_of (table_view table.now) }
{
    match value_at(table, NET_ROW.key) {
        Some(value) => net_of(value).unwrap_or(ALL),
        None => ALL,
    }
}

// The values of the array of tables at a row's key; none where there is no such array.
pub fn tables<'a>(table: &'a Table, row: &Row) -> &'a [Value]
    ensures { tables_from 0 (items_view result.now) ≡ tables_at (row_seen row.now) (table_view table.now) }
{
    match value_at(table, row.key) {
        Some(value) => tables_of(value).unwrap_or(&[]),
        None => &[],
    }
}
