//! The station of a document, or its first fault.
ghost use Rattle.std.specs.Prelude.{◌≡◌, [], IfOk, IfErr, option_map, string_bytes};
ghost use Rattle.toml.specs.View.{table_view};
ghost use Rattle.packet_auth.specs.Keys.{AreApart};
ghost use Rattle.station_reader.specs.Values.{station_of};
ghost use Rattle.station_reader.specs.Faults.{faults_of};
ghost use Rattle.station_reader.specs.Finding.{IsFirstKeyFault, IsGood};
ghost use Rattle.station_values.specs.KeptStation.{parts_fields};
ghost use Rattle.station_values.specs.Station.{AreWithin};

use crate::arrays::first_at;
use crate::counts::excess;
use crate::identifiers::first_bad_value;
use crate::items::{KeyFault, read_array};
use crate::keys::Check;
use crate::rows::{DENY_ROW, KEY_ROW, LINK_ROW, RADIO_ROW, SERVER_ROW, top_numbers};
use crate::values::leap_file;
use station_values::{Parts, Station};
use std::alloc::{AllocError, Global};
use toml::Table;

// A name, copied.
fn kept_name(alloc: Global, name: Option<&str>) -> Result<Option<String>, AllocError>
    ensures { IfOk result (λ kept. option_map string_bytes kept ≡ option_map (λ text. text.now) name.entry) }
{
    match name {
        Some(name) => Ok(Some(String::from_str(alloc, name)?)),
        None => Ok(None),
    }
}

// What a document without faults says.
fn read_parts(alloc: Global, table: &Table) -> Result<Parts, AllocError>
    requires { IsGood (table_view table.now) }
    ensures read { IfOk result (λ p. parts_fields p ≡ station_of (table_view table.now)) }
    ensures within { IfOk result (λ p. AreWithin p.top) }
{
    let top = top_numbers(table);
    let radios = read_array(alloc, table, &RADIO_ROW)?;
    let servers = read_array(alloc, table, &SERVER_ROW)?;
    let name = kept_name(alloc, leap_file(table))?;
    let links = read_array(alloc, table, &LINK_ROW)?;
    let keys = read_array(alloc, table, &KEY_ROW)?;
    let deny = read_array(alloc, table, &DENY_ROW)?;
    Ok(Parts {
        top,
        radios,
        servers,
        leap_file: name,
        links,
        keys,
        deny,
    })
}

// The station of a document, or its first fault.
pub fn read_table<'a>(alloc: Global, table: &'a Table) -> Result<Station, KeyFault<'a>>
    ensures said { IfOk result (λ s. s ≡ station_of (table_view table.now)) }
    ensures good { IfOk result (λ _. faults_of (table_view table.now) ≡ []) }
    ensures bad { IfErr result (IsFirstKeyFault (faults_of (table_view table.now))) }
{
    if let Some(spot) = first_at(Check::Unknown, table) {
        return Err(KeyFault::Unknown(spot));
    }
    if let Some(spot) = first_at(Check::Missing, table) {
        return Err(KeyFault::Missing(spot));
    }
    if let Some(spot) = first_bad_value(table) {
        return Err(KeyFault::Range(spot));
    }
    let Ok(parts) = read_parts(alloc, table) else {
        return Err(KeyFault::Memory);
    };
    match excess(&parts) {
        Some(over) => Err(KeyFault::TooMany(over.key, over.count)),
        None => Ok(Station::new(parts)),
    }
}
