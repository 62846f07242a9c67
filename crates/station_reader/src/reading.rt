//! Reads a station from the text of its file.
ghost use Rattle.std.specs.Prelude.{◌≡◌, ℕ, List, IfOk, IfErr, option_map};
ghost use Rattle.station_reader.specs.Forms.{Text};
ghost use Rattle.station_reader.specs.Faults.{Fault, Says, Refuses, IsFirst, key_in};
ghost use Rattle.station_reader.specs.Finding.{IsFirstKeyFault, key_after, path_text};

use crate::document::read_table;
use crate::fault::{KeyText, StationFault};
use crate::items::KeyFault;
use crate::keys::{KeyPath, Part};
use crate::rows::{DENY_ROW, KEY_ROW, LINK_ROW, RADIO_ROW, SERVER_ROW};
use station_values::Station;
use std::alloc::{AllocError, Global};

// The key of a table's array. The top table is in none.
fn array_key(part: Part) -> Option<&'static str>
    ensures { (place : ℕ) (key : Text) → key_in part place key ≡
        key_after (option_map (λ name. name.now) result) place key }
{
    match part {
        Part::Top => None,
        Part::Radio => Some(RADIO_ROW.key),
        Part::Server => Some(SERVER_ROW.key),
        Part::Link => Some(LINK_ROW.key),
        Part::Key => Some(KEY_ROW.key),
        Part::Deny => Some(DENY_ROW.key),
    }
}

// The text of a key as a fault names it.
fn key_text(alloc: Global, spot: KeyPath<'_>) -> Result<KeyText, AllocError>
    ensures { IfOk result (λ k. k ≡ path_text spot.entry) }
{
    let place = spot.place;
    let key = spot.key;
    let text = match array_key(spot.part) {
        Some(array) => format!(in alloc; "{array}.{place}.{key}")?,
        None => String::from_str(alloc, key)?,
    };
    Ok(KeyText::new(text))
}

// The fault that a `KeyFault` is.
fn fault(alloc: Global, key_fault: KeyFault<'_>) -> Result<StationFault, AllocError>
    ensures { (faults : List Fault) → IsFirstKeyFault faults key_fault.entry → IfOk result (IsFirst faults) }
{
    Ok(match key_fault {
        KeyFault::Unknown(spot) => StationFault::UnknownKey {
            key: key_text(alloc, spot)?,
        },
        KeyFault::Missing(spot) => StationFault::Missing {
            key: key_text(alloc, spot)?,
        },
        KeyFault::Range(spot) => StationFault::Range {
            key: key_text(alloc, spot)?,
        },
        KeyFault::TooMany(key, count) => StationFault::TooMany {
            key: KeyText::new(String::from_str(alloc, key)?),
            count,
        },
        KeyFault::Memory => StationFault::Memory,
    })
}

/// Reads a station file, or refuses it with its first fault.
///
/// The faults come in this order: a text that is not TOML, unknown keys, missing keys, values that are not of their type and
/// range, and too many rows. Of several of one kind the top table's comes first. Then come those of the radios, the servers, the
/// links, the keys and the denied nets by their places. Within a table they come by the bytes of the keys. Fails with `Memory`
/// where memory runs out.
pub fn read_station(alloc: Global, text: &[u8]) -> Result<Station, StationFault>
    ensures said { IfOk result (Says text.now) }
    ensures refused { IfErr result (Refuses text.now) }
{
    let table = match toml::table_from_slice(alloc, text) {
        Ok(table) => table,
        Err(error) => {
            return Err(if error.is_memory() {
                StationFault::Memory
            } else {
                StationFault::NotToml
            });
        }
    };
    match read_table(alloc, &table) {
        Ok(station) => Ok(station),
        Err(key_fault) => match fault(alloc, key_fault) {
            Ok(fault) => Err(fault),
            Err(_) => Err(StationFault::Memory),
        },
    }
}
