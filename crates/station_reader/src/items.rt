//! The rows of the arrays of a station file.
ghost use Rattle.std.specs.Prelude.{◌≡◌, ◌++◌, ◌∷◌, [], IfOk, map};
ghost use Rattle.toml.specs.View.{view, items_view, table_view};
ghost use Rattle.station_reader.specs.Finding.{AllGood, row_seen};
ghost use Rattle.station_reader.specs.Forms.{table_at, tables_at, tables_from};

use crate::form::Row;
use crate::keys::KeyPath;
use crate::values::tables;
use std::alloc::{AllocError, Global};
use toml::{Table, Value};

// Why there is no station: its first fault, or lack of memory.
#[derive(Clone, Copy)]
pub enum KeyFault<'a> {
    Unknown(KeyPath<'a>),
    Missing(KeyPath<'a>),
    Range(KeyPath<'a>),
    TooMany(&'static str, u64),
    Memory,
}

// What is made of a table of an array.
pub trait Item: Drop {
    ghost use Rattle.std.specs.Prelude.{◌≡◌, IfOk, List};
    ghost use Rattle.toml.specs.Data.{Members};
    ghost use Rattle.toml.specs.View.{table_view};
    ghost use Rattle.station_reader.specs.Finding.{AreGood};
    ghost use Rattle.station_reader.specs.Forms.{Row};

    // The rows of its table.
    ghost rows: { List Row };

    // What it says, and what a table says.
    ghost Fields: { Type 0 };

    ghost fields: { Self → Fields };

    ghost row_of: { Members → Fields };

    // What a table without faults says.
    fn read(alloc: Global, table: &Table) -> Result<Self, AllocError>
        requires { AreGood (table_view table.now) rows }
        ensures { IfOk result (λ r. fields r ≡ row_of (table_view table.now)) };
}

fn push<I: Item>(rows: &mut Vec<I>, row: I) -> Result<(), AllocError>
    ensures { IfOk result
        (λ _. map I.fields rows.new.items ≡ map I.fields rows.old.items ++ I.fields row ∷ []) }
{
    match rows.push(row) {
        Ok(()) => Ok(()),
        Err(_) => Err(AllocError),
    }
}

// Puts what a value says after others, where the value is a table.
fn add<I: Item>(alloc: Global, rows: &mut Vec<I>, item: &Value) -> Result<(), AllocError>
    requires { AllGood I.rows (table_at 0 (view item.now)) }
    ensures { IfOk result (λ _. map I.fields rows.new.items ≡
        map I.fields rows.old.items ++ map (λ t. I.row_of t.1) (table_at 0 (view item.now))) }
{
    match item.as_table() {
        Some(table) => {
            let row = I::read(alloc, table)?;
            push(rows, row)
        }
        None => Ok(()),
    }
}

// What the tables among these values say, in order.
fn read_all<I: Item>(alloc: Global, items: &[Value]) -> Result<Vec<I>, AllocError>
    requires { AllGood I.rows (tables_from 0 (items_view items.now)) }
    ensures { IfOk result
        (λ v. map I.fields v.items ≡ map (λ t. I.row_of t.1) (tables_from 0 (items_view items.now))) }
{
    let mut rows = Vec::new(alloc);
    for item in items {
        add(alloc, &mut rows, item)?;
    }
    Ok(rows)
}

// What the tables of the array at a row's key say, in order.
pub fn read_array<I: Item>(alloc: Global, table: &Table, row: &Row) -> Result<Vec<I>, AllocError>
    requires { AllGood I.rows (tables_at (row_seen row.now) (table_view table.now)) }
    ensures { IfOk result
        (λ v. map I.fields v.items ≡
        map (λ t. I.row_of t.1) (tables_at (row_seen row.now) (table_view table.now))) }
{
    read_all(alloc, tables(table, row))
}
