//! Keys that are the first fields of their rows and stand as they are written.

ghost use Rattle.std.specs.Prelude.{◌≡◌, ◌<◌, ◌≤◌, ◌^◌, ℕ, [], length, map, take, slice_index, IsTrue, IfOk};
ghost use Rattle.std.specs.List.{All, slice_index_or};
ghost use Rattle.mi_idt.specs.declared.table.Row.{Row};
ghost use Rattle.mi_idt.specs.Means.{column_value, raw_row, AreLaid};
ghost use Rattle.mi_idt.specs.RowKey.{row_front, IsSpelledRow, KeyStands};
ghost use Rattle.mi_idt.specs.Rows.{cells_of};
ghost use Rattle.mi_idt.specs.Spells.{SpellsFields};
ghost use Rattle.mi_idt.specs.Texts.{repeat_by, same_fields};
ghost use Rattle.mi_idt.specs.Written.{written_cell};

use crate::stands::stands;
use crate::table::{Column, Row};
use mi_text::NoMemory;
use std::alloc::Global;
use std::collections::HashSet;

/// Whether the first `count` fields stand as they are written.
fn front_stands(columns: &[Column<'_>], fields: &[&str], count: usize) -> bool
    requires spelled { SpellsFields (map column_value columns.now) (map (λ b. b.now) fields.now) (cells_of (map column_value columns.now) (map (λ b. b.now) fields.now)) }
    requires within { count ≤ length columns.now }
    ensures { IsTrue result → take count (map (λ b. b.now) fields.now) ≡ map written_cell (take count (cells_of (map column_value columns.now) (map (λ b. b.now) fields.now))) }
{
    for i in 0..count {
        if !stands(&columns[i], fields[i].as_bytes()) {
            return false;
        }
    }
    true
}

/// Whether the key columns are the first ones, in their order.
fn are_first(keys: &[u32]) -> bool
    ensures { IsTrue result → (k : ℕ) → k < length keys.now → slice_index keys.now k ≡ k }
{
    for (i, key) in keys.iter().enumerate() {
        if *key as usize != i {
            return false;
        }
    }
    true
}

/// The fields of a row, from 0, among those of all rows, which are a `Vec` since its length is bounded.
pub fn row_fields<'s, 'a>(
    columns: &[Column<'_>],
    rows: &[Row<'_>],
    fields: &'s Vec<&'a str>,
    row: usize,
) -> &'s [&'a str]
    requires spelled { All (IsSpelledRow columns.now) rows.now }
    requires laid { AreLaid rows.now fields.now.items }
    requires within { row < length rows.now }
    ensures { (d : Row) → map (λ b. b.now) result.now ≡ raw_row (slice_index_or rows.now row d) }
{
    let width = columns.len();
    let start = row * width;
    &fields[start..start + width]
}

/// Whether the keys of all rows are their first fields and stand as they are written.
pub fn keys_stand(
    columns: &[Column<'_>],
    keys: &[u32],
    rows: &[Row<'_>],
    fields: &Vec<&str>,
) -> bool
    requires spelled { All (IsSpelledRow columns.now) rows.now }
    requires laid { AreLaid rows.now fields.now.items }
    ensures { IsTrue result → All (KeyStands columns.now keys.now) rows.now }
{
    if keys.len() > columns.len() {
        return false;
    }
    if !are_first(keys) {
        return false;
    }
    for i in 0..rows.len() {
        if !front_stands(columns, row_fields(columns, rows, fields, i), keys.len()) {
            return false;
        }
    }
    true
}

/// The first row, from 1, whose first `count` fields are those of an earlier row.
pub fn first_same(
    alloc: Global,
    columns: &[Column<'_>],
    count: usize,
    rows: &[Row<'_>],
    fields: &Vec<&str>,
) -> Result<Option<u32>, NoMemory>
    requires few { length rows.now < 2 ^ 31 }
    requires spelled { All (IsSpelledRow columns.now) rows.now }
    requires laid { AreLaid rows.now fields.now.items }
    requires long { All (λ r. count ≤ length (raw_row r)) rows.now }
    ensures { IfOk result (λ row. row ≡ repeat_by same_fields [] 1 (map (row_front count) rows.now)) }
{
    let mut seen = HashSet::with_capacity(alloc, rows.len())?;
    for i in 0..rows.len() {
        let row = row_fields(columns, rows, fields, i);
        if !seen.insert(&row[..count])? {
            return Ok(Some(i as u32 + 1));
        }
    }
    Ok(None)
}
