//! The keys of rows, which are compared in their written form.

ghost use Rattle.std.specs.Prelude.{◌≡◌, ◌<◌, ◌^◌, ◌++◌, [], IfOk, OnOk, length, map};
ghost use Rattle.std.specs.List.{slice_index_or, All};
ghost use Rattle.mi_idt.specs.Cells.{Nothing, key_of};
ghost use Rattle.mi_idt.specs.Means.{column_value, AreLaid};
ghost use Rattle.mi_idt.specs.RowKey.{row_key, IsSpelledRow};
ghost use Rattle.mi_idt.specs.Rows.{cells_of};
ghost use Rattle.mi_idt.specs.Texts.{repeat_of};
ghost use Rattle.mi_idt.specs.Written.{written_cell, written_row};

use crate::escape::push_field;
use crate::fronts::{first_same, keys_stand};
use crate::line::push_tab;
use crate::lines::text_fields;
use crate::table::{Column, Row};
use mi_text::{Bytes, NoMemory};
use std::alloc::Global;
use std::collections::BTreeSet;

fn push_cell(
    alloc: Global,
    out: &mut Vec<u8>,
    columns: &[Column<'_>],
    fields: &[&str],
    place: usize,
) -> Result<(), NoMemory>
    ensures { OnOk result (out.new.items ≡ out.old.items ++ written_cell (slice_index_or (cells_of (map column_value columns.now) (map (λ b. b.now) fields.now)) place Nothing)) }
{
    if place >= columns.len() {
        return Ok(());
    }
    if place >= fields.len() {
        return Ok(());
    }
    push_field(alloc, out, &columns[place], fields[place].as_bytes())
}

fn key_text(
    alloc: Global,
    columns: &[Column<'_>],
    keys: &[u32],
    fields: &[&str],
) -> Result<Bytes, NoMemory>
    ensures { IfOk result (λ text. text ≡ written_row (key_of keys.now (cells_of (map column_value columns.now) (map (λ b. b.now) fields.now)))) }
{
    let mut out = Vec::new(alloc);
    for (i, key) in keys.iter().enumerate() {
        push_tab(&mut out, i)?;
        push_cell(alloc, &mut out, columns, fields, *key as usize)?;
    }
    Ok(Bytes::from_vec(out))
}

/// The first row, from 1, whose key is written as that of an earlier row.
fn first_written(
    alloc: Global,
    columns: &[Column<'_>],
    keys: &[u32],
    rows: &[Row<'_>],
) -> Result<Option<u32>, NoMemory>
    requires few { length rows.now < 2 ^ 31 }
    ensures { IfOk result (λ row. row ≡ repeat_of [] 1 (map (row_key columns.now keys.now) rows.now)) }
{
    let mut seen = BTreeSet::new(alloc);
    for (i, row) in rows.iter().enumerate() {
        let fields = text_fields(alloc, row.line, columns.len())?;
        let key = key_text(alloc, columns, keys, &fields)?;
        if !seen.insert(key)? {
            return Ok(Some(i as u32 + 1));
        }
    }
    Ok(None)
}

/// The first row, from 1, that has an earlier row's key. Keys are written anew only where they don't stand so.
pub fn first_repeat(
    alloc: Global,
    columns: &[Column<'_>],
    keys: &[u32],
    rows: &[Row<'_>],
    fields: &Vec<&str>,
) -> Result<Option<u32>, NoMemory>
    requires few { length rows.now < 2 ^ 31 }
    requires spelled { All (IsSpelledRow columns.now) rows.now }
    requires laid { AreLaid rows.now fields.now.items }
    ensures { IfOk result (λ row. row ≡ repeat_of [] 1 (map (row_key columns.now keys.now) rows.now)) }
{
    if keys_stand(columns, keys, rows, fields) {
        first_same(alloc, columns, keys.len(), rows, fields)
    } else {
        first_written(alloc, columns, keys, rows)
    }
}
