//! The writer.

ghost use Rattle.std.specs.Prelude.{◌≡◌, ◌≤◌, ◌+◌, ◌++◌, [], ◌∷◌, length, map, IfOk, OnOk};
ghost use Rattle.std.specs.List.{All, slice_index_or};
ghost use Rattle.mi_idt.specs.Cells.{names_of};
ghost use Rattle.mi_idt.specs.Means.{IsSpelled, meaning, column_value, raw_row};
ghost use Rattle.mi_idt.specs.Rows.{cells_of};
ghost use Rattle.mi_idt.specs.Spells.{Spells};
ghost use Rattle.mi_idt.specs.Texts.{tabbed};
ghost use Rattle.mi_idt.specs.Written.{written, written_cell, written_definition, names_at, with_ends};
ghost use Rattle.mi_idt.specs.Fronts.{row_text, page_text, front_texts};

use crate::escape::push_field;
use crate::line::{push_part, push_tab};
use crate::lines::text_fields;
use crate::table::{Column, Row, Table};
use mi_text::{Bytes, NoMemory};
use std::alloc::Global;

fn push_end(out: &mut Vec<u8>) -> Result<(), NoMemory>
    ensures { OnOk result (out.new.items ≡ out.old.items ++ 13 ∷ 10 ∷ []) }
{
    out.extend_from_slice(b"\r\n")?;
    Ok(())
}

fn push_names(out: &mut Vec<u8>, columns: &[Column<'_>]) -> Result<(), NoMemory>
    ensures { OnOk result (out.new.items ≡ out.old.items ++ tabbed 0 (map (λ c. c.name.now) columns.now)) }
{
    for (i, column) in columns.iter().enumerate() {
        push_part(out, i, column.name.as_bytes())?;
    }
    Ok(())
}

fn push_definition(alloc: Global, out: &mut Vec<u8>, column: &Column<'_>) -> Result<(), NoMemory>
    ensures { OnOk result (out.new.items ≡ out.old.items ++ written_definition (column_value column.now)) }
{
    out.push(column.letter)?;
    let width = column.width.to_string(alloc)?;
    out.extend_from_slice(width.as_bytes())?;
    Ok(())
}

fn push_definitions(
    alloc: Global,
    out: &mut Vec<u8>,
    columns: &[Column<'_>],
) -> Result<(), NoMemory>
    ensures { OnOk result (out.new.items ≡ out.old.items ++ tabbed 0 (map written_definition (map column_value columns.now))) }
{
    for (i, column) in columns.iter().enumerate() {
        push_tab(out, i)?;
        push_definition(alloc, out, column)?;
    }
    Ok(())
}

fn key_name<'a>(columns: &[Column<'a>], key: u32) -> &'a str
    ensures { result.now ≡ slice_index_or (names_of (map column_value columns.now)) key [] }
{
    let place = key as usize;
    if place < columns.len() {
        columns[place].name
    } else {
        ""
    }
}

fn push_keys(out: &mut Vec<u8>, columns: &[Column<'_>], keys: &[u32]) -> Result<(), NoMemory>
    ensures { OnOk result (out.new.items ≡ out.old.items ++ tabbed 1 (names_at (map column_value columns.now) keys.now)) }
{
    for (i, key) in keys.iter().enumerate() {
        push_part(out, i + 1, key_name(columns, *key).as_bytes())?;
    }
    Ok(())
}

fn push_row(
    alloc: Global,
    out: &mut Vec<u8>,
    columns: &[Column<'_>],
    fields: &[&str],
) -> Result<(), NoMemory>
    requires { length columns.now ≡ length fields.now }
    ensures { OnOk result (out.new.items ≡ out.old.items ++ tabbed 0 (map written_cell (cells_of (map column_value columns.now) (map (λ b. b.now) fields.now)))) }
{
    for (i, field) in fields.iter().enumerate() {
        push_tab(out, i)?;
        push_field(alloc, out, &columns[i], field.as_bytes())?;
    }
    Ok(())
}

fn push_rows(
    alloc: Global,
    out: &mut Vec<u8>,
    columns: &[Column<'_>],
    rows: &[Row<'_>],
) -> Result<(), NoMemory>
    requires { All (λ r. length (raw_row r) ≡ length columns.now) rows.now }
    ensures { OnOk result (out.new.items ≡ out.old.items ++ with_ends (map (row_text columns.now) rows.now)) }
{
    for row in rows {
        let fields = text_fields(alloc, row.line, columns.len())?;
        push_row(alloc, out, columns, &fields)?;
        push_end(out)?;
    }
    Ok(())
}

fn push_page(alloc: Global, out: &mut Vec<u8>, page: Option<u32>) -> Result<(), NoMemory>
    ensures { OnOk result (out.new.items ≡ out.old.items ++ page_text page) }
{
    if let Some(page) = page {
        let digits = page.to_string(alloc)?;
        out.extend_from_slice(digits.as_bytes())?;
        out.push(b'\t')?;
    }
    Ok(())
}

fn push_front(alloc: Global, out: &mut Vec<u8>, table: &Table<'_>) -> Result<(), NoMemory>
    ensures { OnOk result (out.new.items ≡ out.old.items ++ with_ends (front_texts table.now)) }
{
    push_names(out, &table.columns)?;
    push_end(out)?;
    push_definitions(alloc, out, &table.columns)?;
    push_end(out)?;
    push_page(alloc, out, table.page)?;
    out.extend_from_slice(table.name.as_bytes())?;
    push_keys(out, &table.columns, &table.keys)?;
    push_end(out)
}

/// Writes a table in the writer's form: CR LF after every line, integers without leading zeros.
pub fn write_table(alloc: Global, table: &Table<'_>) -> Result<Bytes, NoMemory>
    requires spelled { IsSpelled table.now }
    ensures written { IfOk result (λ b. b ≡ written (meaning table.now)) }
    // What is written is read again, where it is no larger than a table may be.
    ensures again { length (written (meaning table.now)) ≤ 16777216 → Spells (written (meaning table.now)) (meaning table.now) }
{
    let mut out = Vec::new(alloc);
    push_front(alloc, &mut out, table)?;
    push_rows(alloc, &mut out, &table.columns, &table.rows)?;
    Ok(Bytes::from_vec(out))
}
