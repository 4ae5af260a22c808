//! The rows, from line 4 on.

ghost use Rattle.std.specs.Prelude.{◌≡◌, ◌+◌, ◌++◌, ◌<◌, ◌^◌, length, map, is_some, IfSome, OnOk};
ghost use Rattle.mi_idt.specs.Fields.{fields_of};
ghost use Rattle.mi_idt.specs.Means.{column_value};
ghost use Rattle.mi_idt.specs.Read.{AreRead};
ghost use Rattle.mi_idt.specs.Rows.{is_in_page, is_line, field_fault, fields_fault, line_fault, rows_fault};
ghost use Rattle.mi_idt.specs.Steps.{ReadsPart, fault_of};

use crate::lines::{all_ascii, push_fields};
use crate::number::integer_within;
use crate::table::{Column, IdtError, Row};
use mi_text::IdtFault;
use std::alloc::Global;
use std::str;

fn is_in_page(page: Option<u32>, line: &[u8]) -> bool
    ensures { result ≡ is_in_page page line.now }
{
    match page {
        Some(1252) => all_ascii(line),
        _ => true,
    }
}

/// The text of a line, where its bytes are some in the code page.
fn line_text(page: Option<u32>, line: &[u8]) -> Option<&str>
    ensures read { IfSome result (λ text. text.now ≡ line.now) }
    ensures is { is_some result ≡ is_line page line.now }
{
    match str::from_utf8(line) {
        Ok(text) => is_in_page(page, line).then_some(text),
        Err(_) => None,
    }
}

fn check_field(column: &Column<'_>, field: &str, row: u32, place: u32) -> Result<(), IdtFault>
    ensures { fault_of result ≡ field_fault (column_value column.now) row place field.now }
{
    if field.is_empty() {
        return if column.is_nullable() {
            Ok(())
        } else {
            Err(IdtFault::Null(row, place))
        };
    }
    if column.is_int() && integer_within(field.as_bytes(), column.limit()).is_none() {
        return Err(IdtFault::Integer(row, place));
    }
    Ok(())
}

fn check_fields(columns: &[Column<'_>], fields: &[&str], row: u32) -> Result<(), IdtFault>
    requires same { length columns.now ≡ length fields.now }
    requires few { length columns.now < 2 ^ 31 }
    ensures { fault_of result ≡ fields_fault row 1 (map column_value columns.now) (map (λ b. b.now) fields.now) }
{
    for (i, field) in fields.iter().enumerate() {
        check_field(&columns[i], field, row, i as u32 + 1)?;
    }
    Ok(())
}

fn read_row<'a>(
    page: Option<u32>,
    columns: &[Column<'_>],
    line: &'a [u8],
    row: u32,
    fields: &mut Vec<&'a str>,
) -> Result<Row<'a>, IdtError>
    requires few { length columns.now < 2 ^ 31 }
    requires fits { row + 3 < 2 ^ 32 }
    ensures read { ReadsPart result (line_fault page (map column_value columns.now) row line.now) (λ r. r.line.now ≡ line.now) }
    ensures added { OnOk result (map (λ b. b.now) fields.new.items ≡ map (λ b. b.now) fields.old.items ++ fields_of line.now) }
{
    let Some(text) = line_text(page, line) else {
        return Err(IdtError::Fault(IdtFault::NotUtf8(row + 3)));
    };
    let start = fields.len();
    push_fields(fields, text)?;
    if fields.len() - start != columns.len() {
        return Err(IdtError::Fault(IdtFault::ColumnCount(row + 3)));
    }
    match check_fields(columns, &fields[start..], row) {
        Ok(()) => Ok(Row { line: text }),
        Err(fault) => Err(IdtError::Fault(fault)),
    }
}

/// The rows of a table, and their fields one row behind the other.
#[derive(Drop)]
pub struct Body<'a> {
    pub rows: Vec<Row<'a>>,
    pub fields: Vec<&'a str>,
}

/// Reads the rows.
pub fn read_rows<'a>(
    alloc: Global,
    page: Option<u32>,
    columns: &[Column<'_>],
    lines: &[&'a [u8]],
) -> Result<Body<'a>, IdtError>
    requires few { length columns.now < 2 ^ 31 }
    requires fits { length lines.now + 4 < 2 ^ 32 }
    ensures { ReadsPart result (rows_fault page (map column_value columns.now) 1 (map (λ b. b.now) lines.now)) (λ b. AreRead b (map (λ b. b.now) lines.now)) }
{
    let mut rows = Vec::with_capacity(alloc, lines.len())?;
    let mut fields = Vec::with_capacity(alloc, lines.len().saturating_mul(columns.len()))?;
    for (i, line) in lines.iter().enumerate() {
        rows.push(read_row(page, columns, line, i as u32 + 1, &mut fields)?)?;
    }
    Ok(Body { rows, fields })
}
