//! The reader.

ghost use Rattle.std.specs.Prelude.{◌≡◌, ◌↔◌, ◌<◌, ◌≤◌, None, ◌∷◌, length, map, vec_len};
ghost use Rattle.mi_idt.specs.Cells.{TableValue};
ghost use Rattle.mi_idt.specs.Fault.{idt_fault, lines_fault, parts_fault, body_fault, is_too_large};
ghost use Rattle.mi_idt.specs.Fields.{fields_of};
ghost use Rattle.mi_idt.specs.Means.{IsRaw, column_value};
ghost use Rattle.mi_idt.specs.Raw.{raw_of_lines};
ghost use Rattle.mi_idt.specs.Reads.{ReadsTable};
ghost use Rattle.mi_idt.specs.HasParts.{HasParts};
ghost use Rattle.mi_idt.specs.TextsRead.{TextReads, TextsRead};
ghost use Rattle.mi_idt.specs.Spells.{Spells};
ghost use Rattle.mi_idt.specs.Steps.{ReadsPart};

use crate::columns::read_columns;
use crate::head::{Head, read_head};
use crate::keys::first_repeat;
use crate::lines::{count, count_fields, lines_of, text_fields};
use crate::names::Names;
use crate::rows::read_rows;
use crate::table::{Column, IdtError, Table};
use mi_text::IdtFault;
use std::alloc::Global;
use std::str;

const MAX_BYTES: usize = 16_777_216;

const MAX_ROWS: usize = 65_535;

const MAX_COLUMNS: usize = 32;

/// Lines 1 to 3.
#[derive(Clone, Copy)]
struct Texts<'a> {
    names: &'a str,
    definitions: &'a str,
    head: &'a str,
}

fn text_line(line: &[u8], number: u32) -> Result<&str, IdtFault>
    ensures { TextReads result number line.now }
{
    match str::from_utf8(line) {
        Ok(text) => Ok(text),
        Err(_) => Err(IdtFault::NotUtf8(number)),
    }
}

fn read_texts<'a>(
    names: &'a [u8],
    definitions: &'a [u8],
    head: &'a [u8],
) -> Result<Texts<'a>, IdtFault>
    ensures { TextsRead result names.now definitions.now head.now }
{
    let names = text_line(names, 1)?;
    let definitions = text_line(definitions, 2)?;
    let head = text_line(head, 3)?;
    Ok(Texts {
        names,
        definitions,
        head,
    })
}

fn read_body<'a>(
    alloc: Global,
    columns: Vec<Column<'a>>,
    head: Head<'a>,
    lines: &[&'a [u8]],
) -> Result<Table<'a>, IdtError>
    requires few_rows { length lines.now ≤ 65535 }
    requires few_columns { vec_len columns ≤ 32 }
    ensures { ReadsPart result (body_fault head.entry.page (map column_value columns.entry.items) head.entry.keys.items (map (λ b. b.now) lines.now)) (λ t. HasParts t head.entry columns.entry.items (map (λ b. b.now) lines.now)) }
{
    let body = read_rows(alloc, head.page, &columns, lines)?;
    match first_repeat(alloc, &columns, &head.keys, &body.rows, &body.fields)? {
        Some(row) => Err(IdtError::Fault(IdtFault::TwoKeys(row))),
        None => Ok(Table {
            name: head.name,
            page: head.page,
            columns,
            keys: head.keys,
            rows: body.rows,
            fields: body.fields,
        }),
    }
}

fn read_parts<'a>(
    alloc: Global,
    texts: Texts<'a>,
    lines: &[&'a [u8]],
) -> Result<Table<'a>, IdtError>
    requires few_rows { length lines.now ≤ 65535 }
    requires few_columns { length (fields_of texts.names.now) ≤ 32 }
    ensures { ReadsPart result (parts_fault texts.entry.names.now texts.entry.definitions.now texts.entry.head.now (map (λ b. b.now) lines.now)) (λ t. IsRaw t (raw_of_lines (texts.entry.names.now ∷ texts.entry.definitions.now ∷ texts.entry.head.now ∷ map (λ b. b.now) lines.now))) }
{
    let list = text_fields(alloc, texts.names, count_fields(texts.names.as_bytes()))?;
    let names = Names::read(alloc, list)?;
    let columns = read_columns(alloc, &names.list, texts.definitions)?;
    let head = read_head(alloc, texts.head, &names)?;
    read_body(alloc, columns, head, lines)
}

fn is_too_large(lines: &[&[u8]]) -> bool
    ensures { result ≡ is_too_large (map (λ b. b.now) lines.now) }
{
    if lines.len() > MAX_ROWS + 3 {
        return true;
    }
    match lines {
        [] => false,
        [names, ..] => count_fields(names) > MAX_COLUMNS,
    }
}

fn read_lines<'a>(alloc: Global, lines: &[&'a [u8]]) -> Result<Table<'a>, IdtError>
    ensures { ReadsPart result (lines_fault (map (λ b. b.now) lines.now)) (λ t. IsRaw t (raw_of_lines (map (λ b. b.now) lines.now))) }
{
    if is_too_large(lines) {
        return Err(IdtError::Fault(IdtFault::TooLarge));
    }
    let [names, definitions, head, rows @ ..] = lines else {
        return Err(IdtError::Fault(IdtFault::TooFewLines));
    };
    match read_texts(names, definitions, head) {
        Ok(texts) => read_parts(alloc, texts, rows),
        Err(fault) => Err(IdtError::Fault(fault)),
    }
}

/// Reads a text archive file (Importing and exporting tables; the order of its faults is this project's own).
/// Fields stay slices of the bytes.
pub fn read_table<'a>(alloc: Global, bytes: &'a [u8]) -> Result<Table<'a>, IdtError>
    ensures reads { ReadsTable result bytes.now }
    // There is a fault exactly where the bytes spell no table; they never spell two (`spells_one`).
    ensures exact { (idt_fault bytes.now ≡ None) ↔ ((t : TableValue) × Spells bytes.now t) }
{
    if bytes.len() > MAX_BYTES {
        return Err(IdtError::Fault(IdtFault::TooLarge));
    }
    let ends = count(bytes, b'\n');
    if ends > MAX_ROWS + 3 {
        return Err(IdtError::Fault(IdtFault::TooLarge));
    }
    let lines = lines_of(alloc, bytes, ends + 1)?;
    read_lines(alloc, &lines)
}
