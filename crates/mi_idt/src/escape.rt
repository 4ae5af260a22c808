//! Escapes in fields, and the written form of a field.

ghost use Rattle.std.specs.Prelude.{◌≡◌, ◌==◌, ◌++◌, IfOk, IsOk, OnOk, map, option_map, string_bytes};
ghost use Rattle.std.specs.Cow.{cow_str_bytes};
ghost use Rattle.std.specs.List.{list_all};
ghost use Rattle.mi_idt.specs.Fields.{unescaped};
ghost use Rattle.mi_idt.specs.Means.{column_value};
ghost use Rattle.mi_idt.specs.Raw.{text_of};
ghost use Rattle.mi_idt.specs.Rows.{cell_of};
ghost use Rattle.mi_idt.specs.Stands.{is_plain_line};
ghost use Rattle.mi_idt.specs.Written.{escaped, written_cell};

use crate::number::integer_within;
use crate::table::Column;
use mi_text::NoMemory;
use std::alloc::{AllocError, Global};
use std::borrow::CowStr;

fn unescaped(byte: u8) -> u8
    ensures { result ≡ unescaped byte }
{
    match byte {
        21 => 0,
        27 => 8,
        16 => 9,
        25 => 10,
        24 => 12,
        17 => 13,
        _ => byte,
    }
}

fn escaped(byte: u8) -> u8
    ensures { result ≡ escaped byte }
{
    match byte {
        0 => 21,
        8 => 27,
        9 => 16,
        10 => 25,
        12 => 24,
        13 => 17,
        _ => byte,
    }
}

fn is_plain(field: &[u8]) -> bool
    ensures { result ≡ list_all (λ b. unescaped b == b) field.now }
{
    field
        .iter()
        .all(|byte| *byte > 27 || unescaped(*byte) == *byte)
}

fn unescaped_bytes(alloc: Global, field: &[u8]) -> Result<Vec<u8>, AllocError>
    ensures { IfOk result (λ v. v.items ≡ map unescaped field.now) }
{
    field.iter().map(|byte| unescaped(*byte)).collect(alloc)
}

/// A text in which each escape is the byte that it stands for (Importing and exporting tables); it has as many bytes.
pub fn unescaped_text(alloc: Global, field: &str) -> Result<String, NoMemory>
    ensures { IfOk result (λ s. string_bytes s ≡ map unescaped field.now) }
{
    let bytes = unescaped_bytes(alloc, field.as_bytes())?;
    match String::from_utf8(bytes) {
        Ok(string) => Ok(string),
        Err(_) => unreachable!(),
    }
}

/// The texts that fields stand for, with an empty one for each empty field.
pub fn unescaped_texts(alloc: Global, fields: &[&str]) -> Result<Vec<String>, NoMemory>
    ensures { IfOk result (λ texts. map string_bytes texts.items ≡ map (map unescaped) (map (λ b. b.now) fields.now)) }
{
    let mut texts = Vec::with_capacity(alloc, fields.len())?;
    for field in fields {
        texts.push(unescaped_text(alloc, field)?)?;
    }
    Ok(texts)
}

/// Whether no byte of a line stands for another; of some lines without escapes it says no. All bytes are looked at, since
/// a loop that may end before takes longer.
pub fn is_plain_line(line: &[u8]) -> bool
    ensures { result ≡ is_plain_line line.now }
{
    let mut plain = true;
    for byte in line {
        plain &= *byte > 27 || *byte == b'\t';
    }
    plain
}

/// The text that a field stands for.
pub fn text_of<'a>(alloc: Global, field: &'a str) -> Result<Option<CowStr<'a>>, NoMemory>
    ensures text { IfOk result (λ text. option_map cow_str_bytes text ≡ text_of field.now) }
    ensures plain { text_of field.now ≡ Some field.now → IsOk result }
{
    if field.is_empty() {
        return Ok(None);
    }
    if is_plain(field.as_bytes()) {
        return Ok(Some(CowStr::Borrowed(field)));
    }
    let text = unescaped_text(alloc, field)?;
    Ok(Some(CowStr::Owned(text)))
}

fn push_text(out: &mut Vec<u8>, field: &[u8]) -> Result<(), NoMemory>
    ensures { OnOk result (out.new.items ≡ out.old.items ++ map escaped (map unescaped field.now)) }
{
    for byte in field {
        out.push(escaped(unescaped(*byte)))?;
    }
    Ok(())
}

/// Adds the written form of a field.
pub fn push_field(
    alloc: Global,
    out: &mut Vec<u8>,
    column: &Column<'_>,
    field: &[u8],
) -> Result<(), NoMemory>
    ensures { OnOk result (out.new.items ≡ out.old.items ++ written_cell (cell_of (column_value column.now) field.now)) }
{
    if field.is_empty() {
        return Ok(());
    }
    if !column.is_int() {
        return push_text(out, field);
    }
    let number = integer_within(field, column.limit()).unwrap_or(0);
    let digits = number.to_string(alloc)?;
    out.extend_from_slice(digits.as_bytes())?;
    Ok(())
}
