//! A table that its bytes spell: its columns and its keys beside those of its layout, and its rows.

ghost use Rattle.mi_base.specs.declared.answers.Fault.TheVariants as faults;
ghost use Rattle.std.specs.Prelude.{◌≡◌, ◌&&◌, Some, map, string_bytes};
ghost use Rattle.std.specs.Str.{bytes_eq};
ghost use Rattle.mi_idt.specs.Means.{IsSpelled, meaning, column_value};
ghost use Rattle.mi_rows.specs.Reads.{Answers, Refuses};
ghost use Rattle.mi_rows.specs.Columns.{column_as, table_as, refused};
ghost use Rattle.mi_rows.specs.Typed.{keyed};
ghost use Rattle.mi_rows.specs.Rows.{is_of_class, begins_with, key_places, has_columns, rows_in, value_fault, table_fault, table_rows};
ghost use Rattle.mi_rows.specs.Values.{KeysTell};

use crate::column::{Column, Kind, Layout};
use crate::error::{Checked, LoadError};
use crate::row::read_rows;
use crate::table_row::{Key, TableRow};
use crate::take::fourth_line;
use indexmap::IndexMap;
use mi_base::{Fault, IdtFault, Text};
use mi_idt::{Column as Spelled, IdtError, Table, read_table, unescaped_text};
use mi_text::Bytes;
use std::alloc::Global;
use std::rc::Rc;

/// Whether the letter of a definition is of the class of a kind.
fn is_of_class(kind: Kind, letter: u8) -> bool
    ensures { result ≡ is_of_class kind letter }
{
    match kind {
        Kind::Integer => matches!(letter, b'i' | b'I'),
        _ => matches!(letter, b's' | b'S' | b'l' | b'L'),
    }
}

/// Whether a column has the name and the class of a known one.
fn is_known(column: &Spelled, known: &Column) -> bool
    ensures { result ≡ (bytes_eq column.now.name.now known.now.name.now && is_of_class known.now.kind column.now.letter) }
{
    column.name == known.name && is_of_class(known.kind, column.letter)
}

/// Whether the columns begin with the known ones, in this order.
fn begins_with(known: &[Column], columns: &[Spelled]) -> bool
    ensures { result ≡ begins_with (map column_as known.now) (map column_value columns.now) }
{
    if columns.len() < known.len() {
        return false;
    }
    for (i, column) in known.iter().enumerate() {
        if !is_known(&columns[i], column) {
            return false;
        }
    }
    true
}

/// Whether the keys are the places of the key columns.
fn has_keys(known: &[Column], keys: &[u32]) -> bool
    ensures { result ≡ bytes_eq keys.now (key_places 0 (map column_as known.now)) }
{
    let mut next = 0;
    for (i, column) in known.iter().enumerate() {
        if column.key {
            if next == keys.len() || keys[next] as usize != i {
                return false;
            }
            next += 1;
        }
    }
    next == keys.len()
}

/// Whether a table has the columns and the keys of its layout.
#[tactic(auto, unfolding(mi_idt::specs::Means::meaning))]
fn has_columns(known: &[Column], table: &Table) -> bool
    ensures { result ≡ has_columns (map column_as known.now) (meaning table.now) }
{
    has_keys(known, table.keys.as_slice()) && begins_with(known, table.columns.as_slice())
}

/// A fault of the text of a table.
pub fn misspelled(alloc: Global, table: &str, why: IdtFault) -> LoadError
    ensures { Refuses result (faults.Idt table.now why) }
{
    match Text::copy_of(alloc, table) {
        Ok(table) => LoadError::Table(Fault::Idt(table, why)),
        Err(_) => LoadError::NoMemory,
    }
}

/// Reads the rows of a known table that its bytes spell into a map, or refuses with its first fault. Texts of the rows
/// that stand in `whole` where the rows do, the first from the place `line` on, are parts of it.
fn read_spelled<K: Key, R: TableRow<K>>(
    alloc: Global,
    layout: &Layout,
    whole: &Rc<String>,
    line: usize,
    table: &Table,
    rows: &mut IndexMap<K, R>,
) -> Checked
    requires is { table_as layout.now ≡ R.layout }
    requires spelled { IsSpelled table.now }
    requires apart { KeysTell K.eq K.key R.layout.columns }
    ensures { Answers ⊥ (value_fault (table_as layout.now) (meaning table.now)) (λ _. rows.new.entries ≡ keyed K.key R.value (rows_in (table_as layout.now) (meaning table.now))) result }
{
    if !has_columns(layout.columns, table) {
        let name = Text::copy_of(alloc, layout.name)?;
        return Err(LoadError::Table(Fault::Columns(name)));
    }
    *rows = read_rows(alloc, layout, whole.clone()?, line, table)?;
    Ok(())
}

/// Reads the rows of a known table in these bytes, of which `whole` is the text, into a map, or refuses with its first
/// fault.
fn read_bytes<K: Key, R: TableRow<K>>(
    alloc: Global,
    layout: &Layout,
    whole: &Rc<String>,
    bytes: &[u8],
    rows: &mut IndexMap<K, R>,
) -> Checked
    requires is { table_as layout.now ≡ R.layout }
    requires apart { KeysTell K.eq K.key R.layout.columns }
    ensures { Answers ⊥ (table_fault (table_as layout.now) (Some bytes.now)) (λ _. rows.new.entries ≡ keyed K.key R.value (table_rows (table_as layout.now) (Some bytes.now))) result }
{
    match read_table(alloc, bytes) {
        Ok(table) => read_spelled(alloc, layout, whole, fourth_line(bytes), &table, rows),
        Err(IdtError::NoMemory) => Err(LoadError::NoMemory),
        Err(IdtError::Fault(fault)) => Err(misspelled(alloc, layout.name, fault)),
    }
}

/// Whether no byte of a table's text is below 28, as each escape is, but for tabs and the ends of lines. All bytes are
/// looked at, since a loop that may end before takes longer.
fn is_plain(bytes: &[u8]) -> bool {
    let mut plain = true;
    for byte in bytes {
        plain &= *byte > 27 || matches!(*byte, b'\t' | b'\n' | b'\r');
    }
    plain
}

/// Reads the rows of a known table of this text into a map, or refuses with its first fault. What the rows keep is the
/// text itself, or where something is escaped in it, the unescaped one, in which their texts stand at the same places.
fn read_text<K: Key, R: TableRow<K>>(
    alloc: Global,
    layout: &Layout,
    text: String,
    rows: &mut IndexMap<K, R>,
) -> Checked
    requires is { table_as layout.now ≡ R.layout }
    requires apart { KeysTell K.eq K.key R.layout.columns }
    ensures { Answers ⊥ (table_fault (table_as layout.now) (Some (string_bytes text))) (λ _. rows.new.entries ≡ keyed K.key R.value (table_rows (table_as layout.now) (Some (string_bytes text)))) result }
{
    if is_plain(text.as_bytes()) {
        let whole = Rc::new(alloc, text)?;
        read_bytes(alloc, layout, &whole, whole.as_bytes(), rows)
    } else {
        let whole = Rc::new(alloc, unescaped_text(alloc, text.as_str())?)?;
        read_bytes(alloc, layout, &whole, text.as_bytes(), rows)
    }
}

/// Reads the rows of a known table in these bytes into a map, which keeps their text for the texts of the rows, or refuses
/// with its first fault. Bytes that aren't text spell no table, so nothing is kept of them.
pub fn read_shared<K: Key, R: TableRow<K>>(
    alloc: Global,
    layout: &Layout,
    bytes: Bytes,
    rows: &mut IndexMap<K, R>,
) -> Checked
    requires is { table_as layout.now ≡ R.layout }
    requires apart { KeysTell K.eq K.key R.layout.columns }
    ensures { Answers ⊥ (table_fault (table_as layout.now) (Some bytes)) (λ _. rows.new.entries ≡ keyed K.key R.value (table_rows (table_as layout.now) (Some bytes))) result }
{
    match String::from_utf8(bytes.into_vec()) {
        Ok(mut text) => {
            text.shrink_to_fit();
            read_text(alloc, layout, text, rows)
        }
        Err(error) => {
            let none = Rc::new(alloc, String::new(alloc))?;
            read_bytes(alloc, layout, &none, error.as_bytes(), rows)
        }
    }
}

/// Refuses a table that holds a row.
fn refuse_spelled(alloc: Global, name: &str, table: &Table) -> Checked
    requires spelled { IsSpelled table.now }
    ensures { Answers ⊥ (value_fault (refused name.now) (meaning table.now)) (λ _. Unit {0}) result }
{
    if table.rows.is_empty() {
        return Ok(());
    }
    let name = Text::copy_of(alloc, name)?;
    Err(LoadError::Table(Fault::Unsupported(name)))
}

/// Refuses these bytes where they hold a row, or spell no table.
pub fn refuse_bytes(alloc: Global, name: &str, bytes: &[u8]) -> Checked
    ensures { Answers ⊥ (table_fault (refused name.now) (Some bytes.now)) (λ _. Unit {0}) result }
{
    match read_table(alloc, bytes) {
        Ok(table) => refuse_spelled(alloc, name, &table),
        Err(IdtError::NoMemory) => Err(LoadError::NoMemory),
        Err(IdtError::Fault(fault)) => Err(misspelled(alloc, name, fault)),
    }
}
