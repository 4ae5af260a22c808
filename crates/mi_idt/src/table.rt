//! Tables as slices of the bytes that spell them.

ghost use Rattle.std.specs.Prelude.{◌≡◌, ◌<◌, length, map, is_some, option_map, slice_index_or, string_bytes, IfOk, IfSome, IsOk};
ghost use Rattle.std.specs.Cow.{cow_str_bytes};
ghost use Rattle.mi_idt.specs.declared.table.IdtError.TheVariants.{NoMemory as no_memory};

use crate::escape::{is_plain_line, text_of, unescaped_texts};
use crate::fronts::row_fields;
use mi_text::{IdtFault, NoMemory};
use std::alloc::{AllocError, AllocFailed, Global};
use std::borrow::CowStr;

/// A column: its name, and the letter and the width of its definition (Column Definition Format).
/// The letter is one of `s`, `l`, `i`, `v`, in upper case where the column allows null.
#[derive(Clone, Copy)]
pub struct Column<'a> {
    pub name: &'a str,
    pub letter: u8,
    pub width: u8,
}

/// A row as its line, in which the fields are still escaped.
#[derive(Clone, Copy)]
pub struct Row<'a> {
    pub line: &'a str,
}

/// A table; `page` is its code page, `keys` are the places of the key columns, from 0, and `fields` those of all rows,
/// one row behind the other.
#[derive(Drop)]
pub struct Table<'a> {
    pub name: &'a str,
    pub page: Option<u32>,
    pub columns: Vec<Column<'a>>,
    pub keys: Vec<u32>,
    pub rows: Vec<Row<'a>>,
    pub fields: Vec<&'a str>,
}

/// Why a text archive file isn't read.
#[derive(Drop)]
pub enum IdtError {
    /// Memory ran out.
    NoMemory,
    /// The first fault of the bytes, which spell no table.
    Fault(IdtFault),
}

impl From<NoMemory> for IdtError {
    ghost from_gives = { λ _ e. e ≡ no_memory };

    fn from(_e: NoMemory) -> IdtError {
        IdtError::NoMemory
    }
}

impl From<AllocError> for IdtError {
    ghost from_gives = { λ _ e. e ≡ no_memory };

    fn from(_e: AllocError) -> IdtError {
        IdtError::NoMemory
    }
}

impl<T: Drop> From<AllocFailed<T>> for IdtError {
    ghost from_gives = { λ _ e. e ≡ no_memory };

    fn from(_e: AllocFailed<T>) -> IdtError {
        IdtError::NoMemory
    }
}

impl Column<'_> {
    ghost use Rattle.mi_idt.specs.Columns.{is_int, is_nullable, limit_of};

    /// Whether its fields are integers.
    pub fn is_int(&self) -> bool
        ensures { result ≡ is_int self.now.letter }
    {
        matches!(self.letter, b'i' | b'I')
    }

    /// Whether it allows null.
    pub fn is_nullable(&self) -> bool
        ensures { result ≡ is_nullable self.now.letter }
    {
        self.letter < b'a'
    }

    /// The greatest size of its integers.
    pub(crate) fn limit(&self) -> u32
        ensures { result ≡ limit_of self.now.width }
    {
        if self.width == 2 {
            32767
        } else {
            2_147_483_647
        }
    }
}

impl<'a> Table<'a> {
    ghost use Rattle.mi_idt.specs.Means.{IsSpelled, Shows, ShowsRow, meaning, raw, cell_at};
    ghost use Rattle.mi_idt.specs.Raw.{field_at, text_of};
    ghost use Rattle.mi_idt.specs.Stands.{is_plain_line};
    ghost use Rattle.mi_idt.specs.declared.table.Row.{Row};

    /// The texts of a row, from 0, as they stand in the bytes, with an empty one for each null; none where a byte of it is
    /// below 28 and no tab, as each escape is.
    pub fn plain_row(&self, row: usize) -> Option<&[&'a str]>
        requires spelled { IsSpelled self.now }
        requires row_in_range { row < length self.now.rows.items }
        ensures texts { IfSome result (λ texts. ShowsRow self.now row (map (λ b. b.now) texts.now)) }
        ensures plain { (d : Row) → is_some result ≡ is_plain_line (slice_index_or self.now.rows.items row d).line.now }
    {
        if is_plain_line(self.rows[row].line.as_bytes()) {
            Some(row_fields(&self.columns, &self.rows, &self.fields, row))
        } else {
            None
        }
    }

    /// The texts of a row, from 0, unescaped, with an empty one for each null.
    pub fn unescaped_row(&self, alloc: Global, row: usize) -> Result<Vec<String>, NoMemory>
        requires spelled { IsSpelled self.now }
        requires row_in_range { row < length self.now.rows.items }
        ensures { IfOk result (λ texts. ShowsRow self.now row (map string_bytes texts.items)) }
    {
        unescaped_texts(
            alloc,
            row_fields(&self.columns, &self.rows, &self.fields, row),
        )
    }

    /// The text of a field, unescaped, or nothing where it is null; rows and columns count from 0.
    /// Where nothing is escaped it takes no memory.
    pub fn field(
        &self,
        alloc: Global,
        row: usize,
        column: usize,
    ) -> Result<Option<CowStr<'a>>, NoMemory>
        requires spelled { IsSpelled self.now }
        requires row_in_range { row < length self.now.rows.items }
        requires column_in_range { column < length self.now.columns.items }
        ensures text { IfOk result (λ text. option_map cow_str_bytes text ≡ text_of (field_at (raw self.now) row column)) }
        ensures plain { text_of (field_at (raw self.now) row column) ≡ Some (field_at (raw self.now) row column) → IsOk result }
        // So it shows the cell that the table means.
        ensures cell { IfOk result (λ text. Shows (option_map cow_str_bytes text) (cell_at (meaning self.now) row column)) }
    {
        let fields = row_fields(&self.columns, &self.rows, &self.fields, row);
        text_of(alloc, fields[column])
    }
}
