//! The rows of a table as structs.

ghost use Rattle.std.specs.Prelude.{◌≡◌, ◌+◌, ◌<◌, ◌++◌, ◌∷◌, ◌||◌, not, List, [], true, false, None, Some, is_none, map, option_map, unwrap_or, string_bytes, vec_len, IsTrue, IfOk, OnOk};
ghost use Rattle.std.specs.List.{list_any};
ghost use Rattle.mi_text.specs.Maps.{Name};
ghost use Rattle.mi_idt.specs.Cells as raw;
ghost use Rattle.mi_idt.specs.Means.{Shows, ShowsRow, IsSpelled, meaning, text_shown};
ghost use Rattle.mi_rows.specs.Fields.{field_value, shown_value, values_of, last_condition};
ghost use Rattle.mi_rows.specs.Reads.{Answers, KnowsKeys, asks_key, keys_asked, IsSeen, IsDraft, ReadsAs, RefusesAs, FitsKind, raw_row};
ghost use Rattle.mi_rows.specs.Columns.{column_as, table_as};
ghost use Rattle.mi_rows.specs.Typed.{keyed, some_condition_in};
ghost use Rattle.mi_rows.specs.Values.{KeysTell, Row, row_of, text_in, text_at, all_suit, takes_any};
ghost use Rattle.mi_rows.specs.Rows.{◌or_else◌, cell_fault, row_fault, rows_fault, rows_in, keys_of, begins_with, has_columns, fault_at};

use crate::column::{Column, Kind, Layout, Rule};
use crate::error::LoadError;
use crate::field::{Bad, Field, FieldError, some_text};
use crate::read::read_kind;
use crate::rule::{Seen, meets};
use crate::table_row::{Key, TableRow};
use crate::take::Take;
use indexmap::IndexMap;
use mi_base::{Fault, NoMemory, Text};
use mi_cond::Cond;
use mi_idt::Table;
use std::alloc::Global;
use std::collections::HashSet;
use std::rc::Rc;

/// The error of a value in this row and column, from 1.
fn error_at(alloc: Global, table: &str, row: u32, column: u32, error: FieldError) -> LoadError
    ensures { RefusesAs error (fault_at table.now row column) result }
{
    let FieldError::Bad(bad) = error else {
        return LoadError::NoMemory;
    };
    match Text::copy_of(alloc, table) {
        Ok(table) => match bad {
            Bad::Value => LoadError::Table(Fault::Value(table, row, column)),
            Bad::Condition(place) => LoadError::Table(Fault::Condition(table, row, place)),
        },
        Err(_) => LoadError::NoMemory,
    }
}

/// Whether a field is a value of its column, whatever it is; of some that are it says no.
fn is_free(column: &Column, field: &Field) -> bool
    ensures rule { IsTrue result → column.now.rule ≡ Rule.Free }
    ensures kind { IsTrue result → takes_any column.now.kind ≡ true }
    ensures null { IsTrue result → (column.now.nullable || not (is_none (text_shown field.now.text.now))) ≡ true }
{
    matches!(column.rule, Rule::Free)
        && column.kind.takes_any()
        && (column.nullable || !field.text.is_empty())
}

/// Why a field isn't a value of its column, by its kind and its rule, or the condition that it is, where it is one.
fn read_field(
    take: &Take,
    column: &Column,
    field: &Field,
    seen: &Seen,
    front: &[Field],
) -> Result<Option<Cond>, FieldError>
    requires kind { field.now.kind ≡ column.now.kind }
    ensures { (x : raw.Cell) → Shows (text_shown field.now.text.now) x → FitsKind column.now.kind x → (keys : List Name) (before : List Row) → KnowsKeys seen.now.keys keys → IsSeen seen.now before
        → ReadsAs (cell_fault (column_as column.now) keys before (values_of front.now) x) (some_condition_in (field_value field.now)) result }
{
    if is_free(column, field) {
        return Ok(None);
    }
    let condition = read_kind(take, field, column.nullable)?;
    if meets(column.rule, seen, front, field) {
        Ok(condition)
    } else {
        Err(FieldError::Bad(Bad::Value))
    }
}

/// Adds a field that is judged, and keeps the condition that it is, where it is one.
fn add_field<'a>(
    fields: &mut Vec<Field<'a>>,
    take: &mut Take,
    field: Field<'a>,
    condition: Option<Cond>,
) -> Result<(), NoMemory>
    requires condition { condition ≡ some_condition_in (field_value field) }
    ensures { OnOk result ((row : Row) → IsDraft fields.old.items take.old row → IsDraft fields.new.items take.new (row ++ field_value field.entry ∷ [])) }
{
    take.keep(condition, field.text.len());
    fields.push(field)?;
    Ok(())
}

/// Judges the texts of a row, which stay as its fields, or refuses with the first fault among its values. Rows count from
/// 0 here.
fn read_row<'a>(
    layout: &Layout,
    table: &Table,
    number: usize,
    texts: &[&'a str],
    seen: &Seen,
    fields: &mut Vec<Field<'a>>,
    take: &mut Take,
) -> Result<(), LoadError>
    requires spelled { IsSpelled table.now }
    requires columns { begins_with (table_as layout.now).columns (meaning table.now).columns ≡ true }
    requires in_range { number < vec_len table.now.rows }
    requires texts { ShowsRow table.now number (map (λ b. b.now) texts.now) }
    requires knows { (keys : List Name) × KnowsKeys seen.now.keys keys }
    requires seen { (before : List Row) × IsSeen seen.now before }
    requires memory { take.old.failed ≡ false }
    ensures { (keys : List Name) (before : List Row) → KnowsKeys seen.now.keys keys → IsSeen seen.now before
        → Answers ⊥ (row_fault (table_as layout.now) (number + 1) keys before (raw_row table.now number)) (λ _. IsDraft fields.new.items take.new (row_of (table_as layout.now).columns (raw_row table.now number))) result }
{
    fields.clear();
    take.begin(table.rows[number].line.len());
    for (i, column) in layout.columns.iter().enumerate() {
        let field = Field {
            kind: column.kind,
            text: texts[i],
            start: take.field,
        };
        match read_field(take, column, &field, seen, fields.as_slice()) {
            Ok(condition) => add_field(fields, take, field, condition)?,
            Err(error) => {
                let number = number as u32 + 1;
                return Err(error_at(take.alloc, layout.name, number, i as u32 + 1, error));
            }
        }
    }
    Ok(())
}

/// The key and the struct of a row that is judged.
fn take_row<K: Key, R: TableRow<K>>(row: &[Field], take: &mut Take) -> Result<(K, R), NoMemory>
    requires suits { all_suit R.layout.columns (values_of row.now) ≡ true }
    requires condition { take.old.condition ≡ last_condition (values_of row.now) }
    ensures memory { OnOk result (take.new.failed ≡ false) }
    ensures values { IfOk result (λ e. e ≡ (K.key (values_of row.now), R.value (values_of row.now))) }
{
    let key = K::of_row(take, row);
    let value = R::read(take, row);
    if take.failed {
        return Err(NoMemory);
    }
    Ok((key, value))
}

/// Whether a rule asks for the keys of its table.
fn asks_key(rule: Rule) -> bool
    ensures { result ≡ asks_key rule }
{
    matches!(rule, Rule::VersionOrKey)
}

/// Whether a column asks for the keys of its table.
fn asks_keys(columns: &[Column]) -> bool
    ensures { result ≡ list_any (λ c. asks_key c.rule) columns.now }
{
    columns.iter().any(|column| asks_key(column.rule))
}

/// A text where a column of this kind holds texts; an empty one elsewhere.
fn key_text(alloc: Global, kind: Kind, text: &str) -> Result<String, NoMemory>
    ensures { IfOk result (λ key. string_bytes key ≡ unwrap_or (text_in (option_map (shown_value kind) (text_shown text.now))) []) }
{
    let start = 0;
    let field = Field { kind, text, start };
    match some_text(&field) {
        Some(text) => Ok(String::from_str(alloc, text)?),
        None => Ok(String::new(alloc)),
    }
}

/// The text in the first column of a row, from 0; empty where it has none.
fn key_of(alloc: Global, layout: &Layout, table: &Table, number: usize) -> Result<String, NoMemory>
    requires spelled { IsSpelled table.now }
    requires columns { begins_with (table_as layout.now).columns (meaning table.now).columns ≡ true }
    requires in_range { number < vec_len table.now.rows }
    ensures { IfOk result (λ key. string_bytes key ≡ text_at (row_of (table_as layout.now).columns (raw_row table.now number)) 0) }
{
    let [first, ..] = layout.columns else {
        return Ok(String::new(alloc));
    };
    match &table.field(alloc, number, 0)? {
        Some(text) => key_text(alloc, first.kind, text.as_str()),
        None => key_text(alloc, first.kind, ""),
    }
}

/// The keys of a table, where a column asks for them; none elsewhere.
fn keys_asked(alloc: Global, layout: &Layout, table: &Table) -> Result<HashSet<String>, NoMemory>
    requires spelled { IsSpelled table.now }
    requires columns { begins_with (table_as layout.now).columns (meaning table.now).columns ≡ true }
    ensures { IfOk result (λ keys. KnowsKeys keys (keys_asked (table_as layout.now) (meaning table.now))) }
{
    if !asks_keys(layout.columns) {
        return Ok(HashSet::new(alloc));
    }
    let mut keys = HashSet::with_capacity(alloc, table.rows.len())?;
    for number in 0..table.rows.len() {
        let key = key_of(alloc, layout, table, number)?;
        keys.insert(key)?;
    }
    Ok(keys)
}

/// The key and the struct of a row of these texts, or the first fault among its values. Rows count from 0 here.
fn read_texts<'a, K: Key, R: TableRow<K>>(
    layout: &Layout,
    table: &Table,
    number: usize,
    texts: &[&'a str],
    seen: &mut Seen,
    fields: &mut Vec<Field<'a>>,
    take: &mut Take,
) -> Result<(K, R), LoadError>
    requires is { table_as layout.now ≡ R.layout }
    requires spelled { IsSpelled table.now }
    requires columns { begins_with (table_as layout.now).columns (meaning table.now).columns ≡ true }
    requires in_range { number < vec_len table.now.rows }
    requires texts { ShowsRow table.now number (map (λ b. b.now) texts.now) }
    requires knows { (keys : List Name) × KnowsKeys seen.old.keys keys }
    requires seen { (before : List Row) × IsSeen seen.old before }
    requires memory { take.old.failed ≡ false }
    ensures read { (keys : List Name) (before : List Row) → KnowsKeys seen.old.keys keys → IsSeen seen.old before
        → let row = row_of (table_as layout.now).columns (raw_row table.now number) in
        Answers ⊥ (row_fault (table_as layout.now) (number + 1) keys before (raw_row table.now number)) (λ e. e ≡ (K.key row, R.value row)) result }
    ensures seen { OnOk result ((before : List Row) → IsSeen seen.old before → IsSeen seen.new (before ++ row_of (table_as layout.now).columns (raw_row table.now number) ∷ [])) }
    ensures keys { OnOk result (seen.new.keys ≡ seen.old.keys) }
    ensures memory { OnOk result (take.new.failed ≡ false) }
{
    read_row(layout, table, number, texts, seen, fields, take)?;
    seen.add(fields.as_slice())?;
    Ok(take_row(fields.as_slice(), take)?)
}

/// The texts as slices.
fn slices_of(alloc: Global, texts: &[String]) -> Result<Vec<&str>, NoMemory>
    ensures { IfOk result (λ slices. map (λ b. b.now) slices.items ≡ map string_bytes texts.now) }
{
    let mut slices = Vec::with_capacity(alloc, texts.len())?;
    for text in texts {
        slices.push(text.as_str())?;
    }
    Ok(slices)
}

/// The same of a row of these texts, which stand nowhere in the table.
fn read_unescaped<K: Key, R: TableRow<K>>(
    layout: &Layout,
    table: &Table,
    number: usize,
    texts: &[String],
    seen: &mut Seen,
    take: &mut Take,
) -> Result<(K, R), LoadError>
    requires is { table_as layout.now ≡ R.layout }
    requires spelled { IsSpelled table.now }
    requires columns { begins_with (table_as layout.now).columns (meaning table.now).columns ≡ true }
    requires in_range { number < vec_len table.now.rows }
    requires texts { ShowsRow table.now number (map string_bytes texts.now) }
    requires knows { (keys : List Name) × KnowsKeys seen.old.keys keys }
    requires seen { (before : List Row) × IsSeen seen.old before }
    requires memory { take.old.failed ≡ false }
    ensures read { (keys : List Name) (before : List Row) → KnowsKeys seen.old.keys keys → IsSeen seen.old before
        → let row = row_of (table_as layout.now).columns (raw_row table.now number) in
        Answers ⊥ (row_fault (table_as layout.now) (number + 1) keys before (raw_row table.now number)) (λ e. e ≡ (K.key row, R.value row)) result }
    ensures seen { OnOk result ((before : List Row) → IsSeen seen.old before → IsSeen seen.new (before ++ row_of (table_as layout.now).columns (raw_row table.now number) ∷ [])) }
    ensures keys { OnOk result (seen.new.keys ≡ seen.old.keys) }
    ensures memory { OnOk result (take.new.failed ≡ false) }
{
    let slices = slices_of(take.alloc, texts)?;
    let mut fields = Vec::new(take.alloc);
    read_texts(layout, table, number, &slices, seen, &mut fields, take)
}

/// The same of a row of the table. The texts of one in which nothing is escaped are the table's own.
fn read_typed<'a, K: Key, R: TableRow<K>>(
    layout: &Layout,
    table: &Table<'a>,
    number: usize,
    seen: &mut Seen,
    fields: &mut Vec<Field<'a>>,
    take: &mut Take,
) -> Result<(K, R), LoadError>
    requires is { table_as layout.now ≡ R.layout }
    requires spelled { IsSpelled table.now }
    requires columns { begins_with (table_as layout.now).columns (meaning table.now).columns ≡ true }
    requires in_range { number < vec_len table.now.rows }
    requires knows { (keys : List Name) × KnowsKeys seen.old.keys keys }
    requires seen { (before : List Row) × IsSeen seen.old before }
    requires memory { take.old.failed ≡ false }
    ensures read { (keys : List Name) (before : List Row) → KnowsKeys seen.old.keys keys → IsSeen seen.old before
        → let row = row_of (table_as layout.now).columns (raw_row table.now number) in
        Answers ⊥ (row_fault (table_as layout.now) (number + 1) keys before (raw_row table.now number)) (λ e. e ≡ (K.key row, R.value row)) result }
    ensures seen { OnOk result ((before : List Row) → IsSeen seen.old before → IsSeen seen.new (before ++ row_of (table_as layout.now).columns (raw_row table.now number) ∷ [])) }
    ensures keys { OnOk result (seen.new.keys ≡ seen.old.keys) }
    ensures memory { OnOk result (take.new.failed ≡ false) }
{
    match table.plain_row(number) {
        Some(texts) => read_texts(layout, table, number, texts, seen, fields, take),
        None => {
            let texts = table.unescaped_row(take.alloc, number)?;
            read_unescaped(layout, table, number, &texts, seen, take)
        }
    }
}

/// Reads the rows of a table that has the columns of its layout into a map without rows, or refuses with the first fault
/// among them. `seen` knows the keys that are asked for, and no rows.
fn fill_rows<K: Key, R: TableRow<K>>(
    layout: &Layout,
    table: &Table,
    seen: &mut Seen,
    take: &mut Take,
    rows: &mut IndexMap<K, R>,
) -> Result<(), LoadError>
    requires is { table_as layout.now ≡ R.layout }
    requires spelled { IsSpelled table.now }
    requires columns { has_columns (table_as layout.now).columns (meaning table.now) ≡ true }
    requires apart { KeysTell K.eq K.key R.layout.columns }
    requires knows { KnowsKeys seen.old.keys (keys_asked (table_as layout.now) (meaning table.now)) }
    requires seen { IsSeen seen.old [] }
    requires memory { take.old.failed ≡ false }
    requires none { rows.old.entries ≡ [] }
    ensures { let read = rows_in (table_as layout.now) (meaning table.now) in
        Answers ⊥ (rows_fault (table_as layout.now) (keys_of read) [] 1 (meaning table.now).rows) (λ _. rows.new.entries ≡ keyed K.key R.value read) result }
{
    let mut fields = Vec::new(take.alloc);
    for number in 0..table.rows.len() {
        let (key, row) = read_typed(layout, table, number, seen, &mut fields, take)?;
        rows.insert(key, row)?;
    }
    Ok(())
}

/// The rows of a table that has the columns of its layout, by their keys, or the first fault among them. Their texts
/// are parts of the table's, `whole`, where they stand there; the line of the first row begins at the place `line` in it.
pub fn read_rows<K: Key, R: TableRow<K>>(
    alloc: Global,
    layout: &Layout,
    whole: Rc<String>,
    line: usize,
    table: &Table,
) -> Result<IndexMap<K, R>, LoadError>
    requires is { table_as layout.now ≡ R.layout }
    requires spelled { IsSpelled table.now }
    requires columns { has_columns (table_as layout.now).columns (meaning table.now) ≡ true }
    requires apart { KeysTell K.eq K.key R.layout.columns }
    ensures { let rows = rows_in (table_as layout.now) (meaning table.now) in
        Answers ⊥ (rows_fault (table_as layout.now) (keys_of rows) [] 1 (meaning table.now).rows) (λ held. held.entries ≡ keyed K.key R.value rows) result }
{
    let keys = keys_asked(alloc, layout, table)?;
    let Ok(mut rows) = IndexMap::with_capacity(alloc, table.rows.len()) else {
        drop(keys);
        return Err(LoadError::NoMemory);
    };
    let mut seen = Seen::new(alloc, keys);
    let mut take = Take::new(alloc, whole, line);
    let filled = fill_rows(layout, table, &mut seen, &mut take, &mut rows);
    drop(take);
    drop(seen);
    match filled {
        Ok(()) => Ok(rows),
        Err(error) => {
            drop(rows);
            Err(error)
        }
    }
}
