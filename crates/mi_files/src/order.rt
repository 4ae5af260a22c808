//! Rows of CreateFolder in byte order of their keys (CreateFolder table: its key is two columns).

ghost use Rattle.std.specs.Prelude.{◌≡◌, ◌≤◌, ◌+◌, IfOk, OnOk, map, length};
ghost use Rattle.mi_schema.specs.Lawful.{IsLawful};
ghost use Rattle.mi_schema.specs.RowsOf.{behind, rows_in};
ghost use Rattle.mi_schema.specs.TableRows.{in_key_order};
ghost use Rattle.mi_records.specs.Order.{AreOrdered, as_numbered};
ghost use Rattle.mi_files.specs.Folders.{key_of};

use indexmap::IndexMap;
use mi_base::{NoMemory, Text};
use mi_records::Row;
use mi_schema::{CreateFolderRow, Package, tables_small};
use std::alloc::Global;
use std::collections::BTreeMap;

// The rows as the package keeps them.
type Table = IndexMap<(Text, Text), CreateFolderRow>;

// Rows by their keys.
type Ordered<'k, 'a> = BTreeMap<&'k str, Row<'a, CreateFolderRow>>;

// The key of a row: its columns, with byte 0 between them.
fn key_of(alloc: Global, row: &CreateFolderRow) -> Result<Text, NoMemory>
    ensures { IfOk result (λ key. key ≡ key_of row.now) }
{
    let mut key = Text::copy_of(alloc, row.directory.as_str())?;
    key.push_str("\0")?;
    key.push_str(row.component.as_str())?;
    Ok(key)
}

// The keys of all rows, in file order.
fn keys_of(alloc: Global, rows: &Table) -> Result<Vec<Text>, NoMemory>
    ensures { IfOk result (λ keys. keys.items ≡ map key_of (behind rows.now.entries)) }
{
    let mut keys = Vec::new(alloc);
    for row in rows.values() {
        let key = key_of(alloc, row)?;
        keys.push(key)?;
    }
    Ok(keys)
}

// Puts the row at this place among those behind it; it takes the seat of one with the same key.
fn put<'k, 'a>(
    rows: &'a Table,
    keys: &'k [Text],
    place: usize,
    ordered: &mut Ordered<'k, 'a>,
) -> Result<(), NoMemory>
    requires few { length rows.now.entries ≤ 65535 }
    requires keys { keys.now ≡ map key_of (behind rows.now.entries) }
    ensures { OnOk result (AreOrdered key_of (behind rows.now.entries) (place + 1) ordered.old.entries → AreOrdered key_of (behind rows.now.entries) place ordered.new.entries) }
{
    if let Some((_, row)) = rows.get_index(place) {
        ordered.insert(keys[place].as_str(), (place as u32 + 1, row))?;
    }
    Ok(())
}

// All rows by their keys. It goes from the last row to the first, so that of two with one key the first has it.
fn ordered<'k, 'a>(
    alloc: Global,
    rows: &'a Table,
    keys: &'k [Text],
) -> Result<Ordered<'k, 'a>, NoMemory>
    requires few { length rows.now.entries ≤ 65535 }
    requires keys { keys.now ≡ map key_of (behind rows.now.entries) }
    ensures { IfOk result (λ ordered. AreOrdered key_of (behind rows.now.entries) 0 ordered.entries) }
{
    let mut ordered = BTreeMap::new(alloc);
    let mut place = rows.len();
    while place > 0 {
        place -= 1;
        put(rows, keys, place, &mut ordered)?;
    }
    Ok(ordered)
}

// The rows in the order of their keys.
fn rows_of<'a>(
    alloc: Global,
    ordered: &Ordered<'_, 'a>,
) -> Result<Vec<Row<'a, CreateFolderRow>>, NoMemory>
    ensures { IfOk result (λ rows. rows.items ≡ map (λ e. e.1) ordered.now.entries) }
{
    let rows = ordered.values().copied().collect(alloc)?;
    Ok(rows)
}

/// The rows of CreateFolder in byte order of their keys, each behind its number, from 1. It costs a search for each row.
pub(crate) fn folders_in_order(
    alloc: Global,
    loaded: &Package,
) -> Result<Vec<Row<'_, CreateFolderRow>>, NoMemory>
    requires { IsLawful loaded.now }
    ensures { IfOk result (λ rows. map as_numbered rows.items ≡ in_key_order key_of (rows_in loaded.now).create_folder) }
{
    tables_small(loaded);
    let keys = keys_of(alloc, &loaded.create_folder)?;
    let ordered = ordered(alloc, &loaded.create_folder, keys.as_slice())?;
    let rows = rows_of(alloc, &ordered)?;
    Ok(rows)
}
