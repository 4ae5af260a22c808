//! Rows of a table in byte order of their keys.

ghost use Rattle.std.specs.Prelude.{◌≡◌, List, ℕ, All, Contains, IfOk, OnOk, map, length, ◌≤◌, ◌+◌};
ghost use Rattle.mi_schema.specs.RowsOf.{behind};
ghost use Rattle.mi_schema.specs.TableRows.{in_key_order};
ghost use Rattle.mi_records.specs.Order.{AreOrdered, AreRowsOf, as_numbered};

use indexmap::IndexMap;
use mi_base::{NoMemory, Text};
use std::alloc::Global;
use std::collections::BTreeMap;

/// A row, behind its number in the file, from 1.
pub type Row<'a, R> = (u32, &'a R);

// Rows by their keys.
type Ordered<'a, R> = BTreeMap<&'a str, Row<'a, R>>;

// Puts the row at this place among those behind it; it takes the seat of one with the same key.
fn put<'a, R>(
    rows: &'a IndexMap<Text, R>,
    place: usize,
    ordered: &mut Ordered<'a, R>,
) -> Result<(), NoMemory>
    requires { length rows.now.entries ≤ 65535 }
    ensures order { (key : R → List ℕ) → All (λ e. e.0 ≡ key e.1) rows.now.entries → OnOk result (AreOrdered key (behind rows.now.entries) (place + 1) ordered.old.entries → AreOrdered key (behind rows.now.entries) place ordered.new.entries) }
    ensures each { OnOk result (AreRowsOf rows.now.entries ordered.old.entries → AreRowsOf rows.now.entries ordered.new.entries) }
{
    if let Some((key, row)) = rows.get_index(place) {
        ordered.insert(key.as_str(), (place as u32 + 1, row))?;
    }
    Ok(())
}

// All rows by their keys. It goes from the last row to the first, so that of two with one key the first has it.
fn ordered<R>(alloc: Global, rows: &IndexMap<Text, R>) -> Result<Ordered<'_, R>, NoMemory>
    requires { length rows.now.entries ≤ 65535 }
    ensures order { (key : R → List ℕ) → All (λ e. e.0 ≡ key e.1) rows.now.entries → IfOk result (λ ordered. AreOrdered key (behind rows.now.entries) 0 ordered.entries) }
    ensures each { IfOk result (λ ordered. AreRowsOf rows.now.entries ordered.entries) }
{
    let mut ordered = BTreeMap::new(alloc);
    let mut place = rows.len();
    while place > 0 {
        place -= 1;
        put(rows, place, &mut ordered)?;
    }
    Ok(ordered)
}

// The rows in the order of their keys.
fn rows_of<'a, R>(alloc: Global, ordered: &Ordered<'a, R>) -> Result<Vec<Row<'a, R>>, NoMemory>
    ensures { IfOk result (λ rows. rows.items ≡ map (λ e. e.1) ordered.now.entries) }
{
    let rows = ordered.values().copied().collect(alloc)?;
    Ok(rows)
}

/// The rows of a table of at most 65,535 rows in byte order of their keys, each behind its number, from 1. It costs a search for
/// each row.
pub fn in_key_order<R>(alloc: Global, rows: &IndexMap<Text, R>) -> Result<Vec<Row<'_, R>>, NoMemory>
    requires { length rows.now.entries ≤ 65535 }
    ensures order { (key : R → List ℕ) → All (λ e. e.0 ≡ key e.1) rows.now.entries → IfOk result (λ ordered. map as_numbered ordered.items ≡ in_key_order key (behind rows.now.entries)) }
    ensures each { IfOk result (λ ordered. All (λ r. Contains (behind rows.now.entries) r.1.now) ordered.items) }
{
    let ordered = ordered(alloc, rows)?;
    let rows = rows_of(alloc, &ordered)?;
    Ok(rows)
}
