//! Rows by their keys.

ghost use Rattle.std.specs.Prelude.{◌≡◌, map, IfOk};
ghost use Rattle.std.specs.BTreeMap.{get_by_text};
ghost use Rattle.mi_text.specs.Maps.{Name, same_name};
ghost use Rattle.mi_dirs.specs.Places.{first_row};
ghost use Rattle.mi_dirs.specs.Rows.{row_with};

use crate::rows::DirRow;
use mi_text::{NoMemory, PathText, Text};
use std::alloc::{AllocError, Global};
use std::collections::BTreeMap;

/// The first row of each key, counted from 0.
pub fn index_of(alloc: Global, keys: &[&str]) -> Result<BTreeMap<String, usize>, NoMemory>
    ensures { IfOk result (λ m. (q : Name) → get_by_text m q ≡ first_row (same_name q) (map (λ k. k.now) keys.now)) }
{
    let mut index = BTreeMap::new(alloc);
    for (row, key) in keys.iter().enumerate() {
        if !index.contains_key(*key) {
            let name = String::from_str(alloc, key)?;
            index.insert(name, row)?;
        }
    }
    Ok(index)
}

fn row_keys(alloc: Global, rows: &[DirRow]) -> Result<Vec<&str>, AllocError>
    ensures { IfOk result (λ v. map (λ k. k.now) v.items ≡ map (λ r. r.key) rows.now) }
{
    let mut keys = Vec::new(alloc);
    for row in rows {
        keys.push(row.key.as_str())?;
    }
    Ok(keys)
}

fn folder_keys(alloc: Global, folders: &[(Text, PathText)]) -> Result<Vec<&str>, AllocError>
    ensures { IfOk result (λ v. map (λ k. k.now) v.items ≡ map (λ r. r.0) folders.now) }
{
    let mut keys = Vec::new(alloc);
    for entry in folders {
        keys.push(entry.0.as_str())?;
    }
    Ok(keys)
}

/// The first row of each key.
pub(crate) fn rows_by_key(
    alloc: Global,
    rows: &[DirRow],
) -> Result<BTreeMap<String, usize>, NoMemory>
    ensures { IfOk result (λ m. (q : Name) → get_by_text m q ≡ row_with rows.now q) }
{
    let keys = row_keys(alloc, rows)?;
    let index = index_of(alloc, &keys)?;
    Ok(index)
}

/// The first folder of each key.
pub(crate) fn folders_by_key(
    alloc: Global,
    folders: &[(Text, PathText)],
) -> Result<BTreeMap<String, usize>, NoMemory>
    ensures { IfOk result (λ m. (q : Name) → get_by_text m q ≡ first_row (λ e. same_name q e.0) folders.now) }
{
    let keys = folder_keys(alloc, folders)?;
    let index = index_of(alloc, &keys)?;
    Ok(index)
}
