//! The key path that ProcessComponents records (Component table, KeyPath).

ghost use Rattle.std.specs.Prelude.{◌≡◌, codes, if◌then◌else◌};
ghost use Rattle.mi_base.specs.declared.answers.Fault.TheVariants.{BadPath};
ghost use Rattle.mi_model.specs.World.{World};
ghost use Rattle.mi_model.specs.ClientRows.{recorded_path};
ghost use Rattle.mi_schema.specs.Lawful.{IsLawful};
ghost use Rattle.mi_schema.specs.RowsOf.{rows_in};
ghost use Rattle.mi_rows.specs.Values.{lacks};
ghost use Rattle.mi_records.specs.Choices.{IsAsked};
ghost use Rattle.mi_records.specs.Clients.{IsOwn, IsFault, path_told, file_number, is_value, file_told, value_told, key_told};
ghost use Rattle.mi_records.specs.Stops.{TellsBy};

use crate::error::PlanError;
use crate::sees::Sees;
use mi_base::{Fault, Text};
use mi_schema::{ComponentRow, Package, keys_stand, tables_small};
use std::alloc::Global;

/// Whether none of these attributes is set (Component table, Attributes).
pub fn lacks(bits: u32, attributes: i32) -> bool
    ensures { result ≡ lacks bits attributes }
{
    attributes.cast_unsigned() & bits == 0
}

// The path of the row of File with this number is past the limits.
fn bad_path(alloc: Global, number: u32) -> PlanError
    ensures { IsFault (BadPath (codes "File") number) result }
{
    match Text::copy_of(alloc, "File") {
        Ok(table) => PlanError::Fault(Fault::BadPath(table, number)),
        Err(_) => PlanError::NoMemory,
    }
}

/// The number of the row of File of a key, from 1.
pub fn file_number(loaded: &Package, key: &Text) -> Option<u32>
    requires { IsLawful loaded.now }
    ensures { result ≡ file_number (rows_in loaded.now) key.now }
{
    keys_stand(loaded);
    tables_small(loaded);
    match loaded.file.get_index_of(key) {
        Some(place) => Some(place as u32 + 1),
        None => None,
    }
}

// Whether a row of Registry has this key.
fn is_value(loaded: &Package, key: &Text) -> bool
    requires { IsLawful loaded.now }
    ensures { result ≡ is_value (rows_in loaded.now) key.now }
{
    keys_stand(loaded);
    loaded.registry.contains_key(key)
}

// The path of a file, by the directories as they stand.
fn path_of<'a, S: Sees>(
    alloc: Global,
    seen: &'a S,
    key: &str,
    number: u32,
) -> Result<&'a str, PlanError>
    ensures { TellsBy (λ path. path.now) (path_told ((S.lookups seen.now).file key.now) number) result }
{
    let path = seen.file(key);
    if path.is_empty() {
        return Err(bad_path(alloc, number));
    }
    Ok(path)
}

fn file_told<'a, S: Sees>(
    alloc: Global,
    seen: &'a S,
    row: &ComponentRow,
    key: &Text,
) -> Result<&'a str, PlanError>
    requires { IsLawful (S.rows seen.now) }
    ensures { TellsBy (λ path. path.now) (file_told (S.lookups seen.now) row.now key.now (file_number (rows_in (S.rows seen.now)) key.now)) result }
{
    match file_number(seen.package(), key) {
        Some(number) => path_of(alloc, seen, key.as_str(), number),
        None => Ok(seen.folder(row.component.as_str())),
    }
}

fn value_told<'a, S: Sees>(seen: &'a S, row: &ComponentRow, key: &Text) -> &'a str
    requires { IsLawful (S.rows seen.now) }
    ensures { result.now ≡ value_told (rows_in (S.rows seen.now)) (S.lookups seen.now) (S.choices seen.now) row.now key.now }
{
    if is_value(seen.package(), key) {
        seen.found_path(row.component.as_str())
    } else {
        seen.folder(row.component.as_str())
    }
}

// The key path of a component whose KeyPath is this key.
fn key_told<'a, S: Sees>(
    alloc: Global,
    seen: &'a S,
    row: &ComponentRow,
    key: &Text,
) -> Result<&'a str, PlanError>
    requires { IsLawful (S.rows seen.now) }
    ensures { TellsBy (λ path. path.now) (key_told (rows_in (S.rows seen.now)) (S.lookups seen.now) (S.choices seen.now) row.now key.now) result }
{
    if lacks(4, row.attributes) {
        file_told(alloc, seen, row, key)
    } else {
        Ok(value_told(seen, row, key))
    }
}

/// The key path of a component: that of a file or folder by the directories as they stand, that of a value as CostFinalize found it.
/// Refused with `BadPath` of the row of File whose path is past the limits.
pub fn recorded_path<'a, S: Sees>(
    alloc: Global,
    seen: &'a S,
    row: &ComponentRow,
) -> Result<&'a str, PlanError>
    requires lawful { IsLawful (S.rows seen.now) }
    requires own { IsOwn (rows_in (S.rows seen.now)) row.now }
    ensures { (w : World) → IsAsked (S.lookups seen.now) (S.choices seen.now) (S.rows seen.now) w → TellsBy (λ path. path.now) (recorded_path w row.now) result }
{
    match &row.key_path {
        Some(key) => key_told(alloc, seen, row, key),
        None => Ok(seen.folder(row.component.as_str())),
    }
}
