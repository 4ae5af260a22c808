//! The files that rows of kept components guard.

ghost use Rattle.std.specs.Prelude.{◌≡◌, ◌||◌, IfOk, OnOk, option_map};
ghost use Rattle.std.specs.BTreeSet.{contains};
ghost use Rattle.std.specs.Option.{option_flatten};
ghost use Rattle.mi_text.specs.Maps.{Name as VolumeName, name_cmp};
ghost use Rattle.mi_base.specs.Names.{file_name};
ghost use Rattle.mi_model.specs.World.{World};
ghost use Rattle.mi_model.specs.FilePaths.{copy_path, is_guarded_file, path_of_row};
ghost use Rattle.mi_schema.specs.Lawful.{IsLawful};
ghost use Rattle.mi_records.specs.Choices.{IsAsked};
ghost use Rattle.mi_records.specs.Removing.{Guards};
ghost use Rattle.mi_files.specs.Guarding.{file_guard, copy_guard, guards_files, guards_copies};

use crate::names::name_of_file;
use crate::paths::{copy_path, row_path};
use mi_base::{Name, NoMemory, PathText};
use mi_records::Sees;
use mi_schema::{DuplicateFileRow, FileRow};
use std::alloc::Global;
use std::collections::BTreeSet;

// The name of the file of a path, where there is one; the path is dropped.
fn name_of_some(alloc: Global, path: Option<PathText>) -> Result<Option<Name>, NoMemory>
    ensures { IfOk result (λ name. name ≡ option_map file_name path) }
{
    match path {
        Some(path) => {
            let name = name_of_file(alloc, &path)?;
            Ok(Some(name))
        }
        None => Ok(None),
    }
}

// The name of the file that a row of File names; one that is refused names none.
fn file_named<E: Sees>(alloc: Global, seen: &E, row: &FileRow) -> Result<Option<Name>, NoMemory>
    requires { IsLawful (E.rows seen.now) }
    ensures { (w : World) → IsAsked (E.lookups seen.now) (E.choices seen.now) (E.rows seen.now) w → IfOk result (λ name. name ≡ option_map file_name (path_of_row w row.now)) }
{
    let path = row_path(alloc, seen, row)?;
    let name = name_of_some(alloc, path)?;
    Ok(name)
}

// The name of the copy that a row of DuplicateFile names; one that is refused or copies nothing names none.
fn copy_named<E: Sees>(
    alloc: Global,
    seen: &E,
    row: &DuplicateFileRow,
) -> Result<Option<Name>, NoMemory>
    requires { IsLawful (E.rows seen.now) }
    ensures { (w : World) → IsAsked (E.lookups seen.now) (E.choices seen.now) (E.rows seen.now) w → IfOk result (λ name. name ≡ option_map file_name (option_flatten (copy_path w row.now))) }
{
    match copy_path(alloc, seen, row) {
        Ok(Some(path)) => name_of_some(alloc, path),
        Ok(None) => Ok(None),
        Err(_) => Err(NoMemory),
    }
}

// The name of the file that a row of File guards.
fn file_guard<E: Sees>(alloc: Global, seen: &E, row: &FileRow) -> Result<Option<Name>, NoMemory>
    requires { IsLawful (E.rows seen.now) }
    ensures { (w : World) → IsAsked (E.lookups seen.now) (E.choices seen.now) (E.rows seen.now) w → IfOk result (λ name. name ≡ file_guard w row.now) }
{
    if seen.keeps(row.component.as_str()) {
        file_named(alloc, seen, row)
    } else {
        Ok(None)
    }
}

// The name of the copy that a row of DuplicateFile guards.
fn copy_guard<E: Sees>(
    alloc: Global,
    seen: &E,
    row: &DuplicateFileRow,
) -> Result<Option<Name>, NoMemory>
    requires { IsLawful (E.rows seen.now) }
    ensures { (w : World) → IsAsked (E.lookups seen.now) (E.choices seen.now) (E.rows seen.now) w → IfOk result (λ name. name ≡ copy_guard w row.now) }
{
    if seen.keeps(row.component.as_str()) {
        copy_named(alloc, seen, row)
    } else {
        Ok(None)
    }
}

// Adds the names that rows of File guard.
fn add_files<E: Sees>(alloc: Global, seen: &E, set: &mut BTreeSet<Name>) -> Result<(), NoMemory>
    requires { IsLawful (E.rows seen.now) }
    ensures { (w : World) → IsAsked (E.lookups seen.now) (E.choices seen.now) (E.rows seen.now) w → OnOk result ((q : VolumeName) → contains name_cmp set.new q ≡ (contains name_cmp set.old q || guards_files w q)) }
{
    let loaded = seen.package();
    for row in loaded.file.values() {
        if let Some(name) = file_guard(alloc, seen, row)? {
            set.insert(name)?;
        }
    }
    Ok(())
}

// Adds the names that rows of DuplicateFile guard.
fn add_copies<E: Sees>(alloc: Global, seen: &E, set: &mut BTreeSet<Name>) -> Result<(), NoMemory>
    requires { IsLawful (E.rows seen.now) }
    ensures { (w : World) → IsAsked (E.lookups seen.now) (E.choices seen.now) (E.rows seen.now) w → OnOk result ((q : VolumeName) → contains name_cmp set.new q ≡ (contains name_cmp set.old q || guards_copies w q)) }
{
    let loaded = seen.package();
    for row in loaded.duplicate_file.values() {
        if let Some(name) = copy_guard(alloc, seen, row)? {
            set.insert(name)?;
        }
    }
    Ok(())
}

/// The names of the files that rows of File and DuplicateFile of kept components name, which leaving rows don't take
/// (this project's own). It costs a search for each row.
pub fn guards<E: Sees>(alloc: Global, seen: &E) -> Result<BTreeSet<Name>, NoMemory>
    requires { IsLawful (E.rows seen.now) }
    ensures { (w : World) → IsAsked (E.lookups seen.now) (E.choices seen.now) (E.rows seen.now) w → IfOk result (λ set. Guards set (is_guarded_file w)) }
{
    let mut set = BTreeSet::new(alloc);
    add_files(alloc, seen, &mut set)?;
    add_copies(alloc, seen, &mut set)?;
    Ok(set)
}
