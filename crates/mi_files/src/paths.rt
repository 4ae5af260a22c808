//! The paths that rows of File and DuplicateFile name (File table; DuplicateFile table; Directory table; Filename).

ghost use Rattle.std.specs.Prelude.{◌≡◌, IfOk, IfSome, IsTrue, option_and_then};
ghost use Rattle.std.specs.Option.{option_copied};
ghost use Rattle.std.specs.Result.{result_ok};
ghost use Rattle.mi_text.specs.Path.{is_file_path, file_of};
ghost use Rattle.mi_text.specs.FileNames.{long_name};
ghost use Rattle.mi_dirs.specs.Rows.{from_property};
ghost use Rattle.mi_dirs.specs.Views.{IsFolder};
ghost use Rattle.mi_model.specs.World.{World};
ghost use Rattle.mi_model.specs.Asked.{component_folder};
ghost use Rattle.mi_model.specs.FilePaths.{path_of_row, copy_name, copy_path, original_path};
ghost use Rattle.mi_schema.specs.Lawful.{IsLawful};
ghost use Rattle.mi_schema.specs.RowsOf.{rows_in};
ghost use Rattle.mi_schema.specs.TableRows.{component_row_of, file_row_of};
ghost use Rattle.mi_records.specs.Choices.{IsAsked};
ghost use Rattle.mi_files.specs.Paths.{copy_seen, copy_in};

use mi_base::{NoMemory, PathError, PathText, Text, long_name};
use mi_format::BoundedEnv;
use mi_records::Sees;
use mi_schema::{ComponentRow, DuplicateFileRow, FileRow, Package, keys_stand};
use std::alloc::Global;

// ---- folders

/// The row of Component of a key (Component Table).
pub fn component_row<'a>(loaded: &'a Package, key: &Text) -> Option<&'a ComponentRow>
    requires { IsLawful loaded.now }
    ensures { option_copied result ≡ component_row_of (rows_in loaded.now) key.now }
{
    keys_stand(loaded);
    loaded.component.get(key)
}

// The folder of a component: the target of its directory, as the directories stand.
fn component_folder<'a, E: Sees>(seen: &'a E, component: &Text) -> Option<&'a PathText>
    requires { IsLawful (E.rows seen.now) }
    ensures folder { option_copied result ≡ component_folder (rows_in (E.rows seen.now)) (E.choices seen.now).dirs component.now }
    ensures right { IfSome result (λ path. IsFolder path.now) }
{
    match component_row(seen.package(), component) {
        Some(row) => seen.target(row.directory.as_str()),
        None => None,
    }
}

/// The folder that a property names. The outer None is that the property is empty, the inner one that its value is no folder
/// (Property table; Directory table).
pub fn named_folder<E: BoundedEnv>(
    alloc: Global,
    env: &E,
    property: &str,
) -> Result<Option<Option<PathText>>, NoMemory>
    ensures folder { IfOk result (λ f. f ≡ from_property ((E.lookups env.now).property property.now)) }
    ensures right { IfOk result (λ f. IfSome f (λ inner. IfSome inner IsFolder)) }
{
    let value = env.property(property);
    if value.is_empty() {
        return Ok(None);
    }
    match PathText::folder(alloc, value) {
        Ok(folder) => Ok(Some(Some(folder))),
        Err(PathError::NoMemory) => Err(NoMemory),
        Err(PathError::Fault(_)) => Ok(Some(None)),
    }
}

// ---- files in folders

/// The file of a long name in a folder, and None where that is past the limits of paths (Directory Table).
pub fn file_in(
    alloc: Global,
    folder: &PathText,
    file_name: &str,
) -> Result<Option<PathText>, NoMemory>
    requires { IsFolder folder.now }
    ensures path { IfOk result (λ p. p ≡ result_ok (file_of folder.now (long_name file_name.now))) }
    ensures file { IfOk result (λ p. IfSome p (λ path. IsTrue (is_file_path path))) }
{
    match folder.file(alloc, long_name(file_name)) {
        Ok(path) => Ok(Some(path)),
        Err(PathError::NoMemory) => Err(NoMemory),
        Err(PathError::Fault(_)) => Ok(None),
    }
}

// The same in the folder of a component.
fn file_of_component<E: Sees>(
    alloc: Global,
    seen: &E,
    component: &Text,
    file_name: &str,
) -> Result<Option<PathText>, NoMemory>
    requires { IsLawful (E.rows seen.now) }
    ensures path { IfOk result (λ p. p ≡ option_and_then (λ folder. result_ok (file_of folder (long_name file_name.now))) (component_folder (rows_in (E.rows seen.now)) (E.choices seen.now).dirs component.now)) }
    ensures file { IfOk result (λ p. IfSome p (λ path. IsTrue (is_file_path path))) }
{
    match component_folder(seen, component) {
        Some(folder) => file_in(alloc, folder, file_name),
        None => Ok(None),
    }
}

// The same in a folder, where there is one; the folder is dropped.
fn file_in_some(
    alloc: Global,
    folder: Option<PathText>,
    file_name: &str,
) -> Result<Option<PathText>, NoMemory>
    requires { IfSome folder IsFolder }
    ensures path { IfOk result (λ p. p ≡ option_and_then (λ folder. result_ok (file_of folder (long_name file_name.now))) folder) }
    ensures file { IfOk result (λ p. IfSome p (λ path. IsTrue (is_file_path path))) }
{
    match folder {
        Some(folder) => {
            let path = file_in(alloc, &folder, file_name);
            drop(folder);
            path
        }
        None => Ok(None),
    }
}

// ---- rows of File

/// The path of a row of File: its long name in the folder of its component, by the directories as they stand. None where it is
/// past the limits of paths (File table, FileName).
pub fn row_path<E: Sees>(
    alloc: Global,
    seen: &E,
    row: &FileRow,
) -> Result<Option<PathText>, NoMemory>
    requires lawful { IsLawful (E.rows seen.now) }
    ensures path { (w : World) → IsAsked (E.lookups seen.now) (E.choices seen.now) (E.rows seen.now) w → IfOk result (λ p. p ≡ path_of_row w row.now) }
    ensures file { IfOk result (λ p. IfSome p (λ path. IsTrue (is_file_path path))) }
{
    file_of_component(alloc, seen, &row.component, row.file_name.as_str())
}

// ---- rows of DuplicateFile

// The row of File of a key.
fn file_row<'a>(loaded: &'a Package, key: &Text) -> Option<&'a FileRow>
    requires { IsLawful loaded.now }
    ensures { option_copied result ≡ file_row_of (rows_in loaded.now) key.now }
{
    keys_stand(loaded);
    loaded.file.get(key)
}

// The name of the copy of a file, or that of the file.
fn copy_name<'a>(row: &'a DuplicateFileRow, file: &'a FileRow) -> &'a str
    ensures { long_name result.now ≡ copy_name file.now row.now.dest_name }
{
    match &row.dest_name {
        Some(name) => name.as_str(),
        None => file.file_name.as_str(),
    }
}

// The path of the copy of this name in the folder that a property names.
fn copy_in<E: Sees>(
    alloc: Global,
    seen: &E,
    property: &str,
    name: &str,
) -> Result<Option<Option<PathText>>, NoMemory>
    ensures path { IfOk result (λ p. p ≡ copy_in (E.lookups seen.now) property.now (long_name name.now)) }
    ensures file { IfOk result (λ p. IfSome p (λ inner. IfSome inner (λ path. IsTrue (is_file_path path)))) }
{
    match named_folder(alloc, seen, property)? {
        Some(folder) => Ok(Some(file_in_some(alloc, folder, name)?)),
        None => Ok(None),
    }
}

// The path of the copy of a file.
fn copy_of<E: Sees>(
    alloc: Global,
    seen: &E,
    row: &DuplicateFileRow,
    file: &FileRow,
) -> Result<Option<Option<PathText>>, NoMemory>
    requires { IsLawful (E.rows seen.now) }
    ensures path { IfOk result (λ p. p ≡ copy_seen (E.lookups seen.now) (E.choices seen.now) (rows_in (E.rows seen.now)) row.now file.now) }
    ensures file { IfOk result (λ p. IfSome p (λ inner. IfSome inner (λ path. IsTrue (is_file_path path)))) }
{
    let name = copy_name(row, file);
    match &row.dest_folder {
        Some(property) => copy_in(alloc, seen, property.as_str(), name),
        None => Ok(Some(file_of_component(alloc, seen, &file.component, name)?)),
    }
}

/// The path of the copy that a row of DuplicateFile names. The outer None is that nothing is copied or taken away: the property
/// that the row names is empty. The inner one is that the row is refused: its folder is none, or the path is past the limits
/// (DuplicateFile table, DestName and DestFolder).
pub fn copy_path<E: Sees>(
    alloc: Global,
    seen: &E,
    row: &DuplicateFileRow,
) -> Result<Option<Option<PathText>>, NoMemory>
    requires lawful { IsLawful (E.rows seen.now) }
    ensures path { (w : World) → IsAsked (E.lookups seen.now) (E.choices seen.now) (E.rows seen.now) w → IfOk result (λ p. p ≡ copy_path w row.now) }
    ensures file { IfOk result (λ p. IfSome p (λ inner. IfSome inner (λ path. IsTrue (is_file_path path)))) }
{
    match file_row(seen.package(), &row.file) {
        Some(file) => copy_of(alloc, seen, row, file),
        None => Ok(None),
    }
}

/// The path of the file that a row of DuplicateFile copies, and None where it is past the limits of paths
/// (DuplicateFile table, File_).
pub fn original_path<E: Sees>(
    alloc: Global,
    seen: &E,
    row: &DuplicateFileRow,
) -> Result<Option<PathText>, NoMemory>
    requires lawful { IsLawful (E.rows seen.now) }
    ensures path { (w : World) → IsAsked (E.lookups seen.now) (E.choices seen.now) (E.rows seen.now) w → IfOk result (λ p. p ≡ original_path w row.now) }
    ensures file { IfOk result (λ p. IfSome p (λ path. IsTrue (is_file_path path))) }
{
    match file_row(seen.package(), &row.file) {
        Some(file) => row_path(alloc, seen, file),
        None => Ok(None),
    }
}
