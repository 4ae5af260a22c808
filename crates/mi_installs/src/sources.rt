//! Where the bytes of a row's file lie in the source, and whether they are there (File table; Word Count Summary property).

ghost use Rattle.std.specs.Prelude.{◌≡◌, [], ◌≤◌, ℕ, List, IfOk, OnErr, IsErrOf, length, unwrap_or};
ghost use Rattle.std.specs.FinMap.{get};
ghost use Rattle.mi_base.specs.declared.answers.Fault.TheVariants.{Missing as missing_file, SizeDiffers as size_differs};
ghost use Rattle.mi_dirs.specs.Places.{source_of};
ghost use Rattle.mi_model.specs.World.{World};
ghost use Rattle.mi_model.specs.FilePaths.{component_source, source_name, source_path};
ghost use Rattle.mi_model.specs.InstallFiles.{stated_size, right_size, right_file};
ghost use Rattle.mi_schema.specs.Lawful.{IsLawful};
ghost use Rattle.mi_source.specs.Counts.{Rose};
ghost use Rattle.mi_source.specs.Paths.{path_in};
ghost use Rattle.mi_records.specs.Choices.{IsAsked};
ghost use Rattle.mi_installs.specs.Installs.{Refuses, Finds};

use crate::error::InstallError;
use mi_base::{Fault, NoMemory, Text, long_name, short_name};
use mi_records::Sees;
use mi_schema::{FileRow, keys_stand};
use mi_source::Source;
use std::alloc::Global;

// ---- the path

// The folder of a directory in the source; no text where there is none.
fn directory_source<E: Sees>(alloc: Global, seen: &E, directory: &str) -> Result<Text, NoMemory>
    ensures { IfOk result (λ folder. folder ≡ unwrap_or (source_of (E.choices seen.now).dirs directory.now) []) }
{
    match seen.source(alloc, directory)? {
        Some(folder) => Ok(folder),
        None => Ok(Text::new(alloc)),
    }
}

// The folder of a component in the source.
fn component_source<E: Sees>(alloc: Global, seen: &E, component: &Text) -> Result<Text, NoMemory>
    requires { IsLawful (E.rows seen.now) }
    ensures { (w : World) → IsAsked (E.lookups seen.now) (E.choices seen.now) (E.rows seen.now) w → IfOk result (λ folder. folder ≡ component_source w component.now) }
{
    let loaded = seen.package();
    keys_stand(loaded);
    match loaded.component.get(component) {
        Some(row) => directory_source(alloc, seen, row.directory.as_str()),
        None => Ok(Text::new(alloc)),
    }
}

// The name under which the source has a row's file.
fn source_name(short: bool, row: &FileRow) -> &str
    ensures { result.now ≡ source_name short row.now }
{
    if short {
        short_name(row.file_name.as_str())
    } else {
        long_name(row.file_name.as_str())
    }
}

// The path of a file in a folder of the source.
fn path_in(alloc: Global, folder: &str, name: &str) -> Result<Text, NoMemory>
    ensures { IfOk result (λ path. path ≡ path_in folder.now name.now) }
{
    let mut path = Text::copy_of(alloc, folder)?;
    path.push_str("/")?;
    path.push_str(name)?;
    Ok(path)
}

/// The path of a row's file in the source: in the folder of its component's directory, its short or its long name, as the
/// package says (File table, FileName; Word Count Summary property).
pub(crate) fn source_path<E: Sees>(alloc: Global, seen: &E, row: &FileRow) -> Result<Text, NoMemory>
    requires { IsLawful (E.rows seen.now) }
    ensures { (w : World) → IsAsked (E.lookups seen.now) (E.choices seen.now) (E.rows seen.now) w → IfOk result (λ path. path ≡ source_path w row.now) }
{
    let folder = component_source(alloc, seen, &row.component)?;
    let name = source_name(seen.package().short_names, row);
    path_in(alloc, folder.as_str(), name)
}

// ---- what is there

/// The size that a row states of its file, in bytes (File table, FileSize).
pub(crate) fn stated_size(row: &FileRow) -> u64
    ensures { result ≡ stated_size row.now }
{
    u64::from(row.file_size.cast_unsigned())
}

// That the source hasn't a row's file.
fn missing(alloc: Global, row: &FileRow) -> InstallError
    ensures { Refuses (missing_file row.now.file) result }
{
    match Text::copy_of(alloc, row.file.as_str()) {
        Ok(key) => InstallError::Fault(Fault::Missing(key)),
        Err(_) => InstallError::NoMemory,
    }
}

// That it has so many bytes there, and not those that the row states.
fn differs(alloc: Global, row: &FileRow, found: u64) -> InstallError
    ensures { Refuses (size_differs row.now.file (stated_size row.now) found) result }
{
    match Text::copy_of(alloc, row.file.as_str()) {
        Ok(key) => InstallError::Fault(Fault::SizeDiffers(key, stated_size(row), found)),
        Err(_) => InstallError::NoMemory,
    }
}

// Whether so many bytes are those that a row states.
fn judge_size(alloc: Global, row: &FileRow, found: u64) -> Result<(), InstallError>
    ensures finds { (bytes : List ℕ) → found ≡ length bytes → Finds (right_size row.now bytes) result }
    ensures source { ¬ IsErrOf result InstallError.Source }
    ensures volume { ¬ IsErrOf result InstallError.Volume }
{
    if found == stated_size(row) {
        Ok(())
    } else {
        Err(differs(alloc, row, found))
    }
}

/// Asks the source for a row's file. Refused with `Missing` where it isn't there, and with `SizeDiffers` where it has another
/// size than its row states (File table, FileSize).
pub(crate) fn judge_source<S: Source>(
    alloc: Global,
    src: &mut S,
    row: &FileRow,
    path: &str,
) -> Result<(), InstallError>
    ensures finds { S.told → Finds (right_file row.now (get (S.files src.old) path.now)) result }
    ensures source { IsErrOf result InstallError.Source → Rose (S.faults src.old) (S.faults src.new) }
    ensures volume { ¬ IsErrOf result InstallError.Volume }
    ensures stays { S.files src.new ≡ S.files src.old }
    ensures counts { S.faults src.old ≤ S.faults src.new }
{
    match src.size(path) {
        Ok(Some(found)) => judge_size(alloc, row, found),
        Ok(None) => Err(missing(alloc, row)),
        Err(_) => Err(InstallError::Source),
    }
}
