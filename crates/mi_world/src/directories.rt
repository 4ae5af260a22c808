//! The rows of Directory as directories are resolved by them, and the properties that directories set.

ghost use Rattle.std.specs.Prelude.{◌≡◌, ◌+◌, IfOk, OnOk, Some, None, map, true};
ghost use Rattle.std.specs.FinMap.{insert};
ghost use Rattle.mi_text.specs.PropertyNames.{is_property_name};
ghost use Rattle.mi_props.specs.Props.{Values};
ghost use Rattle.mi_schema.specs.RowsOf.{rows_in};
ghost use Rattle.mi_model.specs.Properties.{dir_row, directory_property, with_directories};
ghost use Rattle.mi_world.specs.Directories.{with_pair, HasDirectories};

use crate::properties::Properties;
use crate::rows::directory_at;
use mi_base::{NoMemory, Text, is_property_name, long_name, short_name, source_part, target_part};
use mi_dirs::{DirRow, Dirs};
use mi_props::PropError;
use mi_schema::{DirectoryRow, Package};
use std::alloc::Global;

// ---- rows

fn copy_option(alloc: Global, text: &Option<Text>) -> Result<Option<Text>, NoMemory>
    ensures { IfOk result (λ t. t ≡ text.now) }
{
    match text {
        Some(text) => Ok(Some(Text::copy_of(alloc, text.as_str())?)),
        None => Ok(None),
    }
}

fn dir_row(alloc: Global, row: &DirectoryRow) -> Result<DirRow, NoMemory>
    ensures { IfOk result (λ r. r ≡ dir_row row.now) }
{
    let source = source_part(row.default_dir.as_str());
    let target = target_part(row.default_dir.as_str());
    Ok(DirRow {
        key: Text::copy_of(alloc, row.directory.as_str())?,
        parent: copy_option(alloc, &row.directory_parent)?,
        target: Text::copy_of(alloc, long_name(target))?,
        short_source: Text::copy_of(alloc, short_name(source))?,
        long_source: Text::copy_of(alloc, long_name(source))?,
    })
}

/// The rows of Directory, in file order: their names at the target and at the source (Directory Table, DefaultDir).
pub(crate) fn dir_rows(alloc: Global, loaded: &Package) -> Result<Vec<DirRow>, NoMemory>
    ensures { IfOk result (λ v. v.items ≡ map dir_row (rows_in loaded.now).directory) }
{
    let mut rows = Vec::new(alloc);
    for place in 0..loaded.directory.len() {
        match directory_at(loaded, place) {
            Some(row) => rows.push(dir_row(alloc, row)?)?,
            None => {}
        }
    }
    Ok(rows)
}

// ---- properties

fn put(alloc: Global, props: &mut Properties, name: &str, value: &str) -> Result<(), NoMemory>
    requires { is_property_name name.now ≡ true }
    ensures { OnOk result (props.new ≡ insert props.old name.now value.now) }
{
    match props.set(alloc, name, value) {
        Ok(()) => Ok(()),
        Err(PropError::NoMemory) => Err(NoMemory),
        Err(PropError::Fault(_)) => unreachable!(),
    }
}

// Sets the property of a directory, if its key is a property name.
fn set_row(
    alloc: Global,
    dirs: &Dirs,
    row: &DirectoryRow,
    props: &mut Properties,
) -> Result<(), NoMemory>
    ensures { OnOk result (props.new ≡ with_pair (directory_property dirs.now row.now) props.old) }
{
    if !is_property_name(row.directory.as_str()) {
        return Ok(());
    }
    match dirs.target(row.directory.as_str()) {
        Some(target) => {
            put(alloc, props, row.directory.as_str(), target.as_str())?;
            Ok(())
        }
        None => Ok(()),
    }
}

fn set_at(
    alloc: Global,
    loaded: &Package,
    dirs: &Dirs,
    place: usize,
    props: &mut Properties,
) -> Result<(), NoMemory>
    ensures { (before : Values) → OnOk result (HasDirectories (rows_in loaded.now).directory dirs.now before (place + 1) props.old → HasDirectories (rows_in loaded.now).directory dirs.now before place props.new) }
{
    match directory_at(loaded, place) {
        Some(row) => {
            set_row(alloc, dirs, row, props)?;
            Ok(())
        }
        None => Ok(()),
    }
}

/// Sets the property of each directory whose key is a property name, whatever it was (Using a Directory Property in a Path).
pub(crate) fn set_directories(
    alloc: Global,
    loaded: &Package,
    dirs: &Dirs,
    props: &mut Properties,
) -> Result<(), NoMemory>
    ensures { OnOk result (props.new ≡ with_directories (rows_in loaded.now) dirs.now props.old) }
{
    let mut place = loaded.directory.len();
    while place > 0 {
        place -= 1;
        set_at(alloc, loaded, dirs, place, props)?;
    }
    Ok(())
}
