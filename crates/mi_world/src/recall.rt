//! Folders of an earlier run.

ghost use Rattle.std.specs.Prelude.{◌≡◌, ◌+◌, ◌++◌, [], List, ℕ, All, IfOk, IfSome, OnOk, map, option_and_then, slice_get};
ghost use Rattle.std.specs.Option.{option_copied};
ghost use Rattle.std.specs.List.{cons_option, filter_map};
ghost use Rattle.std.specs.FinMap.{get};
ghost use Rattle.mi_text.specs.Maps.{Name, Map};
ghost use Rattle.mi_text.specs.Path.{up_to_last};
ghost use Rattle.mi_dirs.specs.Views.{IsFolder};
ghost use Rattle.mi_image.specs.Items.{machine_over};
ghost use Rattle.mi_schema.specs.RowsOf.{rows_in};
ghost use Rattle.mi_rows.specs.Values.{lacks};
ghost use Rattle.mi_model.specs.Remembered.{remembered};
ghost use Rattle.mi_world.specs.Ground.{ground};
ghost use Rattle.mi_world.specs.Recall.{in_order, told_path, told_over, folder_told, folder_row, AreOrdered, AreToldBy};

use crate::rows::{component_at, directory_at, product_code};
use crate::system::folder_named;
use crate::table::Table;
use mi_base::{Guid, NoMemory, PathText, Text};
use mi_image::Image;
use mi_schema::{ComponentRow, DirectoryRow, Package};
use std::alloc::Global;
use std::collections::BTreeMap;

// ---- components in byte order of their keys

/// Rows of Component by their keys.
type Ordered<'a> = BTreeMap<&'a str, &'a ComponentRow>;

fn put_at<'a>(loaded: &'a Package, place: usize, rows: &mut Ordered<'a>) -> Result<(), NoMemory>
    ensures { OnOk result (AreOrdered (rows_in loaded.now).component (place + 1) rows.old.entries → AreOrdered (rows_in loaded.now).component place rows.new.entries) }
{
    match component_at(loaded, place) {
        Some(row) => {
            rows.insert(row.component.as_str(), row)?;
            Ok(())
        }
        None => Ok(()),
    }
}

fn ordered(alloc: Global, loaded: &Package) -> Result<Ordered<'_>, NoMemory>
    ensures { IfOk result (λ m. AreOrdered (rows_in loaded.now).component 0 m.entries) }
{
    let mut rows = BTreeMap::new(alloc);
    let mut place = loaded.component.len();
    while place > 0 {
        place -= 1;
        put_at(loaded, place, &mut rows)?;
    }
    Ok(rows)
}

fn rows_of<'a>(alloc: Global, rows: &Ordered<'a>) -> Result<Vec<&'a ComponentRow>, NoMemory>
    ensures { IfOk result (λ v. v.items ≡ map (λ e. e.1) rows.now.entries) }
{
    let rows = rows.values().copied().collect(alloc)?;
    Ok(rows)
}

fn in_order(alloc: Global, loaded: &Package) -> Result<Vec<&ComponentRow>, NoMemory>
    ensures { IfOk result (λ v. map (λ r. r.now) v.items ≡ in_order (rows_in loaded.now).component) }
{
    let ordered = ordered(alloc, loaded)?;
    let rows = rows_of(alloc, &ordered)?;
    Ok(rows)
}

// ---- key paths that tell folders

fn lacks(bits: u32, attributes: i32) -> bool
    ensures { result ≡ lacks bits attributes }
{
    attributes.cast_unsigned() & bits == 0
}

// The key path by which a component tells its folder: that of the product's client row, where it is no value's.
fn told_path<'a>(image: &'a Image, code: Guid, row: &ComponentRow) -> Option<&'a Text>
    ensures { (held files : Map (List ℕ)) → option_copied result ≡ told_path (machine_over held files image.now) code.number row.now }
{
    if !lacks(4, row.attributes) {
        return None;
    }
    match row.component_id {
        Some(id) => match image.client(id, code) {
            Some(client) => Some(&client.key_path),
            None => None,
        },
        None => None,
    }
}

fn tell(
    alloc: Global,
    image: &Image,
    code: Guid,
    row: &ComponentRow,
    table: &mut Table,
) -> Result<(), NoMemory>
    ensures { (held files : Map (List ℕ)) → OnOk result ((dir : Name) → get table.new dir ≡ told_over (machine_over held files image.now) code.number row.now dir (get table.old dir)) }
{
    match told_path(image, code, row) {
        Some(path) => {
            let path = Text::copy_of(alloc, path.as_str())?;
            table.put(alloc, row.directory.as_str(), path)?;
            Ok(())
        }
        None => Ok(()),
    }
}

// The key path that tells the folder of each directory: that of the first row.
fn told_paths(
    alloc: Global,
    image: &Image,
    code: Guid,
    rows: &[&ComponentRow],
) -> Result<Table, NoMemory>
    ensures { (held files : Map (List ℕ)) → IfOk result (λ t. AreToldBy (machine_over held files image.now) code.number (map (λ r. r.now) rows.now) 0 t) }
{
    let mut table = Table::new(alloc);
    let mut place = rows.len();
    while place > 0 {
        place -= 1;
        tell(alloc, image, code, rows[place], &mut table)?;
    }
    Ok(table)
}

// ---- folders

// The text up to and with its last backslash.
fn up_to_last(text: &str) -> &str
    ensures { result.now ≡ up_to_last text.now }
{
    match text.rfind('\\') {
        Some(place) => text.split_at(place + 1).0,
        None => "",
    }
}

// The folder that a key path tells, if it tells one.
fn folder_told(alloc: Global, path: &str) -> Result<Option<PathText>, NoMemory>
    ensures value { IfOk result (λ f. f ≡ folder_told path.now) }
    ensures folder { IfOk result (λ f. IfSome f IsFolder) }
{
    let folder = folder_named(alloc, up_to_last(path))?;
    Ok(folder)
}

// The directory of a row with its folder.
fn folder_row(
    alloc: Global,
    table: &Table,
    row: &DirectoryRow,
) -> Result<Option<(Text, PathText)>, NoMemory>
    ensures value { IfOk result (λ p. p ≡ folder_row table.now row.now) }
    ensures folder { IfOk result (λ p. IfSome p (λ e. IsFolder e.1)) }
{
    let Some(path) = table.get(row.directory.as_str()) else {
        return Ok(None);
    };
    match folder_told(alloc, path.as_str())? {
        Some(folder) => {
            let key = Text::copy_of(alloc, row.directory.as_str())?;
            Ok(Some((key, folder)))
        }
        None => Ok(None),
    }
}

// Adds the directory of the row at a place with its folder, if it has one.
fn remember_at(
    alloc: Global,
    loaded: &Package,
    table: &Table,
    place: usize,
    folders: &mut Vec<(Text, PathText)>,
) -> Result<(), NoMemory>
    ensures row { OnOk result (folders.new.items ≡ folders.old.items ++ cons_option (option_and_then (folder_row table.now) (slice_get (rows_in loaded.now).directory place)) []) }
    ensures folders { OnOk result (All (λ e. IsFolder e.1) folders.old.items → All (λ e. IsFolder e.1) folders.new.items) }
{
    let Some(row) = directory_at(loaded, place) else {
        return Ok(());
    };
    match folder_row(alloc, table, row)? {
        Some(folder) => {
            folders.push(folder)?;
            Ok(())
        }
        None => Ok(()),
    }
}

// The directories whose folders are told, in file order.
fn told_folders(
    alloc: Global,
    loaded: &Package,
    table: &Table,
) -> Result<Vec<(Text, PathText)>, NoMemory>
    ensures told { IfOk result (λ v. v.items ≡ filter_map (folder_row table.now) (rows_in loaded.now).directory) }
    ensures folders { IfOk result (λ v. All (λ e. IsFolder e.1) v.items) }
{
    let mut folders = Vec::new(alloc);
    for place in 0..loaded.directory.len() {
        remember_at(alloc, loaded, table, place, &mut folders)?;
    }
    Ok(folders)
}

/// The folders of an earlier run, in file order of the directories: that of a directory is told by the first component in it, in
/// byte order of the keys, whose key path is no value and of which the product is a client (Changing the Target Location for a
/// Directory).
pub(crate) fn remembered(
    alloc: Global,
    loaded: &Package,
    image: &Image,
) -> Result<Vec<(Text, PathText)>, NoMemory>
    ensures remembered { (held files : Map (List ℕ)) → IfOk result (λ v. v.items ≡ remembered (ground (rows_in loaded.now) (machine_over held files image.now))) }
    ensures folders { IfOk result (λ v. All (λ e. IsFolder e.1) v.items) }
{
    let rows = in_order(alloc, loaded)?;
    let table = told_paths(alloc, image, product_code(loaded), &rows)?;
    let folders = told_folders(alloc, loaded, &table)?;
    Ok(folders)
}
