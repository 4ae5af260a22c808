//! What stands for a target at the start.

ghost use Rattle.std.specs.Prelude.{◌≡◌, All, IfOk, List, Some, map};
ghost use Rattle.std.specs.Result.{result_ok};
ghost use Rattle.mi_text.specs.Path.{folder_of};
ghost use Rattle.mi_dirs.specs.declared.rows.DirRow.{DirRow};
ghost use Rattle.std.specs.BTreeMap.{get_by_text};
ghost use Rattle.std.specs.FinMap as fin;
ghost use Rattle.std.specs.Option.{option_copied};
ghost use Rattle.mi_text.specs.Maps.{Name, name_cmp, same_name};
ghost use Rattle.mi_dirs.specs.Places.{first_row};
ghost use Rattle.mi_dirs.specs.Rows.{own_of, parent_of, row_with, from_property};
ghost use Rattle.mi_dirs.specs.Views.{own_view, IsFolder, IsFolderOwn};

use crate::dir::Own;
use crate::rows::DirRow;
use crate::targets::folder_of;
use mi_props::Props;
use mi_text::{NoMemory, PathText, Text};
use std::alloc::Global;
use std::collections::BTreeMap;

/// The folder that a text names, as it stands for a target.
pub(crate) fn named_folder(alloc: Global, text: &str) -> Result<Own, NoMemory>
    ensures own { IfOk result (λ o. own_view o ≡ Some (result_ok (folder_of text.now))) }
    ensures folder { IfOk result IsFolderOwn }
{
    match folder_of(alloc, text)? {
        Some(folder) => Ok(Own::Folder(folder)),
        None => Ok(Own::Refused),
    }
}

// The folder of a property, where its value isn't empty.
fn from_property(alloc: Global, value: &str) -> Result<Own, NoMemory>
    ensures own { IfOk result (λ o. own_view o ≡ from_property value.now) }
    ensures folder { IfOk result IsFolderOwn }
{
    if value.is_empty() {
        Ok(Own::Inherited)
    } else {
        named_folder(alloc, value)
    }
}

// The remembered folder of a key.
fn remembered_folder<'a>(
    remembered: &'a [(Text, PathText)],
    index: &BTreeMap<String, usize>,
    key: &str,
) -> Option<&'a PathText>
    requires { (q : Name) → get_by_text index.now q ≡ first_row (λ e. same_name q e.0) remembered.now }
    ensures { option_copied result ≡ fin.find name_cmp key.now remembered.now }
{
    let Some(row) = index.get(key) else {
        return None;
    };
    let Some(entry) = remembered.get(*row) else {
        return None;
    };
    Some(&entry.1)
}

/// The remembered folder of a directory, else that of the property of its name; the index has the first folder of each
/// key.
pub(crate) fn own_of(
    alloc: Global,
    props: &Props,
    remembered: &[(Text, PathText)],
    index: &BTreeMap<String, usize>,
    key: &str,
) -> Result<Own, NoMemory>
    requires folders { All (λ r. IsFolder r.1) remembered.now }
    requires index { (q : Name) → get_by_text index.now q ≡ first_row (λ e. same_name q e.0) remembered.now }
    ensures own { IfOk result (λ o. own_view o ≡ own_of props.now remembered.now key.now) }
    ensures folder { IfOk result IsFolderOwn }
{
    match remembered_folder(remembered, index, key) {
        Some(folder) => {
            let folder = folder.copy(alloc)?;
            Ok(Own::Folder(folder))
        }
        None => {
            let own = from_property(alloc, props.get(key))?;
            Ok(own)
        }
    }
}

fn parent_of(row: &DirRow, index: &BTreeMap<String, usize>) -> Option<usize>
    ensures { (rows : List DirRow) → ((q : Name) → get_by_text index.now q ≡ row_with rows q) → result ≡ parent_of rows row.now }
{
    let Some(parent) = &row.parent else {
        return None;
    };
    if parent.as_str() == row.key.as_str() {
        return None;
    }
    match index.get(parent.as_str()) {
        Some(row) => Some(*row),
        None => None,
    }
}

/// The parents of all rows; the index has the first row of each key.
pub(crate) fn parents_of(
    alloc: Global,
    rows: &[DirRow],
    index: &BTreeMap<String, usize>,
) -> Result<Vec<Option<usize>>, NoMemory>
    requires { (q : Name) → get_by_text index.now q ≡ row_with rows.now q }
    ensures { IfOk result (λ v. v.items ≡ map (parent_of rows.now) rows.now) }
{
    let mut parents = Vec::new(alloc);
    for row in rows {
        parents.push(parent_of(row, index))?;
    }
    Ok(parents)
}
