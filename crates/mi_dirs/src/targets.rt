//! Targets of directories.

ghost use Rattle.std.specs.Prelude.{◌≡◌, ◌<◌, None, Some, ℕ, length, IfOk, IfSome, is_none, option_map, option_and_then, unwrap_or, slice_index_or, slice_get, [], true};
ghost use Rattle.std.specs.Result.{result_ok};
ghost use Rattle.mi_text.specs.Path.{folder_of, below_of};
ghost use Rattle.mi_dirs.specs.Order.{IsOrder};
ghost use Rattle.mi_dirs.specs.Chains.{ends_in};
ghost use Rattle.mi_dirs.specs.Places.{joined, target_from, target_at, parent_at, bound, first_row};
ghost use Rattle.mi_dirs.specs.Views.{own_view, place_of_dir, places_in, with_row_own, IsFolder, IsFolderOwn, OwnFolders, TargetFolders};

use crate::dir::{Dir, Own};
use mi_text::{NoMemory, PathError, PathText};
use std::alloc::Global;

/// The folder that a text names, or None where it names none.
pub(crate) fn folder_of(alloc: Global, text: &str) -> Result<Option<PathText>, NoMemory>
    ensures value { IfOk result (λ p. p ≡ result_ok (folder_of text.now)) }
    ensures folder { IfOk result (λ p. IfSome p IsFolder) }
{
    match PathText::folder(alloc, text) {
        Ok(folder) => Ok(Some(folder)),
        Err(PathError::NoMemory) => Err(NoMemory),
        Err(PathError::Fault(_)) => Ok(None),
    }
}

fn below_of(alloc: Global, folder: &PathText, name: &str) -> Result<Option<PathText>, NoMemory>
    requires { IsFolder folder.now }
    ensures value { IfOk result (λ p. p ≡ result_ok (below_of folder.now name.now)) }
    ensures folder { IfOk result (λ p. IfSome p IsFolder) }
{
    match folder.below(alloc, name) {
        Ok(below) => Ok(Some(below)),
        Err(PathError::NoMemory) => Err(NoMemory),
        Err(PathError::Fault(_)) => Ok(None),
    }
}

// The target of a row by its name and by its parent's target.
fn joined(
    alloc: Global,
    name: &str,
    parent: Option<usize>,
    targets: &[Option<PathText>],
) -> Result<Option<PathText>, NoMemory>
    requires rows { IfSome parent (λ p. p < length targets.now) }
    requires folders { TargetFolders targets.now }
    ensures value { IfOk result (λ t. t ≡ joined name.now (option_map (λ p. slice_index_or targets.now p None) parent)) }
    ensures folder { IfOk result (λ t. IfSome t IsFolder) }
{
    let Some(parent) = parent else {
        return folder_of(alloc, "C:\\");
    };
    let Some(folder) = &targets[parent] else {
        return Ok(None);
    };
    if name == "." {
        let folder = folder.copy(alloc)?;
        return Ok(Some(folder));
    }
    below_of(alloc, folder, name)
}

// The target of a row with this of its own.
fn target_of(
    alloc: Global,
    dir: &Dir,
    own: &Own,
    targets: &[Option<PathText>],
) -> Result<Option<PathText>, NoMemory>
    requires rows { IfSome dir.now.parent (λ p. p < length targets.now) }
    requires folders { TargetFolders targets.now }
    requires own_folder { IsFolderOwn own.now }
    ensures value { IfOk result (λ t. t ≡ unwrap_or (own_view own.now) (joined dir.now.name (option_map (λ p. slice_index_or targets.now p None) dir.now.parent))) }
    ensures folder { IfOk result (λ t. IfSome t IsFolder) }
{
    match own {
        Own::Inherited => joined(alloc, dir.name.as_str(), dir.parent, targets),
        Own::Refused => Ok(None),
        Own::Folder(folder) => {
            let folder = folder.copy(alloc)?;
            Ok(Some(folder))
        }
    }
}

fn none_each(alloc: Global, count: usize) -> Result<Vec<Option<PathText>>, NoMemory>
    ensures size { IfOk result (λ v. length v.items ≡ count) }
    ensures folders { IfOk result (λ v. TargetFolders v.items) }
{
    let mut targets = Vec::new(alloc);
    for _row in 0..count {
        targets.push(None)?;
    }
    Ok(targets)
}

/// The targets of all rows, None where one is refused; `own` stands in the row `changed`, where there is such a row.
/// The order has each row behind its parent.
pub(crate) fn targets_of(
    alloc: Global,
    rows: &[Dir],
    order: &[usize],
    changed: usize,
    own: &Own,
) -> Result<Vec<Option<PathText>>, NoMemory>
    requires order { IsOrder (parent_at (places_in rows.now [])) (length rows.now) order.now }
    requires ends { (row : ℕ) → row < length rows.now → ends_in (parent_at (places_in rows.now [])) (bound rows.now) row ≡ true }
    requires folders { OwnFolders rows.now }
    requires own_folder { IsFolderOwn own.now }
    ensures size { IfOk result (λ v. length v.items ≡ length rows.now) }
    ensures folders { IfOk result (λ v. TargetFolders v.items) }
    ensures targets { IfOk result (λ v. (row : ℕ) → row < length rows.now → slice_get v.items row ≡ Some (target_at (with_row_own changed (own_view own.now) (places_in rows.now [])) row)) }
{
    let mut targets = none_each(alloc, rows.len())?;
    for row in order {
        let dir = &rows[*row];
        let own = if *row == changed { own } else { &dir.own };
        let target = target_of(alloc, dir, own, &targets)?;
        targets[*row] = target;
    }
    Ok(targets)
}

/// The first row whose target is refused.
pub(crate) fn first_refused(targets: &[Option<PathText>]) -> Option<usize>
    ensures { result ≡ first_row is_none targets.now }
{
    for (row, target) in targets.iter().enumerate() {
        match target {
            None => return Some(row),
            Some(_) => {}
        }
    }
    None
}
