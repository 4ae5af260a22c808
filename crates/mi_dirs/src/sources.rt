//! Folders of directories in the source.

ghost use Rattle.std.specs.Prelude.{◌≡◌, ◌<◌, [], true, Some, None, ℕ, List, length, IfOk, IfSome, OnOk, slice_get, slice_index_or, option_map};
ghost use Rattle.mi_dirs.specs.Chains.{ends_in};
ghost use Rattle.mi_dirs.specs.Order.{AreRows, IsOrder};
ghost use Rattle.mi_dirs.specs.Paths.{AllBelow};
ghost use Rattle.mi_dirs.specs.Places.{bound, parent_at};
ghost use Rattle.mi_dirs.specs.Rows.{source_name, below_source};
ghost use Rattle.mi_dirs.specs.Sources.{source_names, named_step, kept_source, down_to, above_from, AreAbove};
ghost use Rattle.mi_dirs.specs.Views.{places_in};

use crate::dir::Dir;
use crate::rows::DirRow;
use mi_text::{NoMemory, Text};
use std::alloc::Global;

/// The name of a row in the source.
pub(crate) fn source_name(row: &DirRow, short: bool) -> &str
    ensures { result.now ≡ source_name short row.now }
{
    if short {
        row.short_source.as_str()
    } else {
        row.long_source.as_str()
    }
}

// The rows from this one up to the one below its root row, but for those above it that lie in their parents' folders.
fn rows_up(
    alloc: Global,
    rows: &[Dir],
    above: &[Option<usize>],
    row: usize,
) -> Result<Vec<usize>, NoMemory>
    requires is_row { row < length rows.now }
    requires parents { AreRows (parent_at (places_in rows.now [])) (length rows.now) }
    requires ends { (row : ℕ) → row < length rows.now → ends_in (parent_at (places_in rows.now [])) (bound rows.now) row ≡ true }
    requires above { AreAbove rows.now above.now }
    ensures rows { IfOk result (λ path. AllBelow (length rows.now) path.items) }
    ensures source { IfOk result (λ path. (folder : List ℕ) → kept_source rows.now folder row ≡ down_to (named_step (source_names rows.now) folder) path.items folder) }
{
    let mut path = Vec::new(alloc);
    let mut at = row;
    while let Some(next) = above[at] {
        path.push(at)?;
        at = next;
    }
    Ok(path)
}

// The row from whose source a row's is made by its name, by what its parent has.
fn above_of(rows: &[Dir], parent: Option<usize>, above: &[Option<usize>]) -> Option<usize>
    requires rows { IfSome parent (λ p. p < length rows.now) }
    requires size { length above.now ≡ length rows.now }
    ensures { result ≡ above_from (source_names rows.now) parent (option_map (λ p. slice_index_or above.now p None) parent) }
{
    let Some(parent) = parent else {
        return None;
    };
    if rows[parent].source.as_str() == "." {
        above[parent].or(Some(parent))
    } else {
        Some(parent)
    }
}

/// For each row the nearest row above it that doesn't lie in its parent's folder in the source, or its root row; None for a
/// root row. So the way up from a row takes no more steps than its source has names. The order has each row behind its
/// parent.
pub(crate) fn rows_above(
    alloc: Global,
    rows: &[Dir],
    order: &[usize],
) -> Result<Vec<Option<usize>>, NoMemory>
    requires order { IsOrder (parent_at (places_in rows.now [])) (length rows.now) order.now }
    requires ends { (row : ℕ) → row < length rows.now → ends_in (parent_at (places_in rows.now [])) (bound rows.now) row ≡ true }
    ensures { IfOk result (λ v. AreAbove rows.now v.items) }
{
    let mut above = vec![in alloc; None; rows.len()]?;
    for row in order {
        above[*row] = above_of(rows, rows[*row].parent, &above);
    }
    Ok(above)
}

// Goes on by a name.
fn push_name(source: &mut Text, name: &str) -> Result<(), NoMemory>
    ensures { OnOk result (source.new ≡ below_source source.old name.now) }
{
    if name != "." {
        source.push_str("/")?;
        source.push_str(name)?;
    }
    Ok(())
}

// The source that is reached from a folder by the names of these rows, the last first.
fn source_down(
    alloc: Global,
    rows: &[Dir],
    folder: &str,
    path: Vec<usize>,
) -> Result<Text, NoMemory>
    requires { AllBelow (length rows.now) path.items }
    ensures { IfOk result (λ source. source ≡ down_to (named_step (source_names rows.now) folder.now) path.items folder.now) }
{
    let mut path = path;
    let mut source = Text::copy_of(alloc, folder)?;
    while let Some(row) = path.pop() {
        push_name(&mut source, rows[row].source.as_str())?;
    }
    Ok(source)
}

/// The source of a row, made of the names of the rows from its root row down to it.
pub(crate) fn source_of(
    alloc: Global,
    rows: &[Dir],
    above: &[Option<usize>],
    folder: &str,
    row: usize,
) -> Result<Text, NoMemory>
    requires is_row { row < length rows.now }
    requires parents { AreRows (parent_at (places_in rows.now [])) (length rows.now) }
    requires ends { (row : ℕ) → row < length rows.now → ends_in (parent_at (places_in rows.now [])) (bound rows.now) row ≡ true }
    requires above { AreAbove rows.now above.now }
    ensures { IfOk result (λ source. source ≡ kept_source rows.now folder.now row) }
{
    let path = rows_up(alloc, rows, above, row)?;
    source_down(alloc, rows, folder, path)
}
