//! Directories: the target and the source of each row of the Directory table.
//!
//! - Targets are kept: each is at most 259 bytes long, so what `resolve` and `Dirs` hold is linear
//!   in the bytes of the rows and of what they are given with.
//! - Sources aren't kept but made when they are asked for, from the names of the rows up to the
//!   root row. In a chain in which each row is below the one before, the sources of all rows
//!   together would take the square of the table.
//! - Each row keeps the next one above it that has a name of its own in the source. So one call of
//!   `Dirs::source` takes time in proportion to the source that it makes, however many rows with
//!   the name `.` are between. Who reads files asks once for each directory, and not for each file.
//! - `Dirs::set` makes all targets anew, in time proportional to the table: a custom action of type
//!   35 sets the properties of all directories anew as well.

ghost use Rattle.std.specs.Prelude.{◌≡◌, ◌↔◌, None, Some, All, IfOk, OnOk, OnErr, IsSome, IfSome, map};
ghost use Rattle.std.specs.Option.{option_copied};
ghost use Rattle.std.specs.Result.{result_ok};
ghost use Rattle.mi_text.specs.Path.{folder_of};
ghost use Rattle.mi_dirs.specs.Places.{row_of, target_of, source_of, with_own};
ghost use Rattle.mi_dirs.specs.Rows.{given, parent_of, source_name, places_of, resolved};
ghost use Rattle.mi_dirs.specs.Sources.{source_names};
ghost use Rattle.mi_dirs.specs.Views.{bare, bare_dir, IsFolder, OwnFolders};
ghost use Rattle.mi_dirs.specs.Faults.{path_fault, IsEndless};
ghost use Rattle.mi_dirs.specs.Answers.{Answers, IfFault, IfCycle};

use crate::dir::{Dir, Own};
use crate::fault::{DirError, DirFault};
use crate::index::{folders_by_key, rows_by_key};
use crate::order::{order_of, row_number};
use crate::own::{named_folder, own_of, parents_of};
use crate::rows::DirRow;
use crate::sources::{rows_above, source_name, source_of};
use crate::targets::{first_refused, targets_of};
use mi_props::Props;
use mi_text::{NoMemory, PathText, Text};
use std::alloc::Global;
use std::collections::BTreeMap;
use std::marker::Model;

/// The directories of a package: the target and the source of each row of its Directory table. Sources aren't kept, since
/// in a long chain their texts would take the square of the table.
#[derive(Drop)]
pub struct Dirs {
    rows: Vec<Dir>,
    folder: Text,
    index: BTreeMap<String, usize>,
    order: Vec<usize>,
    /// Rows on the way up to the root row, by which sources are made.
    above: Vec<Option<usize>>,
    targets: Vec<Option<PathText>>,
}

impl Model for Dirs {
    ghost use Rattle.std.specs.Prelude.{List};
    ghost use Rattle.mi_dirs.specs.Places.{Place, places_code};

    ghost Value = { List Place };

    ghost coded = { places_code };

    ghost use Rattle.mi_dirs.specs.Kept.{places, IsKept};

    ghost view = { places };

    ghost invariant = { IsKept };
}

fn dir_of(
    alloc: Global,
    row: &DirRow,
    short: bool,
    parent: Option<usize>,
    own: Own,
) -> Result<Dir, NoMemory>
    ensures { IfOk result (λ d. d ≡ record { key = row.now.key; parent = parent; name = row.now.target; source = source_name short row.now; own = own }) }
{
    let key = Text::copy_of(alloc, row.key.as_str())?;
    let name = Text::copy_of(alloc, row.target.as_str())?;
    let source = Text::copy_of(alloc, source_name(row, short))?;
    Ok(Dir {
        key,
        parent,
        name,
        source,
        own,
    })
}

// What is kept of each row.
fn dirs_of(
    alloc: Global,
    rows: &[DirRow],
    parents: &[Option<usize>],
    props: &Props,
    remembered: &[(Text, PathText)],
    short: bool,
) -> Result<Vec<Dir>, NoMemory>
    requires parents { parents.now ≡ map (parent_of rows.now) rows.now }
    requires folders { All (λ r. IsFolder r.1) remembered.now }
    ensures dirs { IfOk result (λ v. map bare_dir v.items ≡ map (bare rows.now props.now remembered.now) rows.now) }
    ensures sources { IfOk result (λ v. source_names v.items ≡ map (source_name short) rows.now) }
    ensures folders { IfOk result (λ v. OwnFolders v.items) }
{
    let index = folders_by_key(alloc, remembered)?;
    let mut dirs = Vec::new(alloc);
    for (number, row) in rows.iter().enumerate() {
        let own = own_of(alloc, props, remembered, &index, row.key.as_str())?;
        let dir = dir_of(alloc, row, short, parents[number], own)?;
        dirs.push(dir)?;
    }
    Ok(dirs)
}

/// The directories of these rows, which stand in the order of the table (Directory Table).
///
/// The target of a directory is, in this order: its remembered folder; the folder that the property of its name gives,
/// where that isn't empty; for a root row `C:\`; else the target of its parent, joined with its target name, where `.`
/// is the parent's. A root row has no parent, or itself. The source of a root row is `folder`, the package's; another
/// row's is its parent's, `/` and its source name, the short one where `short` says so, and `.` is the parent's.
///
/// The keys differ, each parent is a row's key, and remembered folders are folders. Refused with `Cycle` of the first
/// row whose chain of parents doesn't end, else with `BadPath` of the first row whose target is refused.
pub fn resolve(
    alloc: Global,
    rows: &[DirRow],
    props: &Props,
    remembered: &[(Text, PathText)],
    folder: &str,
    short: bool,
) -> Result<Dirs, DirError>
    requires { All (λ r. IsFolder r.1) remembered.now }
    ensures resolved { Answers result (resolved (given rows.now props.now remembered.now folder.now short)) }
    ensures endless { IfFault result (λ fault. IfCycle fault (IsEndless (places_of (given rows.now props.now remembered.now folder.now short)))) }
{
    let index = rows_by_key(alloc, rows)?;
    let parents = parents_of(alloc, rows, &index)?;
    let order = order_of(alloc, &parents)?;
    let dirs = dirs_of(alloc, rows, &parents, props, remembered, short)?;
    let targets = targets_of(alloc, &dirs, &order, dirs.len(), &Own::Inherited)?;
    if let Some(row) = first_refused(&targets) {
        return Err(DirError::Fault(DirFault::BadPath(row_number(row))));
    }
    let above = rows_above(alloc, &dirs, &order)?;
    let folder = Text::copy_of(alloc, folder)?;
    Ok(Dirs {
        rows: dirs,
        folder,
        index,
        order,
        above,
        targets,
    })
}

impl Dirs {
    /// The target of a directory, a folder's path, and None where no row has this key. No memory.
    pub fn target(&self, dir: &str) -> Option<&PathText>
        ensures target { option_copied result ≡ target_of self.now dir.now }
        ensures folder { IfSome result (λ path. IsFolder path.now) }
        ensures known { IsSome result ↔ IsSome (row_of self.now dir.now) }
    {
        let Some(row) = self.index.get(dir) else {
            return None;
        };
        match self.targets.get(*row) {
            Some(target) => target.as_ref(),
            None => None,
        }
    }

    /// The folder of a directory in the source, and None where no row has this key. It is made at each call, from the
    /// names of the rows up to its root row.
    pub fn source(&self, alloc: Global, dir: &str) -> Result<Option<Text>, NoMemory>
        ensures { IfOk result (λ source. source ≡ source_of self.now dir.now) }
    {
        let Some(row) = self.index.get(dir) else {
            return Ok(None);
        };
        let source = source_of(alloc, &self.rows, &self.above, self.folder.as_str(), *row)?;
        Ok(Some(source))
    }

    /// From now on the target of a directory is the folder that a text names, as a custom action of type 35 asks for
    /// (Changing the Target Location for a Directory), and the rows below it follow. `dir` is a row's key. Refused with
    /// `BadPath` of the first row whose target is then refused; unchanged where refused.
    pub fn set(&mut self, alloc: Global, dir: &str, text: &str) -> Result<(), DirError>
        requires { IsSome (row_of self.old dir.now) }
        ensures ok { OnOk result (self.new ≡ with_own dir.now (result_ok (folder_of text.now)) self.old) }
        ensures err { OnErr result (self.new ≡ self.old) }
        ensures accepted { OnOk result (path_fault (with_own dir.now (result_ok (folder_of text.now)) self.old) ≡ None) }
        ensures refused { IfFault result (λ fault. path_fault (with_own dir.now (result_ok (folder_of text.now)) self.old) ≡ Some fault) }
    {
        let row = *self.index.get(dir).unwrap();
        let own = named_folder(alloc, text)?;
        let targets = targets_of(alloc, &self.rows, &self.order, row, &own)?;
        if let Some(refused) = first_refused(&targets) {
            return Err(DirError::Fault(DirFault::BadPath(row_number(refused))));
        }
        self.rows[row].own = own;
        self.targets = targets;
        Ok(())
    }
}
