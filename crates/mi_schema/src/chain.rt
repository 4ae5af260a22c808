//! Chains of parents.

ghost use Rattle.std.specs.Prelude.{◌≡◌, ◌≤◌, ℕ, List, Option, map, length, codes, IfOk, option_map, option_and_then};
ghost use Rattle.std.specs.Map.{keys_of};
ghost use Rattle.mi_text.specs.Maps.{Name};
ghost use Rattle.mi_rows.specs.Reads.{Answers};
ghost use Rattle.mi_schema.specs.Checks.{companion_of, parent_of_directory, row_with, parents_of, chain_fault, cycles_fault};
ghost use Rattle.mi_schema.specs.Laws.{TablesSmall};
ghost use Rattle.mi_schema.specs.RowsOf.{rows_in, behind, AreNamed};

use crate::package::Package;
use crate::typed_rows::{DirectoryRow, FeatureRow, FileRow};
use indexmap::IndexMap;
use mi_base::{Fault, NoMemory, Text};
use mi_dirs::{DirError, DirFault, order_of};
use mi_rows::{Checked, LoadError, is_version};
use std::alloc::Global;

/// A row that may have a parent in its table.
pub trait HasParent {
    /// The key of its own.
    ghost own: { Self → Name };

    /// The key of its parent.
    ghost parent: { Self → Option Name };

    /// The key of its parent.
    fn parent(&self) -> Option<&Text>
        ensures { option_map (λ key. key.now) result ≡ parent self.now };
}

impl HasParent for DirectoryRow {
    ghost own = { λ r. r.directory };

    ghost parent = { parent_of_directory };

    fn parent(&self) -> Option<&Text> {
        self.directory_parent
            .as_ref()
            .filter(|parent| parent.as_str() != self.directory.as_str())
    }
}

impl HasParent for FeatureRow {
    ghost own = { λ r. r.feature };

    ghost parent = { λ r. r.feature_parent };

    fn parent(&self) -> Option<&Text> {
        self.feature_parent.as_ref()
    }
}

impl HasParent for FileRow {
    ghost own = { λ r. r.file };

    ghost parent = { λ r. companion_of r.version };

    fn parent(&self) -> Option<&Text> {
        self.version
            .as_ref()
            .filter(|version| !is_version(version.as_str()))
    }
}

/// The row of a row's parent.
fn parent_of<R: HasParent>(rows: &IndexMap<Text, R>, row: &R) -> Option<usize>
    ensures { result ≡ option_and_then (row_with (keys_of rows.now.entries)) (R.parent row.now) }
{
    match row.parent() {
        Some(key) => rows.get_index_of(key),
        None => None,
    }
}

/// The rows of the parents of all rows.
fn parents_of<R: HasParent>(
    alloc: Global,
    rows: &IndexMap<Text, R>,
) -> Result<Vec<Option<usize>>, NoMemory>
    ensures { IfOk result (λ parents. parents.items ≡ map (λ r. option_and_then (row_with (keys_of rows.now.entries)) (R.parent r)) (behind rows.now.entries)) }
{
    let mut parents = Vec::with_capacity(alloc, rows.len())?;
    for row in rows.values() {
        parents.push(parent_of(rows, row))?;
    }
    Ok(parents)
}

/// Refuses with the first row whose chain of parents doesn't end.
fn check_chains<R: HasParent>(alloc: Global, table: &str, rows: &IndexMap<Text, R>) -> Checked
    requires named { keys_of rows.now.entries ≡ map R.own (behind rows.now.entries) }
    requires few { length rows.now.entries ≤ 65535 }
    ensures { Answers ⊥ (chain_fault table.now R.own R.parent (behind rows.now.entries)) (λ _. Unit {0}) result }
{
    let parents = parents_of(alloc, rows)?;
    match order_of(alloc, parents.as_slice()) {
        Ok(_) => Ok(()),
        Err(DirError::Fault(DirFault::Cycle(row))) => {
            let name = Text::copy_of(alloc, table)?;
            Err(LoadError::Table(Fault::Cycle(name, row)))
        }
        Err(DirError::Fault(DirFault::BadPath(_))) => unreachable!(),
        Err(DirError::NoMemory) => Err(LoadError::NoMemory),
    }
}

/// Refuses with the first row of Directory, Feature or File whose chain of parents doesn't end.
#[tactic(auto, unfolding(crate::specs::RowsOf::rows_in))]
pub fn check_cycles(alloc: Global, loaded: &Package) -> Checked
    requires named { AreNamed loaded.now }
    requires few { TablesSmall loaded.now }
    ensures { Answers ⊥ (cycles_fault (rows_in loaded.now)) (λ _. Unit {0}) result }
{
    check_chains(alloc, "Directory", &loaded.directory)?;
    check_chains(alloc, "Feature", &loaded.feature)?;
    check_chains(alloc, "File", &loaded.file)
}
