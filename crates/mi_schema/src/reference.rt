//! Rows that name rows of other tables.

ghost use Rattle.std.specs.Prelude.{◌≡◌, ◌≤◌, ℕ, Option, length};
ghost use Rattle.mi_rows.specs.Reads.{Answers};
ghost use Rattle.mi_schema.specs.Checks.{references_fault};
ghost use Rattle.mi_schema.specs.Laws.{TablesSmall};
ghost use Rattle.mi_schema.specs.TableRows.{Rows};
ghost use Rattle.mi_schema.specs.Dangling.{component_dangling, condition_dangling, create_folder_dangling, custom_action_dangling, directory_dangling, duplicate_file_dangling, environment_dangling, feature_dangling, feature_components_dangling, file_dangling, msi_file_hash_dangling, registry_dangling, remove_file_dangling, remove_registry_dangling, shortcut_dangling, names, may_name, must_name, key_path_target, sets_directory};
ghost use Rattle.mi_schema.specs.References.{first_dangling, rows_dangling};
ghost use Rattle.mi_rows.specs.Rows.{◌or_else◌};
ghost use Rattle.mi_schema.specs.RowsOf.{rows_in, behind, AreNamed};

use crate::known::{Known, Listed, Target, tables};
use crate::package::Package;
use crate::typed_rows as rows;
use indexmap::IndexMap;
use mi_base::{Fault, Text};
use mi_rows::{Checked, Key, LoadError, lacks};
use std::alloc::Global;

/// The column, unless the row that it names is there.
fn names(loaded: &Package, target: Target, column: u32, key: &Text) -> Option<u32>
    requires { AreNamed loaded.now }
    ensures { result ≡ names (rows_in loaded.now) target column key.now }
{
    (!loaded.has(target, key)).then_some(column)
}

/// The column, unless it is null or the row that it names is there.
fn may_name(loaded: &Package, target: Target, column: u32, key: &Option<Text>) -> Option<u32>
    requires { AreNamed loaded.now }
    ensures { result ≡ may_name (rows_in loaded.now) target column key.now }
{
    key.as_ref()
        .and_then(|key| names(loaded, target, column, key))
}

/// The table that the key path of a component names a row of (Component table, KeyPath).
fn key_path_target(row: &rows::ComponentRow) -> Target
    ensures { result ≡ key_path_target row.now }
{
    if lacks(4, row.attributes) {
        Target::File
    } else {
        Target::Registry
    }
}

/// Whether an action sets a directory (Custom Action Type 35).
fn sets_directory(kind: i32) -> bool
    ensures { result ≡ sets_directory kind }
{
    kind.cast_unsigned() & 63 == 35
}

/// The first of two.
fn either(first: Option<u32>, second: Option<u32>) -> Option<u32>
    ensures { result ≡ (first or_else second) }
{
    first.or(second)
}

/// The column, unless the row that it names is there; a null names none.
fn must_name(loaded: &Package, target: Target, column: u32, key: &Option<Text>) -> Option<u32>
    requires { AreNamed loaded.now }
    ensures { result ≡ must_name (rows_in loaded.now) target column key.now }
{
    match key {
        Some(key) => names(loaded, target, column, key),
        None => Some(column),
    }
}

/// A row that may name rows of other tables, or of its own.
trait Refers {
    /// The first column, from 1, that names a row that isn't there.
    ghost dangling: { Rows → Self → Option ℕ };

    /// The first column, from 1, that names a row that isn't there.
    fn dangling(&self, loaded: &Package) -> Option<u32>
        requires { AreNamed loaded.now }
        ensures { result ≡ dangling (rows_in loaded.now) self.now };
}

impl Refers for rows::ComponentRow {
    ghost dangling = { component_dangling };

    fn dangling(&self, loaded: &Package) -> Option<u32> {
        either(
            names(loaded, Target::Directory, 3, &self.directory),
            may_name(loaded, key_path_target(self), 6, &self.key_path),
        )
    }
}

impl Refers for rows::ConditionRow {
    ghost dangling = { condition_dangling };

    fn dangling(&self, loaded: &Package) -> Option<u32> {
        names(loaded, Target::Feature, 1, &self.feature)
    }
}

impl Refers for rows::CreateFolderRow {
    ghost dangling = { create_folder_dangling };

    fn dangling(&self, loaded: &Package) -> Option<u32> {
        either(
            names(loaded, Target::Directory, 1, &self.directory),
            names(loaded, Target::Component, 2, &self.component),
        )
    }
}

impl Refers for rows::CustomActionRow {
    ghost dangling = { custom_action_dangling };

    fn dangling(&self, loaded: &Package) -> Option<u32> {
        if sets_directory(self.kind) {
            must_name(loaded, Target::Directory, 3, &self.source)
        } else {
            None
        }
    }
}

impl Refers for rows::DirectoryRow {
    ghost dangling = { directory_dangling };

    fn dangling(&self, loaded: &Package) -> Option<u32> {
        may_name(loaded, Target::Directory, 2, &self.directory_parent)
    }
}

impl Refers for rows::DuplicateFileRow {
    ghost dangling = { duplicate_file_dangling };

    fn dangling(&self, loaded: &Package) -> Option<u32> {
        either(
            names(loaded, Target::Component, 2, &self.component),
            names(loaded, Target::File, 3, &self.file),
        )
    }
}

impl Refers for rows::EnvironmentRow {
    ghost dangling = { environment_dangling };

    fn dangling(&self, loaded: &Package) -> Option<u32> {
        names(loaded, Target::Component, 4, &self.component)
    }
}

impl Refers for rows::FeatureRow {
    ghost dangling = { feature_dangling };

    fn dangling(&self, loaded: &Package) -> Option<u32> {
        may_name(loaded, Target::Feature, 2, &self.feature_parent)
    }
}

impl Refers for rows::FeatureComponentsRow {
    ghost dangling = { feature_components_dangling };

    fn dangling(&self, loaded: &Package) -> Option<u32> {
        either(
            names(loaded, Target::Feature, 1, &self.feature),
            names(loaded, Target::Component, 2, &self.component),
        )
    }
}

impl Refers for rows::FileRow {
    ghost dangling = { file_dangling };

    fn dangling(&self, loaded: &Package) -> Option<u32> {
        names(loaded, Target::Component, 2, &self.component)
    }
}

impl Refers for rows::MsiFileHashRow {
    ghost dangling = { msi_file_hash_dangling };

    fn dangling(&self, loaded: &Package) -> Option<u32> {
        names(loaded, Target::File, 1, &self.file)
    }
}

impl Refers for rows::RegistryRow {
    ghost dangling = { registry_dangling };

    fn dangling(&self, loaded: &Package) -> Option<u32> {
        names(loaded, Target::Component, 6, &self.component)
    }
}

impl Refers for rows::RemoveFileRow {
    ghost dangling = { remove_file_dangling };

    fn dangling(&self, loaded: &Package) -> Option<u32> {
        names(loaded, Target::Component, 2, &self.component)
    }
}

impl Refers for rows::RemoveRegistryRow {
    ghost dangling = { remove_registry_dangling };

    fn dangling(&self, loaded: &Package) -> Option<u32> {
        names(loaded, Target::Component, 5, &self.component)
    }
}

impl Refers for rows::ShortcutRow {
    ghost dangling = { shortcut_dangling };

    fn dangling(&self, loaded: &Package) -> Option<u32> {
        either(
            names(loaded, Target::Directory, 2, &self.directory),
            names(loaded, Target::Component, 4, &self.component),
        )
    }
}

/// Refuses with the first value of a table that names no row.
fn check_table<K: Key, R: Refers>(
    alloc: Global,
    table: &str,
    rows: &IndexMap<K, R>,
    loaded: &Package,
) -> Checked
    requires named { AreNamed loaded.now }
    requires few { length rows.now.entries ≤ 65535 }
    ensures { Answers ⊥ (first_dangling table.now (R.dangling (rows_in loaded.now)) 1 (behind rows.now.entries)) (λ _. Unit {0}) result }
{
    let mut number = 1;
    for row in rows.values() {
        if let Some(column) = row.dangling(loaded) {
            let name = Text::copy_of(alloc, table)?;
            return Err(LoadError::Table(Fault::Reference(name, number, column)));
        }
        number += 1;
    }
    Ok(())
}

// The tables whose rows name no rows, and the others, each with its rows.
macro_rules! check_known {
    ($alloc:ident, $loaded:ident, $known:ident, [$($other:ident),*]: $($table:ident $rows:ident),*) => {
        match $known {
            $(Known::$table => check_table($alloc, stringify!($table), &$loaded.$rows, $loaded),)*
            $(Known::$other)|* => Ok(()),
        }
    };
}

/// Refuses with the first value of a known table that names no row.
#[tactic(auto, unfolding(crate::specs::RowsOf::rows_in))]
fn check_known(alloc: Global, loaded: &Package, known: Known) -> Checked
    requires named { AreNamed loaded.now }
    requires few { TablesSmall loaded.now }
    ensures { Answers ⊥ (rows_dangling (rows_in loaded.now) known) (λ _. Unit {0}) result }
{
    check_known!(alloc, loaded, known,
        [InstallExecuteSequence, LaunchCondition, Property, SummaryInformation, Upgrade]:
        Component component,
        Condition condition,
        CreateFolder create_folder,
        CustomAction custom_action,
        Directory directory,
        DuplicateFile duplicate_file,
        Environment environment,
        Feature feature,
        FeatureComponents feature_components,
        File file,
        MsiFileHash msi_file_hash,
        Registry registry,
        RemoveFile remove_file,
        RemoveRegistry remove_registry,
        Shortcut shortcut)
}

/// Refuses with the first value that names no row, by table, row and column.
pub fn check_references(alloc: Global, loaded: &Package) -> Checked
    requires named { AreNamed loaded.now }
    requires few { TablesSmall loaded.now }
    ensures { Answers ⊥ (references_fault (rows_in loaded.now)) (λ _. Unit {0}) result }
{
    for table in tables() {
        if let Listed::Known(known) = table {
            check_known(alloc, loaded, *known)?;
        }
    }
    Ok(())
}
