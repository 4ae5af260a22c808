//! A package: the rows of the known tables.

use crate::known::{Target, each_table};
use crate::typed_rows as rows;
use indexmap::IndexMap;
use mi_base::Text;
use mi_rows::UpgradeKey;
use std::alloc::Global;

/// The rows of the known tables by their keys, in file order (Database Tables). A key of several columns is a tuple.
#[derive(Drop)]
pub struct Package {
    /// Whether source names are the short ones: bit 0 of the Word Count (Word Count Summary property).
    pub short_names: bool,
    pub property: IndexMap<Text, rows::PropertyRow>,
    pub directory: IndexMap<Text, rows::DirectoryRow>,
    pub component: IndexMap<Text, rows::ComponentRow>,
    pub feature: IndexMap<Text, rows::FeatureRow>,
    pub feature_components: IndexMap<(Text, Text), rows::FeatureComponentsRow>,
    pub condition: IndexMap<(Text, i32), rows::ConditionRow>,
    pub file: IndexMap<Text, rows::FileRow>,
    pub msi_file_hash: IndexMap<Text, rows::MsiFileHashRow>,
    pub remove_file: IndexMap<Text, rows::RemoveFileRow>,
    pub create_folder: IndexMap<(Text, Text), rows::CreateFolderRow>,
    pub duplicate_file: IndexMap<Text, rows::DuplicateFileRow>,
    pub registry: IndexMap<Text, rows::RegistryRow>,
    pub remove_registry: IndexMap<Text, rows::RemoveRegistryRow>,
    pub environment: IndexMap<Text, rows::EnvironmentRow>,
    pub shortcut: IndexMap<Text, rows::ShortcutRow>,
    pub launch_condition: IndexMap<Text, rows::LaunchConditionRow>,
    pub custom_action: IndexMap<Text, rows::CustomActionRow>,
    pub install_execute_sequence: IndexMap<Text, rows::InstallExecuteSequenceRow>,
    pub upgrade: IndexMap<UpgradeKey, rows::UpgradeRow>,
    pub summary_information: IndexMap<i32, rows::SummaryInformationRow>,
}

macro_rules! without_rows {
    ($alloc:ident: $($table:ident $layout:ident $rows:ident),*; $($late:ident $of:ident $more:ident),*) => {
        Package {
            short_names: false,
            $($rows: IndexMap::new($alloc),)*
            $($more: IndexMap::new($alloc)),*
        }
    };
}

impl Package {
    ghost use Rattle.std.specs.Prelude.{◌≡◌, None};
    ghost use Rattle.mi_schema.specs.RowsOf.{HoldsAll, rows_in, AreNamed};
    ghost use Rattle.mi_schema.specs.Dangling.{keys_in};
    ghost use Rattle.mi_rows.specs.Values.{is_key_in};

    /// A package without rows.
    pub(crate) fn empty(alloc: Global) -> Package
        ensures { HoldsAll result (λ _. None) }
    {
        each_table!(without_rows: alloc)
    }

    /// Whether a table has a row of this key.
    pub(crate) fn has(&self, target: Target, key: &Text) -> bool
        requires { AreNamed self.now }
        ensures { result ≡ is_key_in (keys_in (rows_in self.now) target) key.now }
    {
        match target {
            Target::Component => self.component.contains_key(key),
            Target::Directory => self.directory.contains_key(key),
            Target::Feature => self.feature.contains_key(key),
            Target::File => self.file.contains_key(key),
            Target::Registry => self.registry.contains_key(key),
        }
    }
}
