//! The tables of a package, loaded from a folder and checked (Database Tables).
#![tactic(auto)]

mod chain;
mod check;
mod known;
mod laws;
mod load;
mod package;
mod reference;
mod table;
mod typed_rows;

pub use laws::{
    conditions_read, conditions_refused, keys_apart, keys_stand, parents_end, references_stand,
    rows_stand, tables_small, values_stand,
};
pub use mi_rows::LoadError;
pub use package::Package;
pub use typed_rows::{
    ComponentRow, ConditionRow, CreateFolderRow, CustomActionRow, DirectoryRow, DuplicateFileRow,
    EnvironmentRow, FeatureComponentsRow, FeatureRow, FileRow, InstallExecuteSequenceRow,
    LaunchConditionRow, MsiFileHashRow, PropertyRow, RegistryRow, RemoveFileRow, RemoveRegistryRow,
    ShortcutRow, SummaryInformationRow, UpgradeRow,
};
