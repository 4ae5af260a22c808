//! The rows of the known tables: each table's columns, and its rows as structs of them (Database Tables). A column is
//! named in snake case without an underscore at its ends, and Type is `kind`.

ghost use Rattle.std.specs.Prelude.{refl};
ghost use Rattle.mi_schema.specs.declared.known.Known.TheVariants as of;
ghost use Rattle.mi_schema.specs.Tables.{layout_of};
ghost use Rattle.mi_schema.specs.TypedRows.{property_row, directory_row, component_row, feature_row, feature_components_row, condition_row, file_row, msi_file_hash_row, remove_file_row, create_folder_row, duplicate_file_row, registry_row, remove_registry_row, environment_row, shortcut_row, launch_condition_row, custom_action_row, install_execute_sequence_row, upgrade_row, summary_information_row};

use mi_base::{Guid, Text};
use mi_cond::Cond;
use mi_rows::{
    Column, Field, Kind, Layout, Rule, TableRow, Take, UpgradeKey, number_at, some_code_at,
    some_number_at,
};

macro_rules! is_key {
    (key) => { true };
    (key_or_null) => { true };
    ($other:ident) => { false };
}

macro_rules! is_nullable {
    (allows) => { true };
    (key_or_null) => { true };
    ($other:ident) => { false };
}

macro_rules! rule {
    () => { Rule::Free };
    ($($rule:tt)+) => { Rule::$($rule)+ };
}

// A table by its name and its columns: how a column stands, its name, what it holds, and its rule, if any.
macro_rules! layout {
    ($table:literal: $($may:ident $name:ident $kind:ident $($rule:ident)? $(($($limit:tt)*))?),*) => {
        Layout {
            name: $table,
            columns: &[$(Column {
                name: stringify!($name),
                kind: Kind::$kind,
                nullable: is_nullable!($may),
                key: is_key!($may),
                rule: rule!($($rule)? $(($($limit)*))?),
            }),*],
        }
    };
}

// How a value is made of the field of a column.
macro_rules! field {
    (text, $take:ident, $row:ident, $column:literal) => { $take.text($row, $column) };
    (some_text, $take:ident, $row:ident, $column:literal) => { $take.some_text($row, $column) };
    (number, $take:ident, $row:ident, $column:literal) => { number_at($row, $column) };
    (some_number, $take:ident, $row:ident, $column:literal) => { some_number_at($row, $column) };
    (some_code, $take:ident, $row:ident, $column:literal) => { some_code_at($row, $column) };
    ($condition:ident, $take:ident, $row:ident, $column:literal) => { $take.$condition() };
}

// The struct of a row: each field, how its value is made, and its column, from 0.
macro_rules! read {
    ($take:ident, $row:ident => $of:ident: $($column:literal $how:ident $field:ident),*) => {
        $of { $($field: field!($how, $take, $row, $column)),* }
    };
}

/// A row of Property (Property table).
#[derive(Drop)]
pub struct PropertyRow {
    pub property: Text,
    pub value: Text,
}

pub const PROPERTY: Layout = layout!("Property": key Property Text PropertyName,
    needs Value Text PropertyValue);

impl TableRow<Text> for PropertyRow {
    ghost layout = { layout_of of.Property };

    ghost readable = { (refl, refl) };

    ghost value = { property_row };

    fn read(take: &mut Take, row: &[Field]) -> PropertyRow {
        read!(take, row => PropertyRow: 0 text property, 1 text value)
    }
}

/// A row of Directory (Directory table).
#[derive(Drop)]
pub struct DirectoryRow {
    pub directory: Text,
    /// A key of Directory; a root row has none, or its own.
    pub directory_parent: Option<Text>,
    /// `target:source`, or one name for both; a root's isn't checked.
    pub default_dir: Text,
}

pub const DIRECTORY: Layout = layout!("Directory": key Directory Text,
    allows Directory_Parent Text OneRoot, needs DefaultDir Text DefaultDir);

impl TableRow<Text> for DirectoryRow {
    ghost layout = { layout_of of.Directory };

    ghost readable = { (refl, refl) };

    ghost value = { directory_row };

    fn read(take: &mut Take, row: &[Field]) -> DirectoryRow {
        read!(take, row => DirectoryRow: 0 text directory, 1 some_text directory_parent,
            2 text default_dir)
    }
}

/// A row of Component (Component table).
#[derive(Drop)]
pub struct ComponentRow {
    pub component: Text,
    /// The code by which clients name the component.
    pub component_id: Option<Guid>,
    /// A key of Directory.
    pub directory: Text,
    pub attributes: i32,
    pub condition: Option<Cond>,
    /// A key of File, or of Registry where attribute 4 is set.
    pub key_path: Option<Text>,
}

pub const COMPONENT: Layout = layout!("Component": key Component Text,
    allows ComponentId Code NewCode, needs Directory_ Text,
    needs Attributes Integer Without(1 | 32 | 64), allows Condition Condition, allows KeyPath Text);

impl TableRow<Text> for ComponentRow {
    ghost layout = { layout_of of.Component };

    ghost readable = { (refl, refl) };

    ghost value = { component_row };

    fn read(take: &mut Take, row: &[Field]) -> ComponentRow {
        read!(take, row => ComponentRow: 0 text component, 1 some_code component_id,
            2 text directory, 3 number attributes, 4 some_condition condition, 5 some_text key_path)
    }
}

/// A row of Feature (Feature table).
#[derive(Drop)]
pub struct FeatureRow {
    pub feature: Text,
    /// A key of Feature.
    pub feature_parent: Option<Text>,
    pub title: Option<Text>,
    pub description: Option<Text>,
    pub display: Option<i32>,
    pub level: i32,
    pub directory: Option<Text>,
    pub attributes: i32,
}

pub const FEATURE: Layout = layout!("Feature": key Feature Text, allows Feature_Parent Text,
    allows Title Text, allows Description Text, allows Display Integer, needs Level Integer,
    allows Directory_ Text, needs Attributes Integer);

impl TableRow<Text> for FeatureRow {
    ghost layout = { layout_of of.Feature };

    ghost readable = { (refl, refl) };

    ghost value = { feature_row };

    fn read(take: &mut Take, row: &[Field]) -> FeatureRow {
        read!(take, row => FeatureRow: 0 text feature, 1 some_text feature_parent,
            2 some_text title, 3 some_text description, 4 some_number display, 5 number level,
            6 some_text directory, 7 number attributes)
    }
}

/// A row of FeatureComponents (FeatureComponents table).
#[derive(Drop)]
pub struct FeatureComponentsRow {
    /// A key of Feature.
    pub feature: Text,
    /// A key of Component.
    pub component: Text,
}

pub const FEATURE_COMPONENTS: Layout = layout!("FeatureComponents": key Feature_ Text,
    key Component_ Text);

impl TableRow<(Text, Text)> for FeatureComponentsRow {
    ghost layout = { layout_of of.FeatureComponents };

    ghost readable = { (refl, refl) };

    ghost value = { feature_components_row };

    fn read(take: &mut Take, row: &[Field]) -> FeatureComponentsRow {
        read!(take, row => FeatureComponentsRow: 0 text feature, 1 text component)
    }
}

/// A row of Condition (Condition table).
#[derive(Drop)]
pub struct ConditionRow {
    /// A key of Feature.
    pub feature: Text,
    pub level: i32,
    pub condition: Option<Cond>,
}

pub const CONDITION: Layout = layout!("Condition": key Feature_ Text, key Level Integer,
    allows Condition Condition);

impl TableRow<(Text, i32)> for ConditionRow {
    ghost layout = { layout_of of.Condition };

    ghost readable = { (refl, refl) };

    ghost value = { condition_row };

    fn read(take: &mut Take, row: &[Field]) -> ConditionRow {
        read!(take, row => ConditionRow: 0 text feature, 1 number level, 2 some_condition condition)
    }
}

/// A row of File (File table).
#[derive(Drop)]
pub struct FileRow {
    pub file: Text,
    /// A key of Component.
    pub component: Text,
    /// `long`, or `short|long`.
    pub file_name: Text,
    /// Bytes, not below 0.
    pub file_size: i32,
    /// A version, or a key of File, whose companion this file is.
    pub version: Option<Text>,
    /// Numbers up to 65535, joined by `,`.
    pub language: Option<Text>,
    pub attributes: Option<i32>,
    pub sequence: i32,
}

pub const FILE: Layout = layout!("File": key File Text, needs Component_ Text, needs FileName Name,
    needs FileSize Integer Within(0, i32::MAX), allows Version Text VersionOrKey,
    allows Language Text Languages, allows Attributes Integer, needs Sequence Integer);

impl TableRow<Text> for FileRow {
    ghost layout = { layout_of of.File };

    ghost readable = { (refl, refl) };

    ghost value = { file_row };

    fn read(take: &mut Take, row: &[Field]) -> FileRow {
        read!(take, row => FileRow: 0 text file, 1 text component, 2 text file_name,
            3 number file_size, 4 some_text version, 5 some_text language, 6 some_number attributes,
            7 number sequence)
    }
}

/// A row of MsiFileHash (MsiFileHash table).
#[derive(Drop)]
pub struct MsiFileHashRow {
    /// A key of File.
    pub file: Text,
    pub options: i32,
    pub hash_part1: i32,
    pub hash_part2: i32,
    pub hash_part3: i32,
    pub hash_part4: i32,
}

pub const MSI_FILE_HASH: Layout = layout!("MsiFileHash": key File_ Text, needs Options Integer,
    needs HashPart1 Integer, needs HashPart2 Integer, needs HashPart3 Integer,
    needs HashPart4 Integer);

impl TableRow<Text> for MsiFileHashRow {
    ghost layout = { layout_of of.MsiFileHash };

    ghost readable = { (refl, refl) };

    ghost value = { msi_file_hash_row };

    fn read(take: &mut Take, row: &[Field]) -> MsiFileHashRow {
        read!(take, row => MsiFileHashRow: 0 text file, 1 number options, 2 number hash_part1,
            3 number hash_part2, 4 number hash_part3, 5 number hash_part4)
    }
}

/// A row of RemoveFile (RemoveFile table).
#[derive(Drop)]
pub struct RemoveFileRow {
    pub file_key: Text,
    /// A key of Component.
    pub component: Text,
    /// `long`, or `short|long`, with `*` and `?` allowed.
    pub file_name: Option<Text>,
    pub dir_property: Text,
    /// 1 on install, 2 on removal, 3 on both.
    pub install_mode: i32,
}

pub const REMOVE_FILE: Layout = layout!("RemoveFile": key FileKey Text, needs Component_ Text,
    allows FileName Pattern, needs DirProperty Text, needs InstallMode Integer Within(1, 3));

impl TableRow<Text> for RemoveFileRow {
    ghost layout = { layout_of of.RemoveFile };

    ghost readable = { (refl, refl) };

    ghost value = { remove_file_row };

    fn read(take: &mut Take, row: &[Field]) -> RemoveFileRow {
        read!(take, row => RemoveFileRow: 0 text file_key, 1 text component, 2 some_text file_name,
            3 text dir_property, 4 number install_mode)
    }
}

/// A row of CreateFolder (CreateFolder table).
#[derive(Drop)]
pub struct CreateFolderRow {
    /// A key of Directory.
    pub directory: Text,
    /// A key of Component.
    pub component: Text,
}

pub const CREATE_FOLDER: Layout = layout!("CreateFolder": key Directory_ Text, key Component_ Text);

impl TableRow<(Text, Text)> for CreateFolderRow {
    ghost layout = { layout_of of.CreateFolder };

    ghost readable = { (refl, refl) };

    ghost value = { create_folder_row };

    fn read(take: &mut Take, row: &[Field]) -> CreateFolderRow {
        read!(take, row => CreateFolderRow: 0 text directory, 1 text component)
    }
}

/// A row of DuplicateFile (DuplicateFile table).
#[derive(Drop)]
pub struct DuplicateFileRow {
    pub file_key: Text,
    /// A key of Component.
    pub component: Text,
    /// A key of File.
    pub file: Text,
    /// `long`, or `short|long`.
    pub dest_name: Option<Text>,
    pub dest_folder: Option<Text>,
}

pub const DUPLICATE_FILE: Layout = layout!("DuplicateFile": key FileKey Text, needs Component_ Text,
    needs File_ Text, allows DestName Name, allows DestFolder Text);

impl TableRow<Text> for DuplicateFileRow {
    ghost layout = { layout_of of.DuplicateFile };

    ghost readable = { (refl, refl) };

    ghost value = { duplicate_file_row };

    fn read(take: &mut Take, row: &[Field]) -> DuplicateFileRow {
        read!(take, row => DuplicateFileRow: 0 text file_key, 1 text component, 2 text file,
            3 some_text dest_name, 4 some_text dest_folder)
    }
}

/// A row of Registry (Registry table).
#[derive(Drop)]
pub struct RegistryRow {
    pub registry: Text,
    /// -1 by user or machine, 0 HKCR, 1 HKCU, 2 HKLM, 3 HKU.
    pub root: i32,
    pub key: Text,
    pub name: Option<Text>,
    pub value: Option<Text>,
    /// A key of Component.
    pub component: Text,
}

pub const REGISTRY: Layout = layout!("Registry": key Registry Text,
    needs Root Integer Within(-1, 3), needs Key Formatted, allows Name Formatted,
    allows Value Formatted, needs Component_ Text);

impl TableRow<Text> for RegistryRow {
    ghost layout = { layout_of of.Registry };

    ghost readable = { (refl, refl) };

    ghost value = { registry_row };

    fn read(take: &mut Take, row: &[Field]) -> RegistryRow {
        read!(take, row => RegistryRow: 0 text registry, 1 number root, 2 text key,
            3 some_text name, 4 some_text value, 5 text component)
    }
}

/// A row of RemoveRegistry (RemoveRegistry table).
#[derive(Drop)]
pub struct RemoveRegistryRow {
    pub remove_registry: Text,
    /// As in Registry.
    pub root: i32,
    pub key: Text,
    pub name: Option<Text>,
    /// A key of Component.
    pub component: Text,
}

pub const REMOVE_REGISTRY: Layout = layout!("RemoveRegistry": key RemoveRegistry Text,
    needs Root Integer Within(-1, 3), needs Key Formatted, allows Name Formatted,
    needs Component_ Text);

impl TableRow<Text> for RemoveRegistryRow {
    ghost layout = { layout_of of.RemoveRegistry };

    ghost readable = { (refl, refl) };

    ghost value = { remove_registry_row };

    fn read(take: &mut Take, row: &[Field]) -> RemoveRegistryRow {
        read!(take, row => RemoveRegistryRow: 0 text remove_registry, 1 number root, 2 text key,
            3 some_text name, 4 text component)
    }
}

/// A row of Environment (Environment table).
#[derive(Drop)]
pub struct EnvironmentRow {
    pub environment: Text,
    /// Prefixes, then the variable.
    pub name: Text,
    pub value: Option<Text>,
    /// A key of Component.
    pub component: Text,
}

pub const ENVIRONMENT: Layout = layout!("Environment": key Environment Text, needs Name Text,
    allows Value Formatted, needs Component_ Text);

impl TableRow<Text> for EnvironmentRow {
    ghost layout = { layout_of of.Environment };

    ghost readable = { (refl, refl) };

    ghost value = { environment_row };

    fn read(take: &mut Take, row: &[Field]) -> EnvironmentRow {
        read!(take, row => EnvironmentRow: 0 text environment, 1 text name, 2 some_text value,
            3 text component)
    }
}

/// A row of Shortcut (Shortcut table).
#[derive(Drop)]
pub struct ShortcutRow {
    pub shortcut: Text,
    /// A key of Directory.
    pub directory: Text,
    /// `long`, or `short|long`.
    pub name: Text,
    /// A key of Component.
    pub component: Text,
    pub target: Text,
    pub arguments: Option<Text>,
    pub description: Option<Text>,
    /// From 0 to 65535.
    pub hotkey: Option<i32>,
    pub icon: Option<Text>,
    /// From -32767 to 32767.
    pub icon_index: Option<i32>,
    /// From 0 to 65535.
    pub show_cmd: Option<i32>,
    pub wk_dir: Option<Text>,
}

pub const SHORTCUT: Layout = layout!("Shortcut": key Shortcut Text, needs Directory_ Text,
    needs Name Name, needs Component_ Text, needs Target Formatted, allows Arguments Formatted,
    allows Description Text, allows Hotkey Integer Within(0, 65_535), allows Icon_ Text,
    allows IconIndex Integer Within(-32_767, 32_767), allows ShowCmd Integer Within(0, 65_535),
    allows WkDir Text);

impl TableRow<Text> for ShortcutRow {
    ghost layout = { layout_of of.Shortcut };

    ghost readable = { (refl, refl) };

    ghost value = { shortcut_row };

    fn read(take: &mut Take, row: &[Field]) -> ShortcutRow {
        read!(take, row => ShortcutRow: 0 text shortcut, 1 text directory, 2 text name,
            3 text component, 4 text target, 5 some_text arguments, 6 some_text description,
            7 some_number hotkey, 8 some_text icon, 9 some_number icon_index,
            10 some_number show_cmd, 11 some_text wk_dir)
    }
}

/// A row of LaunchCondition (LaunchCondition table).
#[derive(Drop)]
pub struct LaunchConditionRow {
    pub condition: Cond,
    pub description: Text,
}

pub const LAUNCH_CONDITION: Layout = layout!("LaunchCondition": key Condition Condition,
    needs Description Formatted);

impl TableRow<Text> for LaunchConditionRow {
    ghost layout = { layout_of of.LaunchCondition };

    ghost readable = { (refl, refl) };

    ghost value = { launch_condition_row };

    fn read(take: &mut Take, row: &[Field]) -> LaunchConditionRow {
        read!(take, row => LaunchConditionRow: 0 condition condition, 1 text description)
    }
}

/// A row of CustomAction (CustomAction table).
#[derive(Drop)]
pub struct CustomActionRow {
    pub action: Text,
    /// The column Type (Summary List of All Custom Action Types).
    pub kind: i32,
    /// A key of Directory where the action sets one (Custom Action Type 35).
    pub source: Option<Text>,
    pub target: Option<Text>,
}

pub const CUSTOM_ACTION: Layout = layout!("CustomAction": key Action Text, needs Type Integer,
    allows Source Text, allows Target Formatted);

impl TableRow<Text> for CustomActionRow {
    ghost layout = { layout_of of.CustomAction };

    ghost readable = { (refl, refl) };

    ghost value = { custom_action_row };

    fn read(take: &mut Take, row: &[Field]) -> CustomActionRow {
        read!(take, row => CustomActionRow: 0 text action, 1 number kind, 2 some_text source,
            3 some_text target)
    }
}

/// A row of InstallExecuteSequence (InstallExecuteSequence table).
#[derive(Drop)]
pub struct InstallExecuteSequenceRow {
    pub action: Text,
    pub condition: Option<Cond>,
    pub sequence: Option<i32>,
}

pub const INSTALL_EXECUTE_SEQUENCE: Layout = layout!("InstallExecuteSequence": key Action Text,
    allows Condition Condition, allows Sequence Integer);

impl TableRow<Text> for InstallExecuteSequenceRow {
    ghost layout = { layout_of of.InstallExecuteSequence };

    ghost readable = { (refl, refl) };

    ghost value = { install_execute_sequence_row };

    fn read(take: &mut Take, row: &[Field]) -> InstallExecuteSequenceRow {
        read!(take, row => InstallExecuteSequenceRow: 0 text action, 1 some_condition condition,
            2 some_number sequence)
    }
}

/// A row of Upgrade (Upgrade table).
#[derive(Drop)]
pub struct UpgradeRow {
    pub upgrade_code: Text,
    pub version_min: Option<Text>,
    pub version_max: Option<Text>,
    pub language: Option<Text>,
    pub attributes: i32,
    pub remove: Option<Text>,
    pub action_property: Text,
}

pub const UPGRADE: Layout = layout!("Upgrade": key UpgradeCode Text, key_or_null VersionMin Text,
    key_or_null VersionMax Text, key_or_null Language Text, key Attributes Integer,
    allows Remove Text, needs ActionProperty Text);

impl TableRow<UpgradeKey> for UpgradeRow {
    ghost layout = { layout_of of.Upgrade };

    ghost readable = { (refl, refl) };

    ghost value = { upgrade_row };

    fn read(take: &mut Take, row: &[Field]) -> UpgradeRow {
        read!(take, row => UpgradeRow: 0 text upgrade_code, 1 some_text version_min,
            2 some_text version_max, 3 some_text language, 4 number attributes, 5 some_text remove,
            6 text action_property)
    }
}

/// A row of _SummaryInformation (Summary Information Stream).
#[derive(Drop)]
pub struct SummaryInformationRow {
    /// 15 is the Word Count.
    pub property_id: i32,
    pub value: Option<Text>,
}

pub const SUMMARY_INFORMATION: Layout = layout!("_SummaryInformation": key PropertyId Integer,
    allows Value Text WordCount);

impl TableRow<i32> for SummaryInformationRow {
    ghost layout = { layout_of of.SummaryInformation };

    ghost readable = { (refl, refl) };

    ghost value = { summary_information_row };

    fn read(take: &mut Take, row: &[Field]) -> SummaryInformationRow {
        read!(take, row => SummaryInformationRow: 0 number property_id, 1 some_text value)
    }
}
