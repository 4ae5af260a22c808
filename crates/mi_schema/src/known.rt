//! The known tables by name, and the list of the tables that are known or refused (Database Tables).

ghost use Rattle.std.specs.Prelude.{◌≡◌, map};
ghost use Rattle.mi_schema.specs.Tables.{listed, listed_as};

/// A known table (Database Tables).
#[derive(Clone, Copy)]
pub enum Known {
    Component,
    Condition,
    CreateFolder,
    CustomAction,
    Directory,
    DuplicateFile,
    Environment,
    Feature,
    FeatureComponents,
    File,
    InstallExecuteSequence,
    LaunchCondition,
    MsiFileHash,
    Property,
    Registry,
    RemoveFile,
    RemoveRegistry,
    Shortcut,
    SummaryInformation,
    Upgrade,
}

/// A table whose keys other tables name.
#[derive(Clone, Copy)]
pub enum Target {
    Component,
    Directory,
    Feature,
    File,
    Registry,
}

// Hands a macro each known table with its layout and the field of its rows, in two lists.
macro_rules! each_table {
    ($then:ident: $($with:ident),*) => {
        $then!($($with),*: Component COMPONENT component, Condition CONDITION condition,
            CreateFolder CREATE_FOLDER create_folder, CustomAction CUSTOM_ACTION custom_action,
            Directory DIRECTORY directory, DuplicateFile DUPLICATE_FILE duplicate_file,
            Environment ENVIRONMENT environment, Feature FEATURE feature,
            FeatureComponents FEATURE_COMPONENTS feature_components, File FILE file;
            InstallExecuteSequence INSTALL_EXECUTE_SEQUENCE install_execute_sequence,
            LaunchCondition LAUNCH_CONDITION launch_condition,
            MsiFileHash MSI_FILE_HASH msi_file_hash, Property PROPERTY property,
            Registry REGISTRY registry, RemoveFile REMOVE_FILE remove_file,
            RemoveRegistry REMOVE_REGISTRY remove_registry, Shortcut SHORTCUT shortcut,
            SummaryInformation SUMMARY_INFORMATION summary_information, Upgrade UPGRADE upgrade)
    };
}

pub(crate) use each_table;

/// A table of the list.
#[derive(Clone, Copy)]
pub enum Listed {
    /// One whose rows are loaded.
    Known(Known),
    /// The name of one that is refused where it holds a row.
    Refused(&'static str),
}

macro_rules! one {
    ($refused:literal) => { Listed::Refused($refused) };
    ($known:ident) => { Listed::Known(Known::$known) };
}

macro_rules! all {
    ($($table:tt)*) => { [$(one!($table)),*] };
}

const LISTED: [Listed; 45] = all!(
    "AppId" "BindImage" "Class" "Complus" Component Condition CreateFolder CustomAction Directory
    DuplicateFile Environment "Extension" Feature FeatureComponents File "Font" "IniFile"
    InstallExecuteSequence "IsolatedComponent" LaunchCondition "LockPermissions" "MIME" "MoveFile"
    "MsiAssembly" MsiFileHash "ODBCAttribute" "ODBCDataSource" "ODBCDriver" "ODBCSourceAttribute"
    "ODBCTranslator" "ProgId" Property "PublishComponent" Registry RemoveFile "RemoveIniFile"
    RemoveRegistry "SelfReg" "ServiceControl" "ServiceInstall" Shortcut "TypeLib" Upgrade "Verb"
    SummaryInformation
);

/// Every table that is known or refused, in byte order of the names.
#[tactic(auto, unfolding(crate::specs::Tables::listed))]
pub fn tables() -> &'static [Listed]
    ensures { map listed_as result.now ≡ listed }
{
    &LISTED
}
