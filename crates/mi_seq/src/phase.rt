//! The standard actions that are phases.

ghost use Rattle.std.specs.Prelude.{◌≡◌};
ghost use Rattle.mi_seq.specs.Meaning.{phase_action};

/// A standard action whose rows touch the machine (Standard Actions Reference).
#[derive(Clone, Copy)]
pub enum Phase {
    ProcessComponents,
    RemoveRegistryValues,
    RemoveShortcuts,
    RemoveEnvironmentStrings,
    RemoveDuplicateFiles,
    RemoveFiles,
    RemoveFolders,
    CreateFolders,
    InstallFiles,
    DuplicateFiles,
    CreateShortcuts,
    WriteRegistryValues,
    WriteEnvironmentStrings,
    PublishProduct,
}

impl Phase {
    /// The name of its action.
    pub fn action(self) -> &'static str
        ensures { result.now ≡ phase_action self }
    {
        match self {
            Phase::ProcessComponents => "ProcessComponents",
            Phase::RemoveRegistryValues => "RemoveRegistryValues",
            Phase::RemoveShortcuts => "RemoveShortcuts",
            Phase::RemoveEnvironmentStrings => "RemoveEnvironmentStrings",
            Phase::RemoveDuplicateFiles => "RemoveDuplicateFiles",
            Phase::RemoveFiles => "RemoveFiles",
            Phase::RemoveFolders => "RemoveFolders",
            Phase::CreateFolders => "CreateFolders",
            Phase::InstallFiles => "InstallFiles",
            Phase::DuplicateFiles => "DuplicateFiles",
            Phase::CreateShortcuts => "CreateShortcuts",
            Phase::WriteRegistryValues => "WriteRegistryValues",
            Phase::WriteEnvironmentStrings => "WriteEnvironmentStrings",
            Phase::PublishProduct => "PublishProduct",
        }
    }
}
