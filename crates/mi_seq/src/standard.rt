//! The standard actions (Standard Actions Reference).

ghost use Rattle.std.specs.Prelude.{◌≡◌, ℕ, List, map, true, IfSome};
ghost use Rattle.mi_model.specs.States.{named};
ghost use Rattle.mi_model.specs.Sequence.{is_inside};
ghost use Rattle.mi_seq.specs.Standards.{entry_as, standard_actions, does, IsNamed};
ghost use Rattle.mi_seq_rows.specs.Stages.{Reaches};
ghost use Rattle.mi_seq.specs.Stops.{Answers};

use crate::phase::Phase;
use crate::refusal::{Stop, Why};
use crate::step::Step;
use mi_base::Text;
use mi_seq_rows::Stage;
use std::alloc::Global;

/// What a standard action does.
#[derive(Clone, Copy)]
pub enum Standard {
    Launch,
    Cost,
    Initialize,
    /// It ends a segment, and isn't the last that does.
    Execute,
    Finalize,
    Phase(Phase),
    Plain,
}

/// A standard action by its name.
pub struct Entry {
    name: &'static str,
    standard: Standard,
}

macro_rules! entry {
    ($name:literal, $standard:expr) => {
        Entry {
            name: $name,
            standard: $standard,
        }
    };
}

macro_rules! phase {
    ($name:literal, $phase:ident) => {
        entry!($name, Standard::Phase(Phase::$phase))
    };
}

macro_rules! plain {
    ($name:literal) => {
        entry!($name, Standard::Plain)
    };
}

const STANDARD_ACTIONS: [Entry; 75] = [
    entry!("LaunchConditions", Standard::Launch),
    entry!("CostFinalize", Standard::Cost),
    entry!("InstallInitialize", Standard::Initialize),
    entry!("InstallExecute", Standard::Execute),
    entry!("InstallExecuteAgain", Standard::Execute),
    entry!("InstallFinalize", Standard::Finalize),
    phase!("ProcessComponents", ProcessComponents),
    phase!("RemoveRegistryValues", RemoveRegistryValues),
    phase!("RemoveShortcuts", RemoveShortcuts),
    phase!("RemoveEnvironmentStrings", RemoveEnvironmentStrings),
    phase!("RemoveDuplicateFiles", RemoveDuplicateFiles),
    phase!("RemoveFiles", RemoveFiles),
    phase!("RemoveFolders", RemoveFolders),
    phase!("CreateFolders", CreateFolders),
    phase!("InstallFiles", InstallFiles),
    phase!("DuplicateFiles", DuplicateFiles),
    phase!("CreateShortcuts", CreateShortcuts),
    phase!("WriteRegistryValues", WriteRegistryValues),
    phase!("WriteEnvironmentStrings", WriteEnvironmentStrings),
    phase!("PublishProduct", PublishProduct),
    plain!("AllocateRegistrySpace"),
    plain!("AppSearch"),
    plain!("BindImage"),
    plain!("CCPSearch"),
    plain!("CostInitialize"),
    plain!("DeleteServices"),
    plain!("DisableRollback"),
    plain!("ExecuteAction"),
    plain!("FileCost"),
    plain!("FindRelatedProducts"),
    plain!("ForceReboot"),
    plain!("InstallODBC"),
    plain!("InstallSFPCatalogFile"),
    plain!("InstallServices"),
    plain!("InstallValidate"),
    plain!("IsolateComponents"),
    plain!("MigrateFeatureStates"),
    plain!("MoveFiles"),
    plain!("MsiConfigureServices"),
    plain!("MsiPublishAssemblies"),
    plain!("MsiUnpublishAssemblies"),
    plain!("PatchFiles"),
    plain!("PublishComponents"),
    plain!("PublishFeatures"),
    plain!("RegisterClassInfo"),
    plain!("RegisterComPlus"),
    plain!("RegisterExtensionInfo"),
    plain!("RegisterFonts"),
    plain!("RegisterMIMEInfo"),
    plain!("RegisterProduct"),
    plain!("RegisterProgIdInfo"),
    plain!("RegisterTypeLibraries"),
    plain!("RegisterUser"),
    plain!("RemoveExistingProducts"),
    plain!("RemoveIniValues"),
    plain!("RemoveODBC"),
    plain!("ResolveSource"),
    plain!("RMCCPSearch"),
    plain!("ScheduleReboot"),
    plain!("SelfRegModules"),
    plain!("SelfUnregModules"),
    plain!("SetODBCFolders"),
    plain!("StartServices"),
    plain!("StopServices"),
    plain!("UnpublishComponents"),
    plain!("UnpublishFeatures"),
    plain!("UnregisterClassInfo"),
    plain!("UnregisterComPlus"),
    plain!("UnregisterExtensionInfo"),
    plain!("UnregisterFonts"),
    plain!("UnregisterMIMEInfo"),
    plain!("UnregisterProgIdInfo"),
    plain!("UnregisterTypeLibraries"),
    plain!("ValidateProductID"),
    plain!("WriteIniValues"),
];

#[tactic(auto, unfolding(crate::specs::Standards::standard_actions, mi_model::specs::Steps::without_effect))]
fn standard_actions() -> &'static [Entry]
    ensures { map entry_as result.now ≡ standard_actions }
{
    &STANDARD_ACTIONS
}

fn find_in(entries: &[Entry], action: &str) -> Option<Standard>
    ensures { result ≡ named action.now (map entry_as entries.now) }
{
    for entry in entries {
        if action == entry.name {
            return Some(entry.standard);
        }
    }
    None
}

/// The standard action of a name.
pub fn standard_of(action: &str) -> Option<Standard>
    ensures found { result ≡ named action.now standard_actions }
    ensures is_named { IfSome result (λ s. IsNamed s action.now) }
{
    find_in(standard_actions(), action)
}

fn plain(alloc: Global, action: &str) -> Result<Step, Stop>
    ensures { (begun : List (List ℕ)) → Answers (does Standard.Plain begun action.now) action.now result }
{
    let action = Text::copy_of(alloc, action)?;
    Ok(Step::Plain(action))
}

fn execute(alloc: Global, action: &str) -> Result<Step, Stop>
    ensures { (begun : List (List ℕ)) → is_inside begun ≡ true → Answers (does Standard.Execute begun action.now) action.now result }
{
    let action = Text::copy_of(alloc, action)?;
    Ok(Step::Execute(action))
}

impl Standard {
    /// What the action does where it stands.
    pub fn step(self, alloc: Global, stage: Stage, action: &str) -> Result<Step, Stop>
        requires { IsNamed self action.now }
        ensures { (begun : List (List ℕ)) → Reaches stage begun → Answers (does self begun action.now) action.now result }
    {
        let inside = stage.is_inside();
        match self {
            Standard::Launch => Ok(Step::Launch),
            Standard::Cost => Ok(Step::Cost),
            Standard::Plain => plain(alloc, action),
            Standard::Initialize if stage.costed => Ok(Step::Initialize),
            Standard::Execute if inside => execute(alloc, action),
            Standard::Finalize if inside => Ok(Step::Finalize),
            Standard::Phase(phase) if inside => Ok(Step::Phase(phase)),
            Standard::Initialize | Standard::Execute | Standard::Finalize | Standard::Phase(_) =>
                Err(Stop::Refused(Why::SequenceOrder)),
        }
    }
}
