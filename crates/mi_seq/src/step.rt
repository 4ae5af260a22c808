//! What a begun action does.

ghost use Rattle.std.specs.Prelude.{◌≡◌};
ghost use Rattle.mi_seq.specs.Meaning.{action_of};

use crate::phase::Phase;
use mi_base::Text;

/// What a begun action does (Standard Actions Reference; Custom Action Types). A first text is the action's name.
#[derive(Drop)]
pub enum Step {
    /// Nothing, but that it is begun.
    Plain(Text),
    /// It asks the launch conditions (LaunchConditions action).
    Launch,
    /// It resolves directories and selects (CostFinalize action).
    Cost,
    /// It begins what changes the machine (InstallInitialize action).
    Initialize,
    /// Its rows touch the machine.
    Phase(Phase),
    /// It sets the property of this name to this text (Custom Action Type 51).
    SetProperty(Text, Text, Text),
    /// It sets this directory to this text (Custom Action Type 35).
    SetDir(Text, Text, Text),
    /// It refuses the run with this text (Custom Action Type 19).
    Error(Text, Text),
    /// It ends a segment (InstallExecute and InstallExecuteAgain actions).
    Execute(Text),
    /// It ends the last segment (InstallFinalize action).
    Finalize,
    /// No row is left.
    End,
}

impl Step {
    /// The action that is begun; empty at the end.
    pub fn action(&self) -> &str
        ensures { result.now ≡ action_of self.now }
    {
        match self {
            Step::Plain(action) | Step::Execute(action) => action.as_str(),
            Step::SetProperty(action, _, _) | Step::SetDir(action, _, _) => action.as_str(),
            Step::Error(action, _) => action.as_str(),
            Step::Launch => "LaunchConditions",
            Step::Cost => "CostFinalize",
            Step::Initialize => "InstallInitialize",
            Step::Phase(phase) => phase.action(),
            Step::Finalize => "InstallFinalize",
            Step::End => "",
        }
    }
}
