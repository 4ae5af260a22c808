//! What a custom action does by its Type (CustomAction table; Summary List of All Custom Action Types).

ghost use Rattle.std.specs.Prelude.{◌≡◌, List, ℕ};
ghost use Rattle.mi_seq_rows.specs.Customs.{kind_of, may_stand};
ghost use Rattle.mi_seq_rows.specs.Stages.{Reaches};

use crate::stage::Stage;

/// What a custom action does that runs here (Summary List of All Custom Action Types).
#[derive(Clone, Copy)]
pub enum Custom {
    /// Type 19.
    Error,
    /// Type 35.
    SetDir,
    /// Type 51.
    SetProperty,
}

/// What a custom action of this Type does, by its low six bits, unless it would run code, which is None. Bit 1024 defers an action,
/// which then runs as code does; other bits change nothing (Summary List of All Custom Action Types; Custom Action In-Script
/// Execution Options).
pub fn kind_of(kind: i32) -> Option<Custom>
    ensures { result ≡ kind_of kind }
{
    let bits = kind.cast_unsigned();
    if bits & 1024 != 0 {
        return None;
    }
    match bits & 63 {
        19 => Some(Custom::Error),
        35 => Some(Custom::SetDir),
        51 => Some(Custom::SetProperty),
        _ => None,
    }
}

/// Whether it may stand here: a directory is set behind CostFinalize, and not behind InstallFinalize; the others stand anywhere
/// (Suggested InstallExecuteSequence).
pub fn may_stand(custom: Custom, stage: Stage) -> bool
    ensures { (begun : List (List ℕ)) → Reaches stage begun → result ≡ may_stand custom begun }
{
    match custom {
        Custom::SetDir => stage.costed && !stage.finalized,
        Custom::Error | Custom::SetProperty => true,
    }
}
