//! Why the walk ends early, as it is kept.

ghost use Rattle.std.specs.Prelude.{◌≡◌, IfOk, Some};
ghost use Rattle.mi_schema.specs.RowsOf.{rows_in};
ghost use Rattle.mi_seq.specs.Stops.{fault_of};
ghost use Rattle.mi_seq.specs.declared.refusal.Stop.TheVariants.{NoMemory as no_memory};

use mi_base::{Fault, NoMemory, Text};
use std::alloc::Global;

/// Why an action is refused.
#[derive(Clone, Copy)]
pub enum Why {
    /// It is no standard action and no custom action.
    UnknownAction,
    /// It would run code, or is deferred.
    Executable,
    /// It stands where it may not.
    SequenceOrder,
    /// The formatted text of the row of CustomAction with this number, from 1, is nested too deep.
    TooDeep(u32),
}

/// Why an action has no step.
#[derive(Clone, Copy)]
pub enum Stop {
    NoMemory,
    Refused(Why),
}

impl From<NoMemory> for Stop {
    ghost from_gives = { λ _ e. e ≡ no_memory };

    fn from(_e: NoMemory) -> Stop {
        Stop::NoMemory
    }
}

impl Why {
    /// The fault of an action that is refused.
    pub fn fault(self, alloc: Global, action: &str) -> Result<Fault, NoMemory>
        ensures { IfOk result (λ fault. fault ≡ fault_of action.now self) }
    {
        match self {
            Why::UnknownAction => Ok(Fault::UnknownAction(Text::copy_of(alloc, action)?)),
            Why::Executable => Ok(Fault::Executable(Text::copy_of(alloc, action)?)),
            Why::SequenceOrder => Ok(Fault::SequenceOrder(Text::copy_of(alloc, action)?)),
            Why::TooDeep(row) => Ok(Fault::TooDeep(Text::copy_of(alloc, "CustomAction")?, row)),
        }
    }
}
