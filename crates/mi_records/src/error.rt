//! Why a plan call ends early.

ghost use Rattle.std.specs.Prelude.{◌≡◌};
ghost use Rattle.mi_records.specs.declared.error.PlanError.TheVariants.{NoMemory as no_memory};

use mi_base::{Fault, NoMemory};

/// Why a plan call ends early: want of memory, or the fault of a row.
#[derive(Drop)]
pub enum PlanError {
    NoMemory,
    Fault(Fault),
}

impl From<NoMemory> for PlanError {
    ghost from_gives = { λ _ e. e ≡ no_memory };

    fn from(_e: NoMemory) -> PlanError {
        PlanError::NoMemory
    }
}
