//! Why planning ends early.

ghost use Rattle.std.specs.Prelude.{◌≡◌};
ghost use Rattle.mi_plan.specs.declared.error.WalkError.TheVariants.{NoMemory as no_memory};

use mi_base::{Fault, NoMemory};
use std::alloc::{AllocError, AllocFailed};

/// Why a walk isn't planned: want of memory, or a device that failed and counts it.
#[derive(Clone, Copy)]
pub enum WalkError {
    NoMemory,
    Source,
    Volume,
}

/// Why a phase isn't planned: want of memory, the fault of a row, or a device that failed and counts it.
#[derive(Drop)]
pub enum PhaseError {
    NoMemory,
    Fault(Fault),
    Source,
    Volume,
}

impl From<NoMemory> for WalkError {
    ghost from_gives = { λ _ e. e ≡ no_memory };

    fn from(_e: NoMemory) -> WalkError {
        WalkError::NoMemory
    }
}

impl From<AllocError> for WalkError {
    ghost from_gives = { λ _ e. e ≡ no_memory };

    fn from(_e: AllocError) -> WalkError {
        WalkError::NoMemory
    }
}

impl<T: Drop> From<AllocFailed<T>> for WalkError {
    ghost from_gives = { λ _ e. e ≡ no_memory };

    fn from(_e: AllocFailed<T>) -> WalkError {
        WalkError::NoMemory
    }
}
