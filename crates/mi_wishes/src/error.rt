//! Why a selection is refused.

ghost use Rattle.std.specs.Prelude.{◌≡◌};
ghost use Rattle.mi_wishes.specs.declared.error.SelectError.TheVariants.{NoMemory as no_memory};

use mi_base::{Fault, NoMemory};
use std::alloc::{AllocError, AllocFailed};

/// Want of memory, or why a selection is refused.
#[derive(Drop)]
pub enum SelectError {
    NoMemory,
    Fault(Fault),
}

impl From<NoMemory> for SelectError {
    ghost from_gives = { λ _ e. e ≡ no_memory };

    fn from(_e: NoMemory) -> SelectError {
        SelectError::NoMemory
    }
}

impl From<AllocError> for SelectError {
    ghost from_gives = { λ _ e. e ≡ no_memory };

    fn from(_e: AllocError) -> SelectError {
        SelectError::NoMemory
    }
}

impl<T: Drop> From<AllocFailed<T>> for SelectError {
    ghost from_gives = { λ _ e. e ≡ no_memory };

    fn from(_e: AllocFailed<T>) -> SelectError {
        SelectError::NoMemory
    }
}
