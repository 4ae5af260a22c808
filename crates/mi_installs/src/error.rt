//! Why the planning of InstallFiles ends early.

ghost use Rattle.std.specs.Prelude.{◌≡◌};
ghost use Rattle.mi_installs.specs.declared.error.InstallError.TheVariants.{NoMemory as no_memory};

use mi_base::{Fault, NoMemory};
use std::alloc::AllocFailed;

/// Why the planning of InstallFiles ends early: want of memory, the fault of a row, or a device that has failed and counts it.
#[derive(Drop)]
pub enum InstallError {
    NoMemory,
    Fault(Fault),
    Source,
    Volume,
}

impl From<NoMemory> for InstallError {
    ghost from_gives = { λ _ e. e ≡ no_memory };

    fn from(_e: NoMemory) -> InstallError {
        InstallError::NoMemory
    }
}

impl<T: Drop> From<AllocFailed<T>> for InstallError {
    ghost from_gives = { λ _ e. e ≡ no_memory };

    fn from(_e: AllocFailed<T>) -> InstallError {
        InstallError::NoMemory
    }
}
