//! Refusals of directories.

ghost use Rattle.std.specs.Prelude.{◌≡◌};
ghost use Rattle.mi_dirs.specs.declared.fault.DirError.TheVariants.{NoMemory as no_memory};

use mi_text::NoMemory;
use std::alloc::{AllocError, AllocFailed};

/// Why directories are refused. Rows count from 1; the greatest u32 stands for every later row.
#[derive(Clone, Copy)]
pub enum DirFault {
    /// The first row whose chain of parents doesn't end.
    Cycle(u32),
    /// The first row whose target is refused.
    BadPath(u32),
}

/// Want of memory, or why directories are refused.
#[derive(Clone, Copy)]
pub enum DirError {
    NoMemory,
    Fault(DirFault),
}

impl From<NoMemory> for DirError {
    ghost from_gives = { λ _ e. e ≡ no_memory };

    fn from(_e: NoMemory) -> DirError {
        DirError::NoMemory
    }
}

impl From<AllocError> for DirError {
    ghost from_gives = { λ _ e. e ≡ no_memory };

    fn from(_e: AllocError) -> DirError {
        DirError::NoMemory
    }
}

impl<T: Drop> From<AllocFailed<T>> for DirError {
    ghost from_gives = { λ _ e. e ≡ no_memory };

    fn from(_e: AllocFailed<T>) -> DirError {
        DirError::NoMemory
    }
}
