//! Why a package isn't loaded.

ghost use Rattle.std.specs.Prelude.{◌≡◌};
ghost use Rattle.mi_rows.specs.declared.error.LoadError.TheVariants.{NoMemory as no_memory, Source as source_failed};
ghost use Rattle.mi_rows.specs.Reads.{error_of};

use mi_base::{Fault, NoMemory};
use mi_source::{Failed, SrcFault};
use std::alloc::{AllocError, AllocFailed};

/// Why a package isn't loaded.
#[derive(Drop)]
pub enum LoadError {
    /// Memory ran out.
    NoMemory,
    /// The source has failed, and has counted it.
    Source,
    /// The first fault of the package.
    Table(Fault),
}

/// What a check answers: nothing, or why the package isn't loaded.
pub type Checked = Result<(), LoadError>;

impl From<NoMemory> for LoadError {
    ghost from_gives = { λ _ e. e ≡ no_memory };

    fn from(_e: NoMemory) -> LoadError {
        LoadError::NoMemory
    }
}

impl From<AllocError> for LoadError {
    ghost from_gives = { λ _ e. e ≡ no_memory };

    fn from(_e: AllocError) -> LoadError {
        LoadError::NoMemory
    }
}

impl<T: Drop> From<AllocFailed<T>> for LoadError {
    ghost from_gives = { λ _ e. e ≡ no_memory };

    fn from(_e: AllocFailed<T>) -> LoadError {
        LoadError::NoMemory
    }
}

impl From<SrcFault> for LoadError {
    ghost from_gives = { λ fault e. e ≡ error_of fault };

    fn from(fault: SrcFault) -> LoadError {
        match fault {
            SrcFault::NoMemory => LoadError::NoMemory,
            SrcFault::Failed => LoadError::Source,
        }
    }
}

impl From<Failed> for LoadError {
    ghost from_gives = { λ _ e. e ≡ source_failed };

    fn from(_e: Failed) -> LoadError {
        LoadError::Source
    }
}
