//! How a source and a sink fail.

use mi_text::NoMemory;
use std::alloc::{AllocError, AllocFailed};
use thiserror::Error;

/// The source or the sink has failed.
#[derive(Clone, Copy, PartialEq, Eq)]
pub struct Failed;

/// Why a source doesn't answer.
#[derive(Clone, Copy, Debug, Drop, Error)]
pub enum SrcFault {
    #[error("out of memory")]
    NoMemory,
    /// The source has failed, and has counted it.
    #[error("the source has failed")]
    Failed,
}

impl From<NoMemory> for SrcFault {
    ghost use Rattle.std.specs.Prelude.{◌≡◌};
    ghost use Rattle.mi_source.specs.declared.fault.SrcFault.TheVariants.{NoMemory as no_memory};

    ghost from_gives = { λ _ e. e ≡ no_memory };

    fn from(_e: NoMemory) -> SrcFault {
        SrcFault::NoMemory
    }
}

impl From<AllocError> for SrcFault {
    ghost use Rattle.std.specs.Prelude.{◌≡◌};
    ghost use Rattle.mi_source.specs.declared.fault.SrcFault.TheVariants.{NoMemory as no_memory};

    ghost from_gives = { λ _ e. e ≡ no_memory };

    fn from(_e: AllocError) -> SrcFault {
        SrcFault::NoMemory
    }
}

impl<T: Drop> From<AllocFailed<T>> for SrcFault {
    ghost use Rattle.std.specs.Prelude.{◌≡◌};
    ghost use Rattle.mi_source.specs.declared.fault.SrcFault.TheVariants.{NoMemory as no_memory};

    ghost from_gives = { λ _ e. e ≡ no_memory };

    fn from(_e: AllocFailed<T>) -> SrcFault {
        SrcFault::NoMemory
    }
}
