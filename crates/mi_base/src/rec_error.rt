//! Why an entry has no record, or a record can't be read.

use mi_text::NoMemory;
use std::alloc::{AllocError, AllocFailed};
use thiserror::Error;

/// What is wrong with a record.
#[derive(Clone, Copy, Debug, PartialEq, Eq)]
pub enum RecFault {
    /// The bytes end early.
    Short,
    /// Bytes follow.
    Extra,
    /// A byte or name that isn't spelled.
    Field,
}

/// Why a record can't be read.
#[derive(Clone, Copy, Debug, Error)]
pub enum RecError {
    #[error("out of memory")]
    NoMemory,
    #[error("not a record of an entry: {0:?}")]
    Fault(RecFault),
}

impl From<NoMemory> for RecError {
    ghost use Rattle.std.specs.Prelude.{◌≡◌};
    ghost use Rattle.mi_base.specs.declared.rec_error.RecError.TheVariants.{NoMemory as no_memory};

    ghost from_gives = { λ _ e. e ≡ no_memory };

    fn from(_e: NoMemory) -> RecError {
        RecError::NoMemory
    }
}

impl From<AllocError> for RecError {
    ghost use Rattle.std.specs.Prelude.{◌≡◌};
    ghost use Rattle.mi_base.specs.declared.rec_error.RecError.TheVariants.{NoMemory as no_memory};

    ghost from_gives = { λ _ e. e ≡ no_memory };

    fn from(_e: AllocError) -> RecError {
        RecError::NoMemory
    }
}

impl<T: Drop> From<AllocFailed<T>> for RecError {
    ghost use Rattle.std.specs.Prelude.{◌≡◌};
    ghost use Rattle.mi_base.specs.declared.rec_error.RecError.TheVariants.{NoMemory as no_memory};

    ghost from_gives = { λ _ e. e ≡ no_memory };

    fn from(_e: AllocFailed<T>) -> RecError {
        RecError::NoMemory
    }
}

/// Why an entry has no record.
#[derive(Clone, Copy)]
pub enum EncError {
    NoMemory,
    /// A text, list, number or key breaks a limit or rule.
    Field,
}

impl From<NoMemory> for EncError {
    ghost use Rattle.std.specs.Prelude.{◌≡◌};
    ghost use Rattle.mi_base.specs.declared.rec_error.EncError.TheVariants.{NoMemory as no_memory};

    ghost from_gives = { λ _ e. e ≡ no_memory };

    fn from(_e: NoMemory) -> EncError {
        EncError::NoMemory
    }
}
