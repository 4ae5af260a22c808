//! Why a run stops before its end.

ghost use Rattle.std.specs.Prelude.{◌≡◌};
ghost use Rattle.mi_commands.specs.declared.stop.Stop.TheVariants.{NoMemory as no_memory};

use mi_base::{Cause, NoMemory};
use mi_schema::LoadError;
use std::alloc::{AllocError, AllocFailed};

/// Why a run stops.
#[derive(Drop)]
pub enum Stop {
    NoMemory,
    Refuse(Cause),
}

impl From<NoMemory> for Stop {
    ghost from_gives = { λ _ e. e ≡ no_memory };

    fn from(_e: NoMemory) -> Stop {
        Stop::NoMemory
    }
}

impl From<AllocError> for Stop {
    ghost from_gives = { λ _ e. e ≡ no_memory };

    fn from(_e: AllocError) -> Stop {
        Stop::NoMemory
    }
}

impl<T: Drop> From<AllocFailed<T>> for Stop {
    ghost from_gives = { λ _ e. e ≡ no_memory };

    fn from(_e: AllocFailed<T>) -> Stop {
        Stop::NoMemory
    }
}

impl From<LoadError> for Stop {
    ghost use Rattle.std.specs.Prelude.{◌≡◌};
    ghost use Rattle.mi_commands.specs.Calls.{stop_of};

    ghost from_gives = { λ error e. e ≡ stop_of error };

    fn from(error: LoadError) -> Stop {
        match error {
            LoadError::NoMemory => Stop::NoMemory,
            LoadError::Source => Stop::Refuse(Cause::SourceFault),
            LoadError::Table(fault) => Stop::Refuse(Cause::Table(fault)),
        }
    }
}
