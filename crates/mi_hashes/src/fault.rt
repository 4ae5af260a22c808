//! Why a file isn't hashed.

ghost use Rattle.std.specs.Prelude.{◌≡◌};
ghost use Rattle.mi_hashes.specs.Faults.{fault_of_volume, fault_of_source};
ghost use Rattle.mi_hashes.specs.declared.fault.HashError.TheVariants.{NoMemory as no_memory};

use mi_base::NoMemory;
use mi_source::SrcFault;
use mi_volume::VolFault;

/// Why the bytes of a file weren't hashed (this project's own).
#[derive(Clone, Copy)]
pub enum HashError {
    NoMemory,
    /// The source has failed, and counts it.
    Source,
    /// The volume has failed, and counts it.
    Volume,
}

impl From<NoMemory> for HashError {
    ghost from_gives = { λ _ e. e ≡ no_memory };

    fn from(_e: NoMemory) -> HashError {
        HashError::NoMemory
    }
}

impl From<VolFault> for HashError {
    ghost from_gives = { λ fault e. e ≡ fault_of_volume fault };

    fn from(fault: VolFault) -> HashError {
        match fault {
            VolFault::NoMemory => HashError::NoMemory,
            VolFault::Failed => HashError::Volume,
        }
    }
}

impl From<SrcFault> for HashError {
    ghost from_gives = { λ fault e. e ≡ fault_of_source fault };

    fn from(fault: SrcFault) -> HashError {
        match fault {
            SrcFault::NoMemory => HashError::NoMemory,
            SrcFault::Failed => HashError::Source,
        }
    }
}
