//! Why nothing is shown.

ghost use Rattle.std.specs.Prelude.{◌≡◌};
ghost use Rattle.mi_show.specs.Faults.{fault_of_image, fault_of_hash, fault_of_volume, of_image, of_side};
ghost use Rattle.mi_show.specs.declared.fault.ShowError.TheVariants.{NoMemory as no_memory};
ghost use Rattle.mi_show.specs.declared.fault.SideFault.TheVariants as side;

use mi_base::{Name, NoMemory};
use mi_hashes::HashError;
use mi_image::ImageError;
use mi_volume::VolFault;

/// Why a machine isn't shown (this project's own).
#[derive(Drop)]
pub enum ShowError {
    NoMemory,
    /// The volume has failed, and counts it.
    Fault,
    /// The first held name, in byte order, that isn't spelled.
    BadImage(Name),
}

impl From<NoMemory> for ShowError {
    ghost from_gives = { λ _ e. e ≡ no_memory };

    fn from(_e: NoMemory) -> ShowError {
        ShowError::NoMemory
    }
}

impl From<VolFault> for ShowError {
    ghost from_gives = { λ fault e. e ≡ fault_of_volume fault };

    fn from(fault: VolFault) -> ShowError {
        match fault {
            VolFault::NoMemory => ShowError::NoMemory,
            VolFault::Failed => ShowError::Fault,
        }
    }
}

impl From<ImageError> for ShowError {
    ghost from_gives = { λ error e. e ≡ fault_of_image error };

    fn from(error: ImageError) -> ShowError {
        match error {
            ImageError::NoMemory => ShowError::NoMemory,
            ImageError::Fault => ShowError::Fault,
            ImageError::BadImage(name) => ShowError::BadImage(name),
        }
    }
}

impl From<HashError> for ShowError {
    ghost from_gives = { λ error e. e ≡ fault_of_hash error };

    fn from(error: HashError) -> ShowError {
        match error {
            HashError::NoMemory => ShowError::NoMemory,
            HashError::Source | HashError::Volume => ShowError::Fault,
        }
    }
}

/// Why what differs between two machines isn't told (this project's own).
#[derive(Drop)]
pub enum DiffError {
    NoMemory,
    /// The volume has failed, and counts it.
    Fault,
    /// The first held name, in byte order, that isn't spelled.
    BadImage(Name),
    /// The volume that is compared with has failed, and counts it.
    OtherFault,
    /// The first name, in byte order, that the volume that is compared with holds and that isn't spelled.
    BadOther(Name),
}

impl From<ImageError> for DiffError {
    ghost from_gives = { λ error e. e ≡ of_image error };

    fn from(error: ImageError) -> DiffError {
        match error {
            ImageError::NoMemory => DiffError::NoMemory,
            ImageError::Fault => DiffError::Fault,
            ImageError::BadImage(name) => DiffError::BadImage(name),
        }
    }
}

/// What happened while two machines that were scanned were compared, and at which.
#[derive(Clone, Copy)]
pub enum SideFault {
    NoMemory,
    Fault,
    Other,
}

impl From<NoMemory> for SideFault {
    ghost from_gives = { λ _ e. e ≡ side.NoMemory };

    fn from(_e: NoMemory) -> SideFault {
        SideFault::NoMemory
    }
}

impl From<SideFault> for DiffError {
    ghost from_gives = { λ fault e. e ≡ of_side fault };

    fn from(fault: SideFault) -> DiffError {
        match fault {
            SideFault::NoMemory => DiffError::NoMemory,
            SideFault::Fault => DiffError::Fault,
            SideFault::Other => DiffError::OtherFault,
        }
    }
}
