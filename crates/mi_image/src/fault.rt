//! Why no image is read.

use mi_base::{Name, NoMemory};
use mi_volume::{Failed, VolFault};

/// Why a volume gives no image (this project's own).
#[derive(Drop)]
pub enum ImageError {
    NoMemory,
    /// The volume has failed, and counts it.
    Fault,
    /// The first held name, in byte order, that isn't spelled.
    BadImage(Name),
}

impl From<NoMemory> for ImageError {
    ghost use Rattle.std.specs.Prelude.{◌≡◌};
    ghost use Rattle.mi_image.specs.declared.fault.ImageError.TheVariants.{NoMemory as no_memory};

    ghost from_gives = { λ _ e. e ≡ no_memory };

    fn from(_e: NoMemory) -> ImageError {
        ImageError::NoMemory
    }
}

impl From<Failed> for ImageError {
    ghost use Rattle.std.specs.Prelude.{◌≡◌};
    ghost use Rattle.mi_image.specs.declared.fault.ImageError.TheVariants.{Fault as fault};

    ghost from_gives = { λ _ e. e ≡ fault };

    fn from(_e: Failed) -> ImageError {
        ImageError::Fault
    }
}

impl From<VolFault> for ImageError {
    ghost use Rattle.mi_image.specs.Faults.{volume_fault};
    ghost use Rattle.std.specs.Prelude.{◌≡◌};

    ghost from_gives = { λ v e. e ≡ volume_fault v };

    fn from(e: VolFault) -> ImageError {
        match e {
            VolFault::NoMemory => ImageError::NoMemory,
            VolFault::Failed => ImageError::Fault,
        }
    }
}
