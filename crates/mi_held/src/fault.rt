//! What a volume answers where a call of the system has failed.

ghost use Rattle.std.specs.Prelude.{◌≡◌, ◌↔◌};

use mi_disk::Trouble;
use mi_volume::VolFault;

/// What a volume answers where a read of a folder or a file has failed so (this project's own): want of memory is told as
/// such, and all else is a failure of the volume.
pub fn fault_of(trouble: Trouble) -> VolFault
    ensures { (result ≡ VolFault.NoMemory) ↔ (trouble ≡ Trouble.NoMemory) }
{
    match trouble {
        Trouble::NoMemory => VolFault::NoMemory,
        Trouble::Absent | Trouble::Strange | Trouble::Failed => VolFault::Failed,
    }
}
