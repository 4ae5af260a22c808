//! Whether a run was stopped on a volume.

ghost use Rattle.std.specs.Prelude.{◌≡◌, Some, IfOk, IsErrOf};
ghost use Rattle.std.specs.FinMap.{get};
ghost use Rattle.mi_volume.specs.State.{Passes, Rose};
ghost use Rattle.mi_image.specs.Looks.{OnlyLooks};
ghost use Rattle.mi_undo.specs.Names.{marker};
ghost use Rattle.mi_undo.specs.Stands.{is_one};

use mi_base::{Name, NameError, NoMemory};
use mi_volume::{VolFault, Volume};
use std::alloc::Global;

// The name of the marker of a rollback area.
fn marker_of(alloc: Global) -> Result<Name, NoMemory>
    ensures { IfOk result (λ name. name ≡ marker) }
{
    match Name::of(alloc, "j/m") {
        Ok(name) => Ok(name),
        Err(NameError::Length) => unreachable!(),
        Err(NameError::NoMemory) => Err(NoMemory),
    }
}

// Whether these bytes are those of an open marker: the byte 1 alone.
fn is_open(bytes: &[u8]) -> bool
    ensures { result ≡ is_one (Some bytes.now) }
{
    bytes == [1].as_slice()
}

/// Whether a run was stopped on this volume, so that the next command puts back what it had changed: the marker of its
/// rollback area is open. Nothing is changed (this project's own).
pub fn is_waiting<V: Volume>(alloc: Global, vol: &mut V) -> Result<bool, VolFault>
    ensures value { V.told → IfOk result (λ b. b ≡ is_one (get (V.state vol.old).held marker)) }
    ensures looks { V.told → OnlyLooks (V.state vol.old) (V.state vol.new) }
    ensures passes { Passes (V.state vol.old) (V.state vol.new) }
    ensures fault { IsErrOf result VolFault.Failed → Rose (V.state vol.old) (V.state vol.new) }
{
    let name = marker_of(alloc)?;
    let bytes = vol.read(alloc, &name, 0, 2)?;
    Ok(is_open(bytes.as_slice()))
}
