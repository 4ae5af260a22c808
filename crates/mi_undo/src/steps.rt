//! Calls of a volume that go together.

ghost use Rattle.std.specs.Prelude.{◌≡◌, ◌≢◌, ◌⊎◌, ◌≤◌, ◌<◌, ◌-◌, ◌++◌, List, ℕ, Some, take, drop, length, IsErrOf, OnOk, OnErr};
ghost use Rattle.std.specs.FinMap.{get, insert};
ghost use Rattle.mi_volume.specs.Maps.{HoldsByte, Fits, Exceeds, size, bytes_or_none};
ghost use Rattle.mi_volume.specs.State.{Passes, Rose, Stays};
ghost use Rattle.mi_undo.specs.Steps.{HoldsNoMore, Adds, Seals, SealsByte, IsWithin};

use crate::fault::OpFault;
use mi_text::Name;
use mi_volume::{Failed, PIECE, Volume};
use std::alloc::Global;

/// Gives the name these bytes, and syncs.
pub(crate) fn put_synced<V: Volume>(
    alloc: Global,
    vol: &mut V,
    name: &Name,
    bytes: &[u8],
) -> Result<(), OpFault>
    requires { length bytes.now ≤ PIECE }
    ensures seals { V.told → Seals name.now bytes.now (V.state vol.old) (V.state vol.new) result }
    ensures most { V.told → HoldsNoMore name.now (length bytes.now) (V.state vol.old) (V.state vol.new) }
    ensures passes { Passes (V.state vol.old) (V.state vol.new) }
    ensures fault { IsErrOf result OpFault.Fault → Rose (V.state vol.old) (V.state vol.new) }
    ensures stays { V.told → IsErrOf result OpFault.NoMemory ⊎ IsErrOf result OpFault.Full → Stays (V.state vol.old) (V.state vol.new) }
    ensures full { IsErrOf result OpFault.Full → V.told × Exceeds (V.state vol.old).capacity (size (insert (V.state vol.old).held name.now bytes.now)) }
    ensures fits { V.told → OnOk result (Fits (V.state vol.old).capacity (size (insert (V.state vol.old).held name.now bytes.now))) }
{
    vol.put(alloc, name, bytes)?;
    vol.sync()?;
    Ok(())
}

/// Replaces the one byte of the name, and syncs.
pub(crate) fn mark_synced<V: Volume>(vol: &mut V, name: &Name, byte: u8) -> Result<(), Failed>
    requires { V.told → HoldsByte (V.state vol.old).held name.now }
    ensures seals { V.told → SealsByte name.now byte (V.state vol.old) (V.state vol.new) result }
    ensures passes { Passes (V.state vol.old) (V.state vol.new) }
    ensures fault { OnErr result (Rose (V.state vol.old) (V.state vol.new)) }
{
    vol.mark(name, byte)?;
    vol.sync()?;
    Ok(())
}

/// A fault, if the volume has counted one since it had counted so many: what it gave in between may lack bytes.
pub(crate) fn uncounted<V: Volume>(vol: &V, faults: u64) -> Result<(), Failed>
    ensures counted { OnErr result (faults < (V.state vol.now).faults) }
    ensures uncounted { OnOk result ((V.state vol.now).faults ≤ faults) }
{
    if vol.faults() > faults {
        Err(Failed)
    } else {
        Ok(())
    }
}

/// Adds the bytes of `from`, from `at` up to `end`, at the end of `to`, by pieces. It goes on by the
/// bytes that a read gave, and ends when a read gives none, whatever length was stated.
pub(crate) fn append_span<V: Volume>(
    alloc: Global,
    vol: &mut V,
    from: &Name,
    at: u64,
    end: u64,
    to: &Name,
) -> Result<(), OpFault>
    ensures adds { V.told → from.now ≢ to.now → (before : List ℕ) → get (V.state vol.old).held to.now ≡ Some before
        → Adds to.now before (take (end - at) (drop at (bytes_or_none (get (V.state vol.old).held from.now)))) (V.state vol.old) (V.state vol.new) result }
    ensures passes { Passes (V.state vol.old) (V.state vol.new) }
    ensures fault { IsErrOf result OpFault.Fault → Rose (V.state vol.old) (V.state vol.new) }
    ensures told { IsErrOf result OpFault.Full → V.told }
    ensures fits { V.told → IsWithin (V.state vol.old) → OnOk result (IsWithin (V.state vol.new)) }
{
    let mut at = at;
    while at < end {
        let want = (end - at).min(PIECE as u64);
        let bytes = vol.read(alloc, from, at, want as usize)?;
        if bytes.is_empty() {
            return Ok(());
        }
        vol.append(alloc, to, bytes.as_slice())?;
        at += bytes.len() as u64;
    }
    Ok(())
}
