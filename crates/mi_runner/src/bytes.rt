//! Giving a noted name bytes, by pieces.

ghost use Rattle.std.specs.Prelude.{◌≡◌, ◌≢◌, ◌+◌, ◌-◌, ◌++◌, List, ℕ, Some, Contains, OnOk, length, take, drop};
ghost use Rattle.std.specs.FinMap.{get, insert};
ghost use Rattle.mi_volume.specs.Maps.{bytes_or_none};
ghost use Rattle.mi_undo.specs.Stands.{outside};
ghost use Rattle.mi_undo.specs.Area.{volume, noted_names, IsWorking};
ghost use Rattle.mi_undo.specs.declared.fault.OpFault.TheVariants as op;
ghost use Rattle.mi_runner.specs.Steps.{Writes};

use crate::piece::piece_at;
use mi_base::Name;
use mi_undo::{OpFault, Open};
use mi_volume::{PIECE, Volume};
use std::alloc::Global;

/// Gives a noted name exactly these bytes.
pub fn write_bytes<V: Volume>(
    alloc: Global,
    area: &mut Open<'_, V>,
    name: &Name,
    bytes: &[u8],
) -> Result<(), OpFault>
    requires working { IsWorking area.old }
    requires noted { Contains (noted_names area.old) name.now }
    ensures writes { Writes V.told V.state area.old area.new name.now (length name.now + length bytes.now) op.Fault op.Full result }
    ensures map { V.told → OnOk result ((V.state (volume area.new)).held ≡ insert (V.state (volume area.old)).held name.now bytes.now) }
{
    let first = piece_at(bytes, 0);
    area.put(alloc, name, first)?;
    let mut written = first.len();
    while written < bytes.len() {
        let piece = piece_at(bytes, written);
        area.append(alloc, name, piece)?;
        written += piece.len();
    }
    Ok(())
}

/// Adds the bytes of another name, from `at` up to `end`, at the end of a noted name. It goes on by the bytes that a read
/// gave, and ends when a read gives none, whatever length was stated.
pub fn append_held<V: Volume>(
    alloc: Global,
    area: &mut Open<'_, V>,
    name: &Name,
    from: &Name,
    at: u64,
    end: u64,
) -> Result<(), OpFault>
    requires working { IsWorking area.old }
    requires noted { Contains (noted_names area.old) name.now }
    requires other { from.now ≢ name.now }
    ensures writes { (before : List ℕ) → (V.told → get (V.state (volume area.old)).held name.now ≡ Some before)
        → Writes V.told V.state area.old area.new name.now (length name.now + (length before + (end - at))) op.Fault op.Full result }
    ensures map { V.told → (before : List ℕ) → get (V.state (volume area.old)).held name.now ≡ Some before
        → OnOk result ((V.state (volume area.new)).held ≡ insert (V.state (volume area.old)).held name.now (before ++ take (end - at) (drop at (bytes_or_none (get (V.state (volume area.old)).held from.now))))) }
{
    let mut at = at;
    while at < end {
        let want = (end - at).min(PIECE as u64);
        let bytes = area.read(alloc, from, at, want as usize)?;
        if bytes.is_empty() {
            return Ok(());
        }
        area.append(alloc, name, bytes.as_slice())?;
        at += bytes.len() as u64;
    }
    Ok(())
}
