//! Gathering an entry's bytes up to a piece before they are written, so that many small notes take one call of the volume.

ghost use Rattle.std.specs.Prelude.{◌≡◌, ◌≢◌, ◌+◌, ◌≤◌, [], List, ℕ, Some, length, take, IfOk, OnOk, IsErrOf};
ghost use Rattle.std.specs.FinMap.{get};
ghost use Rattle.mi_volume.specs.Maps.{bytes_or_none};
ghost use Rattle.mi_volume.specs.State.{Passes, Rose};
ghost use Rattle.mi_undo.specs.Notes.{old_bytes};
ghost use Rattle.mi_undo.specs.Entry.{Gathers};
ghost use Rattle.mi_undo.specs.Reading.{Looks};

use crate::fault::OpFault;
use crate::steps::append_span;
use mi_text::{Bytes, Name};
use mi_volume::{PIECE, VolFault, Volume};
use std::alloc::Global;

/// Writes what is pending where so many bytes more would make it longer than a piece. Nothing is
/// pending then.
pub(crate) fn make_room<V: Volume>(
    alloc: Global,
    vol: &mut V,
    entry: &Name,
    pending: &mut Bytes,
    more: usize,
) -> Result<(), OpFault>
    requires pending { length pending.old ≤ PIECE }
    requires more { more ≤ PIECE }
    ensures gathers { V.told → (before : List ℕ) → get (V.state vol.old).held entry.now ≡ Some before
        → Gathers entry.now before pending.old [] pending.new (V.state vol.old) (V.state vol.new) result }
    ensures room { OnOk result (length pending.new + more ≤ PIECE) }
    ensures passes { Passes (V.state vol.old) (V.state vol.new) }
    ensures fault { IsErrOf result OpFault.Fault → Rose (V.state vol.old) (V.state vol.new) }
    ensures told { IsErrOf result OpFault.Full → V.told }
{
    if pending.len() + more <= PIECE {
        return Ok(());
    }
    vol.append(alloc, entry, pending.as_slice())?;
    *pending = Bytes::new(alloc);
    Ok(())
}

/// Adds bytes behind what is pending.
pub(crate) fn gather<V: Volume>(
    alloc: Global,
    vol: &mut V,
    entry: &Name,
    pending: &mut Bytes,
    bytes: &[u8],
) -> Result<(), OpFault>
    requires pending { length pending.old ≤ PIECE }
    requires piece { length bytes.now ≤ PIECE }
    ensures gathers { V.told → (before : List ℕ) → get (V.state vol.old).held entry.now ≡ Some before
        → Gathers entry.now before pending.old bytes.now pending.new (V.state vol.old) (V.state vol.new) result }
    ensures short { OnOk result (length pending.new ≤ PIECE) }
    ensures passes { Passes (V.state vol.old) (V.state vol.new) }
    ensures fault { IsErrOf result OpFault.Fault → Rose (V.state vol.old) (V.state vol.new) }
    ensures told { IsErrOf result OpFault.Full → V.told }
{
    make_room(alloc, vol, entry, pending, bytes.len())?;
    pending.extend(bytes)?;
    Ok(())
}

/// The first `len` bytes that the name holds, or all if there are fewer. It goes on by the bytes that a
/// read gave, and ends when a read gives none, whatever length was stated.
fn read_piece<V: Volume>(
    alloc: Global,
    vol: &mut V,
    name: &Name,
    len: usize,
) -> Result<Bytes, VolFault>
    requires { len ≤ PIECE }
    ensures value { V.told → IfOk result (λ bytes. bytes ≡ take len (bytes_or_none (get (V.state vol.old).held name.now))) }
    ensures short { IfOk result (λ bytes. length bytes ≤ len) }
    ensures looks { V.told → Looks (V.state vol.old) (V.state vol.new) }
    ensures passes { Passes (V.state vol.old) (V.state vol.new) }
    ensures fault { IsErrOf result VolFault.Failed → Rose (V.state vol.old) (V.state vol.new) }
{
    let mut bytes = vol.read(alloc, name, 0, len)?;
    while bytes.len() < len {
        let piece = vol.read(alloc, name, bytes.len() as u64, len - bytes.len())?;
        if piece.is_empty() {
            return Ok(bytes);
        }
        bytes.extend(piece.as_slice())?;
    }
    Ok(bytes)
}

/// Adds the name's bytes, of which there are so many and no more than a piece, behind what is pending.
fn gather_piece<V: Volume>(
    alloc: Global,
    vol: &mut V,
    entry: &Name,
    pending: &mut Bytes,
    name: &Name,
    len: usize,
) -> Result<(), OpFault>
    requires pending { length pending.old ≤ PIECE }
    requires piece { len ≤ PIECE }
    ensures gathers { V.told → len ≡ length (old_bytes (get (V.state vol.old).held name.now)) → (before : List ℕ) → get (V.state vol.old).held entry.now ≡ Some before
        → Gathers entry.now before pending.old (old_bytes (get (V.state vol.old).held name.now)) pending.new (V.state vol.old) (V.state vol.new) result }
    ensures short { OnOk result (length pending.new ≤ PIECE) }
    ensures passes { Passes (V.state vol.old) (V.state vol.new) }
    ensures fault { IsErrOf result OpFault.Fault → Rose (V.state vol.old) (V.state vol.new) }
    ensures told { IsErrOf result OpFault.Full → V.told }
{
    let old = read_piece(alloc, vol, name, len)?;
    gather(alloc, vol, entry, pending, old.as_slice())
}

/// Adds the name's bytes, of which there are so many, at the end of the entry, by pieces, behind
/// what is pending.
fn append_old<V: Volume>(
    alloc: Global,
    vol: &mut V,
    entry: &Name,
    pending: &mut Bytes,
    name: &Name,
    len: u64,
) -> Result<(), OpFault>
    requires pending { length pending.old ≤ PIECE }
    ensures gathers { V.told → entry.now ≢ name.now → len ≡ length (old_bytes (get (V.state vol.old).held name.now)) → (before : List ℕ) → get (V.state vol.old).held entry.now ≡ Some before
        → Gathers entry.now before pending.old (old_bytes (get (V.state vol.old).held name.now)) pending.new (V.state vol.old) (V.state vol.new) result }
    ensures short { OnOk result (length pending.new ≤ PIECE) }
    ensures passes { Passes (V.state vol.old) (V.state vol.new) }
    ensures fault { IsErrOf result OpFault.Fault → Rose (V.state vol.old) (V.state vol.new) }
    ensures told { IsErrOf result OpFault.Full → V.told }
{
    make_room(alloc, vol, entry, pending, PIECE)?;
    append_span(alloc, vol, name, 0, len, entry)
}

/// Adds the name's bytes, of which there are so many, behind what is pending. Where they are more
/// than a piece, they are written at once, and never held in memory as a whole.
pub(crate) fn gather_old<V: Volume>(
    alloc: Global,
    vol: &mut V,
    entry: &Name,
    pending: &mut Bytes,
    name: &Name,
    len: u64,
) -> Result<(), OpFault>
    requires pending { length pending.old ≤ PIECE }
    ensures gathers { V.told → entry.now ≢ name.now → len ≡ length (old_bytes (get (V.state vol.old).held name.now)) → (before : List ℕ) → get (V.state vol.old).held entry.now ≡ Some before
        → Gathers entry.now before pending.old (old_bytes (get (V.state vol.old).held name.now)) pending.new (V.state vol.old) (V.state vol.new) result }
    ensures short { OnOk result (length pending.new ≤ PIECE) }
    ensures passes { Passes (V.state vol.old) (V.state vol.new) }
    ensures fault { IsErrOf result OpFault.Fault → Rose (V.state vol.old) (V.state vol.new) }
    ensures told { IsErrOf result OpFault.Full → V.told }
{
    if len == 0 {
        return Ok(());
    }
    if len > PIECE as u64 {
        return append_old(alloc, vol, entry, pending, name, len);
    }
    gather_piece(alloc, vol, entry, pending, name, len as usize)
}
