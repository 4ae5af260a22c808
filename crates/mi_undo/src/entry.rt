//! Writing an entry.

ghost use Rattle.std.specs.Prelude.{true, ◌≡◌, ◌≢◌, ◌+◌, ◌^◌, ◌<◌, ◌≤◌, ◌++◌, ◌∷◌, List, ℕ, Some, [], length, unwrap_or, IfOk, OnOk, IsErrOf};
ghost use Rattle.std.specs.Option.{option_map};
ghost use Rattle.std.specs.FinMap.{get};
ghost use Rattle.mi_volume.specs.State.{Passes, Rose};
ghost use Rattle.mi_undo.specs.Notes.{text, head_bytes, old_bytes, notes_for};
ghost use Rattle.mi_undo.specs.Names.{is_inside};
ghost use Rattle.mi_undo.specs.Area.{AreOutside, place_names};
ghost use Rattle.mi_undo.specs.Entry.{note_for, placed_at, Gathers, WritesNote, WritesEntry};

use crate::fault::OpFault;
use crate::gather::{gather, gather_old, make_room};
use crate::kept::{Place, Span};
use crate::steps::uncounted;
use mi_text::{Bytes, Name, NoMemory};
use mi_volume::{PIECE, Volume};
use std::alloc::Global;

/// A byte, and a name with its length in front of it.
fn tagged(alloc: Global, tag: u8, name: &Name) -> Result<Bytes, NoMemory>
    ensures value { IfOk result (λ b. b ≡ tag ∷ text name.now) }
    ensures short { IfOk result (λ b. length b ≤ 1029) }
    ensures name { IfOk result (λ b. length name.now ≤ 1024) }
{
    let bytes = name.as_bytes();
    let mut head = Bytes::new(alloc);
    head.extend(&[tag])?;
    head.extend(&(bytes.len() as u32).to_be_bytes())?;
    head.extend(bytes)?;
    Ok(head)
}

/// A note's bytes before the old bytes, of which there are so many.
fn head_of(alloc: Global, name: &Name, len: Option<u64>) -> Result<Bytes, NoMemory>
    ensures value { IfOk result (λ b. b ≡ head_bytes name.now len) }
    ensures short { IfOk result (λ b. length b ≤ PIECE) }
    ensures name { IfOk result (λ b. length name.now ≤ 1024) }
{
    let Some(len) = len else {
        return tagged(alloc, 0, name);
    };
    let mut head = tagged(alloc, 1, name)?;
    head.extend(&len.to_be_bytes())?;
    Ok(head)
}

/// The place of a note whose head begins at `at`, and the end of the note.
fn place_at(
    alloc: Global,
    name: &Name,
    number: u32,
    at: u64,
    head: usize,
    len: Option<u64>,
) -> Result<(Place, u64), NoMemory>
    ensures place { IfOk result (λ p. p.0 ≡ record { name = name.now; entry = number; old = option_map (λ n. record { at = at + head; end = at + head + n }) len }) }
    ensures end_is { IfOk result (λ p. p.1 ≡ at + head + unwrap_or len 0) }
    ensures fits { IfOk result (λ p. unwrap_or len 0 < 2 ^ 64) }
{
    let name = name.copy(alloc)?;
    let Some(start) = at.checked_add(head as u64) else {
        return Err(NoMemory);
    };
    let Some(len) = len else {
        return Ok((
            Place {
                name,
                entry: number,
                old: None,
            },
            start,
        ));
    };
    let Some(end) = start.checked_add(len) else {
        return Err(NoMemory);
    };
    Ok((
        Place {
            name,
            entry: number,
            old: Some(Span { at: start, end }),
        },
        end,
    ))
}

/// Adds these bytes and then the name's behind what is pending of the entry.
fn gather_note<V: Volume>(
    alloc: Global,
    vol: &mut V,
    entry: &Name,
    pending: &mut Bytes,
    head: &[u8],
    name: &Name,
    len: u64,
) -> Result<(), OpFault>
    requires pending { length pending.old ≤ PIECE }
    requires head { length head.now ≤ PIECE }
    ensures gathers { V.told → entry.now ≢ name.now → len ≡ length (old_bytes (get (V.state vol.old).held name.now)) → (before : List ℕ) → get (V.state vol.old).held entry.now ≡ Some before
        → Gathers entry.now before pending.old (head.now ++ old_bytes (get (V.state vol.old).held name.now)) pending.new (V.state vol.old) (V.state vol.new) result }
    ensures short { OnOk result (length pending.new ≤ PIECE) }
    ensures passes { Passes (V.state vol.old) (V.state vol.new) }
    ensures fault { IsErrOf result OpFault.Fault → Rose (V.state vol.old) (V.state vol.new) }
    ensures told { IsErrOf result OpFault.Full → V.told }
{
    gather(alloc, vol, entry, pending, head)?;
    gather_old(alloc, vol, entry, pending, name, len)
}

/// Adds the note of a name, which begins at `at`, behind what is pending of the entry. Answers its
/// place and its end. If the volume counts a fault meanwhile the note may lack bytes, and the call fails.
fn write_note<V: Volume>(
    alloc: Global,
    vol: &mut V,
    entry: &Name,
    pending: &mut Bytes,
    number: u32,
    at: u64,
    name: &Name,
) -> Result<(Place, u64), OpFault>
    requires { length pending.old ≤ PIECE }
    ensures writes { V.told → entry.now ≢ name.now → (before : List ℕ) → get (V.state vol.old).held entry.now ≡ Some before
        → WritesNote entry.now before pending.old pending.new number at (note_for (V.state vol.old).held name.now) (V.state vol.old) (V.state vol.new) result }
    ensures short { OnOk result (length pending.new ≤ PIECE) }
    ensures name { IfOk result (λ r. r.0.name ≡ name.now) }
    ensures length { IfOk result (λ r. length name.now ≤ 1024) }
    ensures passes { Passes (V.state vol.old) (V.state vol.new) }
    ensures fault { IsErrOf result OpFault.Fault → Rose (V.state vol.old) (V.state vol.new) }
    ensures uncounted { OnOk result ((V.state vol.new).faults ≤ (V.state vol.old).faults) }
    ensures told { IsErrOf result OpFault.Full → V.told }
{
    let faults = vol.faults();
    let len = vol.size(name)?;
    let head = head_of(alloc, name, len)?;
    let placed = place_at(alloc, name, number, at, head.len(), len)?;
    gather_note(
        alloc,
        vol,
        entry,
        pending,
        head.as_slice(),
        name,
        len.unwrap_or(0),
    )?;
    uncounted(vol, faults)?;
    Ok(placed)
}

/// Writes the entry of these names, with the bytes that they hold. Answers their places.
pub(crate) fn write_entry<V: Volume>(
    alloc: Global,
    vol: &mut V,
    entry: &Name,
    number: u32,
    names: &[Name],
) -> Result<Vec<Place>, OpFault>
    ensures writes { V.told → is_inside entry.now ≡ true → AreOutside names.now → WritesEntry entry.now number (notes_for (V.state vol.old).held names.now) (V.state vol.old) (V.state vol.new) result }
    ensures names { IfOk result (λ v. place_names v.items ≡ names.now) }
    ensures passes { Passes (V.state vol.old) (V.state vol.new) }
    ensures fault { IsErrOf result OpFault.Fault → Rose (V.state vol.old) (V.state vol.new) }
    ensures told { IsErrOf result OpFault.Full → V.told }
{
    vol.put(alloc, entry, &[])?;
    let mut pending = Bytes::new(alloc);
    let mut places = Vec::new(alloc);
    let mut at = 0;
    for name in names {
        let (place, end) = write_note(alloc, vol, entry, &mut pending, number, at, name)?;
        places.push(place)?;
        at = end;
    }
    make_room(alloc, vol, entry, &mut pending, PIECE)?;
    Ok(places)
}
