//! Going back.

ghost use Rattle.std.specs.Prelude.{◌≡◌, ◌≢◌, ◌+◌, ◌-◌, take, drop, true, false, [], List, ℕ, Option, Some, None, length, ◌<◌, ◌≤◌, IfErr, IsErrOf, OnOk, OnErr};
ghost use Rattle.std.specs.FinMap.{get};
ghost use Rattle.mi_volume.specs.Maps.{Map, size, HoldsByte, Fits, Exceeds, bytes_or_none};
ghost use Rattle.mi_volume.specs.State.{Passes, Rose, NothingDirty};
ghost use Rattle.mi_undo.specs.Names.{marker, is_inside};
ghost use Rattle.mi_undo.specs.Notes.{Note, note_of, are_new};
ghost use Rattle.mi_undo.specs.Stands.{outside, area_of};
ghost use Rattle.mi_undo.specs.Keeps.{Keeps};
ghost use Rattle.mi_undo.specs.Area.{notes_in, note_in, CanGoBack};
ghost use Rattle.mi_undo.specs.Clear.{AreInside, AreAll};
ghost use Rattle.mi_undo.specs.Answers.{GoesBack};
ghost use Rattle.mi_undo.specs.Back.{PutsOne, Removed, Returned, PutsBack, IsStuck, IsWithout, Shuts};
ghost use Rattle.mi_undo.specs.Steps.{IsWithin};
ghost use Rattle.mi_undo.specs.Room.{TakesAtMost, GoesOnWithRoom};

use crate::clear::clear_area;
use crate::fault::{BackFault, OpFault};
use crate::kept::{Kept, Place};
use crate::names::entry_of;
use crate::steps::{append_span, mark_synced, uncounted};
use mi_text::Name;
use mi_volume::{Failed, PIECE, Volume};
use std::alloc::Global;

/// Where putting back has ended: the place of the note, and why.
#[derive(Clone, Copy)]
pub(crate) struct Stuck {
    pub(crate) at: usize,
    pub(crate) fault: OpFault,
}

/// Removes all noted names.
fn remove_all<V: Volume>(vol: &mut V, places: &[Place]) -> Result<(), Failed>
    ensures removed { V.told → (F : Map) → Keeps (V.state vol.old) F (notes_in (V.state vol.old).held places.now) → Removed (V.state vol.old) (V.state vol.new) F (notes_in (V.state vol.old).held places.now) result }
    ensures passes { Passes (V.state vol.old) (V.state vol.new) }
    ensures fault { OnErr result (Rose (V.state vol.old) (V.state vol.new)) }
{
    for place in places {
        vol.remove(&place.name)?;
    }
    Ok(())
}

/// Puts the entry's bytes from `at` up to `end` back to the name, by pieces. It goes on by the bytes that
/// a read gave; if the volume counts a fault meanwhile they may lack some, and the call fails.
fn return_bytes<V: Volume>(
    alloc: Global,
    vol: &mut V,
    entry: &Name,
    at: u64,
    end: u64,
    name: &Name,
) -> Result<(), OpFault>
    ensures puts { V.told → entry.now ≢ name.now → PutsOne name.now (Some (take (end - at) (drop at (bytes_or_none (get (V.state vol.old).held entry.now))))) (V.state vol.old) (V.state vol.new) result }
    ensures passes { Passes (V.state vol.old) (V.state vol.new) }
    ensures fault { IsErrOf result OpFault.Fault → Rose (V.state vol.old) (V.state vol.new) }
    ensures uncounted { OnOk result ((V.state vol.new).faults ≤ (V.state vol.old).faults) }
    ensures told { IsErrOf result OpFault.Full → V.told }
{
    let faults = vol.faults();
    let first = end.saturating_sub(at).min(PIECE as u64);
    let bytes = vol.read(alloc, entry, at, first as usize)?;
    vol.put(alloc, name, bytes.as_slice())?;
    let rest = append_span(alloc, vol, entry, at + bytes.len() as u64, end, name);
    uncounted(vol, faults)?;
    rest
}

/// Puts the old bytes of a name back, which is away.
fn return_one<V: Volume>(alloc: Global, vol: &mut V, place: &Place) -> Result<(), OpFault>
    ensures puts { V.told → is_inside place.now.name ≡ false → get (V.state vol.old).held place.now.name ≡ None
        → PutsOne place.now.name (note_in (V.state vol.old).held place.now).was (V.state vol.old) (V.state vol.new) result }
    ensures passes { Passes (V.state vol.old) (V.state vol.new) }
    ensures fault { IsErrOf result OpFault.Fault → Rose (V.state vol.old) (V.state vol.new) }
    ensures told { IsErrOf result OpFault.Full → V.told }
{
    let Some(span) = place.old else {
        return Ok(());
    };
    let entry = entry_of(alloc, place.entry)?;
    return_bytes(alloc, vol, &entry, span.at, span.end, &place.name)
}

/// Puts the old bytes back, where all noted names are away.
fn return_all<V: Volume>(alloc: Global, vol: &mut V, places: &[Place]) -> Result<(), Stuck>
    ensures returned { V.told → (F : Map) (ns : List Note) → notes_in (V.state vol.old).held places.now ≡ ns → Keeps (V.state vol.old) F ns → are_new [] ns ≡ true
        → ((q : List ℕ) (w : Option (List ℕ)) → note_of ns q ≡ Some w → get (V.state vol.old).held q ≡ None)
        → Returned (V.state vol.old) (V.state vol.new) F ns result }
    ensures passes { Passes (V.state vol.old) (V.state vol.new) }
    ensures fault { IfErr result (λ s. s.fault ≡ OpFault.Fault → Rose (V.state vol.old) (V.state vol.new)) }
    ensures full { IfErr result (λ s. s.fault ≡ OpFault.Full → V.told × (s.at < length places.now)) }
    ensures stuck { V.told → (F : Map) (ns : List Note) → notes_in (V.state vol.old).held places.now ≡ ns → Keeps (V.state vol.old) F ns → are_new [] ns ≡ true
        → ((q : List ℕ) (w : Option (List ℕ)) → note_of ns q ≡ Some w → get (V.state vol.old).held q ≡ None)
        → IfErr result (λ s. s.fault ≡ OpFault.Full → IsStuck (V.state vol.old).capacity (V.state vol.old).held ns s.at) }
{
    for (at, place) in places.iter().enumerate() {
        if let Err(fault) = return_one(alloc, vol, place) {
            return Err(Stuck { at, fault });
        }
    }
    Ok(())
}

/// Puts every noted name back, on the disk.
pub(crate) fn put_back<V: Volume>(alloc: Global, vol: &mut V, places: &[Place]) -> Result<(), Stuck>
    ensures back { V.told → (F : Map) (ns : List Note) → notes_in (V.state vol.old).held places.now ≡ ns → Keeps (V.state vol.old) F ns → are_new [] ns ≡ true → PutsBack (V.state vol.old) (V.state vol.new) F ns result }
    ensures passes { Passes (V.state vol.old) (V.state vol.new) }
    ensures fault { IfErr result (λ s. s.fault ≡ OpFault.Fault → Rose (V.state vol.old) (V.state vol.new)) }
    ensures full { IfErr result (λ s. s.fault ≡ OpFault.Full → V.told × (s.at < length places.now)) }
    ensures stuck { V.told → (F : Map) (ns : List Note) → notes_in (V.state vol.old).held places.now ≡ ns → Keeps (V.state vol.old) F ns → are_new [] ns ≡ true
        → IfErr result (λ s. s.fault ≡ OpFault.Full → (base : Map) × (IsWithout ns (V.state vol.old).held base × IsStuck (V.state vol.old).capacity base ns s.at)) }
    ensures fits { V.told → OnOk result (IsWithin (V.state vol.new)) }
{
    if remove_all(vol, places).is_err() {
        return Err(Stuck {
            at: 0,
            fault: OpFault::Fault,
        });
    }
    return_all(alloc, vol, places)?;
    if vol.sync().is_err() {
        return Err(Stuck {
            at: 0,
            fault: OpFault::Fault,
        });
    }
    Ok(())
}

/// Shuts the marker, and takes the area away.
fn shut_area<V: Volume>(vol: &mut V, kept: &Kept) -> Result<(), Failed>
    requires { V.told → HoldsByte (V.state vol.old).held kept.now.marker }
    ensures shuts { V.told → (F : Map) (ns : List Note) → Keeps (V.state vol.old) F ns → NothingDirty (V.state vol.old) → outside (V.state vol.old).held ≡ F → kept.now.marker ≡ marker
        → AreInside kept.now.area.items → AreAll (V.state vol.old).held kept.now.area.items → Shuts (V.state vol.old) (V.state vol.new) F result }
    ensures passes { Passes (V.state vol.old) (V.state vol.new) }
    ensures fault { OnErr result (Rose (V.state vol.old) (V.state vol.new)) }
{
    mark_synced(vol, &kept.marker, 0)?;
    clear_area(vol, &kept.marker, &kept.area)
}

/// Puts every noted name back, and takes the area away. Faults that come once the old bytes are on
/// the disk are no fault.
pub(crate) fn back_area<V: Volume>(alloc: Global, vol: &mut V, kept: &Kept) -> Result<(), BackFault>
    requires { V.told → (F : Map) × CanGoBack (V.state vol.old) kept.now F }
    ensures back { V.told → (F : Map) → CanGoBack (V.state vol.old) kept.now F → GoesBack (V.state vol.old) (V.state vol.new) F result }
    ensures room { V.told → (F : Map) (n : ℕ) → CanGoBack (V.state vol.old) kept.now F → TakesAtMost n (V.state vol.old) → GoesOnWithRoom (V.state vol.old) (V.state vol.new) F n }
    ensures passes { Passes (V.state vol.old) (V.state vol.new) }
    ensures fault { IsErrOf result BackFault.Fault → Rose (V.state vol.old) (V.state vol.new) }
    ensures told { IsErrOf result BackFault.Full → V.told }
    ensures exceeds { V.told → (F : Map) → CanGoBack (V.state vol.old) kept.now F → IsErrOf result BackFault.Full → Exceeds (V.state vol.old).capacity (size F + size (area_of (V.state vol.old).held)) }
    ensures fits { V.told → (F : Map) → CanGoBack (V.state vol.old) kept.now F → OnOk result (Fits (V.state vol.old).capacity (size F + size (area_of (V.state vol.old).held))) }
{
    if let Err(stuck) = put_back(alloc, vol, &kept.places) {
        return Err(BackFault::from(stuck.fault));
    }
    let _ = shut_area(vol, kept);
    Ok(())
}
