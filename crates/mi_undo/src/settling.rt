//! Settling a volume.

ghost use Rattle.std.specs.Prelude.{◌≡◌, ◌<◌, true, false, List, ℕ, None, Ok, Err, IfOk, OnOk, IsErr, IsErrOf, IsSome, slice_index_or, length};
ghost use Rattle.std.specs.FinMap.{get};
ghost use Rattle.mi_volume.specs.Maps.{Map};
ghost use Rattle.mi_volume.specs.State.{NothingDirty, Passes, Rose, GoesOn};
ghost use Rattle.mi_undo.specs.Names.{marker, is_inside};
ghost use Rattle.mi_undo.specs.Notes.{Note, note_of};
ghost use Rattle.mi_undo.specs.Stands.{StandsFor, is_one, stands, noted, settled};
ghost use Rattle.mi_undo.specs.Keeps.{Each, IsFree};
ghost use Rattle.mi_undo.specs.Area.{notes_in, place_names};
ghost use Rattle.mi_undo.specs.Steps.{IsWithin};
ghost use Rattle.mi_undo.specs.Reading.{Looks};
ghost use Rattle.mi_undo.specs.Short.{IsShort};
ghost use Rattle.mi_undo.specs.Room.{ShortAs};
ghost use Rattle.mi_undo.specs.Settle.{IsRead, Undoes, Settles, IsSettling};
ghost use Rattle.mi_undo.specs.Answers.{IfBad, IfFull};

use crate::back::{Stuck, put_back};
use crate::fault::{OpFault, UndoError};
use crate::kept::Place;
use crate::names::marker_of;
use crate::read::{is_open, read_area};
use crate::steps::mark_synced;
use crate::sweep::clear_rest;
use crate::unread::remove_unread;
use mi_text::{Name, Settled};
use mi_volume::Volume;
use std::alloc::Global;

/// Why settling ends where putting back was stuck.
fn refused(alloc: Global, places: &[Place], stuck: Stuck) -> Result<(), UndoError>
    requires { stuck.fault ≡ OpFault.Full → stuck.at < length places.now }
    ensures refuses { IfOk result (λ x. ⊥) }
    ensures fault { IsErrOf result UndoError.Fault → stuck.fault ≡ OpFault.Fault }
    ensures never_bad { IfBad result (λ name. ⊥) }
    ensures full { IfFull result (λ name. (stuck.fault ≡ OpFault.Full) × (slice_index_or (place_names places.now) stuck.at name ≡ name)) }
{
    match stuck.fault {
        OpFault::NoMemory => Err(UndoError::NoMemory),
        OpFault::Fault => Err(UndoError::Fault),
        OpFault::Full => {
            let name = places[stuck.at].name.copy(alloc)?;
            Err(UndoError::Full(name))
        }
    }
}

/// Puts back what was read, and shuts the marker. The entries that weren't read go first, so that
/// there is room.
fn undo_read<V: Volume>(
    alloc: Global,
    vol: &mut V,
    marker_name: &Name,
    places: &[Place],
    entries: u32,
) -> Result<(), UndoError>
    requires name { marker_name.now ≡ marker }
    requires read { V.told → IsRead (V.state vol.old) places.now entries }
    requires within { V.told → IsWithin (V.state vol.old) }
    ensures undoes { V.told → (F : Map) → StandsFor F (V.state vol.old).held → Undoes (V.state vol.old) (V.state vol.new) F (notes_in (V.state vol.old).held places.now) result }
    ensures passes { Passes (V.state vol.old) (V.state vol.new) }
    ensures fault { IsErrOf result UndoError.Fault → Rose (V.state vol.old) (V.state vol.new) }
    ensures never_bad { IfBad result (λ name. ⊥) }
    ensures full { IfFull result (λ name. V.told × IsSome (V.state vol.old).capacity × IsShort (V.state vol.old).capacity (V.state vol.old).held name) }
    ensures short { V.told → (name : List ℕ) → IsShort (V.state vol.old).capacity (V.state vol.old).held name → IsErr result }
{
    remove_unread(alloc, vol, entries)?;
    if let Err(stuck) = put_back(alloc, vol, places) {
        return refused(alloc, places, stuck);
    }
    mark_synced(vol, marker_name, 0)?;
    Ok(())
}

/// Settles a volume whose marker is open.
fn settle_open<V: Volume>(
    alloc: Global,
    vol: &mut V,
    marker_name: &Name,
) -> Result<Settled, UndoError>
    requires name { marker_name.now ≡ marker }
    requires clean { V.told → NothingDirty (V.state vol.old) }
    requires within { V.told → IsWithin (V.state vol.old) }
    requires marked { V.told → is_one (get (V.state vol.old).held marker) ≡ true }
    ensures settled { V.told → IfOk result (λ s. s ≡ settled (V.state vol.old).held) }
    ensures known { V.told → OnOk result ((F : Map) × StandsFor F (V.state vol.old).held) }
    ensures settles { V.told → (F : Map) → StandsFor F (V.state vol.old).held → Settles (V.state vol.old) (V.state vol.new) F result }
    ensures unread { V.told → (bad : List ℕ) → stands (V.state vol.old).held ≡ Err bad → Looks (V.state vol.old) (V.state vol.new) }
    ensures bad { V.told → IfBad result (λ bad. stands (V.state vol.old).held ≡ Err bad) }
    ensures passes { Passes (V.state vol.old) (V.state vol.new) }
    ensures fault { IsErrOf result UndoError.Fault → Rose (V.state vol.old) (V.state vol.new) }
    ensures full { IfFull result (λ name. V.told × IsSome (V.state vol.old).capacity × IsShort (V.state vol.old).capacity (V.state vol.old).held name) }
    ensures short { V.told → (name : List ℕ) → IsShort (V.state vol.old).capacity (V.state vol.old).held name → IsErr result }
{
    let (places, entries) = read_area(alloc, vol)?;
    undo_read(alloc, vol, marker_name, &places, entries)?;
    clear_rest(alloc, vol, marker_name)?;
    Ok(Settled::Undone(places.len() as u64))
}

/// Settles a volume of which nothing is dirty.
fn settle_synced<V: Volume>(
    alloc: Global,
    vol: &mut V,
    marker_name: &Name,
) -> Result<Settled, UndoError>
    requires name { marker_name.now ≡ marker }
    requires clean { V.told → NothingDirty (V.state vol.old) }
    requires within { V.told → IsWithin (V.state vol.old) }
    ensures settled { V.told → IfOk result (λ s. s ≡ settled (V.state vol.old).held) }
    ensures known { V.told → OnOk result ((F : Map) × StandsFor F (V.state vol.old).held) }
    ensures settles { V.told → (F : Map) → StandsFor F (V.state vol.old).held → Settles (V.state vol.old) (V.state vol.new) F result }
    ensures unread { V.told → (bad : List ℕ) → stands (V.state vol.old).held ≡ Err bad → Looks (V.state vol.old) (V.state vol.new) }
    ensures bad { V.told → IfBad result (λ bad. stands (V.state vol.old).held ≡ Err bad) }
    ensures passes { Passes (V.state vol.old) (V.state vol.new) }
    ensures fault { IsErrOf result UndoError.Fault → Rose (V.state vol.old) (V.state vol.new) }
    ensures full { IfFull result (λ name. V.told × IsSome (V.state vol.old).capacity × IsShort (V.state vol.old).capacity (V.state vol.old).held name) }
    ensures short { V.told → (name : List ℕ) → IsShort (V.state vol.old).capacity (V.state vol.old).held name → IsErr result }
{
    if is_open(alloc, vol, marker_name)? {
        return settle_open(alloc, vol, marker_name);
    }
    clear_rest(alloc, vol, marker_name)?;
    Ok(Settled::Clean)
}

/// Makes the volume what it stands for, with no rollback area (this project's own). It may be stopped
/// at any moment, and called again after any answer. Fault comes only where the volume's count rose.
/// BadRollback names the first entry that is read and absent or not spelled; all stays as it was then.
/// Full names the first noted name at which the old bytes, in the order of the notes, pass the capacity
/// beside what is held otherwise; where there is such a name, the answer is an error. Where nothing is
/// dirty at its start, a crash leaves no other name at which that is so.
pub fn settle<V: Volume>(alloc: Global, vol: &mut V) -> Result<Settled, UndoError>
    ensures settles { V.told → IsSettling (V.state vol.old) (V.state vol.new) result }
    ensures settled { V.told → IfOk result (λ s. s ≡ settled (V.state vol.old).held) }
    ensures free { V.told → IfOk result (λ s. IsFree (V.state vol.new)) }
    ensures value { V.told → IfOk result (λ s. stands (V.state vol.old).held ≡ Ok (V.state vol.new).held) }
    ensures stops { V.told → NothingDirty (V.state vol.old) → (F : Map) → stands (V.state vol.old).held ≡ Ok F → GoesOn (V.state vol.old) (V.state vol.new) (StandsFor F) }
    ensures leaves { V.told → NothingDirty (V.state vol.old) → (F : Map) → stands (V.state vol.old).held ≡ Ok F → Each (V.state vol.new) (StandsFor F) }
    ensures room { V.told → NothingDirty (V.state vol.old) → GoesOn (V.state vol.old) (V.state vol.new) (ShortAs (V.state vol.old).capacity (V.state vol.old).held) }
    ensures again { V.told → (F : Map) → stands (V.state vol.old).held ≡ Ok F → StandsFor F (V.state vol.new).held }
    ensures others { V.told → (F : Map) (ns : List Note) → stands (V.state vol.old).held ≡ Ok F → noted (V.state vol.old).held ≡ Ok ns → (q : List ℕ) → is_inside q ≡ false → note_of ns q ≡ None → get (V.state vol.new).held q ≡ get F q }
    ensures unread { V.told → NothingDirty (V.state vol.old) → (bad : List ℕ) → stands (V.state vol.old).held ≡ Err bad → GoesOn (V.state vol.old) (V.state vol.new) (λ d. d ≡ (V.state vol.old).held) }
    ensures unread_stays { V.told → (bad : List ℕ) → stands (V.state vol.old).held ≡ Err bad → (V.state vol.new).held ≡ (V.state vol.old).held }
    ensures unread_leaves { V.told → NothingDirty (V.state vol.old) → (bad : List ℕ) → stands (V.state vol.old).held ≡ Err bad → Each (V.state vol.new) (λ d. d ≡ (V.state vol.old).held) }
    ensures bad { V.told → IfBad result (λ bad. stands (V.state vol.old).held ≡ Err bad) }
    ensures passes { Passes (V.state vol.old) (V.state vol.new) }
    ensures fault { IsErrOf result UndoError.Fault → Rose (V.state vol.old) (V.state vol.new) }
    ensures full { IfFull result (λ name. V.told × IsSome (V.state vol.old).capacity × IsShort (V.state vol.old).capacity (V.state vol.old).held name) }
    ensures short { V.told → (name : List ℕ) → IsShort (V.state vol.old).capacity (V.state vol.old).held name → IsErr result }
{
    let marker_name = marker_of(alloc)?;
    vol.sync()?;
    settle_synced(alloc, vol, &marker_name)
}
