//! The commit write.

ghost use Rattle.std.specs.Prelude.{◌≡◌, List, ℕ, IsErrOf};
ghost use Rattle.mi_volume.specs.Maps.{Map, HoldsByte};
ghost use Rattle.mi_volume.specs.State.{Passes, Rose, NothingDirty};
ghost use Rattle.mi_undo.specs.Names.{marker};
ghost use Rattle.mi_undo.specs.Notes.{Note};
ghost use Rattle.mi_undo.specs.Stands.{outside};
ghost use Rattle.mi_undo.specs.Keeps.{IsStanding};
ghost use Rattle.mi_undo.specs.Area.{Works};
ghost use Rattle.mi_undo.specs.Answers.{Commits, CountsRise, IfUnknown};
ghost use Rattle.mi_undo.specs.Commit.{Closes};
ghost use Rattle.mi_undo.specs.Room.{TakesAtMost, CommitsRoom};

use crate::clear::clear_area;
use crate::fault::CommitFault;
use crate::kept::Kept;
use crate::steps::mark_synced;
use mi_text::Name;
use mi_volume::Volume;

/// The commit write: from its start on a crash leaves what was before or what is held now, and
/// after Ok only that. Where it fails, the marker is opened again.
fn close_marker<V: Volume>(vol: &mut V, name: &Name) -> Result<(), CommitFault>
    requires { V.told → HoldsByte (V.state vol.old).held name.now }
    ensures closes { V.told → name.now ≡ marker → (F : Map) (parts : List (List Note)) → IsStanding (V.state vol.old) F parts → NothingDirty (V.state vol.old) → Closes (V.state vol.old) (V.state vol.new) F parts result }
    ensures passes { Passes (V.state vol.old) (V.state vol.new) }
    ensures not_before { IsErrOf result CommitFault.Before → ⊥ }
    ensures undoable { IsErrOf result CommitFault.Undoable → Rose (V.state vol.old) (V.state vol.new) }
    ensures unknown { IfUnknown result (CountsRise (V.state vol.old) (V.state vol.new)) }
{
    let first = vol.faults();
    if mark_synced(vol, name, 0).is_ok() {
        return Ok(());
    }
    let second = vol.faults();
    if mark_synced(vol, name, 1).is_ok() {
        return Err(CommitFault::Undoable);
    }
    Err(CommitFault::Unknown(first, second))
}

/// Syncs, closes the marker, and takes the area away, of which leftovers are no fault.
pub(crate) fn commit_area<V: Volume>(vol: &mut V, kept: &Kept) -> Result<(), CommitFault>
    requires { V.told → (F : Map) × Works (V.state vol.old) kept.now F }
    ensures commits { V.told → (F : Map) → Works (V.state vol.old) kept.now F → Commits (V.state vol.old) (V.state vol.new) kept.now F (outside (V.state vol.old).held) result }
    ensures room { V.told → (F : Map) (n : ℕ) → Works (V.state vol.old) kept.now F → TakesAtMost n (V.state vol.old) → CommitsRoom (V.state vol.old) (V.state vol.new) F n result }
    ensures passes { Passes (V.state vol.old) (V.state vol.new) }
    ensures before { IsErrOf result CommitFault.Before → Rose (V.state vol.old) (V.state vol.new) }
    ensures undoable { IsErrOf result CommitFault.Undoable → Rose (V.state vol.old) (V.state vol.new) }
    ensures unknown { IfUnknown result (CountsRise (V.state vol.old) (V.state vol.new)) }
{
    if vol.sync().is_err() {
        return Err(CommitFault::Before);
    }
    match close_marker(vol, &kept.marker) {
        Ok(()) => {
            let _ = clear_area(vol, &kept.marker, &kept.area);
            Ok(())
        }
        Err(fault) => Err(fault),
    }
}
