//! Removing the entries that aren't read.

ghost use Rattle.std.specs.Prelude.{◌≡◌, List, ℕ, None, OnOk, OnErr, IsErrOf};
ghost use Rattle.std.specs.FinMap.{get};
ghost use Rattle.mi_volume.specs.Maps.{Map};
ghost use Rattle.mi_volume.specs.State.{Passes, Rose};
ghost use Rattle.mi_undo.specs.Notes.{Note};
ghost use Rattle.mi_undo.specs.Reading.{IsUnread, Spare, Spares};
ghost use Rattle.mi_undo.specs.Answers.{IfBad, IfFull};

use crate::fault::UndoError;
use crate::names::{entries_of, entry_number, is_entry_like};
use mi_text::Name;
use mi_volume::{Failed, Volume};
use std::alloc::Global;

/// Removes this name, where it is that of an entry from this number on.
fn remove_entry<V: Volume>(vol: &mut V, entries: u32, name: &Name) -> Result<(), Failed>
    ensures spares { V.told → (F : Map) (ns : List Note) → Spare (V.state vol.old) F ns entries → Spares (V.state vol.old) (V.state vol.new) F ns entries }
    ensures away { V.told → OnOk result (IsUnread entries name.now → get (V.state vol.new).held name.now ≡ None) }
    ensures still { V.told → OnOk result ((q : List ℕ) → get (V.state vol.old).held q ≡ None → get (V.state vol.new).held q ≡ None) }
    ensures passes { Passes (V.state vol.old) (V.state vol.new) }
    ensures fault { OnErr result (Rose (V.state vol.old) (V.state vol.new)) }
{
    let Some(number) = entry_number(name) else {
        return Ok(());
    };
    if number < entries {
        return Ok(());
    }
    vol.remove(name)
}

/// Removes the entries from this number on and no other name; their gates stay.
pub(crate) fn remove_unread<V: Volume>(
    alloc: Global,
    vol: &mut V,
    entries: u32,
) -> Result<(), UndoError>
    ensures spares { V.told → (F : Map) (ns : List Note) → Spare (V.state vol.old) F ns entries → Spares (V.state vol.old) (V.state vol.new) F ns entries }
    ensures away { V.told → OnOk result ((q : List ℕ) → IsUnread entries q → get (V.state vol.new).held q ≡ None) }
    ensures passes { Passes (V.state vol.old) (V.state vol.new) }
    ensures fault { IsErrOf result UndoError.Fault → Rose (V.state vol.old) (V.state vol.new) }
    ensures never_bad { IfBad result (λ name. ⊥) }
    ensures never_full { IfFull result (λ name. ⊥) }
{
    let mut after = entries_of(alloc)?;
    for _ in 0..u64::MAX {
        let found = vol.next(alloc, Some(&after));
        drop(after);
        let Some(name) = found? else {
            return Ok(());
        };
        if !is_entry_like(&name) {
            drop(name);
            return Ok(());
        }
        let Ok(()) = remove_entry(vol, entries, &name) else {
            drop(name);
            return Err(UndoError::Fault);
        };
        after = name;
    }
    drop(after);
    Err(UndoError::NoMemory)
}
