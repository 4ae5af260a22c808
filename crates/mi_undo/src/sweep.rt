//! Taking away whatever is inside the area.

ghost use Rattle.std.specs.Prelude.{◌≡◌, true, OnErr, IsErrOf};
ghost use Rattle.mi_volume.specs.Maps.{Map};
ghost use Rattle.mi_volume.specs.State.{Passes, Rose};
ghost use Rattle.mi_undo.specs.Names.{marker, is_inside};
ghost use Rattle.mi_undo.specs.Clear.{IsShut, Clears};
ghost use Rattle.mi_undo.specs.Sweep.{IsAway, Sweeps, Swept};
ghost use Rattle.mi_undo.specs.Answers.{IfBad, IfFull};

use crate::clear::clear_marker;
use crate::fault::UndoError;
use crate::names::{is_within, top_of};
use mi_text::Name;
use mi_volume::{Failed, Volume};
use std::alloc::Global;

/// Removes this name of the area, unless it is the marker.
fn sweep_name<V: Volume>(vol: &mut V, marker_name: &Name, name: &Name) -> Result<(), Failed>
    ensures sweeps { V.told → (A : Map) → marker_name.now ≡ marker → is_inside name.now ≡ true → IsShut (V.state vol.old) A → Sweeps (V.state vol.old) (V.state vol.new) A name.now result }
    ensures passes { Passes (V.state vol.old) (V.state vol.new) }
    ensures fault { OnErr result (Rose (V.state vol.old) (V.state vol.new)) }
{
    if name == marker_name {
        return Ok(());
    }
    vol.remove(name)
}

/// Removes the names of the area above this one, in their order, but not the marker.
fn sweep_above<V: Volume>(
    alloc: Global,
    vol: &mut V,
    marker_name: &Name,
    top: Name,
) -> Result<(), UndoError>
    requires { is_inside top ≡ true }
    ensures swept { V.told → (A : Map) → marker_name.now ≡ marker → IsShut (V.state vol.old) A → IsAway (V.state vol.old).held top → Swept (V.state vol.old) (V.state vol.new) A result }
    ensures passes { Passes (V.state vol.old) (V.state vol.new) }
    ensures fault { IsErrOf result UndoError.Fault → Rose (V.state vol.old) (V.state vol.new) }
    ensures never_bad { IfBad result (λ name. ⊥) }
    ensures never_full { IfFull result (λ name. ⊥) }
{
    let mut after = top;
    for _ in 0..u64::MAX {
        let found = vol.next(alloc, Some(&after));
        drop(after);
        let Some(name) = found? else {
            return Ok(());
        };
        if !is_within(&name) {
            drop(name);
            return Ok(());
        }
        let Ok(()) = sweep_name(vol, marker_name, &name) else {
            drop(name);
            return Err(UndoError::Fault);
        };
        after = name;
    }
    drop(after);
    Err(UndoError::NoMemory)
}

/// Takes away whatever is inside the area, and the marker last.
pub(crate) fn clear_rest<V: Volume>(
    alloc: Global,
    vol: &mut V,
    marker_name: &Name,
) -> Result<(), UndoError>
    ensures clears { V.told → (A : Map) → marker_name.now ≡ marker → IsShut (V.state vol.old) A → Clears (V.state vol.old) (V.state vol.new) A result }
    ensures passes { Passes (V.state vol.old) (V.state vol.new) }
    ensures fault { IsErrOf result UndoError.Fault → Rose (V.state vol.old) (V.state vol.new) }
    ensures never_bad { IfBad result (λ name. ⊥) }
    ensures never_full { IfFull result (λ name. ⊥) }
{
    let top = top_of(alloc)?;
    sweep_name(vol, marker_name, &top)?;
    sweep_above(alloc, vol, marker_name, top)?;
    clear_marker(vol, marker_name)?;
    Ok(())
}
