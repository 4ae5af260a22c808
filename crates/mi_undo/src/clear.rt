//! Taking the area away.

ghost use Rattle.std.specs.Prelude.{◌≡◌, [], List, ℕ, OnErr};
ghost use Rattle.mi_volume.specs.Maps.{Map};
ghost use Rattle.mi_volume.specs.State.{Passes, Rose};
ghost use Rattle.mi_undo.specs.Names.{marker};
ghost use Rattle.mi_undo.specs.Stands.{outside};
ghost use Rattle.mi_undo.specs.Clear.{IsShut, AreInside, AreAll, Cleared, Clears};

use mi_text::Name;
use mi_volume::{Failed, Volume};

/// Removes these names of the area.
fn clear_names<V: Volume>(vol: &mut V, names: &[Name]) -> Result<(), Failed>
    ensures cleared { V.told → (A : Map) → AreInside names.now → IsShut (V.state vol.old) A → Cleared (V.state vol.old) (V.state vol.new) A names.now result }
    ensures passes { Passes (V.state vol.old) (V.state vol.new) }
    ensures fault { OnErr result (Rose (V.state vol.old) (V.state vol.new)) }
{
    for name in names {
        vol.remove(name)?;
    }
    Ok(())
}

/// Puts on the disk that the other names are away, and then removes the marker.
pub(crate) fn clear_marker<V: Volume>(vol: &mut V, marker_name: &Name) -> Result<(), Failed>
    ensures clears { V.told → (A : Map) → marker_name.now ≡ marker → IsShut (V.state vol.old) A → AreAll (V.state vol.old).held [] → Clears (V.state vol.old) (V.state vol.new) A result }
    ensures passes { Passes (V.state vol.old) (V.state vol.new) }
    ensures fault { OnErr result (Rose (V.state vol.old) (V.state vol.new)) }
{
    vol.sync()?;
    vol.remove(marker_name)?;
    vol.sync()?;
    Ok(())
}

/// Removes these names of the area, which are all that is there, and then its marker.
pub(crate) fn clear_area<V: Volume>(
    vol: &mut V,
    marker_name: &Name,
    names: &[Name],
) -> Result<(), Failed>
    ensures clears { V.told → (A : Map) → marker_name.now ≡ marker → AreInside names.now → IsShut (V.state vol.old) A → AreAll (V.state vol.old).held names.now → Clears (V.state vol.old) (V.state vol.new) A result }
    ensures passes { Passes (V.state vol.old) (V.state vol.new) }
    ensures fault { OnErr result (Rose (V.state vol.old) (V.state vol.new)) }
{
    clear_names(vol, names)?;
    clear_marker(vol, marker_name)
}
