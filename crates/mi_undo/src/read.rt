//! Reading the area.

ghost use Rattle.std.specs.Prelude.{◌≡◌, ◌≤◌, ◌<◌, ◌+◌, ◌++◌, ◌∷◌, [], true, not, Ok, Err, IfOk, OnOk, IsErrOf};
ghost use Rattle.mi_text.specs.Maps.{is_among};
ghost use Rattle.std.specs.FinMap.{get};
ghost use Rattle.mi_volume.specs.State.{Passes, Rose};
ghost use Rattle.mi_undo.specs.Names.{entry_name, most_entries};
ghost use Rattle.mi_undo.specs.Stands.{is_one, read_from};
ghost use Rattle.mi_undo.specs.Area.{Knows, AreBelow, place_names, notes_in};
ghost use Rattle.mi_undo.specs.Answers.{IfBad, IfFull};
ghost use Rattle.mi_undo.specs.Reading.{Looks, AddsEntry, Turns, first_shut};

use crate::decode::read_note;
use crate::fault::UndoError;
use crate::kept::Place;
use crate::names::{MOST_ENTRIES, entry_of, gate_of};
use crate::steps::uncounted;
use mi_text::Name;
use mi_volume::{VolFault, Volume};
use std::alloc::Global;
use std::collections::BTreeSet;

/// What stands at the number of an entry.
#[derive(Drop)]
pub(crate) enum Turn {
    /// An open gate, and behind it an entry whose notes were read.
    Read,
    /// A gate that is shut.
    Shut,
    /// An open gate, and behind it this entry, which is absent or not spelled.
    Bad(Name),
}

/// Whether the name holds exactly the byte 1. If the volume counts a fault meanwhile it may lack bytes, and
/// the call fails.
pub(crate) fn is_open<V: Volume>(alloc: Global, vol: &mut V, name: &Name) -> Result<bool, VolFault>
    ensures value { V.told → IfOk result (λ b. b ≡ is_one (get (V.state vol.old).held name.now)) }
    ensures looks { V.told → Looks (V.state vol.old) (V.state vol.new) }
    ensures passes { Passes (V.state vol.old) (V.state vol.new) }
    ensures fault { IsErrOf result VolFault.Failed → Rose (V.state vol.old) (V.state vol.new) }
    ensures uncounted { OnOk result ((V.state vol.new).faults ≤ (V.state vol.old).faults) }
{
    let faults = vol.faults();
    let bytes = vol.read(alloc, name, 0, 2)?;
    if uncounted(vol, faults).is_err() {
        return Err(VolFault::Failed);
    }
    Ok(bytes.as_slice() == [1].as_slice())
}

/// Keeps the place of a note, unless its name is noted already. Answers whether it wasn't.
fn keep_place(
    alloc: Global,
    places: &mut Vec<Place>,
    seen: &mut BTreeSet<Name>,
    place: Place,
) -> Result<bool, VolFault>
    requires knows { Knows seen.old (place_names places.old.items) }
    ensures kept { IfOk result (λ b. b ≡ true → places.new.items ≡ places.old.items ++ place ∷ []) }
    ensures is_new { IfOk result (λ b. not b ≡ is_among place.name (place_names places.old.items)) }
    ensures knows { IfOk result (λ b. b ≡ true → Knows seen.new (place_names places.new.items)) }
    ensures memory { IsErrOf result VolFault.Failed → ⊥ }
{
    let Ok(name) = place.name.copy(alloc) else {
        return Err(VolFault::NoMemory);
    };
    match seen.insert(name) {
        Ok(true) => (),
        Ok(false) => return Ok(false),
        Err(_) => return Err(VolFault::NoMemory),
    }
    let Ok(()) = places.push(place) else {
        return Err(VolFault::NoMemory);
    };
    Ok(true)
}

/// Adds the places of an entry's notes. Answers whether it is there and spelled.
fn read_notes<V: Volume>(
    alloc: Global,
    vol: &mut V,
    entry: &Name,
    number: u32,
    places: &mut Vec<Place>,
    seen: &mut BTreeSet<Name>,
) -> Result<bool, VolFault>
    requires entry { entry.now ≡ entry_name number }
    requires knows { Knows seen.old (place_names places.old.items) }
    requires below { AreBelow number places.old.items }
    ensures knows { IfOk result (λ b. b ≡ true → Knows seen.new (place_names places.new.items)) }
    ensures below { IfOk result (λ b. b ≡ true → AreBelow (number + 1) places.new.items) }
    ensures adds { V.told → AddsEntry (V.state vol.old).held entry.now (notes_in (V.state vol.old).held places.old.items) (notes_in (V.state vol.old).held places.new.items) result }
    ensures looks { V.told → Looks (V.state vol.old) (V.state vol.new) }
    ensures passes { Passes (V.state vol.old) (V.state vol.new) }
    ensures fault { IsErrOf result VolFault.Failed → Rose (V.state vol.old) (V.state vol.new) }
{
    let total = match vol.size(entry) {
        Ok(Some(total)) => total,
        Ok(None) => return Ok(false),
        Err(_) => return Err(VolFault::Failed),
    };
    let mut at = 0;
    while at < total {
        let Some((place, next)) = read_note(alloc, vol, entry, number, at, total)? else {
            return Ok(false);
        };
        if !keep_place(alloc, places, seen, place)? {
            return Ok(false);
        }
        at = next;
    }
    Ok(true)
}

/// Adds the places of an entry's notes. Answers whether it is there and spelled. If the volume counts a fault
/// meanwhile it may have given fewer bytes than stand there, and the call fails.
fn read_entry<V: Volume>(
    alloc: Global,
    vol: &mut V,
    entry: &Name,
    number: u32,
    places: &mut Vec<Place>,
    seen: &mut BTreeSet<Name>,
) -> Result<bool, VolFault>
    requires entry { entry.now ≡ entry_name number }
    requires knows { Knows seen.old (place_names places.old.items) }
    requires below { AreBelow number places.old.items }
    ensures knows { IfOk result (λ b. b ≡ true → Knows seen.new (place_names places.new.items)) }
    ensures below { IfOk result (λ b. b ≡ true → AreBelow (number + 1) places.new.items) }
    ensures adds { V.told → AddsEntry (V.state vol.old).held entry.now (notes_in (V.state vol.old).held places.old.items) (notes_in (V.state vol.old).held places.new.items) result }
    ensures looks { V.told → Looks (V.state vol.old) (V.state vol.new) }
    ensures passes { Passes (V.state vol.old) (V.state vol.new) }
    ensures fault { IsErrOf result VolFault.Failed → Rose (V.state vol.old) (V.state vol.new) }
    ensures uncounted { OnOk result ((V.state vol.new).faults ≤ (V.state vol.old).faults) }
{
    let faults = vol.faults();
    let whole = read_notes(alloc, vol, entry, number, places, seen)?;
    if uncounted(vol, faults).is_err() {
        return Err(VolFault::Failed);
    }
    Ok(whole)
}

/// Reads what stands at the number of an entry.
fn read_number<V: Volume>(
    alloc: Global,
    vol: &mut V,
    number: u32,
    places: &mut Vec<Place>,
    seen: &mut BTreeSet<Name>,
) -> Result<Turn, VolFault>
    requires few { number < 100000000 }
    requires knows { Knows seen.old (place_names places.old.items) }
    requires below { AreBelow number places.old.items }
    ensures knows { IfOk result (λ t. t ≡ Turn.Read → Knows seen.new (place_names places.new.items)) }
    ensures below { IfOk result (λ t. t ≡ Turn.Read → AreBelow (number + 1) places.new.items) }
    ensures kept { IfOk result (λ t. t ≡ Turn.Shut → places.new.items ≡ places.old.items) }
    ensures turns { V.told → Turns (V.state vol.old).held number (notes_in (V.state vol.old).held places.old.items) (notes_in (V.state vol.old).held places.new.items) result }
    ensures looks { V.told → Looks (V.state vol.old) (V.state vol.new) }
    ensures passes { Passes (V.state vol.old) (V.state vol.new) }
    ensures fault { IsErrOf result VolFault.Failed → Rose (V.state vol.old) (V.state vol.new) }
{
    let Ok(gate) = gate_of(alloc, number) else {
        return Err(VolFault::NoMemory);
    };
    let open = is_open(alloc, vol, &gate);
    drop(gate);
    if !open? {
        return Ok(Turn::Shut);
    }
    let Ok(entry) = entry_of(alloc, number) else {
        return Err(VolFault::NoMemory);
    };
    match read_entry(alloc, vol, &entry, number, places, seen) {
        Ok(true) => {
            drop(entry);
            Ok(Turn::Read)
        }
        Ok(false) => Ok(Turn::Bad(entry)),
        Err(fault) => {
            drop(entry);
            Err(fault)
        }
    }
}

/// Reads the entries up to the first gate that is shut. Answers the places of their notes, and how
/// many entries these are.
pub(crate) fn read_area<V: Volume>(
    alloc: Global,
    vol: &mut V,
) -> Result<(Vec<Place>, u32), UndoError>
    ensures below { IfOk result (λ r. AreBelow r.1 r.0.items) }
    ensures reads { V.told → IfOk result (λ r. read_from (V.state vol.old).held 0 most_entries [] ≡ Ok (notes_in (V.state vol.old).held r.0.items)) }
    ensures count { V.told → IfOk result (λ r. first_shut (V.state vol.old).held 0 most_entries ≡ r.1) }
    ensures bad { V.told → IfBad result (λ bad. read_from (V.state vol.old).held 0 most_entries [] ≡ Err bad) }
    ensures never_full { IfFull result (λ name. ⊥) }
    ensures looks { V.told → Looks (V.state vol.old) (V.state vol.new) }
    ensures passes { Passes (V.state vol.old) (V.state vol.new) }
    ensures fault { IsErrOf result UndoError.Fault → Rose (V.state vol.old) (V.state vol.new) }
{
    let mut places = Vec::new(alloc);
    let mut seen = BTreeSet::new(alloc);
    for number in 0..MOST_ENTRIES {
        match read_number(alloc, vol, number, &mut places, &mut seen) {
            Ok(Turn::Read) => (),
            Ok(Turn::Shut) => return Ok((places, number)),
            Ok(Turn::Bad(entry)) => return Err(UndoError::BadRollback(entry)),
            Err(fault) => return Err(UndoError::from(fault)),
        }
    }
    Ok((places, MOST_ENTRIES))
}
