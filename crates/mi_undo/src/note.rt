//! Noting names.

ghost use Rattle.std.specs.Prelude.{true, false, ◌≡◌, ◌≢◌, ◌+◌, ◌<◌, ◌++◌, ◌∷◌, [], List, ℕ, length, IfOk, OnOk, OnErr, IsOkUnless, IsErrOf};
ghost use Rattle.mi_volume.specs.Maps.{Map};
ghost use Rattle.mi_volume.specs.State.{Passes, Rose};
ghost use Rattle.mi_undo.specs.Names.{entry_name, gate_name, most_entries, is_inside};
ghost use Rattle.mi_undo.specs.Notes.{Note, all_notes, new_names, notes_for, spelled, are_new};
ghost use Rattle.mi_undo.specs.Keeps.{IsOpen};
ghost use Rattle.mi_undo.specs.Area.{AreOutside, Knows, Works, place_names, notes_in, entries_for};
ghost use Rattle.mi_undo.specs.Steps.{AddsBytes};
ghost use Rattle.mi_undo.specs.Room.{TakesAtMost, KeepsRoom, entry_size};
ghost use Rattle.mi_undo.specs.Answers.{Notes};
ghost use Rattle.mi_undo.specs.Entry.{AreGood, Enters};

use crate::entry::write_entry;
use crate::fault::OpFault;
use crate::kept::{Kept, Place};
use crate::names::{entry_of, gate_of};
use crate::steps::put_synced;
use mi_text::{Name, NoMemory};
use mi_volume::Volume;
use std::alloc::Global;
use std::collections::BTreeSet;

/// A copy of a name that is outside the area.
fn copy_of(alloc: Global, name: &Name) -> Result<Name, NoMemory>
    requires { is_inside name.now ≡ false }
    ensures copy { IfOk result (λ n. n ≡ name.now) }
    ensures good { IfOk result (λ n. AreGood (name.now ∷ [])) }
{
    match Name::of(alloc, name.as_str()) {
        Ok(copy) => Ok(copy),
        Err(_) => Err(NoMemory),
    }
}

/// Copies of the names that aren't among those that are known, each once. They are known from now on.
fn fresh_names(
    alloc: Global,
    seen: &mut BTreeSet<Name>,
    names: &[Name],
) -> Result<Vec<Name>, NoMemory>
    requires { AreOutside names.now }
    ensures fresh { IfOk result (λ v. (known : List (List ℕ)) → Knows seen.old known → v.items ≡ new_names known names.now) }
    ensures knows { OnOk result ((known : List (List ℕ)) → Knows seen.old known → Knows seen.new (known ++ new_names known names.now)) }
    ensures good { IfOk result (λ v. AreGood v.items) }
{
    let mut fresh = Vec::new(alloc);
    for name in names {
        if seen.insert(name.copy(alloc)?)? {
            fresh.push(copy_of(alloc, name)?)?;
        }
    }
    Ok(fresh)
}

/// Keeps the names of an entry and its gate. After an error nothing is kept.
fn keep_names(
    alloc: Global,
    area: &mut Vec<Name>,
    entry: &Name,
    gate: &Name,
) -> Result<(), NoMemory>
    ensures ok { OnOk result (area.new.items ≡ area.old.items ++ entry.now ∷ gate.now ∷ []) }
    ensures err { OnErr result (area.new.items ≡ area.old.items) }
{
    let mut both = Vec::new(alloc);
    both.push(entry.copy(alloc)?)?;
    both.push(gate.copy(alloc)?)?;
    area.append(&mut both)?;
    Ok(())
}

/// Makes an entry of these names, and opens its gate once the entry is on the disk. Answers the
/// places of the notes.
fn note_entry<V: Volume>(
    alloc: Global,
    vol: &mut V,
    number: u32,
    entry: &Name,
    gate: &Name,
    names: &[Name],
) -> Result<Vec<Place>, OpFault>
    requires entry { entry.now ≡ entry_name number }
    requires gate { gate.now ≡ gate_name number }
    requires few { number < most_entries }
    requires outside { AreOutside names.now }
    ensures enters { V.told → (F : Map) (parts : List (List Note)) → IsOpen (V.state vol.old) F parts → number ≡ length parts → are_new (all_notes parts) (notes_for (V.state vol.old).held names.now) ≡ true
        → Enters number F parts (notes_for (V.state vol.old).held names.now) (V.state vol.old) (V.state vol.new) result }
    ensures names { IfOk result (λ v. place_names v.items ≡ names.now) }
    ensures passes { Passes (V.state vol.old) (V.state vol.new) }
    ensures fault { IsErrOf result OpFault.Fault → Rose (V.state vol.old) (V.state vol.new) }
    ensures told { IsErrOf result OpFault.Full → V.told }
{
    let places = write_entry(alloc, vol, entry, number, names)?;
    vol.sync()?;
    put_synced(alloc, vol, gate, &[1])?;
    Ok(places)
}

/// Makes the next entry, of names that aren't noted yet.
fn note_fresh<V: Volume>(
    alloc: Global,
    vol: &mut V,
    kept: &mut Kept,
    names: &[Name],
) -> Result<(), OpFault>
    requires few { kept.old.entries < most_entries }
    requires outside { AreOutside names.now }
    ensures seen { kept.new.seen ≡ kept.old.seen }
    ensures names { OnOk result (place_names kept.new.places.items ≡ place_names kept.old.places.items ++ names.now) }
    ensures entries { OnOk result (kept.new.entries ≡ kept.old.entries + 1) }
    ensures entries_stay { OnErr result (kept.new.entries ≡ kept.old.entries) }
    ensures notes { V.told → (F : Map) → Works (V.state vol.old) kept.old F → are_new (notes_in (V.state vol.old).held kept.old.places.items) (notes_for (V.state vol.old).held names.now) ≡ true
        → Notes (V.state vol.old) (V.state vol.new) kept.new F result }
    ensures passes { Passes (V.state vol.old) (V.state vol.new) }
    ensures fault { IsErrOf result OpFault.Fault → Rose (V.state vol.old) (V.state vol.new) }
    ensures told { IsErrOf result OpFault.Full → V.told }
    ensures adds { V.told → (F : Map) → Works (V.state vol.old) kept.old F → are_new (notes_in (V.state vol.old).held kept.old.places.items) (notes_for (V.state vol.old).held names.now) ≡ true
        → AddsBytes (25 + length (spelled (notes_for (V.state vol.old).held names.now))) (V.state vol.old) (V.state vol.new) result }
    ensures room { V.told → (F : Map) (n : ℕ) → Works (V.state vol.old) kept.old F → are_new (notes_in (V.state vol.old).held kept.old.places.items) (notes_for (V.state vol.old).held names.now) ≡ true
        → TakesAtMost n (V.state vol.old) → KeepsRoom (V.state vol.old) (V.state vol.new) F (n + (25 + length (spelled (notes_for (V.state vol.old).held names.now)))) }
{
    let entry = entry_of(alloc, kept.entries)?;
    let gate = gate_of(alloc, kept.entries)?;
    keep_names(alloc, &mut kept.area, &entry, &gate)?;
    let mut places = note_entry(alloc, vol, kept.entries, &entry, &gate, names)?;
    kept.places.append(&mut places)?;
    kept.entries += 1;
    Ok(())
}

/// Notes the names that aren't noted yet, as one entry, or does nothing where there are none.
pub(crate) fn note_names<V: Volume>(
    alloc: Global,
    vol: &mut V,
    kept: &mut Kept,
    names: &[Name],
) -> Result<(), OpFault>
    requires knows { Knows kept.old.seen (place_names kept.old.places.items) }
    requires few { kept.old.entries < most_entries }
    requires outside { AreOutside names.now }
    ensures knows { OnOk result (Knows kept.new.seen (place_names kept.new.places.items)) }
    ensures names { OnOk result (place_names kept.new.places.items ≡ place_names kept.old.places.items ++ new_names (place_names kept.old.places.items) names.now) }
    ensures entries { OnOk result (kept.new.entries ≡ kept.old.entries + entries_for (new_names (place_names kept.old.places.items) names.now)) }
    ensures entries_stay { OnErr result (kept.new.entries ≡ kept.old.entries) }
    ensures all_noted { new_names (place_names kept.old.places.items) names.now ≡ [] → IsOkUnless result OpFault.NoMemory }
    ensures untouched { new_names (place_names kept.old.places.items) names.now ≡ [] → vol.new ≡ vol.old }
    ensures notes { V.told → (F : Map) → Works (V.state vol.old) kept.old F → Notes (V.state vol.old) (V.state vol.new) kept.new F result }
    ensures passes { Passes (V.state vol.old) (V.state vol.new) }
    ensures fault { IsErrOf result OpFault.Fault → Rose (V.state vol.old) (V.state vol.new) }
    ensures told { IsErrOf result OpFault.Full → V.told }
    ensures adds { V.told → (F : Map) → Works (V.state vol.old) kept.old F → new_names (place_names kept.old.places.items) names.now ≢ []
        → AddsBytes (25 + length (spelled (notes_for (V.state vol.old).held (new_names (place_names kept.old.places.items) names.now)))) (V.state vol.old) (V.state vol.new) result }
    ensures room { V.told → (F : Map) (n : ℕ) → Works (V.state vol.old) kept.old F → TakesAtMost n (V.state vol.old)
        → KeepsRoom (V.state vol.old) (V.state vol.new) F (n + entry_size (notes_for (V.state vol.old).held (new_names (place_names kept.old.places.items) names.now))) }
{
    let fresh = fresh_names(alloc, &mut kept.seen, names)?;
    let fresh = fresh.as_slice();
    if fresh.is_empty() {
        return Ok(());
    }
    note_fresh(alloc, vol, kept, fresh)
}
