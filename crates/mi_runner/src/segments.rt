//! Carrying out a segment.

ghost use Rattle.std.specs.Prelude.{◌≡◌, ◌≢◌, ◌+◌, ◌≤◌, ◌<◌, ◌++◌, List, ℕ, OnOk, IfErr, IsErrOf};
ghost use Rattle.std.specs.List.{All};
ghost use Rattle.mi_volume.specs.Maps.{Map, Exceeds};
ghost use Rattle.mi_volume.specs.State.{Passes, Rose};
ghost use Rattle.mi_source.specs.Counts as source;
ghost use Rattle.mi_script.specs.Scripts.{after_script, touched_names};
ghost use Rattle.mi_undo.specs.Names.{most_entries};
ghost use Rattle.mi_undo.specs.Notes.{new_names, notes_for};
ghost use Rattle.mi_undo.specs.Stands.{outside};
ghost use Rattle.mi_undo.specs.Area.{AreOutside, entries_for, volume, noted_names, entry_count, IsLive, IsWorking, Works};
ghost use Rattle.mi_undo.specs.Room.{TakesAtMost, KeepsRoom, entry_size};
ghost use Rattle.mi_runner.specs.declared.fault.RunFault.TheVariants as run;
ghost use Rattle.mi_runner.specs.Faults.{IfDiffers};
ghost use Rattle.mi_runner.specs.Records.{MayCarry, HasLength, States};
ghost use Rattle.mi_runner.specs.Sizes.{most_held, AreNoLonger, AreNoLongerButOne};
ghost use Rattle.mi_runner.specs.Steps.{Reads, Differs, NeverDiffers};
ghost use Rattle.mi_runner.specs.Answers.{Carries};

use crate::carry::carry_records;
use crate::fault::RunFault;
use mi_base::Name;
use mi_script::{Script, touched};
use mi_source::Source;
use mi_undo::Open;
use mi_volume::Volume;
use std::alloc::Global;

// Notes the names that aren't noted yet, and carries the records out.
fn carry_out<S: Source, V: Volume>(
    alloc: Global,
    area: &mut Open<'_, V>,
    names: &[Name],
    script: &Script,
    src: &mut S,
) -> Result<(), RunFault>
    requires working { IsWorking area.old }
    requires few { entry_count area.old < most_entries }
    requires names { names.now ≡ touched_names script.now }
    requires outside { AreOutside (touched_names script.now) }
    requires records { All MayCarry script.now }
    requires there { S.told → All (HasLength (S.files src.old)) script.now }
    ensures reference { area.new.vol.ghost_name ≡ area.old.vol.ghost_name }
    ensures live { IsLive area.new }
    ensures working { OnOk result (IsWorking area.new) }
    ensures noted { OnOk result (noted_names area.new ≡ noted_names area.old ++ new_names (noted_names area.old) (touched_names script.now)) }
    ensures entries { OnOk result (entry_count area.new ≡ entry_count area.old + entries_for (new_names (noted_names area.old) (touched_names script.now))) }
    ensures entries_most { entry_count area.new ≤ entry_count area.old + 1 }
    ensures map { V.told → S.told → (F : Map) → Works (V.state (volume area.old)) area.old.kept F
        → OnOk result (outside (V.state (volume area.new)).held ≡ after_script (S.files src.old) (outside (V.state (volume area.old)).held) script.now) }
    ensures carries { V.told → (F : Map) → Works (V.state (volume area.old)) area.old.kept F
        → Carries (V.state (volume area.old)) (V.state (volume area.new)) area.new.kept F script.now result }
    ensures longest { V.told → (F : Map) → Works (V.state (volume area.old)) area.old.kept F → ¬ IsErrOf result run.Volume
        → AreNoLonger (V.state (volume area.old)).held script.now (V.state (volume area.new)).held }
    ensures longest_but_one { V.told → (F : Map) → Works (V.state (volume area.old)) area.old.kept F
        → AreNoLongerButOne (V.state (volume area.old)).held script.now (V.state (volume area.new)).held }
    ensures room { V.told → (F : Map) (n : ℕ) → Works (V.state (volume area.old)) area.old.kept F → TakesAtMost n (V.state (volume area.old))
        → KeepsRoom (V.state (volume area.old)) (V.state (volume area.new)) F (n + entry_size (notes_for (V.state (volume area.old)).held (new_names (noted_names area.old) (touched_names script.now)))) }
    ensures passes { Passes (V.state (volume area.old)) (V.state (volume area.new)) }
    ensures fault { IsErrOf result run.Volume → Rose (V.state (volume area.old)) (V.state (volume area.new)) }
    ensures full { IsErrOf result run.Full → V.told × ((F : Map) → Works (V.state (volume area.old)) area.old.kept F
        → Exceeds (V.state (volume area.old)).capacity (most_held (V.state (volume area.old)).held (noted_names area.old) script.now)) }
    ensures reads { Reads S.files S.faults src.old src.new result }
    ensures differs { Differs S.told script.now result }
{
    area.note(alloc, names)?;
    carry_records(alloc, area, src, script.recs())?;
    Ok(())
}

/// Carries out the records of a script, in order: notes the touched names that aren't noted yet, as one entry and
/// none where all are noted, then gives each name what its record says, by pieces of at most 65,536 bytes. Ok leaves
/// what is outside the area as after the script. At every moment, and after an error, each crash leaves the
/// former map; after an error the area may only be gone back over. No name is longer then than before or than after one
/// of its records, but for one at most where the volume failed. Full comes only where a capacity is told and what
/// is held, the notes of the new names with 25 bytes, and what the touched names grow at most pass it; SizeDiffers only
/// over a source that tells nothing. Each copied file is there with as many bytes as its record states, where the
/// source tells it (this project's own).
pub fn segment<S: Source, V: Volume>(
    alloc: Global,
    area: &mut Open<'_, V>,
    script: &Script,
    src: &mut S,
) -> Result<(), RunFault>
    requires working { IsWorking area.old }
    requires few { entry_count area.old < most_entries }
    requires outside { AreOutside (touched_names script.now) }
    requires records { All MayCarry script.now }
    requires there { S.told → All (HasLength (S.files src.old)) script.now }
    ensures reference { area.new.vol.ghost_name ≡ area.old.vol.ghost_name }
    ensures live { IsLive area.new }
    ensures working { OnOk result (IsWorking area.new) }
    ensures noted { OnOk result (noted_names area.new ≡ noted_names area.old ++ new_names (noted_names area.old) (touched_names script.now)) }
    ensures entries { OnOk result (entry_count area.new ≡ entry_count area.old + entries_for (new_names (noted_names area.old) (touched_names script.now))) }
    ensures entries_most { entry_count area.new ≤ entry_count area.old + 1 }
    ensures map { V.told → S.told → (F : Map) → Works (V.state (volume area.old)) area.old.kept F
        → OnOk result (outside (V.state (volume area.new)).held ≡ after_script (S.files src.old) (outside (V.state (volume area.old)).held) script.now) }
    ensures carries { V.told → (F : Map) → Works (V.state (volume area.old)) area.old.kept F
        → Carries (V.state (volume area.old)) (V.state (volume area.new)) area.new.kept F script.now result }
    ensures longest { V.told → (F : Map) → Works (V.state (volume area.old)) area.old.kept F → ¬ IsErrOf result run.Volume
        → AreNoLonger (V.state (volume area.old)).held script.now (V.state (volume area.new)).held }
    ensures longest_but_one { V.told → (F : Map) → Works (V.state (volume area.old)) area.old.kept F
        → AreNoLongerButOne (V.state (volume area.old)).held script.now (V.state (volume area.new)).held }
    ensures room { V.told → (F : Map) (n : ℕ) → Works (V.state (volume area.old)) area.old.kept F → TakesAtMost n (V.state (volume area.old))
        → KeepsRoom (V.state (volume area.old)) (V.state (volume area.new)) F (n + entry_size (notes_for (V.state (volume area.old)).held (new_names (noted_names area.old) (touched_names script.now)))) }
    ensures passes { Passes (V.state (volume area.old)) (V.state (volume area.new)) }
    ensures fault { IsErrOf result run.Volume → Rose (V.state (volume area.old)) (V.state (volume area.new)) }
    ensures full { IsErrOf result run.Full → V.told × ((F : Map) → Works (V.state (volume area.old)) area.old.kept F
        → Exceeds (V.state (volume area.old)).capacity (most_held (V.state (volume area.old)).held (noted_names area.old) script.now)) }
    ensures source_stays { S.files src.new ≡ S.files src.old }
    ensures source_counts { S.faults src.old ≤ S.faults src.new }
    ensures source_fault { IsErrOf result run.Source → source.Rose (S.faults src.old) (S.faults src.new) }
    ensures differs { IfErr result (λ f. IfDiffers f (λ file stated found. found ≢ stated)) }
    ensures stated { IfErr result (λ f. IfDiffers f (λ file stated found. States script.now file stated)) }
    ensures untold { S.told → NeverDiffers result }
{
    let names = touched(alloc, script)?;
    carry_out(alloc, area, names.as_slice(), script, src)?;
    Ok(())
}
