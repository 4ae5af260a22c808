//! Carrying out the records of a script over an area that has noted their names.

ghost use Rattle.std.specs.Prelude.{◌≡◌, ◌≢◌, ◌+◌, ◌≤◌, ◌∷◌, [], List, ℕ, true, max, map, Contains, OnOk, OnErr, IfErr, IsErrOf};
ghost use Rattle.std.specs.List.{All};
ghost use Rattle.std.specs.FinMap.{get};
ghost use Rattle.mi_text.specs.Maps.{is_among};
ghost use Rattle.mi_volume.specs.Maps.{Map, size, slot_size, Exceeds};
ghost use Rattle.mi_volume.specs.State.{Rose};
ghost use Rattle.mi_changes.specs.Changes.{written};
ghost use Rattle.mi_script.specs.Scripts.{name_at, change_of, after_script, touched_names};
ghost use Rattle.mi_undo.specs.Stands.{outside};
ghost use Rattle.mi_undo.specs.Area.{AreOutside, volume, noted_names, IsLive, IsWorking};
ghost use Rattle.mi_runner.specs.declared.fault.RunFault.TheVariants as run;
ghost use Rattle.mi_runner.specs.Faults.{IsSizeFault};
ghost use Rattle.mi_runner.specs.Records.{MayCarry, HasLength};
ghost use Rattle.mi_runner.specs.Sizes.{size_after, greatest, growth};
ghost use Rattle.mi_runner.specs.Steps.{KeepsOver, Writes, Reads, Differs};

use crate::bytes::write_bytes;
use crate::fault::RunFault;
use crate::files::{write_copy, write_duplicate};
use mi_base::Text;
use mi_script::Rec;
use mi_source::Source;
use mi_undo::Open;
use mi_volume::Volume;
use std::alloc::Global;

// Refuses a file of the source that hasn't the stated length.
fn check_size(alloc: Global, file: &Text, stated: u64, found: u64) -> Result<(), RunFault>
    ensures fault { IfErr result (IsSizeFault file.now stated found) }
    ensures same { OnOk result (found ≡ stated) }
    ensures other { OnErr result (found ≢ stated) }
{
    if found == stated {
        return Ok(());
    }
    Err(RunFault::SizeDiffers {
        file: Text::copy_of(alloc, file.as_str())?,
        stated,
        found,
    })
}

/// Carries out a record.
fn carry_record<S: Source, V: Volume>(
    alloc: Global,
    area: &mut Open<'_, V>,
    src: &mut S,
    rec: &Rec,
) -> Result<(), RunFault>
    requires working { IsWorking area.old }
    requires noted { Contains (noted_names area.old) (name_at rec.now) }
    requires record { MayCarry rec.now }
    requires there { S.told → HasLength (S.files src.old) rec.now }
    ensures writes { Writes V.told V.state area.old area.new (name_at rec.now) (size_after rec.now) run.Volume run.Full result }
    ensures map { V.told → S.told → OnOk result ((V.state (volume area.new)).held ≡ written (V.state (volume area.old)).held (change_of (S.files src.old) (V.state (volume area.old)).held rec.now ∷ [])) }
    ensures reads { Reads S.files S.faults src.old src.new result }
    ensures differs { Differs S.told (rec.now ∷ []) result }
{
    match rec {
        Rec::Put(name, bytes) => Ok(write_bytes(alloc, area, name, bytes.as_slice())?),
        Rec::Drop(name) => Ok(area.remove(name)?),
        Rec::Copy {
            name,
            head,
            file,
            path,
            length,
        } => {
            let found = write_copy(alloc, area, src, name, head, path.as_str(), *length)?;
            check_size(alloc, file, *length, found)
        }
        Rec::Dup { name, head, from } => Ok(write_duplicate(alloc, area, name, head, from)?),
    }
}

/// Carries out records, in order.
pub fn carry_records<S: Source, V: Volume>(
    alloc: Global,
    area: &mut Open<'_, V>,
    src: &mut S,
    recs: &[Rec],
) -> Result<(), RunFault>
    requires working { IsWorking area.old }
    requires outside { AreOutside (touched_names recs.now) }
    requires noted { All (λ r. Contains (noted_names area.old) (name_at r)) recs.now }
    requires records { All MayCarry recs.now }
    requires there { S.told → All (HasLength (S.files src.old)) recs.now }
    ensures keeps { KeepsOver V.told V.state area.old area.new (λ q. is_among q (map name_at recs.now) ≡ true) }
    ensures live { IsLive area.new }
    ensures working { OnOk result (IsWorking area.new) }
    ensures map { V.told → S.told → OnOk result (outside (V.state (volume area.new)).held ≡ after_script (S.files src.old) (outside (V.state (volume area.old)).held) recs.now) }
    ensures longest { V.told → ¬ IsErrOf result run.Volume → (q : List ℕ) → slot_size q (get (V.state (volume area.new)).held q) ≤ max (slot_size q (get (V.state (volume area.old)).held q)) (greatest recs.now q) }
    ensures longest_others { V.told → (name : List ℕ) × ((q : List ℕ) → q ≢ name → slot_size q (get (V.state (volume area.new)).held q) ≤ max (slot_size q (get (V.state (volume area.old)).held q)) (greatest recs.now q)) }
    ensures rose { IsErrOf result run.Volume → Rose (V.state (volume area.old)) (V.state (volume area.new)) }
    ensures full { IsErrOf result run.Full → V.told × Exceeds (V.state (volume area.old)).capacity (size (V.state (volume area.old)).held + growth (outside (V.state (volume area.old)).held) recs.now (touched_names recs.now)) }
    ensures reads { Reads S.files S.faults src.old src.new result }
    ensures differs { Differs S.told recs.now result }
{
    for rec in recs {
        carry_record(alloc, area, src, rec)?;
    }
    Ok(())
}
