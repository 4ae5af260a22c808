//! Carrying out the segments of a walk over an open rollback area.

ghost use Rattle.std.specs.Prelude.{◌≡◌, ◌+◌, ◌≤◌, ◌<◌, ◌∷◌, ◌++◌, [], false, OnOk, IfErr, length, List, ℕ};
ghost use Rattle.std.specs.List.{All};
ghost use Rattle.std.specs.FinMap.{get};
ghost use Rattle.mi_text.specs.Maps.{is_among};
ghost use Rattle.mi_volume.specs.Maps.{Map, Fits};
ghost use Rattle.mi_volume.specs.State.{Passes};
ghost use Rattle.mi_script.specs.Scripts.{after_script, touched_names};
ghost use Rattle.mi_undo.specs.Names.{most_entries};
ghost use Rattle.mi_undo.specs.Stands.{outside};
ghost use Rattle.mi_undo.specs.Notes.{new_names, notes_for};
ghost use Rattle.mi_undo.specs.Area.{AreOutside, volume, noted_names, entry_count, IsFresh, IsLive, IsWorking, Works};
ghost use Rattle.mi_undo.specs.Room.{TakesAtMost, KeepsRoom, entry_size};
ghost use Rattle.mi_runner.specs.Records.{MayCarry, HasLength};
ghost use Rattle.mi_runner.specs.Sizes.{most_held, IsNoLonger};
ghost use Rattle.mi_model.specs.Causes.{BelowCount};
ghost use Rattle.mi_carry.specs.Segments.{after_segments};
ghost use Rattle.mi_carry.specs.Causes.{Differs, IsMetStop};
ghost use Rattle.mi_carry.specs.Halts.{GoesAlong};
ghost use Rattle.mi_carry.specs.Reached.{AtMetStop};
ghost use Rattle.mi_carry.specs.Rooms.{IsRoomy, StaysRoomy};

use crate::segment::Segment;
use crate::stop::{Stop, Stopped};
use mi_runner::segment;
use mi_source::Source;
use mi_undo::Open;
use mi_volume::Volume;
use std::alloc::Global;

/// Reads a segment's script back, and carries it out.
fn carry_part<S: Source, V: Volume>(
    alloc: Global,
    area: &mut Open<'_, V>,
    src: &mut S,
    part: &Segment,
) -> Result<(), Stop>
    requires working { IsWorking area.old }
    requires few { entry_count area.old < most_entries }
    requires outside { AreOutside (touched_names part.now.records) }
    requires records { All MayCarry part.now.records }
    requires there { S.told → All (HasLength (S.files src.old)) part.now.records }
    requires works { V.told → (F : Map) × Works (V.state (volume area.old)) area.old.kept F }
    ensures reference { area.new.vol.ghost_name ≡ area.old.vol.ghost_name }
    ensures live { IsLive area.new }
    ensures working { OnOk result (IsWorking area.new) }
    ensures entries { entry_count area.new ≤ entry_count area.old + 1 }
    ensures along { V.told → (F : Map) → Works (V.state (volume area.old)) area.old.kept F → GoesAlong (V.state (volume area.old)) (V.state (volume area.new)) area.new.kept F result }
    ensures map { V.told → S.told → (F : Map) → Works (V.state (volume area.old)) area.old.kept F
        → OnOk result (outside (V.state (volume area.new)).held ≡ after_script (S.files src.old) (outside (V.state (volume area.old)).held) part.now.records) }
    ensures noted { OnOk result (noted_names area.new ≡ noted_names area.old ++ new_names (noted_names area.old) (touched_names part.now.records)) }
    ensures others { V.told → (F : Map) → Works (V.state (volume area.old)) area.old.kept F
        → OnOk result ((q : List ℕ) → is_among q (touched_names part.now.records) ≡ false → get (outside (V.state (volume area.new)).held) q ≡ get (outside (V.state (volume area.old)).held) q) }
    ensures longest { V.told → (F : Map) → Works (V.state (volume area.old)) area.old.kept F
        → OnOk result ((q : List ℕ) → IsNoLonger (V.state (volume area.old)).held part.now.records (V.state (volume area.new)).held q) }
    ensures room { V.told → (F : Map) (n : ℕ) → Works (V.state (volume area.old)) area.old.kept F → TakesAtMost n (V.state (volume area.old))
        → KeepsRoom (V.state (volume area.old)) (V.state (volume area.new)) F (n + entry_size (notes_for (V.state (volume area.old)).held (new_names (noted_names area.old) (touched_names part.now.records)))) }
    ensures passes { Passes (V.state (volume area.old)) (V.state (volume area.new)) }
    ensures stopped { IfErr result (IsMetStop (Differs S.told (part.now ∷ [])) ((V.told → Fits (V.state (volume area.old)).capacity (most_held (V.state (volume area.old)).held (noted_names area.old) part.now.records)) → BelowCount (V.state (volume area.old)).faults (V.state (volume area.new)).faults) (BelowCount (S.faults src.old) (S.faults src.new))) }
    ensures source_stays { S.files src.new ≡ S.files src.old }
    ensures source_counts { S.faults src.old ≤ S.faults src.new }
{
    let script = part.script(alloc)?;
    segment(alloc, area, &script, src)?;
    Ok(())
}

/// Carries segments out, in order, over an area that has noted nothing yet.
pub fn carry_parts<S: Source, V: Volume>(
    alloc: Global,
    area: &mut Open<'_, V>,
    src: &mut S,
    parts: &[Segment],
) -> Result<(), Stopped>
    requires fresh { IsFresh area.old }
    requires few { length parts.now ≤ most_entries }
    requires outside { All (λ p. AreOutside (touched_names p.records)) parts.now }
    requires records { All (λ p. All MayCarry p.records) parts.now }
    requires there { S.told → All (λ p. All (HasLength (S.files src.old)) p.records) parts.now }
    requires works { V.told → (F : Map) × Works (V.state (volume area.old)) area.old.kept F }
    ensures reference { area.new.vol.ghost_name ≡ area.old.vol.ghost_name }
    ensures live { IsLive area.new }
    ensures working { OnOk result (IsWorking area.new) }
    ensures along { V.told → (F : Map) → Works (V.state (volume area.old)) area.old.kept F → GoesAlong (V.state (volume area.old)) (V.state (volume area.new)) area.new.kept F result }
    ensures map { V.told → S.told → (F : Map) → Works (V.state (volume area.old)) area.old.kept F
        → OnOk result (outside (V.state (volume area.new)).held ≡ after_segments (S.files src.old) (outside (V.state (volume area.old)).held) parts.now) }
    ensures roomy { V.told → (F : Map) → Works (V.state (volume area.old)) area.old.kept F → IsRoomy (V.state (volume area.old)) F parts.now → StaysRoomy (V.state (volume area.old)) (V.state (volume area.new)) F }
    ensures passes { Passes (V.state (volume area.old)) (V.state (volume area.new)) }
    ensures stopped { IfErr result (λ s. IsMetStop (Differs S.told parts.now) ((V.told → (F : Map) × Works (V.state (volume area.old)) area.old.kept F × IsRoomy (V.state (volume area.old)) F parts.now) → BelowCount (V.state (volume area.old)).faults (V.state (volume area.new)).faults) (BelowCount (S.faults src.old) (S.faults src.new)) s.why) }
    ensures reached { IfErr result (λ s. AtMetStop parts.now s.reached s.why) }
    ensures source_stays { S.files src.new ≡ S.files src.old }
    ensures source_counts { S.faults src.old ≤ S.faults src.new }
{
    for part in parts {
        match carry_part(alloc, area, src, part) {
            Ok(()) => {}
            Err(why) => {
                return Err(Stopped {
                    why,
                    reached: part.reached(),
                });
            }
        }
    }
    Ok(())
}
