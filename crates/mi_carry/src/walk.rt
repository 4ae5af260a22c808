//! A whole walk over an open rollback area.

ghost use Rattle.std.specs.Prelude.{◌≡◌, ◌⊎◌, ◌≤◌, length};
ghost use Rattle.std.specs.List.{All};
ghost use Rattle.mi_volume.specs.Maps.{Map};
ghost use Rattle.mi_volume.specs.State.{Passes, GoesOn};
ghost use Rattle.mi_script.specs.Scripts.{touched_names};
ghost use Rattle.mi_undo.specs.Names.{most_entries};
ghost use Rattle.mi_undo.specs.Stands.{StandsFor, outside};
ghost use Rattle.mi_undo.specs.Area.{AreOutside, volume, IsFresh, IsLive, Works};
ghost use Rattle.mi_runner.specs.Records.{MayCarry, HasLength};
ghost use Rattle.mi_model.specs.Causes.{BelowCount};
ghost use Rattle.mi_carry.specs.Segments.{after_segments, HaveNoRecord};
ghost use Rattle.mi_carry.specs.Causes.{Differs};
ghost use Rattle.mi_carry.specs.Halts.{GoesToOne, IfBack, HaltCaused};
ghost use Rattle.mi_carry.specs.Reached.{first_reached, last_reached, HaltReached, HaltHasBegunCommit};
ghost use Rattle.mi_carry.specs.Rooms.{IsRoomy, EndsRoomy};

use crate::parts::carry_parts;
use crate::segment::Segment;
use crate::stop::{Halt, Stop, Stopped};
use mi_base::Cause;
use mi_source::Source;
use mi_undo::Open;
use mi_volume::Volume;
use std::alloc::Global;

/// How many actions are begun at the end of the first segment.
pub fn first_reached(parts: &[Segment], begun: u64) -> u64
    ensures { result ≡ first_reached begun parts.now }
{
    match parts.first() {
        Some(part) => part.reached(),
        None => begun,
    }
}

/// How many actions are begun at the end of the last segment.
fn last_reached(parts: &[Segment], begun: u64) -> u64
    ensures { result ≡ last_reached begun parts.now }
{
    match parts.last() {
        Some(part) => part.reached(),
        None => begun,
    }
}

/// Carries the segments of a walk out and commits them, where the walk went to its end.
pub fn carry_walk<S: Source, V: Volume>(
    alloc: Global,
    area: &mut Open<'_, V>,
    src: &mut S,
    parts: &[Segment],
    begun: u64,
    refusal: Option<Cause>,
) -> Result<(), Halt>
    requires fresh { IsFresh area.old }
    requires few { length parts.now ≤ most_entries }
    requires outside { All (λ p. AreOutside (touched_names p.records)) parts.now }
    requires records { All (λ p. All MayCarry p.records) parts.now }
    requires there { S.told → All (λ p. All (HasLength (S.files src.old)) p.records) parts.now }
    requires works { V.told → (F : Map) × Works (V.state (volume area.old)) area.old.kept F }
    ensures reference { area.new.vol.ghost_name ≡ area.old.vol.ghost_name }
    ensures live { IfBack result (IsLive area.new) }
    ensures goes { V.told → (F : Map) → Works (V.state (volume area.old)) area.old.kept F
        → GoesToOne S.told (V.state (volume area.old)) (V.state (volume area.new)) area.new.kept F (after_segments (S.files src.old) (outside (V.state (volume area.old)).held) parts.now) refusal result }
    ensures roomy { V.told → (F : Map) → Works (V.state (volume area.old)) area.old.kept F → IsRoomy (V.state (volume area.old)) F parts.now → EndsRoomy (V.state (volume area.old)) (V.state (volume area.new)) F result }
    ensures passes { Passes (V.state (volume area.old)) (V.state (volume area.new)) }
    ensures caused { HaltCaused (Differs S.told parts.now) (V.told → (F : Map) × Works (V.state (volume area.old)) area.old.kept F × IsRoomy (V.state (volume area.old)) F parts.now) (BelowCount (S.faults src.old) (S.faults src.new)) refusal begun (V.state (volume area.old)).faults (V.state (volume area.new)).faults result }
    ensures reached { ¬ HaveNoRecord parts.now → HaltReached refusal begun parts.now result }
    ensures commit_begins { V.told → (F : Map) → Works (V.state (volume area.old)) area.old.kept F → GoesOn (V.state (volume area.old)) (V.state (volume area.new)) (λ d. StandsFor F d ⊎ HaltHasBegunCommit begun parts.now result) }
    ensures source_stays { S.files src.new ≡ S.files src.old }
    ensures source_counts { S.faults src.old ≤ S.faults src.new }
{
    match carry_parts(alloc, area, src, parts) {
        Ok(()) => {}
        Err(stopped) => {
            drop(refusal);
            return Err(Halt::from(stopped));
        }
    }
    match refusal {
        Some(cause) => Err(Halt::Back(Stopped {
            why: Stop::Refuse(cause),
            reached: begun,
        })),
        None => match area.commit() {
            Ok(()) => Ok(()),
            Err(fault) => Err(Halt::of(fault, last_reached(parts, begun))),
        },
    }
}
