//! Carrying out a planned walk.

ghost use Rattle.std.specs.Prelude.{◌≡◌, ◌⊎◌, ◌≤◌, IsTrue, ◌↔◌, length};
ghost use Rattle.std.specs.List.{All};
ghost use Rattle.mi_volume.specs.Maps.{Map};
ghost use Rattle.mi_volume.specs.State.{Passes, GoesOn};
ghost use Rattle.mi_script.specs.Scripts.{touched_names};
ghost use Rattle.mi_undo.specs.Names.{most_entries};
ghost use Rattle.mi_undo.specs.Stands.{StandsFor, outside};
ghost use Rattle.mi_undo.specs.Keeps.{IsFree, Each};
ghost use Rattle.mi_undo.specs.Area.{AreOutside};
ghost use Rattle.mi_undo.specs.Room.{NeverShort};
ghost use Rattle.mi_runner.specs.Records.{MayCarry, HasLength};
ghost use Rattle.mi_model.specs.Causes.{BelowCount, SameCount};
ghost use Rattle.mi_model.specs.Leaves.{Cleans};
ghost use Rattle.mi_model.specs.Planning.{kind_by};
ghost use Rattle.mi_carry.specs.Segments.{after_segments, HaveNoRecord};
ghost use Rattle.mi_carry.specs.Causes.{IsWalkKind, Differs, Caused, Completes};
ghost use Rattle.mi_carry.specs.Ends.{MayStand, AtExit, Reads, EndsAtOne};
ghost use Rattle.mi_carry.specs.Halts.{unknown};
ghost use Rattle.mi_carry.specs.OneMap.{LeavesOne};
ghost use Rattle.mi_carry.specs.Reached.{IsReached, HasBegunCommit};
ghost use Rattle.mi_carry.specs.Rooms.{HasRoom};

use crate::fall::{fall_back, give_up};
use crate::segment::Segment;
use crate::stop::{Halt, Stop, Stopped};
use crate::walk::{carry_walk, first_reached};
use mi_base::{Cause, Kind, Pause, Place};
use mi_source::Source;
use mi_undo::{Refused, begin};
use mi_volume::Volume;
use std::alloc::Global;

/// What carrying out a walk answers: how it ended, and how many actions are begun then (this project's own).
#[derive(Drop)]
pub struct Carried {
    pub kind: Kind,
    pub reached: u64,
}

/// The answer of a walk that no device stops.
fn answer(refusal: Option<Cause>) -> Kind
    ensures { result ≡ kind_by refusal }
{
    match refusal {
        None => Kind::Done,
        Some(cause) => Kind::Refused(cause),
    }
}

/// The answer where it isn't known whether a commit holds: the volume's counts before the commit write, and before the
/// area was opened anew.
fn suspended_in_commit(first: u64, second: u64) -> Kind
    ensures { result ≡ unknown first second }
{
    Kind::Suspended(Pause {
        place: Place::InCommit,
        why: None,
        begun: first,
        again: second,
    })
}

/// Whether no segment has a record.
fn have_no_record(parts: &[Segment]) -> bool
    ensures { IsTrue result ↔ HaveNoRecord parts.now }
{
    for part in parts {
        if !part.is_empty() {
            return false;
        }
    }
    true
}

/// Begins an area and carries a walk out over it, or goes back.
fn work<S: Source, V: Volume>(
    alloc: Global,
    vol: &mut V,
    src: &mut S,
    parts: &[Segment],
    begun: u64,
    refusal: Option<Cause>,
) -> Carried
    requires free { V.told → IsFree (V.state vol.old) }
    requires some { ¬ HaveNoRecord parts.now }
    requires few { length parts.now ≤ most_entries }
    requires outside { All (λ p. AreOutside (touched_names p.records)) parts.now }
    requires records { All (λ p. All MayCarry p.records) parts.now }
    requires there { S.told → All (λ p. All (HasLength (S.files src.old)) p.records) parts.now }
    ensures ends { V.told → EndsAtOne S.told (V.state vol.old) (V.state vol.new) (V.state vol.old).held (after_segments (S.files src.old) (V.state vol.old).held parts.now) refusal result.kind }
    ensures caused { Caused (Differs S.told parts.now) (V.told → HasRoom (V.state vol.old) parts.now) (BelowCount (S.faults src.old) (S.faults src.new)) refusal begun result.reached (V.state vol.old).faults (V.state vol.new).faults result.kind }
    ensures recovers { V.told → HasRoom (V.state vol.old) parts.now → GoesOn (V.state vol.old) (V.state vol.new) (NeverShort (V.state vol.old).capacity) }
    ensures reached { IsReached refusal begun parts.now result.reached result.kind }
    ensures commit_begins { V.told → GoesOn (V.state vol.old) (V.state vol.new) (λ d. StandsFor (V.state vol.old).held d ⊎ HasBegunCommit begun parts.now result.reached result.kind) }
    ensures passes { Passes (V.state vol.old) (V.state vol.new) }
    ensures source_stays { S.files src.new ≡ S.files src.old }
    ensures source_counts { S.faults src.old ≤ S.faults src.new }
{
    let first = vol.faults();
    let mut area = match begin(alloc, vol) {
        Ok(area) => area,
        Err(refused) => {
            let Refused { vol: _, fault } = refused;
            drop(refusal);
            return Carried {
                kind: give_up(Stop::from(fault)),
                reached: first_reached(parts, begun),
            };
        }
    };
    match carry_walk(alloc, &mut area, src, parts, begun, refusal) {
        Ok(()) => {
            area.end();
            Carried {
                kind: Kind::Done,
                reached: begun,
            }
        }
        Err(Halt::Back(stopped)) => {
            let Stopped { why, reached } = stopped;
            Carried {
                kind: fall_back(alloc, area, first, why),
                reached,
            }
        }
        Err(Halt::Unknown(before, again, reached)) => {
            area.end();
            Carried {
                kind: suspended_in_commit(before, again),
                reached,
            }
        }
    }
}

/// Carries out a planned walk over a settled volume and a source, segment by segment: all of it, or nothing. `begun` is
/// how many actions the walk begins, and `refusal` why it ended early. Behind the last segment a walk that went to its
/// end is committed, and one that was refused is gone back over. Where no segment has a record, nothing is called.
/// A fault of a device is answered with the actions that are begun at the end of the segment at hand. Each script is
/// read back when its turn comes. Where what the scripts cost over what the volume holds fits beside it, no call meets
/// want of room, forward or on the way back, and recovery of what a crash leaves has room (Rollback Installation; the
/// answers are this project's own).
pub fn carry_out<S: Source, V: Volume>(
    alloc: Global,
    vol: &mut V,
    src: &mut S,
    segments: &[Segment],
    begun: u64,
    refusal: Option<Cause>,
) -> Carried
    requires free { V.told → IsFree (V.state vol.old) }
    requires few { length segments.now ≤ most_entries }
    requires outside { All (λ s. AreOutside (touched_names s.records)) segments.now }
    requires records { All (λ s. All MayCarry s.records) segments.now }
    requires there { S.told → All (λ s. All (HasLength (S.files src.old)) s.records) segments.now }
    ensures stops { V.told → GoesOn (V.state vol.old) (V.state vol.new) (MayStand S.told (V.state vol.old).held (after_segments (S.files src.old) (V.state vol.old).held segments.now) refusal (BelowCount (V.state vol.old).faults (V.state vol.new).faults) result.kind) }
    ensures leaves { V.told → Each (V.state vol.new) (AtExit S.told (V.state vol.old).held (after_segments (S.files src.old) (V.state vol.old).held segments.now) refusal result.kind) }
    ensures reads { V.told → Reads S.told (V.state vol.old).held (after_segments (S.files src.old) (V.state vol.old).held segments.now) result.kind (outside (V.state vol.new).held) }
    ensures one_map { V.told → (A : Map) × (S.told → A ≡ after_segments (S.files src.old) (V.state vol.old).held segments.now) × LeavesOne (V.state vol.old) (V.state vol.new) (V.state vol.old).held A result.kind }
    ensures cleans { V.told → Cleans (V.state vol.old) (V.state vol.new) result.kind }
    ensures kinds { IsWalkKind result.kind }
    ensures caused { Caused (Differs S.told segments.now) (V.told → HasRoom (V.state vol.old) segments.now) (BelowCount (S.faults src.old) (S.faults src.new)) refusal begun result.reached (V.state vol.old).faults (V.state vol.new).faults result.kind }
    ensures complete { S.told → (V.told → HasRoom (V.state vol.old) segments.now) → SameCount (V.state vol.old).faults (V.state vol.new).faults → SameCount (S.faults src.old) (S.faults src.new) → Completes refusal begun result.reached result.kind }
    ensures recovers { V.told → HasRoom (V.state vol.old) segments.now → GoesOn (V.state vol.old) (V.state vol.new) (NeverShort (V.state vol.old).capacity) }
    ensures idle_volume { HaveNoRecord segments.now → vol.new ≡ vol.old }
    ensures idle_source { HaveNoRecord segments.now → src.new ≡ src.old }
    ensures idle_answer { HaveNoRecord segments.now → result.kind ≡ kind_by refusal }
    ensures idle_reached { HaveNoRecord segments.now → result.reached ≡ begun }
    ensures reached { IsReached refusal begun segments.now result.reached result.kind }
    ensures commit_begins { V.told → GoesOn (V.state vol.old) (V.state vol.new) (λ d. StandsFor (V.state vol.old).held d ⊎ HasBegunCommit begun segments.now result.reached result.kind) }
    ensures passes { Passes (V.state vol.old) (V.state vol.new) }
    ensures source_stays { S.files src.new ≡ S.files src.old }
    ensures source_counts { S.faults src.old ≤ S.faults src.new }
{
    if have_no_record(segments) {
        return Carried {
            kind: answer(refusal),
            reached: begun,
        };
    }
    work(alloc, vol, src, segments, begun, refusal)
}
