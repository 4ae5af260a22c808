//! Carrying out a planned walk on a settled volume, with its log.

ghost use Rattle.std.specs.Prelude.{◌≡◌, ◌⊎◌, ◌≤◌, Bool, true, List, ℕ, Option, IfOk, IsOk, length, map, min, Ok};
ghost use Rattle.std.specs.List.{All};
ghost use Rattle.mi_text.specs.declared.answers.Settled.{Settled as Found};
ghost use Rattle.mi_volume.specs.State.{Passes};
ghost use Rattle.mi_source.specs.Counts.{Rose};
ghost use Rattle.mi_script.specs.Scripts.{touched_names};
ghost use Rattle.mi_undo.specs.Area.{AreOutside};
ghost use Rattle.mi_undo.specs.Keeps.{IsFree};
ghost use Rattle.mi_undo.specs.Names.{most_entries};
ghost use Rattle.mi_base.specs.Machine.{machine_of, volume_of};
ghost use Rattle.mi_base.specs.declared.answers.Cause.{Cause as Why};
ghost use Rattle.mi_runner.specs.Records.{MayCarry, HasLength};
ghost use Rattle.mi_model.specs.Assignments.{Assigned};
ghost use Rattle.mi_carry.specs.Rooms.{HasRoom};
ghost use Rattle.mi_model.specs.Outcome.{free_room};
ghost use Rattle.mi_model.specs.PackageOutcome.{Outcome, whole};
ghost use Rattle.mi_model.specs.Planning.{IsPlan};
ghost use Rattle.mi_model.specs.Report.{report_of};
ghost use Rattle.mi_model.specs.Walk.{walk};
ghost use Rattle.mi_model.specs.Words.{Package};
ghost use Rattle.mi_model.specs.World.{Given};
ghost use Rattle.mi_plan.specs.Made.{as_planned};
ghost use Rattle.mi_plan.specs.Refusals.{IsWalkRefusal};
ghost use Rattle.mi_report.specs.WalkLogs.{IsMadeFor, IsWalkKind};
ghost use Rattle.mi_commands.specs.Answers.{IsTold};
ghost use Rattle.mi_commands.specs.Calls.{IsCosted, IsPlanned};
ghost use Rattle.mi_commands.specs.Replies.{Serves, log_in};
ghost use Rattle.mi_commands.specs.Room.{Lacks, scripts_in};
ghost use Rattle.mi_commands.specs.Walks.{AreThere, IsReady, MayClose, MayRun, SaysKind, first_end, is_sized, is_sized_fault};

use crate::ending::unscanned;
use crate::reply::{Reply, logged, out_of_memory};
use crate::room::{Lack, lacking};
use mi_base::{Cause, Fault, Kind, NoMemory, Settled, Text};
use mi_carry::{Carried, Segment, carry_out};
use mi_cost::scripts_cost_what_the_walk_needs;
use mi_plan::WalkPlan;
use mi_report::WalkLog;
use mi_source::Source;
use mi_volume::Volume;
use std::alloc::Global;

/// What is made of a planned walk before its first write.
#[derive(Drop)]
struct Ready {
    log: WalkLog,
    segments: Vec<Segment>,
    /// How many actions the walk begins.
    begun: u32,
}

/// The most segments that a run carries out: as many as a rollback area has entries.
const MOST_SEGMENTS: usize = 100_000_000;

/// Keeps planned segments in their written form.
fn keep(alloc: Global, planned: &[mi_plan::Segment]) -> Result<Vec<Segment>, NoMemory>
    ensures { IfOk result (λ v. v.items ≡ map as_planned planned.now) }
{
    let mut kept = Vec::new(alloc);
    for segment in planned {
        kept.push(Segment::keep(alloc, &segment.script, segment.reached)?)?;
    }
    Ok(kept)
}

/// How many actions are begun. More than can be told are answered as want of memory.
fn count(begun: &[Text]) -> Result<u32, NoMemory>
    ensures { IfOk result (λ n. n ≡ length begun.now) }
{
    match u32::try_from(begun.len()) {
        Ok(count) => Ok(count),
        Err(_) => Err(NoMemory),
    }
}

/// Makes what is made before the first write. More segments than an area takes are answered as want of memory.
fn make_ready(alloc: Global, plan: &WalkPlan, settled: Settled) -> Result<Ready, NoMemory>
    ensures { IfOk result (λ r. IsReady settled plan.now r) }
{
    let begun = count(plan.begun.as_slice())?;
    let segments = keep(alloc, plan.segments.as_slice())?;
    if segments.len() > MOST_SEGMENTS {
        return Err(NoMemory);
    }
    let log = WalkLog::new(alloc, settled, plan.begun.as_slice(), &plan.refusal)?;
    Ok(Ready {
        log,
        segments,
        begun,
    })
}

/// Why a planned walk was refused, if it was, and its segments.
fn parts_of(plan: WalkPlan) -> (Option<Cause>, Vec<mi_plan::Segment>)
    ensures refusal { result.0 ≡ plan.refusal }
    ensures segments { result.1.items ≡ plan.segments.items }
{
    let WalkPlan {
        begun: _,
        segments,
        refusal,
        overlay: _,
    } = plan;
    (refusal, segments)
}

/// Carries out a planned walk on a settled volume, with its log: all of it, or nothing. What the log says is made, and room is asked
/// for, before the first write.
pub fn carry<S: Source, V: Volume>(
    alloc: Global,
    plan: WalkPlan,
    settled: Settled,
    src: &mut S,
    vol: &mut V,
) -> Reply
    requires free { V.told → IsFree (V.state vol.old) }
    requires spelled { V.told → IsOk (machine_of (V.state vol.old).held) }
    requires may_run { MayRun plan }
    requires lengths { S.told → AreThere (S.files src.old) plan }
    requires refusal { IsWalkRefusal plan.refusal }
    ensures serves { (recorded : Bool) (folder : List ℕ) (sets : Assigned) (g : Given) (out : Outcome) → (V.told → S.told → IsPlanned (S.files src.old) (free_room (V.state vol.old).capacity (V.state vol.old).held) g out plan) → (V.told → volume_of g.former ≡ (V.state vol.old).held)
        → Serves V.told (IsTold V.told S.told (Ok (Package recorded folder sets))) (V.state vol.old) (V.state vol.new) out (Package recorded folder sets) (λ s. s ≡ settled) (Rose (S.faults src.old) (S.faults src.new)) result.kind result.reached (log_in result) }
    ensures passes { Passes (V.state vol.old) (V.state vol.new) }
    ensures counts { S.faults src.old ≤ S.faults src.new }
{
    match make_ready(alloc, &plan, settled) {
        Ok(ready) => {
            let (refusal, segments) = parts_of(plan);
            carry_made(alloc, ready, segments, refusal, settled, src, vol)
        }
        Err(_) => {
            drop(plan);
            out_of_memory(alloc, true)
        }
    }
}

/// Carries out a walk for which all is made, where it has room.
fn carry_made<S: Source, V: Volume>(
    alloc: Global,
    ready: Ready,
    planned: Vec<mi_plan::Segment>,
    refusal: Option<Cause>,
    settled: Settled,
    src: &mut S,
    vol: &mut V,
) -> Reply
    requires free { V.told → IsFree (V.state vol.old) }
    requires spelled { V.told → IsOk (machine_of (V.state vol.old).held) }
    requires same { ready.segments.items ≡ map as_planned planned.items }
    requires few { length ready.segments.items ≤ most_entries }
    requires outside { All (λ s. AreOutside (touched_names s.records)) ready.segments.items }
    requires records { All (λ s. All MayCarry s.records) ready.segments.items }
    requires there { S.told → All (λ s. All (HasLength (S.files src.old)) s.records) ready.segments.items }
    requires refusal { IsWalkRefusal refusal }
    ensures serves { (recorded : Bool) (folder : List ℕ) (sets : Assigned) (g : Given) (out : Outcome) (names : List (List ℕ))
        → IsMadeFor settled names refusal ready.log → ready.begun ≡ length names
        → (V.told → S.told → IsCosted (S.files src.old) (free_room (V.state vol.old).capacity (V.state vol.old).held) g out names ready.segments.items refusal) → (V.told → volume_of g.former ≡ (V.state vol.old).held)
        → Serves V.told (IsTold V.told S.told (Ok (Package recorded folder sets))) (V.state vol.old) (V.state vol.new) out (Package recorded folder sets) (λ s. s ≡ settled) (Rose (S.faults src.old) (S.faults src.new)) result.kind result.reached (log_in result) }
    ensures passes { Passes (V.state vol.old) (V.state vol.new) }
    ensures counts { S.faults src.old ≤ S.faults src.new }
{
    match lacking(alloc, planned, vol) {
        Ok(lack) => carry_where(alloc, ready, lack, refusal, src, vol),
        Err(error) => {
            drop(ready);
            drop(refusal);
            logged(alloc, unscanned(error), settled, true)
        }
    }
}

/// Carries out a walk for which all is made, where nothing is lacking of its room.
fn carry_where<S: Source, V: Volume>(
    alloc: Global,
    ready: Ready,
    lack: Option<Lack>,
    refusal: Option<Cause>,
    src: &mut S,
    vol: &mut V,
) -> Reply
    requires free { V.told → IsFree (V.state vol.old) }
    requires lacks { V.told → Lacks (V.state vol.old).capacity (V.state vol.old).held (scripts_in ready.segments.items) lack }
    requires few { length ready.segments.items ≤ most_entries }
    requires outside { All (λ s. AreOutside (touched_names s.records)) ready.segments.items }
    requires records { All (λ s. All MayCarry s.records) ready.segments.items }
    requires there { S.told → All (λ s. All (HasLength (S.files src.old)) s.records) ready.segments.items }
    requires refusal { IsWalkRefusal refusal }
    ensures serves { (recorded : Bool) (folder : List ℕ) (sets : Assigned) (g : Given) (out : Outcome) (names : List (List ℕ)) (settled : Found)
        → IsMadeFor settled names refusal ready.log → ready.begun ≡ length names
        → (V.told → S.told → IsCosted (S.files src.old) (free_room (V.state vol.old).capacity (V.state vol.old).held) g out names ready.segments.items refusal) → (V.told → volume_of g.former ≡ (V.state vol.old).held)
        → Serves V.told (IsTold V.told S.told (Ok (Package recorded folder sets))) (V.state vol.old) (V.state vol.new) out (Package recorded folder sets) (λ s. s ≡ settled) (Rose (S.faults src.old) (S.faults src.new)) result.kind result.reached (log_in result) }
    ensures passes { Passes (V.state vol.old) (V.state vol.new) }
    ensures counts { S.faults src.old ≤ S.faults src.new }
{
    scripts_cost_what_the_walk_needs();
    match lack {
        None => carry_ready(alloc, ready, refusal, src, vol),
        Some(lack) => {
            drop(refusal);
            full(alloc, ready, lack)
        }
    }
}

/// The answer of a walk that has too little room: the actions up to the end of its first segment are begun.
fn full(alloc: Global, ready: Ready, lack: Lack) -> Reply
    ensures kind { (result.kind ≡ Kind.Refused (Cause.Full lack.need lack.free)) ⊎ (result.kind ≡ Kind.NoMemory) }
    ensures reached { result.reached ≡ min (first_end ready.segments.items) ready.begun }
    ensures log { (settled : Found) (names : List (List ℕ)) (refusal : Option Why) → IsMadeFor settled names refusal ready.log → log_in result ≡ report_of result.kind settled true names result.reached }
{
    let Ready {
        log,
        segments,
        begun,
    } = ready;
    let reached = least(first_end(segments.as_slice()), begun);
    refused_late(alloc, Cause::Full(lack.need, lack.free), reached, log)
}

/// How many actions are begun at the end of the first segment.
fn first_end(segments: &[Segment]) -> u64
    ensures { result ≡ first_end segments.now }
{
    match segments.first() {
        Some(segment) => segment.reached(),
        None => 0,
    }
}

/// Carries out a walk for which all is made and room is there.
fn carry_ready<S: Source, V: Volume>(
    alloc: Global,
    ready: Ready,
    refusal: Option<Cause>,
    src: &mut S,
    vol: &mut V,
) -> Reply
    requires free { V.told → IsFree (V.state vol.old) }
    requires room { V.told → HasRoom (V.state vol.old) ready.segments.items }
    requires few { length ready.segments.items ≤ most_entries }
    requires outside { All (λ s. AreOutside (touched_names s.records)) ready.segments.items }
    requires records { All (λ s. All MayCarry s.records) ready.segments.items }
    requires there { S.told → All (λ s. All (HasLength (S.files src.old)) s.records) ready.segments.items }
    requires refusal { IsWalkRefusal refusal }
    ensures serves { (recorded : Bool) (folder : List ℕ) (sets : Assigned) (g : Given) (out : Outcome) (names : List (List ℕ)) (settled : Found)
        → IsMadeFor settled names refusal ready.log → ready.begun ≡ length names → (V.told → S.told → (out ≡ whole (walk g)) × IsPlan (S.files src.old) (walk g) names ready.segments.items refusal) → (V.told → volume_of g.former ≡ (V.state vol.old).held)
        → Serves V.told (IsTold V.told S.told (Ok (Package recorded folder sets))) (V.state vol.old) (V.state vol.new) out (Package recorded folder sets) (λ s. s ≡ settled) (Rose (S.faults src.old) (S.faults src.new)) result.kind result.reached (log_in result) }
    ensures passes { Passes (V.state vol.old) (V.state vol.new) }
    ensures counts { S.faults src.old ≤ S.faults src.new }
{
    let Ready {
        log,
        segments,
        begun,
    } = ready;
    let carried = carry_out(
        alloc,
        vol,
        src,
        segments.as_slice(),
        u64::from(begun),
        refusal,
    );
    answered(alloc, carried, begun, log)
}

/// The answer of a walk with its log. Memory is taken only by a refusal by what a source that doesn't tell holds.
fn answered(alloc: Global, carried: Carried, begun: u32, log: WalkLog) -> Reply
    ensures says { SaysKind carried.kind result.kind }
    ensures reached { result.reached ≡ min carried.reached begun }
    ensures log { (settled : Found) (names : List (List ℕ)) (refusal : Option Why) → IsMadeFor settled names refusal log → MayClose refusal carried.kind → log_in result ≡ report_of result.kind settled true names result.reached }
{
    let Carried { kind, reached } = carried;
    let reached = least(reached, begun);
    match kind {
        Kind::Done => closed(Kind::Done, reached, log),
        Kind::Listed => closed(Kind::Listed, reached, log),
        Kind::Recovered(settled) => closed(Kind::Recovered(settled), reached, log),
        Kind::Refused(cause) => refused(alloc, cause, reached, log),
        Kind::Suspended(pause) => closed(Kind::Suspended(pause), reached, log),
        Kind::NoMemory => closed(Kind::NoMemory, reached, log),
    }
}

/// The less of two counts.
fn least(reached: u64, begun: u32) -> u32
    ensures { result ≡ min reached begun }
{
    match u32::try_from(reached) {
        Ok(reached) => reached.min(begun),
        Err(_) => begun,
    }
}

/// An answer whose line was made before. It takes no memory.
fn closed(kind: Kind, reached: u32, log: WalkLog) -> Reply
    ensures kind { result.kind ≡ kind }
    ensures reached { result.reached ≡ reached }
    ensures log { (settled : Found) (names : List (List ℕ)) (refusal : Option Why) → IsMadeFor settled names refusal log → IsWalkKind refusal kind → log_in result ≡ report_of kind settled true names reached }
{
    let log = log.close(&kind, reached);
    Reply { kind, reached, log }
}

/// The answer of a refusal.
fn refused(alloc: Global, cause: Cause, reached: u32, log: WalkLog) -> Reply
    ensures says { SaysKind (Kind.Refused cause) result.kind }
    ensures reached { result.reached ≡ reached }
    ensures log { (settled : Found) (names : List (List ℕ)) (refusal : Option Why) → IsMadeFor settled names refusal log → MayClose refusal (Kind.Refused cause) → log_in result ≡ report_of result.kind settled true names reached }
{
    if is_sized(&cause) {
        return refused_late(alloc, cause, reached, log);
    }
    closed(Kind::Refused(cause), reached, log)
}

/// The answer of a refusal whose line is made only now; where memory is wanted, that is the answer.
fn refused_late(alloc: Global, cause: Cause, reached: u32, log: WalkLog) -> Reply
    ensures kind { (result.kind ≡ Kind.Refused cause) ⊎ (result.kind ≡ Kind.NoMemory) }
    ensures reached { result.reached ≡ reached }
    ensures log { (settled : Found) (names : List (List ℕ)) (refusal : Option Why) → IsMadeFor settled names refusal log → log_in result ≡ report_of result.kind settled true names reached }
{
    match log.close_refused(alloc, &cause, reached) {
        Ok(log) => Reply {
            kind: Kind::Refused(cause),
            reached,
            log,
        },
        Err(log) => {
            drop(cause);
            Reply {
                kind: Kind::NoMemory,
                reached,
                log,
            }
        }
    }
}

/// Whether a refusal is by the length of a file of the source.
fn is_sized(cause: &Cause) -> bool
    ensures { result ≡ is_sized cause.now }
{
    match cause {
        Cause::Table(fault) => is_sized_fault(fault),
        _ => false,
    }
}

fn is_sized_fault(fault: &Fault) -> bool
    ensures { result ≡ is_sized_fault fault.now }
{
    matches!(fault, Fault::SizeDiffers(_, _, _))
}
