//! The loop over the walk.

ghost use Rattle.std.specs.Prelude.{◌≡◌, ◌<◌, ◌≤◌, List, ℕ, Some, IfOk, OnOk, IsErrOf, length, map};
ghost use Rattle.std.specs.List.{All};
ghost use Rattle.mi_text.specs.Maps.{Map};
ghost use Rattle.mi_volume.specs.State as volume;
ghost use Rattle.mi_volume.specs.State.{Passes};
ghost use Rattle.mi_source.specs.Counts.{Rose};
ghost use Rattle.mi_image.specs.Items.{machine_over, AreThere};
ghost use Rattle.mi_image.specs.Looks.{OnlyLooks};
ghost use Rattle.mi_image.specs.Overlays.{former_items};
ghost use Rattle.mi_schema.specs.Lawful.{IsLawful};
ghost use Rattle.mi_schema.specs.RowsOf.{rows_in};
ghost use Rattle.mi_model.specs.World.{Given};
ghost use Rattle.mi_base.specs.declared.answers.Cause.TheVariants.{Table};
ghost use Rattle.mi_model.specs.Sequence.{sequence};
ghost use Rattle.mi_model.specs.Walk.{walk};
ghost use Rattle.mi_model.specs.Planning.{IsPlan};
ghost use Rattle.mi_runner.specs.Records.{MayCarry, HasLength};
ghost use Rattle.mi_script.specs.Scripts.{touched_names};
ghost use Rattle.mi_undo.specs.Area.{AreOutside};
ghost use Rattle.mi_seq.specs.Orders.{ordered};
ghost use Rattle.mi_seq.specs.Walks.{rest};
ghost use Rattle.mi_world.specs.Seen.{Starts};
ghost use Rattle.mi_plan.specs.Carried.{SegmentsCarry};
ghost use Rattle.mi_plan.specs.Devices.{Asks, FailsOnly};
ghost use Rattle.mi_plan.specs.Lengths.{HaveLengths, SegmentsHave};
ghost use Rattle.mi_plan.specs.Made.{as_planned, with_action};
ghost use Rattle.mi_plan.specs.Refusals.{EndsRight, IsWalkRefusal};
ghost use Rattle.mi_plan.specs.Stages.{IsRefusedBy, with_refused};
ghost use Rattle.mi_plan.specs.Stages.{IsRight, IsFresh, IsReady};
ghost use Rattle.mi_plan.specs.Turns.{IsSoFar, IsStart, IsTurned, planned_of};
ghost use Rattle.mi_plan.specs.declared.turn.Turn.TheVariants.{Went, Ended};

use crate::error::WalkError;
use crate::planned::WalkPlan;
use crate::segments::Segments;
use crate::steps::step_on;
use crate::turn::Turn;
use crate::work::Work;
use mi_base::{Cause, Fault, Text};
use mi_image::Image;
use mi_schema::{Package, keys_apart, keys_stand, references_stand};
use mi_seq::{Order, SeqError, Walk, order};
use mi_source::Source;
use mi_steps::Plan;
use mi_volume::Volume;
use mi_world::{Properties, World};
use std::alloc::Global;

// The walk ends with the refusal of an action, which is begun, or at the end of the rows.
fn refuse_with(work: &mut Work, action: Option<Text>, fault: Fault) -> Result<Turn, WalkError>
    ensures refused { IfOk result (λ t. t ≡ Ended (Some (Table fault))) }
    ensures world { work.new.world ≡ work.old.world }
    ensures segments { work.new.segments ≡ work.old.segments }
    ensures begun { OnOk result (work.new.begun.items ≡ with_action work.old.begun.items action) }
    ensures fails { FailsOnly ⊥ ⊥ result }
{
    match action {
        Some(action) => match work.begun.push(action) {
            Ok(()) => Ok(Turn::Ended(Some(Cause::Table(fault)))),
            Err(_) => {
                drop(fault);
                Err(WalkError::NoMemory)
            }
        },
        None => Ok(Turn::Ended(Some(Cause::Table(fault)))),
    }
}

// The walk has no next step.
fn refuse(work: &mut Work, error: SeqError) -> Result<Turn, WalkError>
    ensures refused { IfOk result (IsRefusedBy error) }
    ensures world { work.new.world ≡ work.old.world }
    ensures segments { work.new.segments ≡ work.old.segments }
    ensures begun { OnOk result (work.new.begun.items ≡ with_refused work.old.begun.items error) }
    ensures fails { FailsOnly ⊥ ⊥ result }
{
    match error {
        SeqError::NoMemory => Err(WalkError::NoMemory),
        SeqError::Refused(action, fault) => refuse_with(work, action, fault),
    }
}

// Begins the next row that holds, or ends the walk.
fn turn<S: Source, V: Volume>(
    alloc: Global,
    work: &mut Work,
    path: &mut Walk<'_>,
    folder: &str,
    src: &mut S,
    vol: &mut V,
) -> Result<Turn, WalkError>
    requires { IsReady work.old path.old }
    ensures turned { (g : Given) → V.told → S.told → folder.now ≡ g.folder → IsSoFar (V.state vol.old).held (S.files src.old) g work.old path.old → IfOk result (IsTurned (V.state vol.old).held (S.files src.old) g work.new path.new) }
    ensures lengths { S.told → HaveLengths (S.files src.old) work.old Went → IfOk result (HaveLengths (S.files src.old) work.new) }
    ensures ready { IfOk result (λ t. t ≡ Went → IsReady work.new path.new) }
    ensures shorter { IfOk result (λ t. t ≡ Went → length (rest work.new.world.seen.loaded path.new) < length (rest work.old.world.seen.loaded path.old)) }
    ensures former { OnOk result (former_items work.new.world.plan.overlay ≡ former_items work.old.world.plan.overlay) }
    ensures ends { IfOk result EndsRight }
    ensures asks { Asks V.told (V.state vol.old) (V.state vol.new) (S.files src.old) (S.files src.new) (S.faults src.old) (S.faults src.new) }
    ensures fails { FailsOnly (volume.Rose (V.state vol.old) (V.state vol.new)) (Rose (S.faults src.old) (S.faults src.new)) result }
{
    keys_stand(work.world.seen.package());
    references_stand(work.world.seen.package());
    match path.next(alloc, work.world.seen.package(), &work.world.seen) {
        Ok(step) => step_on(alloc, work, folder, step, src, vol),
        Err(error) => refuse(work, error),
    }
}

// Goes over the whole walk, and answers why it is refused, if it is.
fn walk_on<S: Source, V: Volume>(
    alloc: Global,
    work: &mut Work,
    path: &mut Walk<'_>,
    folder: &str,
    src: &mut S,
    vol: &mut V,
) -> Result<Option<Cause>, WalkError>
    requires { IsReady work.old path.old }
    ensures planned { (g : Given) → V.told → S.told → folder.now ≡ g.folder → IsSoFar (V.state vol.old).held (S.files src.old) g work.old path.old → IfOk result (λ why. IsPlan (S.files src.old) (walk g) work.new.begun.items (planned_of work.new) why) }
    ensures lengths { S.told → HaveLengths (S.files src.old) work.old Went → OnOk result (SegmentsHave (S.files src.old) work.new.segments.items) }
    ensures former { OnOk result (former_items work.new.world.plan.overlay ≡ former_items work.old.world.plan.overlay) }
    ensures refusal { IfOk result IsWalkRefusal }
    ensures asks { Asks V.told (V.state vol.old) (V.state vol.new) (S.files src.old) (S.files src.new) (S.faults src.old) (S.faults src.new) }
    ensures fails { FailsOnly (volume.Rose (V.state vol.old) (V.state vol.new)) (Rose (S.faults src.old) (S.faults src.new)) result }
{
    'rows: loop {
        match turn(alloc, work, path, folder, src, vol)? {
            Turn::Went => {}
            Turn::Ended(why) => return Ok(why),
        }
    }
}

// What is planned.
fn plan_of(work: Work, refusal: Option<Cause>) -> WalkPlan
    ensures begun { result.begun ≡ work.begun }
    ensures segments { result.segments ≡ work.segments }
    ensures carried { SegmentsCarry result.segments.items }
    ensures refusal { result.refusal ≡ refusal }
    ensures overlay { result.overlay ≡ work.world.plan.overlay }
{
    let Work {
        world,
        begun,
        segments,
    } = work;
    let World { seen, plan } = world;
    drop(seen);
    let Plan { overlay, script } = plan;
    drop(script);
    WalkPlan {
        begun,
        segments: segments.into_vec(),
        refusal,
        overlay,
    }
}

// Plans the walk over the rows in this order.
fn planned<S: Source, V: Volume>(
    alloc: Global,
    world: World,
    order: &Order,
    folder: &str,
    src: &mut S,
    vol: &mut V,
) -> Result<WalkPlan, WalkError>
    requires fresh { IsFresh world }
    requires order { ordered world.seen.loaded order.now ≡ sequence (rows_in world.seen.loaded) }
    ensures plan { (g : Given) → V.told → S.told → IsStart (V.state vol.old).held (S.files src.old) g world → folder.now ≡ g.folder → IfOk result (λ p. IsPlan (S.files src.old) (walk g) p.begun.items (map as_planned p.segments.items) p.refusal) }
    ensures carried { IfOk result (λ p. SegmentsCarry p.segments.items) }
    ensures lengths { S.told → IfOk result (λ p. SegmentsHave (S.files src.old) p.segments.items) }
    ensures former { IfOk result (λ p. former_items p.overlay ≡ former_items world.plan.overlay) }
    ensures refusal { IfOk result (λ p. IsWalkRefusal p.refusal) }
    ensures asks { Asks V.told (V.state vol.old) (V.state vol.new) (S.files src.old) (S.files src.new) (S.faults src.old) (S.faults src.new) }
    ensures fails { FailsOnly (volume.Rose (V.state vol.old) (V.state vol.new)) (Rose (S.faults src.old) (S.faults src.new)) result }
{
    keys_stand(world.seen.package());
    keys_apart(world.seen.package());
    let begun = Vec::new(alloc);
    let segments = Segments::new(alloc);
    let mut work = Work {
        world,
        begun,
        segments,
    };
    let mut path = Walk::start(order);
    match walk_on(alloc, &mut work, &mut path, folder, src, vol) {
        Ok(refusal) => Ok(plan_of(work, refusal)),
        Err(error) => {
            drop(work);
            Err(error)
        }
    }
}

// Plans the walk from the world before any action.
fn started<S: Source, V: Volume>(
    alloc: Global,
    loaded: Package,
    props: Properties,
    image: Image,
    order: &Order,
    folder: &str,
    now: u64,
    src: &mut S,
    vol: &mut V,
) -> Result<WalkPlan, WalkError>
    requires right { IsRight loaded }
    requires order { ordered loaded order.now ≡ sequence (rows_in loaded) }
    ensures plan { (g : Given) → V.told → S.told → g.files ≡ (S.files src.old) → AreThere (V.state vol.old).held (S.files src.old) image → Starts g loaded props (machine_over (V.state vol.old).held (S.files src.old) image) now → folder.now ≡ g.folder
        → IfOk result (λ p. IsPlan (S.files src.old) (walk g) p.begun.items (map as_planned p.segments.items) p.refusal) }
    ensures carried { IfOk result (λ p. SegmentsCarry p.segments.items) }
    ensures lengths { S.told → IfOk result (λ p. SegmentsHave (S.files src.old) p.segments.items) }
    ensures former { IfOk result (λ p. former_items p.overlay ≡ image) }
    ensures refusal { IfOk result (λ p. IsWalkRefusal p.refusal) }
    ensures asks { Asks V.told (V.state vol.old) (V.state vol.new) (S.files src.old) (S.files src.new) (S.faults src.old) (S.faults src.new) }
    ensures fails { FailsOnly (volume.Rose (V.state vol.old) (V.state vol.new)) (Rose (S.faults src.old) (S.faults src.new)) result }
{
    match World::start(alloc, loaded, props, image, now) {
        Ok(world) => planned(alloc, world, order, folder, src, vol),
        Err(_) => Err(WalkError::NoMemory),
    }
}

// Plans the whole walk, from the package on.
fn walked<S: Source, V: Volume>(
    alloc: Global,
    loaded: Package,
    props: Properties,
    image: Image,
    folder: &str,
    now: u64,
    src: &mut S,
    vol: &mut V,
) -> Result<WalkPlan, WalkError>
    requires lawful { IsLawful loaded }
    ensures plan { (g : Given) → V.told → S.told → g.files ≡ (S.files src.old) → AreThere (V.state vol.old).held (S.files src.old) image → Starts g loaded props (machine_over (V.state vol.old).held (S.files src.old) image) now → folder.now ≡ g.folder
        → IfOk result (λ p. IsPlan (S.files src.old) (walk g) p.begun.items (map as_planned p.segments.items) p.refusal) }
    ensures carried { IfOk result (λ p. SegmentsCarry p.segments.items) }
    ensures lengths { S.told → IfOk result (λ p. SegmentsHave (S.files src.old) p.segments.items) }
    ensures former { IfOk result (λ p. former_items p.overlay ≡ image) }
    ensures refusal { IfOk result (λ p. IsWalkRefusal p.refusal) }
    ensures asks { Asks V.told (V.state vol.old) (V.state vol.new) (S.files src.old) (S.files src.new) (S.faults src.old) (S.faults src.new) }
    ensures fails { FailsOnly (volume.Rose (V.state vol.old) (V.state vol.new)) (Rose (S.faults src.old) (S.faults src.new)) result }
{
    match order(alloc, &loaded) {
        Ok(order) => started(alloc, loaded, props, image, &order, folder, now, src, vol),
        Err(_) => {
            drop(loaded);
            drop(props);
            drop(image);
            Err(WalkError::NoMemory)
        }
    }
}

/// Plans the whole walk over InstallExecuteSequence: the actions that it begins, a script for each segment that ends, and its refusal, if it
/// is refused; what a phase planned before its refusal, and what stands behind the last end of a segment, is in no script. `folder` is the
/// package's in the source, and `now` the moment that new files carry, in seconds. The package is lawful, and the image
/// is that of the volume. Each script changes names outside the rollback area alone, and may be carried out;
/// each of its copies states how many bytes its file in the source has. The source and the volume are only read, where files are
/// installed, and nothing is written. An error is want of memory, or the fault of a device, whose count has risen then (InstallExecuteSequence
/// table; InstallExecute, InstallFinalize and InstallFiles actions).
pub fn plan_walk<S: Source, V: Volume>(
    alloc: Global,
    loaded: Package,
    props: Properties,
    image: Image,
    folder: &str,
    now: u64,
    src: &mut S,
    vol: &mut V,
) -> Result<WalkPlan, WalkError>
    requires lawful { IsLawful loaded }
    ensures plan { (g : Given) → V.told → S.told → g.files ≡ (S.files src.old) → AreThere (V.state vol.old).held (S.files src.old) image → Starts g loaded props (machine_over (V.state vol.old).held (S.files src.old) image) now → folder.now ≡ g.folder
        → IfOk result (λ p. IsPlan (S.files src.old) (walk g) p.begun.items (map as_planned p.segments.items) p.refusal) }
    ensures former { IfOk result (λ p. former_items p.overlay ≡ image) }
    ensures refusal { IfOk result (λ p. IsWalkRefusal p.refusal) }
    ensures outside { IfOk result (λ p. All (λ s. AreOutside (touched_names s.script)) p.segments.items) }
    ensures records { IfOk result (λ p. All (λ s. All MayCarry s.script) p.segments.items) }
    ensures there { S.told → IfOk result (λ p. All (λ s. All (HasLength (S.files src.old)) s.script) p.segments.items) }
    ensures stays { S.files src.new ≡ S.files src.old }
    ensures counts { S.faults src.old ≤ S.faults src.new }
    ensures looks { V.told → OnlyLooks (V.state vol.old) (V.state vol.new) }
    ensures passes { Passes (V.state vol.old) (V.state vol.new) }
    ensures source { IsErrOf result WalkError.Source → Rose (S.faults src.old) (S.faults src.new) }
    ensures volume { IsErrOf result WalkError.Volume → volume.Rose (V.state vol.old) (V.state vol.new) }
{
    walked(alloc, loaded, props, image, folder, now, src, vol)
}
