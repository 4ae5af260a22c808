//! What steps do, an arm each.

ghost use Rattle.std.specs.Prelude.{◌≡◌, IfOk, OnOk, List, ℕ};
ghost use Rattle.mi_text.specs.Maps.{Name, Map};
ghost use Rattle.mi_volume.specs.State as volume;
ghost use Rattle.mi_source.specs.Counts.{Rose};
ghost use Rattle.mi_image.specs.Overlays.{former_items};
ghost use Rattle.mi_schema.specs.Lawful.{IsLawful};
ghost use Rattle.mi_plan.specs.Devices.{Asks, FailsOnly};
ghost use Rattle.mi_plan.specs.Lengths.{HaveLength};
ghost use Rattle.mi_plan.specs.Refusals.{EndsRight};
ghost use Rattle.mi_plan.specs.Stages.{IsRight, MayTake, Leaves, StaysThere};
ghost use Rattle.mi_plan.specs.Turns.{Begins};
ghost use Rattle.mi_plan.specs.declared.turn.Turn.TheVariants.{Went};
ghost use Rattle.mi_seq.specs.declared.step.Step.TheVariants as step;

use crate::error::{PhaseError, WalkError};
use crate::phases::plan_phase;
use crate::turn::Turn;
use mi_base::{Cause, Fault, NoMemory, Text};
use mi_props::PropError;
use mi_seq::{Phase, launch_refusal};
use mi_source::Source;
use mi_volume::Volume;
use mi_world::{World, WorldError};
use std::alloc::Global;

/// The launch conditions are asked (LaunchConditions action).
pub fn launch(alloc: Global, world: &World) -> Result<Turn, NoMemory>
    requires { IsLawful world.now.seen.loaded }
    ensures begins { (held files : Map (List ℕ)) (folder : Name) → IfOk result (Begins held files folder step.Launch world.now world.now) }
    ensures ends { IfOk result EndsRight }
{
    match launch_refusal(alloc, world.seen.package(), &world.seen)? {
        Some(cause) => Ok(Turn::Ended(Some(cause))),
        None => Ok(Turn::Went),
    }
}

/// Directories are resolved, and features and components are selected (CostFinalize action).
pub fn cost(alloc: Global, world: &mut World, folder: &str) -> Result<Turn, NoMemory>
    requires lawful { IsLawful world.old.seen.loaded }
    requires may { MayTake step.Cost world.old }
    ensures begins { (held files : Map (List ℕ)) → IfOk result (Begins held files folder.now step.Cost world.old world.new) }
    ensures ends { IfOk result EndsRight }
    ensures leaves { IfOk result (λ t. t ≡ Went → Leaves step.Cost world.old world.new) }
    ensures former { OnOk result (former_items world.new.plan.overlay ≡ former_items world.old.plan.overlay) }
{
    match world.cost(alloc, folder) {
        Ok(()) => Ok(Turn::Went),
        Err(WorldError::NoMemory) => Err(NoMemory),
        Err(WorldError::Fault(fault)) => Ok(Turn::Ended(Some(Cause::Table(fault)))),
    }
}

/// A property is set (Custom Action Type 51).
pub fn set_property(
    alloc: Global,
    world: &mut World,
    action: Text,
    name: &str,
    text: &str,
) -> Result<Turn, NoMemory>
    ensures begins { (held files : Map (List ℕ)) (folder : Name) → IfOk result (Begins held files folder (step.SetProperty action name.now text.now) world.old world.new) }
    ensures ends { IfOk result EndsRight }
    ensures leaves { IfOk result (λ t. t ≡ Went → Leaves (step.SetProperty action name.now text.now) world.old world.new) }
    ensures former { OnOk result (former_items world.new.plan.overlay ≡ former_items world.old.plan.overlay) }
{
    match world.set(alloc, name, text) {
        Ok(()) => Ok(Turn::Went),
        Err(PropError::NoMemory) => Err(NoMemory),
        Err(PropError::Fault(_)) => Ok(Turn::Ended(Some(Cause::Table(Fault::BadName(action))))),
    }
}

/// A directory is set (Custom Action Type 35).
pub fn set_dir(
    alloc: Global,
    world: &mut World,
    directory: &str,
    text: &str,
) -> Result<Turn, NoMemory>
    requires { (action : Name) → MayTake (step.SetDir action directory.now text.now) world.old }
    ensures begins { (held files : Map (List ℕ)) (folder action : Name) → IfOk result (Begins held files folder (step.SetDir action directory.now text.now) world.old world.new) }
    ensures ends { IfOk result EndsRight }
    ensures leaves { (action : Name) → IfOk result (λ t. t ≡ Went → Leaves (step.SetDir action directory.now text.now) world.old world.new) }
    ensures former { OnOk result (former_items world.new.plan.overlay ≡ former_items world.old.plan.overlay) }
{
    match world.set_dir(alloc, directory, text) {
        Ok(()) => Ok(Turn::Went),
        Err(WorldError::NoMemory) => Err(NoMemory),
        Err(WorldError::Fault(fault)) => Ok(Turn::Ended(Some(Cause::Table(fault)))),
    }
}

/// The rows of a phase are planned.
pub fn run<S: Source, V: Volume>(
    alloc: Global,
    world: &mut World,
    phase: Phase,
    src: &mut S,
    vol: &mut V,
) -> Result<Turn, WalkError>
    requires right { IsRight world.old.seen.loaded }
    requires may { MayTake (step.Phase phase) world.old }
    ensures begins { (folder : Name) → V.told → S.told → IfOk result (Begins (V.state vol.old).held (S.files src.old) folder (step.Phase phase) world.old world.new) }
    ensures there { V.told → S.told → IfOk result (λ t. t ≡ Went → StaysThere (V.state vol.old).held (S.files src.old) world.old world.new) }
    ensures lengths { S.told → HaveLength (S.files src.old) world.old.plan.script → IfOk result (λ t. t ≡ Went → HaveLength (S.files src.old) world.new.plan.script) }
    ensures leaves { IfOk result (λ t. t ≡ Went → Leaves (step.Phase phase) world.old world.new) }
    ensures former { OnOk result (former_items world.new.plan.overlay ≡ former_items world.old.plan.overlay) }
    ensures ends { IfOk result EndsRight }
    ensures asks { Asks V.told (V.state vol.old) (V.state vol.new) (S.files src.old) (S.files src.new) (S.faults src.old) (S.faults src.new) }
    ensures fails { FailsOnly (volume.Rose (V.state vol.old) (V.state vol.new)) (Rose (S.faults src.old) (S.faults src.new)) result }
{
    match plan_phase(alloc, &world.seen, &mut world.plan, phase, src, vol) {
        Ok(()) => Ok(Turn::Went),
        Err(PhaseError::NoMemory) => Err(WalkError::NoMemory),
        Err(PhaseError::Fault(fault)) => Ok(Turn::Ended(Some(Cause::Table(fault)))),
        Err(PhaseError::Source) => Err(WalkError::Source),
        Err(PhaseError::Volume) => Err(WalkError::Volume),
    }
}
