//! Rows that are begun, and what their actions do.

ghost use Rattle.std.specs.Prelude.{◌≡◌, ◌++◌, ◌∷◌, [], None, false, List, ℕ, IfOk, IfSome, OnOk};
ghost use Rattle.mi_text.specs.Maps.{Map};
ghost use Rattle.mi_volume.specs.State as volume;
ghost use Rattle.mi_source.specs.Counts.{Rose};
ghost use Rattle.mi_image.specs.Overlays.{former_items};
ghost use Rattle.mi_seq.specs.Meaning.{action_of};
ghost use Rattle.mi_seq.specs.Stops.{is_end};
ghost use Rattle.mi_seq.specs.declared.step.Step.TheVariants as variant;
ghost use Rattle.mi_plan.specs.Devices.{Asks, FailsOnly};
ghost use Rattle.mi_plan.specs.Lengths.{HaveLengths};
ghost use Rattle.mi_plan.specs.Refusals.{EndsRight};
ghost use Rattle.mi_plan.specs.Stages.{IsRight, MayTake, Leaves, StaysThere, IsStepped, is_phase};
ghost use Rattle.mi_plan.specs.Turns.{Takes, Steps};
ghost use Rattle.mi_plan.specs.declared.turn.Turn.TheVariants.{Went};

use crate::arms::{cost, launch, run, set_dir, set_property};
use crate::error::WalkError;
use crate::turn::Turn;
use crate::work::Work;
use mi_base::{Cause, NoMemory, Text};
use mi_seq::{Phase, Step};
use mi_source::Source;
use mi_volume::Volume;
use std::alloc::Global;

/// Takes the step of an action that is begun, which is no phase: it asks no device.
fn take_seen(alloc: Global, work: &mut Work, folder: &str, step: Step) -> Result<Turn, NoMemory>
    requires right { IsRight work.old.world.seen.loaded }
    requires may { MayTake step work.old.world }
    requires more { is_end step ≡ false }
    requires seen { is_phase step ≡ false }
    ensures takes { (held files : Map (List ℕ)) → IfOk result (Takes held files folder.now step work.old work.new) }
    ensures lengths { (files : Map (List ℕ)) → HaveLengths files work.old Went → IfOk result (HaveLengths files work.new) }
    ensures begun { OnOk result (work.new.begun ≡ work.old.begun) }
    ensures leaves { IfOk result (λ t. t ≡ Went → Leaves step work.old.world work.new.world) }
    ensures former { OnOk result (former_items work.new.world.plan.overlay ≡ former_items work.old.world.plan.overlay) }
    ensures ends { IfOk result EndsRight }
{
    match step {
        Step::Plain(_) => Ok(Turn::Went),
        Step::Launch => launch(alloc, &work.world),
        Step::Cost => cost(alloc, &mut work.world, folder),
        Step::Initialize => Ok(Turn::Went),
        Step::Phase(_) => unreachable!(),
        Step::SetProperty(action, name, text) => {
            set_property(alloc, &mut work.world, action, name.as_str(), text.as_str())
        }
        Step::SetDir(_, directory, text) => {
            set_dir(alloc, &mut work.world, directory.as_str(), text.as_str())
        }
        Step::Error(action, text) => Ok(Turn::Ended(Some(Cause::ErrorAction(action, text)))),
        Step::Execute(_) => work.end_segment(alloc),
        Step::Finalize => work.end_segment(alloc),
        Step::End => unreachable!(),
    }
}

/// The phase of a step.
fn phase_of(step: &Step) -> Option<Phase>
    ensures some { IfSome result (λ phase. step.now ≡ variant.Phase phase) }
    ensures none { result ≡ None → is_phase step.now ≡ false }
{
    match step {
        Step::Phase(phase) => Some(*phase),
        _ => None,
    }
}

/// Takes the step of an action that is begun.
fn take<S: Source, V: Volume>(
    alloc: Global,
    work: &mut Work,
    folder: &str,
    step: Step,
    src: &mut S,
    vol: &mut V,
) -> Result<Turn, WalkError>
    requires right { IsRight work.old.world.seen.loaded }
    requires may { MayTake step work.old.world }
    requires more { is_end step ≡ false }
    ensures takes { V.told → S.told → IfOk result (Takes (V.state vol.old).held (S.files src.old) folder.now step work.old work.new) }
    ensures there { V.told → S.told → IfOk result (λ t. t ≡ Went → StaysThere (V.state vol.old).held (S.files src.old) work.old.world work.new.world) }
    ensures lengths { S.told → HaveLengths (S.files src.old) work.old Went → IfOk result (HaveLengths (S.files src.old) work.new) }
    ensures begun { OnOk result (work.new.begun ≡ work.old.begun) }
    ensures leaves { IfOk result (λ t. t ≡ Went → Leaves step work.old.world work.new.world) }
    ensures former { OnOk result (former_items work.new.world.plan.overlay ≡ former_items work.old.world.plan.overlay) }
    ensures ends { IfOk result EndsRight }
    ensures asks { Asks V.told (V.state vol.old) (V.state vol.new) (S.files src.old) (S.files src.new) (S.faults src.old) (S.faults src.new) }
    ensures fails { FailsOnly (volume.Rose (V.state vol.old) (V.state vol.new)) (Rose (S.faults src.old) (S.faults src.new)) result }
{
    match phase_of(&step) {
        Some(phase) => run(alloc, &mut work.world, phase, src, vol),
        None => match take_seen(alloc, work, folder, step) {
            Ok(turn) => Ok(turn),
            Err(_) => Err(WalkError::NoMemory),
        },
    }
}

/// Begins an action and takes its step.
fn begin<S: Source, V: Volume>(
    alloc: Global,
    work: &mut Work,
    folder: &str,
    step: Step,
    src: &mut S,
    vol: &mut V,
) -> Result<Turn, WalkError>
    requires right { IsRight work.old.world.seen.loaded }
    requires may { MayTake step work.old.world }
    requires more { is_end step ≡ false }
    ensures steps { V.told → S.told → IfOk result (Steps (V.state vol.old).held (S.files src.old) folder.now step work.old work.new) }
    ensures there { V.told → S.told → IfOk result (λ t. t ≡ Went → StaysThere (V.state vol.old).held (S.files src.old) work.old.world work.new.world) }
    ensures lengths { S.told → HaveLengths (S.files src.old) work.old Went → IfOk result (HaveLengths (S.files src.old) work.new) }
    ensures begun { OnOk result (work.new.begun.items ≡ work.old.begun.items ++ action_of step ∷ []) }
    ensures leaves { IfOk result (λ t. t ≡ Went → Leaves step work.old.world work.new.world) }
    ensures former { OnOk result (former_items work.new.world.plan.overlay ≡ former_items work.old.world.plan.overlay) }
    ensures ends { IfOk result EndsRight }
    ensures asks { Asks V.told (V.state vol.old) (V.state vol.new) (S.files src.old) (S.files src.new) (S.faults src.old) (S.faults src.new) }
    ensures fails { FailsOnly (volume.Rose (V.state vol.old) (V.state vol.new)) (Rose (S.faults src.old) (S.faults src.new)) result }
{
    let Ok(action) = Text::copy_of(alloc, step.action()) else {
        drop(step);
        return Err(WalkError::NoMemory);
    };
    let Ok(()) = work.begun.push(action) else {
        drop(step);
        return Err(WalkError::NoMemory);
    };
    take(alloc, work, folder, step, src, vol)
}

fn is_end(step: &Step) -> bool
    ensures { result ≡ is_end step.now }
{
    matches!(step, Step::End)
}

/// The turn of a step: its action is begun and does what it does, or the walk ends.
pub fn step_on<S: Source, V: Volume>(
    alloc: Global,
    work: &mut Work,
    folder: &str,
    step: Step,
    src: &mut S,
    vol: &mut V,
) -> Result<Turn, WalkError>
    requires right { IsRight work.old.world.seen.loaded }
    requires may { MayTake step work.old.world }
    ensures steps { IfOk result (IsStepped V.told S.told (V.state vol.old).held (S.files src.old) folder.now step work.old work.new) }
    ensures asks { Asks V.told (V.state vol.old) (V.state vol.new) (S.files src.old) (S.files src.new) (S.faults src.old) (S.faults src.new) }
    ensures fails { FailsOnly (volume.Rose (V.state vol.old) (V.state vol.new)) (Rose (S.faults src.old) (S.faults src.new)) result }
{
    let ended = is_end(&step);
    if ended {
        Ok(Turn::Ended(None))
    } else {
        begin(alloc, work, folder, step, src, vol)
    }
}
