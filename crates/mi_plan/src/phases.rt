//! Phases.

ghost use Rattle.std.specs.Prelude.{◌≡◌, List, ℕ, OnOk, false};
ghost use Rattle.mi_text.specs.Maps.{Map};
ghost use Rattle.mi_volume.specs.State as volume;
ghost use Rattle.mi_source.specs.Counts.{Rose};
ghost use Rattle.mi_image.specs.Items.{AreThere};
ghost use Rattle.mi_image.specs.Overlays.{former_items, present_items};
ghost use Rattle.mi_model.specs.InstallFiles.{install_files};
ghost use Rattle.mi_model.specs.World.{Given};
ghost use Rattle.mi_records.specs.Rows.{Phase as IsPlanned};
ghost use Rattle.mi_seq.specs.Meaning.{effect};
ghost use Rattle.mi_steps.specs.Follows.{Grows};
ghost use Rattle.mi_world.specs.Seen.{world_over, IsOf, IsCosted};
ghost use Rattle.mi_plan.specs.Devices.{Asks, PhaseFailsOnly};
ghost use Rattle.mi_plan.specs.Lengths.{HaveLength};
ghost use Rattle.mi_plan.specs.Phases.{IsPlannedPhase, is_install, of_install};
ghost use Rattle.mi_plan.specs.Stages.{IsRight};

use crate::copies::check_copies;
use crate::error::PhaseError;
use mi_clients::plan_process_components;
use mi_environment::{plan_remove_environment, plan_write_environment};
use mi_files::{
    plan_create_folders, plan_duplicate, plan_remove_duplicate, plan_remove_files,
    plan_remove_folders,
};
use mi_installs::{InstallError, plan_install_files};
use mi_records::{PlanError, plan_publish_product, plan_remove_registry, plan_write_registry};
use mi_seq::Phase;
use mi_shortcuts::{plan_create_shortcuts, plan_remove_shortcuts};
use mi_source::Source;
use mi_steps::Plan;
use mi_volume::Volume;
use mi_world::{Seen, phases_ask};
use std::alloc::Global;

/// Plans the rows of a phase that asks no device.
fn plan_rows(alloc: Global, seen: &Seen, plan: &mut Plan, phase: Phase) -> Result<(), PlanError>
    requires right { IsRight seen.now.loaded }
    requires costed { IsCosted seen.now }
    requires other { is_install phase ≡ false }
    ensures phase { (held files : Map (List ℕ)) (g : Given) → IsOf g seen.now → AreThere held files (present_items plan.old.overlay) → IsPlanned held files plan.old plan.new (effect phase) (world_over held files g seen.now plan.old) result }
    ensures there { (held files : Map (List ℕ)) → AreThere held files (present_items plan.old.overlay) → AreThere held files (present_items plan.new.overlay) }
    ensures former { former_items plan.new.overlay ≡ former_items plan.old.overlay }
    ensures grows { Grows plan.old.script plan.new.script }
{
    phases_ask(seen, plan);
    match phase {
        Phase::ProcessComponents => plan_process_components(alloc, seen, plan),
        Phase::RemoveRegistryValues => plan_remove_registry(alloc, seen, plan),
        Phase::RemoveShortcuts => plan_remove_shortcuts(alloc, seen, plan),
        Phase::RemoveEnvironmentStrings => plan_remove_environment(alloc, seen, plan),
        Phase::RemoveDuplicateFiles => plan_remove_duplicate(alloc, seen, plan),
        Phase::RemoveFiles => plan_remove_files(alloc, seen, plan),
        Phase::RemoveFolders => plan_remove_folders(alloc, seen, plan),
        Phase::CreateFolders => plan_create_folders(alloc, seen, plan),
        Phase::InstallFiles => unreachable!(),
        Phase::DuplicateFiles => plan_duplicate(alloc, seen, plan),
        Phase::CreateShortcuts => plan_create_shortcuts(alloc, seen, plan),
        Phase::WriteRegistryValues => plan_write_registry(alloc, seen, plan),
        Phase::WriteEnvironmentStrings => plan_write_environment(alloc, seen, plan),
        Phase::PublishProduct => plan_publish_product(alloc, seen, plan),
    }
}

/// Plans the rows of a phase that asks no device, and judges that none of its records copies a file of the source.
fn plan_seen(alloc: Global, seen: &Seen, plan: &mut Plan, phase: Phase) -> Result<(), PhaseError>
    requires right { IsRight seen.now.loaded }
    requires costed { IsCosted seen.now }
    requires other { is_install phase ≡ false }
    ensures phase { (held files : Map (List ℕ)) (g : Given) → IsOf g seen.now → AreThere held files (present_items plan.old.overlay) → IsPlannedPhase held files plan.old plan.new (effect phase) (world_over held files g seen.now plan.old) result }
    ensures there { (held files : Map (List ℕ)) → AreThere held files (present_items plan.old.overlay) → AreThere held files (present_items plan.new.overlay) }
    ensures lengths { (files : Map (List ℕ)) → HaveLength files plan.old.script → OnOk result (HaveLength files plan.new.script) }
    ensures former { former_items plan.new.overlay ≡ former_items plan.old.overlay }
    ensures fails { PhaseFailsOnly ⊥ ⊥ result }
{
    let had = plan.script.recs().len();
    match plan_rows(alloc, seen, plan, phase) {
        Ok(()) => match check_copies(&plan.script, had) {
            Ok(()) => Ok(()),
            Err(_) => Err(PhaseError::NoMemory),
        },
        Err(PlanError::NoMemory) => Err(PhaseError::NoMemory),
        Err(PlanError::Fault(fault)) => Err(PhaseError::Fault(fault)),
    }
}

/// The error of InstallFiles.
fn install_error(error: InstallError) -> PhaseError
    ensures { result ≡ of_install error }
{
    match error {
        InstallError::NoMemory => PhaseError::NoMemory,
        InstallError::Fault(fault) => PhaseError::Fault(fault),
        InstallError::Source => PhaseError::Source,
        InstallError::Volume => PhaseError::Volume,
    }
}

/// Plans the rows of InstallFiles, which asks both devices.
fn plan_install<S: Source, V: Volume>(
    alloc: Global,
    seen: &Seen,
    plan: &mut Plan,
    src: &mut S,
    vol: &mut V,
) -> Result<(), PhaseError>
    requires right { IsRight seen.now.loaded }
    requires costed { IsCosted seen.now }
    ensures phase { (g : Given) → V.told → S.told → g.files ≡ S.files src.old → IsOf g seen.now → AreThere (V.state vol.old).held (S.files src.old) (present_items plan.old.overlay)
        → IsPlannedPhase (V.state vol.old).held (S.files src.old) plan.old plan.new install_files (world_over (V.state vol.old).held (S.files src.old) g seen.now plan.old) result }
    ensures there { V.told → S.told → AreThere (V.state vol.old).held (S.files src.old) (present_items plan.old.overlay) → OnOk result (AreThere (V.state vol.old).held (S.files src.old) (present_items plan.new.overlay)) }
    ensures lengths { S.told → HaveLength (S.files src.old) plan.old.script → OnOk result (HaveLength (S.files src.old) plan.new.script) }
    ensures former { former_items plan.new.overlay ≡ former_items plan.old.overlay }
    ensures asks { Asks V.told (V.state vol.old) (V.state vol.new) (S.files src.old) (S.files src.new) (S.faults src.old) (S.faults src.new) }
    ensures fails { PhaseFailsOnly (volume.Rose (V.state vol.old) (V.state vol.new)) (Rose (S.faults src.old) (S.faults src.new)) result }
{
    phases_ask(seen, plan);
    match plan_install_files(alloc, seen, plan, src, vol) {
        Ok(()) => Ok(()),
        Err(error) => Err(install_error(error)),
    }
}

fn is_install(phase: Phase) -> bool
    ensures { result ≡ is_install phase }
{
    matches!(phase, Phase::InstallFiles)
}

/// Plans the rows of a phase. Only InstallFiles asks the devices.
pub fn plan_phase<S: Source, V: Volume>(
    alloc: Global,
    seen: &Seen,
    plan: &mut Plan,
    phase: Phase,
    src: &mut S,
    vol: &mut V,
) -> Result<(), PhaseError>
    requires right { IsRight seen.now.loaded }
    requires costed { IsCosted seen.now }
    ensures phase { (g : Given) → V.told → S.told → g.files ≡ S.files src.old → IsOf g seen.now → AreThere (V.state vol.old).held (S.files src.old) (present_items plan.old.overlay)
        → IsPlannedPhase (V.state vol.old).held (S.files src.old) plan.old plan.new (effect phase) (world_over (V.state vol.old).held (S.files src.old) g seen.now plan.old) result }
    ensures there { V.told → S.told → AreThere (V.state vol.old).held (S.files src.old) (present_items plan.old.overlay) → OnOk result (AreThere (V.state vol.old).held (S.files src.old) (present_items plan.new.overlay)) }
    ensures lengths { S.told → HaveLength (S.files src.old) plan.old.script → OnOk result (HaveLength (S.files src.old) plan.new.script) }
    ensures former { former_items plan.new.overlay ≡ former_items plan.old.overlay }
    ensures asks { Asks V.told (V.state vol.old) (V.state vol.new) (S.files src.old) (S.files src.new) (S.faults src.old) (S.faults src.new) }
    ensures fails { PhaseFailsOnly (volume.Rose (V.state vol.old) (V.state vol.new)) (Rose (S.faults src.old) (S.faults src.new)) result }
{
    if is_install(phase) {
        return plan_install(alloc, seen, plan, src, vol);
    }
    plan_seen(alloc, seen, plan, phase)
}
