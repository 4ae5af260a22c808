//! InstallFiles as a plan call.

ghost use Rattle.std.specs.Prelude.{◌≡◌, ◌++◌, List, ℕ, All, Ok, OnOk, IsErrOf, map};
ghost use Rattle.mi_text.specs.Maps.{Map};
ghost use Rattle.mi_image.specs.Items.{AreThere};
ghost use Rattle.mi_image.specs.Overlays.{former_items, present_items};
ghost use Rattle.mi_model.specs.World.{World};
ghost use Rattle.mi_model.specs.InstallFiles.{all_placed, installed_row, install_files};
ghost use Rattle.mi_runner.specs.Records.{HasLength};
ghost use Rattle.mi_schema.specs.Lawful.{IsLawful};
ghost use Rattle.mi_script.specs.declared.rec.Rec.{Rec};
ghost use Rattle.mi_source.specs.Counts as source;
ghost use Rattle.mi_volume.specs.State as volume;
ghost use Rattle.mi_steps.specs.Follows.{Grows};
ghost use Rattle.mi_steps.specs.Makes.{plan_machine};
ghost use Rattle.mi_records.specs.Choices.{IsAsked};
ghost use Rattle.mi_installs.specs.Copying.{GrowsOn, StaysThere, AddsWhole};
ghost use Rattle.mi_installs.specs.Installs.{as_install, InstallRows, InstallPhase};
ghost use Rattle.mi_installs.specs.Placings.{as_placed, HasFilePath, HasLanguages};
ghost use Rattle.mi_installs.specs.Reading.{Reads};

use crate::deciding::decide;
use crate::error::InstallError;
use crate::placed::{Placed, placed_rows};
use crate::targets::same_target;
use crate::writing::write_rows;
use mi_records::{PlanError, Sees};
use mi_source::Source;
use mi_steps::Plan;
use mi_volume::Volume;
use std::alloc::Global;

// Decides over the machine as it stands, then carries out the rows, of which no two have one path.
#[tactic(auto, using(crate::proofs::InstallLemmas::grown_not))]
fn install_apart<E: Sees, S: Source, V: Volume>(
    alloc: Global,
    seen: &E,
    rows: &[Placed<'_>],
    plan: &mut Plan,
    src: &mut S,
    vol: &mut V,
) -> Result<(), InstallError>
    requires lawful { IsLawful (E.rows seen.now) }
    requires paths { All HasFilePath rows.now }
    requires languages { All HasLanguages rows.now }
    requires placed { (w : World) → IsAsked (E.lookups seen.now) (E.choices seen.now) (E.rows seen.now) w → all_placed w ≡ Ok (map as_placed rows.now) }
    ensures rows { (w : World) → IsAsked (E.lookups seen.now) (E.choices seen.now) (E.rows seen.now) w → V.told → S.told → w.given.files ≡ S.files src.old → w.machine ≡ plan_machine (V.state vol.old).held (S.files src.old) plan.old → AreThere (V.state vol.old).held (S.files src.old) (present_items plan.old.overlay)
        → InstallRows (V.state vol.old).held (S.files src.old) plan.old plan.new (map (installed_row w) (map as_placed rows.now)) result }
    ensures there { S.told → OnOk result (StaysThere (V.state vol.old).held (S.files src.old) plan.old plan.new) }
    ensures lengths { S.told → OnOk result (AddsWhole (S.files src.old) plan.old.script plan.new.script) }
    ensures reads { Reads V.told (V.state vol.old) (V.state vol.new) (S.files src.old) (S.files src.new) (S.faults src.old) (S.faults src.new) }
    ensures source { IsErrOf result InstallError.Source → source.Rose (S.faults src.old) (S.faults src.new) }
    ensures volume { IsErrOf result InstallError.Volume → volume.Rose (V.state vol.old) (V.state vol.new) }
    ensures grows { GrowsOn plan.old plan.new }
{
    match decide(alloc, seen, rows, plan.overlay.image(), src, vol) {
        Ok(decided) => write_rows(alloc, seen, rows, decided.as_slice(), plan, src),
        Err(error) => Err(error),
    }
}

// Carries out the coming rows, unless two of them have one path.
#[tactic(auto, using(crate::proofs::InstallLemmas::grown_not, crate::proofs::PhaseLemmas::reads_not))]
fn install_placed<E: Sees, S: Source, V: Volume>(
    alloc: Global,
    seen: &E,
    rows: &[Placed<'_>],
    plan: &mut Plan,
    src: &mut S,
    vol: &mut V,
) -> Result<(), InstallError>
    requires lawful { IsLawful (E.rows seen.now) }
    requires paths { All HasFilePath rows.now }
    requires languages { All HasLanguages rows.now }
    requires placed { (w : World) → IsAsked (E.lookups seen.now) (E.choices seen.now) (E.rows seen.now) w → all_placed w ≡ Ok (map as_placed rows.now) }
    ensures phase { (w : World) → IsAsked (E.lookups seen.now) (E.choices seen.now) (E.rows seen.now) w → V.told → S.told → w.given.files ≡ S.files src.old → w.machine ≡ plan_machine (V.state vol.old).held (S.files src.old) plan.old → AreThere (V.state vol.old).held (S.files src.old) (present_items plan.old.overlay)
        → InstallPhase (V.state vol.old).held (S.files src.old) plan.old plan.new install_files w result }
    ensures there { S.told → OnOk result (StaysThere (V.state vol.old).held (S.files src.old) plan.old plan.new) }
    ensures lengths { S.told → OnOk result (AddsWhole (S.files src.old) plan.old.script plan.new.script) }
    ensures reads { Reads V.told (V.state vol.old) (V.state vol.new) (S.files src.old) (S.files src.new) (S.faults src.old) (S.faults src.new) }
    ensures source { IsErrOf result InstallError.Source → source.Rose (S.faults src.old) (S.faults src.new) }
    ensures volume { IsErrOf result InstallError.Volume → volume.Rose (V.state vol.old) (V.state vol.new) }
    ensures grows { GrowsOn plan.old plan.new }
{
    match same_target(alloc, rows) {
        Ok(None) => install_apart(alloc, seen, rows, plan, src, vol),
        Ok(Some(fault)) => Err(InstallError::Fault(fault)),
        Err(_) => Err(InstallError::NoMemory),
    }
}

// The error of a call that asks no device.
fn planned(error: PlanError) -> InstallError
    ensures { result ≡ as_install error }
{
    match error {
        PlanError::NoMemory => InstallError::NoMemory,
        PlanError::Fault(fault) => InstallError::Fault(fault),
    }
}

/// InstallFiles: the files of coming rows of File that are to be written, in byte order of their keys, each with the folders that
/// are missing, its bytes those of the source. Which are written is decided for all rows before the first is, over the machine as
/// it stands then (InstallFiles action; File table; File Versioning Rules; Companion Files). It costs a search for each row and for
/// each folder of a path; bytes are read only of files whose hash is looked at.
///
/// Refused with the first path that is past the limits (`BadPath`), then where two rows have one path (`SameTarget`), then row by
/// row where the source hasn't the file (`Missing`) or has it with another size than the row states (`SizeDiffers`).
pub fn plan_install_files<E: Sees, S: Source, V: Volume>(
    alloc: Global,
    seen: &E,
    plan: &mut Plan,
    src: &mut S,
    vol: &mut V,
) -> Result<(), InstallError>
    requires { IsLawful (E.rows seen.now) }
    ensures phase { (w : World) → IsAsked (E.lookups seen.now) (E.choices seen.now) (E.rows seen.now) w → V.told → S.told → w.given.files ≡ S.files src.old → w.machine ≡ plan_machine (V.state vol.old).held (S.files src.old) plan.old → AreThere (V.state vol.old).held (S.files src.old) (present_items plan.old.overlay)
        → InstallPhase (V.state vol.old).held (S.files src.old) plan.old plan.new install_files w result }
    ensures there { V.told → S.told → AreThere (V.state vol.old).held (S.files src.old) (present_items plan.old.overlay) → OnOk result (AreThere (V.state vol.old).held (S.files src.old) (present_items plan.new.overlay)) }
    ensures lengths { S.told → OnOk result ((more : List Rec) → plan.new.script ≡ plan.old.script ++ more → All (HasLength (S.files src.old)) more) }
    ensures reads { Reads V.told (V.state vol.old) (V.state vol.new) (S.files src.old) (S.files src.new) (S.faults src.old) (S.faults src.new) }
    ensures source { IsErrOf result InstallError.Source → source.Rose (S.faults src.old) (S.faults src.new) }
    ensures volume { IsErrOf result InstallError.Volume → volume.Rose (V.state vol.old) (V.state vol.new) }
    ensures former { former_items plan.new.overlay ≡ former_items plan.old.overlay }
    ensures grows { Grows plan.old.script plan.new.script }
{
    match placed_rows(alloc, seen) {
        Ok(rows) => install_placed(alloc, seen, rows.as_slice(), plan, src, vol),
        Err(error) => Err(planned(error)),
    }
}
