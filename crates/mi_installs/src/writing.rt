//! InstallFiles: what its rows write.

ghost use Rattle.std.specs.Prelude.{◌≡◌, ◌≤◌, List, ℕ, All, OnOk, IsErrOf, map, length};
ghost use Rattle.mi_text.specs.Maps.{Map};
ghost use Rattle.mi_model.specs.World.{World};
ghost use Rattle.mi_model.specs.FilePaths.{source_path};
ghost use Rattle.mi_model.specs.FileVersions.{is_written};
ghost use Rattle.mi_model.specs.InstallFiles.{installed_row};
ghost use Rattle.mi_schema.specs.Lawful.{IsLawful};
ghost use Rattle.mi_source.specs.Counts.{Rose};
ghost use Rattle.mi_records.specs.Choices.{IsAsked};
ghost use Rattle.mi_installs.specs.Copying.{GrowsOn, StaysThere, AddsWhole};
ghost use Rattle.mi_installs.specs.Installs.{written_row, InstallRow, InstallRows};
ghost use Rattle.mi_installs.specs.Placings.{as_placed, HasFilePath, HasLanguages};

use crate::copying::copy_row;
use crate::error::InstallError;
use crate::placed::Placed;
use crate::sources::{judge_source, source_path};
use mi_records::Sees;
use mi_source::Source;
use mi_steps::Plan;
use std::alloc::Global;

// Carries out a row that is written, from this path of the source: its file there is judged, then copied.
#[tactic(auto, using(crate::proofs::InstallLemmas::grown_not))]
fn write_from<S: Source>(
    alloc: Global,
    placed: &Placed<'_>,
    moment: u64,
    path: &str,
    plan: &mut Plan,
    src: &mut S,
) -> Result<(), InstallError>
    requires path { HasFilePath placed.now }
    requires languages { HasLanguages placed.now }
    ensures row { (held : Map (List ℕ)) (w : World) → w.given.now ≡ moment → path.now ≡ source_path w placed.now.row.now → S.told → w.given.files ≡ S.files src.old → InstallRow held (S.files src.old) plan.old plan.new (written_row w (as_placed placed.now)) result }
    ensures there { (held : Map (List ℕ)) → S.told → OnOk result (StaysThere held (S.files src.old) plan.old plan.new) }
    ensures lengths { S.told → OnOk result (AddsWhole (S.files src.old) plan.old.script plan.new.script) }
    ensures source { IsErrOf result InstallError.Source → Rose (S.faults src.old) (S.faults src.new) }
    ensures volume { ¬ IsErrOf result InstallError.Volume }
    ensures stays { S.files src.new ≡ S.files src.old }
    ensures counts { S.faults src.old ≤ S.faults src.new }
    ensures grows { GrowsOn plan.old plan.new }
{
    match judge_source(alloc, src, placed.row, path) {
        Ok(()) => {
            copy_row(alloc, placed, moment, path, plan)?;
            Ok(())
        }
        Err(error) => Err(error),
    }
}

// Carries out a row that is written.
#[tactic(auto, using(crate::proofs::InstallLemmas::grown_not))]
fn write_row<E: Sees, S: Source>(
    alloc: Global,
    seen: &E,
    placed: &Placed<'_>,
    plan: &mut Plan,
    src: &mut S,
) -> Result<(), InstallError>
    requires lawful { IsLawful (E.rows seen.now) }
    requires path { HasFilePath placed.now }
    requires languages { HasLanguages placed.now }
    ensures row { (held : Map (List ℕ)) (w : World) → IsAsked (E.lookups seen.now) (E.choices seen.now) (E.rows seen.now) w → S.told → w.given.files ≡ S.files src.old → InstallRow held (S.files src.old) plan.old plan.new (written_row w (as_placed placed.now)) result }
    ensures there { (held : Map (List ℕ)) → S.told → OnOk result (StaysThere held (S.files src.old) plan.old plan.new) }
    ensures lengths { S.told → OnOk result (AddsWhole (S.files src.old) plan.old.script plan.new.script) }
    ensures source { IsErrOf result InstallError.Source → Rose (S.faults src.old) (S.faults src.new) }
    ensures volume { ¬ IsErrOf result InstallError.Volume }
    ensures stays { S.files src.new ≡ S.files src.old }
    ensures counts { S.faults src.old ≤ S.faults src.new }
    ensures grows { GrowsOn plan.old plan.new }
{
    let path = source_path(alloc, seen, placed.row)?;
    write_from(alloc, placed, seen.moment(), path.as_str(), plan, src)
}

// Carries out a row, if it is written.
#[tactic(auto, using(crate::proofs::InstallLemmas::grown_not))]
fn write_decided<E: Sees, S: Source>(
    alloc: Global,
    seen: &E,
    placed: &Placed<'_>,
    decided: bool,
    plan: &mut Plan,
    src: &mut S,
) -> Result<(), InstallError>
    requires lawful { IsLawful (E.rows seen.now) }
    requires path { HasFilePath placed.now }
    requires languages { HasLanguages placed.now }
    ensures row { (held : Map (List ℕ)) (w : World) → IsAsked (E.lookups seen.now) (E.choices seen.now) (E.rows seen.now) w → S.told → w.given.files ≡ S.files src.old → decided ≡ is_written w placed.now.row.now → InstallRow held (S.files src.old) plan.old plan.new (installed_row w (as_placed placed.now)) result }
    ensures there { (held : Map (List ℕ)) → S.told → OnOk result (StaysThere held (S.files src.old) plan.old plan.new) }
    ensures lengths { S.told → OnOk result (AddsWhole (S.files src.old) plan.old.script plan.new.script) }
    ensures source { IsErrOf result InstallError.Source → Rose (S.faults src.old) (S.faults src.new) }
    ensures volume { ¬ IsErrOf result InstallError.Volume }
    ensures stays { S.files src.new ≡ S.files src.old }
    ensures counts { S.faults src.old ≤ S.faults src.new }
    ensures grows { GrowsOn plan.old plan.new }
{
    if decided {
        write_row(alloc, seen, placed, plan, src)
    } else {
        Ok(())
    }
}

/// Carries out those rows that are decided to be written, one after the other. Of each the source is asked for its file and the
/// file's size before anything of it is planned (InstallFiles action).
pub(crate) fn write_rows<E: Sees, S: Source>(
    alloc: Global,
    seen: &E,
    rows: &[Placed<'_>],
    decided: &[bool],
    plan: &mut Plan,
    src: &mut S,
) -> Result<(), InstallError>
    requires lawful { IsLawful (E.rows seen.now) }
    requires paths { All HasFilePath rows.now }
    requires languages { All HasLanguages rows.now }
    requires size { length decided.now ≡ length rows.now }
    ensures rows { (held : Map (List ℕ)) (w : World) → IsAsked (E.lookups seen.now) (E.choices seen.now) (E.rows seen.now) w → S.told → w.given.files ≡ S.files src.old → decided.now ≡ map (λ p. is_written w p.row.now) rows.now → InstallRows held (S.files src.old) plan.old plan.new (map (λ p. installed_row w (as_placed p)) rows.now) result }
    ensures there { (held : Map (List ℕ)) → S.told → OnOk result (StaysThere held (S.files src.old) plan.old plan.new) }
    ensures lengths { S.told → OnOk result (AddsWhole (S.files src.old) plan.old.script plan.new.script) }
    ensures source { IsErrOf result InstallError.Source → Rose (S.faults src.old) (S.faults src.new) }
    ensures volume { ¬ IsErrOf result InstallError.Volume }
    ensures stays { S.files src.new ≡ S.files src.old }
    ensures counts { S.faults src.old ≤ S.faults src.new }
    ensures grows { GrowsOn plan.old plan.new }
{
    for (place, placed) in rows.iter().enumerate() {
        match write_decided(alloc, seen, placed, decided[place], plan, src) {
            Ok(()) => {}
            Err(error) => return Err(error),
        }
    }
    Ok(())
}
