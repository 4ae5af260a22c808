//! Which coming rows of File are written (File Versioning Rules; REINSTALLMODE property; Companion Files).

ghost use Rattle.std.specs.Prelude.{◌≡◌, Some, Ok, List, ℕ, All, IfOk, IsErrOf, map, length};
ghost use Rattle.mi_text.specs.Path.{is_file_path};
ghost use Rattle.mi_image.specs.Items.{AreThere, machine_over};
ghost use Rattle.mi_schema.specs.Lawful.{IsLawful};
ghost use Rattle.mi_model.specs.World.{World};
ghost use Rattle.mi_model.specs.FilePaths.{path_of_row};
ghost use Rattle.mi_model.specs.FileVersions.{mode_of_row, new_file, product_language, is_called_for, is_written};
ghost use Rattle.mi_model.specs.InstallFiles.{all_placed};
ghost use Rattle.mi_model.specs.InstallFiles as model;
ghost use Rattle.mi_records.specs.Choices.{IsAsked};
ghost use Rattle.mi_base.specs.declared.answers.Fault.{Fault};
ghost use Rattle.mi_source.specs.Counts as source;
ghost use Rattle.mi_volume.specs.State as volume;
ghost use Rattle.mi_installs.specs.Deciding.{IsSeenOver, replaced_by};
ghost use Rattle.mi_installs.specs.Placings.{as_placed, HasFilePath};
ghost use Rattle.mi_installs.specs.Reading.{Reads, Causes};

use crate::error::InstallError;
use crate::hashes::same_hash;
use crate::leaders::{companion_of, followed};
use crate::placed::Placed;
use mi_file_rows::{mode_where, new_file};
use mi_fver::{Mode, NewFile, replaces};
use mi_image::Image;
use mi_records::{Sees, product_language};
use mi_schema::FileRow;
use mi_source::Source;
use mi_volume::Volume;
use std::alloc::Global;

// The letters under which a row's file is brought.
fn mode_of_row<E: Sees>(seen: &E, row: &FileRow) -> Mode
    ensures { (w : World) → IsAsked (E.lookups seen.now) (E.choices seen.now) (E.rows seen.now) w → result ≡ mode_of_row w row.now }
{
    mode_where(seen.was_present(row.component.as_str()), seen.mode())
}

// Whether the rules on versions let a row's file be written, which is this new one.
fn is_replaced<E: Sees, S: Source, V: Volume>(
    alloc: Global,
    seen: &E,
    placed: &Placed<'_>,
    new: &NewFile,
    language: u16,
    image: &Image,
    src: &mut S,
    vol: &mut V,
) -> Result<bool, InstallError>
    requires { IsLawful (E.rows seen.now) }
    ensures replaced { (w : World) → IsSeenOver (E.lookups seen.now) (E.choices seen.now) (E.rows seen.now) (V.state vol.old).held (S.files src.old) image.now w → V.told → S.told → path_of_row w placed.now.row.now ≡ Some placed.now.path
        → IfOk result (λ replaced. replaced ≡ replaced_by w placed.now.row.now new.now language) }
    ensures reads { Reads V.told (V.state vol.old) (V.state vol.new) (S.files src.old) (S.files src.new) (S.faults src.old) (S.faults src.new) }
    ensures causes { Causes (source.Rose (S.faults src.old) (S.faults src.new)) (volume.Rose (V.state vol.old) (V.state vol.new)) result }
{
    let mode = mode_of_row(seen, placed.row);
    match image.file(&placed.path) {
        Some(old) => {
            let same = same_hash(
                alloc,
                seen.package(),
                placed,
                mode,
                old,
                new,
                image,
                src,
                vol,
            )?;
            Ok(replaces(mode, Some(old), new, language, same))
        }
        None => Ok(replaces(mode, None, new, language, false)),
    }
}

// Whether the rules on versions let a row's file be written.
fn is_brought<E: Sees, S: Source, V: Volume>(
    alloc: Global,
    seen: &E,
    placed: &Placed<'_>,
    language: u16,
    image: &Image,
    src: &mut S,
    vol: &mut V,
) -> Result<bool, InstallError>
    requires { IsLawful (E.rows seen.now) }
    ensures brought { (w : World) → IsSeenOver (E.lookups seen.now) (E.choices seen.now) (E.rows seen.now) (V.state vol.old).held (S.files src.old) image.now w → V.told → S.told → path_of_row w placed.now.row.now ≡ Some placed.now.path → language ≡ product_language w
        → IfOk result (λ brought. brought ≡ replaced_by w placed.now.row.now (new_file placed.now.row.now) (product_language w)) }
    ensures reads { Reads V.told (V.state vol.old) (V.state vol.new) (S.files src.old) (S.files src.new) (S.faults src.old) (S.faults src.new) }
    ensures causes { Causes (source.Rose (S.faults src.old) (S.faults src.new)) (volume.Rose (V.state vol.old) (V.state vol.new)) result }
{
    let new = new_file(alloc, placed.row)?;
    let replaced = is_replaced(alloc, seen, placed, &new, language, image, src, vol);
    drop(new);
    replaced
}

// Whether a coming row by itself asks that its file be written: a companion where nothing is there, any other by the rules on
// versions.
fn is_called_for<E: Sees, S: Source, V: Volume>(
    alloc: Global,
    seen: &E,
    placed: &Placed<'_>,
    language: u16,
    image: &Image,
    src: &mut S,
    vol: &mut V,
) -> Result<bool, InstallError>
    requires { IsLawful (E.rows seen.now) }
    ensures called { (w : World) → IsSeenOver (E.lookups seen.now) (E.choices seen.now) (E.rows seen.now) (V.state vol.old).held (S.files src.old) image.now w → V.told → S.told → path_of_row w placed.now.row.now ≡ Some placed.now.path → language ≡ product_language w
        → IfOk result (λ called. called ≡ is_called_for w placed.now.row.now) }
    ensures reads { Reads V.told (V.state vol.old) (V.state vol.new) (S.files src.old) (S.files src.new) (S.faults src.old) (S.faults src.new) }
    ensures causes { Causes (source.Rose (S.faults src.old) (S.faults src.new)) (volume.Rose (V.state vol.old) (V.state vol.new)) result }
{
    match companion_of(placed.row) {
        Some(_) => Ok(image.file(&placed.path).is_none()),
        None => is_brought(alloc, seen, placed, language, image, src, vol),
    }
}

// Whether each row by itself asks that its file be written.
fn called_for<E: Sees, S: Source, V: Volume>(
    alloc: Global,
    seen: &E,
    rows: &[Placed<'_>],
    image: &Image,
    src: &mut S,
    vol: &mut V,
) -> Result<Vec<bool>, InstallError>
    requires { IsLawful (E.rows seen.now) }
    ensures called { (w : World) → IsSeenOver (E.lookups seen.now) (E.choices seen.now) (E.rows seen.now) (V.state vol.old).held (S.files src.old) image.now w → V.told → S.told → All (λ p. path_of_row w p.row.now ≡ Some p.path) rows.now
        → IfOk result (λ called. called.items ≡ map (λ p. is_called_for w p.row.now) rows.now) }
    ensures size { IfOk result (λ called. length called.items ≡ length rows.now) }
    ensures reads { Reads V.told (V.state vol.old) (V.state vol.new) (S.files src.old) (S.files src.new) (S.faults src.old) (S.faults src.new) }
    ensures causes { Causes (source.Rose (S.faults src.old) (S.faults src.new)) (volume.Rose (V.state vol.old) (V.state vol.new)) result }
{
    let language = product_language(alloc, seen.package())?;
    let mut called = Vec::new(alloc);
    for placed in rows {
        match is_called_for(alloc, seen, placed, language, image, src, vol) {
            Ok(one) => called.push(one)?,
            Err(error) => return Err(error),
        }
    }
    Ok(called)
}

/// Which of the coming rows are written, all of them judged by the machine as it stands before the first is: a row that by itself
/// asks for it, and a companion that follows a coming row that is written (File Versioning Rules; Companion Files). A file's
/// bytes are read only where the rules look at its hash.
pub(crate) fn decide<E: Sees, S: Source, V: Volume>(
    alloc: Global,
    seen: &E,
    rows: &[Placed<'_>],
    image: &Image,
    src: &mut S,
    vol: &mut V,
) -> Result<Vec<bool>, InstallError>
    requires lawful { IsLawful (E.rows seen.now) }
    requires files { All HasFilePath rows.now }
    requires rows { (w : World) → IsAsked (E.lookups seen.now) (E.choices seen.now) (E.rows seen.now) w → all_placed w ≡ Ok (map as_placed rows.now) }
    ensures decided { (w : World) → IsAsked (E.lookups seen.now) (E.choices seen.now) (E.rows seen.now) w → V.told → S.told → w.machine ≡ machine_over (V.state vol.old).held (S.files src.old) image.now → AreThere (V.state vol.old).held (S.files src.old) image.now
        → IfOk result (λ decided. decided.items ≡ map (λ (p : model.Placed). is_written w p.row) (map as_placed rows.now)) }
    ensures size { IfOk result (λ decided. length decided.items ≡ length rows.now) }
    ensures reads { Reads V.told (V.state vol.old) (V.state vol.new) (S.files src.old) (S.files src.new) (S.faults src.old) (S.faults src.new) }
    ensures source { IsErrOf result InstallError.Source → source.Rose (S.faults src.old) (S.faults src.new) }
    ensures volume { IsErrOf result InstallError.Volume → volume.Rose (V.state vol.old) (V.state vol.new) }
    ensures fault { (f : Fault) → ¬ IsErrOf result (InstallError.Fault f) }
{
    let called = called_for(alloc, seen, rows, image, src, vol)?;
    let decided = followed(alloc, seen.package(), rows, &called)?;
    Ok(decided)
}
