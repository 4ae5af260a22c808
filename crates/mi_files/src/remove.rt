//! RemoveFiles as a plan call.

ghost use Rattle.std.specs.Prelude.{◌≡◌, ◌++◌, ◌∷◌, [], List, ℕ, OnOk, IfSome, Some, None, map, is_none, if◌then◌else◌};
ghost use Rattle.std.specs.Option.{option_to_list};
ghost use Rattle.mi_text.specs.Fold.{folded};
ghost use Rattle.mi_text.specs.Maps.{Map};
ghost use Rattle.mi_dirs.specs.Views.{IsFolder};
ghost use Rattle.mi_image.specs.Items.{AreThere};
ghost use Rattle.mi_image.specs.Overlays.{former_items, present_items};
ghost use Rattle.mi_model.specs.World.{World};
ghost use Rattle.mi_model.specs.FilePaths.{is_guarded_file};
ghost use Rattle.mi_model.specs.RemoveFiles as model;
ghost use Rattle.mi_model.specs.RemoveFiles.{remove_files, removed_by_pattern, removed_file, takes_at, takes_in};
ghost use Rattle.mi_schema.specs.Lawful.{IsLawful};
ghost use Rattle.mi_steps.specs.Follows.{Grows};
ghost use Rattle.mi_steps.specs.Makes.{Makes, plan_machine};
ghost use Rattle.mi_records.specs.Choices.{IsAsked};
ghost use Rattle.mi_records.specs.Keeps.{Keeps};
ghost use Rattle.mi_records.specs.Order.{as_numbered};
ghost use Rattle.mi_records.specs.Removing.{Guards};
ghost use Rattle.mi_records.specs.Rows as made;
ghost use Rattle.mi_records.specs.Rows.{Phase};
ghost use Rattle.mi_files.specs.Taking.{folder_touched, folder_above, touched_more};

use crate::guards::guards;
use crate::matching::{Taking, take_matching};
use crate::names::{bad_path, place_of};
use crate::paths::{named_folder, row_path};
use crate::prune::prune_folders;
use crate::rows::{leaving_files, rows_in_force};
use crate::taking::take_row;
use mi_base::{Bytes, Name, NoMemory, PathText, long_name};
use mi_records::{PlanError, Row, Sees};
use mi_schema::{FileRow, RemoveFileRow};
use mi_steps::Plan;
use std::alloc::Global;
use std::collections::BTreeSet;

// ---- rows of File

// Carries out a row.
fn remove_file<E: Sees>(
    alloc: Global,
    seen: &E,
    guards: &BTreeSet<Name>,
    row: Row<'_, FileRow>,
    plan: &mut Plan,
    touched: &mut Vec<Bytes>,
) -> Result<(), PlanError>
    requires lawful { IsLawful (E.rows seen.now) }
    ensures row { (held files : Map (List ℕ)) (w : World) → IsAsked (E.lookups seen.now) (E.choices seen.now) (E.rows seen.now) w → Guards guards.now (is_guarded_file w) → made.Row held files plan.old plan.new (removed_file w (as_numbered row.entry)) result }
    ensures touched { (w : World) → IsAsked (E.lookups seen.now) (E.choices seen.now) (E.rows seen.now) w → OnOk result (touched.new.items ≡ touched.old.items ++ map folded (option_to_list (folder_above w row.entry.1.now))) }
    ensures keeps { Keeps plan.old plan.new }
{
    let (number, row) = row;
    match row_path(alloc, seen, row) {
        Ok(path) => take_row(alloc, plan, guards, touched, path, "File", number),
        Err(_) => Err(PlanError::NoMemory),
    }
}

// Carries out rows, one after the other.
fn remove_files<E: Sees>(
    alloc: Global,
    seen: &E,
    guards: &BTreeSet<Name>,
    rows: &[Row<'_, FileRow>],
    plan: &mut Plan,
    touched: &mut Vec<Bytes>,
) -> Result<(), PlanError>
    requires lawful { IsLawful (E.rows seen.now) }
    ensures rows { (held files : Map (List ℕ)) (w : World) → IsAsked (E.lookups seen.now) (E.choices seen.now) (E.rows seen.now) w → Guards guards.now (is_guarded_file w) → made.Rows held files plan.old plan.new (map (λ r. removed_file w (as_numbered r)) rows.now) result }
    ensures touched { (w : World) → IsAsked (E.lookups seen.now) (E.choices seen.now) (E.rows seen.now) w → OnOk result (touched.new.items ≡ touched_more (λ r. folder_above w r.1.now) rows.now touched.old.items) }
    ensures keeps { Keeps plan.old plan.new }
{
    for row in rows {
        match remove_file(alloc, seen, guards, *row, plan, touched) {
            Ok(()) => {}
            Err(error) => return Err(error),
        }
    }
    Ok(())
}

// ---- rows of RemoveFile

// Takes the files of a pattern out of a folder; a row without a FileName takes none, and its folder is noted.
fn remove_in<E: Sees>(
    alloc: Global,
    seen: &E,
    guards: &BTreeSet<Name>,
    row: &RemoveFileRow,
    folder: &PathText,
    plan: &mut Plan,
    touched: &mut Vec<Bytes>,
) -> Result<(), NoMemory>
    requires { IsFolder folder.now }
    ensures makes { (held files : Map (List ℕ)) (w : World) → IsAsked (E.lookups seen.now) (E.choices seen.now) (E.rows seen.now) w → Guards guards.now (is_guarded_file w) → OnOk result (Makes held files plan.old plan.new (takes_in w row.now folder.now row.now.file_name)) }
    ensures touched { OnOk result (touched.new.items ≡ touched.old.items ++ map folded (option_to_list (if is_none row.now.file_name then Some folder.now else None))) }
    ensures keeps { Keeps plan.old plan.new }
{
    match &row.file_name {
        Some(name) => {
            let taking = Taking {
                folder,
                pattern: long_name(name.as_str()),
                local: seen.is_local(row.component.as_str()),
                guards,
            };
            take_matching(alloc, plan, taking)
        }
        None => {
            let place = place_of(alloc, folder.as_str())?;
            touched.push(place)?;
            Ok(())
        }
    }
}

// Carries out a row whose property names this folder, or none.
fn remove_in_some<E: Sees>(
    alloc: Global,
    seen: &E,
    guards: &BTreeSet<Name>,
    row: Row<'_, RemoveFileRow>,
    folder: Option<PathText>,
    plan: &mut Plan,
    touched: &mut Vec<Bytes>,
) -> Result<(), PlanError>
    requires { IfSome folder IsFolder }
    ensures row { (held files : Map (List ℕ)) (w : World) → IsAsked (E.lookups seen.now) (E.choices seen.now) (E.rows seen.now) w → Guards guards.now (is_guarded_file w) → made.Row held files plan.old plan.new (λ m. takes_at w (as_numbered row.entry) (Some folder)) result }
    ensures touched { OnOk result (touched.new.items ≡ touched.old.items ++ map folded (option_to_list (if is_none row.entry.1.now.file_name then folder else None))) }
    ensures keeps { Keeps plan.old plan.new }
{
    let (number, row) = row;
    match folder {
        Some(folder) => {
            let done = remove_in(alloc, seen, guards, row, &folder, plan, touched);
            drop(folder);
            match done {
                Ok(()) => Ok(()),
                Err(_) => Err(PlanError::NoMemory),
            }
        }
        None => Err(bad_path(alloc, "RemoveFile", number)),
    }
}

// Carries out a row.
fn remove_by_pattern<E: Sees>(
    alloc: Global,
    seen: &E,
    guards: &BTreeSet<Name>,
    row: Row<'_, RemoveFileRow>,
    plan: &mut Plan,
    touched: &mut Vec<Bytes>,
) -> Result<(), PlanError>
    ensures row { (held files : Map (List ℕ)) (w : World) → IsAsked (E.lookups seen.now) (E.choices seen.now) (E.rows seen.now) w → Guards guards.now (is_guarded_file w) → made.Row held files plan.old plan.new (removed_by_pattern w (as_numbered row.entry)) result }
    ensures touched { (w : World) → IsAsked (E.lookups seen.now) (E.choices seen.now) (E.rows seen.now) w → OnOk result (touched.new.items ≡ touched.old.items ++ map folded (option_to_list (folder_touched w row.entry.1.now))) }
    ensures keeps { Keeps plan.old plan.new }
{
    match named_folder(alloc, seen, row.1.dir_property.as_str()) {
        Ok(Some(folder)) => remove_in_some(alloc, seen, guards, row, folder, plan, touched),
        Ok(None) => Ok(()),
        Err(_) => Err(PlanError::NoMemory),
    }
}

// Carries out rows, one after the other.
fn remove_by_patterns<E: Sees>(
    alloc: Global,
    seen: &E,
    guards: &BTreeSet<Name>,
    rows: &[Row<'_, RemoveFileRow>],
    plan: &mut Plan,
    touched: &mut Vec<Bytes>,
) -> Result<(), PlanError>
    ensures rows { (held files : Map (List ℕ)) (w : World) → IsAsked (E.lookups seen.now) (E.choices seen.now) (E.rows seen.now) w → Guards guards.now (is_guarded_file w) → made.Rows held files plan.old plan.new (map (λ r. removed_by_pattern w (as_numbered r)) rows.now) result }
    ensures touched { (w : World) → IsAsked (E.lookups seen.now) (E.choices seen.now) (E.rows seen.now) w → OnOk result (touched.new.items ≡ touched_more (λ r. folder_touched w r.1.now) rows.now touched.old.items) }
    ensures keeps { Keeps plan.old plan.new }
{
    for row in rows {
        match remove_by_pattern(alloc, seen, guards, *row, plan, touched) {
            Ok(()) => {}
            Err(error) => return Err(error),
        }
    }
    Ok(())
}

// ---- the phase

// Carries out the rows of both tables.
fn remove_all<E: Sees>(
    alloc: Global,
    seen: &E,
    leaving: &[Row<'_, FileRow>],
    in_force: &[Row<'_, RemoveFileRow>],
    plan: &mut Plan,
    touched: &mut Vec<Bytes>,
) -> Result<(), PlanError>
    requires lawful { IsLawful (E.rows seen.now) }
    ensures rows { (held files : Map (List ℕ)) (w : World) → IsAsked (E.lookups seen.now) (E.choices seen.now) (E.rows seen.now) w → made.Rows held files plan.old plan.new (map (λ r. removed_file w (as_numbered r)) leaving.now ++ map (λ r. removed_by_pattern w (as_numbered r)) in_force.now) result }
    ensures touched { (w : World) → IsAsked (E.lookups seen.now) (E.choices seen.now) (E.rows seen.now) w → OnOk result (touched.new.items ≡ touched_more (λ r. folder_touched w r.1.now) in_force.now (touched_more (λ r. folder_above w r.1.now) leaving.now touched.old.items)) }
    ensures keeps { Keeps plan.old plan.new }
{
    let guards = guards(alloc, seen)?;
    match remove_files(alloc, seen, &guards, leaving, plan, touched) {
        Ok(()) => remove_by_patterns(alloc, seen, &guards, in_force, plan, touched),
        Err(error) => Err(error),
    }
}

// Carries out the rows, and prunes behind them.
fn remove_and_prune<E: Sees>(
    alloc: Global,
    seen: &E,
    leaving: &[Row<'_, FileRow>],
    in_force: &[Row<'_, RemoveFileRow>],
    plan: &mut Plan,
) -> Result<(), PlanError>
    requires lawful { IsLawful (E.rows seen.now) }
    ensures phase { (held files : Map (List ℕ)) (w : World) → IsAsked (E.lookups seen.now) (E.choices seen.now) (E.rows seen.now) w → map as_numbered leaving.now ≡ model.leaving_files w → map as_numbered in_force.now ≡ model.rows_in_force w → w.machine ≡ plan_machine held files plan.old → Phase held files plan.old plan.new remove_files w result }
    ensures keeps { Keeps plan.old plan.new }
{
    let mut touched = Vec::new(alloc);
    match remove_all(alloc, seen, leaving, in_force, plan, &mut touched) {
        Ok(()) => {
            prune_folders(alloc, seen, plan, touched)?;
            Ok(())
        }
        Err(error) => {
            drop(touched);
            Err(error)
        }
    }
}

/// RemoveFiles: the files of leaving components in byte order of their keys, but for those that rows of kept components name;
/// then, for each row of RemoveFile in force, the files that lie directly in the folder of its property under a name of its
/// FileName, those that are guarded too where its component is local; then the folders of the rows of File, and those of rows
/// without a FileName, are pruned (RemoveFiles Action; RemoveFile table). It costs a search for each row, what lies in and below
/// the folder of each row of RemoveFile, and a sort of what is held.
///
/// Refused with `BadPath` of the first row of File whose path is past the limits of paths, or of RemoveFile whose property is
/// neither empty nor a folder.
pub fn plan_remove_files<E: Sees>(alloc: Global, seen: &E, plan: &mut Plan) -> Result<(), PlanError>
    requires { IsLawful (E.rows seen.now) }
    ensures phase { (held files : Map (List ℕ)) (w : World) → IsAsked (E.lookups seen.now) (E.choices seen.now) (E.rows seen.now) w → w.machine ≡ plan_machine held files plan.old → Phase held files plan.old plan.new remove_files w result }
    ensures there { (held files : Map (List ℕ)) → AreThere held files (present_items plan.old.overlay) → AreThere held files (present_items plan.new.overlay) }
    ensures former { former_items plan.new.overlay ≡ former_items plan.old.overlay }
    ensures grows { Grows plan.old.script plan.new.script }
{
    let leaving = leaving_files(alloc, seen)?;
    let in_force = rows_in_force(alloc, seen)?;
    remove_and_prune(alloc, seen, leaving.as_slice(), in_force.as_slice(), plan)
}
