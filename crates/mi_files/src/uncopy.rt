//! RemoveDuplicateFiles as a plan call.

ghost use Rattle.std.specs.Prelude.{◌≡◌, ◌++◌, List, ℕ, OnOk, map};
ghost use Rattle.std.specs.Option.{option_to_list};
ghost use Rattle.mi_text.specs.Fold.{folded};
ghost use Rattle.mi_text.specs.Maps.{Map};
ghost use Rattle.mi_image.specs.Items.{AreThere};
ghost use Rattle.mi_image.specs.Overlays.{former_items, present_items};
ghost use Rattle.mi_model.specs.World.{World};
ghost use Rattle.mi_model.specs.Asked.{leaves};
ghost use Rattle.mi_model.specs.DuplicateFiles.{copy_rows, remove_duplicate_files, removed_copy};
ghost use Rattle.mi_model.specs.FilePaths.{is_guarded_file};
ghost use Rattle.mi_schema.specs.Lawful.{IsLawful};
ghost use Rattle.mi_steps.specs.Follows.{Grows};
ghost use Rattle.mi_steps.specs.Makes.{plan_machine};
ghost use Rattle.mi_records.specs.Choices.{IsAsked};
ghost use Rattle.mi_records.specs.Keeps.{Keeps};
ghost use Rattle.mi_records.specs.Order.{as_numbered};
ghost use Rattle.mi_records.specs.Removing.{Guards};
ghost use Rattle.mi_records.specs.Rows as made;
ghost use Rattle.mi_records.specs.Rows.{Phase};
ghost use Rattle.mi_files.specs.Taking.{folder_of_copy, touched_more};

use crate::guards::guards;
use crate::paths::copy_path;
use crate::prune::prune_folders;
use crate::rows::leaving_copies;
use crate::taking::take_row;
use mi_base::{Bytes, Name};
use mi_records::{PlanError, Row, Sees};
use mi_schema::DuplicateFileRow;
use mi_steps::Plan;
use std::alloc::Global;
use std::collections::BTreeSet;

// Carries out a row.
fn remove_copy<E: Sees>(
    alloc: Global,
    seen: &E,
    guards: &BTreeSet<Name>,
    row: Row<'_, DuplicateFileRow>,
    plan: &mut Plan,
    touched: &mut Vec<Bytes>,
) -> Result<(), PlanError>
    requires lawful { IsLawful (E.rows seen.now) }
    ensures row { (held files : Map (List ℕ)) (w : World) → IsAsked (E.lookups seen.now) (E.choices seen.now) (E.rows seen.now) w → Guards guards.now (is_guarded_file w) → made.Row held files plan.old plan.new (removed_copy w (as_numbered row.entry)) result }
    ensures touched { (w : World) → IsAsked (E.lookups seen.now) (E.choices seen.now) (E.rows seen.now) w → OnOk result (touched.new.items ≡ touched.old.items ++ map folded (option_to_list (folder_of_copy w row.entry.1.now))) }
    ensures keeps { Keeps plan.old plan.new }
{
    let (number, row) = row;
    match copy_path(alloc, seen, row) {
        Ok(Some(path)) => take_row(alloc, plan, guards, touched, path, "DuplicateFile", number),
        Ok(None) => Ok(()),
        Err(_) => Err(PlanError::NoMemory),
    }
}

// Carries out rows, one after the other.
fn remove_copies<E: Sees>(
    alloc: Global,
    seen: &E,
    guards: &BTreeSet<Name>,
    rows: &[Row<'_, DuplicateFileRow>],
    plan: &mut Plan,
    touched: &mut Vec<Bytes>,
) -> Result<(), PlanError>
    requires lawful { IsLawful (E.rows seen.now) }
    ensures rows { (held files : Map (List ℕ)) (w : World) → IsAsked (E.lookups seen.now) (E.choices seen.now) (E.rows seen.now) w → Guards guards.now (is_guarded_file w) → made.Rows held files plan.old plan.new (map (λ r. removed_copy w (as_numbered r)) rows.now) result }
    ensures touched { (w : World) → IsAsked (E.lookups seen.now) (E.choices seen.now) (E.rows seen.now) w → OnOk result (touched.new.items ≡ touched_more (λ r. folder_of_copy w r.1.now) rows.now touched.old.items) }
    ensures keeps { Keeps plan.old plan.new }
{
    for row in rows {
        match remove_copy(alloc, seen, guards, *row, plan, touched) {
            Ok(()) => {}
            Err(error) => return Err(error),
        }
    }
    Ok(())
}

// Carries out the rows, but for what is guarded.
fn remove_all<E: Sees>(
    alloc: Global,
    seen: &E,
    leaving: &[Row<'_, DuplicateFileRow>],
    plan: &mut Plan,
    touched: &mut Vec<Bytes>,
) -> Result<(), PlanError>
    requires lawful { IsLawful (E.rows seen.now) }
    ensures rows { (held files : Map (List ℕ)) (w : World) → IsAsked (E.lookups seen.now) (E.choices seen.now) (E.rows seen.now) w → made.Rows held files plan.old plan.new (map (λ r. removed_copy w (as_numbered r)) leaving.now) result }
    ensures touched { (w : World) → IsAsked (E.lookups seen.now) (E.choices seen.now) (E.rows seen.now) w → OnOk result (touched.new.items ≡ touched_more (λ r. folder_of_copy w r.1.now) leaving.now touched.old.items) }
    ensures keeps { Keeps plan.old plan.new }
{
    let guards = guards(alloc, seen)?;
    let done = remove_copies(alloc, seen, &guards, leaving, plan, touched);
    drop(guards);
    done
}

// Carries out the rows, and prunes behind them.
fn remove_and_prune<E: Sees>(
    alloc: Global,
    seen: &E,
    leaving: &[Row<'_, DuplicateFileRow>],
    plan: &mut Plan,
) -> Result<(), PlanError>
    requires lawful { IsLawful (E.rows seen.now) }
    ensures phase { (held files : Map (List ℕ)) (w : World) → IsAsked (E.lookups seen.now) (E.choices seen.now) (E.rows seen.now) w → map as_numbered leaving.now ≡ copy_rows (leaves w) w → w.machine ≡ plan_machine held files plan.old → Phase held files plan.old plan.new remove_duplicate_files w result }
    ensures keeps { Keeps plan.old plan.new }
{
    let mut touched = Vec::new(alloc);
    match remove_all(alloc, seen, leaving, plan, &mut touched) {
        Ok(()) => {
            prune_folders(alloc, seen, plan, touched)?;
            Ok(())
        }
        Err(error) => {
            drop(touched);
            Err(error)
        }
    }
}

/// RemoveDuplicateFiles: the copies of leaving components in byte order of their keys, but for those that rows of kept
/// components name; then the folders of these copies are pruned (RemoveDuplicateFiles Action; DuplicateFile table). A row whose
/// property is empty does nothing. It costs a search for each row, and a sort of what is held.
///
/// Refused with `BadPath` of the first row whose folder is none or whose path is past the limits of paths.
pub fn plan_remove_duplicate<E: Sees>(
    alloc: Global,
    seen: &E,
    plan: &mut Plan,
) -> Result<(), PlanError>
    requires { IsLawful (E.rows seen.now) }
    ensures phase { (held files : Map (List ℕ)) (w : World) → IsAsked (E.lookups seen.now) (E.choices seen.now) (E.rows seen.now) w → w.machine ≡ plan_machine held files plan.old → Phase held files plan.old plan.new remove_duplicate_files w result }
    ensures there { (held files : Map (List ℕ)) → AreThere held files (present_items plan.old.overlay) → AreThere held files (present_items plan.new.overlay) }
    ensures former { former_items plan.new.overlay ≡ former_items plan.old.overlay }
    ensures grows { Grows plan.old.script plan.new.script }
{
    let leaving = leaving_copies(alloc, seen)?;
    remove_and_prune(alloc, seen, leaving.as_slice(), plan)
}
