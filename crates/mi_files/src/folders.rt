//! CreateFolders and RemoveFolders as plan calls (CreateFolder table).

ghost use Rattle.std.specs.Prelude.{◌≡◌, [], List, ℕ, IfOk, OnOk, map, filter};
ghost use Rattle.std.specs.List.{filter_map};
ghost use Rattle.std.specs.Option.{option_map_or};
ghost use Rattle.mi_text.specs.Fold.{folded};
ghost use Rattle.mi_text.specs.Maps.{Map};
ghost use Rattle.mi_dirs.specs.Places.{target_of};
ghost use Rattle.mi_image.specs.Items.{AreThere};
ghost use Rattle.mi_image.specs.Overlays.{former_items, present_items};
ghost use Rattle.mi_model.specs.World.{World};
ghost use Rattle.mi_model.specs.Asked.{comes, leaves};
ghost use Rattle.mi_model.specs.Folders.{folder_rows, folder_of_row, made_folder, create_folders, remove_folders};
ghost use Rattle.mi_model.specs.Parents.{folder_with_parents};
ghost use Rattle.mi_schema.specs.Lawful.{IsLawful};
ghost use Rattle.mi_steps.specs.Follows.{Grows};
ghost use Rattle.mi_steps.specs.Makes.{Makes, plan_machine};
ghost use Rattle.mi_steps.specs.Rows.{FollowsRows};
ghost use Rattle.mi_records.specs.Choices.{IsAsked};
ghost use Rattle.mi_records.specs.Keeps.{Keeps};
ghost use Rattle.mi_records.specs.Order.{as_numbered};
ghost use Rattle.mi_records.specs.Rows.{Phase};

use crate::names::place_of;
use crate::order::folders_in_order;
use crate::parents::make_folders;
use crate::prune::prune_folders;
use mi_base::{Bytes, NoMemory};
use mi_records::{PlanError, Row, Sees};
use mi_schema::CreateFolderRow;
use mi_steps::Plan;
use std::alloc::Global;

// ---- the rows

// The rows whose components come, of these.
fn coming<'a, E: Sees>(
    alloc: Global,
    seen: &E,
    rows: &[Row<'a, CreateFolderRow>],
) -> Result<Vec<Row<'a, CreateFolderRow>>, NoMemory>
    ensures { IfOk result (λ taken. taken.items ≡ filter (λ r. (E.choices seen.now).coming r.1.now.component) rows.now) }
{
    let mut taken = Vec::new(alloc);
    for row in rows {
        if seen.comes(row.1.component.as_str()) {
            taken.push(*row)?;
        }
    }
    Ok(taken)
}

// The rows whose components leave, of these.
fn leaving<'a, E: Sees>(
    alloc: Global,
    seen: &E,
    rows: &[Row<'a, CreateFolderRow>],
) -> Result<Vec<Row<'a, CreateFolderRow>>, NoMemory>
    ensures { IfOk result (λ taken. taken.items ≡ filter (λ r. (E.choices seen.now).leaving r.1.now.component) rows.now) }
{
    let mut taken = Vec::new(alloc);
    for row in rows {
        if seen.leaves(row.1.component.as_str()) {
            taken.push(*row)?;
        }
    }
    Ok(taken)
}

// The rows of coming components, in key order.
fn coming_rows<'a, E: Sees>(
    alloc: Global,
    seen: &'a E,
) -> Result<Vec<Row<'a, CreateFolderRow>>, NoMemory>
    requires { IsLawful (E.rows seen.now) }
    ensures { (w : World) → IsAsked (E.lookups seen.now) (E.choices seen.now) (E.rows seen.now) w → IfOk result (λ rows. map as_numbered rows.items ≡ folder_rows (comes w) w) }
{
    let rows = folders_in_order(alloc, seen.package())?;
    let taken = coming(alloc, seen, rows.as_slice())?;
    Ok(taken)
}

// The rows of leaving components, in key order.
fn leaving_rows<'a, E: Sees>(
    alloc: Global,
    seen: &'a E,
) -> Result<Vec<Row<'a, CreateFolderRow>>, NoMemory>
    requires { IsLawful (E.rows seen.now) }
    ensures { (w : World) → IsAsked (E.lookups seen.now) (E.choices seen.now) (E.rows seen.now) w → IfOk result (λ rows. map as_numbered rows.items ≡ folder_rows (leaves w) w) }
{
    let rows = folders_in_order(alloc, seen.package())?;
    let taken = leaving(alloc, seen, rows.as_slice())?;
    Ok(taken)
}

// ---- CreateFolders

// Makes the folder of a row.
fn make_row<E: Sees>(
    alloc: Global,
    seen: &E,
    row: &CreateFolderRow,
    plan: &mut Plan,
) -> Result<(), NoMemory>
    ensures makes { (held files : Map (List ℕ)) → OnOk result (Makes held files plan.old plan.new (option_map_or folder_with_parents (target_of (E.choices seen.now).dirs row.now.directory) [])) }
    ensures keeps { Keeps plan.old plan.new }
{
    match seen.target(row.directory.as_str()) {
        Some(folder) => make_folders(alloc, plan, folder),
        None => Ok(()),
    }
}

// Makes the folders of rows, one after the other.
fn make_rows<E: Sees>(
    alloc: Global,
    seen: &E,
    rows: &[Row<'_, CreateFolderRow>],
    plan: &mut Plan,
) -> Result<(), NoMemory>
    ensures rows { (held files : Map (List ℕ)) (w : World) → IsAsked (E.lookups seen.now) (E.choices seen.now) (E.rows seen.now) w → OnOk result (FollowsRows files (plan_machine held files plan.old) (plan_machine held files plan.new) plan.old.script plan.new.script (map (λ r. made_folder w (as_numbered r)) rows.now)) }
    ensures keeps { Keeps plan.old plan.new }
{
    for row in rows {
        make_row(alloc, seen, row.1, plan)?;
    }
    Ok(())
}

/// CreateFolders: the folders of the rows of coming components, in byte order of the rows' keys, each with the folders above it,
/// where they are missing. It costs a search for each of them (CreateFolders Action; CreateFolder table). No row is refused.
pub fn plan_create_folders<E: Sees>(
    alloc: Global,
    seen: &E,
    plan: &mut Plan,
) -> Result<(), PlanError>
    requires { IsLawful (E.rows seen.now) }
    ensures phase { (held files : Map (List ℕ)) (w : World) → IsAsked (E.lookups seen.now) (E.choices seen.now) (E.rows seen.now) w → w.machine ≡ plan_machine held files plan.old → Phase held files plan.old plan.new create_folders w result }
    ensures there { (held files : Map (List ℕ)) → AreThere held files (present_items plan.old.overlay) → AreThere held files (present_items plan.new.overlay) }
    ensures former { former_items plan.new.overlay ≡ former_items plan.old.overlay }
    ensures grows { Grows plan.old.script plan.new.script }
{
    let rows = coming_rows(alloc, seen)?;
    make_rows(alloc, seen, rows.as_slice(), plan)?;
    Ok(())
}

// ---- RemoveFolders

// The places of the folders of rows.
fn touched_places<E: Sees>(
    alloc: Global,
    seen: &E,
    rows: &[Row<'_, CreateFolderRow>],
) -> Result<Vec<Bytes>, NoMemory>
    ensures { (w : World) → IsAsked (E.lookups seen.now) (E.choices seen.now) (E.rows seen.now) w → IfOk result (λ places. places.items ≡ map folded (filter_map (λ r. folder_of_row w (as_numbered r)) rows.now)) }
{
    let mut places = Vec::new(alloc);
    for row in rows {
        if let Some(folder) = seen.target(row.1.directory.as_str()) {
            let place = place_of(alloc, folder.as_str())?;
            places.push(place)?;
        }
    }
    Ok(places)
}

/// RemoveFolders: the folders of the rows of leaving components go where nothing lies in them any more, with the folders above them;
/// the drive, the folders of the system and those of rows of kept components stay (RemoveFolders Action; CreateFolder table). It
/// costs a sort of what is held. No row is refused.
pub fn plan_remove_folders<E: Sees>(
    alloc: Global,
    seen: &E,
    plan: &mut Plan,
) -> Result<(), PlanError>
    requires { IsLawful (E.rows seen.now) }
    ensures phase { (held files : Map (List ℕ)) (w : World) → IsAsked (E.lookups seen.now) (E.choices seen.now) (E.rows seen.now) w → w.machine ≡ plan_machine held files plan.old → Phase held files plan.old plan.new remove_folders w result }
    ensures there { (held files : Map (List ℕ)) → AreThere held files (present_items plan.old.overlay) → AreThere held files (present_items plan.new.overlay) }
    ensures former { former_items plan.new.overlay ≡ former_items plan.old.overlay }
    ensures grows { Grows plan.old.script plan.new.script }
{
    let rows = leaving_rows(alloc, seen)?;
    let touched = touched_places(alloc, seen, rows.as_slice())?;
    prune_folders(alloc, seen, plan, touched)?;
    Ok(())
}
