//! Pruning: the folders that a phase leaves without use (RemoveFolders Action. The rule is this project's own).

ghost use Rattle.std.specs.Prelude.{◌≡◌, ◌++◌, List, ℕ, IfOk, OnOk, map, option_map};
ghost use Rattle.mi_text.specs.Fold.{folded};
ghost use Rattle.mi_text.specs.Maps.{Map};
ghost use Rattle.mi_image.specs.Items.{AreThere};
ghost use Rattle.mi_image.specs.Overlays.{former_items, present_items};
ghost use Rattle.mi_model.specs.World.{World};
ghost use Rattle.mi_model.specs.Prune.{kept_folders, protected_folders, prune_folders};
ghost use Rattle.mi_schema.specs.Lawful.{IsLawful};
ghost use Rattle.mi_steps.specs.Follows.{Grows};
ghost use Rattle.mi_records.specs.Choices.{IsAsked};
ghost use Rattle.mi_records.specs.Rows.{Made};
ghost use Rattle.mi_files.specs.Folders.{kept_folder};

use crate::names::place_of;
use mi_base::{Bytes, NoMemory};
use mi_records::Sees;
use mi_schema::CreateFolderRow;
use mi_steps::{Plan, Tree};
use std::alloc::Global;

// Adds the places of the folders that properties of the system name.
fn add_system_places<E: Sees>(
    alloc: Global,
    seen: &E,
    places: &mut Vec<Bytes>,
) -> Result<(), NoMemory>
    ensures { OnOk result (places.new.items ≡ places.old.items ++ map folded (E.choices seen.now).system) }
{
    let folders = seen.system_folders();
    for folder in folders {
        let place = place_of(alloc, folder.as_str())?;
        places.push(place)?;
    }
    Ok(())
}

// The place of the folder of a row, where its component is kept.
fn kept_place<E: Sees>(
    alloc: Global,
    seen: &E,
    row: &CreateFolderRow,
) -> Result<Option<Bytes>, NoMemory>
    ensures { (w : World) → IsAsked (E.lookups seen.now) (E.choices seen.now) (E.rows seen.now) w → IfOk result (λ place. place ≡ option_map folded (kept_folder w row.now)) }
{
    if !seen.keeps(row.component.as_str()) {
        return Ok(None);
    }
    match seen.target(row.directory.as_str()) {
        Some(folder) => {
            let place = place_of(alloc, folder.as_str())?;
            Ok(Some(place))
        }
        None => Ok(None),
    }
}

// Adds the places of the folders that rows of CreateFolder of kept components name.
fn add_kept_places<E: Sees>(
    alloc: Global,
    seen: &E,
    places: &mut Vec<Bytes>,
) -> Result<(), NoMemory>
    ensures { (w : World) → IsAsked (E.lookups seen.now) (E.choices seen.now) (E.rows seen.now) w → OnOk result (places.new.items ≡ places.old.items ++ map folded (kept_folders w)) }
{
    for row in seen.package().create_folder.values() {
        if let Some(place) = kept_place(alloc, seen, row)? {
            places.push(place)?;
        }
    }
    Ok(())
}

// The places that pruning leaves: the drive, the folders of the system, and those that rows of kept components name.
fn protected_places<E: Sees>(alloc: Global, seen: &E) -> Result<Vec<Bytes>, NoMemory>
    ensures { (w : World) → IsAsked (E.lookups seen.now) (E.choices seen.now) (E.rows seen.now) w → IfOk result (λ places. places.items ≡ map folded (protected_folders w)) }
{
    let drive = place_of(alloc, "C:\\")?;
    let mut places = Vec::new(alloc);
    places.push(drive)?;
    add_system_places(alloc, seen, &mut places)?;
    add_kept_places(alloc, seen, &mut places)?;
    Ok(places)
}

/// Prunes the folders that a phase touched, in folded bytes: those go that are left without use, with the folders above them. The
/// drive, the folders that properties of the system name, and those that rows of CreateFolder of kept components name stay
/// (RemoveFolders Action; CreateFolder table. The rule is this project's own). It costs a sort of what is held.
pub fn prune_folders<E: Sees>(
    alloc: Global,
    seen: &E,
    plan: &mut Plan,
    touched: Vec<Bytes>,
) -> Result<(), NoMemory>
    requires lawful { IsLawful (E.rows seen.now) }
    ensures made { (held files : Map (List ℕ)) (w : World) (folders : List (List ℕ)) → IsAsked (E.lookups seen.now) (E.choices seen.now) (E.rows seen.now) w → touched.items ≡ map folded folders → OnOk result (Made held files plan.old plan.new (prune_folders w folders)) }
    ensures there { (held files : Map (List ℕ)) → AreThere held files (present_items plan.old.overlay) → AreThere held files (present_items plan.new.overlay) }
    ensures former { former_items plan.new.overlay ≡ former_items plan.old.overlay }
    ensures grows { Grows plan.old.script plan.new.script }
{
    match protected_places(alloc, seen) {
        Ok(protected) => {
            plan.prune(alloc, Tree::Folders, touched, protected)?;
            Ok(())
        }
        Err(_) => {
            drop(touched);
            Err(NoMemory)
        }
    }
}
