//! What leaving rows of File and DuplicateFile take away (RemoveFiles and RemoveDuplicateFiles actions).

ghost use Rattle.std.specs.Prelude.{◌≡◌, ◌∷◌, ◌++◌, [], List, ℕ, OnOk, map, option_map};
ghost use Rattle.std.specs.Option.{option_to_list};
ghost use Rattle.mi_text.specs.Fold.{folded};
ghost use Rattle.mi_text.specs.Maps.{Map};
ghost use Rattle.mi_text.specs.Path.{up_to_last};
ghost use Rattle.mi_model.specs.World.{World};
ghost use Rattle.mi_model.specs.FilePaths.{is_guarded_file, takes_file};
ghost use Rattle.mi_steps.specs.Makes.{Makes};
ghost use Rattle.mi_records.specs.Keeps.{Keeps};
ghost use Rattle.mi_records.specs.Removing.{Guards};
ghost use Rattle.mi_records.specs.Rows as made;
ghost use Rattle.mi_files.specs.Taking.{path_effect};

use crate::names::{bad_path, name_of_file, place_above};
use mi_base::{Bytes, Name, NoMemory, PathText};
use mi_records::PlanError;
use mi_steps::Plan;
use std::alloc::Global;
use std::collections::BTreeSet;

// Takes away the file of a path, unless it is guarded.
fn take_file(
    alloc: Global,
    plan: &mut Plan,
    guards: &BTreeSet<Name>,
    path: &PathText,
) -> Result<(), NoMemory>
    ensures makes { (held files : Map (List ℕ)) (w : World) → Guards guards.now (is_guarded_file w) → OnOk result (Makes held files plan.old plan.new (takes_file w path.now)) }
    ensures keeps { Keeps plan.old plan.new }
{
    let name = name_of_file(alloc, path)?;
    if guards.contains(&name) {
        return Ok(());
    }
    plan.drop_name(alloc, &name)?;
    Ok(())
}

// The same; the folder that the file lies in is noted, whether or not the file goes.
fn take_and_touch(
    alloc: Global,
    plan: &mut Plan,
    guards: &BTreeSet<Name>,
    touched: &mut Vec<Bytes>,
    path: &PathText,
) -> Result<(), NoMemory>
    ensures makes { (held files : Map (List ℕ)) (w : World) → Guards guards.now (is_guarded_file w) → OnOk result (Makes held files plan.old plan.new (takes_file w path.now)) }
    ensures touched { OnOk result (touched.new.items ≡ touched.old.items ++ folded (up_to_last path.now) ∷ []) }
    ensures keeps { Keeps plan.old plan.new }
{
    touched.push(place_above(alloc, path)?)?;
    take_file(alloc, plan, guards, path)
}

/// Carries out a leaving row whose file is this: it is taken away, unless it is guarded, and its folder is noted. Without a path
/// the row with this number of a table is refused.
pub fn take_row(
    alloc: Global,
    plan: &mut Plan,
    guards: &BTreeSet<Name>,
    touched: &mut Vec<Bytes>,
    path: Option<PathText>,
    table: &str,
    number: u32,
) -> Result<(), PlanError>
    ensures row { (held files : Map (List ℕ)) (w : World) → Guards guards.now (is_guarded_file w) → made.Row held files plan.old plan.new (path_effect w table.now number path) result }
    ensures touched { OnOk result (touched.new.items ≡ touched.old.items ++ map folded (option_to_list (option_map up_to_last path))) }
    ensures keeps { Keeps plan.old plan.new }
{
    match path {
        Some(path) => {
            let done = take_and_touch(alloc, plan, guards, touched, &path);
            drop(path);
            match done {
                Ok(()) => Ok(()),
                Err(_) => Err(PlanError::NoMemory),
            }
        }
        None => Err(bad_path(alloc, table, number)),
    }
}
