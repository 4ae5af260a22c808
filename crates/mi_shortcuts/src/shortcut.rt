//! Where the shortcut of a row of Shortcut lies (Shortcut table, Directory_ and Name).

ghost use Rattle.std.specs.Prelude.{◌≡◌, codes, IfOk, IfSome, IsTrue};
ghost use Rattle.mi_text.specs.Path.{is_file_path};
ghost use Rattle.mi_base.specs.declared.answers.Fault.TheVariants.{BadPath};
ghost use Rattle.mi_model.specs.World.{World};
ghost use Rattle.mi_model.specs.Shortcuts.{shortcut_path, path_or_refused};
ghost use Rattle.mi_records.specs.Choices.{IsAsked};
ghost use Rattle.mi_records.specs.Clients.{IsFault};
ghost use Rattle.mi_records.specs.Meaning.{numbered};
ghost use Rattle.mi_records.specs.Stops.{Tells};

use mi_base::{Fault, NoMemory, PathText, Text};
use mi_files::file_in;
use mi_records::{PlanError, Sees};
use mi_schema::ShortcutRow;
use std::alloc::Global;

/// The path of the shortcut of a row, by the directories as they stand; None where it is past the limits.
pub fn shortcut_path<S: Sees>(
    alloc: Global,
    seen: &S,
    row: &ShortcutRow,
) -> Result<Option<PathText>, NoMemory>
    ensures path { (w : World) → IsAsked (S.lookups seen.now) (S.choices seen.now) (S.rows seen.now) w → IfOk result (λ path. path ≡ shortcut_path w row.now) }
    ensures file { IfOk result (λ path. IfSome path (λ p. IsTrue (is_file_path p))) }
{
    match seen.target(row.directory.as_str()) {
        Some(folder) => file_in(alloc, folder, row.name.as_str()),
        None => Ok(None),
    }
}

// The path of the row with this number is past the limits.
fn bad_path(alloc: Global, number: u32) -> PlanError
    ensures { IsFault (BadPath (codes "Shortcut") number) result }
{
    match Text::copy_of(alloc, "Shortcut") {
        Ok(table) => PlanError::Fault(Fault::BadPath(table, number)),
        Err(_) => PlanError::NoMemory,
    }
}

/// The path of the shortcut of the row with this number, from 1. Refused with `BadPath`.
pub fn path_or_refused<S: Sees>(
    alloc: Global,
    seen: &S,
    number: u32,
    row: &ShortcutRow,
) -> Result<PathText, PlanError>
    ensures path { (w : World) → IsAsked (S.lookups seen.now) (S.choices seen.now) (S.rows seen.now) w → Tells (path_or_refused w (numbered number row.now)) result }
    ensures file { IfOk result (λ path. IsTrue (is_file_path path)) }
{
    match shortcut_path(alloc, seen, row) {
        Ok(Some(path)) => Ok(path),
        Ok(None) => Err(bad_path(alloc, number)),
        Err(_) => Err(PlanError::NoMemory),
    }
}
