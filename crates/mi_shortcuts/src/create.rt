//! CreateShortcuts as a plan call.

ghost use Rattle.std.specs.Prelude.{◌≡◌, List, ℕ, All, IfOk, OnOk, IsTrue, map, true};
ghost use Rattle.mi_text.specs.Maps.{Map};
ghost use Rattle.mi_text.specs.Path.{is_file_path};
ghost use Rattle.mi_image.specs.Items.{AreThere};
ghost use Rattle.mi_image.specs.Overlays.{former_items, present_items};
ghost use Rattle.mi_model.specs.World.{World};
ghost use Rattle.mi_base.specs.Limits.{fits};
ghost use Rattle.mi_model.specs.Parents.{parents_of_path};
ghost use Rattle.mi_model.specs.Shortcuts.{shortcut_touches, create_shortcuts};
ghost use Rattle.mi_schema.specs.Lawful.{IsLawful};
ghost use Rattle.mi_steps.specs.Follows.{Grows};
ghost use Rattle.mi_steps.specs.Makes.{Makes, plan_machine};
ghost use Rattle.mi_records.specs.Choices.{IsAsked};
ghost use Rattle.mi_records.specs.Keeps.{Keeps};
ghost use Rattle.mi_records.specs.Meaning.{numbered};
ghost use Rattle.mi_records.specs.Order.{as_numbered};
ghost use Rattle.mi_records.specs.Rows as made;
ghost use Rattle.mi_records.specs.Rows.{Phase};
ghost use Rattle.mi_records.specs.Stops.{Tells};
ghost use Rattle.mi_shortcut_rows.specs.Entries.{HasNumbers, IsShortcutAt};
ghost use Rattle.mi_shortcuts.specs.Entries.{with_arguments, entry_of_row, created_effect, created_at, create_effect};

use crate::shortcut::path_or_refused;
use crate::shortcut_rows::coming_shortcuts;
use crate::target::target_text;
use mi_base::{Entry, NoMemory, PathText, Text};
use mi_files::make_folders;
use mi_records::{PlanError, Row, Sees, put_entry};
use mi_row_steps::{expanded_or_empty, sized};
use mi_schema::ShortcutRow;
use mi_shortcut_rows::shortcut_entry;
use mi_steps::Plan;
use std::alloc::Global;

// ---- the entry

// The shortcut of a row with its path and its target, where its Arguments are expanded.
fn with_arguments<S: Sees>(
    alloc: Global,
    seen: &S,
    number: u32,
    row: &ShortcutRow,
    shown: PathText,
    target: Text,
) -> Result<Entry, PlanError>
    requires { HasNumbers row.now }
    ensures entry { (w : World) → IsAsked (S.lookups seen.now) (S.choices seen.now) (S.rows seen.now) w → Tells (with_arguments w (numbered number row.now) shown target) result }
    ensures at { IfOk result (IsShortcutAt shown) }
{
    match expanded_or_empty(alloc, seen, "Shortcut", number, &row.arguments) {
        Ok(arguments) => match shortcut_entry(alloc, seen, row, shown, target, arguments) {
            Ok(entry) => Ok(entry),
            Err(_) => Err(PlanError::NoMemory),
        },
        Err(error) => {
            drop(shown);
            drop(target);
            Err(error)
        }
    }
}

// The shortcut of a row with its path and its target; the path is copied.
fn with_target<S: Sees>(
    alloc: Global,
    seen: &S,
    number: u32,
    row: &ShortcutRow,
    path: &PathText,
    target: Text,
) -> Result<Entry, PlanError>
    requires { HasNumbers row.now }
    ensures entry { (w : World) → IsAsked (S.lookups seen.now) (S.choices seen.now) (S.rows seen.now) w → Tells (with_arguments w (numbered number row.now) path.now target) result }
    ensures at { IfOk result (IsShortcutAt path.now) }
{
    match path.copy(alloc) {
        Ok(shown) => with_arguments(alloc, seen, number, row, shown, target),
        Err(_) => {
            drop(target);
            Err(PlanError::NoMemory)
        }
    }
}

// The shortcut of a row with its path.
fn entry_of_row<S: Sees>(
    alloc: Global,
    seen: &S,
    number: u32,
    row: &ShortcutRow,
    path: &PathText,
) -> Result<Entry, PlanError>
    requires lawful { IsLawful (S.rows seen.now) }
    requires numbers { HasNumbers row.now }
    ensures entry { (w : World) → IsAsked (S.lookups seen.now) (S.choices seen.now) (S.rows seen.now) w → Tells (entry_of_row w (numbered number row.now) path.now) result }
    ensures at { IfOk result (IsShortcutAt path.now) }
{
    match target_text(alloc, seen, number, row) {
        Ok(target) => with_target(alloc, seen, number, row, path, target),
        Err(error) => Err(error),
    }
}

// ---- rows

// Makes the missing folders in which a file or a shortcut lies.
fn make_parents(alloc: Global, plan: &mut Plan, path: &PathText) -> Result<(), NoMemory>
    requires { IsTrue (is_file_path path.now) }
    ensures makes { (held files : Map (List ℕ)) → OnOk result (Makes held files plan.old plan.new (parents_of_path path.now)) }
    ensures keeps { Keeps plan.old plan.new }
{
    match path.parent(alloc) {
        Ok(folder) => make_folders(alloc, plan, &folder),
        Err(_) => Err(NoMemory),
    }
}

// Puts a shortcut in its folders.
fn put_below(alloc: Global, plan: &mut Plan, path: &PathText, entry: Entry) -> Result<(), NoMemory>
    requires right { fits entry ≡ true }
    requires at { IsShortcutAt path.now entry }
    requires file { IsTrue (is_file_path path.now) }
    ensures makes { (held files : Map (List ℕ)) → OnOk result (Makes held files plan.old plan.new (shortcut_touches path.now entry)) }
    ensures keeps { Keeps plan.old plan.new }
{
    match make_parents(alloc, plan, path) {
        Ok(()) => put_entry(alloc, plan, entry),
        Err(_) => {
            drop(entry);
            Err(NoMemory)
        }
    }
}

// Puts the shortcut of the row with this number, where it isn't too large.
fn put_shortcut(
    alloc: Global,
    number: u32,
    plan: &mut Plan,
    path: &PathText,
    entry: Entry,
) -> Result<(), PlanError>
    requires at { IsShortcutAt path.now entry }
    requires file { IsTrue (is_file_path path.now) }
    ensures row { (held files : Map (List ℕ)) → made.Row held files plan.old plan.new (created_effect number path.now entry) result }
    ensures keeps { Keeps plan.old plan.new }
{
    match sized(alloc, "Shortcut", number, entry) {
        Ok(entry) => match put_below(alloc, plan, path, entry) {
            Ok(()) => Ok(()),
            Err(_) => Err(PlanError::NoMemory),
        },
        Err(error) => Err(error),
    }
}

// Carries out a row with its path.
fn create_at<S: Sees>(
    alloc: Global,
    seen: &S,
    number: u32,
    row: &ShortcutRow,
    path: &PathText,
    plan: &mut Plan,
) -> Result<(), PlanError>
    requires lawful { IsLawful (S.rows seen.now) }
    requires numbers { HasNumbers row.now }
    requires file { IsTrue (is_file_path path.now) }
    ensures row { (held files : Map (List ℕ)) (w : World) → IsAsked (S.lookups seen.now) (S.choices seen.now) (S.rows seen.now) w → made.Row held files plan.old plan.new (created_at w (numbered number row.now) path.now) result }
    ensures keeps { Keeps plan.old plan.new }
{
    match entry_of_row(alloc, seen, number, row, path) {
        Ok(entry) => put_shortcut(alloc, number, plan, path, entry),
        Err(error) => Err(error),
    }
}

// Carries out a row.
fn create_row<S: Sees>(
    alloc: Global,
    seen: &S,
    row: Row<'_, ShortcutRow>,
    plan: &mut Plan,
) -> Result<(), PlanError>
    requires lawful { IsLawful (S.rows seen.now) }
    requires numbers { HasNumbers row.1.now }
    ensures row { (held files : Map (List ℕ)) (w : World) → IsAsked (S.lookups seen.now) (S.choices seen.now) (S.rows seen.now) w → made.Row held files plan.old plan.new (create_effect w (as_numbered row.entry)) result }
    ensures keeps { Keeps plan.old plan.new }
{
    let (number, row) = row;
    match path_or_refused(alloc, seen, number, row) {
        Ok(path) => {
            let done = create_at(alloc, seen, number, row, &path, plan);
            drop(path);
            done
        }
        Err(error) => Err(error),
    }
}

// Carries out rows, one after the other.
fn create_rows<S: Sees>(
    alloc: Global,
    seen: &S,
    rows: &[Row<'_, ShortcutRow>],
    plan: &mut Plan,
) -> Result<(), PlanError>
    requires lawful { IsLawful (S.rows seen.now) }
    requires numbers { All (λ r. HasNumbers r.1.now) rows.now }
    ensures rows { (held files : Map (List ℕ)) (w : World) → IsAsked (S.lookups seen.now) (S.choices seen.now) (S.rows seen.now) w → made.Rows held files plan.old plan.new (map (λ r. create_effect w (as_numbered r)) rows.now) result }
    ensures keeps { Keeps plan.old plan.new }
{
    for row in rows {
        match create_row(alloc, seen, *row, plan) {
            Ok(()) => {}
            Err(error) => return Err(error),
        }
    }
    Ok(())
}

/// CreateShortcuts: the rows of coming components in byte order of their keys. A Target that is a key of Feature is the key path of
/// the row's component, that of a file or folder by the directories as they stand, that of a value as CostFinalize found it; any
/// other Target and the Arguments are expanded. WkDir is the value of its property, null numbers are 0 and a null ShowCmd is 1.
/// The missing folders of a shortcut are made (CreateShortcuts Action; Shortcut table).
///
/// Refused with the first of `BadPath`, of the row or of the row of File whose path is past the limits, `TooDeep` and `BadValue`
/// of a row. No text of more than 67,108,864 bytes is put together: it is want of memory.
pub fn plan_create_shortcuts<S: Sees>(
    alloc: Global,
    seen: &S,
    plan: &mut Plan,
) -> Result<(), PlanError>
    requires { IsLawful (S.rows seen.now) }
    ensures phase { (held files : Map (List ℕ)) (w : World) → IsAsked (S.lookups seen.now) (S.choices seen.now) (S.rows seen.now) w → w.machine ≡ plan_machine held files plan.old → Phase held files plan.old plan.new create_shortcuts w result }
    ensures there { (held files : Map (List ℕ)) → AreThere held files (present_items plan.old.overlay) → AreThere held files (present_items plan.new.overlay) }
    ensures former { former_items plan.new.overlay ≡ former_items plan.old.overlay }
    ensures grows { Grows plan.old.script plan.new.script }
{
    let rows = coming_shortcuts(alloc, seen)?;
    create_rows(alloc, seen, rows.as_slice(), plan)
}
