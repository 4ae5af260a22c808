//! RemoveShortcuts as a plan call.

ghost use Rattle.std.specs.Prelude.{◌≡◌, List, ℕ, IfOk, OnOk, IsTrue, Ok, Some, option_map, map};
ghost use Rattle.std.specs.List.{filter_map};
ghost use Rattle.mi_text.specs.Fold.{folded};
ghost use Rattle.mi_text.specs.Maps.{Map};
ghost use Rattle.mi_text.specs.Path.{is_file_path, up_to_last};
ghost use Rattle.mi_base.specs.Names.{shortcut_name};
ghost use Rattle.mi_image.specs.Items.{AreThere};
ghost use Rattle.mi_image.specs.Overlays.{former_items, present_items};
ghost use Rattle.mi_model.specs.World.{World};
ghost use Rattle.mi_model.specs.Shortcuts.{shortcut_path, is_guarded_shortcut, leaving_shortcuts, touched_folders, without_shortcut, remove_shortcuts};
ghost use Rattle.mi_model.specs.Prune.{prune_folders};
ghost use Rattle.mi_schema.specs.Lawful.{IsLawful};
ghost use Rattle.mi_steps.specs.Follows.{Grows};
ghost use Rattle.mi_steps.specs.Makes.{Makes, plan_machine};
ghost use Rattle.mi_records.specs.Choices.{IsAsked};
ghost use Rattle.mi_records.specs.Keeps.{Keeps};
ghost use Rattle.mi_records.specs.Meaning.{numbered};
ghost use Rattle.mi_records.specs.Order.{as_numbered};
ghost use Rattle.mi_records.specs.Removing.{Guards};
ghost use Rattle.mi_records.specs.Rows as made;
ghost use Rattle.mi_records.specs.Rows.{Phase};
ghost use Rattle.mi_shortcuts.specs.Entries.{guarded_by, remove_effect, touched_by};

use crate::shortcut::{path_or_refused, shortcut_path};
use crate::shortcut_rows::leaving_shortcuts;
use mi_base::{Bytes, NoMemory, PathText, Text, fold};
use mi_files::prune_folders;
use mi_records::{PlanError, Row, Sees};
use mi_row_steps::drop_at;
use mi_schema::ShortcutRow;
use mi_steps::Plan;
use std::alloc::Global;
use std::collections::BTreeSet;

// ---- guards

// The text of the name of a shortcut.
#[tactic(auto, unfolding(mi_base::specs::Names::shortcut_name))]
fn name_text(alloc: Global, path: &PathText) -> Result<Text, NoMemory>
    ensures { IfOk result (λ text. text ≡ shortcut_name path.now) }
{
    let mut text = Text::copy_of(alloc, "s/")?;
    text.push_str(fold(alloc, path.as_str())?.as_str())?;
    Ok(text)
}

// The name of the shortcut of a path, which is dropped.
fn some_name(alloc: Global, path: PathText) -> Result<Option<Text>, NoMemory>
    ensures { IfOk result (λ name. name ≡ Some (shortcut_name path)) }
{
    let name = name_text(alloc, &path)?;
    Ok(Some(name))
}

// The name of the shortcut of a row, where it has one.
fn named<S: Sees>(alloc: Global, seen: &S, row: &ShortcutRow) -> Result<Option<Text>, NoMemory>
    ensures { (w : World) → IsAsked (S.lookups seen.now) (S.choices seen.now) (S.rows seen.now) w → IfOk result (λ name. name ≡ option_map shortcut_name (shortcut_path w row.now)) }
{
    match shortcut_path(alloc, seen, row) {
        Ok(Some(path)) => some_name(alloc, path),
        Ok(None) => Ok(None),
        Err(_) => Err(NoMemory),
    }
}

// The name of the shortcut that a row guards.
fn guard_of<S: Sees>(alloc: Global, seen: &S, row: &ShortcutRow) -> Result<Option<Text>, NoMemory>
    ensures { (w : World) → IsAsked (S.lookups seen.now) (S.choices seen.now) (S.rows seen.now) w → IfOk result (λ name. name ≡ guarded_by w row.now) }
{
    if seen.keeps(row.component.as_str()) {
        named(alloc, seen, row)
    } else {
        Ok(None)
    }
}

// The names of the shortcuts that rows of kept components name, which leaving rows don't take (this project's own).
fn guards<S: Sees>(alloc: Global, seen: &S) -> Result<BTreeSet<Text>, NoMemory>
    ensures { (w : World) → IsAsked (S.lookups seen.now) (S.choices seen.now) (S.rows seen.now) w → IfOk result (λ set. Guards set (is_guarded_shortcut w)) }
{
    let loaded = seen.package();
    let mut set = BTreeSet::new(alloc);
    for row in loaded.shortcut.values() {
        if let Some(name) = guard_of(alloc, seen, row)? {
            set.insert(name)?;
        }
    }
    Ok(set)
}

// ---- rows

// Takes the shortcut of a path away, unless it is guarded.
fn take_at(
    alloc: Global,
    guards: &BTreeSet<Text>,
    plan: &mut Plan,
    path: &PathText,
) -> Result<(), NoMemory>
    requires { IsTrue (is_file_path path.now) }
    ensures makes { (held files : Map (List ℕ)) (w : World) → Guards guards.now (is_guarded_shortcut w) → OnOk result (Makes held files plan.old plan.new (without_shortcut w (shortcut_name path.now))) }
    ensures keeps { Keeps plan.old plan.new }
{
    let name = name_text(alloc, path)?;
    if guards.contains(&name) {
        return Ok(());
    }
    drop_at(alloc, plan, name.as_str())
}

// Carries out a row.
fn remove_row<S: Sees>(
    alloc: Global,
    seen: &S,
    guards: &BTreeSet<Text>,
    row: Row<'_, ShortcutRow>,
    plan: &mut Plan,
) -> Result<(), PlanError>
    ensures row { (held files : Map (List ℕ)) (w : World) → IsAsked (S.lookups seen.now) (S.choices seen.now) (S.rows seen.now) w → Guards guards.now (is_guarded_shortcut w) → made.Row held files plan.old plan.new (remove_effect w (as_numbered row.entry)) result }
    ensures keeps { Keeps plan.old plan.new }
{
    let (number, row) = row;
    match path_or_refused(alloc, seen, number, row) {
        Ok(path) => {
            let done = take_row(alloc, guards, plan, &path);
            drop(path);
            done
        }
        Err(error) => Err(error),
    }
}

// The same as `take_at`, as a row is answered.
fn take_row(
    alloc: Global,
    guards: &BTreeSet<Text>,
    plan: &mut Plan,
    path: &PathText,
) -> Result<(), PlanError>
    requires { IsTrue (is_file_path path.now) }
    ensures row { (held files : Map (List ℕ)) (w : World) → Guards guards.now (is_guarded_shortcut w) → made.Row held files plan.old plan.new (λ m. Ok (without_shortcut w (shortcut_name path.now))) result }
    ensures keeps { Keeps plan.old plan.new }
{
    match take_at(alloc, guards, plan, path) {
        Ok(()) => Ok(()),
        Err(_) => Err(PlanError::NoMemory),
    }
}

// Carries out rows, one after the other.
fn remove_rows<S: Sees>(
    alloc: Global,
    seen: &S,
    guards: &BTreeSet<Text>,
    rows: &[Row<'_, ShortcutRow>],
    plan: &mut Plan,
) -> Result<(), PlanError>
    ensures rows { (held files : Map (List ℕ)) (w : World) → IsAsked (S.lookups seen.now) (S.choices seen.now) (S.rows seen.now) w → Guards guards.now (is_guarded_shortcut w) → made.Rows held files plan.old plan.new (map (λ r. remove_effect w (as_numbered r)) rows.now) result }
    ensures keeps { Keeps plan.old plan.new }
{
    for row in rows {
        match remove_row(alloc, seen, guards, *row, plan) {
            Ok(()) => {}
            Err(error) => return Err(error),
        }
    }
    Ok(())
}

// ---- their folders

// The folder of a path, folded; the path is dropped.
fn some_parent(alloc: Global, path: PathText) -> Result<Option<Bytes>, NoMemory>
    requires { IsTrue (is_file_path path) }
    ensures { IfOk result (λ bytes. bytes ≡ Some (folded (up_to_last path))) }
{
    let folder = path.parent(alloc)?;
    let text = fold(alloc, folder.as_str())?;
    let bytes = Bytes::copy_of(alloc, text.as_bytes())?;
    Ok(Some(bytes))
}

// The folder in which the shortcut of a row lies, folded.
fn touched_by<S: Sees>(
    alloc: Global,
    seen: &S,
    row: &ShortcutRow,
) -> Result<Option<Bytes>, NoMemory>
    ensures { (w : World) (number : ℕ) → IsAsked (S.lookups seen.now) (S.choices seen.now) (S.rows seen.now) w → IfOk result (λ folder. folder ≡ touched_by w (numbered number row.now)) }
{
    match shortcut_path(alloc, seen, row) {
        Ok(Some(path)) => some_parent(alloc, path),
        Ok(None) => Ok(None),
        Err(_) => Err(NoMemory),
    }
}

// The folders in which the shortcuts of rows lie, folded.
fn touched<S: Sees>(
    alloc: Global,
    seen: &S,
    rows: &[Row<'_, ShortcutRow>],
) -> Result<Vec<Bytes>, NoMemory>
    ensures { (w : World) → IsAsked (S.lookups seen.now) (S.choices seen.now) (S.rows seen.now) w → IfOk result (λ folders. folders.items ≡ filter_map (touched_by w) (map as_numbered rows.now)) }
{
    let mut folders = Vec::new(alloc);
    for row in rows {
        if let Some(folder) = touched_by(alloc, seen, row.1)? {
            folders.push(folder)?;
        }
    }
    Ok(folders)
}

// ---- the phase

// Prunes the folders in which the shortcuts of rows lay.
fn prune_touched<S: Sees>(
    alloc: Global,
    seen: &S,
    rows: &[Row<'_, ShortcutRow>],
    plan: &mut Plan,
) -> Result<(), NoMemory>
    requires { IsLawful (S.rows seen.now) }
    ensures made { (held files : Map (List ℕ)) (w : World) → IsAsked (S.lookups seen.now) (S.choices seen.now) (S.rows seen.now) w → map as_numbered rows.now ≡ leaving_shortcuts w → OnOk result (made.Made held files plan.old plan.new (prune_folders w (touched_folders w))) }
    ensures keeps { Keeps plan.old plan.new }
{
    match touched(alloc, seen, rows) {
        Ok(folders) => prune_folders(alloc, seen, plan, folders),
        Err(_) => Err(NoMemory),
    }
}

// Carries out the rows, and prunes behind them.
fn remove_and_prune<S: Sees>(
    alloc: Global,
    seen: &S,
    guards: &BTreeSet<Text>,
    rows: &[Row<'_, ShortcutRow>],
    plan: &mut Plan,
) -> Result<(), PlanError>
    requires { IsLawful (S.rows seen.now) }
    ensures phase { (held files : Map (List ℕ)) (w : World) → IsAsked (S.lookups seen.now) (S.choices seen.now) (S.rows seen.now) w → Guards guards.now (is_guarded_shortcut w) → map as_numbered rows.now ≡ leaving_shortcuts w → w.machine ≡ plan_machine held files plan.old → Phase held files plan.old plan.new remove_shortcuts w result }
    ensures keeps { Keeps plan.old plan.new }
{
    match remove_rows(alloc, seen, guards, rows, plan) {
        Ok(()) => {
            prune_touched(alloc, seen, rows, plan)?;
            Ok(())
        }
        Err(error) => Err(error),
    }
}

/// RemoveShortcuts: the shortcuts of the rows of leaving components go, but for those that rows of kept components name; then the
/// folders in which they lay are pruned (RemoveShortcuts Action; Shortcut table). It costs a search for each row, and a sort of
/// what is held.
///
/// Refused with `BadPath` of the first row in byte order of the keys whose path is past the limits.
pub fn plan_remove_shortcuts<S: Sees>(
    alloc: Global,
    seen: &S,
    plan: &mut Plan,
) -> Result<(), PlanError>
    requires { IsLawful (S.rows seen.now) }
    ensures phase { (held files : Map (List ℕ)) (w : World) → IsAsked (S.lookups seen.now) (S.choices seen.now) (S.rows seen.now) w → w.machine ≡ plan_machine held files plan.old → Phase held files plan.old plan.new remove_shortcuts w result }
    ensures there { (held files : Map (List ℕ)) → AreThere held files (present_items plan.old.overlay) → AreThere held files (present_items plan.new.overlay) }
    ensures former { former_items plan.new.overlay ≡ former_items plan.old.overlay }
    ensures grows { Grows plan.old.script plan.new.script }
{
    let rows = leaving_shortcuts(alloc, seen)?;
    let guards = guards(alloc, seen)?;
    remove_and_prune(alloc, seen, &guards, rows.as_slice(), plan)
}
