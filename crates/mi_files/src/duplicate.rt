//! DuplicateFiles as a plan call (DuplicateFile table).

ghost use Rattle.std.specs.Prelude.{◌≡◌, ◌≢◌, ◌++◌, ◌&&◌, not, [], List, ℕ, Some, IfOk, IfSome, OnOk, IsTrue, true, is_some, map, filter, option_map};
ghost use Rattle.std.specs.FinMap.{get};
ghost use Rattle.std.specs.Option.{option_copied};
ghost use Rattle.mi_text.specs.Maps.{Map, same_name};
ghost use Rattle.mi_text.specs.Path.{is_file_path};
ghost use Rattle.mi_base.specs.declared.entry.Entry.TheVariants as entry;
ghost use Rattle.mi_base.specs.Limits.{fits};
ghost use Rattle.mi_base.specs.Machine.{as_file, file_at};
ghost use Rattle.mi_base.specs.Names.{file_name};
ghost use Rattle.mi_base.specs.Records.{with_bytes};
ghost use Rattle.mi_base.specs.Spelling.{head_of};
ghost use Rattle.mi_image.specs.Items.{AreThere, machine_over};
ghost use Rattle.mi_image.specs.Lookups.{head_in, length_in};
ghost use Rattle.mi_image.specs.Overlays.{former_items, present_items};
ghost use Rattle.mi_model.specs.World.{World};
ghost use Rattle.mi_model.specs.Asked.{comes};
ghost use Rattle.mi_model.specs.DuplicateFiles as model;
ghost use Rattle.mi_model.specs.DuplicateFiles.{copies, copied_row, duplicate_files};
ghost use Rattle.mi_model.specs.Parents.{parents_of_path};
ghost use Rattle.mi_schema.specs.Lawful.{IsLawful};
ghost use Rattle.mi_steps.specs.Follows.{Grows};
ghost use Rattle.mi_steps.specs.Makes.{Makes, plan_machine};
ghost use Rattle.mi_script.specs.Spelled.{is_file_name};
ghost use Rattle.mi_records.specs.Choices.{IsAsked};
ghost use Rattle.mi_records.specs.Keeps.{Keeps};
ghost use Rattle.mi_records.specs.Order.{as_numbered};
ghost use Rattle.mi_records.specs.Rows as made;
ghost use Rattle.mi_records.specs.Rows.{Phase};
ghost use Rattle.mi_files.specs.Copies.{copied_head, copy_of_file, copied_to};

use crate::names::{bad_path, name_of_file};
use crate::parents::make_folders;
use crate::paths::{copy_path, original_path};
use crate::rows::copies_in_order;
use mi_base::{FileHead, Languages, Name, NoMemory, PathText};
use mi_image::{Image, Item};
use mi_records::{PlanError, Row, Sees};
use mi_schema::DuplicateFileRow;
use mi_steps::Plan;
use std::alloc::Global;

// ---- the rows

// The rows whose components come, of these.
fn coming<'a, E: Sees>(
    alloc: Global,
    seen: &E,
    rows: &[Row<'a, DuplicateFileRow>],
) -> Result<Vec<Row<'a, DuplicateFileRow>>, NoMemory>
    ensures { IfOk result (λ taken. taken.items ≡ filter (λ r. (E.choices seen.now).coming r.1.now.component) rows.now) }
{
    let mut taken = Vec::new(alloc);
    for row in rows {
        if seen.comes(row.1.component.as_str()) {
            taken.push(*row)?;
        }
    }
    Ok(taken)
}

// The rows of coming components, in key order.
fn coming_rows<'a, E: Sees>(
    alloc: Global,
    seen: &'a E,
) -> Result<Vec<Row<'a, DuplicateFileRow>>, NoMemory>
    requires { IsLawful (E.rows seen.now) }
    ensures { (w : World) → IsAsked (E.lookups seen.now) (E.choices seen.now) (E.rows seen.now) w → IfOk result (λ rows. map as_numbered rows.items ≡ model.copy_rows (comes w) w) }
{
    let rows = copies_in_order(alloc, seen.package())?;
    let taken = coming(alloc, seen, rows.as_slice())?;
    Ok(taken)
}

// ---- a copy

// The head of the file that stands at a name.
fn head_at<'a>(image: &'a Image, name: &Name) -> Option<&'a FileHead>
    ensures file { (held files : Map (List ℕ)) → AreThere held files image.now → option_copied result ≡ option_map head_of (as_file (get (machine_over held files image.now) name.now)) }
    ensures length { option_copied result ≡ head_in (get image.now name.now) }
    ensures fits { IfSome result (λ head. fits (entry.File (with_bytes head.now [])) ≡ true) }
{
    match image.get(name.as_str()) {
        Some(Item::Head(head, _)) => Some(head),
        Some(Item::Whole(_)) => None,
        None => None,
    }
}

// The head of the copy of a file, made at this moment.
fn copied_head(
    alloc: Global,
    head: &FileHead,
    path: &PathText,
    moment: u64,
) -> Result<FileHead, NoMemory>
    ensures { IfOk result (λ own. own ≡ copied_head path.now moment head.now) }
{
    let languages = Vec::from_slice(alloc, head.languages.as_slice())?;
    Ok(FileHead {
        shown: path.copy(alloc)?,
        version: head.version,
        languages: Languages::from_vec(languages),
        created: moment,
        modified: moment,
        attributes: head.attributes,
        length: head.length,
    })
}

// The head of the copy of what stands at a name, where that is a file.
fn head_of_copy(
    alloc: Global,
    image: &Image,
    from: &Name,
    path: &PathText,
    moment: u64,
) -> Result<Option<FileHead>, NoMemory>
    requires { IsTrue (is_file_path path.now) }
    ensures file { (held files : Map (List ℕ)) → AreThere held files image.now → IfOk result (λ own. own ≡ option_map (copied_head path.now moment) (option_map head_of (as_file (get (machine_over held files image.now) from.now)))) }
    ensures shown { IfOk result (λ own. IfSome own (λ head. head.shown ≡ path.now)) }
    ensures length { IfOk result (λ own. IfSome own (λ head. length_in (get image.now from.now) ≡ Some head.length)) }
    ensures fits { IfOk result (λ own. IfSome own (λ head. fits (entry.File (with_bytes head [])) ≡ true)) }
{
    match head_at(image, from) {
        Some(head) => {
            let own = copied_head(alloc, head, path, moment)?;
            Ok(Some(own))
        }
        None => Ok(None),
    }
}

// Copies another file to a folder that is there; nothing where no file stands at the name.
fn write_copy(
    alloc: Global,
    plan: &mut Plan,
    moment: u64,
    path: &PathText,
    from: &Name,
) -> Result<(), NoMemory>
    requires path { IsTrue (is_file_path path.now) }
    requires other { from.now ≢ file_name path.now }
    ensures makes { (held files : Map (List ℕ)) → AreThere held files (present_items plan.old.overlay) → OnOk result (Makes held files plan.old plan.new (copy_of_file path.now moment (as_file (get (plan_machine held files plan.old) from.now)))) }
    ensures keeps { Keeps plan.old plan.new }
{
    match head_of_copy(alloc, plan.overlay.image(), from, path, moment) {
        Ok(Some(head)) => {
            let done = plan.duplicate_file(alloc, &head, from);
            drop(head);
            done
        }
        Ok(None) => Ok(()),
        Err(_) => Err(NoMemory),
    }
}

// Makes the folders of a path, and copies another file to it.
fn copy_with_folders(
    alloc: Global,
    plan: &mut Plan,
    moment: u64,
    path: &PathText,
    from: &Name,
) -> Result<(), NoMemory>
    requires path { IsTrue (is_file_path path.now) }
    requires from { is_file_name from.now ≡ true }
    requires other { from.now ≢ file_name path.now }
    ensures makes { (held files : Map (List ℕ)) → AreThere held files (present_items plan.old.overlay) → OnOk result (Makes held files plan.old plan.new (parents_of_path path.now ++ copy_of_file path.now moment (as_file (get (plan_machine held files plan.old) from.now)))) }
    ensures keeps { Keeps plan.old plan.new }
{
    let folder = path.parent(alloc)?;
    make_folders(alloc, plan, &folder)?;
    write_copy(alloc, plan, moment, path, from)
}

// Whether a file is copied: one stands at the name, and it isn't the copy itself.
fn is_copied(alloc: Global, image: &Image, path: &PathText, from: &Name) -> Result<bool, NoMemory>
    ensures copied { (held files : Map (List ℕ)) → AreThere held files image.now → IfOk result (λ b. b ≡ (is_some (as_file (get (machine_over held files image.now) from.now)) && not (same_name (file_name path.now) from.now))) }
    ensures other { IfOk result (λ b. b ≡ true → from.now ≢ file_name path.now) }
{
    let own = name_of_file(alloc, path)?;
    Ok(head_at(image, from).is_some() && own.as_bytes() != from.as_bytes())
}

// Copies a file, with the folders of the copy. Nothing where no file stands at the other path, or where both are one.
fn copy_file(
    alloc: Global,
    plan: &mut Plan,
    moment: u64,
    path: &PathText,
    original: &PathText,
) -> Result<(), NoMemory>
    requires { IsTrue (is_file_path path.now) }
    ensures makes { (held files : Map (List ℕ)) (w : World) → w.given.now ≡ moment → AreThere held files (present_items plan.old.overlay) → OnOk result (Makes held files plan.old plan.new (copies w path.now original.now (file_at (plan_machine held files plan.old) original.now))) }
    ensures keeps { Keeps plan.old plan.new }
{
    let from = name_of_file(alloc, original)?;
    if is_copied(alloc, plan.overlay.image(), path, &from)? {
        copy_with_folders(alloc, plan, moment, path, &from)
    } else {
        Ok(())
    }
}

// ---- rows

// Carries out the row of a copy's path.
fn copy_to<E: Sees>(
    alloc: Global,
    seen: &E,
    row: Row<'_, DuplicateFileRow>,
    plan: &mut Plan,
    path: &PathText,
) -> Result<(), PlanError>
    requires lawful { IsLawful (E.rows seen.now) }
    requires path { IsTrue (is_file_path path.now) }
    ensures row { (held files : Map (List ℕ)) (w : World) → IsAsked (E.lookups seen.now) (E.choices seen.now) (E.rows seen.now) w → AreThere held files (present_items plan.old.overlay) → made.Row held files plan.old plan.new (copied_to w row.entry.0 row.entry.1.now path.now) result }
    ensures keeps { Keeps plan.old plan.new }
{
    let (number, row) = row;
    match original_path(alloc, seen, row)? {
        Some(original) => {
            copy_file(alloc, plan, seen.moment(), path, &original)?;
            Ok(())
        }
        None => Err(bad_path(alloc, "DuplicateFile", number)),
    }
}

// Carries out a row.
fn copy_row<E: Sees>(
    alloc: Global,
    seen: &E,
    row: Row<'_, DuplicateFileRow>,
    plan: &mut Plan,
) -> Result<(), PlanError>
    requires lawful { IsLawful (E.rows seen.now) }
    ensures row { (held files : Map (List ℕ)) (w : World) → IsAsked (E.lookups seen.now) (E.choices seen.now) (E.rows seen.now) w → AreThere held files (present_items plan.old.overlay) → made.Row held files plan.old plan.new (copied_row w (as_numbered row.entry)) result }
    ensures keeps { Keeps plan.old plan.new }
{
    match copy_path(alloc, seen, row.1)? {
        Some(Some(path)) => copy_to(alloc, seen, row, plan, &path),
        Some(None) => Err(bad_path(alloc, "DuplicateFile", row.0)),
        None => Ok(()),
    }
}

// Carries out rows, one after the other.
fn copy_rows<E: Sees>(
    alloc: Global,
    seen: &E,
    rows: &[Row<'_, DuplicateFileRow>],
    plan: &mut Plan,
) -> Result<(), PlanError>
    requires lawful { IsLawful (E.rows seen.now) }
    ensures rows { (held files : Map (List ℕ)) (w : World) → IsAsked (E.lookups seen.now) (E.choices seen.now) (E.rows seen.now) w → AreThere held files (present_items plan.old.overlay) → made.Rows held files plan.old plan.new (map (λ r. copied_row w (as_numbered r)) rows.now) result }
    ensures keeps { Keeps plan.old plan.new }
{
    for row in rows {
        match copy_row(alloc, seen, *row, plan) {
            Ok(()) => {}
            Err(error) => return Err(error),
        }
    }
    Ok(())
}

/// DuplicateFiles: the rows of coming components in byte order of their keys, each over what the earlier ones left. A copy carries
/// the moment of the run, and the version, languages and attributes of the file that is there; a copy onto itself, or of a file that
/// isn't there, does nothing, and neither does a row whose DestFolder names an empty property (DuplicateFiles Action; DuplicateFile
/// table). It costs a search for each file and folder.
///
/// Refused with `BadPath` of the first row whose copy's path, or whose file's path, is none or past the limits.
pub fn plan_duplicate<E: Sees>(alloc: Global, seen: &E, plan: &mut Plan) -> Result<(), PlanError>
    requires { IsLawful (E.rows seen.now) }
    ensures phase { (held files : Map (List ℕ)) (w : World) → IsAsked (E.lookups seen.now) (E.choices seen.now) (E.rows seen.now) w → w.machine ≡ plan_machine held files plan.old → AreThere held files (present_items plan.old.overlay) → Phase held files plan.old plan.new duplicate_files w result }
    ensures there { (held files : Map (List ℕ)) → AreThere held files (present_items plan.old.overlay) → AreThere held files (present_items plan.new.overlay) }
    ensures former { former_items plan.new.overlay ≡ former_items plan.old.overlay }
    ensures grows { Grows plan.old.script plan.new.script }
{
    let rows = coming_rows(alloc, seen)?;
    copy_rows(alloc, seen, rows.as_slice(), plan)
}
