//! The counts of shared files: which components have one, its name, and what counts guard (Component table, Attributes,
//! msidbComponentAttributesSharedDllRefCount; the rules of the counts are this project's own).

ghost use Rattle.std.specs.Prelude.{◌≡◌, ◌+◌, ◌∷◌, ◌++◌, ◌&&◌, [], List, ℕ, Bool, min, Some, None, IfOk, IfSome, OnOk, is_some, option_map, true, false, if◌then◌else◌};
ghost use Rattle.std.specs.FinMap.{get, keys};
ghost use Rattle.std.specs.Option.{option_or};
ghost use Rattle.mi_text.specs.Maps.{Map};
ghost use Rattle.mi_base.specs.declared.answers.Fault.{Fault};
ghost use Rattle.mi_base.specs.declared.entry.Entry.TheVariants as entry;
ghost use Rattle.mi_base.specs.declared.entry.RegValue.TheVariants as value;
ghost use Rattle.mi_base.specs.declared.entry.ValueKey.{ValueKey};
ghost use Rattle.mi_base.specs.Spelling.{name_of};
ghost use Rattle.mi_changes.specs.Touches.{Set, Clear};
ghost use Rattle.mi_image.specs.Items.{machine_over};
ghost use Rattle.mi_model.specs.World.{World, MakeLocal, MakeAbsent};
ghost use Rattle.mi_model.specs.Asked.{leaves};
ghost use Rattle.mi_model.specs.ComponentRows.{action_in};
ghost use Rattle.mi_model.specs.CountRows.{is_guarded, count_touches, counted_by, counted_path};
ghost use Rattle.mi_model.specs.KeyPaths.{file_row};
ghost use Rattle.mi_model.specs.Parents.{key_with_parents};
ghost use Rattle.mi_model.specs.ProcessComponents.{takes_counts, touched_counts};
ghost use Rattle.mi_model.specs.Prune.{goes, key_place, key_seat};
ghost use Rattle.mi_model.specs.RegistryGuards.{is_guarded_value, kept_keys};
ghost use Rattle.mi_model.specs.SharedCounts.{shared_key, count_name, count_entry, count_in, raised, lowered, is_counted};
ghost use Rattle.mi_schema.specs.Lawful.{IsLawful};
ghost use Rattle.mi_schema.specs.RowsOf.{rows_in};
ghost use Rattle.mi_script.specs.Spelled.{is_file_name};
ghost use Rattle.mi_steps.specs.Follows.{put_touch};
ghost use Rattle.mi_steps.specs.Makes.{Makes, is_file, plan_machine};
ghost use Rattle.mi_records.specs.declared.error.PlanError.TheVariants as refusal;
ghost use Rattle.mi_records.specs.Choices.{IsAsked};
ghost use Rattle.mi_records.specs.Clients.{IsOwn};
ghost use Rattle.mi_records.specs.Counts.{guard_of_count};
ghost use Rattle.mi_records.specs.Keeps.{Keeps};
ghost use Rattle.mi_records.specs.Removing.{Guards};
ghost use Rattle.mi_records.specs.Rows as made;

use crate::error::PlanError;
use crate::key_path::{file_number, lacks, recorded_path};
use crate::names::value_key;
use crate::sees::Sees;
use mi_base::{Entry, Name, NoMemory, RegValue, enc_entry};
use mi_schema::{ComponentRow, Package, keys_apart, keys_stand};
use std::alloc::Global;
use std::collections::BTreeSet;

/// The root of the counts, HKEY_LOCAL_MACHINE.
pub const SHARED_ROOT: u8 = 2;

/// The key of the counts.
pub const SHARED_KEY: &str = "Software\\Microsoft\\Windows\\CurrentVersion\\SharedDLLs";

// ---- which components are counted

// Whether the key path of a component is a row of File.
fn has_file(loaded: &Package, row: &ComponentRow) -> bool
    requires { IsLawful loaded.now }
    ensures { result ≡ is_some (file_row (rows_in loaded.now) row.now) }
{
    match &row.key_path {
        Some(key) => lacks(4, row.attributes) && file_number(loaded, key).is_some(),
        None => false,
    }
}

/// Whether a component is counted: it has attribute 8, an id, and a row of File as its key path (Component table, Attributes).
pub fn is_counted(loaded: &Package, row: &ComponentRow) -> bool
    requires { IsLawful loaded.now }
    ensures { result ≡ is_counted (rows_in loaded.now) row.now }
{
    !lacks(8, row.attributes) && row.component_id.is_some() && has_file(loaded, row)
}

// ---- a count and its name

/// The value that counts so many under a path.
pub fn count_entry(alloc: Global, path: &str, number: u32) -> Result<Entry, NoMemory>
    ensures { IfOk result (λ e. e ≡ count_entry path.now number) }
{
    match value_key(alloc, SHARED_ROOT, SHARED_KEY, path) {
        Ok(key) => Ok(Entry::Value(key, RegValue::Int(number))),
        Err(_) => Err(NoMemory),
    }
}

// The name of an entry. One that breaks the limits of its kind is want of memory.
fn name_where_right(alloc: Global, entry: &Entry) -> Result<Name, NoMemory>
    ensures { IfOk result (λ name. name ≡ name_of entry.now) }
{
    match enc_entry(alloc, entry) {
        Ok((name, _)) => Ok(name),
        Err(_) => Err(NoMemory),
    }
}

/// The name of the count of a path. A path of more bytes than a value's name may have, as no file has, is want of memory.
pub fn count_name(alloc: Global, path: &str) -> Result<Name, NoMemory>
    ensures { IfOk result (λ name. name ≡ count_name path.now) }
{
    match count_entry(alloc, path, 0) {
        Ok(entry) => {
            let name = name_where_right(alloc, &entry);
            drop(entry);
            name
        }
        Err(_) => Err(NoMemory),
    }
}

// ---- what counts guard

fn some_count(alloc: Global, path: &str) -> Result<Option<Name>, NoMemory>
    ensures { IfOk result (λ name. name ≡ Some (count_name path.now)) }
{
    let name = count_name(alloc, path)?;
    Ok(Some(name))
}

// No name, where the error is a refusal.
fn none_where_refused(error: &PlanError) -> Result<Option<Name>, NoMemory>
    ensures { IfOk result (λ name. (name ≡ None) × ((f : Fault) × (error.now ≡ refusal.Fault f))) }
{
    match error {
        PlanError::NoMemory => Err(NoMemory),
        PlanError::Fault(_) => Ok(None),
    }
}

// The name of the count of a counted component; None where its path is refused.
fn path_named<S: Sees>(
    alloc: Global,
    seen: &S,
    row: &ComponentRow,
) -> Result<Option<Name>, NoMemory>
    requires lawful { IsLawful (S.rows seen.now) }
    requires own { IsOwn (rows_in (S.rows seen.now)) row.now }
    requires counted { is_counted (rows_in (S.rows seen.now)) row.now ≡ true }
    ensures { (w : World) → IsAsked (S.lookups seen.now) (S.choices seen.now) (S.rows seen.now) w → IfOk result (λ name. name ≡ option_map count_name (counted_path w row.now)) }
{
    match recorded_path(alloc, seen, row) {
        Ok(path) => some_count(alloc, path),
        Err(error) => {
            let name = none_where_refused(&error);
            drop(error);
            name
        }
    }
}

// The name of the count of a component; None where it isn't counted, or its path is refused.
fn counted_name<S: Sees>(
    alloc: Global,
    seen: &S,
    row: &ComponentRow,
) -> Result<Option<Name>, NoMemory>
    requires lawful { IsLawful (S.rows seen.now) }
    requires own { IsOwn (rows_in (S.rows seen.now)) row.now }
    ensures { (w : World) → IsAsked (S.lookups seen.now) (S.choices seen.now) (S.rows seen.now) w → IfOk result (λ name. name ≡ option_map count_name (counted_path w row.now)) }
{
    if is_counted(seen.package(), row) {
        path_named(alloc, seen, row)
    } else {
        Ok(None)
    }
}

// The name of the count that a component guards.
fn guard_of_count<S: Sees>(
    alloc: Global,
    seen: &S,
    row: &ComponentRow,
) -> Result<Option<Name>, NoMemory>
    requires lawful { IsLawful (S.rows seen.now) }
    requires own { IsOwn (rows_in (S.rows seen.now)) row.now }
    ensures { (w : World) → IsAsked (S.lookups seen.now) (S.choices seen.now) (S.rows seen.now) w → IfOk result (λ name. name ≡ guard_of_count w row.now) }
{
    if seen.keeps(row.component.as_str()) {
        counted_name(alloc, seen, row)
    } else {
        Ok(None)
    }
}

/// Adds the names of the counts of kept components, which leaving components don't take (this project's own).
pub fn add_counts<S: Sees>(
    alloc: Global,
    seen: &S,
    set: &mut BTreeSet<Name>,
) -> Result<(), NoMemory>
    requires { IsLawful (S.rows seen.now) }
    ensures { (w : World) → IsAsked (S.lookups seen.now) (S.choices seen.now) (S.rows seen.now) w → Guards set.old (is_guarded_value w) → OnOk result (Guards set.new (is_guarded w)) }
{
    let loaded = seen.package();
    keys_stand(loaded);
    keys_apart(loaded);
    for row in loaded.component.values() {
        if let Some(name) = guard_of_count(alloc, seen, row)? {
            set.insert(name)?;
        }
    }
    Ok(())
}
