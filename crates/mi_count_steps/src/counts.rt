//! What becomes of the counts of shared files (Component table, Attributes, msidbComponentAttributesSharedDllRefCount; the rules of
//! the counts are this project's own).

ghost use Rattle.std.specs.Prelude.{◌≡◌, ◌+◌, ◌∷◌, ◌++◌, [], List, ℕ, Bool, min, Some, None, IfOk, IfSome, OnOk, false, if◌then◌else◌};
ghost use Rattle.std.specs.FinMap.{get};
ghost use Rattle.std.specs.Option.{option_or};
ghost use Rattle.mi_text.specs.Maps.{Map};
ghost use Rattle.mi_base.specs.declared.entry.Entry.TheVariants as entry;
ghost use Rattle.mi_base.specs.declared.entry.RegValue.TheVariants as value;
ghost use Rattle.mi_base.specs.declared.entry.ValueKey.{ValueKey};
ghost use Rattle.mi_base.specs.Spelling.{name_of};
ghost use Rattle.mi_changes.specs.Touches.{Set};
ghost use Rattle.mi_image.specs.Items.{machine_over};
ghost use Rattle.mi_model.specs.Parents.{key_with_parents};
ghost use Rattle.mi_model.specs.SharedCounts.{shared_key, count_name, count_entry, count_in, raised, lowered};
ghost use Rattle.mi_script.specs.Spelled.{is_file_name};
ghost use Rattle.mi_steps.specs.Follows.{put_touch};
ghost use Rattle.mi_steps.specs.Makes.{Makes, is_file};
ghost use Rattle.mi_records.specs.Keeps.{Keeps};
ghost use Rattle.mi_records.specs.Removing.{Guards};
ghost use Rattle.mi_count_steps.specs.Counts.{MayStandAt};

use mi_base::{Entry, Name, NoMemory, RegValue, ValueKey};
use mi_image::{Image, Item};
use mi_records::{SHARED_KEY, SHARED_ROOT, copy_key, count_entry, count_name, make_keys};
use mi_steps::Plan;
use std::alloc::Global;
use std::collections::BTreeSet;

// Puts an entry that isn't a file. One that breaks the limits of its kind is want of memory.
fn put_where_right(alloc: Global, plan: &mut Plan, entry: Entry) -> Result<(), NoMemory>
    requires { is_file entry ≡ false }
    ensures makes { (held files : Map (List ℕ)) → OnOk result (Makes held files plan.old plan.new (put_touch (name_of entry) entry ∷ [])) }
    ensures keeps { Keeps plan.old plan.new }
{
    match plan.put(alloc, entry) {
        Ok(()) => Ok(()),
        Err(_) => Err(NoMemory),
    }
}

// ---- one more

// The number of a value; 0 where it is no integer.
fn number_of(value: &RegValue) -> u32
    ensures { (key : ValueKey) → result ≡ count_in (Some (entry.Value key value.now)) }
{
    match value {
        RegValue::Text(_) => 0,
        RegValue::Expand(_) => 0,
        RegValue::Int(number) => *number,
        RegValue::Binary(_) => 0,
        RegValue::List(_) => 0,
    }
}

// The number that an entry counts.
fn number_in(entry: &Entry) -> u32
    ensures { result ≡ count_in (Some entry.now) }
{
    match entry {
        Entry::File(_) => 0,
        Entry::Folder(_) => 0,
        Entry::Value(_, value) => number_of(value),
        Entry::Key(_, _) => 0,
        Entry::Shortcut(_) => 0,
        Entry::Variable(_) => 0,
        Entry::Client(_) => 0,
        Entry::Product(_) => 0,
        Entry::System(_, _) => 0,
    }
}

// The number that stands at a name.
fn number_at(image: &Image, name: &Name) -> u32
    ensures { (held files : Map (List ℕ)) → result ≡ count_in (get (machine_over held files image.now) name.now) }
{
    match image.get(name.as_str()) {
        Some(item) => match item {
            Item::Whole(entry) => number_in(entry),
            Item::Head(_, _) => 0,
        },
        None => 0,
    }
}

// One more, up to the greatest number that a value holds.
fn one_more(number: u32) -> u32
    ensures { result ≡ min (number + 1) 4294967295 }
{
    number.saturating_add(1)
}

// One more than the count of a path, up to the greatest number.
fn number_after(alloc: Global, image: &Image, path: &str) -> Result<u32, NoMemory>
    ensures { (held files : Map (List ℕ)) → IfOk result (λ n. n ≡ min (count_in (get (machine_over held files image.now) (count_name path.now)) + 1) 4294967295) }
{
    let name = count_name(alloc, path)?;
    let number = number_at(image, &name);
    Ok(one_more(number))
}

fn put_count(alloc: Global, plan: &mut Plan, path: &str, number: u32) -> Result<(), NoMemory>
    ensures makes { (held files : Map (List ℕ)) → OnOk result (Makes held files plan.old plan.new (put_touch (count_name path.now) (count_entry path.now number) ∷ [])) }
    ensures keeps { Keeps plan.old plan.new }
{
    match count_entry(alloc, path, number) {
        Ok(entry) => put_where_right(alloc, plan, entry),
        Err(_) => Err(NoMemory),
    }
}

fn raise_count(alloc: Global, plan: &mut Plan, path: &str) -> Result<(), NoMemory>
    ensures makes { (held files : Map (List ℕ)) → OnOk result (Makes held files plan.old plan.new (Set (count_name path.now) (raised path.now) ∷ [])) }
    ensures keeps { Keeps plan.old plan.new }
{
    match number_after(alloc, plan.overlay.image(), path) {
        Ok(number) => put_count(alloc, plan, path, number),
        Err(_) => Err(NoMemory),
    }
}

// Counts one more, and makes the key of the counts where it is missing.
fn raise(alloc: Global, plan: &mut Plan, path: &str) -> Result<(), NoMemory>
    ensures makes { (held files : Map (List ℕ)) → OnOk result (Makes held files plan.old plan.new (key_with_parents 2 shared_key ++ Set (count_name path.now) (raised path.now) ∷ [])) }
    ensures keeps { Keeps plan.old plan.new }
{
    match make_keys(alloc, plan, SHARED_ROOT, SHARED_KEY) {
        Ok(()) => raise_count(alloc, plan, path),
        Err(_) => Err(NoMemory),
    }
}

/// Counts one more under the path of a shared file, up to 4,294,967,295, unless its component was present: then nothing is touched.
/// The key of the counts is made where it is missing, and those above it. A path of more than 500 bytes is want of memory (Component
/// table, Attributes; the rules of the counts are this project's own).
pub fn raise_unless(
    alloc: Global,
    plan: &mut Plan,
    path: &str,
    present: bool,
) -> Result<(), NoMemory>
    ensures makes { (held files : Map (List ℕ)) → OnOk result (Makes held files plan.old plan.new (if present then [] else key_with_parents 2 shared_key ++ Set (count_name path.now) (raised path.now) ∷ [])) }
    ensures keeps { Keeps plan.old plan.new }
{
    if present {
        Ok(())
    } else {
        raise(alloc, plan, path)
    }
}

// ---- one less

// The entry of a number at the key of a value.
fn number_entry(alloc: Global, key: &ValueKey, number: u32) -> Result<Option<Entry>, NoMemory>
    ensures { IfOk result (λ o. o ≡ Some (entry.Value key.now (value.Int number))) }
{
    match copy_key(alloc, key) {
        Ok(key) => Ok(Some(Entry::Value(key, RegValue::Int(number)))),
        Err(_) => Err(NoMemory),
    }
}

// A value that counts one less; None for what is no integer.
fn lowered_value(alloc: Global, key: &ValueKey, value: &RegValue) -> Result<Option<Entry>, NoMemory>
    ensures left { IfOk result (λ o. option_or o (Some (entry.Value key.now value.now)) ≡ lowered (Some (entry.Value key.now value.now))) }
    ensures right { IfOk result (λ o. IfSome o (MayStandAt (name_of (entry.Value key.now value.now)))) }
{
    match value {
        RegValue::Text(_) => Ok(None),
        RegValue::Expand(_) => Ok(None),
        RegValue::Int(number) => number_entry(alloc, key, number.saturating_sub(1)),
        RegValue::Binary(_) => Ok(None),
        RegValue::List(_) => Ok(None),
    }
}

// An entry that counts one less; None for what is no integer.
fn lowered(alloc: Global, entry: &Entry) -> Result<Option<Entry>, NoMemory>
    ensures left { IfOk result (λ o. option_or o (Some entry.now) ≡ lowered (Some entry.now)) }
    ensures right { IfOk result (λ o. IfSome o (MayStandAt (name_of entry.now))) }
{
    match entry {
        Entry::File(_) => Ok(None),
        Entry::Folder(_) => Ok(None),
        Entry::Value(key, value) => lowered_value(alloc, key, value),
        Entry::Key(_, _) => Ok(None),
        Entry::Shortcut(_) => Ok(None),
        Entry::Variable(_) => Ok(None),
        Entry::Client(_) => Ok(None),
        Entry::Product(_) => Ok(None),
        Entry::System(_, _) => Ok(None),
    }
}

// What stands at a name, counting one less; None where no integer stands there.
fn lowered_at(alloc: Global, image: &Image, name: &Name) -> Result<Option<Entry>, NoMemory>
    ensures left { (held files : Map (List ℕ)) → IfOk result (λ o. option_or o (get (machine_over held files image.now) name.now) ≡ lowered (get (machine_over held files image.now) name.now)) }
    ensures right { IfOk result (λ o. IfSome o (MayStandAt name.now)) }
{
    match image.get(name.as_str()) {
        Some(item) => match item {
            Item::Whole(entry) => lowered(alloc, entry),
            Item::Head(_, _) => Ok(None),
        },
        None => Ok(None),
    }
}

// Counts one less at a name.
fn lower_at(alloc: Global, plan: &mut Plan, name: &Name) -> Result<(), NoMemory>
    requires { is_file_name name.now ≡ false }
    ensures makes { (held files : Map (List ℕ)) → OnOk result (Makes held files plan.old plan.new (Set name.now lowered ∷ [])) }
    ensures keeps { Keeps plan.old plan.new }
{
    match lowered_at(alloc, plan.overlay.image(), name) {
        Ok(Some(entry)) => put_where_right(alloc, plan, entry),
        Ok(None) => Ok(()),
        Err(_) => Err(NoMemory),
    }
}

/// Counts one less under the path of a shared file, down to 0; what is no integer stays, and where nothing stands nothing comes. A
/// path of more than 500 bytes is want of memory (Component table, Attributes; the rules of the counts are this project's own).
pub fn lower(alloc: Global, plan: &mut Plan, path: &str) -> Result<(), NoMemory>
    ensures makes { (held files : Map (List ℕ)) → OnOk result (Makes held files plan.old plan.new (Set (count_name path.now) lowered ∷ [])) }
    ensures keeps { Keeps plan.old plan.new }
{
    match count_name(alloc, path) {
        Ok(name) => lower_at(alloc, plan, &name),
        Err(_) => Err(NoMemory),
    }
}

// ---- none

// Takes away what stands at a name, unless the name is guarded.
fn take_at(
    alloc: Global,
    plan: &mut Plan,
    guards: &BTreeSet<Name>,
    name: &Name,
) -> Result<(), NoMemory>
    ensures makes { (guarded : List ℕ → Bool) (held files : Map (List ℕ)) → Guards guards.now guarded → OnOk result (Makes held files plan.old plan.new (if guarded name.now then [] else Set name.now (λ old. None) ∷ [])) }
    ensures keeps { Keeps plan.old plan.new }
{
    let guarded = guards.contains(name);
    if guarded {
        Ok(())
    } else {
        plan.drop_name(alloc, name)
    }
}

/// Takes the count under the path of a shared file away, if there is one, unless its name is among those that are guarded. A path of
/// more than 500 bytes is want of memory (Component table, Attributes; the rules of the counts are this project's own).
pub fn take(
    alloc: Global,
    plan: &mut Plan,
    guards: &BTreeSet<Name>,
    path: &str,
) -> Result<(), NoMemory>
    ensures makes { (guarded : List ℕ → Bool) (held files : Map (List ℕ)) → Guards guards.now guarded → OnOk result (Makes held files plan.old plan.new (if guarded (count_name path.now) then [] else Set (count_name path.now) (λ old. None) ∷ [])) }
    ensures keeps { Keeps plan.old plan.new }
{
    match count_name(alloc, path) {
        Ok(name) => take_at(alloc, plan, guards, &name),
        Err(_) => Err(NoMemory),
    }
}
