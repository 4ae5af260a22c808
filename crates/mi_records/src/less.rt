//! What a leaving row takes of the value that it wrote.

ghost use Rattle.std.specs.Prelude.{◌≡◌, ◌∷◌, [], List, ℕ, Some, IfOk, OnOk, true, false};
ghost use Rattle.std.specs.FinMap.{get};
ghost use Rattle.mi_text.specs.Maps.{Map};
ghost use Rattle.mi_base.specs.declared.entry.Entry.TheVariants as entry;
ghost use Rattle.mi_base.specs.declared.entry.RegValue.TheVariants as value;
ghost use Rattle.mi_base.specs.Limits.{fits};
ghost use Rattle.mi_changes.specs.Touches.{Set};
ghost use Rattle.mi_image.specs.Items.{machine_over};
ghost use Rattle.mi_model.specs.RemoveRegistryValues.{less_items, less_added, value_less};
ghost use Rattle.mi_regval.specs.ListTexts.{added_of};
ghost use Rattle.mi_script.specs.Spelled.{is_file_name};
ghost use Rattle.mi_steps.specs.Makes.{Makes};
ghost use Rattle.mi_records.specs.Keeps.{Keeps};
ghost use Rattle.mi_records.specs.Removing.{left_of, MayBeLeft, MayBeLeftAt};

use crate::items::without_items;
use crate::keys::put_entry;
use mi_base::{Entry, Name, NoMemory, RegValue, Text, Texts, ValueKey};
use mi_image::{Image, Item};
use mi_regval::{ListText, list_text};
use mi_steps::Plan;
use std::alloc::Global;

/// What becomes of an entry whose items are taken out.
#[derive(Drop)]
pub enum Rest {
    /// It is no list, and stays.
    Same,
    /// No item is left.
    Gone,
    /// The list of these items is left.
    Left(ValueKey, Texts),
}

/// A copy of the key of a value's entry.
pub fn copy_key(alloc: Global, key: &ValueKey) -> Result<ValueKey, NoMemory>
    ensures { IfOk result (λ k. k ≡ key.now) }
{
    Ok(ValueKey {
        root: key.root,
        key: Text::copy_of(alloc, key.key.as_str())?,
        shown: Text::copy_of(alloc, key.shown.as_str())?,
    })
}

// A list without these items.
fn less_list(alloc: Global, key: &ValueKey, list: &Texts, items: &[Text]) -> Result<Rest, NoMemory>
    ensures left { IfOk result (λ rest. left_of rest (Some (entry.Value key.now (value.List list.now))) ≡ less_items items.now (Some (entry.Value key.now (value.List list.now)))) }
    ensures right { fits (entry.Value key.now (value.List list.now)) ≡ true → IfOk result (MayBeLeft (entry.Value key.now (value.List list.now))) }
{
    let left = without_items(alloc, items, list.as_slice())?;
    if left.is_empty() {
        return Ok(Rest::Gone);
    }
    Ok(Rest::Left(copy_key(alloc, key)?, left))
}

// A value without these items.
fn less_value(
    alloc: Global,
    key: &ValueKey,
    value: &RegValue,
    items: &[Text],
) -> Result<Rest, NoMemory>
    ensures left { IfOk result (λ rest. left_of rest (Some (entry.Value key.now value.now)) ≡ less_items items.now (Some (entry.Value key.now value.now))) }
    ensures right { fits (entry.Value key.now value.now) ≡ true → IfOk result (MayBeLeft (entry.Value key.now value.now)) }
{
    match value {
        RegValue::Text(_) => Ok(Rest::Same),
        RegValue::Expand(_) => Ok(Rest::Same),
        RegValue::Int(_) => Ok(Rest::Same),
        RegValue::Binary(_) => Ok(Rest::Same),
        RegValue::List(list) => less_list(alloc, key, list, items),
    }
}

// An entry without these items.
fn less(alloc: Global, entry: &Entry, items: &[Text]) -> Result<Rest, NoMemory>
    ensures left { IfOk result (λ rest. left_of rest (Some entry.now) ≡ less_items items.now (Some entry.now)) }
    ensures right { fits entry.now ≡ true → IfOk result (MayBeLeft entry.now) }
{
    match entry {
        Entry::File(_) => Ok(Rest::Same),
        Entry::Folder(_) => Ok(Rest::Same),
        Entry::Value(key, value) => less_value(alloc, key, value, items),
        Entry::Key(_, _) => Ok(Rest::Same),
        Entry::Shortcut(_) => Ok(Rest::Same),
        Entry::Variable(_) => Ok(Rest::Same),
        Entry::Client(_) => Ok(Rest::Same),
        Entry::Product(_) => Ok(Rest::Same),
        Entry::System(_, _) => Ok(Rest::Same),
    }
}

// What stands at a name, without these items.
fn less_at(alloc: Global, image: &Image, name: &Name, items: &[Text]) -> Result<Rest, NoMemory>
    ensures left { (held files : Map (List ℕ)) → IfOk result (λ rest. left_of rest (get (machine_over held files image.now) name.now) ≡ less_items items.now (get (machine_over held files image.now) name.now)) }
    ensures right { IfOk result (MayBeLeftAt name.now) }
{
    match image.get(name.as_str()) {
        Some(item) => match item {
            Item::Whole(entry) => less(alloc, entry, items),
            Item::Head(_, _) => Ok(Rest::Same),
        },
        None => Ok(Rest::Same),
    }
}

// Takes items out of the list at a name.
fn take_items(alloc: Global, plan: &mut Plan, name: &Name, items: &[Text]) -> Result<(), NoMemory>
    requires { is_file_name name.now ≡ false }
    ensures makes { (held files : Map (List ℕ)) → OnOk result (Makes held files plan.old plan.new (Set name.now (less_items items.now) ∷ [])) }
    ensures keeps { Keeps plan.old plan.new }
{
    match less_at(alloc, plan.overlay.image(), name, items) {
        Ok(Rest::Same) => Ok(()),
        Ok(Rest::Gone) => plan.drop_name(alloc, name),
        Ok(Rest::Left(key, left)) => {
            put_entry(alloc, plan, Entry::Value(key, RegValue::List(left)))
        }
        Err(_) => Err(NoMemory),
    }
}

// Takes the items out that a text adds to a list, or the value away where it adds none.
fn take_added(alloc: Global, plan: &mut Plan, name: &Name, list: &ListText) -> Result<(), NoMemory>
    requires { is_file_name name.now ≡ false }
    ensures makes { (held files : Map (List ℕ)) → OnOk result (Makes held files plan.old plan.new (Set name.now (less_added (added_of list.now)) ∷ [])) }
    ensures keeps { Keeps plan.old plan.new }
{
    match list.added() {
        Some(items) => take_items(alloc, plan, name, items.as_slice()),
        None => plan.drop_name(alloc, name),
    }
}

/// Takes away what a text wrote at the name of a value: the items that it adds to a list, or else the whole value
/// (Registry table, column Value; that a leaving row takes its own items out is this project's own).
pub fn take_value(alloc: Global, plan: &mut Plan, name: &Name, text: &str) -> Result<(), NoMemory>
    requires { is_file_name name.now ≡ false }
    ensures makes { (held files : Map (List ℕ)) → OnOk result (Makes held files plan.old plan.new (Set name.now (value_less text.now) ∷ [])) }
    ensures keeps { Keeps plan.old plan.new }
{
    match list_text(alloc, text) {
        Ok(Some(list)) => {
            let done = take_added(alloc, plan, name, &list);
            drop(list);
            done
        }
        Ok(None) => plan.drop_name(alloc, name),
        Err(_) => Err(NoMemory),
    }
}
