//! A key that is taken away, with what is below it but guarded values and what they keep.

ghost use Rattle.std.specs.Prelude.{◌≡◌, ◌++◌, List, ℕ, Bool, not, if◌then◌else◌, Some, None, IfOk, OnOk, filter};
ghost use Rattle.std.specs.List.{filter_map};
ghost use Rattle.std.specs.FinMap.{keys};
ghost use Rattle.mi_text.specs.Maps.{Map};
ghost use Rattle.mi_image.specs.Items.{machine_over};
ghost use Rattle.mi_model.specs.Prune.{key_seat};
ghost use Rattle.mi_model.specs.RegistryGuards.{goes_with_key, place_of_key, takes_key};
ghost use Rattle.mi_steps.specs.Makes.{Makes, plan_machine};
ghost use Rattle.mi_records.specs.Keeps.{Keeps};
ghost use Rattle.mi_records.specs.Removing.{AreClear, Guards, guarded_place, is_loose};

use crate::below::{keys_at, values_at};
use crate::named::place_of_key;
use crate::place::RegistryPlace;
use mi_base::{Bytes, Name, NoMemory};
use mi_image::Image;
use mi_steps::{Place, Places, Plan, Tree, place_in};
use std::alloc::Global;
use std::collections::BTreeSet;

// The place of a guarded value.
fn guarded_place(
    alloc: Global,
    guards: &BTreeSet<Name>,
    name: &Name,
) -> Result<Option<Bytes>, NoMemory>
    ensures { (guarded : List ℕ → Bool) → Guards guards.now guarded → IfOk result (λ place. place ≡ guarded_place guarded name.now) }
{
    if !guards.contains(name) {
        return Ok(None);
    }
    match place_in(alloc, Tree::Keys, name.as_bytes())? {
        Place::Leaf(place) => Ok(Some(place)),
        Place::Holder(_place) => Ok(None),
        Place::Apart => Ok(None),
    }
}

// The places of guarded values.
fn guarded_places(
    alloc: Global,
    guards: &BTreeSet<Name>,
    names: &[Name],
) -> Result<Vec<Bytes>, NoMemory>
    ensures { (guarded : List ℕ → Bool) → Guards guards.now guarded → IfOk result (λ places. places.items ≡ filter_map (guarded_place guarded) names.now) }
{
    let mut places = Vec::new(alloc);
    for name in names {
        if let Some(place) = guarded_place(alloc, guards, name)? {
            places.push(place)?;
        }
    }
    Ok(places)
}

// Whether no guarded value keeps a key.
fn is_loose(alloc: Global, kept: &Places, name: &Name) -> Result<bool, NoMemory>
    ensures { IfOk result (λ loose. loose ≡ is_loose kept.now (key_seat name.now)) }
{
    match place_in(alloc, Tree::Keys, name.as_bytes())? {
        Place::Holder(place) => Ok(!kept.are_on_way(place.as_slice())),
        Place::Leaf(_) => Ok(false),
        Place::Apart => Ok(false),
    }
}

// The names of the keys that no guarded value keeps.
fn loose_keys(alloc: Global, kept: &Places, names: &[Name]) -> Result<Vec<Name>, NoMemory>
    ensures { IfOk result (λ loose. loose.items ≡ filter (λ q. is_loose kept.now (key_seat q)) names.now) }
{
    let mut loose = Vec::new(alloc);
    for name in names {
        if is_loose(alloc, kept, name)? {
            loose.push(name.copy(alloc)?)?;
        }
    }
    Ok(loose)
}

// The names of the values that aren't guarded.
fn loose_values(
    alloc: Global,
    guards: &BTreeSet<Name>,
    names: &[Name],
) -> Result<Vec<Name>, NoMemory>
    ensures { (guarded : List ℕ → Bool) → Guards guards.now guarded → IfOk result (λ loose. loose.items ≡ filter (λ q. not (guarded q)) names.now) }
{
    let mut loose = Vec::new(alloc);
    for name in names {
        if !guards.contains(name) {
            loose.push(name.copy(alloc)?)?;
        }
    }
    Ok(loose)
}

// The names that go with a key.
#[derive(Drop)]
struct Taken {
    keys: Vec<Name>,
    values: Vec<Name>,
}

// The names that go with a key, in byte order: the keys come before the values.
fn gone(
    alloc: Global,
    image: &Image,
    guards: &BTreeSet<Name>,
    place: &RegistryPlace,
) -> Result<Taken, NoMemory>
    ensures { (guarded : List ℕ → Bool) (held files : Map (List ℕ)) → Guards guards.now guarded → IfOk result (λ gone. gone.keys.items ++ gone.values.items ≡ filter (goes_with_key guarded (keys (machine_over held files image.now)) (place_of_key place.now)) (keys (machine_over held files image.now))) }
{
    let root = place.root();
    let key = place.key();
    let values = values_at(alloc, image, root, key)?;
    let keys = keys_at(alloc, image, root, key)?;
    let kept = Places::of(guarded_places(alloc, guards, values.as_slice())?);
    let keys = loose_keys(alloc, &kept, keys.as_slice())?;
    let values = loose_values(alloc, guards, values.as_slice())?;
    Ok(Taken { keys, values })
}

// Takes away a key with what goes with it.
fn clear_key(
    alloc: Global,
    plan: &mut Plan,
    guards: &BTreeSet<Name>,
    place: &RegistryPlace,
) -> Result<(), NoMemory>
    ensures makes { (guarded : List ℕ → Bool) (held files : Map (List ℕ)) → Guards guards.now guarded → OnOk result (Makes held files plan.old plan.new (takes_key guarded place.now (keys (plan_machine held files plan.old)))) }
    ensures keeps { Keeps plan.old plan.new }
{
    let gone = gone(alloc, plan.overlay.image(), guards, place)?;
    plan.drop_names(alloc, gone.keys.as_slice())?;
    plan.drop_names(alloc, gone.values.as_slice())?;
    Ok(())
}

/// Takes away a key with all that is below it: the values that aren't guarded, and the keys without a guarded value in them or
/// below them (Registry table and RemoveRegistry table, column Name; guards are this project's own). The keys that were cleared
/// before are passed over, and this one is noted: between these calls no guarded value goes, and nothing comes.
pub fn clear_once(
    alloc: Global,
    plan: &mut Plan,
    guards: &BTreeSet<Name>,
    cleared: &mut BTreeSet<Bytes>,
    place: &RegistryPlace,
) -> Result<(), NoMemory>
    ensures makes { (guarded : List ℕ → Bool) (held files : Map (List ℕ)) → Guards guards.now guarded → AreClear guarded (plan_machine held files plan.old) cleared.old → OnOk result (Makes held files plan.old plan.new (takes_key guarded place.now (keys (plan_machine held files plan.old)))) }
    ensures clear { (guarded : List ℕ → Bool) (held files : Map (List ℕ)) → Guards guards.now guarded → AreClear guarded (plan_machine held files plan.old) cleared.old → OnOk result (AreClear guarded (plan_machine held files plan.new) cleared.new) }
    ensures keeps { Keeps plan.old plan.new }
{
    let key = place_of_key(alloc, place)?;
    if cleared.contains(&key) {
        return Ok(());
    }
    clear_key(alloc, plan, guards, place)?;
    cleared.insert(key)?;
    Ok(())
}
