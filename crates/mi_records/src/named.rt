//! The keys that rows name, as places in the tree of keys.

ghost use Rattle.std.specs.Prelude.{◌≡◌, ◌++◌, ℕ, Some, IfOk, OnOk, All, option_map, option_and_then, map, pos, negsuc};
ghost use Rattle.std.specs.Result.{result_ok};
ghost use Rattle.mi_model.specs.World.{World};
ghost use Rattle.mi_model.specs.RegistryGuards.{place_of_key, key_kept_by, kept_key, kept_keys};
ghost use Rattle.mi_model.specs.RegistryRows.{registry_place, removal_place, registry_meaning};
ghost use Rattle.mi_model.specs.RemoveRegistryValues.{keys_named};
ghost use Rattle.mi_schema.specs.Lawful.{IsLawful};
ghost use Rattle.mi_schema.specs.Laws.{IsWithin};
ghost use Rattle.mi_records.specs.Choices.{IsAsked};
ghost use Rattle.mi_records.specs.Meaning.{numbered, whole};
ghost use Rattle.mi_records.specs.Order.{as_numbered};

use crate::meaning::{RegistryMeaning, meaning_of, place_of, removed_place};
use crate::order::Row;
use crate::place::RegistryPlace;
use crate::says::Says;
use crate::sees::Sees;
use crate::stop::Stop;
use mi_base::{Bytes, NoMemory, fold};
use mi_format::BoundedEnv;
use mi_schema::{RegistryRow, RemoveRegistryRow, values_stand};
use mi_steps::key_place;
use std::alloc::Global;

/// The key of a place.
pub fn place_of_key(alloc: Global, place: &RegistryPlace) -> Result<Bytes, NoMemory>
    ensures { IfOk result (λ bytes. bytes ≡ place_of_key place.now) }
{
    let root = place.root();
    let key = fold(alloc, place.key())?;
    let bytes = key_place(alloc, b'0' + root, key.as_bytes())?;
    Ok(bytes)
}

// The key of a place, which is dropped.
fn some_key(alloc: Global, place: RegistryPlace) -> Result<Option<Bytes>, NoMemory>
    ensures { IfOk result (λ key. key ≡ Some (place_of_key place)) }
{
    let key = place_of_key(alloc, &place)?;
    Ok(Some(key))
}

// ---- the keys that a phase touches

// The key that a row of Registry names.
fn registry_key<E: BoundedEnv>(
    alloc: Global,
    env: &E,
    row: &RegistryRow,
) -> Result<Option<Bytes>, NoMemory>
    requires { IsWithin (negsuc 0) (pos 3) row.now.root }
    ensures { (number : ℕ) → IfOk result (λ key. key ≡ option_map place_of_key (result_ok (registry_place (E.lookups env.now) (numbered number row.now)))) }
{
    match place_of(alloc, env, row) {
        Ok(place) => some_key(alloc, place),
        Err(Stop::NoMemory) => Err(NoMemory),
        Err(Stop::Refused(_)) => Ok(None),
    }
}

// The key that a row of RemoveRegistry names.
fn removal_key<E: BoundedEnv>(
    alloc: Global,
    env: &E,
    row: &RemoveRegistryRow,
) -> Result<Option<Bytes>, NoMemory>
    requires { IsWithin (negsuc 0) (pos 3) row.now.root }
    ensures { (number : ℕ) → IfOk result (λ key. key ≡ option_map place_of_key (result_ok (removal_place (E.lookups env.now) (numbered number row.now)))) }
{
    match removed_place(alloc, env, row) {
        Ok(place) => some_key(alloc, place),
        Err(Stop::NoMemory) => Err(NoMemory),
        Err(Stop::Refused(_)) => Ok(None),
    }
}

/// The keys that rows of Registry name; one whose text is refused names none.
pub fn registry_keys<E: BoundedEnv>(
    alloc: Global,
    env: &E,
    rows: &[Row<'_, RegistryRow>],
) -> Result<Vec<Bytes>, NoMemory>
    requires { All (λ r. IsWithin (negsuc 0) (pos 3) r.1.now.root) rows.now }
    ensures { IfOk result (λ keys. keys.items ≡ keys_named (registry_place (E.lookups env.now)) (map as_numbered rows.now)) }
{
    let mut keys = Vec::new(alloc);
    for row in rows {
        if let Some(key) = registry_key(alloc, env, row.1)? {
            keys.push(key)?;
        }
    }
    Ok(keys)
}

/// Adds the keys that rows of RemoveRegistry name.
pub fn add_removal_keys<E: BoundedEnv>(
    alloc: Global,
    env: &E,
    rows: &[Row<'_, RemoveRegistryRow>],
    keys: &mut Vec<Bytes>,
) -> Result<(), NoMemory>
    requires { All (λ r. IsWithin (negsuc 0) (pos 3) r.1.now.root) rows.now }
    ensures { OnOk result (keys.new.items ≡ keys.old.items ++ keys_named (removal_place (E.lookups env.now)) (map as_numbered rows.now)) }
{
    for row in rows {
        if let Some(key) = removal_key(alloc, env, row.1)? {
            keys.push(key)?;
        }
    }
    Ok(())
}

// ---- the keys that are kept

// The key that a row says is made.
fn key_kept_by(alloc: Global, meaning: &RegistryMeaning) -> Result<Option<Bytes>, NoMemory>
    ensures { IfOk result (λ key. key ≡ key_kept_by (whole meaning.now)) }
{
    match &meaning.says {
        Says::Makes => Ok(Some(place_of_key(alloc, &meaning.place)?)),
        Says::MakesAndRemoves => Ok(Some(place_of_key(alloc, &meaning.place)?)),
        Says::KeyAlone => Ok(None),
        Says::Removes => Ok(None),
        Says::Writes(_) => Ok(None),
    }
}

// The key of a row `+` or `*`.
fn key_made<E: BoundedEnv>(
    alloc: Global,
    env: &E,
    row: &RegistryRow,
) -> Result<Option<Bytes>, NoMemory>
    requires { IsWithin (negsuc 0) (pos 3) row.now.root }
    ensures { (number : ℕ) → IfOk result (λ key. key ≡ option_and_then key_kept_by (result_ok (registry_meaning (E.lookups env.now) (numbered number row.now)))) }
{
    match meaning_of(alloc, env, row) {
        Ok(meaning) => {
            let key = key_kept_by(alloc, &meaning);
            drop(meaning);
            key
        }
        Err(Stop::NoMemory) => Err(NoMemory),
        Err(Stop::Refused(_)) => Ok(None),
    }
}

// The key that a row keeps, by its component.
fn key_if_kept<S: Sees>(
    alloc: Global,
    seen: &S,
    row: &RegistryRow,
) -> Result<Option<Bytes>, NoMemory>
    requires { IsWithin (negsuc 0) (pos 3) row.now.root }
    ensures { (w : World) (number : ℕ) → IsAsked (S.lookups seen.now) (S.choices seen.now) (S.rows seen.now) w → IfOk result (λ key. key ≡ kept_key w (numbered number row.now)) }
{
    if seen.keeps(row.component.as_str()) {
        key_made(alloc, seen, row)
    } else {
        Ok(None)
    }
}

// The key that a row keeps; one with a Value keeps none.
fn kept_key<S: Sees>(alloc: Global, seen: &S, row: &RegistryRow) -> Result<Option<Bytes>, NoMemory>
    requires { IsWithin (negsuc 0) (pos 3) row.now.root }
    ensures { (w : World) (number : ℕ) → IsAsked (S.lookups seen.now) (S.choices seen.now) (S.rows seen.now) w → IfOk result (λ key. key ≡ kept_key w (numbered number row.now)) }
{
    match &row.value {
        Some(_) => Ok(None),
        None => key_if_kept(alloc, seen, row),
    }
}

/// The keys of the rows `+` and `*` of kept components, in file order (this project's own).
pub fn kept_keys<S: Sees>(alloc: Global, seen: &S) -> Result<Vec<Bytes>, NoMemory>
    requires { IsLawful (S.rows seen.now) }
    ensures { (w : World) → IsAsked (S.lookups seen.now) (S.choices seen.now) (S.rows seen.now) w → IfOk result (λ keys. keys.items ≡ kept_keys w) }
{
    let loaded = seen.package();
    values_stand(loaded);
    let mut keys = Vec::new(alloc);
    for row in loaded.registry.values() {
        if let Some(key) = kept_key(alloc, seen, row)? {
            keys.push(key)?;
        }
    }
    Ok(keys)
}
