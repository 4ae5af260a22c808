//! WriteRegistryValues: what its rows write.

ghost use Rattle.std.specs.Prelude.{◌≡◌, ◌∷◌, ◌++◌, [], List, ℕ, All, Ok, OnOk, pos, negsuc, codes, map, true, false};
ghost use Rattle.mi_text.specs.Maps.{Map};
ghost use Rattle.mi_base.specs.Limits.{fits};
ghost use Rattle.mi_base.specs.Spelling.{name_of};
ghost use Rattle.mi_model.specs.World.{World};
ghost use Rattle.mi_model.specs.Asked.{lookups};
ghost use Rattle.mi_model.specs.Parents.{key_with_parents};
ghost use Rattle.mi_model.specs.Refusals.{unless};
ghost use Rattle.mi_model.specs.RegistryRows as model;
ghost use Rattle.mi_model.specs.RegistryRows.{name_of_value};
ghost use Rattle.mi_model.specs.WriteRegistryValues.{place_touches, written_fault, value_fault, meaning_touches, write_row};
ghost use Rattle.mi_schema.specs.Laws.{IsWithin};
ghost use Rattle.mi_steps.specs.Follows.{put_touch};
ghost use Rattle.mi_steps.specs.Makes.{Makes, is_file};
ghost use Rattle.mi_records.specs.Keeps.{Keeps};
ghost use Rattle.mi_records.specs.Meaning.{numbered, whole};
ghost use Rattle.mi_records.specs.Order.{as_numbered};
ghost use Rattle.mi_records.specs.Rows as made;
ghost use Rattle.mi_records.specs.Stops.{stop_of};

use crate::error::PlanError;
use crate::keys::{make_keys, put_entry};
use crate::meaning::{RegistryMeaning, meaning_of};
use crate::order::Row;
use crate::place::RegistryPlace;
use crate::says::Says;
use crate::stop::Stop;
use crate::value::value_at;
use mi_base::{Entry, NoMemory};
use mi_format::BoundedEnv;
use mi_schema::RegistryRow;
use mi_steps::Plan;
use std::alloc::Global;

// The same, as a row is answered.
fn or_stop(done: Result<(), NoMemory>) -> Result<(), Stop>
    ensures { result ≡ stop_of done }
{
    match done {
        Ok(()) => Ok(()),
        Err(_) => Err(Stop::NoMemory),
    }
}

// Makes the key of a place, and puts the entry of its value.
fn put_value(
    alloc: Global,
    plan: &mut Plan,
    place: &RegistryPlace,
    entry: Entry,
) -> Result<(), NoMemory>
    requires right { fits entry ≡ true }
    requires plain { is_file entry ≡ false }
    requires named { name_of entry ≡ name_of_value place.now }
    ensures makes { (held files : Map (List ℕ)) → OnOk result (Makes held files plan.old plan.new (key_with_parents place.now.root place.now.key ++ put_touch (name_of_value place.now) entry ∷ [])) }
    ensures keeps { Keeps plan.old plan.new }
{
    match make_keys(alloc, plan, place.root(), place.key()) {
        Ok(()) => put_entry(alloc, plan, entry),
        Err(_) => {
            drop(entry);
            Err(NoMemory)
        }
    }
}

// Writes what a text makes of the value at a place. The text is judged before its key is made.
fn write_value(
    alloc: Global,
    plan: &mut Plan,
    place: &RegistryPlace,
    text: &str,
) -> Result<(), Stop>
    ensures row { (held files : Map (List ℕ)) (row : ℕ) → made.RowIn held files plan.old plan.new (codes "Registry") row (λ m. unless (written_fault m row place.now (model.Writes text.now)) (Ok (place_touches place.now (model.Writes text.now)))) result }
    ensures keeps { Keeps plan.old plan.new }
{
    match value_at(alloc, plan.overlay.image(), place, text) {
        Ok(entry) => or_stop(put_value(alloc, plan, place, entry)),
        Err(stop) => Err(stop),
    }
}

// Makes the key of a place.
fn write_key(alloc: Global, plan: &mut Plan, place: &RegistryPlace) -> Result<(), Stop>
    ensures makes { (held files : Map (List ℕ)) → made.Only held files plan.old plan.new (key_with_parents place.now.root place.now.key) result }
    ensures keeps { Keeps plan.old plan.new }
{
    or_stop(make_keys(alloc, plan, place.root(), place.key()))
}

// Carries out what a row says.
fn write_meaning(alloc: Global, plan: &mut Plan, meaning: &RegistryMeaning) -> Result<(), Stop>
    ensures row { (held files : Map (List ℕ)) (row : ℕ) → made.RowIn held files plan.old plan.new (codes "Registry") row (λ m. unless (value_fault m row (whole meaning.now)) (Ok (meaning_touches (whole meaning.now)))) result }
    ensures keeps { Keeps plan.old plan.new }
{
    match &meaning.says {
        Says::KeyAlone => write_key(alloc, plan, &meaning.place),
        Says::Makes => write_key(alloc, plan, &meaning.place),
        Says::MakesAndRemoves => write_key(alloc, plan, &meaning.place),
        Says::Removes => Ok(()),
        Says::Writes(text) => write_value(alloc, plan, &meaning.place, text.as_str()),
    }
}

// Carries out a row.
fn write_row<E: BoundedEnv>(
    alloc: Global,
    env: &E,
    row: &RegistryRow,
    plan: &mut Plan,
) -> Result<(), Stop>
    requires { IsWithin (negsuc 0) (pos 3) row.now.root }
    ensures row { (held files : Map (List ℕ)) (w : World) (number : ℕ) → lookups w ≡ E.lookups env.now → made.RowIn held files plan.old plan.new (codes "Registry") number (write_row w (numbered number row.now)) result }
    ensures keeps { Keeps plan.old plan.new }
{
    match meaning_of(alloc, env, row) {
        Ok(meaning) => {
            let done = write_meaning(alloc, plan, &meaning);
            drop(meaning);
            done
        }
        Err(stop) => Err(stop),
    }
}

// Carries out the row with this number.
fn write_numbered<E: BoundedEnv>(
    alloc: Global,
    env: &E,
    row: Row<'_, RegistryRow>,
    plan: &mut Plan,
) -> Result<(), PlanError>
    requires { IsWithin (negsuc 0) (pos 3) row.1.now.root }
    ensures row { (held files : Map (List ℕ)) (w : World) → lookups w ≡ E.lookups env.now → made.Row held files plan.old plan.new (write_row w (as_numbered row.entry)) result }
    ensures keeps { Keeps plan.old plan.new }
{
    let (number, row) = row;
    match write_row(alloc, env, row, plan) {
        Ok(()) => Ok(()),
        Err(stop) => Err(stop.error(alloc, "Registry", number)),
    }
}

/// Carries out rows, one after the other.
pub fn write_rows<E: BoundedEnv>(
    alloc: Global,
    env: &E,
    rows: &[Row<'_, RegistryRow>],
    plan: &mut Plan,
) -> Result<(), PlanError>
    requires { All (λ r. IsWithin (negsuc 0) (pos 3) r.1.now.root) rows.now }
    ensures rows { (held files : Map (List ℕ)) (w : World) → lookups w ≡ E.lookups env.now → made.Rows held files plan.old plan.new (map (λ r. write_row w (as_numbered r)) rows.now) result }
    ensures keeps { Keeps plan.old plan.new }
{
    for row in rows {
        match write_numbered(alloc, env, *row, plan) {
            Ok(()) => {}
            Err(error) => return Err(error),
        }
    }
    Ok(())
}
