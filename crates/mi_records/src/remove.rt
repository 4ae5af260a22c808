//! RemoveRegistryValues: what rows of Registry of leaving components take.

ghost use Rattle.std.specs.Prelude.{◌≡◌, ◌∷◌, [], List, ℕ, Bool, All, OnOk, pos, negsuc, codes, map, false, if◌then◌else◌};
ghost use Rattle.std.specs.FinMap.{keys};
ghost use Rattle.mi_text.specs.Maps.{Map};
ghost use Rattle.mi_changes.specs.Touches.{Set};
ghost use Rattle.mi_model.specs.World.{World};
ghost use Rattle.mi_model.specs.Asked.{lookups};
ghost use Rattle.mi_model.specs.CountRows.{is_guarded};
ghost use Rattle.mi_model.specs.RegistryRows as model;
ghost use Rattle.mi_model.specs.RemoveRegistryValues.{taken_at, removed_touches, remove_row};
ghost use Rattle.mi_schema.specs.Laws.{IsWithin};
ghost use Rattle.mi_steps.specs.Makes.{Makes, plan_machine};
ghost use Rattle.mi_records.specs.Keeps.{Keeps};
ghost use Rattle.mi_records.specs.Meaning.{numbered, whole};
ghost use Rattle.mi_records.specs.Order.{as_numbered};
ghost use Rattle.mi_records.specs.Removing.{AreClear, Guards};
ghost use Rattle.mi_records.specs.Rows as made;

use crate::clear::clear_once;
use crate::error::PlanError;
use crate::less::take_value;
use crate::meaning::{RegistryMeaning, meaning_of};
use crate::names::name_at;
use crate::order::Row;
use crate::place::RegistryPlace;
use crate::says::Says;
use crate::stop::Stop;
use mi_base::{Bytes, Name, NoMemory};
use mi_format::BoundedEnv;
use mi_schema::RegistryRow;
use mi_steps::Plan;
use std::alloc::Global;
use std::collections::BTreeSet;

// Takes away what a text wrote at a name, unless it is guarded.
fn take_unguarded(
    alloc: Global,
    plan: &mut Plan,
    guards: &BTreeSet<Name>,
    place: &RegistryPlace,
    text: &str,
) -> Result<(), NoMemory>
    ensures makes { (guarded : List ℕ → Bool) (held files : Map (List ℕ)) → Guards guards.now guarded → OnOk result (Makes held files plan.old plan.new (taken_at guarded place.now (keys (plan_machine held files plan.old)) (model.Writes text.now))) }
    ensures keeps { Keeps plan.old plan.new }
{
    let name = name_at(alloc, place)?;
    if guards.contains(&name) {
        return Ok(());
    }
    take_value(alloc, plan, &name, text)?;
    Ok(())
}

// Takes away what a row says. The keys that were cleared are noted.
fn remove_meaning(
    alloc: Global,
    plan: &mut Plan,
    guards: &BTreeSet<Name>,
    cleared: &mut BTreeSet<Bytes>,
    meaning: &RegistryMeaning,
) -> Result<(), NoMemory>
    ensures makes { (guarded : List ℕ → Bool) (held files : Map (List ℕ)) → Guards guards.now guarded → AreClear guarded (plan_machine held files plan.old) cleared.old → OnOk result (Makes held files plan.old plan.new (removed_touches guarded (whole meaning.now) (keys (plan_machine held files plan.old)))) }
    ensures clear { (guarded : List ℕ → Bool) (held files : Map (List ℕ)) → Guards guards.now guarded → AreClear guarded (plan_machine held files plan.old) cleared.old → OnOk result (AreClear guarded (plan_machine held files plan.new) cleared.new) }
    ensures keeps { Keeps plan.old plan.new }
{
    match &meaning.says {
        Says::KeyAlone => Ok(()),
        Says::Makes => Ok(()),
        Says::Removes => clear_once(alloc, plan, guards, cleared, &meaning.place),
        Says::MakesAndRemoves => clear_once(alloc, plan, guards, cleared, &meaning.place),
        Says::Writes(text) => take_unguarded(alloc, plan, guards, &meaning.place, text.as_str()),
    }
}

// The same, as a row is answered.
fn remove_whole(
    alloc: Global,
    plan: &mut Plan,
    guards: &BTreeSet<Name>,
    cleared: &mut BTreeSet<Bytes>,
    meaning: &RegistryMeaning,
) -> Result<(), Stop>
    ensures makes { (guarded : List ℕ → Bool) (held files : Map (List ℕ)) → Guards guards.now guarded → AreClear guarded (plan_machine held files plan.old) cleared.old → made.Only held files plan.old plan.new (removed_touches guarded (whole meaning.now) (keys (plan_machine held files plan.old))) result }
    ensures clear { (guarded : List ℕ → Bool) (held files : Map (List ℕ)) → Guards guards.now guarded → AreClear guarded (plan_machine held files plan.old) cleared.old → OnOk result (AreClear guarded (plan_machine held files plan.new) cleared.new) }
    ensures keeps { Keeps plan.old plan.new }
{
    match remove_meaning(alloc, plan, guards, cleared, meaning) {
        Ok(()) => Ok(()),
        Err(_) => Err(Stop::NoMemory),
    }
}

// Carries out a row.
fn remove_row<E: BoundedEnv>(
    alloc: Global,
    env: &E,
    guards: &BTreeSet<Name>,
    cleared: &mut BTreeSet<Bytes>,
    row: &RegistryRow,
    plan: &mut Plan,
) -> Result<(), Stop>
    requires { IsWithin (negsuc 0) (pos 3) row.now.root }
    ensures row { (held files : Map (List ℕ)) (w : World) (number : ℕ) → lookups w ≡ E.lookups env.now → Guards guards.now (is_guarded w) → AreClear (is_guarded w) (plan_machine held files plan.old) cleared.old → made.RowIn held files plan.old plan.new (codes "Registry") number (remove_row w (numbered number row.now)) result }
    ensures clear { (guarded : List ℕ → Bool) (held files : Map (List ℕ)) → Guards guards.now guarded → AreClear guarded (plan_machine held files plan.old) cleared.old → OnOk result (AreClear guarded (plan_machine held files plan.new) cleared.new) }
    ensures keeps { Keeps plan.old plan.new }
{
    match meaning_of(alloc, env, row) {
        Ok(meaning) => {
            let done = remove_whole(alloc, plan, guards, cleared, &meaning);
            drop(meaning);
            done
        }
        Err(stop) => Err(stop),
    }
}

// Carries out the row with this number.
fn remove_numbered<E: BoundedEnv>(
    alloc: Global,
    env: &E,
    guards: &BTreeSet<Name>,
    cleared: &mut BTreeSet<Bytes>,
    row: Row<'_, RegistryRow>,
    plan: &mut Plan,
) -> Result<(), PlanError>
    requires { IsWithin (negsuc 0) (pos 3) row.1.now.root }
    ensures row { (held files : Map (List ℕ)) (w : World) → lookups w ≡ E.lookups env.now → Guards guards.now (is_guarded w) → AreClear (is_guarded w) (plan_machine held files plan.old) cleared.old → made.Row held files plan.old plan.new (remove_row w (as_numbered row.entry)) result }
    ensures clear { (guarded : List ℕ → Bool) (held files : Map (List ℕ)) → Guards guards.now guarded → AreClear guarded (plan_machine held files plan.old) cleared.old → OnOk result (AreClear guarded (plan_machine held files plan.new) cleared.new) }
    ensures keeps { Keeps plan.old plan.new }
{
    let (number, row) = row;
    match remove_row(alloc, env, guards, cleared, row, plan) {
        Ok(()) => Ok(()),
        Err(stop) => Err(stop.error(alloc, "Registry", number)),
    }
}

/// Carries out rows, one after the other, but for what is guarded.
pub fn remove_rows<E: BoundedEnv>(
    alloc: Global,
    env: &E,
    guards: &BTreeSet<Name>,
    rows: &[Row<'_, RegistryRow>],
    plan: &mut Plan,
) -> Result<(), PlanError>
    requires { All (λ r. IsWithin (negsuc 0) (pos 3) r.1.now.root) rows.now }
    ensures rows { (held files : Map (List ℕ)) (w : World) → lookups w ≡ E.lookups env.now → Guards guards.now (is_guarded w) → made.Rows held files plan.old plan.new (map (λ r. remove_row w (as_numbered r)) rows.now) result }
    ensures keeps { Keeps plan.old plan.new }
{
    let mut cleared = BTreeSet::new(alloc);
    for row in rows {
        match remove_numbered(alloc, env, guards, &mut cleared, *row, plan) {
            Ok(()) => {}
            Err(error) => return Err(error),
        }
    }
    Ok(())
}
