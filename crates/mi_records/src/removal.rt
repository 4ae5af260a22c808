//! RemoveRegistryValues: what rows of RemoveRegistry of local components take, which nothing guards.

ghost use Rattle.std.specs.Prelude.{◌≡◌, ◌∷◌, [], List, ℕ, All, OnOk, pos, negsuc, codes, map};
ghost use Rattle.std.specs.FinMap.{keys};
ghost use Rattle.mi_text.specs.Maps.{Map};
ghost use Rattle.mi_model.specs.World.{World};
ghost use Rattle.mi_model.specs.Asked.{lookups};
ghost use Rattle.mi_model.specs.RegistryGuards.{unguarded};
ghost use Rattle.mi_model.specs.RemoveRegistryValues.{removal_touches, removal_row};
ghost use Rattle.mi_model.specs.RegistryRows.{name_of_value};
ghost use Rattle.mi_schema.specs.Laws.{IsWithin};
ghost use Rattle.mi_steps.specs.Follows.{drop_touch};
ghost use Rattle.mi_steps.specs.Makes.{Makes, plan_machine};
ghost use Rattle.mi_records.specs.Keeps.{Keeps};
ghost use Rattle.mi_records.specs.Meaning.{numbered};
ghost use Rattle.mi_records.specs.Order.{as_numbered};
ghost use Rattle.mi_records.specs.Removing.{AreClear};
ghost use Rattle.mi_records.specs.Rows as made;

use crate::clear::clear_once;
use crate::error::PlanError;
use crate::meaning::removed_place;
use crate::names::name_at;
use crate::order::Row;
use crate::place::RegistryPlace;
use crate::stop::Stop;
use mi_base::{Bytes, NoMemory};
use mi_format::BoundedEnv;
use mi_schema::RemoveRegistryRow;
use mi_steps::Plan;
use std::alloc::Global;
use std::collections::BTreeSet;

// Takes away the value at a place.
fn drop_value(alloc: Global, plan: &mut Plan, place: &RegistryPlace) -> Result<(), NoMemory>
    ensures makes { (held files : Map (List ℕ)) → OnOk result (Makes held files plan.old plan.new (drop_touch (name_of_value place.now) ∷ [])) }
    ensures keeps { Keeps plan.old plan.new }
{
    let name = name_at(alloc, place)?;
    plan.drop_name(alloc, &name)?;
    Ok(())
}

// Takes away the key of a place, or its value. The keys that were cleared are noted.
fn remove_place(
    alloc: Global,
    plan: &mut Plan,
    cleared: &mut BTreeSet<Bytes>,
    place: &RegistryPlace,
) -> Result<(), NoMemory>
    ensures makes { (held files : Map (List ℕ)) → AreClear unguarded (plan_machine held files plan.old) cleared.old → OnOk result (Makes held files plan.old plan.new (removal_touches place.now (keys (plan_machine held files plan.old)))) }
    ensures clear { (held files : Map (List ℕ)) → AreClear unguarded (plan_machine held files plan.old) cleared.old → OnOk result (AreClear unguarded (plan_machine held files plan.new) cleared.new) }
    ensures keeps { Keeps plan.old plan.new }
{
    if place.name() == "-" {
        let none = BTreeSet::new(alloc);
        clear_once(alloc, plan, &none, cleared, place)
    } else {
        drop_value(alloc, plan, place)
    }
}

// The same, as a row is answered.
fn remove_whole(
    alloc: Global,
    plan: &mut Plan,
    cleared: &mut BTreeSet<Bytes>,
    place: &RegistryPlace,
) -> Result<(), Stop>
    ensures makes { (held files : Map (List ℕ)) → AreClear unguarded (plan_machine held files plan.old) cleared.old → made.Only held files plan.old plan.new (removal_touches place.now (keys (plan_machine held files plan.old))) result }
    ensures clear { (held files : Map (List ℕ)) → AreClear unguarded (plan_machine held files plan.old) cleared.old → OnOk result (AreClear unguarded (plan_machine held files plan.new) cleared.new) }
    ensures keeps { Keeps plan.old plan.new }
{
    match remove_place(alloc, plan, cleared, place) {
        Ok(()) => Ok(()),
        Err(_) => Err(Stop::NoMemory),
    }
}

// Carries out a row.
fn removal_row<E: BoundedEnv>(
    alloc: Global,
    env: &E,
    cleared: &mut BTreeSet<Bytes>,
    row: &RemoveRegistryRow,
    plan: &mut Plan,
) -> Result<(), Stop>
    requires { IsWithin (negsuc 0) (pos 3) row.now.root }
    ensures row { (held files : Map (List ℕ)) (w : World) (number : ℕ) → lookups w ≡ E.lookups env.now → AreClear unguarded (plan_machine held files plan.old) cleared.old → made.RowIn held files plan.old plan.new (codes "RemoveRegistry") number (removal_row w (numbered number row.now)) result }
    ensures clear { (held files : Map (List ℕ)) → AreClear unguarded (plan_machine held files plan.old) cleared.old → OnOk result (AreClear unguarded (plan_machine held files plan.new) cleared.new) }
    ensures keeps { Keeps plan.old plan.new }
{
    match removed_place(alloc, env, row) {
        Ok(place) => {
            let done = remove_whole(alloc, plan, cleared, &place);
            drop(place);
            done
        }
        Err(stop) => Err(stop),
    }
}

// Carries out the row with this number.
fn removal_numbered<E: BoundedEnv>(
    alloc: Global,
    env: &E,
    cleared: &mut BTreeSet<Bytes>,
    row: Row<'_, RemoveRegistryRow>,
    plan: &mut Plan,
) -> Result<(), PlanError>
    requires { IsWithin (negsuc 0) (pos 3) row.1.now.root }
    ensures row { (held files : Map (List ℕ)) (w : World) → lookups w ≡ E.lookups env.now → AreClear unguarded (plan_machine held files plan.old) cleared.old → made.Row held files plan.old plan.new (removal_row w (as_numbered row.entry)) result }
    ensures clear { (held files : Map (List ℕ)) → AreClear unguarded (plan_machine held files plan.old) cleared.old → OnOk result (AreClear unguarded (plan_machine held files plan.new) cleared.new) }
    ensures keeps { Keeps plan.old plan.new }
{
    let (number, row) = row;
    match removal_row(alloc, env, cleared, row, plan) {
        Ok(()) => Ok(()),
        Err(stop) => Err(stop.error(alloc, "RemoveRegistry", number)),
    }
}

/// Carries out rows, one after the other.
pub fn removal_rows<E: BoundedEnv>(
    alloc: Global,
    env: &E,
    rows: &[Row<'_, RemoveRegistryRow>],
    plan: &mut Plan,
) -> Result<(), PlanError>
    requires { All (λ r. IsWithin (negsuc 0) (pos 3) r.1.now.root) rows.now }
    ensures rows { (held files : Map (List ℕ)) (w : World) → lookups w ≡ E.lookups env.now → made.Rows held files plan.old plan.new (map (λ r. removal_row w (as_numbered r)) rows.now) result }
    ensures keeps { Keeps plan.old plan.new }
{
    let mut cleared = BTreeSet::new(alloc);
    for row in rows {
        match removal_numbered(alloc, env, &mut cleared, *row, plan) {
            Ok(()) => {}
            Err(error) => return Err(error),
        }
    }
    Ok(())
}
