//! The values that rows and counts of kept components guard.

ghost use Rattle.std.specs.Prelude.{◌≡◌, ℕ, Some, IfOk, option_map, pos, negsuc};
ghost use Rattle.std.specs.Result.{result_ok};
ghost use Rattle.mi_model.specs.World.{World};
ghost use Rattle.mi_model.specs.CountRows.{is_guarded};
ghost use Rattle.mi_model.specs.RegistryGuards.{is_guarded_value};
ghost use Rattle.mi_model.specs.RegistryRows.{name_of_value, registry_place};
ghost use Rattle.mi_schema.specs.Lawful.{IsLawful};
ghost use Rattle.mi_schema.specs.Laws.{IsWithin};
ghost use Rattle.mi_records.specs.Choices.{IsAsked};
ghost use Rattle.mi_records.specs.Meaning.{numbered};
ghost use Rattle.mi_records.specs.Removing.{Guards, guard_of, named_values};

use crate::counts::add_counts;
use crate::meaning::place_of;
use crate::names::name_at;
use crate::place::RegistryPlace;
use crate::sees::Sees;
use crate::stop::Stop;
use mi_base::{Name, NoMemory};
use mi_format::BoundedEnv;
use mi_schema::{RegistryRow, values_stand};
use std::alloc::Global;
use std::collections::BTreeSet;

// The name of the value at a place, which is dropped.
fn some_name(alloc: Global, place: RegistryPlace) -> Result<Option<Name>, NoMemory>
    ensures { IfOk result (λ name. name ≡ Some (name_of_value place)) }
{
    let name = name_at(alloc, &place)?;
    Ok(Some(name))
}

// The value that a row names; one whose text is refused names none.
fn value_named<E: BoundedEnv>(
    alloc: Global,
    env: &E,
    row: &RegistryRow,
) -> Result<Option<Name>, NoMemory>
    requires { IsWithin (negsuc 0) (pos 3) row.now.root }
    ensures { (number : ℕ) → IfOk result (λ name. name ≡ option_map name_of_value (result_ok (registry_place (E.lookups env.now) (numbered number row.now)))) }
{
    match place_of(alloc, env, row) {
        Ok(place) => some_name(alloc, place),
        Err(Stop::NoMemory) => Err(NoMemory),
        Err(Stop::Refused(_)) => Ok(None),
    }
}

// The value that a row guards.
fn guard_of<S: Sees>(alloc: Global, seen: &S, row: &RegistryRow) -> Result<Option<Name>, NoMemory>
    requires { IsWithin (negsuc 0) (pos 3) row.now.root }
    ensures { (w : World) (number : ℕ) → IsAsked (S.lookups seen.now) (S.choices seen.now) (S.rows seen.now) w → IfOk result (λ name. name ≡ guard_of w (numbered number row.now)) }
{
    if seen.keeps(row.component.as_str()) {
        value_named(alloc, seen, row)
    } else {
        Ok(None)
    }
}

// The names of the values that rows of Registry of kept components name, in file order.
fn value_names<S: Sees>(alloc: Global, seen: &S) -> Result<Vec<Name>, NoMemory>
    requires { IsLawful (S.rows seen.now) }
    ensures { (w : World) → IsAsked (S.lookups seen.now) (S.choices seen.now) (S.rows seen.now) w → IfOk result (λ names. names.items ≡ named_values w) }
{
    let loaded = seen.package();
    values_stand(loaded);
    let mut names = Vec::new(alloc);
    for row in loaded.registry.values() {
        if let Some(name) = guard_of(alloc, seen, row)? {
            names.push(name)?;
        }
    }
    Ok(names)
}

// The same as a set, which is made at once, since rows mostly stand in the order of their names.
fn value_guards<S: Sees>(alloc: Global, seen: &S) -> Result<BTreeSet<Name>, NoMemory>
    requires { IsLawful (S.rows seen.now) }
    ensures { (w : World) → IsAsked (S.lookups seen.now) (S.choices seen.now) (S.rows seen.now) w → IfOk result (λ set. Guards set (is_guarded_value w)) }
{
    let names = value_names(alloc, seen)?;
    let set = BTreeSet::from_iter(alloc, names)?;
    Ok(set)
}

/// The names of the values that rows of Registry and counts of kept components name, which leaving rows don't take
/// (this project's own).
pub fn guarded_values<S: Sees>(alloc: Global, seen: &S) -> Result<BTreeSet<Name>, NoMemory>
    requires { IsLawful (S.rows seen.now) }
    ensures { (w : World) → IsAsked (S.lookups seen.now) (S.choices seen.now) (S.rows seen.now) w → IfOk result (λ set. Guards set (is_guarded w)) }
{
    let mut set = value_guards(alloc, seen)?;
    add_counts(alloc, seen, &mut set)?;
    Ok(set)
}
