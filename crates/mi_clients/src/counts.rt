//! What becomes of the counts of shared files (Component table, Attributes, msidbComponentAttributesSharedDllRefCount; the rules of
//! the counts are this project's own).

ghost use Rattle.std.specs.Prelude.{◌≡◌, ◌+◌, ◌∷◌, ◌&&◌, [], List, ℕ, Some, IfOk, OnOk, true, false};
ghost use Rattle.std.specs.FinMap.{keys};
ghost use Rattle.mi_text.specs.Maps.{Map};
ghost use Rattle.mi_changes.specs.Touches.{Clear};
ghost use Rattle.mi_model.specs.World.{World, MakeLocal, MakeAbsent};
ghost use Rattle.mi_model.specs.Asked.{leaves};
ghost use Rattle.mi_model.specs.ComponentRows.{action_in};
ghost use Rattle.mi_model.specs.CountRows.{is_guarded, count_touches, counted_by};
ghost use Rattle.mi_model.specs.ProcessComponents.{takes_counts, touched_counts};
ghost use Rattle.mi_model.specs.Prune.{goes, key_place, key_seat};
ghost use Rattle.mi_model.specs.RegistryGuards.{kept_keys};
ghost use Rattle.mi_model.specs.SharedCounts.{shared_key, is_counted};
ghost use Rattle.mi_schema.specs.Lawful.{IsLawful};
ghost use Rattle.mi_schema.specs.RowsOf.{rows_in};
ghost use Rattle.mi_steps.specs.Makes.{Makes, plan_machine};
ghost use Rattle.mi_records.specs.Choices.{IsAsked};
ghost use Rattle.mi_records.specs.Clients.{IsOwn};
ghost use Rattle.mi_clients.specs.Counts.{GuardsCounts};
ghost use Rattle.mi_records.specs.Keeps.{Keeps};
ghost use Rattle.mi_records.specs.Removing.{Guards};
ghost use Rattle.mi_records.specs.Rows as made;

use mi_base::{Bytes, Name, NoMemory, fold};
use mi_count_steps::{lower, raise_unless, take};
use mi_records::{PlanError, SHARED_KEY, SHARED_ROOT, Sees, is_counted, kept_keys, recorded_path};
use mi_schema::ComponentRow;
use mi_steps::{Plan, Tree, key_place};
use std::alloc::Global;
use std::collections::BTreeSet;

// ---- of a component

// What becomes of the count of a component that is absent: one less, or none where it leaves.
fn count_off<S: Sees>(
    alloc: Global,
    seen: &S,
    guards: &BTreeSet<Name>,
    row: &ComponentRow,
    path: &str,
    plan: &mut Plan,
) -> Result<(), NoMemory>
    ensures makes { (held files : Map (List ℕ)) (w : World) → IsAsked (S.lookups seen.now) (S.choices seen.now) (S.rows seen.now) w → (leaves w row.now.component ≡ true → Guards guards.now (is_guarded w)) → OnOk result (Makes held files plan.old plan.new (count_touches w row.now path.now MakeAbsent)) }
    ensures keeps { Keeps plan.old plan.new }
{
    if seen.leaves(row.component.as_str()) {
        take(alloc, plan, guards, path)
    } else {
        lower(alloc, plan, path)
    }
}

// What becomes of the count of a component that is local: one more, unless it was present.
fn count_on<S: Sees>(
    alloc: Global,
    seen: &S,
    row: &ComponentRow,
    path: &str,
    plan: &mut Plan,
) -> Result<(), NoMemory>
    requires { IsOwn (rows_in (S.rows seen.now)) row.now }
    ensures makes { (held files : Map (List ℕ)) (w : World) → IsAsked (S.lookups seen.now) (S.choices seen.now) (S.rows seen.now) w → OnOk result (Makes held files plan.old plan.new (count_touches w row.now path.now MakeLocal)) }
    ensures keeps { Keeps plan.old plan.new }
{
    raise_unless(alloc, plan, path, seen.was_present(row.component.as_str()))
}

// Carries out what becomes of the count of a counted component that is absent.
fn count_absent<S: Sees>(
    alloc: Global,
    seen: &S,
    guards: &BTreeSet<Name>,
    row: &ComponentRow,
    plan: &mut Plan,
) -> Result<(), PlanError>
    requires lawful { IsLawful (S.rows seen.now) }
    requires own { IsOwn (rows_in (S.rows seen.now)) row.now }
    requires counted { is_counted (rows_in (S.rows seen.now)) row.now ≡ true }
    ensures row { (held files : Map (List ℕ)) (w : World) → IsAsked (S.lookups seen.now) (S.choices seen.now) (S.rows seen.now) w → GuardsCounts guards.now w → made.Row held files plan.old plan.new (λ m. counted_by w row.now (Some MakeAbsent)) result }
    ensures keeps { Keeps plan.old plan.new }
{
    match recorded_path(alloc, seen, row) {
        Ok(path) => match count_off(alloc, seen, guards, row, path, plan) {
            Ok(()) => Ok(()),
            Err(_) => Err(PlanError::NoMemory),
        },
        Err(error) => Err(error),
    }
}

// Carries out what becomes of the count of a counted component that is local.
fn count_local<S: Sees>(
    alloc: Global,
    seen: &S,
    row: &ComponentRow,
    plan: &mut Plan,
) -> Result<(), PlanError>
    requires lawful { IsLawful (S.rows seen.now) }
    requires own { IsOwn (rows_in (S.rows seen.now)) row.now }
    requires counted { is_counted (rows_in (S.rows seen.now)) row.now ≡ true }
    ensures row { (held files : Map (List ℕ)) (w : World) → IsAsked (S.lookups seen.now) (S.choices seen.now) (S.rows seen.now) w → made.Row held files plan.old plan.new (λ m. counted_by w row.now (Some MakeLocal)) result }
    ensures keeps { Keeps plan.old plan.new }
{
    match recorded_path(alloc, seen, row) {
        Ok(path) => match count_on(alloc, seen, row, path, plan) {
            Ok(()) => Ok(()),
            Err(_) => Err(PlanError::NoMemory),
        },
        Err(error) => Err(error),
    }
}

// Carries out what becomes of the count of a counted component, by its action.
fn count_by_action<S: Sees>(
    alloc: Global,
    seen: &S,
    guards: &BTreeSet<Name>,
    row: &ComponentRow,
    plan: &mut Plan,
) -> Result<(), PlanError>
    requires lawful { IsLawful (S.rows seen.now) }
    requires own { IsOwn (rows_in (S.rows seen.now)) row.now }
    requires counted { is_counted (rows_in (S.rows seen.now)) row.now ≡ true }
    ensures row { (held files : Map (List ℕ)) (w : World) → IsAsked (S.lookups seen.now) (S.choices seen.now) (S.rows seen.now) w → GuardsCounts guards.now w → made.Row held files plan.old plan.new (λ m. counted_by w row.now (action_in w row.now.component)) result }
    ensures keeps { Keeps plan.old plan.new }
{
    if seen.is_absent(row.component.as_str()) {
        return count_absent(alloc, seen, guards, row, plan);
    }
    if seen.is_local(row.component.as_str()) {
        return count_local(alloc, seen, row, plan);
    }
    Ok(())
}

/// Carries out what becomes of a component's count: one more where it is local and wasn't present, one less where it is absent and
/// doesn't leave, and where it leaves no count, unless it is guarded. Refused with `BadPath` of the row of File whose path is past
/// the limits.
pub fn process_count<S: Sees>(
    alloc: Global,
    seen: &S,
    guards: &BTreeSet<Name>,
    row: &ComponentRow,
    plan: &mut Plan,
) -> Result<(), PlanError>
    requires lawful { IsLawful (S.rows seen.now) }
    requires own { IsOwn (rows_in (S.rows seen.now)) row.now }
    ensures row { (held files : Map (List ℕ)) (w : World) → IsAsked (S.lookups seen.now) (S.choices seen.now) (S.rows seen.now) w → GuardsCounts guards.now w → made.Row held files plan.old plan.new (λ m. counted_by w row.now (action_in w row.now.component)) result }
    ensures keeps { Keeps plan.old plan.new }
{
    if is_counted(seen.package(), row) {
        count_by_action(alloc, seen, guards, row, plan)
    } else {
        Ok(())
    }
}

// ---- the phase

// Whether a component is counted and leaves.
fn takes_count<S: Sees>(seen: &S, row: &ComponentRow) -> bool
    requires { IsLawful (S.rows seen.now) }
    ensures { result ≡ ((S.choices seen.now).leaving row.now.component && is_counted (rows_in (S.rows seen.now)) row.now) }
{
    seen.leaves(row.component.as_str()) && is_counted(seen.package(), row)
}

/// Whether a component with a count leaves.
pub fn takes_counts<S: Sees>(seen: &S) -> bool
    requires { IsLawful (S.rows seen.now) }
    ensures { (w : World) → IsAsked (S.lookups seen.now) (S.choices seen.now) (S.rows seen.now) w → result ≡ takes_counts w }
{
    let loaded = seen.package();
    for row in loaded.component.values() {
        if takes_count(seen, row) {
            return true;
        }
    }
    false
}

// The place of the key of the counts.
fn shared_place(alloc: Global) -> Result<Bytes, NoMemory>
    ensures { IfOk result (λ place. place ≡ key_place 2 shared_key) }
{
    let key = fold(alloc, SHARED_KEY)?;
    let place = key_place(alloc, b'0' + SHARED_ROOT, key.as_bytes())?;
    Ok(place)
}

fn shared_places(alloc: Global) -> Result<Vec<Bytes>, NoMemory>
    ensures { IfOk result (λ places. places.items ≡ key_place 2 shared_key ∷ []) }
{
    let place = shared_place(alloc)?;
    let mut places = Vec::new(alloc);
    places.push(place)?;
    Ok(places)
}

// Prunes the key of the counts and those above it.
fn prune_shared<S: Sees>(alloc: Global, seen: &S, plan: &mut Plan) -> Result<(), NoMemory>
    requires { IsLawful (S.rows seen.now) }
    ensures makes { (held files : Map (List ℕ)) (w : World) → IsAsked (S.lookups seen.now) (S.choices seen.now) (S.rows seen.now) w → OnOk result (Makes held files plan.old plan.new (Clear (goes key_seat (keys (plan_machine held files plan.old)) (key_place 2 shared_key ∷ []) (kept_keys w)) ∷ [])) }
    ensures keeps { Keeps plan.old plan.new }
{
    let touched = shared_places(alloc)?;
    let kept = kept_keys(alloc, seen)?;
    plan.prune(alloc, Tree::Keys, touched, kept)?;
    Ok(())
}

/// Prunes the key of the counts and those above it, where a component with a count leaves.
pub fn prune_counts<S: Sees>(
    alloc: Global,
    seen: &S,
    takes: bool,
    plan: &mut Plan,
) -> Result<(), NoMemory>
    requires { IsLawful (S.rows seen.now) }
    ensures makes { (held files : Map (List ℕ)) (w : World) → IsAsked (S.lookups seen.now) (S.choices seen.now) (S.rows seen.now) w → takes ≡ takes_counts w → OnOk result (Makes held files plan.old plan.new (Clear (goes key_seat (keys (plan_machine held files plan.old)) (touched_counts w) (kept_keys w)) ∷ [])) }
    ensures keeps { Keeps plan.old plan.new }
{
    if takes {
        prune_shared(alloc, seen, plan)
    } else {
        Ok(())
    }
}
