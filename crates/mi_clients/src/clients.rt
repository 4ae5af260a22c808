//! ProcessComponents: the clients of components, and the counts of shared files.

ghost use Rattle.std.specs.Prelude.{◌≡◌, List, ℕ, All, IfOk, Ok, Some, map};
ghost use Rattle.mi_text.specs.Maps.{Map};
ghost use Rattle.mi_image.specs.Items.{AreThere};
ghost use Rattle.mi_image.specs.Overlays.{former_items, present_items};
ghost use Rattle.mi_model.specs.World.{World, MakeLocal};
ghost use Rattle.mi_model.specs.ComponentRows.{action_in};
ghost use Rattle.mi_model.specs.Conditions.{has};
ghost use Rattle.mi_model.specs.ClientRows.{client_touches, component_touches};
ghost use Rattle.mi_model.specs.ProcessComponents.{processed, process_components, takes_counts};
ghost use Rattle.mi_schema.specs.Lawful.{IsLawful};
ghost use Rattle.mi_schema.specs.RowsOf.{rows_in};
ghost use Rattle.mi_schema.specs.TableRows.{in_key_order, product_code};
ghost use Rattle.mi_schema.specs.declared.typed_rows.ComponentRow.{ComponentRow};
ghost use Rattle.mi_steps.specs.Follows.{Grows};
ghost use Rattle.mi_steps.specs.Makes.{plan_machine};
ghost use Rattle.mi_records.specs.Choices.{IsAsked};
ghost use Rattle.mi_records.specs.Clients.{IsOwn, component_effect};
ghost use Rattle.mi_clients.specs.Counts.{GuardsCounts};
ghost use Rattle.mi_records.specs.Keeps.{Keeps};
ghost use Rattle.mi_records.specs.Order.{as_numbered};
ghost use Rattle.mi_records.specs.Rows as made;
ghost use Rattle.mi_records.specs.Rows.{Phase};

use crate::counts::{process_count, prune_counts, takes_counts};
use mi_base::{Guid, Name, NoMemory};
use mi_client_steps::{put_clients, take_client};
use mi_records::{
    PlanError, Row, Sees, guarded_values, in_key_order, lacks, product_code, recorded_path,
};
use mi_schema::{ComponentRow, Package, keys_apart, keys_stand, tables_small};
use mi_steps::Plan;
use std::alloc::Global;
use std::collections::BTreeSet;

// ---- clients

// Whether what a component brings stays for good (Component table, Attributes).
fn is_permanent(row: &ComponentRow) -> bool
    ensures { result ≡ has 16 row.now.attributes }
{
    !lacks(16, row.attributes)
}

// ---- rows

// Records the clients of a component with its key path.
fn record_clients<S: Sees>(
    alloc: Global,
    seen: &S,
    product: Guid,
    component: Guid,
    row: &ComponentRow,
    plan: &mut Plan,
) -> Result<(), PlanError>
    requires lawful { IsLawful (S.rows seen.now) }
    requires code { product.number ≡ product_code (rows_in (S.rows seen.now)) }
    requires own { IsOwn (rows_in (S.rows seen.now)) row.now }
    ensures row { (held files : Map (List ℕ)) (w : World) → IsAsked (S.lookups seen.now) (S.choices seen.now) (S.rows seen.now) w → made.Row held files plan.old plan.new (λ m. client_touches w row.now component (Some MakeLocal)) result }
    ensures keeps { Keeps plan.old plan.new }
{
    match recorded_path(alloc, seen, row) {
        Ok(path) => match put_clients(alloc, plan, component, product, path, is_permanent(row)) {
            Ok(()) => Ok(()),
            Err(_) => Err(PlanError::NoMemory),
        },
        Err(error) => Err(error),
    }
}

// Carries out what is done to a component with this code.
fn process_client<S: Sees>(
    alloc: Global,
    seen: &S,
    product: Guid,
    component: Guid,
    row: &ComponentRow,
    plan: &mut Plan,
) -> Result<(), PlanError>
    requires lawful { IsLawful (S.rows seen.now) }
    requires code { product.number ≡ product_code (rows_in (S.rows seen.now)) }
    requires own { IsOwn (rows_in (S.rows seen.now)) row.now }
    ensures row { (held files : Map (List ℕ)) (w : World) → IsAsked (S.lookups seen.now) (S.choices seen.now) (S.rows seen.now) w → made.Row held files plan.old plan.new (λ m. client_touches w row.now component (action_in w row.now.component)) result }
    ensures keeps { Keeps plan.old plan.new }
{
    if seen.is_absent(row.component.as_str()) {
        return take_client(alloc, plan, component, product);
    }
    if seen.is_local(row.component.as_str()) {
        return record_clients(alloc, seen, product, component, row, plan);
    }
    Ok(())
}

// Carries out what becomes of a component's clients.
fn process_clients<S: Sees>(
    alloc: Global,
    seen: &S,
    product: Guid,
    row: &ComponentRow,
    plan: &mut Plan,
) -> Result<(), PlanError>
    requires lawful { IsLawful (S.rows seen.now) }
    requires code { product.number ≡ product_code (rows_in (S.rows seen.now)) }
    requires own { IsOwn (rows_in (S.rows seen.now)) row.now }
    ensures row { (held files : Map (List ℕ)) (w : World) → IsAsked (S.lookups seen.now) (S.choices seen.now) (S.rows seen.now) w → made.Row held files plan.old plan.new (λ m. component_touches w row.now) result }
    ensures keeps { Keeps plan.old plan.new }
{
    match row.component_id {
        Some(component) => process_client(alloc, seen, product, component, row, plan),
        None => Ok(()),
    }
}

// Carries out a row: its clients, then its count.
fn process_row<S: Sees>(
    alloc: Global,
    seen: &S,
    product: Guid,
    guards: &BTreeSet<Name>,
    row: &ComponentRow,
    plan: &mut Plan,
) -> Result<(), PlanError>
    requires lawful { IsLawful (S.rows seen.now) }
    requires code { product.number ≡ product_code (rows_in (S.rows seen.now)) }
    requires own { IsOwn (rows_in (S.rows seen.now)) row.now }
    ensures row { (held files : Map (List ℕ)) (w : World) → IsAsked (S.lookups seen.now) (S.choices seen.now) (S.rows seen.now) w → GuardsCounts guards.now w → made.Row held files plan.old plan.new (λ m. processed w row.now) result }
    ensures keeps { Keeps plan.old plan.new }
{
    match process_clients(alloc, seen, product, row, plan) {
        Ok(()) => process_count(alloc, seen, guards, row, plan),
        Err(error) => Err(error),
    }
}

// Carries out rows, one after the other.
fn process_rows<S: Sees>(
    alloc: Global,
    seen: &S,
    product: Guid,
    guards: &BTreeSet<Name>,
    rows: &[Row<'_, ComponentRow>],
    plan: &mut Plan,
) -> Result<(), PlanError>
    requires lawful { IsLawful (S.rows seen.now) }
    requires code { product.number ≡ product_code (rows_in (S.rows seen.now)) }
    requires own { All (λ r. IsOwn (rows_in (S.rows seen.now)) r.1.now) rows.now }
    ensures rows { (held files : Map (List ℕ)) (w : World) → IsAsked (S.lookups seen.now) (S.choices seen.now) (S.rows seen.now) w → GuardsCounts guards.now w → made.Rows held files plan.old plan.new (map (λ r. component_effect w (as_numbered r)) rows.now) result }
    ensures keeps { Keeps plan.old plan.new }
{
    for row in rows {
        match process_row(alloc, seen, product, guards, row.1, plan) {
            Ok(()) => {}
            Err(error) => return Err(error),
        }
    }
    Ok(())
}

// ---- the phase

// The rows of Component in key order.
fn component_rows(alloc: Global, loaded: &Package) -> Result<Vec<Row<'_, ComponentRow>>, NoMemory>
    requires { IsLawful loaded.now }
    ensures rows { IfOk result (λ rows. map as_numbered rows.items ≡ in_key_order (λ (r : ComponentRow). r.component) (rows_in loaded.now).component) }
    ensures own { IfOk result (λ rows. All (λ r. IsOwn (rows_in loaded.now) r.1.now) rows.items) }
{
    keys_stand(loaded);
    keys_apart(loaded);
    tables_small(loaded);
    in_key_order(alloc, &loaded.component)
}

// The names that are guarded, where a counted component leaves; else none is asked for.
fn count_guards<S: Sees>(alloc: Global, seen: &S, takes: bool) -> Result<BTreeSet<Name>, NoMemory>
    requires { IsLawful (S.rows seen.now) }
    ensures { (w : World) → IsAsked (S.lookups seen.now) (S.choices seen.now) (S.rows seen.now) w → takes ≡ takes_counts w → IfOk result (λ set. GuardsCounts set w) }
{
    if takes {
        guarded_values(alloc, seen)
    } else {
        Ok(BTreeSet::new(alloc))
    }
}

// Carries out the rows.
fn process_all<S: Sees>(
    alloc: Global,
    seen: &S,
    product: Guid,
    takes: bool,
    rows: &[Row<'_, ComponentRow>],
    plan: &mut Plan,
) -> Result<(), PlanError>
    requires lawful { IsLawful (S.rows seen.now) }
    requires code { product.number ≡ product_code (rows_in (S.rows seen.now)) }
    requires own { All (λ r. IsOwn (rows_in (S.rows seen.now)) r.1.now) rows.now }
    ensures rows { (held files : Map (List ℕ)) (w : World) → IsAsked (S.lookups seen.now) (S.choices seen.now) (S.rows seen.now) w → takes ≡ takes_counts w → made.Rows held files plan.old plan.new (map (λ r. component_effect w (as_numbered r)) rows.now) result }
    ensures keeps { Keeps plan.old plan.new }
{
    match count_guards(alloc, seen, takes) {
        Ok(guards) => {
            let done = process_rows(alloc, seen, product, &guards, rows, plan);
            drop(guards);
            done
        }
        Err(_) => Err(PlanError::NoMemory),
    }
}

// Carries out the rows, and prunes behind them.
fn process_and_prune<S: Sees>(
    alloc: Global,
    seen: &S,
    product: Guid,
    rows: &[Row<'_, ComponentRow>],
    plan: &mut Plan,
) -> Result<(), PlanError>
    requires lawful { IsLawful (S.rows seen.now) }
    requires code { product.number ≡ product_code (rows_in (S.rows seen.now)) }
    requires own { All (λ r. IsOwn (rows_in (S.rows seen.now)) r.1.now) rows.now }
    requires order { map as_numbered rows.now ≡ in_key_order (λ (r : ComponentRow). r.component) (rows_in (S.rows seen.now)).component }
    ensures phase { (held files : Map (List ℕ)) (w : World) → IsAsked (S.lookups seen.now) (S.choices seen.now) (S.rows seen.now) w → w.machine ≡ plan_machine held files plan.old → Phase held files plan.old plan.new process_components w result }
    ensures keeps { Keeps plan.old plan.new }
{
    let takes = takes_counts(seen);
    match process_all(alloc, seen, product, takes, rows, plan) {
        Ok(()) => {
            prune_counts(alloc, seen, takes, plan)?;
            Ok(())
        }
        Err(error) => Err(error),
    }
}

/// ProcessComponents, in byte order of the components' keys: this product's client of an absent component goes; a local one with a
/// code gets this product as its client, with its key path, and the system too where it has attribute 16. The key path of a file or
/// folder is taken by the directories as they stand, that of a value as CostFinalize found it (ProcessComponents Action).
///
/// Behind its clients stands the count of a component with attribute 8, a code and a file as its key path, the integer under
/// `Software\Microsoft\Windows\CurrentVersion\SharedDLLs` of the machine that the key path names: one more, up to 4,294,967,295, where
/// it is local and wasn't present; one less where it is absent and doesn't leave; and where it leaves no count, unless a row of
/// Registry or the count of a kept component guards it. Where one left, the keys of the counts are pruned last (Component table,
/// Attributes; the rules of the counts are this project's own). It costs a search for each component, and where one with a count
/// leaves, one for each row of Registry and a sort of what is held.
///
/// Refused with `BadPath` of the row of File whose path is past the limits. A key path of 4,294,967,296 bytes or more is want of
/// memory, and so is a counted one of more than 500, which no file has.
pub fn plan_process_components<S: Sees>(
    alloc: Global,
    seen: &S,
    plan: &mut Plan,
) -> Result<(), PlanError>
    requires { IsLawful (S.rows seen.now) }
    ensures phase { (held files : Map (List ℕ)) (w : World) → IsAsked (S.lookups seen.now) (S.choices seen.now) (S.rows seen.now) w → w.machine ≡ plan_machine held files plan.old → Phase held files plan.old plan.new process_components w result }
    ensures there { (held files : Map (List ℕ)) → AreThere held files (present_items plan.old.overlay) → AreThere held files (present_items plan.new.overlay) }
    ensures former { former_items plan.new.overlay ≡ former_items plan.old.overlay }
    ensures grows { Grows plan.old.script plan.new.script }
{
    let product = product_code(alloc, seen.package())?;
    let rows = component_rows(alloc, seen.package())?;
    process_and_prune(alloc, seen, product, rows.as_slice(), plan)
}
