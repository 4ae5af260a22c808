//! The rows of Environment that phases carry out.

ghost use Rattle.std.specs.Prelude.{◌≡◌, IfOk, filter, map, ◌&&◌, ◌||◌};
ghost use Rattle.mi_model.specs.World.{World};
ghost use Rattle.mi_model.specs.Asked.{comes};
ghost use Rattle.mi_model.specs.ComponentRows.{rows_that};
ghost use Rattle.mi_model.specs.EnvironmentRows.{removes, clears};
ghost use Rattle.mi_model.specs.RemoveEnvironmentStrings.{removing_rows};
ghost use Rattle.mi_schema.specs.Lawful.{IsLawful};
ghost use Rattle.mi_schema.specs.RowsOf.{rows_in};
ghost use Rattle.mi_schema.specs.TableRows.{in_key_order};
ghost use Rattle.mi_schema.specs.declared.typed_rows.EnvironmentRow.{EnvironmentRow};
ghost use Rattle.mi_records.specs.Choices.{IsAsked};
ghost use Rattle.mi_records.specs.Order.{as_numbered};
ghost use Rattle.mi_environment.specs.Variables.{is_taken};

use mi_base::NoMemory;
use mi_records::{Row, Sees, in_key_order};
use mi_schema::{EnvironmentRow, Package, keys_stand, tables_small};
use mi_variables::{clears, removes};
use std::alloc::Global;

// The rows of Environment in key order.
fn environment_rows(
    alloc: Global,
    loaded: &Package,
) -> Result<Vec<Row<'_, EnvironmentRow>>, NoMemory>
    requires { IsLawful loaded.now }
    ensures { IfOk result (λ rows. map as_numbered rows.items ≡ in_key_order (λ (r : EnvironmentRow). r.environment) (rows_in loaded.now).environment) }
{
    keys_stand(loaded);
    tables_small(loaded);
    in_key_order(alloc, &loaded.environment)
}

// Those of coming components, of these.
fn coming<'a, S: Sees>(
    alloc: Global,
    seen: &S,
    rows: &[Row<'a, EnvironmentRow>],
) -> Result<Vec<Row<'a, EnvironmentRow>>, NoMemory>
    ensures { IfOk result (λ taken. taken.items ≡ filter (λ r. (S.choices seen.now).coming r.1.now.component) rows.now) }
{
    let mut taken = Vec::new(alloc);
    for row in rows {
        if seen.comes(row.1.component.as_str()) {
            taken.push(*row)?;
        }
    }
    Ok(taken)
}

/// The rows of coming components in key order.
pub fn coming_rows<'a, S: Sees>(
    alloc: Global,
    seen: &'a S,
) -> Result<Vec<Row<'a, EnvironmentRow>>, NoMemory>
    requires { IsLawful (S.rows seen.now) }
    ensures { (w : World) → IsAsked (S.lookups seen.now) (S.choices seen.now) (S.rows seen.now) w → IfOk result (λ rows. map as_numbered rows.items ≡ rows_that (λ (r : EnvironmentRow). r.environment) (λ (r : EnvironmentRow). r.component) (comes w) w.given.rows.environment) }
{
    let rows = environment_rows(alloc, seen.package())?;
    let taken = coming(alloc, seen, rows.as_slice())?;
    Ok(taken)
}

// Whether a row takes its variable, or a part of it, away.
fn is_taken<S: Sees>(seen: &S, row: &EnvironmentRow) -> bool
    ensures { result ≡ is_taken (S.choices seen.now) row.now }
{
    let component = row.component.as_str();
    let name = row.name.as_str();
    (seen.leaves(component) && removes(name)) || (seen.is_local(component) && clears(name))
}

// Those that take away, of these.
fn taking<'a, S: Sees>(
    alloc: Global,
    seen: &S,
    rows: &[Row<'a, EnvironmentRow>],
) -> Result<Vec<Row<'a, EnvironmentRow>>, NoMemory>
    ensures { IfOk result (λ taken. taken.items ≡ filter (λ r. is_taken (S.choices seen.now) r.1.now) rows.now) }
{
    let mut taken = Vec::new(alloc);
    for row in rows {
        if is_taken(seen, row.1) {
            taken.push(*row)?;
        }
    }
    Ok(taken)
}

/// The rows with `-` of leaving components and those with `!` of local ones, in key order.
pub fn removing_rows<'a, S: Sees>(
    alloc: Global,
    seen: &'a S,
) -> Result<Vec<Row<'a, EnvironmentRow>>, NoMemory>
    requires { IsLawful (S.rows seen.now) }
    ensures { (w : World) → IsAsked (S.lookups seen.now) (S.choices seen.now) (S.rows seen.now) w → IfOk result (λ rows. map as_numbered rows.items ≡ removing_rows w) }
{
    let rows = environment_rows(alloc, seen.package())?;
    let taken = taking(alloc, seen, rows.as_slice())?;
    Ok(taken)
}
