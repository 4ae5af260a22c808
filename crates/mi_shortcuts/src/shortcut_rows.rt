//! The rows of Shortcut that phases carry out.

ghost use Rattle.std.specs.Prelude.{◌≡◌, All, IfOk, filter, map};
ghost use Rattle.mi_model.specs.World.{World};
ghost use Rattle.mi_model.specs.Asked.{comes};
ghost use Rattle.mi_model.specs.ComponentRows.{rows_that};
ghost use Rattle.mi_model.specs.Shortcuts.{leaving_shortcuts};
ghost use Rattle.mi_schema.specs.Lawful.{IsLawful};
ghost use Rattle.mi_schema.specs.RowsOf.{rows_in};
ghost use Rattle.mi_schema.specs.TableRows.{in_key_order};
ghost use Rattle.mi_schema.specs.declared.typed_rows.ShortcutRow.{ShortcutRow};
ghost use Rattle.mi_records.specs.Choices.{IsAsked};
ghost use Rattle.mi_records.specs.Order.{as_numbered};
ghost use Rattle.mi_shortcut_rows.specs.Entries.{HasNumbers};

use mi_base::NoMemory;
use mi_records::{Row, Sees, in_key_order};
use mi_schema::{Package, ShortcutRow, keys_stand, tables_small, values_stand};
use std::alloc::Global;

// The rows of Shortcut in key order.
fn shortcut_rows(alloc: Global, loaded: &Package) -> Result<Vec<Row<'_, ShortcutRow>>, NoMemory>
    requires { IsLawful loaded.now }
    ensures rows { IfOk result (λ rows. map as_numbered rows.items ≡ in_key_order (λ (r : ShortcutRow). r.shortcut) (rows_in loaded.now).shortcut) }
    ensures numbers { IfOk result (λ rows. All (λ r. HasNumbers r.1.now) rows.items) }
{
    keys_stand(loaded);
    tables_small(loaded);
    values_stand(loaded);
    in_key_order(alloc, &loaded.shortcut)
}

// Those of coming components, of these.
fn coming<'a, S: Sees>(
    alloc: Global,
    seen: &S,
    rows: &[Row<'a, ShortcutRow>],
) -> Result<Vec<Row<'a, ShortcutRow>>, NoMemory>
    ensures { IfOk result (λ taken. taken.items ≡ filter (λ r. (S.choices seen.now).coming r.1.now.component) rows.now) }
{
    let mut taken = Vec::new(alloc);
    for row in rows {
        if seen.comes(row.1.component.as_str()) {
            taken.push(*row)?;
        }
    }
    Ok(taken)
}

/// The rows of coming components in key order.
pub fn coming_shortcuts<'a, S: Sees>(
    alloc: Global,
    seen: &'a S,
) -> Result<Vec<Row<'a, ShortcutRow>>, NoMemory>
    requires { IsLawful (S.rows seen.now) }
    ensures rows { (w : World) → IsAsked (S.lookups seen.now) (S.choices seen.now) (S.rows seen.now) w → IfOk result (λ rows. map as_numbered rows.items ≡ rows_that (λ (r : ShortcutRow). r.shortcut) (λ (r : ShortcutRow). r.component) (comes w) w.given.rows.shortcut) }
    ensures numbers { IfOk result (λ rows. All (λ r. HasNumbers r.1.now) rows.items) }
{
    let rows = shortcut_rows(alloc, seen.package())?;
    let taken = coming(alloc, seen, rows.as_slice())?;
    Ok(taken)
}

// Those of leaving components, of these.
fn leaving<'a, S: Sees>(
    alloc: Global,
    seen: &S,
    rows: &[Row<'a, ShortcutRow>],
) -> Result<Vec<Row<'a, ShortcutRow>>, NoMemory>
    ensures { IfOk result (λ taken. taken.items ≡ filter (λ r. (S.choices seen.now).leaving r.1.now.component) rows.now) }
{
    let mut taken = Vec::new(alloc);
    for row in rows {
        if seen.leaves(row.1.component.as_str()) {
            taken.push(*row)?;
        }
    }
    Ok(taken)
}

/// The rows of leaving components in key order.
pub fn leaving_shortcuts<'a, S: Sees>(
    alloc: Global,
    seen: &'a S,
) -> Result<Vec<Row<'a, ShortcutRow>>, NoMemory>
    requires { IsLawful (S.rows seen.now) }
    ensures { (w : World) → IsAsked (S.lookups seen.now) (S.choices seen.now) (S.rows seen.now) w → IfOk result (λ rows. map as_numbered rows.items ≡ leaving_shortcuts w) }
{
    let rows = shortcut_rows(alloc, seen.package())?;
    let taken = leaving(alloc, seen, rows.as_slice())?;
    Ok(taken)
}
