//! The rows that the phases which take files away carry out.

ghost use Rattle.std.specs.Prelude.{◌≡◌, ◌&&◌, ◌||◌, List, IfOk, map, filter};
ghost use Rattle.mi_model.specs.World.{World};
ghost use Rattle.mi_model.specs.Asked.{leaves};
ghost use Rattle.mi_model.specs.Conditions.{has};
ghost use Rattle.mi_model.specs.DuplicateFiles.{copy_rows};
ghost use Rattle.mi_model.specs.RemoveFiles.{leaving_files, rows_in_force};
ghost use Rattle.mi_schema.specs.Lawful.{IsLawful};
ghost use Rattle.mi_schema.specs.RowsOf.{rows_in};
ghost use Rattle.mi_schema.specs.TableRows.{in_key_order};
ghost use Rattle.mi_schema.specs.declared.typed_rows.DuplicateFileRow.{DuplicateFileRow};
ghost use Rattle.mi_schema.specs.declared.typed_rows.FileRow.{FileRow};
ghost use Rattle.mi_schema.specs.declared.typed_rows.RemoveFileRow.{RemoveFileRow};
ghost use Rattle.mi_records.specs.Choices.{IsAsked};
ghost use Rattle.mi_records.specs.Order.{as_numbered};
ghost use Rattle.mi_files.specs.Taking.{is_in_force};

use mi_base::NoMemory;
use mi_records::{Row, Sees, in_key_order};
use mi_schema::{DuplicateFileRow, FileRow, Package, RemoveFileRow, keys_stand, tables_small};
use std::alloc::Global;

// ---- tables

fn file_rows(alloc: Global, loaded: &Package) -> Result<Vec<Row<'_, FileRow>>, NoMemory>
    requires { IsLawful loaded.now }
    ensures { IfOk result (λ rows. map as_numbered rows.items ≡ in_key_order (λ (r : FileRow). r.file) (rows_in loaded.now).file) }
{
    keys_stand(loaded);
    tables_small(loaded);
    in_key_order(alloc, &loaded.file)
}

fn remove_file_rows(
    alloc: Global,
    loaded: &Package,
) -> Result<Vec<Row<'_, RemoveFileRow>>, NoMemory>
    requires { IsLawful loaded.now }
    ensures { IfOk result (λ rows. map as_numbered rows.items ≡ in_key_order (λ (r : RemoveFileRow). r.file_key) (rows_in loaded.now).remove_file) }
{
    keys_stand(loaded);
    tables_small(loaded);
    in_key_order(alloc, &loaded.remove_file)
}

/// The rows of DuplicateFile in key order.
pub fn copies_in_order(
    alloc: Global,
    loaded: &Package,
) -> Result<Vec<Row<'_, DuplicateFileRow>>, NoMemory>
    requires { IsLawful loaded.now }
    ensures { IfOk result (λ rows. map as_numbered rows.items ≡ in_key_order (λ (r : DuplicateFileRow). r.file_key) (rows_in loaded.now).duplicate_file) }
{
    keys_stand(loaded);
    tables_small(loaded);
    in_key_order(alloc, &loaded.duplicate_file)
}

// ---- those that are carried out

// Whether an attribute is set.
fn has(bit: u32, attributes: i32) -> bool
    ensures { result ≡ has bit attributes }
{
    attributes.cast_unsigned() & bit != 0
}

// Whether a row of RemoveFile is in force: on installation by bit 1 of InstallMode, on removal by bit 2.
fn is_in_force<E: Sees>(seen: &E, row: &RemoveFileRow) -> bool
    ensures { result ≡ is_in_force (E.choices seen.now) row.now }
{
    let component = row.component.as_str();
    (seen.is_local(component) && has(1, row.install_mode))
        || (seen.leaves(component) && has(2, row.install_mode))
}

fn leaving<'a, E: Sees>(
    alloc: Global,
    seen: &E,
    rows: &[Row<'a, FileRow>],
) -> Result<Vec<Row<'a, FileRow>>, NoMemory>
    ensures { IfOk result (λ taken. taken.items ≡ filter (λ r. (E.choices seen.now).leaving r.1.now.component) rows.now) }
{
    let mut taken = Vec::new(alloc);
    for row in rows {
        if seen.leaves(row.1.component.as_str()) {
            taken.push(*row)?;
        }
    }
    Ok(taken)
}

fn in_force<'a, E: Sees>(
    alloc: Global,
    seen: &E,
    rows: &[Row<'a, RemoveFileRow>],
) -> Result<Vec<Row<'a, RemoveFileRow>>, NoMemory>
    ensures { IfOk result (λ taken. taken.items ≡ filter (λ r. is_in_force (E.choices seen.now) r.1.now) rows.now) }
{
    let mut taken = Vec::new(alloc);
    for row in rows {
        if is_in_force(seen, row.1) {
            taken.push(*row)?;
        }
    }
    Ok(taken)
}

fn leaving_of<'a, E: Sees>(
    alloc: Global,
    seen: &E,
    rows: &[Row<'a, DuplicateFileRow>],
) -> Result<Vec<Row<'a, DuplicateFileRow>>, NoMemory>
    ensures { IfOk result (λ taken. taken.items ≡ filter (λ r. (E.choices seen.now).leaving r.1.now.component) rows.now) }
{
    let mut taken = Vec::new(alloc);
    for row in rows {
        if seen.leaves(row.1.component.as_str()) {
            taken.push(*row)?;
        }
    }
    Ok(taken)
}

/// The rows of File of leaving components, in key order.
pub fn leaving_files<'a, E: Sees>(
    alloc: Global,
    seen: &'a E,
) -> Result<Vec<Row<'a, FileRow>>, NoMemory>
    requires { IsLawful (E.rows seen.now) }
    ensures { (w : World) → IsAsked (E.lookups seen.now) (E.choices seen.now) (E.rows seen.now) w → IfOk result (λ rows. map as_numbered rows.items ≡ leaving_files w) }
{
    let rows = file_rows(alloc, seen.package())?;
    let taken = leaving(alloc, seen, rows.as_slice())?;
    Ok(taken)
}

/// The rows of RemoveFile that are in force, in key order.
pub fn rows_in_force<'a, E: Sees>(
    alloc: Global,
    seen: &'a E,
) -> Result<Vec<Row<'a, RemoveFileRow>>, NoMemory>
    requires { IsLawful (E.rows seen.now) }
    ensures { (w : World) → IsAsked (E.lookups seen.now) (E.choices seen.now) (E.rows seen.now) w → IfOk result (λ rows. map as_numbered rows.items ≡ rows_in_force w) }
{
    let rows = remove_file_rows(alloc, seen.package())?;
    let taken = in_force(alloc, seen, rows.as_slice())?;
    Ok(taken)
}

/// The rows of DuplicateFile of leaving components, in key order.
pub fn leaving_copies<'a, E: Sees>(
    alloc: Global,
    seen: &'a E,
) -> Result<Vec<Row<'a, DuplicateFileRow>>, NoMemory>
    requires { IsLawful (E.rows seen.now) }
    ensures { (w : World) → IsAsked (E.lookups seen.now) (E.choices seen.now) (E.rows seen.now) w → IfOk result (λ rows. map as_numbered rows.items ≡ copy_rows (leaves w) w) }
{
    let rows = copies_in_order(alloc, seen.package())?;
    let taken = leaving_of(alloc, seen, rows.as_slice())?;
    Ok(taken)
}
