//! Coming rows of File, each with the path of its file.

ghost use Rattle.std.specs.Prelude.{◌≡◌, ◌++◌, ◌∷◌, [], List, All, IfOk, OnOk, map, filter, codes};
ghost use Rattle.mi_base.specs.declared.answers.Fault.TheVariants.{BadPath as bad_path};
ghost use Rattle.mi_model.specs.World.{World};
ghost use Rattle.mi_model.specs.Refusals.{each};
ghost use Rattle.mi_model.specs.InstallFiles as model;
ghost use Rattle.mi_model.specs.InstallFiles.{all_placed, coming_files};
ghost use Rattle.mi_schema.specs.Lawful.{IsLawful};
ghost use Rattle.mi_schema.specs.RowsOf.{rows_in};
ghost use Rattle.mi_schema.specs.TableRows.{in_key_order};
ghost use Rattle.mi_schema.specs.declared.typed_rows.FileRow as file;
ghost use Rattle.mi_records.specs.Choices.{IsAsked};
ghost use Rattle.mi_records.specs.Clients.{IsFault};
ghost use Rattle.mi_records.specs.Order.{as_numbered};
ghost use Rattle.mi_records.specs.Stops.{TellsBy};
ghost use Rattle.mi_installs.specs.Placings.{as_placed, HasFilePath, HasLanguages, HaveLanguages};

use mi_base::{Fault, NoMemory, PathText, Text};
use mi_files::row_path;
use mi_records::{PlanError, Row, Sees, in_key_order};
use mi_schema::{FileRow, Package, keys_stand, tables_small, values_stand};
use std::alloc::Global;

/// A coming row of File, and the path of its file (File table).
#[derive(Drop)]
pub(crate) struct Placed<'a> {
    pub row: &'a FileRow,
    pub path: PathText,
}

// ---- the rows

// The rows of File in key order.
fn file_rows(alloc: Global, loaded: &Package) -> Result<Vec<Row<'_, FileRow>>, NoMemory>
    requires { IsLawful loaded.now }
    ensures rows { IfOk result (λ rows. map as_numbered rows.items ≡ in_key_order (λ (r : file.FileRow). r.file) (rows_in loaded.now).file) }
    ensures languages { IfOk result (λ rows. All (λ r. HaveLanguages r.1.now) rows.items) }
{
    keys_stand(loaded);
    tables_small(loaded);
    values_stand(loaded);
    in_key_order(alloc, &loaded.file)
}

// Those of coming components, of these.
fn coming<'a, E: Sees>(
    alloc: Global,
    seen: &E,
    rows: &[Row<'a, FileRow>],
) -> Result<Vec<Row<'a, FileRow>>, NoMemory>
    ensures { IfOk result (λ taken. taken.items ≡ filter (λ r. (E.choices seen.now).coming r.1.now.component) rows.now) }
{
    let mut taken = Vec::new(alloc);
    for row in rows {
        if seen.comes(row.1.component.as_str()) {
            taken.push(*row)?;
        }
    }
    Ok(taken)
}

// The rows of File of coming components.
fn coming_rows<'a, E: Sees>(alloc: Global, seen: &'a E) -> Result<Vec<Row<'a, FileRow>>, NoMemory>
    requires { IsLawful (E.rows seen.now) }
    ensures rows { (w : World) → IsAsked (E.lookups seen.now) (E.choices seen.now) (E.rows seen.now) w → IfOk result (λ rows. map as_numbered rows.items ≡ coming_files w) }
    ensures languages { IfOk result (λ rows. All (λ r. HaveLanguages r.1.now) rows.items) }
{
    let rows = file_rows(alloc, seen.package())?;
    let taken = coming(alloc, seen, rows.as_slice())?;
    Ok(taken)
}

// ---- their paths

// That the path of a row is refused.
fn refused(alloc: Global, number: u32) -> PlanError
    ensures { IsFault (bad_path (codes "File") number) result }
{
    match Text::copy_of(alloc, "File") {
        Ok(table) => PlanError::Fault(Fault::BadPath(table, number)),
        Err(_) => PlanError::NoMemory,
    }
}

// A row with its path.
fn place<'a, E: Sees>(
    alloc: Global,
    seen: &E,
    row: Row<'a, FileRow>,
) -> Result<Placed<'a>, PlanError>
    requires lawful { IsLawful (E.rows seen.now) }
    requires languages { HaveLanguages row.1.now }
    ensures placed { (w : World) → IsAsked (E.lookups seen.now) (E.choices seen.now) (E.rows seen.now) w → TellsBy as_placed (model.placed w (as_numbered row.entry)) result }
    ensures file { IfOk result HasFilePath }
    ensures languages { IfOk result HasLanguages }
{
    let (number, row) = row;
    match row_path(alloc, seen, row) {
        Ok(Some(path)) => Ok(Placed { row, path }),
        Ok(None) => Err(refused(alloc, number)),
        Err(_) => Err(PlanError::NoMemory),
    }
}

// Adds a row.
fn push<'a>(placed: &mut Vec<Placed<'a>>, row: Placed<'a>) -> Result<(), NoMemory>
    ensures { OnOk result (placed.new.items ≡ placed.old.items ++ row.entry ∷ []) }
{
    placed.push(row)?;
    Ok(())
}

// These rows with their paths, or the first path that is refused.
fn place_all<'a, E: Sees>(
    alloc: Global,
    seen: &E,
    rows: &[Row<'a, FileRow>],
) -> Result<Vec<Placed<'a>>, PlanError>
    requires lawful { IsLawful (E.rows seen.now) }
    requires languages { All (λ r. HaveLanguages r.1.now) rows.now }
    ensures placed { (w : World) → IsAsked (E.lookups seen.now) (E.choices seen.now) (E.rows seen.now) w → TellsBy (λ placed. map as_placed placed.items) (each (model.placed w) (map as_numbered rows.now)) result }
    ensures files { IfOk result (λ placed. All HasFilePath placed.items) }
    ensures languages { IfOk result (λ placed. All HasLanguages placed.items) }
{
    let mut placed = Vec::new(alloc);
    for row in rows {
        match place(alloc, seen, *row) {
            Ok(one) => push(&mut placed, one)?,
            Err(error) => return Err(error),
        }
    }
    Ok(placed)
}

/// The rows of File of coming components, in byte order of their keys, each with the path of its file, or the first path that
/// is refused: `BadPath` of File and the number of its row (File table; Directory table). It costs a search for each row.
pub(crate) fn placed_rows<'a, E: Sees>(
    alloc: Global,
    seen: &'a E,
) -> Result<Vec<Placed<'a>>, PlanError>
    requires { IsLawful (E.rows seen.now) }
    ensures placed { (w : World) → IsAsked (E.lookups seen.now) (E.choices seen.now) (E.rows seen.now) w → TellsBy (λ placed. map as_placed placed.items) (all_placed w) result }
    ensures files { IfOk result (λ placed. All HasFilePath placed.items) }
    ensures languages { IfOk result (λ placed. All HasLanguages placed.items) }
{
    match coming_rows(alloc, seen) {
        Ok(rows) => place_all(alloc, seen, rows.as_slice()),
        Err(_) => Err(PlanError::NoMemory),
    }
}
