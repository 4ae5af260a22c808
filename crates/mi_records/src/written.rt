//! The rows that WriteRegistryValues writes.

ghost use Rattle.std.specs.Prelude.{◌≡◌, ◌||◌, ◌&&◌, not, if◌then◌else◌, List, ℕ, All, IfOk, map, filter, pos, negsuc};
ghost use Rattle.mi_model.specs.WriteRegistryValues.{is_of_user, written_rows};
ghost use Rattle.mi_model.specs.RegistryRows.{root_of};
ghost use Rattle.mi_schema.specs.Laws.{IsWithin};
ghost use Rattle.mi_records.specs.Order.{as_numbered};
ghost use Rattle.mi_records.specs.Written.{is_asked, is_taken};

use crate::order::Row;
use crate::place::root_of;
use crate::sees::Sees;
use mi_base::NoMemory;
use mi_schema::RegistryRow;
use std::alloc::Global;

// Whether REINSTALLMODE asks for values of the root of a row by its letter.
fn is_asked<S: Sees>(seen: &S, row: &RegistryRow) -> bool
    requires { IsWithin (negsuc 0) (pos 3) row.now.root }
    ensures { result ≡ is_asked (S.lookups seen.now) (S.choices seen.now).mode row.now.root }
{
    match root_of(seen, row.root) {
        1 | 3 => seen.mode().u,
        _ => seen.mode().m,
    }
}

// Whether a row is written.
fn is_taken<S: Sees>(seen: &S, row: &RegistryRow) -> bool
    requires { IsWithin (negsuc 0) (pos 3) row.now.root }
    ensures { result ≡ is_taken (S.lookups seen.now) (S.choices seen.now) row.now }
{
    let component = row.component.as_str();
    seen.comes(component) && (!seen.was_present(component) || is_asked(seen, row))
}

/// The rows that are written, of these.
pub fn written<'a, S: Sees>(
    alloc: Global,
    seen: &S,
    rows: &[Row<'a, RegistryRow>],
) -> Result<Vec<Row<'a, RegistryRow>>, NoMemory>
    requires { All (λ r. IsWithin (negsuc 0) (pos 3) r.1.now.root) rows.now }
    ensures { IfOk result (λ taken. taken.items ≡ filter (λ r. is_taken (S.lookups seen.now) (S.choices seen.now) r.1.now) rows.now) }
{
    let mut taken = Vec::new(alloc);
    for row in rows {
        if is_taken(seen, row.1) {
            taken.push(*row)?;
        }
    }
    Ok(taken)
}
