//! Whether a run changes components.

ghost use Rattle.std.specs.Prelude.{◌≡◌};
ghost use Rattle.std.specs.List.{list_any};
ghost use Rattle.mi_schema.specs.RowsOf.{rows_in};
ghost use Rattle.mi_schema.specs.declared.typed_rows.ComponentRow.{ComponentRow};

use crate::sees::Sees;

/// Whether some component leaves.
pub(crate) fn some_leaves<S: Sees>(seen: &S) -> bool
    ensures { result ≡ list_any (λ (r : ComponentRow). (S.choices seen.now).leaving r.component) (rows_in (S.rows seen.now)).component }
{
    let loaded = seen.package();
    for row in loaded.component.values() {
        if seen.leaves(row.component.as_str()) {
            return true;
        }
    }
    false
}

/// Whether some component comes.
pub(crate) fn some_comes<S: Sees>(seen: &S) -> bool
    ensures { result ≡ list_any (λ (r : ComponentRow). (S.choices seen.now).coming r.component) (rows_in (S.rows seen.now)).component }
{
    let loaded = seen.package();
    for row in loaded.component.values() {
        if seen.comes(row.component.as_str()) {
            return true;
        }
    }
    false
}
