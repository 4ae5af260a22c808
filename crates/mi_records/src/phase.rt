//! Phases as plan calls.

ghost use Rattle.std.specs.Prelude.{◌≡◌, List, ℕ, All, IfOk, map, pos, negsuc};
ghost use Rattle.mi_text.specs.Maps.{Map};
ghost use Rattle.mi_image.specs.Items.{AreThere};
ghost use Rattle.mi_image.specs.Overlays.{former_items, present_items};
ghost use Rattle.mi_model.specs.World.{World};
ghost use Rattle.mi_model.specs.WriteRegistryValues.{written_rows, write_registry_values};
ghost use Rattle.mi_schema.specs.Lawful.{IsLawful};
ghost use Rattle.mi_schema.specs.Laws.{IsWithin};
ghost use Rattle.mi_schema.specs.RowsOf.{rows_in};
ghost use Rattle.mi_schema.specs.TableRows.{in_key_order};
ghost use Rattle.mi_schema.specs.declared.typed_rows.RegistryRow.{RegistryRow};
ghost use Rattle.mi_steps.specs.Follows.{Grows};
ghost use Rattle.mi_steps.specs.Makes.{plan_machine};
ghost use Rattle.mi_records.specs.Choices.{IsAsked};
ghost use Rattle.mi_records.specs.Order.{as_numbered};
ghost use Rattle.mi_records.specs.Rows.{Phase};

use crate::changing::some_comes;
use crate::error::PlanError;
use crate::order::{Row, in_key_order};
use crate::sees::Sees;
use crate::write::write_rows;
use crate::written::written;
use mi_base::NoMemory;
use mi_schema::{Package, RegistryRow, keys_stand, references_stand, tables_small, values_stand};
use mi_steps::Plan;
use std::alloc::Global;

// The rows of Registry in key order.
pub(crate) fn registry_rows(
    alloc: Global,
    loaded: &Package,
) -> Result<Vec<Row<'_, RegistryRow>>, NoMemory>
    requires { IsLawful loaded.now }
    ensures rows { IfOk result (λ rows. map as_numbered rows.items ≡ in_key_order (λ (r : RegistryRow). r.registry) (rows_in loaded.now).registry) }
    ensures roots { IfOk result (λ rows. All (λ r. IsWithin (negsuc 0) (pos 3) r.1.now.root) rows.items) }
{
    keys_stand(loaded);
    tables_small(loaded);
    values_stand(loaded);
    in_key_order(alloc, &loaded.registry)
}

// The rows that are written.
fn written_rows<'a, S: Sees>(
    alloc: Global,
    seen: &'a S,
) -> Result<Vec<Row<'a, RegistryRow>>, NoMemory>
    requires { IsLawful (S.rows seen.now) }
    ensures rows { (w : World) → IsAsked (S.lookups seen.now) (S.choices seen.now) (S.rows seen.now) w → IfOk result (λ rows. map as_numbered rows.items ≡ written_rows w) }
    ensures roots { IfOk result (λ rows. All (λ r. IsWithin (negsuc 0) (pos 3) r.1.now.root) rows.items) }
{
    let loaded = seen.package();
    keys_stand(loaded);
    references_stand(loaded);
    if !some_comes(seen) {
        return Ok(Vec::new(alloc));
    }
    let rows = registry_rows(alloc, loaded)?;
    let taken = written(alloc, seen, rows.as_slice())?;
    Ok(taken)
}

/// WriteRegistryValues: the rows of coming components in byte order of their keys, each over the value that the earlier ones left.
/// Where the component was present, the letter of REINSTALLMODE for the row's root asks for it (WriteRegistryValues Action).
///
/// Refused with the first of `TooDeep`, `BadKey` and `BadValue` of a row, column by column. No text of more than 67,108,864 bytes
/// is put together: it is want of memory.
pub fn plan_write_registry<S: Sees>(
    alloc: Global,
    seen: &S,
    plan: &mut Plan,
) -> Result<(), PlanError>
    requires { IsLawful (S.rows seen.now) }
    ensures phase { (held files : Map (List ℕ)) (w : World) → IsAsked (S.lookups seen.now) (S.choices seen.now) (S.rows seen.now) w → w.machine ≡ plan_machine held files plan.old → Phase held files plan.old plan.new write_registry_values w result }
    ensures there { (held files : Map (List ℕ)) → AreThere held files (present_items plan.old.overlay) → AreThere held files (present_items plan.new.overlay) }
    ensures former { former_items plan.new.overlay ≡ former_items plan.old.overlay }
    ensures grows { Grows plan.old.script plan.new.script }
{
    let rows = written_rows(alloc, seen)?;
    write_rows(alloc, seen, rows.as_slice(), plan)
}
