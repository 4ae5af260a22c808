//! The variables that rows of kept components guard.

ghost use Rattle.std.specs.Prelude.{◌≡◌, IfOk};
ghost use Rattle.mi_model.specs.World.{World};
ghost use Rattle.mi_model.specs.RemoveEnvironmentStrings.{is_guarded_variable};
ghost use Rattle.mi_records.specs.Choices.{IsAsked};
ghost use Rattle.mi_records.specs.Removing.{Guards};
ghost use Rattle.mi_environment.specs.Variables.{guard_of};

use crate::variable::name_text;
use mi_base::{NoMemory, Text};
use mi_records::Sees;
use mi_schema::EnvironmentRow;
use std::alloc::Global;
use std::collections::BTreeSet;

// The name of the variable that a row guards.
fn guard_of<S: Sees>(
    alloc: Global,
    seen: &S,
    row: &EnvironmentRow,
) -> Result<Option<Text>, NoMemory>
    ensures { (w : World) → IsAsked (S.lookups seen.now) (S.choices seen.now) (S.rows seen.now) w → IfOk result (λ name. name ≡ guard_of w row.now) }
{
    if seen.keeps(row.component.as_str()) {
        Ok(Some(name_text(alloc, row.name.as_str())?))
    } else {
        Ok(None)
    }
}

/// The names of the variables that rows of Environment of kept components name, which leaving rows don't take
/// (this project's own).
pub fn guards<S: Sees>(alloc: Global, seen: &S) -> Result<BTreeSet<Text>, NoMemory>
    ensures { (w : World) → IsAsked (S.lookups seen.now) (S.choices seen.now) (S.rows seen.now) w → IfOk result (λ set. Guards set (is_guarded_variable w)) }
{
    let loaded = seen.package();
    let mut set = BTreeSet::new(alloc);
    for row in loaded.environment.values() {
        if let Some(name) = guard_of(alloc, seen, row)? {
            set.insert(name)?;
        }
    }
    Ok(set)
}
