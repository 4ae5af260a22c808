//! Entries of rows, where they aren't too large.

ghost use Rattle.std.specs.Prelude.{◌≡◌, List, ℕ, true, false};
ghost use Rattle.mi_text.specs.Maps.{Map};
ghost use Rattle.mi_base.specs.Limits.{fits};
ghost use Rattle.mi_steps.specs.Makes.{is_file};
ghost use Rattle.mi_records.specs.Keeps.{Keeps};
ghost use Rattle.mi_records.specs.Values.{is_too_large};
ghost use Rattle.mi_row_steps.specs.Sizes.{IsSized, Put};

use mi_base::Entry;
use mi_records::{PlanError, put_entry, small_enough};
use mi_steps::Plan;
use std::alloc::Global;

/// The entry of the row with this number, from 1, of a table. Refused with `BadValue` where its record has more than 16,777,216
/// bytes.
pub fn sized(alloc: Global, table: &str, number: u32, entry: Entry) -> Result<Entry, PlanError>
    requires { fits entry ≡ false → is_too_large entry ≡ true }
    ensures { IsSized table.now number entry result }
{
    match small_enough(alloc, entry) {
        Ok(entry) => Ok(entry),
        Err(stop) => Err(stop.error(alloc, table, number)),
    }
}

/// Puts the entry of a row, which is no file, as `sized` has it.
pub fn put_sized(
    alloc: Global,
    table: &str,
    number: u32,
    plan: &mut Plan,
    entry: Entry,
) -> Result<(), PlanError>
    requires large { fits entry ≡ false → is_too_large entry ≡ true }
    requires plain { is_file entry ≡ false }
    ensures put { (held files : Map (List ℕ)) → Put held files plan.old plan.new table.now number entry result }
    ensures keeps { Keeps plan.old plan.new }
{
    match sized(alloc, table, number, entry) {
        Ok(entry) => match put_entry(alloc, plan, entry) {
            Ok(()) => Ok(()),
            Err(_) => Err(PlanError::NoMemory),
        },
        Err(error) => Err(error),
    }
}
