//! The launch conditions (LaunchConditions action).

ghost use Rattle.std.specs.Prelude.{◌≡◌, ◌≤◌, ◌+◌, IfOk, codes, length, option_map};
ghost use Rattle.mi_schema.specs.Lawful.{IsLawful};
ghost use Rattle.mi_schema.specs.RowsOf.{rows_in};
ghost use Rattle.mi_model.specs.Refusals.{expanded};
ghost use Rattle.mi_model.specs.LaunchConditions.{described, launch_refusal};
ghost use Rattle.mi_seq.specs.Launches.{found_as, found_from, first_of, comes_before};

use mi_base::{Cause, Env, Fault, NoMemory, Text};
use mi_format::{FormatError, expand};
use mi_schema::{LaunchConditionRow, Package, keys_apart, tables_small};
use std::alloc::Global;

/// A row of LaunchCondition, its number in file order, from 1, and the text of its condition, which is its key.
#[derive(Clone, Copy)]
pub struct Found<'p> {
    pub number: u32,
    pub key: &'p str,
    pub row: &'p LaunchConditionRow,
}

/// Whether a key comes before that of the row, or there is no row.
fn comes_before(key: &str, found: Option<Found<'_>>) -> bool
    ensures { result ≡ comes_before key.now (option_map found_as found.entry) }
{
    match found {
        Some(found) => key < found.key,
        None => true,
    }
}

/// The first by its key of a row, if it is false, and one that was found.
fn first_of<'p, E: Env>(env: &E, row: Found<'p>, found: Option<Found<'p>>) -> Option<Found<'p>>
    ensures { option_map found_as result ≡ first_of (E.lookups env.now) (found_as row.entry) (option_map found_as found.entry) }
{
    let holds = row.row.condition.value(env);
    if !holds && comes_before(row.key, found) {
        Some(row)
    } else {
        found
    }
}

/// The same with the row at this place.
fn with_row<'p, E: Env>(
    loaded: &'p Package,
    env: &E,
    place: usize,
    found: Option<Found<'p>>,
) -> Option<Found<'p>>
    requires { length loaded.now.launch_condition.entries ≤ 65535 }
    ensures { option_map found_as found.entry ≡ found_from (E.lookups env.now) loaded.now.launch_condition.entries (place + 1) → option_map found_as result ≡ found_from (E.lookups env.now) loaded.now.launch_condition.entries place }
{
    match loaded.launch_condition.get_index(place) {
        Some((key, row)) => {
            let number = place as u32 + 1;
            let key = key.as_str();
            first_of(env, Found { number, key, row }, found)
        }
        None => found,
    }
}

/// The first row in key order that is false. Takes no memory.
fn first_false<'p, E: Env>(loaded: &'p Package, env: &E) -> Option<Found<'p>>
    requires { length loaded.now.launch_condition.entries ≤ 65535 }
    ensures { option_map found_as result ≡ found_from (E.lookups env.now) loaded.now.launch_condition.entries 0 }
{
    let mut found = None;
    let mut place = loaded.launch_condition.len();
    while place > 0 {
        place -= 1;
        found = with_row(loaded, env, place, found);
    }
    found
}

/// The refusal of a row with this number and Description.
fn described<E: Env>(
    alloc: Global,
    env: &E,
    number: u32,
    description: &Text,
) -> Result<Cause, NoMemory>
    ensures { IfOk result (λ cause. cause ≡ described (expanded (E.lookups env.now) (codes "LaunchCondition") number description.now)) }
{
    match expand(alloc, description.as_str(), env) {
        Ok(text) => Ok(Cause::Launch(text)),
        Err(FormatError::NoMemory) => Err(NoMemory),
        Err(FormatError::Fault(_)) => {
            let table = Text::copy_of(alloc, "LaunchCondition")?;
            Ok(Cause::Table(Fault::TooDeep(table, number)))
        }
    }
}

/// The refusal by the first row of LaunchCondition, in byte order of the conditions' texts, that is false: its Description,
/// expanded, or that this is nested too deep. None where all hold (LaunchConditions action; LaunchCondition table).
pub fn launch_refusal<E: Env>(
    alloc: Global,
    loaded: &Package,
    env: &E,
) -> Result<Option<Cause>, NoMemory>
    requires { IsLawful loaded.now }
    ensures { IfOk result (λ cause. cause ≡ launch_refusal (rows_in loaded.now) (E.lookups env.now)) }
{
    keys_apart(loaded);
    tables_small(loaded);
    match first_false(loaded, env) {
        Some(found) => {
            let cause = described(alloc, env, found.number, &found.row.description)?;
            Ok(Some(cause))
        }
        None => Ok(None),
    }
}
