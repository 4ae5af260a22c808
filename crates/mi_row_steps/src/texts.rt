//! Columns of a row, expanded, or the row's refusal.

ghost use Rattle.std.specs.Prelude.{◌≡◌};
ghost use Rattle.mi_model.specs.Refusals.{expanded, expanded_or_empty};
ghost use Rattle.mi_records.specs.Stops.{Tells};

use mi_base::Text;
use mi_format::BoundedEnv;
use mi_records::{PlanError, whole_text};
use std::alloc::Global;

/// An expanded column of the row with this number, from 1, of a table (Formatted). Refused with `TooDeep`; a text of more than
/// 67,108,864 bytes is want of memory.
pub fn expanded<E: BoundedEnv>(
    alloc: Global,
    env: &E,
    table: &str,
    number: u32,
    text: &str,
) -> Result<Text, PlanError>
    ensures { Tells (expanded (E.lookups env.now) table.now number text.now) result }
{
    match whole_text(alloc, env, text) {
        Ok(text) => Ok(text),
        Err(stop) => Err(stop.error(alloc, table, number)),
    }
}

/// The same of a column that may be null, which is no text.
pub fn expanded_or_empty<E: BoundedEnv>(
    alloc: Global,
    env: &E,
    table: &str,
    number: u32,
    text: &Option<Text>,
) -> Result<Text, PlanError>
    ensures { Tells (expanded_or_empty (E.lookups env.now) table.now number text.now) result }
{
    match text {
        Some(text) => expanded(alloc, env, table, number, text.as_str()),
        None => Ok(Text::new(alloc)),
    }
}
