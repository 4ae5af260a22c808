//! The levels of features.

ghost use Rattle.std.specs.Prelude.{◌≡◌, IfOk, OnOk, Some, if◌then◌else◌};
ghost use Rattle.std.specs.Int.{int_max};
ghost use Rattle.mi_text.specs.Maps.{Name, same_name};
ghost use Rattle.mi_schema.specs.RowsOf.{rows_in};
ghost use Rattle.mi_model.specs.Conditions.{holds};
ghost use Rattle.mi_wishes.specs.Levels.{raised_by, is_of, level_at, AreLevels};

use mi_base::{Env, NoMemory};
use mi_cond::Cond;
use mi_schema::{ConditionRow, Package};
use std::alloc::Global;
use std::collections::BTreeMap;

/// The greatest Level of the rows of Condition that hold, by feature.
pub type Levels<'a> = BTreeMap<&'a str, i32>;

/// Whether a condition is null or true. Takes no memory.
pub fn holds<E: Env>(condition: &Option<Cond>, env: &E) -> bool
    ensures { result ≡ holds (E.lookups env.now) condition.now }
{
    match condition {
        Some(condition) => condition.value(env),
        None => true,
    }
}

fn greater(old: i32, level: i32) -> i32
    ensures { result ≡ int_max old level }
{
    old.max(level)
}

fn raised_by(level: i32, old: Option<i32>) -> i32
    ensures { result ≡ raised_by level old }
{
    match old {
        Some(old) => greater(old, level),
        None => level,
    }
}

fn put<'a>(levels: &mut Levels<'a>, feature: &'a str, level: i32) -> Result<(), NoMemory>
    ensures { OnOk result ((q : Name) → level_at levels.new q ≡ (if same_name q feature.now then Some level else level_at levels.old q)) }
{
    levels.insert(feature, level)?;
    Ok(())
}

fn raise<'a>(levels: &mut Levels<'a>, feature: &'a str, level: i32) -> Result<(), NoMemory>
    ensures { OnOk result ((q : Name) → level_at levels.new q ≡ (if same_name q feature.now then Some (raised_by level (level_at levels.old q)) else level_at levels.old q)) }
{
    let level = raised_by(level, levels.get(feature).copied());
    put(levels, feature, level)?;
    Ok(())
}

fn raise_by<'a, E: Env>(
    levels: &mut Levels<'a>,
    row: &'a ConditionRow,
    env: &E,
) -> Result<(), NoMemory>
    ensures { OnOk result ((q : Name) → level_at levels.new q ≡ (if is_of (E.lookups env.now) q row.now then Some (raised_by row.now.level (level_at levels.old q)) else level_at levels.old q)) }
{
    if !holds(&row.condition, env) {
        return Ok(());
    }
    raise(levels, row.feature.as_str(), row.level)?;
    Ok(())
}

/// The greatest Level of the rows of Condition that hold, by feature (Condition Table; that the greatest counts is this
/// project's own).
pub fn levels_of<'a, E: Env>(
    alloc: Global,
    loaded: &'a Package,
    env: &E,
) -> Result<Levels<'a>, NoMemory>
    ensures { IfOk result (AreLevels (E.lookups env.now) (rows_in loaded.now).condition) }
{
    let mut levels = BTreeMap::new(alloc);
    for row in loaded.condition.values() {
        raise_by(&mut levels, row, env)?;
    }
    Ok(levels)
}
