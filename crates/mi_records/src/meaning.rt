//! What whole rows of Registry and RemoveRegistry mean.

ghost use Rattle.std.specs.Prelude.{◌≡◌, ℕ, List, codes, pos, negsuc, Ok};
ghost use Rattle.mi_model.specs.RegistryRows.{registry_place, removal_place, registry_meaning};
ghost use Rattle.mi_records.specs.Meaning.{numbered, whole};
ghost use Rattle.mi_records.specs.Stops.{Answers, AnswersBy, Tells};
ghost use Rattle.mi_schema.specs.Laws.{IsWithin};

use crate::error::PlanError;
use crate::place::{RegistryPlace, place_in};
use crate::says::{Says, said};
use crate::stop::Stop;
use mi_format::BoundedEnv;
use mi_schema::{RegistryRow, RemoveRegistryRow};
use std::alloc::Global;

/// A whole row: the place that it names, and what it says of it.
#[derive(Drop)]
pub struct RegistryMeaning {
    pub place: RegistryPlace,
    pub says: Says,
}

/// What a row of Registry names.
pub(crate) fn place_of<E: BoundedEnv>(
    alloc: Global,
    env: &E,
    row: &RegistryRow,
) -> Result<RegistryPlace, Stop>
    requires { IsWithin (negsuc 0) (pos 3) row.now.root }
    ensures { (number : ℕ) → Answers (codes "Registry") number (registry_place (E.lookups env.now) (numbered number row.now)) result }
{
    place_in(alloc, env, row.root, row.key.as_str(), &row.name)
}

// What it says of that place.
fn with_place<E: BoundedEnv>(
    alloc: Global,
    env: &E,
    row: &RegistryRow,
    place: RegistryPlace,
) -> Result<RegistryMeaning, Stop>
    ensures { (number : ℕ) → registry_place (E.lookups env.now) (numbered number row.now) ≡ Ok place → AnswersBy whole (codes "Registry") number (registry_meaning (E.lookups env.now) (numbered number row.now)) result }
{
    match said(alloc, env, &row.name, place.name(), &row.value) {
        Ok(says) => Ok(RegistryMeaning { place, says }),
        Err(stop) => {
            drop(place);
            Err(stop)
        }
    }
}

/// What a row of Registry means.
pub(crate) fn meaning_of<E: BoundedEnv>(
    alloc: Global,
    env: &E,
    row: &RegistryRow,
) -> Result<RegistryMeaning, Stop>
    requires { IsWithin (negsuc 0) (pos 3) row.now.root }
    ensures { (number : ℕ) → AnswersBy whole (codes "Registry") number (registry_meaning (E.lookups env.now) (numbered number row.now)) result }
{
    match place_of(alloc, env, row) {
        Ok(place) => with_place(alloc, env, row, place),
        Err(stop) => Err(stop),
    }
}

/// What a row of RemoveRegistry names.
pub(crate) fn removed_place<E: BoundedEnv>(
    alloc: Global,
    env: &E,
    row: &RemoveRegistryRow,
) -> Result<RegistryPlace, Stop>
    requires { IsWithin (negsuc 0) (pos 3) row.now.root }
    ensures { (number : ℕ) → Answers (codes "RemoveRegistry") number (removal_place (E.lookups env.now) (numbered number row.now)) result }
{
    place_in(alloc, env, row.root, row.key.as_str(), &row.name)
}

/// What a row of Registry names, which stands at this number, from 1, in the file; its Root is of the column's range
/// (Registry table, columns Root, Key and Name).
///
/// Refused with the first of `TooDeep` and `BadKey` of the Key, then of the Name. No text of more than 67,108,864 bytes is put
/// together: it is want of memory.
pub fn registry_place<E: BoundedEnv>(
    alloc: Global,
    env: &E,
    number: u32,
    row: &RegistryRow,
) -> Result<RegistryPlace, PlanError>
    requires { IsWithin (negsuc 0) (pos 3) row.now.root }
    ensures { Tells (registry_place (E.lookups env.now) (numbered number row.now)) result }
{
    match place_of(alloc, env, row) {
        Ok(place) => Ok(place),
        Err(stop) => Err(stop.error(alloc, "Registry", number)),
    }
}
