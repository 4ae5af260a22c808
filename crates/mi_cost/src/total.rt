//! What names cost over an image.

ghost use Rattle.std.specs.Prelude.{◌≡◌, ◌+◌, ◌-◌, ◌*◌, ◌<◌, ◌≤◌, ◌^◌, IfOk, IfSome, IsErrOf, map, string_bytes, sum_by};
ghost use Rattle.std.specs.BTreeMap.{IsOrdered};
ghost use Rattle.mi_text.specs.Maps.{name_cmp};
ghost use Rattle.mi_cost.specs.Tallies.{note_length, held_size, length_at, counted, pair_of};
ghost use Rattle.mi_cost.specs.declared.error.CostError.TheVariants as CostError;

use crate::error::CostError;
use crate::sizes::item_length;
use mi_base::NoMemory;
use mi_image::Image;
use std::alloc::Global;
use std::collections::BTreeMap;

// A sum and some more.
fn plus(sum: u64, more: u128) -> Result<u64, CostError>
    ensures ok { IfOk result (λ n. n ≡ sum + more) }
    ensures too_big { IsErrOf result CostError.TooBig → 2 ^ 64 ≤ sum + more }
{
    match u64::try_from(more) {
        Ok(more) => sum.checked_add(more).ok_or(CostError::TooBig),
        Err(_) => Err(CostError::TooBig),
    }
}

// The bytes of the record that a name had.
fn length_before(alloc: Global, image: &Image, name: &str) -> Result<Option<u128>, NoMemory>
    ensures bytes { IfOk result (λ o. o ≡ length_at image.now name.now) }
    ensures bound { IfOk result (λ o. IfSome o (λ n. n < 2 ^ 67)) }
{
    match image.get(name) {
        Some(item) => Ok(Some(item_length(alloc, item)?)),
        None => Ok(None),
    }
}

// The bytes of a name's note.
fn note_length(name: &str, before: Option<u128>) -> u128
    requires { IfSome before (λ n. n < 2 ^ 67) }
    ensures { result ≡ note_length name.now before }
{
    match before {
        Some(record) => 5 + name.len() as u128 + 8 + record,
        None => 5 + name.len() as u128,
    }
}

// How much a name gets greater than it was.
fn growth(name: &str, before: Option<u128>, greatest: u128) -> u128
    requires { IfSome before (λ n. n < 2 ^ 67) }
    ensures { result ≡ greatest - held_size name.now before }
{
    match before {
        Some(record) => greatest.saturating_sub(name.len() as u128 + record),
        None => greatest,
    }
}

// A sum and what a name costs that gets as great as this.
fn count(
    alloc: Global,
    image: &Image,
    sum: u64,
    name: &str,
    greatest: u128,
) -> Result<u64, CostError>
    ensures ok { IfOk result (λ n. n ≡ sum + counted image.now (name.now, greatest)) }
    ensures too_big { IsErrOf result CostError.TooBig → 2 ^ 64 ≤ sum + counted image.now (name.now, greatest) }
{
    let before = length_before(alloc, image, name)?;
    let noted = plus(sum, note_length(name, before))?;
    plus(noted, growth(name, before, greatest))
}

// What all names cost that get as great as this.
fn count_names(
    alloc: Global,
    image: &Image,
    sizes: &BTreeMap<String, u128>,
) -> Result<u64, CostError>
    ensures ok { IfOk result (λ n. n ≡ sum_by (counted image.now) (map pair_of sizes.now.entries)) }
    ensures too_big { IsErrOf result CostError.TooBig → 2 ^ 64 ≤ sum_by (counted image.now) (map pair_of sizes.now.entries) }
    ensures ordered { IsOrdered (λ a b. name_cmp (string_bytes a) (string_bytes b)) sizes.now }
{
    let mut sum = 0;
    for (name, greatest) in sizes.iter() {
        sum = count(alloc, image, sum, name.as_str(), *greatest)?;
    }
    Ok(sum)
}

/// What names cost that get as great as this, and so many entries of the rollback area (this project's own).
pub fn count_all(
    alloc: Global,
    image: &Image,
    entries: u64,
    sizes: &BTreeMap<String, u128>,
) -> Result<u64, CostError>
    ensures ok { IfOk result (λ n. n ≡ 4 + 25 * entries + sum_by (counted image.now) (map pair_of sizes.now.entries)) }
    ensures too_big { IsErrOf result CostError.TooBig → 2 ^ 64 ≤ 4 + 25 * entries + sum_by (counted image.now) (map pair_of sizes.now.entries) }
    ensures ordered { IsOrdered (λ a b. name_cmp (string_bytes a) (string_bytes b)) sizes.now }
{
    let names = count_names(alloc, image, sizes)?;
    plus(names, 4 + 25 * entries as u128)
}
