//! The names that begin with a text, and what stands there.

ghost use Rattle.std.specs.Prelude.{◌≡◌, nat_eq, map, filter, IfOk, string_bytes, string_cmp};
ghost use Rattle.std.specs.List.{starts_with};
ghost use Rattle.std.specs.BTreeMap.{IsOrdered};

use crate::item::Item;
use mi_base::NoMemory;
use std::alloc::Global;
use std::collections::BTreeMap;
use std::ops::Bound;

/// What stands at the names that begin so, in byte order.
pub fn items_under<'a>(
    alloc: Global,
    items: &'a BTreeMap<String, Box<Item>>,
    front: &str,
) -> Result<Vec<&'a Item>, NoMemory>
    ensures found { IfOk result (λ found. map (λ i. i.now) found.items ≡ map (λ e. e.1.value) (filter (λ e. starts_with nat_eq (string_bytes e.0) front.now) items.now.entries)) }
    ensures ordered { IfOk result (λ _. IsOrdered string_cmp items.now) }
{
    let from = String::from_str(alloc, front)?;
    let bytes = front.as_bytes();
    let mut found = Vec::new(alloc);
    for (name, item) in items.range((Bound::Included(&from), Bound::Unbounded)) {
        if !name.as_bytes().starts_with(bytes) {
            return Ok(found);
        }
        found.push(item.as_ref())?;
    }
    Ok(found)
}

/// The names that begin so, in byte order.
pub fn names_under<'a>(
    alloc: Global,
    items: &'a BTreeMap<String, Box<Item>>,
    front: &str,
) -> Result<Vec<&'a str>, NoMemory>
    ensures found { IfOk result (λ found. map (λ n. n.now) found.items ≡ map (λ e. string_bytes e.0) (filter (λ e. starts_with nat_eq (string_bytes e.0) front.now) items.now.entries)) }
    ensures ordered { IfOk result (λ _. IsOrdered string_cmp items.now) }
{
    let from = String::from_str(alloc, front)?;
    let bytes = front.as_bytes();
    let mut found = Vec::new(alloc);
    for (name, _) in items.range((Bound::Included(&from), Bound::Unbounded)) {
        let name = name.as_str();
        if !name.as_bytes().starts_with(bytes) {
            return Ok(found);
        }
        found.push(name)?;
    }
    Ok(found)
}
