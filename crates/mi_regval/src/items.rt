//! The items of lists.

ghost use Rattle.std.specs.Prelude.{◌≡◌, not, ℕ, List, IfOk};
ghost use Rattle.std.specs.List.{slice_split, list_all};
ghost use Rattle.std.specs.BTreeSet.{contains};
ghost use Rattle.mi_text.specs.Maps.{name_cmp, is_among};
ghost use Rattle.mi_regval.specs.Lists.{is_zero, others};

use mi_base::{NoMemory, Text};
use std::alloc::Global;
use std::collections::BTreeSet;

/// The items between the bytes 0.
pub fn items_between(alloc: Global, text: &str) -> Result<Vec<Text>, NoMemory>
    ensures { IfOk result (λ items. items.items ≡ slice_split is_zero text.now) }
{
    let mut items = Vec::new(alloc);
    for part in text.split('\0') {
        items.push(Text::copy_of(alloc, part)?)?;
    }
    Ok(items)
}

fn set_of(alloc: Global, items: &[Text]) -> Result<BTreeSet<Text>, NoMemory>
    ensures { IfOk result (λ set. (item : List ℕ) → contains name_cmp set item ≡ is_among item items.now) }
{
    let mut set = BTreeSet::new(alloc);
    for item in items {
        set.insert(Text::copy_of(alloc, item.as_str())?)?;
    }
    Ok(set)
}

/// Whether none of these items equals one of the added ones.
pub fn none_among(alloc: Global, added: &[Text], items: &[Text]) -> Result<bool, NoMemory>
    ensures { IfOk result (λ none. none ≡ list_all (λ item. not (is_among item added.now)) items.now) }
{
    let added = set_of(alloc, added)?;
    for item in items {
        if added.contains(item) {
            return Ok(false);
        }
    }
    Ok(true)
}

/// Copies of the old items that equal none of the added ones.
pub fn other_items(alloc: Global, added: &[Text], old: &[Text]) -> Result<Vec<Text>, NoMemory>
    ensures { IfOk result (λ items. items.items ≡ others added.now old.now) }
{
    let added = set_of(alloc, added)?;
    let mut kept = Vec::new(alloc);
    for item in old {
        if !added.contains(item) {
            kept.push(Text::copy_of(alloc, item.as_str())?)?;
        }
    }
    Ok(kept)
}
