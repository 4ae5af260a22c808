//! Items of a text beside an old list.

ghost use Rattle.std.specs.Prelude.{◌≡◌, ◌++◌, Some, IfOk};
ghost use Rattle.std.specs.Option.{option_copied};
ghost use Rattle.mi_regval.specs.Lists.{others, same_items};
ghost use Rattle.mi_regval.specs.ListTexts.{joined};
ghost use Rattle.mi_regval.specs.Changes.{list_change};

use crate::change::Change;
use crate::items::{none_among, other_items};
use crate::lists::{ListText, Side};
use mi_base::{NoMemory, RegValue, Text, Texts};
use std::alloc::Global;

// Whether an old list is its own others and then these items.
fn stays_behind(alloc: Global, items: &[Text], old: &[Text]) -> Result<bool, NoMemory>
    ensures { IfOk result (λ stays. stays ≡ same_items (others items.now old.now ++ items.now) old.now) }
{
    match old.strip_suffix(items) {
        Some(others) => none_among(alloc, items, others),
        None => Ok(false),
    }
}

// Whether an old list is these items and then its own others.
fn stays_before(alloc: Global, items: &[Text], old: &[Text]) -> Result<bool, NoMemory>
    ensures { IfOk result (λ stays. stays ≡ same_items (items.now ++ others items.now old.now) old.now) }
{
    match old.strip_prefix(items) {
        Some(others) => none_among(alloc, items, others),
        None => Ok(false),
    }
}

// Whether an old list is what these items make of it, so that it stays as it is. None of its items is copied.
fn stays(alloc: Global, side: Side, items: &[Text], old: &[Text]) -> Result<bool, NoMemory>
    ensures { IfOk result (λ stays. stays ≡ same_items (joined side items.now (Some old.now)) old.now) }
{
    match side {
        Side::Instead => Ok(items == old),
        Side::Behind => stays_behind(alloc, items, old),
        Side::Before => stays_before(alloc, items, old),
    }
}

// The items behind those of the old list, before them, or in their place.
fn join(alloc: Global, side: Side, items: Texts, old: &Texts) -> Result<Texts, NoMemory>
    ensures { IfOk result (λ t. t ≡ joined side items (Some old.now)) }
{
    if side == Side::Instead {
        return Ok(items);
    }
    let mut items = items.into_vec();
    let mut others = other_items(alloc, &items, old.as_slice())?;
    if side == Side::Behind {
        others.append(&mut items)?;
        return Ok(Texts::from_vec(others));
    }
    items.append(&mut others)?;
    Ok(Texts::from_vec(items))
}

// What a text that is a list makes of an old list.
fn change_list(alloc: Global, list: ListText, old: &Texts) -> Result<Change, NoMemory>
    ensures { IfOk result (λ c. c ≡ list_change (joined list.side list.items (Some old.now)) (Some old.now)) }
{
    let ListText { side, items } = list;
    let stays = stays(alloc, side, items.as_slice(), old.as_slice())?;
    if stays {
        return Ok(Change::Unchanged);
    }
    let joined = join(alloc, side, items, old)?;
    Ok(Change::Value(RegValue::List(joined)))
}

/// What a text that is a list makes of an old list, if there is one.
pub fn change(alloc: Global, list: ListText, old: Option<&Texts>) -> Result<Change, NoMemory>
    ensures { IfOk result (λ c. c ≡ list_change (joined list.side list.items (option_copied old.entry)) (option_copied old.entry)) }
{
    match old {
        Some(old) => change_list(alloc, list, old),
        None => Ok(Change::Value(RegValue::List(list.items))),
    }
}
